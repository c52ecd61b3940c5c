//! What a seat of the shared ledger knows: types for contracts alone, of which no value is made.
use crate::Half;
use crate::entry::Entry;
use std::collections::LinkedList;

/// A call on a ledger.
pub enum Call {
    /// Adds an entry.
    Enter(Entry),
    /// Reads the ledger's length.
    Look,
}

/// A call with the number of the seat that made it, and the reply.
pub struct Step {
    pub seat: u64,
    pub call: Call,
    pub reply: u64,
}

/// What a seat does next.
pub enum Stage {
    /// It was split off, and has not learned its number yet.
    Fresh,
    Idle,
    /// It has a ticket.
    Waiting,
    /// It has the turn and the ledger.
    Turn,
    /// It was joined into another one.
    Spent,
}

/// What a seat knows.
pub struct View {
    pub number: u64,
    /// Each seat number that it knows to be given is less than this.
    pub given: u64,
    /// The history that it has seen.
    pub seen: LinkedList<Step>,
    /// The history that it learned from another seat.
    pub told: LinkedList<Step>,
    /// Its own calls.
    pub own: LinkedList<Step>,
    pub stage: Stage,
    pub ticket: u64,
    /// Its shares of the right to enter. Each is the list of halves that leads to it from the whole right.
    pub shares: LinkedList<LinkedList<Half>>,
    /// What the seats that it took in had seen and called.
    pub claims: LinkedList<Claim>,
}

/// What a seat had seen and called.
pub struct Claim {
    pub number: u64,
    pub seen: LinkedList<Step>,
    pub own: LinkedList<Step>,
}
