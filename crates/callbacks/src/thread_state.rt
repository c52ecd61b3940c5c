//! What the records of one thread leave.
ghost use Rattle.std.specs.Prelude.{List, None, true, ◌≡◌, ◌++◌, ◌∷◌, [], OnOk, OnErr, IsOk};
ghost use Rattle.ompt_events.specs.declared.records.Record.{Record};
ghost use Rattle.ompt_events.specs.Records.{begun_root, forked};
ghost use Rattle.callbacks.specs.Standing.{standing_of, begins_own_region, allows};
ghost use Rattle.callbacks.specs.Logs.{IsLeft};

use crate::begun::Begun;
use crate::standing::{Standing, is_on_host};
use ompt_events::Body;
use std::alloc::{AllocError, Global};

/// What the records of one thread leave: which roots are open there and which task runs, and which regions were
/// begun there. By it the thread's next record is allowed or not.
#[derive(Drop)]
pub struct ThreadState {
    standing: Standing,
    /// The regions that were begun here, where regions may lie inside others.
    begun: Begun,
    /// Whether regions may lie inside others.
    nests: bool,
}

impl ThreadState {
    /// Returns the state of a thread without records, in a trace where regions may lie inside others or not.
    /// Takes no memory.
    pub fn new(alloc: Global, nests: bool) -> ThreadState
        ensures left { IsLeft [] result }
        ensures nests { result.nests ≡ nests }
    {
        ThreadState {
            standing: Standing::at_start(alloc),
            begun: Begun::new(alloc),
            nests,
        }
    }

    /// Returns whether regions may lie inside others.
    pub fn nests(&self) -> bool
        ensures { result ≡ self.now.nests }
    {
        self.nests
    }

    /// Returns the open roots, and the task that runs.
    pub fn standing(&self) -> &Standing
        ensures value { result.now ≡ self.now.standing }
        ensures own { (own : List Record) → IsLeft own self.now → result.now ≡ standing_of own }
    {
        &self.standing
    }

    /// Returns whether a record with this body may come next, as far as the thread's records show.
    pub fn allows(&self, body: &Body) -> bool
        ensures { (own : List Record) → IsLeft own self.now → result ≡ allows self.now.nests own body.now }
    {
        self.standing.fits(body)
            && if self.nests {
                self.begins_own_region(body)
            } else {
                self.standing.is_outside(body) && is_on_host(body)
            }
    }

    /// Returns whether a root that begins inside another one is of a region that the current task has begun on
    /// this thread.
    fn begins_own_region(&self, body: &Body) -> bool
        ensures { (own : List Record) → IsLeft own self.now → self.now.nests ≡ true
            → result ≡ begins_own_region own body.now }
    {
        if self.standing.innermost().is_none() {
            return true;
        }
        let current = self.standing.current();
        let is_own = match body.joined() {
            Some(member) => self.begun.has_begun(current, member.parallel),
            None => true,
        };
        is_own && (body.begun_initial().is_none() || self.begun.has_begun_one(current))
    }

    /// Goes on to what the thread's records leave with one more, which has this body. Fails only when out of
    /// memory, and only if the record begins a root or a region; then the state is that of the same records.
    pub fn advance(&mut self, body: &Body) -> Result<(), AllocError>
        ensures left { OnOk result ((own : List Record) (r : Record) → r.body ≡ body.now
            → r.nests ≡ self.old.nests → IsLeft own self.old → IsLeft (own ++ r ∷ []) self.new) }
        ensures nests { self.new.nests ≡ self.old.nests }
        ensures same { OnErr result ((own : List Record) → IsLeft own self.old → IsLeft own self.new) }
        ensures infallible { begun_root body.now ≡ None → forked body.now ≡ None → IsOk result }
    {
        self.begun.note(body, self.nests)?;
        self.standing.advance(body, self.nests)?;
        Ok(())
    }
}
