//! The records of a trace in columns of few bytes.
//!
//! `PackedTrace` stands for the records of a `Trace`: contracts see the same list. It keeps of each record
//! what an audit asks for: what happened (`Act`) with its thread and the ledger length in eight bytes, the
//! ids and numbers that it names, and its `seq`; claims and lists of dependences are in lists of their own,
//! by the places of their records (`Sparse`). What no clause of an audit needs is gone: the kinds of threads,
//! the number of threads that are requested, flags without a meaning here, and the region of a synchronisation
//! region. Read `trace`, then `act` and `columns`; `parts` takes a record apart for them, and `ids` keeps ids.
//! `listed` is the list that only contracts see.
#![tactic(auto)]

mod act;
mod columns;
mod copies;
mod ids;
mod listed;
mod parts;
mod row;
mod sparse;
mod trace;

pub use act::{Act, PackedEvent};
pub use columns::Numbers;
pub use ids::Ids;
pub use trace::PackedTrace;
