//! The least ledger length at which each task is finished, and its credit is held; which tasks the end of a
//! region waits for, and whether they are finished there.
//!
//! `Known` has the lengths, from the records (`find_known`) or from a ledger's entries. `find_unfinished` returns
//! the first created task that is unfinished at an end, `covers_unfinished` whether a given one is. `Coverage` works
//! on single ends with their credit, and `laws` says why held credit means finished tasks. Read
//! `unfinished` first, then what it uses: `order` (tasks after their parents), `done` (after `lengths`: a
//! length for each task, and one for it and its descendants), `limits` and `meetings` (a length for what
//! each end covers; after `limit`, a length in 32 bits), `waits` (the search where that length is not
//! reached); then `coverage`, after `numbers`.
#![tactic(auto)]

mod coverage;
mod done;
pub mod laws;
mod lengths;
mod limit;
mod limits;
mod meetings;
mod numbers;
mod order;
mod unfinished;
mod waits;

pub use coverage::{CoverFault, Coverage};
pub use unfinished::{
    Known, all_unfinished, covers_unfinished, find_known, find_unfinished, is_unfinished,
};
