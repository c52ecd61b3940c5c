//! The states that a task goes through, the walk of each thread, and eight causes of malformed records.
//!
//! Read `table` first, the states and what changes them, and `walk`, the tasks that a thread runs; then
//! `states`, which takes all tasks of a run through their states: `current`, `homes`, `progress` (with
//! `moves`, `origins` and `turn_edges`) and `regions` find one cause each. `numbering`, `targets`, `nesting`
//! and `misnesting` (with `begun` and `thread_sets`) are calls of their own. `trace_calls` has the same calls
//! for a trace with its tree. `rows` is a table of rows, of which few are written. Each cause also has a call
//! that lists all records with it, as a `Shown`: `gaps_in`, `find_misfits`, `find_moves`, `refused_moves` (in
//! `refusals`), `misplaced_regions`, `find_nested`, `find_misnested` and `find_targets`.
#![tactic(auto)]

mod begun;
mod current;
mod homes;
mod misnesting;
mod moves;
mod nesting;
mod numbering;
mod origins;
mod progress;
mod refusals;
mod regions;
mod rows;
mod states;
mod table;
mod targets;
mod thread_sets;
mod trace_calls;
mod turn_edges;
mod walk;

pub use current::find_misfits;
pub use homes::find_moves;
pub use misnesting::find_misnested;
pub use moves::{Move, Nature, after_move};
pub use nesting::find_nested;
pub use numbering::{gap, gap_in, gaps_in};
pub use ompt_events::State;
pub use refusals::refused_moves;
pub use regions::{Regions, misplaced_regions};
pub use rows::{reach, row};
pub use states::States;
pub use table::{discard_state, next_state, start_state};
pub use targets::{find_targets, target};
pub use trace_calls::{StateFault, nested, run};
