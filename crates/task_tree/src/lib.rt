//! The tree of tasks: which task created which, in which order, and the root and the path of each.
//!
//! `Family` has parents, numbers, roots and children, and of each record the index of each task that it
//! names, so that no later phase searches for a task again. `Run` is the records with their family, which all
//! later phases take: it says by place what a record is. `Own` is a run whose records are in the tasks' own
//! order; `Families` have both, and `Tree` has the paths too. Read `run`, `own`, `family`, `families` and
//! `tree` for what a caller sees, then the steps of a build: `makers`, `subjects` (after `links`), `rows`,
//! `roots` (after `forward`), `tables`, which puts these together, and `rootless`. They share the tables of
//! `index_tables`; `link_slot` is a link or none, `standing_slot` the root and depth of a task or none, and
//! `hints` guesses the index of a task.
//!
//! A build names the first record with a cause. `made_again`, `rootless_records` and `turn_gaps` return the
//! places of all of them.
//!
//! A task that runs on on another thread has its records in turns. `laws` says what follows from the
//! definitions of turns alone. `rising` checks in one pass whether file order is the tasks' own order
//! already. If it is not, `turn_table` has the turn of each record, `gaps` the records with a turn
//! gap, and `own_order` the tasks' own order. `turn_table` visits the records by `chains`; `gaps` uses
//! `turn_rows`, and `gap_search` if a record has a gap. `families` puts this together: the tasks by file
//! order and by their own.
#![tactic(auto)]

mod chains;
mod climbing;
mod families;
mod family;
mod forward;
mod gap_search;
mod gaps;
mod hints;
pub mod laws;
mod lineage;
mod link_slot;
mod links;
mod makers;
mod own;
mod own_order;
mod paths;
mod rising;
mod rootless;
mod roots;
mod rows;
mod run;
mod standing_slot;
mod subjects;
mod tables;
mod tree;
mod turn_rows;
mod turn_table;

pub use families::Families;
pub use family::Family;
pub use gaps::{find_gap, turn_gaps};
pub use makers::made_again;
pub use own::Own;
pub use own_order::{OwnOrder, arrange};
pub use rising::turns_rise;
pub use rootless::rootless_records;
pub use run::{Creation, Finishing, RegionEvent, Run, Schedule, ThreadEvent, WaitEvent};
pub use tree::{Tree, TreeFault};
pub use turn_table::{RecordTurns, turns_of};
