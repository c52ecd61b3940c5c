//! Records that are looked at one after another, in an order in which a program may have made them.
//! `laws` says when file order is such an order, what the records up to a place tell of it, and which tests of
//! each record with those before it suffice for all. The definitions are in `specs/Online.antt`.
//!
//! `Replay` takes records as if recorders were given their calls: read `replay`, which keeps what the records leave
//! of threads (`thread`) and tasks (`tasks`), and `calls`, the condition of each call.
//!
//! `Items` answers, when a dependent task starts or a taskwait with dependences is complete, whether all its
//! predecessors are complete: read `item_steps`, one step for each record, then `items`, what a record may ask,
//! `uses`, the uses of locations by siblings, and `groups`, how many tasks of a group of uses are not complete.
//! `item_laws` says what an answer means at the record. `lists` looks for a predecessor that is missed where an answer
//! is no.
//!
//! `Waits` takes records one after another too, and answers, when a taskwait, a taskgroup or a barrier ends, whether
//! all that it covers is complete: read `wait_steps`, which says which step a record has, then `waits`, the steps,
//! then `kin`, what is kept of a task, and `team`, what is kept of a team; `kins` and `teams` have these by id, and
//! `scope` counts tasks. `missed` looks for a task that is missed where an answer is no.
//!
//! `Lengths` tests the ledger length that each record names: read `lengths`.
//!
//! `Rosters` answers whether each team has all its members, each with an index of its own: read `rosters`. It keeps
//! the regions of whole teams as `ids`, a set of ids by the intervals in `spans`.
#![tactic(auto)]

mod calls;
mod claims;
mod groups;
mod ids;
pub mod item_laws;
mod item_steps;
mod items;
mod kin;
mod kins;
pub mod laws;
mod lengths;
mod lists;
mod missed;
mod phase;
mod regions;
mod replay;
mod rosters;
mod scope;
mod spans;
mod tasks;
mod team;
mod teams;
mod thread;
mod uses;
mod wait_steps;
mod waits;
mod watch;

pub use items::Items;
pub use lengths::Lengths;
pub use replay::Replay;
pub use rosters::Rosters;
pub use waits::Waits;
pub use watch::{EarlyStart, Test, Watch};
