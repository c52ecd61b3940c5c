//! The verdict on a trace: whether each wait ended only when it was allowed to, and each dependent task
//! started in time.
//!
//! `check` returns yes, no or malformed, and its contract defines each. Read `verdict` and `checking`
//! first, then `phases` and the phases in the order in which it calls them.
#![tactic(auto)]

mod all_shown;
mod before;
mod checking;
mod claims;
mod clear;
mod counter;
mod deciding;
mod earliest;
mod executor;
mod findings;
mod front;
mod gate;
mod in_order;
pub mod laws;
mod lengths;
mod lists;
mod makers;
mod merge;
mod ordered;
mod phases;
mod queue;
mod runs;
mod schedule;
mod sound;
mod starts;
mod suspensions;
mod verdict;
mod violations;
mod waiting;
mod workers;

pub use checking::{check, check_packed};
pub use counter::{check_packed_with_counter, check_with_counter, counter_order};
pub use findings::Findings;
pub use gate::{Gate, OpenGate};
pub use verdict::{CheckFault, Order, Verdict, Why};
pub use violations::{Violation, Violations};
pub use workers::{MAX_WORKERS, check_on, check_packed_on};
