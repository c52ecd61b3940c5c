//! The recorded events of an OpenMP 5.2 runtime's tool interface (OMPT), and what they mean.
//!
//! Each call here returns what one record says (`records`), or builds a checked list of records (`trace`).
//! Read `records`, then `names` and `flags`, then `trace`. The definitions are in `specs/`, in the order
//! that `specs/Lib.antt` gives, and `laws` says what follows from the two hardest of them.
#![tactic(auto)]

mod boxed_claim;
mod cause;
mod claim_path;
mod deps;
mod fault;
mod flags;
pub mod laws;
mod named;
mod names;
mod path;
mod records;
mod shown;
mod state;
mod trace;

pub use boxed_claim::BoxedClaim;
pub use cause::Cause;
pub use claim_path::ClaimPath;
pub use deps::{Dep, Deps};
pub use fault::{Fault, exclude};
pub use flags::{CancelFlags, TaskFlags};
pub use named::NamedTasks;
pub use names::{DepKind, Endpoint, Status, SyncKind, ThreadKind, WaitKind, conflicts};
pub use path::Path;
pub use records::{Body, Claim, Membership, Part, Record, Turns, finish};
pub use shown::Shown;
pub use state::State;
pub use trace::{MAX_DEPENDENCES, MAX_DEPTH, MAX_RECORDS, MAX_TASKS, Trace};
