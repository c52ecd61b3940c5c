//! A script: calls of the OMPT interface that recorders are to be given, each on a thread of the script; and
//! runs of scripts, in which the calls of each thread are made on a thread of its own, with a recorder.
//!
//! Scripts: which calls a script may have at which place, and how one is built. Read `script`, then `laws`,
//! which has the rules in plain words. `calls` says what becomes of a task by one call, `lives` keeps what
//! has become of each task, and `tally` counts the steps of each thread and the tasks.
//!
//! Runs: read `running`, then `shared` (how a thread takes a step) and `calling` (how a step becomes a call).
//! `board` is what the threads share behind a lock. `uses` finds in advance which thread goes on with a task,
//! `plan` which steps a thread has, and `seats` gives each thread its seat of the ledger. `run_laws` has what
//! holds of the records of every run, and `cause_laws` what no trace of a run shows, whatever the threads'
//! timing: laws over the contract of `run` alone.
#![tactic(auto)]

mod board;
mod calling;
mod calls;
pub mod cause_laws;
mod fault;
pub mod laws;
mod lives;
mod plan;
mod run_fault;
pub mod run_laws;
mod running;
mod script;
mod seats;
mod shared;
mod tally;
mod uses;

pub use fault::ScriptFault;
pub use lives::Life;
pub use run_fault::RunFault;
pub use running::run;
pub use script::{Script, Step};
