//! OMPT's callbacks as library calls (OpenMP 5.2, 19.5.2): recorders for the threads of a program, and the
//! trace that is gathered from them.
//!
//! A program makes its calls on a `Recorder` for each thread and passes `TaskData` values to them; such a
//! value is the tool's own of one task. `close_all` ends the ledger and all recorders, and `gather` or
//! `gather_version_3` makes the trace that an auditor takes. docs/RECORDER.md has a worked program.
//!
//! A thread's records are in a `Buffer`: room is reserved before a record is made, so recording it cannot
//! fail (`reserve_one`, then `push_reserved`). Read `buffer`, `task`, `begun`, `standing` and `thread_state`
//! first, then `log`, `recording` and the calls (`calls`, `regions`, `schedule`), and then `closed`, `gathering` and
//! `laws`. The definitions are in `specs/`; `specs/Lib.antt` gives their order.
#![tactic(auto)]

mod begun;
mod buffer;
mod buffer_fault;
mod calls;
mod closed;
mod fault;
mod gathering;
pub mod laws;
mod log;
mod past;
mod recording;
mod regions;
mod schedule;
mod standing;
mod task;
mod thread_state;

pub use buffer::Buffer;
pub use buffer_fault::BufferFault;
pub use closed::{Closed, close_all};
pub use fault::CallFault;
pub use gathering::{gather, gather_version_3};
pub use recording::{Note, Recorder};
pub use schedule::Schedule;
pub use standing::Standing;
pub use task::{Origin, TaskData, TeamPlace};
pub use thread_state::ThreadState;
