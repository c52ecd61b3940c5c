//! The trace file, of version 1, 2 or 3 of its format: a reader of it from any source, and traces and plain
//! bytes written to any sink. Read `device`, `faults`, `reading` and `writing` for what a caller sees, and
//! `laws` for what follows of a file. `window` has the bytes of a source that no line has yet, `kept` the trace
//! so far, and `lists` what that is kept in; the crate `lines` reads and writes each line. `taking` hands the
//! records on one after another and keeps none; `line_reader` reads them for it. `reading_on` reads on
//! several workers: by `blocks`, cut into `pieces` that are judged side by side; `ahead` is what the calling
//! thread has in hand meanwhile. `upgrading` makes a trace of a newer version of an older one; of one of
//! version 1 by what `task_turns` notes of each task.
#![tactic(auto)]

mod ahead;
mod blocks;
mod device;
mod faults;
mod kept;
pub mod laws;
mod line_reader;
mod lists;
mod memory;
mod pieces;
mod reading;
mod reading_on;
mod script_reading;
mod streams;
mod taking;
mod task_turns;
mod upgrading;
mod window;
mod writing;

pub use device::{DeviceFault, Sink, Source};
pub use faults::{ReadFault, UpgradeFault, WriteFault};
pub use lines::ReadCause;
pub use memory::{MemSink, MemSource};
pub use reading::{NEWEST_VERSION, read, read_packed, read_to};
pub use reading_on::{read_blocks, read_on, read_packed_on};
pub use script_reading::read_script;
pub use scripts::{Script, Step};
pub use streams::{FromRead, StdRead, StdWrite, ToWrite};
pub use taking::{MAX_NUMBERED, Taken, Taker, read_each};
pub use upgrading::{to_version_3, upgrade, upgrade_to};
pub use writing::{write, write_bytes};
