//! A line of a trace file of version 1, 2 or 3, or of a script: what it stands for, and the line of a record.
//! Read `record_lines` and `step_lines` for what a line stands for, `texts` for how one is written, and
//! `cause` for why there is nothing. `tables` has the members of each callback. A line as it is written is
//! read by `canonical`, value by value (`parts`), past members that the format does not know (`others`). Any
//! other line becomes an object (`objects`), whose members are looked up by name (`members`): by `written` if
//! it has no spaces and escapes, else by `tape` (`values` makes the tape). `bodies` reads a callback of an
//! object.
#![tactic(auto)]

mod bodies;
mod canonical;
mod cause;
mod members;
mod objects;
mod others;
mod parts;
mod record_lines;
mod step_lines;
mod tables;
mod tape;
mod texts;
mod values;
mod written;

pub use bodies::Loose;
pub use cause::ReadCause;
pub use record_lines::{MAX_LINE, TRACES, header, record, record_in_front};
pub use step_lines::{SaidStep, step};
pub use texts::{put_header, put_record};
