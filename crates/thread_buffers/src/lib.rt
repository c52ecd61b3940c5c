//! The buffers of `callbacks`, under the name of a crate of their own.
#![tactic(auto)]

pub use callbacks::{Buffer, BufferFault};
