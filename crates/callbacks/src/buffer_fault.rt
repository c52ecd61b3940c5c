//! Why a buffer has no room for one more record.
use thiserror::Error;

/// Why a buffer has no room for one more record. As a `u8` it is the fault's number.
#[derive(Clone, Copy, Debug, PartialEq, Eq, Error)]
pub enum BufferFault {
    /// Out of memory.
    #[error("out of memory")]
    Memory = 1,
    /// The buffer holds 2^22 records, as many as a trace may have. Checked first.
    #[error("the buffer is full")]
    Full = 2,
}
