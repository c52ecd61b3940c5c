//! Why a call cannot be added to a script.
use thiserror::Error;

/// Why a call cannot be added to a script. If more than one applies, it is the last one in this list.
#[derive(Clone, Copy, Debug, PartialEq, Eq, Error)]
pub enum ScriptFault {
    /// Out of memory. Number 1.
    #[error("out of memory")]
    Memory,
    /// The script has 2^22 steps, or it makes 2^20 tasks and the call makes one more. Number 2.
    #[error("the script is full")]
    Full,
    /// The call may not follow the steps of the script. Number 3.
    #[error("the call may not follow the calls before it")]
    Misplaced,
}
