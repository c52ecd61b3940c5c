//! The faults of calls on credits.
use thiserror::Error;

/// Why a call on credits fails. As a `u8` it is the fault's number. `Overlap` and `TooDeep` go before
/// `Memory`: where one of them applies, it is returned, also when out of memory.
#[derive(Clone, Copy, Debug, PartialEq, Eq, Error)]
pub enum CreditFault {
    /// Out of memory.
    #[error("out of memory")]
    Memory = 1,
    /// The new share overlaps an entered one.
    #[error("an entered share overlaps the new one")]
    Overlap = 2,
    /// The share has 1,025 Give halves or 2^48 halves in all, so it cannot be halved again.
    #[error("the share cannot be halved again")]
    TooDeep = 3,
}
