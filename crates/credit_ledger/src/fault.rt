//! The faults of calls on the ledger.
use thiserror::Error;

/// Why a call on the ledger fails. Where more than one applies, it is the last one in this list.
#[derive(Clone, Copy, Debug, PartialEq, Eq, Error)]
pub enum LedgerFault {
    /// Out of memory. Number 1.
    #[error("out of memory")]
    Memory,
    /// The entry with this index overlaps the new one, and none with a smaller index does. Number 2.
    #[error("entry {0} overlaps the new one")]
    Overlap(u32),
    /// The ledger has 2^22 entries. Number 3.
    #[error("the ledger is full")]
    Full,
}
