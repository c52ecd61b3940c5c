//! Why a call of a recorder fails.
ghost use Rattle.std.specs.Prelude.{◌≡◌};
ghost use Rattle.callbacks.specs.Calls.{ledger_refusal};

use credit_ledger::LedgerFault;
use thiserror::Error;

/// Why a call fails. As a `u8` it is the fault's number.
#[derive(Clone, Copy, Debug, PartialEq, Eq, Error)]
pub enum CallFault {
    /// Out of memory.
    #[error("out of memory")]
    Memory = 1,
    /// There are already 2^22 records or entries, 2^32 - 1 children of the task, or 2^32 turns; or more
    /// than 64 dependences are listed.
    #[error("a limit of the file format is reached")]
    Full = 2,
    /// No run makes this call here: the task does not run on the thread, or its state does not allow the
    /// event.
    #[error("the call does not fit the state of the thread or of a task")]
    WrongState = 3,
    /// The path of the task that creates another one has 1,024 numbers.
    #[error("the task is too deep in the tree of tasks")]
    TooDeep = 4,
    /// The credit that the task brings back overlaps what another one brought back: two tasks have the same
    /// path below the same root.
    #[error("another task with this place was finished already")]
    Overlap = 5,
}

/// Returns the fault of a call whose entry the ledger refuses.
pub(crate) fn of_ledger(fault: LedgerFault) -> CallFault
    ensures { result ≡ ledger_refusal fault }
{
    match fault {
        LedgerFault::Memory => CallFault::Memory,
        LedgerFault::Overlap(_) => CallFault::Overlap,
        LedgerFault::Full => CallFault::Full,
    }
}
