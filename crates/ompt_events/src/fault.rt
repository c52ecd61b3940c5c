//! Why a call on the records of a trace fails.
ghost use Rattle.std.specs.Prelude.{◌≡◌, ◌∷◌, [], List, IfErr, OnOk};
ghost use Rattle.ompt_events.specs.declared.records.Record.{Record};
ghost use Rattle.ompt_events.specs.declared.fault.Fault.TheVariants.{Memory};
ghost use Rattle.ompt_events.specs.Causes.{IsFreeOf};
ghost use Rattle.ompt_events.specs.Faults.{FindsFirst, IsFault};

use crate::cause::Cause;
use std::alloc::{AllocError, AllocFailed};
use thiserror::Error;

/// Why a call on the records of a trace fails. Each call says which causes it searches for.
#[derive(Clone, Copy, Debug, PartialEq, Eq, Error)]
pub enum Fault {
    /// Allocation failed.
    #[error("out of memory")]
    Memory,
    /// The records are malformed: `at` is the first record that shows the cause. No lower-numbered cause
    /// that the call searches for occurs.
    #[error("malformed at record {at}")]
    Malformed {
        /// The place of the record, from 0.
        at: usize,
        /// The cause.
        cause: Cause,
    },
}

impl From<AllocError> for Fault {
    ghost from_gives = { λ _ fault. fault ≡ Memory };

    fn from(_error: AllocError) -> Fault {
        Fault::Memory
    }
}

impl<T: Drop> From<AllocFailed<T>> for Fault {
    ghost from_gives = { λ _ fault. fault ≡ Memory };

    fn from(_error: AllocFailed<T>) -> Fault {
        Fault::Memory
    }
}

/// Excludes a cause, given what a search for it found. Fails with the first record that has the cause, if
/// one has it.
pub fn exclude(cause: Cause, found: Option<usize>) -> Result<(), Fault>
    ensures free { OnOk result ((records : List Record) → FindsFirst records cause found
        → IsFreeOf records cause) }
    ensures fault { IfErr result (λ fault. (records : List Record) → FindsFirst records cause found
        → IsFault records (cause ∷ []) fault) }
{
    match found {
        Some(at) => Err(Fault::Malformed { at, cause }),
        None => Ok(()),
    }
}
