//! Why a run of a script has no trace.
ghost use Rattle.std.specs.Prelude.{◌≡◌};
ghost use Rattle.scripts.specs.Runs.{line_of_fault};
ghost use Rattle.scripts.specs.Parts.{fault_of_call, line_of_stop, fault_of_stop, comes_first, first_stop};
ghost use Rattle.scripts.specs.declared.run_fault.RunFault.TheVariants.{Memory};

use callbacks::CallFault;
use std::alloc::AllocError;
use thiserror::Error;

/// Why a run of a script has no trace.
#[derive(Clone, Copy, Debug, PartialEq, Eq, Error)]
pub enum RunFault {
    /// Out of memory. Number 1.
    #[error("out of memory")]
    Memory,
    /// A thread could not be started. Number 2.
    #[error("no thread")]
    Thread,
    /// The recorder refused the call on this line. Number 3.
    #[error("line {line}: {fault}")]
    Call { line: u32, fault: CallFault },
}

impl RunFault {
    /// Returns the fault of a call on this line.
    pub(crate) fn of_call(line: u32, fault: CallFault) -> RunFault
        ensures { result ≡ fault_of_call line fault }
    {
        match fault {
            CallFault::Memory => RunFault::Memory,
            _ => RunFault::Call { line, fault },
        }
    }

    /// Returns the first line on which no step is taken any more. It is 0 for a fault of no line.
    pub(crate) fn line(self) -> u32
        ensures { result ≡ line_of_fault self }
    {
        match self {
            RunFault::Memory | RunFault::Thread => 0,
            RunFault::Call { line, .. } => line,
        }
    }
}

/// Why a thread of a run takes no more steps, before its last one.
#[derive(Clone, Copy, Debug)]
pub(crate) enum Stop {
    /// Its own call was refused, or it is out of memory or was not started.
    Refused(RunFault),
    /// The run ends for another thread, before the step on this line.
    Ended { line: u32 },
}

impl Stop {
    /// Returns the line at which it stops; 0 if it stops at none.
    pub(crate) fn line(self) -> u32
        ensures { result ≡ line_of_stop self }
    {
        match self {
            Stop::Refused(fault) => fault.line(),
            Stop::Ended { line } => line,
        }
    }

    /// Returns why the run has no trace, where this stop is the first. The run ends for another thread only
    /// before the line at which that one stops, so the first one is refused.
    pub(crate) fn fault(self) -> RunFault
        ensures { result ≡ fault_of_stop self }
    {
        match self {
            Stop::Refused(fault) => fault,
            Stop::Ended { .. } => RunFault::Memory,
        }
    }
}

/// Returns the stop at the earlier line, if there is one; of two at one line a refusal.
pub(crate) fn first_stop(one: Option<Stop>, other: Option<Stop>) -> Option<Stop>
    ensures { result ≡ first_stop one other }
{
    match (one, other) {
        (Some(one), Some(other)) if one.comes_first(other) => Some(one),
        (one, None) => one,
        (_, other) => other,
    }
}

impl Stop {
    /// Returns whether this stop is before the other one, or a refusal at the same line.
    fn comes_first(self, other: Stop) -> bool
        ensures { result ≡ comes_first self other }
    {
        match self {
            Stop::Refused(fault) => fault.line() <= other.line(),
            Stop::Ended { line } => line < other.line(),
        }
    }
}

impl From<AllocError> for RunFault {
    ghost from_gives = { λ _ fault. fault ≡ Memory };

    fn from(_error: AllocError) -> RunFault {
        RunFault::Memory
    }
}
