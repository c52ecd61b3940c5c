//! Why a file is not read, or bytes are not written.
ghost use Rattle.std.specs.Prelude.{◌≡◌, ◌↔◌, Some};
ghost use Rattle.certificate.specs.FaultNames.{write_fault_name, write_fault_number, upgrade_fault_name, upgrade_fault_number};

use lines::ReadCause;
use thiserror::Error;

/// Why a file is not read, and where.
#[derive(Clone, Copy, Debug, PartialEq, Eq, Error)]
#[error("line {line}: {}", .cause.name())]
pub struct ReadFault {
    /// The number of the line, from 1. For `Device` and `TurnsSpent` it is one more than the line feeds
    /// that were read.
    pub line: u32,
    pub cause: ReadCause,
}

/// Why bytes are not written. What was written until then is a prefix of them.
#[derive(Clone, Copy, Debug, PartialEq, Eq, Error)]
pub enum WriteFault {
    /// The sink has failed.
    #[error("the sink failed")]
    Device,
    /// Out of memory.
    #[error("out of memory")]
    Memory,
    /// The sink was interrupted, or took none of some bytes, 10,001 times in one call.
    #[error("too many retries")]
    TurnsSpent,
}

/// Why a trace of version 1 has no version 2.
#[derive(Clone, Copy, Debug, PartialEq, Eq, Error)]
pub enum UpgradeFault {
    /// Out of memory.
    #[error("out of memory")]
    Memory,
    /// After the record at this place a task runs that ran on another thread before: its turns are not
    /// known.
    #[error("a task moves to another thread at record {0}")]
    Moved(usize),
}

impl WriteFault {
    /// Returns the number in a report, from 1 to 3.
    pub fn number(self) -> u8
        ensures { result ≡ write_fault_number self }
    {
        match self {
            WriteFault::Device => 1,
            WriteFault::Memory => 2,
            WriteFault::TurnsSpent => 3,
        }
    }

    /// Returns the name in a report.
    pub fn name(self) -> &'static str
        ensures { result.now ≡ write_fault_name self }
    {
        match self {
            WriteFault::Device => "Device",
            WriteFault::Memory => "Memory",
            WriteFault::TurnsSpent => "TurnsSpent",
        }
    }

    /// Returns the fault with this name, if there is one.
    pub fn from_name(name: &str) -> Option<Self>
        ensures { (fault : WriteFault) → (result ≡ Some fault) ↔ (write_fault_name fault ≡ name.now) }
    {
        match name {
            "Device" => Some(WriteFault::Device),
            "Memory" => Some(WriteFault::Memory),
            "TurnsSpent" => Some(WriteFault::TurnsSpent),
            _ => None,
        }
    }
}

impl UpgradeFault {
    /// Returns the number in a report: 1 or 2.
    pub fn number(self) -> u8
        ensures { result ≡ upgrade_fault_number self }
    {
        match self {
            UpgradeFault::Memory => 1,
            UpgradeFault::Moved(_) => 2,
        }
    }

    /// Returns the name in a report.
    pub fn name(self) -> &'static str
        ensures { result.now ≡ upgrade_fault_name self }
    {
        match self {
            UpgradeFault::Memory => "Memory",
            UpgradeFault::Moved(_) => "Moved",
        }
    }
}
