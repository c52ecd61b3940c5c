//! Where a job reads from: a file that is opened by its name, or standard input.
ghost use Rattle.std.specs.Prelude.{◌≡◌};

use crate::work::{Job, OpenFault};
use certificate::{FromRead, Source};
use std::fs::{File, OpenFile};
use std::io::{self, ErrorKind, IsTerminal};

/// What opens files, and knows of standard input whether somebody sits at it.
pub trait Inputs {
    ghost use Rattle.std.specs.Prelude.{Bool, List, ℕ, Result};
    ghost use Rattle.taskaudit.specs.declared.work.OpenFault.{OpenFault};

    /// A file that is opened, from its beginning.
    type File: Source + Drop;

    /// That a file of this name was tried to open, and how that ended. Only a call gives it.
    ghost opens: { Self → List ℕ → Result Self.File OpenFault → Type 0 };

    /// That it was asked whether standard input is a terminal, with this answer. Only a call gives it.
    ghost sits: { Self → Bool → Type 0 };

    /// Opens the file of this name.
    fn open(&self, name: &str) -> Result<Self::File, OpenFault>
        ensures opens { opens self.now name.now result };

    /// Returns whether standard input is a terminal.
    fn is_terminal(&self) -> bool
        ensures sits { sits self.now result };
}

impl Inputs for HostRuntime {
    type File = FromRead<File>;

    ghost opens = { λ files name answer. Unit {0} };

    ghost sits = { λ files answer. Unit {0} };

    fn open(&self, name: &str) -> Result<FromRead<File>, OpenFault> {
        match open_file(self, name) {
            Ok(file) => Ok(FromRead::new(file)),
            Err(error) => Err(fault_of(error.kind())),
        }
    }

    fn is_terminal(&self) -> bool {
        self.stdin().is_terminal()
    }
}

/// Opens a file that is no folder, which could be opened but not read.
fn open_file(files: &HostRuntime, name: &str) -> io::Result<File> {
    let file = File::open(files, name)?;
    if file.metadata()?.is_dir() {
        return Err(io::Error::from(ErrorKind::IsADirectory));
    }
    Ok(file)
}

/// The fault for an error of std.
fn fault_of(kind: ErrorKind) -> OpenFault {
    match kind {
        ErrorKind::NotFound => OpenFault::Missing,
        ErrorKind::PermissionDenied => OpenFault::Denied,
        ErrorKind::IsADirectory => OpenFault::Folder,
        _ => OpenFault::Other,
    }
}
