//! What the program is asked to do, and what comes of it.
ghost use Rattle.std.specs.Prelude.{◌≡◌};
ghost use Rattle.taskaudit.specs.Reports.{call_fault_name, call_fault_number, test_name, test_number};
ghost use Rattle.taskaudit.specs.FileFaults.{open_fault_name, packing_name, unpacker, job_name};
ghost use Rattle.taskaudit.specs.Statuses.{done_status, outcome_status};

use callbacks::CallFault;
use certificate::{ReadCause, ReadFault, UpgradeFault, WriteFault};
use checker::{CheckFault, Verdict};
use online::Test;
use std::error::Error;
use std::fmt;

/// What the words of the command line ask for.
#[derive(Clone, Copy, Debug, PartialEq, Eq)]
pub enum Job {
    /// To judge the trace: by this number of threads where one is given, and with all its findings, at most
    /// so many of them, where that number is given.
    Check {
        workers: Option<u32>,
        most: Option<u32>,
    },
    /// To judge the trace and print an order that shows the verdict; or, with `records`, to write the trace with
    /// its records in the order of a yes.
    Order {
        records: bool,
    },
    /// To run the script and write the trace that its recorders gather.
    Record,
    /// To write the trace in this version of its format, or in version 2 where none is given, unless it has that
    /// version or a newer one.
    Upgrade(Option<u32>),
    /// To judge the trace record by record, in the memory of its live tasks.
    Watch,
}

impl Job {
    /// Returns the word that asks for it.
    pub fn name(self) -> &'static str
        ensures { result.now ≡ job_name self }
    {
        match self {
            Job::Check { .. } => "check",
            Job::Order { .. } => "order",
            Job::Record => "record",
            Job::Upgrade(_) => "upgrade",
            Job::Watch => "watch",
        }
    }
}

/// Where a job reads from.
#[derive(Clone, Copy, Debug, PartialEq, Eq)]
pub enum Input<'a> {
    /// Standard input, since no word says where from.
    Unnamed,
    /// Standard input, by the word `-`.
    Standard,
    /// The file of this name.
    Named(&'a str),
}

/// The job that the words of the command line ask for, and where it reads from.
#[derive(Clone, Copy, Debug, PartialEq, Eq)]
pub struct Asked<'a> {
    pub job: Job,
    pub input: Input<'a>,
}

/// What is printed of a verdict.
#[derive(Clone, Copy, Debug, PartialEq, Eq)]
pub enum Printed {
    /// Its report.
    Report,
    /// Its report, and behind it the records at which it shows, at most so many of them.
    Findings(u32),
    /// Its report, and behind it an order that shows it.
    Order,
}

impl Printed {
    ghost use Rattle.taskaudit.specs.Audits.{shown_of};

    /// Returns what a check shows that prints so many findings at most, or none.
    pub fn of_check(most: Option<u32>) -> Printed
        ensures { result ≡ shown_of most }
    {
        match most {
            Some(most) => Printed::Findings(most),
            None => Printed::Report,
        }
    }
}

/// What the program has done.
#[derive(Clone, Copy, Debug, PartialEq, Eq)]
pub enum Done {
    /// A trace has a verdict of this kind, and a text that shows it was written.
    Judged(Outcome),
    /// A trace was written.
    Written,
}

impl Done {
    /// The exit status of the program.
    pub fn status(self) -> u8
        ensures { result ≡ done_status self }
    {
        match self {
            Done::Judged(outcome) => outcome.status(),
            Done::Written => 0,
        }
    }
}

/// The kind of a verdict that was reported.
#[derive(Clone, Copy, Debug, PartialEq, Eq)]
pub enum Outcome {
    /// Each wait ended, and each dependent task started, only when it was allowed to.
    Yes,
    /// A wait ended, or a dependent task started, too early.
    No,
    /// No run within the model gives these records.
    Malformed,
}

impl Outcome {
    ghost use Rattle.taskaudit.specs.Reports.{outcome_of};

    /// The kind of the verdict.
    pub fn of(verdict: &Verdict) -> Outcome
        ensures { result ≡ outcome_of verdict.now }
    {
        match verdict {
            Verdict::Yes { .. } => Outcome::Yes,
            Verdict::No { .. } => Outcome::No,
            Verdict::Malformed { .. } => Outcome::Malformed,
        }
    }

    /// The exit status of the program.
    pub fn status(self) -> u8
        ensures { result ≡ outcome_status self }
    {
        match self {
            Outcome::Yes => 0,
            Outcome::No => 1,
            Outcome::Malformed => 2,
        }
    }
}

/// Why no verdict was reported, or no trace written. Its text is what the program prints, without the line
/// feed.
#[derive(Clone, Copy, Debug, PartialEq, Eq)]
pub enum AuditFault {
    /// The input is not read.
    Read(ReadFault),
    /// What is to be written is not, or not to its end.
    Write(WriteFault),
    /// The trace has no verdict, or the script no thread to run on.
    Check(CheckFault),
    /// The call on this line of the script is refused.
    Call { line: u32, fault: CallFault },
    /// The trace is not upgraded, by the record on this line.
    Upgrade { line: u32, fault: UpgradeFault },
    /// A watch has no verdict: the record on this line, or the end of the file there, fails the test.
    Undecided { line: u32, test: Test },
    /// Out of memory for the report, for the run of the script or for the upgrade.
    Memory,
}

impl fmt::Display for AuditFault {
    ghost use Rattle.std.specs.Prelude.{Some};
    ghost use Rattle.taskaudit.specs.Reports.{fault_line};

    ghost output = { λ fault. Some (fault_line fault) };

    fn fmt<W: fmt::Write>(&self, f: &mut fmt::Formatter<W>) -> fmt::Result {
        match self {
            AuditFault::Read(fault) if fault.cause != ReadCause::Memory => {
                let line = fault.line;
                let number = fault.cause.number();
                let name = fault.cause.name();
                write!(f, "unreadable: line {line}: {number} {name}")
            }
            AuditFault::Write(fault) if *fault != WriteFault::Memory => {
                let number = fault.number();
                let name = fault.name();
                write!(f, "unwritten: {number} {name}")
            }
            AuditFault::Call { line, fault } if *fault != CallFault::Memory => {
                let number = call_fault_number(*fault);
                let name = call_fault_name(*fault);
                write!(f, "refused: line {line}: {number} {name}")
            }
            AuditFault::Upgrade { line, fault } if *fault != UpgradeFault::Memory => {
                let number = fault.number();
                let name = fault.name();
                write!(f, "not upgraded: line {line}: {number} {name}")
            }
            AuditFault::Undecided { line, test } => {
                let number = test_number(*test);
                let name = test_name(*test);
                write!(f, "undecided: line {line}: {number} {name}")
            }
            AuditFault::Check(fault) if *fault != CheckFault::Memory => write!(f, "no thread"),
            _ => write!(f, "out of memory"),
        }
    }
}

impl Error for AuditFault {}

/// The number of the fault in a report, from 1 to 5.
fn call_fault_number(fault: CallFault) -> u8
    ensures { result ≡ call_fault_number fault }
{
    fault as u8
}

/// The name of the fault in a report.
fn call_fault_name(fault: CallFault) -> &'static str
    ensures { result.now ≡ call_fault_name fault }
{
    match fault {
        CallFault::Memory => "Memory",
        CallFault::Full => "Full",
        CallFault::WrongState => "WrongState",
        CallFault::TooDeep => "TooDeep",
        CallFault::Overlap => "Overlap",
    }
}

/// The number of the test in a report, from 1 to 7.
fn test_number(test: Test) -> u8
    ensures { result ≡ test_number test }
{
    test as u8
}

/// The name of the test in a report.
fn test_name(test: Test) -> &'static str
    ensures { result.now ≡ test_name test }
{
    match test {
        Test::Calls => "Calls",
        Test::Regions => "Regions",
        Test::Teams => "Teams",
        Test::Lengths => "Lengths",
        Test::Waits => "Waits",
        Test::Predecessors => "Predecessors",
        Test::End => "End",
    }
}

/// Why a file is not opened.
#[derive(Clone, Copy, Debug, PartialEq, Eq)]
pub enum OpenFault {
    /// There is no file of this name.
    Missing,
    /// The file may not be read.
    Denied,
    /// It is a folder.
    Folder,
    /// Another cause.
    Other,
}

impl OpenFault {
    /// Returns what is printed of it.
    fn name(self) -> &'static str
        ensures { result.now ≡ open_fault_name self }
    {
        match self {
            OpenFault::Missing => "no such file",
            OpenFault::Denied => "permission denied",
            OpenFault::Folder => "is a folder",
            OpenFault::Other => "cannot be opened",
        }
    }
}

/// How a file is compressed.
#[derive(Clone, Copy, Debug, PartialEq, Eq)]
pub enum Packing {
    Gzip,
    Zstandard,
    Xz,
}

impl Packing {
    /// Returns its name.
    fn name(self) -> &'static str
        ensures { result.now ≡ packing_name self }
    {
        match self {
            Packing::Gzip => "gzip",
            Packing::Zstandard => "Zstandard",
            Packing::Xz => "xz",
        }
    }

    /// Returns the program that prints such a file unpacked.
    fn unpacker(self) -> &'static str
        ensures { result.now ≡ unpacker self }
    {
        match self {
            Packing::Gzip => "zcat",
            Packing::Zstandard => "zstdcat",
            Packing::Xz => "xzcat",
        }
    }
}

/// Why the file of this name is not read. Its text is what the program prints, without the line feed.
#[derive(Clone, Copy, Debug, PartialEq, Eq)]
pub enum FileFault<'a> {
    /// It is not opened.
    Unopened {
        name: &'a str,
        why: OpenFault,
    },
    /// It is compressed, and this job cannot read it so.
    Compressed {
        name: &'a str,
        packing: Packing,
        job: Job,
    },
}

impl fmt::Display for FileFault<'_> {
    ghost use Rattle.std.specs.Prelude.{Some};
    ghost use Rattle.taskaudit.specs.FileFaults.{file_line};

    ghost output = { λ fault. Some (file_line fault) };

    fn fmt<W: fmt::Write>(&self, f: &mut fmt::Formatter<W>) -> fmt::Result {
        match self {
            FileFault::Unopened { name, why } => {
                let cause = why.name();
                write!(f, "unopened: {name}: {cause}")
            }
            FileFault::Compressed { name, packing, job } => {
                let kind = packing.name();
                let program = packing.unpacker();
                let word = job.name();
                write!(
                    f,
                    "compressed: {name} is {kind}: run {program} {name} | taskaudit {word} -"
                )
            }
        }
    }
}

impl Error for FileFault<'_> {}

/// Why the program has not done what it is asked for.
#[derive(Drop)]
pub enum Refusal<'a> {
    /// An argument of the command line is not UTF-8.
    NotText,
    /// The arguments are wrong, or ask for help.
    Words(clap::Error),
    /// The file that they name is not read.
    File(FileFault<'a>),
    /// The audit, or the recording, has this fault.
    Audit(AuditFault),
}
