//! Telling why there is no verdict or no trace.
ghost use Rattle.std.specs.Prelude.{◌≡◌, IfSome, is_some, string_bytes};
ghost use Rattle.taskaudit.specs.FileFaults.{file_fault_text_of};
ghost use Rattle.taskaudit.specs.Reports.{fault_text_of};
ghost use Rattle.taskaudit.specs.Tellings.{IsAwaited, IsTold, IsToldWords, IsToldFault, IsToldFile, IsShown, reading_text_of};

use crate::opening::Inputs;
use crate::report::{fault_text, file_fault_text, usage_status};
use crate::version::VERSION_TEXT;
use crate::work::{AuditFault, Done, FileFault, Job, Refusal};
use certificate::WriteFault;
use clap::error::ErrorKind;

/// What `check` tells at a terminal.
const CHECK_READS: &str =
    "taskaudit: reading a trace from this terminal (Ctrl-D ends it); see taskaudit check --help\n";

/// What `order` tells at a terminal.
const ORDER_READS: &str =
    "taskaudit: reading a trace from this terminal (Ctrl-D ends it); see taskaudit order --help\n";

/// What `record` tells at a terminal.
const RECORD_READS: &str =
    "taskaudit: reading a script from this terminal (Ctrl-D ends it); see taskaudit record --help\n";

/// What `upgrade` tells at a terminal.
const UPGRADE_READS: &str =
    "taskaudit: reading a trace from this terminal (Ctrl-D ends it); see taskaudit upgrade --help\n";

/// What `watch` tells at a terminal.
const WATCH_READS: &str =
    "taskaudit: reading a trace from this terminal (Ctrl-D ends it); see taskaudit watch --help\n";

/// Where the program tells why there is no verdict or no trace.
pub trait Console {
    ghost use Rattle.taskaudit.specs.Tellings.{Call, text_of, text_of_file, show, write, print};

    /// That such a call was made, and answered so. Only a call gives it, so `tell` can't claim an answer of
    /// a call that it did not make.
    ghost made: { Self → Call → Type 0 };

    /// The text of the fault, if there is memory for it.
    fn text_of(&self, fault: &AuditFault) -> Option<String>
        ensures text { IfSome result (λ text. string_bytes text ≡ fault_text_of fault.now) }
        ensures made { made self.now (text_of fault.now (is_some result)) };

    /// The text of why a file is not read, if there is memory for it.
    fn text_of_file(&self, fault: &FileFault) -> Option<String>
        ensures text { IfSome result (λ text. string_bytes text ≡ file_fault_text_of fault.now) }
        ensures made { made self.now (text_of_file fault.now (is_some result)) };

    /// Shows what clap says of the words, and says whether that was written.
    fn show(&self, error: &clap::Error) -> bool
        ensures made { made self.now (show error.now result) };

    /// Writes the text on standard output, and says whether it was written.
    fn write(&self, text: &str) -> bool
        ensures made { made self.now (write text.now result) };

    /// Prints the text on standard error.
    fn print(&self, text: &str)
        ensures made { made self.now (print text.now) };
}

impl<R: Print + Eprint + AllocGlobal> Console for R {
    ghost made = { λ console call. Unit {0} };

    fn text_of(&self, fault: &AuditFault) -> Option<String> {
        fault_text(self.alloc(), fault).ok()
    }

    fn text_of_file(&self, fault: &FileFault) -> Option<String> {
        file_fault_text(self.alloc(), fault).ok()
    }

    fn show(&self, error: &clap::Error) -> bool {
        error.print(self).is_ok()
    }

    fn write(&self, text: &str) -> bool {
        self.write_all(text.as_bytes()).is_ok()
    }

    fn print(&self, text: &str) {
        let _ = self.eprint(text);
    }
}

/// Tells why there is no verdict or no trace, or shows the help that was asked for. The ending becomes another
/// one only where there is no memory for the text of a fault, or the help is not written.
pub fn tell<'a, C: Console>(
    console: &C,
    ending: Result<Done, Refusal<'a>>,
) -> Result<Done, Refusal<'a>>
    ensures { IsTold (C.made console.now) ending.entry result }
{
    match ending {
        Ok(done) => Ok(done),
        Err(Refusal::NotText) => {
            console.print("error: a command-line argument is not UTF-8\n");
            Err(Refusal::NotText)
        }
        Err(Refusal::Words(error)) => Err(tell_words(console, error)),
        Err(Refusal::File(fault)) => Err(tell_file(console, fault)),
        Err(Refusal::Audit(fault)) => Err(Refusal::Audit(tell_fault(console, fault))),
    }
}

/// Tells what is wrong with the words, or shows the help or the version that they ask for.
fn tell_words<'a, C: Console>(console: &C, error: clap::Error) -> Refusal<'a>
    ensures { IsToldWords (C.made console.now) error result }
{
    if error.kind() == ErrorKind::OutOfMemory {
        return Refusal::Audit(tell_fault(console, AuditFault::Memory));
    }
    if show_words(console, &error) {
        return Refusal::Words(error);
    }
    if usage_status(&error) == 0 {
        return Refusal::Audit(tell_fault(console, AuditFault::Write(WriteFault::Device)));
    }
    Refusal::Words(error)
}

/// Shows the version where it is asked for, and else what clap says of the words; says whether that was
/// written.
fn show_words<C: Console>(console: &C, error: &clap::Error) -> bool
    ensures { IsShown (C.made console.now) error.now result }
{
    if error.kind() == ErrorKind::DisplayVersion {
        return console.write(VERSION_TEXT);
    }
    console.show(error)
}

/// Tells the fault, or that there is no memory to tell it.
fn tell_fault<C: Console>(console: &C, fault: AuditFault) -> AuditFault
    ensures { IsToldFault (C.made console.now) fault result }
{
    match console.text_of(&fault) {
        Some(text) => {
            console.print(text.as_str());
            fault
        }
        None => {
            console.print("out of memory\n");
            AuditFault::Memory
        }
    }
}

/// Tells why the file is not read, or that there is no memory to tell it.
fn tell_file<'a, C: Console>(console: &C, fault: FileFault<'a>) -> Refusal<'a>
    ensures { IsToldFile (C.made console.now) fault.entry result }
{
    match console.text_of_file(&fault) {
        Some(text) => {
            console.print(text.as_str());
            Refusal::File(fault)
        }
        None => Refusal::Audit(tell_fault(console, AuditFault::Memory)),
    }
}

/// Tells whoever sits at a terminal that the job reads from there, where no word says where from.
pub fn tell_reading<C: Console + Inputs>(console: &C, job: Job)
    ensures { IsAwaited (C.made console.now) (C.sits console.now) job }
{
    if console.is_terminal() {
        console.print(reading_text(job));
    }
}

/// The text of that.
fn reading_text(job: Job) -> &'static str
    ensures { result.now ≡ reading_text_of job }
{
    match job {
        Job::Check { .. } => CHECK_READS,
        Job::Order { .. } => ORDER_READS,
        Job::Record => RECORD_READS,
        Job::Upgrade(_) => UPGRADE_READS,
        Job::Watch => WATCH_READS,
    }
}
