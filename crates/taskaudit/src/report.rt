//! What is printed of a verdict or a fault, and the exit statuses.
ghost use Rattle.std.specs.Prelude.{ℕ, ◌≡◌, ◌<◌, ◌++◌, ◌∷◌, [], List, IfOk, IfSome, IsOkUnless, Some, length, string_bytes};
ghost use Rattle.ompt_events.specs.declared.records.Record.{Record};
ghost use Rattle.ompt_events.specs.Places.{at as says_at};
ghost use Rattle.ompt_events.specs.Records.{started, wait_completed};
ghost use Rattle.clap.specs.Words.{kind_of};
ghost use Rattle.taskaudit.specs.FileFaults.{file_fault_text_of};
ghost use Rattle.taskaudit.specs.Reports.{AreCounts, report_of, fault_text_of, yes_text, no_text, late_text, precedes_text, dependent_at, malformed_text, place_text, record_place};
ghost use Rattle.taskaudit.specs.Statuses.{fault_status_of, usage_status_of};

use crate::work::{AuditFault, FileFault};
use callbacks::CallFault;
use certificate::{ReadCause, UpgradeFault, WriteFault};
use checker::{Verdict, Why};
use clap::error::ErrorKind;
use ompt_events::{Cause, Record, Trace, finish};
use packed_trace::PackedTrace;
use std::alloc::{AllocError, Global};
use std::fmt;

/// The exit status where a call of a script is refused.
const CALL_REFUSED: u8 = 2;

/// The exit status where a trace is not upgraded.
const NOT_UPGRADED: u8 = 2;

/// The exit status where the input is not opened or not read, or the report or the trace is not written.
pub const NOT_REPORTED: u8 = 3;

/// The exit status of wrong command-line arguments.
pub const WRONG_WORDS: u8 = 4;

/// The exit status where memory ran out, or a thread could not be started.
const NO_MEMORY: u8 = 5;

/// The exit status where a watch has no verdict.
const UNDECIDED: u8 = 6;

/// Returns the report of a verdict on the trace: one line, with its line feed. Where the verdict names a place
/// past the end of the trace, thread and seq are 0.
pub fn report_text(alloc: Global, verdict: &Verdict, trace: &Trace) -> Result<String, AuditFault>
    ensures text { IfOk result (λ text. string_bytes text ≡ report_of trace.now.records verdict.now) }
    ensures memory { IsOkUnless result AuditFault.Memory }
{
    match PackedTrace::of(alloc, trace) {
        Ok(packed) => report_by(alloc, verdict, &packed, None),
        Err(AllocError) => Err(AuditFault::Memory),
    }
}

/// Returns the report of a verdict on the trace, from the counts if they are given. Else the records are
/// counted here, only for a yes.
pub(crate) fn report_by(
    alloc: Global,
    verdict: &Verdict,
    trace: &PackedTrace,
    counts: Option<Counts>,
) -> Result<String, AuditFault>
    requires { IfSome counts (AreCounts trace.now.records) }
    ensures text { IfOk result (λ text. string_bytes text ≡ report_of trace.now.records verdict.now) }
    ensures memory { IsOkUnless result AuditFault.Memory }
{
    let text = match verdict {
        Verdict::Yes { .. } => yes_text(alloc, trace, counts_or(counts, trace)),
        Verdict::No {
            at,
            why: Why::Unfinished(task),
        } => no_text(alloc, trace, *at, *task),
        Verdict::No {
            at,
            why: Why::Predecessor(task),
        } => late_text(alloc, trace, *at, *task),
        Verdict::Malformed { at, cause } => malformed_text(alloc, trace, *at, *cause),
    };
    text.map_err(|_| AuditFault::Memory)
}

/// Returns the report of a yes.
fn yes_text(alloc: Global, trace: &PackedTrace, counts: Counts) -> Result<String, AllocError>
    requires { AreCounts trace.now.records counts }
    ensures { IfOk result (λ text. string_bytes text ≡ yes_text trace.now.records) }
{
    yes_line(alloc, trace.len(), counts)
}

/// Returns the report of a yes on so many records, which are counted so.
pub(crate) fn yes_line(alloc: Global, count: usize, counts: Counts) -> Result<String, AllocError>
    ensures { IfOk result (λ text. (rs : List Record) → length rs ≡ count → AreCounts rs counts
        → string_bytes text ≡ yes_text rs) }
{
    let Counts {
        entries,
        tasks,
        waits,
    } = counts;
    format!(in alloc; "yes: {count} records, {entries} entries, {tasks} tasks, {waits} waits\n")
}

/// How many records finish a task, and so make an entry of the ledger; how many explicit tasks they create;
/// and how many regions end that wait for tasks.
#[derive(Clone, Copy)]
pub(crate) struct Counts {
    entries: usize,
    tasks: usize,
    waits: usize,
}

impl Counts {
    /// Returns the counts of no records.
    pub(crate) fn none() -> Counts
        ensures { AreCounts [] result }
    {
        Counts {
            entries: 0,
            tasks: 0,
            waits: 0,
        }
    }

    /// Returns the counts with one more record; none where a number would be too great.
    pub(crate) fn with(self, record: &Record) -> Option<Counts>
        ensures { IfSome result (λ counts. (rs : List Record) → AreCounts rs self
            → AreCounts (rs ++ «record».now ∷ []) counts) }
    {
        let finishes = finish(record).is_some();
        let creates = record.body.creation().is_some();
        let ends_wait = record.body.ends_wait();
        Some(Counts {
            entries: self.entries.checked_add(usize::from(finishes))?,
            tasks: self.tasks.checked_add(usize::from(creates))?,
            waits: self.waits.checked_add(usize::from(ends_wait))?,
        })
    }
}

/// Returns the counts that are given, or makes them.
fn counts_or(counts: Option<Counts>, trace: &PackedTrace) -> Counts
    requires { IfSome counts (AreCounts trace.now.records) }
    ensures { AreCounts trace.now.records result }
{
    match counts {
        Some(counts) => counts,
        None => counts_of(trace),
    }
}

/// Returns all three counts, made in one walk.
pub(crate) fn counts_of(trace: &PackedTrace) -> Counts
    ensures { AreCounts trace.now.records result }
{
    let mut entries = 0;
    let mut tasks = 0;
    let mut waits = 0;
    for at in 0..trace.len() {
        let act = trace.act(at);
        entries += usize::from(act.finishes().is_some());
        tasks += usize::from(act.creates());
        waits += usize::from(act.ends_wait());
    }
    Counts {
        entries,
        tasks,
        waits,
    }
}

/// The report of a no: the task is unfinished at the record.
fn no_text(alloc: Global, trace: &PackedTrace, at: usize, task: u64) -> Result<String, AllocError>
    ensures { IfOk result (λ text. string_bytes text ≡ no_text trace.now.records at task) }
{
    no_line(alloc, Place::of(trace, at), task)
}

/// Returns the report of a no: the task is unfinished at the record that stands there.
pub(crate) fn no_line(alloc: Global, place: Place, task: u64) -> Result<String, AllocError>
    ensures { IfOk result (λ text. (rs : List Record) (i : ℕ)
        → place_text place.line place.thread place.seq ≡ record_place rs i → string_bytes text ≡ no_text rs i task) }
{
    format!(in alloc; "no: {place}: task {task} unfinished\n")
}

/// The report of a no: the task should have been finished where another starts, or a taskwait is complete.
fn late_text(
    alloc: Global,
    trace: &PackedTrace,
    at: usize,
    predecessor: u64,
) -> Result<String, AllocError>
    ensures { IfOk result (λ text. string_bytes text ≡ late_text trace.now.records at predecessor) }
{
    let task = dependent_at(trace, at);
    late_line(alloc, Place::of(trace, at), predecessor, task)
}

/// Returns the report of a no: the predecessor should have been finished at the record that stands there, where the
/// task starts, or is a taskwait that is complete.
pub(crate) fn late_line(
    alloc: Global,
    place: Place,
    predecessor: u64,
    task: u64,
) -> Result<String, AllocError>
    ensures { IfOk result (λ text. (rs : List Record) (i : ℕ)
        → place_text place.line place.thread place.seq ≡ record_place rs i
        → string_bytes text ≡ precedes_text rs i predecessor task) }
{
    format!(in alloc; "no: {place}: task {predecessor} must precede task {task}\n")
}

/// The task that starts at the record, or the taskwait that is complete there; 0 where there is none.
pub(crate) fn dependent_at(trace: &PackedTrace, at: usize) -> u64
    ensures { result ≡ dependent_at trace.now.records at }
{
    if at >= trace.len() {
        return 0;
    }
    match started_at(trace, at) {
        Some(task) => task,
        None => completed_at(trace, at).unwrap_or(0),
    }
}

/// Returns the task that runs next after the record.
fn started_at(trace: &PackedTrace, at: usize) -> Option<u64>
    requires { at < length trace.now.records }
    ensures { result ≡ says_at started trace.now.records at }
{
    if trace.act(at).starts() {
        trace.object(at)
    } else {
        None
    }
}

/// Returns the taskwait that is complete at the record.
fn completed_at(trace: &PackedTrace, at: usize) -> Option<u64>
    requires { at < length trace.now.records }
    ensures { result ≡ says_at wait_completed trace.now.records at }
{
    if trace.act(at).completes_wait() {
        trace.subject(at)
    } else {
        None
    }
}

/// The report of a malformed trace: the record has the cause.
fn malformed_text(
    alloc: Global,
    trace: &PackedTrace,
    at: usize,
    cause: Cause,
) -> Result<String, AllocError>
    ensures { IfOk result (λ text. string_bytes text ≡ malformed_text trace.now.records at cause) }
{
    let place = Place::of(trace, at);
    let number = cause.number();
    let name = cause.name();
    format!(in alloc; "malformed: {place}: cause {number} {name}\n")
}

/// Where a record stands in the file and among those of its thread.
#[derive(Clone, Copy)]
pub(crate) struct Place {
    /// Wide enough for two more than any place.
    line: u128,
    thread: u8,
    seq: u32,
}

impl Place {
    /// The place of a record on this line of the file, with this number on its thread.
    pub(crate) fn on(line: u32, thread: u8, seq: u32) -> Place
        ensures { place_text result.line result.thread result.seq ≡ place_text line thread seq }
    {
        Place {
            line: u128::from(line),
            thread,
            seq,
        }
    }

    /// The place of the record; the file's line 1 is the header.
    pub(crate) fn of(trace: &PackedTrace, at: usize) -> Place
        ensures { place_text result.line result.thread result.seq ≡ record_place trace.now.records at }
    {
        let line = at as u128 + 2;
        if at >= trace.len() {
            return Place {
                line,
                thread: 0,
                seq: 0,
            };
        }
        Place {
            line,
            thread: trace.thread(at),
            seq: trace.seq(at),
        }
    }
}

impl fmt::Display for Place {
    ghost output = { λ place. Some (place_text place.line place.thread place.seq) };

    fn fmt<W: fmt::Write>(&self, f: &mut fmt::Formatter<W>) -> fmt::Result {
        write!(
            f,
            "line {}, thread {}, seq {}",
            self.line, self.thread, self.seq
        )
    }
}

/// The text of the fault: one line, with its line feed. Any lack of memory has one text.
pub fn fault_text(alloc: Global, fault: &AuditFault) -> Result<String, AuditFault>
    ensures text { IfOk result (λ text. string_bytes text ≡ fault_text_of fault.now) }
    ensures memory { IsOkUnless result AuditFault.Memory }
{
    format!(in alloc; "{fault}\n").map_err(|_| AuditFault::Memory)
}

/// The text of the fault: one line, with its line feed.
pub fn file_fault_text(alloc: Global, fault: &FileFault) -> Result<String, AllocError>
    ensures { IfOk result (λ text. string_bytes text ≡ file_fault_text_of fault.now) }
{
    format!(in alloc; "{fault}\n")
}

/// The exit status of the program where no verdict is reported, or no trace written.
pub fn fault_status(fault: &AuditFault) -> u8
    ensures { result ≡ fault_status_of fault.now }
{
    match fault {
        AuditFault::Read(fault) if fault.cause == ReadCause::Memory => NO_MEMORY,
        AuditFault::Write(WriteFault::Memory) => NO_MEMORY,
        AuditFault::Read(_) | AuditFault::Write(_) => NOT_REPORTED,
        AuditFault::Call { fault, .. } if *fault != CallFault::Memory => CALL_REFUSED,
        AuditFault::Call { .. } => NO_MEMORY,
        AuditFault::Upgrade { fault, .. } if *fault != UpgradeFault::Memory => NOT_UPGRADED,
        AuditFault::Upgrade { .. } => NO_MEMORY,
        AuditFault::Undecided { .. } => UNDECIDED,
        AuditFault::Check(_) | AuditFault::Memory => NO_MEMORY,
    }
}

/// The exit status where the command line names nothing to do:
/// 0 where they ask for help.
pub fn usage_status(error: &clap::Error) -> u8
    ensures { result ≡ usage_status_of (kind_of error.now) }
{
    match error.kind() {
        ErrorKind::DisplayHelp | ErrorKind::DisplayVersion => 0,
        ErrorKind::OutOfMemory => NO_MEMORY,
        _ => WRONG_WORDS,
    }
}
