//! The audit of a file, with its report alone, with the records at which it shows, or with an order that
//! shows the verdict, on one thread or on several.
ghost use Rattle.std.specs.Prelude.{◌≡◌, ◌≢◌, ◌≤◌, ◌⊎◌, ◌↔◌, Ok, Err, IfOk, IfErr, IfSome, OnOk, take};
ghost use Rattle.std.specs.Io.KnownBytes.{Appends};
ghost use Rattle.std.specs.Thread.{IsSync};
ghost use Rattle.certificate.specs.Counts.{breaks_written};
ghost use Rattle.checker.specs.Gate.{HaveAllPassed, HavePassedFor};
ghost use Rattle.checker.specs.Verdicts.{IsVerdict};
ghost use Rattle.taskaudit.specs.Audits.{Prints, Reports, Leaves, LeavesOn, IsNoCrew, IsOutOfMemory, IsOfCrew, IsWriteFault, IsReadRightly, IsReadRightlyOn, shown_of};
ghost use Rattle.taskaudit.specs.Devices.{TellsDevices, TellsDevicesAhead, AsksForTurns, written_of};
ghost use Rattle.taskaudit.specs.Reports.{AreCounts, outcome_of};

use crate::finding_texts::found_text;
use crate::order::shown_text;
use crate::report::{Counts, counts_of, report_by};
use crate::work::{AuditFault, Outcome, Printed};
use certificate::{Sink, Source, WriteFault, read_packed, read_packed_on, write_bytes};
use checker::{
    CheckFault, Gate, MAX_WORKERS, Verdict, check_packed, check_packed_on,
    check_packed_with_counter,
};
use packed_trace::PackedTrace;
use std::alloc::Global;
use std::mem::forget;
use std::thread::{Threads, join};

/// Reads a trace file to its end, checks it, and writes what is shown of its verdict: the report alone, or
/// behind it also the records at which it shows, or an order that shows it, of a yes one that the file
/// allows, of a no one in which the named task is not complete at the named record.
pub fn audit<I: Source, O: Sink>(
    alloc: Global,
    shown: Printed,
    source: &mut I,
    sink: &mut O,
) -> Result<Outcome, AuditFault>
    ensures reports { IfOk result
        (Reports (Prints shown) (I.remaining source.old) (O.contents sink.old) (O.contents sink.new)) }
    ensures leaves { IfErr result
        (Leaves (Prints shown) (I.remaining source.old) (O.contents sink.old) (O.contents sink.new)) }
    ensures unreadable { IfErr result (IsReadRightly (I.remaining source.old) (I.remaining source.new)) }

    // A fault of the source or of the sink is told exactly where it occurs.
    ensures devices { TellsDevices result
        (record { turns = I.agains source.old; breaks = I.breaks source.old })
        (record { turns = I.agains source.new; breaks = I.breaks source.new })
        (record { turns = O.stalls sink.old; breaks = O.breaks sink.old })
        (record { turns = O.stalls sink.new; breaks = O.breaks sink.new }) }
    ensures memory { result ≢ Err (AuditFault.Write WriteFault.Memory) }
{
    let trace = read_packed(alloc, source).map_err(AuditFault::Read)?;
    let (verdict, text) = answer_and_leave(alloc, shown, trace)?;
    put(&verdict, text.as_slice(), sink)
}

/// Who does an audit on several threads.
#[derive(Clone, Copy)]
pub struct Crew<'a, R, G> {
    /// What starts threads.
    pub threads: &'a R,
    /// How many workers there are, from 1 to 256.
    pub workers: u32,
    /// The gate that each worker passes once before it decides.
    pub gate: &'a G,
}

/// Reads, checks and writes as [`audit`] does, by the workers of the crew, which read and check side by side.
/// Writes the report, and behind it the records at which it shows, at most so many of them, if that number is
/// given; these are found on one thread. The source is read ahead of the lines that are judged. Fails as
/// [`audit`] does, and if there are no workers or more than [`MAX_WORKERS`], which is tried before anything
/// is read, or if the gate refuses a worker.
pub fn audit_on<R: Threads + Sync, G: Gate + Sync, I: Source, O: Sink>(
    alloc: Global,
    crew: Crew<R, G>,
    most: Option<u32>,
    source: &mut I,
    sink: &mut O,
) -> Result<Outcome, AuditFault>
    ensures reports { IfOk result
        (Reports (Prints (shown_of most)) (I.remaining source.old) (O.contents sink.old) (O.contents sink.new)) }
    ensures leaves { IfErr result (LeavesOn (Prints (shown_of most)) crew.entry.workers
        (G.may_refuse crew.entry.gate.now) (G.passed crew.entry.gate.now)
        (I.remaining source.old) (O.contents sink.old) (O.contents sink.new)) }
    ensures unreadable { IfErr result (IsReadRightlyOn crew.entry.workers
        (I.remaining source.old) (I.remaining source.new)) }

    // Before a yes or a no each worker has passed the gate. No worker decides a malformed trace.
    ensures passed { IfOk result (λ outcome. outcome ≢ Outcome.Malformed
        → HaveAllPassed (G.passed crew.entry.gate.now) crew.entry.workers) }

    // Without workers, or with too many, nothing is read and nothing written.
    ensures workers { (result ≡ Err (AuditFault.Check CheckFault.Workers)) ↔ IsNoCrew crew.entry.workers }
    ensures untouched { result ≡ Err (AuditFault.Check CheckFault.Workers)
        → (source.new ≡ source.old) × (sink.new ≡ sink.old) }

    // A fault of the sink is told exactly where it occurs, and so is one of the source where no line before
    // it has a fault.
    ensures devices { TellsDevicesAhead result
        (record { turns = I.agains source.old; breaks = I.breaks source.old })
        (record { turns = I.agains source.new; breaks = I.breaks source.new })
        (record { turns = O.stalls sink.old; breaks = O.breaks sink.old })
        (record { turns = O.stalls sink.new; breaks = O.breaks sink.new }) }
    ensures memory { result ≢ Err (AuditFault.Write WriteFault.Memory) }
{
    if crew.workers == 0 || crew.workers > MAX_WORKERS {
        return Err(AuditFault::Check(CheckFault::Workers));
    }
    let recorded = read_packed_on(crew.threads, alloc, source, crew.workers).map_err(
        AuditFault::Read,
    )?;
    let (verdict, text) = answer_on_and_leave(alloc, crew, most, recorded)?;
    put(&verdict, text.as_slice(), sink)
}

/// Writes what is shown of the verdict, and returns its kind.
pub(crate) fn put<O: Sink>(
    verdict: &Verdict,
    text: &[u8],
    sink: &mut O,
) -> Result<Outcome, AuditFault>
    ensures kind { IfOk result (λ outcome. outcome ≡ outcome_of verdict.now) }
    ensures written { OnOk result (Appends (O.contents sink.old) (O.contents sink.new) text.now) }
    ensures part { IfErr result (IsWriteFault (λ n.
        Appends (O.contents sink.old) (O.contents sink.new) (take n text.now))) }
    ensures breaks { O.breaks sink.new ≡ breaks_written (written_of result) (O.breaks sink.old) }
    ensures turns { AsksForTurns result (O.stalls sink.old) (O.stalls sink.new) }
{
    tell(Outcome::of(verdict), text, sink)
}

/// Writes the text that tells this outcome, and returns the outcome.
pub(crate) fn tell<O: Sink>(
    outcome: Outcome,
    text: &[u8],
    sink: &mut O,
) -> Result<Outcome, AuditFault>
    ensures kind { IfOk result (λ told. told ≡ outcome) }
    ensures written { OnOk result (Appends (O.contents sink.old) (O.contents sink.new) text.now) }
    ensures part { IfErr result (IsWriteFault (λ n.
        Appends (O.contents sink.old) (O.contents sink.new) (take n text.now))) }
    ensures breaks { O.breaks sink.new ≡ breaks_written (written_of result) (O.breaks sink.old) }
    ensures turns { AsksForTurns result (O.stalls sink.old) (O.stalls sink.new) }
{
    match write_bytes(text, sink) {
        Ok(()) => Ok(outcome),
        Err(fault) => Err(AuditFault::Write(fault)),
    }
}

/// The verdict on the trace, and what is shown of it. Leaves the trace to the end of the process, which comes
/// soon: to free the memory of each claim would only take time.
fn answer_and_leave(
    alloc: Global,
    shown: Printed,
    trace: PackedTrace,
) -> Result<(Verdict, Vec<u8>), AuditFault>
    ensures verdict { IfOk result (λ answer. IsVerdict trace.records answer.0) }
    ensures text { IfOk result (λ answer. Prints shown trace answer.0 answer.1.items) }
    ensures memory { IfErr result IsOutOfMemory }
{
    let answer = answer(alloc, shown, &trace);
    forget(trace);
    answer
}

/// The verdict on the trace, and what is shown of it.
fn answer(
    alloc: Global,
    shown: Printed,
    trace: &PackedTrace,
) -> Result<(Verdict, Vec<u8>), AuditFault>
    ensures verdict { IfOk result (λ answer. IsVerdict trace.now.records answer.0) }
    ensures text { IfOk result (λ answer. Prints shown trace.now answer.0 answer.1.items) }
    ensures memory { IfErr result IsOutOfMemory }
{
    match shown {
        Printed::Report => reported(alloc, check_packed(alloc, trace), trace, None),
        Printed::Findings(most) => {
            let (verdict, report) = reported(alloc, check_packed(alloc, trace), trace, None)?;
            let text = found_text(alloc, trace, &verdict, most, report)?;
            Ok((verdict, text))
        }
        Printed::Order => {
            let (verdict, counter) = check_packed_with_counter(alloc, trace).map_err(
                AuditFault::Check,
            )?;
            let text = shown_text(alloc, trace, &verdict, &counter)?;
            Ok((verdict, text))
        }
    }
}

/// The verdict on the trace that the workers of the crew find, and what is shown of it. Leaves the trace as
/// [`answer_and_leave`] does.
fn answer_on_and_leave<R: Threads + Sync, G: Gate + Sync>(
    alloc: Global,
    crew: Crew<R, G>,
    most: Option<u32>,
    trace: PackedTrace,
) -> Result<(Verdict, Vec<u8>), AuditFault>
    requires { (1 ≤ crew.workers) × (crew.workers ≤ 256) }
    ensures verdict { IfOk result (λ answer. IsVerdict trace.records answer.0) }
    ensures text { IfOk result (λ answer. Prints (shown_of most) trace answer.0 answer.1.items) }
    ensures passed { IfOk result (λ answer.
        HavePassedFor (G.passed crew.entry.gate.now) crew.entry.workers answer.0) }
    ensures fault { IfErr result
        (IsOfCrew crew.entry.workers (G.may_refuse crew.entry.gate.now) (G.passed crew.entry.gate.now)) }
{
    let answer = answer_on(alloc, crew, most, &trace);
    forget(trace);
    answer
}

/// The verdict on the trace that the workers of the crew find, and what is shown of it.
fn answer_on<R: Threads + Sync, G: Gate + Sync>(
    alloc: Global,
    crew: Crew<R, G>,
    most: Option<u32>,
    trace: &PackedTrace,
) -> Result<(Verdict, Vec<u8>), AuditFault>
    requires { (1 ≤ crew.workers) × (crew.workers ≤ 256) }
    ensures verdict { IfOk result (λ answer. IsVerdict trace.now.records answer.0) }
    ensures text { IfOk result (λ answer. Prints (shown_of most) trace.now answer.0 answer.1.items) }
    ensures passed { IfOk result (λ answer.
        HavePassedFor (G.passed crew.entry.gate.now) crew.entry.workers answer.0) }
    ensures fault { IfErr result
        (IsOfCrew crew.entry.workers (G.may_refuse crew.entry.gate.now) (G.passed crew.entry.gate.now)) }
{
    let (counts, found) = found_on(alloc, crew, trace);
    let (verdict, report) = reported(alloc, found, trace, counts)?;
    match most {
        Some(most) => {
            let text = found_text(alloc, trace, &verdict, most, report)?;
            Ok((verdict, text))
        }
        None => Ok((verdict, report)),
    }
}

/// Returns the verdict on the trace that the workers of the crew find. With two workers or more, what the
/// report of a yes counts is counted at the same time, in a thread that is no worker and passes no gate.
fn found_on<R: Threads + Sync, G: Gate + Sync>(
    alloc: Global,
    crew: Crew<R, G>,
    trace: &PackedTrace,
) -> (Option<Counts>, Result<Verdict, CheckFault>)
    requires { (1 ≤ crew.workers) × (crew.workers ≤ 256) }
    ensures counts { IfSome result.0 (AreCounts trace.now.records) }
    ensures verdict { IfOk result.1 (IsVerdict trace.now.records) }
    ensures passed { IfOk result.1 (HavePassedFor (G.passed crew.entry.gate.now) crew.entry.workers) }
    ensures fault { IfErr result.1 (λ fault.
        IsOfCrew crew.entry.workers (G.may_refuse crew.entry.gate.now) (G.passed crew.entry.gate.now)
        (AuditFault.Check fault)) }
{
    if crew.workers == 1 {
        let found = check_packed_on(crew.threads, alloc, trace, 1, crew.gate);
        return (None, found);
    }
    let (counts, found) = join(
        crew.threads,
        || -> Counts
            ensures { AreCounts trace.entry.now.records result }
        { counts_of(trace) },
        || -> Result<Verdict, CheckFault>
            requires { IsSync R.row × IsSync G.row × (1 ≤ crew.workers) × (crew.workers ≤ 256) }
            ensures verdict { IfOk result (IsVerdict trace.entry.now.records) }
            ensures passed { IfOk result (HavePassedFor (G.passed crew.entry.gate.now) crew.entry.workers) }
            ensures fault { IfErr result (λ fault.
                IsOfCrew crew.entry.workers (G.may_refuse crew.entry.gate.now) (G.passed crew.entry.gate.now)
                (AuditFault.Check fault)) }
        { check_packed_on(crew.threads, alloc, trace, crew.workers, crew.gate) },
    );
    (Some(counts), found)
}

/// Returns the verdict that was found, and its report, from the counts if they are given.
fn reported(
    alloc: Global,
    found: Result<Verdict, CheckFault>,
    trace: &PackedTrace,
    counts: Option<Counts>,
) -> Result<(Verdict, Vec<u8>), AuditFault>
    requires found { IfOk found (IsVerdict trace.now.records) }
    requires counts { IfSome counts (AreCounts trace.now.records) }
    ensures verdict { IfOk result (λ answer. IsVerdict trace.now.records answer.0) }
    ensures found { IfOk result (λ answer. found ≡ Ok answer.0) }
    ensures text { IfOk result (λ answer. Prints Printed.Report trace.now answer.0 answer.1.items) }
    ensures fault { IfErr result (λ fault. (fault ≡ AuditFault.Memory)
        ⊎ ((f : CheckFault) × (found ≡ Err f) × (fault ≡ AuditFault.Check f))) }
{
    let verdict = found.map_err(AuditFault::Check)?;
    let text = report_by(alloc, &verdict, trace, counts)?;
    Ok((verdict, text.into_bytes()))
}
