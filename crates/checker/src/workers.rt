//! The check on several threads: workers share out the records of a trace without a cause, a range of the
//! file for each. The phases before are in `phases`.
ghost use Rattle.std.specs.Prelude.{ℕ, ◌≡◌, ◌≢◌, ◌≤◌, ◌<◌, ◌↔◌, Err, Some, true, false, IfOk, IfErr, OnOk, length, slice_get};
ghost use denote.Param.Send.{IsSync};
ghost use Rattle.ompt_events.specs.declared.fault.Fault.TheVariants.{Memory};
ghost use Rattle.checker.specs.Readings.{by_task};
ghost use Rattle.checker.specs.Verdicts.{IsVerdict};
ghost use Rattle.checker.specs.Gate.{HaveAllPassed, HavePassedFor};
ghost use Rattle.checker.specs.Deciding.{IsFirstOrNone, begin_of, IsFinding, IsOutcome, HaveAllDecided, IsLeastOf, IsLesserOf};

use crate::checking::verdict_of;
use crate::clear::Clear;
use crate::deciding::Deciding;
use crate::executor::Workers;
use crate::gate::Gate;
use crate::phases::ask;
use crate::verdict::{CheckFault, Verdict, Why};
use ompt_events::{Fault, Trace};
use packed_trace::PackedTrace;
use std::alloc::Global;
use std::marker::Model;
use std::thread::{Threads, map_indices};

/// The most workers of a check.
pub const MAX_WORKERS: u32 = 256;

/// Returns the verdict of `check`, with the records of the file decided by this many workers, 1 to
/// [`MAX_WORKERS`], side by side, a range for each. Each worker passes the gate once, before it decides; for
/// a malformed trace no worker starts. With two workers or more some phases before run side by side too, two
/// at a time: the numbers of the threads' records beside the families of tasks; the states of tasks beside
/// nesting, dependences and claims; and the order of the records beside the least ledger lengths at which
/// tasks are finished. Such a thread is no worker, and passes no gate. A worker or a phase for which no
/// thread can be made runs on the caller's. Fails for another number of workers, which is checked first; when
/// out of memory; and if the gate refuses a worker. It names the refused worker with the least number, unless
/// memory runs out.
pub fn check_on<R: Threads + Sync, G: Gate + Sync>(
    rt: &R,
    alloc: Global,
    trace: &Trace,
    workers: u32,
    gate: &G,
) -> Result<Verdict, CheckFault>
    ensures verdict { IfOk result (IsVerdict trace.now.records) }
    ensures workers { (result ≡ Err CheckFault.Workers) ↔ (1 ≤ workers → 256 < workers) }
    ensures gate { (worker : ℕ) → result ≡ Err (CheckFault.Gate worker)
        → (worker < workers) × G.may_refuse gate.now worker }

    // No record is decided by a worker that has not passed the gate. Before a yes or a no each worker has
    // passed, also one without records; where one is refused, each with a lesser number has.
    ensures passed { IfOk result (HavePassedFor (G.passed gate.now) workers) }
    ensures passed_before { (worker : ℕ) → result ≡ Err (CheckFault.Gate worker)
        → HaveAllPassed (G.passed gate.now) worker }
    ensures thread { result ≢ Err CheckFault.Thread }
{
    if !may_work(workers) {
        return Err(CheckFault::Workers);
    }
    match PackedTrace::of(alloc, trace) {
        Ok(packed) => check_packed_on(rt, alloc, &packed, workers, gate),
        Err(_) => Err(CheckFault::Memory),
    }
}

/// Returns what [`check_on`] does, of a trace in columns.
pub fn check_packed_on<R: Threads + Sync, G: Gate + Sync>(
    rt: &R,
    alloc: Global,
    trace: &PackedTrace,
    workers: u32,
    gate: &G,
) -> Result<Verdict, CheckFault>
    ensures verdict { IfOk result (IsVerdict trace.now.records) }
    ensures workers { (result ≡ Err CheckFault.Workers) ↔ (1 ≤ workers → 256 < workers) }
    ensures gate { (worker : ℕ) → result ≡ Err (CheckFault.Gate worker)
        → (worker < workers) × G.may_refuse gate.now worker }

    // No record is decided by a worker that has not passed the gate. Before a yes or a no each worker has
    // passed, also one without records; where one is refused, each with a lesser number has.
    ensures passed { IfOk result (HavePassedFor (G.passed gate.now) workers) }
    ensures passed_before { (worker : ℕ) → result ≡ Err (CheckFault.Gate worker)
        → HaveAllPassed (G.passed gate.now) worker }
    ensures thread { result ≢ Err CheckFault.Thread }
{
    if !may_work(workers) {
        return Err(CheckFault::Workers);
    }
    let executor = Workers {
        threads: rt,
        count: workers,
    };
    match ask(
        &executor,
        alloc,
        trace,
        &|clear: Clear| -> Result<Result<Verdict, u32>, Fault>
            requires { IsSync R.row × IsSync G.row × (1 ≤ workers) × (workers ≤ 256) }
            ensures verdict { IfOk result (λ answer. IfOk answer (IsVerdict clear.entry.run.records)) }
            ensures refused { IfOk result (λ answer. IfErr answer (λ worker. (worker < workers)
                × G.may_refuse gate.entry.now worker)) }
            ensures passed { IfOk result (λ answer. IfOk answer
                (HavePassedFor (G.passed gate.entry.now) workers)) }
            ensures passed_before { IfOk result (λ answer. IfErr answer
                (HaveAllPassed (G.passed gate.entry.now))) }
            ensures memory_alone { IfErr result (λ fault. fault ≡ Memory) }
        { verdict_on(rt, alloc, clear, workers, gate) },
    ) {
        Ok(Ok(verdict)) => Ok(verdict),
        Ok(Err(worker)) => Err(CheckFault::Gate(worker)),
        Err(Fault::Memory) => Err(CheckFault::Memory),
        Err(Fault::Malformed { at, cause }) => Ok(Verdict::Malformed { at, cause }),
    }
}

/// Returns whether a check may have this many workers.
fn may_work(workers: u32) -> bool
    ensures few { result ≡ true → (1 ≤ workers) × (workers ≤ 256) }
    ensures other { result ≡ false → 1 ≤ workers → 256 < workers }
{
    1 <= workers && workers <= MAX_WORKERS
}

/// Returns the verdict on a trace without a cause, or the worker that the gate refuses.
fn verdict_on<R: Threads + Sync, G: Gate + Sync>(
    rt: &R,
    alloc: Global,
    clear: Clear,
    workers: u32,
    gate: &G,
) -> Result<Result<Verdict, u32>, Fault>
    requires some { 1 ≤ workers }
    requires few { workers ≤ 256 }
    ensures verdict { IfOk result (λ answer. IfOk answer (IsVerdict clear.entry.run.records)) }
    ensures refused { IfOk result (λ answer. IfErr answer (λ worker. (worker < workers)
        × G.may_refuse gate.now worker)) }
    ensures passed { IfOk result (λ answer. IfOk answer (HavePassedFor (G.passed gate.now) workers)) }
    ensures passed_before { IfOk result (λ answer. IfErr answer (HaveAllPassed (G.passed gate.now))) }
    ensures memory_alone { IfErr result (λ fault. fault ≡ Memory) }
{
    match violation_on(rt, alloc, &clear, workers, gate)? {
        Ok(found) => Ok(Ok(verdict_of(clear, found))),
        Err(worker) => Ok(Err(worker)),
    }
}

/// Returns the first record at which a task that must be finished is not, and why it must be; or the worker
/// that the gate refuses.
fn violation_on<R: Threads + Sync, G: Gate + Sync>(
    rt: &R,
    alloc: Global,
    clear: &Clear,
    workers: u32,
    gate: &G,
) -> Result<Result<Option<(usize, Why)>, u32>, Fault>
    requires some { 1 ≤ workers }
    requires few { workers ≤ 256 }
    ensures found { IfOk result (λ answer. IfOk answer (IsFirstOrNone (by_task clear.now.run.records))) }
    ensures refused { IfOk result (λ answer. IfErr answer (λ worker. (worker < workers)
        × G.may_refuse gate.now worker)) }
    ensures passed { IfOk result (λ answer. OnOk answer (HaveAllPassed (G.passed gate.now) workers)) }
    ensures passed_before { IfOk result (λ answer. IfErr answer (HaveAllPassed (G.passed gate.now))) }
    ensures memory_alone { IfErr result (λ fault. fault ≡ Memory) }
{
    let deciding = Deciding::of(alloc, clear)?;
    let work = Work {
        deciding: &deciding,
        workers,
    };
    decide_all(rt, alloc, &work, gate)
}

/// The work that several workers share out.
#[derive(Drop)]
struct Work<'a, 'r> {
    deciding: &'a Deciding<'a, 'r>,
    workers: u32,
}

impl<'a, 'r> Model for Work<'a, 'r> {
    ghost use Rattle.checker.specs.Deciding.{WorkView, IsWork};

    ghost Value = { WorkView };

    ghost view = { λ work. record {
      records = work.deciding.now.run.records;
      workers = work.workers;
    } };

    ghost invariant = { λ work. IsWork (record {
      records = work.deciding.now.run.records;
      workers = work.workers;
    }) };
}

/// What a worker finds: the place of a record, and why the record is a violation.
#[derive(Clone, Copy)]
struct Finding {
    at: usize,
    why: Why,
}

/// Why a worker decides nothing.
#[derive(Clone, Copy)]
enum WorkerFault {
    /// The gate refuses it.
    Gate,
    /// Out of memory.
    Memory,
}

/// Returns the least finding of all workers, each in a thread of its own; or the worker that the gate
/// refuses.
fn decide_all<R: Threads + Sync, G: Gate + Sync>(
    rt: &R,
    alloc: Global,
    work: &Work,
    gate: &G,
) -> Result<Result<Option<(usize, Why)>, u32>, Fault>
    ensures found { IfOk result (λ answer. IfOk answer (IsFirstOrNone (by_task work.now.records))) }
    ensures refused { IfOk result (λ answer. IfErr answer (λ worker. (worker < work.now.workers)
        × G.may_refuse gate.now worker)) }
    ensures passed { IfOk result (λ answer. OnOk answer
        (HaveAllPassed (G.passed gate.now) work.now.workers)) }
    ensures passed_before { IfOk result (λ answer. IfErr answer (HaveAllPassed (G.passed gate.now))) }
    ensures memory_alone { IfErr result (λ fault. fault ≡ Memory) }
{
    let findings = map_indices(
        rt,
        alloc,
        work.workers as usize,
        &|worker| -> Result<Option<Finding>, WorkerFault>
            requires { (worker < work.now.workers) × (work.now.workers ≤ 256) }
            ensures outcome { IsOutcome work.entry.now (G.may_refuse gate.entry.now) worker result }
            ensures passed { result ≢ Err WorkerFault.Gate → G.passed gate.entry.now worker }
        { decide_range(alloc, work, gate, worker) },
    )?;
    match least_of(findings.as_slice()) {
        Ok(None) => Ok(Ok(None)),
        Ok(Some(finding)) => Ok(Ok(Some((finding.at, finding.why)))),
        Err((worker, WorkerFault::Gate)) => Ok(Err(worker as u32)),
        Err((_, WorkerFault::Memory)) => Err(Fault::Memory),
    }
}

/// Returns what the worker with this number finds. Fails if the gate refuses it, or when out of memory.
fn decide_range<G: Gate>(
    alloc: Global,
    work: &Work,
    gate: &G,
    worker: usize,
) -> Result<Option<Finding>, WorkerFault>
    requires { (worker < work.now.workers) × (work.now.workers ≤ 256) }
    ensures outcome { IsOutcome work.now (G.may_refuse gate.now) worker result }
    ensures passed { result ≢ Err WorkerFault.Gate → G.passed gate.now worker }
{
    if !gate.pass(worker as u32) {
        return Err(WorkerFault::Gate);
    }
    match work.find_in_range(alloc, gate, worker) {
        Ok(found) => Ok(found),
        Err(_) => Err(WorkerFault::Memory),
    }
}

impl Work<'_, '_> {
    /// Returns the first violation in the range of the worker with this number, which must have passed the
    /// gate.
    fn find_in_range<G: Gate>(
        &self,
        alloc: Global,
        gate: &G,
        worker: usize,
    ) -> Result<Option<Finding>, Fault>
        requires within { (worker < self.now.workers) × (self.now.workers ≤ 256) }
        requires passed { G.passed gate.now worker }
        ensures found { IfOk result (IsFinding self.now worker) }
        ensures memory_alone { IfErr result (λ fault. fault ≡ Memory) }
    {
        for at in self.begin(worker)..self.begin(worker + 1) {
            if let Some(why) = self.deciding.violation_at(alloc, at)? {
                return Ok(Some(Finding { at, why }));
            }
        }
        Ok(None)
    }

    /// Returns the place at which the range of the worker with this number begins, where that of the worker
    /// before it ends. The lengths of two ranges differ by one record at most.
    fn begin(&self, worker: usize) -> usize
        requires { worker ≤ self.now.workers }
        ensures begin { result ≡ begin_of self.now worker }
        ensures within { result ≤ length self.now.records }
    {
        worker * self.deciding.len() / self.workers as usize
    }
}

/// Returns the finding that is first in file order. Fails with the first worker that decided nothing, and
/// why.
fn least_of(
    findings: &[Result<Option<Finding>, WorkerFault>],
) -> Result<Option<Finding>, (usize, WorkerFault)>
    ensures least { IfOk result (IsLeastOf findings.now (length findings.now)) }
    ensures all { IfOk result (λ _. HaveAllDecided findings.now (length findings.now)) }
    ensures failed { IfErr result (λ f. slice_get findings.now f.0 ≡ Some (Err f.1)) }
    ensures before { IfErr result (λ f. HaveAllDecided findings.now f.0) }
{
    let mut least = None;
    for worker in 0..findings.len() {
        match findings[worker] {
            Ok(None) => {}
            Ok(Some(finding)) => least = Some(lesser(least, finding)),
            Err(fault) => return Err((worker, fault)),
        }
    }
    Ok(least)
}

/// Returns the one that is first in file order: of a finding, if there is one, and another.
fn lesser(least: Option<Finding>, other: Finding) -> Finding
    ensures { IsLesserOf least other result }
{
    match least {
        Some(finding) if finding.at <= other.at => finding,
        _ => other,
    }
}
