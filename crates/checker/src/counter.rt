//! An order that leaves a task incomplete where it must be complete.
ghost use Rattle.std.specs.Prelude.{◌≡◌, ◌<◌, ◌↔◌, IfOk, IfErr, IsOkUnless, IsTrue, length};
ghost use Rattle.ompt_events.specs.declared.fault.Fault.TheVariants.{Memory};
ghost use Rattle.ompt_events.specs.Linearization.{IsLinearization};
ghost use Rattle.checker.specs.Readings.{by_task};
ghost use Rattle.checker.specs.Verdicts.{IsUnfinished, IsVerdict};
ghost use Rattle.checker.specs.Counter.{IsEarliestOrder, IsCounterBy, IsShownBy};

use crate::checking::violation_of;
use crate::clear::Clear;
use crate::earliest::earliest_order;
use crate::executor::Inline;
use crate::makers::Makers;
use crate::ordered::Ordered;
use crate::phases::ask;
use crate::starts::Precedence;
use crate::verdict::{CheckFault, Order, Verdict};
use ompt_events::{Fault, Trace};
use packed_trace::PackedTrace;
use std::alloc::Global;
use wait_coverage::covers_unfinished;

/// Returns an order of all records of a trace, allowed by them, in which the task is not complete at the
/// place, although it must be: a wait ends there that covers it, or what starts or is complete there
/// depends on it. In this order the record at the place is as early as possible: first those that happen
/// before it, each time the first in file order whose predecessors are all placed; then the record; then
/// the others in the same manner. Returns none where there is no such order, or where a cause occurs. Takes
/// n log n steps in the records. Fails only when out of memory.
pub fn counter_order(
    alloc: Global,
    trace: &Trace,
    at: usize,
    task: u64,
) -> Result<Option<Order>, CheckFault>
    ensures counter { IfOk result (IsCounterBy (by_task trace.now.records) at task) }
    ensures memory { IsOkUnless result CheckFault.Memory }
{
    match PackedTrace::of(alloc, trace) {
        Ok(packed) => counter_order_packed(alloc, &packed, at, task),
        Err(_) => Err(CheckFault::Memory),
    }
}

/// Returns what [`counter_order`] does, of a trace in columns.
fn counter_order_packed(
    alloc: Global,
    trace: &PackedTrace,
    at: usize,
    task: u64,
) -> Result<Option<Order>, CheckFault>
    ensures counter { IfOk result (IsCounterBy (by_task trace.now.records) at task) }
    ensures memory { IsOkUnless result CheckFault.Memory }
{
    match ask(
        &Inline,
        alloc,
        trace,
        &|clear: Clear| -> Result<Option<Order>, Fault>
            ensures counter { IfOk result (IsCounterBy (by_task clear.entry.run.records) at task) }
            ensures memory_alone { IfErr result (λ fault. fault ≡ Memory) }
        { counter_in(alloc, &clear, at, task) },
    ) {
        Ok(found) => Ok(found),
        Err(Fault::Memory) => Err(CheckFault::Memory),
        Err(Fault::Malformed { .. }) => Ok(None),
    }
}

/// Returns the verdict that `check` returns, and for a no the order that `counter_order` returns for its
/// record and task. Runs the phases once.
pub fn check_with_counter(
    alloc: Global,
    trace: &Trace,
) -> Result<(Verdict, Option<Order>), CheckFault>
    ensures verdict { IfOk result (λ answer. IsVerdict trace.now.records answer.0) }
    ensures counter { IfOk result (λ answer. IsShownBy (by_task trace.now.records) answer.0 answer.1) }
    ensures memory { IsOkUnless result CheckFault.Memory }
{
    match PackedTrace::of(alloc, trace) {
        Ok(packed) => check_packed_with_counter(alloc, &packed),
        Err(_) => Err(CheckFault::Memory),
    }
}

/// Returns what [`check_with_counter`] does, of a trace in columns.
pub fn check_packed_with_counter(
    alloc: Global,
    trace: &PackedTrace,
) -> Result<(Verdict, Option<Order>), CheckFault>
    ensures verdict { IfOk result (λ answer. IsVerdict trace.now.records answer.0) }
    ensures counter { IfOk result (λ answer. IsShownBy (by_task trace.now.records) answer.0 answer.1) }
    ensures memory { IsOkUnless result CheckFault.Memory }
{
    match ask(
        &Inline,
        alloc,
        trace,
        &|clear: Clear| -> Result<(Verdict, Option<Order>), Fault>
            ensures verdict { IfOk result (λ answer. IsVerdict clear.entry.run.records answer.0) }
            ensures counter { IfOk result
                (λ answer. IsShownBy (by_task clear.entry.run.records) answer.0 answer.1) }
            ensures memory_alone { IfErr result (λ fault. fault ≡ Memory) }
        { verdict_with_counter(alloc, clear) },
    ) {
        Ok(answer) => Ok(answer),
        Err(Fault::Memory) => Err(CheckFault::Memory),
        Err(Fault::Malformed { at, cause }) => Ok((Verdict::Malformed { at, cause }, None)),
    }
}

/// Returns an order that leaves the task incomplete at the place, in a trace without a cause, or none if
/// there is none.
fn counter_in(alloc: Global, clear: &Clear, at: usize, task: u64) -> Result<Option<Order>, Fault>
    ensures counter { IfOk result (IsCounterBy (by_task clear.now.run.records) at task) }
    ensures memory_alone { IfErr result (λ fault. fault ≡ Memory) }
{
    if at >= clear.sound().run().len() {
        return Ok(None);
    }
    if !is_unfinished(alloc, clear, at, task)? {
        return Ok(None);
    }
    Ok(Some(counter_of(alloc, clear, at)?))
}

/// Returns the verdict on a trace without a cause, and for a no the order that shows it.
fn verdict_with_counter(alloc: Global, clear: Clear) -> Result<(Verdict, Option<Order>), Fault>
    ensures verdict { IfOk result (λ answer. IsVerdict clear.entry.run.records answer.0) }
    ensures counter { IfOk result (λ answer. IsShownBy (by_task clear.entry.run.records) answer.0 answer.1) }
    ensures memory_alone { IfErr result (λ fault. fault ≡ Memory) }
{
    match violation_of(alloc, &clear)? {
        Some((at, why)) => {
            let counter = counter_of(alloc, &clear, at)?;
            Ok((Verdict::No { at, why }, Some(counter)))
        }
        None => Ok((Verdict::Yes { order: clear.order }, None)),
    }
}

/// Returns whether the task must be complete at the place, and isn't by what the record there has seen.
fn is_unfinished(alloc: Global, clear: &Clear, at: usize, task: u64) -> Result<bool, Fault>
    requires { at < length clear.now.run.records }
    ensures unfinished { IfOk result (λ found. IsTrue found
        ↔ IsUnfinished (by_task clear.now.run.records) at task) }
    ensures memory_alone { IfErr result (λ fault. fault ≡ Memory) }
{
    let sound = clear.sound();
    let known = clear.known();
    if covers_unfinished(alloc, known, sound.own().number(at), task)? {
        return Ok(true);
    }
    let precedence = Precedence::of(alloc, sound, known.own())?;
    precedence.is_late(at, task)
}

/// Returns the order in which the record at the place is as early as possible.
fn counter_of(alloc: Global, clear: &Clear, at: usize) -> Result<Order, Fault>
    requires { at < length clear.now.run.records }
    ensures earliest { IfOk result (IsEarliestOrder clear.now.run.records at) }
    ensures linearization { IfOk result (IsLinearization clear.now.run.records) }
    ensures memory_alone { IfErr result (λ fault. fault ≡ Memory) }
{
    let makers = Makers::in_run(alloc, clear.sound().run())?;
    let ordered = Ordered {
        makers: &makers,
        order: &clear.order,
    };
    earliest_order(alloc, &ordered, at)
}
