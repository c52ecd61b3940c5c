//! The entry point: the verdict on a trace.
ghost use Rattle.std.specs.Prelude.{◌≡◌, IfOk, IfErr, IsOkUnless};
ghost use Rattle.ompt_events.specs.declared.fault.Fault.TheVariants.{Memory};
ghost use Rattle.checker.specs.Readings.{by_task};
ghost use Rattle.checker.specs.Verdicts.{IsVerdict};
ghost use Rattle.checker.specs.Deciding.{IsFirstOrNone};

use crate::clear::Clear;
use crate::deciding::Deciding;
use crate::executor::Inline;
use crate::phases::ask;
use crate::verdict::{CheckFault, Verdict, Why};
use ompt_events::{Fault, Trace};
use packed_trace::PackedTrace;
use std::alloc::Global;

/// Returns the verdict on the records of a trace, by each task's own order. It is malformed with the
/// lowest-numbered cause that occurs, at the first record in file order that shows it. Else it is a no at
/// the first record that ends a wait which covers an unfinished task, or at which a task starts, or a
/// taskwait with dependences is complete, before a predecessor is finished. Else it is a yes with the
/// greedy order. Fails only when out of memory.
pub fn check(alloc: Global, trace: &Trace) -> Result<Verdict, CheckFault>
    ensures verdict { IfOk result (IsVerdict trace.now.records) }
    ensures memory { IsOkUnless result CheckFault.Memory }
{
    match PackedTrace::of(alloc, trace) {
        Ok(packed) => check_packed(alloc, &packed),
        Err(_) => Err(CheckFault::Memory),
    }
}

/// Returns what [`check`] does, of a trace in columns.
pub fn check_packed(alloc: Global, trace: &PackedTrace) -> Result<Verdict, CheckFault>
    ensures verdict { IfOk result (IsVerdict trace.now.records) }
    ensures memory { IsOkUnless result CheckFault.Memory }
{
    match ask(
        &Inline,
        alloc,
        trace,
        &|clear: Clear| -> Result<Verdict, Fault>
            ensures verdict { IfOk result (IsVerdict clear.entry.run.records) }
            ensures memory_alone { IfErr result (λ fault. fault ≡ Memory) }
        { verdict_in(alloc, clear) },
    ) {
        Ok(verdict) => Ok(verdict),
        Err(Fault::Memory) => Err(CheckFault::Memory),
        Err(Fault::Malformed { at, cause }) => Ok(Verdict::Malformed { at, cause }),
    }
}

/// Returns the verdict on a trace without a cause.
fn verdict_in(alloc: Global, clear: Clear) -> Result<Verdict, Fault>
    ensures verdict { IfOk result (IsVerdict clear.entry.run.records) }
    ensures memory_alone { IfErr result (λ fault. fault ≡ Memory) }
{
    let found = violation_of(alloc, &clear)?;
    Ok(verdict_of(clear, found))
}

/// Returns the verdict on a trace without a cause: a no at its first violation, if there is one, else a
/// yes.
pub(crate) fn verdict_of(clear: Clear, found: Option<(usize, Why)>) -> Verdict
    ensures { IsFirstOrNone (by_task clear.entry.run.records) found
        → IsVerdict clear.entry.run.records result }
{
    match found {
        Some((at, why)) => Verdict::No { at, why },
        None => Verdict::Yes { order: clear.order },
    }
}

/// Returns the first record at which a task that must be finished is not, and why it must be.
pub(crate) fn violation_of(alloc: Global, clear: &Clear) -> Result<Option<(usize, Why)>, Fault>
    ensures found { IfOk result (IsFirstOrNone (by_task clear.now.run.records)) }
    ensures memory_alone { IfErr result (λ fault. fault ≡ Memory) }
{
    let deciding = Deciding::of(alloc, clear)?;
    deciding.first_violation(alloc)
}
