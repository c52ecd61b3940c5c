//! All records at which something is wrong, where a verdict names the first.
ghost use Rattle.std.specs.Prelude.{◌≡◌, IfOk, IfErr, IsOkUnless};
ghost use Rattle.ompt_events.specs.declared.fault.Fault.TheVariants.{Memory};
ghost use Rattle.checker.specs.Readings.{by_task};
ghost use Rattle.checker.specs.Verdicts.{IsVerdict, ShowsNone};
ghost use Rattle.checker.specs.Findings.{AreViolations, IsFoundOf};

use crate::all_shown::all_shown;
use crate::clear::Clear;
use crate::executor::Inline;
use crate::phases::ask;
use crate::verdict::{CheckFault, Verdict};
use crate::violations::{Violations, violations_in};
use ompt_events::{Fault, Shown};
use packed_trace::PackedTrace;
use std::alloc::Global;

/// All records at which what a verdict says shows.
#[derive(Debug, Drop)]
pub enum Findings {
    /// Of a yes: no record.
    Nothing,
    /// Of a no: the records at which a task is incomplete that must be complete, in some order that the
    /// records allow.
    Violated(Violations),
    /// Of a malformed trace: the records that show the cause.
    Malformed(Shown),
}

impl Findings {
    /// Returns all records at which what the trace's verdict says shows: of a no each record at which some order
    /// that the records allow leaves a task incomplete that must be complete, the first `most` of them with their
    /// tasks; of a malformed trace each record that shows the cause of the verdict. Runs the phases of the check
    /// again, unless the verdict is a yes. For each violation that is listed it takes a few steps for each record.
    /// Fails only when out of memory.
    pub fn of(
        alloc: Global,
        trace: &PackedTrace,
        verdict: &Verdict,
        most: usize,
    ) -> Result<Findings, CheckFault>
        requires { IsVerdict trace.now.records verdict.now }
        ensures found { IfOk result (IsFoundOf trace.now.records most verdict.now) }
        ensures memory { IsOkUnless result CheckFault.Memory }
    {
        match verdict {
            Verdict::Yes { .. } => Ok(Findings::Nothing),
            Verdict::No { .. } => Ok(Findings::Violated(violations_of(alloc, trace, most)?)),
            Verdict::Malformed { cause, .. } => match all_shown(alloc, trace, *cause) {
                Ok(places) => Ok(Findings::Malformed(places)),
                Err(_) => Err(CheckFault::Memory),
            },
        }
    }
}

/// Returns the violations of a trace without a cause.
fn violations_of(alloc: Global, trace: &PackedTrace, most: usize) -> Result<Violations, CheckFault>
    requires { ShowsNone (by_task trace.now.records) }
    ensures violations { IfOk result (AreViolations (by_task trace.now.records) most) }
    ensures memory { IsOkUnless result CheckFault.Memory }
{
    match ask(
        &Inline,
        alloc,
        trace,
        &|clear: Clear| -> Result<Violations, Fault>
            ensures violations { IfOk result (AreViolations (by_task clear.entry.run.records) most) }
            ensures memory_alone { IfErr result (λ fault. fault ≡ Memory) }
        { violations_in(alloc, &clear, most) },
    ) {
        Ok(violations) => Ok(violations),
        Err(Fault::Memory) => Err(CheckFault::Memory),
        Err(Fault::Malformed { .. }) => unreachable!(),
    }
}
