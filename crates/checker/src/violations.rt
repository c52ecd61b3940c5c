//! All records at which some order misses a task.
ghost use Rattle.std.specs.Prelude.{◌≡◌, ◌<◌, ◌≤◌, ◌+◌, [], IfOk, IfErr, OnOk, length};
ghost use Rattle.ompt_events.specs.declared.fault.Fault.TheVariants.{Memory};
ghost use Rattle.checker.specs.Readings.{by_task};
ghost use Rattle.checker.specs.Findings.{AreViolations, AreViolationsBelow, IsViolated};

use crate::clear::Clear;
use crate::deciding::Deciding;
use crate::verdict::Why;
use ompt_events::Fault;
use std::alloc::Global;

/// A record at which a task that must be complete is incomplete in some order that the records allow.
#[derive(Clone, Copy, Debug, PartialEq, Eq)]
pub struct Violation {
    /// The place of the record, from 0.
    pub at: usize,
    /// Of the tasks that are incomplete there the one created first in the file, and why it must be complete.
    pub why: Why,
    /// How many others there are.
    pub others: usize,
}

/// The records at which a task is incomplete in some order that the records allow, in file order: the first
/// of them, and how many are left out.
#[derive(Debug, Drop)]
pub struct Violations {
    pub listed: Vec<Violation>,
    pub left_out: usize,
}

impl Violations {
    /// Returns no violations.
    fn none(alloc: Global) -> Violations
        ensures empty { result.listed.items ≡ [] }
        ensures all { result.left_out ≡ 0 }
    {
        Violations {
            listed: Vec::new(alloc),
            left_out: 0,
        }
    }

    /// Notes the violation at the record, which lists it if fewer than `most` are listed.
    fn note(
        &mut self,
        alloc: Global,
        deciding: &Deciding,
        at: usize,
        most: usize,
    ) -> Result<(), Fault>
        requires within { at < length deciding.now.run.records }
        requires violated { IsViolated (by_task deciding.now.run.records) at }
        requires few { self.old.left_out ≤ at }
        requires below { AreViolationsBelow (by_task deciding.now.run.records) most at self.old }
        ensures few { OnOk result (self.new.left_out ≤ at + 1) }
        ensures below { OnOk result
            (AreViolationsBelow (by_task deciding.now.run.records) most (at + 1) self.new) }
        ensures memory_alone { IfErr result (λ fault. fault ≡ Memory) }
    {
        // Makes known that the records are few. It compiles to nothing.
        let _records = deciding.len();
        if self.listed.len() < most {
            self.listed.push(deciding.violation(alloc, at)?)?;
        } else {
            self.left_out += 1;
        }
        Ok(())
    }
}

/// Returns the first `most` violations of a trace without a cause, and how many more there are. Takes a few
/// steps for each record, and for each violation that is listed a few more for each record.
pub(crate) fn violations_in(alloc: Global, clear: &Clear, most: usize) -> Result<Violations, Fault>
    ensures violations { IfOk result (AreViolations (by_task clear.now.run.records) most) }
    ensures memory_alone { IfErr result (λ fault. fault ≡ Memory) }
{
    let deciding = Deciding::of(alloc, clear)?;
    let mut found = Violations::none(alloc);
    for at in 0..deciding.len() {
        if deciding.is_violated(at) {
            found.note(alloc, &deciding, at, most)?;
        }
    }
    Ok(found)
}
