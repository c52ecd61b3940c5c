//! Whether all that must be complete at a record is complete there.
ghost use Rattle.std.specs.Prelude.{◌≡◌, ◌<◌, ◌≤◌, ◌^◌, ◌↔◌, IfOk, IfErr, IsTrue, length};
ghost use Rattle.ompt_events.specs.declared.fault.Fault.TheVariants.{Memory};
ghost use Rattle.checker.specs.Readings.{by_task};
ghost use Rattle.checker.specs.Verdicts.{IsUnfinished};
ghost use Rattle.checker.specs.Search.{IsClearView};
ghost use Rattle.checker.specs.Deciding.{IsDecided, IsFirstOrNone};
ghost use Rattle.checker.specs.Findings.{IsCountOf, IsViolated, IsViolation};

use crate::clear::Clear;
use crate::starts::Precedence;
use crate::verdict::Why;
use crate::violations::Violation;
use ompt_events::Fault;
use std::alloc::Global;
use std::marker::Model;
use wait_coverage::{all_unfinished, find_unfinished, is_unfinished};

/// A trace without a cause, with the least ledger lengths at which its tasks are finished, and which tasks
/// precede which.
#[derive(Drop)]
pub(crate) struct Deciding<'a, 'r> {
    clear: &'a Clear<'r>,
    precedence: Precedence<'a, 'r>,
}

impl<'a, 'r> Model for Deciding<'a, 'r> {
    ghost use Rattle.std.specs.Prelude.{◌≡◌};
    ghost use Rattle.checker.specs.Search.{ClearView};

    ghost Value = { ClearView };

    ghost view = { λ deciding. deciding.clear.now };

    ghost invariant = { λ deciding. deciding.precedence.file ≡ deciding.clear.now.run };
}

impl<'a, 'r> Deciding<'a, 'r> {
    /// Returns the tables for this trace. Takes a few steps for each record, n log n in the dependences,
    /// and memory linear in the tasks. Fails only when out of memory.
    pub(crate) fn of(alloc: Global, clear: &'a Clear<'r>) -> Result<Deciding<'a, 'r>, Fault>
        ensures clear { IfOk result (λ deciding. deciding ≡ clear.now) }
        ensures memory_alone { IfErr result (λ fault. fault ≡ Memory) }
    {
        let known = clear.known();
        let precedence = Precedence::of(alloc, clear.sound(), known.own())?;
        Ok(Deciding { clear, precedence })
    }

    /// Returns how many records the trace has.
    pub(crate) fn len(&self) -> usize
        ensures value { result ≡ length self.now.run.records }
        ensures few { result ≤ 2 ^ 22 }
        ensures is_clear { IsClearView self.now }
    {
        self.clear.sound().run().len()
    }

    /// Returns the first record at which a task that must be finished is not, and why it must be.
    pub(crate) fn first_violation(&self, alloc: Global) -> Result<Option<(usize, Why)>, Fault>
        ensures found { IfOk result (IsFirstOrNone (by_task self.now.run.records)) }
        ensures memory_alone { IfErr result (λ fault. fault ≡ Memory) }
    {
        for at in 0..self.len() {
            if let Some(why) = self.violation_at(alloc, at)? {
                return Ok(Some((at, why)));
            }
        }
        Ok(None)
    }

    /// Returns why the record at the place is a violation, if it is one. Fails only when out of memory.
    pub(crate) fn violation_at(&self, alloc: Global, at: usize) -> Result<Option<Why>, Fault>
        requires { at < length self.now.run.records }
        ensures decided { IfOk result (IsDecided (by_task self.now.run.records) at) }
        ensures memory_alone { IfErr result (λ fault. fault ≡ Memory) }
    {
        let own = self.clear.sound().own();
        if let Some(task) = find_unfinished(alloc, self.clear.known(), own.number(at))? {
            return Ok(Some(Why::Unfinished(task)));
        }
        match self.precedence.late_at(at)? {
            Some(task) => Ok(Some(Why::Predecessor(task))),
            None => Ok(None),
        }
    }
}

// What is wrong at one record.
impl<'a, 'r> Deciding<'a, 'r> {
    /// Returns whether some order that the records allow leaves a task incomplete at the place that must be
    /// complete there. Takes a few steps.
    pub(crate) fn is_violated(&self, at: usize) -> bool
        requires { at < length self.now.run.records }
        ensures { IsTrue result ↔ IsViolated (by_task self.now.run.records) at }
    {
        let own = self.clear.sound().own();
        is_unfinished(self.clear.known(), own.number(at)) || self.precedence.is_late_at(at)
    }

    /// Returns the violation at the place, where there is one. Takes a few steps for each record. Fails only
    /// when out of memory.
    pub(crate) fn violation(&self, alloc: Global, at: usize) -> Result<Violation, Fault>
        requires within { at < length self.now.run.records }
        requires violated { IsViolated (by_task self.now.run.records) at }
        ensures at { IfOk result (λ violation. violation.at ≡ at) }
        ensures violation { IfOk result (IsViolation (by_task self.now.run.records)) }
        ensures memory_alone { IfErr result (λ fault. fault ≡ Memory) }
    {
        // Makes the invariant known. It compiles to nothing.
        let _records = self.len();
        match self.violation_at(alloc, at)? {
            Some(why) => {
                let others = self.unfinished_count(alloc, at)? - 1;
                Ok(Violation { at, why, others })
            }
            None => unreachable!(),
        }
    }

    /// Returns how many tasks must be complete at the place and are not.
    fn unfinished_count(&self, alloc: Global, at: usize) -> Result<usize, Fault>
        requires { at < length self.now.run.records }
        ensures count { IfOk result (IsCountOf (IsUnfinished (by_task self.now.run.records) at)) }
        ensures memory_alone { IfErr result (λ fault. fault ≡ Memory) }
    {
        let own = self.clear.sound().own();
        let covered = all_unfinished(alloc, self.clear.known(), own.number(at))?;
        let late = self.precedence.all_late_at(alloc, at)?;
        // A record that ends a wait neither starts a task nor completes a taskwait.
        Ok(covered.len() + late.len())
    }
}
