//! The unfinished task at the end of a region that was created first, and whether an end covers a given
//! unfinished one.
ghost use Rattle.std.specs.Prelude.{◌≡◌, ◌<◌, ◌↔◌, List, IfOk, IfErr, IsTrue, MatchOption, length};
ghost use Rattle.ompt_events.specs.Places.{seen_at};
ghost use Rattle.ompt_events.specs.declared.fault.Fault.TheVariants.{Memory};
ghost use Rattle.teams.specs.Teams.{own_of};
ghost use Rattle.credit_ledger.specs.TraceEntries.{HasRightEntries, IsLedgerOf};
ghost use Rattle.wait_coverage.specs.Done.{IsDoneView, AreDone, AreChildrenDone};
ghost use Rattle.wait_coverage.specs.Known.{AreHeldFrom, AreCreditLengths};
ghost use Rattle.wait_coverage.specs.Limits.{IsEndLeast, IsEndLimit};
ghost use Rattle.wait_coverage.specs.Spans.{IsCoverComplete};
ghost use Rattle.wait_coverage.specs.Waits.{AreEach, IsWaitAt, AreAwaited, IsCoveredUnfinished, IsFirstCoveredUnfinished, waiting};

use crate::done::Done;
use crate::limit::Limit;
use crate::limits::{Node, Noted, find_limits};
use crate::meetings::add_meetings;
use crate::order::parents_first;
use crate::waits::{Search, Wait, all_late, first_late, is_late_task, wait_at};
use credit_ledger::Ledger;
use ompt_events::Fault;
use std::alloc::{AllocError, Global};
use std::marker::Model;
use teams::Teams;

/// The lengths that are computed once, before an end is looked at: the least ledger lengths at which the
/// tasks of a run are finished, and at which what each end covers is.
#[derive(Debug, Drop)]
pub struct Known<'a> {
    done: Done<'a>,
    /// By record that ends a region, the least ledger length at which what it covers is finished.
    nodes: Vec<Node>,
}

impl<'a> Model for Known<'a> {
    ghost use Rattle.wait_coverage.specs.Known.{KnownView, AreLimitsKnown};

    ghost Value = { KnownView };

    ghost view = { λ known. record { done = known.done; nodes = known.nodes.items } };

    ghost invariant = { λ known. AreLimitsKnown (record { done = known.done; nodes = known.nodes.items }) };
}

impl<'a> Known<'a> {
    /// Returns the lengths that the entries of a ledger give. They are those of `find_known` if the ledger
    /// is that of the trace. Takes a few steps for each record, a look-up of its task for each entry, and
    /// memory linear in the records. Fails only when out of memory.
    pub fn of_ledger(
        alloc: Global,
        teams: &'a Teams<'a>,
        ledger: &Ledger,
    ) -> Result<Known<'a>, Fault>
        ensures teams { IfOk result (λ known. known.done.teams ≡ teams.now) }
        ensures done { IsLedgerOf teams.now.run.records ledger.now
            → IfOk result (λ known. AreDone known.done) }
        ensures credit { IsLedgerOf teams.now.run.records ledger.now → HasRightEntries teams.now.run.records
            → IfOk result (λ known. AreHeldFrom known.done ledger.now) }
        ensures fault { IfErr result (λ fault. fault ≡ Memory) }
    {
        let done = Done::of_ledger(alloc, teams, ledger)?;
        let known = Known::of(alloc, done)?;
        let _done = known.done();
        Ok(known)
    }

    /// Returns what follows from these lengths.
    fn of(alloc: Global, done: Done<'a>) -> Result<Known<'a>, AllocError>
        ensures { IfOk result (λ known. known.done ≡ done.entry) }
    {
        let Noted {
            mut nodes,
            meetings,
        } = find_limits(alloc, &done)?;
        add_meetings(&done, &meetings, &mut nodes);
        Ok(Known { done, nodes })
    }

    /// Returns the lengths of the tasks.
    pub(crate) fn done(&self) -> &Done<'a>
        ensures value { result.now ≡ self.now.done }
        ensures is_done { IsDoneView self.now.done }
    {
        let _run = self.done.run();
        &self.done
    }

    /// Returns the least ledger length at which all that the end with this number covers is finished.
    fn limit(&self, number: usize) -> Limit
        requires { number < length self.now.done.teams.run.records }
        ensures limit { IsEndLimit self.now.done number result }
        ensures least { IsEndLeast self.now.done number result }
    {
        self.nodes[number].limit
    }

    /// Returns by index of the task the least ledger length at which it is finished.
    pub fn own(&self) -> &[u64]
        ensures { result.now ≡ self.now.done.own }
    {
        self.done.own()
    }

    /// Returns by index of the task the least ledger length at which it and all its descendants are
    /// finished.
    pub fn families(&self) -> &[u64]
        ensures { result.now ≡ self.now.done.families }
    {
        self.done.families()
    }
}

/// Returns the lengths that the records give. If the records have right entries, as those without the
/// causes 1 to 13 have, these are exactly the least lengths at which the trace's ledger holds the tasks'
/// credit. Takes a few steps for each record, and memory linear in the records. Fails only when out of
/// memory.
pub fn find_known<'a>(alloc: Global, teams: &'a Teams<'a>) -> Result<Known<'a>, Fault>
    ensures teams { IfOk result (λ known. known.done.teams ≡ teams.now) }
    ensures done { IfOk result (λ known. AreDone known.done) }
    ensures credit { HasRightEntries teams.now.run.records
        → IfOk result (λ known. AreCreditLengths known.done) }
    ensures fault { IfErr result (λ fault. fault ≡ Memory) }
{
    let done = Done::of_run(alloc, teams)?;
    let known = Known::of(alloc, done)?;
    let _done = known.done();
    Ok(known)
}

/// Returns, of the tasks that the end with this number in the tasks' own order covers, and that are
/// unfinished there, the one created first in the file (OpenMP 5.2, 15.3 to 15.5). Returns none if all are
/// finished, or if the record ends no wait. The contract guarantees this if the lengths are the least at
/// which the tasks are finished, or, with right entries, the least at which their credit is held (F. Mattern,
/// 1989). Takes a few steps, and where a task is unfinished a few for each record and memory linear in the
/// records. Fails only when out of memory.
pub fn find_unfinished(alloc: Global, known: &Known, number: usize) -> Result<Option<u64>, Fault>
    requires { number < length known.now.done.teams.run.records }
    ensures first { AreDone known.now.done → IfOk result (λ found.
        MatchOption found (IsCoverComplete known.now.done.teams.run.records number)
        (IsFirstCoveredUnfinished (own_of known.now.done.teams) number)) }
    ensures first_by_credit { HasRightEntries known.now.done.teams.run.records
        → AreCreditLengths known.now.done → IfOk result (λ found.
        MatchOption found (IsCoverComplete known.now.done.teams.run.records number)
        (IsFirstCoveredUnfinished (own_of known.now.done.teams) number)) }
    ensures fault { IfErr result (λ fault. fault ≡ Memory) }
{
    let _done = known.done();
    Ok(unfinished_at(alloc, known, number)?)
}

/// Returns, of the tasks that the end with this number covers and that are unfinished there, the one
/// created first in the file. Inlined into the loop over all ends.
#[inline(always)]
pub(crate) fn unfinished_at(
    alloc: Global,
    known: &Known,
    number: usize,
) -> Result<Option<u64>, AllocError>
    requires { number < length known.now.done.teams.run.records }
    ensures { AreChildrenDone known.now.done → IfOk result (λ found.
        MatchOption found (IsCoverComplete known.now.done.teams.run.records number)
        (IsFirstCoveredUnfinished (own_of known.now.done.teams) number)) }
{
    let done = known.done();
    match unmet_wait(known, number) {
        Some(wait) => {
            let marks = find_marks(alloc, done, wait)?;
            Ok(first_late(done, marks.as_slice(), done.run().seen(number)))
        }
        None => Ok(None),
    }
}

/// Returns whether the end with this number in the tasks' own order covers a task that is unfinished there
/// (OpenMP 5.2, 15.3 to 15.5). The contract guarantees this if the lengths are the least at which the tasks are
/// finished, and the record names no length of 2^32 - 1. Takes a few steps.
pub fn is_unfinished(known: &Known, number: usize) -> bool
    requires { number < length known.now.done.teams.run.records }
    ensures { AreDone known.now.done → seen_at known.now.done.teams.run.records number < 4294967295
        → IsTrue result ↔ (IsCoverComplete known.now.done.teams.run.records number → ⊥) }
{
    let done = known.done();
    if known.limit(number).is_reached(done.run().seen(number)) {
        return false;
    }
    wait_at(done.teams(), number).is_some()
}

/// Returns all tasks that the end with this number in the tasks' own order covers and that are unfinished
/// there, each once (OpenMP 5.2, 15.3 to 15.5). The contract guarantees this if the lengths are the least at
/// which the tasks are finished. Takes a few steps for each record, and memory linear in the records. Fails
/// only when out of memory.
pub fn all_unfinished(alloc: Global, known: &Known, number: usize) -> Result<Vec<u64>, Fault>
    requires { number < length known.now.done.teams.run.records }
    ensures unfinished { AreDone known.now.done → IfOk result (λ found.
        AreEach (IsCoveredUnfinished known.now.done.teams.run.records number) found.items) }
    ensures fault { IfErr result (λ fault. fault ≡ Memory) }
{
    let done = known.done();
    match unmet_wait(known, number) {
        Some(wait) => {
            let marks = find_marks(alloc, done, wait)?;
            Ok(all_late(alloc, done, marks.as_slice(), done.run().seen(number))?)
        }
        None => Ok(Vec::new(alloc)),
    }
}

/// Returns whether the end with this number in the tasks' own order covers the task, and the task is
/// unfinished there (OpenMP 5.2, 15.3 to 15.5). The contract guarantees this if the lengths are the least at
/// which the tasks are finished. Takes a few steps for each record, and memory linear in the records. Fails
/// only when out of memory.
pub fn covers_unfinished(
    alloc: Global,
    known: &Known,
    number: usize,
    task: u64,
) -> Result<bool, Fault>
    requires { number < length known.now.done.teams.run.records }
    ensures unfinished { AreDone known.now.done → IfOk result (λ found.
        IsTrue found ↔ IsCoveredUnfinished known.now.done.teams.run.records number task) }
    ensures fault { IfErr result (λ fault. fault ≡ Memory) }
{
    let done = known.done();
    match unmet_wait(known, number) {
        Some(wait) => {
            let marks = find_marks(alloc, done, wait)?;
            Ok(is_late_task(done, marks.as_slice(), task, done.run().seen(number)))
        }
        None => Ok(false),
    }
}

/// Returns what the end with this number waits for, unless its limit shows that all of it is finished
/// there. Inlined with `unfinished_at`.
#[inline(always)]
fn unmet_wait(known: &Known, number: usize) -> Option<Wait>
    requires { number < length known.now.done.teams.run.records }
    ensures { MatchOption result
        (AreChildrenDone known.now.done → IsCoverComplete known.now.done.teams.run.records number)
        (IsWaitAt known.now.done.teams.run.records known.now.done.teams.run.family.tasks number) }
{
    let done = known.done();
    // Most waits end in time. An unfinished task is searched only where this one did not.
    if known.limit(number).is_reached(done.run().seen(number)) {
        return None;
    }
    wait_at(done.teams(), number)
}

/// Returns by index of the task whether it is waited for.
fn find_marks(alloc: Global, done: &Done, wait: Wait) -> Result<Vec<bool>, AllocError>
    requires { waiting wait < length done.now.teams.run.family.tasks }
    ensures { IfOk result (λ marks. AreAwaited done.now.teams.run.records
        done.now.teams.run.family.tasks wait marks.items) }
{
    let order = parents_first(alloc, done.run().family())?;
    let search = Search::of(done.teams(), wait);
    search.find_awaited(alloc, order.as_slice())
}
