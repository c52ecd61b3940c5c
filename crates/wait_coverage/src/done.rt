//! The least ledger length at which each task is finished, and the least at which its descendants are too.
ghost use Rattle.std.specs.Prelude.{ℕ, ◌≡◌, ◌<◌, List, Option, Some, IfOk, MatchOption, length, map, slice_get};
ghost use Rattle.ompt_events.specs.declared.names.SyncKind.{SyncKind};
ghost use Rattle.ompt_events.specs.Regions.{IsRegion};
ghost use Rattle.task_states.specs.Regions.{IsRegionBegin};
ghost use Rattle.task_tree.specs.Lineage.{parent_index};
ghost use Rattle.teams.specs.Missed.{IsBarrierEnd, EndsNoBarrier};
ghost use Rattle.credit_ledger.specs.TraceEntries.{IsLedgerOf};
ghost use Rattle.wait_coverage.specs.Done.{IsDoneView, AreDone, AreRaised, IsParentsFirst, raised};
ghost use Rattle.wait_coverage.specs.Lengths.{done_length};

use crate::lengths::{Lengths, find_entered, find_lengths};
use crate::order::parents_first;
use credit_ledger::Ledger;
use std::alloc::{AllocError, Global};
use std::marker::Model;
use task_tree::{Family, Run};
use teams::{BarrierEnd, Teams};

/// Ledger lengths by index of the task, for the tasks of a run.
#[derive(Debug, Drop)]
pub(crate) struct Done<'a> {
    teams: &'a Teams<'a>,
    /// The least length at which the task is finished.
    own: Vec<u64>,
    /// The least length at which the task and all its descendants are finished.
    families: Vec<u64>,
}

impl<'a> Model for Done<'a> {
    ghost use Rattle.wait_coverage.specs.Done.{DoneView, IsDoneView};

    ghost Value = { DoneView };

    ghost view = { λ done. record {
      teams = done.teams.now;
      own = done.own.items;
      families = done.families.items;
    } };

    ghost invariant = { λ done. IsDoneView (record {
      teams = done.teams.now;
      own = done.own.items;
      families = done.families.items;
    }) };
}

impl<'a> Done<'a> {
    /// Returns the least ledger lengths at which the tasks are finished, by the records.
    pub(crate) fn of_run(alloc: Global, teams: &'a Teams<'a>) -> Result<Done<'a>, AllocError>
        ensures teams { IfOk result (λ done. done.teams ≡ teams.now) }
        ensures done { IfOk result AreDone }
    {
        let lengths = find_lengths(alloc, teams.run())?;
        Done::by_lengths(alloc, teams, lengths.as_slice())
    }

    /// Returns the least ledger lengths at which the tasks are finished, by the entries of the ledger. The
    /// contract guarantees this only if the ledger is that of the trace.
    pub(crate) fn of_ledger(
        alloc: Global,
        teams: &'a Teams<'a>,
        ledger: &Ledger,
    ) -> Result<Done<'a>, AllocError>
        ensures teams { IfOk result (λ done. done.teams ≡ teams.now) }
        ensures done { IsLedgerOf teams.now.run.records ledger.now → IfOk result AreDone }
    {
        let lengths = find_entered(alloc, teams.run(), ledger)?;
        Done::by_lengths(alloc, teams, lengths.as_slice())
    }

    /// Returns the lengths of the tasks, from those of their parts.
    fn by_lengths(
        alloc: Global,
        teams: &'a Teams<'a>,
        lengths: &[Lengths],
    ) -> Result<Done<'a>, AllocError>
        requires { length lengths.now ≡ length teams.now.run.family.tasks }
        ensures teams { IfOk result (λ done. done.teams ≡ teams.now) }
        ensures own { IfOk result (λ done. done.own ≡ map done_length lengths.now) }
    {
        let own = find_own(alloc, lengths)?;
        let run = teams.run();
        let order = parents_first(alloc, run.family())?;
        let families = find_families(alloc, run, own.as_slice(), order.as_slice())?;
        Ok(Done {
            teams,
            own,
            families,
        })
    }

    /// Returns by index of the task the least ledger length at which it is finished.
    pub(crate) fn own(&self) -> &[u64]
        ensures value { result.now ≡ self.now.own }
        ensures is_done { IsDoneView self.now }
    {
        self.own.as_slice()
    }

    /// Returns by index of the task the least ledger length at which it and all its descendants are
    /// finished.
    pub(crate) fn families(&self) -> &[u64]
        ensures value { result.now ≡ self.now.families }
        ensures is_done { IsDoneView self.now }
    {
        self.families.as_slice()
    }
}

// What is known of the run.
impl<'a> Done<'a> {
    /// Returns the teams.
    pub(crate) fn teams(&self) -> &'a Teams<'a>
        ensures value { result.now ≡ self.now.teams }
        ensures is_done { IsDoneView self.now }
    {
        self.teams
    }

    /// Returns the run.
    pub(crate) fn run(&self) -> &'a Run<'a>
        ensures value { result.now ≡ self.now.teams.run }
        ensures is_done { IsDoneView self.now }
    {
        self.teams.run()
    }

    /// Returns the number of the record at which the region began that this one ends.
    pub(crate) fn begin_of(&self, at: usize) -> Option<usize>
        requires { at < length self.now.teams.run.records }
        ensures { MatchOption result ((task begin : ℕ) (kind : SyncKind)
            → IsRegion self.now.teams.run.records at task kind begin → ⊥)
            (IsRegionBegin self.now.teams.run.records at) }
    {
        self.teams.begin_of(at)
    }

    /// Returns the barrier that the record ends, if it ends one.
    pub(crate) fn barrier_end(&self, at: usize) -> Option<BarrierEnd>
        requires { at < length self.now.teams.run.records }
        ensures { MatchOption result (EndsNoBarrier self.now.teams.run.records at)
            (λ end. IsBarrierEnd self.now.teams.run at end.task end.begin) }
    {
        self.teams.barrier_end(at)
    }

    /// Returns the number of the team of the task at this index.
    pub(crate) fn team(&self, index: usize) -> Option<usize>
        requires { index < length self.now.teams.teams }
        ensures { slice_get self.now.teams.teams index ≡ Some result }
    {
        self.teams.team(index)
    }

    /// Returns how many barriers the task that begins one at this record began before.
    pub(crate) fn number(&self, at: usize) -> u32
        requires { at < length self.now.teams.numbers }
        ensures { slice_get self.now.teams.numbers at ≡ Some result }
    {
        self.teams.number(at)
    }
}

/// Returns by index of the task the least ledger length at which it is finished.
fn find_own(alloc: Global, lengths: &[Lengths]) -> Result<Vec<u64>, AllocError>
    ensures { IfOk result (λ own. own.items ≡ map done_length lengths.now) }
{
    let mut own = Vec::with_capacity(alloc, lengths.len())?;
    for index in 0..lengths.len() {
        own.push(lengths[index].done())?;
    }
    Ok(own)
}

/// Returns by index of the task the greatest of its length and those of its descendants: each task passes
/// its own up after its children have passed up theirs.
fn find_families(
    alloc: Global,
    run: &Run,
    own: &[u64],
    order: &[usize],
) -> Result<Vec<u64>, AllocError>
    requires own { length own.now ≡ length run.now.family.tasks }
    requires order { IsParentsFirst run.now.family order.now }
    ensures { IfOk result (λ families. AreRaised run.now.family order.now own.now 0 families.items) }
{
    let family = run.family();
    let mut families = copy_of(alloc, own)?;
    for passed in 0..order.len() {
        raise(family, &mut families, order[order.len() - 1 - passed]);
    }
    Ok(families)
}

/// Returns a copy of the lengths.
fn copy_of(alloc: Global, lengths: &[u64]) -> Result<Vec<u64>, AllocError>
    ensures { IfOk result (λ copy. copy.items ≡ lengths.now) }
{
    let mut copy = Vec::with_capacity(alloc, lengths.len())?;
    copy.extend_from_slice(lengths)?;
    Ok(copy)
}

/// Passes the length of a task up to its parent.
fn raise(family: &Family, limits: &mut Vec<u64>, index: usize)
    requires within { index < length limits.old.items }
    requires parent { (up : ℕ) → parent_index family.now index ≡ Some up → up < length limits.old.items }
    ensures { limits.new.items ≡ raised family.now index limits.old.items }
{
    if let Some(up) = family.parent_at(index) {
        limits[up] = limits[up].max(limits[index]);
    }
}
