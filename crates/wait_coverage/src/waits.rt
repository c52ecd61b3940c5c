//! What the end of a region waits for, and what of it is unfinished.
ghost use Rattle.std.specs.Prelude.{ℕ, ◌≡◌, ◌<◌, ◌≤◌, ◌↔◌, IfOk, IsTrue, MatchOption, length, slice_get, replicate, Some, false};
ghost use Rattle.ompt_events.specs.Teams.{IsTeammate};
ghost use Rattle.task_states.specs.Regions.{IsRegionBegin};
ghost use Rattle.task_tree.specs.Runs.{IsWaitEvent};
ghost use Rattle.task_states.specs.Rows.{row_at};
ghost use Rattle.wait_coverage.specs.Done.{IsParentsFirst};
ghost use Rattle.wait_coverage.specs.Search.{IsSearch, IsMarkedAbove};
ghost use Rattle.wait_coverage.specs.Waits.{AreEach, EndsNoWaitAt, IsWaitAt, IsInWait, IsOwnChild, IsAwaited, AreAwaited, IsAwaitedUnfinished, IsAwaitedUnfinishedAt, IsFirstLate, cover_of, waiting};
ghost use Rattle.wait_coverage.specs.declared.waits.Wait.{Wait};

use crate::done::Done;
use credit_ledger::Cover;
use ompt_events::WaitKind;
use std::alloc::{AllocError, Global};
use std::marker::Model;
use task_tree::WaitEvent;
use teams::Teams;

/// What the end of a region waits for. A task is given by its index, a begin or an end by the number of its
/// record.
#[derive(Clone, Copy, Debug)]
pub(crate) enum Wait {
    /// The children that the task created before the begin.
    Taskwait {
        task: usize,
        begin: usize,
    },
    /// The children that the task created between the two records, and their descendants.
    Taskgroup {
        task: usize,
        begin: usize,
        end: usize,
    },
    /// For each member of the task's team the children that it created before its barrier with this number
    /// began, and their descendants.
    Barrier {
        task: usize,
        number: usize,
    },
}

impl Wait {
    /// Returns whether the descendants of the children are waited for too.
    pub(crate) fn cover(&self) -> Cover
        ensures { result ≡ cover_of self.now }
    {
        match self {
            Wait::Taskwait { .. } => Cover::Children,
            Wait::Taskgroup { .. } | Wait::Barrier { .. } => Cover::Descendants,
        }
    }
}

/// Returns what a record waits for, if it ends a region that waits for tasks.
pub(crate) fn wait_at(teams: &Teams, at: usize) -> Option<Wait>
    requires { at < length teams.now.run.records }
    ensures { MatchOption result (EndsNoWaitAt teams.now.run.records at)
        (IsWaitAt teams.now.run.records teams.now.run.family.tasks at) }
{
    let event = teams.run().wait_event(at)?;
    let begin = teams.begin_of(at)?;
    Some(wait_of(teams, event, begin, at))
}

/// Returns what the region that begins at the one record and ends at the other waits for.
fn wait_of(teams: &Teams, event: WaitEvent, begin: usize, end: usize) -> Wait
    requires event { IsWaitEvent teams.now.run end event.task event.kind event.endpoint }
    requires begin { IsRegionBegin teams.now.run.records end begin }
    ensures { IsWaitAt teams.now.run.records teams.now.run.family.tasks end result }
{
    let _run = teams.run();
    let task = event.task;
    match event.kind {
        WaitKind::Taskwait => Wait::Taskwait { task, begin },
        WaitKind::Taskgroup => Wait::Taskgroup { task, begin, end },
        WaitKind::Barrier => Wait::Barrier {
            task,
            number: teams.number(begin) as usize,
        },
    }
}

/// A search for the tasks that an end waits for.
#[derive(Drop)]
pub(crate) struct Search<'a> {
    teams: &'a Teams<'a>,
    wait: Wait,
}

impl<'a> Model for Search<'a> {
    ghost use Rattle.wait_coverage.specs.Search.{SearchView, IsSearch};

    ghost Value = { SearchView };

    ghost view = { λ search. record { teams = search.teams.now; wait = search.wait } };

    ghost invariant = { λ search. IsSearch (record { teams = search.teams.now; wait = search.wait }) };
}

impl<'a> Search<'a> {
    /// Returns the search for what the end waits for.
    pub(crate) fn of(teams: &'a Teams<'a>, wait: Wait) -> Search<'a>
        requires { waiting wait < length teams.now.run.family.tasks }
        ensures teams { result.teams ≡ teams.now }
        ensures wait { result.wait ≡ wait }
    {
        let _run = teams.run();
        Search { teams, wait }
    }

    /// Returns by index of the task whether it is waited for. Requires an order that has each task after
    /// its parent.
    pub(crate) fn find_awaited(
        &self,
        alloc: Global,
        order: &[usize],
    ) -> Result<Vec<bool>, AllocError>
        requires { IsParentsFirst self.now.teams.run.family order.now }
        ensures { IfOk result (λ marks. AreAwaited self.now.teams.run.records
            self.now.teams.run.family.tasks self.now.wait marks.items) }
    {
        let mut marks = no_marks(alloc, self.teams.run().task_count())?;
        for place in 0..order.len() {
            let index = order[place];
            marks[index] = self.is_awaited(marks.as_slice(), index);
        }
        Ok(marks)
    }

    /// Returns whether the task at the index is waited for. Requires that this is marked for its parent.
    fn is_awaited(&self, marks: &[bool], index: usize) -> bool
        requires within { index < length self.now.teams.run.family.tasks }
        requires all { length marks.now ≡ length self.now.teams.run.family.tasks }
        requires above { IsMarkedAbove self.now marks.now index }
        ensures { (task : ℕ) → slice_get self.now.teams.run.family.tasks index ≡ Some task → IsTrue result
            ↔ IsAwaited self.now.teams.run.records self.now.teams.run.family.tasks self.now.wait task }
    {
        if self.is_own_child(index) {
            return true;
        }
        match self.wait.cover() {
            Cover::Children => false,
            Cover::Descendants => match self.teams.run().parent(index) {
                Some(up) => marks[up],
                None => false,
            },
        }
    }

    /// Returns whether the task at the index is one of the children that are waited for.
    fn is_own_child(&self, index: usize) -> bool
        requires { index < length self.now.teams.run.family.tasks }
        ensures { (task : ℕ) → slice_get self.now.teams.run.family.tasks index ≡ Some task → IsTrue result
            ↔ IsOwnChild self.now.teams.run.records self.now.teams.run.family.tasks self.now.wait task }
    {
        let run = self.teams.run();
        match run.parent(index) {
            Some(up) => self.is_within(up, run.made_at(index)),
            None => false,
        }
    }

    /// Returns whether a child that the task at the index creates at the record is waited for.
    fn is_within(&self, index: usize, made: usize) -> bool
        requires { index < length self.now.teams.run.family.tasks }
        ensures { (parent : ℕ) → slice_get self.now.teams.run.family.tasks index ≡ Some parent
            → IsTrue result ↔ IsInWait self.now.teams.run.records self.now.teams.run.family.tasks
            parent made self.now.wait }
    {
        match self.wait {
            Wait::Taskwait { task, begin } => is_between(task, index, 0, begin, made),
            Wait::Taskgroup { task, begin, end } => is_between(task, index, begin, end, made),
            Wait::Barrier { task, number } => {
                if are_teammates(self.teams, task, index) {
                    is_before_begin(self.teams, index, number, made)
                } else {
                    false
                }
            }
        }
    }
}

/// Returns marks with which no task is waited for.
fn no_marks(alloc: Global, tasks: usize) -> Result<Vec<bool>, AllocError>
    ensures { IfOk result (λ marks. marks.items ≡ replicate tasks false) }
{
    vec![in alloc; false; tasks]
}

/// Returns whether the two indices are the same, and the number is at least the one bound and below the
/// other.
fn is_between(task: usize, index: usize, from: usize, to: usize, made: usize) -> bool
    ensures { IsTrue result ↔ ((task ≡ index) × (from ≤ made) × (made < to)) }
{
    if task != index {
        return false;
    }
    if made < from {
        return false;
    }
    made < to
}

/// Returns whether the tasks at the two indices are in one team.
fn are_teammates(teams: &Teams, task: usize, index: usize) -> bool
    requires task { task < length teams.now.run.family.tasks }
    requires within { index < length teams.now.run.family.tasks }
    ensures { (own mate : ℕ) → slice_get teams.now.run.family.tasks task ≡ Some own
        → slice_get teams.now.run.family.tasks index ≡ Some mate
        → IsTrue result ↔ IsTeammate teams.now.run.records own mate }
{
    let _run = teams.run();
    match teams.team(task) {
        Some(team) => teams.team(index) == Some(team),
        None => false,
    }
}

/// Returns whether the record is before the one at which the task at the index begins its barrier with this
/// number.
fn is_before_begin(teams: &Teams, index: usize, number: usize, made: usize) -> bool
    ensures { IsTrue result ↔ ((start : ℕ)
        × (slice_get (row_at teams.now.begins index) number ≡ Some start) × (made < start)) }
{
    match teams.begins(index).get(number) {
        Some(start) => made < *start as usize,
        None => false,
    }
}

/// Returns, of the tasks that are marked and whose length is above the one seen, the one created first in
/// the file.
pub(crate) fn first_late(done: &Done, marks: &[bool], seen: u32) -> Option<u64>
    requires { length marks.now ≡ length done.now.teams.run.family.tasks }
    ensures { (wait : Wait)
        → AreAwaited done.now.teams.run.records done.now.teams.run.family.tasks wait marks.now
        → MatchOption result ((place task : ℕ) → IsAwaitedUnfinishedAt done.now wait seen place task → ⊥)
        (IsFirstLate done.now wait seen) }
{
    for place in 0..done.run().len() {
        if let Some(task) = late_at(done, marks, place, seen) {
            return Some(task);
        }
    }
    None
}

/// Returns the tasks that are marked and whose length is above the one seen, each once.
pub(crate) fn all_late(
    alloc: Global,
    done: &Done,
    marks: &[bool],
    seen: u32,
) -> Result<Vec<u64>, AllocError>
    requires { length marks.now ≡ length done.now.teams.run.family.tasks }
    ensures { (wait : Wait)
        → AreAwaited done.now.teams.run.records done.now.teams.run.family.tasks wait marks.now
        → IfOk result (λ late. AreEach (IsAwaitedUnfinished done.now wait seen) late.items) }
{
    let run = done.run();
    let mut late = Vec::new(alloc);
    for index in 0..run.task_count() {
        if !is_late_index(done, marks, index, seen) {
            continue;
        }
        late.push(run.task(index))?;
    }
    Ok(late)
}

/// Returns the task that is created at the place in the file, if it is marked and its length is above the
/// one seen.
fn late_at(done: &Done, marks: &[bool], place: usize, seen: u32) -> Option<u64>
    requires within { place < length done.now.teams.run.records }
    requires all { length marks.now ≡ length done.now.teams.run.family.tasks }
    ensures { (wait : Wait)
        → AreAwaited done.now.teams.run.records done.now.teams.run.family.tasks wait marks.now
        → MatchOption result ((task : ℕ) → IsAwaitedUnfinishedAt done.now wait seen place task → ⊥)
        (IsAwaitedUnfinishedAt done.now wait seen place) }
{
    let run = done.run();
    let index = run.created(done.teams().own().number(place))?;
    if is_late_index(done, marks, index, seen) {
        Some(run.task(index))
    } else {
        None
    }
}

/// Returns whether the task is marked, and its length is above the one seen.
pub(crate) fn is_late_task(done: &Done, marks: &[bool], task: u64, seen: u32) -> bool
    requires { length marks.now ≡ length done.now.teams.run.family.tasks }
    ensures { (wait : Wait)
        → AreAwaited done.now.teams.run.records done.now.teams.run.family.tasks wait marks.now
        → IsTrue result ↔ IsAwaitedUnfinished done.now wait seen task }
{
    match done.run().index_of(task) {
        Some(index) => is_late_index(done, marks, index, seen),
        None => false,
    }
}

/// Returns whether the task at the index is marked, and its length is above the one seen.
fn is_late_index(done: &Done, marks: &[bool], index: usize, seen: u32) -> bool
    requires within { index < length done.now.teams.run.family.tasks }
    requires all { length marks.now ≡ length done.now.teams.run.family.tasks }
    ensures { (wait : Wait) (task : ℕ)
        → AreAwaited done.now.teams.run.records done.now.teams.run.family.tasks wait marks.now
        → slice_get done.now.teams.run.family.tasks index ≡ Some task
        → IsTrue result ↔ IsAwaitedUnfinished done.now wait seen task }
{
    if !marks[index] {
        return false;
    }
    done.own()[index] > u64::from(seen)
}
