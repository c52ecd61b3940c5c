//! What each record awaits: the creation of a task, or the end of the turn before the one that it begins.
ghost use Rattle.std.specs.Prelude.{ℕ, ◌≡◌, ◌<◌, ◌↔◌, None, Some, MatchOption, length};
ghost use Rattle.ompt_events.specs.Records.{begun_turn};
ghost use Rattle.ompt_events.specs.Places.{at as says_at};
ghost use Rattle.task_tree.specs.Runs.{IsIndexOf};
ghost use Rattle.task_tree.specs.Rising.{IsStartOf};
ghost use Rattle.checker.specs.Schedule.{first_started as starts_first, Awaits, IsAwaitedAt, AwaitsNone};
ghost use Rattle.checker.specs.Suspensions.{AreSuspensions};

use crate::suspensions::Suspensions;
use task_tree::Run;

/// The task at the index runs next and begins this turn.
#[derive(Clone, Copy)]
pub(crate) struct Begin {
    pub(crate) index: usize,
    pub(crate) turn: u32,
}

/// What a record awaits.
#[derive(Clone, Copy)]
pub(crate) enum Awaited {
    /// The creation of the task at the index.
    Creation(usize),
    /// The end of the turn before the one that begins.
    Turn(Begin),
}

/// Returns the place of the record that the one at a place awaits: the creation of the task that it starts,
/// discards or fulfils, or the record at which the explicit task that resumes there was suspended. Inlined
/// into the loops over all records.
#[inline(always)]
pub(crate) fn awaited_at(run: &Run, suspensions: &Suspensions, at: usize) -> Option<usize>
    requires within { at < length run.now.records }
    requires known { AreSuspensions run.now.records run.now.family.tasks suspensions.now }
    ensures { (c : ℕ) → (result ≡ Some c) ↔ Awaits run.now.records at c }
{
    match awaited_by(run, at)? {
        Awaited::Creation(index) => run.created_at(index),
        Awaited::Turn(begin) => suspensions.end_before(run, at, begin),
    }
}

/// Returns what the record at a place awaits. Inlined with `awaited_at`.
#[inline(always)]
pub(crate) fn awaited_by(run: &Run, at: usize) -> Option<Awaited>
    requires { at < length run.now.records }
    ensures { MatchOption result (AwaitsNone run.now.records at) (IsAwaitedAt run.now at) }
{
    if let Some(index) = run.fulfilled(at) {
        return Some(Awaited::Creation(index));
    }
    if let Some(index) = run.discarded(at) {
        return Some(Awaited::Creation(index));
    }
    let begin = begun_at(run, at)?;
    if begin.turn == 0 {
        Some(Awaited::Creation(begin.index))
    } else {
        Some(Awaited::Turn(begin))
    }
}

/// Returns the task that starts at the place: it runs next, in its turn 0.
pub(crate) fn first_started(run: &Run, at: usize) -> Option<usize>
    requires { at < length run.now.records }
    ensures { IsIndexOf run.now starts_first at result }
{
    let begin = begun_at(run, at)?;
    if begin.turn == 0 {
        Some(begin.index)
    } else {
        None
    }
}

/// Returns the turn that a task begins at the place. Inlined with `awaited_by`.
#[inline(always)]
pub(crate) fn begun_at(run: &Run, at: usize) -> Option<Begin>
    requires { at < length run.now.records }
    ensures { MatchOption result (says_at begun_turn run.now.records at ≡ None)
        (λ begin. IsStartOf run.now.records run.now.family.tasks at begin.index begin.turn) }
{
    let (index, turn) = run.begun_turn(at)?;
    Some(Begin { index, turn })
}
