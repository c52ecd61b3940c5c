//! Which thread each explicit task runs on.
ghost use Rattle.std.specs.Prelude.{ℕ, ◌≡◌, ◌<◌, ◌↔◌, ◌∷◌, [], Some, false, IfOk, IfErr, OnOk, length, replicate, slice_get};
ghost use Rattle.ompt_events.specs.declared.cause.Cause.TheVariants.{Moved};
ghost use Rattle.ompt_events.specs.Causes.{IsFreeOf};
ghost use Rattle.ompt_events.specs.Faults.{IsFault};
ghost use Rattle.ompt_events.specs.Shown.{AreAllWith};
ghost use Rattle.ompt_events.specs.Tree.{IsExplicit};
ghost use Rattle.task_tree.specs.Runs.{IsRun};
ghost use Rattle.task_states.specs.declared.homes.Home.TheVariants.{Nowhere};
ghost use Rattle.task_states.specs.Homes.{home_after, home_at, met_home, told_move, IsExplicitStart, IsNeverEarly};

use crate::moves::fulfils_early;
use ompt_events::{Cause, Fault, Shown};
use std::alloc::{AllocError, Global};
use std::marker::Model;
use task_tree::Run;

/// The threads on which a task runs.
#[derive(Clone, Copy)]
pub(crate) enum Home {
    /// It does not run.
    Nowhere,
    /// On this thread alone.
    On(u8),
    /// On more than one thread, as its recorded turns show.
    Many,
}

/// What the task_schedule events of a run show: by index of each explicit task where it runs, and whether
/// the event of any task is fulfilled before that task's body has ended.
#[derive(Drop)]
pub(crate) struct Schedules<'a> {
    run: Run<'a>,
    homes: Vec<Home>,
    any_early: bool,
}

impl<'a> Model for Schedules<'a> {
    ghost use Rattle.task_tree.specs.Runs.{RunView};
    ghost use Rattle.task_states.specs.Homes.{AreSchedules};

    ghost Value = { RunView };

    ghost view = { λ schedules. schedules.run };

    ghost invariant = { λ schedules.
        AreSchedules schedules.run schedules.homes.items schedules.any_early };
}

impl<'a> Schedules<'a> {
    /// Returns the run.
    pub(crate) fn run(&self) -> &Run<'a>
        ensures value { result.now ≡ self.now }
        ensures is_run { IsRun self.now }
    {
        &self.run
    }

    /// Returns where the explicit task at this index runs.
    pub(crate) fn home(&self, index: usize) -> Home
        requires { index < length self.now.family.tasks }
        ensures { (task : ℕ) → slice_get self.now.family.tasks index ≡ Some task
            → IsExplicit self.now.records task → result ≡ home_at self.now.records task }
    {
        self.homes[index]
    }

    /// Returns whether the event of any task is fulfilled before that task's body has ended.
    pub(crate) fn any_early(&self) -> bool
        ensures { result ≡ false → IsNeverEarly self.now.records (length self.now.records) }
    {
        self.any_early
    }
}

/// Returns what the task_schedule events of the run show. Excludes Moved. Fails with the first record
/// without turns after which an explicit task runs on a second thread.
pub(crate) fn find_moved<'a>(alloc: Global, run: &Run<'a>) -> Result<Schedules<'a>, Fault>
    ensures run { IfOk result (λ schedules. schedules ≡ run.now) }
    ensures free { OnOk result (IsFreeOf run.now.records Moved) }
    ensures fault { IfErr result (IsFault run.now.records (Moved ∷ [])) }
{
    let mut homes = no_homes(alloc, run.task_count())?;
    let mut any_early = false;
    for at in 0..run.len() {
        any_early |= fulfils_early(run, at);
        if let Some(index) = explicit_start(run, at) {
            let told = run.tells_turns(at);
            let Some(home) = home_after(homes[index], run.thread(at), told) else {
                return Err(Fault::Malformed {
                    at,
                    cause: Cause::Moved,
                });
            };
            homes[index] = home;
        }
    }
    Ok(Schedules {
        run: run.again(),
        homes,
        any_early,
    })
}

/// Returns all records without turns after which an explicit task runs that ran before on another thread.
/// `find_moved` fails with the first of them. Takes a few steps for each record.
pub fn find_moves(alloc: Global, run: &Run) -> Result<Shown, AllocError>
    ensures { IfOk result (AreAllWith run.now.records Moved) }
{
    let mut shown = Shown::none(alloc);
    let mut homes = no_homes(alloc, run.task_count())?;
    for at in 0..run.len() {
        let Some(index) = explicit_start(run, at) else {
            continue;
        };
        let home = homes[index];
        let thread = run.thread(at);
        let moves = home_after(home, thread, run.tells_turns(at)).is_none();
        shown.note(at, moves)?;
        homes[index] = met_home(home, thread);
    }
    Ok(shown)
}

/// Returns the table in which no task runs. Fails only when out of memory.
fn no_homes(alloc: Global, tasks: usize) -> Result<Vec<Home>, AllocError>
    ensures { IfOk result (λ homes. homes.items ≡ replicate tasks Nowhere) }
{
    vec![in alloc; Home::Nowhere; tasks]
}

/// Returns the index of the explicit task that runs next, if one does.
fn explicit_start(run: &Run, at: usize) -> Option<usize>
    requires within { at < length run.now.records }
    requires is_run { IsRun run.now }
    ensures { (index : ℕ) → (result ≡ Some index)
        ↔ IsExplicitStart run.now.records run.now.family.tasks at index }
{
    let index = run.started(at)?;
    if run.is_explicit(index) {
        Some(index)
    } else {
        None
    }
}

/// Returns where a task runs that now runs on this thread, or none where it ran on another one and no turns
/// are recorded.
fn home_after(home: Home, thread: u8, told: bool) -> Option<Home>
    ensures { result ≡ home_after home thread told }
{
    match home {
        Home::Nowhere => Some(Home::On(thread)),
        Home::On(before) => {
            if before == thread {
                Some(home)
            } else {
                told_move(told)
            }
        }
        Home::Many => told_move(told),
    }
}

/// Returns where a task runs that now runs on this thread, whether or not it may.
fn met_home(home: Home, thread: u8) -> Home
    ensures { result ≡ met_home home thread }
{
    match home {
        Home::Nowhere => Home::On(thread),
        Home::On(before) => { if before == thread { home } else { Home::Many } }
        Home::Many => Home::Many,
    }
}

/// Returns that the task moved, if turns are recorded, and else none.
fn told_move(told: bool) -> Option<Home>
    ensures { result ≡ told_move told }
{
    if told { Some(Home::Many) } else { None }
}
