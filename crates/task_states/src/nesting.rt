//! Whether a parallel region lies inside another.
ghost use Rattle.std.specs.Prelude.{ℕ, ◌≡◌, ◌<◌, ◌↔◌, Some, IsTrue, IsSomeAnd, IfSome, IfOk, MatchOption, length, slice_get};
ghost use Rattle.ompt_events.specs.declared.cause.Cause.TheVariants.{NestedParallel};
ghost use Rattle.ompt_events.specs.Teams.{IsInitial};
ghost use Rattle.ompt_events.specs.Shown.{AreAllWith};
ghost use Rattle.task_tree.specs.Runs.{IsRun};
ghost use Rattle.task_states.specs.Nesting.{IsRootEvent, IsNoRootEvent, IsMemberIndex, ForksInside, JoinsInside, InitialInside, BeginsInside};

use crate::walk::{ThreadWalk, new_walks};
use ompt_events::Shown;
use std::alloc::{AllocError, Global};
use task_tree::{Run, ThreadEvent};

/// Returns the records at which a parallel region lies inside another (OpenMP 5.2, 10.1), in a trace where
/// none may: a task that is not initial begins one, a member of a team begins inside another member, or an
/// initial task begins inside any root. Such a root is open from there on, as any other. Takes one step for
/// each record.
pub fn find_nested(alloc: Global, run: &Run) -> Result<Shown, AllocError>
    ensures { IfOk result (AreAllWith run.now.records NestedParallel) }
{
    let mut shown = Shown::none(alloc);
    if run.nests() {
        return Ok(shown);
    }
    // The walks are kept for their open roots alone: the tasks that run are not followed.
    let mut walks = new_walks(alloc)?;
    for at in 0..run.len() {
        let Some(event) = root_event(run, at) else {
            let nested = forks_inside(run, at);
            shown.note(at, nested)?;
            continue;
        };
        let walk = &mut walks[run.thread(at) as usize];
        let nested = begins_inside(run, walk, at);
        shown.note(at, nested)?;
        walk.advance(event, false)?;
    }
    Ok(shown)
}

/// Returns the begin or end of a root, if the record is one. No other record changes which roots are open.
fn root_event(run: &Run, at: usize) -> Option<ThreadEvent>
    requires { at < length run.now.records }
    ensures { MatchOption result (IsNoRootEvent run.now at) (IsRootEvent run.now at) }
{
    if let Some(root) = run.begun_root(at) {
        return Some(ThreadEvent::RootBegin(root));
    }
    let root = run.ended_root(at)?;
    Some(ThreadEvent::RootEnd(root))
}

/// Returns whether a task that is not initial begins a parallel region.
fn forks_inside(run: &Run, at: usize) -> bool
    requires within { at < length run.now.records }
    requires is_run { IsRun run.now }
    ensures { IsTrue result ↔ ForksInside run.now.records at }
{
    match run.forking(at) {
        Some(task) => !is_initial(run, task),
        None => false,
    }
}

/// Returns whether a root begins inside a member of a team or another root, by its thread's walk.
fn begins_inside(run: &Run, walk: &ThreadWalk, at: usize) -> bool
    requires within { at < length run.now.records }
    requires is_run { IsRun run.now }
    requires known { IfSome (slice_get walk.now.roots 0) (λ root. root < length run.now.family.tasks) }
    ensures { IsTrue result ↔ BeginsInside run.now walk.now at }
{
    joins_inside(run, walk, at) || initial_inside(run, walk, at)
}

/// Returns whether a member of a team begins while another is the innermost open root.
fn joins_inside(run: &Run, walk: &ThreadWalk, at: usize) -> bool
    requires within { at < length run.now.records }
    requires is_run { IsRun run.now }
    requires known { IfSome (slice_get walk.now.roots 0) (λ root. root < length run.now.family.tasks) }
    ensures { IsTrue result ↔ JoinsInside run.now walk.now at }
{
    match run.joined(at) {
        Some(_) => has_member(run, walk.innermost()),
        None => false,
    }
}

/// Returns whether there is a task, and it is a member of a team.
fn has_member(run: &Run, task: Option<usize>) -> bool
    requires is_run { IsRun run.now }
    requires known { IfSome task (λ index. index < length run.now.family.tasks) }
    ensures { IsTrue result ↔ IsSomeAnd task (IsMemberIndex run.now) }
{
    match task {
        Some(index) => is_member(run, index),
        None => false,
    }
}

/// Returns whether an initial task begins while a root is open.
fn initial_inside(run: &Run, walk: &ThreadWalk, at: usize) -> bool
    requires { at < length run.now.records }
    ensures { IsTrue result ↔ InitialInside run.now walk.now at }
{
    run.begun_initial(at).is_some() && walk.innermost().is_some()
}

/// Returns whether the task at this index is an initial one.
fn is_initial(run: &Run, index: usize) -> bool
    requires within { index < length run.now.family.tasks }
    requires is_run { IsRun run.now }
    ensures { (task : ℕ) → slice_get run.now.family.tasks index ≡ Some task
        → IsTrue result ↔ IsInitial run.now.records task }
{
    run.begun_initial(run.made_at(index)).is_some()
}

/// Returns whether the task at this index is a member of a team.
fn is_member(run: &Run, index: usize) -> bool
    requires within { index < length run.now.family.tasks }
    requires is_run { IsRun run.now }
    ensures { IsTrue result ↔ IsMemberIndex run.now index }
{
    run.joined(run.made_at(index)).is_some()
}
