//! Whether a root begins inside another one, of a region that the task there has not begun.
ghost use Rattle.std.specs.Prelude.{◌<◌, ◌↔◌, IsTrue, IfSome, IfOk, length};
ghost use Rattle.ompt_events.specs.declared.cause.Cause.TheVariants.{RegionNesting};
ghost use Rattle.ompt_events.specs.Shown.{AreAllWith};
ghost use Rattle.task_tree.specs.Runs.{IsRun};
ghost use Rattle.task_states.specs.Misnesting.{HaveBegun, BeginsMisnested, JoinsOther, LeadsOther};

use crate::begun::Begun;
use crate::walk::{ThreadWalk, new_walks};
use ompt_events::Shown;
use std::alloc::{AllocError, Global};
use task_tree::Run;

/// Returns the records at which a root begins inside another one, on a thread whose current task has not
/// begun its region there (OpenMP 5.2, 10.1: the thread that encounters a parallel construct becomes the
/// primary thread of its team), in a trace where regions may lie inside others; none in any other trace. For
/// an initial task any region of the current task counts. Such a root is open from there on, as any other.
/// Takes a few steps for each record, and 32 bytes for each task beside what it notes of each region.
pub fn find_misnested(alloc: Global, run: &Run) -> Result<Shown, AllocError>
    ensures { IfOk result (AreAllWith run.now.records RegionNesting) }
{
    let mut shown = Shown::none(alloc);
    if !run.nests() {
        return Ok(shown);
    }
    let mut walks = new_walks(alloc)?;
    let mut begun = Begun::new(alloc, run)?;
    for at in 0..run.len() {
        let thread = run.thread(at) as usize;
        let misnested = is_misnested(run, &walks[thread], &begun, at);
        shown.note(at, misnested)?;
        begun.note(run, at)?;
        let Some(event) = run.thread_event(at) else {
            continue;
        };
        walks[thread].advance(event, true)?;
    }
    Ok(shown)
}

/// Returns whether a root begins inside another one, of a region that the current task of its thread, by the
/// thread's walk, has not begun there.
fn is_misnested(run: &Run, walk: &ThreadWalk, begun: &Begun, at: usize) -> bool
    requires within { at < length run.now.records }
    requires is_run { IsRun run.now }
    requires begun { HaveBegun run.now at begun.now }
    requires known { IfSome walk.now.current (λ index. index < length run.now.family.tasks) }
    ensures { IsTrue result ↔ BeginsMisnested run.now walk.now at }
{
    walk.innermost().is_some()
        && (joins_other(run, walk, begun, at) || leads_other(run, walk, begun, at))
}

/// Returns whether a member of a team begins, and the current task has not begun its region there.
fn joins_other(run: &Run, walk: &ThreadWalk, begun: &Begun, at: usize) -> bool
    requires within { at < length run.now.records }
    requires is_run { IsRun run.now }
    requires begun { HaveBegun run.now at begun.now }
    ensures { IsTrue result ↔ JoinsOther run.now walk.now at }
{
    match run.joined(at) {
        Some(member) => !begun.has_begun(run, at, walk.current(), member.parallel),
        None => false,
    }
}

/// Returns whether an initial task begins, and the current task has begun no region there.
fn leads_other(run: &Run, walk: &ThreadWalk, begun: &Begun, at: usize) -> bool
    requires within { at < length run.now.records }
    requires is_run { IsRun run.now }
    requires begun { HaveBegun run.now at begun.now }
    requires known { IfSome walk.now.current (λ index. index < length run.now.family.tasks) }
    ensures { IsTrue result ↔ LeadsOther run.now walk.now at }
{
    run.begun_initial(at).is_some() && !begun.has_begun_one(run, at, walk.current())
}
