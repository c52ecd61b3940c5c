//! Whether each record is of a task that its thread runs.
ghost use Rattle.std.specs.Prelude.{ℕ, ◌≡◌, ◌<◌, ◌^◌, ◌++◌, ◌∷◌, ◌&&◌, ◌||◌, ◌↔◌, [], not, IsTrue, IfSome, IfOk, OnOk, length, if◌then◌else◌};
ghost use Rattle.ompt_events.specs.declared.cause.Cause.TheVariants.{NotCurrent};
ghost use Rattle.ompt_events.specs.Shown.{AreAllWith};
ghost use Rattle.task_tree.specs.Runs.{IsThreadEvent};
ghost use Rattle.task_states.specs.Walks.{PriorMisfits, NextMisfits, ParentMisfits, EndMisfits, EventMisfits};

use crate::walk::{ThreadWalk, new_walks};
use ompt_events::{Shown, Status};
use std::alloc::{AllocError, Global};
use task_tree::{Run, Schedule, ThreadEvent};

/// Returns for each thread its first record that speaks for a task which the thread does not run (OpenMP
/// 5.2, 12.9), if it has one. Where a thread stands after that is not known, so its later records count for
/// nothing. Takes one step for each record.
pub fn find_misfits(alloc: Global, run: &Run) -> Result<Shown, AllocError>
    ensures { IfOk result (AreAllWith run.now.records NotCurrent) }
{
    let nests = run.nests();
    let mut shown = Shown::none(alloc);
    let mut walks = new_walks(alloc)?;
    let mut have_misfits = [false; 256];
    for at in 0..run.len() {
        let Some(event) = run.thread_event(at) else {
            continue;
        };
        let thread = run.thread(at) as usize;
        let walk = &mut walks[thread];
        let misfit = misfits(run, walk, event);
        note_first(&mut shown, &mut have_misfits[thread], at, misfit)?;
        walk.advance(event, nests)?;
    }
    Ok(shown)
}

/// Notes the place of a record if it misfits, and no earlier record of its thread does. Fails only when out
/// of memory.
#[inline(always)]
fn note_first(
    shown: &mut Shown,
    has_misfit: &mut bool,
    at: usize,
    misfit: bool,
) -> Result<(), AllocError>
    requires { at < 2 ^ 32 }
    ensures shown { OnOk result (shown.new
        ≡ (if misfit && not has_misfit.old then shown.old ++ at ∷ [] else shown.old)) }
    ensures marked { OnOk result (has_misfit.new ≡ (has_misfit.old || misfit)) }
{
    if misfit {
        let is_first = !*has_misfit;
        *has_misfit = true;
        shown.note(at, is_first)?;
    }
    Ok(())
}

/// Returns whether the event, which is that of some record, speaks for a task that a thread with this walk
/// does not run.
fn misfits(run: &Run, walk: &ThreadWalk, event: ThreadEvent) -> bool
    requires { (at : ℕ) × IsThreadEvent run.now at event }
    ensures { IsTrue result ↔ EventMisfits run.now walk.now event }
{
    match event {
        ThreadEvent::Scheduled(schedule) => {
            prior_misfits(walk, schedule)
                || next_misfits(run, walk, schedule)
                || parent_misfits(run, walk, schedule)
        }
        ThreadEvent::RootBegin(_) => false,
        ThreadEvent::RootEnd(root) => end_misfits(walk, root),
        ThreadEvent::Running(task) => walk.current() != Some(task),
    }
}

/// Returns whether the prior task must be running, and is not.
fn prior_misfits(walk: &ThreadWalk, schedule: Schedule) -> bool
    ensures { IsTrue result ↔ PriorMisfits walk.now schedule }
{
    schedule.status.demands_next() && walk.current() != Some(schedule.prior)
}

/// Returns whether a root runs next that is not the innermost open one.
fn next_misfits(run: &Run, walk: &ThreadWalk, schedule: Schedule) -> bool
    requires { IfSome schedule.next (λ next. next < length run.now.family.tasks) }
    ensures { IsTrue result ↔ NextMisfits run.now walk.now schedule }
{
    match schedule.next {
        Some(next) => !run.is_explicit(next) && walk.innermost() != Some(next),
        None => false,
    }
}

/// Returns whether a taskwait with dependences is complete whose parent is not the current task.
fn parent_misfits(run: &Run, walk: &ThreadWalk, schedule: Schedule) -> bool
    ensures { IsTrue result ↔ ParentMisfits run.now walk.now schedule }
{
    if schedule.status != Status::TaskwaitComplete {
        return false;
    }
    match run.parent(schedule.prior) {
        Some(parent) => walk.current() != Some(parent),
        None => false,
    }
}

/// Returns whether a root that ends does not run, or is not the innermost open one.
fn end_misfits(walk: &ThreadWalk, root: usize) -> bool
    ensures { IsTrue result ↔ EndMisfits walk.now root }
{
    walk.current() != Some(root) || walk.innermost() != Some(root)
}
