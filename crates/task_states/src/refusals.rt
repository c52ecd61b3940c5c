//! All records that change a task in a way that its state does not allow.
ghost use Rattle.std.specs.Prelude.{◌≡◌, ◌≤◌, ◌^◌, false, IsTrue, IfOk, IfErr, length, get_or};
ghost use Rattle.ompt_events.specs.declared.cause.Cause.TheVariants.{NotCurrent, Moved, TurnGap, StatusOrder};
ghost use Rattle.ompt_events.specs.declared.fault.Fault.TheVariants.{Memory};
ghost use Rattle.ompt_events.specs.Causes.{IsFreeOf};
ghost use Rattle.ompt_events.specs.Shown.{AreAllBelow, AreAllWith};

use crate::homes::find_moved;
use crate::progress::find_progress;
use ompt_events::{Fault, Shown};
use std::alloc::{AllocError, Global};
use task_tree::Run;

/// Returns all records that change a task in a way that its state does not allow (OpenMP 5.2, 19.5.2.10), of
/// each task the first alone, in the order in which its moves are read: after that the task has no state.
/// `States::in_run` fails with the first of these in the file. Fails only when out of memory. Takes a few steps
/// for each record, since without a TurnGap there are no more turns than records, and for each record a byte
/// more than `States::in_run` takes.
pub fn refused_moves(alloc: Global, run: &Run) -> Result<Shown, Fault>
    requires current { IsFreeOf run.now.records NotCurrent }
    requires stay { IsFreeOf run.now.records Moved }
    requires gapless { IsFreeOf run.now.records TurnGap }
    ensures shown { IfOk result (AreAllWith run.now.records StatusOrder) }
    ensures memory_alone { IfErr result (λ fault. fault ≡ Memory) }
{
    let schedules = find_moved(alloc, run)?;
    let progress = find_progress(alloc, &schedules, run.len())?;
    let shown = marked_places(alloc, progress.marks())?;
    Ok(shown)
}

/// Returns the places that are marked, in file order. Fails only when out of memory.
fn marked_places(alloc: Global, marks: &[bool]) -> Result<Shown, AllocError>
    requires { length marks.now ≤ 2 ^ 32 }
    ensures { IfOk result (AreAllBelow (λ i. IsTrue (get_or marks.now i false)) (length marks.now)) }
{
    let mut shown = Shown::none(alloc);
    for at in 0..marks.len() {
        shown.note(at, marks[at])?;
    }
    Ok(shown)
}
