//! Where the dependences of each task are listed.
ghost use Rattle.std.specs.Prelude.{◌<◌, ◌+◌, [], ◌∷◌, IfOk, IfErr, OnOk, length};
ghost use Rattle.ompt_events.specs.declared.cause.Cause.TheVariants.{DepsPlace};
ghost use Rattle.ompt_events.specs.Causes.{IsFreeOf};
ghost use Rattle.ompt_events.specs.Faults.{IsFault};
ghost use Rattle.task_tree.specs.Families.{IsOwnOf};
ghost use Rattle.depend_edges.specs.Lists.{AreListed, AreListedOnce};

use crate::placement::{has_none, misplaced_dependences, no_places};
use index_tables::Slot;
use ompt_events::{Cause, Fault, exclude};
use std::alloc::{AllocError, Global};
use task_tree::{Own, Run};

/// Returns by index of the task in its own order the number of its list in that order. Fails with DepsPlace
/// at the first record of the file whose dependences are misplaced there, or when out of memory.
pub(crate) fn find_lists(alloc: Global, run: &Run, own: &Own) -> Result<Vec<Slot>, Fault>
    requires own { IsOwnOf run.now.records own.now }
    ensures placed { OnOk result (IsFreeOf run.now.records DepsPlace) }
    ensures lists { IfOk result (λ lists. AreListed own.now.run.records (length own.now.run.records)
        own.now.run.family.tasks lists.items) }
    ensures fault { IfErr result (IsFault run.now.records (DepsPlace ∷ [])) }
{
    // Most files have no dependences. Then one look at each record suffices.
    if has_none(run) {
        return Ok(no_places(alloc, own.run().task_count())?);
    }
    exclude_misplaced(alloc, run)?;
    // In a run each task is made once, so each has one list.
    let _tasks = run.task_count();
    Ok(note_lists(alloc, own.run())?)
}

/// Fails with DepsPlace at the first record whose dependences are misplaced, or when out of memory.
fn exclude_misplaced(alloc: Global, run: &Run) -> Result<(), Fault>
    ensures placed { OnOk result (IsFreeOf run.now.records DepsPlace) }
    ensures fault { IfErr result (IsFault run.now.records (DepsPlace ∷ [])) }
{
    let misplaced = misplaced_dependences(alloc, run)?;
    exclude(Cause::DepsPlace, misplaced.first())
}

/// Returns by index of the task the place of its list. Requires that no task has two.
fn note_lists(alloc: Global, run: &Run) -> Result<Vec<Slot>, AllocError>
    requires { AreListedOnce run.now.records }
    ensures { IfOk result (λ lists. AreListed run.now.records (length run.now.records)
        run.now.family.tasks lists.items) }
{
    let mut lists = no_places(alloc, run.task_count())?;
    for at in 0..run.len() {
        note_list(&mut lists, run, at);
    }
    Ok(lists)
}

/// Notes the place of a list for its task.
fn note_list(lists: &mut Vec<Slot>, run: &Run, at: usize)
    requires within { at < length run.now.records }
    requires once { AreListedOnce run.now.records }
    requires lists { AreListed run.now.records at run.now.family.tasks lists.old.items }
    ensures { AreListed run.now.records (at + 1) run.now.family.tasks lists.new.items }
{
    // A run has fewer records than a slot has places.
    let _records = run.len();
    if let Some((task, _)) = run.dependences(at) {
        lists[task] = Slot::some(at);
    }
}
