//! The path of each task below its root.
ghost use Rattle.std.specs.Prelude.{ℕ, ◌≡◌, List, Some, IfOk, slice_get};
ghost use Rattle.ompt_events.specs.declared.records.Record.{Record};
ghost use Rattle.ompt_events.specs.Tree.{HasPath};
ghost use Rattle.task_tree.specs.Family.{IsFamilyOf};
ghost use Rattle.task_tree.specs.Paths.{ArePaths};

use crate::family::Family;
use std::alloc::{AllocError, Global};

/// Returns by index of the task its path.
pub(crate) fn find_paths(alloc: Global, family: &Family) -> Result<Vec<Vec<u32>>, AllocError>
    ensures { IfOk result (λ paths. (records : List Record) → IsFamilyOf records family.now
        → ArePaths records family.now.tasks paths.items) }
{
    let tasks = family.tasks().as_slice();
    let mut paths = Vec::with_capacity(alloc, tasks.len())?;
    for index in 0..tasks.len() {
        paths.push(path_of(alloc, family, index)?)?;
    }
    Ok(paths)
}

/// Returns the numbers of the children from the root down to the task at this index.
fn path_of(alloc: Global, family: &Family, index: usize) -> Result<Vec<u32>, AllocError>
    ensures { IfOk result (λ found. (records : List Record) → IsFamilyOf records family.now
        → (root task : ℕ) (path : List ℕ) → slice_get family.now.tasks index ≡ Some task
        → HasPath records root task path → found.items ≡ path) }
{
    let depth = family
        .standing_at(index)
        .map_or(0, |standing| standing.depth);
    let mut numbers = Vec::new(alloc);
    let mut current = index;
    for _step in 0..depth {
        // A task this far from its root has a parent.
        if let Some(link) = family.link_at(current) {
            numbers.push(link.number)?;
            current = link.parent as usize;
        }
    }
    numbers.reverse();
    Ok(numbers)
}
