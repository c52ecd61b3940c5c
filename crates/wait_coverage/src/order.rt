//! The tasks in an order in which each comes after its parent.
ghost use Rattle.std.specs.Prelude.{ℕ, ◌≡◌, ◌<◌, List, Some, IsTrue, IfOk, length, map};
ghost use Rattle.std.specs.List.{range_with_len};
ghost use Rattle.std.specs.List.Sorted.{IsNonDecreasingBy};
ghost use Rattle.ompt_events.specs.declared.records.Record.{Record};
ghost use Rattle.task_tree.specs.Family.{IsFamilyOf};
ghost use Rattle.task_tree.specs.Lineage.{parent_index};
ghost use Rattle.wait_coverage.specs.Done.{IsParentsFirst, AreRanked};

use std::alloc::{AllocError, Global};
use task_tree::Family;

/// Returns the indices of all tasks, each after that of its parent.
pub(crate) fn parents_first(alloc: Global, family: &Family) -> Result<Vec<usize>, AllocError>
    ensures { IfOk result (λ order. (records : List Record) → IsFamilyOf records family.now
        → IsParentsFirst family.now order.items) }
{
    // In a file in the order of time each task is made after its parent.
    if are_parents_lower(family) {
        return Ok(indices(alloc, family.tasks().as_slice().len())?);
    }
    let ranked = by_depth(alloc, family)?;
    Ok(without_depths(alloc, ranked.as_slice())?)
}

/// Returns all tasks with their depths, the least depth first.
fn by_depth(alloc: Global, family: &Family) -> Result<Vec<(usize, usize)>, AllocError>
    ensures all { IfOk result (λ ranked. AreRanked family.now (length family.now.tasks) ranked.items) }
    ensures rising { IfOk result (λ ranked. IsNonDecreasingBy (λ (entry : ℕ × ℕ). entry.0) ranked.items) }
{
    let mut ranked = Vec::with_capacity(alloc, family.tasks().as_slice().len())?;
    for index in 0..family.tasks().as_slice().len() {
        ranked.push((family.depth_at(index), index))?;
    }
    ranked.sort_unstable_by_key(|entry| entry.0);
    Ok(ranked)
}

/// Returns the indices alone.
fn without_depths(alloc: Global, ranked: &[(usize, usize)]) -> Result<Vec<usize>, AllocError>
    ensures { IfOk result (λ order. order.items ≡ map (λ (entry : ℕ × ℕ). entry.1) ranked.now) }
{
    let mut order = Vec::with_capacity(alloc, ranked.len())?;
    for place in 0..ranked.len() {
        order.push(ranked[place].1)?;
    }
    Ok(order)
}

/// Returns the indices of this many tasks.
fn indices(alloc: Global, tasks: usize) -> Result<Vec<usize>, AllocError>
    ensures { IfOk result (λ order. order.items ≡ range_with_len 0 tasks) }
{
    let mut order = Vec::with_capacity(alloc, tasks)?;
    for index in 0..tasks {
        order.push(index)?;
    }
    Ok(order)
}

/// Returns true only if each parent has a lower index than its children.
fn are_parents_lower(family: &Family) -> bool
    ensures { IsTrue result → (index up : ℕ) → index < length family.now.tasks
        → parent_index family.now index ≡ Some up → up < index }
{
    for index in 0..family.tasks().as_slice().len() {
        if let Some(up) = family.parent_at(index) {
            if up >= index {
                return false;
            }
        }
    }
    true
}
