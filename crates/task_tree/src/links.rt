//! The parent and number of each created task, and how many children each task has.
ghost use Rattle.std.specs.Prelude.{ℕ, ◌≡◌, ◌<◌, ◌≤◌, ◌^◌, List, None, IfOk, IfSome, length, slice_index, replicate};
ghost use Rattle.task_tree.specs.Links.{IsChildLinked, IsSlotOf};

use crate::link_slot::LinkSlot;
use index_tables::Slot;
use std::alloc::{AllocError, Global};

/// A created task's index of its parent, and its number among the parent's children.
#[derive(Clone, Copy)]
pub(crate) struct Link {
    pub(crate) number: u32,
    pub(crate) parent: u32,
}

/// By index of the task: how many children it has, and for a created task its link.
#[derive(Drop)]
pub(crate) struct Linked {
    pub(crate) counts: Vec<u32>,
    pub(crate) links: Vec<LinkSlot>,
}

/// Counts the child for its parent, and notes its link. Ignores a parent that no record makes: that is
/// found later, as a cause of malformed records.
pub(crate) fn link_child(
    parent: Slot,
    child: Slot,
    counts: &mut Vec<u32>,
    links: &mut Vec<LinkSlot>,
)
    requires counts { IfSome parent (λ up. up < length counts.old.items) }
    requires links { IfSome child (λ own. own < length links.old.items) }
    requires few { length counts.old.items ≤ 2 ^ 22 }
    requires room { IfSome parent (λ up. slice_index counts.old.items up < 2 ^ 22) }
    ensures { (tasks : List ℕ) → (above task : ℕ) → IsSlotOf tasks above parent → IsSlotOf tasks task child
        → IsChildLinked tasks above task counts.old.items links.old.items counts.new.items links.new.items }
{
    let Some(up) = parent.get() else {
        return;
    };
    let number = counts[up];
    counts[up] = number + 1;
    if let Some(own) = child.get() {
        let parent = up as u32;
        links[own] = LinkSlot::some(Link { number, parent });
    }
}

/// Returns a count of no children for each task.
pub(crate) fn no_counts(alloc: Global, tasks: usize) -> Result<Vec<u32>, AllocError>
    ensures { IfOk result (λ counts. counts.items ≡ replicate tasks 0) }
{
    vec![in alloc; 0; tasks]
}

/// Returns no link for each task.
pub(crate) fn no_links(alloc: Global, tasks: usize) -> Result<Vec<LinkSlot>, AllocError>
    ensures { IfOk result (λ links. links.items ≡ replicate tasks None) }
{
    vec![in alloc; LinkSlot::none(); tasks]
}
