//! The children of all tasks in one array, with one row for each task.
ghost use Rattle.std.specs.Prelude.{ℕ, ◌≡◌, ◌<◌, ◌≤◌, ◌^◌, IfOk, length, slice_index, sum, replicate};
ghost use Rattle.index_tables.specs.Rows.{AreRising, AreWithin, AreOffsets};
ghost use Rattle.task_tree.specs.Rows.{AreCounted, AreFitting, AreSingle, AreFilled};

use crate::link_slot::LinkSlot;
use index_tables::{Rows, find_offsets};
use std::alloc::{AllocError, Global};

/// Returns the rows, with each created task in the row of its parent, at its number.
pub(crate) fn find_rows(
    alloc: Global,
    tasks: &[u64],
    counts: &[u32],
    links: &[LinkSlot],
) -> Result<Rows, AllocError>
    requires all { length links.now ≡ length tasks.now }
    requires short { length counts.now ≤ 2 ^ 22 }
    requires few { sum counts.now ≤ 2 ^ 22 }
    requires counted { AreCounted counts.now links.now }
    requires single { AreSingle links.now }
    ensures offsets { IfOk result (λ rows. AreOffsets counts.now rows.offsets) }
    ensures within { IfOk result (λ rows. AreWithin rows.offsets rows.ids) }
    ensures filled { IfOk result (λ rows. AreFilled
        (length tasks.now) tasks.now links.now rows.offsets rows.ids) }
{
    let offsets = find_offsets(alloc, counts)?;
    let total = offsets[counts.len()];
    let mut ids = no_ids(alloc, total as usize)?;
    fill(tasks, links, offsets.as_slice(), &mut ids);
    Ok(Rows::of(offsets, ids))
}

/// Returns this many ids, all 0.
fn no_ids(alloc: Global, children: usize) -> Result<Vec<u64>, AllocError>
    ensures { IfOk result (λ ids. ids.items ≡ replicate children 0) }
{
    vec![in alloc; 0; children]
}

/// Writes each created task to its place.
fn fill(tasks: &[u64], links: &[LinkSlot], offsets: &[u32], ids: &mut Vec<u64>)
    requires all { length links.now ≡ length tasks.now }
    requires rising { AreRising offsets.now }
    requires within { (index : ℕ) → index < length offsets.now
        → slice_index offsets.now index ≤ length ids.old.items }
    requires fitting { AreFitting offsets.now links.now }
    requires single { AreSingle links.now }
    ensures all { length ids.new.items ≡ length ids.old.items }
    ensures filled { AreFilled (length tasks.now) tasks.now links.now offsets.now ids.new.items }
{
    for index in 0..links.len() {
        if let Some(link) = links[index].get() {
            let place = offsets[link.parent as usize] + link.number;
            ids[place as usize] = tasks[index];
        }
    }
}
