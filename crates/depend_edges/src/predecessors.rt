//! The predecessors of one task.
ghost use Rattle.std.specs.Prelude.{◌≤◌, IfOk, length};
ghost use Rattle.depend_edges.specs.Predecessors.{AreSelected};

use crate::edges::Edges;
use crate::items::have_clash;
use ompt_events::Dep;
use std::alloc::{AllocError, Global};

/// Returns, of the first siblings, as many as `number`, those with an item that conflicts with one of
/// these.
pub(crate) fn select(
    alloc: Global,
    edges: &Edges,
    siblings: &[u64],
    number: usize,
    items: &[Dep],
) -> Result<Vec<u64>, AllocError>
    requires { number ≤ length siblings.now }
    ensures { IfOk result (λ found. AreSelected edges.now.run.records
        items.now siblings.now number found.items) }
{
    let mut found = Vec::new(alloc);
    for at in 0..number {
        let earlier = edges.items_of(siblings[at]);
        if have_clash(earlier, items) {
            found.push(siblings[at])?;
        }
    }
    Ok(found)
}
