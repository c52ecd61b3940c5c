//! The standing of each task, if each is made later in the file than its parent.
ghost use Rattle.std.specs.Prelude.{ℕ, ◌≡◌, ◌<◌, ◌≤◌, ◌+◌, ◌^◌, IfOk, IfSome, length, slice_get, slice_index};
ghost use Rattle.ompt_events.specs.Records.{begun_root};
ghost use Rattle.ompt_events.specs.Places.{at as says_at};
ghost use Rattle.task_tree.specs.Makers.{AreMade};
ghost use Rattle.task_tree.specs.Links.{AreLinks};
ghost use Rattle.task_tree.specs.Roots.{AreRoots};
ghost use Rattle.task_tree.specs.Forward.{AreStandingsKnown, StandsBelow, IsStood};

use crate::link_slot::LinkSlot;
use crate::roots::Standing;
use crate::standing_slot::StandingSlot;
use packed_trace::PackedTrace;
use std::alloc::{AllocError, Global};

/// Returns by index of the task its standing; none if a task is made before its parent, or has no root.
pub(crate) fn find_forward(
    alloc: Global,
    trace: &PackedTrace,
    tasks: &[u64],
    places: &[u32],
    links: &[LinkSlot],
) -> Result<Option<Vec<StandingSlot>>, AllocError>
    requires places { AreMade trace.now.records (length trace.now.records) tasks.now places.now }
    requires links { AreLinks trace.now.records (length trace.now.records) tasks.now links.now }
    requires few { length trace.now.records ≤ 2 ^ 22 }
    ensures { IfOk result (λ found. IfSome found (λ roots. AreRoots trace.now.records tasks.now roots.items)) }
{
    let mut roots = Vec::with_capacity(alloc, tasks.len())?;
    for index in 0..tasks.len() {
        let found = standing_at(trace, tasks, places, links, roots.as_slice(), index);
        let Some(standing) = found else {
            return Ok(None);
        };
        roots.push(StandingSlot::some(standing))?;
    }
    Ok(Some(roots))
}

/// Returns the standing of the task at this index, if it is a root or its parent's standing is known.
fn standing_at(
    trace: &PackedTrace,
    tasks: &[u64],
    places: &[u32],
    links: &[LinkSlot],
    roots: &[StandingSlot],
    index: usize,
) -> Option<Standing>
    requires within { index < length tasks.now }
    requires places { AreMade trace.now.records (length trace.now.records) tasks.now places.now }
    requires links { AreLinks trace.now.records (length trace.now.records) tasks.now links.now }
    requires few { length trace.now.records ≤ 2 ^ 22 }
    requires roots { AreStandingsKnown trace.now.records index tasks.now roots.now }
    ensures { IfSome result (λ standing. (task : ℕ) → slice_get tasks.now index ≡ Some task
        → IsStood trace.now.records index task standing) }
{
    match links[index].get() {
        Some(link) => below(roots, link.parent as usize),
        None => root_made(trace, places[index] as usize),
    }
}

/// Returns the standing one step below the task at this index, if that task's is known.
fn below(roots: &[StandingSlot], parent: usize) -> Option<Standing>
    requires { (above : Standing) → slice_get roots.now parent ≡ Some (Some above) → above.depth < 2 ^ 22 }
    ensures { IfSome result (StandsBelow roots.now parent) }
{
    let above = roots.get(parent)?.get()?;
    Some(Standing {
        depth: above.depth + 1,
        root: above.root,
    })
}

/// Returns the standing of the root that the record begins, if it begins one.
fn root_made(trace: &PackedTrace, at: usize) -> Option<Standing>
    requires { at < length trace.now.records }
    ensures { IfSome result (λ standing. (says_at begun_root trace.now.records at ≡ Some standing.root)
        × (standing.depth ≡ 0)) }
{
    let root = trace.begun_root(at)?;
    Some(Standing { depth: 0, root })
}
