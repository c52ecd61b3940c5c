//! The root of each task, and its depth below it.
ghost use Rattle.std.specs.Prelude.{◌≡◌, ◌<◌, ◌≤◌, ◌^◌, [], Some, None, IfOk, OnOk, length, replicate};
ghost use Rattle.ompt_events.specs.Records.{made};
ghost use Rattle.task_tree.specs.Makers.{AreNoted, AreMade};
ghost use Rattle.task_tree.specs.Links.{AreLinks};
ghost use Rattle.task_tree.specs.Rows.{AreChildren};
ghost use Rattle.task_tree.specs.Roots.{AreRoots, Reaches, Spreads, IsSeeded};

use crate::forward::find_forward;
use crate::link_slot::LinkSlot;
use crate::standing_slot::StandingSlot;
use index_tables::{Numbering, Rows};
use packed_trace::PackedTrace;
use std::alloc::{AllocError, Global};

/// The standing of a task: its root, and how many steps below it the task is.
#[derive(Clone, Copy)]
pub(crate) struct Standing {
    pub(crate) depth: u32,
    pub(crate) root: u64,
}

/// A task whose chain of parents reaches a root.
#[derive(Clone, Copy)]
pub(crate) struct Reached {
    pub(crate) index: usize,
    pub(crate) standing: Standing,
}

/// Returns by index of the task its standing, if its chain of parents reaches a root. One pass is enough if
/// each task is created later in the file than its parent.
pub(crate) fn find_roots(
    alloc: Global,
    trace: &PackedTrace,
    tasks: &Numbering,
    places: &[u32],
    links: &[LinkSlot],
    rows: &Rows,
) -> Result<Vec<StandingSlot>, AllocError>
    requires noted { AreNoted made trace.now.records (length trace.now.records) tasks.now }
    requires places { AreMade trace.now.records (length trace.now.records) tasks.now places.now }
    requires links { AreLinks trace.now.records (length trace.now.records) tasks.now links.now }
    requires rows { AreChildren trace.now.records tasks.now rows.now }
    requires few { length trace.now.records ≤ 2 ^ 22 }
    ensures { IfOk result (λ roots. AreRoots trace.now.records tasks.now roots.items) }
{
    match find_forward(alloc, trace, tasks.as_slice(), places, links)? {
        Some(roots) => Ok(roots),
        None => find_downward(alloc, trace, tasks, rows),
    }
}

/// Returns the standings of the tasks as `find_roots` does, down from the roots.
fn find_downward(
    alloc: Global,
    trace: &PackedTrace,
    tasks: &Numbering,
    rows: &Rows,
) -> Result<Vec<StandingSlot>, AllocError>
    requires noted { AreNoted made trace.now.records (length trace.now.records) tasks.now }
    requires rows { AreChildren trace.now.records tasks.now rows.now }
    requires few { length tasks.now ≤ 2 ^ 22 }
    ensures { IfOk result (λ roots. AreRoots trace.now.records tasks.now roots.items) }
{
    let mut roots = no_roots(alloc, tasks.as_slice().len())?;
    let mut order = Vec::with_capacity(alloc, roots.len())?;
    reach_roots(trace, tasks, &mut roots, &mut order)?;
    // Each task is reached once, a parent before its children.
    let mut next = 0;
    'reached: while next < order.len() {
        let task: Reached = order[next];
        let below = Standing {
            depth: task.standing.depth + 1,
            root: task.standing.root,
        };
        reach_children(tasks, rows.row(task.index), below, &mut roots, &mut order)?;
        next += 1;
    }
    Ok(roots)
}

/// Returns no standing for each task.
fn no_roots(alloc: Global, tasks: usize) -> Result<Vec<StandingSlot>, AllocError>
    ensures { IfOk result (λ roots. roots.items ≡ replicate tasks None) }
{
    vec![in alloc; StandingSlot::none(); tasks]
}

/// Reaches the roots themselves.
fn reach_roots(
    trace: &PackedTrace,
    tasks: &Numbering,
    roots: &mut Vec<StandingSlot>,
    order: &mut Vec<Reached>,
) -> Result<(), AllocError>
    requires roots { roots.old.items ≡ replicate (length tasks.now) None }
    requires order { order.old.items ≡ [] }
    ensures { OnOk result (IsSeeded trace.now.records
        (length trace.now.records) tasks.now roots.new.items order.new.items) }
{
    for at in 0..trace.len() {
        if let Some(root) = trace.begun_root(at) {
            let near = order.len();
            reach(tasks, root, near, Standing { depth: 0, root }, roots, order)?;
        }
    }
    Ok(())
}

/// Reaches the children of a task, which have this standing.
fn reach_children(
    tasks: &Numbering,
    children: &[u64],
    standing: Standing,
    roots: &mut Vec<StandingSlot>,
    order: &mut Vec<Reached>,
) -> Result<(), AllocError>
    requires { length roots.old.items ≡ length tasks.now }
    ensures { OnOk result
        (Spreads tasks.now standing roots.old.items order.old.items children.now roots.new.items order.new.items) }
{
    // Children that are created one after another are so in the list of tasks too.
    let mut near = 0;
    for child in children {
        near = reach(tasks, *child, near, standing, roots, order)?;
    }
    Ok(())
}

/// Reaches a task with this standing, unless it was reached before. Looks for it at the index `near` first.
/// Returns the likely index of the next one.
fn reach(
    tasks: &Numbering,
    task: u64,
    near: usize,
    standing: Standing,
    roots: &mut Vec<StandingSlot>,
    order: &mut Vec<Reached>,
) -> Result<usize, AllocError>
    requires { length roots.old.items ≡ length tasks.now }
    ensures { OnOk result
        (Reaches tasks.now task standing roots.old.items order.old.items roots.new.items order.new.items) }
{
    let Some(index) = tasks.index_near(task, near) else {
        return Ok(near);
    };
    let next = index.wrapping_add(1);
    if roots[index].get().is_some() {
        return Ok(next);
    }
    order.push(Reached { index, standing })?;
    roots[index] = StandingSlot::some(standing);
    Ok(next)
}
