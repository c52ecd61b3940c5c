//! The tree of a trace's tasks.
ghost use Rattle.std.specs.Prelude.{IfOk};
ghost use Rattle.task_tree.specs.Paths.{IsTreeOf};

use crate::again::again;
use crate::standard_input::trace_of_input;
use anyhow::{Result, bail};
use ompt_events::Trace;
use task_tree::{Tree, TreeFault};

/// Prints where each task of the trace on standard input stands.
pub fn of_input(rt: &HostRuntime) -> Result<()> {
    of_trace(rt, &trace_of_input(rt)?)
}

/// Returns the tree of the trace, or why there is none; where memory is refused it is built again.
pub fn built(rt: &HostRuntime, trace: &Trace) -> Result<Result<Tree, TreeFault>>
    ensures { IfOk result (λ built. IfOk built (IsTreeOf trace.now.records)) }
{
    Ok(again!(rt, TreeFault::Memory, Tree::build(rt.alloc(), trace)))
}

/// Prints the tree, or why there is none.
fn of_trace(rt: &HostRuntime, trace: &Trace) -> Result<()> {
    match built(rt, trace)? {
        Ok(tree) => of_tasks(rt, &tree),
        Err(TreeFault::Memory) => bail!("out of memory"),
        Err(TreeFault::Malformed { at, cause }) => {
            println!(rt; "malformed at {at}: {cause:?}")?;
            Ok(())
        }
    }
}

/// Prints where each task of the tree stands, and what it answers of a task that is none of these.
fn of_tasks(rt: &HostRuntime, tree: &Tree) -> Result<()> {
    for task in tree.families().own_family().tasks().as_slice() {
        of_task(rt, tree, *task)?;
    }
    of_task(rt, tree, u64::MAX)
}

/// Prints where the task stands.
fn of_task(rt: &HostRuntime, tree: &Tree, task: u64) -> Result<()> {
    let parent = tree.parent(task);
    let number = tree.number(task);
    let root = tree.root(task);
    let path = tree.path(task);
    let children = tree.children(task);
    println!(rt;
        "{task}: parent {parent:?}, number {number:?}, root {root:?}, path {path:?}, children {children:?}"
    )?;
    Ok(())
}
