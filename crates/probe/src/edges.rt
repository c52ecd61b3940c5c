//! The predecessors of a trace's tasks.
ghost use Rattle.task_tree.specs.Paths.{IsTreeOf};

use crate::again::again;
use crate::standard_input::trace_of_input;
use crate::tree::built;
use anyhow::{Result, bail};
use depend_edges::{EdgeFault, Edges};
use ompt_events::Trace;
use std::alloc::Global;
use task_tree::Tree;

/// Prints which tasks must be finished before each created task of the trace on standard input starts.
pub fn of_input(rt: &HostRuntime) -> Result<()> {
    of_trace(rt, &trace_of_input(rt)?)
}

fn of_trace(rt: &HostRuntime, trace: &Trace) -> Result<()> {
    match built(rt, trace)? {
        Ok(tree) => of_tree(rt, trace, &tree),
        Err(_) => bail!("no tree"),
    }
}

/// Prints the predecessors, or the first record with misplaced dependences. Where memory is refused they are
/// found again.
fn of_tree(rt: &HostRuntime, trace: &Trace, tree: &Tree) -> Result<()>
    requires { IsTreeOf trace.now.records tree.now }
{
    match again!(rt, EdgeFault::Memory, Edges::build(rt.alloc(), trace, tree)) {
        Ok(edges) => of_edges(rt, &edges),
        Err(EdgeFault::Malformed { at, .. }) => {
            println!(rt; "misplaced at {at}")?;
            Ok(())
        }
        Err(EdgeFault::Memory) => bail!("out of memory"),
    }
}

/// Prints the predecessors of each created task, and the last of them in the order in which tasks are made.
fn of_edges(rt: &HostRuntime, edges: &Edges) -> Result<()> {
    let run = edges.run();
    let tasks = run.task_count();
    let own = ordinals(rt.alloc(), tasks)?;
    if own.len() != tasks {
        bail!("there is not one number for each task");
    }
    let latest = again!(rt, _, edges.latest(own.as_slice()))?;
    for at in 0..run.len() {
        let Some(index) = run.created(at) else {
            continue;
        };
        if index >= tasks {
            bail!("a created task has no index");
        }
        let last = latest.get(index).copied().unwrap_or(0);
        of_task(rt, edges, run.task(index), last)?;
    }
    Ok(())
}

/// Prints the predecessors of the task, and the last of them.
fn of_task(rt: &HostRuntime, edges: &Edges, task: u64, last: u64) -> Result<()> {
    let predecessors = again!(rt, _, edges.of(task))?;
    println!(rt; "{task}: {predecessors:?}, latest {last}")?;
    Ok(())
}

/// 1, 2, .. up to the count.
fn ordinals(alloc: Global, count: usize) -> Result<Vec<u64>> {
    let mut numbers = Vec::new(alloc);
    for number in 0..count {
        numbers.push(number as u64 + 1)?;
    }
    Ok(numbers)
}
