//! The states of a trace's tasks after all records, and whether its parallel regions are nested.
ghost use Rattle.task_tree.specs.Paths.{IsTreeOf};

use crate::standard_input::traces_of_input;
use anyhow::{Result, bail};
use ompt_events::Trace;
use task_states::{StateFault, nested, run};
use task_tree::{Tree, TreeFault};

/// Prints the state of each task of the trace files that stand one after another on standard input.
pub fn each(rt: &HostRuntime) -> Result<()> {
    for trace in traces_of_input(rt)?.iter() {
        of_trace(rt, trace)?;
    }
    Ok(())
}

/// Prints the states of one trace, or why there is no tree.
fn of_trace(rt: &HostRuntime, trace: &Trace) -> Result<()> {
    match Tree::build(rt.alloc(), trace) {
        Ok(tree) => {
            of_tasks(rt, trace, &tree)?;
            of_regions(rt, trace, &tree)
        }
        Err(TreeFault::Memory) => bail!("out of memory"),
        Err(TreeFault::Malformed { at, cause }) => {
            println!(rt; "malformed at {at}: {cause:?}")?;
            Ok(())
        }
    }
}

/// Prints each task's state, or why there are none.
fn of_tasks(rt: &HostRuntime, trace: &Trace, tree: &Tree) -> Result<()>
    requires { IsTreeOf trace.now.records tree.now }
{
    match run(rt.alloc(), trace, tree) {
        Ok(states) => {
            for task in tree.families().own_family().tasks().as_slice() {
                let state = states.last(*task);
                println!(rt; "{task}: {state:?}")?;
            }
            let none = states.last(u64::MAX);
            println!(rt; "no task: {none:?}")?;
            Ok(())
        }
        Err(StateFault::Memory) => bail!("out of memory"),
        Err(StateFault::Malformed { at, cause }) => {
            println!(rt; "malformed at {at}: {cause:?}")?;
            Ok(())
        }
    }
}

/// Prints where a parallel region lies inside another.
fn of_regions(rt: &HostRuntime, trace: &Trace, tree: &Tree) -> Result<()>
    requires { IsTreeOf trace.now.records tree.now }
{
    match nested(rt.alloc(), trace, tree) {
        Ok(found) => {
            println!(rt; "nested: {found:?}")?;
            Ok(())
        }
        Err(_) => bail!("out of memory"),
    }
}
