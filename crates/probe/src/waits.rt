//! The waits of traces, with the credit that each waits for and what of it is unfinished.
ghost use Rattle.std.specs.Prelude.{◌≡◌, ◌<◌, IfOk, length};
ghost use Rattle.task_tree.specs.Paths.{IsTreeOf};

use crate::again::again;
use crate::standard_input::traces_of_input;
use crate::tree::built;
use anyhow::{Result, bail};
use credit_ledger::{Ledger, ledger_of};
use ompt_events::Trace;
use task_states::{StateFault, States, run};
use task_tree::Tree;
use wait_coverage::{CoverFault, Coverage};

/// Prints for each of the trace files that stand one after another on standard input: each end of a wait,
/// whether it waits for children or for descendants, its spans, and the task that is unfinished there.
pub fn each(rt: &HostRuntime) -> Result<()> {
    for trace in traces_of_input(rt)?.iter() {
        of_trace(rt, trace)?;
    }
    Ok(())
}

fn of_trace(rt: &HostRuntime, trace: &Trace) -> Result<()> {
    match built(rt, trace)? {
        Ok(tree) => of_tree(rt, trace, &tree),
        Err(_) => bail!("no tree"),
    }
}

fn of_tree(rt: &HostRuntime, trace: &Trace, tree: &Tree) -> Result<()>
    requires tree { IsTreeOf trace.now.records tree.now }
{
    of_states(rt, trace, tree, &states_of(rt, trace, tree)?)
}

/// Returns the states of the trace's tasks; where memory is refused they are found again.
fn states_of<'a>(rt: &HostRuntime, trace: &'a Trace, tree: &'a Tree) -> Result<States<'a>>
    requires tree { IsTreeOf trace.now.records tree.now }
    ensures { IfOk result (λ states. states.run.records ≡ trace.now.records) }
{
    match again!(rt, StateFault::Memory, run(rt.alloc(), trace, tree)) {
        Ok(states) => Ok(states),
        Err(fault) => bail!("no states: {fault}"),
    }
}

/// Prints what each end waits for, or the first record of a team or a barrier that lacks a member.
fn of_states(rt: &HostRuntime, trace: &Trace, tree: &Tree, states: &States) -> Result<()>
    requires tree { IsTreeOf trace.now.records tree.now }
    requires records { states.now.run.records ≡ trace.now.records }
{
    let made = again!(
        rt,
        CoverFault::Memory,
        Coverage::build(rt.alloc(), trace, tree, states)
    );
    let coverage = match made {
        Ok(coverage) => coverage,
        Err(CoverFault::Malformed { at, .. }) => {
            println!(rt; "short at {at}")?;
            return Ok(());
        }
        Err(CoverFault::Memory) => bail!("out of memory"),
    };
    let ledger = again!(rt, _, ledger_of(rt.alloc(), states.run()))?;
    for number in 0..coverage.ends().len() {
        of_end(rt, &coverage, &ledger, number)?;
    }
    Ok(())
}

/// Prints what this end waits for, and the task that is unfinished there.
fn of_end(rt: &HostRuntime, coverage: &Coverage, ledger: &Ledger, number: usize) -> Result<()>
    requires { number < length coverage.now.ends }
{
    let end = coverage.ends().get(number);
    let cover = coverage.cover(number);
    let spans = again!(rt, _, coverage.spans(number))?;
    let open = again!(rt, _, coverage.first_unfinished(number, ledger))?;
    let twice = again!(
        rt,
        _,
        coverage.first_unfinished_all(&[number, number], ledger)
    )?;
    println!(rt; "{end:?}: {cover:?} {spans:?} open {open:?}, twice {twice:?}")?;
    Ok(())
}
