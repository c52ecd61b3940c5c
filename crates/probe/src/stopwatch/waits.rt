//! What each wait of a trace covers, by the trace's ledger.
ghost use Rattle.std.specs.Prelude.{◌≡◌, ◌<◌, All, IfOk};
ghost use Rattle.task_tree.specs.Paths.{IsTreeOf};

use crate::standard_input::read_trace;
use anyhow::{Result, bail};
use credit_ledger::{Ledger, ledger_of};
use ompt_events::Trace;
use std::alloc::{AllocError, Global};
use task_states::{States, run};
use task_tree::Tree;
use wait_coverage::Coverage;

/// Makes the coverage and the ledger of the trace on standard input. If `searched`, also asks for the unfinished
/// task of each end.
pub fn of_input(rt: &HostRuntime, searched: bool) -> Result<()> {
    let trace = read_trace(rt)?;
    let Ok(tree) = Tree::build(rt.alloc(), &trace) else {
        bail!("no tree");
    };
    of_tree(rt, &trace, &tree, searched)
}

/// Does it for a trace with this tree.
fn of_tree(rt: &HostRuntime, trace: &Trace, tree: &Tree, searched: bool) -> Result<()>
    requires { IsTreeOf trace.now.records tree.now }
{
    let Ok(states) = run(rt.alloc(), trace, tree) else {
        bail!("no states");
    };
    of_states(rt, trace, tree, &states, searched)
}

/// Does it for a trace with these states.
fn of_states(
    rt: &HostRuntime,
    trace: &Trace,
    tree: &Tree,
    states: &States,
    searched: bool,
) -> Result<()>
    requires tree { IsTreeOf trace.now.records tree.now }
    requires records { states.now.run.records ≡ trace.now.records }
{
    let coverage = Coverage::build(rt.alloc(), trace, tree, states)?;
    let ledger = ledger_of(rt.alloc(), states.run())?;
    if searched {
        of_ends(rt, &coverage, &ledger)
    } else {
        let (ends, entries) = (coverage.ends().len(), ledger.len());
        println!(rt; "{ends} ends, {entries} entries")?;
        Ok(())
    }
}

/// Prints how many of all ends cover an unfinished task.
fn of_ends(rt: &HostRuntime, coverage: &Coverage, ledger: &Ledger) -> Result<()> {
    let ends = coverage.ends().len();
    let all = numbers_below(rt.alloc(), ends)?;
    let found = coverage.first_unfinished_all(all.as_slice(), ledger)?;
    let unfinished = found.iter().filter(|task| task.is_some()).count();
    println!(rt; "{unfinished} of {ends} ends cover an unfinished task")?;
    Ok(())
}

/// Returns the numbers below this one.
fn numbers_below(alloc: Global, count: usize) -> Result<Vec<usize>, AllocError>
    ensures { IfOk result (λ numbers. All (λ number. number < count) numbers.items) }
{
    let mut numbers = Vec::with_capacity(alloc, count)?;
    for number in 0..count {
        numbers.push(number)?;
    }
    Ok(numbers)
}
