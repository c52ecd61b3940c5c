//! The turns of a trace, and the order in which the tasks' own records stand.
ghost use Rattle.std.specs.Prelude.{IfOk};
ghost use Rattle.task_tree.specs.Family.{IsFamilyOf};

use crate::standard_input::trace_of_input;
use anyhow::{Result, bail};
use packed_trace::PackedTrace;
use task_tree::{Families, Family, Own, OwnOrder, arrange, find_gap, turns_of, turns_rise};

/// Prints of the trace on standard input: its version, the turn of each record, the first record with a turn
/// gap, the places in the tasks' own order, whether turns are found to rise along the file, and the children
/// of each task.
pub fn of_input(rt: &HostRuntime) -> Result<()> {
    let trace = PackedTrace::of(rt.alloc(), &trace_of_input(rt)?)?;
    let family = family_of(rt, &trace)?;
    of_turns(rt, &trace, &family)?;
    told_rising(rt, &trace, &family)?;
    of_families(rt, &trace)
}

/// Prints the turns, the gap and the own order.
fn of_turns(rt: &HostRuntime, trace: &PackedTrace, family: &Family) -> Result<()>
    requires { IsFamilyOf trace.now.records family.now }
{
    let found = turns_of(rt.alloc(), trace, family)?;
    let gap = find_gap(rt.alloc(), trace, family, &found)?;
    let (version, turns) = (trace.version(), found.as_slice());
    println!(rt; "version {version}, turns {turns:?}, gap {gap:?}")?;
    of_order(rt, &arrange(rt.alloc(), trace, turns)?)
}

/// Prints whether turns are found to rise. `bench/turns.py` counts it, so it is not put into its caller.
#[inline(never)]
pub fn told_rising(rt: &HostRuntime, trace: &PackedTrace, family: &Family) -> Result<()>
    requires { IsFamilyOf trace.now.records family.now }
{
    let rise = turns_rise(rt.alloc(), trace, family)?;
    println!(rt; "rise: {rise}")?;
    Ok(())
}

/// Returns the family of the trace's tasks. Fails where it has none.
pub fn family_of(rt: &HostRuntime, trace: &PackedTrace) -> Result<Family>
    ensures { IfOk result (IsFamilyOf trace.now.records) }
{
    match Family::build(rt.alloc(), trace) {
        Ok(family) => Ok(family),
        Err(fault) => bail!("no family: {fault}"),
    }
}

/// Prints the places in the own order, and the number there of each place.
fn of_order(rt: &HostRuntime, order: &OwnOrder) -> Result<()> {
    let mut places = Vec::with_capacity(rt.alloc(), order.len())?;
    let mut numbers = Vec::with_capacity(rt.alloc(), order.len())?;
    for number in 0..order.len() {
        places.push(order.place(number))?;
        numbers.push(order.number(number))?;
    }
    println!(rt; "own order {places:?}, in it {numbers:?}")?;
    Ok(())
}

/// Prints the children of each task that has some, in the order in which it created them.
fn of_families(rt: &HostRuntime, trace: &PackedTrace) -> Result<()> {
    match Families::build(rt.alloc(), trace) {
        Ok(families) => of_children(rt, &families.own(trace)),
        Err(fault) => bail!("no families: {fault}"),
    }
}

/// Prints the children of each task that has some.
fn of_children(rt: &HostRuntime, own: &Own) -> Result<()> {
    let run = own.run();
    for index in 0..run.task_count() {
        let children = run.children(index);
        if !children.is_empty() {
            let task = run.task(index);
            println!(rt; "children of {task}: {children:?}")?;
        }
    }
    Ok(())
}
