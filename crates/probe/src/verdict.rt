//! What the calls on a trace answer, the order of a yes among them, and the orders that leave a task
//! incomplete.
use crate::again::again;
use crate::standard_input::trace_of_input;
use anyhow::Result;
use checker::{Order, Verdict, check, check_with_counter, counter_order};
use ompt_events::Trace;
use std::alloc::{AllocError, Global};
use task_states::gap;

/// Prints the answers of the calls on the trace of standard input.
pub fn of_input(rt: &HostRuntime) -> Result<()> {
    of_trace(rt, &trace_of_input(rt)?)
}

/// Prints the answers of the calls on the trace.
fn of_trace(rt: &HostRuntime, trace: &Trace) -> Result<()> {
    let gap = gap(trace);
    println!(rt; "gap {gap:?}")?;
    let verdict = again!(rt, _, check(rt.alloc(), trace))?;
    tell(rt, &verdict)?;
    let (same, _) = again!(rt, _, check_with_counter(rt.alloc(), trace))?;
    tell_other(rt, &verdict, &same)
}

/// Prints the verdict that comes with a counter order, if it is another one.
fn tell_other(rt: &HostRuntime, verdict: &Verdict, other: &Verdict) -> Result<()> {
    let told = format!(in rt.alloc(); "{verdict:?}")?;
    if format!(in rt.alloc(); "{other:?}")? != told {
        println!(rt; "with a counter order {other:?}")?;
    }
    Ok(())
}

/// Prints the verdict, of a yes the places in its order.
fn tell(rt: &HostRuntime, verdict: &Verdict) -> Result<()> {
    match verdict {
        Verdict::Yes { order } => {
            let places = places_of(rt.alloc(), order)?;
            println!(rt; "yes, order {places:?}")?;
        }
        other => println!(rt; "{other:?}")?,
    }
    Ok(())
}

/// Prints, for each record of the trace on standard input and one past the last, and for each task that it
/// creates, the order that leaves the task incomplete there, where there is one.
pub fn counters_of_input(rt: &HostRuntime) -> Result<()> {
    let trace = trace_of_input(rt)?;
    for at in 0..trace.records().len() + 1 {
        counters_at(rt, &trace, at)?;
    }
    Ok(())
}

/// Prints those at one record.
fn counters_at(rt: &HostRuntime, trace: &Trace, at: usize) -> Result<()> {
    for event in trace.records() {
        if let Some(task) = event.body.created() {
            counter_at(rt, trace, at, task)?;
        }
    }
    Ok(())
}

/// Prints that of one task, where there is one.
fn counter_at(rt: &HostRuntime, trace: &Trace, at: usize, task: u64) -> Result<()> {
    let counter = again!(rt, _, counter_order(rt.alloc(), trace, at, task))?;
    if let Some(order) = counter {
        let places = places_of(rt.alloc(), &order)?;
        println!(rt; "at {at}, task {task}: {places:?}")?;
    }
    Ok(())
}

/// Returns the places in the order, the earliest first.
fn places_of(alloc: Global, order: &Order) -> Result<Vec<usize>, AllocError> {
    let mut places = Vec::with_capacity(alloc, order.len())?;
    for before in 0..order.len() {
        if let Some(place) = order.place_at(before) {
            places.push(place)?;
        }
    }
    Ok(places)
}
