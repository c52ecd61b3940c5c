//! The turns of a trace, and the tasks' own order.
use crate::in_turns::{family_of, told_rising};
use crate::standard_input::read_trace;
use anyhow::Result;
use packed_trace::PackedTrace;
use task_tree::{arrange, find_gap, turns_of};

/// Reads the trace on standard input and asks whether its turns rise along the file.
pub fn rise(rt: &HostRuntime) -> Result<()> {
    let trace = PackedTrace::of(rt.alloc(), &read_trace(rt)?)?;
    let family = family_of(rt, &trace)?;
    told_rising(rt, &trace, &family)
}

/// Reads the trace on standard input, searches for a turn gap and puts its records into the tasks' own
/// order.
pub fn arranged(rt: &HostRuntime) -> Result<()> {
    let trace = PackedTrace::of(rt.alloc(), &read_trace(rt)?)?;
    let family = family_of(rt, &trace)?;
    let turns = turns_of(rt.alloc(), &trace, &family)?;
    let gap = find_gap(rt.alloc(), &trace, &family, &turns)?;
    let order = arrange(rt.alloc(), &trace, turns.as_slice())?;
    println!(rt; "{} records, gap {gap:?}", order.len())?;
    Ok(())
}
