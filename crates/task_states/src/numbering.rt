//! Whether each thread numbers its records without a gap.
ghost use Rattle.std.specs.Prelude.{IfOk, MatchOption};
ghost use Rattle.ompt_events.specs.declared.cause.Cause.TheVariants.{SeqGap};
ghost use Rattle.ompt_events.specs.Causes.{IsFreeOf, IsFirstWith};
ghost use Rattle.ompt_events.specs.Shown.{AreAllWith};

use ompt_events::{Shown, Trace};
use packed_trace::PackedTrace;
use std::alloc::{AllocError, Global};

/// Returns the first record whose `seq` is not the number of earlier records of its thread. The file format
/// defines this number; OpenMP 5.2 does not number events. Takes no memory from the heap, and one step for
/// each record.
pub fn gap(trace: &Trace) -> Option<usize>
    ensures { MatchOption result (IsFreeOf trace.now.records SeqGap) (IsFirstWith trace.now.records SeqGap) }
{
    let mut counts = [0u32; 256];
    for (at, event) in trace.records().iter().enumerate() {
        let thread = usize::from(event.thread);
        if event.seq != counts[thread] {
            return Some(at);
        }
        counts[thread] += 1;
    }
    None
}

/// Returns what `gap` does, of a trace in columns.
pub fn gap_in(trace: &PackedTrace) -> Option<usize>
    ensures { MatchOption result (IsFreeOf trace.now.records SeqGap) (IsFirstWith trace.now.records SeqGap) }
{
    let mut counts = [0u32; 256];
    for at in 0..trace.len() {
        let thread = usize::from(trace.thread(at));
        if trace.seq(at) != counts[thread] {
            return Some(at);
        }
        counts[thread] += 1;
    }
    None
}

/// Returns all records whose `seq` is not the number of earlier records of their thread, as `gap_in` returns
/// the first. Takes one step for each record.
pub fn gaps_in(alloc: Global, trace: &PackedTrace) -> Result<Shown, AllocError>
    ensures { IfOk result (AreAllWith trace.now.records SeqGap) }
{
    let mut shown = Shown::none(alloc);
    let mut counts = [0u32; 256];
    for at in 0..trace.len() {
        let thread = usize::from(trace.thread(at));
        let differs = trace.seq(at) != counts[thread];
        shown.note(at, differs)?;
        counts[thread] += 1;
    }
    Ok(shown)
}
