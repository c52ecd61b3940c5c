//! Which records happen before one record, as a bound for each thread.
ghost use Rattle.std.specs.Prelude.{ℕ, ◌≡◌, ◌<◌, ◌≤◌, ◌^◌, ◌↔◌, Some, IfOk, IsTrue, length};
ghost use Rattle.ompt_events.specs.Traces.{IsTrace};
ghost use Rattle.checker.specs.Counter.{AreBounds, HaveAllThreads, IsBelow, AreEarlierInThread, MakesBelow, AreRaisedTo, AreAllBefore};
ghost use Rattle.checker.specs.Schedule.{Awaits};

use crate::makers::Makers;
use crate::ordered::Ordered;
use crate::schedule::awaited_at;
use std::alloc::{AllocError, Global};
use task_tree::Run;

/// Returns by thread a bound: just those records of the thread that are below it happen before the record
/// at the place. Takes a few steps for each record, and memory for one number a thread.
pub(crate) fn find_before(
    alloc: Global,
    ordered: &Ordered,
    at: usize,
) -> Result<Vec<u32>, AllocError>
    requires { at < length ordered.now.ledger.run.records }
    ensures { IfOk result (λ bounds. AreBounds ordered.now.ledger.run.records at bounds.items) }
{
    let run = ordered.run();
    let mut found = bounds_in_thread(alloc, run, at)?;
    let bounds = found.as_mut_slice();
    raise_to_makers(bounds, ordered.makers, run.seen(at) as usize);
    raise_to_awaited(bounds, ordered.makers, at);
    raise_to_all_awaited(bounds, ordered);
    Ok(found)
}

/// Returns bounds that have below them just the earlier records of the thread of the record at a place.
fn bounds_in_thread(alloc: Global, run: &Run, at: usize) -> Result<Vec<u32>, AllocError>
    requires within { at < length run.now.records }
    requires is_trace { IsTrace run.now.records }
    ensures all { IfOk result (λ bounds. HaveAllThreads run.now.records bounds.items) }
    ensures earlier { IfOk result (λ bounds. AreEarlierInThread run.now.records at bounds.items) }
{
    let mut bounds = vec![in alloc; 0; 256]?;
    bounds[usize::from(run.thread(at))] = at as u32;
    Ok(bounds)
}

/// Raises the bounds so that the records that make the entries below a ledger length are below them.
fn raise_to_makers(bounds: &mut [u32], makers: &Makers, seen: usize)
    requires all { HaveAllThreads makers.now.run.records bounds.old }
    requires reached { seen ≤ length makers.now.places }
    ensures { AreRaisedTo makers.now.run.records (MakesBelow makers.now.run.records seen)
        bounds.old bounds.new }
{
    let run = makers.run();
    let places = makers.places();
    for entry in 0..seen {
        let maker = places[entry] as usize;
        if maker < run.len() {
            raise(bounds, run, maker);
        }
    }
}

/// Raises the bounds until what each record below them awaits is below them too. A record awaits one that
/// is before it in the order, so one pass from the end is enough.
fn raise_to_all_awaited(bounds: &mut [u32], ordered: &Ordered)
    requires { HaveAllThreads ordered.now.ledger.run.records bounds.old }
    ensures kept { (a : ℕ) → IsBelow ordered.now.ledger.run.records bounds.old a
        → IsBelow ordered.now.ledger.run.records bounds.new a }
    ensures closed { (b c : ℕ) → IsBelow ordered.now.ledger.run.records bounds.new b
        → Awaits ordered.now.ledger.run.records b c → IsBelow ordered.now.ledger.run.records bounds.new c }
    ensures before { (i : ℕ) → AreAllBefore ordered.now.ledger.run.records i bounds.old
        → AreAllBefore ordered.now.ledger.run.records i bounds.new }
{
    let run = ordered.run();
    let count = ordered.order.len();
    for step in 0..count {
        let place = ordered.order.place_at(count - 1 - step).unwrap();
        if is_below(bounds, run, place) {
            raise_to_awaited(bounds, ordered.makers, place);
        }
    }
}

/// Raises the bounds so that what the record at a place awaits is below them.
fn raise_to_awaited(bounds: &mut [u32], makers: &Makers, at: usize)
    requires within { at < length makers.now.run.records }
    requires all { HaveAllThreads makers.now.run.records bounds.old }
    ensures { AreRaisedTo makers.now.run.records (Awaits makers.now.run.records at) bounds.old bounds.new }
{
    let run = makers.run();
    if let Some(awaited) = awaited_at(run, makers.suspensions(), at) {
        raise(bounds, run, awaited);
    }
}

/// Raises the bound of the record's thread, if necessary, so that the record is below it.
fn raise(bounds: &mut [u32], run: &Run, place: usize)
    requires within { place < length run.now.records }
    requires few { length run.now.records ≤ 2 ^ 22 }
    requires all { HaveAllThreads run.now.records bounds.old }
    ensures { AreRaisedTo run.now.records (λ c. c ≡ place) bounds.old bounds.new }
{
    let thread = usize::from(run.thread(place));
    bounds[thread] = bounds[thread].max(place as u32 + 1);
}

/// Returns whether the record at a place is below the bound of its thread.
pub(crate) fn is_below(bounds: &[u32], run: &Run, place: usize) -> bool
    requires within { place < length run.now.records }
    requires all { HaveAllThreads run.now.records bounds.now }
    ensures { IsTrue result ↔ IsBelow run.now.records bounds.now place }
{
    place < bounds[usize::from(run.thread(place))] as usize
}
