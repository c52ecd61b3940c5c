//! The greedy order of the records.
ghost use Rattle.std.specs.Prelude.{ℕ, ◌≡◌, ◌∷◌, [], ◌<◌, ◌≤◌, ◌↔◌, ◌^◌, List, Some, IfOk, IfErr, IsTrue, OnOk, false, true, length, replicate, slice_index, slice_set};
ghost use Rattle.ompt_events.specs.declared.cause.Cause.TheVariants.{NoOrder};
ghost use Rattle.ompt_events.specs.Places.{thread_at};
ghost use Rattle.ompt_events.specs.Linearization.{IsLinearization};
ghost use Rattle.ompt_events.specs.Causes.{IsFreeOf};
ghost use Rattle.ompt_events.specs.Faults.{IsFault};
ghost use Rattle.ompt_events.specs.Shown.{AreAll, AreAllWith};
ghost use Rattle.checker.specs.Merge.{Stands, IsUnplaced, IsFront, AreOffered, AreInTurn, IsGreedyBehind, IsMerged, ArePlaced};

use crate::front::{Front, stands, take_first};
use crate::lists::{Lists, lists_of_threads};
use crate::makers::Makers;
use crate::queue::Queue;
use crate::waiting::{Placed, Waiting};
use ompt_events::{Cause, Fault, Shown, exclude};
use std::alloc::{AllocError, Global};
use task_tree::Run;

/// Returns the greedy order that begins with these records: after them it repeatedly takes the first record
/// in file order whose predecessors are all placed. Requires that each of these records may be placed after
/// those before it. Fails with NoOrder at the first record that is not placed in the end.
pub(crate) fn find_order(alloc: Global, makers: &Makers, base: Vec<u32>) -> Result<Vec<u32>, Fault>
    requires { AreInTurn makers.now.run.records base.items }
    ensures linearization { IfOk result (λ order. IsLinearization makers.now.run.records order.items) }
    ensures greedy { IfOk result (λ order. IsGreedyBehind makers.now.run.records base.items order.items) }
    ensures free { OnOk result (IsFreeOf makers.now.run.records NoOrder) }
    ensures fault { IfErr result (IsFault makers.now.run.records (NoOrder ∷ [])) }
{
    let _run = makers.run();
    let Merged { order, placed } = place_all(alloc, makers, base)?;
    exclude(Cause::NoOrder, unplaced(alloc, &placed)?.first())?;
    Ok(order)
}

/// Returns all records that are in no order which has, before each record, all that happens before it. Fails
/// only when out of memory.
pub(crate) fn unordered(alloc: Global, makers: &Makers) -> Result<Shown, AllocError>
    ensures { IfOk result (AreAllWith makers.now.run.records NoOrder) }
{
    let run = makers.run();
    let none = Vec::with_capacity(alloc, run.len())?;
    let Merged { placed, .. } = place_all(alloc, makers, none)?;
    unplaced(alloc, &placed)
}

/// The greedy order of the records that have one, and a mark for each record: whether it is placed.
#[derive(Drop)]
struct Merged {
    order: Vec<u32>,
    placed: Vec<bool>,
}

/// Returns these records and behind them, as long as there is one, the first record in file order whose
/// predecessors are all placed.
fn place_all(alloc: Global, makers: &Makers, base: Vec<u32>) -> Result<Merged, AllocError>
    requires { AreInTurn makers.now.run.records base.items }
    ensures { IfOk result (λ merged. IsMerged makers.now.run.records base.items merged.order.items
        merged.placed.items) }
{
    let run = makers.run();
    let places = makers.places();
    let mut standing = Standing::of(alloc, run, base.as_slice())?;
    let waiting = Waiting::of(alloc, makers)?;
    let mut low = first_missing(&standing.placed, places, 0);
    let mut ready = standing.first_ready(alloc, makers, low)?;
    let mut order = base;
    'merge: while let Some(place) = take_first(&mut ready, &standing.placed) {
        order.push(place as u32)?;
        standing.place(run, place);
        let was_low = low;
        low = first_missing(&standing.placed, places, low);
        let front = Front {
            run,
            suspensions: makers.suspensions(),
            placed: standing.placed.as_slice(),
            heads: standing.heads.as_slice(),
            low,
        };
        let just_placed = Placed {
            place,
            next: standing.links[place] as usize,
            was_low,
        };
        waiting.release(&front, &mut ready, just_placed)?;
    }
    let Standing { placed, .. } = standing;
    Ok(Merged { order, placed })
}

/// Which records are placed: a mark for each record, the first one of each thread that is not placed, and
/// by record the next one of its thread. The number of records means none.
#[derive(Drop)]
struct Standing {
    placed: Vec<bool>,
    heads: Vec<u32>,
    links: Vec<u32>,
}

impl Standing {
    /// Returns the state in which just the records of the order are placed.
    fn of(alloc: Global, run: &Run, order: &[u32]) -> Result<Standing, AllocError>
        requires { AreInTurn run.now.records order.now }
        ensures { IfOk result (λ standing. ArePlaced run.now.records standing.placed.items standing.heads.items
            standing.links.items order.now) }
    {
        let mut standing = Standing::none(alloc, run)?;
        for index in 0..order.len() {
            standing.place(run, order[index] as usize);
        }
        Ok(standing)
    }

    /// Returns the state in which no record is placed.
    fn none(alloc: Global, run: &Run) -> Result<Standing, AllocError>
        ensures { IfOk result (λ standing. ArePlaced run.now.records standing.placed.items standing.heads.items
            standing.links.items []) }
    {
        let Lists { firsts, nexts } = lists_of_threads(alloc, run)?;
        Ok(Standing {
            placed: none_placed(alloc, run.len())?,
            heads: firsts,
            links: nexts,
        })
    }

    /// Places one more record. Inlined into the merge.
    #[inline(always)]
    fn place(&mut self, run: &Run, place: usize)
        requires within { place < length run.now.records }
        requires all { (order : List ℕ) × ArePlaced run.now.records self.old.placed.items
            self.old.heads.items self.old.links.items order }
        ensures placed { self.new.placed.items ≡ slice_set self.old.placed.items place true }
        ensures heads { (thread : ℕ) → thread_at run.now.records place ≡ Some thread → self.new.heads.items
            ≡ slice_set self.old.heads.items thread (slice_index self.old.links.items place) }
        ensures links { self.new.links.items ≡ self.old.links.items }
    {
        self.placed[place] = true;
        self.heads[usize::from(run.thread(place))] = self.links[place];
    }

    /// Returns the records that may be placed next.
    fn first_ready(&self, alloc: Global, makers: &Makers, low: usize) -> Result<Queue, AllocError>
        requires { IsFront makers.now.run.records makers.now.run.family makers.now.suspensions
            self.now.placed.items self.now.heads.items low }
        ensures { IfOk result (AreOffered makers.now.run.records self.now.placed.items) }
    {
        let mut ready = Queue::new(alloc);
        let front = Front {
            run: makers.run(),
            suspensions: makers.suspensions(),
            placed: self.placed.as_slice(),
            heads: self.heads.as_slice(),
            low,
        };
        front.offer_heads(&mut ready)?;
        Ok(ready)
    }
}

/// Returns a mark for each record: none is placed.
fn none_placed(alloc: Global, len: usize) -> Result<Vec<bool>, AllocError>
    ensures { IfOk result (λ placed. placed.items ≡ replicate len false) }
{
    vec![in alloc; false; len]
}

/// Returns the records that are not placed.
fn unplaced(alloc: Global, placed: &[bool]) -> Result<Shown, AllocError>
    requires { length placed.now ≤ 2 ^ 32 }
    ensures { IfOk result (AreAll (IsUnplaced placed.now) (length placed.now)) }
{
    let mut shown = Shown::none(alloc);
    for at in 0..placed.len() {
        shown.note(at, is_unplaced(placed, at))?;
    }
    Ok(shown)
}

/// Returns the first entry, from one on, whose record is not placed, or the number of entries.
fn first_missing(placed: &[bool], makers: &[u32], from: usize) -> usize
    requires { from ≤ length makers.now }
    ensures from { from ≤ result }
    ensures within { result ≤ length makers.now }
    ensures passed { (k : ℕ) → from ≤ k → k < result → slice_index makers.now k < length placed.now
        → Stands placed.now (slice_index makers.now k) }
    ensures missing { result < length makers.now → IsUnplaced placed.now (slice_index makers.now result) }
{
    for entry in from..makers.len() {
        if is_unplaced(placed, makers[entry] as usize) {
            return entry;
        }
    }
    makers.len()
}

/// Returns whether there is a record at the place, and it is not placed.
fn is_unplaced(placed: &[bool], place: usize) -> bool
    ensures { IsTrue result ↔ IsUnplaced placed.now place }
{
    place < placed.len() && !stands(placed, place)
}
