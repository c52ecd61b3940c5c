//! Ids that lie close together: the index of each is found by its distance from the least.
//!
//! The ids of a recorded run mostly lie close together but not in order, since each thread takes its own. With
//! slots they need not be hashed.
ghost use Rattle.std.specs.Prelude.{◌≡◌, ◌<◌, ◌↔◌, ◌^◌, List, Some, ℕ, length, slice_get, IfOk, IfErr, IfSome};
ghost use Rattle.index_tables.specs.Numbering.{AreApart, IsFirstAgain};
ghost use Rattle.index_tables.specs.Dense.{AreClose, AreConsecutive, AreIndexed, ArePlaced};

use crate::slot::Slot;
use std::alloc::{AllocError, Global};

/// Ids that lie close together, in their order, and how the index of one is found.
#[derive(Debug, Drop)]
pub(crate) struct CloseIds {
    pub(crate) ids: Vec<u64>,
    pub(crate) indices: Indices,
}

/// How the index of an id is found.
#[derive(Debug, Drop)]
pub(crate) enum Indices {
    /// Each id is greater by 1 than the one before it: its index is its distance from the first.
    Distances,
    /// The index is in the slot at the distance of the id from the least.
    Slots(Slots),
}

/// By distance from the least of some ids a slot with the index of the id.
#[derive(Debug, Drop)]
pub(crate) struct Slots {
    pub(crate) least: u64,
    pub(crate) slots: Vec<Slot>,
}

impl CloseIds {
    /// Returns the id's index, if the id is in the list.
    pub(crate) fn index_of(&self, id: u64) -> Option<usize>
        requires { AreIndexed self.now.ids.items self.now.indices }
        ensures { (index : ℕ) → (result ≡ Some index) ↔ (slice_get self.now.ids.items index ≡ Some id) }
    {
        match &self.indices {
            Indices::Distances => consecutive_index(self.ids.as_slice(), id),
            Indices::Slots(slots) => slots.index_of(id),
        }
    }
}

/// Returns the index of an id among ids without gaps.
fn consecutive_index(ids: &[u64], id: u64) -> Option<usize>
    requires { AreConsecutive ids.now }
    ensures { (index : ℕ) → (result ≡ Some index) ↔ (slice_get ids.now index ≡ Some id) }
{
    if ids.is_empty() || id < ids[0] {
        return None;
    }
    let index = (id - ids[0]) as usize;
    if index < ids.len() { Some(index) } else { None }
}

impl Slots {
    /// Returns the id's index, if the id is in a list whose slots these are.
    fn index_of(&self, id: u64) -> Option<usize>
        ensures { (ids : List ℕ) → ArePlaced ids self.now.least self.now.slots.items → (index : ℕ)
            → (result ≡ Some index) ↔ (slice_get ids index ≡ Some id) }
    {
        if id < self.least {
            return None;
        }
        let distance = (id - self.least) as usize;
        if distance < self.slots.len() {
            self.slots[distance].get()
        } else {
            None
        }
    }
}

/// Where ids lie: the least of them, and how many places there are from it to the greatest.
#[derive(Clone, Copy, Debug)]
pub(crate) struct Span {
    pub(crate) least: u64,
    pub(crate) places: usize,
}

/// Fewer ids and places than this have slots by distance, so that each index fits a slot.
const LIMIT: usize = 1 << 31;

/// Returns where the ids lie, only if they lie close together: at most 4 places for each id, and fewer than
/// 2^31 ids and places. So the slots take at most 16 bytes an id.
pub(crate) fn close_span(ids: &[u64]) -> Option<Span>
    ensures { IfSome result (λ span. AreClose ids.now span.least span.places) }
{
    if ids.is_empty() || ids.len() >= LIMIT {
        return None;
    }
    let mut least = ids[0];
    let mut greatest = ids[0];
    for id in ids {
        least = least.min(*id);
        greatest = greatest.max(*id);
    }
    let distance = greatest - least;
    if distance >= 4 * ids.len() as u64 || distance >= LIMIT as u64 - 1 {
        return None;
    }
    Some(Span {
        least,
        places: distance as usize + 1,
    })
}

/// Returns the slots of these ids, or the first index at which an id is there again. Fails when out of memory.
pub(crate) fn place(
    alloc: Global,
    ids: &[u64],
    span: Span,
) -> Result<Result<Slots, usize>, AllocError>
    requires { AreClose ids.now span.least span.places }
    ensures placed { IfOk result (λ found. IfOk found (λ placed. ArePlaced ids.now placed.least placed.slots.items)) }
    ensures apart { IfOk result (λ found. IfOk found (λ _. AreApart ids.now)) }
    ensures again { IfOk result (λ found. IfErr found (IsFirstAgain ids.now)) }
{
    let mut slots = vec![in alloc; Slot::none(); span.places]?;
    for index in 0..ids.len() {
        let distance = (ids[index] - span.least) as usize;
        if !slots[distance].is_none() {
            return Ok(Err(index));
        }
        slots[distance] = Slot::some(index);
    }
    Ok(Ok(Slots {
        least: span.least,
        slots,
    }))
}
