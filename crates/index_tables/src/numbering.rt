//! A list of ids, each once, in which the index of an id is found without a walk.
ghost use Rattle.std.specs.Prelude.{◌≡◌, ◌↔◌, Some, ℕ, slice_get, Contains, IsTrue, IfOk, IfErr};
ghost use Rattle.index_tables.specs.Dense.{AreConsecutive, AreIndexed};
ghost use Rattle.index_tables.specs.Numbering.{AreApart, IsFirstAgain, IsSeededBy};

use crate::dense::{CloseIds, Indices, close_span, place};
use crate::seeded::Seeded;
use indexmap::IndexSet;
use std::alloc::{AllocError, Global};
use std::marker::Model;

/// Ids in their order, each once. An id's index is its place in the list. A look-up takes one step where each
/// id is greater by 1 than the one before it, and where the ids lie close together. Other ids are hashed: a
/// look-up takes a few steps, and more where ids collide in the table. The seed of that table is made from
/// all ids, so to change an id changes which ids collide: see `seeded`.
#[derive(Debug, Drop)]
pub struct Numbering {
    table: Table,
}

/// Where the indices are. With a third variant each look at the ids would take longer, and each record needs
/// one.
#[derive(Debug, Drop)]
enum Table {
    /// Ids that lie close together, as `dense` says.
    Close(CloseIds),
    /// Any other ids, in a table that has the seed of these ids.
    Hashed(IndexSet<u64, Seeded>),
}

impl Model for Numbering {
    ghost use Rattle.std.specs.Prelude.{List, ℕ};
    ghost use Rattle.index_tables.specs.Numbering.{ids_of, HasIndices};

    ghost Value = { List ℕ };

    ghost view = { λ numbering. ids_of numbering.table };

    ghost invariant = { λ numbering. HasIndices numbering.table };
}

impl Numbering {
    /// Returns the list of these ids, or the first index at which an id is there again. Fails when out of
    /// memory.
    pub fn of(alloc: Global, ids: Vec<u64>) -> Result<Result<Numbering, usize>, AllocError>
        ensures same { IfOk result (λ found. IfOk found (λ numbering. numbering ≡ ids.items)) }
        ensures apart { IfOk result (λ found. IfOk found (λ _. AreApart ids.items)) }
        ensures again { IfOk result (λ found. IfErr found (IsFirstAgain ids.items)) }
    {
        if are_consecutive(ids.as_slice()) {
            return Ok(Ok(Numbering::close(ids, Indices::Distances)));
        }
        if let Some(span) = close_span(ids.as_slice()) {
            return match place(alloc, ids.as_slice(), span)? {
                Ok(slots) => Ok(Ok(Numbering::close(ids, Indices::Slots(slots)))),
                Err(again) => Ok(Err(again)),
            };
        }
        match hash(alloc, ids.as_slice())? {
            Ok(known) => Ok(Ok(Numbering {
                table: Table::Hashed(known),
            })),
            Err(again) => Ok(Err(again)),
        }
    }

    /// Returns the list of these ids, with these indices.
    fn close(ids: Vec<u64>, indices: Indices) -> Numbering
        requires { AreIndexed ids.items indices }
        ensures { result ≡ ids.items }
    {
        Numbering {
            table: Table::Close(CloseIds { ids, indices }),
        }
    }

    /// Returns the ids in their order.
    #[inline(always)]
    pub fn as_slice(&self) -> &[u64]
        ensures { result.now ≡ self.now }
    {
        self.list()
    }

    #[inline(always)]
    fn list(&self) -> &[u64]
        ensures ids { result.now ≡ self.now }
        ensures apart { AreApart self.now }
    {
        match &self.table {
            Table::Close(close) => close.ids.as_slice(),
            Table::Hashed(ids) => ids.as_slice(),
        }
    }

    /// Returns the id at the index, if there is one.
    pub fn id_at(&self, index: usize) -> Option<u64>
        ensures { result ≡ slice_get self.now index }
    {
        self.as_slice().get(index).copied()
    }

    /// Returns the id's index, if the id is in the list.
    pub fn index_of(&self, id: u64) -> Option<usize>
        ensures { (index : ℕ) → (result ≡ Some index) ↔ (slice_get self.now index ≡ Some id) }
    {
        match &self.table {
            Table::Close(close) => close.index_of(id),
            Table::Hashed(ids) => ids.get_index_of(&id),
        }
    }

    /// Returns the same, but looks at the index `near` first. The id is mostly there, and a call would take
    /// longer.
    #[inline(always)]
    pub fn index_near(&self, id: u64, near: usize) -> Option<usize>
        ensures { (index : ℕ) → (result ≡ Some index) ↔ (slice_get self.now index ≡ Some id) }
    {
        let ids = self.list();
        if near < ids.len() && ids[near] == id {
            return Some(near);
        }
        self.index_of(id)
    }

    /// Returns whether the id is in the list.
    pub fn contains(&self, id: u64) -> bool
        ensures { IsTrue result ↔ Contains self.now id }
    {
        self.index_of(id).is_some()
    }
}

/// Returns true only if each id is greater by 1 than the one before it.
fn are_consecutive(ids: &[u64]) -> bool
    ensures { IsTrue result → AreConsecutive ids.now }
{
    for index in 1..ids.len() {
        if ids[index] < ids[0] || ids[index] - ids[0] != index as u64 {
            return false;
        }
    }
    true
}

/// Returns the table of these ids, with their seed, or the first index at which an id is there again.
fn hash(alloc: Global, ids: &[u64]) -> Result<Result<IndexSet<u64, Seeded>, usize>, AllocError>
    ensures same { IfOk result (λ found. IfOk found (λ known. known.keys ≡ ids.now)) }
    ensures seeded { IfOk result (λ found. IfOk found (λ known. IsSeededBy known ids.now)) }
    ensures apart { IfOk result (λ found. IfOk found (λ _. AreApart ids.now)) }
    ensures again { IfOk result (λ found. IfErr found (IsFirstAgain ids.now)) }
{
    let hashers = Seeded::of(ids);
    let mut known = IndexSet::with_capacity_and_hasher(alloc, ids.len(), hashers)?;
    for index in 0..ids.len() {
        let is_new = known.insert(ids[index])?;
        if !is_new {
            return Ok(Err(index));
        }
    }
    Ok(Ok(known))
}
