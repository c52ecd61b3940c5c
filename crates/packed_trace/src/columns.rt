//! What a packed trace keeps of its records, by place.
ghost use Rattle.std.specs.Prelude.{◌≡◌, ◌<◌, ◌++◌, ◌∷◌, [], ◌^◌, List, Some, OnOk, length, option_copied, slice_get};
ghost use Rattle.ompt_events.specs.declared.records.Record.{Record as SpecRecord};
ghost use Rattle.packed_trace.specs.Sparse.{AddsItem};

use crate::act::PackedEvent;
use crate::copies::{boxed_copy, deps_of};
use crate::ids::IdColumn;
use crate::parts::Parts;
use crate::sparse::Sparse;
use ompt_events::{BoxedClaim, Deps, Record};
use std::alloc::{AllocError, Global};

/// The numbers that a record names.
#[derive(Clone, Copy, Debug)]
pub struct Numbers {
    /// The turn that the prior task ends, or how many members the team of an implicit task has; or 0.
    pub first: u32,
    /// The turn that the next task begins, or the number of the member; or 0.
    pub second: u32,
}

/// What is kept of the records: by place, and for the few that have one by its place the claim or the list of
/// dependences.
#[derive(Debug, Drop)]
pub(crate) struct Columns {
    pub(crate) events: Vec<PackedEvent>,
    pub(crate) ids: IdColumn,
    pub(crate) numbers: Vec<Numbers>,
    pub(crate) seqs: Vec<u32>,
    pub(crate) claims: Sparse<BoxedClaim>,
    pub(crate) lists: Sparse<Deps>,
}

impl Columns {
    ghost use Rattle.packed_trace.specs.Columns.{AreColumns};

    /// Returns the columns of no record.
    pub(crate) fn new(alloc: Global) -> Columns
        ensures { AreColumns [] result }
    {
        Columns {
            events: Vec::new(alloc),
            ids: IdColumn::new(alloc),
            numbers: Vec::new(alloc),
            seqs: Vec::new(alloc),
            claims: Sparse::new(alloc),
            lists: Sparse::new(alloc),
        }
    }

    /// Removes all records.
    pub(crate) fn clear(&mut self)
        ensures { AreColumns [] self.new }
    {
        self.events.clear();
        self.ids.clear();
        self.numbers.clear();
        self.seqs.clear();
        self.claims.clear();
        self.lists.clear();
    }

    /// Adds a record behind the others. Fails only when out of memory; then nothing is known of the columns.
    pub(crate) fn add(&mut self, event: Record) -> Result<(), AllocError>
        requires { length self.old.events.items < 2 ^ 32 }
        ensures { (rs : List SpecRecord) → AreColumns rs self.old
            → OnOk result (AreColumns (rs ++ event ∷ []) self.new) }
    {
        let place = self.events.len();
        let Record {
            thread,
            seq,
            seen,
            body,
            ..
        } = event;
        let Parts {
            act,
            ids,
            numbers,
            claim,
            list,
        } = Parts::of(body);
        self.events.push(PackedEvent { act, thread, seen })?;
        self.ids.push(ids)?;
        self.numbers.push(numbers)?;
        self.seqs.push(seq)?;
        add_claim(claim, place, &mut self.claims)?;
        add_list(list, place, &mut self.lists)
    }

    /// Adds a copy of the record at a place of other columns behind the others. Fails only when out of memory;
    /// then nothing is known of the columns.
    pub(crate) fn add_from(
        &mut self,
        alloc: Global,
        other: &Columns,
        at: usize,
    ) -> Result<(), AllocError>
        requires few { length self.old.events.items < 2 ^ 32 }
        requires within { (others : List SpecRecord) × (r : SpecRecord) × AreColumns others other.now
            × (slice_get others at ≡ Some r) × (length others < 2 ^ 32) }
        ensures { (rs others : List SpecRecord) (r : SpecRecord) → AreColumns others other.now
            → slice_get others at ≡ Some r → AreColumns rs self.old
            → OnOk result (AreColumns (rs ++ r ∷ []) self.new) }
    {
        let place = self.events.len();
        self.events.push(other.events[at])?;
        self.ids.push(other.ids.at(at))?;
        self.numbers.push(other.numbers[at])?;
        self.seqs.push(other.seqs[at])?;
        copy_claim(alloc, other.claims.find(at), place, &mut self.claims)?;
        copy_list(alloc, other.lists.find(at), place, &mut self.lists)
    }
}

/// Adds the claim of the record at a place, if it has one.
fn add_claim(
    claim: Option<BoxedClaim>,
    place: usize,
    claims: &mut Sparse<BoxedClaim>,
) -> Result<(), AllocError>
    requires { place < 2 ^ 32 }
    ensures { OnOk result (AddsItem claims.old.places.items claims.old.items.items
        claims.new.places.items claims.new.items.items place claim) }
{
    match claim {
        Some(claim) => claims.add(place, claim),
        None => Ok(()),
    }
}

/// Adds the dependences of the record at a place, if it lists some.
fn add_list(list: Option<Deps>, place: usize, lists: &mut Sparse<Deps>) -> Result<(), AllocError>
    requires { place < 2 ^ 32 }
    ensures { OnOk result (AddsItem lists.old.places.items lists.old.items.items
        lists.new.places.items lists.new.items.items place list) }
{
    match list {
        Some(list) => lists.add(place, list),
        None => Ok(()),
    }
}

/// Adds a copy of the claim of the record at a place, if it has one.
fn copy_claim(
    alloc: Global,
    claim: Option<&BoxedClaim>,
    place: usize,
    claims: &mut Sparse<BoxedClaim>,
) -> Result<(), AllocError>
    requires { place < 2 ^ 32 }
    ensures { OnOk result (AddsItem claims.old.places.items claims.old.items.items
        claims.new.places.items claims.new.items.items place (option_copied claim.entry)) }
{
    match claim {
        Some(claim) => claims.add(place, boxed_copy(alloc, claim)?),
        None => Ok(()),
    }
}

/// Adds a copy of the dependences of the record at a place, if it lists some.
fn copy_list(
    alloc: Global,
    list: Option<&Deps>,
    place: usize,
    lists: &mut Sparse<Deps>,
) -> Result<(), AllocError>
    requires { place < 2 ^ 32 }
    ensures { OnOk result (AddsItem lists.old.places.items lists.old.items.items
        lists.new.places.items lists.new.items.items place (option_copied list.entry)) }
{
    match list {
        Some(list) => lists.add(place, deps_of(alloc, list)?),
        None => Ok(()),
    }
}
