//! Items of few records, by the places of these records.
ghost use Rattle.std.specs.Prelude.{ℕ, List, Option, ◌≡◌, ◌<◌, ◌^◌, [], Some, OnOk, option_copied};
ghost use Rattle.ompt_events.specs.declared.records.Record.{Record};
ghost use Rattle.ompt_events.specs.declared.records.Body.{Body};
ghost use Rattle.ompt_events.specs.Places.{at as says_at};
ghost use Rattle.packed_trace.specs.Sparse.{AreSparse, AddsItem};

use std::alloc::{AllocError, Global};

/// Items of some records: the places of the records, each below the next, and the item of each.
#[derive(Debug, Drop)]
pub(crate) struct Sparse<T> {
    pub(crate) places: Vec<u32>,
    pub(crate) items: Vec<T>,
}

impl<T: Drop> Sparse<T> {
    /// Returns no items.
    pub(crate) fn new(alloc: Global) -> Sparse<T>
        ensures places { result.places.items ≡ [] }
        ensures items { result.items.items ≡ [] }
    {
        Sparse {
            places: Vec::new(alloc),
            items: Vec::new(alloc),
        }
    }

    /// Adds the item of the record at a place, behind the others.
    pub(crate) fn add(&mut self, place: usize, item: T) -> Result<(), AllocError>
        requires { place < 2 ^ 32 }
        ensures { OnOk result (AddsItem self.old.places.items self.old.items.items self.new.places.items
            self.new.items.items place (Some item)) }
    {
        self.places.push(place as u32)?;
        self.items.push(item)?;
        Ok(())
    }

    /// Removes all items.
    pub(crate) fn clear(&mut self)
        ensures places { self.new.places.items ≡ [] }
        ensures items { self.new.items.items ≡ [] }
    {
        self.places.clear();
        self.items.clear();
    }

    /// Returns the item of the record at a place, if it has one. Takes log n steps in the items.
    pub(crate) fn find(&self, place: usize) -> Option<&T>
        requires { place < 2 ^ 32 }
        ensures { (says : Body → Option T) (rs : List Record)
            → AreSparse says rs self.now.places.items self.now.items.items → option_copied result ≡ says_at says rs place }
    {
        match self.places.binary_search(&(place as u32)) {
            Ok(index) => self.items.get(index),
            Err(_) => None,
        }
    }

    /// Returns what `find` does. Looks at the item with this index first.
    pub(crate) fn find_near(&self, place: usize, near: usize) -> Option<&T>
        requires { place < 2 ^ 32 }
        ensures { (says : Body → Option T) (rs : List Record)
            → AreSparse says rs self.now.places.items self.now.items.items
            → option_copied result ≡ says_at says rs place }
    {
        match self.places.get(near) {
            Some(found) if *found as usize == place => self.items.get(near),
            _ => self.find(place),
        }
    }
}
