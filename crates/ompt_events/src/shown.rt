//! The places of the records that show a cause.
ghost use Rattle.std.specs.Prelude.{◌≡◌, ◌<◌, ◌++◌, ◌∷◌, ◌^◌, [], List, OnOk, length, slice_get, if◌then◌else◌};
ghost use Rattle.ompt_events.specs.declared.records.Record.{Record};
ghost use Rattle.ompt_events.specs.declared.cause.Cause.{Cause};
ghost use Rattle.ompt_events.specs.Faults.{FindsFirst};
ghost use Rattle.ompt_events.specs.Shown.{AreAllWith};

use std::alloc::{AllocError, Global};
use std::marker::Model;

/// Places of records, in file order, which contracts see as a list. A search goes through the records in file
/// order and notes each one that shows a cause.
#[derive(Debug, Drop)]
pub struct Shown {
    places: Vec<u32>,
}

impl Model for Shown {
    ghost use Rattle.std.specs.Prelude.{List, ℕ};

    ghost Value = { List ℕ };

    ghost view = { λ shown. shown.places.items };
}

impl Shown {
    /// Returns no places. Takes no memory.
    pub fn none(alloc: Global) -> Shown
        ensures { result ≡ [] }
    {
        Shown {
            places: Vec::new(alloc),
        }
    }

    /// Adds the place behind the others, if the record there shows the cause. Fails only when out of memory.
    #[inline(always)]
    pub fn note(&mut self, at: usize, shows: bool) -> Result<(), AllocError>
        requires { at < 2 ^ 32 }
        ensures { OnOk result (self.new ≡ (if shows then self.old ++ at ∷ [] else self.old)) }
    {
        if shows {
            self.places.push(at as u32)?;
        }
        Ok(())
    }

    /// Returns how many places there are.
    pub fn len(&self) -> usize
        ensures { result ≡ length self.now }
    {
        self.places.len()
    }

    /// Returns the place with this index, from 0. Returns none past the end.
    pub fn at(&self, index: usize) -> Option<usize>
        ensures { result ≡ slice_get self.now index }
    {
        if index < self.places.len() {
            Some(self.places[index] as usize)
        } else {
            None
        }
    }

    /// Returns the first place.
    pub fn first(&self) -> Option<usize>
        ensures value { result ≡ slice_get self.now 0 }
        ensures found { (records : List Record) (cause : Cause) → AreAllWith records cause self.now
            → FindsFirst records cause result }
    {
        self.at(0)
    }
}
