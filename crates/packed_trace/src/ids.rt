//! The ids that records name, in half the memory as long as they have 32 bits.
ghost use Rattle.std.specs.Prelude.{◌≡◌, ◌<◌, ◌++◌, ◌∷◌, [], IfSome, OnOk, Some, length, slice_get};
ghost use Rattle.packed_trace.specs.Ids.{widened};

use std::alloc::{AllocError, Global};
use std::marker::Model;

/// The ids that a record names.
#[derive(Clone, Copy, Debug)]
pub struct Ids {
    /// The task that the record is of, and 0 if it is of none.
    pub first: u64,
    /// The task that it creates, or that runs next, or its parallel region; and 0 if it names none.
    pub second: u64,
}

/// The same, where both have 32 bits.
#[derive(Clone, Copy, Debug)]
pub(crate) struct NarrowIds {
    first: u32,
    second: u32,
}

/// The ids of records, by place. Contracts see a list of them.
#[derive(Debug, Drop)]
pub(crate) struct IdColumn {
    /// Those of the first records, up to the first one that names an id of more than 32 bits.
    narrow: Vec<NarrowIds>,
    /// Those of that record and of all behind it.
    wide: Vec<Ids>,
}

impl Model for IdColumn {
    ghost use Rattle.std.specs.Prelude.{List, ◌++◌, map};
    ghost use Rattle.packed_trace.specs.declared.ids.Ids.{Ids};
    ghost use Rattle.packed_trace.specs.Ids.{widened};

    ghost Value = { List Ids };

    ghost view = { λ column. map widened column.narrow.items ++ column.wide.items };
}

impl IdColumn {
    /// Returns a column without ids.
    pub(crate) fn new(alloc: Global) -> IdColumn
        ensures { result ≡ [] }
    {
        IdColumn {
            narrow: Vec::new(alloc),
            wide: Vec::new(alloc),
        }
    }

    /// Removes all ids.
    pub(crate) fn clear(&mut self)
        ensures { self.new ≡ [] }
    {
        self.narrow.clear();
        self.wide.clear();
    }

    /// Adds the ids of one record more.
    pub(crate) fn push(&mut self, ids: Ids) -> Result<(), AllocError>
        ensures { OnOk result (self.new ≡ self.old ++ ids ∷ []) }
    {
        if self.wide.is_empty()
            && let Some(narrow) = narrowed(ids)
        {
            self.narrow.push(narrow)?;
        } else {
            self.wide.push(ids)?;
        }
        Ok(())
    }

    /// Returns the ids of the record at a place.
    #[inline(always)]
    pub(crate) fn at(&self, place: usize) -> Ids
        requires { place < length self.now }
        ensures { slice_get self.now place ≡ Some result }
    {
        let first = self.narrow.len();
        if place < first {
            widened(self.narrow[place])
        } else {
            self.wide[place - first]
        }
    }
}

/// Returns the same ids in 32 bits, if both have no more.
fn narrowed(ids: Ids) -> Option<NarrowIds>
    ensures { IfSome result (λ narrow. widened narrow ≡ ids) }
{
    match (u32::try_from(ids.first), u32::try_from(ids.second)) {
        (Ok(first), Ok(second)) => Some(NarrowIds { first, second }),
        _ => None,
    }
}

/// Returns the same ids in 64 bits.
fn widened(ids: NarrowIds) -> Ids
    ensures { result ≡ widened ids }
{
    Ids {
        first: u64::from(ids.first),
        second: u64::from(ids.second),
    }
}
