//! Ids that were used, kept as intervals, so that those which a counter gave take one interval.
ghost use Rattle.std.specs.Prelude.{ℕ, ◌≡◌, ◌==◌, ◌||◌, not, false, IfOk};
ghost use Rattle.online.specs.Spans.{AreSpans, AreApart, last_from};

use crate::spans::{first_with, join, last_with, nearest};
use std::alloc::{AllocError, Global};
use std::collections::BTreeMap;

/// A set of ids. No interval touches another.
#[derive(Debug, Drop)]
pub(crate) struct Ids {
    /// By the first id of each interval the last.
    spans: BTreeMap<u64, u64>,
    ghost within: { AreSpans (last_from spans) },
    ghost apart: { AreApart (last_from spans) },
}

impl Ids {
    ghost use Rattle.online.specs.Ids.{has};

    /// Returns the set of no ids. Takes no memory.
    pub(crate) fn new(alloc: Global) -> Ids
        ensures { (id : ℕ) → has result id ≡ false }
    {
        Ids {
            spans: BTreeMap::new(alloc),
        }
    }

    /// Returns whether the id is in the set.
    pub(crate) fn contains(&self, id: u64) -> bool
        ensures { result ≡ has self.now id }
    {
        match nearest(&self.spans, id) {
            Some((_, last)) => id <= last,
            None => false,
        }
    }

    /// Puts the id into the set. Returns whether it is new there; where it is not, nothing changes. Fails
    /// only when out of memory.
    pub(crate) fn insert(&mut self, id: u64) -> Result<bool, AllocError>
        ensures new { IfOk result (λ new. new ≡ not (has self.old id)) }
        ensures kept { IfOk result (λ new. (other : ℕ)
            → has self.new other ≡ ((other == id) || has self.old other)) }
        ensures same { IfOk result (λ new. new ≡ false → self.new ≡ self.old) }
    {
        if self.contains(id) {
            return Ok(false);
        }
        let first = first_with(&self.spans, id);
        let last = last_with(&self.spans, id);
        join(&mut self.spans, first, id, last)?;
        Ok(true)
    }
}
