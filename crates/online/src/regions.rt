//! Which parallel regions began so far.
ghost use Rattle.std.specs.Prelude.{◌≡◌, ◌++◌, ◌∷◌, [], List, IfOk, OnOk, IsTrue};
ghost use Rattle.ompt_events.specs.declared.records.Record.{Record};
ghost use Rattle.online.specs.Online.{AreForked};
ghost use Rattle.online.specs.Watches.{AreRegionsOf, BeginsNewRegion, NamesOne, BeginsOne};

use crate::ids::Ids;
use ompt_events::Body;
use std::alloc::{AllocError, Global};
use std::collections::BTreeSet;

/// The ids of the parallel regions that the records so far begin, and of those that they name and do not begin: a
/// member may begin on its thread before the record stands there with which its region begins.
#[derive(Drop)]
pub(crate) struct Regions {
    begun: Ids,
    awaited: BTreeSet<u64>,
}

impl Regions {
    /// Returns those of no records. Takes no memory.
    pub(crate) fn new(alloc: Global) -> Regions
        ensures { AreRegionsOf [] result }
    {
        Regions {
            begun: Ids::new(alloc),
            awaited: BTreeSet::new(alloc),
        }
    }

    /// Takes one more record, which has this body, and returns true only if a region that it begins is new. Fails
    /// only when out of memory.
    pub(crate) fn take(&mut self, body: &Body) -> Result<bool, AllocError>
        ensures { IfOk result (λ taken. IsTrue taken → (rs : List Record) (r : Record) → r.body ≡ body.now
            → AreRegionsOf rs self.old → BeginsNewRegion rs r × AreRegionsOf (rs ++ r ∷ []) self.new) }
    {
        if let Some(parallel) = body.region_named() {
            self.name(parallel)?;
            return Ok(true);
        }
        match body.forked() {
            Some((_, parallel)) => self.begin(parallel),
            None => Ok(true),
        }
    }

    /// Returns true only if each region that the records name is begun by one of them.
    pub(crate) fn are_begun(&self) -> bool
        ensures { IsTrue result → (rs : List Record) → AreRegionsOf rs self.now → AreForked rs }
    {
        self.awaited.is_empty()
    }

    /// Notes that a record names the region.
    fn name(&mut self, parallel: u64) -> Result<(), AllocError>
        ensures { OnOk result (NamesOne self.old self.new parallel) }
    {
        if !self.begun.contains(parallel) {
            self.awaited.insert(parallel)?;
        }
        Ok(())
    }

    /// Notes that a record begins the region. Returns whether it is new.
    fn begin(&mut self, parallel: u64) -> Result<bool, AllocError>
        ensures { IfOk result (λ new. IsTrue new → BeginsOne self.old self.new parallel) }
    {
        if !self.begun.insert(parallel)? {
            return Ok(false);
        }
        self.awaited.remove(&parallel);
        Ok(true)
    }
}
