//! The parallel regions that the tasks of a thread have begun there.
ghost use Rattle.std.specs.Prelude.{List, None, true, ◌≡◌, ◌++◌, ◌∷◌, [], OnOk, OnErr, IsOk};
ghost use Rattle.ompt_events.specs.declared.records.Record.{Record};
ghost use Rattle.ompt_events.specs.Records.{forked};
ghost use Rattle.callbacks.specs.Begun.{AreBegun, has_begun, has_begun_one};

use ompt_events::Body;
use std::alloc::{AllocError, Global};
use std::collections::BTreeSet;
use std::marker::Model;

/// The parallel regions that a thread's records begin.
#[derive(Drop)]
pub(crate) struct Begun {
    /// Each region with the task that begins it.
    pairs: BTreeSet<(u64, u64)>,
}

impl Model for Begun {
    ghost use Rattle.std.specs.Prelude.{ℕ};
    ghost use Rattle.std.specs.BTreeSet.{BTreeSet};

    ghost Value = { BTreeSet (ℕ × ℕ) };

    ghost view = { λ begun. begun.pairs };
}

impl Begun {
    /// Returns no region. Takes no memory.
    pub(crate) fn new(alloc: Global) -> Begun
        ensures { AreBegun [] result }
    {
        Begun {
            pairs: BTreeSet::new(alloc),
        }
    }

    /// Adds the region that a record with this body begins, if it begins one, in a trace where regions may lie
    /// inside others. Fails only when out of memory, and changes nothing then.
    pub(crate) fn note(&mut self, body: &Body, nests: bool) -> Result<(), AllocError>
        ensures noted { OnOk result (nests ≡ true → (own : List Record) (r : Record) → r.body ≡ body.now
            → AreBegun own self.old → AreBegun (own ++ r ∷ []) self.new) }
        ensures same { forked body.now ≡ None → self.new ≡ self.old }
        ensures unchanged { OnErr result ((own : List Record) → AreBegun own self.old → AreBegun own self.new) }
        ensures infallible { forked body.now ≡ None → IsOk result }
    {
        match body.forked() {
            Some(pair) if nests => {
                self.pairs.insert(pair)?;
                Ok(())
            }
            _ => Ok(()),
        }
    }

    /// Returns whether there is a task, and it has begun the region.
    pub(crate) fn has_begun(&self, task: Option<u64>, parallel: u64) -> bool
        ensures { (own : List Record) → AreBegun own self.now → result ≡ has_begun own task parallel }
    {
        match task {
            Some(task) => self.pairs.contains(&(task, parallel)),
            None => false,
        }
    }

    /// Returns whether there is a task, and it has begun any region.
    pub(crate) fn has_begun_one(&self, task: Option<u64>) -> bool
        ensures { (own : List Record) → AreBegun own self.now → result ≡ has_begun_one own task }
    {
        let Some(task) = task else {
            return false;
        };
        match self.pairs.range((task, 0)..).next() {
            Some(pair) => pair.0 == task,
            None => false,
        }
    }
}
