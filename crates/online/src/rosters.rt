//! The members of teams, taken one after another: whether each team has all its members, each with an index
//! of its own.
ghost use Rattle.std.specs.Prelude.{ℕ, ◌≡◌, ◌++◌, ◌∷◌, ◌==◌, [], List, IfOk, OnOk, IsTrue};
ghost use Rattle.ompt_events.specs.declared.records.Record.{Record};
ghost use Rattle.online.specs.Rosters.{AreRostersOf, IsShortRoster, IsEmptyRoster, EnrollsIn, TakesMember};
ghost use Rattle.online.specs.Rosters.{TakesOut, KeepsRoster};

use crate::ids::Ids;
use ompt_events::Record;
use std::alloc::{AllocError, Global};
use std::collections::BTreeMap;

/// What is kept of a team that lacks a member.
#[derive(Debug, Drop)]
struct Roster {
    /// How many members it has, as they say.
    size: u32,
    /// How many members have begun.
    joined: u32,
    /// The indices that these have.
    indices: Ids,
}

impl Roster {
    /// Returns the roster of a team of this size, before any member begins. Takes no memory.
    fn new(alloc: Global, size: u32) -> Roster
        ensures { IsEmptyRoster size result }
    {
        Roster {
            size,
            joined: 0,
            indices: Ids::new(alloc),
        }
    }

    /// Takes a member with this index, by which the team has this size. Returns false where the index is not
    /// below the size, the team has another size or all its members, or one of them has this index.
    fn enroll(&mut self, index: u32, size: u32) -> Result<bool, AllocError>
        ensures { IfOk result (λ taken. IsTrue taken → EnrollsIn self.old self.new index size) }
    {
        if index >= size || size != self.size || self.joined >= size {
            return Ok(false);
        }
        self.joined += 1;
        self.indices.insert(u64::from(index))
    }

    /// Returns whether all members have begun.
    fn is_whole(&self) -> bool
        ensures { result ≡ (self.now.joined == self.now.size) }
    {
        self.joined == self.size
    }
}

/// The teams of parallel regions: which of them have all their members, and which indices the members of the
/// others have.
///
/// A step that fails when out of memory, or that answers false, leaves rosters of no use.
#[derive(Debug, Drop)]
pub struct Rosters {
    /// By parallel region the roster of each team that lacks a member.
    lacking: BTreeMap<u64, Roster>,
    /// The parallel regions whose teams lack none.
    whole: Ids,
    alloc: Global,
}

impl Rosters {
    /// Returns the rosters of no records. Takes no memory.
    pub fn new(alloc: Global) -> Rosters
        ensures { AreRostersOf [] result }
    {
        Rosters {
            lacking: BTreeMap::new(alloc),
            whole: Ids::new(alloc),
            alloc,
        }
    }

    /// Takes one more record. Returns true, only if it begins no member of a team, or one that may begin
    /// there, as `join` tells. Fails only when out of memory.
    pub fn take(&mut self, record: &Record) -> Result<bool, AllocError>
        ensures { IfOk result (λ taken. IsTrue taken → (rs : List Record) → AreRostersOf rs self.old
            → AreRostersOf (rs ++ «record».now ∷ []) self.new) }
    {
        match record.body.joined() {
            Some(member) => self.join(member.parallel, member.index, member.actual),
            None => Ok(true),
        }
    }

    /// Takes a member of the team of a parallel region. Returns true, only if the index is below the size, no
    /// member of the team so far has this index, and all have this size. Fails only when out of memory.
    pub fn join(&mut self, parallel: u64, index: u32, size: u32) -> Result<bool, AllocError>
        ensures { IfOk result (λ taken. IsTrue taken → TakesMember self.old self.new parallel index size) }
    {
        if self.whole.contains(parallel) {
            return Ok(false);
        }
        let mut roster = self.take_out(parallel, size);
        if !roster.enroll(index, size)? {
            return Ok(false);
        }
        self.keep(parallel, roster)?;
        Ok(true)
    }

    /// Returns true, only if each team has as many members as its size.
    pub fn are_whole(&self) -> bool
        ensures { IsTrue result → (rs : List Record) → AreRostersOf rs self.now
            → (i : ℕ) → IsShortRoster rs i → ⊥ }
    {
        self.lacking.is_empty()
    }

    /// Takes out the roster of a team that lacks a member. Returns one with no member, of this size, where
    /// none is kept.
    fn take_out(&mut self, parallel: u64, size: u32) -> Roster
        ensures { TakesOut self.old self.new parallel size result }
    {
        match self.lacking.remove(&parallel) {
            Some(roster) => roster,
            None => Roster::new(self.alloc, size),
        }
    }

    /// Keeps the roster of a team that is not kept: of one that lacks no member only its region.
    fn keep(&mut self, parallel: u64, roster: Roster) -> Result<(), AllocError>
        ensures { OnOk result (KeepsRoster self.old self.new parallel roster) }
    {
        if roster.is_whole() {
            self.whole.insert(parallel)?;
        } else {
            self.lacking.insert(parallel, roster)?;
        }
        Ok(())
    }
}
