//! Which records may be placed once one more is.
ghost use Rattle.std.specs.Prelude.{ℕ, ◌≡◌, ◌<◌, ◌≤◌, Some, IfOk, OnOk, Contains, length};
ghost use Rattle.ompt_events.specs.Causes.{entries_in};
ghost use Rattle.checker.specs.Schedule.{Awaits};
ghost use Rattle.checker.specs.Merge.{IsFront, MayStandNext, AreMore, AreWaiting, named_length};

use crate::front::Front;
use crate::lists::{Lists, key_behind, lists_of_keys, lists_of_lengths};
use crate::makers::Makers;
use crate::queue::Queue;
use std::alloc::{AllocError, Global};

/// Lists of the records that await each record, and of those that name each ledger length.
#[derive(Drop)]
pub(crate) struct Waiting {
    by_key: Lists,
    by_length: Lists,
}

/// The record that was placed last.
#[derive(Clone, Copy)]
pub(crate) struct Placed {
    /// Its place.
    pub(crate) place: usize,
    /// The place of the next record of its thread, or the number of records.
    pub(crate) next: usize,
    /// The ledger length that was reached before it was placed.
    pub(crate) was_low: usize,
}

impl Waiting {
    /// Returns the lists of all records.
    pub(crate) fn of(alloc: Global, makers: &Makers) -> Result<Waiting, AllocError>
        ensures { IfOk result (AreWaiting makers.now.run.records makers.now.run.family.tasks
            makers.now.suspensions) }
    {
        Ok(Waiting {
            by_key: lists_of_keys(alloc, makers.run(), makers.suspensions())?,
            by_length: lists_of_lengths(alloc, makers)?,
        })
    }

    /// Adds to the queue what may be placed next since the given record is placed: the next one of its
    /// thread, the records that await it, and those that name a ledger length that is reached since then.
    pub(crate) fn release(
        &self,
        front: &Front,
        ready: &mut Queue,
        placed: Placed,
    ) -> Result<(), AllocError>
        requires front { IsFront front.now.run.now.records front.now.run.now.family front.now.suspensions.now
            front.now.placed.now front.now.heads.now front.now.low }
        requires waiting { AreWaiting front.now.run.now.records front.now.run.now.family.tasks
            front.now.suspensions.now self.now }
        requires within { placed.place < length front.now.run.now.records }
        requires low { front.now.low ≤ entries_in front.now.run.now.records }
        requires was_low { placed.was_low ≤ front.now.low }
        ensures more { OnOk result (AreMore front.now.run.now.records front.now.placed.now ready.old ready.new) }
        ensures next { OnOk result (MayStandNext front.now.run.now.records front.now.placed.now placed.next
            → Contains ready.new placed.next) }
        ensures awaiting { OnOk result ((i : ℕ) → Awaits front.now.run.now.records i placed.place
            → MayStandNext front.now.run.now.records front.now.placed.now i → Contains ready.new i) }
        ensures naming { OnOk result ((i k : ℕ) → placed.was_low < k → k ≤ front.now.low
            → named_length front.now.run.now.records i ≡ Some k
            → MayStandNext front.now.run.now.records front.now.placed.now i → Contains ready.new i) }
    {
        front.offer(ready, placed.next)?;
        self.offer_awaiting(front, ready, placed.place)?;
        front.offer_lists(ready, &self.by_length, placed.was_low + 1, front.low + 1)?;
        Ok(())
    }

    /// Adds those that await the record at a place.
    fn offer_awaiting(
        &self,
        front: &Front,
        ready: &mut Queue,
        place: usize,
    ) -> Result<(), AllocError>
        requires front { IsFront front.now.run.now.records front.now.run.now.family front.now.suspensions.now
            front.now.placed.now front.now.heads.now front.now.low }
        requires waiting { AreWaiting front.now.run.now.records front.now.run.now.family.tasks
            front.now.suspensions.now self.now }
        requires within { place < length front.now.run.now.records }
        ensures more { OnOk result (AreMore front.now.run.now.records front.now.placed.now ready.old ready.new) }
        ensures awaiting { OnOk result ((i : ℕ) → Awaits front.now.run.now.records i place
            → MayStandNext front.now.run.now.records front.now.placed.now i → Contains ready.new i) }
    {
        match key_behind(front.run, front.suspensions, place) {
            Some(key) => front.offer_list(ready, &self.by_key, key),
            None => Ok(()),
        }
    }
}
