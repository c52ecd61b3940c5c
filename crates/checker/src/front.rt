//! Which records may be placed next in the order.
ghost use Rattle.std.specs.Prelude.{ℕ, ◌≡◌, ◌<◌, ◌≤◌, ◌↔◌, List, Option, Some, IsTrue, OnOk, IfNone, IfSome, Contains, length, slice_index};
ghost use Rattle.ompt_events.specs.declared.records.Record.{Record};
ghost use Rattle.ompt_events.specs.Places.{thread_at};
ghost use Rattle.checker.specs.Lists.{AreLists, LeadsOn};
ghost use Rattle.checker.specs.Schedule.{Awaits};
ghost use Rattle.checker.specs.Suspensions.{AreSuspensions};
ghost use Rattle.checker.specs.Merge.{Stands, MayStandNext, IsFront, IsReadyHead, AreOffered, AreMore, IsPlaceTaken};

use crate::lists::Lists;
use crate::queue::Queue;
use crate::schedule::awaited_at;
use crate::suspensions::Suspensions;
use std::alloc::AllocError;
use task_tree::Run;

/// How far the records are ordered: which are placed, the first one of each thread that is not, and the
/// ledger length that is reached.
#[derive(Clone, Copy)]
pub(crate) struct Front<'a, 'r> {
    pub(crate) run: &'a Run<'r>,
    pub(crate) suspensions: &'a Suspensions,
    pub(crate) placed: &'a [bool],
    pub(crate) heads: &'a [u32],
    pub(crate) low: usize,
}

impl Front<'_, '_> {
    /// Adds to the queue the record of each thread that may be placed next.
    pub(crate) fn offer_heads(&self, ready: &mut Queue) -> Result<(), AllocError>
        requires front { IsFront self.now.run.now.records self.now.run.now.family self.now.suspensions.now
            self.now.placed.now self.now.heads.now self.now.low }
        ensures more { OnOk result (AreMore self.now.run.now.records self.now.placed.now ready.old ready.new) }
        ensures all { OnOk result ((i : ℕ) → MayStandNext self.now.run.now.records self.now.placed.now i
            → Contains ready.new i) }
    {
        for head in self.heads {
            self.offer(ready, *head as usize)?;
        }
        Ok(())
    }

    /// Adds the record to the queue if it may be placed next. Inlined into the merge: of the records that
    /// are offered two in five may not.
    #[inline(always)]
    pub(crate) fn offer(&self, ready: &mut Queue, place: usize) -> Result<(), AllocError>
        requires front { IsFront self.now.run.now.records self.now.run.now.family self.now.suspensions.now
            self.now.placed.now self.now.heads.now self.now.low }
        ensures more { OnOk result (AreMore self.now.run.now.records self.now.placed.now ready.old ready.new) }
        ensures offered { OnOk result (MayStandNext self.now.run.now.records self.now.placed.now place
            → Contains ready.new place) }
    {
        if place < self.run.len() && self.may_follow(place) {
            ready.put(place)?;
        }
        Ok(())
    }

    /// Offers each record of one list.
    pub(crate) fn offer_list(
        &self,
        ready: &mut Queue,
        lists: &Lists,
        key: usize,
    ) -> Result<(), AllocError>
        requires front { IsFront self.now.run.now.records self.now.run.now.family self.now.suspensions.now
            self.now.placed.now self.now.heads.now self.now.low }
        requires key { key < length lists.now.firsts.items }
        requires rising { LeadsOn (length self.now.run.now.records) lists.now.nexts.items }
        ensures more { OnOk result (AreMore self.now.run.now.records self.now.placed.now ready.old ready.new) }
        ensures offered { OnOk result ((of : ℕ → Option ℕ)
            → AreLists of (length self.now.run.now.records) 0 lists.now.firsts.items lists.now.nexts.items
            → (i : ℕ) → of i ≡ Some key → MayStandNext self.now.run.now.records self.now.placed.now i
            → Contains ready.new i) }
    {
        let mut place = lists.firsts[key] as usize;
        'list: while place < self.run.len() {
            self.offer(ready, place)?;
            place = lists.nexts[place] as usize;
        }
        Ok(())
    }

    /// Offers each record of the lists from one key on and below another.
    pub(crate) fn offer_lists(
        &self,
        ready: &mut Queue,
        lists: &Lists,
        from: usize,
        to: usize,
    ) -> Result<(), AllocError>
        requires front { IsFront self.now.run.now.records self.now.run.now.family self.now.suspensions.now
            self.now.placed.now self.now.heads.now self.now.low }
        requires keys { to ≤ length lists.now.firsts.items }
        requires rising { LeadsOn (length self.now.run.now.records) lists.now.nexts.items }
        ensures more { OnOk result (AreMore self.now.run.now.records self.now.placed.now ready.old ready.new) }
        ensures offered { OnOk result ((of : ℕ → Option ℕ)
            → AreLists of (length self.now.run.now.records) 0 lists.now.firsts.items lists.now.nexts.items
            → (i key : ℕ) → from ≤ key → key < to → of i ≡ Some key
            → MayStandNext self.now.run.now.records self.now.placed.now i → Contains ready.new i) }
    {
        for key in from..to {
            self.offer_list(ready, lists, key)?;
        }
        Ok(())
    }

    /// Returns whether the record at a place may be placed next: it is the first of its thread that is not
    /// placed, the one that it awaits is placed, and the ledger length that it names is reached.
    fn may_follow(&self, place: usize) -> bool
        requires within { place < length self.now.run.now.records }
        requires front { IsFront self.now.run.now.records self.now.run.now.family self.now.suspensions.now
            self.now.placed.now self.now.heads.now self.now.low }
        ensures { IsTrue result ↔ MayStandNext self.now.run.now.records self.now.placed.now place }
    {
        self.is_head(place) && self.is_ready(place)
    }

    /// Returns whether the record at a place is the first of its thread that is not placed.
    fn is_head(&self, place: usize) -> bool
        requires within { place < length self.now.run.now.records }
        requires heads { (i thread : ℕ) → thread_at self.now.run.now.records i ≡ Some thread
            → thread < length self.now.heads.now }
        ensures { (thread : ℕ) → thread_at self.now.run.now.records place ≡ Some thread
            → IsTrue result ↔ (slice_index self.now.heads.now thread ≡ place) }
    {
        self.heads[usize::from(self.run.thread(place))] as usize == place
    }

    /// Returns whether the record that this one awaits is placed, and the ledger length that it names is
    /// reached.
    fn is_ready(&self, place: usize) -> bool
        requires within { place < length self.now.run.now.records }
        requires known { AreSuspensions self.now.run.now.records self.now.run.now.family.tasks
            self.now.suspensions.now }
        ensures { IsTrue result ↔ IsReadyHead self.now.run.now.records self.now.placed.now self.now.low place }
    {
        self.run.seen(place) as usize <= self.low && self.is_let(place)
    }

    /// Returns whether the record that this one awaits, if any, is placed.
    fn is_let(&self, place: usize) -> bool
        requires within { place < length self.now.run.now.records }
        requires known { AreSuspensions self.now.run.now.records self.now.run.now.family.tasks
            self.now.suspensions.now }
        ensures { IsTrue result
            ↔ ((c : ℕ) → Awaits self.now.run.now.records place c → Stands self.now.placed.now c) }
    {
        match awaited_at(self.run, self.suspensions, place) {
            Some(awaited) => stands(self.placed, awaited),
            None => true,
        }
    }
}

/// Takes the first record in file order that may be placed next, and returns it.
pub(crate) fn take_first(ready: &mut Queue, placed: &[bool]) -> Option<usize>
    ensures none { IfNone result ((records : List Record) → AreOffered records placed.now ready.old → (i : ℕ)
        → MayStandNext records placed.now i → ⊥) }
    ensures taken { IfSome result (λ place. (records : List Record)
        → AreOffered records placed.now ready.old → IsPlaceTaken records placed.now place ready.new) }
{
    'ready: while let Some(place) = ready.take() {
        if !stands(placed, place) {
            return Some(place);
        }
    }
    None
}

/// Returns whether the record is placed.
pub(crate) fn stands(placed: &[bool], place: usize) -> bool
    ensures { IsTrue result ↔ Stands placed.now place }
{
    place < placed.len() && placed[place]
}
