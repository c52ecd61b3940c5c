//! Places of records in linked lists: those of one thread, those that await one record, and those that name
//! one ledger length.
ghost use Rattle.std.specs.Prelude.{ℕ, ◌≡◌, ◌<◌, ◌≤◌, ◌^◌, ◌+◌, Option, Some, IfOk, IfSome, length};
ghost use Rattle.ompt_events.specs.Places.{thread_at};
ghost use Rattle.checker.specs.Lists.{AreLists, LeadsOn};
ghost use Rattle.checker.specs.Merge.{key_of, named_length};
ghost use Rattle.checker.specs.Schedule.{Awaits};
ghost use Rattle.checker.specs.Suspensions.{AreSuspensions};

use crate::makers::Makers;
use crate::schedule::{Awaited, awaited_by};
use crate::suspensions::Suspensions;
use std::alloc::{AllocError, Global};
use task_tree::Run;

/// Places in linked lists, one list for each key: the first place of each list, and by place the next one
/// of its list. The number of places means none.
#[derive(Drop)]
pub(crate) struct Lists {
    pub(crate) firsts: Vec<u32>,
    pub(crate) nexts: Vec<u32>,
}

impl Lists {
    /// Returns lists that are empty, for this many keys, with room for this many places.
    fn new(alloc: Global, keys: usize, places: usize) -> Result<Lists, AllocError>
        requires { places ≤ 2 ^ 22 }
        ensures lists { IfOk result (λ lists. (key : ℕ → Option ℕ)
            → AreLists key places places lists.firsts.items lists.nexts.items) }
        ensures keys { IfOk result (λ lists. length lists.firsts.items ≡ keys) }
        ensures rising { IfOk result (λ lists. LeadsOn places lists.nexts.items) }
    {
        let end = places as u32;
        Ok(Lists {
            firsts: vec![in alloc; end; keys]?,
            nexts: vec![in alloc; end; places]?,
        })
    }

    /// Puts the place at the front of the list of its key, ahead of the later ones.
    fn put_first(&mut self, key: usize, place: usize)
        requires few { length self.old.nexts.items ≤ 2 ^ 22 }
        requires within { place < length self.old.nexts.items }
        requires key { key < length self.old.firsts.items }
        ensures lists { (of : ℕ → Option ℕ) (n : ℕ) → of place ≡ Some key → LeadsOn n self.old.nexts.items
            → AreLists of n (place + 1) self.old.firsts.items self.old.nexts.items
            → AreLists of n place self.new.firsts.items self.new.nexts.items
            × LeadsOn n self.new.nexts.items }
        ensures keys { length self.new.firsts.items ≡ length self.old.firsts.items }
    {
        self.nexts[place] = self.firsts[key];
        self.firsts[key] = place as u32;
    }
}

/// Returns the lists of the records of each thread.
pub(crate) fn lists_of_threads(alloc: Global, run: &Run) -> Result<Lists, AllocError>
    ensures lists { IfOk result (λ lists. AreLists (thread_at run.now.records) (length run.now.records) 0
        lists.firsts.items lists.nexts.items) }
    ensures keys { IfOk result (λ lists. (i thread : ℕ) → thread_at run.now.records i ≡ Some thread
        → thread < length lists.firsts.items) }
    ensures rising { IfOk result (λ lists. LeadsOn (length run.now.records) lists.nexts.items) }
{
    let count = run.len();
    let mut lists = Lists::new(alloc, usize::from(last_thread(run)) + 1, count)?;
    for step in 0..count {
        let at = count - 1 - step;
        lists.put_first(usize::from(run.thread(at)), at);
    }
    Ok(lists)
}

/// Returns the greatest thread number.
fn last_thread(run: &Run) -> u8
    ensures { (i thread : ℕ) → thread_at run.now.records i ≡ Some thread → thread ≤ result }
{
    let mut last = 0;
    for at in 0..run.len() {
        last = run.thread(at).max(last);
    }
    last
}

/// Returns the lists of the records that await others, by key.
pub(crate) fn lists_of_keys(
    alloc: Global,
    run: &Run,
    suspensions: &Suspensions,
) -> Result<Lists, AllocError>
    requires { AreSuspensions run.now.records run.now.family.tasks suspensions.now }
    ensures lists { IfOk result (λ lists. AreLists
        (key_of run.now.family.tasks run.now.records suspensions.now.rows.items)
        (length run.now.records) 0 lists.firsts.items lists.nexts.items) }
    ensures keys { IfOk result (λ lists. length lists.firsts.items
        ≡ length run.now.family.tasks + length suspensions.now.places.items) }
    ensures rising { IfOk result (λ lists. LeadsOn (length run.now.records) lists.nexts.items) }
{
    let count = run.len();
    let keys = run.task_count() + suspensions.slot_count();
    let mut lists = Lists::new(alloc, keys, count)?;
    for step in 0..count {
        let at = count - 1 - step;
        if let Some(key) = key_at(run, suspensions, at) {
            lists.put_first(key, at);
        }
    }
    Ok(lists)
}

/// Returns the key of the list that has the record at a place: the index of the task whose creation it
/// awaits, or, after the indices of all tasks, the slot of the turn that a task begins there.
fn key_at(run: &Run, suspensions: &Suspensions, at: usize) -> Option<usize>
    requires within { at < length run.now.records }
    requires known { AreSuspensions run.now.records run.now.family.tasks suspensions.now }
    ensures key { result ≡ key_of run.now.family.tasks run.now.records suspensions.now.rows.items at }
    ensures low { IfSome result (λ key. key
        < length run.now.family.tasks + length suspensions.now.places.items) }
{
    let tasks = run.task_count();
    match awaited_by(run, at)? {
        Awaited::Creation(index) => Some(index),
        Awaited::Turn(begin) => Some(tasks + suspensions.slot_of(begin)),
    }
}

/// Returns the key of the records that await the one at a place, if that creates a task, or if an explicit
/// task is suspended there.
pub(crate) fn key_behind(run: &Run, suspensions: &Suspensions, at: usize) -> Option<usize>
    requires within { at < length run.now.records }
    requires known { AreSuspensions run.now.records run.now.family.tasks suspensions.now }
    ensures key { (i : ℕ) → Awaits run.now.records i at → (key : ℕ) × (result ≡ Some key)
        × (key_of run.now.family.tasks run.now.records suspensions.now.rows.items i ≡ Some key) }
    ensures low { IfSome result (λ key. key
        < length run.now.family.tasks + length suspensions.now.places.items) }
{
    let tasks = run.task_count();
    if let Some(index) = run.created(at) {
        return Some(index);
    }
    let slot = suspensions.slot_behind(run, at)?;
    Some(tasks + slot)
}

/// Returns the lists of the records that name each length of the ledger.
pub(crate) fn lists_of_lengths(alloc: Global, makers: &Makers) -> Result<Lists, AllocError>
    ensures lists { IfOk result (λ lists. AreLists (named_length makers.now.run.records)
        (length makers.now.run.records) 0 lists.firsts.items lists.nexts.items) }
    ensures keys { IfOk result (λ lists. length lists.firsts.items ≡ length makers.now.places + 1) }
    ensures rising { IfOk result (λ lists. LeadsOn (length makers.now.run.records) lists.nexts.items) }
{
    let run = makers.run();
    let count = run.len();
    let mut lists = Lists::new(alloc, makers.places().len() + 1, count)?;
    for step in 0..count {
        let at = count - 1 - step;
        lists.put_first(run.seen(at) as usize, at);
    }
    Ok(lists)
}
