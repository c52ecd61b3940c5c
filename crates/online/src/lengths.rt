//! The ledger lengths that records name, taken one after another.
ghost use Rattle.std.specs.Prelude.{◌≡◌, ◌<◌, ◌≤◌, ◌+◌, ◌^◌, ◌++◌, ◌∷◌, [], List, IfOk, OnOk, IsTrue};
ghost use Rattle.ompt_events.specs.declared.records.Record.{Record};
ghost use Rattle.ompt_events.specs.Records.{made, fulfilled, suspended};
ghost use Rattle.callbacks.specs.Logs.{known_from};
ghost use Rattle.online.specs.Lengths.{IsLengthsOf, MayFollow, NamesLength, NamesEntry, IsAdvancedBy};
ghost use Rattle.online.specs.Lengths.{ReachesTasks, ReachesNext, ReachesAny, ReachesCreation};
ghost use Rattle.online.specs.Lengths.{ReachesSuspensions, AddsSuspension, AddsMade};

use ompt_events::{Body, Record, Status, finish};
use std::alloc::{AllocError, Global};
use std::collections::HashMap;

/// Thread numbers are below this.
const THREADS: usize = 256;

/// The ledger lengths that are known after records of a task.
#[derive(Clone, Copy, Debug)]
struct Known {
    /// The length after the record that makes the task.
    created: u32,
    /// The greatest length after a record that suspends it; 0 if none does.
    suspended: u32,
}

/// How many entries the ledger has after the records so far, and which lengths of it are known: on each
/// thread, and after the creation and the suspensions of each task that is kept.
///
/// A step that fails when out of memory, or that answers false, leaves lengths that are of no use.
#[derive(Debug, Drop)]
pub struct Lengths {
    entries: u32,
    /// By thread the greatest length after a record of it.
    threads: Vec<u32>,
    tasks: HashMap<u64, Known>,
}

impl Lengths {
    /// Returns the lengths of no records. Fails only when out of memory.
    pub fn new(alloc: Global) -> Result<Lengths, AllocError>
        ensures { IfOk result (IsLengthsOf []) }
    {
        let mut threads = Vec::with_capacity(alloc, THREADS)?;
        for _thread in 0..THREADS {
            threads.push(0)?;
        }
        Ok(Lengths {
            entries: 0,
            threads,
            tasks: HashMap::new(alloc),
        })
    }

    /// Takes one more record, and returns true, only if it names no more entries than there are, the next
    /// one if it finishes a task or a part of one, and no length less than one known at a step before. A task
    /// that it starts, resumes, suspends, discards or fulfils must be kept; a task that it makes is kept from
    /// here on. Fails only when out of memory.
    pub fn take(&mut self, record: &Record) -> Result<bool, AllocError>
        ensures { IfOk result (λ taken. IsTrue taken → (rs : List Record) → MayFollow rs «record».now
            → IsLengthsOf rs self.old
            → NamesLength rs «record».now × IsLengthsOf (rs ++ «record».now ∷ []) self.new) }
    {
        if self.entries == u32::MAX || !self.names_entry(record) {
            return Ok(false);
        }
        if !reaches_tasks(&self.tasks, &record.body, record.seen) {
            return Ok(false);
        }
        let known = known_after(record);
        if !self.advance(record.thread, record.seen, known) {
            return Ok(false);
        }
        if !add_suspension(&mut self.tasks, &record.body, known) {
            return Ok(false);
        }
        add_made(&mut self.tasks, &record.body, known)?;
        Ok(true)
    }

    /// Takes the task out of those that are kept.
    pub fn forget(&mut self, task: u64)
        ensures { (rs : List Record) → IsLengthsOf rs self.old → IsLengthsOf rs self.new }
    {
        self.tasks.remove(&task);
    }

    /// Returns whether the record names the number of entries if it makes one, and no more.
    fn names_entry(&self, record: &Record) -> bool
        ensures { IsTrue result → NamesEntry self.now.entries «record».now }
    {
        if finish(record).is_some() {
            record.seen == self.entries
        } else {
            record.seen <= self.entries
        }
    }

    /// Goes on with the thread behind a record that names the length `seen`, after which the length `known`
    /// is known. Returns false where a length greater than `seen` was known there before, or where there is
    /// no such thread.
    fn advance(&mut self, thread: u8, seen: u32, known: u32) -> bool
        requires { (seen ≤ known) × (known ≤ seen + 1) × (self.old.entries + 1 < 2 ^ 32) }
        ensures { IsTrue result → IsAdvancedBy self.old self.new thread seen known }
    {
        let Some(length) = self.threads.get_mut(usize::from(thread)) else {
            return false;
        };
        if *length > seen {
            return false;
        }
        *length = known;
        self.entries += known - seen;
        true
    }
}

/// Returns the length that is known after the record.
fn known_after(record: &Record) -> u32
    requires { «record».now.seen + 1 < 2 ^ 32 }
    ensures { result ≡ known_from «record».now.seen «record».now.body }
{
    if finish(record).is_some() {
        record.seen + 1
    } else {
        record.seen
    }
}

/// Returns whether the length is not less than those known after the creation of a task that a record with
/// this body starts, discards or fulfils, and after the suspensions of one that it resumes. These tasks must
/// be kept.
fn reaches_tasks(tasks: &HashMap<u64, Known>, body: &Body, seen: u32) -> bool
    ensures { IsTrue result → ReachesTasks tasks.now body.now seen }
{
    reaches_next(tasks, body, seen)
        && reaches_any(tasks, body.discarded(), seen)
        && reaches_any(tasks, fulfilled(body), seen)
}

/// Returns whether it is so with the task that runs next.
fn reaches_next(tasks: &HashMap<u64, Known>, body: &Body, seen: u32) -> bool
    ensures { IsTrue result → ReachesNext tasks.now body.now seen }
{
    let Some((task, turn)) = body.begun_turn() else {
        return true;
    };
    if turn == 0 {
        reaches_creation(tasks, task, seen)
    } else {
        reaches_suspensions(tasks, task, seen)
    }
}

/// Returns whether it is so with the creation of the task, if there is one.
fn reaches_any(tasks: &HashMap<u64, Known>, task: Option<u64>, seen: u32) -> bool
    ensures { IsTrue result → ReachesAny tasks.now task seen }
{
    match task {
        Some(task) => reaches_creation(tasks, task, seen),
        None => true,
    }
}

/// Returns whether the task is kept, and the length is not less than that known after its creation.
fn reaches_creation(tasks: &HashMap<u64, Known>, task: u64, seen: u32) -> bool
    ensures { IsTrue result → ReachesCreation tasks.now task seen }
{
    match tasks.get(&task) {
        Some(known) => known.created <= seen,
        None => false,
    }
}

/// Returns whether the task is kept, and the length is not less than those known after its suspensions.
fn reaches_suspensions(tasks: &HashMap<u64, Known>, task: u64, seen: u32) -> bool
    ensures { IsTrue result → ReachesSuspensions tasks.now task seen }
{
    match tasks.get(&task) {
        Some(known) => known.suspended <= seen,
        None => false,
    }
}

/// Notes the length that is known after a record with this body, of the task that it suspends, if it suspends
/// one. Returns false where that task is not kept.
fn add_suspension(tasks: &mut HashMap<u64, Known>, body: &Body, length: u32) -> bool
    ensures { IsTrue result → AddsSuspension tasks.old tasks.new (suspended body.now) length }
{
    let Some((task, _)) = body.suspended_turn() else {
        return true;
    };
    let Some(known) = tasks.get_mut(&task) else {
        return false;
    };
    known.suspended = known.suspended.max(length);
    true
}

/// Keeps the task that a record with this body makes, if it makes one. This length is known after the record.
fn add_made(tasks: &mut HashMap<u64, Known>, body: &Body, length: u32) -> Result<(), AllocError>
    ensures { OnOk result (AddsMade tasks.old tasks.new (made body.now) length) }
{
    if let Some(task) = body.made() {
        let known = Known {
            created: length,
            suspended: 0,
        };
        tasks.insert(task, known)?;
    }
    Ok(())
}

/// Returns the task whose event is fulfilled.
fn fulfilled(body: &Body) -> Option<u64>
    ensures { result ≡ fulfilled body.now }
{
    match body {
        Body::TaskSchedule {
            status: Status::EarlyFulfill | Status::LateFulfill,
            prior,
            ..
        } => Some(*prior),
        _ => None,
    }
}
