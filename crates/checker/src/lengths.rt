//! Whether the ledger lengths that records name never fall, along each thread and from what each record
//! awaits.
ghost use Rattle.std.specs.Prelude.{◌≡◌, ◌<◌, ◌+◌, ◌↔◌, false, IfOk, IsTrue, length, replicate};
ghost use Rattle.ompt_events.specs.declared.cause.Cause.TheVariants.{LengthBack};
ghost use Rattle.ompt_events.specs.Causes.{IsBehind};
ghost use Rattle.ompt_events.specs.Faults.{FindsFirst};
ghost use Rattle.ompt_events.specs.Shown.{AreAllWith};
ghost use Rattle.checker.specs.Lengths.{AreKnownLengths, ArePassed, AreStarted, FallsOnThread, PrecedesAwaited, StartsAgain};
ghost use Rattle.checker.specs.Suspensions.{AreSuspensions};

use crate::makers::Makers;
use crate::schedule::{awaited_at, first_started};
use crate::suspensions::Suspensions;
use ompt_events::Shown;
use std::alloc::{AllocError, Global};
use task_tree::Run;

/// Returns the first record that names a lesser length than was known at a step before: at an earlier
/// record of its thread, or at the record that it awaits. Takes no heap memory.
pub(crate) fn find_back(makers: &Makers) -> Option<usize>
    ensures { FindsFirst makers.now.run.records LengthBack result }
{
    let run = makers.run();
    let suspensions = makers.suspensions();
    let mut known = [0u64; 256];
    for at in 0..run.len() {
        let thread = usize::from(run.thread(at));
        let seen = u64::from(run.seen(at));
        let after = run.known_after(at);
        if precedes_awaited(run, suspensions, at) || seen < known[thread] {
            return Some(at);
        }
        known[thread] = after;
    }
    None
}

/// Returns whether the record at a place names a lesser length than the one that it awaits.
fn precedes_awaited(run: &Run, suspensions: &Suspensions, at: usize) -> bool
    requires within { at < length run.now.records }
    requires known { AreSuspensions run.now.records run.now.family.tasks suspensions.now }
    ensures { IsTrue result ↔ PrecedesAwaited run.now.records at }
{
    match awaited_at(run, suspensions, at) {
        Some(place) => run.seen(at) < run.seen(place),
        None => false,
    }
}

/// What the records so far leave behind.
#[derive(Drop)]
struct Passed {
    /// By thread the greatest length that is known after one of its records.
    known: [u64; 256],
    /// By index of the task whether a record begins its turn 0.
    started: Vec<bool>,
}

/// Returns all records that name a lesser length than was known at a step before. Up to the first of them the
/// last length of each thread is the greatest. This search goes on, so it keeps the greatest. Fails only when
/// out of memory. Memory is linear in the tasks.
pub(crate) fn lengths_back(alloc: Global, makers: &Makers) -> Result<Shown, AllocError>
    ensures { IfOk result (AreAllWith makers.now.run.records LengthBack) }
{
    let run = makers.run();
    let suspensions = makers.suspensions();
    let mut passed = Passed {
        known: [0u64; 256],
        started: none_started(alloc, run.task_count())?,
    };
    let mut shown = Shown::none(alloc);
    for at in 0..run.len() {
        shown.note(at, is_behind(run, suspensions, &mut passed, at))?;
    }
    Ok(shown)
}

/// Returns for each task that no record begins its turn 0 so far.
fn none_started(alloc: Global, tasks: usize) -> Result<Vec<bool>, AllocError>
    ensures { IfOk result (λ started. started.items ≡ replicate tasks false) }
{
    vec![in alloc; false; tasks]
}

/// Returns whether the record at a place names a lesser length than was known at a step before. Notes what
/// it leaves behind.
fn is_behind(run: &Run, suspensions: &Suspensions, passed: &mut Passed, at: usize) -> bool
    requires within { at < length run.now.records }
    requires known { AreSuspensions run.now.records run.now.family.tasks suspensions.now }
    requires passed { ArePassed run.now.records at run.now.family.tasks passed.old }
    ensures behind { IsTrue result ↔ IsBehind run.now.records at }
    ensures passed { ArePassed run.now.records (at + 1) run.now.family.tasks passed.new }
{
    let again = starts_again(run, &mut passed.started, at);
    let falls = falls_on_thread(run, &mut passed.known, at);
    if falls {
        return true;
    }
    if again {
        return false;
    }
    precedes_awaited(run, suspensions, at)
}

/// Returns whether the record at a place begins turn 0 of a task, and an earlier record does too: then no
/// step leads to it from the task's creation. Notes that the turn has begun.
fn starts_again(run: &Run, started: &mut Vec<bool>, at: usize) -> bool
    requires within { at < length run.now.records }
    requires started { AreStarted run.now.records at run.now.family.tasks started.old.items }
    ensures again { IsTrue result ↔ StartsAgain run.now.records at }
    ensures started { AreStarted run.now.records (at + 1) run.now.family.tasks started.new.items }
{
    let _tasks = run.task_count();
    let Some(index) = first_started(run, at) else {
        return false;
    };
    let again = started[index];
    started[index] = true;
    again
}

/// Returns whether the record at a place names a lesser length than was known after an earlier one of its
/// thread. Notes what is known after it.
fn falls_on_thread(run: &Run, known: &mut [u64; 256], at: usize) -> bool
    requires within { at < length run.now.records }
    requires known { AreKnownLengths run.now.records at known.old }
    ensures falls { IsTrue result ↔ FallsOnThread run.now.records at }
    ensures known { AreKnownLengths run.now.records (at + 1) known.new }
{
    let thread = usize::from(run.thread(at));
    let before = known[thread];
    known[thread] = before.max(run.known_after(at));
    u64::from(run.seen(at)) < before
}
