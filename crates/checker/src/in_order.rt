//! Whether file order is already an order of the records that shows no wrong ledger entry or length.
ghost use Rattle.std.specs.Prelude.{ℕ, ◌<◌, ◌≤◌, ◌≡◌, ◌+◌, ◌^◌, List, IsTrue, IfOk, OnOk, length, replicate};
ghost use Rattle.ompt_events.specs.declared.records.Record.{Record};
ghost use Rattle.ompt_events.specs.declared.cause.Cause.TheVariants.{EntryTwice, LengthAhead, LengthBack};
ghost use Rattle.ompt_events.specs.Places.{seen_at};
ghost use Rattle.ompt_events.specs.HappensBefore.{IsStep};
ghost use Rattle.ompt_events.specs.Causes.{IsFreeOf, known_after};
ghost use Rattle.task_tree.specs.Rising.{IsStartOf};
ghost use Rattle.checker.specs.InOrder.{AreLastSuspensions, FitsBehind};
ghost use Rattle.checker.specs.Schedule.{Awaits, EachAwaitsOne, IsAwaitedAt};
ghost use Rattle.checker.specs.Suspensions.{IsEndOf};

use crate::schedule::{Awaited, Begin, awaited_by};
use crate::suspensions::{End, suspended_at};
use std::alloc::{AllocError, Global};
use task_tree::Run;

/// The record at which a task was last suspended, and the turn that ended there.
#[derive(Clone, Copy)]
struct Suspension {
    turn: u32,
    place: u32,
}

/// Returns true only if file order is an order of the records in which each finishing record makes the next
/// entry of the ledger, and no record names more entries than are made before it, or less than was known at
/// a step before. Then this one pass replaces the searches for three causes and for an order. Most files in
/// the order of time are such. Takes memory only where turns are recorded: one entry for each task.
pub(crate) fn is_in_order(alloc: Global, run: &Run) -> Result<bool, AllocError>
    requires { EachAwaitsOne run.now.records }
    ensures steps { IfOk result (λ yes. IsTrue yes → (a b : ℕ) → IsStep run.now.records a b → a < b) }
    ensures once { IfOk result (λ yes. IsTrue yes → IsFreeOf run.now.records EntryTwice) }
    ensures reached { IfOk result (λ yes. IsTrue yes → IsFreeOf run.now.records LengthAhead) }
    ensures rise { IfOk result (λ yes. IsTrue yes → IsFreeOf run.now.records LengthBack) }
{
    let mut entries = 0u64;
    let mut known = [0u64; 256];
    let mut lasts = Vec::new(alloc);
    for at in 0..run.len() {
        let thread = usize::from(run.thread(at));
        let seen = u64::from(run.seen(at));
        let after = run.known_after(at);
        if !follows_awaited(alloc, run, &mut lasts, at)?
            || seen < known[thread]
            || !fits_behind(seen, after, entries)
        {
            return Ok(false);
        }
        known[thread] = after;
        // Only a record that makes an entry raises this.
        entries = entries.max(after);
    }
    Ok(true)
}

/// Returns whether a record with these lengths, the one that it names and the one known after it, names no
/// more entries than the records before it make, and makes the next one if it makes any.
fn fits_behind(seen: u64, after: u64, entries: u64) -> bool
    ensures { IsTrue result → (records : List Record) (at : ℕ) → seen ≡ seen_at records at
        → after ≡ known_after records at → FitsBehind records at entries }
{
    if seen < entries {
        return seen == after;
    }
    seen == entries
}

/// Returns true only if what the record at a place awaits, if anything, is before it in the file and names
/// no greater length. Notes the task that is suspended there. Inlined into the loop over all records.
#[inline(always)]
fn follows_awaited(
    alloc: Global,
    run: &Run,
    lasts: &mut Vec<Suspension>,
    at: usize,
) -> Result<bool, AllocError>
    requires within { at < length run.now.records }
    requires few { length run.now.records ≤ 2 ^ 22 }
    requires facts { EachAwaitsOne run.now.records }
    requires lasts { AreLastSuspensions run.now.records run.now.family.tasks lasts.old.items }
    ensures follows { IfOk result (λ follows. IsTrue follows → (c : ℕ) → Awaits run.now.records at c
        → (c < at) × (seen_at run.now.records c ≤ seen_at run.now.records at)) }
    ensures lasts { OnOk result (AreLastSuspensions run.now.records run.now.family.tasks lasts.new.items) }
{
    // A record that suspends a task starts another one, so it awaits something.
    let Some(awaited) = awaited_by(run, at) else {
        return Ok(true);
    };
    let follows = follows(run, lasts, at, awaited);
    note_end(alloc, run, lasts, at)?;
    Ok(follows)
}

/// Returns true only if what the record at a place awaits is before it in the file and names no greater
/// length.
fn follows(run: &Run, lasts: &[Suspension], at: usize, awaited: Awaited) -> bool
    requires within { at < length run.now.records }
    requires facts { EachAwaitsOne run.now.records }
    requires lasts { AreLastSuspensions run.now.records run.now.family.tasks lasts.now }
    requires awaited { IsAwaitedAt run.now at awaited }
    ensures { IsTrue result → (c : ℕ) → Awaits run.now.records at c
        → (c < at) × (seen_at run.now.records c ≤ seen_at run.now.records at) }
{
    match awaited {
        Awaited::Creation(index) => match run.created_at(index) {
            Some(place) => place < at && run.seen(place) <= run.seen(at),
            None => true,
        },
        Awaited::Turn(begin) => follows_end(run, lasts, at, begin),
    }
}

/// Returns whether the task that resumes at a place was last suspended in the turn before, at a record that
/// names no greater length; also true for an initial or implicit task, which was suspended on the same
/// thread.
fn follows_end(run: &Run, lasts: &[Suspension], at: usize, begin: Begin) -> bool
    requires within { at < length run.now.records }
    requires facts { EachAwaitsOne run.now.records }
    requires lasts { AreLastSuspensions run.now.records run.now.family.tasks lasts.now }
    requires begins { IsStartOf run.now.records run.now.family.tasks at begin.index begin.turn }
    requires later { 0 < begin.turn }
    ensures { IsTrue result → (c : ℕ) → Awaits run.now.records at c
        → (c < at) × (seen_at run.now.records c ≤ seen_at run.now.records at) }
{
    if !run.is_explicit(begin.index) {
        return true;
    }
    if begin.index >= lasts.len() {
        return false;
    }
    ended_before(run, lasts[begin.index], at, begin.turn)
}

/// Returns whether this is the suspension before the turn, is before the place in the file, and names no
/// greater length.
fn ended_before(run: &Run, last: Suspension, at: usize, turn: u32) -> bool
    requires within { at < length run.now.records }
    requires later { 0 < turn }
    ensures turn { IsTrue result → turn ≡ last.turn + 1 }
    ensures before { IsTrue result → last.place < at }
    ensures seen { IsTrue result → seen_at run.now.records last.place ≤ seen_at run.now.records at }
{
    let place = last.place as usize;
    last.turn == turn - 1 && place < at && run.seen(place) <= run.seen(at)
}

/// Notes the task that is suspended at a place, where turns are recorded. Inlined, since for most files
/// only the test runs.
#[inline(always)]
fn note_end(
    alloc: Global,
    run: &Run,
    lasts: &mut Vec<Suspension>,
    at: usize,
) -> Result<(), AllocError>
    requires within { at < length run.now.records }
    requires few { length run.now.records ≤ 2 ^ 22 }
    requires lasts { AreLastSuspensions run.now.records run.now.family.tasks lasts.old.items }
    ensures { OnOk result (AreLastSuspensions run.now.records run.now.family.tasks lasts.new.items) }
{
    if !run.tells_turns(at) {
        return Ok(());
    }
    match suspended_at(run, at) {
        Some(end) => keep_end(alloc, run, lasts, at, end),
        None => Ok(()),
    }
}

/// Keeps the task's suspension, and makes the table at the first one. Never inlined, as few files come
/// here.
#[inline(never)]
fn keep_end(
    alloc: Global,
    run: &Run,
    lasts: &mut Vec<Suspension>,
    at: usize,
    end: End,
) -> Result<(), AllocError>
    requires within { at < length run.now.records }
    requires few { length run.now.records ≤ 2 ^ 22 }
    requires lasts { AreLastSuspensions run.now.records run.now.family.tasks lasts.old.items }
    requires end { IsEndOf run.now.records run.now.family.tasks at end.index end.turn }
    ensures { OnOk result (AreLastSuspensions run.now.records run.now.family.tasks lasts.new.items) }
{
    make_room(alloc, run, lasts, end.index)?;
    lasts[end.index] = Suspension {
        turn: end.turn,
        place: at as u32,
    };
    Ok(())
}

/// Makes the table, unless it has the index.
fn make_room(
    alloc: Global,
    run: &Run,
    lasts: &mut Vec<Suspension>,
    index: usize,
) -> Result<(), AllocError>
    requires index { index < length run.now.family.tasks }
    requires lasts { AreLastSuspensions run.now.records run.now.family.tasks lasts.old.items }
    ensures room { OnOk result (index < length lasts.new.items) }
    ensures lasts { OnOk result (AreLastSuspensions run.now.records run.now.family.tasks lasts.new.items) }
{
    if lasts.len() <= index {
        *lasts = none_suspended(alloc, run)?;
    }
    Ok(())
}

/// Returns a table in which no task was suspended.
fn none_suspended(alloc: Global, run: &Run) -> Result<Vec<Suspension>, AllocError>
    ensures { IfOk result (λ lasts. lasts.items
        ≡ replicate (length run.now.family.tasks) (record { turn = 0; place = length run.now.records })) }
{
    let none = Suspension {
        turn: 0,
        place: run.len() as u32,
    };
    vec![in alloc; none; run.task_count()]
}
