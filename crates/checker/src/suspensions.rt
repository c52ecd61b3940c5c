//! Where the explicit tasks are suspended, turn by turn.
ghost use Rattle.std.specs.Prelude.{ℕ, ◌≡◌, ◌≢◌, ◌<◌, ◌≤◌, ◌^◌, ◌*◌, ◌+◌, ◌↔◌, false, List, Some, None, MatchOption, IfOk, All, length, replicate, slice_index};
ghost use Rattle.ompt_events.specs.Records.{suspended_turn};
ghost use Rattle.ompt_events.specs.Places.{at as says_at};
ghost use Rattle.task_tree.specs.Runs.{IsRun};
ghost use Rattle.task_tree.specs.Rising.{IsStartOf};
ghost use Rattle.checker.specs.Schedule.{EachAwaitsOne, Awaits};
ghost use Rattle.checker.specs.Suspensions.{IsEndOf, BeginsNoLater, HasSlot, AreRowsInOrder, HaveSlots, AreRowLengths, IsSlotBehind, HasNoSlotBehind, AreTurnEnds, AreSuspensions};

use crate::schedule::{Begin, begun_at};
use std::alloc::{AllocError, Global};
use task_tree::Run;

/// The records at which the explicit tasks are suspended, in a table: by index of the task a row with one
/// slot for each of its turns, up to the last that begins. Where no record has a turn the table is empty.
/// Where the turns of a task have no gap, the rows have no more slots than records start tasks.
#[derive(Drop)]
pub(crate) struct Suspensions {
    /// By index of the task the first slot of its row, and last the end of all rows.
    rows: Vec<usize>,
    /// By slot the place of the record at which the turn before ends, or the number of records.
    places: Vec<u32>,
}

/// The task at the index is suspended, which ends this turn.
#[derive(Clone, Copy)]
pub(crate) struct End {
    pub(crate) index: usize,
    pub(crate) turn: u32,
}

impl Suspensions {
    /// Returns the suspensions of the run.
    pub(crate) fn of(alloc: Global, run: &Run) -> Result<Suspensions, AllocError>
        requires { EachAwaitsOne run.now.records }
        ensures { IfOk result (AreSuspensions run.now.records run.now.family.tasks) }
    {
        if !tells_turns(run) {
            return Ok(Suspensions {
                rows: Vec::new(alloc),
                places: Vec::new(alloc),
            });
        }
        let rows = rows_of(alloc, run)?;
        let places = find_ends(alloc, run, &rows)?;
        Ok(Suspensions { rows, places })
    }

    /// Returns how many slots there are.
    pub(crate) fn slot_count(&self) -> usize
        ensures { result ≡ length self.now.places.items }
    {
        self.places.len()
    }

    /// Returns the slot of the turn that the task begins there.
    pub(crate) fn slot_of(&self, begin: Begin) -> usize
        requires has { HasSlot self.now.rows.items begin.index begin.turn }
        requires within { slice_index self.now.rows.items begin.index + begin.turn
            < length self.now.places.items }
        ensures { result ≡ slice_index self.now.rows.items begin.index + begin.turn }
    {
        // Makes the invariant known: a slot is a number in range. It compiles to nothing.
        let _count = self.places.len();
        self.rows[begin.index] + begin.turn as usize
    }

    /// Returns the place at which the explicit task that resumes at a place was suspended. Returns none for
    /// other tasks.
    pub(crate) fn end_before(&self, run: &Run, at: usize, begin: Begin) -> Option<usize>
        requires known { AreSuspensions run.now.records run.now.family.tasks self.now }
        requires begins { IsStartOf run.now.records run.now.family.tasks at begin.index begin.turn }
        requires later { 0 < begin.turn }
        ensures { (c : ℕ) → (result ≡ Some c) ↔ Awaits run.now.records at c }
    {
        let place = self.places[self.slot_of(begin)] as usize;
        other_place(place, run.len(), at)
    }

    /// Returns the slot of the turn after the one in which an explicit task is suspended at a place.
    pub(crate) fn slot_behind(&self, run: &Run, at: usize) -> Option<usize>
        requires within { at < length run.now.records }
        requires is_run { IsRun run.now }
        ensures { MatchOption result
            (HasNoSlotBehind run.now.records run.now.family.tasks self.now.rows.items at)
            (IsSlotBehind run.now.records run.now.family.tasks self.now.rows.items at) }
    {
        if self.rows.is_empty() {
            return None;
        }
        slot_behind(run, &self.rows, at)
    }
}

/// Returns the place, unless it is past the end or that of the record itself. A record may suspend the task
/// with which it goes on, and does not await itself.
fn other_place(place: usize, count: usize, at: usize) -> Option<usize>
    ensures { MatchOption result (place < count → place ≢ at → ⊥)
        (λ found. (found ≡ place) × (place < count) × (place ≢ at)) }
{
    if place < count && place != at {
        Some(place)
    } else {
        None
    }
}

/// Returns the turn that ends at the place because a task is suspended.
pub(crate) fn suspended_at(run: &Run, at: usize) -> Option<End>
    requires { at < length run.now.records }
    ensures { MatchOption result (says_at suspended_turn run.now.records at ≡ None)
        (λ end. IsEndOf run.now.records run.now.family.tasks at end.index end.turn) }
{
    let turn = run.suspended_turn(at)?;
    let index = run.subject(at)?;
    Some(End { index, turn })
}

/// Returns whether the first record that starts a task has turns. If it has none, no record has.
fn tells_turns(run: &Run) -> bool
    requires { EachAwaitsOne run.now.records }
    ensures { result ≡ false → BeginsNoLater run.now.records }
{
    for at in 0..run.len() {
        if run.next_turn(at).is_some() {
            return run.tells_turns(at);
        }
    }
    false
}

/// Returns by index of the task one more than the greatest turn that it begins, and 0 where it begins none.
fn row_lengths(alloc: Global, run: &Run) -> Result<Vec<u64>, AllocError>
    ensures all { IfOk result (λ lengths. length lengths.items ≡ length run.now.family.tasks) }
    ensures few { IfOk result (λ lengths. length lengths.items ≤ 2 ^ 22) }
    ensures low { IfOk result (λ lengths. All (λ n. n ≤ 2 ^ 32) lengths.items) }
    ensures lengths { IfOk result (λ lengths.
        AreRowLengths run.now.records (length run.now.records) run.now.family.tasks lengths.items) }
{
    let mut lengths = vec![in alloc; 0; run.task_count()]?;
    for at in 0..run.len() {
        note_begin(run, &mut lengths, at);
    }
    Ok(lengths)
}

/// Makes a row long enough for the turn that a task begins at a place.
fn note_begin(run: &Run, lengths: &mut Vec<u64>, at: usize)
    requires within { at < length run.now.records }
    requires is_run { IsRun run.now }
    requires all { length lengths.old.items ≡ length run.now.family.tasks }
    requires low { All (λ n. n ≤ 2 ^ 32) lengths.old.items }
    requires before { AreRowLengths run.now.records at run.now.family.tasks lengths.old.items }
    ensures all { length lengths.new.items ≡ length run.now.family.tasks }
    ensures low { All (λ n. n ≤ 2 ^ 32) lengths.new.items }
    ensures more { AreRowLengths run.now.records (at + 1) run.now.family.tasks lengths.new.items }
{
    if let Some(begin) = begun_at(run, at) {
        lengths[begin.index] = lengths[begin.index].max(u64::from(begin.turn) + 1);
    }
}

/// Returns by index of the task the first slot of its row, and last the end of all rows.
fn rows_of(alloc: Global, run: &Run) -> Result<Vec<usize>, AllocError>
    ensures some { IfOk result (λ rows. 0 < length rows.items) }
    ensures rows { IfOk result (λ rows. AreRowsInOrder rows.items) }
    ensures room { IfOk result (λ rows. HaveSlots run.now.records run.now.family.tasks rows.items) }
{
    let lengths = row_lengths(alloc, run)?;
    let mut rows = Vec::with_capacity(alloc, lengths.len() + 1)?;
    let mut end = 0usize;
    rows.push(end)?;
    for index in 0..lengths.len() {
        end += lengths[index] as usize;
        rows.push(end)?;
    }
    Ok(rows)
}

/// Returns by slot the place at which the turn before ends.
fn find_ends(alloc: Global, run: &Run, rows: &[usize]) -> Result<Vec<u32>, AllocError>
    requires some { 0 < length rows.now }
    requires rows { AreRowsInOrder rows.now }
    ensures within { IfOk result (λ places. (index : ℕ) → slice_index rows.now index ≤ length places.items) }
    ensures ends { IfOk result (λ places.
        AreTurnEnds run.now.records (length run.now.records) run.now.family.tasks rows.now places.items) }
{
    let mut places = no_ends(alloc, run, rows[rows.len() - 1])?;
    for at in 0..run.len() {
        note_end(run, rows, &mut places, at);
    }
    Ok(places)
}

/// Returns this many empty slots.
fn no_ends(alloc: Global, run: &Run, slots: usize) -> Result<Vec<u32>, AllocError>
    ensures { IfOk result (λ places. places.items ≡ replicate slots (length run.now.records)) }
{
    vec![in alloc; run.len() as u32; slots]
}

/// Fills the slot of the turn after the one that ends at a place.
fn note_end(run: &Run, rows: &[usize], places: &mut Vec<u32>, at: usize)
    requires at { at < length run.now.records }
    requires is_run { IsRun run.now }
    requires rows { AreRowsInOrder rows.now }
    requires within { (index : ℕ) → slice_index rows.now index ≤ length places.old.items }
    requires before { AreTurnEnds run.now.records at run.now.family.tasks rows.now places.old.items }
    ensures within { (index : ℕ) → slice_index rows.now index ≤ length places.new.items }
    ensures more { AreTurnEnds run.now.records (at + 1) run.now.family.tasks rows.now places.new.items }
{
    if let Some(slot) = slot_behind(run, rows, at) {
        places[slot] = at as u32;
    }
}

/// Returns the slot of the turn after the one in which an explicit task is suspended at a place.
fn slot_behind(run: &Run, rows: &[usize], at: usize) -> Option<usize>
    requires within { at < length run.now.records }
    requires is_run { IsRun run.now }
    ensures { MatchOption result (HasNoSlotBehind run.now.records run.now.family.tasks rows.now at)
        (IsSlotBehind run.now.records run.now.family.tasks rows.now at) }
{
    let end = suspended_at(run, at)?;
    if run.is_explicit(end.index) {
        slot_in(rows, end.index, end.turn as usize + 1)
    } else {
        None
    }
}

/// Returns the slot of a turn in the row of the task at an index, if it has one.
fn slot_in(rows: &[usize], index: usize, turn: usize) -> Option<usize>
    ensures { MatchOption result (HasSlot rows.now index turn → ⊥)
        (λ slot. HasSlot rows.now index turn × (slot ≡ slice_index rows.now index + turn)) }
{
    let first = *rows.get(index)?;
    let end = *rows.get(index + 1)?;
    if turn < end.saturating_sub(first) {
        Some(first + turn)
    } else {
        None
    }
}
