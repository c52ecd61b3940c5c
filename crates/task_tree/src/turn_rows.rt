//! Which turns of which tasks begin, in a row of slots for each task.
//!
//! A task that runs next n times has n + 1 slots. If no record has a gap, each turn that it begins has a
//! slot: turns begin once each, and none is left out.
ghost use Rattle.std.specs.Prelude.{ℕ, ◌≡◌, ◌<◌, ◌≤◌, ◌+◌, ◌^◌, false, List, Some, IfOk, IfSome, IsTrue, length, replicate, slice_get, sum};
ghost use Rattle.ompt_events.specs.declared.records.Record.{Record};
ghost use Rattle.ompt_events.specs.Records.{begun_turn};
ghost use Rattle.ompt_events.specs.Places.{at};
ghost use Rattle.task_tree.specs.Family.{IsFamilyOf};
ghost use Rattle.task_tree.specs.TurnRows.{AreOffsetsRising, AreOffsetsWithin, IsSlot, AreTurnRows, AreMarkedUpTo, BeginsAnew};

use crate::family::Family;
use crate::rising::{Begin, start_at};
use packed_trace::PackedTrace;
use std::alloc::{AllocError, Global};

/// The rows of all tasks.
#[derive(Drop)]
pub(crate) struct TurnRows {
    /// By index of the task where its row begins, and after the last one where that ends.
    offsets: Vec<usize>,
    /// By slot whether the turn begins.
    begun: Vec<bool>,
}

/// Returns the turns that begin, none if one has no slot or begins twice.
pub(crate) fn find_rows(
    alloc: Global,
    trace: &PackedTrace,
    family: &Family,
) -> Result<Option<TurnRows>, AllocError>
    requires { IsFamilyOf trace.now.records family.now }
    ensures { IfOk result (λ found. IfSome found (λ rows.
        AreTurnRows trace.now.records family.now.tasks rows.offsets.items rows.begun.items)) }
{
    let counts = count_starts(alloc, trace, family)?;
    let offsets = find_offsets(alloc, counts.as_slice())?;
    let mut begun = none_begun(alloc, offsets[counts.len()])?;
    if begin_once(trace, family, offsets.as_slice(), begun.as_mut_slice()) {
        Ok(Some(TurnRows { offsets, begun }))
    } else {
        Ok(None)
    }
}

/// Returns by index of the task how many records say that it runs next.
fn count_starts(
    alloc: Global,
    trace: &PackedTrace,
    family: &Family,
) -> Result<Vec<usize>, AllocError>
    requires { IsFamilyOf trace.now.records family.now }
    ensures all { IfOk result (λ counts. length counts.items ≡ length family.now.tasks) }
    ensures few { IfOk result (λ counts. sum counts.items ≤ length trace.now.records) }
    ensures short { IfOk result (λ _. length trace.now.records ≤ 2 ^ 22) }
{
    let mut counts = no_counts(alloc, family.tasks().as_slice().len())?;
    for at in 0..trace.len() {
        count_start(trace, family, at, &mut counts);
    }
    Ok(counts)
}

/// Counts the task that runs next at a place, if one does.
fn count_start(trace: &PackedTrace, family: &Family, at: usize, counts: &mut Vec<usize>)
    requires within { at < length trace.now.records }
    requires short { length trace.now.records ≤ 2 ^ 22 }
    requires family { IsFamilyOf trace.now.records family.now }
    requires all { length counts.old.items ≡ length family.now.tasks }
    requires few { sum counts.old.items ≤ at }
    ensures all { length counts.new.items ≡ length family.now.tasks }
    ensures few { sum counts.new.items ≤ at + 1 }
{
    let Some(begin) = start_at(trace, family, at) else {
        return;
    };
    counts[begin.index] += 1;
}

/// Returns a count of no starts for each task.
fn no_counts(alloc: Global, tasks: usize) -> Result<Vec<usize>, AllocError>
    ensures { IfOk result (λ counts. counts.items ≡ replicate tasks 0) }
{
    vec![in alloc; 0; tasks]
}

/// Returns where the row of each task begins, and where the last one ends.
fn find_offsets(alloc: Global, counts: &[usize]) -> Result<Vec<usize>, AllocError>
    requires few { sum counts.now + length counts.now < 2 ^ 64 }
    ensures all { IfOk result (λ offsets. length offsets.items ≡ length counts.now + 1) }
    ensures rising { IfOk result (λ offsets. AreOffsetsRising offsets.items) }
{
    let mut offsets = Vec::with_capacity(alloc, counts.len() + 1)?;
    let mut end = 0usize;
    offsets.push(end)?;
    for count in counts {
        end += *count + 1;
        offsets.push(end)?;
    }
    Ok(offsets)
}

/// Returns this many slots, of which none is marked.
fn none_begun(alloc: Global, slots: usize) -> Result<Vec<bool>, AllocError>
    ensures { IfOk result (λ begun. begun.items ≡ replicate slots false) }
{
    vec![in alloc; false; slots]
}

/// Marks the turns that begin, until one begins twice or has no slot. Returns true only if there is no such
/// turn.
fn begin_once(trace: &PackedTrace, family: &Family, offsets: &[usize], begun: &mut [bool]) -> bool
    requires family { IsFamilyOf trace.now.records family.now }
    requires all { length offsets.now ≡ length family.now.tasks + 1 }
    requires rising { AreOffsetsRising offsets.now }
    requires slots { AreOffsetsWithin offsets.now (length begun.old) }
    requires fresh { AreMarkedUpTo trace.now.records 0 family.now.tasks offsets.now begun.old }
    ensures { IsTrue result → AreTurnRows trace.now.records family.now.tasks offsets.now begun.new }
{
    for at in 0..trace.len() {
        if !begins_anew(trace, family, offsets, begun, at) {
            return false;
        }
    }
    true
}

/// Marks the turn that begins at a place, if one does. Returns true only if it has a slot and did not begin
/// before.
fn begins_anew(
    trace: &PackedTrace,
    family: &Family,
    offsets: &[usize],
    begun: &mut [bool],
    at: usize,
) -> bool
    requires within { at < length trace.now.records }
    requires family { IsFamilyOf trace.now.records family.now }
    requires all { length offsets.now ≡ length family.now.tasks + 1 }
    requires rising { AreOffsetsRising offsets.now }
    requires slots { AreOffsetsWithin offsets.now (length begun.old) }
    requires before { AreMarkedUpTo trace.now.records at family.now.tasks offsets.now begun.old }
    ensures marked { IsTrue result
        → AreMarkedUpTo trace.now.records (at + 1) family.now.tasks offsets.now begun.new }
    ensures anew { IsTrue result → BeginsAnew trace.now.records at }
{
    let Some(begin) = start_at(trace, family, at) else {
        return true;
    };
    let Some(slot) = slot_of(offsets, begin) else {
        return false;
    };
    if begun[slot] {
        return false;
    }
    begun[slot] = true;
    true
}

/// Returns the slot of the turn, if the row of the task is long enough.
fn slot_of(offsets: &[usize], begin: Begin) -> Option<usize>
    requires all { begin.index + 1 < length offsets.now }
    ensures { (slot : ℕ) → result ≡ Some slot → IsSlot offsets.now begin.index begin.turn slot }
{
    let first = offsets[begin.index];
    let end = offsets[begin.index + 1];
    let turn = begin.turn as usize;
    if first < end && turn < end - first {
        Some(first + turn)
    } else {
        None
    }
}

/// Returns true only if a record says that the task begins the turn.
pub(crate) fn has_begun(rows: &TurnRows, begin: Begin) -> bool
    requires all { begin.index + 1 < length rows.now.offsets.items }
    requires slots { AreOffsetsWithin rows.now.offsets.items (length rows.now.begun.items) }
    ensures { (records : List Record) (tasks : List ℕ) (task : ℕ)
        → AreMarkedUpTo records (length records) tasks rows.now.offsets.items rows.now.begun.items
        → slice_get tasks begin.index ≡ Some task → IsTrue result
        → (k : ℕ) × (at begun_turn records k ≡ Some (task, begin.turn)) }
{
    match slot_of(rows.offsets.as_slice(), begin) {
        Some(slot) => rows.begun[slot],
        None => false,
    }
}
