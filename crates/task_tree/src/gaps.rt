//! The records with a turn gap, and the first of them: the turns that it gives are not those of its tasks.
//!
//! A few passes check that no record has a gap. Only if one has, or may have, a search goes through all
//! records, which takes longer.
ghost use Rattle.std.specs.Prelude.{ℕ, ◌≡◌, ◌<◌, IfOk, IsTrue, Some, length, slice_get};
ghost use Rattle.ompt_events.specs.declared.cause.Cause.TheVariants.{TurnGap};
ghost use Rattle.ompt_events.specs.Turns.{turn_at};
ghost use Rattle.ompt_events.specs.Causes.{IsFreeOf};
ghost use Rattle.ompt_events.specs.Faults.{FindsFirst};
ghost use Rattle.ompt_events.specs.Shown.{AreAllWith};
ghost use Rattle.task_tree.specs.Family.{IsFamilyOf};
ghost use Rattle.task_tree.specs.TurnTable.{AreTurns, IsOrderTold};
ghost use Rattle.task_tree.specs.TurnRows.{AreTurnRows};
ghost use Rattle.task_tree.specs.Gaps.{TellsRightly, MayBeginThere};

use crate::family::Family;
use crate::gap_search::search_gaps;
use crate::rising::{Begin, start_at, tells_other};
use crate::turn_rows::{TurnRows, find_rows, has_begun};
use crate::turn_table::{RecordTurns, turns_of};
use ompt_events::Shown;
use packed_trace::PackedTrace;
use std::alloc::{AllocError, Global};

/// Returns the place of the first record with a turn gap, given the turn of each record. Takes a few steps
/// for each record if each gives the right turns. Requires of the records only that the family is theirs.
pub fn find_gap(
    alloc: Global,
    trace: &PackedTrace,
    family: &Family,
    turns: &RecordTurns,
) -> Result<Option<usize>, AllocError>
    requires family { IsFamilyOf trace.now.records family.now }
    requires turns { AreTurns trace.now.records turns.now.turns }
    requires order { IsOrderTold trace.now.records turns.now.in_order }
    ensures { IfOk result (FindsFirst trace.now.records TurnGap) }
{
    if is_gapless(alloc, trace, family, turns)? {
        return Ok(None);
    }
    let gaps = search_gaps(alloc, trace, turns.as_slice())?;
    Ok(gaps.first())
}

/// Returns the places of all records with a turn gap. Requires of the records only that the family is
/// theirs.
pub fn turn_gaps(alloc: Global, trace: &PackedTrace, family: &Family) -> Result<Shown, AllocError>
    requires { IsFamilyOf trace.now.records family.now }
    ensures { IfOk result (AreAllWith trace.now.records TurnGap) }
{
    let turns = turns_of(alloc, trace, family)?;
    search_gaps(alloc, trace, turns.as_slice())
}

/// Returns true only if no record has a turn gap. Returns false without one only if a task runs next at a
/// record that gives no turns.
fn is_gapless(
    alloc: Global,
    trace: &PackedTrace,
    family: &Family,
    turns: &RecordTurns,
) -> Result<bool, AllocError>
    requires family { IsFamilyOf trace.now.records family.now }
    requires turns { AreTurns trace.now.records turns.now.turns }
    requires order { IsOrderTold trace.now.records turns.now.in_order }
    ensures { IfOk result (λ free. IsTrue free → IsFreeOf trace.now.records TurnGap) }
{
    if !turns.are_in_order() {
        return Ok(false);
    }
    match find_rows(alloc, trace, family)? {
        Some(rows) => Ok(tell_rightly(trace, family, &rows, turns.as_slice())),
        None => Ok(false),
    }
}

/// Returns true only if each record gives the turn of its prior task, and a turn of the next one that may
/// begin there.
fn tell_rightly(trace: &PackedTrace, family: &Family, rows: &TurnRows, turns: &[u32]) -> bool
    requires family { IsFamilyOf trace.now.records family.now }
    requires rows { AreTurnRows trace.now.records family.now.tasks rows.now.offsets.items rows.now.begun.items }
    requires turns { AreTurns trace.now.records turns.now }
    ensures { IsTrue result → (i : ℕ) → i < length trace.now.records → TellsRightly trace.now.records i }
{
    for at in 0..trace.len() {
        if !tells_rightly(trace, family, rows, turns[at], at) {
            return false;
        }
    }
    true
}

/// Returns true only if the record at the place, which is in this turn of its task, gives the turn of its
/// prior task, and a turn of the next one that may begin there.
fn tells_rightly(
    trace: &PackedTrace,
    family: &Family,
    rows: &TurnRows,
    turn: u32,
    at: usize,
) -> bool
    requires within { at < length trace.now.records }
    requires family { IsFamilyOf trace.now.records family.now }
    requires rows { AreTurnRows trace.now.records family.now.tasks rows.now.offsets.items rows.now.begun.items }
    requires turn { turn ≡ turn_at trace.now.records at }
    ensures { IsTrue result → TellsRightly trace.now.records at }
{
    if tells_other(trace, at, turn) {
        return false;
    }
    match start_at(trace, family, at) {
        Some(begin) => may_begin(trace, family, rows, begin),
        None => true,
    }
}

/// Returns true only if the turn before begins too, and it is not turn 0 of a root: that begins where the
/// root does.
fn may_begin(trace: &PackedTrace, family: &Family, rows: &TurnRows, begin: Begin) -> bool
    requires family { IsFamilyOf trace.now.records family.now }
    requires rows { AreTurnRows trace.now.records family.now.tasks rows.now.offsets.items rows.now.begun.items }
    requires index { begin.index < length family.now.tasks }
    ensures { IsTrue result → (task : ℕ) → slice_get family.now.tasks begin.index ≡ Some task
        → MayBeginThere trace.now.records task begin.turn }
{
    if begin.turn == 0 {
        return family.is_explicit_at(begin.index);
    }
    if begin.turn == 1 && !family.is_explicit_at(begin.index) {
        return true;
    }
    let before = Begin {
        index: begin.index,
        turn: begin.turn - 1,
    };
    has_begun(rows, before)
}
