//! The search for the records with a turn gap: the turns that they give are not those of their tasks.
//!
//! A first pass notes where each turn of each task begins, and which tasks are roots. A second pass checks
//! the turns that each record gives. It keeps, for each thread, the greatest turn that each task began on
//! it so far.
ghost use Rattle.std.specs.Prelude.{ℕ, ◌≡◌, ◌↔◌, ◌<◌, ◌+◌, List, Some, IfOk, OnOk, IsTrue, length, slice_get};
ghost use Rattle.std.specs.BTreeMap.{get};
ghost use Rattle.ompt_events.specs.declared.records.Record.{Record};
ghost use Rattle.ompt_events.specs.declared.cause.Cause.TheVariants.{TurnGap};
ghost use Rattle.ompt_events.specs.Turns.{turn_at};
ghost use Rattle.ompt_events.specs.Causes.{HasTurnGap, BeginsTurn};
ghost use Rattle.ompt_events.specs.Shown.{AreAllWith};
ghost use Rattle.task_tree.specs.TurnTable.{AreTurns};
ghost use Rattle.task_tree.specs.GapSearch.{pair_cmp, kept_turn, AreFirst, AreRootsBegun, AreFirstBegins, IsTurnRaised, AreGreatestTurns, IsBegunBefore, IsFalling, BeginsRoot, LacksBefore, IsWrongStart};

use ompt_events::Shown;
use packed_trace::PackedTrace;
use std::alloc::{AllocError, Global};
use std::collections::{BTreeMap, BTreeSet};

/// The places at which the turns begin.
#[derive(Drop)]
struct Begins {
    /// By task and turn the place of the first record after which the task runs in the turn.
    first: BTreeMap<(u64, u32), usize>,
    /// The initial and implicit tasks. Turn 0 of each begins where it does.
    roots: BTreeSet<u64>,
}

/// A task that a record says runs next, and the turn that it begins.
#[derive(Clone, Copy)]
struct Start {
    at: usize,
    thread: u8,
    task: u64,
    turn: u32,
}

/// Returns the places of all records with a turn gap, given the turn of each record. The records need not be
/// a trace.
pub(crate) fn search_gaps(
    alloc: Global,
    trace: &PackedTrace,
    turns: &[u32],
) -> Result<Shown, AllocError>
    requires { AreTurns trace.now.records turns.now }
    ensures { IfOk result (AreAllWith trace.now.records TurnGap) }
{
    let begins = find_begins(alloc, trace)?;
    let mut greatest = BTreeMap::new(alloc);
    let mut shown = Shown::none(alloc);
    for at in 0..trace.len() {
        shown.note(at, has_gap(trace, &begins, &greatest, at, turns[at]))?;
        raise_turn(&mut greatest, trace, at)?;
    }
    Ok(shown)
}

/// Returns the places at which the turns of the records begin.
fn find_begins(alloc: Global, trace: &PackedTrace) -> Result<Begins, AllocError>
    ensures { IfOk result (AreFirstBegins trace.now.records) }
{
    let first = find_first(alloc, trace)?;
    let roots = find_roots(alloc, trace)?;
    Ok(Begins { first, roots })
}

/// Returns by task and turn the place of the first record after which the task runs in the turn.
fn find_first(alloc: Global, trace: &PackedTrace) -> Result<BTreeMap<(u64, u32), usize>, AllocError>
    ensures { IfOk result (AreFirst trace.now.records (length trace.now.records)) }
{
    let mut first = BTreeMap::new(alloc);
    for at in 0..trace.len() {
        note_first(&mut first, trace, at)?;
    }
    Ok(first)
}

/// Notes the record at a place, if a task runs after it in a turn in which it did not run before.
fn note_first(
    first: &mut BTreeMap<(u64, u32), usize>,
    trace: &PackedTrace,
    at: usize,
) -> Result<(), AllocError>
    requires within { at < length trace.now.records }
    requires first { AreFirst trace.now.records at first.old }
    ensures { OnOk result (AreFirst trace.now.records (at + 1) first.new) }
{
    let Some(turn) = trace.begun_turn(at) else {
        return Ok(());
    };
    if first_begin(first, turn).is_none() {
        first.insert(turn, at)?;
    }
    Ok(())
}

/// Returns the place of the first record after which the task runs in the turn.
fn first_begin(first: &BTreeMap<(u64, u32), usize>, turn: (u64, u32)) -> Option<usize>
    ensures { result ≡ get pair_cmp first.now turn }
{
    first.get(&turn).copied()
}

/// Returns the initial and implicit tasks.
fn find_roots(alloc: Global, trace: &PackedTrace) -> Result<BTreeSet<u64>, AllocError>
    ensures { IfOk result (AreRootsBegun trace.now.records (length trace.now.records)) }
{
    let mut roots = BTreeSet::new(alloc);
    for at in 0..trace.len() {
        note_root(&mut roots, trace, at)?;
    }
    Ok(roots)
}

/// Notes the root that begins at a place, if one does.
fn note_root(roots: &mut BTreeSet<u64>, trace: &PackedTrace, at: usize) -> Result<(), AllocError>
    requires within { at < length trace.now.records }
    requires roots { AreRootsBegun trace.now.records at roots.old }
    ensures { OnOk result (AreRootsBegun trace.now.records (at + 1) roots.new) }
{
    if let Some(task) = trace.begun_root(at) {
        roots.insert(task)?;
    }
    Ok(())
}

/// Returns the turn that is kept for a task on a thread, 0 if none is.
fn kept_turn(kept: &BTreeMap<(u8, u64), u32>, thread: u8, task: u64) -> u32
    ensures { result ≡ kept_turn kept.now thread task }
{
    match kept.get(&(thread, task)) {
        Some(turn) => *turn,
        None => 0,
    }
}

/// Keeps the turn that the record at a place begins, if it is greater than the one that is kept.
fn raise_turn(
    kept: &mut BTreeMap<(u8, u64), u32>,
    trace: &PackedTrace,
    at: usize,
) -> Result<(), AllocError>
    requires { at < length trace.now.records }
    ensures { (r : Record) → slice_get trace.now.records at ≡ Some r
        → OnOk result (IsTurnRaised kept.old kept.new r) }
{
    let Some((task, turn)) = trace.begun_turn(at) else {
        return Ok(());
    };
    let thread = trace.thread(at);
    if kept_turn(kept, thread, task) < turn {
        kept.insert((thread, task), turn)?;
    }
    Ok(())
}

/// Returns whether the record at a place, which is in this turn of its task, has a turn gap.
fn has_gap(
    trace: &PackedTrace,
    begins: &Begins,
    greatest: &BTreeMap<(u8, u64), u32>,
    at: usize,
    turn: u32,
) -> bool
    requires { at < length trace.now.records }
    ensures { AreFirstBegins trace.now.records begins.now
        → AreGreatestTurns trace.now.records at greatest.now → turn ≡ turn_at trace.now.records at
        → IsTrue result ↔ HasTurnGap trace.now.records at }
{
    let Some(told) = trace.told_turns(at) else {
        return false;
    };
    if told.prior != turn {
        return true;
    }
    let Some((task, next)) = trace.begun_turn(at) else {
        return false;
    };
    let start = Start {
        at,
        thread: trace.thread(at),
        task,
        turn: next,
    };
    is_wrong(begins, greatest, start)
}

/// Returns whether the task may not begin that turn there.
fn is_wrong(begins: &Begins, greatest: &BTreeMap<(u8, u64), u32>, start: Start) -> bool
    ensures { (records : List Record) → AreFirstBegins records begins.now
        → AreGreatestTurns records start.at greatest.now → IsTrue result ↔ IsWrongStart records start }
{
    if is_begun_before(begins, start) {
        return true;
    }
    if is_falling(greatest, start) {
        return true;
    }
    if begins_root(begins, start.task, start.turn) {
        return true;
    }
    lacks_before(begins, start)
}

/// Returns whether an earlier record began the same turn of the task.
fn is_begun_before(begins: &Begins, start: Start) -> bool
    ensures { (records : List Record) → AreFirstBegins records begins.now
        → IsTrue result ↔ IsBegunBefore records start }
{
    match first_begin(&begins.first, (start.task, start.turn)) {
        Some(first) => first < start.at,
        None => false,
    }
}

/// Returns whether an earlier record of the thread began a later turn of the task.
fn is_falling(greatest: &BTreeMap<(u8, u64), u32>, start: Start) -> bool
    ensures { (records : List Record) → AreGreatestTurns records start.at greatest.now
        → IsTrue result ↔ IsFalling records start }
{
    start.turn < kept_turn(greatest, start.thread, start.task)
}

/// Returns whether no record begins the turn before.
fn lacks_before(begins: &Begins, start: Start) -> bool
    ensures { (records : List Record) → AreFirstBegins records begins.now
        → IsTrue result ↔ LacksBefore records start }
{
    start.turn > 0 && !has_begun(begins, start.task, start.turn - 1)
}

/// Returns whether a record begins the turn of the task.
fn has_begun(begins: &Begins, task: u64, turn: u32) -> bool
    ensures { (records : List Record) → AreFirstBegins records begins.now
        → IsTrue result ↔ ((k : ℕ) × BeginsTurn records k task turn) }
{
    match first_begin(&begins.first, (task, turn)) {
        Some(_) => true,
        None => begins_root(begins, task, turn),
    }
}

/// Returns whether it is turn 0 of a root, which begins where the root does.
fn begins_root(begins: &Begins, task: u64, turn: u32) -> bool
    ensures { (records : List Record) → AreFirstBegins records begins.now
        → IsTrue result ↔ BeginsRoot records task turn }
{
    turn == 0 && begins.roots.contains(&task)
}
