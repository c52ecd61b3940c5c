//! The turn of each record.
//!
//! The turn of a record depends on the earlier records of its thread alone. So the records are visited
//! thread by thread. For each task the turn is kept that it began last, with the thread on which it began
//! it: on another thread it is in turn 0.
ghost use Rattle.std.specs.Prelude.{ℕ, ◌≡◌, ◌<◌, ◌≤◌, ◌+◌, ◌↔◌, Some, IfOk, IsTrue, length, replicate};
ghost use Rattle.ompt_events.specs.Places.{thread_at};
ghost use Rattle.ompt_events.specs.Turns.{turn_at};
ghost use Rattle.task_tree.specs.Family.{IsFamilyOf};
ghost use Rattle.task_tree.specs.Chains.{AreChainsFrom};
ghost use Rattle.task_tree.specs.TurnTable.{AreTurns, IsOrderTold, no_mark, turn_on, AreTurnMarks, IsReadAt, IsTableAt};

use crate::chains::{Chains, find_chains};
use crate::family::Family;
use crate::rising::{running_at, start_at};
use packed_trace::PackedTrace;
use std::alloc::{AllocError, Global};
use std::marker::Model;

/// The turn of each record, and whether turns begin in order on each thread.
#[derive(Debug, Drop)]
pub struct RecordTurns {
    turns: Vec<u32>,
    in_order: bool,
}

impl Model for RecordTurns {
    ghost use Rattle.task_tree.specs.TurnTable.{TurnsView};

    ghost Value = { TurnsView };

    ghost view = { λ found. record { turns = found.turns.items; in_order = found.in_order } };
}

impl RecordTurns {
    /// Returns the turn of each record, by its place.
    pub fn as_slice(&self) -> &[u32]
        ensures { result.now ≡ self.now.turns }
    {
        self.turns.as_slice()
    }

    /// Returns true only if no thread begins a turn of a task after a later one.
    pub(crate) fn are_in_order(&self) -> bool
        ensures { result ≡ self.now.in_order }
    {
        self.in_order
    }
}

/// The turn that a task began last, and the thread on which it began it.
#[derive(Clone, Copy)]
struct Mark {
    turn: u32,
    thread: u8,
}

impl Mark {
    /// Returns the mark of a task that began none.
    fn none() -> Mark
        ensures { result ≡ no_mark }
    {
        Mark { turn: 0, thread: 0 }
    }

    /// Returns the turn that the task is in on this thread.
    fn turn_on(self, thread: u8) -> u32
        ensures { result ≡ turn_on self thread }
    {
        if self.thread == thread { self.turn } else { 0 }
    }
}

/// What is known after the records of some threads.
#[derive(Drop)]
struct Walk {
    turns: Vec<u32>,
    marks: Vec<Mark>,
    in_order: bool,
}

/// Returns the turn of each record, by its place: that of the task that must be running there, and 0 if
/// there is none. Takes a few steps for each record. Requires of the records only that the family is
/// theirs.
pub fn turns_of(
    alloc: Global,
    trace: &PackedTrace,
    family: &Family,
) -> Result<RecordTurns, AllocError>
    requires { IsFamilyOf trace.now.records family.now }
    ensures turns { IfOk result (λ found. AreTurns trace.now.records found.turns) }
    ensures order { IfOk result (λ found. IsOrderTold trace.now.records found.in_order) }
{
    let chains = find_chains(alloc, trace)?;
    let turns = no_turns(alloc, trace.len())?;
    let marks = no_marks(alloc, family.tasks().as_slice().len())?;
    let mut walk = Walk {
        turns,
        marks,
        in_order: true,
    };
    for thread in 0..256 {
        walk_thread(trace, family, &chains, thread, &mut walk);
    }
    Ok(RecordTurns {
        turns: walk.turns,
        in_order: walk.in_order,
    })
}

/// Returns turn 0 for each record.
fn no_turns(alloc: Global, records: usize) -> Result<Vec<u32>, AllocError>
    ensures { IfOk result (λ turns. turns.items ≡ replicate records 0) }
{
    vec![in alloc; 0; records]
}

/// Returns this many tasks that began no turn.
fn no_marks(alloc: Global, tasks: usize) -> Result<Vec<Mark>, AllocError>
    ensures { IfOk result (λ marks. marks.items ≡ replicate tasks no_mark) }
{
    vec![in alloc; Mark::none(); tasks]
}

/// Visits the records of a thread. Requires that those of the earlier threads are visited.
fn walk_thread(
    trace: &PackedTrace,
    family: &Family,
    chains: &Chains,
    thread: usize,
    walk: &mut Walk,
)
    requires family { IsFamilyOf trace.now.records family.now }
    requires chains { AreChainsFrom trace.now.records 0 chains.now.firsts.items chains.now.nexts.items }
    requires thread { thread < 256 }
    requires before { IsTableAt trace.now.records family.now.tasks thread 0 walk.old }
    ensures { IsTableAt trace.now.records family.now.tasks (thread + 1) 0 walk.new }
{
    let count = trace.len();
    let mut at = chains.firsts[thread];
    'chain: while at < count {
        visit(trace, family, at, walk);
        at = chains.nexts[at];
    }
}

/// Visits the record at a place. Requires that the earlier ones of its thread are visited.
fn visit(trace: &PackedTrace, family: &Family, at: usize, walk: &mut Walk)
    requires within { at < length trace.now.records }
    requires family { IsFamilyOf trace.now.records family.now }
    requires before { IsReadAt trace.now.records family.now.tasks at walk.old }
    ensures { (thread : ℕ) → thread_at trace.now.records at ≡ Some thread
        → IsTableAt trace.now.records family.now.tasks thread (at + 1) walk.new }
{
    walk.turns[at] = turn_before(trace, family, walk.marks.as_slice(), at);
    let Some(begin) = start_at(trace, family, at) else {
        return;
    };
    let thread = trace.thread(at);
    let last = walk.marks[begin.index].turn_on(thread);
    walk.in_order = stays_in_order(walk.in_order, last, begin.turn);
    walk.marks[begin.index] = Mark {
        turn: begin.turn,
        thread,
    };
}

/// Returns the turn of the record at a place.
fn turn_before(trace: &PackedTrace, family: &Family, marks: &[Mark], at: usize) -> u32
    requires within { at < length trace.now.records }
    requires family { IsFamilyOf trace.now.records family.now }
    requires all { length marks.now ≡ length family.now.tasks }
    ensures { (thread : ℕ) → thread_at trace.now.records at ≡ Some thread
        → AreTurnMarks trace.now.records family.now.tasks thread at marks.now → result ≡ turn_at trace.now.records at }
{
    match running_at(trace, family, at) {
        Some(index) => marks[index].turn_on(trace.thread(at)),
        None => 0,
    }
}

/// Returns whether `before` is true and the next turn is not earlier than the last.
fn stays_in_order(before: bool, last: u32, next: u32) -> bool
    ensures { IsTrue result ↔ (IsTrue before × (last ≤ next)) }
{
    before && last <= next
}
