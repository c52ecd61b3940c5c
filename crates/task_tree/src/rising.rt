//! A check whether file order is the tasks' own order already: one cheap pass over the records.
ghost use Rattle.std.specs.Prelude.{ℕ, ◌≡◌, ◌≢◌, ◌↔◌, ◌<◌, List, Some, None, true, false, IfOk, IsTrue, IsSomeAnd, MatchOption, is_some, length, replicate, slice_get};
ghost use Rattle.ompt_events.specs.declared.records.Record.{Record};
ghost use Rattle.ompt_events.specs.declared.records.Body.{Body};
ghost use Rattle.ompt_events.specs.declared.cause.Cause.TheVariants.{TurnGap};
ghost use Rattle.ompt_events.specs.Records.{running, begun_root, told_turns, begun_turn};
ghost use Rattle.ompt_events.specs.Places.{at as says_at};
ghost use Rattle.ompt_events.specs.Turns.{TellsNoTurns};
ghost use Rattle.ompt_events.specs.Causes.{IsFreeOf};
ghost use Rattle.task_tree.specs.Subjects.{Calls};
ghost use Rattle.task_tree.specs.Family.{IsFamilyOf};
ghost use Rattle.task_tree.specs.Rising.{TurnsRise, AreTurnsInOrder, not_begun, turn_now, IsOnTurn, IsNext, AreLatestTurns, IsTurnThere, IsStartOf, IsTurnBegin, BeginsNone, MayBegin, IsStepOn};

use crate::family::Family;
use packed_trace::PackedTrace;
use std::alloc::{AllocError, Global};

/// What is known of a task: the turn that it began last, if it began one, and the thread on which it began
/// it.
#[derive(Clone, Copy)]
struct Latest {
    turn: Option<u32>,
    thread: u8,
}

/// A task, by its index, and the turn that it begins.
#[derive(Clone, Copy)]
pub(crate) struct Begin {
    pub(crate) index: usize,
    pub(crate) turn: u32,
}

impl Latest {
    /// Returns what is known of a task that began no turn.
    fn none() -> Latest
        ensures { result ≡ not_begun }
    {
        Latest {
            turn: None,
            thread: 0,
        }
    }

    /// Returns the turn that the task is in if it runs on this thread, none if that is unknown. In turn 0
    /// it may run on any thread.
    fn turn_on(self, thread: u8) -> Option<u32>
        ensures on { (turn : ℕ) → result ≡ Some turn → IsOnTurn self thread turn }
        ensures off { result ≡ None → (turn_now self ≢ 0) × (thread ≢ self.thread) }
    {
        let turn = self.turn.unwrap_or(0);
        if turn == 0 || self.thread == thread {
            Some(turn)
        } else {
            None
        }
    }

    /// Returns whether this turn is the task's next.
    fn is_next(self, turn: u32) -> bool
        ensures { IsTrue result ↔ IsNext self turn }
    {
        match self.turn {
            Some(last) => turn > 0 && turn - 1 == last,
            None => turn == 0,
        }
    }
}

/// Returns whether, along the file, each task comes to its turns in order and no record has a turn gap.
/// Then no task's turns fall. Returns true if no record gives a turn. Returns true too if in file order
/// each task begins the turns 0, 1, 2 and so on, makes each record on the thread on which it began one
/// last, and gives those turns.
pub fn turns_rise(alloc: Global, trace: &PackedTrace, family: &Family) -> Result<bool, AllocError>
    requires { IsFamilyOf trace.now.records family.now }
    ensures exact { IfOk result (λ rise. IsTrue rise
        ↔ (AreTurnsInOrder trace.now.records × IsFreeOf trace.now.records TurnGap)) }
    ensures rises { IfOk result (λ rise. rise ≡ true → TurnsRise trace.now.records) }
    ensures gapless { IfOk result (λ rise. rise ≡ true → IsFreeOf trace.now.records TurnGap) }
    ensures untold { IfOk result (λ rise. TellsNoTurns trace.now.records → rise ≡ true) }
{
    let mut latest = none_begun(alloc, family.tasks().as_slice().len())?;
    for at in 0..trace.len() {
        if !goes_on(trace, family, &mut latest, at) {
            return Ok(false);
        }
    }
    Ok(true)
}

/// Returns this many tasks that began no turn.
fn none_begun(alloc: Global, tasks: usize) -> Result<Vec<Latest>, AllocError>
    ensures { IfOk result (λ latest. latest.items ≡ replicate tasks not_begun) }
{
    vec![in alloc; Latest::none(); tasks]
}

/// Returns whether the record at a place has no gap and is in order, if those before it are; if so, notes
/// it.
fn goes_on(trace: &PackedTrace, family: &Family, latest: &mut Vec<Latest>, at: usize) -> bool
    requires within { at < length trace.now.records }
    requires family { IsFamilyOf trace.now.records family.now }
    requires latest { AreLatestTurns trace.now.records at family.now.tasks latest.old.items }
    ensures on { result ≡ true → IsStepOn trace.now.records at family.now.tasks latest.new.items }
    ensures off { result ≡ false → AreTurnsInOrder trace.now.records → IsFreeOf trace.now.records TurnGap → ⊥ }
{
    let Some(turn) = turn_there(trace, family, latest.as_slice(), at) else {
        return false;
    };
    if tells_other(trace, at, turn) {
        return false;
    }
    let Some(begin) = begin_at(trace, family, at) else {
        return true;
    };
    if !may_begin(trace.tells_turns(at), family, latest[begin.index], begin) {
        return false;
    }
    latest[begin.index] = Latest {
        turn: Some(begin.turn),
        thread: trace.thread(at),
    };
    true
}

/// Returns the turn of the record at a place, if it is known.
fn turn_there(trace: &PackedTrace, family: &Family, latest: &[Latest], at: usize) -> Option<u32>
    requires within { at < length trace.now.records }
    requires family { IsFamilyOf trace.now.records family.now }
    requires latest { AreLatestTurns trace.now.records at family.now.tasks latest.now }
    ensures there { (turn : ℕ) → result ≡ Some turn → IsTurnThere trace.now.records at turn }
    ensures none { result ≡ None → AreTurnsInOrder trace.now.records → IsFreeOf trace.now.records TurnGap → ⊥ }
{
    match running_at(trace, family, at) {
        Some(index) => latest[index].turn_on(trace.thread(at)),
        None => Some(0),
    }
}

/// Returns whether the record at a place gives another turn of the prior task.
pub(crate) fn tells_other(trace: &PackedTrace, at: usize, turn: u32) -> bool
    requires { at < length trace.now.records }
    ensures { IsTrue result
        ↔ IsSomeAnd (says_at told_turns trace.now.records at) (λ told. told.prior ≢ turn) }
{
    match trace.told_turns(at) {
        Some(told) => told.prior != turn,
        None => false,
    }
}

/// Returns whether a task of which this is known may begin the turn, at a record that has turns or none.
fn may_begin(told: bool, family: &Family, known: Latest, begin: Begin) -> bool
    requires { begin.index < length family.now.tasks }
    ensures { (records : List Record) (body : Body) (task : ℕ) → IsFamilyOf records family.now
        → told ≡ is_some (told_turns body) → slice_get family.now.tasks begin.index ≡ Some task
        → IsTrue result ↔ MayBegin records task body known begin.turn }
{
    if !told {
        return known.turn.unwrap_or(0) <= begin.turn;
    }
    if !known.is_next(begin.turn) {
        return false;
    }
    begin.turn > 0 || family.is_explicit_at(begin.index)
}

/// Returns the index of the task that must be running at the record at a place, if there is one.
pub(crate) fn running_at(trace: &PackedTrace, family: &Family, at: usize) -> Option<usize>
    requires within { at < length trace.now.records }
    requires family { IsFamilyOf trace.now.records family.now }
    ensures { Calls family.now.tasks (says_at running trace.now.records at) result }
{
    trace.running(at)?;
    family.subject(at)
}

/// Returns the index of the initial or implicit task that begins at a place, if one does.
fn root_at(trace: &PackedTrace, family: &Family, at: usize) -> Option<usize>
    requires within { at < length trace.now.records }
    requires family { IsFamilyOf trace.now.records family.now }
    ensures { Calls family.now.tasks (says_at begun_root trace.now.records at) result }
{
    trace.begun_root(at)?;
    family.subject(at)
}

/// Returns the task that begins a turn at a place, if one does: a root that begins, or the task that runs
/// next.
fn begin_at(trace: &PackedTrace, family: &Family, at: usize) -> Option<Begin>
    requires within { at < length trace.now.records }
    requires family { IsFamilyOf trace.now.records family.now }
    ensures { MatchOption result (BeginsNone trace.now.records at)
        (λ begin. IsTurnBegin trace.now.records family.now.tasks at begin.index begin.turn) }
{
    match root_at(trace, family, at) {
        Some(index) => Some(Begin { index, turn: 0 }),
        None => start_at(trace, family, at),
    }
}

/// Returns the task that runs next at a place, if one does, and the turn that it begins.
pub(crate) fn start_at(trace: &PackedTrace, family: &Family, at: usize) -> Option<Begin>
    requires within { at < length trace.now.records }
    requires family { IsFamilyOf trace.now.records family.now }
    ensures { MatchOption result (says_at begun_turn trace.now.records at ≡ None)
        (λ begin. IsStartOf trace.now.records family.now.tasks at begin.index begin.turn) }
{
    let (_, turn) = trace.begun_turn(at)?;
    let index = family.object(at)?;
    Some(Begin { index, turn })
}
