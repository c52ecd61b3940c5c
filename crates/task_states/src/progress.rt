//! The state that each task reaches by the moves that its states allow.
ghost use Rattle.std.specs.Prelude.{ℕ, ◌≡◌, ◌<◌, ◌++◌, List, Some, None, [], true, false, replicate, IsTrue, IfOk, OnOk, MatchOption, All, length, set, get_or, slice_get};
ghost use Rattle.std.specs.List.{flat_map};
ghost use Rattle.ompt_events.specs.declared.cause.Cause.TheVariants.{NotCurrent, StatusOrder};
ghost use Rattle.ompt_events.specs.Causes.{IsFreeOf};
ghost use Rattle.ompt_events.specs.Faults.{FindsFirst};
ghost use Rattle.ompt_events.specs.Records.{started};
ghost use Rattle.ompt_events.specs.Places.{at as says_at};
ghost use Rattle.ompt_events.specs.States as states;
ghost use Rattle.ompt_events.specs.States.{first_state, state_after, all_moves_of};
ghost use Rattle.task_tree.specs.Runs.{IsRun, IsIndexOf};
ghost use Rattle.task_states.specs.TurnEdges.{is_edge, edge_moves, IsNoEdge, IsEdgeMove};
ghost use Rattle.task_states.specs.declared.progress.Pass.TheVariants.{Early, Home, Rest};
ghost use Rattle.task_states.specs.Progress.{the_nature, the_move, earlier_of, refused_after, marks_after, reads, is_read, is_read_for, and_move, and_record, moves_before, IsMoveOf, IsReadWhole, AreLeft, HasCome};

use crate::homes::Schedules;
use crate::moves::{Move, Nature, after_move, fulfils_early, is_early_move};
use crate::origins::{Origins, is_at, is_turned};
use crate::rows::row;
use crate::turn_edges::{Edge, find_edges, turn_count};
use ompt_events::State;
use std::alloc::{AllocError, Global};
use std::marker::Model;
use task_tree::Run;

/// The records of a task that one pass over the file reads. Each task's moves are read in three passes:
/// fulfilments ahead of its home, its home's records, then all others. A task that moved has no home; its
/// turns are read one by one before the last pass.
#[derive(Clone, Copy)]
pub(crate) enum Pass {
    Early,
    Home,
    Rest,
}

/// A move of a task, by the task's index, that the record at a place makes.
#[derive(Clone, Copy)]
struct TaskMove {
    at: usize,
    index: usize,
    step: Move,
}

/// The state of each task, by its index, as long as its moves are allowed, and the first record at which a
/// move is not. Where all such records are wanted, each record has a mark: the passes do not find them in file
/// order. Else none has.
#[derive(Drop)]
pub(crate) struct Progress {
    states: Vec<Option<State>>,
    refused: Option<usize>,
    marks: Vec<bool>,
}

impl Model for Progress {
    ghost use Rattle.task_states.specs.Progress.{ProgressView};

    ghost Value = { ProgressView };

    ghost view = { λ progress. record {
      states = progress.states.items;
      refused = progress.refused;
      marks = progress.marks.items;
    } };
}

impl Progress {
    /// Applies one move of a task of this nature.
    #[inline(always)]
    fn go_on(&mut self, nature: Nature, moved: TaskMove)
        requires { moved.index < length self.old.states }
        ensures states { self.new.states ≡ set self.old.states moved.index (state_after (the_nature nature)
            (get_or self.old.states moved.index None) (moved.at, the_move moved.step)) }
        ensures refused { self.new.refused ≡ refused_after self.old.refused
            (get_or self.old.states moved.index None)
            (state_after (the_nature nature) (get_or self.old.states moved.index None)
            (moved.at, the_move moved.step)) moved.at }
        ensures marks { self.new.marks ≡ marks_after self.old.marks
            (get_or self.old.states moved.index None)
            (state_after (the_nature nature) (get_or self.old.states moved.index None)
            (moved.at, the_move moved.step)) moved.at }
    {
        if let Some(state) = self.states[moved.index] {
            let after = after_move(nature, state, moved.step);
            note_refused(&mut self.refused, after, moved.at);
            mark_refused(&mut self.marks, after, moved.at);
            self.states[moved.index] = after;
        }
    }

    /// Applies one move of a task if this pass reads the record for the task. Returns whether it does.
    // It is inlined, as are `go_on`, `note_next` and `read`, so that each pass has a copy of its own, in
    // which the tests for the other passes are left out: that takes half as long as a call.
    #[inline(always)]
    fn note(&mut self, origins: &Origins, pass: Pass, moved: TaskMove) -> bool
        requires all { length self.old.states ≡ length origins.now.family.tasks }
        requires moves { IsMoveOf origins.now moved.at moved.index moved.step }
        ensures all { length self.new.states ≡ length origins.now.family.tasks }
        ensures come { (task : ℕ) → slice_get origins.now.family.tasks moved.index ≡ Some task
            → (moves : ℕ → List (ℕ × states.Move))
            → HasCome origins.now.records origins.now.family.tasks moves self.old
            → HasCome origins.now.records origins.now.family.tasks
            (and_move pass origins.now.records moved.at (Some task) moved.step moves) self.new }
        ensures read { (task : ℕ) → slice_get origins.now.family.tasks moved.index ≡ Some task
            → result ≡ is_read pass origins.now.records task moved.at }
        ensures marks { length self.new.marks ≡ length self.old.marks }
    {
        let home = origins.home(moved.index);
        let is_home = is_at(home, origins.run().thread(moved.at));
        let is_turned = is_turned(home, moved.step);
        if reads(pass, is_early_move(moved.step), is_home, is_turned) {
            self.go_on(origins.nature(moved.index), moved);
            return true;
        }
        false
    }

    /// Starts the task that runs next after the record, as `note` applies a move. Returns whether this pass
    /// reads the record for that task: true where none runs next, since nothing is left to read.
    #[inline(always)]
    fn note_next(&mut self, origins: &Origins, pass: Pass, at: usize, next: Option<usize>) -> bool
        requires all { length self.old.states ≡ length origins.now.family.tasks }
        requires is_run { IsRun origins.now }
        requires starts { IsIndexOf origins.now started at next }
        ensures all { length self.new.states ≡ length origins.now.family.tasks }
        ensures come { (moves : ℕ → List (ℕ × states.Move))
            → HasCome origins.now.records origins.now.family.tasks moves self.old
            → HasCome origins.now.records origins.now.family.tasks (and_move pass origins.now.records at
            (says_at started origins.now.records at) Move.Started moves) self.new }
        ensures read { result
            ≡ is_read_for pass origins.now.records (says_at started origins.now.records at) at }
        ensures marks { length self.new.marks ≡ length self.old.marks }
    {
        let Some(index) = next else {
            return true;
        };
        let step = Move::Started;
        self.note(origins, pass, TaskMove { at, index, step })
    }

    /// Applies what the record at a place does to its tasks, where this pass reads it for them. Returns
    /// whether it reads it for each of them.
    #[inline(always)]
    fn read(&mut self, origins: &Origins, pass: Pass, at: usize) -> bool
        requires within { at < length origins.now.records }
        requires all { length self.old.states ≡ length origins.now.family.tasks }
        ensures all { length self.new.states ≡ length origins.now.family.tasks }
        ensures come { (moves : ℕ → List (ℕ × states.Move))
            → HasCome origins.now.records origins.now.family.tasks moves self.old
            → HasCome origins.now.records origins.now.family.tasks
            (and_record pass origins.now.records at moves) self.new }
        ensures whole { IsTrue result → IsReadWhole pass origins.now.records at }
        ensures marks { length self.new.marks ≡ length self.old.marks }
    {
        let run = origins.run();
        if let Some(event) = run.schedule(at) {
            let index = event.prior;
            let step = Move::Stopped(event.status);
            let stopped = self.note(origins, pass, TaskMove { at, index, step });
            let started = self.note_next(origins, pass, at, event.next);
            return stopped & started;
        }
        let Some(index) = run.discarded(at) else {
            return true;
        };
        let step = Move::Discarded;
        self.note(origins, pass, TaskMove { at, index, step })
    }
}

impl Progress {
    /// Applies the fulfilments ahead of a task's home. This pass reads no other records: it skips them after
    /// one look at the status, and searches for none of their tasks.
    fn read_early(&mut self, origins: &Origins)
        requires { HasCome origins.now.records origins.now.family.tasks
            (moves_before Early origins.now.records 0) self.old }
        ensures come { HasCome origins.now.records origins.now.family.tasks
            (moves_before Early origins.now.records (length origins.now.records)) self.new }
        ensures marks { length self.new.marks ≡ length self.old.marks }
    {
        let run = origins.run();
        for at in 0..run.len() {
            if fulfils_early(run, at) {
                self.read(origins, Pass::Early, at);
            }
        }
    }

    /// Applies all records to the tasks whose home made them. Returns the places of the records with a task
    /// that has another home, or none. There are few of those in most files.
    fn read_home(&mut self, alloc: Global, origins: &Origins) -> Result<Vec<usize>, AllocError>
        requires { HasCome origins.now.records origins.now.family.tasks
            (moves_before Home origins.now.records 0) self.old }
        ensures come { OnOk result (HasCome origins.now.records origins.now.family.tasks
            (moves_before Home origins.now.records (length origins.now.records)) self.new) }
        ensures left { IfOk result (λ left.
            AreLeft origins.now.records (length origins.now.records) left.items) }
        ensures marks { OnOk result (length self.new.marks ≡ length self.old.marks) }
    {
        let mut left = Vec::new(alloc);
        for at in 0..origins.run().len() {
            let whole = self.read(origins, Pass::Home, at);
            if !whole {
                left.push(at)?;
            }
        }
        Ok(left)
    }

    /// Applies, turn by turn, the moves with which tasks that moved begin and end it.
    // Where no record has a TurnGap, there are no more turns than records, so that this is linear too.
    fn read_turns(&mut self, alloc: Global, origins: &Origins) -> Result<(), AllocError>
        requires { HasCome origins.now.records origins.now.family.tasks
            (moves_before Home origins.now.records (length origins.now.records)) self.old }
        ensures come { OnOk result (HasCome origins.now.records origins.now.family.tasks
            (moves_before Rest origins.now.records 0) self.new) }
        ensures marks { OnOk result (length self.new.marks ≡ length self.old.marks) }
    {
        let turns = turn_count(origins.run());
        let begins = find_edges(alloc, origins, Edge::Begins, turns)?;
        let ends = find_edges(alloc, origins, Edge::Ends, turns)?;
        for turn in 0..turns {
            self.read_edges(origins, Edge::Begins, row(begins.as_slice(), turn));
            self.read_edges(origins, Edge::Ends, row(ends.as_slice(), turn));
        }
        Ok(())
    }

    /// Applies the moves with which tasks that moved begin a turn, or end it, at these places.
    fn read_edges(&mut self, origins: &Origins, edge: Edge, places: &[u32])
        requires within { All (λ place. place < length origins.now.records) places.now }
        requires all { length self.old.states ≡ length origins.now.family.tasks }
        ensures all { length self.new.states ≡ length origins.now.family.tasks }
        ensures come { (turn : ℕ)
            → All (λ place. is_edge edge origins.now.records turn place ≡ true) places.now
            → (moves : ℕ → List (ℕ × states.Move))
            → HasCome origins.now.records origins.now.family.tasks moves self.old
            → HasCome origins.now.records origins.now.family.tasks (λ task. moves task
            ++ flat_map (edge_moves edge origins.now.records task turn) places.now) self.new }
        ensures marks { length self.new.marks ≡ length self.old.marks }
    {
        for at in places {
            self.read_edge(origins, edge, *at as usize);
        }
    }

    /// Applies the move with which a task that moved begins a turn at the place, or ends it.
    fn read_edge(&mut self, origins: &Origins, edge: Edge, at: usize)
        requires within { at < length origins.now.records }
        requires all { length self.old.states ≡ length origins.now.family.tasks }
        ensures all { length self.new.states ≡ length origins.now.family.tasks }
        ensures come { (turn : ℕ) → is_edge edge origins.now.records turn at ≡ true
            → (moves : ℕ → List (ℕ × states.Move))
            → HasCome origins.now.records origins.now.family.tasks moves self.old
            → HasCome origins.now.records origins.now.family.tasks
            (λ task. moves task ++ edge_moves edge origins.now.records task turn at) self.new }
        ensures marks { length self.new.marks ≡ length self.old.marks }
    {
        let Some((index, step)) = edge_move(origins.run(), edge, at) else {
            return;
        };
        self.go_on(origins.nature(index), TaskMove { at, index, step });
    }

    /// Applies all that is left to read, which is at these places alone.
    fn read_rest(&mut self, origins: &Origins, left: &[usize])
        requires left { AreLeft origins.now.records (length origins.now.records) left.now }
        requires come { HasCome origins.now.records origins.now.family.tasks
            (moves_before Rest origins.now.records 0) self.old }
        ensures come { HasCome origins.now.records origins.now.family.tasks
            (moves_before Rest origins.now.records (length origins.now.records)) self.new }
        ensures marks { length self.new.marks ≡ length self.old.marks }
    {
        for at in left {
            self.read(origins, Pass::Rest, *at);
        }
    }

    /// Returns the progress before any move, in which this many records have a mark.
    fn new(alloc: Global, origins: &Origins, marked: usize) -> Result<Progress, AllocError>
        ensures come { IfOk result
            (HasCome origins.now.records origins.now.family.tasks (λ _. [])) }
        ensures marks { IfOk result (λ progress. length progress.marks ≡ marked) }
    {
        let natures = origins.natures();
        let mut states = Vec::with_capacity(alloc, natures.len())?;
        for nature in natures {
            states.push(Some(first_state(*nature)))?;
        }
        Ok(Progress {
            states,
            refused: None,
            marks: no_marks(alloc, marked)?,
        })
    }
}

impl Progress {
    /// Returns the first place at which a move was not allowed.
    pub(crate) fn refused(&self) -> Option<usize>
        ensures { result ≡ self.now.refused }
    {
        self.refused
    }

    /// Returns of each record that has a mark whether it makes a move that was not allowed.
    pub(crate) fn marks(&self) -> &[bool]
        ensures { result.now ≡ self.now.marks }
    {
        self.marks.as_slice()
    }

    /// Returns the states.
    pub(crate) fn into_states(self) -> Vec<Option<State>>
        ensures { result.items ≡ self.states }
    {
        self.states
    }
}

/// Returns the state that each task reaches by all its moves. Marks each record that makes a move which is not
/// allowed, of the first `marked` records: all of them, or none.
pub(crate) fn find_progress(
    alloc: Global,
    schedules: &Schedules,
    marked: usize,
) -> Result<Progress, AllocError>
    requires { IsFreeOf schedules.now.records NotCurrent }
    ensures come { IfOk result (HasCome schedules.now.records schedules.now.family.tasks
        (all_moves_of schedules.now.records)) }
    ensures refused { IfOk result (λ progress.
        FindsFirst schedules.now.records StatusOrder progress.refused) }
    ensures marks { IfOk result (λ progress. length progress.marks ≡ marked) }
{
    let origins = Origins::find(alloc, schedules)?;
    let mut progress = Progress::new(alloc, &origins, marked)?;
    if schedules.any_early() {
        progress.read_early(&origins);
    }
    let left = progress.read_home(alloc, &origins)?;
    if origins.any_moved() {
        progress.read_turns(alloc, &origins)?;
    }
    progress.read_rest(&origins, left.as_slice());
    Ok(progress)
}

/// Returns the state of a task that has not moved.
fn first_state(nature: Nature) -> State
    ensures { result ≡ first_state (the_nature nature) }
{
    match nature {
        Nature::Root => State::Running,
        Nature::Wait | Nature::Plain => State::Created,
    }
}

/// Returns the move with which a task begins a turn there, or ends it, and the task's index.
fn edge_move(run: &Run, edge: Edge, at: usize) -> Option<(usize, Move)>
    requires within { at < length run.now.records }
    requires is_run { IsRun run.now }
    ensures { MatchOption result (IsNoEdge run.now.records edge at)
        (λ found. IsEdgeMove run.now edge at found.0 found.1) }
{
    match edge {
        Edge::Begins => {
            let index = run.started(at)?;
            Some((index, Move::Started))
        }
        Edge::Ends => {
            let event = run.schedule(at)?;
            Some((event.prior, Move::Stopped(event.status)))
        }
    }
}

/// Returns whether a pass reads a record for a task, given whether the record is an early fulfilment of the
/// task's event, whether it is at the task's home, and whether it begins or ends a turn of a task that
/// moved.
fn reads(pass: Pass, is_early: bool, is_home: bool, is_turned: bool) -> bool
    ensures { result ≡ reads pass is_early is_home is_turned }
{
    match pass {
        Pass::Early => is_early && !is_home,
        Pass::Home => is_home,
        Pass::Rest => !is_early && !is_home && !is_turned,
    }
}

/// Keeps the first place at which a move was not allowed, after a move at this place that led to this state,
/// or was not allowed.
fn note_refused(refused: &mut Option<usize>, after: Option<State>, at: usize)
    ensures { (before : State) → refused.new ≡ refused_after refused.old (Some before) after at }
{
    if after.is_none() {
        *refused = Some(earlier(*refused, at));
    }
}

/// Marks the record at this place, if there is a mark for it, after a move there that led to this state, or
/// was not allowed.
fn mark_refused(marks: &mut Vec<bool>, after: Option<State>, at: usize)
    ensures { (before : State) → marks.new.items ≡ marks_after marks.old.items (Some before) after at }
{
    if after.is_none() {
        mark(marks, at);
    }
}

/// Marks the record at this place, if there is a mark for it.
fn mark(marks: &mut Vec<bool>, at: usize)
    ensures { marks.new.items ≡ set marks.old.items at true }
{
    if at < marks.len() {
        marks[at] = true;
    }
}

/// Returns the table in which no record is marked. Fails only when out of memory.
fn no_marks(alloc: Global, count: usize) -> Result<Vec<bool>, AllocError>
    ensures { IfOk result (λ marks. marks.items ≡ replicate count false) }
{
    vec![in alloc; false; count]
}

/// Returns the earlier of the two places, or the second one where there is no first.
fn earlier(first: Option<usize>, at: usize) -> usize
    ensures { result ≡ earlier_of first at }
{
    match first {
        Some(place) => { if place < at { place } else { at } }
        None => at,
    }
}
