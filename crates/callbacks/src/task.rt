//! The tool's own value of one task.
ghost use Rattle.std.specs.Prelude.{◌≡◌, ◌≤◌, ◌<◌, ◌^◌, ◌+◌, [], Some, None, true, length, IfOk, OnOk, OnErr};
ghost use Rattle.ompt_events.specs.declared.records.Part.{Part};
ghost use Rattle.ompt_events.specs.Flags.{task_flags, are_named};
ghost use Rattle.ompt_events.specs.States as states;
ghost use Rattle.ompt_events.specs.Traces.{IsSoundIn};
ghost use Rattle.task_states.specs.Progress.{the_nature, the_move};
ghost use Rattle.callbacks.specs.Tasks.{parent_of, place_of, is_initial_task, is_root_on, end_of_root, after_start, after_stop, nature, state_moved, is_running, current_turn, turn_begun_next, innermost_region, is_innermost_region, is_barred, is_deep, is_crowded, root_of, child_of, with_child, in_state, running_in, with_region, without_region, entry_of_part};

use bitflags::Flags;
use credit_ledger::Entry;
use ompt_events::{
    Body, BoxedClaim, Claim, ClaimPath, Endpoint, MAX_DEPTH, Part, State, Status, SyncKind,
    TaskFlags,
};
use std::alloc::{AllocError, Global};
use std::marker::Model;
use task_states::{Move, Nature, after_move};

/// The place of a root: the thread on which it begins, the size of its team, and its number there.
#[derive(Clone, Copy, Debug)]
pub struct TeamPlace {
    pub home: u8,
    pub actual: u32,
    pub index: u32,
}

/// Where a task comes from.
#[derive(Clone, Copy, Debug)]
pub enum Origin {
    /// An initial or implicit task, which begins on a thread.
    Root(TeamPlace),
    /// An explicit task, which this one created.
    Explicit(u64),
}

/// The tool's own value of one task. It is made where the task begins or is created, is passed to each call
/// about the task, and is consumed where the task ends. It cannot be copied, so no two threads record one
/// task at once.
#[derive(Debug, Drop)]
pub struct TaskData {
    id: u64,
    origin: Origin,
    flags: TaskFlags,
    /// The turn that it began last.
    turn: Option<u32>,
    state: State,
    claim: Claim,
    /// The kinds of its open regions, the innermost last.
    regions: Vec<SyncKind>,
}

impl Model for TaskData {
    ghost use Rattle.std.specs.Prelude.{◌≡◌, ◌≤◌, length, true};
    ghost use Rattle.ompt_events.specs.Flags.{task_flags, are_named};
    ghost use Rattle.callbacks.specs.Tasks.{TaskView};

    ghost Value = { TaskView };

    ghost view = { λ task. record {
      id = task.id;
      origin = task.origin;
      flags = task.flags;
      turn = task.turn;
      state = task.state;
      claim = task.claim;
      regions = task.regions.items;
    } };

    ghost invariant = { λ task.
        (length task.claim.path ≤ 1024) × (are_named task_flags task.flags.0 ≡ true) };
}

impl TaskData {
    /// Returns the task's id.
    pub fn id(&self) -> u64
        ensures { result ≡ self.now.id }
    {
        self.id
    }

    /// Returns the state of the task.
    pub fn state(&self) -> State
        ensures { result ≡ self.now.state }
    {
        self.state
    }

    /// Returns what a record that finishes it now must claim: its root, its path from there, and how many
    /// children it has.
    pub fn claim(&self) -> &Claim
        ensures { result.now ≡ self.now.claim }
    {
        &self.claim
    }

    /// Returns the task that created it; an initial or implicit task has none.
    pub fn parent(&self) -> Option<u64>
        ensures { result ≡ parent_of self.now.origin }
    {
        match self.origin {
            Origin::Explicit(parent) => Some(parent),
            Origin::Root(_) => None,
        }
    }

    /// Returns the kinds of its open regions, the innermost last.
    pub fn regions(&self) -> &[SyncKind]
        ensures { result.now ≡ self.now.regions }
    {
        self.regions.as_slice()
    }
}

// How a task is made, and how the calls change it.
impl TaskData {
    /// Returns a root that begins. Takes no memory.
    pub fn root(alloc: Global, id: u64, place: TeamPlace, flags: TaskFlags) -> TaskData
        requires { are_named task_flags flags.0 ≡ true }
        ensures { result ≡ root_of id place flags }
    {
        TaskData {
            id,
            origin: Origin::Root(place),
            flags,
            turn: Some(0),
            state: State::Running,
            claim: Claim {
                kept: 0,
                root: id,
                path: ClaimPath::new(),
            },
            regions: Vec::new(alloc),
        }
    }

    /// Returns the child that the task creates next.
    pub fn child(&self, id: u64, flags: TaskFlags) -> Result<TaskData, AllocError>
        requires shallow { length self.now.claim.path < 1024 }
        requires named { are_named task_flags flags.0 ≡ true }
        ensures { IfOk result (λ child. child ≡ child_of self.now id flags) }
    {
        let alloc = *self.regions.allocator();
        Ok(TaskData {
            id,
            origin: Origin::Explicit(self.id),
            flags,
            turn: None,
            state: State::Created,
            claim: Claim {
                kept: 0,
                root: self.claim.root,
                path: self.claim.path.child(alloc, self.claim.kept)?,
            },
            regions: Vec::new(alloc),
        })
    }

    /// Counts one more child of the task.
    pub fn count_child(&mut self)
        requires { self.old.claim.kept + 1 < 2 ^ 32 }
        ensures { self.new ≡ with_child self.old }
    {
        self.claim.kept += 1;
    }

    /// Stops or fulfils the task with this status, if that is allowed.
    pub fn stop(&mut self, status: Status)
        ensures { self.new ≡ after_stop self.old status }
    {
        if let Some(state) = self.state_stopped(status) {
            self.state = state;
        }
    }

    /// Starts the next turn of the task, if that is allowed.
    pub fn start(&mut self)
        ensures { self.new ≡ after_start self.old }
    {
        let state = self.state_started();
        let turn = self.next_turn();
        if let (Some(state), Some(turn)) = (state, turn) {
            self.state = state;
            self.turn = Some(turn);
        }
    }

    /// Begins a region of the task. Fails only when out of memory.
    pub fn begin_region(&mut self, kind: SyncKind) -> Result<(), AllocError>
        ensures begun { OnOk result (self.new ≡ with_region self.old kind) }
        ensures unchanged { OnErr result (self.new ≡ self.old) }
    {
        self.regions.push(kind)?;
        Ok(())
    }

    /// Ends the innermost region of the task.
    pub fn end_region(&mut self)
        ensures { self.new ≡ without_region self.old }
    {
        self.regions.pop();
    }

    /// Returns the entry that the ledger gets when the part of the task is finished on the thread, and the
    /// claim of its record.
    pub(crate) fn finish(&self, thread: u8, part: Part) -> Result<(Entry, BoxedClaim), AllocError>
        ensures entry { IfOk result (λ made. made.0 ≡ entry_of_part thread part self.now) }
        ensures claim { IfOk result (λ made. made.1 ≡ self.now.claim) }
        ensures short { IfOk result (λ made. (length made.0.path ≤ 1024) × (length made.1.path ≤ 1024)) }
    {
        let alloc = *self.regions.allocator();
        let entry = Entry {
            thread,
            part,
            kept: self.claim.kept,
            task: self.id,
            root: self.claim.root,
            path: self.claim.path.to_path(alloc)?,
        };
        let claim = Claim {
            kept: self.claim.kept,
            root: self.claim.root,
            path: self.claim.path.copied(alloc)?,
        };
        Ok((entry, BoxedClaim::new(alloc, claim)?))
    }
}

// What a call asks about a task.
impl TaskData {
    /// Returns the place of the task as a root, if it is one.
    pub(crate) fn place(&self) -> Option<TeamPlace>
        ensures { result ≡ place_of self.now.origin }
    {
        match self.origin {
            Origin::Root(place) => Some(place),
            Origin::Explicit(_) => None,
        }
    }

    /// Returns whether it is a root that began on the thread.
    pub fn is_root_on(&self, thread: u8) -> bool
        ensures { result ≡ is_root_on thread self.now }
    {
        match self.place() {
            Some(place) => place.home == thread,
            None => false,
        }
    }

    /// Returns the body of the record with which it ends as a root, with the flags and the place in its
    /// team with which it began.
    pub fn end_of_root(&self, parallel: u64) -> Body
        ensures body { result ≡ end_of_root self.now parallel }
        ensures sound { IsSoundIn 2 result }
    {
        let (actual, index) = match self.place() {
            Some(place) => (place.actual, place.index),
            None => (0, 0),
        };
        Body::ImplicitTask {
            endpoint: Endpoint::End,
            actual,
            index,
            flags: self.flags,
            parallel,
            task: self.id,
        }
    }

    /// Returns whether it is an initial task.
    pub fn is_initial(&self) -> bool
        ensures { result ≡ is_initial_task self.now }
    {
        self.place().is_some() && self.flags.contains(TaskFlags::INITIAL)
    }

    /// Returns the state after the task stops or is fulfilled with this status, if that is allowed.
    pub(crate) fn state_stopped(&self, status: Status) -> Option<State>
        ensures { result ≡ state_moved self.now (states.Stopped status) }
    {
        self.state_moved(Move::Stopped(status))
    }

    /// Returns the state after the task runs next, if that is allowed.
    pub(crate) fn state_started(&self) -> Option<State>
        ensures { result ≡ state_moved self.now states.Started }
    {
        self.state_moved(Move::Started)
    }

    /// Returns the state after the task is discarded, if that is allowed.
    pub fn state_discarded(&self) -> Option<State>
        ensures { result ≡ state_moved self.now states.Discarded }
    {
        self.state_moved(Move::Discarded)
    }

    /// Returns the state after the move, if that is allowed.
    fn state_moved(&self, step: Move) -> Option<State>
        ensures { result ≡ state_moved self.now (the_move step) }
    {
        after_move(self.nature(), self.state(), step)
    }

    /// Returns which moves the task can make: those of a root, of a taskwait with dependences, or of
    /// another task.
    fn nature(&self) -> Nature
        ensures { the_nature result ≡ nature self.now }
    {
        match self.origin {
            Origin::Root(_) => Nature::Root,
            Origin::Explicit(_) if self.flags.contains(TaskFlags::TASKWAIT) => Nature::Wait,
            Origin::Explicit(_) => Nature::Plain,
        }
    }

    /// Returns the turn in which the task is, or 0 if it has begun none.
    pub(crate) fn turn(&self) -> u32
        ensures { result ≡ current_turn self.now }
    {
        self.turn.unwrap_or(0)
    }

    /// Returns the turn that the task begins next, if it is a number of 32 bits.
    pub(crate) fn next_turn(&self) -> Option<u32>
        ensures { result ≡ turn_begun_next self.now }
    {
        match self.turn {
            Some(turn) => turn.checked_add(1),
            None => Some(0),
        }
    }

    /// Returns whether its children would be too deep.
    pub fn is_deep(&self) -> bool
        ensures { result ≡ is_deep self.now }
    {
        self.claim.path.len() >= MAX_DEPTH
    }

    /// Returns whether it has as many children as a task may have.
    pub fn is_crowded(&self) -> bool
        ensures { result ≡ is_crowded self.now }
    {
        self.claim.kept == u32::MAX
    }

    /// Returns whether it runs, so that it may create other tasks.
    pub fn is_running(&self) -> bool
        ensures { result ≡ is_running self.now.state }
    {
        match self.state {
            State::Running | State::EarlyRunning => true,
            _ => false,
        }
    }

    /// Returns whether the innermost open region is of this kind.
    pub fn is_innermost_region(&self, kind: SyncKind) -> bool
        ensures { result ≡ is_innermost_region self.now kind }
    {
        match self.regions.last() {
            Some(found) => *found == kind,
            None => false,
        }
    }

    /// Returns whether the region is a barrier and the task is explicit. An explicit task may have no
    /// barrier (OpenMP 5.2, 15.3).
    pub fn is_barred(&self, kind: SyncKind) -> bool
        ensures { result ≡ is_barred self.now kind }
    {
        kind.is_called_barrier() && self.parent().is_some()
    }
}
