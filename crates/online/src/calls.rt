//! What the call of a record does to the live tasks.
//!
//! `take` tests whether a recorder that is given the call of a record makes this record, and changes the tasks as
//! the call does.
ghost use Rattle.std.specs.Prelude.{ℕ, List, Option, Some, true, ◌≡◌, IsTrue, IfOk, is_some};
ghost use Rattle.packed_trace.specs.Named.{subject, object};
ghost use Rattle.ompt_events.specs.declared.records.Record.{Record};
ghost use Rattle.ompt_events.specs.declared.records.Body.TheVariants.{ParallelBegin, SyncRegion};
ghost use Rattle.online.specs.Tasks.{value_of};
ghost use Rattle.online.specs.declared.calls.Place.{Place};
ghost use Rattle.online.specs.Replays.{Makes, Takes, MayTake};

use crate::claims::{is_claimed, is_end_of, tells};
use crate::tasks::Tasks;
use bitflags::Flags;
use callbacks::{Schedule, TaskData, TeamPlace, ThreadState};
use ompt_events::{Body, CancelFlags, Endpoint, MAX_DEPENDENCES, Part, Status, SyncKind};
use std::alloc::{AllocError, Global};

/// The thread of a record: its number, and what its records so far leave.
#[derive(Clone, Copy)]
pub(crate) struct Place<'a> {
    pub(crate) number: u8,
    pub(crate) state: &'a ThreadState,
}

/// Takes a record with this body, which its thread allows, and returns true, only if a recorder of the thread that
/// is given the record's call makes it. Fails only when out of memory.
pub(crate) fn take(
    alloc: Global,
    tasks: &mut Tasks,
    place: &Place,
    body: &Body,
) -> Result<bool, AllocError>
    ensures { IfOk result (λ taken. IsTrue taken → (own : List Record) → MayTake own place.now body.now
        → Takes place.now.state.now.nests place.now.number own body.now tasks.old tasks.new) }
{
    match body {
        Body::ThreadBegin { .. } | Body::ThreadEnd => Ok(true),
        Body::ParallelBegin { task, .. } => Ok(may_fork(tasks, place, *task)),
        Body::ParallelEnd { task, .. } => Ok(tasks.contains(*task)),
        Body::ImplicitTask {
            endpoint: Endpoint::Begin,
            ..
        } => begin_root(alloc, tasks, place, body),
        Body::ImplicitTask { .. } => Ok(end_root(tasks, place, body)),
        Body::TaskCreate { .. } => create(tasks, body),
        Body::Dependences { task, list } => {
            Ok(tasks.contains(*task) && list.as_slice().len() <= MAX_DEPENDENCES)
        }
        Body::TaskSchedule { .. } => Ok(schedule(tasks, place, body)),
        Body::SyncRegion {
            kind,
            endpoint,
            task,
            ..
        } => region(tasks, *task, *kind, *endpoint),
        Body::Cancel { .. } => Ok(cancel(tasks, body)),
    }
}

/// Returns whether the task is live and may begin a parallel region.
fn may_fork(tasks: &Tasks, place: &Place, task: u64) -> bool
    ensures { IsTrue result → (own : List Record) (requested parallel : ℕ)
        → MayTake own place.now (ParallelBegin requested task parallel)
        → Takes place.now.state.now.nests place.now.number own (ParallelBegin requested task parallel)
        tasks.now tasks.now }
{
    match tasks.get(task) {
        Some(task) => place.state.nests() || task.is_initial(),
        None => false,
    }
}

/// Begins the root.
fn begin_root(
    alloc: Global,
    tasks: &mut Tasks,
    place: &Place,
    body: &Body,
) -> Result<bool, AllocError>
    ensures { IfOk result (λ taken. IsTrue taken → (own : List Record) → MayTake own place.now body.now
        → Takes place.now.state.now.nests place.now.number own body.now tasks.old tasks.new) }
{
    let Body::ImplicitTask {
        endpoint,
        actual,
        index,
        flags,
        task,
        ..
    } = body
    else {
        return Ok(false);
    };
    let Endpoint::Begin = endpoint else {
        return Ok(false);
    };
    if !flags.are_named() {
        return Ok(false);
    }
    let home = TeamPlace {
        home: place.number,
        actual: *actual,
        index: *index,
    };
    let root = TaskData::root(alloc, *task, home, *flags);
    tasks.add(*task, root)?;
    Ok(true)
}

/// Ends the root, if the record is the one with which it ends.
fn end_root(tasks: &mut Tasks, place: &Place, body: &Body) -> bool
    ensures { IsTrue result → (own : List Record) → MayTake own place.now body.now
        → Takes place.now.state.now.nests place.now.number own body.now tasks.old tasks.new }
{
    let Body::ImplicitTask {
        endpoint: Endpoint::End,
        task,
        ..
    } = body
    else {
        return false;
    };
    let Some(root) = tasks.get(*task) else {
        return false;
    };
    if !root.is_root_on(place.number) || !is_end_of(root, body) {
        return false;
    }
    tasks.remove(*task);
    true
}

/// Creates the child, if its parent may create it and there is none of that id.
fn create(tasks: &mut Tasks, body: &Body) -> Result<bool, AllocError>
    ensures { IfOk result (λ taken. IsTrue taken → (own : List Record) (place : Place) → MayTake own place body.now
        → Takes place.state.now.nests place.number own body.now tasks.old tasks.new) }
{
    let Body::TaskCreate {
        flags,
        task,
        child,
        ..
    } = body
    else {
        return Ok(false);
    };
    let Some(parent) = tasks.get(*task) else {
        return Ok(false);
    };
    if task == child {
        return Ok(false);
    }
    if !flags.are_named() || !parent.is_running() || parent.is_deep() || parent.is_crowded() {
        return Ok(false);
    }
    let made = parent.child(*child, *flags)?;
    tasks.count_child(*task);
    tasks.add(*child, made)?;
    Ok(true)
}

/// Stops or fulfils the prior task and starts the next one, if there is one and both may.
fn schedule(tasks: &mut Tasks, place: &Place, body: &Body) -> bool
    ensures { IsTrue result → (own : List Record) → MayTake own place.now body.now
        → Takes place.now.state.now.nests place.now.number own body.now tasks.old tasks.new }
{
    let Body::TaskSchedule {
        status,
        prior,
        next,
        ..
    } = body
    else {
        return false;
    };
    if *next == Some(*prior) || !is_made(tasks, place, body) {
        return false;
    }
    tasks.stop(*prior, *status);
    if let Some(next) = next {
        tasks.start(*next);
    }
    true
}

/// Returns whether a recorder of the thread, given the call of this schedule, makes it.
fn is_made(tasks: &Tasks, place: &Place, body: &Body) -> bool
    ensures made { IsTrue result → (own : List Record) → MayTake own place.now body.now
        → Makes place.now.state.now.nests place.now.number own (value_of tasks.now) body.now }
    ensures prior { IsTrue result → (task : ℕ) → subject body.now ≡ Some task
        → is_some (value_of tasks.now task) ≡ true }
    ensures next { IsTrue result → (task : ℕ) → object body.now ≡ Some task
        → is_some (value_of tasks.now task) ≡ true }
{
    let Body::TaskSchedule {
        status,
        prior,
        next,
        ..
    } = body
    else {
        return false;
    };
    let Some(prior) = tasks.get(*prior) else {
        return false;
    };
    let schedule = match next {
        None => Schedule::of(prior, *status),
        Some(next) => match tasks.get(*next) {
            Some(next) => Schedule::before(prior, *status, next),
            None => return false,
        },
    };
    schedule.is_allowed(place.number, place.state.standing())
        && !schedule.is_last_turn()
        && tells(body, prior, &schedule)
}

/// Begins or ends a region of the task, or both, if it may.
fn region(
    tasks: &mut Tasks,
    task: u64,
    kind: SyncKind,
    endpoint: Endpoint,
) -> Result<bool, AllocError>
    ensures { IfOk result (λ taken. IsTrue taken → (own : List Record) (place : Place) (parallel : Option ℕ)
        → MayTake own place (SyncRegion kind endpoint parallel task)
        → Takes place.state.now.nests place.number own (SyncRegion kind endpoint parallel task)
        tasks.old tasks.new) }
{
    let Some(value) = tasks.get(task) else {
        return Ok(false);
    };
    if value.is_barred(kind) {
        return Ok(false);
    }
    match endpoint {
        Endpoint::Begin => tasks.begin_region(task, kind)?,
        Endpoint::BeginEnd => {}
        Endpoint::End => {
            if !value.is_innermost_region(kind) {
                return Ok(false);
            }
            tasks.end_region(task);
        }
    }
    Ok(true)
}

/// Notes a cancellation, by which the task may be discarded.
fn cancel(tasks: &mut Tasks, body: &Body) -> bool
    ensures { IsTrue result → (own : List Record) (place : Place) → MayTake own place body.now
        → Takes place.state.now.nests place.number own body.now tasks.old tasks.new }
{
    let Body::Cancel { flags, task, claim } = body else {
        return false;
    };
    let Some(found) = tasks.get(*task) else {
        return false;
    };
    if !flags.are_named() {
        return false;
    }
    if !flags.contains(CancelFlags::DISCARDED_TASK) {
        return claim.is_none();
    }
    if found.state_discarded().is_none()
        || found.id() != *task
        || !is_claimed(found, Some(Part::Whole), claim)
    {
        return false;
    }
    tasks.remove(*task);
    true
}
