//! A step of a script as a call on a recorder.
ghost use Rattle.std.specs.Prelude.{◌≡◌, None, Some, IsSome, IsTrue, OnOk, IfOk, IfErr};
ghost use Rattle.ompt_events.specs.Records.{created, dependences, region, cancellation};
ghost use Rattle.credit_ledger.specs.Places.{ledger_id};
ghost use Rattle.scripts.specs.RunCalls.{first_given, second_given, call_refusal, recorded_body};
ghost use Rattle.scripts.specs.Parts.{AreGiven, IsCalled, IsCallFault, is_parallel, is_implicit_task, is_schedule};

use bitflags::Flags;
use callbacks::{CallFault, Recorder, TaskData};
use credit_ledger::SharedLedger;
use ompt_events::{Body, CancelFlags, Dep, Endpoint};
use std::alloc::{AllocError, Global};
use std::sync::Wait;

/// The values of the tasks that a call names, in the order in which it names them.
#[derive(Drop)]
pub(crate) struct Values {
    pub alloc: Global,
    pub first: Option<TaskData>,
    pub second: Option<TaskData>,
}

impl Values {
    /// Takes the first value, and returns it.
    fn take_first(&mut self) -> TaskData
        requires { IsSome self.old.first }
        ensures value { Some result ≡ self.old.first }
        ensures taken { self.new.first ≡ None }
        ensures second { self.new.second ≡ self.old.second }
    {
        match self.first.take() {
            Some(value) => value,
            None => unreachable!(),
        }
    }
}

/// Returns the task that a call names first, unless it makes it.
pub(crate) fn first_given(body: &Body) -> Option<u64>
    ensures { result ≡ first_given body.now }
{
    match body {
        Body::ThreadBegin { .. } | Body::ThreadEnd => None,
        Body::ImplicitTask {
            endpoint: Endpoint::Begin,
            ..
        } => None,
        Body::ParallelBegin { task, .. }
        | Body::ParallelEnd { task, .. }
        | Body::ImplicitTask { task, .. }
        | Body::TaskCreate { task, .. }
        | Body::Dependences { task, .. }
        | Body::SyncRegion { task, .. }
        | Body::Cancel { task, .. } => Some(*task),
        Body::TaskSchedule { prior, .. } => Some(*prior),
    }
}

/// Returns the task that a call names next, unless it makes it.
pub(crate) fn second_given(body: &Body) -> Option<u64>
    ensures { result ≡ second_given body.now }
{
    match body {
        Body::TaskSchedule { next, .. } => *next,
        _ => None,
    }
}

/// Makes the call of a step. Requires the values of the tasks that it is given, and leaves those that are used
/// again. Fails with the fault of the recorder or of the ledger, or when out of memory.
pub(crate) fn call<R: Wait>(
    recorder: &mut Recorder,
    ledger: &SharedLedger,
    wait: &R,
    body: &Body,
    values: &mut Values,
) -> Result<(), CallFault>
    requires ledger { recorder.old.ledger ≡ ledger_id ledger.now }
    requires given { AreGiven body.now values.old.first values.old.second }
    ensures called { OnOk result (IsCalled recorder.old body.now values.old.first values.old.second
        recorder.new values.new.first values.new.second) }
    ensures fault { IfErr result (IsCallFault recorder.old
        (call_refusal recorder.old body.now values.old.first values.old.second)
        (recorded_body body.now values.old.first values.old.second) recorder.new) }
{
    match body {
        Body::ThreadBegin { kind } => recorder.ompt_callback_thread_begin(*kind),
        Body::ThreadEnd => recorder.ompt_callback_thread_end(),
        Body::TaskSchedule { .. } => schedule(recorder, ledger, wait, body, values),
        Body::SyncRegion { .. } => region(recorder, ledger, wait, body, values),
        Body::Cancel { .. } => cancel(recorder, ledger, wait, body, values),
        Body::ImplicitTask { .. } => implicit_task(recorder, body, values),
        Body::TaskCreate { .. } => create(recorder, body, values),
        Body::ParallelBegin { .. } | Body::ParallelEnd { .. } => parallel(recorder, body, values),
        Body::Dependences { .. } => list_dependences(recorder, body, values),
    }
}

/// Makes the call of a task that begins or ends a parallel region.
fn parallel(recorder: &mut Recorder, body: &Body, values: &mut Values) -> Result<(), CallFault>
    requires kind { IsTrue (is_parallel body.now) }
    requires given { AreGiven body.now values.old.first values.old.second }
    ensures called { OnOk result (IsCalled recorder.old body.now values.old.first values.old.second
        recorder.new values.new.first values.new.second) }
    ensures fault { IfErr result (IsCallFault recorder.old
        (call_refusal recorder.old body.now values.old.first values.old.second)
        (recorded_body body.now values.old.first values.old.second) recorder.new) }
{
    let value = values.take_first();
    let called = match body {
        Body::ParallelBegin {
            requested,
            parallel,
            ..
        } => recorder.ompt_callback_parallel_begin(&value, *parallel, *requested),
        Body::ParallelEnd { parallel, .. } => recorder.ompt_callback_parallel_end(
            &value, *parallel,
        ),
        _ => unreachable!(),
    };
    values.first = Some(value);
    called
}

/// Makes the call of an initial or implicit task that begins or ends.
fn implicit_task(recorder: &mut Recorder, body: &Body, values: &mut Values) -> Result<(), CallFault>
    requires kind { IsTrue (is_implicit_task body.now) }
    requires given { AreGiven body.now values.old.first values.old.second }
    ensures called { OnOk result (IsCalled recorder.old body.now values.old.first values.old.second
        recorder.new values.new.first values.new.second) }
    ensures fault { IfErr result (IsCallFault recorder.old
        (call_refusal recorder.old body.now values.old.first values.old.second)
        (recorded_body body.now values.old.first values.old.second) recorder.new) }
{
    let Body::ImplicitTask {
        endpoint,
        actual,
        index,
        flags,
        parallel,
        task,
    } = body
    else {
        unreachable!()
    };
    match endpoint {
        Endpoint::Begin => {
            match recorder.ompt_callback_implicit_task_begin(
                *parallel, *task, *actual, *index, *flags,
            ) {
                Ok(begun) => {
                    values.first = Some(begun);
                    Ok(())
                }
                Err(fault) => Err(fault),
            }
        }
        Endpoint::End => {
            let value = values.take_first();
            match recorder.ompt_callback_implicit_task_end(value, *parallel) {
                Ok(()) => Ok(()),
                Err((_, fault)) => Err(fault),
            }
        }
        Endpoint::BeginEnd => Err(CallFault::WrongState),
    }
}

/// Makes the call of a task that creates another one.
fn create(recorder: &mut Recorder, body: &Body, values: &mut Values) -> Result<(), CallFault>
    requires kind { IsSome (created body.now) }
    requires given { AreGiven body.now values.old.first values.old.second }
    ensures called { OnOk result (IsCalled recorder.old body.now values.old.first values.old.second
        recorder.new values.new.first values.new.second) }
    ensures fault { IfErr result (IsCallFault recorder.old
        (call_refusal recorder.old body.now values.old.first values.old.second)
        (recorded_body body.now values.old.first values.old.second) recorder.new) }
{
    let Body::TaskCreate {
        deps,
        flags,
        child,
        ..
    } = body
    else {
        unreachable!()
    };
    let mut value = values.take_first();
    match recorder.ompt_callback_task_create(&mut value, *child, *flags, *deps) {
        Ok(created) => {
            values.first = Some(value);
            values.second = Some(created);
            Ok(())
        }
        Err(fault) => Err(fault),
    }
}

/// Makes the call with the dependences of the task that was created last.
fn list_dependences(
    recorder: &mut Recorder,
    body: &Body,
    values: &mut Values,
) -> Result<(), CallFault>
    requires kind { IsSome (dependences body.now) }
    requires given { AreGiven body.now values.old.first values.old.second }
    ensures called { OnOk result (IsCalled recorder.old body.now values.old.first values.old.second
        recorder.new values.new.first values.new.second) }
    ensures fault { IfErr result (IsCallFault recorder.old
        (call_refusal recorder.old body.now values.old.first values.old.second)
        (recorded_body body.now values.old.first values.old.second) recorder.new) }
{
    let Body::Dependences { list, .. } = body else {
        unreachable!()
    };
    let value = values.take_first();
    let Ok(items) = copied(values.alloc, list.as_slice()) else {
        return Err(CallFault::Memory);
    };
    match recorder.ompt_callback_dependences(&value, items) {
        Ok(()) => {
            values.first = Some(value);
            Ok(())
        }
        Err((_, fault)) => Err(fault),
    }
}

/// Returns a copy of the dependences.
fn copied(alloc: Global, list: &[Dep]) -> Result<Vec<Dep>, AllocError>
    ensures { IfOk result (λ copy. copy.items ≡ list.now) }
{
    let mut copy = Vec::new(alloc);
    copy.extend_from_slice(list)?;
    Ok(copy)
}

/// Makes the call of a task that stops where another one runs next, or that is fulfilled, or complete as a
/// taskwait.
fn schedule<R: Wait>(
    recorder: &mut Recorder,
    ledger: &SharedLedger,
    wait: &R,
    body: &Body,
    values: &mut Values,
) -> Result<(), CallFault>
    requires kind { IsTrue (is_schedule body.now) }
    requires ledger { recorder.old.ledger ≡ ledger_id ledger.now }
    requires given { AreGiven body.now values.old.first values.old.second }
    ensures called { OnOk result (IsCalled recorder.old body.now values.old.first values.old.second
        recorder.new values.new.first values.new.second) }
    ensures fault { IfErr result (IsCallFault recorder.old
        (call_refusal recorder.old body.now values.old.first values.old.second)
        (recorded_body body.now values.old.first values.old.second) recorder.new) }
{
    let Body::TaskSchedule { status, .. } = body else {
        unreachable!()
    };
    let value = values.take_first();
    let scheduled = match values.second.take() {
        Some(mut next) => {
            let scheduled = recorder.ompt_callback_task_schedule(
                ledger,
                wait,
                value,
                *status,
                Some(&mut next),
            );
            values.second = Some(next);
            scheduled
        }
        None => recorder.ompt_callback_task_schedule(ledger, wait, value, *status, None),
    };
    match scheduled {
        Ok(back) => {
            values.first = back;
            Ok(())
        }
        Err((_, fault)) => Err(fault),
    }
}

/// Makes the call of a task that begins or ends a region, or both in one call.
fn region<R: Wait>(
    recorder: &mut Recorder,
    ledger: &SharedLedger,
    wait: &R,
    body: &Body,
    values: &mut Values,
) -> Result<(), CallFault>
    requires kind { IsSome (region body.now) }
    requires ledger { recorder.old.ledger ≡ ledger_id ledger.now }
    requires given { AreGiven body.now values.old.first values.old.second }
    ensures called { OnOk result (IsCalled recorder.old body.now values.old.first values.old.second
        recorder.new values.new.first values.new.second) }
    ensures fault { IfErr result (IsCallFault recorder.old
        (call_refusal recorder.old body.now values.old.first values.old.second)
        (recorded_body body.now values.old.first values.old.second) recorder.new) }
{
    let Body::SyncRegion {
        kind,
        endpoint,
        parallel,
        ..
    } = body
    else {
        unreachable!()
    };
    let mut value = values.take_first();
    let called = match endpoint {
        Endpoint::Begin => recorder.ompt_callback_sync_region_begin(&mut value, *kind, *parallel),
        Endpoint::End => {
            match recorder.ompt_callback_sync_region_end(
                ledger, wait, &mut value, *kind, *parallel,
            ) {
                Ok(_) => Ok(()),
                Err(fault) => Err(fault),
            }
        }
        Endpoint::BeginEnd => {
            match recorder.ompt_callback_sync_region_both(
                ledger, wait, &mut value, *kind, *parallel,
            ) {
                Ok(_) => Ok(()),
                Err(fault) => Err(fault),
            }
        }
    };
    values.first = Some(value);
    called
}

/// Makes the call of a task that cancels a region, sees one cancelled, or is itself discarded.
fn cancel<R: Wait>(
    recorder: &mut Recorder,
    ledger: &SharedLedger,
    wait: &R,
    body: &Body,
    values: &mut Values,
) -> Result<(), CallFault>
    requires kind { IsSome (cancellation body.now) }
    requires ledger { recorder.old.ledger ≡ ledger_id ledger.now }
    requires given { AreGiven body.now values.old.first values.old.second }
    ensures called { OnOk result (IsCalled recorder.old body.now values.old.first values.old.second
        recorder.new values.new.first values.new.second) }
    ensures fault { IfErr result (IsCallFault recorder.old
        (call_refusal recorder.old body.now values.old.first values.old.second)
        (recorded_body body.now values.old.first values.old.second) recorder.new) }
{
    let Body::Cancel { flags, .. } = body else {
        unreachable!()
    };
    let value = values.take_first();
    if flags.contains(CancelFlags::DISCARDED_TASK) {
        return match recorder.ompt_callback_cancel_discarded(ledger, wait, value, *flags) {
            Ok(_) => Ok(()),
            Err((_, fault)) => Err(fault),
        };
    }
    let called = recorder.ompt_callback_cancel(&value, *flags);
    values.first = Some(value);
    called
}
