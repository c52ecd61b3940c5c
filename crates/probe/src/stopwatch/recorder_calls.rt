//! The calls of a recorder, beside a list of records behind a lock.
ghost use Rattle.std.specs.Prelude.{◌≡◌};
ghost use Rattle.credit_ledger.specs.Places.{ledger_id};

use crate::stopwatch::threads::{Calls, Plan};
use anyhow::Result;
use callbacks::{CallFault, Recorder, TaskData};
use credit_ledger::SharedLedger;
use ompt_events::{Body, Record, Status, SyncKind, TaskFlags};
use std::sync::{Mutex, Wait};

/// Makes the calls so often as the plan says. Requires a recorder of the ledger. Fails where a call is refused.
pub fn make<R: Wait>(
    rt: &R,
    ledger: &SharedLedger,
    recorder: Recorder,
    calls: Calls,
    plan: Plan,
) -> Result<()>
    requires { recorder.ledger ≡ ledger_id ledger.now }
{
    let mut recorder = recorder;
    let mut root = recorder.ompt_callback_implicit_task_begin(
        0,
        plan.root,
        1,
        0,
        TaskFlags::INITIAL,
    )?;
    match calls {
        Calls::Create => creations(&mut recorder, &mut root, plan.count)?,
        Calls::Switch => switches(rt, ledger, &mut recorder, &mut root, plan.count)?,
        Calls::Finish => finishes(rt, ledger, &mut recorder, &mut root, plan.count)?,
        Calls::Region => regions(rt, ledger, &mut recorder, &mut root, plan.count)?,
    }
    Ok(())
}

/// The root creates so many tasks.
fn creations(recorder: &mut Recorder, root: &mut TaskData, count: u32) -> Result<(), CallFault> {
    for number in 0..count {
        recorder.ompt_callback_task_create(root, u64::from(number), TaskFlags::EXPLICIT, false)?;
    }
    Ok(())
}

/// The root switches to a task, and that one back to it, so many times.
fn switches<R: Wait>(
    rt: &R,
    ledger: &SharedLedger,
    recorder: &mut Recorder,
    root: &mut TaskData,
    count: u32,
) -> Result<(), CallFault>
    requires { recorder.old.ledger ≡ ledger_id ledger.now }
{
    let mut task = recorder.ompt_callback_task_create(root, 0, TaskFlags::EXPLICIT, false)?;
    'switches: for _ in 0..count {
        recorder.switch_to(ledger, rt, root, &mut task, Status::Switch)?;
        recorder.switch_to(ledger, rt, &mut task, root, Status::Switch)?;
    }
    Ok(())
}

/// The root creates so many tasks, each of which runs and is complete.
fn finishes<R: Wait>(
    rt: &R,
    ledger: &SharedLedger,
    recorder: &mut Recorder,
    root: &mut TaskData,
    count: u32,
) -> Result<(), CallFault>
    requires { recorder.old.ledger ≡ ledger_id ledger.now }
{
    'tasks: for number in 0..count {
        finish(rt, ledger, recorder, root, u64::from(number))?;
    }
    Ok(())
}

/// The root creates a task, which runs and is complete.
fn finish<R: Wait>(
    rt: &R,
    ledger: &SharedLedger,
    recorder: &mut Recorder,
    root: &mut TaskData,
    id: u64,
) -> Result<(), CallFault>
    requires { recorder.old.ledger ≡ ledger_id ledger.now }
    ensures { recorder.new.ledger ≡ recorder.old.ledger }
{
    let mut child = recorder.ompt_callback_task_create(root, id, TaskFlags::EXPLICIT, false)?;
    recorder.switch_to(ledger, rt, root, &mut child, Status::Switch)?;
    match recorder.ompt_callback_task_schedule(ledger, rt, child, Status::Complete, Some(root)) {
        Ok(_left) => Ok(()),
        Err((_task, fault)) => Err(fault),
    }
}

/// The root begins and ends so many taskwaits.
fn regions<R: Wait>(
    rt: &R,
    ledger: &SharedLedger,
    recorder: &mut Recorder,
    root: &mut TaskData,
    count: u32,
) -> Result<(), CallFault>
    requires { recorder.old.ledger ≡ ledger_id ledger.now }
{
    'regions: for _ in 0..count {
        recorder.ompt_callback_sync_region_begin(root, SyncKind::Taskwait, None)?;
        recorder.ompt_callback_sync_region_end(ledger, rt, root, SyncKind::Taskwait, None)?;
    }
    Ok(())
}

/// Pushes so many records onto a list. Fails where memory is refused.
pub fn pushes<R: Wait>(rt: &R, list: &Mutex<Vec<Record>>, count: u32) -> Result<()> {
    for seq in 0..count {
        let event = Record {
            thread: 0,
            nests: false,
            seq,
            seen: 0,
            body: Body::TaskCreate {
                deps: false,
                flags: TaskFlags::EXPLICIT,
                task: 1,
                child: u64::from(seq),
            },
        };
        list.lock(rt).push(event)?;
    }
    Ok(())
}
