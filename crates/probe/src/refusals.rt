//! Lists of records that are no trace for a reason that no file has, and a thread's buffer.
use anyhow::Result;
use ompt_events::{
    Body, BoxedClaim, CancelFlags, Claim, ClaimPath, Endpoint, Record, Status, TaskFlags, Trace,
    Turns,
};
use std::alloc::{AllocError, Global};
use thread_buffers::Buffer;

/// Prints of each list where it is refused, and how many records come back.
pub fn all(rt: &HostRuntime) -> Result<()> {
    for number in 0..9u8 {
        let (what, last) = last_record(rt.alloc(), number)?;
        let mut records = Vec::new(rt.alloc());
        records.push(begins(TaskFlags::INITIAL, Endpoint::Begin))?;
        records.push(last)?;
        tell(rt, what, Trace::from_records(records))?;
    }
    in_turns(rt)?;
    nested(rt)?;
    buffered(rt)
}

/// Prints whether the records are a trace.
fn tell(rt: &HostRuntime, what: &str, made: Result<Trace, (Vec<Record>, usize)>) -> Result<()> {
    match made {
        Ok(trace) => {
            let (count, version) = (trace.records().len(), trace.version());
            println!(rt; "{what}: a trace of {count}, version {version}")?;
        }
        Err((records, at)) => {
            let count = records.len();
            println!(rt; "{what}: refused at {at} of {count}")?;
        }
    }
    Ok(())
}

/// Prints of records that tell turns, and of some that tell none, whether they are a trace of each version.
fn in_turns(rt: &HostRuntime) -> Result<()> {
    for number in 0..5u8 {
        let (what, event) = turning_record(number);
        tell(rt, what, Trace::from_records(one(rt.alloc(), event)?))?;
        let (what, event) = turning_record(number);
        tell(rt, what, Trace::from_turns(one(rt.alloc(), event)?))?;
    }
    Ok(())
}

/// Prints of a record by which regions may lie inside others, and of one by which they may not, whether they are a
/// trace of version 3, and of the first whether it is one of version 2.
fn nested(rt: &HostRuntime) -> Result<()> {
    let (what, event) = (
        "regions inside others",
        nesting(creates(TaskFlags::EXPLICIT)),
    );
    tell(rt, what, Trace::from_nested(one(rt.alloc(), event)?))?;
    let event = nesting(creates(TaskFlags::EXPLICIT));
    tell(rt, what, Trace::from_turns(one(rt.alloc(), event)?))?;
    let event = creates(TaskFlags::EXPLICIT);
    tell(
        rt,
        "no regions inside others",
        Trace::from_nested(one(rt.alloc(), event)?),
    )
}

/// The record, as one of a trace in which regions may lie inside others.
fn nesting(event: Record) -> Record {
    Record {
        nests: true,
        ..event
    }
}

/// A list of one record.
fn one(alloc: Global, event: Record) -> Result<Vec<Record>, AllocError> {
    let mut records = Vec::new(alloc);
    records.push(event)?;
    Ok(records)
}

/// A record by which turns are told or are missing.
fn turning_record(number: u8) -> (&'static str, Record) {
    let turns = Some(Turns { prior: 1, next: 0 });
    match number {
        0 => (
            "a switch with turns",
            schedules(Status::Switch, turns, Some(1)),
        ),
        1 => (
            "a switch without turns",
            schedules(Status::Switch, None, Some(1)),
        ),
        2 => (
            "an early fulfilment with turns",
            schedules(Status::EarlyFulfill, turns, None),
        ),
        3 => (
            "an early fulfilment without turns",
            schedules(Status::EarlyFulfill, None, None),
        ),
        _ => ("no schedule", creates(TaskFlags::EXPLICIT)),
    }
}

/// Prints what a buffer of thread 3 holds after one record.
fn buffered(rt: &HostRuntime) -> Result<()> {
    let mut buffer = Buffer::new(rt.alloc(), 3);
    buffer.reserve_one()?;
    buffer.push_reserved(begins(TaskFlags::INITIAL, Endpoint::Begin));
    let thread = buffer.thread();
    let count = buffer.len();
    let same = buffer.records().len() == count;
    let given_back = buffer.into_records().len();
    println!(rt; "thread {thread}: {count} record, {given_back} given back, {same}")?;
    Ok(())
}

/// A record that stands after the begin of an initial task, and what it shows.
fn last_record(alloc: Global, number: u8) -> Result<(&'static str, Record), AllocError> {
    let claim = BoxedClaim::new(
        alloc,
        Claim {
            kept: 0,
            root: 1,
            path: ClaimPath::new(),
        },
    )?;
    Ok(match number {
        0 => ("every task flag", creates(TaskFlags(0xf800_001f))),
        1 => ("a task flag without a name", creates(TaskFlags(0x24))),
        2 => (
            "such a flag of a task that ends",
            begins(TaskFlags(0x21), Endpoint::End),
        ),
        3 => (
            "every cancel flag but discarded_task",
            cancels(CancelFlags(0x3f), None),
        ),
        4 => (
            "a cancel flag without a name",
            cancels(CancelFlags(0x80), None),
        ),
        5 => (
            "an implicit task that begins and ends at once",
            begins(TaskFlags::INITIAL, Endpoint::BeginEnd),
        ),
        6 => (
            "a completion without a claim",
            stops(Status::Complete, None),
        ),
        7 => ("a switch with a claim", stops(Status::Switch, Some(claim))),
        _ => (
            "a discard without a claim",
            cancels(CancelFlags::DISCARDED_TASK, None),
        ),
    })
}

/// A record of thread 0.
fn record(body: Body) -> Record {
    Record {
        thread: 0,
        nests: false,
        seq: 0,
        seen: 0,
        body,
    }
}

fn begins(flags: TaskFlags, endpoint: Endpoint) -> Record {
    record(Body::ImplicitTask {
        endpoint,
        actual: 1,
        index: 0,
        flags,
        parallel: 0,
        task: 1,
    })
}

fn creates(flags: TaskFlags) -> Record {
    record(Body::TaskCreate {
        deps: false,
        flags,
        task: 1,
        child: 2,
    })
}

fn cancels(flags: CancelFlags, claim: Option<BoxedClaim>) -> Record {
    record(Body::Cancel {
        flags,
        task: 1,
        claim,
    })
}

fn stops(status: Status, claim: Option<BoxedClaim>) -> Record {
    record(Body::TaskSchedule {
        status,
        turns: None,
        prior: 2,
        next: Some(1),
        claim,
    })
}

fn schedules(status: Status, turns: Option<Turns>, next: Option<u64>) -> Record {
    record(Body::TaskSchedule {
        status,
        turns,
        prior: 2,
        next,
        claim: None,
    })
}
