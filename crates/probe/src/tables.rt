//! The tables of conflicts and states, and the texts of faults.
use anyhow::Result;
use certificate::{DeviceFault, ReadCause, ReadFault, WriteFault};
use checker::CheckFault;
use credit_ledger::CreditFault;
use ompt_events::{DepKind, State, Status, conflicts};
use task_states::{discard_state, next_state, start_state};

const DEP_KINDS: [DepKind; 5] = [
    DepKind::In,
    DepKind::Out,
    DepKind::Inout,
    DepKind::Mutexinoutset,
    DepKind::Inoutset,
];

const STATES: [State; 7] = [
    State::Created,
    State::Running,
    State::Suspended,
    State::EarlyRunning,
    State::EarlyWaiting,
    State::Detached,
    State::Done,
];

const STATUSES: [Status; 8] = [
    Status::Complete,
    Status::Yield,
    Status::Cancel,
    Status::Detach,
    Status::EarlyFulfill,
    Status::LateFulfill,
    Status::Switch,
    Status::TaskwaitComplete,
];

/// Prints every table.
pub fn all(rt: &HostRuntime) -> Result<()> {
    conflicting(rt)?;
    states(rt)?;
    faults(rt)
}

/// The pairs of dependence types that conflict.
fn conflicting(rt: &HostRuntime) -> Result<()> {
    for a in DEP_KINDS {
        for b in DEP_KINDS {
            let answer = conflicts(a, b);
            println!(rt; "{a:?} {b:?}: {answer}")?;
        }
    }
    Ok(())
}

/// What each state becomes.
fn states(rt: &HostRuntime) -> Result<()> {
    for state in STATES {
        for status in STATUSES {
            let next = next_state(state, status);
            println!(rt; "{state:?} {status:?}: {next:?}")?;
        }
        let started = start_state(state);
        let discarded = discard_state(state);
        println!(rt; "{state:?} started: {started:?}, discarded: {discarded:?}")?;
    }
    Ok(())
}

/// The text of each fault that a call answers.
fn faults(rt: &HostRuntime) -> Result<()> {
    for fault in [DeviceFault::Again, DeviceFault::Broken] {
        println!(rt; "{fault:?}: {fault}")?;
    }
    let line = 2;
    let cause = ReadCause::Unended;
    let fault = ReadFault { line, cause };
    println!(rt; "{fault:?}: {fault}")?;
    for fault in [
        WriteFault::Device,
        WriteFault::Memory,
        WriteFault::TurnsSpent,
    ] {
        println!(rt; "{fault:?}: {fault}")?;
    }
    for fault in [
        CheckFault::Memory,
        CheckFault::Workers,
        CheckFault::Gate(255),
        CheckFault::Thread,
    ] {
        println!(rt; "{fault:?}: {fault}")?;
    }
    for fault in [
        CreditFault::Memory,
        CreditFault::Overlap,
        CreditFault::TooDeep,
    ] {
        let number = fault as u8;
        println!(rt; "{number} {fault:?}: {fault}")?;
    }
    Ok(())
}
