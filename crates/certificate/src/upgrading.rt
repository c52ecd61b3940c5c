//! A trace in a newer version. From version 1 to 2 a first pass over the records notes on which thread each
//! task runs, and which tasks are initial or implicit ones; a second one writes its turns into each record, in
//! place. From version 2 to 3 the records stay the same.
ghost use Rattle.std.specs.Prelude.{ℕ, ◌≡◌, ◌<◌, ◌≤◌, ◌^◌, length, Some, IfOk, IfErr, IsSome};
ghost use Rattle.std.specs.Ordering.{nat_cmp};
ghost use Rattle.std.specs.BTreeMap.{get};
ghost use Rattle.ompt_events.specs.Records.{started};
ghost use Rattle.ompt_events.specs.Traces.{IsTraceOf};
ghost use Rattle.ompt_events.specs.Upgrades.{MovesNowhere, IsUpgrade, IsRelabelled, telling};
ghost use Rattle.certificate.specs.Upgrading.{IsUpgraded, IsInVersion3, IsUpgradedTo, IsRefusal};
ghost use Rattle.certificate.specs.TaskTurns.{noted, with_turn, turns_told, told_by, AreHomesNoted};

use crate::faults::UpgradeFault;
use crate::task_turns::{TaskTurns, begin_turn, note_begin, note_start, turn_ended};
use ompt_events::{Body, Record, Trace, Turns};
use std::alloc::Global;
use std::collections::BTreeMap;

/// Returns the trace in version 2: the same records, with turns in each record after which a task runs next.
/// A trace of version 2 or 3 is returned as it is. Fails with `Moved` and the place of the first record after
/// which a task runs that ran on another thread before, or out of memory; then the trace is returned as it
/// was.
pub fn upgrade(alloc: Global, trace: Trace) -> Result<Trace, (Trace, UpgradeFault)>
    ensures upgraded { IfOk result (IsUpgraded trace) }
    ensures back { IfErr result (λ refusal. refusal.0 ≡ trace) }
    ensures refused { IfErr result (λ refusal. (trace.version ≡ 1) × IsRefusal trace.records refusal.1) }
{
    if trace.version() != 1 {
        return Ok(trace);
    }
    match find_homes(alloc, trace.records()) {
        Ok(table) => Ok(tell_all(trace.into_records(), table)),
        Err(fault) => Err((trace, fault)),
    }
}

/// Returns the trace in this version, 2 or 3, if its own is older, and else as it is. Fails as [`upgrade`] does,
/// and then returns the trace as it was.
pub fn upgrade_to(alloc: Global, version: u32, trace: Trace) -> Result<Trace, (Trace, UpgradeFault)>
    requires { (2 ≤ version) × (version ≤ 3) }
    ensures upgraded { IfOk result (IsUpgradedTo version trace) }
    ensures back { IfErr result (λ refusal. refusal.0 ≡ trace) }
    ensures refused { IfErr result (λ refusal. (trace.version ≡ 1) × IsRefusal trace.records refusal.1) }
{
    match upgrade(alloc, trace) {
        Ok(upgraded) if version == 2 => Ok(upgraded),
        Ok(upgraded) => Ok(to_version_3(upgraded)),
        Err(refusal) => Err(refusal),
    }
}

/// Returns a trace of version 2 in version 3, in which parallel regions may lie inside others: the records stay
/// the same. Any other trace is returned as it is. Takes no memory.
pub fn to_version_3(trace: Trace) -> Trace
    ensures { IsInVersion3 trace result }
{
    if trace.version() != 2 {
        return trace;
    }
    Trace::from_parts(3, relabelled(trace.into_records()))
}

/// Returns the records in version 3.
fn relabelled(mut records: Vec<Record>) -> Vec<Record>
    ensures { IsRelabelled records.items result.items }
{
    for at in 0..records.len() {
        records[at].nests = true;
    }
    records
}

/// Returns on which thread each task runs, and its first turn.
fn find_homes(alloc: Global, records: &[Record]) -> Result<BTreeMap<u64, TaskTurns>, UpgradeFault>
    ensures stay { IfOk result (λ table. MovesNowhere records.now) }
    ensures homes { IfOk result (AreHomesNoted records.now (length records.now)) }
    ensures refused { IfErr result (IsRefusal records.now) }
{
    let mut table = BTreeMap::new(alloc);
    for at in 0..records.len() {
        let event = &records[at];
        match note_begin(&mut table, event) {
            Ok(()) => {}
            Err(_) => return Err(UpgradeFault::Memory),
        }
        match note_start(&mut table, event) {
            Ok(true) => {}
            Ok(false) => return Err(UpgradeFault::Moved(at)),
            Err(_) => return Err(UpgradeFault::Memory),
        }
    }
    Ok(table)
}

/// Returns the trace of version 2 of these records, each with its turns.
fn tell_all(mut records: Vec<Record>, mut table: BTreeMap<u64, TaskTurns>) -> Trace
    requires trace { IsTraceOf 1 records.items }
    requires homes { AreHomesNoted records.items (length records.items) table }
    ensures version { result.version ≡ 2 }
    ensures upgrade { IsUpgrade records.items result.records }
{
    for at in 0..records.len() {
        tell(&mut records[at], &mut table);
    }
    Trace::from_parts(2, records)
}

/// Writes its turns into the record, if a task runs after it.
fn tell(event: &mut Record, table: &mut BTreeMap<u64, TaskTurns>)
    requires known { (task : ℕ) → started event.old.body ≡ Some task → IsSome (get nat_cmp table.old task) }
    requires few { (task : ℕ) → (noted table.old task).next < 2 ^ 31 }
    ensures told { event.new ≡ told_by table.old event.old }
    ensures noted { (task : ℕ) → noted table.new task ≡ with_turn task event.old (noted table.old task) }
{
    if let Some(turns) = turns_of(event, table) {
        set_turns(&mut event.body, turns);
    }
}

/// Returns the turns of the record, if a task runs after it, and begins the next turn of that task.
fn turns_of(event: &Record, table: &mut BTreeMap<u64, TaskTurns>) -> Option<Turns>
    requires known { (task : ℕ) → started event.now.body ≡ Some task → IsSome (get nat_cmp table.old task) }
    requires few { (task : ℕ) → (noted table.old task).next < 2 ^ 31 }
    ensures told { result ≡ turns_told table.old event.now.thread event.now.body }
    ensures noted { (task : ℕ) → noted table.new task ≡ with_turn task event.now (noted table.old task) }
{
    let Body::TaskSchedule {
        prior,
        next: Some(next),
        ..
    } = &event.body
    else {
        return None;
    };
    let prior = turn_ended(table, *prior, event.thread);
    let next = begin_turn(table, *next);
    Some(Turns { prior, next })
}

/// Writes these turns into a task_schedule.
fn set_turns(body: &mut Body, told: Turns)
    ensures { body.new ≡ telling told body.old }
{
    if let Body::TaskSchedule { turns, .. } = body {
        *turns = Some(told);
    }
}
