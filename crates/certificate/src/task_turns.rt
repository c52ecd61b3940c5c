//! What is noted of each task while a trace is upgraded: where it runs, and in which turn.
ghost use Rattle.std.specs.Prelude.{ℕ, ◌≡◌, ◌<◌, ◌^◌, ◌==◌, false, IsTrue, OnOk, IfOk, IsSome, if◌then◌else◌};
ghost use Rattle.std.specs.Ordering.{nat_cmp};
ghost use Rattle.std.specs.BTreeMap.{get};
ghost use Rattle.certificate.specs.TaskTurns.{noted, with_begin, with_start, IsElsewhere, IsAtHome, turn_ended, one_later};

use ompt_events::Record;
use std::alloc::AllocError;
use std::collections::BTreeMap;

/// What is noted of a task.
#[derive(Clone, Copy)]
pub(crate) struct TaskTurns {
    /// The thread on which it runs, if it runs at all.
    home: Option<u8>,
    /// The turn that it begins where it runs next.
    next: u32,
}

/// Returns what is noted of the task.
fn noted(table: &BTreeMap<u64, TaskTurns>, task: u64) -> TaskTurns
    ensures { result ≡ noted table.now task }
{
    match table.get(&task) {
        Some(turns) => *turns,
        None => TaskTurns {
            home: None,
            next: 0,
        },
    }
}

/// Notes the initial or implicit task that begins at the record, if one does.
pub(crate) fn note_begin(
    table: &mut BTreeMap<u64, TaskTurns>,
    event: &Record,
) -> Result<(), AllocError>
    ensures { OnOk result ((task : ℕ)
        → noted table.new task ≡ with_begin task event.now (noted table.old task)) }
{
    if let Some(task) = event.body.begun_root() {
        let turns = noted(table, task);
        table.insert(task, TaskTurns { next: 1, ..turns })?;
    }
    Ok(())
}

/// Notes the thread of the task that runs after the record, if one does. Returns whether it ran on no other
/// thread before; if it did, nothing is noted. Fails out of memory.
pub(crate) fn note_start(
    table: &mut BTreeMap<u64, TaskTurns>,
    event: &Record,
) -> Result<bool, AllocError>
    ensures stays { IfOk result (λ stays. IsTrue stays → IsAtHome table.old event.now) }
    ensures noted { IfOk result (λ stays. IsTrue stays
        → (task : ℕ) → noted table.new task ≡ with_start task event.now (noted table.old task)) }
    ensures moves { IfOk result (λ stays. stays ≡ false → IsElsewhere table.old event.now) }
{
    let Some(task) = event.body.started() else {
        return Ok(true);
    };
    let turns = noted(table, task);
    match turns.home {
        Some(home) => Ok(home == event.thread),
        None => {
            let home = Some(event.thread);
            table.insert(task, TaskTurns { home, ..turns })?;
            Ok(true)
        }
    }
}

/// Returns the turn that the task ends where it stops running on the thread: the one that it began last, and
/// 0 if it does not run there.
pub(crate) fn turn_ended(table: &BTreeMap<u64, TaskTurns>, task: u64, thread: u8) -> u32
    ensures { result ≡ turn_ended (noted table.now task) thread }
{
    let turns = noted(table, task);
    if turns.home != Some(thread) {
        return 0;
    }
    turns.next.saturating_sub(1)
}

/// Begins the next turn of the task, and returns it. Takes no memory.
pub(crate) fn begin_turn(table: &mut BTreeMap<u64, TaskTurns>, task: u64) -> u32
    requires known { IsSome (get nat_cmp table.old task) }
    requires few { (noted table.old task).next < 2 ^ 31 }
    ensures turn { result ≡ (noted table.old task).next }
    ensures later { (q : ℕ) → noted table.new q
        ≡ if task == q then one_later (noted table.old q) else noted table.old q }
{
    match table.get_mut(&task) {
        Some(turns) => {
            let turn = turns.next;
            turns.next = turn + 1;
            turn
        }
        None => unreachable!(),
    }
}
