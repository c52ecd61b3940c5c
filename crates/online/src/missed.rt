//! The task that is missed where a region ends: the end waits for it, and it is not complete.
ghost use Rattle.std.specs.Prelude.{ℕ, ◌≡◌, ◌≤◌, ◌<◌, ◌+◌, IsTrue, IfOk, IfSome, IsSorted, Some, is_some, nat_eq};
ghost use Rattle.std.specs.Prelude.{if◌then◌else◌};
ghost use Rattle.std.specs.Ordering.{nat_cmp};
ghost use Rattle.std.specs.HashMap.{get, hash_map_len};
ghost use Rattle.online.specs.Missed.{AreAwaitedAt, AreInGroup, AreInTeam, HasBegunBarrier, IsAwaitedChild, IsChildIn};
ghost use Rattle.online.specs.Missed.{IsFoundIn, IsPartOfTable, IsReached, IsBelowAwaited};

use crate::kin::Kin;
use crate::kins::Table;
use crate::replay::Replay;
use ompt_events::{Endpoint, SyncKind, WaitKind};
use std::alloc::{AllocError, Global};

/// The children that the end of a region waits for. But for a taskwait it waits for their descendants too.
#[derive(Clone, Copy)]
pub enum Awaited {
    /// The children of this task, at the end of a taskwait.
    Children(u64),
    /// Those of the task that it created in its taskgroup with this number, from 1, which is its innermost one.
    Group { task: u64, number: usize },
    /// Those that the members of the team created before they began their barriers with this number.
    Team { parallel: u64, number: u64 },
}

/// Returns which children the end of a region of the task waits for, as far as that is known.
pub fn awaited_at(table: &Table, task: u64, kind: SyncKind, endpoint: Endpoint) -> Option<Awaited>
    ensures { IfSome result (AreAwaitedAt (get nat_eq table.now) task kind endpoint) }
{
    match (kind.wait_kind()?, endpoint) {
        (WaitKind::Taskwait, Endpoint::End) => Some(Awaited::Children(task)),
        (WaitKind::Taskwait, Endpoint::BeginEnd) => Some(Awaited::Children(task)),
        (WaitKind::Taskgroup, Endpoint::End) => in_group(table, task),
        (WaitKind::Barrier, Endpoint::End) => in_team(table, task),
        _ => None,
    }
}

/// Returns the children that the task created in its innermost taskgroup.
fn in_group(table: &Table, task: u64) -> Option<Awaited>
    ensures { IfSome result (AreInGroup (get nat_eq table.now) task) }
{
    let place = table.get(&task)?.place();
    Some(Awaited::Group {
        task,
        number: place.group,
    })
}

/// Returns the children that the members of the task's team created before their barriers with the number of the
/// one that the task began last.
fn in_team(table: &Table, task: u64) -> Option<Awaited>
    ensures { IfSome result (AreInTeam (get nat_eq table.now) task) }
{
    let kin = table.get(&task)?;
    let number = kin.barriers.checked_sub(1)?;
    Some(Awaited::Team {
        parallel: kin.team?,
        number,
    })
}

/// Returns whether the task, where there is one, is kept and has begun a barrier with this number.
fn has_begun(table: &Table, task: Option<u64>, number: u64) -> bool
    ensures { IsTrue result → HasBegunBarrier (get nat_eq table.now) task number }
{
    let Some(task) = task else {
        return false;
    };
    match table.get(&task) {
        Some(kin) => kin.barriers > number,
        None => false,
    }
}

/// Returns whether a member of the team created the task when it had begun no barrier with a number above this one.
fn is_in_phase(kin: &Kin, parallel: u64, number: u64) -> bool
    ensures { IsTrue result → (kin.now.parent_team ≡ Some parallel) × (kin.now.phase ≤ number) }
{
    kin.parent_team == Some(parallel) && kin.phase <= number
}

/// Returns whether the task is one of the children.
fn is_awaited(table: &Table, awaited: Awaited, task: u64) -> bool
    ensures { IsTrue result → IsAwaitedChild (get nat_eq table.now) awaited task }
{
    let Some(kin) = table.get(&task) else {
        return false;
    };
    match awaited {
        Awaited::Children(parent) => kin.parent == Some(parent),
        Awaited::Group { task, number } => kin.parent == Some(task) && kin.group == number,
        Awaited::Team { parallel, number } => {
            is_in_phase(kin, parallel, number) && has_begun(table, kin.parent, number)
        }
    }
}

/// Returns the parent of the task, if it has one and is kept.
fn parent_in(table: &Table, task: u64) -> Option<u64>
    ensures { IfSome result (λ parent. IsChildIn (get nat_eq table.now) parent task) }
{
    table.get(&task)?.parent
}

/// Takes the task out, unless it has no parent, and returns its parent.
fn pass(table: &mut Table, task: u64) -> Option<u64>
    ensures part { IsPartOfTable (get nat_eq table.new) (get nat_eq table.old) }
    ensures parent { IfSome result (λ parent. IsChildIn (get nat_eq table.old) parent task) }
    ensures fewer { hash_map_len table.new + (if is_some result then 1 else 0) ≤ hash_map_len table.old }
{
    let parent = parent_in(table, task)?;
    let _ = table.remove(&task)?;
    Some(parent)
}

/// Returns whether the task is one of the children or a descendant of one, as far as parents are kept. Takes out the
/// tasks that it passes, so that none is passed again; none of them is.
fn is_under(table: &mut Table, awaited: Awaited, task: u64) -> bool
    ensures part { IsPartOfTable (get nat_eq table.new) (get nat_eq table.old) }
    ensures under { IsTrue result → IsBelowAwaited (get nat_eq table.old) awaited task }
{
    let mut next = Some(task);
    while let Some(passed) = next {
        if is_awaited(table, awaited, passed) {
            return true;
        }
        next = pass(table, passed);
    }
    false
}

/// Returns whether the end that waits for the children waits for the task; see [`is_under`].
fn is_reached(table: &mut Table, awaited: Awaited, task: u64) -> bool
    ensures part { IsPartOfTable (get nat_eq table.new) (get nat_eq table.old) }
    ensures reached { IsTrue result → IsReached (get nat_eq table.old) awaited task }
{
    match awaited {
        Awaited::Children(_) => is_awaited(table, awaited, task),
        Awaited::Group { .. } | Awaited::Team { .. } => is_under(table, awaited, task),
    }
}

/// Returns the ids of the kept tasks that are not complete and have a parent, the least first.
pub fn going(table: &Table, alloc: Global) -> Result<Vec<u64>, AllocError>
    ensures { IfOk result (λ tasks. IsSorted nat_cmp tasks.items) }
{
    let mut tasks = Vec::new(alloc);
    for (task, kin) in table {
        if !kin.done && kin.parent.is_some() {
            tasks.push(*task)?;
        }
    }
    tasks.sort_unstable();
    Ok(tasks)
}

/// Returns the first of these tasks that is live and that the end waits for, which waits for these children. Takes
/// the tasks out that it passes.
pub fn first_missed(
    table: &mut Table,
    replay: &Replay,
    awaited: Awaited,
    tasks: &[u64],
) -> Option<u64>
    ensures { IfSome result (IsFoundIn replay.now (get nat_eq table.old) awaited) }
{
    for task in tasks {
        if replay.is_live(*task) && is_reached(table, awaited, *task) {
            return Some(*task);
        }
    }
    None
}
