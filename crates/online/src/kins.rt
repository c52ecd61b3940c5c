//! What is kept of tasks, by their ids.
ghost use Rattle.std.specs.Prelude.{◌≡◌, ◌≤◌, ◌≢◌, IsTrue, OnOk, OnErr, true, false, length, nat_eq, ℕ, None, Some, is_some, IsNone, IsSome, IfSome};
ghost use Rattle.std.specs.HashMap.{get, hash_map_len, IsUnchanged};
ghost use Rattle.online.specs.declared.kin.Kin.{Kin};
ghost use Rattle.online.specs.Waits.{ChangesAt, ChangesAbove, CountsChild, CompletesChild, SettlesChild, Completes};
ghost use Rattle.online.specs.Waits.{BeginsGroup, EndsGroup, IsSameTable, Puts, StaysKin};
ghost use Rattle.online.specs.Teams.{IsPlaceIn, CountsBarrier};

use crate::kin::{Kin, Place};
use std::alloc::AllocError;
use std::collections::HashMap;

/// What is kept of each task, by its id.
pub type Table = HashMap<u64, Kin>;

/// Counts a child of the task.
pub fn count_child(table: &mut Table, task: u64)
    ensures { ChangesAt CountsChild task (get nat_eq table.old) (get nat_eq table.new) }
{
    if let Some(kin) = table.get_mut(&task) {
        kin.count_child();
    }
}

/// Counts a child of the parent as complete from the length on.
pub fn complete_child(table: &mut Table, parent: Option<u64>, length: u64)
    ensures { ChangesAbove (CompletesChild length) parent (get nat_eq table.old) (get nat_eq table.new) }
{
    if let Some(task) = parent {
        if let Some(kin) = table.get_mut(&task) {
            kin.complete_child(length);
        }
    }
}

/// Says that the task itself is complete from the length on, and returns its parent.
pub fn complete(table: &mut Table, task: u64, length: u64) -> Option<u64>
    ensures changed { ChangesAt (Completes length) task (get nat_eq table.old) (get nat_eq table.new) }
    ensures parent { (kin : Kin) → get nat_eq table.old task ≡ Some kin → result ≡ kin.parent }
{
    let kin = table.get_mut(&task)?;
    kin.complete(length);
    kin.parent
}

/// Counts a child of the parent, which was created in the taskgroup with this number, as settled from the length
/// on.
pub fn settle_child(table: &mut Table, parent: Option<u64>, number: usize, length: u64)
    ensures settled { ChangesAbove (SettlesChild number length) parent (get nat_eq table.old) (get nat_eq table.new) }
    ensures len { hash_map_len table.new ≡ hash_map_len table.old }
{
    if let Some(task) = parent {
        if let Some(kin) = table.get_mut(&task) {
            kin.settle_child(number, length);
        }
    }
}

/// Keeps what is kept of a new task.
pub fn put(table: &mut Table, task: u64, kin: Kin) -> Result<(), AllocError>
    ensures put { OnOk result (Puts task kin (get nat_eq table.old) (get nat_eq table.new)) }
    ensures err { OnErr result (IsUnchanged table.old table.new) }
{
    let _ = table.insert(task, kin)?;
    Ok(())
}

/// Begins a taskgroup of the task.
pub fn begin_group(table: &mut Table, task: u64) -> Result<(), AllocError>
    ensures begun { OnOk result (ChangesAt BeginsGroup task (get nat_eq table.old) (get nat_eq table.new)) }
    ensures err { OnErr result (ChangesAt StaysKin task (get nat_eq table.old) (get nat_eq table.new)) }
{
    match table.get_mut(&task) {
        Some(kin) => kin.begin_group(),
        None => Ok(()),
    }
}

/// Ends the innermost taskgroup of the task and returns `true`, if the task has one and all that is counted in it
/// is over at the length.
pub fn end_group(table: &mut Table, task: u64, length: u64) -> bool
    ensures found { IsTrue result → is_some (get nat_eq table.old task) ≡ true }
    ensures ended { IsTrue result → ChangesAt (EndsGroup length) task (get nat_eq table.old) (get nat_eq table.new) }
    ensures kept { result ≡ false → IsSameTable (get nat_eq table.old) (get nat_eq table.new) }
{
    match table.get_mut(&task) {
        Some(kin) => kin.end_group(length),
        None => false,
    }
}

/// Returns whether the task is done and none of its children is left.
pub fn is_settled(table: &Table, task: u64) -> bool
    ensures { IsTrue result → (kin : Kin) → get nat_eq table.now task ≡ Some kin
        → (kin.done ≡ true) × (kin.family.left ≡ 0) }
{
    match table.get(&task) {
        Some(kin) => kin.done && kin.family.left == 0,
        None => false,
    }
}

/// Returns whether the task has no parent.
pub fn is_root(table: &Table, task: u64) -> bool
    ensures { IsTrue result → (kin : Kin) → get nat_eq table.now task ≡ Some kin → kin.parent ≡ None }
{
    match table.get(&task) {
        Some(kin) => kin.parent.is_none(),
        None => false,
    }
}

/// Returns the parallel region of whose team the task is a member, if anything is kept of the task.
pub fn team_in(table: &Table, task: u64) -> Option<u64>
    ensures { (kin : Kin) → get nat_eq table.now task ≡ Some kin → result ≡ kin.team }
{
    match table.get(&task) {
        Some(kin) => kin.team,
        None => None,
    }
}

/// Returns where a child stands that the task creates now, if anything is kept of the task.
pub fn place_in(table: &Table, task: u64) -> Option<Place>
    ensures none { IsNone result → get nat_eq table.now task ≡ None }
    ensures found { IsSome result → is_some (get nat_eq table.now task) ≡ true }
    ensures some { (kin : Kin) → get nat_eq table.now task ≡ Some kin → IfSome result (IsPlaceIn kin) }
{
    match table.get(&task) {
        Some(kin) => Some(kin.place()),
        None => None,
    }
}

/// Returns whether the task is an initial one all whose children are settled at the length.
pub fn is_family_over(table: &Table, task: u64, length: u64) -> bool
    ensures { IsTrue result → (kin : Kin) × (get nat_eq table.now task ≡ Some kin) × (kin.parent ≡ None)
        × (kin.team ≡ None) × (kin.family.left ≡ 0) × (kin.family.greatest ≤ length) }
{
    match table.get(&task) {
        Some(kin) => kin.is_over_alone(length),
        None => false,
    }
}

/// Counts a barrier that the task begins.
pub fn begin_barrier(table: &mut Table, task: u64)
    ensures { ChangesAt CountsBarrier task (get nat_eq table.old) (get nat_eq table.new) }
{
    if let Some(kin) = table.get_mut(&task) {
        kin.begin_barrier();
    }
}

/// Returns whether all children of the task are complete at the length.
pub fn are_children_over(table: &Table, task: u64, length: u64) -> bool
    ensures { IsTrue result → (kin : Kin) × (get nat_eq table.now task ≡ Some kin)
        × (kin.children.left ≡ 0) × (kin.children.greatest ≤ length) }
{
    match table.get(&task) {
        Some(kin) => kin.children.is_over(length),
        None => false,
    }
}
