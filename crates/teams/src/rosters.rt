//! The slots of the members of each team, by their numbers, and the first member for which there is none.
ghost use Rattle.std.specs.Prelude.{ℕ, ◌≡◌, ◌<◌, ◌≤◌, ◌↔◌, IfOk, IsTrue, Some, length, max, replicate, slice_get};
ghost use Rattle.ompt_events.specs.declared.records.Membership.{Membership};
ghost use Rattle.ompt_events.specs.Records.{joined};
ghost use Rattle.ompt_events.specs.Places.{at as says_at};
ghost use Rattle.teams.specs.Members.{IsJoining};
ghost use Rattle.teams.specs.Fewest.{AreTeamsWithin};
ghost use Rattle.teams.specs.Rosters.{AreTeamsBelow, AreFirstSlots, AreEnrolled, IsFitting, IsWholeBefore, TakesSlot, IsEnrolling};

use crate::tables::Tables;
use index_tables::Slot;
use ompt_events::Membership;
use std::alloc::{AllocError, Global};
use task_tree::Run;

/// Returns by number of the team an empty slot for each of its members. An initial task is in its own slot.
/// There is no roster after that of the last team.
pub(crate) fn empty_rosters(alloc: Global, tables: &Tables) -> Result<Vec<Vec<Slot>>, AllocError>
    ensures { IfOk result (λ rosters. AreEnrolled tables.now.run.records 0
        tables.now.run.family.tasks rosters.items) }
{
    let count = roster_count(tables.teams());
    let mut rosters = Vec::with_capacity(alloc, count)?;
    for index in 0..count {
        rosters.push(empty_roster(alloc, tables, index)?)?;
    }
    Ok(rosters)
}

/// Returns one more than the greatest number of a team, or 0 if there is no team.
fn roster_count(teams: &[Slot]) -> usize
    requires { AreTeamsWithin teams.now }
    ensures few { result ≤ length teams.now }
    ensures all { AreTeamsBelow teams.now (length teams.now) result }
{
    let mut count = 0;
    for index in 0..teams.len() {
        if let Some(team) = teams[index].get() {
            count = greater(count, team + 1);
        }
    }
    count
}

/// Returns the greater of two counts.
fn greater(count: usize, other: usize) -> usize
    ensures { result ≡ max count other }
{
    count.max(other)
}

/// Returns the slots of the team whose number is this index.
fn empty_roster(alloc: Global, tables: &Tables, index: usize) -> Result<Vec<Slot>, AllocError>
    requires { index < length tables.now.run.family.tasks }
    ensures { IfOk result (λ roster. AreFirstSlots tables.now.run.records
        tables.now.run.family.tasks tables.now.sizes index roster.items) }
{
    let run = tables.run();
    if run.begun_initial(run.made_at(index)).is_some() {
        same_slots(alloc, Slot::some(index), 1)
    } else {
        same_slots(alloc, Slot::none(), tables.size(index) as usize)
    }
}

/// Returns this many slots with the same slot in each.
fn same_slots(alloc: Global, slot: Slot, count: usize) -> Result<Vec<Slot>, AllocError>
    ensures { IfOk result (λ slots. slots.items ≡ replicate count slot) }
{
    vec![in alloc; slot; count]
}

/// Returns whether the member that begins at a record shows that its team lacks a member. If not, it gets
/// its slot.
pub(crate) fn lacks_member(tables: &Tables, rosters: &mut Vec<Vec<Slot>>, at: usize) -> bool
    requires within { at < length tables.now.run.records }
    requires whole { IsWholeBefore tables.now.run.records at }
    requires enrolled { AreEnrolled tables.now.run.records at tables.now.run.family.tasks rosters.old.items }
    ensures { IsEnrolling tables.now.run.records at tables.now.run.family.tasks rosters.new.items result }
{
    let run = tables.run();
    let Some(member) = run.joined(at) else {
        return false;
    };
    let Some(index) = run.begun_root(at) else {
        return false;
    };
    let Some(lead) = tables.team(index) else {
        return false;
    };
    if !fits(tables, lead, member, at) {
        return true;
    }
    if take_slot(&mut rosters[lead], member.index as usize, index) {
        return false;
    }
    true
}

/// Returns whether the member that begins at a place fits its team: its number is below the size that it
/// says, the team has at least that many members, and the first member says the same size.
fn fits(tables: &Tables, lead: usize, member: Membership, at: usize) -> bool
    requires joins { IsJoining tables.now.run at member lead }
    requires whole { IsWholeBefore tables.now.run.records at }
    ensures { IsFitting tables.now.run.records at member result }
{
    let run = tables.run();
    if member.actual <= member.index {
        return false;
    }
    if tables.size(lead) < member.actual {
        return false;
    }
    if !names_size(run, lead, member.actual) {
        return false;
    }
    true
}

/// Returns whether the member at the index says that its team has this size.
pub(crate) fn names_size(run: &Run, lead: usize, actual: u32) -> bool
    requires { lead < length run.now.family.tasks }
    ensures { (place : ℕ) (first : Membership) → says_at joined run.now.records place ≡ Some first
        → slice_get run.now.family.tasks lead ≡ Some first.member
        → IsTrue result ↔ (first.actual ≡ actual) }
{
    let _tasks = run.task_count();
    match run.joined(run.made_at(lead)) {
        Some(first) => first.actual == actual,
        None => false,
    }
}

/// Gives the slot of this number to the task at an index, unless it is taken. Returns whether it was free.
pub(crate) fn take_slot(roster: &mut Vec<Slot>, number: usize, index: usize) -> bool
    requires inside { number < length roster.old.items }
    requires small { index < 4294967295 }
    ensures { TakesSlot roster.old.items roster.new.items number index result }
{
    if roster[number].get().is_some() {
        return false;
    }
    roster[number] = Slot::some(index);
    true
}
