//! All members that show that their team lacks a member. A search for the first may stop there. This one
//! goes on, so it notes the number of each member, and which teams have members that name different sizes.
ghost use Rattle.std.specs.Prelude.{◌≡◌, ◌<◌, ◌+◌, ◌↔◌, ◌⊎◌, false, IfOk, IsTrue, MatchOption, None, length, replicate};
ghost use Rattle.ompt_events.specs.Records.{joined};
ghost use Rattle.ompt_events.specs.Places.{at as says_at};
ghost use Rattle.ompt_events.specs.Teams.{members_before};
ghost use Rattle.teams.specs.Members.{IsJoining};
ghost use Rattle.teams.specs.Lacks.{AreLacks, AreMixed, AreSeen, FindsTaken, HasOtherSize, IsJoinedBy, IsMisfit, LacksThere};

use crate::rosters::{empty_rosters, names_size, take_slot};
use crate::tables::Tables;
use index_tables::Slot;
use ompt_events::Membership;
use std::alloc::{AllocError, Global};

/// What the members so far say of their teams.
#[derive(Drop)]
struct Seen {
    /// By number of the team the slots of its members. A slot is taken from the first member of its number
    /// on.
    rosters: Vec<Vec<Slot>>,
    /// By number of the team whether a member names another size than the first.
    mixed: Vec<bool>,
}

/// The beginning of a member of a team.
#[derive(Clone, Copy)]
struct Joining {
    member: Membership,
    /// The index of its task.
    index: usize,
    /// The number of its team.
    lead: usize,
}

/// Returns by number of the record whether a member begins there that shows a team which lacks a member.
/// Takes a few steps for each record; memory is linear in the records.
pub(crate) fn find_lacks(alloc: Global, tables: &Tables) -> Result<Vec<bool>, AllocError>
    ensures { IfOk result (λ lacks. AreLacks tables.now.run.records (length tables.now.run.records) lacks.items) }
{
    let mut seen = Seen {
        rosters: empty_rosters(alloc, tables)?,
        mixed: none_mixed(alloc, tables.run().task_count())?,
    };
    let mut lacks = Vec::with_capacity(alloc, tables.run().len())?;
    for number in 0..tables.run().len() {
        lacks.push(shows_lack(tables, &mut seen, number))?;
    }
    Ok(lacks)
}

/// Returns for each task that its team has one size so far.
fn none_mixed(alloc: Global, tasks: usize) -> Result<Vec<bool>, AllocError>
    ensures { IfOk result (λ mixed. mixed.items ≡ replicate tasks false) }
{
    vec![in alloc; false; tasks]
}

/// Returns whether a member begins at a record that shows a team which lacks a member. Notes the member.
fn shows_lack(tables: &Tables, seen: &mut Seen, at: usize) -> bool
    requires within { at < length tables.now.run.records }
    requires seen { AreSeen tables.now.run.records at tables.now.run.family.tasks seen.old }
    ensures lacks { IsTrue result ↔ LacksThere tables.now.run.records at }
    ensures seen { AreSeen tables.now.run.records (at + 1) tables.now.run.family.tasks seen.new }
{
    let _run = tables.run();
    let Some(joining) = member_at(tables, at) else {
        return false;
    };
    let Joining {
        member,
        index,
        lead,
    } = joining;
    let differs = names_other_size(tables, &mut seen.mixed, lead, member, at);
    let repeats = repeats_number(&mut seen.rosters[lead], member.index as usize, index);
    let misfits = is_misfit(tables.size(lead), member);
    is_any(differs, repeats, misfits)
}

/// Returns the member that begins at a record, if one does.
fn member_at(tables: &Tables, at: usize) -> Option<Joining>
    requires { at < length tables.now.run.records }
    ensures { MatchOption result (says_at joined tables.now.run.records at ≡ None)
        (λ found. IsJoinedBy tables.now.run at found.member found.index found.lead) }
{
    let run = tables.run();
    let member = run.joined(at)?;
    let index = run.begun_root(at)?;
    let lead = tables.team(index)?;
    Some(Joining {
        member,
        index,
        lead,
    })
}

/// Returns whether an earlier member of the team names another size. Notes whether this one names another
/// than the first.
fn names_other_size(
    tables: &Tables,
    mixed: &mut Vec<bool>,
    lead: usize,
    member: Membership,
    at: usize,
) -> bool
    requires joins { IsJoining tables.now.run at member lead }
    requires mixed { AreMixed tables.now.run.records at tables.now.run.family.tasks mixed.old.items }
    ensures differs { IsTrue result
        ↔ HasOtherSize (members_before tables.now.run.records member.parallel at) member.actual }
    ensures mixed { AreMixed tables.now.run.records (at + 1) tables.now.run.family.tasks mixed.new.items }
{
    if names_size(tables.run(), lead, member.actual) {
        return mixed[lead];
    }
    mixed[lead] = true;
    true
}

/// Returns whether the number is taken, or there are not so many members. If not, it is now that of the task
/// at an index.
fn repeats_number(roster: &mut Vec<Slot>, number: usize, index: usize) -> bool
    requires { index < 4294967295 }
    ensures { FindsTaken roster.old.items roster.new.items number index result }
{
    if roster.len() <= number {
        return true;
    }
    !take_slot(roster, number, index)
}

/// Returns whether the member names a size that its team of this many members has not, or a number that is
/// not below it.
fn is_misfit(members: u32, member: Membership) -> bool
    ensures { IsTrue result ↔ IsMisfit members member }
{
    members < member.actual || member.actual <= member.index
}

/// Returns whether one of the three is so.
fn is_any(differs: bool, repeats: bool, misfits: bool) -> bool
    ensures { IsTrue result ↔ (IsTrue differs ⊎ (IsTrue repeats ⊎ IsTrue misfits)) }
{
    differs || repeats || misfits
}
