//! The first place in the file at which a record shows a team or a barrier that lacks a member.
ghost use Rattle.std.specs.Prelude.{◌≤◌, length};
ghost use Rattle.teams.specs.Tables.{tables_own};
ghost use Rattle.teams.specs.Rosters.{AreEnrolled};
ghost use Rattle.teams.specs.Short.{AreAllEnrolled, FindsMissed, IsSearched};

use crate::missed::is_missed;
use crate::rosters::lacks_member;
use crate::tables::Tables;
use index_tables::Slot;

/// Returns the first place in the file at which a record shows a team or a barrier that lacks a member. If
/// there is none, each member has its slot.
pub(crate) fn find_short(tables: &Tables, rosters: &mut Vec<Vec<Slot>>) -> Option<usize>
    requires { AreEnrolled tables.now.run.records 0 tables.now.run.family.tasks rosters.old.items }
    ensures { IsSearched (tables_own tables.now) rosters.new.items result }
{
    let lacking = enrol_members(tables, rosters);
    let end = lacking.unwrap_or(tables.run().len());
    find_missed(tables, end).or(lacking)
}

/// Gives each member its slot. Returns the first place in the file at which a member begins that shows a
/// team which lacks a member. Members begin in the same order in the file and in the tasks' own order.
fn enrol_members(tables: &Tables, rosters: &mut Vec<Vec<Slot>>) -> Option<usize>
    requires { AreEnrolled tables.now.run.records 0 tables.now.run.family.tasks rosters.old.items }
    ensures { AreAllEnrolled (tables_own tables.now) rosters.new.items result }
{
    for number in 0..tables.run().len() {
        if lacks_member(tables, rosters, number) {
            return Some(tables.own().place(number));
        }
    }
    None
}

/// Returns the first place in the file before `end` at which a barrier ends that a member of the team
/// doesn't begin.
fn find_missed(tables: &Tables, end: usize) -> Option<usize>
    requires { end ≤ length tables.now.run.records }
    ensures { FindsMissed (tables_own tables.now) end result }
{
    for place in 0..end {
        if is_missed(tables, tables.own().number(place)) {
            return Some(place);
        }
    }
    None
}
