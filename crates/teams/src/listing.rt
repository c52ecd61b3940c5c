//! All places in the file at which a record shows a team or a barrier that lacks a member.
ghost use Rattle.std.specs.Prelude.{◌<◌, ◌↔◌, IfOk, IsTrue, length};
ghost use Rattle.ompt_events.specs.declared.cause.Cause.TheVariants.{TeamShort};
ghost use Rattle.ompt_events.specs.Causes.{IsShort};
ghost use Rattle.task_tree.specs.Own.{AreAllPlacesWith};
ghost use Rattle.teams.specs.Tables.{tables_own};
ghost use Rattle.teams.specs.Lacks.{AreLacks};

use crate::lacks::find_lacks;
use crate::missed::is_missed;
use crate::tables::Tables;
use ompt_events::Shown;
use std::alloc::{AllocError, Global};
use task_states::Regions;

/// Returns all places in the file at which a record shows a team or a barrier that lacks a member. Fails
/// only when out of memory. Takes a few steps for each record, and a look-up of its region for each member;
/// memory is linear in the records.
pub fn short_teams(alloc: Global, regions: &Regions) -> Result<Shown, AllocError>
    ensures { IfOk result (AreAllPlacesWith regions.now.own TeamShort) }
{
    let tables = Tables::in_own(alloc, regions)?;
    let lacks = find_lacks(alloc, &tables)?;
    list_short(alloc, &tables, lacks.as_slice())
}

/// Returns the same from the tables. Takes by number of the record whether a member begins there that shows
/// a lack.
fn list_short(alloc: Global, tables: &Tables, lacks: &[bool]) -> Result<Shown, AllocError>
    requires { AreLacks tables.now.run.records (length tables.now.run.records) lacks.now }
    ensures { IfOk result (AreAllPlacesWith (tables_own tables.now) TeamShort) }
{
    let mut shown = Shown::none(alloc);
    for place in 0..tables.run().len() {
        let number = tables.own().number(place);
        shown.note(place, is_short(tables, lacks, number))?;
    }
    Ok(shown)
}

/// Returns whether the record with this number shows a team or a barrier that lacks a member.
fn is_short(tables: &Tables, lacks: &[bool], number: usize) -> bool
    requires within { number < length tables.now.run.records }
    requires lacks { AreLacks tables.now.run.records (length tables.now.run.records) lacks.now }
    ensures { IsTrue result ↔ IsShort tables.now.run.records number }
{
    lacks[number] || is_missed(tables, number)
}
