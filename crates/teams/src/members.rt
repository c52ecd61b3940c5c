//! The team of each task, and how many members each team has. The number of a team is the index of its first
//! member.
ghost use Rattle.std.specs.Prelude.{◌≡◌, ◌<◌, ◌+◌, None, IfOk, OnOk, length, replicate};
ghost use Rattle.teams.specs.Members.{AreLeads, IsLeadOf, HasRegionHashers, AreMembers};

use index_tables::{Seeded, Slot};
use indexmap::IndexMap;
use std::alloc::{AllocError, Global};
use task_tree::Run;

/// By index of the task the number of its team, and by number of the team how many members it has.
#[derive(Drop)]
pub(crate) struct Members {
    pub(crate) teams: Vec<Slot>,
    pub(crate) sizes: Vec<u32>,
}

/// By parallel region the lead of its team.
type Leads = IndexMap<u64, usize, Seeded>;

/// Returns the team of each task, and how many members each has. Looks up each member's parallel region.
pub(crate) fn find_members(alloc: Global, run: &Run) -> Result<Members, AllocError>
    ensures { IfOk result (AreMembers run.now (length run.now.records)) }
{
    let mut leads: Leads = IndexMap::with_hasher(alloc, run.family().region_hashers());
    let mut members = no_members(alloc, run.task_count())?;
    for at in 0..run.len() {
        note_member(run, &mut leads, &mut members, at)?;
    }
    Ok(members)
}

/// Returns no team for each task.
fn no_members(alloc: Global, tasks: usize) -> Result<Members, AllocError>
    ensures teams { IfOk result (λ members. members.teams.items ≡ replicate tasks None) }
    ensures sizes { IfOk result (λ members. members.sizes.items ≡ replicate tasks 0) }
{
    Ok(Members {
        teams: vec![in alloc; Slot::none(); tasks]?,
        sizes: vec![in alloc; 0; tasks]?,
    })
}

/// Notes the team of the task that begins at a place, if an initial task or a member of a team does.
fn note_member(
    run: &Run,
    leads: &mut Leads,
    members: &mut Members,
    at: usize,
) -> Result<(), AllocError>
    requires within { at < length run.now.records }
    requires leads { AreLeads run.now.records at run.now.family.tasks leads.old }
    requires seeded { HasRegionHashers run.now leads.old }
    requires members { AreMembers run.now at members.old }
    ensures leads { OnOk result (AreLeads run.now.records (at + 1) run.now.family.tasks leads.new) }
    ensures seeded { OnOk result (HasRegionHashers run.now leads.new) }
    ensures members { OnOk result (AreMembers run.now (at + 1) members.new) }
{
    let Some(index) = run.begun_root(at) else {
        return Ok(());
    };
    let _tasks = run.task_count();
    let Some(member) = run.joined(at) else {
        members.teams[index] = Slot::some(index);
        return Ok(());
    };
    let lead = lead_of(leads, member.parallel, index)?;
    members.teams[index] = Slot::some(lead);
    members.sizes[lead] += 1;
    Ok(())
}

/// Returns the lead that is noted for the parallel region, or else notes and returns this index.
fn lead_of(leads: &mut Leads, parallel: u64, index: usize) -> Result<usize, AllocError>
    ensures { IfOk result (IsLeadOf leads.old leads.new parallel index) }
{
    match leads.get(&parallel).copied() {
        Some(lead) => Ok(lead),
        None => {
            leads.insert(parallel, index)?;
            Ok(index)
        }
    }
}
