//! The least ledger length at which what the end of a barrier covers is finished, by the begins of all
//! members of the team.
ghost use Rattle.std.specs.Prelude.{ℕ, ◌≡◌, ◌<◌, ◌+◌, IfOk, Some, length};
ghost use Rattle.ompt_events.specs.Records.{region};
ghost use Rattle.ompt_events.specs.Places.{at as says_at};
ghost use Rattle.ompt_events.specs.Regions.{barrier_begun};
ghost use Rattle.teams.specs.Missed.{IsBarrierEnd};
ghost use Rattle.wait_coverage.specs.Limits.{IsFamiliesLimit, IsLeastFor, AreFamiliesEarly, IsEndLimit, IsEndLeast, AreNodes, AreEndLimits};
ghost use Rattle.wait_coverage.specs.Meetings.{AreMet, IsLimitRaised, AreMeetingsAdded};

use crate::done::Done;
use crate::limit::Limit;
use crate::limits::Node;
use std::alloc::{AllocError, Global};
use task_states::reach;
use teams::{BarrierEnd, barrier_begun};

/// Writes the limits of the nodes of the ends of barriers. All other nodes stay as they are. Takes a few
/// steps for each record.
pub(crate) fn add_meetings(done: &Done, meetings: &[Vec<Limit>], nodes: &mut Vec<Node>)
    requires met { AreMet done.now (length done.now.teams.run.records) meetings.now }
    requires nodes { AreNodes done.now nodes.old.items }
    ensures { AreEndLimits done.now nodes.new.items }
{
    for at in 0..done.run().len() {
        add_meeting(done, meetings, nodes, at);
    }
}

/// Notes the limit of the member that begins a barrier at the record, if one does. The limit is that of
/// what the member created before. Rows are made only up to the team of a member that begins a barrier: a
/// team's number may be as great as there are tasks, and most teams may begin no barrier.
pub(crate) fn meet(
    alloc: Global,
    done: &Done,
    limit: Limit,
    meetings: &mut Vec<Vec<Limit>>,
    at: usize,
) -> Result<(), AllocError>
    requires within { at < length done.now.teams.run.records }
    requires limit { (task : ℕ) → barrier_begun (says_at region done.now.teams.run.records at) ≡ Some task
        → IsFamiliesLimit done.now at task limit }
    requires least { (task : ℕ) → barrier_begun (says_at region done.now.teams.run.records at) ≡ Some task
        → IsLeastFor (AreFamiliesEarly done.now 0 at task) limit }
    requires met { AreMet done.now at meetings.old.items }
    ensures { IfOk result (λ met. AreMet done.now (at + 1) meetings.new.items) }
{
    let Some(index) = barrier_begun(done.run(), at) else {
        return Ok(());
    };
    let Some(team) = done.team(index) else {
        return Ok(());
    };
    reach(alloc, meetings, team)?;
    raise(&mut meetings[team], done.number(at) as usize, limit)
}

/// Raises the limit of the barrier with this number to the given one, if that is greater.
fn raise(limits: &mut Vec<Limit>, number: usize, limit: Limit) -> Result<(), AllocError>
    ensures { IfOk result (λ done. IsLimitRaised number limit limits.old.items limits.new.items) }
{
    'room: while limits.len() <= number {
        limits.push(Limit::zero())?;
    }
    limits[number] = limits[number].max(limit);
    Ok(())
}

/// Writes the limit of the record if it ends a barrier.
fn add_meeting(done: &Done, meetings: &[Vec<Limit>], nodes: &mut Vec<Node>, at: usize)
    requires within { at < length done.now.teams.run.records }
    requires met { AreMet done.now (length done.now.teams.run.records) meetings.now }
    requires nodes { AreMeetingsAdded done.now at nodes.old.items }
    ensures { AreMeetingsAdded done.now (at + 1) nodes.new.items }
{
    if let Some(end) = done.barrier_end(at) {
        nodes[at].limit = end_limit(done, meetings, end, at);
    }
}

/// Returns the limit of the barrier that the record ends, or 0 if its task is in no team.
fn end_limit(done: &Done, meetings: &[Vec<Limit>], end: BarrierEnd, at: usize) -> Limit
    requires ends { IsBarrierEnd done.now.teams.run at end.task end.begin }
    requires met { AreMet done.now (length done.now.teams.run.records) meetings.now }
    ensures limit { IsEndLimit done.now at result }
    ensures least { IsEndLeast done.now at result }
{
    let _run = done.run();
    match done.team(end.task) {
        Some(team) => meetings[team][done.number(end.begin) as usize],
        None => Limit::zero(),
    }
}
