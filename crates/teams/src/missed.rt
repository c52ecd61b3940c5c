//! The ends of barriers which show that a member of the team doesn't begin them.
ghost use Rattle.std.specs.Prelude.{◌<◌, ◌↔◌, IsTrue, MatchOption, length};
ghost use Rattle.teams.specs.Missed.{IsBarrierEnd, EndsNoBarrier, IsBarrierMissed};

use crate::tables::Tables;
use ompt_events::WaitKind;
use task_states::Regions;

/// The end of a barrier.
#[derive(Clone, Copy, Debug)]
pub struct BarrierEnd {
    /// The index of the task that ends it.
    pub task: usize,
    /// The number of the record at which the task began it.
    pub begin: usize,
}

/// Returns whether a record ends a barrier that a member of the team doesn't begin. A member that begins
/// fewer barriers lacks the last ones, so the least number of barriers in the team decides.
pub(crate) fn is_missed(tables: &Tables, at: usize) -> bool
    requires { at < length tables.now.run.records }
    ensures { IsTrue result ↔ IsBarrierMissed tables.now.run.records at }
{
    let _run = tables.run();
    let Some(end) = barrier_end(tables.regions, at) else {
        return false;
    };
    let Some(team) = tables.team(end.task) else {
        return false;
    };
    if tables.number(end.begin) < tables.fewest(team) {
        return false;
    }
    true
}

/// Returns the barrier that the record with this number ends, if it ends one.
pub(crate) fn barrier_end(regions: &Regions, number: usize) -> Option<BarrierEnd>
    requires { number < length regions.now.own.run.records }
    ensures { MatchOption result (EndsNoBarrier regions.now.own.run.records number)
        (λ end. IsBarrierEnd regions.now.own.run number end.task end.begin) }
{
    let event = regions.own().run().wait_event(number)?;
    if event.kind != WaitKind::Barrier {
        return None;
    }
    let begin = regions.begin_of(number)?;
    Some(BarrierEnd {
        task: event.task,
        begin,
    })
}
