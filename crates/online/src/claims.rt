//! Whether a record tells of its tasks what their values have.
ghost use Rattle.std.specs.Prelude.{ℕ, Option, ◌≡◌, IsTrue, option_map};
ghost use Rattle.ompt_events.specs.declared.records.Part.{Part};
ghost use Rattle.ompt_events.specs.declared.records.Claim.{Claim};
ghost use Rattle.ompt_events.specs.declared.records.Turns.{Turns};
ghost use Rattle.ompt_events.specs.declared.records.Body.TheVariants.{TaskSchedule};
ghost use Rattle.ompt_events.specs.declared.names.Status.{Status};
ghost use Rattle.ompt_events.specs.Names.{status_part};
ghost use Rattle.callbacks.specs.Tasks.{end_of_root};
ghost use Rattle.callbacks.specs.Schedules.{schedule_body};

use callbacks::{Schedule, TaskData};
use ompt_events::{Body, BoxedClaim, Endpoint, Part};

/// Returns true only if the record claims what the task's value gives it to claim: nothing where the record
/// finishes no part of the task.
pub(crate) fn is_claimed(task: &TaskData, part: Option<Part>, claim: &Option<BoxedClaim>) -> bool
    ensures { IsTrue result → option_map (λ (_ : Part). task.now.claim) part ≡ claim.now }
{
    match (part, claim) {
        (None, None) => true,
        (Some(_), Some(claim)) => claim.get() == task.claim(),
        _ => false,
    }
}

/// Returns true only if the record is the one with which the root ends.
pub(crate) fn is_end_of(root: &TaskData, body: &Body) -> bool
    ensures { IsTrue result → (parallel : ℕ) × (body.now ≡ end_of_root root.now parallel) }
{
    let Body::ImplicitTask {
        endpoint: Endpoint::End,
        parallel,
        ..
    } = body
    else {
        return false;
    };
    *body == root.end_of_root(*parallel)
}

/// Returns true only if the record is that of the schedule, with what its prior task claims.
pub(crate) fn tells(body: &Body, prior: &TaskData, schedule: &Schedule) -> bool
    requires prior { schedule.now.prior ≡ prior.now }
    requires status { (status : Status) (turns : Option Turns) (id : ℕ) (next : Option ℕ) (claimed : Option Claim)
        → body.now ≡ TaskSchedule status turns id next claimed → schedule.now.status ≡ status }
    ensures { IsTrue result → schedule_body schedule.now
        (option_map (λ (_ : Part). prior.now.claim) (status_part schedule.now.status)) ≡ body.now }
{
    let Body::TaskSchedule {
        status,
        turns,
        prior: id,
        next,
        claim,
    } = body
    else {
        return false;
    };
    schedule.turns() == *turns
        && prior.id() == *id
        && schedule.next_id() == *next
        && is_claimed(prior, status.part(), claim)
}
