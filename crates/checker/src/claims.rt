//! Whether each finishing record claims the right place of its task in the tree.
ghost use Rattle.std.specs.Prelude.{[], ◌∷◌, ℕ, ◌≡◌, ◌<◌, ◌↔◌, Some, IfErr, IfOk, IsTrue, OnOk, length, slice_get};
ghost use Rattle.ompt_events.specs.declared.cause.Cause.TheVariants.{ShareWrong};
ghost use Rattle.ompt_events.specs.Causes.{IsFreeOf, IsRightClaim, HasWrongShare};
ghost use Rattle.task_tree.specs.Own.{AreAllPlacesWith, IsOwnFault};

use ompt_events::{Cause, Claim, Fault, Shown};
use std::alloc::{AllocError, Global};
use task_tree::{Own, Run};

/// Excludes ShareWrong. Fails with it at the first finishing record in file order whose claim is wrong.
pub(crate) fn exclude_wrong_claims(alloc: Global, own: &Own) -> Result<(), Fault>
    ensures free { OnOk result (IsFreeOf own.now.run.records ShareWrong) }
    ensures fault { IfErr result (IsOwnFault own.now ShareWrong) }
{
    let _run = own.run();
    match wrong_claims(alloc, own)?.first() {
        Some(at) => Err(Fault::Malformed {
            at,
            cause: Cause::ShareWrong,
        }),
        None => Ok(()),
    }
}

/// Returns all places in the file of finishing records whose claim is wrong by the tasks' own order: the
/// task has another path or another root, or created another number of children. Fails only when out of
/// memory.
pub(crate) fn wrong_claims(alloc: Global, own: &Own) -> Result<Shown, AllocError>
    ensures { IfOk result (AreAllPlacesWith own.now ShareWrong) }
{
    let run = own.run();
    let mut shown = Shown::none(alloc);
    for place in 0..run.len() {
        shown.note(place, claims_wrongly(run, own.number(place)))?;
    }
    Ok(shown)
}

/// Returns whether the record with this number finishes a task and its claim is wrong.
fn claims_wrongly(run: &Run, number: usize) -> bool
    requires { number < length run.now.records }
    ensures { IsTrue result ↔ HasWrongShare run.now.records number }
{
    let Some(finishing) = run.finishing(number) else {
        return false;
    };
    let Some(claim) = run.claim(number) else {
        return false;
    };
    !is_right(run, finishing.task, claim)
}

/// Returns whether the claim is right for the task at this index.
fn is_right(run: &Run, index: usize, claim: &Claim) -> bool
    requires { index < length run.now.family.tasks }
    ensures { (task : ℕ) → slice_get run.now.family.tasks index ≡ Some task
        → IsTrue result ↔ IsRightClaim run.now.records task claim.now }
{
    claim.kept as usize == run.child_count(index) && run.has_path(index, claim.root, &claim.path)
}
