//! Calls on a trace with its tree, for callers that have no run.
ghost use Rattle.std.specs.Prelude.{◌≡◌, [], ◌∷◌, IfOk, IfErr, OnOk, MatchOption};
ghost use Rattle.ompt_events.specs.declared.cause.Cause.TheVariants.{NotCurrent, Moved, TurnGap, StatusOrder, RegionOrder, NestedParallel};
ghost use Rattle.ompt_events.specs.declared.fault.Fault.TheVariants.{Memory};
ghost use Rattle.ompt_events.specs.Causes.{IsFreeOf, IsFirstWith, ShowsNowhere};
ghost use Rattle.ompt_events.specs.Faults.{IsShownFault};
ghost use Rattle.task_tree.specs.Paths.{IsTreeOf};
ghost use Rattle.task_tree.specs.Families.{IsOwnOf};
ghost use Rattle.task_states.specs.States.{IsStates};

use crate::nesting::find_nested;
use crate::states::States;
use ompt_events::{Fault, Trace};
use std::alloc::Global;
use task_tree::Tree;

/// Why the search for the states of tasks fails: out of memory, or the first that occurs of `NotCurrent`,
/// `Moved`, `TurnGap`, `StatusOrder` and `RegionOrder`.
pub type StateFault = Fault;

/// Returns the states of the trace's tasks, as `States::in_run` does. Requires that the tree is that of the
/// trace's tasks.
pub fn run<'a>(alloc: Global, trace: &'a Trace, tree: &'a Tree) -> Result<States<'a>, StateFault>
    requires { IsTreeOf trace.now.records tree.now }
    ensures records { IfOk result (λ states. states.run.records ≡ trace.now.records) }
    ensures family { IfOk result (λ states. states.run.family ≡ tree.now.families.file) }
    ensures own { IfOk result (λ states. IsOwnOf trace.now.records states.regions.own) }
    ensures states { IfOk result IsStates }
    ensures current { OnOk result (IsFreeOf trace.now.records NotCurrent) }
    ensures stay { OnOk result (IsFreeOf trace.now.records Moved) }
    ensures gapless { OnOk result (IsFreeOf trace.now.records TurnGap) }
    ensures ordered { OnOk result (IsFreeOf trace.now.records StatusOrder) }
    ensures closed { OnOk result (ShowsNowhere trace.now.records RegionOrder) }
    ensures fault { IfErr result
        (IsShownFault trace.now.records (NotCurrent ∷ Moved ∷ TurnGap ∷ StatusOrder ∷ RegionOrder ∷ [])) }
{
    let families = tree.families();
    let own = families.own(tree.trace());
    States::in_run(alloc, &families.run(tree.trace()), &own, families.gap())
}

/// Returns the first record of a trace at which a parallel region lies inside another (OpenMP 5.2, 10.1), as
/// `find_nested` finds it. Requires that the tree is that of the trace's tasks.
pub fn nested(alloc: Global, trace: &Trace, tree: &Tree) -> Result<Option<usize>, StateFault>
    requires { IsTreeOf trace.now.records tree.now }
    ensures found { IfOk result (λ found. MatchOption found
        (IsFreeOf trace.now.records NestedParallel) (IsFirstWith trace.now.records NestedParallel)) }
    ensures memory_alone { IfErr result (λ fault. fault ≡ Memory) }
{
    Ok(find_nested(alloc, &tree.families().run(tree.trace()))?.first())
}
