//! The phases of a check, in the order of their causes. A phase that excludes a cause fails with it, at the
//! first record that shows it, if it occurs.
ghost use Rattle.std.specs.Prelude.{◌≡◌, ◌∷◌, [], Ok, Err, IfOk, IfErr, OnOk};
ghost use Rattle.ompt_events.specs.declared.fault.Fault.TheVariants.{Memory};
ghost use Rattle.ompt_events.specs.declared.cause.Cause.TheVariants.{SeqGap, CreatedTwice, Rootless, NotCurrent, TurnGap, TargetTask};
ghost use Rattle.ompt_events.specs.CauseNames.{all_causes, before};
ghost use Rattle.ompt_events.specs.Causes.{IsFreeOf};
ghost use Rattle.ompt_events.specs.Faults.{FindsFirst, IsFault, IsShownFault};
ghost use Rattle.ompt_events.specs.Linearization.{IsLinearization, IsGreedy};
ghost use Rattle.task_tree.specs.Families.{AreFamiliesOf};
ghost use Rattle.checker.specs.Search.{IsClear, IsLeastFound, AreStatesOf, AreEdgesOf, IsKnownOf, state_causes, edge_causes};

use crate::claims::exclude_wrong_claims;
use crate::clear::Clear;
use crate::executor::Executor;
use crate::in_order::is_in_order;
use crate::lengths::find_back;
use crate::makers::Makers;
use crate::merge::find_order;
use crate::runs::Runs;
use crate::sound::Sound;
use crate::verdict::Order;
use depend_edges::Edges;
use ompt_events::{Cause, Fault, exclude};
use packed_trace::PackedTrace;
use std::alloc::Global;
use task_states::{States, find_misnested, find_nested, target};
use task_tree::Families;
use teams::Teams;
use wait_coverage::{Known, find_known};

/// Returns what the function returns for a trace without a cause. Fails with the least cause that the trace
/// shows, or when out of memory. Each phase requires that no cause before its own occurs. The executor runs
/// three times two steps: the numbers of the threads' records are looked at and the families of tasks built;
/// the states of tasks made and the edges between them; the records ordered and the least ledger lengths found
/// at which tasks are finished. The phases are split over several functions, since an early return drops all
/// that its function made, and a proof looks at each way to do so.
pub(crate) fn ask<E: Executor, A: Drop, F: Fn(Clear) -> Result<A, Fault>>(
    executor: &E,
    alloc: Global,
    trace: &PackedTrace,
    answer: &F,
) -> Result<A, Fault>
    requires accepts { (clear : _) → F.pre answer.now clear }
    requires memory_alone { (clear : _) (fault : _) → F.post answer.now clear (Err fault) → fault ≡ Memory }
    ensures right { IfOk result (λ a. (clear : _) × (clear.run.records ≡ trace.now.records)
        × F.post answer.now clear (Ok a)) }
    ensures malformed { IfErr result (IsLeastFound trace.now.records) }
{
    let families = families_of(executor, alloc, trace)?;
    ask_run(executor, alloc, trace, &families, answer)
}

/// Returns what `ask` does. The tree of tasks is known, and shows no cause.
fn ask_run<E: Executor, A: Drop, F: Fn(Clear) -> Result<A, Fault>>(
    executor: &E,
    alloc: Global,
    trace: &PackedTrace,
    families: &Families,
    answer: &F,
) -> Result<A, Fault>
    requires accepts { (clear : _) → F.pre answer.now clear }
    requires memory_alone { (clear : _) (fault : _) → F.post answer.now clear (Err fault) → fault ≡ Memory }
    requires families { AreFamiliesOf trace.now.records families.now }
    requires clear { IsClear trace.now.records (before NotCurrent) }
    ensures right { IfOk result (λ a. (clear : _) × (clear.run.records ≡ trace.now.records)
        × F.post answer.now clear (Ok a)) }
    ensures malformed { IfErr result (IsLeastFound trace.now.records) }
{
    let run = families.run(trace);
    let own = families.own(trace);
    let runs = Runs {
        run: &run,
        own: &own,
    };
    let (states, edges) = executor.states_and_edges(alloc, &runs, families.gap());
    let states = states?;
    let teams = Teams::in_own(alloc, states.regions())?;
    let edges = edges?;
    let sound = Sound {
        trace,
        run: &run,
        teams: &teams,
        edges: &edges,
    };
    ask_sound(executor, alloc, &sound, answer)
}

/// Returns what `ask` does. Only order, ledger and TargetTask may still show a cause.
fn ask_sound<E: Executor, A: Drop, F: Fn(Clear) -> Result<A, Fault>>(
    executor: &E,
    alloc: Global,
    sound: &Sound,
    answer: &F,
) -> Result<A, Fault>
    requires accepts { (clear : _) → F.pre answer.now clear }
    requires memory_alone { (clear : _) (fault : _) → F.post answer.now clear (Err fault) → fault ≡ Memory }
    ensures right { IfOk result (λ a. (clear : _) × (clear.run.records ≡ sound.now.run.records)
        × F.post answer.now clear (Ok a)) }
    ensures malformed { IfErr result (IsLeastFound sound.now.run.records) }
{
    let _run = sound.run();
    let (order, known) = executor.order_and_known(alloc, sound);
    let order = order?;
    let known = known?;
    answer(Clear {
        sound,
        order,
        known,
    })
}

/// Returns the families of the trace's tasks. Excludes SeqGap, CreatedTwice and Rootless.
fn families_of<E: Executor>(
    executor: &E,
    alloc: Global,
    trace: &PackedTrace,
) -> Result<Families, Fault>
    ensures families { IfOk result (AreFamiliesOf trace.now.records) }
    ensures clear { OnOk result (IsClear trace.now.records (before NotCurrent)) }
    ensures least { IfErr result (IsLeastFound trace.now.records) }
{
    let (gap, built) = executor.gap_and_families(alloc, trace);
    exclude(Cause::SeqGap, gap)?;
    families_without_gap(trace, built)
}

/// Returns the families that were built of the trace's tasks, or why there are none. Requires that SeqGap does
/// not occur. Excludes CreatedTwice and Rootless too.
fn families_without_gap(
    trace: &PackedTrace,
    built: Result<Families, Fault>,
) -> Result<Families, Fault>
    requires gapless { IsFreeOf trace.now.records SeqGap }
    requires families { IfOk built (AreFamiliesOf trace.now.records) }
    requires fault { IfErr built (IsFault trace.now.records (CreatedTwice ∷ Rootless ∷ [])) }
    ensures families { IfOk result (AreFamiliesOf trace.now.records) }
    ensures clear { OnOk result (IsClear trace.now.records (before NotCurrent)) }
    ensures least { IfErr result (IsLeastFound trace.now.records) }
{
    let families = built?;
    Ok(families)
}

/// Returns the states of the run's tasks. Takes the first turn gap. Excludes NotCurrent, Moved, TurnGap,
/// StatusOrder and RegionOrder.
pub(crate) fn states_of<'a>(
    alloc: Global,
    runs: &Runs<'a>,
    gap: Option<usize>,
) -> Result<States<'a>, Fault>
    requires gap { FindsFirst runs.now.run.records TurnGap gap }
    ensures states { IfOk result (AreStatesOf runs.now.run runs.now.own) }
    ensures fault { IfErr result (IsShownFault runs.now.run.records state_causes) }
{
    let run = runs.run();
    let own = runs.own();
    let states = States::in_run(alloc, run, own, gap)?;
    Ok(states)
}

/// Returns the dependence edges between the run's tasks. Excludes NestedParallel, RegionNesting, DepsPlace and
/// ShareWrong.
pub(crate) fn edges_of<'a>(alloc: Global, runs: &Runs<'a>) -> Result<Edges<'a>, Fault>
    ensures edges { IfOk result (AreEdgesOf runs.now.run runs.now.own) }
    ensures fault { IfErr result (IsShownFault runs.now.run.records edge_causes) }
{
    let run = runs.run();
    let own = runs.own();
    let _records = own.run();
    exclude(Cause::NestedParallel, find_nested(alloc, run)?.first())?;
    exclude(Cause::RegionNesting, find_misnested(alloc, run)?.first())?;
    let edges = Edges::in_run(alloc, run, own)?;
    exclude_wrong_claims(alloc, own)?;
    Ok(edges)
}

/// Returns the least ledger lengths at which the run's tasks are finished. Fails only when out of memory.
pub(crate) fn known_of<'a>(alloc: Global, sound: &Sound<'a>) -> Result<Known<'a>, Fault>
    ensures known { IfOk result (IsKnownOf sound.now.own) }
    ensures memory_alone { IfErr result (λ fault. fault ≡ Memory) }
{
    let known = find_known(alloc, sound.teams())?;
    Ok(known)
}

/// Returns the greedy order of all records. Excludes EntryTwice, LengthAhead, LengthBack, NoOrder and
/// TargetTask, so that no cause is left.
pub(crate) fn clear_order(alloc: Global, sound: &Sound) -> Result<Order, Fault>
    ensures linearization { IfOk result (IsLinearization sound.now.run.records) }
    ensures greedy { IfOk result (IsGreedy sound.now.run.records) }
    ensures clear { OnOk result (IsClear sound.now.run.records all_causes) }
    ensures least { IfErr result (IsLeastFound sound.now.run.records) }
{
    let run = sound.run();
    let order = order_of(alloc, sound)?;
    exclude(Cause::TargetTask, target(run))?;
    Ok(order)
}

/// Returns the greedy order of all records. Excludes EntryTwice, LengthAhead, LengthBack and NoOrder.
fn order_of(alloc: Global, sound: &Sound) -> Result<Order, Fault>
    ensures linearization { IfOk result (IsLinearization sound.now.run.records) }
    ensures greedy { IfOk result (IsGreedy sound.now.run.records) }
    ensures clear { OnOk result (IsClear sound.now.run.records (before TargetTask)) }
    ensures least { IfErr result (IsLeastFound sound.now.run.records) }
{
    let run = sound.run();
    // One pass is enough for a file in the order of time.
    if is_in_order(alloc, run)? {
        return Ok(Order::in_file(run.len()));
    }
    order_by_merge(alloc, sound)
}

/// Returns the order of the records if one pass does not show it. The tables of the merge are dropped at its end.
fn order_by_merge(alloc: Global, sound: &Sound) -> Result<Order, Fault>
    ensures linearization { IfOk result (IsLinearization sound.now.run.records) }
    ensures greedy { IfOk result (IsGreedy sound.now.run.records) }
    ensures clear { OnOk result (IsClear sound.now.run.records (before TargetTask)) }
    ensures least { IfErr result (IsLeastFound sound.now.run.records) }
{
    let run = sound.run();
    let makers = Makers::in_run(alloc, run)?;
    exclude(Cause::LengthBack, find_back(&makers))?;
    let none = Vec::with_capacity(alloc, run.len())?;
    Ok(Order::from_vec(find_order(alloc, &makers, none)?))
}
