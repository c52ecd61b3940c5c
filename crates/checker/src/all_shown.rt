//! All records that show a cause, where no cause before it occurs: a listing for each cause.
ghost use Rattle.std.specs.Prelude.{◌≡◌, ◌≤◌, Ok, IfOk, IfErr};
ghost use Rattle.ompt_events.specs.declared.cause.Cause.TheVariants.{NotCurrent, RegionOrder, TeamShort, LengthBack, NoOrder};
ghost use Rattle.ompt_events.specs.declared.fault.Fault.TheVariants.{Memory};
ghost use Rattle.ompt_events.specs.CauseNames.{before, cause_number};
ghost use Rattle.ompt_events.specs.Causes.{IsFreeOf};
ghost use Rattle.ompt_events.specs.Shown.{AreAllShown, AreAllWith};
ghost use Rattle.task_tree.specs.Families.{AreFamiliesOf};
ghost use Rattle.task_tree.specs.Own.{AreAllPlacesWith};
ghost use Rattle.checker.specs.Search.{IsClear};
ghost use Rattle.checker.specs.Schedule.{EachAwaitsOne};

use crate::claims::wrong_claims;
use crate::lengths::lengths_back;
use crate::makers::{Makers, lengths_ahead, repeated_entries};
use crate::merge::unordered;
use depend_edges::misplaced_dependences;
use ompt_events::{Cause, Fault, Shown};
use packed_trace::PackedTrace;
use std::alloc::{AllocError, Global};
use task_states::{
    Regions, find_misfits, find_misnested, find_moves, find_nested, find_targets, gaps_in,
    misplaced_regions, refused_moves,
};
use task_tree::{Families, Own, Run, made_again, rootless_records, turn_gaps};
use teams::short_teams;

/// Returns the places of all records at which the trace shows the cause. Requires that it shows no cause
/// with a lesser number. Fails only when out of memory.
pub(crate) fn all_shown(alloc: Global, trace: &PackedTrace, cause: Cause) -> Result<Shown, Fault>
    requires { IsClear trace.now.records (before cause) }
    ensures shown { IfOk result (AreAllShown trace.now.records cause) }
    ensures memory_alone { IfErr result (λ fault. fault ≡ Memory) }
{
    match cause {
        Cause::SeqGap => listed(gaps_in(alloc, trace)),
        Cause::CreatedTwice => listed(made_again(alloc, trace)),
        Cause::Rootless => rootless_records(alloc, trace),
        _ => shown_of_tasks(alloc, trace, cause),
    }
}

/// Returns what `all_shown` returns, for a cause that only a trace with a tree of tasks can show.
fn shown_of_tasks(alloc: Global, trace: &PackedTrace, cause: Cause) -> Result<Shown, Fault>
    requires clear { IsClear trace.now.records (before cause) }
    requires late { cause_number NotCurrent ≤ cause_number cause }
    ensures shown { IfOk result (AreAllShown trace.now.records cause) }
    ensures memory_alone { IfErr result (λ fault. fault ≡ Memory) }
{
    let families = Families::build(alloc, trace)?;
    shown_in(alloc, trace, &families, cause)
}

/// Returns what `all_shown` returns. The tree of tasks is known.
fn shown_in(
    alloc: Global,
    trace: &PackedTrace,
    families: &Families,
    cause: Cause,
) -> Result<Shown, Fault>
    requires families { AreFamiliesOf trace.now.records families.now }
    requires clear { IsClear trace.now.records (before cause) }
    requires late { cause_number NotCurrent ≤ cause_number cause }
    ensures shown { IfOk result (AreAllShown trace.now.records cause) }
    ensures memory_alone { IfErr result (λ fault. fault ≡ Memory) }
{
    let run = families.run(trace);
    let own = families.own(trace);
    let family = run.family();
    match cause {
        Cause::SeqGap | Cause::CreatedTwice | Cause::Rootless => unreachable!(),
        Cause::NotCurrent => listed(find_misfits(alloc, &run)),
        Cause::Moved => listed(find_moves(alloc, &run)),
        Cause::TurnGap => listed(turn_gaps(alloc, trace, family)),
        Cause::StatusOrder => refused_moves(alloc, &run),
        Cause::RegionOrder => listed(misplaced_regions(alloc, &own)),
        Cause::TeamShort => shown_of_teams(alloc, &own),
        Cause::NestedParallel => listed(find_nested(alloc, &run)),
        Cause::RegionNesting => listed(find_misnested(alloc, &run)),
        Cause::DepsPlace => listed(misplaced_dependences(alloc, &run)),
        Cause::ShareWrong => listed(wrong_claims(alloc, &own)),
        Cause::EntryTwice => listed(repeated_entries(alloc, &run)),
        Cause::LengthAhead => listed(lengths_ahead(alloc, &run)),
        Cause::LengthBack => shown_of_lengths(alloc, &run),
        Cause::NoOrder => shown_of_order(alloc, &run),
        Cause::TargetTask => listed(find_targets(alloc, &run)),
    }
}

/// Returns the places of all records that show TeamShort.
fn shown_of_teams(alloc: Global, own: &Own) -> Result<Shown, Fault>
    requires { IsFreeOf own.now.run.records RegionOrder }
    ensures shown { IfOk result (AreAllPlacesWith own.now TeamShort) }
    ensures memory_alone { IfErr result (λ fault. fault ≡ Memory) }
{
    let regions = Regions::in_own(alloc, own)?;
    listed(short_teams(alloc, &regions))
}

/// Returns the places of all records that show LengthBack.
fn shown_of_lengths(alloc: Global, run: &Run) -> Result<Shown, Fault>
    requires clear { IsClear run.now.records (before LengthBack) }
    requires awaits { EachAwaitsOne run.now.records }
    ensures shown { IfOk result (AreAllWith run.now.records LengthBack) }
    ensures memory_alone { IfErr result (λ fault. fault ≡ Memory) }
{
    let makers = Makers::in_run(alloc, run)?;
    listed(lengths_back(alloc, &makers))
}

/// Returns the places of all records that show NoOrder.
fn shown_of_order(alloc: Global, run: &Run) -> Result<Shown, Fault>
    requires clear { IsClear run.now.records (before NoOrder) }
    requires awaits { EachAwaitsOne run.now.records }
    ensures shown { IfOk result (AreAllWith run.now.records NoOrder) }
    ensures memory_alone { IfErr result (λ fault. fault ≡ Memory) }
{
    let makers = Makers::in_run(alloc, run)?;
    listed(unordered(alloc, &makers))
}

/// Returns the list, unless there was no memory for it.
fn listed(list: Result<Shown, AllocError>) -> Result<Shown, Fault>
    ensures listed { IfOk result (λ places. list ≡ Ok places) }
    ensures memory_alone { IfErr result (λ fault. fault ≡ Memory) }
{
    Ok(list?)
}
