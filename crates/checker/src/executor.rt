//! Who runs the phases of a check of which two do not need each other's results: the calling thread alone, or
//! two threads side by side.
ghost use denote.Param.Send.{IsSync};
ghost use Rattle.std.specs.Prelude.{◌≡◌, ◌∷◌, [], IfOk, IfErr, OnOk};
ghost use Rattle.ompt_events.specs.declared.fault.Fault.TheVariants.{Memory};
ghost use Rattle.ompt_events.specs.declared.cause.Cause.TheVariants.{SeqGap, CreatedTwice, Rootless, TurnGap};
ghost use Rattle.ompt_events.specs.CauseNames.{all_causes};
ghost use Rattle.ompt_events.specs.Faults.{FindsFirst, IsFault, IsShownFault};
ghost use Rattle.ompt_events.specs.Linearization.{IsLinearization, IsGreedy};
ghost use Rattle.task_tree.specs.Families.{AreFamiliesOf};
ghost use Rattle.checker.specs.Search.{IsClear, IsLeastFound, AreStatesOf, AreEdgesOf, IsKnownOf, state_causes, edge_causes};

use crate::phases::{clear_order, edges_of, known_of, states_of};
use crate::runs::Runs;
use crate::sound::Sound;
use crate::verdict::Order;
use depend_edges::Edges;
use ompt_events::Fault;
use packed_trace::PackedTrace;
use std::alloc::Global;
use std::marker::{Send, Sync};
use std::thread::{Threads, join};
use task_states::{States, gap_in};
use task_tree::Families;
use wait_coverage::Known;

/// Runs two phases, neither of which needs the other.
pub(crate) trait Executor {
    ghost use Rattle.std.specs.Prelude.{◌∷◌, [], IfOk, IfErr, OnOk, ◌≡◌};
    ghost use Rattle.ompt_events.specs.declared.fault.Fault.TheVariants.{Memory};
    ghost use Rattle.ompt_events.specs.declared.cause.Cause.TheVariants.{SeqGap, CreatedTwice, Rootless, TurnGap};
    ghost use Rattle.ompt_events.specs.CauseNames.{all_causes};
    ghost use Rattle.ompt_events.specs.Faults.{FindsFirst, IsFault, IsShownFault};
    ghost use Rattle.ompt_events.specs.Linearization.{IsLinearization, IsGreedy};
    ghost use Rattle.task_tree.specs.Families.{AreFamiliesOf};
    ghost use Rattle.checker.specs.Search.{IsClear, IsLeastFound, AreStatesOf, AreEdgesOf, IsKnownOf, state_causes, edge_causes};

    /// Returns the first gap in the numbers of the threads' records, and the families of the trace's tasks.
    fn gap_and_families(
        &self,
        alloc: Global,
        trace: &PackedTrace,
    ) -> (Option<usize>, Result<Families, Fault>)
        ensures gap { FindsFirst trace.now.records SeqGap result.0 }
        ensures families { IfOk result.1 (AreFamiliesOf trace.now.records) }
        ensures fault { IfErr result.1 (IsFault trace.now.records (CreatedTwice ∷ Rootless ∷ [])) };

    /// Returns what `states_of` and `edges_of` return.
    fn states_and_edges<'a>(
        &self,
        alloc: Global,
        runs: &Runs<'a>,
        gap: Option<usize>,
    ) -> (Result<States<'a>, Fault>, Result<Edges<'a>, Fault>)
        requires gap { FindsFirst runs.now.run.records TurnGap gap }
        ensures states { IfOk result.0 (AreStatesOf runs.now.run runs.now.own) }
        ensures states_fault { IfErr result.0 (IsShownFault runs.now.run.records state_causes) }
        ensures edges { IfOk result.1 (AreEdgesOf runs.now.run runs.now.own) }
        ensures edges_fault { IfErr result.1 (IsShownFault runs.now.run.records edge_causes) };

    /// Returns what `clear_order` and `known_of` return.
    fn order_and_known<'a>(
        &self,
        alloc: Global,
        sound: &Sound<'a>,
    ) -> (Result<Order, Fault>, Result<Known<'a>, Fault>)
        ensures linearization { IfOk result.0 (IsLinearization sound.now.run.records) }
        ensures greedy { IfOk result.0 (IsGreedy sound.now.run.records) }
        ensures clear { OnOk result.0 (IsClear sound.now.run.records all_causes) }
        ensures least { IfErr result.0 (IsLeastFound sound.now.run.records) }
        ensures known { IfOk result.1 (IsKnownOf sound.now.own) }
        ensures memory_alone { IfErr result.1 (λ fault. fault ≡ Memory) };
}

/// The calling thread runs both.
#[derive(Drop)]
pub(crate) struct Inline;

impl Executor for Inline {
    fn gap_and_families(
        &self,
        alloc: Global,
        trace: &PackedTrace,
    ) -> (Option<usize>, Result<Families, Fault>) {
        (gap_in(trace), Families::build(alloc, trace))
    }

    fn states_and_edges<'a>(
        &self,
        alloc: Global,
        runs: &Runs<'a>,
        gap: Option<usize>,
    ) -> (Result<States<'a>, Fault>, Result<Edges<'a>, Fault>) {
        (states_of(alloc, runs, gap), edges_of(alloc, runs))
    }

    fn order_and_known<'a>(
        &self,
        alloc: Global,
        sound: &Sound<'a>,
    ) -> (Result<Order, Fault>, Result<Known<'a>, Fault>) {
        (clear_order(alloc, sound), known_of(alloc, sound))
    }
}

/// Several workers. With two or more, a thread of its own, where one can be made, runs one of the phases.
#[derive(Drop)]
pub(crate) struct Workers<'w, R> {
    pub(crate) threads: &'w R,
    pub(crate) count: u32,
}

impl<'w, R: Threads> Executor for Workers<'w, R> {
    fn gap_and_families(
        &self,
        alloc: Global,
        trace: &PackedTrace,
    ) -> (Option<usize>, Result<Families, Fault>) {
        if self.count <= 1 {
            return Inline.gap_and_families(alloc, trace);
        }
        both(
            self.threads,
            &|| -> Option<usize>
                ensures { FindsFirst trace.entry.now.records SeqGap result }
            { gap_in(trace) },
            &|| -> Result<Families, Fault>
                ensures families { IfOk result (AreFamiliesOf trace.entry.now.records) }
                ensures fault { IfErr result (IsFault trace.entry.now.records (CreatedTwice ∷ Rootless ∷ [])) }
            { Families::build(alloc, trace) },
        )
    }

    fn states_and_edges<'a>(
        &self,
        alloc: Global,
        runs: &Runs<'a>,
        gap: Option<usize>,
    ) -> (Result<States<'a>, Fault>, Result<Edges<'a>, Fault>) {
        if self.count <= 1 {
            return Inline.states_and_edges(alloc, runs, gap);
        }
        let (edges, states) = both(
            self.threads,
            &|| -> Result<Edges, Fault>
                ensures edges { IfOk result (AreEdgesOf runs.entry.now.run runs.entry.now.own) }
                ensures fault { IfErr result (IsShownFault runs.entry.now.run.records edge_causes) }
            { edges_of(alloc, runs) },
            &|| -> Result<States, Fault>
                requires gap { FindsFirst runs.now.run.records TurnGap gap }
                ensures states { IfOk result (AreStatesOf runs.entry.now.run runs.entry.now.own) }
                ensures fault { IfErr result (IsShownFault runs.entry.now.run.records state_causes) }
            { states_of(alloc, runs, gap) },
        );
        (states, edges)
    }

    fn order_and_known<'a>(
        &self,
        alloc: Global,
        sound: &Sound<'a>,
    ) -> (Result<Order, Fault>, Result<Known<'a>, Fault>) {
        if self.count <= 1 {
            return Inline.order_and_known(alloc, sound);
        }
        let (known, order) = both(
            self.threads,
            &|| -> Result<Known, Fault>
                ensures known { IfOk result (IsKnownOf sound.entry.now.own) }
                ensures memory_alone { IfErr result (λ fault. fault ≡ Memory) }
            { known_of(alloc, sound) },
            &|| -> Result<Order, Fault>
                ensures linearization { IfOk result (IsLinearization sound.entry.now.run.records) }
                ensures greedy { IfOk result (IsGreedy sound.entry.now.run.records) }
                ensures clear { OnOk result (IsClear sound.entry.now.run.records all_causes) }
                ensures least { IfErr result (IsLeastFound sound.entry.now.run.records) }
            { clear_order(alloc, sound) },
        );
        (order, known)
    }
}

/// Returns the results of the two functions, called side by side, the first one in a thread of its own. The
/// results may borrow.
fn both<R: Threads, F: Fn() -> A + Sync, G: Fn() -> B, A: Send, B>(rt: &R, f: &F, g: &G) -> (A, B)
    requires first { F.pre f.now }
    requires second { G.pre g.now }
    ensures first { F.post f.now result.0 }
    ensures second { G.post g.now result.1 }
{
    join(
        rt,
        || -> A
            requires { IsSync F.row × F.pre f.now }
            ensures { F.post f.entry.now result }
        { f() },
        || -> B
            requires { G.pre g.now }
            ensures { G.post g.entry.now result }
        { g() },
    )
}
