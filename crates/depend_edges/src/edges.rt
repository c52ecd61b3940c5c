//! The predecessors of the tasks of a trace.
ghost use Rattle.std.specs.Prelude.{ℕ, ◌≡◌, [], ◌∷◌, IfOk, IfErr, OnOk, List, length};
ghost use Rattle.ompt_events.specs.declared.cause.Cause.TheVariants.{DepsPlace};
ghost use Rattle.ompt_events.specs.declared.fault.Fault.TheVariants.{Memory};
ghost use Rattle.ompt_events.specs.Causes.{IsFreeOf};
ghost use Rattle.ompt_events.specs.Faults.{IsFault};
ghost use Rattle.task_tree.specs.Families.{IsOwnOf};
ghost use Rattle.task_tree.specs.Paths.{IsTreeOf};
ghost use Rattle.depend_edges.specs.Edges.{ArePredecessors, ArePredecessorLengths, IsEdges};

use crate::latest::{Lengths, find_latest};
use crate::lists::find_lists;
use crate::predecessors::select;
use index_tables::Slot;
use ompt_events::{Fault, Trace};
use std::alloc::Global;
use std::marker::Model;
use task_tree::{Own, Run, Tree};

/// The fault of a call on edges: Memory or DepsPlace.
pub type EdgeFault = Fault;

/// The dependences of the tasks of a run, and what follows from them. The records of the run are in the
/// tasks' own order, which is that of their turns; in a trace of version 1 that is file order.
#[derive(Debug, Drop)]
pub struct Edges<'a> {
    pub(crate) run: Run<'a>,
    /// By index of the task the place of its list of dependences in the run.
    pub(crate) lists: Vec<Slot>,
}

impl<'a> Model for Edges<'a> {
    ghost use Rattle.depend_edges.specs.Edges.{EdgesView, IsEdges};

    ghost Value = { EdgesView };

    ghost view = { λ edges. record { run = edges.run; lists = edges.lists.items } };

    ghost invariant = { λ edges. IsEdges (record { run = edges.run; lists = edges.lists.items }) };
}

impl<'a> Edges<'a> {
    /// Returns the edges between the tasks of a trace, of any version. Requires that the tree is that of
    /// its tasks. Fails with DepsPlace, at the first such record in the file, if a list of dependences does
    /// not follow its creation there or is missing; and when out of memory.
    pub fn build(alloc: Global, trace: &'a Trace, tree: &'a Tree) -> Result<Edges<'a>, EdgeFault>
        requires tree { IsTreeOf trace.now.records tree.now }
        ensures own { IfOk result (λ edges. (places : List ℕ)
            × IsOwnOf trace.now.records (record { run = edges.run; places = places })) }
        ensures placed { OnOk result (IsFreeOf trace.now.records DepsPlace) }
        ensures fault { IfErr result (IsFault trace.now.records (DepsPlace ∷ [])) }
    {
        let families = tree.families();
        Edges::in_run(
            alloc,
            &families.run(tree.trace()),
            &families.own(tree.trace()),
        )
    }

    /// Returns the edges between the tasks of the run, which `own` has in the tasks' own order. Fails with
    /// DepsPlace, at the first such record in the file, if a list of dependences does not follow its
    /// creation there or is missing; and when out of memory. Takes one look at each record if the run has
    /// no dependences, and else a few passes over the records.
    pub fn in_run(alloc: Global, run: &Run, own: &Own<'a>) -> Result<Edges<'a>, Fault>
        requires own { IsOwnOf run.now.records own.now }
        ensures run { IfOk result (λ edges. edges.run ≡ own.now.run) }
        ensures placed { OnOk result (IsFreeOf run.now.records DepsPlace) }
        ensures fault { IfErr result (IsFault run.now.records (DepsPlace ∷ [])) }
    {
        let lists = find_lists(alloc, run, own)?;
        let run = own.run().again();
        Ok(Edges { run, lists })
    }

    /// Returns the run whose tasks the edges are between. Its records are in the tasks' own order.
    pub fn run(&self) -> &Run<'a>
        ensures value { result.now ≡ self.now.run }
        ensures is_edges { IsEdges self.now }
    {
        &self.run
    }

    /// Returns the predecessors of the task, in the order in which its parent created them (OpenMP 5.2,
    /// 15.9.5); none for a task that no record makes. That order is the parent's own, turn by turn, also if
    /// the parent went on on another thread (12.9). Fails only when out of memory.
    pub fn of(&self, task: u64) -> Result<Vec<u64>, EdgeFault>
        ensures predecessors { IfOk result (λ found. ArePredecessors self.now.run.records task found.items) }
        ensures memory_alone { IfErr result (λ fault. fault ≡ Memory) }
    {
        let alloc = *self.lists.allocator();
        let run = self.run();
        let Some(index) = run.index_of(task) else {
            return Ok(Vec::new(alloc));
        };
        let Some(parent) = run.parent(index) else {
            return Ok(Vec::new(alloc));
        };
        let Some(number) = run.family().number(task) else {
            return Ok(Vec::new(alloc));
        };
        let siblings = run.children(parent);
        let items = self.items_at(index);
        let found = select(alloc, self, siblings, number as usize, items)?;
        Ok(found)
    }

    /// Returns by index of the task the greatest of the lengths of its predecessors, 0 if it has none.
    /// Takes n log n steps in the records and their dependences, however many predecessors there are, and
    /// memory linear in them. Fails only when out of memory.
    pub fn latest(&self, own: &[u64]) -> Result<Vec<u64>, EdgeFault>
        requires { length own.now ≡ length self.now.run.family.tasks }
        ensures latest { IfOk result (λ found. ArePredecessorLengths self.now.run.records
            self.now.run.family.tasks own.now found.items) }
        ensures memory_alone { IfErr result (λ fault. fault ≡ Memory) }
    {
        find_latest(*self.lists.allocator(), &Lengths { edges: self, own })
    }
}
