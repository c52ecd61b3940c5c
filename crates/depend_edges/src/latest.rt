//! The greatest length of the predecessors of each task.
//!
//! The children of a parent are visited in their order. For each location the greatest lengths are kept of
//! the children so far that use it, so that no pair of siblings is ever compared.
ghost use Rattle.std.specs.Prelude.{ℕ, ◌≡◌, ◌↔◌, ◌<◌, ◌+◌, IsTrue, IfOk, IfErr, OnOk, Contains, length, replicate, slice_get, slice_index};
ghost use Rattle.ompt_events.specs.declared.fault.Fault.TheVariants.{Memory};
ghost use Rattle.ompt_events.specs.Dependences.{DependsOn};
ghost use Rattle.depend_edges.specs.Edges.{ArePredecessorLengths, IsEdges};
ghost use Rattle.depend_edges.specs.Lists.{HasList};
ghost use Rattle.depend_edges.specs.Latest.{IsChildOf, AreMaximaOf, AreLatestUpTo};

use crate::edges::Edges;
use crate::maxima::{Maxima, enter, greatest};
use index_tables::Slot;
use ompt_events::{Dep, Fault};
use std::alloc::{AllocError, Global};
use std::collections::BTreeMap;
use std::marker::Model;
use task_tree::Run;

/// The edges between the tasks, and a length of each task.
#[derive(Drop)]
pub(crate) struct Lengths<'a> {
    pub(crate) edges: &'a Edges<'a>,
    /// By index of the task its length.
    pub(crate) own: &'a [u64],
}

impl<'a> Model for Lengths<'a> {
    ghost use Rattle.depend_edges.specs.Latest.{LengthsView, HaveLengths};

    ghost Value = { LengthsView };

    ghost view = { λ lengths. record { edges = lengths.edges.now; own = lengths.own.now } };

    ghost invariant = { λ lengths.
        HaveLengths (record { edges = lengths.edges.now; own = lengths.own.now }) };
}

impl<'a> Lengths<'a> {
    /// Returns the run whose tasks have the lengths.
    fn run(&self) -> &'a Run<'a>
        ensures value { result.now ≡ self.now.edges.run }
        ensures is_edges { IsEdges self.now.edges }
        ensures all { length self.now.own ≡ length self.now.edges.run.family.tasks }
    {
        let edges = self.edges;
        edges.run()
    }

    /// Returns by index of the task the place of its list of dependences.
    fn lists(&self) -> &'a [Slot]
        ensures { result.now ≡ self.now.edges.lists }
    {
        let edges = self.edges;
        edges.lists.as_slice()
    }

    /// Returns the items that the task at this index depends on.
    fn items_at(&self, index: usize) -> &'a [Dep]
        requires { index < length self.now.edges.run.family.tasks }
        ensures { (task : ℕ) → slice_get self.now.edges.run.family.tasks index ≡ Some task → (dep : Dep)
            → Contains result.now dep ↔ DependsOn self.now.edges.run.records task dep }
    {
        let edges = self.edges;
        edges.items_at(index)
    }

    /// Returns the length of the task at this index.
    fn own(&self, index: usize) -> u64
        requires { index < length self.now.edges.run.family.tasks }
        ensures { result ≡ slice_index self.now.own index }
    {
        let own = self.own;
        own[index]
    }
}

/// A child of the task at the index `parent`, which has this number among its children.
#[derive(Clone, Copy)]
struct Child {
    parent: usize,
    number: usize,
    task: u64,
}

/// Returns by index of the task the greatest of the lengths of its predecessors, 0 if it has none.
pub(crate) fn find_latest(alloc: Global, lengths: &Lengths) -> Result<Vec<u64>, Fault>
    ensures latest { IfOk result (λ found. ArePredecessorLengths lengths.now.edges.run.records
        lengths.now.edges.run.family.tasks lengths.now.own found.items) }
    ensures memory_alone { IfErr result (λ fault. fault ≡ Memory) }
{
    let count = lengths.run().task_count();
    let mut latest = no_lengths(alloc, count)?;
    // Most files have no dependences at all.
    if !has_list(lengths.lists()) {
        return Ok(latest);
    }
    for up in 0..count {
        take_children(alloc, lengths, up, &mut latest)?;
    }
    Ok(latest)
}

/// Returns whether any task has a list.
fn has_list(lists: &[Slot]) -> bool
    ensures { IsTrue result ↔ HasList lists.now }
{
    lists.iter().any(|list| list.get().is_some())
}

/// Returns a length of 0 for each task.
fn no_lengths(alloc: Global, count: usize) -> Result<Vec<u64>, AllocError>
    ensures { IfOk result (λ lengths. lengths.items ≡ replicate count 0) }
{
    vec![in alloc; 0; count]
}

/// Finds the greatest lengths for the children of the parent at this index. Requires those of earlier
/// parents.
fn take_children(
    alloc: Global,
    lengths: &Lengths,
    up: usize,
    latest: &mut Vec<u64>,
) -> Result<(), Fault>
    requires within { up < length lengths.now.edges.run.family.tasks }
    requires latest { AreLatestUpTo lengths.now up 0 latest.old.items }
    ensures latest { OnOk result (AreLatestUpTo lengths.now (up + 1) 0 latest.new.items) }
    ensures memory_alone { IfErr result (λ fault. fault ≡ Memory) }
{
    let siblings = lengths.run().children(up);
    let mut maxima = BTreeMap::new(alloc);
    for number in 0..siblings.len() {
        let child = Child {
            parent: up,
            number,
            task: siblings[number],
        };
        take_child(lengths, child, &mut maxima, latest)?;
    }
    Ok(())
}

/// Finds the greatest length for one child. Requires those of the children before it.
fn take_child(
    lengths: &Lengths,
    child: Child,
    maxima: &mut BTreeMap<u64, Maxima>,
    latest: &mut Vec<u64>,
) -> Result<(), Fault>
    requires within { child.parent < length lengths.now.edges.run.family.tasks }
    requires child { IsChildOf lengths.now child.parent child.number child.task }
    requires maxima { AreMaximaOf lengths.now child.parent child.number maxima.old }
    requires latest { AreLatestUpTo lengths.now child.parent child.number latest.old.items }
    ensures maxima { OnOk result (AreMaximaOf lengths.now child.parent (child.number + 1) maxima.new) }
    ensures latest { OnOk result (AreLatestUpTo lengths.now child.parent
        (child.number + 1) latest.new.items) }
    ensures memory_alone { IfErr result (λ fault. fault ≡ Memory) }
{
    // Each child has an index: the proof shows that this never returns.
    let Some(index) = lengths.run().index_of(child.task) else {
        return Ok(());
    };
    let items = lengths.items_at(index);
    latest[index] = greatest(maxima, items);
    enter(maxima, items, lengths.own(index))?;
    Ok(())
}
