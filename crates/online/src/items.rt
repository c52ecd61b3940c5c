//! The items that children depend on, record by record: when all is complete that a dependent task must wait for.
ghost use Rattle.std.specs.Prelude.{ℕ, ◌≡◌, ◌↔◌, ◌⊎◌, [], None, Some, IfOk, IfSome, OnOk, IsTrue};
ghost use Rattle.online.specs.Items.{IsItemsOf, AreUses, TakesCreation, TakesList, TakesOther, TakesCompletion};
ghost use Rattle.online.specs.Items.{TakesEnd, KeepsItems, IsReadyOf, HasListsOf, awaited_of};
ghost use Rattle.online.specs.Uses.{KeepsTables, numbers_of, location_of};
ghost use Rattle.online.specs.Items.{Admits, IsUseAt, IsWider, AddsItem};

use crate::uses::{Use, UseTable};
use ompt_events::{Dep, DepKind, conflicts};
use std::alloc::{AllocError, Global};
use std::collections::HashMap;

/// The items of the tasks that are not complete, and the locations that children of tasks use.
///
/// The items are of no use once `take` has failed when out of memory, or has returned false.
#[derive(Debug, Drop)]
pub struct Items {
    uses: UseTable,
    /// By task the child whose list of dependences is missing.
    awaited: HashMap<u64, u64>,
    alloc: Global,
}

impl Items {
    /// Returns the items of no records. Takes no memory.
    pub fn new(alloc: Global) -> Items
        ensures { IsItemsOf [] result }
    {
        Items {
            uses: UseTable::new(alloc),
            awaited: HashMap::new(alloc),
            alloc,
        }
    }

    /// Reads a record that creates a child. Returns false where a list of another child of the parent is missing.
    pub(crate) fn create(
        &mut self,
        parent: u64,
        child: u64,
        has_list: bool,
    ) -> Result<bool, AllocError>
        ensures taken { IfOk result (λ taken. IsTrue taken → TakesCreation self.old self.new parent child has_list) }
        ensures refused { awaited_of self.old parent ≡ None → IfOk result IsTrue }
    {
        if !self.awaits_none(parent) {
            return Ok(false);
        }
        if !has_list {
            return Ok(true);
        }
        self.awaited.insert(parent, child)?;
        Ok(true)
    }

    /// Reads a record that lists the dependences of a child. Returns false where that is not the child whose list
    /// is missing, or where the numbers of groups are used up.
    pub(crate) fn list(&mut self, parent: u64, task: u64, list: &[Dep]) -> Result<bool, AllocError>
        ensures { IfOk result (λ taken. IsTrue taken → TakesList self.old self.new parent task list.now) }
    {
        if !self.is_awaited(parent, task) {
            return Ok(false);
        }
        let uses = uses_of(self.alloc, list)?;
        if !self.uses.list(parent, task, uses.as_slice())? {
            return Ok(false);
        }
        self.awaited.remove(&parent);
        Ok(true)
    }

    /// Reads a record that creates no task and lists no dependences. A completion or an end of a body that the
    /// record tells is read by `complete` and `end`.
    pub(crate) fn other(&self)
        ensures { TakesOther self.now }
    {}

    /// Takes out a task that is complete by the entries below the length.
    pub(crate) fn complete(&mut self, task: u64, length: u64) -> Result<(), AllocError>
        ensures completed { OnOk result (TakesCompletion self.old self.new task length) }
        ensures taken { OnOk result (numbers_of self.new.uses task ≡ None) }
    {
        self.uses.complete(task, length)?;
        Ok(())
    }

    /// Takes out the locations that children of the task use. Its body has ended.
    pub(crate) fn end(&mut self, parent: u64) -> Result<(), AllocError>
        ensures ended { OnOk result (TakesEnd self.old self.new parent) }
        ensures taken { OnOk result ((w : ℕ) → location_of self.new.uses parent w ≡ None) }
        ensures tasks { OnOk result ((task : ℕ) → numbers_of self.new.uses task ≡ numbers_of self.old.uses task) }
    {
        self.uses.end(parent)?;
        Ok(())
    }

    /// Returns whether all predecessors of the task are complete by the entries below the length. No part of the
    /// task may be finished.
    pub(crate) fn is_ready(&mut self, task: u64, length: u64) -> Result<bool, AllocError>
        ensures ready { IfOk result (λ ready. IsTrue ready → IsReadyOf self.old task length) }
        ensures other { numbers_of self.old.uses task ≡ None → IfOk result IsTrue }
        ensures kept { IfOk result (λ _. KeepsItems self.old self.new) }
        ensures tables { IfOk result (λ _. KeepsTables self.old.uses self.new.uses) }
    {
        let ready = self.uses.is_ready(task, length)?;
        Ok(ready)
    }

    /// Returns whether the lists of dependences that count for the child are there.
    pub(crate) fn has_lists(&self, parent: u64, task: u64) -> bool
        ensures listed { IsTrue result → HasListsOf self.now parent task }
        ensures missing { IsTrue result ⊎ (awaited_of self.now parent ≡ Some task) }
    {
        !self.is_awaited(parent, task)
    }

    /// Returns true only if no list of dependences is missing.
    pub(crate) fn are_listed(&self) -> bool
        ensures { IsTrue result → (parent : ℕ) → awaited_of self.now parent ≡ None }
    {
        self.awaited.is_empty()
    }

    /// Returns whether no list of a child of the task is missing.
    fn awaits_none(&self, parent: u64) -> bool
        ensures { IsTrue result ↔ (awaited_of self.now parent ≡ None) }
    {
        self.awaited(parent).is_none()
    }

    /// Returns whether the list of this child of the task is missing.
    fn is_awaited(&self, parent: u64, task: u64) -> bool
        ensures { IsTrue result ↔ (awaited_of self.now parent ≡ Some task) }
    {
        match self.awaited(parent) {
            Some(child) => child == task,
            None => false,
        }
    }

    /// Returns the child of the task whose list is missing.
    fn awaited(&self, parent: u64) -> Option<u64>
        ensures { result ≡ awaited_of self.now parent }
    {
        self.awaited.get(&parent).copied()
    }
}

/// Returns the uses of a list of dependences, one of each location.
fn uses_of(alloc: Global, list: &[Dep]) -> Result<Vec<Use>, AllocError>
    ensures { IfOk result (λ uses. AreUses uses.items list.now) }
{
    let mut uses = Vec::new(alloc);
    for item in list {
        add_use(&mut uses, *item)?;
    }
    Ok(uses)
}

/// Adds an item to the use of its location, or as a new one.
fn add_use(uses: &mut Vec<Use>, item: Dep) -> Result<(), AllocError>
    ensures { OnOk result (AddsItem uses.old.items uses.new.items item) }
{
    match index_of(uses.as_slice(), item.var) {
        Some(index) => {
            uses[index] = with_kind(uses[index], item.kind);
            Ok(())
        }
        None => {
            let used = Use {
                location: item.var,
                kind: kind_of(item.kind),
            };
            uses.push(used)?;
            Ok(())
        }
    }
}

/// Returns the index of the use of a location.
fn index_of(uses: &[Use], location: u64) -> Option<usize>
    ensures { IfSome result (λ k. IsUseAt uses.now k location) }
{
    for index in 0..uses.len() {
        if uses[index].location == location {
            return Some(index);
        }
    }
    None
}

/// Returns the use with one item more.
fn with_kind(used: Use, kind: DepKind) -> Use
    ensures { IsWider used result kind }
{
    let location = used.location;
    if let Some(own) = used.kind
        && !conflicts(own, kind)
    {
        return used;
    }
    Use {
        location,
        kind: None,
    }
}

/// Returns the kind of a use for one item.
fn kind_of(kind: DepKind) -> Option<DepKind>
    ensures { Admits result kind }
{
    if conflicts(kind, kind) {
        None
    } else {
        Some(kind)
    }
}
