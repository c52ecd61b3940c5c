//! Parents, numbers, roots and children.
ghost use Rattle.std.specs.Prelude.{ℕ, ◌≡◌, ◌↔◌, ◌<◌, List, [], ◌∷◌, Some, None, IfOk, IfErr, IsTrue, length, option_map, slice_get, slice_index_or};
ghost use Rattle.ompt_events.specs.declared.records.Record.{Record};
ghost use Rattle.ompt_events.specs.declared.cause.Cause.TheVariants.{CreatedTwice, Rootless};
ghost use Rattle.ompt_events.specs.Faults.{IsFault};
ghost use Rattle.ompt_events.specs.Records.{made};
ghost use Rattle.ompt_events.specs.Places.{at as says_at};
ghost use Rattle.ompt_events.specs.Tree.{IsRoot, IsExplicit, IsParent, IsChild, HasPath, children};
ghost use Rattle.task_tree.specs.Family.{IsFamilyOf, HasRegionSeed, AreInFileOrder, IsLinkOf, IsStandingOf};
ghost use Rattle.packed_trace.specs.Named.{subject, object};
ghost use Rattle.task_tree.specs.Subjects.{Calls};

use crate::link_slot::LinkSlot;
use crate::links::Link;
use crate::rootless::find_rootless;
use crate::roots::Standing;
use crate::standing_slot::StandingSlot;
use crate::tables::find_tables;
use index_tables::{Numbering, Rows, Seeded, Slot};
use ompt_events::{Cause, Fault, Record, exclude};
use packed_trace::PackedTrace;
use std::alloc::Global;
use std::marker::Model;

/// The tasks that the records of a trace make, each with its parent, its number, its root and its children.
/// Its memory is linear in the records, whatever the tree is.
#[derive(Debug, Drop)]
pub struct Family {
    tasks: Numbering,
    places: Vec<u32>,
    subjects: Vec<Slot>,
    objects: Vec<Slot>,
    rows: Rows,
    links: Vec<LinkSlot>,
    roots: Vec<StandingSlot>,
    region_hashers: Seeded,
}

impl Model for Family {
    ghost use Rattle.task_tree.specs.Family.{FamilyView, AreAligned};

    ghost Value = { FamilyView };

    ghost view = { λ family. record {
      tasks = family.tasks;
      places = family.places.items;
      subjects = family.subjects.items;
      objects = family.objects.items;
      rows = family.rows;
      links = family.links.items;
      roots = family.roots.items;
      region_hashers = family.region_hashers;
    } };

    ghost invariant = { λ family.
        AreAligned family.tasks family.places.items family.rows family.links.items
        family.roots.items };
}

impl Family {
    /// Returns the family of the trace's tasks. Fails with CreatedTwice if a task or a parallel region is
    /// made twice, else with Rootless if a record names a task without a root or a region without a begin;
    /// and when out of memory.
    pub fn build(alloc: Global, trace: &PackedTrace) -> Result<Family, Fault>
        ensures family { IfOk result (IsFamilyOf trace.now.records) }
        ensures order { IfOk result (λ family. AreInFileOrder trace.now.records family.tasks) }
        ensures seeded { IfOk result (HasRegionSeed trace.now.records) }
        ensures fault { IfErr result (IsFault trace.now.records (CreatedTwice ∷ Rootless ∷ [])) }
    {
        let tables = find_tables(alloc, trace)?;
        let unrooted = find_rootless(alloc, trace, &tables)?;
        exclude(Cause::Rootless, unrooted.first())?;
        Ok(Family {
            tasks: tables.tasks,
            places: tables.places,
            subjects: tables.named.subjects,
            objects: tables.named.objects,
            rows: tables.rows,
            links: tables.links,
            roots: tables.roots,
            region_hashers: Seeded::of(tables.regions.as_slice()),
        })
    }

    /// Returns the tasks in the order in which the records make them.
    pub fn tasks(&self) -> &Numbering
        ensures { result.now ≡ self.now.tasks }
    {
        &self.tasks
    }

    /// Returns what makes the hashers of a table of the parallel regions that the records begin. Its seed is
    /// made from these regions. Nothing but the time of a look-up depends on it.
    pub fn region_hashers(&self) -> Seeded
        ensures { result ≡ self.now.region_hashers }
    {
        self.region_hashers
    }

    /// Returns the place of the record that makes the task, none if no record does.
    pub fn maker(&self, task: u64) -> Option<usize>
        ensures { (records : List Record) → IsFamilyOf records self.now → (place : ℕ)
            → (result ≡ Some place) ↔ (says_at made records place ≡ Some task) }
    {
        match self.tasks.index_of(task) {
            Some(index) => Some(self.made_at(index)),
            None => None,
        }
    }

    /// Returns the place of the record that makes the task at this index.
    pub fn made_at(&self, index: usize) -> usize
        requires { index < length self.now.tasks }
        ensures { (records : List Record) → IsFamilyOf records self.now
            → says_at made records result ≡ slice_get self.now.tasks index }
    {
        self.places[index] as usize
    }

    /// Returns the index of the task that the record at a place is of: the root that begins or ends, the
    /// parent that creates, the prior task of a schedule, the task that is discarded, or the one that does
    /// what the record says. Returns none for the begin or end of a thread.
    pub fn subject(&self, at: usize) -> Option<usize>
        ensures { (records : List Record) → IsFamilyOf records self.now
            → Calls self.now.tasks (says_at subject records at) result }
    {
        slot_at(self.subjects.as_slice(), at)
    }

    /// Returns the index of the second task that the record names: the child that is created, or the next
    /// task of a schedule.
    pub fn object(&self, at: usize) -> Option<usize>
        ensures { (records : List Record) → IsFamilyOf records self.now
            → Calls self.now.tasks (says_at object records at) result }
    {
        slot_at(self.objects.as_slice(), at)
    }

    /// Returns what `subject` does. Requires a record at the place, and doesn't check how many there are.
    pub(crate) fn subject_of(&self, at: usize) -> Option<usize>
        requires { at < length self.now.subjects }
        ensures { (records : List Record) → IsFamilyOf records self.now
            → Calls self.now.tasks (says_at subject records at) result }
    {
        slot_of(self.subjects.as_slice(), at)
    }

    /// Returns what `object` does. Requires a record at the place, and doesn't check how many there are.
    pub(crate) fn object_of(&self, at: usize) -> Option<usize>
        requires { at < length self.now.objects }
        ensures { (records : List Record) → IsFamilyOf records self.now
            → Calls self.now.tasks (says_at object records at) result }
    {
        slot_of(self.objects.as_slice(), at)
    }

    /// Returns whether the task is an initial or implicit one.
    pub fn is_root(&self, task: u64) -> bool
        ensures { (records : List Record) → IsFamilyOf records self.now
            → IsTrue result ↔ IsRoot records task }
    {
        match self.tasks.index_of(task) {
            Some(index) => !self.is_explicit_at(index),
            None => false,
        }
    }

    /// Returns whether another task created the task.
    pub fn is_explicit(&self, task: u64) -> bool
        ensures { (records : List Record) → IsFamilyOf records self.now
            → IsTrue result ↔ IsExplicit records task }
    {
        match self.tasks.index_of(task) {
            Some(index) => self.is_explicit_at(index),
            None => false,
        }
    }

    /// Returns whether another task created the task at this index.
    pub fn is_explicit_at(&self, index: usize) -> bool
        requires { index < length self.now.tasks }
        ensures { (records : List Record) → IsFamilyOf records self.now → (task : ℕ)
            → slice_get self.now.tasks index ≡ Some task → IsTrue result ↔ IsExplicit records task }
    {
        self.links[index].get().is_some()
    }

    /// Returns the task that created this one, none for a root and for a task that no record makes.
    pub fn parent(&self, task: u64) -> Option<u64>
        ensures { (records : List Record) → IsFamilyOf records self.now → (parent : ℕ)
            → (result ≡ Some parent) ↔ IsParent records parent task }
    {
        match self.link_of(task) {
            Some(link) => self.tasks.id_at(link.parent as usize),
            None => None,
        }
    }

    /// Returns how many children the task's parent created before it, none for a root and for a task that
    /// no record makes.
    pub fn number(&self, task: u64) -> Option<u32>
        ensures { (records : List Record) → IsFamilyOf records self.now → (number : ℕ)
            → (result ≡ Some number) ↔ ((parent : ℕ) × IsChild records parent number task) }
    {
        self.link_of(task).map(|link| link.number)
    }

    /// Returns the initial or implicit task at the top of the task's chain of parents. It is the task
    /// itself if that is one. Returns none if no record makes the task.
    pub fn root(&self, task: u64) -> Option<u64>
        ensures { (records : List Record) → IsFamilyOf records self.now → (root : ℕ)
            → (result ≡ Some root) ↔ ((path : List ℕ) × HasPath records root task path) }
    {
        self.standing_of(task).map(|standing| standing.root)
    }

    /// Returns the children of the task in the order of their numbers, an empty slice if no record makes
    /// the task.
    pub fn children(&self, task: u64) -> &[u64]
        ensures { (records : List Record) → IsFamilyOf records self.now
            → result.now ≡ children records task }
    {
        match self.tasks.index_of(task) {
            Some(index) => self.rows.row(index),
            None => &[],
        }
    }

    /// Returns the children of the task at this index, in the order of their numbers.
    pub fn children_at(&self, index: usize) -> &[u64]
        requires { index < length self.now.tasks }
        ensures { (records : List Record) → IsFamilyOf records self.now → (task : ℕ)
            → slice_get self.now.tasks index ≡ Some task → result.now ≡ children records task }
    {
        self.rows.row(index)
    }

    /// Returns the link of the created task at this index.
    pub(crate) fn link_at(&self, index: usize) -> Option<Link>
        ensures { (link : Link) → (result ≡ Some link) ↔ (slice_get self.now.links index ≡ Some (Some link)) }
    {
        if index < self.links.len() {
            self.links[index].get()
        } else {
            None
        }
    }

    /// Returns the link of a created task.
    pub(crate) fn link_of(&self, task: u64) -> Option<Link>
        ensures { (link : Link) → (result ≡ Some link) ↔ IsLinkOf self.now task link }
    {
        self.link_at(self.tasks.index_of(task)?)
    }

    /// Returns the standing of the task at this index: its root and its depth.
    pub(crate) fn standing_at(&self, index: usize) -> Option<Standing>
        ensures { (standing : Standing) → (result ≡ Some standing)
            ↔ (slice_get self.now.roots index ≡ Some (Some standing)) }
    {
        if index < self.roots.len() {
            self.roots[index].get()
        } else {
            None
        }
    }

    /// Returns the standing of the task.
    pub(crate) fn standing_of(&self, task: u64) -> Option<Standing>
        ensures { (standing : Standing) → (result ≡ Some standing) ↔ IsStandingOf self.now task standing }
    {
        self.standing_at(self.tasks.index_of(task)?)
    }
}

/// Returns the index that the slot at a place holds, if there is a slot and it holds one.
fn slot_at(slots: &[Slot], at: usize) -> Option<usize>
    ensures { result ≡ slice_index_or slots.now at None }
{
    if at < slots.len() {
        slots[at].get()
    } else {
        None
    }
}

/// Returns the index that the slot at a place holds, if it holds one. Requires a slot at the place.
fn slot_of(slots: &[Slot], at: usize) -> Option<usize>
    requires { at < length slots.now }
    ensures { result ≡ slice_index_or slots.now at None }
{
    slots[at].get()
}
