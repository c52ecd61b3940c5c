//! The tree of tasks with the path of each.
ghost use Rattle.std.specs.Prelude.{ℕ, ◌≡◌, ◌↔◌, List, [], ◌∷◌, Some, IfOk, IfErr, option_copied};
ghost use Rattle.ompt_events.specs.declared.records.Record.{Record};
ghost use Rattle.ompt_events.specs.Tree.{IsParent, IsChild, HasPath, children};
ghost use Rattle.ompt_events.specs.declared.cause.Cause.TheVariants.{CreatedTwice, Rootless};
ghost use Rattle.ompt_events.specs.Turns.{in_own_order};
ghost use Rattle.ompt_events.specs.Faults.{IsFault};
ghost use Rattle.task_tree.specs.Families.{own_family};
ghost use Rattle.task_tree.specs.Paths.{IsTreeOf};

use crate::families::Families;
use crate::family::Family;
use crate::paths::find_paths;
use ompt_events::{Fault, Trace};
use packed_trace::PackedTrace;
use std::alloc::Global;
use std::marker::Model;

/// The fault of a build of a tree: Memory, CreatedTwice, or Rootless if no task or region is made twice.
pub type TreeFault = Fault;

/// The tasks that the records of a trace make, each with its parent, its number, its path, its root and its
/// children, by the tasks' own order: a task that ran on several threads has its children in the order of
/// its turns. Paths are stored. Their memory is the sum of the depths of all tasks, which is quadratic for
/// a chain of tasks. `Families` have all but the paths.
#[derive(Debug, Drop)]
pub struct Tree {
    trace: PackedTrace,
    families: Families,
    /// By index of the task in the family of its own order.
    paths: Vec<Vec<u32>>,
}

impl Model for Tree {
    ghost use Rattle.std.specs.Prelude.{◌≡◌, length};
    ghost use Rattle.task_tree.specs.Families.{own_family};
    ghost use Rattle.task_tree.specs.Paths.{TreeView};

    ghost Value = { TreeView };

    ghost view = { λ tree. record {
      trace = tree.trace;
      families = tree.families;
      paths = tree.paths.items;
    } };

    ghost invariant = { λ tree. length tree.paths.items ≡ length (own_family tree.families).tasks };
}

impl Tree {
    /// Returns the tree of the trace's tasks. Fails with CreatedTwice if a task or a parallel region is
    /// made twice, else with Rootless if a record names a task without a root or a region without a begin;
    /// and when out of memory.
    pub fn build(alloc: Global, trace: &Trace) -> Result<Tree, TreeFault>
        ensures tree { IfOk result (IsTreeOf trace.now.records) }
        ensures fault { IfErr result (IsFault trace.now.records (CreatedTwice ∷ Rootless ∷ [])) }
    {
        let trace = PackedTrace::of(alloc, trace)?;
        let families = Families::build(alloc, &trace)?;
        let paths = find_paths(alloc, families.own_family())?;
        Ok(Tree {
            trace,
            families,
            paths,
        })
    }

    /// Returns the records of the trace in columns.
    pub fn trace(&self) -> &PackedTrace
        ensures { result.now ≡ self.now.trace }
    {
        &self.trace
    }

    /// Returns the tree without its paths: the families of the tasks, by file order and by the tasks' own
    /// order.
    pub fn families(&self) -> &Families
        ensures { result.now ≡ self.now.families }
    {
        &self.families
    }

    /// Returns the family by the tasks' own order.
    fn family(&self) -> &Family
        ensures { result.now ≡ own_family self.now.families }
    {
        self.families.own_family()
    }

    /// Returns the task that created this one, none for a root and for a task that no record makes.
    pub fn parent(&self, task: u64) -> Option<u64>
        ensures { (records : List Record) → IsTreeOf records self.now → (parent : ℕ)
            → (result ≡ Some parent) ↔ IsParent (in_own_order records) parent task }
    {
        self.family().parent(task)
    }

    /// Returns how many children the task's parent created before it, in its own order; none for a root and
    /// for a task that no record makes.
    pub fn number(&self, task: u64) -> Option<u32>
        ensures { (records : List Record) → IsTreeOf records self.now → (number : ℕ)
            → (result ≡ Some number) ↔ ((parent : ℕ)
            × IsChild (in_own_order records) parent number task) }
    {
        self.family().number(task)
    }

    /// Returns the numbers of the children from the root down to the task, an empty path for a root, and
    /// none if no record makes the task.
    pub fn path(&self, task: u64) -> Option<&[u32]>
        ensures { (records : List Record) → IsTreeOf records self.now → (path : List ℕ)
            → (option_copied result ≡ Some path) ↔ ((root : ℕ)
            × HasPath (in_own_order records) root task path) }
    {
        match self.family().tasks().index_of(task) {
            Some(index) => Some(self.paths[index].as_slice()),
            None => None,
        }
    }

    /// Returns the initial or implicit task at the top of the task's chain of parents. It is the task
    /// itself if that is one. Returns none if no record makes the task.
    pub fn root(&self, task: u64) -> Option<u64>
        ensures { (records : List Record) → IsTreeOf records self.now → (root : ℕ)
            → (result ≡ Some root) ↔ ((path : List ℕ)
            × HasPath (in_own_order records) root task path) }
    {
        self.family().root(task)
    }

    /// Returns the children of the task in the order of their numbers, an empty slice if no record makes
    /// the task.
    pub fn children(&self, task: u64) -> &[u64]
        ensures { (records : List Record) → IsTreeOf records self.now
            → result.now ≡ children (in_own_order records) task }
    {
        self.family().children(task)
    }
}
