//! What tasks depend on, and which of their items conflict.
ghost use Rattle.std.specs.Prelude.{ℕ, ◌≡◌, ◌↔◌, ◌<◌, Some, List, IsTrue, Contains, length, slice_get};
ghost use Rattle.ompt_events.specs.Places.{at as says_at};
ghost use Rattle.ompt_events.specs.Records.{dependences};
ghost use Rattle.ompt_events.specs.Dependences.{DependsOn};
ghost use Rattle.depend_edges.specs.Items.{Clash, HasClash, HaveClash};

use crate::edges::Edges;
use ompt_events::{Dep, conflicts};
use task_tree::Run;

impl<'a> Edges<'a> {
    /// Returns the items of the task's list of dependences, an empty slice if no record makes the task.
    pub(crate) fn items_of(&self, task: u64) -> &'a [Dep]
        ensures { (dep : Dep) → Contains result.now dep ↔ DependsOn self.now.run.records task dep }
    {
        match self.run().index_of(task) {
            Some(index) => self.items_at(index),
            None => &[],
        }
    }

    /// Returns the items of the list of the task at this index.
    pub(crate) fn items_at(&self, index: usize) -> &'a [Dep]
        requires { index < length self.now.run.family.tasks }
        ensures { (task : ℕ) → slice_get self.now.run.family.tasks index ≡ Some task → (dep : Dep)
            → Contains result.now dep ↔ DependsOn self.now.run.records task dep }
    {
        match self.lists[index].get() {
            Some(at) => items_listed(&self.run, at),
            None => &[],
        }
    }
}

/// Returns the items that the record lists.
fn items_listed<'a>(run: &Run<'a>, at: usize) -> &'a [Dep]
    requires { at < length run.now.records }
    ensures { (task : ℕ) (items : List Dep) → says_at dependences run.now.records at ≡ Some (task, items)
        → result.now ≡ items }
{
    match run.dependences(at) {
        Some((_, items)) => items,
        None => &[],
    }
}

/// Returns whether an earlier item conflicts with one of these.
pub(crate) fn have_clash(earlier: &[Dep], items: &[Dep]) -> bool
    ensures { IsTrue result ↔ HaveClash earlier.now items.now }
{
    items.iter().any(|item| has_clash(earlier, *item))
}

/// Returns whether an earlier item conflicts with this one.
fn has_clash(earlier: &[Dep], item: Dep) -> bool
    ensures { IsTrue result ↔ HasClash earlier.now item }
{
    earlier.iter().any(|other| is_clash(*other, item))
}

/// Returns whether the two items use the same location, and the earlier one conflicts with the other.
fn is_clash(earlier: Dep, item: Dep) -> bool
    ensures { IsTrue result ↔ Clash earlier item }
{
    earlier.var == item.var && conflicts(earlier.kind, item.kind)
}
