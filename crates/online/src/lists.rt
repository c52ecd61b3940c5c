//! The lists of dependences of the tasks that are not complete, and which of them precedes another.
ghost use Rattle.std.specs.Prelude.{ℕ, List, ◌≡◌, ◌↔◌, [], Some, None, IfSome, IsNone, OnOk, IsTrue};
ghost use Rattle.ompt_events.specs.declared.deps.Dep.{Dep};
ghost use Rattle.ompt_events.specs.Records as say;
ghost use Rattle.online.specs.Items.{completed_by};
ghost use Rattle.online.specs.Lists.{AreListsOf, NotesList, DropsList, IsFoundBefore, IsFirstBefore, IsBefore};
ghost use Rattle.online.specs.Lists.{IsEarlier, Precedes, Clash, HasClash, HaveClash};

use crate::item_steps::completed;
use crate::replay::Replay;
use ompt_events::{Body, Dep, Record, conflicts};
use std::alloc::{AllocError, Global};
use std::collections::HashMap;

/// The list of dependences of a task.
#[derive(Debug, Drop)]
pub(crate) struct KeptList {
    /// The place of the record that lists it.
    place: usize,
    /// The task's parent.
    parent: u64,
    items: Vec<Dep>,
}

/// A task that precedes another by its list, and the place of that.
#[derive(Clone, Copy)]
struct Found {
    place: usize,
    task: u64,
}

/// The lists of dependences of the tasks that have one and are not complete.
#[derive(Debug, Drop)]
pub(crate) struct Lists {
    /// By task its list.
    kept: HashMap<u64, KeptList>,
    alloc: Global,
}

impl Lists {
    /// Returns no lists. Takes no memory.
    pub(crate) fn new(alloc: Global) -> Lists
        ensures { AreListsOf [] result }
    {
        Lists {
            kept: HashMap::new(alloc),
            alloc,
        }
    }

    /// Takes the record at this place: keeps the list that it lists, of a task with this parent, and drops that of a
    /// task that it completes. Fails only when out of memory.
    pub(crate) fn take(
        &mut self,
        record: &Record,
        parent: Option<u64>,
        place: usize,
    ) -> Result<(), AllocError>
        ensures noted { OnOk result ((task p : ℕ) (list : List Dep)
            → say.dependences «record».now.body ≡ Some (task, list) → parent ≡ Some p
            → NotesList self.old self.new task place p list) }
        ensures dropped { OnOk result (say.dependences «record».now.body ≡ None
            → DropsList self.old self.new (completed_by (say.finish «record».now.body))) }
    {
        match &record.body {
            Body::Dependences { task, list } => self.note(*task, parent, place, list.as_slice()),
            _ => {
                self.forget(record);
                Ok(())
            }
        }
    }

    /// Keeps the list of the task, if its parent is given.
    fn note(
        &mut self,
        task: u64,
        parent: Option<u64>,
        place: usize,
        list: &[Dep],
    ) -> Result<(), AllocError>
        ensures { OnOk result ((p : ℕ) → parent ≡ Some p → NotesList self.old self.new task place p list.now) }
    {
        let Some(parent) = parent else {
            return Ok(());
        };
        let mut items: Vec<Dep> = Vec::new(self.alloc);
        items.extend_from_slice(list)?;
        let kept = KeptList {
            place,
            parent,
            items,
        };
        self.kept.insert(task, kept)?;
        Ok(())
    }

    /// Drops the list of a task that the record completes.
    fn forget(&mut self, record: &Record)
        ensures { DropsList self.old self.new (completed_by (say.finish «record».now.body)) }
    {
        if self.kept.is_empty() {
            return;
        }
        if let Some(task) = completed(record) {
            self.kept.remove(&task);
        }
    }

    /// Returns the live task that precedes this one by their lists, of several the one whose list comes first.
    pub(crate) fn first_before(&self, replay: &Replay, task: u64) -> Option<u64>
        ensures first { IfSome result (IsFirstBefore self.now replay.now task) }
        ensures none { IsNone result → (found : ℕ) → IsFoundBefore self.now replay.now task found → ⊥ }
    {
        let own = self.kept.get(&task)?;
        let mut first: Option<Found> = None;
        for (other, list) in &self.kept {
            if is_before(replay, *other, list, own) {
                let found = Found {
                    place: list.place,
                    task: *other,
                };
                first = Some(earlier(first, found));
            }
        }
        Some(first?.task)
    }
}

/// Returns whether the task is live and precedes, by its list, that of the second one.
fn is_before(replay: &Replay, task: u64, list: &KeptList, second: &KeptList) -> bool
    ensures { IsTrue result ↔ IsBefore replay.now second.now (task, list.now) }
{
    replay.is_live(task) && precedes(list, second)
}

/// Returns what was found first, if anything was, or what is found now, whichever list comes first.
fn earlier(first: Option<Found>, found: Found) -> Found
    ensures { IsEarlier first found result }
{
    match first {
        Some(first) => {
            if first.place <= found.place {
                first
            } else {
                found
            }
        }
        None => found,
    }
}

/// Returns whether the first list comes before the second one, both are of children of one task, and they clash.
fn precedes(first: &KeptList, second: &KeptList) -> bool
    ensures { IsTrue result ↔ Precedes first.now second.now }
{
    first.place < second.place
        && first.parent == second.parent
        && have_clash(first.items.as_slice(), second.items.as_slice())
}

/// Returns whether an earlier item conflicts with one of these.
fn have_clash(earlier: &[Dep], items: &[Dep]) -> bool
    ensures { IsTrue result ↔ HaveClash earlier.now items.now }
{
    items.iter().any(|item| has_clash(earlier, *item))
}

/// Returns whether an earlier item conflicts with this one.
fn has_clash(earlier: &[Dep], item: Dep) -> bool
    ensures { IsTrue result ↔ HasClash earlier.now item }
{
    earlier.iter().any(|other| is_clash(*other, item))
}

/// Returns whether the two items use the same location, and the earlier one conflicts with the other.
fn is_clash(earlier: Dep, item: Dep) -> bool
    ensures { IsTrue result ↔ Clash earlier item }
{
    earlier.var == item.var && conflicts(earlier.kind, item.kind)
}
