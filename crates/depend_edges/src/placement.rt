//! Lists of dependences that do not follow the creations of their tasks.
ghost use Rattle.std.specs.Prelude.{ℕ, ◌≡◌, ◌↔◌, ◌<◌, Some, None, true, false, IsTrue, IfOk, is_some, length, replicate, ◌+◌};
ghost use Rattle.ompt_events.specs.Places.{at as says_at};
ghost use Rattle.ompt_events.specs.Records.{dependences};
ghost use Rattle.ompt_events.specs.declared.cause.Cause.TheVariants.{DepsPlace};
ghost use Rattle.ompt_events.specs.Causes.{IsNextInThread, HasMisplacedDeps};
ghost use Rattle.ompt_events.specs.Shown.{AreAllWith};
ghost use Rattle.depend_edges.specs.Placement.{AreLastOfThreads, AreListsMarked, BelongTogether, HasDependences, HasNoneAt};

use index_tables::Slot;
use ompt_events::Shown;
use std::alloc::{AllocError, Global};
use std::marker::Model;
use task_tree::Run;

/// The number of threads: a thread's number has 8 bits.
const THREADS: usize = 256;

/// Returns true only if no record creates a task with dependences, or lists some. Most files are so.
pub(crate) fn has_none(run: &Run) -> bool
    ensures { IsTrue result → (i : ℕ) → HasNoneAt run.now.records i }
{
    for at in 0..run.len() {
        if has_dependences(run, at) {
            return false;
        }
    }
    true
}

/// Returns the places of all records whose dependences are misplaced: those that list dependences of no task
/// that the record before creates on the same thread, and those that create a task with dependences which
/// the next one there does not list.
pub fn misplaced_dependences(alloc: Global, run: &Run) -> Result<Shown, AllocError>
    ensures { IfOk result (AreAllWith run.now.records DepsPlace) }
{
    let marks = find_marks(alloc, run)?;
    marks.misplaced(alloc)
}

/// For each record of a run, whether it creates a task with dependences that follow, or lists those of the
/// task that was created before it.
#[derive(Drop)]
struct Marks<'a> {
    run: Run<'a>,
    marks: Vec<bool>,
}

impl<'a> Model for Marks<'a> {
    ghost use Rattle.std.specs.Prelude.{length};
    ghost use Rattle.task_tree.specs.Runs.{RunView};
    ghost use Rattle.depend_edges.specs.Placement.{AreListsMarked};

    ghost Value = { RunView };

    ghost view = { λ marks. marks.run };

    ghost invariant = { λ marks. AreListsMarked marks.run.records (length marks.run.records) marks.marks.items };
}

impl Marks<'_> {
    /// Returns the places of all records whose dependences are misplaced.
    fn misplaced(&self, alloc: Global) -> Result<Shown, AllocError>
        ensures { IfOk result (AreAllWith self.now.records DepsPlace) }
    {
        let mut shown = Shown::none(alloc);
        for at in 0..self.run.len() {
            shown.note(at, self.is_misplaced(at))?;
        }
        Ok(shown)
    }

    /// Returns whether the record creates a task with dependences, or lists some, and has no mark.
    fn is_misplaced(&self, at: usize) -> bool
        requires { at < length self.now.records }
        ensures { IsTrue result ↔ HasMisplacedDeps self.now.records at }
    {
        let marks = self.marks.as_slice();
        !marks[at] && has_dependences(&self.run, at)
    }
}

/// Returns the marks of the run's records.
fn find_marks<'a>(alloc: Global, run: &Run<'a>) -> Result<Marks<'a>, AllocError>
    ensures { IfOk result (λ marked. marked ≡ run.now) }
{
    let mut last = no_places(alloc, THREADS)?;
    let mut marks = no_marks(alloc, run.len())?;
    for at in 0..run.len() {
        mark(&mut marks, run, last.as_slice(), at);
        note_last(&mut last, run, at);
    }
    let run = run.again();
    Ok(Marks { run, marks })
}

/// Returns this many empty slots.
pub(crate) fn no_places(alloc: Global, len: usize) -> Result<Vec<Slot>, AllocError>
    ensures { IfOk result (λ places. places.items ≡ replicate len None) }
{
    vec![in alloc; Slot::none(); len]
}

/// Returns no mark for each record.
fn no_marks(alloc: Global, len: usize) -> Result<Vec<bool>, AllocError>
    ensures { IfOk result (λ marks. marks.items ≡ replicate len false) }
{
    vec![in alloc; false; len]
}

/// Notes the record as the last of its thread.
fn note_last(last: &mut Vec<Slot>, run: &Run, at: usize)
    requires within { at < length run.now.records }
    requires last { AreLastOfThreads run.now.records at last.old.items }
    ensures { AreLastOfThreads run.now.records (at + 1) last.new.items }
{
    // A run has fewer records than a slot has places.
    let _records = run.len();
    let thread = run.thread(at) as usize;
    last[thread] = Slot::some(at);
}

/// Marks the record and the one before it in its thread, if they belong together.
fn mark(marks: &mut Vec<bool>, run: &Run, last: &[Slot], at: usize)
    requires within { at < length run.now.records }
    requires last { AreLastOfThreads run.now.records at last.now }
    requires marks { AreListsMarked run.now.records at marks.old.items }
    ensures { AreListsMarked run.now.records (at + 1) marks.new.items }
{
    if !lists_items(run, at) {
        return;
    }
    let Some(before) = previous(run, last, at) else {
        return;
    };
    if belong_together(run, before, at) {
        marks[before] = true;
        marks[at] = true;
    }
}

/// Returns whether the record lists dependences.
fn lists_items(run: &Run, at: usize) -> bool
    requires { at < length run.now.records }
    ensures { IsTrue result ↔ (is_some (says_at dependences run.now.records at) ≡ true) }
{
    run.dependences(at).is_some()
}

/// Returns the place of the record before it in its thread.
fn previous(run: &Run, last: &[Slot], at: usize) -> Option<usize>
    requires within { at < length run.now.records }
    requires last { AreLastOfThreads run.now.records at last.now }
    ensures { (a : ℕ) → (result ≡ Some a) ↔ IsNextInThread run.now.records a at }
{
    let thread = run.thread(at) as usize;
    last[thread].get()
}

/// Returns whether the one record creates a task with dependences, and the other lists those of that task.
fn belong_together(run: &Run, create: usize, list: usize) -> bool
    requires creation { create < length run.now.records }
    requires list { list < length run.now.records }
    ensures { IsTrue result ↔ BelongTogether run.now.records create list }
{
    // In a run each task has one index only.
    let _tasks = run.task_count();
    let Some(task) = run.created_with_deps(create) else {
        return false;
    };
    let Some((listed, _)) = run.dependences(list) else {
        return false;
    };
    task == listed
}

/// Returns whether the record creates a task with dependences, or lists them.
fn has_dependences(run: &Run, at: usize) -> bool
    requires { at < length run.now.records }
    ensures { IsTrue result ↔ HasDependences run.now.records at }
{
    run.created_with_deps(at).is_some() || run.dependences(at).is_some()
}
