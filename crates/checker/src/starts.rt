//! Of the unfinished predecessors of what starts or is complete at a place, the one created first; and
//! whether a given task is one of them.
ghost use Rattle.std.specs.Prelude.{ℕ, ◌≡◌, ◌<◌, ◌+◌, ◌↔◌, List, IfOk, IfErr, IsTrue, MatchOption, Some, length, replicate, slice_get, slice_index, Contains};
ghost use Rattle.ompt_events.specs.declared.fault.Fault.TheVariants.{Memory};
ghost use Rattle.ompt_events.specs.declared.cause.Cause.TheVariants.{EntryTwice, LengthAhead};
ghost use Rattle.ompt_events.specs.Causes.{IsFreeOf};
ghost use Rattle.ompt_events.specs.Tree.{IsExplicit};
ghost use Rattle.depend_edges.specs.Edges.{ArePredecessors};
ghost use Rattle.wait_coverage.specs.Done.{AreOwnLengths};
ghost use Rattle.wait_coverage.specs.Waits.{AreEach};
ghost use Rattle.credit_ledger.specs.TraceEntries.{IsDone};
ghost use Rattle.checker.specs.Starts.{IsPredecessorUnfinished, AreReady, IsPrecededByNone, IsDependentAt, IsFirstLateAt, IsBound, AreNoLengths, AreStarts, AreStartsBelow, StartsAt, StartsNoneAt, IsUnfinishedPredecessor, AreDoneBefore, IsFirstBehind, IsFirstOf, IsBehindAt, IsEarlierOf};

use crate::schedule::first_started;
use crate::sound::Sound;
use depend_edges::Edges;
use ompt_events::Fault;
use std::alloc::{AllocError, Global};
use std::marker::Model;
use task_tree::{Own, Run};

/// The tables that decide whether tasks start in time.
#[derive(Drop)]
pub(crate) struct Precedence<'a, 'r> {
    /// The run of the file: what starts where.
    file: &'a Run<'r>,
    /// The run in the tasks' own order: what precedes what.
    own: &'a Own<'r>,
    edges: &'a Edges<'r>,
    /// By index of the task in its own order the least ledger length at which it is finished.
    lengths: &'a [u64],
    /// The greatest of the lengths of its predecessors.
    latest: Vec<u64>,
    /// By index of the task in the file the place at which it starts, or the number of records where it
    /// does not; none where no task has a predecessor that an entry finishes.
    starts: Option<Vec<u32>>,
}

impl<'a, 'r> Model for Precedence<'a, 'r> {
    ghost use Rattle.std.specs.Prelude.{option_map};
    ghost use Rattle.checker.specs.Starts.{PrecedenceView, IsPrecedence};

    ghost Value = { PrecedenceView };

    ghost view = { λ precedence. record {
      file = precedence.file.now;
      own = precedence.own.now;
      lengths = precedence.lengths.now;
      latest = precedence.latest.items;
      starts = option_map (λ starts. starts.items) precedence.starts;
    } };

    ghost invariant = { λ precedence. IsPrecedence precedence.edges.now.run (record {
      file = precedence.file.now;
      own = precedence.own.now;
      lengths = precedence.lengths.now;
      latest = precedence.latest.items;
      starts = option_map (λ starts. starts.items) precedence.starts;
    }) };
}

/// A task whose predecessors must be complete at a place.
#[derive(Clone, Copy)]
struct Dependent {
    /// Its index in the run in the tasks' own order.
    index: usize,
    /// A predecessor is complete there if and only if the entries below this ledger length finish it.
    bound: u32,
}

/// An unfinished predecessor, and the place in the file at which it is created.
#[derive(Clone, Copy)]
struct Late {
    place: usize,
    task: u64,
}

impl<'a, 'r> Precedence<'a, 'r> {
    /// Returns the tables, from the edges of the run and the least ledger length at which each task is
    /// finished, by its index in its own order. Takes a few steps for each record, n log n in the
    /// dependences, and memory linear in the tasks. Fails only when out of memory.
    pub(crate) fn of(
        alloc: Global,
        sound: &'a Sound<'r>,
        lengths: &'a [u64],
    ) -> Result<Precedence<'a, 'r>, Fault>
        requires own { AreOwnLengths sound.now.own.run.records sound.now.own.run.family.tasks lengths.now }
        requires once { IsFreeOf sound.now.run.records EntryTwice }
        requires reached { IsFreeOf sound.now.run.records LengthAhead }
        ensures file { IfOk result (λ precedence. precedence.file ≡ sound.now.run) }
        ensures memory_alone { IfErr result (λ fault. fault ≡ Memory) }
    {
        let edges = sound.edges();
        let latest = edges.latest(lengths)?;
        let starts = needed_starts(alloc, sound.run(), &latest)?;
        Ok(Precedence {
            file: sound.run(),
            own: sound.own(),
            edges,
            lengths,
            latest,
            starts,
        })
    }

    /// Returns an unfinished predecessor of the explicit task that starts at the place, or of the taskwait
    /// with dependences that is complete there: the one created first in file order (OpenMP 5.2, 15.9.5 and
    /// 15.5). Takes a few steps where there is none, and else n log n in the dependences of the task's
    /// siblings. Fails only when out of memory.
    pub(crate) fn late_at(&self, at: usize) -> Result<Option<u64>, Fault>
        requires { at < length self.now.file.records }
        ensures found { IfOk result (λ found. MatchOption found (AreReady self.now.file.records at)
            (IsFirstLateAt self.now.file.records at)) }
        ensures memory_alone { IfErr result (λ fault. fault ≡ Memory) }
    {
        match &self.starts {
            Some(starts) => self.late_by(starts.as_slice(), at),
            None => Ok(None),
        }
    }

    /// Returns whether a predecessor of what starts or is complete at the place is not finished there. Takes a
    /// few steps.
    pub(crate) fn is_late_at(&self, at: usize) -> bool
        requires { at < length self.now.file.records }
        ensures { IsTrue result ↔ (AreReady self.now.file.records at → ⊥) }
    {
        match &self.starts {
            Some(starts) => self.is_any_late_by(starts.as_slice(), at),
            None => false,
        }
    }

    /// Returns the predecessors of what starts or is complete at the place that are not finished there, each
    /// once. Takes n log n steps in the dependences of one task's siblings. Fails only when out of memory.
    pub(crate) fn all_late_at(&self, alloc: Global, at: usize) -> Result<Vec<u64>, Fault>
        requires { at < length self.now.file.records }
        ensures late { IfOk result (λ late. AreEach (IsPredecessorUnfinished self.now.file.records at) late.items) }
        ensures memory_alone { IfErr result (λ fault. fault ≡ Memory) }
    {
        match &self.starts {
            Some(starts) => self.all_late_by(alloc, starts.as_slice(), at),
            None => Ok(Vec::new(alloc)),
        }
    }

    /// Returns whether the task is a predecessor of what starts or is complete at the place, and is not
    /// finished there (OpenMP 5.2, 15.9.5 and 15.5). Takes n log n steps in the dependences of one task's
    /// siblings. Fails only when out of memory.
    pub(crate) fn is_late(&self, at: usize, task: u64) -> Result<bool, Fault>
        requires { at < length self.now.file.records }
        ensures late { IfOk result (λ late. IsTrue late ↔ IsPredecessorUnfinished self.now.file.records at task) }
        ensures memory_alone { IfErr result (λ fault. fault ≡ Memory) }
    {
        match &self.starts {
            Some(starts) => self.is_late_by(starts.as_slice(), at, task),
            None => Ok(false),
        }
    }
}

/// Returns the places at which the tasks start, or none where no task has a predecessor that an entry
/// finishes.
fn needed_starts(alloc: Global, run: &Run, latest: &[u64]) -> Result<Option<Vec<u32>>, AllocError>
    ensures { IfOk result (λ starts. MatchOption starts (AreNoLengths latest.now)
        (λ starts. AreStarts run.now.records run.now.family.tasks starts.items)) }
{
    if are_all_zero(latest) {
        return Ok(None);
    }
    Ok(Some(find_starts(alloc, run)?))
}

/// Returns by index of the task the place at which it starts, or the number of records.
fn find_starts(alloc: Global, run: &Run) -> Result<Vec<u32>, AllocError>
    ensures { IfOk result (λ starts. AreStarts run.now.records run.now.family.tasks starts.items) }
{
    let mut starts = no_starts(alloc, run)?;
    for at in 0..run.len() {
        note_start(run, &mut starts, at);
    }
    Ok(starts)
}

/// Returns the table in which no task starts.
fn no_starts(alloc: Global, run: &Run) -> Result<Vec<u32>, AllocError>
    ensures { IfOk result (λ starts. starts.items
        ≡ replicate (length run.now.family.tasks) (length run.now.records)) }
{
    vec![in alloc; run.len() as u32; run.task_count()]
}

/// Notes the start at the place, if this record is the first to begin turn 0 of its task.
fn note_start(run: &Run, starts: &mut Vec<u32>, at: usize)
    requires within { at < length run.now.records }
    requires starts { AreStartsBelow run.now.records at run.now.family.tasks starts.old.items }
    ensures { AreStartsBelow run.now.records (at + 1) run.now.family.tasks starts.new.items }
{
    if let Some(index) = first_started(run, at) {
        if starts[index] as usize == run.len() {
            starts[index] = at as u32;
        }
    }
}

/// Returns true only if all lengths are 0.
fn are_all_zero(latest: &[u64]) -> bool
    ensures { IsTrue result → AreNoLengths latest.now }
{
    for length in latest {
        if *length > 0 {
            return false;
        }
    }
    true
}

/// Returns the index of the explicit task that starts at the place.
fn start_at(run: &Run, starts: &[u32], at: usize) -> Option<usize>
    requires within { at < length run.now.records }
    requires starts { AreStarts run.now.records run.now.family.tasks starts.now }
    ensures { MatchOption result (StartsNoneAt run.now.records at)
        (StartsAt run.now.records run.now.family.tasks at) }
{
    let index = first_started(run, at)?;
    if starts[index] as usize == at && run.is_explicit(index) {
        Some(index)
    } else {
        None
    }
}

/// Returns whether the task is one of these.
fn is_among(tasks: &[u64], task: u64) -> bool
    ensures { IsTrue result ↔ Contains tasks.now task }
{
    tasks.iter().any(|other| *other == task)
}

// What must be complete at a place.
impl Precedence<'_, '_> {
    /// Returns the task whose predecessors must be complete at the place: an explicit one that starts
    /// there, or a taskwait that is complete there.
    fn dependent_at(&self, starts: &[u32], at: usize) -> Option<Dependent>
        requires within { at < length self.now.file.records }
        requires starts { AreStarts self.now.file.records self.now.file.family.tasks starts.now }
        ensures { MatchOption result (IsPrecededByNone self.now.file.records at) (λ dependent.
            IsDependentAt self.now.file.records self.now.own.run at dependent.index dependent.bound) }
    {
        let number = self.own.number(at);
        match start_at(self.file, starts, at) {
            Some(_first) => {
                let index = self.own.run().started(number)?;
                let bound = self.start_bound(at);
                Some(Dependent { index, bound })
            }
            None => {
                let index = self.own.run().wait_completed(number)?;
                let bound = self.file.seen(at);
                Some(Dependent { index, bound })
            }
        }
    }

    /// Returns, of the predecessors that must be complete at the place and aren't, the one created first.
    fn late_by(&self, starts: &[u32], at: usize) -> Result<Option<u64>, Fault>
        requires within { at < length self.now.file.records }
        requires starts { AreStarts self.now.file.records self.now.file.family.tasks starts.now }
        ensures found { IfOk result (λ found. MatchOption found (AreReady self.now.file.records at)
            (IsFirstLateAt self.now.file.records at)) }
        ensures memory_alone { IfErr result (λ fault. fault ≡ Memory) }
    {
        match self.dependent_at(starts, at) {
            Some(dependent) => self.late_of(dependent.index, dependent.bound),
            None => Ok(None),
        }
    }

    /// Returns whether one of those predecessors isn't complete there.
    fn is_any_late_by(&self, starts: &[u32], at: usize) -> bool
        requires within { at < length self.now.file.records }
        requires starts { AreStarts self.now.file.records self.now.file.family.tasks starts.now }
        ensures { IsTrue result ↔ (AreReady self.now.file.records at → ⊥) }
    {
        match self.dependent_at(starts, at) {
            Some(dependent) => self.is_any_late_of(dependent.index, dependent.bound),
            None => false,
        }
    }

    /// Returns all of those predecessors that aren't complete there.
    fn all_late_by(&self, alloc: Global, starts: &[u32], at: usize) -> Result<Vec<u64>, Fault>
        requires within { at < length self.now.file.records }
        requires starts { AreStarts self.now.file.records self.now.file.family.tasks starts.now }
        ensures late { IfOk result (λ late. AreEach (IsPredecessorUnfinished self.now.file.records at) late.items) }
        ensures memory_alone { IfErr result (λ fault. fault ≡ Memory) }
    {
        match self.dependent_at(starts, at) {
            Some(dependent) => self.all_late_of(alloc, dependent.index, dependent.bound),
            None => Ok(Vec::new(alloc)),
        }
    }

    /// Returns whether the task is one of those predecessors, and isn't complete there.
    fn is_late_by(&self, starts: &[u32], at: usize, task: u64) -> Result<bool, Fault>
        requires within { at < length self.now.file.records }
        requires starts { AreStarts self.now.file.records self.now.file.family.tasks starts.now }
        ensures late { IfOk result (λ late. IsTrue late ↔ IsPredecessorUnfinished self.now.file.records at task) }
        ensures memory_alone { IfErr result (λ fault. fault ≡ Memory) }
    {
        match self.dependent_at(starts, at) {
            Some(dependent) => self.is_late_of(dependent.index, dependent.bound, task),
            None => Ok(false),
        }
    }

    /// Returns the ledger length that decides what is complete where the record at the place starts an
    /// explicit task. A task that the record itself finishes counts.
    fn start_bound(&self, at: usize) -> u32
        requires { at < length self.now.file.records }
        ensures { (index : ℕ) → StartsAt self.now.file.records self.now.file.family.tasks at index
            → IsBound self.now.file.records at result }
    {
        self.file.known_after(at) as u32
    }
}

// The predecessors of one task, by its index in its own order.
impl Precedence<'_, '_> {
    /// Returns whether the task is a predecessor of the one at the index, and the entries below the length
    /// don't finish it.
    fn is_late_of(&self, index: usize, bound: u32, task: u64) -> Result<bool, Fault>
        requires { index < length self.now.own.run.family.tasks }
        ensures late { IfOk result (λ late. (dependent : ℕ)
            → slice_get self.now.own.run.family.tasks index ≡ Some dependent
            → IsTrue late ↔ IsUnfinishedPredecessor self.now.own.run.records dependent bound task) }
        ensures memory_alone { IfErr result (λ fault. fault ≡ Memory) }
    {
        let predecessors = self.edges.of(self.own.run().task(index))?;
        if is_among(&predecessors, task) {
            Ok(self.behind_at(task, bound).is_some())
        } else {
            Ok(false)
        }
    }

    /// Returns whether the entries below the length don't finish some predecessor of the task at the index.
    fn is_any_late_of(&self, index: usize, bound: u32) -> bool
        requires { index < length self.now.own.run.family.tasks }
        ensures { (task : ℕ) → slice_get self.now.own.run.family.tasks index ≡ Some task
            → IsTrue result ↔ (AreDoneBefore self.now.own.run.records task bound → ⊥) }
    {
        let _lengths = self.lengths;
        self.latest[index] > u64::from(bound)
    }

    /// Returns the predecessors of the task at the index that the entries below the length don't finish.
    fn all_late_of(&self, alloc: Global, index: usize, bound: u32) -> Result<Vec<u64>, Fault>
        requires { index < length self.now.own.run.family.tasks }
        ensures late { IfOk result (λ late. (task : ℕ)
            → slice_get self.now.own.run.family.tasks index ≡ Some task
            → AreEach (IsUnfinishedPredecessor self.now.own.run.records task bound) late.items) }
        ensures memory_alone { IfErr result (λ fault. fault ≡ Memory) }
    {
        let predecessors = self.edges.of(self.own.run().task(index))?;
        let mut late = Vec::new(alloc);
        for predecessor in &predecessors {
            if self.behind_at(*predecessor, bound).is_some() {
                late.push(*predecessor)?;
            }
        }
        Ok(late)
    }

    /// Returns, of the predecessors of the task at the index that the entries below the length don't
    /// finish, the one created first in file order.
    fn late_of(&self, index: usize, bound: u32) -> Result<Option<u64>, Fault>
        requires { index < length self.now.own.run.family.tasks }
        ensures found { IfOk result (λ found. (task : ℕ)
            → slice_get self.now.own.run.family.tasks index ≡ Some task
            → MatchOption found (AreDoneBefore self.now.own.run.records task bound)
            (IsFirstBehind self.now.file.records self.now.own.run.records task bound)) }
        ensures memory_alone { IfErr result (λ fault. fault ≡ Memory) }
    {
        // Most predecessors are finished in time. They are searched only where one is not.
        if self.latest[index] <= u64::from(bound) {
            return Ok(None);
        }
        let predecessors = self.edges.of(self.own.run().task(index))?;
        Ok(self.first_behind(&predecessors, bound))
    }

    /// Returns, of a task's predecessors that the entries below the length don't finish, the one created
    /// first in file order.
    fn first_behind(&self, predecessors: &[u64], bound: u32) -> Option<u64>
        ensures { (task : ℕ) → ArePredecessors self.now.own.run.records task predecessors.now
            → MatchOption result (AreDoneBefore self.now.own.run.records task bound)
            (IsFirstBehind self.now.file.records self.now.own.run.records task bound) }
    {
        let mut first = None;
        for at in 0..predecessors.len() {
            first = self.earlier_of(first, predecessors[at], bound);
        }
        match first {
            Some(late) => Some(late.task),
            None => None,
        }
    }

    /// Returns the one that is created first in file order: of a late predecessor, if one is known, and
    /// this task, unless the entries below the length finish it.
    fn earlier_of(&self, first: Option<Late>, task: u64, bound: u32) -> Option<Late>
        ensures { (predecessors : List ℕ) (n dependent : ℕ) → slice_get predecessors n ≡ Some task
            → ArePredecessors self.now.own.run.records dependent predecessors
            → IsFirstOf self.now.file.records self.now.own.run.records predecessors bound n first
            → IsFirstOf self.now.file.records self.now.own.run.records predecessors bound (n + 1) result }
    {
        // Makes the invariant known: these are the tasks' lengths. It compiles to nothing.
        let _lengths = self.lengths;
        match self.behind_at(task, bound) {
            Some(place) => Some(earlier(first, Late { place, task })),
            None => first,
        }
    }

    /// Returns the place in the file at which the task is created, or none if the entries below the length
    /// finish it. The contract speaks of explicit tasks only.
    fn behind_at(&self, task: u64, bound: u32) -> Option<usize>
        ensures { (index : ℕ) → slice_get self.now.own.run.family.tasks index ≡ Some task
            → IsExplicit self.now.own.run.records task
            → MatchOption result (IsDone self.now.own.run.records bound task)
            (IsBehindAt self.now.file.records self.now.own.run.records bound task) }
    {
        let run = self.own.run();
        let index = run.index_of(task)?;
        if self.lengths[index] <= u64::from(bound) {
            return None;
        }
        let number = run.created_at(index)?;
        Some(self.own.place(number))
    }
}

/// Returns the one that is created first in file order: of a late predecessor, if one is known, and
/// another.
fn earlier(first: Option<Late>, other: Late) -> Late
    ensures { IsEarlierOf other result first }
{
    match first {
        Some(late) => {
            if late.place < other.place {
                late
            } else {
                other
            }
        }
        None => other,
    }
}
