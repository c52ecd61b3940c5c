//! Which steps of a script use each task, and which steps are awaited.
ghost use Rattle.std.specs.Prelude.{◌≡◌, ◌≤◌, ◌<◌, ◌+◌, ℕ, List, Some, length, slice_get, option_map, IfOk};
ghost use Rattle.ompt_events.specs.Limits.{max_records};
ghost use Rattle.scripts.specs.declared.script.Step.{Step};
ghost use Rattle.scripts.specs.Scripts.{IsScript, IsShortScript};
ghost use Rattle.packed_trace.specs.Named.{subject, object};
ghost use Rattle.scripts.specs.Parts.{IsUsed, AreUses, AreLastUses, IsTold, IsFound, noted, next_of, with_next, told_next};

use crate::Step;
use index_tables::Numbering;
use ompt_events::Body;
use std::alloc::{AllocError, Global};
use task_states::row;

/// The use of a task by a step that names it.
#[derive(Clone, Copy)]
pub(crate) struct Use {
    /// The number of the task, in the order in which the steps make the tasks.
    pub task: u32,
    /// How many steps the script has up to the last earlier one that names the task, with that one; 0 if none
    /// does.
    pub since: u32,
    /// The thread of the next step that names it, if there is one.
    pub next: Option<u8>,
}

/// The uses of tasks by one step, in the order in which its call names them.
#[derive(Clone, Copy)]
pub(crate) struct Uses {
    pub first: Option<Use>,
    pub second: Option<Use>,
    /// Whether a later step names this one by its `after`.
    pub is_awaited: bool,
}

impl Uses {
    /// A step that names no task, and that no step awaits.
    const NONE: Uses = Uses {
        first: None,
        second: None,
        is_awaited: false,
    };

    /// Returns the same with the thread of the next step that names the task.
    fn with_next(self, task: u32, thread: u8) -> Uses
        ensures { result ≡ with_next task thread self }
    {
        Uses {
            first: next_of(self.first, task, thread),
            second: next_of(self.second, task, thread),
            is_awaited: self.is_awaited,
        }
    }

    /// Returns the same as a step that a later one names by its `after`.
    fn awaited(self) -> Uses
        ensures { (steps : List Step) (n at : ℕ) → IsUsed steps n at self → IsUsed steps n at result }
    {
        Uses {
            first: self.first,
            second: self.second,
            is_awaited: true,
        }
    }
}

/// Returns the use with the thread of the next step that names the task, if it is a use of the task.
fn next_of(used: Option<Use>, task: u32, thread: u8) -> Option<Use>
    ensures { result ≡ option_map (next_of task thread) used }
{
    match used {
        Some(used) if used.task == task => Some(Use {
            task,
            since: used.since,
            next: Some(thread),
        }),
        _ => used,
    }
}

/// The uses of the steps.
#[derive(Drop)]
pub(crate) struct UseTable {
    /// By place of the step.
    pub uses: Vec<Uses>,
    tasks: usize,
}

impl UseTable {
    /// Returns the uses by all steps. The second table has the places of each thread's steps.
    pub(crate) fn of(
        alloc: Global,
        steps: &[Step],
        threads: &[Vec<u32>],
    ) -> Result<UseTable, AllocError>
        requires rules { IsScript steps.now }
        requires short { IsShortScript steps.now }
        ensures { IfOk result (λ table. AreUses steps.now (length steps.now) table.uses.items) }
    {
        let tasks = numbered(alloc, steps)?;
        let mut uses = uses_of(alloc, steps, &tasks)?;
        note_awaited(&mut uses, steps, threads);
        Ok(UseTable {
            uses,
            tasks: tasks.as_slice().len(),
        })
    }

    /// Returns how many tasks the steps make.
    pub(crate) fn tasks(&self) -> usize {
        self.tasks
    }

    /// Returns the uses of tasks by the step at this place.
    pub(crate) fn at(&self, at: usize) -> Uses
        ensures { (steps : List Step) (n : ℕ) → AreUses steps n self.now.uses.items → IsUsed steps n at result }
    {
        match self.uses.get(at) {
            Some(uses) => *uses,
            None => Uses::NONE,
        }
    }
}

/// Returns the task that a call names first.
fn subject(body: &Body) -> Option<u64>
    ensures { result ≡ subject body.now }
{
    match body {
        Body::ThreadBegin { .. } | Body::ThreadEnd => None,
        Body::ParallelBegin { task, .. }
        | Body::ParallelEnd { task, .. }
        | Body::ImplicitTask { task, .. }
        | Body::TaskCreate { task, .. }
        | Body::Dependences { task, .. }
        | Body::SyncRegion { task, .. }
        | Body::Cancel { task, .. } => Some(*task),
        Body::TaskSchedule { prior, .. } => Some(*prior),
    }
}

/// Returns the task that a call of a script names next.
fn object(body: &Body) -> Option<u64>
    ensures { result ≡ object body.now }
{
    match body {
        Body::TaskCreate { child, .. } => Some(*child),
        Body::TaskSchedule { next, .. } => *next,
        _ => None,
    }
}

/// Returns the tasks that the steps make, in the order of the steps. A script makes each task once.
fn numbered(alloc: Global, steps: &[Step]) -> Result<Numbering, AllocError>
    requires rules { IsScript steps.now }
    requires short { IsShortScript steps.now }
    ensures { IfOk result (λ tasks. length tasks ≤ max_records) }
{
    let mut made = Vec::new(alloc);
    for step in steps {
        if let Some(task) = step.body.made() {
            made.push(task)?;
        }
    }
    match Numbering::of(alloc, made)? {
        Ok(tasks) => Ok(tasks),
        Err(_) => unreachable!(),
    }
}

/// Returns the uses by all steps.
fn uses_of(alloc: Global, steps: &[Step], tasks: &Numbering) -> Result<Vec<Uses>, AllocError>
    requires few_steps { length steps.now ≤ max_records }
    requires few_tasks { length tasks.now ≤ max_records }
    ensures { IfOk result (λ uses. AreUses steps.now (length steps.now) uses.items) }
{
    let mut uses = Vec::with_capacity(alloc, steps.len())?;
    let mut since = vec![in alloc; 0u32; tasks.as_slice().len()]?;
    for at in 0..steps.len() {
        let step = &steps[at];
        let used = use_one(&mut since, tasks, &step.body, at as u32);
        note_next(&mut uses, used.first, step.thread);
        note_next(&mut uses, used.second, step.thread);
        uses.push(used)?;
    }
    Ok(uses)
}

/// Returns the uses by a call at this place, and notes them as the last ones.
fn use_one(since: &mut Vec<u32>, tasks: &Numbering, body: &Body, at: u32) -> Uses
    requires at { at < max_records }
    requires few { length since.old.items ≤ max_records }
    requires as_many { length since.old.items ≡ length tasks.now }
    ensures same { length since.new.items ≡ length since.old.items }
    ensures first { (steps : List Step) → AreLastUses steps at tasks.now since.old.items
        → IsTold steps tasks.now at (subject body.now) result.first }
    ensures second { (steps : List Step) → AreLastUses steps at tasks.now since.old.items
        → IsTold steps tasks.now at (object body.now) result.second }
    ensures last { (steps : List Step) (s : Step) → slice_get steps at ≡ Some s → s.body ≡ body.now
        → AreLastUses steps at tasks.now since.old.items
        → AreLastUses steps (at + 1) tasks.now since.new.items }
{
    let first = find(since.as_slice(), tasks, subject(body));
    let second = find(since.as_slice(), tasks, object(body));
    note(since, first, at + 1);
    note(since, second, at + 1);
    Uses {
        first,
        second,
        is_awaited: false,
    }
}

/// Returns the use of the task after the last one that is noted.
fn find(since: &[u32], tasks: &Numbering, task: Option<u64>) -> Option<Use>
    requires { length since.now ≤ max_records }
    ensures { IsFound tasks.now since.now task (option_map (λ u. (u.task, u.since)) result) }
{
    let number = tasks.index_of(task?)?;
    let since = *since.get(number)?;
    Some(Use {
        task: number as u32,
        since,
        next: None,
    })
}

/// Notes that the last use of the task is that by the last of the first `now` steps.
fn note(since: &mut Vec<u32>, used: Option<Use>, now: u32)
    ensures { since.new.items ≡ noted since.old.items (option_map (λ u. u.task) used) now }
{
    if let Some(used) = used
        && let Some(last) = since.get_mut(used.task as usize)
    {
        *last = now;
    }
}

/// Notes at the last earlier use of the task that the next one is on this thread.
fn note_next(uses: &mut Vec<Uses>, used: Option<Use>, thread: u8)
    ensures told { (at : ℕ) → slice_get uses.new.items at
        ≡ option_map (told_next used thread at) (slice_get uses.old.items at) }
    ensures same { length uses.new.items ≡ length uses.old.items }
{
    let Some(used) = used else {
        return;
    };
    if used.since > 0
        && let Some(last) = uses.get_mut(used.since as usize - 1)
    {
        *last = last.with_next(used.task, thread);
    }
}

/// Notes which steps are named by an `after`. The second table has the places of each thread's steps.
fn note_awaited(uses: &mut Vec<Uses>, steps: &[Step], threads: &[Vec<u32>])
    ensures { (all : List Step) (n : ℕ) → AreUses all n uses.old.items → AreUses all n uses.new.items }
{
    for at in 0..steps.len() {
        if let Some((thread, number)) = steps[at].after {
            note_awaited_one(uses, row(threads, usize::from(thread)).get(number as usize));
        }
    }
}

/// Notes that the step at this place is awaited.
fn note_awaited_one(uses: &mut Vec<Uses>, at: Option<&u32>)
    ensures { (steps : List Step) (n : ℕ) → AreUses steps n uses.old.items → AreUses steps n uses.new.items }
{
    if let Some(at) = at
        && let Some(used) = uses.get_mut(*at as usize)
    {
        *used = used.awaited();
    }
}
