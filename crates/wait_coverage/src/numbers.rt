//! How many children a task had created before each of its records.
ghost use Rattle.std.specs.Prelude.{◌≡◌, ◌<◌, ◌+◌, IfOk, length, replicate};
ghost use Rattle.task_tree.specs.Runs.{IsRun};
ghost use Rattle.wait_coverage.specs.Numbers.{AreCreationCounts, AreNumbers, IsNumberAt};

use std::alloc::{AllocError, Global};
use task_tree::Run;

/// Returns by record how many children its task had created before it.
pub(crate) fn find_numbers(alloc: Global, run: &Run) -> Result<Vec<u32>, AllocError>
    ensures { IfOk result (λ numbers. AreNumbers run.now.records (length run.now.records) numbers.items) }
{
    let mut counts = no_counts(alloc, run.task_count())?;
    let mut numbers = Vec::with_capacity(alloc, run.len())?;
    for at in 0..run.len() {
        numbers.push(number_at(run, counts.as_slice(), at))?;
        count_child(run, &mut counts, at);
    }
    Ok(numbers)
}

/// Returns counts with which no task has created a child.
fn no_counts(alloc: Global, tasks: usize) -> Result<Vec<u32>, AllocError>
    ensures { IfOk result (λ counts. counts.items ≡ replicate tasks 0) }
{
    vec![in alloc; 0; tasks]
}

/// Returns how many children the task of a record has created so far, or 0 if it is of no task.
fn number_at(run: &Run, counts: &[u32], at: usize) -> u32
    requires { AreCreationCounts run.now.records at run.now.family.tasks counts.now }
    ensures { IsNumberAt run.now.records at result }
{
    match run.subject(at) {
        Some(index) => counts[index],
        None => 0,
    }
}

/// Counts the child that a record creates.
fn count_child(run: &Run, counts: &mut Vec<u32>, at: usize)
    requires within { at < length run.now.records }
    requires is_run { IsRun run.now }
    requires counts { AreCreationCounts run.now.records at run.now.family.tasks counts.old.items }
    ensures { AreCreationCounts run.now.records (at + 1) run.now.family.tasks counts.new.items }
{
    if let Some(made) = run.creation(at) {
        counts[made.parent] += 1;
    }
}
