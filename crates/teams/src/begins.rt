//! The places at which each task begins barriers, and how many it began before.
ghost use Rattle.std.specs.Prelude.{◌≡◌, ◌<◌, ◌^◌, IfOk, OnOk, length, replicate};
ghost use Rattle.ompt_events.specs.Records.{region};
ghost use Rattle.ompt_events.specs.Places.{at as says_at};
ghost use Rattle.ompt_events.specs.Regions.{barrier_begun};
ghost use Rattle.task_tree.specs.Subjects.{Calls};
ghost use Rattle.teams.specs.Begins.{IsBeginAdded};
ghost use Rattle.task_states.specs.Rows.{row_at};
ghost use Rattle.teams.specs.Teams.{AreBarrierBegins, AreBeginNumbers};

use ompt_events::{Endpoint, WaitKind};
use std::alloc::{AllocError, Global};
use task_states::reach;
use task_tree::Run;

/// By index of the task the places at which it begins barriers, and by place of a record that begins one
/// how many its task began before.
pub(crate) struct Begins {
    pub(crate) begins: Vec<Vec<u32>>,
    pub(crate) numbers: Vec<u32>,
}

/// Returns the places at which each task begins barriers, and their numbers.
pub(crate) fn find_begins(alloc: Global, run: &Run) -> Result<Begins, AllocError>
    ensures begins { IfOk result (λ found. AreBarrierBegins run.now.records
        (length run.now.records) run.now.family.tasks found.begins.items) }
    ensures numbers { IfOk result (λ found. AreBeginNumbers run.now.records
        (length run.now.records) found.numbers.items) }
{
    let mut begins: Vec<Vec<u32>> = Vec::new(alloc);
    let mut numbers = no_numbers(alloc, run.len())?;
    for at in 0..run.len() {
        if let Some(index) = barrier_begun(run, at) {
            numbers[at] = note_begin(alloc, &mut begins, index, at)?;
        }
    }
    Ok(Begins { begins, numbers })
}

/// Returns a number of 0 for each record.
fn no_numbers(alloc: Global, records: usize) -> Result<Vec<u32>, AllocError>
    ensures { IfOk result (λ numbers. numbers.items ≡ replicate records 0) }
{
    vec![in alloc; 0; records]
}

/// Notes that the task at the index begins a barrier at the place. Returns how many it began before. Makes
/// rows only up to the task: most tasks may begin no barrier.
fn note_begin(
    alloc: Global,
    begins: &mut Vec<Vec<u32>>,
    index: usize,
    at: usize,
) -> Result<u32, AllocError>
    requires small { at < 2 ^ 32 }
    requires few { length (row_at begins.old.items index) < 2 ^ 32 }
    ensures added { OnOk result (IsBeginAdded begins.old.items begins.new.items index at) }
    ensures number { IfOk result (λ number. number ≡ length (row_at begins.old.items index)) }
{
    reach(alloc, begins, index)?;
    let places = &mut begins[index];
    let number = places.len() as u32;
    places.push(at as u32)?;
    Ok(number)
}

/// Returns the index of the task that begins a barrier at the place, of the kinds that wait for the tasks
/// of the team, whether or not it ends there too.
pub fn barrier_begun(run: &Run, at: usize) -> Option<usize>
    requires { at < length run.now.records }
    ensures { Calls run.now.family.tasks (barrier_begun (says_at region run.now.records at)) result }
{
    let event = run.wait_event(at)?;
    if event.kind != WaitKind::Barrier {
        return None;
    }
    if event.endpoint == Endpoint::End {
        return None;
    }
    Some(event.task)
}
