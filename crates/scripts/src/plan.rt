//! The steps of each thread of a script.
ghost use Rattle.std.specs.Prelude.{◌≤◌, IfOk, OnOk, length};
ghost use Rattle.ompt_events.specs.Limits.{max_records};
ghost use Rattle.scripts.specs.Parts.{ArePlaces};
ghost use Rattle.task_states.specs.Rows.{IsPlaceAdded};

use crate::Step;
use std::alloc::{AllocError, Global};
use task_states::reach;

/// Returns the places of the steps of each thread, by its number, up to the greatest thread that has one.
pub(crate) fn places_by_thread(alloc: Global, steps: &[Step]) -> Result<Vec<Vec<u32>>, AllocError>
    requires { length steps.now ≤ max_records }
    ensures places { IfOk result (λ threads. ArePlaces steps.now (length steps.now) threads.items) }
    ensures few { IfOk result (λ threads. length threads.items ≤ 256) }
{
    let mut threads: Vec<Vec<u32>> = Vec::new(alloc);
    for at in 0..steps.len() {
        note_place(alloc, &mut threads, steps[at].thread, at as u32)?;
    }
    Ok(threads)
}

/// Notes that the step at this place is one of the thread.
fn note_place(
    alloc: Global,
    threads: &mut Vec<Vec<u32>>,
    thread: u8,
    at: u32,
) -> Result<(), AllocError>
    requires { length threads.old.items ≤ 256 }
    ensures added { OnOk result (IsPlaceAdded threads.old.items threads.new.items thread at) }
    ensures few { OnOk result (length threads.new.items ≤ 256) }
{
    let thread = usize::from(thread);
    reach(alloc, threads, thread)?;
    threads[thread].push(at)?;
    Ok(())
}
