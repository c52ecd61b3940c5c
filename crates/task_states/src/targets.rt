//! Whether a task is to run on a device.
ghost use Rattle.std.specs.Prelude.{◌≡◌, false, ◌<◌, ◌↔◌, MatchOption, IfOk, IsTrue, length};
ghost use Rattle.ompt_events.specs.declared.cause.Cause.TheVariants.{TargetTask};
ghost use Rattle.ompt_events.specs.Places.{nests_at};
ghost use Rattle.ompt_events.specs.Causes.{IsFreeOf, IsFirstWith, MakesTarget};
ghost use Rattle.ompt_events.specs.Shown.{AreAllWith};

use ompt_events::Shown;
use std::alloc::{AllocError, Global};
use task_tree::Run;

/// Returns the first record that makes a target task, one with the flag `target` (OpenMP 5.2, 13.8 and
/// `ompt_task_flag_t`), in a trace of version 1 or 2. There such a task runs on a device, whose events are
/// not in the file; in one of version 3 it runs on the host, as other tasks do. Takes no memory from the
/// heap, and one step for each record.
pub fn target(run: &Run) -> Option<usize>
    ensures { MatchOption result (IsFreeOf run.now.records TargetTask)
        (IsFirstWith run.now.records TargetTask) }
{
    if run.nests() {
        return None;
    }
    for at in 0..run.len() {
        if is_target_there(run, at) {
            return Some(at);
        }
    }
    None
}

/// Returns all records that make a target task, as `target` returns the first. Takes one step for each
/// record.
pub fn find_targets(alloc: Global, run: &Run) -> Result<Shown, AllocError>
    ensures { IfOk result (AreAllWith run.now.records TargetTask) }
{
    let mut shown = Shown::none(alloc);
    if run.nests() {
        return Ok(shown);
    }
    for at in 0..run.len() {
        let makes = is_target_there(run, at);
        shown.note(at, makes)?;
    }
    Ok(shown)
}

/// Returns whether the record at a place makes a target task.
fn is_target_there(run: &Run, at: usize) -> bool
    requires within { at < length run.now.records }
    requires flat { nests_at run.now.records at ≡ false }
    ensures { IsTrue result ↔ MakesTarget run.now.records at }
{
    run.makes_target(at)
}
