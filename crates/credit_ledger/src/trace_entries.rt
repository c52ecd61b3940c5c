//! What a finishing record brings back.
ghost use Rattle.std.specs.Prelude.{◌≡◌, ◌<◌, IfOk, length, option_and_then, slice_get};
ghost use Rattle.credit_ledger.specs.TraceEntries.{entry_of};

use crate::Entry;
use std::alloc::{AllocError, Global};
use task_tree::Run;

/// Returns the entry that the record at a place makes, by its claim, or `None` if the record finishes no task.
/// Fails only when out of memory.
pub(crate) fn entry_at(alloc: Global, run: &Run, at: usize) -> Result<Option<Entry>, AllocError>
    requires { at < length run.now.records }
    ensures { IfOk result (λ entry. entry ≡ option_and_then entry_of (slice_get run.now.records at)) }
{
    let Some(finished) = run.finishing(at) else {
        return Ok(None);
    };
    let Some(claim) = run.claim(at) else {
        return Ok(None);
    };
    Ok(Some(Entry {
        thread: run.thread(at),
        part: finished.part,
        kept: claim.kept,
        task: run.task(finished.task),
        root: claim.root,
        path: claim.path.to_path(alloc)?,
    }))
}
