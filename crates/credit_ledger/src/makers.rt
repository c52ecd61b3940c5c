//! Which record makes each entry of the ledger.
ghost use Rattle.std.specs.Prelude.{◌≡◌, ◌<◌, IfOk, Some, length, slice_set};
ghost use Rattle.ompt_events.specs.Causes.{entries_in};
ghost use Rattle.task_tree.specs.Runs.{IsRun};
ghost use Rattle.credit_ledger.specs.TraceMakers.{AreEntryRecords};

use std::alloc::{AllocError, Global};
use task_tree::Run;

/// Returns by entry the place of the record that makes it, if one does. Fails only when out of memory.
/// Takes as many steps as there are records.
pub(crate) fn find_makers(alloc: Global, run: &Run) -> Result<Vec<Option<u32>>, AllocError>
    ensures records { IfOk result (λ makers.
        AreEntryRecords run.now.records (length run.now.records) makers.items) }
    ensures is_run { IfOk result (λ _. IsRun run.now) }
{
    let mut makers = vec![in alloc; None; entry_count(run)]?;
    for at in 0..run.len() {
        if run.is_finishing(at) {
            name_maker(&mut makers, run.seen(at) as usize, at as u32);
        }
    }
    Ok(makers)
}

/// Returns how many entries the records make.
fn entry_count(run: &Run) -> usize
    ensures { result ≡ entries_in run.now.records }
{
    let mut count = 0;
    for at in 0..run.len() {
        count += usize::from(run.is_finishing(at));
    }
    count
}

/// Records that the record at a place makes the entry, if the table has that entry.
fn name_maker(makers: &mut Vec<Option<u32>>, entry: usize, at: u32)
    ensures { makers.new.items ≡ slice_set makers.old.items entry (Some at) }
{
    if entry < makers.len() {
        makers[entry] = Some(at);
    }
}
