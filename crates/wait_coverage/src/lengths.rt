//! The least ledger length at which each part of each task is finished: by the records, or by the entries of
//! a ledger.
ghost use Rattle.std.specs.Prelude.{◌≡◌, ◌<◌, ◌+◌, List, Some, IfOk, length, replicate, slice_get};
ghost use Rattle.credit_ledger.specs.declared.entry.Entry.{Entry};
ghost use Rattle.credit_ledger.specs.TraceEntries.{IsLedgerOf};
ghost use Rattle.wait_coverage.specs.Lengths.{no_lengths, with_length, done_length, AreLengths, AreLengthsBelow};

use credit_ledger::{Entry, Ledger};
use ompt_events::Part;
use std::alloc::{AllocError, Global};
use task_tree::Run;

/// Above all ledger lengths.
const NEVER: u64 = u64::MAX;

/// The least ledger lengths at which the parts of a task are finished.
#[derive(Clone, Copy)]
pub(crate) struct Lengths {
    whole: u64,
    body: u64,
    event: u64,
}

impl Lengths {
    /// Returns the lengths of a task of which no part is finished.
    fn none() -> Lengths
        ensures { result ≡ no_lengths }
    {
        Lengths {
            whole: NEVER,
            body: NEVER,
            event: NEVER,
        }
    }

    /// Returns these lengths, with the part finished at this length if not at a lesser one.
    fn with(self, part: Part, length: u64) -> Lengths
        ensures { result ≡ with_length self part length }
    {
        let Lengths { whole, body, event } = self;
        match part {
            Part::Whole => Lengths {
                whole: whole.min(length),
                body,
                event,
            },
            Part::Body => Lengths {
                whole,
                body: body.min(length),
                event,
            },
            Part::Event => Lengths {
                whole,
                body,
                event: event.min(length),
            },
        }
    }

    /// Returns the least length at which the task is finished: whole, or both its body and its event.
    pub(crate) fn done(self) -> u64
        ensures { result ≡ done_length self }
    {
        self.whole.min(self.body.max(self.event))
    }
}

/// Returns by index of the task the least ledger lengths at which its parts are finished, by the records.
pub(crate) fn find_lengths(alloc: Global, run: &Run) -> Result<Vec<Lengths>, AllocError>
    ensures { IfOk result (λ table. AreLengths run.now.records
        (length run.now.records) run.now.family.tasks table.items) }
{
    let mut table = new_lengths(alloc, run.task_count())?;
    for at in 0..run.len() {
        note_finish(run, &mut table, at);
    }
    Ok(table)
}

/// Returns by index of the task the least ledger lengths at which its parts are finished, by the entries of
/// the ledger. Looks up the task of each entry.
pub(crate) fn find_entered(
    alloc: Global,
    run: &Run,
    ledger: &Ledger,
) -> Result<Vec<Lengths>, AllocError>
    ensures all { IfOk result (λ table. length table.items ≡ length run.now.family.tasks) }
    ensures lengths { IsLedgerOf run.now.records ledger.now → IfOk result (λ table.
        AreLengthsBelow run.now.records (length ledger.now) run.now.family.tasks table.items) }
{
    let mut table = new_lengths(alloc, run.task_count())?;
    for index in 0..ledger.len() {
        if let Some(entry) = ledger.entry(index) {
            note_entry(run, &mut table, entry, index);
        }
    }
    Ok(table)
}

/// Returns a table in which no part of any task is finished.
fn new_lengths(alloc: Global, tasks: usize) -> Result<Vec<Lengths>, AllocError>
    ensures { IfOk result (λ table. table.items ≡ replicate tasks no_lengths) }
{
    vec![in alloc; Lengths::none(); tasks]
}

/// Notes what a record finishes.
fn note_finish(run: &Run, table: &mut Vec<Lengths>, at: usize)
    requires within { at < length run.now.records }
    requires table { AreLengths run.now.records at run.now.family.tasks table.old.items }
    ensures { AreLengths run.now.records (at + 1) run.now.family.tasks table.new.items }
{
    let _family = run.family();
    if let Some(finished) = run.finishing(at) {
        let length = u64::from(run.seen(at)) + 1;
        table[finished.task] = table[finished.task].with(finished.part, length);
    }
}

/// Notes what the entry with the index finishes.
fn note_entry(run: &Run, table: &mut Vec<Lengths>, entry: &Entry, index: u32)
    requires all { length table.old.items ≡ length run.now.family.tasks }
    ensures all { length table.new.items ≡ length run.now.family.tasks }
    ensures lengths { (entries : List Entry) → IsLedgerOf run.now.records entries
        → slice_get entries index ≡ Some entry.now
        → AreLengthsBelow run.now.records index run.now.family.tasks table.old.items
        → AreLengthsBelow run.now.records (index + 1) run.now.family.tasks table.new.items }
{
    let _family = run.family();
    if let Some(task) = run.index_of(entry.task) {
        let length = u64::from(index) + 1;
        table[task] = table[task].with(entry.part, length);
    }
}
