//! The ledger that the finishing records of a trace make.
ghost use Rattle.std.specs.Prelude.{◌≡◌, ◌<◌, ◌++◌, ◌∷◌, [], Some, IfOk, OnOk, IsOkUnless, length, option_and_then, slice_get};
ghost use Rattle.ompt_events.specs.declared.records.Record.{Record};
ghost use Rattle.ompt_events.specs.Traces.{IsSound};
ghost use Rattle.credit_ledger.specs.declared.entry.Entry.{Entry};
ghost use Rattle.credit_ledger.specs.declared.fault.LedgerFault.TheVariants.{Memory};
ghost use Rattle.credit_ledger.specs.declared.view.Call.TheVariants.{Enter};
ghost use Rattle.credit_ledger.specs.Histories.{IsPossible};
ghost use Rattle.credit_ledger.specs.TraceEntries.{entry_of, IsLedgerOf, HasRightEntries};

use crate::makers::find_makers;
use crate::trace_entries::entry_at;
use crate::{Ledger, LedgerFault};
use std::alloc::Global;
use task_tree::Run;

/// Returns the ledger of the run: the entry of each finishing record is at the index that the record
/// names. If the records have right entries, as those without the causes 1 to 13 have
/// (`trace_laws::entries_are_right`), the ledger has all these entries and no other, and the call fails only
/// with `Memory`. The contract guarantees nothing else.
pub fn ledger_of(alloc: Global, run: &Run) -> Result<Ledger, LedgerFault>
    ensures ledger { HasRightEntries run.now.records
        → IfOk result (λ ledger. IsLedgerOf run.now.records ledger) }
    ensures memory { HasRightEntries run.now.records → IsOkUnless result Memory }
{
    let Ok(makers) = find_makers(alloc, run) else {
        return Err(LedgerFault::Memory);
    };
    let mut ledger = Ledger::new(alloc);
    for index in 0..makers.len() {
        if let Some(at) = makers[index] {
            enter(alloc, run, at as usize, &mut ledger)?;
        }
    }
    Ok(ledger)
}

/// Enters what the record at a place brings back, if it finishes a task. Requires a sound body. Fails with the
/// ledger's fault; if the entry is possible, only with `Memory`.
fn enter(alloc: Global, run: &Run, at: usize, ledger: &mut Ledger) -> Result<(), LedgerFault>
    requires within { at < length run.now.records }
    requires sound { (r : Record) → slice_get run.now.records at ≡ Some r → IsSound r.body }
    ensures entered { (entry : Entry) → option_and_then entry_of (slice_get run.now.records at) ≡ Some entry
        → OnOk result (ledger.new ≡ ledger.old ++ entry ∷ []) }
    ensures memory { (entry : Entry) → option_and_then entry_of (slice_get run.now.records at) ≡ Some entry
        → IsPossible ledger.old (Enter entry) → IsOkUnless result Memory }
{
    let Ok(made) = entry_at(alloc, run, at) else {
        return Err(LedgerFault::Memory);
    };
    let Some(entry) = made else {
        return Ok(());
    };
    if let Err((_, fault)) = ledger.enter(entry) {
        return Err(fault);
    }
    Ok(())
}
