//! The calls for synchronisation regions (OpenMP 5.2, 19.5.2.13).
ghost use Rattle.std.specs.Prelude.{◌≡◌, ◌&&◌, None, true, false, not, IfOk, IfErr, OnOk, OnErr, IsErr, IsSome};
ghost use Rattle.ompt_events.specs.declared.records.Body.TheVariants.{SyncRegion};
ghost use Rattle.ompt_events.specs.declared.names.Endpoint.TheVariants.{Begin, End, BeginEnd};
ghost use Rattle.credit_ledger.specs.Places.{ledger_id};
ghost use Rattle.callbacks.specs.Tasks.{is_barred, is_innermost_region, with_region, without_region};
ghost use Rattle.callbacks.specs.Calls.{call_fault};
ghost use Rattle.callbacks.specs.Recorders.{recorded_alone, refusal_at, IsObserved};

use crate::fault::CallFault;
use crate::recording::Recorder;
use crate::task::TaskData;
use credit_ledger::SharedLedger;
use ompt_events::{Body, Endpoint, SyncKind};
use std::sync::Wait;

impl Recorder {
    /// Records that the task, which must run, begins a synchronisation region. An explicit task has no
    /// barriers (15.3).
    pub fn ompt_callback_sync_region_begin(
        &mut self,
        task: &mut TaskData,
        kind: SyncKind,
        parallel: Option<u64>,
    ) -> Result<(), CallFault>
        ensures made { OnOk result (self.new ≡ recorded_alone self.old
            (SyncRegion kind Begin parallel task.old.id)) }
        ensures task { OnOk result (task.new ≡ with_region task.old kind) }
        ensures unchanged { OnErr result (self.new ≡ self.old) }
        ensures same_task { OnErr result (task.new ≡ task.old) }
        ensures refused { IsSome (refusal_at self.old (not (is_barred task.old kind)) false false
            (SyncRegion kind Begin parallel task.old.id)) → IsErr result }
        ensures fault { IfErr result (λ fault. fault
            ≡ call_fault (refusal_at self.old (not (is_barred task.old kind)) false false
            (SyncRegion kind Begin parallel task.old.id))) }
    {
        let body = region_body(task, kind, Endpoint::Begin, parallel);
        self.test(!task.is_barred(kind), false, false, &body)?;
        let Ok(()) = task.begin_region(kind) else {
            return Err(CallFault::Memory);
        };
        if self.append(body).is_err() {
            task.end_region();
            return Err(CallFault::Memory);
        }
        Ok(())
    }

    /// Records that the task, which must run, ends its innermost open region, which must be of this kind.
    /// Looks at the ledger, and may wait for its turn there. Returns the length that the record names. If
    /// the region is a wait, the tasks that it waits for must have their entries below that length.
    pub fn ompt_callback_sync_region_end<R: Wait>(
        &mut self,
        ledger: &SharedLedger,
        wait: &R,
        task: &mut TaskData,
        kind: SyncKind,
        parallel: Option<u64>,
    ) -> Result<u32, CallFault>
        requires { self.old.ledger ≡ ledger_id ledger.now }
        ensures ledger { self.new.ledger ≡ self.old.ledger }
        ensures made { IfOk result (λ seen. IsObserved self.old seen
            (SyncRegion kind End parallel task.old.id) self.new) }
        ensures task { OnOk result (task.new ≡ without_region task.old) }
        ensures unchanged { OnErr result (self.new ≡ self.old) }
        ensures same_task { OnErr result (task.new ≡ task.old) }
        ensures refused { IsSome (refusal_at self.old
            (is_innermost_region task.old kind && not (is_barred task.old kind)) false false
            (SyncRegion kind End parallel task.old.id)) → IsErr result }
        ensures fault { IfErr result (λ fault. fault ≡ call_fault (refusal_at self.old
            (is_innermost_region task.old kind && not (is_barred task.old kind)) false false
            (SyncRegion kind End parallel task.old.id))) }
    {
        let body = region_body(task, kind, Endpoint::End, parallel);
        let may = task.is_innermost_region(kind) && !task.is_barred(kind);
        self.test(may, false, false, &body)?;
        let seen = self.observe(ledger, wait, body)?;
        task.end_region();
        Ok(seen)
    }

    /// Records that the task, which must run, begins and ends a region in one call. Its other regions stay
    /// as they are. Looks at the ledger, and may wait for its turn there. Returns the length that the
    /// record names.
    pub fn ompt_callback_sync_region_both<R: Wait>(
        &mut self,
        ledger: &SharedLedger,
        wait: &R,
        task: &mut TaskData,
        kind: SyncKind,
        parallel: Option<u64>,
    ) -> Result<u32, CallFault>
        requires { self.old.ledger ≡ ledger_id ledger.now }
        ensures ledger { self.new.ledger ≡ self.old.ledger }
        ensures made { IfOk result (λ seen.
            IsObserved self.old seen (SyncRegion kind BeginEnd parallel task.old.id) self.new) }
        ensures task { task.new ≡ task.old }
        ensures unchanged { OnErr result (self.new ≡ self.old) }
        ensures refused { IsSome (refusal_at self.old (not (is_barred task.old kind)) false false
            (SyncRegion kind BeginEnd parallel task.old.id)) → IsErr result }
        ensures fault { IfErr result (λ fault. fault
            ≡ call_fault (refusal_at self.old (not (is_barred task.old kind)) false false
            (SyncRegion kind BeginEnd parallel task.old.id))) }
    {
        let body = region_body(task, kind, Endpoint::BeginEnd, parallel);
        self.test(!task.is_barred(kind), false, false, &body)?;
        self.observe(ledger, wait, body)
    }
}

/// Returns the body of the region's record.
fn region_body(task: &TaskData, kind: SyncKind, endpoint: Endpoint, parallel: Option<u64>) -> Body
    ensures { result ≡ SyncRegion kind endpoint parallel task.now.id }
{
    Body::SyncRegion {
        kind,
        endpoint,
        parallel,
        task: task.id(),
    }
}
