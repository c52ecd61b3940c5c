//! The trace file with its records in the order of a yes.
ghost use Rattle.std.specs.Prelude.{◌≡◌, ◌≢◌, IfOk, IfErr, IsOkUnless};
ghost use Rattle.std.specs.List.Sorted.{IsPermutation};
ghost use Rattle.ompt_events.specs.Places.{places};
ghost use Rattle.checker.specs.Counter.{IsShownBy};
ghost use Rattle.checker.specs.Readings.{by_task};
ghost use Rattle.checker.specs.Verdicts.{IsVerdict};
ghost use Rattle.taskaudit.specs.Audits.{IsOutOfMemory, IsReadRightly, Leaves, Prints, Reports, WritesRecords};
ghost use Rattle.taskaudit.specs.Devices.{TellsDevices};
ghost use Rattle.taskaudit.specs.Orders.{in_order, records_at};
ghost use Rattle.taskaudit.specs.Reports.{outcome_of};

use crate::auditing::put;
use crate::order::shown_text;
use crate::work::{AuditFault, Outcome, Printed};
use certificate::{Sink, Source, read, write};
use checker::{Order, Verdict, check_packed_with_counter};
use ompt_events::{Body, Record, Trace};
use packed_trace::PackedTrace;
use std::alloc::{AllocError, Global};
use std::mem::replace;

/// Reads a trace file to its end and checks it. Of a yes writes the file with its records in the order of the
/// yes, in the same version. Of a no or a malformed trace writes what [`audit`] prints with an order.
///
/// [`audit`]: crate::auditing::audit
pub fn order_records<I: Source, O: Sink>(
    alloc: Global,
    source: &mut I,
    sink: &mut O,
) -> Result<Outcome, AuditFault>
    ensures reports { IfOk result
        (Reports WritesRecords (I.remaining source.old) (O.contents sink.old) (O.contents sink.new)) }
    ensures leaves { IfErr result
        (Leaves WritesRecords (I.remaining source.old) (O.contents sink.old) (O.contents sink.new)) }
    ensures unreadable { IfErr result (IsReadRightly (I.remaining source.old) (I.remaining source.new)) }

    // A fault of the source or of the sink is told exactly where it occurs.
    ensures devices { TellsDevices result
        (record { turns = I.agains source.old; breaks = I.breaks source.old })
        (record { turns = I.agains source.new; breaks = I.breaks source.new })
        (record { turns = O.stalls sink.old; breaks = O.breaks sink.old })
        (record { turns = O.stalls sink.new; breaks = O.breaks sink.new }) }
{
    let trace = read(alloc, source).map_err(AuditFault::Read)?;
    let (verdict, text) = answer(alloc, &trace)?;
    let Verdict::Yes { order } = &verdict else {
        return put(&verdict, text.as_slice(), sink);
    };
    let ordered = in_order(alloc, trace, order)?;
    match write(alloc, &ordered, sink) {
        Ok(()) => Ok(Outcome::Yes),
        Err(fault) => Err(AuditFault::Write(fault)),
    }
}

/// Returns the verdict on the trace, and of a no or a malformed trace what is printed with an order.
fn answer(alloc: Global, trace: &Trace) -> Result<(Verdict, Vec<u8>), AuditFault>
    ensures verdict { IfOk result (λ answer. IsVerdict trace.now.records answer.0) }
    ensures text { IfOk result (λ answer. outcome_of answer.0 ≢ Outcome.Yes
        → Prints Printed.Order trace.now answer.0 answer.1.items) }
    ensures memory { IfErr result IsOutOfMemory }
{
    match PackedTrace::of(alloc, trace) {
        Ok(packed) => answer_packed(alloc, &packed),
        Err(AllocError) => Err(AuditFault::Memory),
    }
}

/// Returns what [`answer`] does, of a trace in columns.
fn answer_packed(alloc: Global, trace: &PackedTrace) -> Result<(Verdict, Vec<u8>), AuditFault>
    ensures verdict { IfOk result (λ answer. IsVerdict trace.now.records answer.0) }
    ensures text { IfOk result (λ answer. outcome_of answer.0 ≢ Outcome.Yes
        → Prints Printed.Order trace.now answer.0 answer.1.items) }
    ensures memory { IfErr result IsOutOfMemory }
{
    let (verdict, counter) = check_packed_with_counter(alloc, trace).map_err(AuditFault::Check)?;
    let text = text_of(alloc, trace, &verdict, &counter)?;
    Ok((verdict, text))
}

/// Returns what is printed of a no or a malformed trace with an order. The counter order is that of a no.
fn text_of(
    alloc: Global,
    trace: &PackedTrace,
    verdict: &Verdict,
    counter: &Option<Order>,
) -> Result<Vec<u8>, AuditFault>
    requires verdict { IsVerdict trace.now.records verdict.now }
    requires counter { IsShownBy (by_task trace.now.records) verdict.now counter.now }
    ensures text { IfOk result (λ text. outcome_of verdict.now ≢ Outcome.Yes
        → Prints Printed.Order trace.now verdict.now text.items) }
    ensures memory { IsOkUnless result AuditFault.Memory }
{
    if Outcome::of(verdict) == Outcome::Yes {
        return Ok(Vec::new(alloc));
    }
    shown_text(alloc, trace, verdict, counter)
}

/// Returns the trace with its records in this order, in the same version.
fn in_order(alloc: Global, trace: Trace, order: &Order) -> Result<Trace, AuditFault>
    requires { IsPermutation (places trace.records) order.now }
    ensures ordered { IfOk result (λ ordered. ordered ≡ in_order trace order.now) }
    ensures memory { IsOkUnless result AuditFault.Memory }
{
    let version = trace.version();
    match records_at(alloc, trace.into_records(), order) {
        Ok(records) => Ok(Trace::from_parts(version, records)),
        Err(AllocError) => Err(AuditFault::Memory),
    }
}

/// Returns the records in this order. Each is moved there, and leaves an empty one at its place.
fn records_at(
    alloc: Global,
    mut records: Vec<Record>,
    order: &Order,
) -> Result<Vec<Record>, AllocError>
    requires { IsPermutation (places records.items) order.now }
    ensures { IfOk result (λ ordered. ordered.items ≡ records_at records.items order.now) }
{
    let mut ordered = Vec::with_capacity(alloc, order.len())?;
    for before in 0..order.len() {
        let place = order.place_at(before).unwrap();
        let empty = Record {
            thread: 0,
            nests: false,
            seq: 0,
            seen: 0,
            body: Body::ThreadEnd,
        };
        ordered.push(replace(&mut records[place], empty))?;
    }
    Ok(ordered)
}
