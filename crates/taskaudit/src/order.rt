//! What is printed of an order.
ghost use Rattle.std.specs.Prelude.{◌≡◌, ◌<◌, ◌++◌, ℕ, Contains, IfOk, IsOkUnless, OnOk, codes, decimal, length, option_map, string_bytes};
ghost use Rattle.checker.specs.Counter.{IsShownBy};
ghost use Rattle.checker.specs.Readings.{by_task};
ghost use Rattle.checker.specs.Verdicts.{IsVerdict};
ghost use Rattle.taskaudit.specs.Audits.{Prints};
ghost use Rattle.taskaudit.specs.Orders.{order_lines, order_shown};

use crate::report::report_by;
use crate::work::{AuditFault, Printed};
use checker::{Order, Verdict};
use itoa::Buffer;
use packed_trace::PackedTrace;
use std::alloc::{AllocError, Global};

/// The most bytes of a line: three digits of the thread, a space, seven digits of the seq, since a thread has
/// at most 2^22 records, and the line feed.
const LINE: usize = 12;

/// The report of the trace's verdict, and behind it the order that shows it. The counter order is that of a
/// no.
pub fn shown_text(
    alloc: Global,
    trace: &PackedTrace,
    verdict: &Verdict,
    counter: &Option<Order>,
) -> Result<Vec<u8>, AuditFault>
    requires verdict { IsVerdict trace.now.records verdict.now }
    requires counter { IsShownBy (by_task trace.now.records) verdict.now counter.now }
    ensures text { IfOk result (λ text. Prints Printed.Order trace.now verdict.now text.items) }
    ensures memory { IsOkUnless result AuditFault.Memory }
{
    let report = report_by(alloc, verdict, trace, None)?;
    match order_shown(verdict, counter) {
        Some(order) => order_text(report, order, trace),
        None => Ok(report.into_bytes()),
    }
}

/// The order that shows the verdict; none of a malformed trace.
fn order_shown<'a>(verdict: &'a Verdict, counter: &'a Option<Order>) -> Option<&'a Order>
    ensures { option_map (λ order. order.now) result ≡ order_shown verdict.now counter.now }
{
    match verdict {
        Verdict::Yes { order } => Some(order),
        Verdict::No { .. } => counter.as_ref(),
        Verdict::Malformed { .. } => None,
    }
}

/// The report, and behind it the lines of the order.
fn order_text(report: String, order: &Order, trace: &PackedTrace) -> Result<Vec<u8>, AuditFault>
    requires { (i : ℕ) → Contains order.now i → i < length trace.now.records }
    ensures text { IfOk result (λ text. text.items
        ≡ string_bytes report ++ order_lines trace.now.records order.now) }
    ensures memory { IsOkUnless result AuditFault.Memory }
{
    let mut text = report.into_bytes();
    match put_lines(&mut text, order, trace) {
        Ok(()) => Ok(text),
        Err(AllocError) => Err(AuditFault::Memory),
    }
}

/// Puts the lines of the order behind, after room was made for all of them.
fn put_lines(text: &mut Vec<u8>, order: &Order, trace: &PackedTrace) -> Result<(), AllocError>
    requires { (i : ℕ) → Contains order.now i → i < length trace.now.records }
    ensures { OnOk result (text.new.items ≡ text.old.items ++ order_lines trace.now.records order.now) }
{
    text.reserve_exact(LINE * trace.len())?;
    for before in 0..order.len() {
        let place = order.place_at(before).unwrap();
        put_line(text, trace.thread(place), trace.seq(place))?;
    }
    Ok(())
}

/// Puts the line of a record of this thread behind, which has this seq.
fn put_line(text: &mut Vec<u8>, thread: u8, seq: u32) -> Result<(), AllocError>
    ensures { OnOk result (text.new.items ≡ text.old.items
        ++ (decimal thread ++ (codes " " ++ (decimal seq ++ codes "\n")))) }
{
    let mut digits = Buffer::new();
    text.extend_from_slice(digits.format(thread).as_bytes())?;
    text.push(b' ')?;
    text.extend_from_slice(digits.format(seq).as_bytes())?;
    text.push(b'\n')?;
    Ok(())
}
