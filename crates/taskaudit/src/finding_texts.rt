//! What is printed of the records at which a verdict shows.
ghost use Rattle.std.specs.Prelude.{◌≡◌, ◌++◌, IfErr, IfOk, OnOk, string_bytes, take};
ghost use Rattle.std.specs.List.{flat_map};
ghost use Rattle.checker.specs.Verdicts.{IsVerdict};
ghost use Rattle.taskaudit.specs.Audits.{IsOutOfMemory, Prints};
ghost use Rattle.taskaudit.specs.FindingTexts.{findings_text, left_line, others_text, shown_line, violation_line};

use crate::report::{Place, dependent_at};
use crate::work::{AuditFault, Printed};
use checker::{Findings, Verdict, Violation, Why};
use ompt_events::Shown;
use packed_trace::PackedTrace;
use std::alloc::{AllocError, Global};
use std::fmt;

/// Returns the report of the trace's verdict, and behind it the records at which it shows, at most so many
/// of them, and how many are left out.
pub(crate) fn found_text(
    alloc: Global,
    trace: &PackedTrace,
    verdict: &Verdict,
    most: u32,
    report: Vec<u8>,
) -> Result<Vec<u8>, AuditFault>
    requires verdict { IsVerdict trace.now.records verdict.now }
    requires report { Prints Printed.Report trace.now verdict.now report.items }
    ensures text { IfOk result (λ text.
        Prints (Printed.Findings most) trace.now verdict.now text.items) }
    ensures memory { IfErr result IsOutOfMemory }
{
    let found = Findings::of(alloc, trace, verdict, most as usize).map_err(AuditFault::Check)?;
    let mut text = report;
    match put_findings(alloc, &mut text, trace, &found, most as usize) {
        Ok(()) => Ok(text),
        Err(AllocError) => Err(AuditFault::Memory),
    }
}

/// Puts the lines of the findings behind, at most so many of them, and how many are left out.
fn put_findings(
    alloc: Global,
    text: &mut Vec<u8>,
    trace: &PackedTrace,
    found: &Findings,
    most: usize,
) -> Result<(), AllocError>
    ensures { OnOk result
        (text.new.items ≡ text.old.items ++ findings_text trace.now.records most found.now) }
{
    match found {
        Findings::Nothing => Ok(()),
        Findings::Violated(violations) => {
            put_violations(alloc, text, trace, violations.listed.as_slice())?;
            put_left(alloc, text, violations.left_out)
        }
        Findings::Malformed(places) => {
            put_places(alloc, text, trace, places, most)?;
            put_left(alloc, text, places.len().saturating_sub(most))
        }
    }
}

/// Puts the lines of the violations behind.
fn put_violations(
    alloc: Global,
    text: &mut Vec<u8>,
    trace: &PackedTrace,
    violations: &[Violation],
) -> Result<(), AllocError>
    ensures { OnOk result (text.new.items
        ≡ text.old.items ++ flat_map (violation_line trace.now.records) violations.now) }
{
    for violation in violations {
        put_violation(alloc, text, trace, *violation)?;
    }
    Ok(())
}

/// Puts the line of a violation behind.
fn put_violation(
    alloc: Global,
    text: &mut Vec<u8>,
    trace: &PackedTrace,
    violation: Violation,
) -> Result<(), AllocError>
    ensures { OnOk result (text.new.items ≡ text.old.items ++ violation_line trace.now.records violation) }
{
    let line = violation_text(alloc, trace, violation)?;
    text.extend_from_slice(line.as_bytes())
}

/// Returns the line of a violation.
fn violation_text(
    alloc: Global,
    trace: &PackedTrace,
    violation: Violation,
) -> Result<String, AllocError>
    ensures { IfOk result (λ text. string_bytes text ≡ violation_line trace.now.records violation) }
{
    let place = Place::of(trace, violation.at);
    let others = Others(violation.others);
    match violation.why {
        Why::Unfinished(task) => format!(in alloc; "{place}: task {task} unfinished{others}\n"),
        Why::Predecessor(task) => {
            let dependent = dependent_at(trace, violation.at);
            format!(in alloc; "{place}: task {task} must precede task {dependent}{others}\n")
        }
    }
}

/// How many other tasks are missed at a record.
#[derive(Clone, Copy)]
struct Others(usize);

impl fmt::Display for Others {
    ghost use Rattle.std.specs.Prelude.{Some};

    ghost output = { λ others. Some (others_text others.0) };

    fn fmt<W: fmt::Write>(&self, f: &mut fmt::Formatter<W>) -> fmt::Result {
        if self.0 == 0 {
            return Ok(());
        }
        write!(f, ", and {} more", self.0)
    }
}

/// Puts the lines of the first `most` places behind.
fn put_places(
    alloc: Global,
    text: &mut Vec<u8>,
    trace: &PackedTrace,
    places: &Shown,
    most: usize,
) -> Result<(), AllocError>
    ensures { OnOk result (text.new.items
        ≡ text.old.items ++ flat_map (shown_line trace.now.records) (take most places.now)) }
{
    for index in 0..most.min(places.len()) {
        let at = places.at(index).unwrap();
        put_place(alloc, text, trace, at)?;
    }
    Ok(())
}

/// Puts the line of a record that shows a cause behind.
fn put_place(
    alloc: Global,
    text: &mut Vec<u8>,
    trace: &PackedTrace,
    at: usize,
) -> Result<(), AllocError>
    ensures { OnOk result (text.new.items ≡ text.old.items ++ shown_line trace.now.records at) }
{
    let place = Place::of(trace, at);
    let line = format!(in alloc; "{place}\n")?;
    text.extend_from_slice(line.as_bytes())
}

/// Puts behind how many findings have no line.
fn put_left(alloc: Global, text: &mut Vec<u8>, count: usize) -> Result<(), AllocError>
    ensures { OnOk result (text.new.items ≡ text.old.items ++ left_line count) }
{
    let line = format!(in alloc; "left out: {count}\n")?;
    text.extend_from_slice(line.as_bytes())
}
