//! The reader of trace files.
ghost use Rattle.std.specs.Prelude.{◌≡◌, ◌≤◌, ◌+◌, ◌*◌, ℕ, List, Option, Some, None, Ok, true, IfOk, IfErr, IfSome, length, take};
ghost use Rattle.std.specs.Result.{result_err, result_map_both};
ghost use Rattle.certificate.specs.Files.{text_adds, traces, with_header, with_record};
ghost use Rattle.lines.specs.RecordLines.{IsSaid, header_says, line_says};
ghost use Rattle.std.specs.Io.KnownBytes.{Keeps, prepend_known};
ghost use Rattle.certificate.specs.Counts.{TakesTurns, breaks_told, cause_told};
ghost use Rattle.certificate.specs.Reading.{IsReadAnswer, IsAnswerTo, IsBetween, IsAfter, Grows};
ghost use Rattle.certificate.specs.Windows.{LineFeedAt, ShowsLine, ShowsFault};
ghost use Rattle.lines.specs.Limits.{max_line};

use crate::device::{MAX_TURNS, Source};
use crate::faults::ReadFault;
use crate::kept::{Kept, RecordList};
use crate::lists::Records;
use crate::window::Window;
use json::Scratch;
use lines::{MAX_LINE, ReadCause, TRACES, header, record, record_in_front};
use ompt_events::{MAX_RECORDS, Trace};
use packed_trace::PackedTrace;
use std::alloc::Global;

/// The number of the last line that is read: after the header and the most records, one too many.
pub(crate) const LAST_LINE: u32 = 2 + MAX_RECORDS as u32;

/// The newest version of the format that [`read`] takes.
pub const NEWEST_VERSION: u32 = 3;

/// Reads a trace file of a version up to [`NEWEST_VERSION`] to its end. Fails at the first faulty line, if
/// the source fails, or out of memory; then it is not defined how far the source was read. Has a buffer of
/// 131,074 bytes, two of the longest lines with their line feeds.
pub fn read<S: Source>(alloc: Global, source: &mut S) -> Result<Trace, ReadFault>
    // The trace that the bytes stand for, their first fault, or a failure of the device or of memory.
    ensures file { IfSome (S.remaining source.old)
        (λ bytes. IsReadAnswer result bytes (S.remaining source.new)) }

    // The call ends with the 10,001st answer `Again`.
    ensures turns { (turns : ℕ) × TakesTurns (cause_told result) 0 turns (S.agains source.old)
        (S.agains source.new) }

    // `Device` is reported if and only if the source has failed.
    ensures breaks { S.breaks source.new ≡ breaks_told (cause_told result) (S.breaks source.old) }
    ensures line { IfErr result (λ fault. (1 ≤ fault.line) × (fault.line ≤ LAST_LINE)) }
    ensures version { IfOk result (λ trace. trace.version ≤ NEWEST_VERSION) }
{
    read_to(alloc, NEWEST_VERSION, source)
}

/// Reads a file of a version up to `newest`: 1, 2 for files that may have turns, or 3 for files in which
/// parallel regions may also lie inside others. Fails as [`read`] does.
pub fn read_to<S: Source>(alloc: Global, newest: u32, source: &mut S) -> Result<Trace, ReadFault>
    requires { (1 ≤ newest) × (newest ≤ 3) }

    // The trace that the bytes stand for, their first fault, or a failure of the device or of memory.
    ensures file { IfSome (S.remaining source.old)
        (λ bytes. IsAnswerTo newest result bytes (S.remaining source.new)) }

    // The call ends with the 10,001st answer `Again`.
    ensures turns { (turns : ℕ) × TakesTurns (cause_told result) 0 turns (S.agains source.old)
        (S.agains source.new) }

    // `Device` is reported if and only if the source has failed.
    ensures breaks { S.breaks source.new ≡ breaks_told (cause_told result) (S.breaks source.old) }
    ensures line { IfErr result (λ fault. (1 ≤ fault.line) × (fault.line ≤ LAST_LINE)) }
    ensures version { IfOk result (λ trace. trace.version ≤ newest) }
{
    Ok(
        read_kept(alloc, newest, source, Records::new(alloc))?
            .into_list()
            .into_trace(),
    )
}

/// Reads a trace file of a version up to [`NEWEST_VERSION`] into columns, as [`read`] reads it.
pub fn read_packed<S: Source>(alloc: Global, source: &mut S) -> Result<PackedTrace, ReadFault>
    // The trace that the bytes stand for, their first fault, or a failure of the device or of memory.
    ensures file { IfSome (S.remaining source.old)
        (λ bytes. IsReadAnswer result bytes (S.remaining source.new)) }

    // The call ends with the 10,001st answer `Again`.
    ensures turns { (turns : ℕ) × TakesTurns (cause_told result) 0 turns (S.agains source.old)
        (S.agains source.new) }

    // `Device` is reported if and only if the source has failed.
    ensures breaks { S.breaks source.new ≡ breaks_told (cause_told result) (S.breaks source.old) }
    ensures line { IfErr result (λ fault. (1 ≤ fault.line) × (fault.line ≤ LAST_LINE)) }
    ensures version { IfOk result (λ trace. trace.version ≤ NEWEST_VERSION) }
{
    Ok(read_kept(alloc, NEWEST_VERSION, source, PackedTrace::new(alloc))?.into_list())
}

/// Reads a file of a version up to `newest` to its end, into this list.
fn read_kept<S: Source, L: RecordList>(
    alloc: Global,
    newest: u32,
    source: &mut S,
    list: L,
) -> Result<Kept<L>, ReadFault>
    requires { (1 ≤ newest) × (newest ≤ 3) }
    ensures file { IfSome (S.remaining source.old)
        (λ bytes. IsAnswerTo newest result bytes (S.remaining source.new)) }
    ensures turns { (turns : ℕ) × TakesTurns (cause_told result) 0 turns (S.agains source.old)
        (S.agains source.new) }
    ensures breaks { S.breaks source.new ≡ breaks_told (cause_told result) (S.breaks source.old) }
    ensures line { IfErr result (λ fault. (1 ≤ fault.line) × (fault.line ≤ LAST_LINE)) }
    ensures version { IfOk result (λ trace. trace.version ≤ newest) }
{
    let Ok(mut window) = Window::new(alloc) else {
        return Err(ReadFault {
            line: 1,
            cause: ReadCause::Memory,
        });
    };
    let mut kept = Kept::new(list);
    let mut scratch = Scratch::new(alloc);
    let mut turns = 0;
    'lines: for line in 1..=LAST_LINE {
        match read_line(
            alloc,
            newest,
            line,
            &mut window,
            source,
            &mut turns,
            &mut kept,
            &mut scratch,
        ) {
            Ok(true) => {}
            Ok(false) => return Ok(kept),
            Err(cause) => return Err(ReadFault { line, cause }),
        }
    }
    unreachable!()
}

/// Reads the line with this number and keeps its record. Returns whether there was one.
fn read_line<S: Source, L: RecordList>(
    alloc: Global,
    newest: u32,
    line: u32,
    window: &mut Window,
    source: &mut S,
    turns: &mut u32,
    kept: &mut Kept<L>,
    scratch: &mut Scratch,
) -> Result<bool, ReadCause>
    requires newest { newest ≤ 3 }
    requires line { 1 ≤ line }
    requires turns { turns.old ≤ MAX_TURNS }
    ensures after { (known : Option (List ℕ)) → IsBetween (traces newest) known line kept.old window.old
        (S.remaining source.old)
        → IsAfter (traces newest) result known line kept.new window.new (S.remaining source.new) }
    ensures grows { result ≡ Ok true → Grows line kept.old.records kept.new.records }
    ensures version { kept.old.version ≤ newest → IfOk result (λ _. kept.new.version ≤ newest) }
    ensures turns { TakesTurns (result_err result) turns.old turns.new (S.agains source.old)
        (S.agains source.new) }
    ensures breaks { S.breaks source.new ≡ breaks_told (result_err result) (S.breaks source.old) }
{
    match take_front(alloc, line, window, kept) {
        Some((len, taken)) => {
            taken?;
            window.skip(len + 1);
            Ok(true)
        }
        None => read_other_line(alloc, newest, line, window, source, turns, kept, scratch),
    }
}

/// Reads the next line, whatever form it has: searches for its end first.
#[inline(never)]
fn read_other_line<S: Source, L: RecordList>(
    alloc: Global,
    newest: u32,
    line: u32,
    window: &mut Window,
    source: &mut S,
    turns: &mut u32,
    kept: &mut Kept<L>,
    scratch: &mut Scratch,
) -> Result<bool, ReadCause>
    requires newest { newest ≤ 3 }
    requires line { 1 ≤ line }
    requires turns { turns.old ≤ MAX_TURNS }
    ensures after { (known : Option (List ℕ)) → IsBetween (traces newest) known line kept.old window.old
        (S.remaining source.old)
        → IsAfter (traces newest) result known line kept.new window.new (S.remaining source.new) }
    ensures grows { result ≡ Ok true → Grows line kept.old.records kept.new.records }
    ensures version { kept.old.version ≤ newest → IfOk result (λ _. kept.new.version ≤ newest) }
    ensures turns { TakesTurns (result_err result) turns.old turns.new (S.agains source.old)
        (S.agains source.new) }
    ensures breaks { S.breaks source.new ≡ breaks_told (result_err result) (S.breaks source.old) }
{
    match next_line(window, source, turns)? {
        Some(len) => {
            take_text(alloc, newest, line, window.front(len), kept, scratch)?;
            window.skip(len + 1);
            Ok(true)
        }
        None if line == 1 => Err(ReadCause::Header),
        None => Ok(false),
    }
}

/// Keeps the record of the line with this number, with which the window begins, if all of it is there and it
/// is in written form. Returns the length of the line, and whether the record is kept. It is not inlined:
/// with the other forms beside it, such a line takes longer.
#[inline(never)]
fn take_front<L: RecordList>(
    alloc: Global,
    line: u32,
    window: &Window,
    kept: &mut Kept<L>,
) -> Option<(usize, Result<(), ReadCause>)>
    ensures line { IfSome result (λ taken. LineFeedAt window.now (Some taken.0)) }
    ensures short { IfSome result (λ taken. taken.0 ≤ max_line) }
    ensures kept { IfSome result (λ taken. (newest : ℕ)
        → IsSaid (result_map_both (λ _. kept.new) (λ e. e) taken.1)
        (text_adds newest line kept.old (take taken.0 window.now))) }
    ensures none { result ≡ None → kept.new ≡ kept.old }
    ensures few { IfSome result (λ _. length window.now ≤ 2 * (max_line + 1)) }
{
    if line == 1 {
        return None;
    }
    let (event, len) = record_in_front(alloc, kept.version(), window.all())?;
    Some((len, kept.keep(event)))
}

/// Takes the text of the line with this number: the header, or a record that is kept. It is not inlined:
/// with the loop or the other forms beside it, a line in written form takes longer.
#[inline(never)]
fn take_text<L: RecordList>(
    alloc: Global,
    newest: u32,
    line: u32,
    text: &[u8],
    kept: &mut Kept<L>,
    scratch: &mut Scratch,
) -> Result<(), ReadCause>
    requires { newest ≤ 3 }
    ensures { IsSaid (result_map_both (λ _. kept.new) (λ e. e) result)
        (text_adds newest line kept.old text.now) }
{
    if line == 1 {
        take_header(alloc, newest, text, kept, scratch)
    } else {
        take_other(alloc, text, kept, scratch)
    }
}

/// Takes the text of the header, which begins the trace.
#[inline(never)]
pub(crate) fn take_header<L: RecordList>(
    alloc: Global,
    newest: u32,
    text: &[u8],
    kept: &mut Kept<L>,
    scratch: &mut Scratch,
) -> Result<(), ReadCause>
    requires { newest ≤ 3 }
    ensures { IsSaid (result_map_both (λ _. kept.new) (λ e. e) result)
        (with_header (header_says newest text.now)) }
{
    kept.begin(header(alloc, TRACES, newest, text, scratch)?);
    Ok(())
}

/// Takes the text of a record in any form.
#[inline(never)]
fn take_other<L: RecordList>(
    alloc: Global,
    text: &[u8],
    kept: &mut Kept<L>,
    scratch: &mut Scratch,
) -> Result<(), ReadCause>
    ensures { IsSaid (result_map_both (λ _. kept.new) (λ e. e) result)
        (with_record kept.old (line_says kept.old.version text.now)) }
{
    kept.keep(record(alloc, kept.version(), text, scratch)?)
}

/// Returns the length of the next line, with which the window then begins, or none at the end of the input.
pub(crate) fn next_line<S: Source>(
    window: &mut Window,
    source: &mut S,
    turns: &mut u32,
) -> Result<Option<usize>, ReadCause>
    requires { turns.old ≤ MAX_TURNS }
    ensures bytes { Keeps (prepend_known window.old (S.remaining source.old))
        (prepend_known window.new (S.remaining source.new)) }
    ensures found { IfOk result (λ found. ShowsLine found window.new (S.remaining source.new)) }
    ensures fault { IfErr result (λ cause. ShowsFault cause window.new (S.remaining source.new)) }
    ensures turns { TakesTurns (result_err result) turns.old turns.new (S.agains source.old)
        (S.agains source.new) }
    ensures breaks { S.breaks source.new ≡ breaks_told (result_err result) (S.breaks source.old) }
{
    'search: loop {
        match window.line_feed() {
            Some(len) if len <= MAX_LINE => return Ok(Some(len)),
            Some(_) => return Err(ReadCause::LineTooLong),
            None if window.len() > MAX_LINE => return Err(ReadCause::LineTooLong),
            None => {}
        }
        if window.fill(source, turns)? == 0 {
            return if window.len() == 0 {
                Ok(None)
            } else {
                Err(ReadCause::Unended)
            };
        }
    }
}
