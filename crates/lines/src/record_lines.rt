//! What a single line stands for, in a file of version 1, 2 or 3 of the format.
ghost use Rattle.std.specs.Prelude.{◌≡◌, ◌<◌, ◌≤◌, ◌==◌, IfSome, IsTrue, Ok, Err, Some, length, take, slice_index, option_and_then, nat_lt, if◌then◌else◌};
ghost use Rattle.std.specs.Result.{result_ok};
ghost use Rattle.ompt_events.specs.declared.records.Body.{Body as SpecBody};
ghost use Rattle.memchr.specs.Find.{IsFirstByte, is_byte};
ghost use Rattle.lines.specs.Limits.{max_line};
ghost use Rattle.lines.specs.InFront.{IsRecordInFront};
ghost use Rattle.lines.specs.LooseBodies.{loose_body, read_loosely};
ghost use Rattle.lines.specs.Objects.{IsReadable, object_data};
ghost use Rattle.lines.specs.RecordLines as spec;
ghost use Rattle.lines.specs.RecordLines.{IsSaid, bounded};

use crate::bodies::{
    Loose, both, claim_if, dependences, found, implicit_task, parallel_begin, parallel_end,
    sync_region, task_create, thread_begin, thread_end, turns_if,
};
use crate::canonical::{among_others, behind_others, canonical};
use crate::cause::ReadCause;
use crate::members::Member;
use crate::objects::{Object, flags, id, next, status, text};
use crate::parts::after;
use crate::tables::{each_callback, members};
use crate::values::tape_of;
use crate::written;
use bitflags::Flags;
use json::Scratch;
use ompt_events::{Body, CancelFlags, Record, Status};
use std::alloc::Global;

/// The most bytes of a line, its line feed not counted.
pub const MAX_LINE: usize = 65_536;

/// The format of trace files.
pub const TRACES: &str = "task-credit-audit";

// The shapes into which the rows of a callback's members are put. Each member is looked up before any limit
// is asked for: a member that is missing or of the wrong kind is reported before a number past its limit.

// A record, whose callback says the rest. Whether regions may lie inside others is no member: the version says it.
macro_rules! read_record {
    (
        ($object:ident $alloc:ident $version:ident)
        Record { $($field:ident: $kind:ident $name:ident),* }
    ) => {{
        $(let $field = found!(id($object, Member::$name));)*
        let loose = found!(body($alloc, $version, $object));
        within($version, $($field,)* loose)
    }};
}

// The callback of this name.
macro_rules! read_callback {
    (
        ($object:ident $alloc:ident $version:ident)
        $cb:ident: $($read:ident = $name:literal),*; $($own:ident = $own_name:literal),*
    ) => {
        match text($object, Member::$cb)? {
            $($name => $read($alloc, $object),)*
            $($own_name => $own($alloc, $version, $object),)*
            _ => Err(ReadCause::Field),
        }
    };
}

// A task_schedule, whose status says what else there is.
macro_rules! read_schedule {
    (
        ($object:ident $alloc:ident $version:ident)
        $variant:ident {
            $status:ident: status $status_name:ident,
            $prior:ident: id $prior_name:ident,
            $next:ident: next $next_name:ident,
            $turns:ident: turns,
            $claim:ident: claim
        }
    ) => {{
        let $status = found!(status($object, Member::$status_name));
        let $prior = found!(id($object, Member::$prior_name));
        let $next = found!(next($status, $object, Member::$next_name));
        let $turns = found!(turns_if($object, tells_turns($version, $status)));
        let $claim = found!(claim_if($alloc, $object, $status.part().is_some()));
        Ok(Loose {
            body: Body::$variant { $status, $turns: $turns.turns, $prior, $next, $claim: $claim.claim },
            fits: both($claim.fits, $turns.fits),
        })
    }};
}

// A cancellation, whose flags say whether it finishes a task.
macro_rules! read_cancel {
    (
        ($object:ident $alloc:ident)
        $variant:ident {
            $flags:ident: flags $flags_name:ident,
            $task:ident: id $task_name:ident,
            $claim:ident: claim
        }
    ) => {{
        let $flags: CancelFlags = found!(flags($object, Member::$flags_name));
        let $task = found!(id($object, Member::$task_name));
        let $claim = found!(claim_if($alloc, $object, $flags.contains(CancelFlags::DISCARDED_TASK)));
        Ok(Loose { body: Body::$variant { $flags, $task, $claim: $claim.claim }, fits: $claim.fits })
    }};
}

/// Returns the version that a header line of this format names. Fails with `Header` if the line is no header
/// of a version from 1 to the newest one, or out of memory. `scratch` is memory that is kept from line to
/// line.
pub fn header(
    alloc: Global,
    format: &str,
    newest: u32,
    line: &[u8],
    scratch: &mut Scratch,
) -> Result<u32, ReadCause>
    ensures { IsSaid result (spec.version_of format.now newest line.now) }
{
    match tape_of(alloc, line, scratch) {
        Ok(tape) => version_in(format, newest, &Object::Tape(tape.root())).ok_or(ReadCause::Header),
        Err(ReadCause::Memory) => Err(ReadCause::Memory),
        Err(_) => Err(ReadCause::Header),
    }
}

/// Returns the version, if the format is this one and the version at most the newest one.
fn version_in(format: &str, newest: u32, object: &Object<'_, '_>) -> Option<u32>
    requires { IsReadable object.now }
    ensures { result ≡ spec.version_in format.now newest (object_data object.now) }
{
    match text(object, Member::Format) {
        Ok(found) if found == format => version_read(newest, id(object, Member::Version)),
        _ => None,
    }
}

/// Returns the version, if one was found and it is from 1 to the newest one.
fn version_read(newest: u32, found: Result<u64, ReadCause>) -> Option<u32>
    ensures { result ≡ option_and_then (spec.version_read newest) (result_ok found) }
{
    match found {
        Ok(version) if 1 <= version && version <= u64::from(newest) => Some(version as u32),
        _ => None,
    }
}

/// Returns the record that a line in any form stands for in a file of this version. Fails with `NotJson`,
/// `Field` or `Limit`, or out of memory. `scratch` is memory that is kept from line to line.
pub fn record(
    alloc: Global,
    version: u32,
    line: &[u8],
    scratch: &mut Scratch,
) -> Result<Record, ReadCause>
    ensures { IsSaid result (spec.line_says version line.now) }
{
    match record_in_order(alloc, version, line) {
        Some(event) => Ok(event),
        None => record_in_any_order(alloc, version, line, scratch),
    }
}

/// Returns the record of a line in written form whose first member the format knows, with members behind it
/// that it does not know.
#[inline(always)]
fn record_in_order(alloc: Global, version: u32, line: &[u8]) -> Option<Record>
    ensures { IfSome result (λ event. spec.line_says version line.now ≡ Ok event) }
{
    if !begins_in_order(line) {
        return None;
    }
    let (event, behind) = among_others(alloc, version, line)?;
    alone(version, line, event, behind)
}

/// Returns whether the first member is one with which a line in written form begins.
#[inline(always)]
fn begins_in_order(line: &[u8]) -> bool {
    after(line, "{\"cb\":\"").is_some() || after(line, "{\"actual\":").is_some()
}

/// Returns the record of a line whose members stand in any order.
fn record_in_any_order(
    alloc: Global,
    version: u32,
    line: &[u8],
    scratch: &mut Scratch,
) -> Result<Record, ReadCause>
    ensures { IsSaid result (spec.line_says version line.now) }
{
    match written::take_members(alloc, line) {
        Some(members) => record_in(alloc, version, &Object::Written(members)),
        None => with_other_members(alloc, version, line, scratch),
    }
}

/// Returns the record of a line, whose first members the format may not know.
fn with_other_members(
    alloc: Global,
    version: u32,
    line: &[u8],
    scratch: &mut Scratch,
) -> Result<Record, ReadCause>
    ensures { IsSaid result (spec.line_says version line.now) }
{
    match record_behind_others(alloc, version, line) {
        Some(event) => Ok(event),
        None => on_tape(alloc, version, line, scratch),
    }
}

/// Returns the record of a line in written form whose first members the format does not know.
fn record_behind_others(alloc: Global, version: u32, line: &[u8]) -> Option<Record>
    ensures { IfSome result (λ event. spec.line_says version line.now ≡ Ok event) }
{
    let (event, behind) = behind_others(alloc, version, line)?;
    alone(version, line, event, behind)
}

/// Returns the record of a line by a tape of its tokens.
fn on_tape(
    alloc: Global,
    version: u32,
    line: &[u8],
    scratch: &mut Scratch,
) -> Result<Record, ReadCause>
    ensures { IsSaid result (spec.line_says version line.now) }
{
    let tape = tape_of(alloc, line, scratch)?;
    record_in(alloc, version, &Object::Tape(tape.root()))
}

/// Returns the record that a line has in front, if nothing follows it and it may be in a file of this version.
#[inline(always)]
fn alone(version: u32, line: &[u8], event: Record, behind: &[u8]) -> Option<Record>
    requires { IsRecordInFront line.now event behind.now }
    ensures { IfSome result (λ event. spec.line_says version line.now ≡ Ok event) }
{
    event.read_numbers();
    if behind.is_empty() && event.body.is_sound_in(version) {
        Some(Record {
            nests: nests_in(version),
            ..event
        })
    } else {
        None
    }
}

/// Returns the record of the line that a text begins with, and the length of the line, if the line is in
/// written form, a line feed follows it, and the record may be in a file of this version. The line feed is
/// not searched for: none is in a line in written form. This is a quick try: none may be returned for any
/// text, and is where memory runs out. What such a line stands for is up to [`record`].
#[inline(always)]
pub fn record_in_front(alloc: Global, version: u32, text: &[u8]) -> Option<(Record, usize)>
    ensures line { IfSome result (λ front. IsFirstByte (is_byte 10) text.now (Some front.1)) }
    ensures short { IfSome result (λ front. front.1 ≤ max_line) }
    ensures says { IfSome result (λ front. spec.line_says version (take front.1 text.now) ≡ Ok front.0) }
{
    let (event, behind) = canonical(alloc, version, text)?;
    event.read_numbers();
    let len = text.len() - behind.len();
    if begins_with_line_feed(behind) && len <= MAX_LINE && event.body.is_sound_in(version) {
        let event = Record {
            nests: nests_in(version),
            ..event
        };
        Some((event, len))
    } else {
        None
    }
}

/// Returns whether the first byte is a line feed.
#[inline(always)]
fn begins_with_line_feed(bytes: &[u8]) -> bool
    ensures { IsTrue result → (0 < length bytes.now) × (slice_index bytes.now 0 ≡ 10) }
{
    match bytes.first() {
        Some(byte) => *byte == b'\n',
        None => false,
    }
}

/// Returns the record of an object.
#[tactic(auto, unfolding(crate::specs::RecordLines::unbounded))]
fn record_in(alloc: Global, version: u32, object: &Object<'_, '_>) -> Result<Record, ReadCause>
    requires { IsReadable object.now }
    ensures { IsSaid result (bounded spec.record_fits (spec.unbounded version (object_data object.now))) }
{
    members!(Record read_record (object alloc version))
}

/// Returns the record of these in a file of this version, if none is past its limit.
#[inline(always)]
fn within(version: u32, thread: u64, seq: u64, seen: u64, loose: Loose) -> Result<Record, ReadCause>
    ensures { (body : SpecBody) → loose ≡ loose_body body → result ≡ bounded spec.record_fits
        (Some (record { thread = thread; nests = version == 3; seq = seq; seen = seen; body = body })) }
{
    if !loose.fits {
        return Err(ReadCause::Limit);
    }
    Ok(Record {
        thread: byte(thread)?,
        nests: nests_in(version),
        seq: short(seq)?,
        seen: short(seen)?,
        body: loose.body,
    })
}

/// Returns whether parallel regions may lie inside others in a file of this version.
#[inline(always)]
fn nests_in(version: u32) -> bool
    ensures { result ≡ (version == 3) }
{
    version == 3
}

/// Returns the number, if it has at most 8 bits.
#[inline(always)]
fn byte(number: u64) -> Result<u8, ReadCause>
    ensures { result ≡ (if nat_lt number 256 then Ok number else Err ReadCause.Limit) }
{
    u8::try_from(number).map_err(|_| ReadCause::Limit)
}

/// Returns the number, if it has at most 32 bits.
#[inline(always)]
fn short(number: u64) -> Result<u32, ReadCause>
    ensures { result ≡ (if spec.is_short number then Ok number else Err ReadCause.Limit) }
{
    u32::try_from(number).map_err(|_| ReadCause::Limit)
}

/// Returns what the record's callback says.
#[tactic(auto, unfolding(crate::specs::RecordLines::body_named))]
fn body(alloc: Global, version: u32, object: &Object<'_, '_>) -> Result<Loose, ReadCause>
    requires { IsReadable object.now }
    ensures { IsSaid result (read_loosely (spec.body version (object_data object.now))) }
{
    each_callback!(read_callback(object alloc version))
}

/// Reads a task_schedule.
#[tactic(auto, unfolding(crate::specs::RecordLines::task_schedule))]
fn task_schedule(alloc: Global, version: u32, object: &Object<'_, '_>) -> Result<Loose, ReadCause>
    requires { IsReadable object.now }
    ensures { IsSaid result (read_loosely (spec.task_schedule version (object_data object.now))) }
{
    members!(TaskSchedule read_schedule (object alloc version))
}

/// Returns whether a record with this status has turns in a file of this version.
#[inline(always)]
fn tells_turns(version: u32, status: Status) -> bool
    ensures { result ≡ spec.tells_turns version status }
{
    version > 1 && status.demands_next()
}

/// Reads a cancel.
#[tactic(auto, unfolding(crate::specs::RecordLines::cancel))]
fn cancel(alloc: Global, _version: u32, object: &Object<'_, '_>) -> Result<Loose, ReadCause>
    requires { IsReadable object.now }
    ensures { IsSaid result (read_loosely (spec.cancel (object_data object.now))) }
{
    members!(Cancel read_cancel (object alloc))
}
