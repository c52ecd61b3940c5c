//! Lines as they are written, read part by part, from the front of a text. Members that the format does not
//! know may stand between the parts. Any other line is left to the general way. Whether regions may lie inside
//! others is in no line: the records have it as in version 1 and 2, and `record_lines` sets it by the version.
ghost use Rattle.std.specs.Prelude.{◌≡◌, ◌∷◌, IfSome};
ghost use Rattle.lines.specs.InFront.{AreMembersInFront, IsRecordInFront, IsRecordInside, status_tail_members, task_tail_members};

use crate::others::{Between, Nothing, Others, after_both, past_first_others};
use crate::parts::{
    after, byte, cancel_flags, deps, endpoint, id_or_null, number, path, short, status, sync_kind,
    task_flags, thread_kind, truth,
};
use crate::tables::line_parts;
use ompt_events::{Body, BoxedClaim, Claim, ClaimPath, Record, Status, Turns};
use std::alloc::Global;

// A value, by its kind.
macro_rules! take_value {
    (byte $alloc:ident $rest:ident) => { byte($rest) };
    (short $alloc:ident $rest:ident) => { short($rest) };
    (id $alloc:ident $rest:ident) => { number($rest) };
    (id_or_null $alloc:ident $rest:ident) => { id_or_null($rest) };
    (truth $alloc:ident $rest:ident) => { truth($rest) };
    (status $alloc:ident $rest:ident) => { status($rest) };
    (endpoint $alloc:ident $rest:ident) => { endpoint($rest) };
    (sync_kind $alloc:ident $rest:ident) => { sync_kind($rest) };
    (thread_kind $alloc:ident $rest:ident) => { thread_kind($rest) };
    (task_flags $alloc:ident $rest:ident) => { task_flags($rest) };
    (cancel_flags $alloc:ident $rest:ident) => { cancel_flags($rest) };
    (path $alloc:ident $rest:ident) => { path($alloc, $rest) };
    (deps $alloc:ident $rest:ident) => { deps($alloc, $rest) };
}

// A part of a line: a whole member where there is one, a text, and a value. What may stand before it is named.
macro_rules! take_part {
    ($before:ident $alloc:ident $rest:ident $text:literal $kind:ident $value:ident) => {
        let Some($rest) = $before::after($rest, $text) else { return None; };
        let Some(($value, $rest)) = take_value!($kind $alloc $rest) else { return None; };
    };
    ($before:ident $alloc:ident $rest:ident $whole:literal $text:literal $kind:ident $value:ident) => {
        let Some($rest) = $before::after($rest, $whole) else { return None; };
        take_part!($before $alloc $rest $text $kind $value);
    };
}

// The first part of a line.
macro_rules! take_first {
    ($alloc:ident $rest:ident $text:literal $kind:ident $value:ident) => {
        let Some($rest) = after($rest, $text) else { return None; };
        let Some(($value, $rest)) = take_value!($kind $alloc $rest) else { return None; };
    };
    ($alloc:ident $rest:ident $whole:literal $text:literal $kind:ident $value:ident) => {
        let Some($rest) = after_both($rest, concat!($whole, $text), $whole, $text) else {
            return None;
        };
        let Some(($value, $rest)) = take_value!($kind $alloc $rest) else { return None; };
    };
}

// What follows the parts of a line.
macro_rules! take_rest {
    ($between:ident end $rest:ident) => {
        let Some($rest) = $between::after($rest, "}") else { return None; };
    };
    ($between:ident $tail:ident $rest:ident $first:ident $second:ident $third:ident $fourth:ident) => {
        let Some((($first, $second, $third, $fourth), $rest)) = $tail::<$between>($rest) else {
            return None;
        };
    };
}

// The parts of a line, what follows them, and then what they make. What may stand before the second part is
// named, and then what may stand before a later one.
macro_rules! take_line {
    (
        ($second:ident $between:ident $alloc:ident $rest:ident $made:tt)
        $($first:literal)+ $first_kind:ident $first_value:ident
        $(, $($next:literal)+ $next_kind:ident $next_value:ident
            $(, $($text:literal)+ $kind:ident $value:ident)*)?; $tail:ident $($last:ident)*
    ) => {{
        take_first!($alloc $rest $($first)+ $first_kind $first_value);
        $(take_part!($second $alloc $rest $($next)+ $next_kind $next_value);
            $(take_part!($between $alloc $rest $($text)+ $kind $value);)*)?
        take_rest!($between $tail $rest $($last)*);
        Some(($made, $rest))
    }};
}

// The last members of a line, its end, and then what they make.
macro_rules! take_tail {
    (
        ($between:ident $alloc:ident $rest:ident $made:tt)
        $($text:literal $kind:ident $value:ident),*; $tail:ident $($last:ident)*
    ) => {{
        $(take_part!($between $alloc $rest $text $kind $value);)*
        take_rest!($between $tail $rest $($last)*);
        Some(($made, $rest))
    }};
}

/// Returns the record of a line in written form that a text begins with, and what follows the line; none
/// where the text begins with no such line, or out of memory. Looks for no turns in version 1. Such a line
/// has no spaces, and its members stand in the order of their names. Members that the format does not know
/// are passed where recorders write them, and elsewhere by [`among_others`] and [`behind_others`].
#[inline(always)]
pub(crate) fn canonical(alloc: Global, version: u32, line: &[u8]) -> Option<(Record, &[u8])>
    ensures { IfSome result (λ taken. IsRecordInFront line.now taken.0 taken.1.now) }
{
    let inside = after(line, "{")?;
    members::<Nothing>(alloc, version, inside)
}

/// Returns the record of such a line, and what follows the line. Behind the first member of the line, members
/// that the format does not know may stand anywhere.
pub(crate) fn among_others(alloc: Global, version: u32, line: &[u8]) -> Option<(Record, &[u8])>
    ensures { IfSome result (λ taken. IsRecordInFront line.now taken.0 taken.1.now) }
{
    let inside = after(line, "{")?;
    members::<Others>(alloc, version, inside)
}

/// Returns the record of such a line if the format does not know its first members, and what follows the line.
pub(crate) fn behind_others(alloc: Global, version: u32, line: &[u8]) -> Option<(Record, &[u8])>
    ensures { IfSome result (λ taken. IsRecordInFront line.now taken.0 taken.1.now) }
{
    let first = after(line, "{")?;
    let inside = past_first_others(first)?;
    members::<Others>(alloc, version, inside)
}

/// Reads the members of a line, and its end. Lines that are rare are not inlined: with them beside it, any
/// other line takes longer.
#[inline(always)]
fn members<B: Between>(alloc: Global, version: u32, inside: &[u8]) -> Option<(Record, &[u8])>
    ensures { IfSome result (λ taken. IsRecordInside inside.now taken.0 taken.1.now) }
{
    match inside.get(6) {
        Some(b'p') => parallel::<B>(inside),
        Some(b's') => sync_region::<B>(inside),
        Some(b'd') => dependences::<B>(alloc, inside),
        Some(b'c') => cancel::<B>(alloc, inside),
        Some(b't') => task_or_thread::<B>(alloc, version, inside),
        _ => implicit_task::<B>(inside),
    }
}

/// Reads the line of a parallel region.
#[inline(never)]
fn parallel<B: Between>(inside: &[u8]) -> Option<(Record, &[u8])>
    ensures { IfSome result (λ taken. IsRecordInside inside.now taken.0 taken.1.now) }
{
    match inside.get(15) {
        Some(b'b') => parallel_begin::<B>(inside),
        _ => parallel_end::<B>(inside),
    }
}

/// Reads a `cancel`.
#[inline(never)]
fn cancel<B: Between>(alloc: Global, inside: &[u8]) -> Option<(Record, &[u8])>
    ensures { IfSome result (λ taken. IsRecordInside inside.now taken.0 taken.1.now) }
{
    match discarding::<B>(alloc, inside) {
        Some(taken) => Some(taken),
        None => cancelling::<B>(inside),
    }
}

/// Reads the line of a task that is created or scheduled, or of a thread.
fn task_or_thread<B: Between>(alloc: Global, version: u32, inside: &[u8]) -> Option<(Record, &[u8])>
    ensures { IfSome result (λ taken. IsRecordInside inside.now taken.0 taken.1.now) }
{
    match inside.get(11) {
        Some(b'c') => task_create::<B>(inside),
        Some(b's') => task_schedule::<B>(alloc, version, inside),
        _ => thread::<B>(inside),
    }
}

/// Reads a `task_schedule`.
fn task_schedule<B: Between>(alloc: Global, version: u32, inside: &[u8]) -> Option<(Record, &[u8])>
    ensures { IfSome result (λ taken. IsRecordInside inside.now taken.0 taken.1.now) }
{
    match in_turn::<B>(alloc, version, inside) {
        Some(taken) => Some(taken),
        None => without_turns::<B>(alloc, inside),
    }
}

/// Reads a `task_schedule` with turns: in version 2 and 3.
fn in_turn<B: Between>(alloc: Global, version: u32, inside: &[u8]) -> Option<(Record, &[u8])>
    ensures { IfSome result (λ taken. IsRecordInside inside.now taken.0 taken.1.now) }
{
    if version < 2 {
        return None;
    }
    match inside.get(22) {
        Some(b'k') => finishing_in_turn::<B>(alloc, inside),
        _ => switching_in_turn::<B>(inside),
    }
}

/// Reads a `task_schedule` without turns.
fn without_turns<B: Between>(alloc: Global, inside: &[u8]) -> Option<(Record, &[u8])>
    ensures { IfSome result (λ taken. IsRecordInside inside.now taken.0 taken.1.now) }
{
    match inside.get(22) {
        Some(b'k') => finishing::<B>(alloc, inside),
        _ => switching::<B>(inside),
    }
}

/// Reads the line of a thread.
fn thread<B: Between>(inside: &[u8]) -> Option<(Record, &[u8])>
    ensures { IfSome result (λ taken. IsRecordInside inside.now taken.0 taken.1.now) }
{
    match inside.get(13) {
        Some(b'b') => thread_begin::<B>(inside),
        _ => thread_end::<B>(inside),
    }
}

/// Reads `thread_begin`.
fn thread_begin<B: Between>(inside: &[u8]) -> Option<(Record, &[u8])>
    ensures { IfSome result (λ taken. IsRecordInside inside.now taken.0 taken.1.now) }
{
    line_parts!(thread_begin take_line
        (B B _alloc inside (Record { thread, nests: false, seq, seen, body: Body::ThreadBegin { kind } }))
        kind seen seq thread)
}

/// Reads `thread_end`.
fn thread_end<B: Between>(inside: &[u8]) -> Option<(Record, &[u8])>
    ensures { IfSome result (λ taken. IsRecordInside inside.now taken.0 taken.1.now) }
{
    line_parts!(thread_end take_line
        (B B _alloc inside (Record { thread, nests: false, seq, seen, body: Body::ThreadEnd }))
        seen seq thread)
}

/// Reads `parallel_begin`.
fn parallel_begin<B: Between>(inside: &[u8]) -> Option<(Record, &[u8])>
    ensures { IfSome result (λ taken. IsRecordInside inside.now taken.0 taken.1.now) }
{
    line_parts!(parallel_begin take_line
        (B B _alloc inside (Record {
            thread, nests: false, seq, seen,
            body: Body::ParallelBegin { requested, task, parallel },
        }))
        parallel requested seen seq task thread)
}

/// Reads `parallel_end`.
fn parallel_end<B: Between>(inside: &[u8]) -> Option<(Record, &[u8])>
    ensures { IfSome result (λ taken. IsRecordInside inside.now taken.0 taken.1.now) }
{
    line_parts!(parallel_end take_line
        (B B _alloc inside (Record { thread, nests: false, seq, seen, body: Body::ParallelEnd { task, parallel } }))
        parallel seen seq task thread)
}

/// Reads `implicit_task`.
#[inline(never)]
fn implicit_task<B: Between>(inside: &[u8]) -> Option<(Record, &[u8])>
    ensures { IfSome result (λ taken. IsRecordInside inside.now taken.0 taken.1.now) }
{
    line_parts!(implicit_task take_line
        (B B _alloc inside (Record {
            thread, nests: false, seq, seen,
            body: Body::ImplicitTask { endpoint, actual, index, flags, parallel, task },
        }))
        actual endpoint flags index parallel seen seq task thread)
}

/// Reads `task_create`. A recorder's `codeptr` stands before `deps`.
fn task_create<B: Between>(inside: &[u8]) -> Option<(Record, &[u8])>
    ensures { IfSome result (λ taken. IsRecordInside inside.now taken.0 taken.1.now) }
{
    line_parts!(task_create take_line
        (Others B _alloc inside (Record {
            thread, nests: false, seq, seen,
            body: Body::TaskCreate { deps, flags, task, child },
        }))
        child deps flags seen seq task thread)
}

/// Reads `dependences`.
#[inline(never)]
fn dependences<B: Between>(alloc: Global, inside: &[u8]) -> Option<(Record, &[u8])>
    ensures { IfSome result (λ taken. IsRecordInside inside.now taken.0 taken.1.now) }
{
    line_parts!(dependences take_line
        (B B alloc inside (Record { thread, nests: false, seq, seen, body: Body::Dependences { task, list } }))
        list seen seq task thread)
}

/// Reads a `task_schedule` that finishes nothing.
fn switching<B: Between>(inside: &[u8]) -> Option<(Record, &[u8])>
    ensures { IfSome result (λ taken. IsRecordInside inside.now taken.0 taken.1.now) }
{
    line_parts!(switching take_line
        (B B _alloc inside (Record {
            thread, nests: false, seq, seen,
            body: Body::TaskSchedule { status, turns: None, prior, next, claim: None },
        }))
        next prior seen seq status thread)
}

/// Reads a `task_schedule` that finishes a task, its body or its event.
fn finishing<B: Between>(alloc: Global, inside: &[u8]) -> Option<(Record, &[u8])>
    ensures { IfSome result (λ taken. IsRecordInside inside.now taken.0 taken.1.now) }
{
    line_parts!(finishing take_line
        (B B alloc inside {
            let Some(claim) = claim_of(alloc, kept, root, path) else {
                return None;
            };
            Record {
                thread, nests: false, seq, seen,
                body: Body::TaskSchedule { status, turns: None, prior, next, claim: Some(claim) },
            }
        })
        kept next path prior root seen seq status thread)
}

/// Reads a `task_schedule` that finishes nothing, with turns.
fn switching_in_turn<B: Between>(inside: &[u8]) -> Option<(Record, &[u8])>
    ensures { IfSome result (λ taken. IsRecordInside inside.now taken.0 taken.1.now) }
{
    line_parts!(switching_in_turn take_line
        (B B _alloc inside (Record {
            thread, nests: false, seq, seen,
            body: Body::TaskSchedule {
                status,
                turns: Some(Turns { prior: prior_turn, next: next_turn }),
                prior, next, claim: None,
            },
        }))
        next next_turn prior prior_turn seen seq status thread)
}

/// Reads a `task_schedule` that finishes a task, its body or its event, with turns.
fn finishing_in_turn<B: Between>(alloc: Global, inside: &[u8]) -> Option<(Record, &[u8])>
    ensures { IfSome result (λ taken. IsRecordInside inside.now taken.0 taken.1.now) }
{
    line_parts!(finishing_in_turn take_line
        (B B alloc inside {
            let Some(claim) = claim_of(alloc, kept, root, path) else {
                return None;
            };
            Record {
                thread, nests: false, seq, seen,
                body: Body::TaskSchedule {
                    status,
                    turns: Some(Turns { prior: prior_turn, next: next_turn }),
                    prior, next, claim: Some(claim),
                },
            }
        })
        kept next next_turn path prior prior_turn root seen seq status thread)
}

/// Reads `sync_region`.
fn sync_region<B: Between>(inside: &[u8]) -> Option<(Record, &[u8])>
    ensures { IfSome result (λ taken. IsRecordInside inside.now taken.0 taken.1.now) }
{
    line_parts!(sync_region take_line
        (B B _alloc inside (Record {
            thread, nests: false, seq, seen,
            body: Body::SyncRegion { kind, endpoint, parallel, task },
        }))
        endpoint kind parallel seen seq task thread)
}

/// Reads a `cancel` that discards no task.
fn cancelling<B: Between>(inside: &[u8]) -> Option<(Record, &[u8])>
    ensures { IfSome result (λ taken. IsRecordInside inside.now taken.0 taken.1.now) }
{
    line_parts!(cancelling take_line
        (B B _alloc inside (Record {
            thread, nests: false, seq, seen,
            body: Body::Cancel { flags, task, claim: None },
        }))
        flags seen seq task thread)
}

/// Reads a `cancel` that discards its task.
fn discarding<B: Between>(alloc: Global, inside: &[u8]) -> Option<(Record, &[u8])>
    ensures { IfSome result (λ taken. IsRecordInside inside.now taken.0 taken.1.now) }
{
    line_parts!(discarding take_line
        (B B alloc inside {
            let Some(claim) = claim_of(alloc, kept, root, path) else {
                return None;
            };
            Record { thread, nests: false, seq, seen, body: Body::Cancel { flags, task, claim: Some(claim) } }
        })
        flags kept path root seen seq task thread)
}

/// Returns the claim of these. Returns none if it is out of memory.
fn claim_of(alloc: Global, kept: u32, root: u64, path: ClaimPath) -> Option<BoxedClaim>
    ensures { IfSome result (λ claim. claim ≡ record { kept = kept; root = root; path = path }) }
{
    match BoxedClaim::new(alloc, Claim { kept, root, path }) {
        Ok(claim) => Some(claim),
        Err(_) => None,
    }
}

/// Reads the last members of a line that names a task.
fn task_tail<B: Between>(rest: &[u8]) -> Option<((u32, u32, u64, u8), &[u8])>
    ensures { IfSome result (λ taken. AreMembersInFront rest.now
        (task_tail_members taken.0.0 taken.0.1 taken.0.2 taken.0.3) (125 ∷ taken.1.now)) }
{
    line_parts!(task_tail take_tail (B _alloc rest (seen, seq, task, thread)) seen seq task thread)
}

/// Reads the last members of a line that has a status.
fn status_tail<B: Between>(rest: &[u8]) -> Option<((u32, u32, Status, u8), &[u8])>
    ensures { IfSome result (λ taken. AreMembersInFront rest.now
        (status_tail_members taken.0.0 taken.0.1 taken.0.2 taken.0.3) (125 ∷ taken.1.now)) }
{
    line_parts!(status_tail take_tail (B _alloc rest (seen, seq, status, thread)) seen seq status thread)
}
