//! The line of a record, appended to bytes.
ghost use Rattle.std.specs.Prelude.{◌≡◌, ◌++◌, true, OnOk, None, Some, decimal, map};
ghost use Rattle.std.specs.List.{AllByRecursion};
ghost use Rattle.json.specs.Print.{quoted};
ghost use Rattle.serde_json.specs.Data.{array, boolean};
ghost use Rattle.serde_json.specs.View.{items_of};
ghost use Rattle.serde_json.specs.Written.{compact_text, comma_if};
ghost use Rattle.ompt_events.specs.Flags.{task_flags, cancel_flags};
ghost use Rattle.ompt_events.specs.Names.{status_name, endpoint_name, sync_kind_name, dep_kind_name, thread_kind_name};
ghost use Rattle.lines.specs.Texts.{Puts, is_plain_text, record_of, line_of, task_tail, status_tail, header_line, dep_data, number_or_null, whole_number, names, flag_names};

use crate::tables::line_parts;
use bitflags::Flags;
use itoa::Buffer;
use ompt_events::{
    Body, CancelFlags, Claim, ClaimPath, Dep, DepKind, Deps, Endpoint, Record, Status, SyncKind,
    TaskFlags, ThreadKind, Turns,
};
use std::alloc::AllocError;

/// The numbers that each record has.
#[derive(Clone, Copy)]
struct Head {
    thread: u8,
    seq: u32,
    seen: u32,
}

// A value and the text before it, by its kind.
macro_rules! put_value {
    (byte $out:ident $text:expr, $value:tt) => { put_byte($out, $text, $value) };
    (short $out:ident $text:expr, $value:tt) => { put_short($out, $text, $value) };
    (id $out:ident $text:expr, $value:tt) => { put_id($out, $text, $value) };
    (id_or_null $out:ident $text:expr, $value:tt) => { put_id_or_null($out, $text, $value) };
    (truth $out:ident $text:expr, $value:tt) => { put_truth($out, $text, $value) };
    (status $out:ident $text:expr, $value:tt) => { put_status($out, $text, $value) };
    (endpoint $out:ident $text:expr, $value:tt) => { put_endpoint($out, $text, $value) };
    (sync_kind $out:ident $text:expr, $value:tt) => { put_sync_kind($out, $text, $value) };
    (dep_kind $out:ident $text:expr, $value:tt) => { put_dep_kind($out, $text, $value) };
    (thread_kind $out:ident $text:expr, $value:tt) => { put_thread_kind($out, $text, $value) };
    (task_flags $out:ident $text:expr, $value:tt) => { put_task_flags($out, $text, $value) };
    (cancel_flags $out:ident $text:expr, $value:tt) => { put_cancel_flags($out, $text, $value) };
    (path $out:ident $text:expr, $value:tt) => { put_path($out, $text, $value) };
    (deps $out:ident $text:expr, $value:tt) => { put_deps($out, $text, $value) };
}

// What follows the parts of a line.
macro_rules! put_rest {
    (end $out:ident) => { put($out, "}") };
    (task_tail $out:ident $seen:tt $seq:tt $task:tt $thread:tt) => {
        put_task_tail($out, $seen, $seq, $task, $thread)
    };
    (status_tail $out:ident $seen:tt $seq:tt $status:tt $thread:tt) => {
        put_status_tail($out, $seen, $seq, $status, $thread)
    };
}

// The parts, and what follows them. The texts of a part are put as one.
macro_rules! put_parts {
    (($out:ident) $($($text:literal)+ $kind:ident $value:tt),*; $rest:ident $($last:tt)*) => {{
        $(let Ok(()) = put_value!($kind $out concat!($($text),+), $value) else {
            return Err(AllocError);
        };)*
        put_rest!($rest $out $($last)*)
    }};
}

// The parts of a record's line, and what follows them. The brace is put with the first.
macro_rules! put_line {
    (
        ($out:ident)
        $($first:literal)+ $first_kind:ident $first_value:tt
        $(, $($text:literal)+ $kind:ident $value:tt)*; $rest:ident $($last:tt)*
    ) => {{
        let Ok(()) = put_value!($first_kind $out concat!("{", $($first),+), $first_value) else {
            return Err(AllocError);
        };
        put_parts!(($out) $($($text)+ $kind $value),*; $rest $($last)*)
    }};
}

/// Appends the line of the record, without its line feed. Fails out of memory.
pub fn put_record(out: &mut Vec<u8>, event: &Record) -> Result<(), AllocError>
    ensures { OnOk result (Puts out.old.items out.new.items (line_of event.now)) }
{
    let head = Head {
        thread: event.thread,
        seq: event.seq,
        seen: event.seen,
    };
    match &event.body {
        Body::ThreadBegin { kind } => put_thread_begin(out, head, *kind),
        Body::ThreadEnd => put_thread_end(out, head),
        Body::ParallelBegin {
            requested,
            task,
            parallel,
        } => put_parallel_begin(out, head, *requested, *task, *parallel),
        Body::ParallelEnd { task, parallel } => put_parallel_end(out, head, *task, *parallel),
        Body::ImplicitTask {
            endpoint,
            actual,
            index,
            flags,
            parallel,
            task,
        } => put_implicit_task(
            out, head, *endpoint, *actual, *index, *flags, *parallel, *task,
        ),
        Body::TaskCreate {
            deps,
            flags,
            task,
            child,
        } => put_task_create(out, head, *deps, *flags, *task, *child),
        Body::Dependences { task, list } => put_dependences(out, head, *task, list),
        Body::TaskSchedule {
            status,
            turns,
            prior,
            next,
            claim,
        } => match turns {
            Some(turns) => match claim {
                Some(claim) => {
                    put_finishing_in_turn(out, head, *status, *turns, *prior, *next, claim.get())
                }
                None => put_switching_in_turn(out, head, *status, *turns, *prior, *next),
            },
            None => match claim {
                Some(claim) => put_finishing(out, head, *status, *prior, *next, claim.get()),
                None => put_switching(out, head, *status, *prior, *next),
            },
        },
        Body::SyncRegion {
            kind,
            endpoint,
            parallel,
            task,
        } => put_sync_region(out, head, *kind, *endpoint, *parallel, *task),
        Body::Cancel { flags, task, claim } => match claim {
            Some(claim) => put_discarding(out, head, *flags, *task, claim.get()),
            None => put_cancelling(out, head, *flags, *task),
        },
    }
}

/// Appends the header line of a trace file of this version, without its line feed. Fails out of memory.
pub fn put_header(out: &mut Vec<u8>, version: u32) -> Result<(), AllocError>
    ensures { OnOk result (Puts out.old.items out.new.items (header_line version)) }
{
    line_parts!(header put_parts (out) version)
}

/// Appends `thread_begin`.
fn put_thread_begin(out: &mut Vec<u8>, head: Head, kind: ThreadKind) -> Result<(), AllocError>
    ensures { OnOk result (Puts out.old.items out.new.items (line_of (record_of head
        (Body.ThreadBegin kind)))) }
{
    line_parts!(thread_begin put_line (out) kind (head.seen) (head.seq) (head.thread))
}

/// Appends `thread_end`.
fn put_thread_end(out: &mut Vec<u8>, head: Head) -> Result<(), AllocError>
    ensures { OnOk result (Puts out.old.items out.new.items (line_of (record_of head Body.ThreadEnd))) }
{
    line_parts!(thread_end put_line (out) (head.seen) (head.seq) (head.thread))
}

/// Appends `parallel_begin`.
fn put_parallel_begin(
    out: &mut Vec<u8>,
    head: Head,
    requested: u32,
    task: u64,
    parallel: u64,
) -> Result<(), AllocError>
    ensures { OnOk result (Puts out.old.items out.new.items
        (line_of (record_of head (Body.ParallelBegin requested task parallel)))) }
{
    line_parts!(parallel_begin put_line (out) parallel requested (head.seen) (head.seq) task (head.thread))
}

/// Appends `parallel_end`.
fn put_parallel_end(
    out: &mut Vec<u8>,
    head: Head,
    task: u64,
    parallel: u64,
) -> Result<(), AllocError>
    ensures { OnOk result (Puts out.old.items out.new.items
        (line_of (record_of head (Body.ParallelEnd task parallel)))) }
{
    line_parts!(parallel_end put_line (out) parallel (head.seen) (head.seq) task (head.thread))
}

/// Appends `implicit_task`.
fn put_implicit_task(
    out: &mut Vec<u8>,
    head: Head,
    endpoint: Endpoint,
    actual: u32,
    index: u32,
    flags: TaskFlags,
    parallel: u64,
    task: u64,
) -> Result<(), AllocError>
    ensures { OnOk result (Puts out.old.items out.new.items
        (line_of (record_of head (Body.ImplicitTask endpoint actual index flags parallel task)))) }
{
    line_parts!(implicit_task put_line (out)
        actual endpoint flags index parallel (head.seen) (head.seq) task (head.thread))
}

/// Appends `task_create`.
fn put_task_create(
    out: &mut Vec<u8>,
    head: Head,
    deps: bool,
    flags: TaskFlags,
    task: u64,
    child: u64,
) -> Result<(), AllocError>
    ensures { OnOk result (Puts out.old.items out.new.items
        (line_of (record_of head (Body.TaskCreate deps flags task child)))) }
{
    line_parts!(task_create put_line (out) child deps flags (head.seen) (head.seq) task (head.thread))
}

/// Appends `dependences`.
fn put_dependences(out: &mut Vec<u8>, head: Head, task: u64, list: &Deps) -> Result<(), AllocError>
    ensures { OnOk result (Puts out.old.items out.new.items
        (line_of (record_of head (Body.Dependences task list.now)))) }
{
    line_parts!(dependences put_line (out) list (head.seen) (head.seq) task (head.thread))
}

/// Appends a `task_schedule` that finishes nothing.
fn put_switching(
    out: &mut Vec<u8>,
    head: Head,
    status: Status,
    prior: u64,
    next: Option<u64>,
) -> Result<(), AllocError>
    ensures { OnOk result (Puts out.old.items out.new.items
        (line_of (record_of head (Body.TaskSchedule status None prior next None)))) }
{
    line_parts!(switching put_line (out) next prior (head.seen) (head.seq) status (head.thread))
}

/// Appends a `task_schedule` that finishes a task, its body or its event.
fn put_finishing(
    out: &mut Vec<u8>,
    head: Head,
    status: Status,
    prior: u64,
    next: Option<u64>,
    claim: &Claim,
) -> Result<(), AllocError>
    ensures { OnOk result (Puts out.old.items out.new.items
        (line_of (record_of head (Body.TaskSchedule status None prior next (Some claim.now))))) }
{
    line_parts!(finishing put_line (out)
        (claim.kept) next (&claim.path) prior (claim.root) (head.seen) (head.seq) status (head.thread))
}

/// Appends a `task_schedule` that finishes nothing, with turns.
fn put_switching_in_turn(
    out: &mut Vec<u8>,
    head: Head,
    status: Status,
    turns: Turns,
    prior: u64,
    next: Option<u64>,
) -> Result<(), AllocError>
    ensures { OnOk result (Puts out.old.items out.new.items
        (line_of (record_of head (Body.TaskSchedule status (Some turns) prior next None)))) }
{
    line_parts!(switching_in_turn put_line (out)
        next (turns.next) prior (turns.prior) (head.seen) (head.seq) status (head.thread))
}

/// Appends a `task_schedule` that finishes a task, its body or its event, with turns.
fn put_finishing_in_turn(
    out: &mut Vec<u8>,
    head: Head,
    status: Status,
    turns: Turns,
    prior: u64,
    next: Option<u64>,
    claim: &Claim,
) -> Result<(), AllocError>
    ensures { OnOk result (Puts out.old.items out.new.items
        (line_of (record_of head
        (Body.TaskSchedule status (Some turns) prior next (Some claim.now))))) }
{
    line_parts!(finishing_in_turn put_line (out)
        (claim.kept) next (turns.next) (&claim.path) prior (turns.prior) (claim.root)
        (head.seen) (head.seq) status (head.thread))
}

/// Appends `sync_region`.
fn put_sync_region(
    out: &mut Vec<u8>,
    head: Head,
    kind: SyncKind,
    endpoint: Endpoint,
    parallel: Option<u64>,
    task: u64,
) -> Result<(), AllocError>
    ensures { OnOk result (Puts out.old.items out.new.items
        (line_of (record_of head (Body.SyncRegion kind endpoint parallel task)))) }
{
    line_parts!(sync_region put_line (out)
        endpoint kind parallel (head.seen) (head.seq) task (head.thread))
}

/// Appends a `cancel` that discards no task.
fn put_cancelling(
    out: &mut Vec<u8>,
    head: Head,
    flags: CancelFlags,
    task: u64,
) -> Result<(), AllocError>
    ensures { OnOk result (Puts out.old.items out.new.items
        (line_of (record_of head (Body.Cancel flags task None)))) }
{
    line_parts!(cancelling put_line (out) flags (head.seen) (head.seq) task (head.thread))
}

/// Appends a `cancel` that discards its task.
fn put_discarding(
    out: &mut Vec<u8>,
    head: Head,
    flags: CancelFlags,
    task: u64,
    claim: &Claim,
) -> Result<(), AllocError>
    ensures { OnOk result (Puts out.old.items out.new.items
        (line_of (record_of head (Body.Cancel flags task (Some claim.now))))) }
{
    line_parts!(discarding put_line (out)
        flags (claim.kept) (&claim.path) (claim.root) (head.seen) (head.seq) task (head.thread))
}

/// Appends the last members of a line that names a task.
fn put_task_tail(
    out: &mut Vec<u8>,
    seen: u32,
    seq: u32,
    task: u64,
    thread: u8,
) -> Result<(), AllocError>
    ensures { OnOk result (Puts out.old.items out.new.items (task_tail seen seq task thread)) }
{
    line_parts!(task_tail put_parts (out) seen seq task thread)
}

/// Appends the last members of a line that has a status.
fn put_status_tail(
    out: &mut Vec<u8>,
    seen: u32,
    seq: u32,
    status: Status,
    thread: u8,
) -> Result<(), AllocError>
    ensures { OnOk result (Puts out.old.items out.new.items (status_tail seen seq status thread)) }
{
    line_parts!(status_tail put_parts (out) seen seq status thread)
}

// Each part is a text, and a value behind it.

/// Appends a text alone.
fn put(out: &mut Vec<u8>, text: &str) -> Result<(), AllocError>
    ensures { OnOk result (Puts out.old.items out.new.items text.now) }
{
    out.extend_from_slice(text.as_bytes())
}

/// Appends a whole number.
fn put_id(out: &mut Vec<u8>, text: &str, number: u64) -> Result<(), AllocError>
    ensures { OnOk result (Puts out.old.items out.new.items (text.now ++ decimal number)) }
{
    let mut digits = Buffer::new();
    put(out, text)?;
    put(out, digits.format(number))
}

/// Appends a whole number of 32 bits.
fn put_short(out: &mut Vec<u8>, text: &str, number: u32) -> Result<(), AllocError>
    ensures { OnOk result (Puts out.old.items out.new.items (text.now ++ decimal number)) }
{
    put_id(out, text, u64::from(number))
}

/// Appends a whole number of 8 bits.
fn put_byte(out: &mut Vec<u8>, text: &str, number: u8) -> Result<(), AllocError>
    ensures { OnOk result (Puts out.old.items out.new.items (text.now ++ decimal number)) }
{
    put_id(out, text, u64::from(number))
}

/// Appends a whole number, or `null`.
fn put_id_or_null(out: &mut Vec<u8>, text: &str, found: Option<u64>) -> Result<(), AllocError>
    ensures { OnOk result (Puts out.old.items out.new.items (text.now ++ compact_text
        (number_or_null found))) }
{
    match found {
        Some(number) => put_id(out, text, number),
        None => put_both(out, text, "null"),
    }
}

/// Appends a truth value.
fn put_truth(out: &mut Vec<u8>, text: &str, truth: bool) -> Result<(), AllocError>
    ensures { OnOk result (Puts out.old.items out.new.items (text.now ++ compact_text (boolean truth))) }
{
    if truth {
        put_both(out, text, "true")
    } else {
        put_both(out, text, "false")
    }
}

/// Appends a text and another.
fn put_both(out: &mut Vec<u8>, text: &str, other: &str) -> Result<(), AllocError>
    ensures { OnOk result (Puts out.old.items out.new.items (text.now ++ other.now)) }
{
    put(out, text)?;
    put(out, other)
}

/// Appends a name in quotation marks.
fn put_name(out: &mut Vec<u8>, text: &str, name: &str) -> Result<(), AllocError>
    requires { is_plain_text name.now ≡ true }
    ensures { OnOk result (Puts out.old.items out.new.items (text.now ++ quoted name.now)) }
{
    put_both(out, text, "\"")?;
    put_both(out, name, "\"")
}

/// Appends how a task stops running.
fn put_status(out: &mut Vec<u8>, text: &str, status: Status) -> Result<(), AllocError>
    ensures { OnOk result (Puts out.old.items out.new.items (text.now ++ quoted (status_name status))) }
{
    put_name(out, text, status.name())
}

/// Appends whether a region begins or ends.
fn put_endpoint(out: &mut Vec<u8>, text: &str, endpoint: Endpoint) -> Result<(), AllocError>
    ensures { OnOk result (Puts out.old.items out.new.items (text.now ++ quoted (endpoint_name endpoint))) }
{
    put_name(out, text, endpoint.name())
}

/// Appends which construct a region belongs to.
fn put_sync_kind(out: &mut Vec<u8>, text: &str, kind: SyncKind) -> Result<(), AllocError>
    ensures { OnOk result (Puts out.old.items out.new.items (text.now ++ quoted (sync_kind_name kind))) }
{
    put_name(out, text, kind.name())
}

/// Appends how a location is used.
fn put_dep_kind(out: &mut Vec<u8>, text: &str, kind: DepKind) -> Result<(), AllocError>
    ensures { OnOk result (Puts out.old.items out.new.items (text.now ++ quoted (dep_kind_name kind))) }
{
    put_name(out, text, kind.name())
}

/// Appends what a thread is there for.
fn put_thread_kind(out: &mut Vec<u8>, text: &str, kind: ThreadKind) -> Result<(), AllocError>
    ensures { OnOk result (Puts out.old.items out.new.items (text.now ++ quoted (thread_kind_name kind))) }
{
    put_name(out, text, kind.name())
}

/// Appends the names of a task's flags.
fn put_task_flags(out: &mut Vec<u8>, text: &str, flags: TaskFlags) -> Result<(), AllocError>
    ensures { OnOk result (Puts out.old.items out.new.items
        (text.now ++ compact_text (names (flag_names task_flags flags.0)))) }
{
    put_flags(out, text, flags)
}

/// Appends the names of a cancellation's flags.
fn put_cancel_flags(out: &mut Vec<u8>, text: &str, flags: CancelFlags) -> Result<(), AllocError>
    ensures { OnOk result (Puts out.old.items out.new.items
        (text.now ++ compact_text (names (flag_names cancel_flags flags.0)))) }
{
    put_flags(out, text, flags)
}

/// Appends the names of the flags, in the order of the table of their type.
fn put_flags<F: Flags + Copy>(out: &mut Vec<u8>, text: &str, flags: F) -> Result<(), AllocError>
    requires exact { F.exact }
    requires plain { AllByRecursion (λ row. is_plain_text row.0 ≡ true) F.table }
    ensures { OnOk result (Puts out.old.items out.new.items
        (text.now ++ compact_text (names (flag_names F.table (F.set_of flags))))) }
{
    put_both(out, text, "[")?;
    let mut later = false;
    'named: for flag in F::flags() {
        if flags.contains(flag.value) {
            put_name(out, comma(later), flag.name)?;
            later = true;
        }
    }
    put(out, "]")
}

/// Returns what is written before an item: nothing before the first.
fn comma(later: bool) -> &'static str
    ensures { result.now ≡ comma_if later }
{
    if later { "," } else { "" }
}

/// Appends the numbers of a path.
fn put_path(out: &mut Vec<u8>, text: &str, path: &ClaimPath) -> Result<(), AllocError>
    ensures { OnOk result (Puts out.old.items out.new.items
        (text.now ++ compact_text (array (items_of (map whole_number path.now))))) }
{
    put_both(out, text, "[")?;
    let mut later = false;
    'numbers: for at in 0..path.len() {
        put_short(out, comma(later), path.number(at))?;
        later = true;
    }
    put(out, "]")
}

/// What a task depends on.
fn put_deps(out: &mut Vec<u8>, text: &str, list: &Deps) -> Result<(), AllocError>
    ensures { OnOk result (Puts out.old.items out.new.items
        (text.now ++ compact_text (array (items_of (map dep_data list.now))))) }
{
    put_both(out, text, "[")?;
    let mut later = false;
    'items: for item in list.as_slice() {
        put(out, comma(later))?;
        put_dep(out, item)?;
        later = true;
    }
    put(out, "]")
}

/// Appends one dependence.
fn put_dep(out: &mut Vec<u8>, item: &Dep) -> Result<(), AllocError>
    ensures { OnOk result (Puts out.old.items out.new.items (compact_text (dep_data item.now))) }
{
    line_parts!(dep put_parts (out) (item.kind) (item.var))
}
