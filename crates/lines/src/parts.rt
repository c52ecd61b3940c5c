//! The values of a line as it is written.
ghost use Rattle.std.specs.Prelude.{◌≡◌, ◌++◌, ◌+◌, ◌*◌, ◌^◌, ◌<◌, ◌≤◌, true, [], IfSome, codes, decimal, drop, length, map, slice_index, take};
ghost use Rattle.std.specs.Int.{from_le_bytes, w32, w64};
ghost use Rattle.std.specs.List.{AllByRecursion};
ghost use Rattle.json.specs.Print.{quoted};
ghost use Rattle.serde_json.specs.Data.{array, boolean};
ghost use Rattle.serde_json.specs.View.{items_of};
ghost use Rattle.serde_json.specs.Written.{compact_text, comma_if};
ghost use Rattle.ompt_events.specs.Flags as flag;
ghost use Rattle.ompt_events.specs.Names.{status_name, endpoint_name, sync_kind_name, dep_kind_name, thread_kind_name};
ghost use Rattle.lines.specs.Texts.{Takes, is_plain_text, dep_data, number_or_null, whole_number, names, flag_names};

use crate::tables::line_parts;
use bitflags::Flags;
use memchr::memchr;
use ompt_events::{
    CancelFlags, ClaimPath, Dep, DepKind, Deps, Endpoint, MAX_DEPENDENCES, MAX_DEPTH, Status,
    SyncKind, TaskFlags, ThreadKind,
};
use std::alloc::Global;

/// Returns what follows the text. Compares eight bytes at a time, and then four.
#[inline(always)]
pub(crate) fn after<'l>(rest: &'l [u8], text: &str) -> Option<&'l [u8]>
    ensures { IfSome result (λ behind. Takes rest.now text.now behind.now) }
{
    let text = text.as_bytes();
    if rest.len() < text.len() {
        return None;
    }
    let mut at = 0;
    'words: while text.len() - at >= 8 {
        if word(rest, at) != word(text, at) {
            return None;
        }
        at += 8;
    }
    'halves: while text.len() - at >= 4 {
        if half(rest, at) != half(text, at) {
            return None;
        }
        at += 4;
    }
    'bytes: while at < text.len() {
        if rest[at] != text[at] {
            return None;
        }
        at += 1;
    }
    Some(&rest[at..])
}

/// Returns the eight bytes from this place on, as a number.
#[inline(always)]
fn word(bytes: &[u8], at: usize) -> u64
    requires { at + 8 ≤ length bytes.now }
    ensures { result ≡ from_le_bytes w64 (take 8 (drop at bytes.now)) }
{
    match bytes[at..].first_chunk::<8>() {
        Some(chunk) => u64::from_le_bytes(*chunk),
        None => unreachable!(),
    }
}

/// Returns the four bytes from this place on, as a number.
#[inline(always)]
fn half(bytes: &[u8], at: usize) -> u32
    requires { at + 4 ≤ length bytes.now }
    ensures { result ≡ from_le_bytes w32 (take 4 (drop at bytes.now)) }
{
    match bytes[at..].first_chunk::<4>() {
        Some(chunk) => u32::from_le_bytes(*chunk),
        None => unreachable!(),
    }
}

/// Takes the end of a line that nothing follows.
pub(crate) fn line_end(rest: &[u8]) -> Option<()>
    ensures { IfSome result (λ _. Takes rest.now (codes "}") []) }
{
    let behind = after(rest, "}")?;
    if behind.is_empty() { Some(()) } else { None }
}

/// Takes a whole number of 32 bits.
#[inline(always)]
pub(crate) fn short(rest: &[u8]) -> Option<(u32, &[u8])>
    ensures { IfSome result (λ taken. Takes rest.now (decimal taken.0) taken.1.now) }
{
    let (number, behind) = number(rest)?;
    Some((u32::try_from(number).ok()?, behind))
}

/// Takes a whole number of 8 bits.
#[inline(always)]
pub(crate) fn byte(rest: &[u8]) -> Option<(u8, &[u8])>
    ensures { IfSome result (λ taken. Takes rest.now (decimal taken.0) taken.1.now) }
{
    let (number, behind) = number(rest)?;
    Some((u8::try_from(number).ok()?, behind))
}

/// This many digits are always a number of 64 bits.
const SAFE_DIGITS: usize = 19;

/// Takes a whole number of 64 bits. It begins with 0 only if it is 0.
#[inline(always)]
pub(crate) fn number(rest: &[u8]) -> Option<(u64, &[u8])>
    ensures { IfSome result (λ taken. Takes rest.now (decimal taken.0) taken.1.now) }
{
    let first = digit(rest, 0)?;
    if first == 0 {
        return Some((0, &rest[1..]));
    }
    digits(rest, first)
}

/// A number of fewer digits is read without a test of the length.
const NEAR_DIGITS: usize = 8;

/// Takes a whole number whose first digit is known, and is not 0.
#[inline(always)]
fn digits(rest: &[u8], first: u64) -> Option<(u64, &[u8])>
    requires some { 0 < first }
    requires digit { first ≤ 9 }
    requires within { 0 < length rest.now }
    requires front { slice_index rest.now 0 ≡ 48 + first }
    ensures { IfSome result (λ taken. Takes rest.now (decimal taken.0) taken.1.now) }
{
    if rest.len() >= NEAR_DIGITS {
        // The loop over a slice of this length is unrolled.
        let (number, len) = leading(&rest[..NEAR_DIGITS], first);
        if len < NEAR_DIGITS {
            return Some((number, &rest[len..]));
        }
    }
    many_digits(rest, first)
}

/// Takes a whole number whose first digit is known, and is not 0, however many digits there are.
#[inline(never)]
fn many_digits(rest: &[u8], first: u64) -> Option<(u64, &[u8])>
    requires some { 0 < first }
    requires digit { first ≤ 9 }
    requires within { 0 < length rest.now }
    requires front { slice_index rest.now 0 ≡ 48 + first }
    ensures { IfSome result (λ taken. Takes rest.now (decimal taken.0) taken.1.now) }
{
    let (number, len) = leading(&rest[..rest.len().min(SAFE_DIGITS)], first);
    if len < SAFE_DIGITS {
        return Some((number, &rest[len..]));
    }
    with_last_digit(rest, number, len)
}

/// Returns the number of the digits in front, the first of which is known and not 0, and how many they are.
#[inline(always)]
fn leading(front: &[u8], first: u64) -> (u64, usize)
    requires some { 0 < first }
    requires digit { first ≤ 9 }
    requires within { 0 < length front.now }
    requires short { length front.now ≤ 19 }
    requires front { slice_index front.now 0 ≡ 48 + first }
    ensures some { 0 < result.0 }
    ensures within { result.1 ≤ length front.now }
    ensures taken { take result.1 front.now ≡ decimal result.0 }
{
    let mut number = first;
    let mut len = 1;
    'digits: while let Some(next) = digit(front, len) {
        number = 10 * number + next;
        len += 1;
    }
    (number, len)
}

/// Returns the number of the first digits, with one digit more if there is one.
fn with_last_digit(rest: &[u8], number: u64, len: usize) -> Option<(u64, &[u8])>
    requires some { 0 < number }
    requires within { len ≤ length rest.now }
    requires taken { take len rest.now ≡ decimal number }
    ensures { IfSome result (λ taken. Takes rest.now (decimal taken.0) taken.1.now) }
{
    match digit(rest, len) {
        Some(next) => Some((one_more(number, next)?, &rest[len + 1..])),
        None => Some((number, &rest[len..])),
    }
}

/// Returns the number with one digit more.
#[inline(always)]
fn one_more(number: u64, digit: u64) -> Option<u64>
    ensures { IfSome result (λ more. (more ≡ 10 * number + digit) × (more < 2 ^ 64)) }
{
    number.checked_mul(10)?.checked_add(digit)
}

/// Returns the digit at this place.
#[inline(always)]
fn digit(rest: &[u8], at: usize) -> Option<u64>
    ensures { IfSome result (λ digit. (digit ≤ 9) × (at < length rest.now) ×
        (slice_index rest.now at ≡ 48 + digit)) }
{
    let digit = u64::from(*rest.get(at)?).wrapping_sub(48);
    if digit <= 9 { Some(digit) } else { None }
}

/// Takes a whole number, or `null`.
#[inline(always)]
pub(crate) fn id_or_null(rest: &[u8]) -> Option<(Option<u64>, &[u8])>
    ensures { IfSome result (λ taken. Takes rest.now (compact_text (number_or_null taken.0)) taken.1.now) }
{
    if let Some(behind) = after(rest, "null") {
        return Some((None, behind));
    }
    let (number, behind) = number(rest)?;
    Some((Some(number), behind))
}

/// Takes a truth value.
#[inline(always)]
pub(crate) fn truth(rest: &[u8]) -> Option<(bool, &[u8])>
    ensures { IfSome result (λ taken. Takes rest.now (compact_text (boolean taken.0)) taken.1.now) }
{
    if let Some(behind) = after(rest, "true") {
        return Some((true, behind));
    }
    let behind = after(rest, "false")?;
    Some((false, behind))
}

/// Returns what follows the name in quotation marks.
#[inline(always)]
pub(crate) fn name<'l>(rest: &'l [u8], name: &str) -> Option<&'l [u8]>
    requires { is_plain_text name.now ≡ true }
    ensures { IfSome result (λ behind. Takes rest.now (quoted name.now) behind.now) }
{
    let rest = after(rest, "\"")?;
    let rest = after(rest, name)?;
    let behind = after(rest, "\"")?;
    Some(behind)
}

// A name is guessed by letters in which the names of its table differ, and then compared. The compiler makes
// code of their own for names that most lines have, which compares without a loop.

/// Takes how a task stops running.
#[inline(always)]
pub(crate) fn status(rest: &[u8]) -> Option<(Status, &[u8])>
    ensures { IfSome result (λ taken. Takes rest.now (quoted (status_name taken.0)) taken.1.now) }
{
    match guess_status(rest) {
        Status::Complete => this_status(rest, Status::Complete),
        Status::Switch => this_status(rest, Status::Switch),
        status => this_status(rest, status),
    }
}

/// Takes the name of this status.
#[inline(always)]
fn this_status(rest: &[u8], status: Status) -> Option<(Status, &[u8])>
    ensures { IfSome result (λ taken. Takes rest.now (quoted (status_name taken.0)) taken.1.now) }
{
    let behind = name(rest, status.name())?;
    Some((status, behind))
}

/// Guesses the status that is named.
pub(crate) fn guess_status(rest: &[u8]) -> Status {
    match rest.get(1) {
        Some(b's') => Status::Switch,
        Some(b'y') => Status::Yield,
        Some(b'd') => Status::Detach,
        Some(b't') => Status::TaskwaitComplete,
        Some(b'e') => Status::EarlyFulfill,
        Some(b'l') => Status::LateFulfill,
        _ => match rest.get(2) {
            Some(b'a') => Status::Cancel,
            _ => Status::Complete,
        },
    }
}

/// Takes whether a region begins or ends.
#[inline(always)]
pub(crate) fn endpoint(rest: &[u8]) -> Option<(Endpoint, &[u8])>
    ensures { IfSome result (λ taken. Takes rest.now (quoted (endpoint_name taken.0)) taken.1.now) }
{
    match guess_endpoint(rest) {
        Endpoint::Begin => this_endpoint(rest, Endpoint::Begin),
        Endpoint::End => this_endpoint(rest, Endpoint::End),
        endpoint => this_endpoint(rest, endpoint),
    }
}

/// Takes the name of this endpoint.
#[inline(always)]
fn this_endpoint(rest: &[u8], endpoint: Endpoint) -> Option<(Endpoint, &[u8])>
    ensures { IfSome result (λ taken. Takes rest.now (quoted (endpoint_name taken.0)) taken.1.now) }
{
    let behind = name(rest, endpoint.name())?;
    Some((endpoint, behind))
}

/// Guesses the endpoint that is named.
pub(crate) fn guess_endpoint(rest: &[u8]) -> Endpoint {
    match rest.get(1) {
        Some(b'e') => Endpoint::End,
        _ => match rest.get(6) {
            Some(b'e') => Endpoint::BeginEnd,
            _ => Endpoint::Begin,
        },
    }
}

/// Takes which construct a region belongs to.
#[inline(always)]
pub(crate) fn sync_kind(rest: &[u8]) -> Option<(SyncKind, &[u8])>
    ensures { IfSome result (λ taken. Takes rest.now (quoted (sync_kind_name taken.0)) taken.1.now) }
{
    match guess_sync_kind(rest) {
        SyncKind::Taskwait => this_sync_kind(rest, SyncKind::Taskwait),
        sync_kind => this_sync_kind(rest, sync_kind),
    }
}

/// Takes the name of this construct.
#[inline(always)]
fn this_sync_kind(rest: &[u8], sync_kind: SyncKind) -> Option<(SyncKind, &[u8])>
    ensures { IfSome result (λ taken. Takes rest.now (quoted (sync_kind_name taken.0)) taken.1.now) }
{
    let behind = name(rest, sync_kind.name())?;
    Some((sync_kind, behind))
}

/// Guesses the construct that is named.
pub(crate) fn guess_sync_kind(rest: &[u8]) -> SyncKind {
    match rest.get(5) {
        Some(b'w') => SyncKind::Taskwait,
        Some(b'g') => SyncKind::Taskgroup,
        Some(b'c') => SyncKind::Reduction,
        _ => guess_barrier(rest),
    }
}

/// Guesses the barrier that is named.
fn guess_barrier(rest: &[u8]) -> SyncKind {
    match rest.get(9) {
        Some(b'e') => SyncKind::BarrierExplicit,
        Some(b't') => SyncKind::BarrierTeams,
        Some(b'i') => match rest.get(13) {
            Some(b'e') => SyncKind::BarrierImplementation,
            _ => guess_implicit_barrier(rest),
        },
        _ => SyncKind::Barrier,
    }
}

/// Guesses the implicit barrier that is named.
fn guess_implicit_barrier(rest: &[u8]) -> SyncKind {
    match rest.get(18) {
        Some(b'w') => SyncKind::BarrierImplicitWorkshare,
        Some(b'p') => SyncKind::BarrierImplicitParallel,
        _ => SyncKind::BarrierImplicit,
    }
}

/// Takes how a location is used.
#[inline(always)]
pub(crate) fn dep_kind(rest: &[u8]) -> Option<(DepKind, &[u8])>
    ensures { IfSome result (λ taken. Takes rest.now (quoted (dep_kind_name taken.0)) taken.1.now) }
{
    let dep_kind = guess_dep_kind(rest);
    let behind = name(rest, dep_kind.name())?;
    Some((dep_kind, behind))
}

/// Guesses the use that is named.
fn guess_dep_kind(rest: &[u8]) -> DepKind {
    match rest.get(1) {
        Some(b'o') => DepKind::Out,
        Some(b'm') => DepKind::Mutexinoutset,
        _ => match rest.get(6) {
            Some(b'"') => DepKind::Inout,
            Some(b's') => DepKind::Inoutset,
            _ => DepKind::In,
        },
    }
}

/// Takes what a thread is there for.
#[inline(always)]
pub(crate) fn thread_kind(rest: &[u8]) -> Option<(ThreadKind, &[u8])>
    ensures { IfSome result (λ taken. Takes rest.now (quoted (thread_kind_name taken.0)) taken.1.now) }
{
    let thread_kind = guess_thread_kind(rest);
    let behind = name(rest, thread_kind.name())?;
    Some((thread_kind, behind))
}

/// Guesses the kind of thread that is named.
fn guess_thread_kind(rest: &[u8]) -> ThreadKind {
    match rest.get(1) {
        Some(b'i') => ThreadKind::Initial,
        Some(b'w') => ThreadKind::Worker,
        Some(b'o') => ThreadKind::Other,
        _ => ThreadKind::Unknown,
    }
}

/// Takes the names of a task's flags.
pub(crate) fn task_flags(rest: &[u8]) -> Option<(TaskFlags, &[u8])>
    ensures { IfSome result (λ taken. Takes rest.now
        (compact_text (names (flag_names flag.task_flags taken.0.0))) taken.1.now) }
{
    if let Some(behind) = explicit_alone(rest) {
        return Some((TaskFlags::EXPLICIT, behind));
    }
    let flags = guess_task_flags(rest)?;
    let behind = flags_in_order(rest, flags)?;
    Some((flags, behind))
}

/// Takes the name of the one flag that most tasks have.
#[inline(always)]
fn explicit_alone(rest: &[u8]) -> Option<&[u8]>
    ensures { IfSome result (λ behind. Takes rest.now
        (compact_text (names (flag_names flag.task_flags 0x4))) behind.now) }
{
    after(rest, "[\"explicit\"]")
}

/// Takes the names of a cancellation's flags.
pub(crate) fn cancel_flags(rest: &[u8]) -> Option<(CancelFlags, &[u8])>
    ensures { IfSome result (λ taken. Takes rest.now
        (compact_text (names (flag_names flag.cancel_flags taken.0.0))) taken.1.now) }
{
    let flags = guess_cancel_flags(rest)?;
    let behind = flags_in_order(rest, flags)?;
    Some((flags, behind))
}

// A guess at the flags that a list names, which `flags_in_order` checks.
macro_rules! guess {
    ($rest:ident $kind:ident: $($name:literal $flag:ident),*) => {{
        let rest = after($rest, "[")?;
        let flags = $kind::empty();
        $(let (rest, flags) = guess_flag(rest, flags, $name, $kind::$flag);)*
        let _ = rest;
        Some(flags)
    }};
}

/// The flag is put in where its name stands in front, which is then skipped with a comma.
#[inline(always)]
fn guess_flag<'l, F: Flags + Copy>(rest: &'l [u8], flags: F, name: &str, flag: F) -> (&'l [u8], F) {
    match after(rest, name) {
        Some(behind) => (after(behind, ",").unwrap_or(behind), flags.union(flag)),
        None => (rest, flags),
    }
}

/// Guesses the flags of a task that are named.
fn guess_task_flags(rest: &[u8]) -> Option<TaskFlags> {
    guess!(rest TaskFlags:
        "\"initial\"" INITIAL,
        "\"implicit\"" IMPLICIT,
        "\"explicit\"" EXPLICIT,
        "\"target\"" TARGET,
        "\"taskwait\"" TASKWAIT,
        "\"undeferred\"" UNDEFERRED,
        "\"untied\"" UNTIED,
        "\"final\"" FINAL,
        "\"mergeable\"" MERGEABLE,
        "\"merged\"" MERGED)
}

/// Guesses the flags of a cancellation that are named.
fn guess_cancel_flags(rest: &[u8]) -> Option<CancelFlags> {
    guess!(rest CancelFlags:
        "\"parallel\"" PARALLEL,
        "\"sections\"" SECTIONS,
        "\"loop\"" LOOP,
        "\"taskgroup\"" TASKGROUP,
        "\"activated\"" ACTIVATED,
        "\"detected\"" DETECTED,
        "\"discarded_task\"" DISCARDED_TASK)
}

/// Returns what follows the names of these flags, in the order of their table.
fn flags_in_order<F: Flags + Copy>(rest: &[u8], flags: F) -> Option<&[u8]>
    requires exact { F.exact }
    requires plain { AllByRecursion (λ row. is_plain_text row.0 ≡ true) F.table }
    ensures { IfSome result (λ behind. Takes rest.now
        (compact_text (names (flag_names F.table (F.set_of flags)))) behind.now) }
{
    let mut rest = after(rest, "[")?;
    let mut later = false;
    'named: for flag in F::flags() {
        if flags.contains(flag.value) {
            rest = name(next_item(rest, later)?, flag.name)?;
            later = true;
        }
    }
    let behind = after(rest, "]")?;
    Some(behind)
}

/// Returns where the next item of a list begins.
#[inline(always)]
pub(crate) fn next_item(rest: &[u8], later: bool) -> Option<&[u8]>
    ensures { IfSome result (λ behind. Takes rest.now (comma_if later) behind.now) }
{
    if later { after(rest, ",") } else { Some(rest) }
}

/// Returns how many numbers or names a list has at most: each but the first has a comma before it.
pub(crate) fn room_for_items(rest: &[u8]) -> usize {
    let mut room = 1;
    'bytes: for byte in rest {
        match *byte {
            b',' => room += 1,
            b']' => break,
            _ => {}
        }
    }
    room
}

/// Returns how many dependences a list has at most: each but the last is followed by a brace and a comma.
fn room_for_dependences(rest: &[u8]) -> usize {
    let len = memchr(b']', rest).unwrap_or(0);
    let mut list = &rest[..len];
    'items: for count in 0..MAX_DEPENDENCES {
        match past_brace(list) {
            Some(behind) => list = behind,
            None => return count,
        }
    }
    MAX_DEPENDENCES
}

/// Returns what follows the first closing brace.
fn past_brace(list: &[u8]) -> Option<&[u8]> {
    let at = memchr(b'}', list)?;
    if at < list.len() {
        Some(&list[at + 1..])
    } else {
        None
    }
}

/// Takes the numbers of a path.
pub(crate) fn path(alloc: Global, rest: &[u8]) -> Option<(ClaimPath, &[u8])>
    ensures { IfSome result (λ taken. Takes rest.now
        (compact_text (array (items_of (map whole_number taken.0)))) taken.1.now) }
{
    let mut rest = after(rest, "[")?;
    let mut numbers = ClaimPath::new();
    let mut later = false;
    'numbers: for _ in 0..MAX_DEPTH {
        let Some((number, behind)) = next_number(rest, later) else {
            break;
        };
        if numbers.push(alloc, number).is_err() {
            return None;
        }
        rest = behind;
        later = true;
    }
    let behind = after(rest, "]")?;
    Some((numbers, behind))
}

/// Takes one number of a path.
#[inline(always)]
fn next_number(rest: &[u8], later: bool) -> Option<(u32, &[u8])>
    ensures { IfSome result (λ taken. Takes rest.now (comma_if later ++ decimal taken.0) taken.1.now) }
{
    short(next_item(rest, later)?)
}

/// Takes what a task depends on.
pub(crate) fn deps(alloc: Global, rest: &[u8]) -> Option<(Deps, &[u8])>
    ensures { IfSome result (λ taken. Takes rest.now
        (compact_text (array (items_of (map dep_data taken.0)))) taken.1.now) }
{
    let mut rest = after(rest, "[")?;
    let mut items = Vec::with_capacity(alloc, room_for_dependences(rest)).ok()?;
    let mut later = false;
    'items: for _ in 0..MAX_DEPENDENCES {
        let Some((item, behind)) = next_dep(rest, later) else {
            break;
        };
        if items.push(item).is_err() {
            return None;
        }
        rest = behind;
        later = true;
    }
    let behind = after(rest, "]")?;
    Some((Deps::from_vec(items), behind))
}

/// Takes one dependence.
#[inline(always)]
fn next_dep(rest: &[u8], later: bool) -> Option<(Dep, &[u8])>
    ensures { IfSome result (λ taken. Takes rest.now
        (comma_if later ++ compact_text (dep_data taken.0)) taken.1.now) }
{
    dep(next_item(rest, later)?)
}

// Takes a dependence.
macro_rules! take_dep {
    (($rest:ident) $($text:literal $kind:ident $value:ident),*; end) => {{
        $(let $rest = after($rest, $text)?;
        let ($value, $rest) = take_value!($kind $rest)?;)*
        let behind = after($rest, "}")?;
        Some((Dep { $($value),* }, behind))
    }};
}

// Takes a value of a dependence, by its kind.
macro_rules! take_value {
    (dep_kind $rest:ident) => { dep_kind($rest) };
    (id $rest:ident) => { number($rest) };
}

/// Takes one dependence without a comma before it.
pub(crate) fn dep(rest: &[u8]) -> Option<(Dep, &[u8])>
    ensures { IfSome result (λ taken. Takes rest.now (compact_text (dep_data taken.0)) taken.1.now) }
{
    line_parts!(dep take_dep (rest) kind var)
}
