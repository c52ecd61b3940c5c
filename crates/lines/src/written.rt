//! An object that is written without spaces and escapes, its members in any order. Any other line is left to
//! the tape.
ghost use Rattle.std.specs.Prelude.{◌≡◌, ◌≤◌, true, Some, IfSome, [], ◌∷◌, ◌++◌, ok_or, option_and_then, option_map, length, map, take};
ghost use Rattle.std.specs.Result.{result_map_both};
ghost use Rattle.json.specs.Print.{quoted};
ghost use Rattle.serde_json.specs.Find.{as_array, as_bool, as_str, get};
ghost use Rattle.serde_json.specs.View.{items_of};
ghost use Rattle.serde_json.specs.Written.{compact_text, comma_if};
ghost use Rattle.lines.specs.MemberNames.{member_name};
ghost use Rattle.lines.specs.Members as spec;
ghost use Rattle.lines.specs.PlainData.{IsPlain};
ghost use Rattle.lines.specs.Objects.{ArePlaced, IsItemInFront, IsMemberInFront, IsValueInFront, item_data, rows, value_data};
ghost use Rattle.lines.specs.RecordLines.{IsSaid, value_of};
ghost use Rattle.lines.specs.Texts.{Takes, is_plain_byte, is_plain_text, object_of};

use crate::cause::ReadCause;
use crate::members::{MEMBER_COUNT, Member, member_names};
use crate::parts::{
    after, dep, guess_endpoint, guess_status, guess_sync_kind, line_end, name, next_item, number,
    room_for_items,
};
use bitflags::Flags;
use ompt_events::{Dep, MAX_DEPTH};
use std::alloc::Global;
use std::str;

/// The most members of a line that is read so.
const MAX_MEMBERS: usize = 32;

/// Few lines have more members.
const USUAL_MEMBERS: usize = 16;

/// No place of a member.
const NOWHERE: u8 = u8::MAX;

/// A value that is no list. An object is only read if it is a dependence.
#[derive(Clone, Copy, Debug)]
pub(crate) enum Item<'l> {
    Null,
    Truth(bool),
    Number(u64),
    Text(&'l str),
    Dependence(Dep),
}

/// The value of a member.
#[derive(Debug, Drop)]
pub(crate) enum Value<'l> {
    Single(Item<'l>),
    Listed(Vec<Item<'l>>),
}

/// The members of an object in the order in which they are written.
#[derive(Debug, Drop)]
pub(crate) struct Members<'l> {
    members: Vec<(Member, Value<'l>)>,
    /// By the number of a member where the last one of that name is, or `NOWHERE`.
    places: [u8; MEMBER_COUNT],
}

impl<'l> Members<'l> {
    /// Returns the value of this member, the last one if it is there several times.
    #[inline(always)]
    pub(crate) fn find(&self, member: Member) -> Option<&Value<'l>>
        requires { ArePlaced self.now.members.items self.now.places }
        ensures { option_map (λ v. value_data v.now) result
            ≡ get (member_name member) (object_of (rows self.now.members.items)) }
    {
        let place = self.places[member.code()] as usize;
        match self.members.get(place) {
            Some((_, value)) => Some(value),
            None => None,
        }
    }
}

/// Returns the members of a line, if it is written so and there is memory for them.
pub(crate) fn take_members(alloc: Global, line: &[u8]) -> Option<Members<'_>>
    ensures says { IfSome result (λ found. value_of line.now
        ≡ Some (object_of (rows found.members.items))) }
    ensures placed { IfSome result (λ found. ArePlaced found.members.items found.places) }
{
    let Ok(mut members) = Vec::with_capacity(alloc, USUAL_MEMBERS) else {
        return None;
    };
    let mut places = [NOWHERE; MEMBER_COUNT];
    let mut rest = after(line, "{")?;
    let mut later = false;
    'members: while members.len() < MAX_MEMBERS {
        if let Some(()) = line_end(rest) {
            return Some(Members { members, places });
        }
        let Some(front) = next_item(rest, later) else {
            return None;
        };
        let Some((member, value, behind)) = take_member(alloc, front) else {
            return None;
        };
        places[member.code()] = members.len() as u8;
        if members.push((member, value)).is_err() {
            return None;
        }
        rest = behind;
        later = true;
    }
    None
}

/// Takes a member from the front.
#[inline(always)]
fn take_member(alloc: Global, rest: &[u8]) -> Option<(Member, Value<'_>, &[u8])>
    ensures { IfSome result (λ taken. IsMemberInFront rest.now taken.0 taken.1 taken.2.now) }
{
    let member = guess_member(rest);
    let rest = after_name(rest, member)?;
    let (value, behind) = take_value(alloc, rest, member)?;
    Some((member, value, behind))
}

/// Returns true only if the text begins with the name of a member that is known. The name is guessed, so false
/// may be returned for any text.
pub(crate) fn names_guessed(rest: &[u8]) -> bool {
    name(rest, guess_member(rest).name()).is_some()
}

// What follows the name in the table.
macro_rules! after_name_of {
    (($rest:ident $member:ident) $($variant:ident = $name:literal),*) => {
        match $member {
            $(Member::$variant => named($rest, $name),)*
        }
    };
}

/// Returns what follows the member's name and a colon. With a branch for each member its name is compared
/// without a loop.
#[inline(always)]
fn after_name(rest: &[u8], member: Member) -> Option<&[u8]>
    ensures takes { IfSome result (λ behind. Takes rest.now
        (quoted (member_name member) ++ 58 ∷ []) behind.now) }
    ensures plain { is_plain_text (member_name member) ≡ true }
{
    member_names!(after_name_of(rest member))
}

/// Returns what follows this name in quotation marks and a colon.
#[inline(always)]
fn named<'l>(rest: &'l [u8], text: &str) -> Option<&'l [u8]>
    requires { is_plain_text text.now ≡ true }
    ensures { IfSome result (λ behind. Takes rest.now (quoted text.now ++ 58 ∷ []) behind.now) }
{
    after(name(rest, text)?, ":")
}

/// Guesses the member that is named, by letters in which the names differ.
#[inline(always)]
fn guess_member(rest: &[u8]) -> Member {
    if rest.len() < 8 {
        return Member::Task;
    }
    match rest[1] {
        b's' => guess_s(rest[3]),
        b't' => either(rest[2] == b'h', Member::Thread, Member::Task),
        b'p' => guess_p(rest[3], rest[6]),
        b'c' => either(rest[2] == b'b', Member::Callback, Member::Child),
        b'k' => either(rest[2] == b'e', Member::Kept, Member::Kind),
        b'n' => either(rest[5] == b'_', Member::NextTurn, Member::Next),
        b'r' => either(rest[2] == b'o', Member::Root, Member::Requested),
        b'a' => either(rest[2] == b'c', Member::Actual, Member::After),
        b'd' => Member::Deps,
        b'e' => Member::Endpoint,
        b'f' => Member::Flags,
        b'i' => Member::Index,
        _ => Member::List,
    }
}

/// Guesses a member whose name begins with `s`, by its third letter.
#[inline(always)]
fn guess_s(third: u8) -> Member {
    match third {
        b'e' => Member::Seen,
        b'q' => Member::Seq,
        _ => Member::Status,
    }
}

/// Guesses a member whose name begins with `p`, by its third and sixth letter.
#[inline(always)]
fn guess_p(third: u8, sixth: u8) -> Member {
    match third {
        b'i' => either(sixth == b'_', Member::PriorTurn, Member::Prior),
        b't' => Member::Path,
        _ => Member::Parallel,
    }
}

/// Returns the one member or the other.
#[inline(always)]
fn either(first: bool, one: Member, other: Member) -> Member {
    if first { one } else { other }
}

/// Takes the value of the member from the front.
#[inline(always)]
fn take_value(alloc: Global, rest: &[u8], member: Member) -> Option<(Value<'_>, &[u8])>
    ensures { IfSome result (λ taken. IsValueInFront rest.now taken.0 taken.1.now) }
{
    match rest.first() {
        Some(b'[') => take_list(alloc, rest),
        Some(b'"') => take_guessed(rest, member),
        _ => take_single(rest),
    }
}

/// Takes a text from the front. Compares it with the one that is guessed first, since to look for its end
/// takes longer.
#[inline(always)]
fn take_guessed(rest: &[u8], member: Member) -> Option<(Value<'_>, &[u8])>
    ensures { IfSome result (λ taken. IsValueInFront rest.now taken.0 taken.1.now) }
{
    let text = guess_text(rest, member);
    match name(rest, text) {
        Some(behind) => Some((Value::Single(Item::Text(text)), behind)),
        None => take_single(rest),
    }
}

/// Guesses the text that the member has.
#[inline(always)]
fn guess_text(rest: &[u8], member: Member) -> &'static str
    ensures { is_plain_text result.now ≡ true }
{
    match member {
        Member::Callback => guess_callback(rest),
        Member::Status => guess_status(rest).name(),
        Member::Endpoint => guess_endpoint(rest).name(),
        _ => guess_sync_kind(rest).name(),
    }
}

/// Guesses the callback that is named.
#[inline(always)]
fn guess_callback(rest: &[u8]) -> &'static str
    ensures { is_plain_text result.now ≡ true }
{
    match rest.get(1) {
        Some(b's') => "sync_region",
        Some(b'p') => begins_or_ends(rest.get(10), "parallel_begin", "parallel_end"),
        Some(b'i') => "implicit_task",
        Some(b'd') => "dependences",
        Some(b'c') => "cancel",
        _ => guess_of_task_or_thread(rest),
    }
}

/// Guesses the callback that is named, among those that begin with `t`.
#[inline(always)]
fn guess_of_task_or_thread(rest: &[u8]) -> &'static str
    ensures { is_plain_text result.now ≡ true }
{
    match rest.get(6) {
        Some(b's') => "task_schedule",
        Some(b'c') => "task_create",
        _ => begins_or_ends(rest.get(8), "thread_begin", "thread_end"),
    }
}

/// Returns the one name if this is the first letter of `begin`, or the other.
#[inline(always)]
fn begins_or_ends(letter: Option<&u8>, begin: &'static str, end: &'static str) -> &'static str
    requires begin { is_plain_text begin.now ≡ true }
    requires end { is_plain_text end.now ≡ true }
    ensures { is_plain_text result.now ≡ true }
{
    match letter {
        Some(b'b') => begin,
        _ => end,
    }
}

/// Takes a value that is no list from the front.
#[inline(always)]
fn take_single(rest: &[u8]) -> Option<(Value<'_>, &[u8])>
    ensures { IfSome result (λ taken. IsValueInFront rest.now taken.0 taken.1.now) }
{
    let (item, behind) = take_item(rest)?;
    Some((Value::Single(item), behind))
}

/// Takes a list from the front.
fn take_list(alloc: Global, rest: &[u8]) -> Option<(Value<'_>, &[u8])>
    ensures { IfSome result (λ taken. IsValueInFront rest.now taken.0 taken.1.now) }
{
    let mut rest = after(rest, "[")?;
    let mut items = Vec::with_capacity(alloc, room_for_items(rest)).ok()?;
    let mut later = false;
    'items: for _ in 0..MAX_DEPTH {
        let Some((item, behind)) = take_listed(rest, later) else {
            break;
        };
        if items.push(item).is_err() {
            return None;
        }
        rest = behind;
        later = true;
    }
    let behind = after(rest, "]")?;
    Some((Value::Listed(items), behind))
}

/// Takes an item of a list from the front.
fn take_listed(rest: &[u8], later: bool) -> Option<(Item<'_>, &[u8])>
    ensures takes { IfSome result (λ taken. Takes rest.now
        (comma_if later ++ compact_text (item_data taken.0)) taken.1.now) }
    ensures plain { IfSome result (λ taken. IsPlain (item_data taken.0) 1) }
{
    take_item(next_item(rest, later)?)
}

/// Takes an item from the front.
#[inline(always)]
pub(crate) fn take_item(rest: &[u8]) -> Option<(Item<'_>, &[u8])>
    ensures { IfSome result (λ taken. IsItemInFront rest.now taken.0 taken.1.now) }
{
    match rest.first() {
        Some(b'"') => take_text(rest),
        Some(b'{') => take_dependence(rest),
        Some(b'n') => take_word(rest, "null", Item::Null),
        Some(b't') => take_word(rest, "true", Item::Truth(true)),
        Some(b'f') => take_word(rest, "false", Item::Truth(false)),
        _ => take_number(rest),
    }
}

/// Takes the word of this item from the front.
#[inline(always)]
fn take_word<'l>(rest: &'l [u8], word: &str, item: Item<'l>) -> Option<(Item<'l>, &'l [u8])>
    requires text { word.now ≡ compact_text (item_data item) }
    requires plain { IsPlain (item_data item) 1 }
    ensures { IfSome result (λ taken. IsItemInFront rest.now taken.0 taken.1.now) }
{
    let behind = after(rest, word)?;
    Some((item, behind))
}

/// Takes a whole number from the front.
#[inline(always)]
fn take_number(rest: &[u8]) -> Option<(Item<'_>, &[u8])>
    ensures { IfSome result (λ taken. IsItemInFront rest.now taken.0 taken.1.now) }
{
    let (number, behind) = number(rest)?;
    Some((Item::Number(number), behind))
}

/// Takes a text from the front.
#[inline(always)]
fn take_text(rest: &[u8]) -> Option<(Item<'_>, &[u8])>
    ensures { IfSome result (λ taken. IsItemInFront rest.now taken.0 taken.1.now) }
{
    let (text, behind) = take_plain_text(rest)?;
    Some((Item::Text(text), behind))
}

/// Takes a dependence from the front.
#[inline(always)]
fn take_dependence(rest: &[u8]) -> Option<(Item<'_>, &[u8])>
    ensures { IfSome result (λ taken. IsItemInFront rest.now taken.0 taken.1.now) }
{
    let (dep, behind) = dep(rest)?;
    Some((Item::Dependence(dep), behind))
}

/// Takes a text without escapes from the front.
#[inline(always)]
pub(crate) fn take_plain_text(rest: &[u8]) -> Option<(&str, &[u8])>
    ensures plain { IfSome result (λ taken. is_plain_text taken.0.now ≡ true) }
    ensures takes { IfSome result (λ taken. Takes rest.now (quoted taken.0.now) taken.1.now) }
{
    let rest = after(rest, "\"")?;
    let len = plain_len(rest);
    let Ok(text) = str::from_utf8(&rest[..len]) else {
        return None;
    };
    let behind = after(&rest[len..], "\"")?;
    Some((text, behind))
}

/// Returns how many bytes in front stand for themselves in a string of JSON.
#[inline(always)]
pub(crate) fn plain_len(rest: &[u8]) -> usize
    ensures within { result ≤ length rest.now }
    ensures plain { is_plain_text (take result rest.now) ≡ true }
{
    let mut len = 0;
    'bytes: while len < rest.len() && is_plain(rest[len]) {
        len += 1;
    }
    len
}

/// Returns whether the byte stands for itself in a string of JSON.
#[inline(always)]
fn is_plain(byte: u8) -> bool
    ensures { result ≡ is_plain_byte byte }
{
    byte >= 32 && byte < 127 && byte != b'"' && byte != b'\\'
}

/// Returns the whole number, if this is one.
#[inline(always)]
pub(crate) fn whole(value: &Value<'_>) -> Option<u64>
    ensures { result ≡ spec.whole_of (value_data value.now) }
{
    match value {
        Value::Single(item) => whole_in(item),
        Value::Listed(_) => None,
    }
}

/// Returns the whole number, if the item is one.
#[inline(always)]
fn whole_in(item: &Item<'_>) -> Option<u64>
    ensures { result ≡ spec.whole_of (item_data item.now) }
{
    match item {
        Item::Number(number) => Some(*number),
        Item::Null => None,
        Item::Truth(_) => None,
        Item::Text(_) => None,
        Item::Dependence(_) => None,
    }
}

/// Returns the whole number, or none if this is `null`.
#[inline(always)]
pub(crate) fn nullable(value: &Value<'_>) -> Option<Option<u64>>
    ensures { result ≡ spec.nullable (Some (value_data value.now)) }
{
    match value {
        Value::Single(Item::Null) => Some(None),
        Value::Single(Item::Number(number)) => Some(Some(*number)),
        Value::Single(Item::Truth(_)) => None,
        Value::Single(Item::Text(_)) => None,
        Value::Single(Item::Dependence(_)) => None,
        Value::Listed(_) => None,
    }
}

/// Returns the text, if this is one.
#[inline(always)]
pub(crate) fn text_of<'l>(value: &Value<'l>) -> Option<&'l str>
    ensures { option_map (λ s. s.now) result ≡ as_str (value_data value.now) }
{
    match value {
        Value::Single(item) => text_in(item),
        Value::Listed(_) => None,
    }
}

/// Returns the text, if the item is one.
#[inline(always)]
fn text_in<'l>(item: &Item<'l>) -> Option<&'l str>
    ensures { option_map (λ s. s.now) result ≡ as_str (item_data item.now) }
{
    match item {
        Item::Text(text) => Some(text),
        Item::Null => None,
        Item::Truth(_) => None,
        Item::Number(_) => None,
        Item::Dependence(_) => None,
    }
}

/// Returns the truth value, if this is one.
#[inline(always)]
pub(crate) fn truth(value: &Value<'_>) -> Option<bool>
    ensures { result ≡ as_bool (value_data value.now) }
{
    match value {
        Value::Single(Item::Truth(truth)) => Some(*truth),
        Value::Single(Item::Null) => None,
        Value::Single(Item::Number(_)) => None,
        Value::Single(Item::Text(_)) => None,
        Value::Single(Item::Dependence(_)) => None,
        Value::Listed(_) => None,
    }
}

/// Returns the dependence, if the item is one.
fn dependence_in(item: &Item<'_>) -> Option<Dep>
    ensures { result ≡ spec.dep_of (item_data item.now) }
{
    match item {
        Item::Dependence(dep) => Some(*dep),
        Item::Null => None,
        Item::Truth(_) => None,
        Item::Number(_) => None,
        Item::Text(_) => None,
    }
}

/// Returns the items, if this is a list.
#[inline(always)]
fn items<'o, 'l>(value: &'o Value<'l>) -> Option<&'o [Item<'l>]>
    ensures { option_map (λ s. items_of (map item_data s.now)) result ≡ as_array (value_data value.now) }
{
    match value {
        Value::Listed(items) => Some(items.as_slice()),
        Value::Single(Item::Null) => None,
        Value::Single(Item::Truth(_)) => None,
        Value::Single(Item::Number(_)) => None,
        Value::Single(Item::Text(_)) => None,
        Value::Single(Item::Dependence(_)) => None,
    }
}

/// Returns the set of the flags that this list names, in any order and with repeats.
pub(crate) fn flags<F: Flags>(value: &Value<'_>) -> Result<F, ReadCause>
    requires exact { F.exact }
    ensures { result_map_both F.set_of (λ e. e) result ≡ ok_or
        (option_and_then (spec.flags_from F.table 0) (as_array (value_data value.now))) ReadCause.Field }
{
    let Some(names) = items(value) else {
        return Err(ReadCause::Field);
    };
    let mut flags = F::empty();
    'names: for name in names {
        let Some(named) = flag(name) else {
            return Err(ReadCause::Field);
        };
        flags.insert(named);
    }
    Ok(flags)
}

/// Returns the flag that the item names.
fn flag<F: Flags>(item: &Item<'_>) -> Option<F>
    requires exact { F.exact }
    ensures { option_map F.set_of result ≡ spec.flag_of F.table (item_data item.now) }
{
    match text_in(item) {
        Some(name) => F::from_name(name),
        None => None,
    }
}

/// Returns the whole numbers of this list. Fails with `Field` if it is none, or out of memory.
pub(crate) fn numbers(alloc: Global, value: &Value<'_>) -> Result<Vec<u64>, ReadCause>
    ensures { IsSaid (result_map_both (λ v. v.items) (λ e. e) result) (ok_or
        (option_and_then (spec.each spec.whole_of) (as_array (value_data value.now))) ReadCause.Field) }
{
    let Some(items) = items(value) else {
        return Err(ReadCause::Field);
    };
    let Ok(mut numbers) = Vec::with_capacity(alloc, items.len()) else {
        return Err(ReadCause::Memory);
    };
    'items: for item in items {
        let Some(number) = whole_in(item) else {
            return Err(ReadCause::Field);
        };
        let Ok(()) = numbers.push(number) else {
            return Err(ReadCause::Memory);
        };
    }
    Ok(numbers)
}

/// Returns the dependences of this list. Fails with `Field` if it is none, or out of memory.
pub(crate) fn dependences(alloc: Global, value: &Value<'_>) -> Result<Vec<Dep>, ReadCause>
    ensures { IsSaid (result_map_both (λ v. v.items) (λ e. e) result) (ok_or
        (option_and_then (spec.each spec.dep_of) (as_array (value_data value.now))) ReadCause.Field) }
{
    let Some(items) = items(value) else {
        return Err(ReadCause::Field);
    };
    let Ok(mut deps) = Vec::with_capacity(alloc, items.len()) else {
        return Err(ReadCause::Memory);
    };
    'items: for item in items {
        let Some(dep) = dependence_in(item) else {
            return Err(ReadCause::Field);
        };
        let Ok(()) = deps.push(dep) else {
            return Err(ReadCause::Memory);
        };
    }
    Ok(deps)
}
