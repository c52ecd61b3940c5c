//! The object of a line in either form, and the kinds of values that its members have. A look-up fails with
//! `Field` if the member is missing or its value is of another kind.
ghost use Rattle.std.specs.Prelude.{◌≡◌, Some, IfSome, is_some, ok_or, option_map};
ghost use Rattle.std.specs.Result.{result_map_both};
ghost use Rattle.serde_json.specs.Find.{as_bool, as_str, get};
ghost use Rattle.lines.specs.MemberNames.{member_name};
ghost use Rattle.lines.specs.Members as spec;
ghost use Rattle.lines.specs.Objects.{IsFoundReadable, IsReadable, found_data, object_data};
ghost use Rattle.lines.specs.RecordLines.{IsSaid};

use crate::cause::ReadCause;
use crate::members::Member;
use crate::{tape, written};
use bitflags::Flags;
use json::Element;
use ompt_events::{Dep, Endpoint, Status, SyncKind, ThreadKind};
use std::alloc::Global;

/// The object of a line.
#[derive(Drop)]
pub(crate) enum Object<'t, 'l> {
    /// A place in the tape of the line's tokens.
    Tape(Element<'t, 'l>),
    /// The members of a line that is written without spaces and escapes.
    Written(written::Members<'l>),
}

/// The value of a member.
#[derive(Drop)]
enum Found<'o, 't, 'l> {
    Tape(Element<'t, 'l>),
    Written(&'o written::Value<'l>),
}

/// Returns the value of the member, the last one if it is there several times.
#[inline(always)]
fn member<'o, 't, 'l>(object: &'o Object<'t, 'l>, member: Member) -> Option<Found<'o, 't, 'l>>
    requires { IsReadable object.now }
    ensures says { option_map found_data result ≡ get (member_name member) (object_data object.now) }
    ensures has { IfSome result IsFoundReadable }
{
    match object {
        Object::Tape(element) => match tape::member(element, member.name()) {
            Some(value) => Some(Found::Tape(value)),
            None => None,
        },
        Object::Written(members) => match members.find(member) {
            Some(value) => Some(Found::Written(value)),
            None => None,
        },
    }
}

/// Returns whether the member is there.
#[inline(always)]
pub(crate) fn has(object: &Object<'_, '_>, name: Member) -> bool
    requires { IsReadable object.now }
    ensures { result ≡ is_some (get (member_name name) (object_data object.now)) }
{
    member(object, name).is_some()
}

/// Returns a whole number from 0 to 2^64 - 1.
#[inline(always)]
pub(crate) fn id(object: &Object<'_, '_>, name: Member) -> Result<u64, ReadCause>
    requires { IsReadable object.now }
    ensures { result ≡ ok_or (spec.whole (member_name name) (object_data object.now)) ReadCause.Field }
{
    match member(object, name) {
        Some(found) => whole(&found).ok_or(ReadCause::Field),
        None => Err(ReadCause::Field),
    }
}

/// Returns the whole number that was found, if it is one.
#[inline(always)]
fn whole(found: &Found<'_, '_, '_>) -> Option<u64>
    requires { IsFoundReadable found.now }
    ensures { result ≡ spec.whole_of (found_data found.now) }
{
    match found {
        Found::Tape(item) => tape::whole(item),
        Found::Written(value) => written::whole(value),
    }
}

/// Returns a whole number, or none if the member is missing or `null`.
#[inline(always)]
pub(crate) fn id_or_null(object: &Object<'_, '_>, name: Member) -> Result<Option<u64>, ReadCause>
    requires { IsReadable object.now }
    ensures { result ≡ ok_or (spec.whole_or_null (member_name name) (object_data object.now)) ReadCause.Field }
{
    match member(object, name) {
        Some(found) => nullable(&found).ok_or(ReadCause::Field),
        None => Ok(None),
    }
}

/// Returns the whole number that was found, or none if it is `null`.
#[inline(always)]
fn nullable(found: &Found<'_, '_, '_>) -> Option<Option<u64>>
    requires { IsFoundReadable found.now }
    ensures { result ≡ spec.nullable (Some (found_data found.now)) }
{
    match found {
        Found::Tape(item) => tape::nullable(item),
        Found::Written(value) => written::nullable(value),
    }
}

/// Returns a text.
#[inline(always)]
pub(crate) fn text<'l>(object: &Object<'_, 'l>, name: Member) -> Result<&'l str, ReadCause>
    requires { IsReadable object.now }
    ensures { result_map_both (λ s. s.now) (λ e. e) result
        ≡ ok_or (spec.text (member_name name) (object_data object.now)) ReadCause.Field }
{
    match member(object, name) {
        Some(found) => text_of(&found).ok_or(ReadCause::Field),
        None => Err(ReadCause::Field),
    }
}

/// Returns the text that was found, if it is one.
#[inline(always)]
fn text_of<'l>(found: &Found<'_, '_, 'l>) -> Option<&'l str>
    requires { IsFoundReadable found.now }
    ensures { option_map (λ s. s.now) result ≡ as_str (found_data found.now) }
{
    match found {
        Found::Tape(item) => tape::text(item),
        Found::Written(value) => written::text_of(value),
    }
}

/// Returns a truth value.
#[inline(always)]
pub(crate) fn truth(object: &Object<'_, '_>, name: Member) -> Result<bool, ReadCause>
    requires { IsReadable object.now }
    ensures { result ≡ ok_or (spec.truth (member_name name) (object_data object.now)) ReadCause.Field }
{
    match member(object, name) {
        Some(found) => truth_of(&found).ok_or(ReadCause::Field),
        None => Err(ReadCause::Field),
    }
}

/// Returns the truth value that was found, if it is one.
#[inline(always)]
fn truth_of(found: &Found<'_, '_, '_>) -> Option<bool>
    requires { IsFoundReadable found.now }
    ensures { result ≡ as_bool (found_data found.now) }
{
    match found {
        Found::Tape(item) => tape::truth(item),
        Found::Written(value) => written::truth(value),
    }
}

/// Returns the set of the flags that a list names, in any order and with repeats.
pub(crate) fn flags<F: Flags>(object: &Object<'_, '_>, name: Member) -> Result<F, ReadCause>
    requires exact { F.exact }
    requires some { IsReadable object.now }
    ensures { result_map_both F.set_of (λ e. e) result
        ≡ ok_or (spec.flags F.table (member_name name) (object_data object.now)) ReadCause.Field }
{
    match member(object, name) {
        Some(Found::Tape(item)) => tape::flags(&item),
        Some(Found::Written(value)) => written::flags(value),
        None => Err(ReadCause::Field),
    }
}

/// Returns the whole numbers of a list. Fails also out of memory.
pub(crate) fn numbers(
    alloc: Global,
    object: &Object<'_, '_>,
    name: Member,
) -> Result<Vec<u64>, ReadCause>
    requires { IsReadable object.now }
    ensures { IsSaid (result_map_both (λ v. v.items) (λ e. e) result)
        (ok_or (spec.path (member_name name) (object_data object.now)) ReadCause.Field) }
{
    match member(object, name) {
        Some(Found::Tape(item)) => tape::numbers(alloc, &item),
        Some(Found::Written(value)) => written::numbers(alloc, value),
        None => Err(ReadCause::Field),
    }
}

/// Returns the dependences of a list. Fails also out of memory.
pub(crate) fn dependences(
    alloc: Global,
    object: &Object<'_, '_>,
    name: Member,
) -> Result<Vec<Dep>, ReadCause>
    requires { IsReadable object.now }
    ensures { IsSaid (result_map_both (λ v. v.items) (λ e. e) result)
        (ok_or (spec.deps (member_name name) (object_data object.now)) ReadCause.Field) }
{
    match member(object, name) {
        Some(Found::Tape(item)) => tape::dependences(alloc, &item),
        Some(Found::Written(value)) => written::dependences(alloc, value),
        None => Err(ReadCause::Field),
    }
}

/// Returns whether a region begins or ends, or both.
pub(crate) fn endpoint(object: &Object<'_, '_>, name: Member) -> Result<Endpoint, ReadCause>
    requires { IsReadable object.now }
    ensures { result ≡ ok_or (spec.endpoint (member_name name) (object_data object.now)) ReadCause.Field }
{
    Endpoint::from_name(text(object, name)?).ok_or(ReadCause::Field)
}

/// Returns whether a task begins or ends, which it cannot do at once.
pub(crate) fn begin_or_end(object: &Object<'_, '_>, name: Member) -> Result<Endpoint, ReadCause>
    requires { IsReadable object.now }
    ensures { result ≡ ok_or (spec.begin_or_end (member_name name) (object_data object.now)) ReadCause.Field }
{
    match endpoint(object, name)? {
        Endpoint::BeginEnd => Err(ReadCause::Field),
        endpoint => Ok(endpoint),
    }
}

/// Returns how the task stops running, or how it is fulfilled.
pub(crate) fn status(object: &Object<'_, '_>, name: Member) -> Result<Status, ReadCause>
    requires { IsReadable object.now }
    ensures { result ≡ ok_or (spec.status (member_name name) (object_data object.now)) ReadCause.Field }
{
    Status::from_name(text(object, name)?).ok_or(ReadCause::Field)
}

/// Returns the task that runs next, which is there exactly where the status demands it.
pub(crate) fn next(
    status: Status,
    object: &Object<'_, '_>,
    name: Member,
) -> Result<Option<u64>, ReadCause>
    requires { IsReadable object.now }
    ensures { result ≡ ok_or (spec.next status (member_name name) (object_data object.now)) ReadCause.Field }
{
    let next = id_or_null(object, name)?;
    if next.is_some() == status.demands_next() {
        Ok(next)
    } else {
        Err(ReadCause::Field)
    }
}

/// Returns which construct the region belongs to.
pub(crate) fn sync_kind(object: &Object<'_, '_>, name: Member) -> Result<SyncKind, ReadCause>
    requires { IsReadable object.now }
    ensures { result ≡ ok_or (spec.sync_kind (member_name name) (object_data object.now)) ReadCause.Field }
{
    SyncKind::from_name(text(object, name)?).ok_or(ReadCause::Field)
}

/// Returns what a thread is there for.
pub(crate) fn thread_kind(object: &Object<'_, '_>, name: Member) -> Result<ThreadKind, ReadCause>
    requires { IsReadable object.now }
    ensures { result ≡ ok_or (spec.thread_kind (member_name name) (object_data object.now)) ReadCause.Field }
{
    ThreadKind::from_name(text(object, name)?).ok_or(ReadCause::Field)
}
