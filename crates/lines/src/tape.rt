//! The values of a line's JSON object, read from the tape of its tokens.
ghost use Rattle.std.specs.Prelude.{◌≡◌, ok_or, option_and_then, option_map, IfSome, Some};
ghost use Rattle.std.specs.Result.{result_map_both};
ghost use Rattle.json.specs.Find.{HasValue};
ghost use Rattle.serde_json.specs.Find.{as_array, as_bool, as_str, get};
ghost use Rattle.lines.specs.Meanings.{meant_at};
ghost use Rattle.lines.specs.Members as spec;
ghost use Rattle.lines.specs.RecordLines.{IsSaid};

use crate::cause::ReadCause;
use crate::members::Member;
use crate::tables::members;
use crate::values::whole_number;
use bitflags::Flags;
use json::Element;
use ompt_events::{Dep, DepKind};
use std::alloc::Global;

/// Returns the member of this name, the last one if several have it.
#[inline(always)]
pub(crate) fn member<'t, 'l>(value: &Element<'t, 'l>, name: &str) -> Option<Element<'t, 'l>>
    requires { HasValue value.now }
    ensures says { option_map meant_at result ≡ get name.now (meant_at value.now) }
    ensures has { IfSome result HasValue }
{
    value.get(name)
}

/// Returns the whole number from 0 to 2^64 - 1, if this is one.
#[inline(always)]
pub(crate) fn whole(item: &Element<'_, '_>) -> Option<u64>
    requires { HasValue item.now }
    ensures { result ≡ spec.whole_of (meant_at item.now) }
{
    match item.as_number() {
        Some(text) => whole_number(text),
        None => None,
    }
}

/// Returns the whole number, or none if this is `null`.
#[inline(always)]
pub(crate) fn nullable(item: &Element<'_, '_>) -> Option<Option<u64>>
    requires { HasValue item.now }
    ensures { result ≡ spec.nullable (Some (meant_at item.now)) }
{
    if item.is_null() {
        Some(None)
    } else {
        match whole(item) {
            Some(number) => Some(Some(number)),
            None => None,
        }
    }
}

/// Returns the text, if this is one.
#[inline(always)]
pub(crate) fn text<'l>(item: &Element<'_, 'l>) -> Option<&'l str>
    requires { HasValue item.now }
    ensures { option_map (λ s. s.now) result ≡ as_str (meant_at item.now) }
{
    item.as_str()
}

/// Returns the truth value, if this is one.
#[inline(always)]
pub(crate) fn truth(item: &Element<'_, '_>) -> Option<bool>
    requires { HasValue item.now }
    ensures { result ≡ as_bool (meant_at item.now) }
{
    item.as_bool()
}

/// Returns the set of the flags that this list names, in any order and with repeats.
pub(crate) fn flags<F: Flags>(item: &Element<'_, '_>) -> Result<F, ReadCause>
    requires exact { F.exact }
    requires some { HasValue item.now }
    ensures { result_map_both F.set_of (λ e. e) result ≡ ok_or
        (option_and_then (spec.flags_from F.table 0) (as_array (meant_at item.now))) ReadCause.Field }
{
    let Some(mut names) = item.items() else {
        return Err(ReadCause::Field);
    };
    let mut flags = F::empty();
    'names: while let Some(name) = names.next() {
        let Some(named) = flag(&name) else {
            return Err(ReadCause::Field);
        };
        flags.insert(named);
    }
    Ok(flags)
}

/// Returns the flag that the item names.
fn flag<F: Flags>(item: &Element<'_, '_>) -> Option<F>
    requires exact { F.exact }
    requires some { HasValue item.now }
    ensures { option_map F.set_of result ≡ spec.flag_of F.table (meant_at item.now) }
{
    match text(item) {
        Some(name) => F::from_name(name),
        None => None,
    }
}

/// Returns the whole numbers of this list. Fails with `Field` if it is none, or out of memory.
pub(crate) fn numbers(alloc: Global, item: &Element<'_, '_>) -> Result<Vec<u64>, ReadCause>
    requires { HasValue item.now }
    ensures { IsSaid (result_map_both (λ v. v.items) (λ e. e) result) (ok_or
        (option_and_then (spec.each spec.whole_of) (as_array (meant_at item.now))) ReadCause.Field) }
{
    let Some(mut items) = item.items() else {
        return Err(ReadCause::Field);
    };
    let mut numbers = Vec::new(alloc);
    'found: while let Some(number) = items.next() {
        let Some(number) = whole(&number) else {
            return Err(ReadCause::Field);
        };
        let Ok(()) = numbers.push(number) else {
            return Err(ReadCause::Memory);
        };
    }
    Ok(numbers)
}

/// Returns the dependences of this list. Fails with `Field` if it is none, or out of memory.
pub(crate) fn dependences(alloc: Global, item: &Element<'_, '_>) -> Result<Vec<Dep>, ReadCause>
    requires { HasValue item.now }
    ensures { IsSaid (result_map_both (λ v. v.items) (λ e. e) result) (ok_or
        (option_and_then (spec.each spec.dep_of) (as_array (meant_at item.now))) ReadCause.Field) }
{
    let Some(mut items) = item.items() else {
        return Err(ReadCause::Field);
    };
    let mut deps = Vec::new(alloc);
    'found: while let Some(item) = items.next() {
        let Some(dep) = dep(&item) else {
            return Err(ReadCause::Field);
        };
        let Ok(()) = deps.push(dep) else {
            return Err(ReadCause::Memory);
        };
    }
    Ok(deps)
}

// A dependence.
macro_rules! read_dep {
    (($item:ident) Dep { $($field:ident: $kind:ident $name:ident),* }) => {{
        $(let Some($field) = $kind($item, Member::$name.name()) else {
            return None;
        };)*
        Some(Dep { $($field),* })
    }};
}

/// Returns the dependence that this object is.
fn dep(item: &Element<'_, '_>) -> Option<Dep>
    requires { HasValue item.now }
    ensures { result ≡ spec.dep_of (meant_at item.now) }
{
    members!(Dep read_dep (item))
}

/// Returns how a location is used.
fn dep_kind(value: &Element<'_, '_>, name: &str) -> Option<DepKind>
    requires { HasValue value.now }
    ensures { result ≡ spec.dep_kind name.now (meant_at value.now) }
{
    match member(value, name) {
        Some(item) => kind_named(&item),
        None => None,
    }
}

/// Returns the kind of dependence with this name.
fn kind_named(item: &Element<'_, '_>) -> Option<DepKind>
    requires { HasValue item.now }
    ensures { result ≡ option_and_then spec.dep_kind_named (as_str (meant_at item.now)) }
{
    match text(item) {
        Some(name) => DepKind::from_name(name),
        None => None,
    }
}

/// Returns the whole number of this name.
fn id(value: &Element<'_, '_>, name: &str) -> Option<u64>
    requires { HasValue value.now }
    ensures { result ≡ spec.whole name.now (meant_at value.now) }
{
    match member(value, name) {
        Some(item) => whole(&item),
        None => None,
    }
}
