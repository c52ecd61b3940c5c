//! Members that the format does not know, such as those of a recorder's own. Where such a member has a plain
//! value, a line in written form is read past it.
ghost use Rattle.std.specs.Prelude.{◌≡◌, ◌++◌, ◌∷◌, IfSome, []};
ghost use Rattle.lines.specs.InFront.{AreMembersInFront, IsDataInFront, IsOtherNameInFront, TakesApart, TakesPast, is_known};

use crate::members::member_names;
use crate::parts::after;
use crate::written::{names_guessed, plain_len, take_item, take_plain_text};

/// The most members that are passed in one place.
const MAX_OTHERS: usize = 8;

/// What may stand between the parts of a line. Few lines have other members, and a place where none may stand
/// costs less to read.
pub(crate) trait Between {
    /// Returns what follows the text, which may stand behind members that are not known.
    fn after<'l>(rest: &'l [u8], text: &str) -> Option<&'l [u8]>
        ensures { IfSome result (λ behind. TakesPast rest.now text.now behind.now) };
}

/// No member stands between the parts.
#[derive(Clone, Copy, Debug)]
pub(crate) struct Nothing;

/// Members that are not known may stand between the parts.
#[derive(Clone, Copy, Debug)]
pub(crate) struct Others;

impl Between for Nothing {
    #[inline(always)]
    fn after<'l>(rest: &'l [u8], text: &str) -> Option<&'l [u8]> {
        let behind = after(rest, text)?;
        Some(behind)
    }
}

impl Between for Others {
    #[inline(always)]
    fn after<'l>(rest: &'l [u8], text: &str) -> Option<&'l [u8]> {
        match after(rest, text) {
            Some(behind) => Some(behind),
            None => after_some_others(rest, text),
        }
    }
}

/// Returns what follows the text, which stands behind at least one member that is not known.
#[inline(never)]
fn after_some_others<'l>(rest: &'l [u8], text: &str) -> Option<&'l [u8]>
    ensures { IfSome result (λ behind. TakesPast rest.now text.now behind.now) }
{
    let mut between = rest;
    'others: for _ in 0..MAX_OTHERS {
        between = past_other(between)?;
        if let Some(behind) = after(between, text) {
            return Some(behind);
        }
    }
    None
}

/// Returns what follows the first text of a line and the second one, before which members that are not known
/// may stand. Most lines have none, so both texts are compared at once first.
#[inline(always)]
pub(crate) fn after_both<'l>(
    line: &'l [u8],
    both: &str,
    first: &str,
    second: &str,
) -> Option<&'l [u8]>
    requires { both.now ≡ first.now ++ second.now }
    ensures { IfSome result (λ behind. TakesApart line.now first.now second.now behind.now) }
{
    match after(line, both) {
        Some(behind) => Some(behind),
        None => after_each(line, first, second),
    }
}

/// Returns what follows the first text and the second one, before which members that are not known may stand.
#[inline(never)]
fn after_each<'l>(line: &'l [u8], first: &str, second: &str) -> Option<&'l [u8]>
    ensures { IfSome result (λ behind. TakesApart line.now first.now second.now behind.now) }
{
    let between = after(line, first)?;
    let behind = Others::after(between, second)?;
    Some(behind)
}

/// Returns what follows the first members of a line, which are not known, and a comma.
pub(crate) fn past_first_others(inside: &[u8]) -> Option<&[u8]>
    ensures { IfSome result (λ behind. AreMembersInFront (44 ∷ inside.now) [] (44 ∷ behind.now)) }
{
    let mut between = past_first_other(inside)?;
    'others: for _ in 0..MAX_OTHERS {
        let Some(behind) = past_first_other(between) else {
            break;
        };
        between = behind;
    }
    Some(between)
}

/// Returns what follows a member that is not known, and a comma.
fn past_first_other(inside: &[u8]) -> Option<&[u8]>
    ensures { IfSome result (λ behind. AreMembersInFront (44 ∷ inside.now) [] (44 ∷ behind.now)) }
{
    let value = past_first_name(inside)?;
    let rest = past_value(value)?;
    let behind = after(rest, ",")?;
    Some(behind)
}

/// Returns what follows a name that is not known, and a colon.
fn past_first_name(inside: &[u8]) -> Option<&[u8]>
    ensures { IfSome result (λ behind. IsOtherNameInFront (44 ∷ inside.now) behind.now) }
{
    if names_guessed(inside) {
        return None;
    }
    let (name, rest) = take_plain_text(inside)?;
    if knows(name) {
        return None;
    }
    let behind = after(rest, ":")?;
    Some(behind)
}

/// Returns what follows a member that is not known.
#[inline(always)]
fn past_other(rest: &[u8]) -> Option<&[u8]>
    ensures { IfSome result (λ behind. AreMembersInFront rest.now [] behind.now) }
{
    let value = past_name(rest)?;
    let behind = past_value(value)?;
    Some(behind)
}

/// Returns what follows a comma, a name that is not known, and a colon.
#[inline(always)]
fn past_name(rest: &[u8]) -> Option<&[u8]>
    ensures { IfSome result (λ behind. IsOtherNameInFront rest.now behind.now) }
{
    match past_code(rest) {
        Some(behind) => Some(behind),
        None => past_any_name(rest),
    }
}

/// Returns what follows the name that recorders give most members of their own: where the code of a call is.
#[inline(always)]
fn past_code(rest: &[u8]) -> Option<&[u8]>
    ensures { IfSome result (λ behind. IsOtherNameInFront rest.now behind.now) }
{
    let behind = after(rest, ",\"codeptr\":")?;
    Some(behind)
}

/// Returns what follows a comma, any name that is not known, and a colon.
fn past_any_name(rest: &[u8]) -> Option<&[u8]>
    ensures { IfSome result (λ behind. IsOtherNameInFront rest.now behind.now) }
{
    let first = after(rest, ",")?;
    let behind = past_first_name(first)?;
    Some(behind)
}

// Whether the name is in the table.
macro_rules! is_one {
    (($name:ident) $($variant:ident = $known:literal),*) => {
        match $name {
            $($known => true,)*
            _ => false,
        }
    };
}

/// Returns whether the format knows a member of this name.
#[tactic(auto, unfolding(crate::specs::Members::value_named, crate::specs::MemberNames::all_members))]
fn knows(name: &str) -> bool
    ensures { result ≡ is_known name.now }
{
    member_names!(is_one(name))
}

/// Returns what follows a plain value.
#[inline(always)]
fn past_value(rest: &[u8]) -> Option<&[u8]>
    ensures { IfSome result (λ behind. IsDataInFront rest.now behind.now) }
{
    match rest.first() {
        Some(b'"') => past_text(rest),
        _ => past_item(rest),
    }
}

/// Returns what follows a text without escapes.
#[inline(always)]
fn past_text(rest: &[u8]) -> Option<&[u8]>
    ensures { IfSome result (λ behind. IsDataInFront rest.now behind.now) }
{
    let text = after(rest, "\"")?;
    let len = plain_len(text);
    let behind = after(&text[len..], "\"")?;
    Some(behind)
}

/// Returns what follows a value that is no list.
fn past_item(rest: &[u8]) -> Option<&[u8]>
    ensures { IfSome result (λ behind. IsDataInFront rest.now behind.now) }
{
    let (_item, behind) = take_item(rest)?;
    Some(behind)
}
