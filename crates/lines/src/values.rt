//! The JSON value of a line, as a tape of its tokens, and the numbers in it.
ghost use Rattle.std.specs.Prelude.{◌≡◌, ◌≢◌, ◌==◌, ◌<◌, ◌^◌, [], Ok, IfOk, IfSome, IsSome, IsTrue, Some, is_some, map, slice_index};
ghost use Rattle.std.specs.Result.{result_map_both};
ghost use Rattle.fast_float.specs.Text.{minus};
ghost use Rattle.json.specs.Find.{HasValue};
ghost use Rattle.json.specs.Json.{document};
ghost use Rattle.json.specs.Lex.{tokens};
ghost use Rattle.json.specs.Tape.{node_token};
ghost use Rattle.serde_json.specs.Data.{unsigned};
ghost use Rattle.serde_json.specs.Find.{as_u64};
ghost use Rattle.serde_json.specs.Read.{number_of, read};
ghost use Rattle.lines.specs.Meanings.{ArePlainTokens, IsRanged, meant_at, number_or_odd, opening};
ghost use Rattle.lines.specs.RecordLines as spec;
ghost use Rattle.lines.specs.RecordLines.{IsSaid};

use crate::cause::ReadCause;
use crate::parts::number;
use fast_float::Numeral;
use json::{Error, Node, Scratch, Tape};
use serde_json::Value;
use std::alloc::Global;
use std::str;

/// How deep arrays and objects may nest.
const MAX_NESTING: usize = 127;

/// Returns the tape of a line. `scratch` is memory that is kept from line to line.
pub(crate) fn tape_of<'l>(
    alloc: Global,
    line: &'l [u8],
    scratch: &'l mut Scratch,
) -> Result<Tape<'l>, ReadCause>
    ensures says { IsSaid (result_map_both meant_at (λ e. e) result) (spec.value_or_cause line.now) }
    ensures some { IfOk result HasValue }
{
    let Ok(text) = str::from_utf8(line) else {
        return Err(ReadCause::NotJson);
    };
    match Tape::parse(text, scratch, Vec::new(alloc)) {
        Ok(tape) => {
            if is_value(alloc, text, tape.nodes())? {
                Ok(tape)
            } else {
                Err(ReadCause::NotJson)
            }
        }
        Err(error) => Err(cause_of(error)),
    }
}

/// Returns why there is no tape: out of memory also if a line has more than 4 GiB.
fn cause_of(error: Error) -> ReadCause
    ensures { result ≢ ReadCause.Memory → (error ≡ Error.Invalid) × (result ≡ ReadCause.NotJson) }
{
    match error {
        Error::Invalid => ReadCause::NotJson,
        _ => ReadCause::Memory,
    }
}

/// Returns whether the document of these nodes is a value: it is nested at most 127 deep, and each number is
/// within a double's range.
#[inline(always)]
fn is_value(alloc: Global, text: &str, nodes: &[Node<'_>]) -> Result<bool, ReadCause>
    requires same { map node_token nodes.now ≡ tokens text.now }
    requires some { IsSome (document text.now) }
    ensures { IsSaid result (Ok (is_some (read text.now))) }
{
    if are_plain(nodes) {
        Ok(true)
    } else {
        is_read(alloc, text)
    }
}

/// Returns whether the text is a value, by reading it as one.
#[inline(never)]
fn is_read(alloc: Global, text: &str) -> Result<bool, ReadCause>
    ensures { IsSaid result (Ok (is_some (read text.now))) }
{
    match Value::from_str(alloc, text) {
        Ok(_) => Ok(true),
        Err(error) => {
            if error.is_memory() {
                Err(ReadCause::Memory)
            } else {
                Ok(false)
            }
        }
    }
}

/// Returns whether few of the nodes open an array or an object, and each number is plain.
fn are_plain(nodes: &[Node<'_>]) -> bool
    ensures { IsTrue result → ArePlainTokens (map node_token nodes.now) }
{
    let mut opened = 0;
    'nodes: for node in nodes {
        if !is_plain(node) {
            return false;
        }
        opened += opens(node);
    }
    opened <= MAX_NESTING
}

/// Returns whether this is a plain number, or no number.
#[inline(always)]
fn is_plain(node: &Node<'_>) -> bool
    ensures { IsTrue result → IsRanged (node_token node.now) }
{
    match node {
        Node::Number(text) => plain_number(*text).is_some(),
        _ => true,
    }
}

/// Returns how many arrays or objects the node opens.
#[inline(always)]
fn opens(node: &Node<'_>) -> usize
    ensures { result ≡ opening (node_token node.now) }
{
    match node {
        Node::Object(_) | Node::Array(_) => 1,
        _ => 0,
    }
}

/// Returns the whole number from 0 to 2^64 - 1 that the text of a number is.
#[inline(always)]
pub(crate) fn whole_number(text: &str) -> Option<u64>
    ensures { result ≡ as_u64 (number_or_odd (number_of text.now)) }
{
    match plain_number(text) {
        Some(number) => Some(number),
        None => other_number(text),
    }
}

/// Returns the number, if the text has digits alone.
#[inline(always)]
fn plain_number(text: &str) -> Option<u64>
    ensures { IfSome result (λ n. number_of text.now ≡ Some (unsigned n)) }
{
    let (number, behind) = number(text.as_bytes())?;
    alone(number, behind)
}

/// Returns the number, if nothing follows it.
#[inline(always)]
fn alone(number: u64, behind: &[u8]) -> Option<u64>
    ensures { IfSome result (λ n. (n ≡ number) × (n < 2 ^ 64) × (behind.now ≡ [])) }
{
    if behind.is_empty() {
        Some(number)
    } else {
        None
    }
}

/// Returns the whole number that the text of any JSON number stands for, if it stands for one.
#[inline(never)]
fn other_number(text: &str) -> Option<u64>
    ensures { result ≡ as_u64 (number_or_odd (number_of text.now)) }
{
    let digits = text.as_bytes();
    if begins_with_minus(digits) {
        None
    } else {
        Numeral::scan(digits).to_u64()
    }
}

/// Returns whether the text begins with a minus sign.
fn begins_with_minus(text: &[u8]) -> bool
    ensures { result ≡ (slice_index text.now 0 == minus) }
{
    !text.is_empty() && text[0] == b'-'
}
