//! What an object says of its callback, before limits are asked for: lines of traces and of scripts share
//! it. A number past its limit is cut short, and noted.
ghost use Rattle.std.specs.Prelude.{◌≡◌, ◌&&◌, Ok, Some, map, ok_or, option_map};
ghost use Rattle.std.specs.List.{list_all};
ghost use Rattle.lines.specs.LooseBodies as loose;
ghost use Rattle.lines.specs.LooseBodies.{loose_claim, loose_turns, read_loosely};
ghost use Rattle.lines.specs.Objects.{IsReadable, object_data};
ghost use Rattle.lines.specs.RecordLines as spec;
ghost use Rattle.lines.specs.RecordLines.{IsSaid};

use crate::cause::ReadCause;
use crate::members::Member;
use crate::objects::{
    Object, begin_or_end, dependences as deps, endpoint, flags, id, id_or_null, numbers, sync_kind,
    thread_kind, truth,
};
use crate::tables::members;
use ompt_events::{Body, BoxedClaim, Claim, ClaimPath, Deps, MAX_DEPENDENCES, MAX_DEPTH, Turns};
use std::alloc::Global;

/// A callback as a line says it, its numbers cut short where they are past their limits.
#[derive(Debug, Drop)]
pub struct Loose {
    pub body: Body,
    /// Whether nothing is past its limit.
    pub fits: bool,
}

/// The claim of a callback, if it makes one, its numbers cut short where they are past their limits.
#[derive(Debug, Drop)]
pub(crate) struct LooseClaim {
    pub(crate) claim: Option<BoxedClaim>,
    pub(crate) fits: bool,
}

/// The turns of a callback, if it has them, cut short where they are past their limits.
#[derive(Debug, Drop)]
pub(crate) struct LooseTurns {
    pub(crate) turns: Option<Turns>,
    pub(crate) fits: bool,
}

// What was found. A bare match is cheaper to prove than `?`.
macro_rules! found {
    ($result:expr) => {
        match $result {
            Ok(found) => found,
            Err(cause) => return Err(cause),
        }
    };
}

// Looks up a member of this kind.
macro_rules! look_up {
    (short $name:ident ($object:ident $($alloc:ident)?)) => { found!(id($object, Member::$name)) };
    (path $name:ident ($object:ident $alloc:ident)) => { found!(numbers($alloc, $object, Member::$name)) };
    (deps $name:ident ($object:ident $alloc:ident)) => { found!(deps($alloc, $object, Member::$name)) };
    ($kind:ident $name:ident ($object:ident $($alloc:ident)?)) => { found!($kind($object, Member::$name)) };
}

// Cuts short what was looked up.
macro_rules! cut {
    (short $found:ident $given:tt) => { cut_short($found) };
    (path $found:ident ($object:ident $alloc:ident)) => { found!(cut_path($alloc, &$found)) };
    (deps $found:ident $given:tt) => { Deps::from_vec($found) };
    ($kind:ident $found:ident $given:tt) => { $found };
}

// Whether what was looked up is within its limit, and what was looked up before.
macro_rules! fits {
    (short $found:ident $before:ident) => { both($before, is_short($found)) };
    (path $found:ident $before:ident) => { both(path_fits(&$found), $before) };
    (deps $found:ident $before:ident) => { both($before, $found.len() <= MAX_DEPENDENCES) };
    ($kind:ident $found:ident $before:ident) => { $before };
}

// A variant of `Body`.
macro_rules! read_body {
    ($given:tt $variant:ident { $($field:ident: $kind:ident $name:ident),* }) => {{
        $(let $field = look_up!($kind $name $given);)*
        let fits = true;
        $(let fits = fits!($kind $field fits);)*
        Ok(Loose { body: Body::$variant { $($field: cut!($kind $field $given)),* }, fits })
    }};
}

// A claim.
macro_rules! read_claim {
    (($object:ident $alloc:ident) Claim { $($field:ident: $kind:ident $name:ident),* }) => {{
        $(let $field = look_up!($kind $name ($object $alloc));)*
        let fits = true;
        $(let fits = fits!($kind $field fits);)*
        let claim = Claim { $($field: cut!($kind $field ($object $alloc))),* };
        Ok(LooseClaim { claim: Some(found!(boxed($alloc, claim))), fits })
    }};
}

// Turns.
macro_rules! read_turns {
    ($given:tt Turns { $($field:ident: $kind:ident $name:ident),* }) => {{
        $(let $field = look_up!($kind $name $given);)*
        let fits = true;
        $(let fits = fits!($kind $field fits);)*
        Ok(LooseTurns { turns: Some(Turns { $($field: cut!($kind $field $given)),* }), fits })
    }};
}

/// Reads `thread_begin`.
#[tactic(auto, unfolding(crate::specs::RecordLines::thread_begin))]
pub(crate) fn thread_begin(_alloc: Global, object: &Object<'_, '_>) -> Result<Loose, ReadCause>
    requires { IsReadable object.now }
    ensures { result ≡ read_loosely (spec.thread_begin (object_data object.now)) }
{
    members!(ThreadBegin read_body (object))
}

/// Reads `thread_end`.
#[tactic(auto, unfolding(crate::specs::RecordLines::thread_end))]
pub(crate) fn thread_end(_alloc: Global, object: &Object<'_, '_>) -> Result<Loose, ReadCause>
    requires { IsReadable object.now }
    ensures { result ≡ read_loosely (spec.thread_end (object_data object.now)) }
{
    members!(ThreadEnd read_body (object))
}

/// Reads `parallel_begin`.
#[tactic(auto, unfolding(crate::specs::RecordLines::parallel_begin))]
pub(crate) fn parallel_begin(_alloc: Global, object: &Object<'_, '_>) -> Result<Loose, ReadCause>
    requires { IsReadable object.now }
    ensures { result ≡ read_loosely (spec.parallel_begin (object_data object.now)) }
{
    members!(ParallelBegin read_body (object))
}

/// Reads `parallel_end`.
#[tactic(auto, unfolding(crate::specs::RecordLines::parallel_end))]
pub(crate) fn parallel_end(_alloc: Global, object: &Object<'_, '_>) -> Result<Loose, ReadCause>
    requires { IsReadable object.now }
    ensures { result ≡ read_loosely (spec.parallel_end (object_data object.now)) }
{
    members!(ParallelEnd read_body (object))
}

/// Reads `implicit_task`.
#[tactic(auto, unfolding(crate::specs::RecordLines::implicit_task))]
pub(crate) fn implicit_task(_alloc: Global, object: &Object<'_, '_>) -> Result<Loose, ReadCause>
    requires { IsReadable object.now }
    ensures { result ≡ read_loosely (spec.implicit_task (object_data object.now)) }
{
    members!(ImplicitTask read_body (object))
}

/// Reads `task_create`.
#[tactic(auto, unfolding(crate::specs::RecordLines::task_create))]
pub(crate) fn task_create(_alloc: Global, object: &Object<'_, '_>) -> Result<Loose, ReadCause>
    requires { IsReadable object.now }
    ensures { result ≡ read_loosely (spec.task_create (object_data object.now)) }
{
    members!(TaskCreate read_body (object))
}

/// Reads `dependences`.
#[tactic(auto, unfolding(crate::specs::RecordLines::dependences))]
pub(crate) fn dependences(alloc: Global, object: &Object<'_, '_>) -> Result<Loose, ReadCause>
    requires { IsReadable object.now }
    ensures { IsSaid result (read_loosely (spec.dependences (object_data object.now))) }
{
    members!(Dependences read_body (object alloc))
}

/// Reads `sync_region`.
#[tactic(auto, unfolding(crate::specs::RecordLines::sync_region))]
pub(crate) fn sync_region(_alloc: Global, object: &Object<'_, '_>) -> Result<Loose, ReadCause>
    requires { IsReadable object.now }
    ensures { result ≡ read_loosely (spec.sync_region (object_data object.now)) }
{
    members!(SyncRegion read_body (object))
}

/// Returns what a record claims of the task that it finishes, if it finishes one.
#[tactic(auto, unfolding(crate::specs::RecordLines::claim_if))]
pub(crate) fn claim_if(
    alloc: Global,
    object: &Object<'_, '_>,
    finishes: bool,
) -> Result<LooseClaim, ReadCause>
    requires { IsReadable object.now }
    ensures { IsSaid result (ok_or
        (option_map loose_claim (spec.claim_if finishes (object_data object.now))) ReadCause.Field) }
{
    if finishes {
        claim(alloc, object)
    } else {
        Ok(LooseClaim {
            claim: None,
            fits: true,
        })
    }
}

/// Returns what a finishing record claims of its task's place.
#[tactic(auto, unfolding(crate::specs::RecordLines::claim_said))]
fn claim(alloc: Global, object: &Object<'_, '_>) -> Result<LooseClaim, ReadCause>
    requires { IsReadable object.now }
    ensures { IsSaid result (ok_or
        (option_map (λ c. loose_claim (Some c)) (spec.claim_said (object_data object.now))) ReadCause.Field) }
{
    members!(Claim read_claim (object alloc))
}

/// Returns the claim in memory of its own. Fails only out of memory.
fn boxed(alloc: Global, claim: Claim) -> Result<BoxedClaim, ReadCause>
    ensures { IsSaid result (Ok claim) }
{
    BoxedClaim::new(alloc, claim).map_err(|_| ReadCause::Memory)
}

/// Returns the turns of a record, if it has any.
#[tactic(auto, unfolding(crate::specs::RecordLines::turns_if))]
pub(crate) fn turns_if(object: &Object<'_, '_>, told: bool) -> Result<LooseTurns, ReadCause>
    requires { IsReadable object.now }
    ensures { result ≡ ok_or
        (option_map loose_turns (spec.turns_if told (object_data object.now))) ReadCause.Field }
{
    if told {
        turns(object)
    } else {
        Ok(LooseTurns {
            turns: None,
            fits: true,
        })
    }
}

/// Returns which turn of the prior task ends, and which one of the next task begins.
#[tactic(auto, unfolding(crate::specs::RecordLines::turns_said))]
fn turns(object: &Object<'_, '_>) -> Result<LooseTurns, ReadCause>
    requires { IsReadable object.now }
    ensures { result ≡ ok_or
        (option_map (λ t. loose_turns (Some t)) (spec.turns_said (object_data object.now))) ReadCause.Field }
{
    members!(Turns read_turns (object))
}

/// Returns the path of these numbers, each cut short. Fails only out of memory.
fn cut_path(alloc: Global, numbers: &Vec<u64>) -> Result<ClaimPath, ReadCause>
    ensures { IsSaid result (Ok (map loose.cut_short numbers.now.items)) }
{
    let mut path = ClaimPath::new();
    'numbers: for number in numbers {
        path.push(alloc, cut_short(*number))
            .map_err(|_| ReadCause::Memory)?;
    }
    Ok(path)
}

/// Returns whether these numbers are at most 1,024, each of at most 32 bits.
fn path_fits(numbers: &Vec<u64>) -> bool
    ensures { result ≡ spec.path_fits numbers.now.items }
{
    numbers.len() <= MAX_DEPTH && are_short(numbers)
}

/// Returns whether each of the numbers has at most 32 bits.
fn are_short(numbers: &Vec<u64>) -> bool
    ensures { result ≡ list_all spec.is_short numbers.now.items }
{
    numbers.iter().all(|number| is_short(*number))
}

/// Returns the number, or where it has more than 32 bits the greatest one that has not.
fn cut_short(number: u64) -> u32
    ensures { result ≡ loose.cut_short number }
{
    u32::try_from(number).unwrap_or(u32::MAX)
}

/// Returns whether the number has at most 32 bits.
fn is_short(number: u64) -> bool
    ensures { result ≡ spec.is_short number }
{
    number <= u64::from(u32::MAX)
}

/// Returns whether both hold. A function of its own is cheaper to prove than `&&` where a macro writes a row
/// of them.
pub(crate) fn both(one: bool, other: bool) -> bool
    ensures { result ≡ (one && other) }
{
    one && other
}

pub(crate) use found;
