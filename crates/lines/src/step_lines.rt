//! What a single line of a script stands for.
ghost use Rattle.std.specs.Prelude.{◌≡◌, Some, ok_or, option_map};
ghost use Rattle.lines.specs.LooseBodies.{read_loosely};
ghost use Rattle.lines.specs.Objects.{IsReadable, object_data};
ghost use Rattle.lines.specs.RecordLines.{IsSaid, value_of};
ghost use Rattle.lines.specs.StepLines as spec;

use crate::bodies::{
    Loose, dependences, found, implicit_task, parallel_begin, parallel_end, sync_region,
    task_create, thread_begin, thread_end,
};
use crate::cause::ReadCause;
use crate::members::Member;
use crate::objects::{Object, flags, has, id, next, numbers, status, text};
use crate::tables::{each_callback, members};
use crate::values::tape_of;
use crate::written;
use json::Scratch;
use ompt_events::{Body, CancelFlags};
use std::alloc::Global;

/// What a line of a script says. The numbers of its threads and steps may be past their limits.
#[derive(Debug, Drop)]
pub struct SaidStep {
    pub thread: u64,
    /// The step that must be done before: its thread, and its number among the thread's steps.
    pub after: Option<(u64, u64)>,
    pub loose: Loose,
}

// A task_schedule, without turns or a claim.
macro_rules! read_schedule {
    (
        ($object:ident)
        $variant:ident {
            $status:ident: status $status_name:ident,
            $prior:ident: id $prior_name:ident,
            $next:ident: next $next_name:ident,
            $turns:ident: turns,
            $claim:ident: claim
        }
    ) => {{
        let $status = found!(status($object, Member::$status_name));
        let $prior = found!(id($object, Member::$prior_name));
        let $next = found!(next($status, $object, Member::$next_name));
        Ok(Loose { body: Body::$variant { $status, $turns: None, $prior, $next, $claim: None }, fits: true })
    }};
}

// A cancellation, without a claim.
macro_rules! read_cancel {
    (
        ($object:ident)
        $variant:ident {
            $flags:ident: flags $flags_name:ident,
            $task:ident: id $task_name:ident,
            $claim:ident: claim
        }
    ) => {{
        let $flags: CancelFlags = found!(flags($object, Member::$flags_name));
        let $task = found!(id($object, Member::$task_name));
        Ok(Loose { body: Body::$variant { $flags, $task, $claim: None }, fits: true })
    }};
}

// The callback of this name.
macro_rules! read_callback {
    (
        ($object:ident $alloc:ident)
        $cb:ident: $($read:ident = $name:literal),*; $($own:ident = $own_name:literal),*
    ) => {
        match text($object, Member::$cb)? {
            $($name => $read($alloc, $object),)*
            $($own_name => $own($alloc, $object),)*
            _ => Err(ReadCause::Field),
        }
    };
}

/// Returns what a line of a script says. Fails with `NotJson` or `Field`, or out of memory. `scratch` is
/// memory that is kept from line to line.
pub fn step(alloc: Global, line: &[u8], scratch: &mut Scratch) -> Result<SaidStep, ReadCause>
    ensures { IsSaid result (spec.step_said (value_of line.now)) }
{
    match written::take_members(alloc, line) {
        Some(members) => step_in(alloc, &Object::Written(members)),
        None => on_tape(alloc, line, scratch),
    }
}

/// Returns what a line of a script says, by a tape of its tokens.
fn on_tape(alloc: Global, line: &[u8], scratch: &mut Scratch) -> Result<SaidStep, ReadCause>
    ensures { IsSaid result (spec.step_said (value_of line.now)) }
{
    let tape = tape_of(alloc, line, scratch)?;
    step_in(alloc, &Object::Tape(tape.root()))
}

/// Returns the step of an object.
#[tactic(auto, unfolding(crate::specs::StepLines::step))]
fn step_in(alloc: Global, object: &Object<'_, '_>) -> Result<SaidStep, ReadCause>
    requires { IsReadable object.now }
    ensures { IsSaid result (ok_or (spec.step (object_data object.now)) ReadCause.Field) }
{
    let thread = found!(id(object, Member::Thread));
    let after = found!(after(alloc, object));
    let loose = found!(body(alloc, object));
    Ok(SaidStep {
        thread,
        after,
        loose,
    })
}

/// Returns the step that must be done before, if one is named.
fn after(alloc: Global, object: &Object<'_, '_>) -> Result<Option<(u64, u64)>, ReadCause>
    requires { IsReadable object.now }
    ensures { IsSaid result (ok_or (spec.after (object_data object.now)) ReadCause.Field) }
{
    if has(object, Member::After) {
        two(numbers(alloc, object, Member::After)?)
    } else {
        Ok(None)
    }
}

/// Returns the two numbers, if there are these and no more.
fn two(numbers: Vec<u64>) -> Result<Option<(u64, u64)>, ReadCause>
    ensures { result ≡ ok_or (option_map Some (spec.two numbers.items)) ReadCause.Field }
{
    match numbers.as_slice() {
        [thread, number] => Ok(Some((*thread, *number))),
        _ => Err(ReadCause::Field),
    }
}

/// Returns what the callback says.
#[tactic(auto, unfolding(crate::specs::StepLines::body_named))]
fn body(alloc: Global, object: &Object<'_, '_>) -> Result<Loose, ReadCause>
    requires { IsReadable object.now }
    ensures { IsSaid result (read_loosely (spec.body (object_data object.now))) }
{
    each_callback!(read_callback (object alloc))
}

/// Reads a task_schedule.
#[tactic(auto, unfolding(crate::specs::StepLines::task_schedule))]
fn task_schedule(_alloc: Global, object: &Object<'_, '_>) -> Result<Loose, ReadCause>
    requires { IsReadable object.now }
    ensures { result ≡ read_loosely (spec.task_schedule (object_data object.now)) }
{
    members!(TaskSchedule read_schedule (object))
}

/// Reads a cancel.
#[tactic(auto, unfolding(crate::specs::StepLines::cancel))]
fn cancel(_alloc: Global, object: &Object<'_, '_>) -> Result<Loose, ReadCause>
    requires { IsReadable object.now }
    ensures { result ≡ read_loosely (spec.cancel (object_data object.now)) }
{
    members!(Cancel read_cancel (object))
}
