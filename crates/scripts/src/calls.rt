//! What one call says of the tasks that it names.
ghost use Rattle.std.specs.Prelude.{◌≡◌};
ghost use Rattle.scripts.specs.Scripts.{is_call, finished, ended, fate, has_twice};

use crate::lives::Life;
use ompt_events::{Body, Part};

/// Returns whether the body has no claim and no turns, as a call for a recorder must: the recorder adds
/// them.
pub(crate) fn is_call(body: &Body) -> bool
    ensures { result ≡ is_call body.now }
{
    body.claim().is_none() && body.told_turns().is_none()
}

/// Returns the task that the call finishes, unless it finishes the task's body alone.
fn finished(body: &Body) -> Option<u64>
    ensures { result ≡ finished body.now }
{
    match body {
        Body::TaskSchedule { status, prior, .. } => match status.part() {
            Some(Part::Whole | Part::Event) => Some(*prior),
            Some(Part::Body) | None => None,
        },
        _ => body.discarded(),
    }
}

/// Returns the task that the call ends.
fn ended(body: &Body) -> Option<u64>
    ensures { result ≡ ended body.now }
{
    match body.ended_root() {
        Some(task) => Some(task),
        None => finished(body),
    }
}

/// Returns the task that the call makes or ends, and what has become of it after the call.
pub(crate) fn fate(body: &Body) -> Option<(u64, Life)>
    ensures { result ≡ fate body.now }
{
    match body.made() {
        Some(task) => Some((task, Life::Live)),
        None => match ended(body) {
            Some(task) => Some((task, Life::Over)),
            None => None,
        },
    }
}

/// Returns whether a task is named twice.
pub(crate) fn has_twice(tasks: &[u64]) -> bool
    ensures { result ≡ has_twice tasks.now }
{
    for at in 0..tasks.len() {
        if tasks[at + 1..].contains(&tasks[at]) {
            return true;
        }
    }
    false
}
