//! What a record does to a task, and the state of the task after it.
ghost use Rattle.std.specs.Prelude.{ℕ, ◌≡◌, ◌<◌, Some, length};
ghost use Rattle.ompt_events.specs.States.{may as may_move, state_after};
ghost use Rattle.task_states.specs.Progress.{the_nature, the_move, fulfils_early, is_early_status, is_early_step, is_turn_step};

use crate::table::{discard_state, next_state, start_state};
use ompt_events::{State, Status};
use task_tree::Run;

/// The nature of a task. It decides what may happen to the task.
#[derive(Clone, Copy)]
pub enum Nature {
    /// An initial or implicit task.
    Root,
    /// A taskwait with dependences (OpenMP 5.2, 15.5).
    Wait,
    /// Any other explicit task.
    Plain,
}

/// What a record does to a task.
#[derive(Clone, Copy)]
pub enum Move {
    /// The task is the prior one of a schedule with this status.
    Stopped(Status),
    /// The task is the next one of a schedule.
    Started,
    /// The task is discarded.
    Discarded,
}

/// Returns the state of the task after the move, or none where its nature or its state allows no such move.
pub fn after_move(nature: Nature, state: State, step: Move) -> Option<State>
    ensures { (i : ℕ) → result ≡ state_after (the_nature nature) (Some state) (i, the_move step) }
{
    if !may(nature, step) {
        return None;
    }
    match step {
        Move::Stopped(status) => next_state(state, status),
        Move::Started => start_state(state),
        Move::Discarded => discard_state(state),
    }
}

/// Returns whether such a move may happen to a task of this nature. A root only yields, switches and runs
/// next. A taskwait with dependences only has the status `taskwait_complete`, and no other task has it.
fn may(nature: Nature, step: Move) -> bool
    ensures { result ≡ may_move (the_nature nature) (the_move step) }
{
    match nature {
        Nature::Root => match step {
            Move::Stopped(Status::Yield | Status::Switch) | Move::Started => true,
            _ => false,
        },
        Nature::Wait => match step {
            Move::Stopped(Status::TaskwaitComplete) => true,
            _ => false,
        },
        Nature::Plain => match step {
            Move::Stopped(Status::TaskwaitComplete) => false,
            _ => true,
        },
    }
}

/// Returns whether the record fulfils the event of any task before that task's body has ended.
pub(crate) fn fulfils_early(run: &Run, at: usize) -> bool
    requires { at < length run.now.records }
    ensures { result ≡ fulfils_early run.now.records at }
{
    match run.status(at) {
        Some(status) => is_early(status),
        None => false,
    }
}

/// Returns whether this is the status of such a fulfilment.
fn is_early(status: Status) -> bool
    ensures { result ≡ is_early_status status }
{
    match status {
        Status::EarlyFulfill => true,
        _ => false,
    }
}

/// Returns whether the move is such a fulfilment of the task's own event.
pub(crate) fn is_early_move(step: Move) -> bool
    ensures { result ≡ is_early_step step }
{
    match step {
        Move::Stopped(status) => is_early(status),
        Move::Started | Move::Discarded => false,
    }
}

/// Returns whether the move begins or ends a turn of the task.
pub(crate) fn is_turn_move(step: Move) -> bool
    ensures { result ≡ is_turn_step step }
{
    match step {
        Move::Stopped(status) => status.demands_next(),
        Move::Started => true,
        Move::Discarded => false,
    }
}
