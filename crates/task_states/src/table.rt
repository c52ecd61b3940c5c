//! How a task goes from one state to the next.
ghost use Rattle.std.specs.Prelude.{◌≡◌};
ghost use Rattle.ompt_events.specs.States.{next_state_of, start_state_of, discard_state_of};

use ompt_events::{State, Status};

// The table is written once; the first word names the code that its rows become. A row is a state; its
// columns are the states after an event with each status, in parentheses and in the order of `Status`, then
// after the task runs next and after it is discarded. A `-` allows no such event.
macro_rules! states {
    ($shape:ident $($value:ident)+) => {
        $shape! {
            $($value)+;
            //           complete yield        cancel detach   early_fulfill late_fulfill switch       taskwait_complete  start        discard
            Created      (-       -            -      -        EarlyWaiting  -            -            Done)              Running      Done;
            Running      (Done    Suspended    Done   Detached EarlyRunning  -            Suspended    -)                 -            -;
            Suspended    (-       -            -      -        EarlyWaiting  -            -            -)                 Running      -;
            EarlyRunning (Done    EarlyWaiting -      -        -             -            EarlyWaiting -)                 -            -;
            EarlyWaiting (-       -            -      -        -             -            -            -)                 EarlyRunning -;
            Detached     (-       -            -      -        -             Done         -            -)                 -            -;
            Done         (-       -            -      -        -             -            -            -)                 -            -;
        }
    };
}

macro_rules! entry {
    (-) => {
        None
    };
    ($state:ident) => {
        Some(State::$state)
    };
}

macro_rules! after_status {
    (
        $state:ident $status:ident;
        $($row:ident ($complete:tt $suspend:tt $cancel:tt $detach:tt $early:tt $late:tt $switch:tt $wait:tt) $start:tt $discard:tt;)*
    ) => {
        match $state {
            $(State::$row => match $status {
                Status::Complete => entry!($complete),
                Status::Yield => entry!($suspend),
                Status::Cancel => entry!($cancel),
                Status::Detach => entry!($detach),
                Status::EarlyFulfill => entry!($early),
                Status::LateFulfill => entry!($late),
                Status::Switch => entry!($switch),
                Status::TaskwaitComplete => entry!($wait),
            },)*
        }
    };
}

macro_rules! after_start {
    ($state:ident; $($row:ident $statuses:tt $start:tt $discard:tt;)*) => {
        match $state {
            $(State::$row => entry!($start),)*
        }
    };
}

macro_rules! after_discard {
    ($state:ident; $($row:ident $statuses:tt $start:tt $discard:tt;)*) => {
        match $state {
            $(State::$row => entry!($discard),)*
        }
    };
}

/// Returns the state of a task after a task_schedule event that has it as `prior` with this status (OpenMP
/// 5.2, 19.5.2.10 and `ompt_task_status_t`), or none where its state allows no such event. The file format
/// defines how the fulfilment of an event (12.5.2) and the end of the task's body complete the task: after
/// an early fulfilment the end of the body completes it, and a late fulfilment completes it at once.
pub fn next_state(state: State, status: Status) -> Option<State>
    ensures { result ≡ next_state_of state status }
{
    states!(after_status state status)
}

/// Returns the state of a task after a task_schedule event that has it as `next` (OpenMP 5.2, 19.5.2.10): it
/// runs. Returns none where it runs already or has ended.
pub fn start_state(state: State) -> Option<State>
    ensures { result ≡ start_state_of state }
{
    states!(after_start state)
}

/// Returns the state of a task after it is discarded (OpenMP 5.2, 11.5 and `ompt_cancel_discarded_task`), or
/// none where it has begun or its event was fulfilled already.
pub fn discard_state(state: State) -> Option<State>
    ensures { result ≡ discard_state_of state }
{
    states!(after_discard state)
}
