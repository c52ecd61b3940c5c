//! The states of a task.

/// The state of a task between its creation and its completion.
#[derive(Clone, Copy, Debug, PartialEq, Eq)]
pub enum State {
    /// It has not begun.
    Created,
    /// A thread runs it.
    Running,
    /// It has begun, and no thread runs it.
    Suspended,
    /// A thread runs it, and its event was fulfilled already (OpenMP 5.2, 12.5.2).
    EarlyRunning,
    /// No thread runs it, and its event was fulfilled already.
    EarlyWaiting,
    /// Its body has ended, and its event was not fulfilled yet.
    Detached,
    /// It is complete, or was discarded.
    Done,
}
