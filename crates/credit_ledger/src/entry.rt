//! What the ledger holds, and what a query names.
use ompt_events::{Part, Path};

/// What one finishing record brings back. (profile: a finishing record claims the place of its task below
/// its root, and how many children the task created.)
#[derive(Debug, Drop)]
pub struct Entry {
    /// The thread of the record.
    pub thread: u8,
    /// How much of the task is finished: all of it, or of a detachable task its body or its event (OpenMP
    /// 5.2, 12.5.2).
    pub part: Part,
    /// How many children the task created.
    pub kept: u32,
    pub task: u64,
    /// The initial or implicit task at the top of the task's tree.
    pub root: u64,
    /// The numbers of the tasks from the root down to the task, each among its parent's children.
    pub path: Path,
}

/// Some children of one task: those with the numbers from `from` to below `to`.
#[derive(Debug, Drop)]
pub struct Span {
    pub from: u32,
    pub to: u32,
    pub root: u64,
    /// The path of the task whose children these are.
    pub path: Path,
}

/// Which tasks a wait covers.
#[derive(Clone, Copy, Debug, PartialEq, Eq)]
pub enum Cover {
    /// The child tasks alone, as a taskwait does (OpenMP 5.2, 15.5).
    Children,
    /// The child tasks and all their descendants, as a taskgroup and a barrier do (OpenMP 5.2, 15.4 and
    /// 15.3).
    Descendants,
}
