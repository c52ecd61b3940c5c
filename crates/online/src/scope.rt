//! What is counted of some tasks.
ghost use Rattle.std.specs.Prelude.{◌≡◌, ◌≤◌, ◌↔◌, IsTrue};
ghost use Rattle.online.specs.Waits.{no_tasks, with_task, without_task, raised};

/// What is counted of some tasks: how many are not over, and a ledger length from which on all others are.
#[derive(Clone, Copy, Debug, PartialEq, Eq)]
pub struct Scope {
    /// How many of the tasks are not over.
    pub left: u64,
    /// From this length on all others are over.
    pub greatest: u64,
}

impl Scope {
    /// Returns what is counted of no tasks.
    pub fn empty() -> Self
        ensures { result ≡ no_tasks }
    {
        Scope {
            left: 0,
            greatest: 0,
        }
    }

    /// Returns what is counted with one more task, which is not over.
    pub fn with_task(self) -> Self
        ensures { result ≡ with_task self }
    {
        Scope {
            left: self.left.saturating_add(1),
            greatest: self.greatest,
        }
    }

    /// Returns what is counted where one of the tasks is over from the length on.
    pub fn without_task(self, length: u64) -> Self
        ensures { result ≡ without_task length self }
    {
        Scope {
            left: self.left.saturating_sub(1),
            greatest: self.greatest.max(length),
        }
    }

    /// Returns what is counted with more tasks, which are over from the length on.
    pub fn raised(self, length: u64) -> Self
        ensures { result ≡ raised length self }
    {
        Scope {
            left: self.left,
            greatest: self.greatest.max(length),
        }
    }

    /// Returns whether all of the tasks are over at the length.
    pub fn is_over(self, length: u64) -> bool
        ensures { IsTrue result ↔ (self.left ≡ 0) × (self.greatest ≤ length) }
    {
        self.left == 0 && self.greatest <= length
    }
}
