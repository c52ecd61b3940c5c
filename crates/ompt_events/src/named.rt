//! The tasks that a record names. Nothing here takes memory.
ghost use Rattle.std.specs.Prelude.{◌≡◌, [], ◌∷◌, ◌++◌, option_to_list};

use std::marker::Model;

/// The tasks that a record names, in the order of its members: at most three.
#[derive(Debug, Drop)]
pub struct NamedTasks {
    tasks: [u64; 3],
    count: usize,
}

impl Model for NamedTasks {
    ghost use Rattle.std.specs.Prelude.{List, ℕ, take, ◌≤◌};

    ghost Value = { List ℕ };

    ghost view = { λ named. take named.count named.tasks };

    ghost invariant = { λ named. named.count ≤ 3 };
}

impl NamedTasks {
    /// Returns a list without a task.
    pub(crate) fn none() -> NamedTasks
        ensures { result ≡ [] }
    {
        NamedTasks {
            tasks: [0; 3],
            count: 0,
        }
    }

    /// Returns a list of one task, and up to two more.
    pub(crate) fn of(first: u64, second: Option<u64>, third: Option<u64>) -> NamedTasks
        ensures { result ≡ first ∷ option_to_list second ++ option_to_list third }
    {
        match (second, third) {
            (None, None) => NamedTasks {
                tasks: [first, 0, 0],
                count: 1,
            },
            (Some(second), None) => NamedTasks {
                tasks: [first, second, 0],
                count: 2,
            },
            (None, Some(third)) => NamedTasks {
                tasks: [first, third, 0],
                count: 2,
            },
            (Some(second), Some(third)) => NamedTasks {
                tasks: [first, second, third],
                count: 3,
            },
        }
    }

    /// Returns the tasks in order.
    pub fn as_slice(&self) -> &[u64]
        ensures { result.now ≡ self.now }
    {
        &self.tasks[..self.count]
    }
}
