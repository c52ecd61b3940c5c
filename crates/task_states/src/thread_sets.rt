//! Sets of threads, one for each task, as bits: 32 bytes a task. To add or to look for a thread takes the same
//! few steps whatever the file has; in a hash table a file could choose tasks and threads that collide.
ghost use Rattle.std.specs.Prelude.{◌≡◌, ◌<◌, ◌≤◌, ◌+◌, ◌*◌, ◌^◌, ◌↔◌, IsTrue, IfOk, length, replicate};
ghost use Rattle.task_states.specs.Misnesting.{HasThread, IsThreadAdded};

use std::alloc::{AllocError, Global};

/// Each set has this many words of 64 bits, a bit for each thread.
const WORDS: usize = 4;

/// For each task, by its index, a set of threads.
#[derive(Drop)]
pub(crate) struct ThreadSets {
    pub(crate) words: Vec<u64>,
}

impl ThreadSets {
    /// Returns an empty set for each task.
    pub(crate) fn new(alloc: Global, tasks: usize) -> Result<ThreadSets, AllocError>
        requires { tasks ≤ 2 ^ 22 }
        ensures { IfOk result (λ sets. sets.words.items ≡ replicate (tasks * 4) 0) }
    {
        Ok(ThreadSets {
            words: vec![in alloc; 0; tasks * WORDS]?,
        })
    }

    /// Adds the thread to the task's set.
    pub(crate) fn add(&mut self, task: usize, thread: u8)
        requires { task * 4 + 3 < length self.old.words.items }
        ensures { IsThreadAdded self.old.words.items self.new.words.items task thread }
    {
        let thread = usize::from(thread);
        self.words[task * WORDS + thread / 64] |= 1 << (thread % 64);
    }

    /// Returns whether the task's set has the thread.
    pub(crate) fn contains(&self, task: usize, thread: u8) -> bool
        requires { task * 4 + 3 < length self.now.words.items }
        ensures { IsTrue result ↔ HasThread self.now.words.items task thread }
    {
        let thread = usize::from(thread);
        (self.words[task * WORDS + thread / 64] >> (thread % 64)) & 1 == 1
    }
}
