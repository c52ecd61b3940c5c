//! The walk of a thread: its open roots, what ran when each of them began, and the task that runs.
ghost use Rattle.std.specs.Prelude.{◌≡◌, IfOk, OnOk, replicate, slice_get};
ghost use Rattle.ompt_events.specs.Threads.{at_start};
ghost use Rattle.task_states.specs.Walks.{after_event};

use std::alloc::{AllocError, Global};
use std::marker::Model;
use task_tree::ThreadEvent;

/// Thread numbers are below this.
const THREADS: usize = 256;

/// The walk of a thread: its open roots, the innermost last, for each of them the task that ran when it began,
/// if one did, and the task that runs, by their indices.
#[derive(Drop)]
pub(crate) struct ThreadWalk {
    roots: Vec<usize>,
    outer: Vec<Option<usize>>,
    current: Option<usize>,
}

impl Model for ThreadWalk {
    ghost use Rattle.std.specs.Prelude.{reverse};
    ghost use Rattle.ompt_events.specs.Threads.{Walk};

    ghost Value = { Walk };

    ghost view = { λ walk. record {
      roots = reverse walk.roots.items;
      outer = reverse walk.outer.items;
      current = walk.current;
    } };
}

impl ThreadWalk {
    /// Returns the walk before the thread's first record.
    pub(crate) fn new(alloc: Global) -> ThreadWalk
        ensures { result ≡ at_start }
    {
        ThreadWalk {
            roots: Vec::new(alloc),
            outer: Vec::new(alloc),
            current: None,
        }
    }

    /// Applies what a record of the thread says of its tasks, in a file where regions may lie inside others or
    /// not. Inlined into the loop over all records.
    #[inline(always)]
    pub(crate) fn advance(&mut self, event: ThreadEvent, nests: bool) -> Result<(), AllocError>
        ensures { OnOk result (self.new ≡ after_event nests self.old event) }
    {
        match event {
            ThreadEvent::Scheduled(schedule) => {
                if schedule.status.demands_next() {
                    self.current = schedule.next;
                }
                Ok(())
            }
            ThreadEvent::RootBegin(root) => {
                self.roots.push(root)?;
                self.outer.push(self.current)?;
                self.current = Some(root);
                Ok(())
            }
            ThreadEvent::RootEnd(_) => {
                self.roots.pop();
                let outer = self.outer.pop().flatten();
                self.current = if nests {
                    outer
                } else {
                    self.roots.last().copied()
                };
                Ok(())
            }
            ThreadEvent::Running(_) => Ok(()),
        }
    }

    /// Returns the task that runs.
    pub(crate) fn current(&self) -> Option<usize>
        ensures { result ≡ self.now.current }
    {
        self.current
    }

    /// Returns the innermost open root.
    pub(crate) fn innermost(&self) -> Option<usize>
        ensures { result ≡ slice_get self.now.roots 0 }
    {
        self.roots.last().copied()
    }
}

/// Returns the walk of each thread before its first record.
pub(crate) fn new_walks(alloc: Global) -> Result<Vec<ThreadWalk>, AllocError>
    ensures { IfOk result (λ walks. walks.items ≡ replicate 256 at_start) }
{
    let mut walks = Vec::with_capacity(alloc, THREADS)?;
    for _thread in 0..THREADS {
        walks.push(ThreadWalk::new(alloc))?;
    }
    Ok(walks)
}
