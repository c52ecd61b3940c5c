//! Tasks that wait for a thread to take them up.
ghost use Rattle.std.specs.Prelude.{◌≡◌, []};
ghost use Rattle.atomic_table.specs.Seated.{TableId};

use anyhow::Result;
use callbacks::{Note, TaskData};
use std::alloc::Global;
use std::marker::{Brand, PhantomData};

/// The ledger that the notes in a pool are of. The program picks it.
pub trait Room {
    ghost ledger: { TableId };
}

impl Room for Brand {
    ghost ledger = { record {
      words = 0;
      slots = 0;
      views_name = 0;
      atom = 0;
      block = 0;
      offset = 0;
      slot_names = [];
    } };
}

/// What a task does next, and how many steps it has left.
#[derive(Clone, Copy)]
pub enum Phase {
    /// It runs.
    Runs(u32),
    /// It waits for its child tasks, and then runs.
    Waits(u32),
    /// Its body is over, and its event is to be fulfilled.
    Detached,
}

/// A task that no thread runs, with what the recorder had seen that had it last.
#[derive(Drop)]
pub struct Job<L: Room> {
    pub task: TaskData,
    pub note: Note,
    pub phase: Phase,
    pub of: PhantomData<L>,
    pub ghost of_the_room: { note.ledger ≡ L.ledger },
}

/// The tasks that no thread runs.
#[derive(Drop)]
pub struct Pool<L: Room> {
    jobs: Vec<Job<L>>,
    /// How many child tasks of each task are not complete, by the tasks' numbers.
    children: Vec<u32>,
    /// How many tasks are not complete.
    unfinished: u32,
    /// Whether a taskwait waits.
    waits: bool,
}

impl<L: Room> Pool<L> {
    /// Returns a pool of no tasks; so many initial tasks have the numbers from 0 on.
    pub fn new(alloc: Global, roots: usize, waits: bool) -> Result<Pool<L>> {
        Ok(Pool {
            jobs: Vec::new(alloc),
            children: vec![in alloc; 0; roots]?,
            unfinished: 0,
            waits,
        })
    }

    /// Returns the number of a task that this one creates; none where there are so many already.
    pub fn add(&mut self, parent: u64, most: usize) -> Result<Option<u64>> {
        let id = self.children.len();
        if id >= most {
            return Ok(None);
        }
        self.children.push(0)?;
        self.unfinished = self.unfinished.saturating_add(1);
        if let Some(count) = self.children.get_mut(parent as usize) {
            *count = count.saturating_add(1);
        }
        Ok(Some(id as u64))
    }

    /// Counts that a child task of this one is complete.
    pub fn end(&mut self, parent: u64) {
        self.unfinished = self.unfinished.saturating_sub(1);
        if let Some(count) = self.children.get_mut(parent as usize) {
            *count = count.saturating_sub(1);
        }
    }

    /// Returns whether all tasks are complete.
    pub fn is_over(&self) -> bool {
        self.unfinished == 0
    }

    /// Keeps a task until a thread takes it up.
    pub fn put(&mut self, job: Job<L>) -> Result<()> {
        self.jobs.push(job)?;
        Ok(())
    }

    /// Takes one of the tasks that may go on; the number chooses which one. Returns none where there is
    /// none.
    pub fn take(&mut self, chosen: u32) -> Option<Job<L>> {
        let count = self.jobs.len();
        'jobs: for step in 0..count {
            let place = (chosen as usize + step) % count;
            if self.may_go_on(place) {
                return Some(self.jobs.swap_remove(place));
            }
        }
        None
    }

    /// Returns whether the task at this place has no child task to wait for.
    fn may_go_on(&self, place: usize) -> bool {
        let Some(job) = self.jobs.get(place) else {
            return false;
        };
        match job.phase {
            Phase::Waits(_) if self.waits => self.children.get(job.task.id() as usize) == Some(&0),
            _ => true,
        }
    }
}
