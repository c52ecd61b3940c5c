//! What a session's recorders and tasks answer, to be compared when a call was refused for memory.
use crate::recorders::tasks::Tasks;
use anyhow::{Result, bail};
use callbacks::{Closed, Recorder};
use ompt_events::{State, SyncKind};
use std::alloc::Global;

/// What a recorder answers.
#[derive(Clone, Copy, PartialEq, Eq)]
struct RecorderAnswers {
    thread: u8,
    current: Option<u64>,
    innermost_root: Option<u64>,
    awaits: Option<u64>,
    known: u32,
}

impl RecorderAnswers {
    /// Returns what this recorder answers.
    fn of(recorder: &Recorder) -> RecorderAnswers {
        RecorderAnswers {
            thread: recorder.thread(),
            current: recorder.current(),
            innermost_root: recorder.innermost_root(),
            awaits: recorder.awaits(),
            known: recorder.known(),
        }
    }
}

/// What a task answers, but for the kinds of its open regions, which stand with those of the other tasks.
#[derive(Clone, Copy, PartialEq, Eq)]
struct TaskAnswers {
    place: usize,
    id: u64,
    state: State,
    parent: Option<u64>,
    open_regions: usize,
}

/// What the recorders of a ledger and the tasks of a session answer, and how long the ledger is.
#[derive(Drop)]
pub struct Answers {
    ledger_len: u32,
    recorders: Vec<RecorderAnswers>,
    tasks: Vec<TaskAnswers>,
    regions: Vec<SyncKind>,
}

impl Answers {
    /// Returns what these answer.
    pub fn of(
        alloc: Global,
        ledger_len: u32,
        recorders: &[Recorder],
        tasks: &Tasks,
    ) -> Result<Answers> {
        let mut answers = Answers {
            ledger_len,
            recorders: Vec::with_capacity(alloc, recorders.len())?,
            tasks: Vec::with_capacity(alloc, tasks.places().len())?,
            regions: Vec::new(alloc),
        };
        for recorder in recorders {
            answers.recorders.push(RecorderAnswers::of(recorder))?;
        }
        answers.add_tasks(tasks)?;
        Ok(answers)
    }

    /// Adds what the tasks answer.
    fn add_tasks(&mut self, tasks: &Tasks) -> Result<()> {
        for (place, (_, value)) in tasks.places().iter().enumerate() {
            if let Some(task) = value {
                self.tasks.push(TaskAnswers {
                    place,
                    id: task.id(),
                    state: task.state(),
                    parent: task.parent(),
                    open_regions: task.regions().len(),
                })?;
                self.regions.extend_from_slice(task.regions())?;
            }
        }
        Ok(())
    }

    /// Tests that these are what was answered before.
    pub fn test(&self, before: &Answers) -> Result<()> {
        if self.ledger_len != before.ledger_len {
            bail!("changed: the length of the ledger");
        }
        if self.recorders.as_slice() != before.recorders.as_slice() {
            bail!("changed: the recorders");
        }
        if self.tasks.as_slice() != before.tasks.as_slice() {
            bail!("changed: the tasks");
        }
        if self.regions.as_slice() != before.regions.as_slice() {
            bail!("changed: the open regions of the tasks");
        }
        Ok(())
    }
}

/// How long the ledger of closed recorders is, and the threads with how many records each has.
#[derive(Drop)]
pub struct ClosedAnswers {
    ledger_len: u32,
    threads: Vec<(u8, usize)>,
}

impl ClosedAnswers {
    /// Returns the answers of these closed recorders.
    pub fn of(alloc: Global, closed: &Closed) -> Result<ClosedAnswers> {
        let mut threads = Vec::new(alloc);
        for buffer in closed.buffers() {
            threads.push((buffer.thread(), buffer.len()))?;
        }
        Ok(ClosedAnswers {
            ledger_len: closed.ledger().len(),
            threads,
        })
    }

    /// Tests that these are what was answered before.
    pub fn test(&self, before: &ClosedAnswers) -> Result<()> {
        if self.ledger_len != before.ledger_len
            || self.threads.as_slice() != before.threads.as_slice()
        {
            bail!("changed: the closed recorders");
        }
        Ok(())
    }
}
