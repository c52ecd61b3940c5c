//! The parallel regions that have begun so far: where each has, and on which threads each task has begun one.
ghost use Rattle.std.specs.Prelude.{◌<◌, ◌+◌, ◌↔◌, IsTrue, IfOk, OnOk, IfSome, IsSomeAnd, length};
ghost use Rattle.task_tree.specs.Runs.{IsRun};
ghost use Rattle.task_states.specs.Misnesting.{HaveBegun, HasForked, HasForkedOne};

use crate::thread_sets::ThreadSets;
use index_tables::Seeded;
use indexmap::IndexMap;
use std::alloc::{AllocError, Global};
use task_tree::Run;

/// The parallel regions that the records so far begin.
#[derive(Drop)]
pub(crate) struct Begun {
    /// By parallel region the place of the record that begins it.
    pub(crate) places: IndexMap<u64, usize, Seeded>,
    /// By index of each task the threads on which it has begun a region.
    pub(crate) threads: ThreadSets,
}

impl Begun {
    /// Returns no region, as before the first record. A look-up by region takes a few steps: the table has the
    /// seed of the run's regions.
    pub(crate) fn new(alloc: Global, run: &Run) -> Result<Begun, AllocError>
        ensures { IfOk result (HaveBegun run.now 0) }
    {
        Ok(Begun {
            places: IndexMap::with_hasher(alloc, run.family().region_hashers()),
            threads: ThreadSets::new(alloc, run.task_count())?,
        })
    }

    /// Adds the region that the record at a place begins, if it begins one.
    pub(crate) fn note(&mut self, run: &Run, at: usize) -> Result<(), AllocError>
        requires within { at < length run.now.records }
        requires is_run { IsRun run.now }
        requires begun { HaveBegun run.now at self.old }
        ensures { OnOk result (HaveBegun run.now (at + 1) self.new) }
    {
        let Some(task) = run.forking(at) else {
            return Ok(());
        };
        let Some(parallel) = run.forked_region(at) else {
            return Ok(());
        };
        self.threads.add(task, run.thread(at));
        self.places.insert(parallel, at)?;
        Ok(())
    }

    /// Returns whether there is a task, and it has begun the parallel region by an earlier record of the thread
    /// of the record at a place.
    pub(crate) fn has_begun(&self, run: &Run, at: usize, task: Option<usize>, parallel: u64) -> bool
        requires within { at < length run.now.records }
        requires is_run { IsRun run.now }
        requires begun { HaveBegun run.now at self.now }
        ensures { IsTrue result ↔ IsSomeAnd task (λ index. HasForked run.now at index parallel) }
    {
        match self.places.get(&parallel).copied() {
            Some(place) => run.thread(place) == run.thread(at) && run.forking(place) == task,
            None => false,
        }
    }

    /// Returns whether there is a task, and it has begun any parallel region by an earlier record of that
    /// thread.
    pub(crate) fn has_begun_one(&self, run: &Run, at: usize, task: Option<usize>) -> bool
        requires within { at < length run.now.records }
        requires is_run { IsRun run.now }
        requires begun { HaveBegun run.now at self.now }
        requires known { IfSome task (λ index. index < length run.now.family.tasks) }
        ensures { IsTrue result ↔ IsSomeAnd task (HasForkedOne run.now at) }
    {
        match task {
            Some(index) => self.threads.contains(index, run.thread(at)),
            None => false,
        }
    }
}
