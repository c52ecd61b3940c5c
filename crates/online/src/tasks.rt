//! The tasks that are live, by their ids.
//!
//! A task is live from the record that makes it to the one that finishes it, whole or its event, or that ends it as
//! a root.
ghost use Rattle.std.specs.Prelude.{ℕ, Option, Some, None, ◌≡◌, ◌==◌, ◌<◌, ◌+◌, ◌^◌, OnOk, option_map, option_and_then, option_copied, is_some, if◌then◌else◌};
ghost use Rattle.callbacks.specs.Tasks.{TaskView, with_child, with_region, without_region, after_start};
ghost use Rattle.callbacks.specs.Schedules.{left_of};
ghost use Rattle.online.specs.Tasks.{value_of, IsChanged};

use callbacks::TaskData;
use ompt_events::{Status, SyncKind};
use std::alloc::{AllocError, Global};
use std::collections::HashMap;

/// The live tasks, by their ids: of each what a recorder would keep of it.
#[derive(Drop)]
pub struct Tasks {
    values: HashMap<u64, TaskData>,
}

impl Tasks {
    /// Returns no task. Takes no memory.
    pub(crate) fn new(alloc: Global) -> Tasks
        ensures { (task : ℕ) → value_of result task ≡ None }
    {
        Tasks {
            values: HashMap::new(alloc),
        }
    }

    /// Returns the task with this id, if it is live.
    pub(crate) fn get(&self, task: u64) -> Option<&TaskData>
        ensures { option_copied result ≡ value_of self.now task }
    {
        self.values.get(&task)
    }

    /// Returns whether the task with this id is live.
    pub(crate) fn contains(&self, task: u64) -> bool
        ensures { result ≡ is_some (value_of self.now task) }
    {
        self.values.contains_key(&task)
    }

    /// Adds a task under its id, in the place of one that has it. Fails only when out of memory.
    pub(crate) fn add(&mut self, task: u64, value: TaskData) -> Result<(), AllocError>
        ensures { OnOk result (IsChanged self.old self.new task (λ _. Some value)) }
    {
        self.values.insert(task, value)?;
        Ok(())
    }

    /// Removes the task, if it is live.
    pub(crate) fn remove(&mut self, task: u64)
        ensures { IsChanged self.old self.new task (λ _. None) }
    {
        self.values.remove(&task);
    }

    /// Counts one more child of the task, if it is live.
    pub(crate) fn count_child(&mut self, task: u64)
        requires { (t : TaskView) → value_of self.old task ≡ Some t → t.claim.kept + 1 < 2 ^ 32 }
        ensures { IsChanged self.old self.new task (option_map with_child) }
    {
        if let Some(value) = self.values.get_mut(&task) {
            value.count_child();
        }
    }

    /// Stops or fulfils the task with this status, if it is live. It is live no more if that completes it.
    pub(crate) fn stop(&mut self, task: u64, status: Status)
        ensures { IsChanged self.old self.new task (option_and_then (λ t. left_of t status)) }
    {
        match status {
            Status::Yield | Status::Switch | Status::EarlyFulfill | Status::Detach => {
                if let Some(value) = self.values.get_mut(&task) {
                    value.stop(status);
                }
            }
            _ => self.remove(task),
        }
    }

    /// Starts the next turn of the task, if it is live.
    pub(crate) fn start(&mut self, task: u64)
        ensures { IsChanged self.old self.new task (option_map after_start) }
    {
        if let Some(value) = self.values.get_mut(&task) {
            value.start();
        }
    }

    /// Begins a region of the task, if it is live. Fails only when out of memory.
    pub(crate) fn begin_region(&mut self, task: u64, kind: SyncKind) -> Result<(), AllocError>
        ensures { OnOk result (IsChanged self.old self.new task (option_map (λ t. with_region t kind))) }
    {
        if let Some(value) = self.values.get_mut(&task) {
            value.begin_region(kind)?;
        }
        Ok(())
    }

    /// Ends the innermost region of the task, if it is live.
    pub(crate) fn end_region(&mut self, task: u64)
        ensures { IsChanged self.old self.new task (option_map without_region) }
    {
        if let Some(value) = self.values.get_mut(&task) {
            value.end_region();
        }
    }
}
