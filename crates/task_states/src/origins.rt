//! What each task is, and where it runs.
ghost use Rattle.std.specs.Prelude.{ℕ, ◌≡◌, ◌<◌, ◌&&◌, IfOk, length, slice_get, Some, false};
ghost use Rattle.std.specs.List.{list_any};
ghost use Rattle.ompt_events.specs.declared.cause.Cause.TheVariants.{NotCurrent};
ghost use Rattle.ompt_events.specs.Causes.{IsFreeOf};
ghost use Rattle.ompt_events.specs.States.{nature_of, has_moved};
ghost use Rattle.task_tree.specs.Runs.{IsRun};
ghost use Rattle.task_states.specs.Homes.{home_at};
ghost use Rattle.task_states.specs.Progress.{is_at, is_many, is_turn_step, the_nature, AreNatures, AreHomes};

use crate::homes::{Home, Schedules};
use crate::moves::{Move, Nature, is_turn_move};
use std::alloc::{AllocError, Global};
use std::marker::Model;
use task_tree::Run;

/// The tasks of a run: by index of each task its nature, and where it runs. That is the thread on which it
/// begins as a root, or first runs, unless it moved.
#[derive(Drop)]
pub(crate) struct Origins<'a> {
    run: Run<'a>,
    natures: Vec<Nature>,
    homes: Vec<Home>,
}

impl<'a> Model for Origins<'a> {
    ghost use Rattle.task_tree.specs.Runs.{RunView};
    ghost use Rattle.task_states.specs.Progress.{AreOrigins};

    ghost Value = { RunView };

    ghost view = { λ origins. origins.run };

    ghost invariant = { λ origins. AreOrigins origins.run origins.natures.items origins.homes.items };
}

impl<'a> Origins<'a> {
    /// Returns what each task is, and where it runs.
    pub(crate) fn find(alloc: Global, schedules: &Schedules<'a>) -> Result<Origins<'a>, AllocError>
        requires { IsFreeOf schedules.now.records NotCurrent }
        ensures { IfOk result (λ origins. origins ≡ schedules.now) }
    {
        let run = schedules.run().again();
        let natures = find_natures(alloc, &run)?;
        let homes = find_homes(alloc, schedules)?;
        Ok(Origins {
            run,
            natures,
            homes,
        })
    }

    /// Returns the run.
    pub(crate) fn run(&self) -> &Run<'a>
        ensures value { result.now ≡ self.now }
        ensures is_run { IsRun self.now }
    {
        &self.run
    }

    /// Returns the nature of each task.
    pub(crate) fn natures(&self) -> &[Nature]
        ensures natures { AreNatures self.now.records self.now.family.tasks result.now }
        ensures all { length result.now ≡ length self.now.family.tasks }
    {
        self.natures.as_slice()
    }

    /// Returns the nature of the task at this index.
    pub(crate) fn nature(&self, index: usize) -> Nature
        requires { index < length self.now.family.tasks }
        ensures { (task : ℕ) → slice_get self.now.family.tasks index ≡ Some task
            → the_nature result ≡ nature_of self.now.records task }
    {
        self.natures[index]
    }

    /// Returns where the task at this index runs.
    pub(crate) fn home(&self, index: usize) -> Home
        requires { index < length self.now.family.tasks }
        ensures { (task : ℕ) → slice_get self.now.family.tasks index ≡ Some task
            → result ≡ home_at self.now.records task }
    {
        self.homes[index]
    }

    /// Returns whether the task at this index has moved.
    pub(crate) fn has_moved(&self, index: usize) -> bool
        requires { index < length self.now.family.tasks }
        ensures { (task : ℕ) → slice_get self.now.family.tasks index ≡ Some task
            → result ≡ has_moved self.now.records task }
    {
        is_many(self.home(index))
    }

    /// Returns whether any task has moved.
    pub(crate) fn any_moved(&self) -> bool
        ensures { result ≡ false → (task : ℕ) → has_moved self.now.records task ≡ false }
    {
        any_many(self.homes.as_slice())
    }
}

/// Returns whether any of the homes is that of a task that moved.
fn any_many(homes: &[Home]) -> bool
    ensures { result ≡ list_any is_many homes.now }
{
    homes.iter().any(|home| is_many(*home))
}

/// Returns whether it is the home of a task that moved.
pub(crate) fn is_many(home: Home) -> bool
    ensures { result ≡ is_many home }
{
    match home {
        Home::Many => true,
        Home::Nowhere | Home::On(_) => false,
    }
}

/// Returns whether a record of this thread is at the home.
pub(crate) fn is_at(home: Home, thread: u8) -> bool
    ensures { result ≡ is_at home thread }
{
    match home {
        Home::On(own) => thread == own,
        Home::Nowhere | Home::Many => false,
    }
}

/// Returns whether the move begins or ends a turn, and the home is that of a task that moved.
pub(crate) fn is_turned(home: Home, step: Move) -> bool
    ensures { result ≡ is_many home && is_turn_step step }
{
    is_many(home) && is_turn_move(step)
}

/// Returns the nature of each task.
fn find_natures(alloc: Global, run: &Run) -> Result<Vec<Nature>, AllocError>
    ensures natures { IfOk result (λ natures.
        AreNatures run.now.records run.now.family.tasks natures.items) }
    ensures all { IfOk result (λ natures. length natures.items ≡ length run.now.family.tasks) }
{
    let count = run.task_count();
    let mut natures = Vec::with_capacity(alloc, count)?;
    for index in 0..count {
        natures.push(nature_at(run, index))?;
    }
    Ok(natures)
}

/// Returns the nature of the task at this index.
fn nature_at(run: &Run, index: usize) -> Nature
    requires within { index < length run.now.family.tasks }
    requires is_run { IsRun run.now }
    ensures { (task : ℕ) → slice_get run.now.family.tasks index ≡ Some task
        → the_nature result ≡ nature_of run.now.records task }
{
    if !run.is_explicit(index) {
        return Nature::Root;
    }
    if run.makes_wait(run.made_at(index)) {
        Nature::Wait
    } else {
        Nature::Plain
    }
}

/// Returns for each task where it runs: a root on the thread of the record that makes it, any other task
/// as the task_schedule events show.
fn find_homes(alloc: Global, schedules: &Schedules) -> Result<Vec<Home>, AllocError>
    requires { IsFreeOf schedules.now.records NotCurrent }
    ensures homes { IfOk result (λ homes.
        AreHomes schedules.now.records schedules.now.family.tasks homes.items) }
    ensures all { IfOk result (λ homes. length homes.items ≡ length schedules.now.family.tasks) }
{
    let count = schedules.run().task_count();
    let mut homes = Vec::with_capacity(alloc, count)?;
    for index in 0..count {
        homes.push(home_at(schedules, index))?;
    }
    Ok(homes)
}

/// Returns where the task at this index runs.
fn home_at(schedules: &Schedules, index: usize) -> Home
    requires within { index < length schedules.now.family.tasks }
    requires current { IsFreeOf schedules.now.records NotCurrent }
    ensures { (task : ℕ) → slice_get schedules.now.family.tasks index ≡ Some task
        → result ≡ home_at schedules.now.records task }
{
    let run = schedules.run();
    if run.is_explicit(index) {
        return schedules.home(index);
    }
    Home::On(run.thread(run.made_at(index)))
}
