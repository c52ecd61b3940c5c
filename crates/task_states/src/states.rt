//! The states of all tasks after all records.
ghost use Rattle.std.specs.Prelude.{◌≡◌, [], ◌∷◌, IfOk, IfErr, OnOk, length};
ghost use Rattle.ompt_events.specs.declared.cause.Cause.TheVariants.{NotCurrent, Moved, TurnGap, StatusOrder, RegionOrder};
ghost use Rattle.ompt_events.specs.Causes.{IsFreeOf};
ghost use Rattle.ompt_events.specs.Faults.{FindsFirst, IsFault, IsShownFault};
ghost use Rattle.task_tree.specs.Families.{IsOwnOf};
ghost use Rattle.task_states.specs.States.{AreStates, IsStates, IsLastState};

use crate::current::find_misfits;
use crate::homes::{Schedules, find_moved};
use crate::progress::find_progress;
use crate::regions::Regions;
use ompt_events::{Cause, Fault, State, exclude};
use std::alloc::Global;
use std::marker::Model;
use task_tree::{Own, Run};

/// The state of each task of a run after all its records, and the regions in the tasks' own order.
#[derive(Debug, Drop)]
pub struct States<'a> {
    run: Run<'a>,
    states: Vec<Option<State>>,
    regions: Regions<'a>,
}

impl<'a> Model for States<'a> {
    ghost use Rattle.task_states.specs.States.{StatesView, IsStates};

    ghost Value = { StatesView };

    ghost view = { λ states. record {
      run = states.run;
      states = states.states.items;
      regions = states.regions;
    } };

    ghost invariant = { λ states. IsStates (record {
      run = states.run;
      states = states.states.items;
      regions = states.regions;
    }) };
}

impl<'a> States<'a> {
    /// Returns the states of the run's tasks. If the records are malformed, fails with the first of these
    /// causes that occurs, at its first record in the file: a record of a task that its thread does not run
    /// (OpenMP 5.2, 12.9); an explicit task that runs on two threads without turns (it is tied, 12.1), or a
    /// turn that is not its task's; a change that a task's state does not allow (19.5.2.10); a region that
    /// ends without its begin, or a barrier of an explicit task (15.3). The run is that of the file, and
    /// `own` has its records in the tasks' own order. The caller passes the first turn gap. Takes a few
    /// steps for each record, and memory linear in the records.
    pub fn in_run(
        alloc: Global,
        run: &Run<'a>,
        own: &Own<'a>,
        gap: Option<usize>,
    ) -> Result<States<'a>, Fault>
        requires own { IsOwnOf run.now.records own.now }
        requires gap { FindsFirst run.now.records TurnGap gap }
        ensures run { IfOk result (λ states. states.run ≡ run.now) }
        ensures own { IfOk result (λ states. states.regions.own ≡ own.now) }
        ensures states { IfOk result IsStates }
        ensures current { OnOk result (IsFreeOf run.now.records NotCurrent) }
        ensures stay { OnOk result (IsFreeOf run.now.records Moved) }
        ensures gapless { OnOk result (IsFreeOf run.now.records TurnGap) }
        ensures ordered { OnOk result (IsFreeOf run.now.records StatusOrder) }
        ensures closed { OnOk result (IsFreeOf own.now.run.records RegionOrder) }
        ensures fault { IfErr result
            (IsShownFault run.now.records (NotCurrent ∷ Moved ∷ TurnGap ∷ StatusOrder ∷ RegionOrder ∷ [])) }
    {
        let _records = own.run();
        let misfits = find_misfits(alloc, run)?;
        exclude(Cause::NotCurrent, misfits.first())?;
        let schedules = find_moved(alloc, run)?;
        exclude(Cause::TurnGap, gap)?;
        let states = find_states(alloc, &schedules)?;
        let regions = Regions::in_own(alloc, own)?;
        Ok(States {
            run: schedules.run().again(),
            states,
            regions,
        })
    }

    /// Returns the run of the file.
    pub fn run(&self) -> &Run<'a>
        ensures value { result.now ≡ self.now.run }
        ensures is_states { IsStates self.now }
    {
        &self.run
    }

    /// Returns the state of the task after all its records, or none for a task that no record makes.
    pub fn last(&self, task: u64) -> Option<State>
        ensures { IsLastState self.now.run.records task result }
    {
        match self.run.index_of(task) {
            Some(index) => self.states[index],
            None => None,
        }
    }

    /// Returns the regions, whose records are in the tasks' own order.
    pub fn regions(&self) -> &Regions<'a>
        ensures value { result.now ≡ self.now.regions }
        ensures is_states { IsStates self.now }
    {
        &self.regions
    }
}

/// Returns the state of each task after all its records. Fails with the first record that changes a task in
/// a way that its state does not allow.
fn find_states(alloc: Global, schedules: &Schedules) -> Result<Vec<Option<State>>, Fault>
    requires { IsFreeOf schedules.now.records NotCurrent }
    ensures states { IfOk result (λ states.
        AreStates schedules.now.records schedules.now.family.tasks states.items) }
    ensures all { IfOk result (λ states. length states.items ≡ length schedules.now.family.tasks) }
    ensures ordered { OnOk result (IsFreeOf schedules.now.records StatusOrder) }
    ensures fault { IfErr result (IsFault schedules.now.records (StatusOrder ∷ [])) }
{
    let progress = find_progress(alloc, schedules, 0)?;
    exclude(Cause::StatusOrder, progress.refused())?;
    Ok(progress.into_states())
}
