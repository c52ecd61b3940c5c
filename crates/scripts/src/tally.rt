//! How many steps each thread has, and how many tasks the steps make.
ghost use Rattle.std.specs.Prelude.{◌≡◌, ◌<◌, List, ◌++◌, ◌∷◌, [], get_or};
ghost use Rattle.ompt_events.specs.Limits.{max_records};
ghost use Rattle.scripts.specs.declared.script.Step.{Step};
ghost use Rattle.scripts.specs.Keeping.{IsTally, IsStepFound};

use crate::script::Step;

/// The number of steps by thread, and the number of tasks that they make.
#[derive(Drop)]
pub(crate) struct Tally {
    steps: [u32; 256],
    tasks: u32,
}

impl Tally {
    /// Returns the tally of no step and no task.
    pub(crate) fn new() -> Tally
        ensures { IsTally [] result }
    {
        Tally {
            steps: [0; 256],
            tasks: 0,
        }
    }

    /// Returns the number of tasks that the steps make.
    pub(crate) fn tasks(&self) -> u32
        ensures { result ≡ self.now.tasks }
    {
        self.tasks
    }

    /// Returns the step that is named by its thread and its number there, if there is such a step. Where
    /// none is named, returns that none is.
    pub(crate) fn find(&self, named: Option<(u64, u64)>) -> Option<Option<(u8, u32)>>
        ensures { (steps : List Step) → IsTally steps self.now → IsStepFound steps named result }
    {
        let Some((thread, number)) = named else {
            return Some(None);
        };
        let Ok(thread) = u8::try_from(thread) else {
            return None;
        };
        if number < u64::from(self.steps[usize::from(thread)]) {
            Some(Some((thread, number as u32)))
        } else {
            None
        }
    }

    /// Counts one more step.
    pub(crate) fn count(&mut self, step: &Step)
        requires steps { get_or self.old.steps step.now.thread 0 < max_records }
        requires tasks { self.old.tasks < max_records }
        ensures { (steps : List Step) → IsTally steps self.old
            → IsTally (steps ++ step.now ∷ []) self.new }
    {
        self.steps[usize::from(step.thread)] += 1;
        if step.body.made().is_some() {
            self.tasks += 1;
        }
    }
}
