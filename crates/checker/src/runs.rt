//! The run of a trace, as the file has it and in the tasks' own order.
ghost use Rattle.std.specs.Prelude.{◌≡◌};
ghost use Rattle.task_tree.specs.Families.{IsOwnOf};

use std::marker::Model;
use task_tree::{Own, Run};

/// The run of the file, and that in the tasks' own order.
#[derive(Drop)]
pub(crate) struct Runs<'a> {
    pub(crate) run: &'a Run<'a>,
    pub(crate) own: &'a Own<'a>,
}

impl<'a> Model for Runs<'a> {
    ghost use Rattle.task_tree.specs.Families.{IsOwnOf};
    ghost use Rattle.checker.specs.Search.{SoundView};

    ghost Value = { SoundView };

    ghost view = { λ runs. record { run = runs.run.now; own = runs.own.now } };

    ghost invariant = { λ runs. IsOwnOf runs.run.now.records runs.own.now };
}

impl<'a> Runs<'a> {
    /// Returns the run of the file.
    pub(crate) fn run(&self) -> &'a Run<'a>
        ensures value { result.now ≡ self.now.run }
        ensures is_own { IsOwnOf self.now.run.records self.now.own }
    {
        self.run
    }

    /// Returns the run in the tasks' own order.
    pub(crate) fn own(&self) -> &'a Own<'a>
        ensures value { result.now ≡ self.now.own }
        ensures is_own { IsOwnOf self.now.run.records self.now.own }
    {
        self.own
    }
}
