//! What the phases of a check have once only order, ledger and TargetTask may still show a cause.
ghost use Rattle.std.specs.Prelude.{◌≡◌};
ghost use Rattle.teams.specs.Teams.{own_of};
ghost use Rattle.checker.specs.Search.{IsSoundView};

use depend_edges::Edges;
use packed_trace::PackedTrace;
use std::marker::Model;
use task_tree::{Own, Run};
use teams::Teams;

/// A trace that shows none of the causes before `EntryTwice`, with the run of the file, and the teams and
/// the edges of the run in the tasks' own order.
#[derive(Drop)]
pub(crate) struct Sound<'a> {
    pub(crate) trace: &'a PackedTrace,
    pub(crate) run: &'a Run<'a>,
    pub(crate) teams: &'a Teams<'a>,
    pub(crate) edges: &'a Edges<'a>,
}

impl<'a> Model for Sound<'a> {
    ghost use Rattle.std.specs.Prelude.{◌≡◌};
    ghost use Rattle.teams.specs.Teams.{own_of};
    ghost use Rattle.checker.specs.Search.{SoundView, IsSoundView};

    ghost Value = { SoundView };

    ghost view = { λ sound. record { run = sound.run.now; own = own_of sound.teams.now } };

    ghost invariant = { λ sound. IsSoundView (record { run = sound.run.now; own = own_of sound.teams.now })
        × (sound.run.now.records ≡ sound.trace.now.records)
        × (sound.edges.now.run ≡ sound.teams.now.run) };
}

impl<'a> Sound<'a> {
    /// Returns the run of the file.
    pub(crate) fn run(&self) -> &'a Run<'a>
        ensures value { result.now ≡ self.now.run }
        ensures is_sound { IsSoundView self.now }
    {
        self.run
    }

    /// Returns the run in the tasks' own order.
    pub(crate) fn own(&self) -> &'a Own<'a>
        ensures value { result.now ≡ self.now.own }
        ensures is_sound { IsSoundView self.now }
    {
        let teams = self.teams;
        teams.own()
    }

    /// Returns the teams of the run in the tasks' own order.
    pub(crate) fn teams(&self) -> &'a Teams<'a>
        ensures value { own_of result.now ≡ self.now.own }
        ensures is_sound { IsSoundView self.now }
    {
        self.teams
    }

    /// Returns the edges between the tasks of that run.
    pub(crate) fn edges(&self) -> &'a Edges<'a>
        ensures value { result.now.run ≡ self.now.own.run }
        ensures is_sound { IsSoundView self.now }
    {
        self.edges
    }
}
