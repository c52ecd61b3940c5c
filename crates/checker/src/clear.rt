//! What is known of a trace in which no cause occurs.
ghost use Rattle.std.specs.Prelude.{◌≡◌};
ghost use Rattle.teams.specs.Teams.{own_of};
ghost use Rattle.wait_coverage.specs.Done.{AreDone};
ghost use Rattle.wait_coverage.specs.Known.{AreCreditLengths};
ghost use Rattle.checker.specs.Search.{IsClearView};

use crate::sound::Sound;
use crate::verdict::Order;
use std::marker::Model;
use wait_coverage::Known;

/// A trace in which no cause occurs, with the greedy order of its records, and the least ledger lengths at
/// which its tasks are finished.
#[derive(Drop)]
pub(crate) struct Clear<'a> {
    pub(crate) sound: &'a Sound<'a>,
    pub(crate) order: Order,
    pub(crate) known: Known<'a>,
}

impl<'a> Model for Clear<'a> {
    ghost use Rattle.std.specs.Prelude.{◌≡◌};
    ghost use Rattle.teams.specs.Teams.{own_of};
    ghost use Rattle.wait_coverage.specs.Done.{AreDone};
    ghost use Rattle.wait_coverage.specs.Known.{AreCreditLengths};
    ghost use Rattle.checker.specs.Search.{ClearView, IsClearView};

    ghost Value = { ClearView };

    ghost view = { λ clear. record {
      run = clear.sound.now.run;
      own = clear.sound.now.own;
      order = clear.order;
    } };

    ghost invariant = { λ clear. IsClearView (record {
      run = clear.sound.now.run;
      own = clear.sound.now.own;
      order = clear.order;
    }) × (own_of clear.known.done.teams ≡ clear.sound.now.own)
        × AreDone clear.known.done
        × AreCreditLengths clear.known.done };
}

impl<'a> Clear<'a> {
    /// Returns the run and what is known of it.
    pub(crate) fn sound(&self) -> &Sound<'a>
        ensures run { result.now.run ≡ self.now.run }
        ensures own { result.now.own ≡ self.now.own }
        ensures is_clear { IsClearView self.now }
    {
        self.sound
    }

    /// Returns the least ledger lengths at which its tasks are finished. They are exactly the least at which
    /// the trace's ledger holds their credit.
    pub(crate) fn known(&self) -> &Known<'a>
        ensures own { own_of result.now.done.teams ≡ self.now.own }
        ensures done { AreDone result.now.done }
        ensures credit { AreCreditLengths result.now.done }
    {
        &self.known
    }
}
