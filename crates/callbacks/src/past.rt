//! The calls that a seat had made before, for contracts alone.
ghost use Rattle.std.specs.Prelude.{◌≡◌, List};
ghost use Rattle.std.specs.Borrow.{ftrue};
ghost use Rattle.credit_ledger.specs.declared.view.Step.{Step};
ghost use Rattle.credit_ledger.specs.Places.{view_of};

use credit_ledger::Seat;
use std::marker::Model;

/// The calls that a seat had made at some time. It takes no memory.
#[derive(Drop)]
pub(crate) struct Past {
    pub(crate) ghost calls: { List Step },
}

impl Model for Past {
    ghost also_owns = { λ _. ftrue };
}

// It owns nothing.
unsafe impl Send for Past {}

impl Past {
    /// Returns the calls that the seat has made by now. Does nothing.
    pub(crate) fn of(_seat: &Seat) -> Past
        ensures { result.calls ≡ (view_of _seat.now).own }
    {
        Past {}
    }
}
