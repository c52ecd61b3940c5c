//! A run without a cause, with the order of its records.
ghost use Rattle.std.specs.Prelude.{◌≡◌};
ghost use Rattle.checker.specs.Counter.{IsOrdered};

use crate::makers::Makers;
use crate::verdict::Order;
use std::marker::Model;
use task_tree::Run;

/// The ledger of a run in which no cause occurs, and the greedy order of its records.
#[derive(Drop)]
pub(crate) struct Ordered<'a> {
    pub(crate) makers: &'a Makers<'a>,
    pub(crate) order: &'a Order,
}

impl<'a> Model for Ordered<'a> {
    ghost use Rattle.checker.specs.Counter.{OrderedView, IsOrdered};

    ghost Value = { OrderedView };

    ghost view = { λ ordered. record { ledger = ordered.makers.now; order = ordered.order.now } };

    ghost invariant = { λ ordered. IsOrdered (record { ledger = ordered.makers.now; order = ordered.order.now }) };
}

impl<'a> Ordered<'a> {
    /// Returns the run.
    pub(crate) fn run(&self) -> &Run<'a>
        ensures value { result.now ≡ self.now.ledger.run }
        ensures is_ordered { IsOrdered self.now }
    {
        self.makers.run()
    }

    /// Returns the ledger of the run.
    pub(crate) fn makers(&self) -> &Makers<'a>
        ensures value { result.now ≡ self.now.ledger }
        ensures is_ordered { IsOrdered self.now }
    {
        self.makers
    }

    /// Returns the greedy order of the records.
    pub(crate) fn order(&self) -> &Order
        ensures { result.now ≡ self.now.order }
    {
        self.order
    }
}
