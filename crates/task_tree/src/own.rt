//! The run of a trace in its tasks' own order, and the place of each record in the file.
ghost use Rattle.std.specs.Prelude.{◌≡◌, ◌<◌, Some, length, slice_get};
ghost use Rattle.task_tree.specs.OwnOrder.{AreAllPlaces};
ghost use Rattle.task_tree.specs.Own.{IsOwn, KeepsMembers};

use crate::own_order::OwnOrder;
use crate::run::Run;
use std::marker::Model;

/// A run whose records are in the tasks' own order, and the place of each of them in the file.
#[derive(Debug, Drop)]
pub struct Own<'a> {
    run: Run<'a>,
    order: &'a OwnOrder,
}

impl<'a> Model for Own<'a> {
    ghost use Rattle.task_tree.specs.Own.{OwnView, IsOwn};

    ghost Value = { OwnView };

    ghost view = { λ own. record { run = own.run; places = own.order.now } };

    ghost invariant = { λ own. IsOwn (record { run = own.run; places = own.order.now }) };
}

impl<'a> Own<'a> {
    /// Returns the run of records in this order. Takes no memory.
    pub fn of(run: Run<'a>, order: &'a OwnOrder) -> Own<'a>
        requires places { AreAllPlaces order.now (length run.records) }
        requires members { KeepsMembers run.records order.now }
        ensures run { result.run ≡ run.entry }
        ensures places { result.places ≡ order.now }
    {
        Own { run, order }
    }

    /// Returns a second view of the same run. Takes no memory.
    pub fn again(&self) -> Own<'a>
        ensures { result ≡ self.now }
    {
        Own {
            run: self.run.again(),
            order: self.order,
        }
    }

    /// Returns the run, whose records are in the tasks' own order.
    pub fn run(&self) -> &Run<'a>
        ensures value { result.now ≡ self.now.run }
        ensures is_own { IsOwn self.now }
    {
        &self.run
    }

    /// Returns the place in the file of the record with this number.
    #[inline(always)]
    pub fn place(&self, number: usize) -> usize
        requires { number < length self.now.run.records }
        ensures value { slice_get self.now.places number ≡ Some result }
        ensures within { result < length self.now.run.records }
    {
        self.order.place(number)
    }

    /// Returns the number of the record at a place in the file.
    #[inline(always)]
    pub fn number(&self, place: usize) -> usize
        requires { place < length self.now.run.records }
        ensures value { slice_get self.now.places result ≡ Some place }
        ensures within { result < length self.now.run.records }
    {
        self.order.number(place)
    }
}
