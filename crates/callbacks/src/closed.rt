//! The end of recording: the ledger and all its recorders are closed.
ghost use Rattle.std.specs.Prelude.{◌≡◌, ◌≤◌, [], List, All, length, map, IfOk, IfErr};
ghost use Rattle.std.specs.List.{flat_map};
ghost use Rattle.std.specs.List.Sorted.{IsPermutation, IsNonDecreasingBy};
ghost use Rattle.std.specs.Vec.{vec_capacity};
ghost use Rattle.ompt_events.specs.Causes.{entries_in};
ghost use Rattle.credit_ledger.specs.declared.view.Step.{Step};
ghost use Rattle.credit_ledger.specs.Histories.{IsLegal, entries_after};
ghost use Rattle.credit_ledger.specs.Places.{ledger_id};
ghost use Rattle.credit_ledger.specs.Seats.{AreClaims, AreSeatsApart, AreAll, HasCallsOf, claim_of};
ghost use Rattle.callbacks.specs.declared.fault.CallFault.TheVariants.{Memory};
ghost use Rattle.callbacks.specs.Recorders.{IsBacked};
ghost use Rattle.callbacks.specs.Closed.{thread_of, recorded_by, HasUnusedSeat, AreClosed, AreParts};
ghost use Rattle.callbacks.specs.Gathered.{gathered};

use crate::{Buffer, CallFault, Recorder};
use credit_ledger::{Ledger, Seat, SharedLedger};
use std::alloc::Global;
use std::marker::Model;
use std::sync::Wait;

/// What closed recorders leave: the ledger, and the records of each thread, sorted by thread number.
#[derive(Drop)]
pub struct Closed {
    ledger: Ledger,
    buffers: Vec<Buffer>,
}

impl Model for Closed {
    ghost use Rattle.callbacks.specs.Closed.{ClosedView, AreClosed};

    ghost Value = { ClosedView };

    ghost view = { λ closed. record { entries = closed.ledger; buffers = closed.buffers.items } };

    ghost invariant = { λ closed.
        AreClosed (record { entries = closed.ledger; buffers = closed.buffers.items }) };
}

impl Closed {
    /// Returns the ledger, as it is after its last call.
    pub fn ledger(&self) -> &Ledger
        ensures { result.now ≡ self.now.entries }
    {
        &self.ledger
    }

    /// Returns the records of each thread, sorted by thread number.
    pub fn buffers(&self) -> &[Buffer]
        ensures buffers { result.now ≡ self.now.buffers }
        ensures are_closed { AreClosed self.now }
    {
        self.buffers.as_slice()
    }

    /// Returns the records of each thread, sorted by thread number, and drops the ledger.
    pub(crate) fn into_buffers(self) -> Vec<Buffer>
        ensures buffers { result.items ≡ self.buffers }
        ensures are_closed { AreClosed self }
    {
        self.buffers
    }
}

/// Ends the recording: closes these recorders of the ledger, and the ledger, which takes its turn a last
/// time. Pass all recorders of the ledger: [`gather`](crate::gather) fails if an entry was made by none of
/// them. If the recorders' seats have all shares of the right to enter, each entry was made by one of these
/// seats, or by one that they took in; and if each seat was unused when its recorder was made, and has taken in
/// no other one, the recorders' records make as many entries as the ledger has. The calls of a recorder's seat
/// are, after those that it had made before, the ledger calls of the recorder's records in their order, and
/// looks. Fails only when out of memory, before a seat is touched, and returns the ledger and the recorders as
/// they were.
pub fn close_all<R: Wait>(
    alloc: Global,
    ledger: SharedLedger,
    wait: &R,
    recorders: Vec<Recorder>,
) -> Result<Closed, (SharedLedger, Vec<Recorder>, CallFault)>
    requires { All (λ r. r.ledger ≡ ledger_id ledger) recorders.items }
    ensures closed { IfOk result (λ closed. (history : List Step) × IsLegal history
        × (closed.entries ≡ entries_after history)
        × AreClaims history (map (λ r. claim_of r.seat) recorders.items)
        × AreSeatsApart (map (λ r. claim_of r.seat) recorders.items)
        × HasCallsOf history (map (λ r. r.seat) recorders.items)) }
    ensures backed { IfOk result (λ closed.
        All (λ r. IsBacked r.before r.records r.known r.seat) recorders.items) }
    ensures made { IfOk result (λ closed. All HasUnusedSeat recorders.items
        → AreAll (flat_map (λ r. r.seat.shares) recorders.items)
        → entries_in (gathered closed.buffers) ≡ length closed.entries) }
    ensures buffers { IfOk result (λ closed.
        IsPermutation (map recorded_by recorders.items) (map thread_of closed.buffers)) }
    ensures are_closed { IfOk result AreClosed }
    ensures ledger_back { IfErr result (λ refused. refused.0 ≡ ledger) }
    ensures recorders_back { IfErr result (λ refused. refused.1.items ≡ recorders.items) }
    ensures memory { IfErr result (λ refused. refused.2 ≡ Memory) }
{
    let Ok(seats) = Vec::with_capacity(alloc, recorders.len()) else {
        return Err((ledger, recorders, CallFault::Memory));
    };
    let Ok(buffers) = Vec::with_capacity(alloc, recorders.len()) else {
        return Err((ledger, recorders, CallFault::Memory));
    };
    let (seats, buffers) = take_apart(recorders, seats, buffers);
    let ledger = ledger.close(wait, seats);
    let buffers = by_thread(buffers);
    Ok(Closed { ledger, buffers })
}

/// Returns the seats and the records of the recorders, in their order. Requires room for them.
fn take_apart(
    recorders: Vec<Recorder>,
    seats: Vec<Seat>,
    buffers: Vec<Buffer>,
) -> (Vec<Seat>, Vec<Buffer>)
    requires no_seats { seats.items ≡ [] }
    requires no_buffers { buffers.items ≡ [] }
    requires seats_fit { length recorders.items ≤ vec_capacity seats }
    requires buffers_fit { length recorders.items ≤ vec_capacity buffers }
    ensures { AreParts recorders.items result.0.items result.1.items }
{
    let (mut recorders, mut seats, mut buffers) = (recorders, seats, buffers);
    'recorders: while let Some(recorder) = recorders.pop() {
        let (buffer, seat) = recorder.into_parts();
        seats.push_reserved(seat);
        buffers.push_reserved(buffer);
    }
    seats.reverse();
    buffers.reverse();
    (seats, buffers)
}

/// Returns the buffers, sorted by thread number.
fn by_thread(buffers: Vec<Buffer>) -> Vec<Buffer>
    ensures permutation { IsPermutation buffers.items result.items }
    ensures sorted { IsNonDecreasingBy (λ b. b.thread) result.items }
{
    let mut buffers = buffers;
    buffers.sort_unstable_by_key(|buffer| buffer.thread());
    buffers
}
