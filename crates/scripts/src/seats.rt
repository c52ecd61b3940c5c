//! The seats of the ledger that the threads of a run get.
ghost use Rattle.std.specs.Prelude.{◌≡◌, ◌≤◌, ◌∷◌, [], IfOk, length};
ghost use Rattle.credit_ledger.specs.Places.{ledger_id, seat_id, view_of, IsUnused};
ghost use Rattle.scripts.specs.Parts.{AreSeats, AreOfLedger, views_of};

use credit_ledger::{Seat, SharedLedger};
use std::alloc::{AllocError, Global};
use task_states::row;

/// Returns a seat for each thread that has a place of a step, by the number of the thread. They are split off
/// the first seat of the ledger, and the last thread gets what is left of it; so together they have all shares
/// of the right to enter. Thread 0 gets it if no thread has a step.
pub(crate) fn seats_of(
    alloc: Global,
    ledger: &SharedLedger,
    first: Seat,
    threads: &[Vec<u32>],
) -> Result<Vec<Option<Seat>>, AllocError>
    requires ledger { seat_id first ≡ ledger_id ledger.now }
    requires unused { IsUnused first }
    requires seen { (view_of first).seen ≡ [] }
    requires all { (view_of first).shares ≡ [] ∷ [] }
    requires few { length threads.now ≤ 256 }
    ensures ledger { IfOk result (λ seats. AreOfLedger (ledger_id ledger.now) seats.items) }
    ensures seats { IfOk result (λ seats. AreSeats threads.now (views_of seats.items)) }
{
    let mut rest = first;
    let mut seats = Vec::new(alloc);
    for thread in 1..threads.len() {
        let seat = if row(threads, thread - 1).is_empty() {
            None
        } else {
            Some(ledger.split(&mut rest))
        };
        seats.push(seat)?;
    }
    seats.push(Some(rest))?;
    Ok(seats)
}
