//! Threads that enter entries into one shared ledger.
ghost use Rattle.std.specs.Prelude.{◌≡◌, ◌++◌, length, IfOk, All};
ghost use Rattle.std.specs.Thread.{IsSync};

use credit_ledger::{Entry, Ledger, LedgerFault, Seat, SharedLedger};
use ompt_events::{Part, Path};
use std::alloc::Global;
use std::sync::Wait;
use std::thread::{Threads, join};

/// What threads leave: their seats, and the indices that they were told.
#[derive(Drop)]
pub struct Turns {
    pub seats: Vec<Seat>,
    pub indices: Vec<u32>,
}

/// So many threads, whose entries are of the roots from `root` on, and how often each of them calls: a look
/// comes after each of the first entries, and the other looks come last.
#[derive(Clone, Copy)]
pub struct Plan {
    pub root: u64,
    pub threads: u64,
    pub entries: u32,
    pub looks: u32,
}

/// Returns the entry of a whole task of a root, in which one number is its path.
pub fn entry_of(alloc: Global, root: u64, number: u32) -> Result<Entry, LedgerFault>
    ensures { IfOk result (λ entry. length entry.path ≡ 1) }
{
    let mut numbers = Vec::new(alloc);
    let Ok(()) = numbers.push(number) else {
        return Err(LedgerFault::Memory);
    };
    Ok(Entry {
        thread: 0,
        part: Part::Whole,
        kept: 0,
        task: 2,
        root,
        path: Path::from_vec(numbers),
    })
}

/// Enters an entry, and returns its index. Requires a seat of the ledger. Fails where the entry is refused.
pub fn enter_one<R: Wait>(
    rt: &R,
    ledger: &SharedLedger,
    seat: &mut Seat,
    entry: Entry,
) -> Result<u32, LedgerFault>
    requires seat { seat.old.place.table_id ≡ ledger.now.board.shared.table_id }
    requires path { length entry.path ≡ 1 }
    ensures { seat.new.place.table_id ≡ seat.old.place.table_id }
{
    match ledger.enter(rt, seat, entry) {
        Ok(receipt) => Ok(receipt.index),
        Err((_, fault)) => Err(fault),
    }
}

/// Makes the calls of one thread.
fn own_turns<R: Wait>(
    rt: &R,
    alloc: Global,
    ledger: &SharedLedger,
    seat: Seat,
    plan: Plan,
) -> Result<Turns, LedgerFault>
    requires { seat.place.table_id ≡ ledger.now.board.shared.table_id }
    ensures { IfOk result (λ turns.
        All (λ seat. seat.place.table_id ≡ ledger.now.board.shared.table_id) turns.seats.items) }
{
    let mut seat = seat;
    let mut indices = Vec::new(alloc);
    'entries: for number in 0..plan.entries {
        let entry = entry_of(alloc, plan.root, number)?;
        let index = enter_one(rt, ledger, &mut seat, entry)?;
        let Ok(()) = indices.push(index) else {
            return Err(LedgerFault::Memory);
        };
        if number < plan.looks {
            ledger.look(rt, &mut seat);
        }
    }
    'looks: for _ in plan.entries..plan.looks {
        ledger.look(rt, &mut seat);
    }
    let mut seats = Vec::new(alloc);
    let Ok(()) = seats.push(seat) else {
        return Err(LedgerFault::Memory);
    };
    Ok(Turns { seats, indices })
}

/// Makes the calls of all threads, half of which are started by another thread. Requires a seat of the
/// ledger. Fails where an entry is refused.
pub fn all_turns<R: Threads + Wait + Sync>(
    rt: &R,
    alloc: Global,
    ledger: &SharedLedger,
    seat: Seat,
    plan: Plan,
) -> Result<Turns, LedgerFault>
    requires { seat.place.table_id ≡ ledger.now.board.shared.table_id }
    ensures { IfOk result (λ turns.
        All (λ seat. seat.place.table_id ≡ ledger.now.board.shared.table_id) turns.seats.items) }
{
    if plan.threads <= 1 {
        return own_turns(rt, alloc, ledger, seat, plan);
    }
    let mut seat = seat;
    let other = ledger.split(&mut seat);
    let half = plan.threads / 2;
    let rest = plan.threads - half;
    let (low, high) = join(
        rt,
        || -> Result<Turns, LedgerFault>
            requires { IsSync R.row × (seat.place.table_id ≡ ledger.now.board.shared.table_id) }
            ensures { IfOk result (λ turns.
                All (λ seat. seat.place.table_id ≡ ledger.entry.now.board.shared.table_id) turns.seats.items) }
        {
            let first = Plan {
                threads: half,
                ..plan
            };
            all_turns(rt, alloc, ledger, seat, first)
        },
        || -> Result<Turns, LedgerFault>
            requires { IsSync R.row × (other.place.table_id ≡ ledger.now.board.shared.table_id) }
            ensures { IfOk result (λ turns.
                All (λ seat. seat.place.table_id ≡ ledger.entry.now.board.shared.table_id) turns.seats.items) }
        {
            let root = plan.root.saturating_add(half);
            let others = Plan {
                threads: rest,
                root,
                ..plan
            };
            all_turns(rt, alloc, ledger, other, others)
        },
    );
    both(low?, high?)
}

/// Returns what both leave.
fn both(low: Turns, high: Turns) -> Result<Turns, LedgerFault>
    ensures { IfOk result (λ turns. turns.seats.items ≡ low.seats.items ++ high.seats.items) }
{
    let Turns { seats, indices } = low;
    let mut more = high;
    let mut seats = seats;
    let mut indices = indices;
    let Ok(()) = seats.append(&mut more.seats) else {
        return Err(LedgerFault::Memory);
    };
    let Ok(()) = indices.append(&mut more.indices) else {
        return Err(LedgerFault::Memory);
    };
    Ok(Turns { seats, indices })
}

/// Returns whether the entries of each thread's root have the numbers from 0 on.
pub fn are_in_order(alloc: Global, ledger: &Ledger, threads: usize) -> Result<bool, LedgerFault> {
    let Ok(mut next) = vec![in alloc; 0u32; threads] else {
        return Err(LedgerFault::Memory);
    };
    'entries: for index in 0..ledger.len() {
        let Some(entry) = ledger.entry(index) else {
            return Ok(false);
        };
        let Some(place) = next.get_mut((entry.root as usize).wrapping_sub(1)) else {
            return Ok(false);
        };
        let Some(number) = entry.path.as_slice().first() else {
            return Ok(false);
        };
        if *number != *place {
            return Ok(false);
        }
        *place = number.saturating_add(1);
    }
    Ok(true)
}

/// Returns whether the indices are those below the length, each once.
pub fn are_each_once(alloc: Global, indices: &[u32], len: u32) -> Result<bool, LedgerFault> {
    let Ok(mut seen) = vec![in alloc; false; len as usize] else {
        return Err(LedgerFault::Memory);
    };
    'indices: for index in indices.iter() {
        let Some(place) = seen.get_mut(*index as usize) else {
            return Ok(false);
        };
        if *place {
            return Ok(false);
        }
        *place = true;
    }
    Ok(indices.len() == len as usize)
}
