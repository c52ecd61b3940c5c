//! The calls of a ledger that threads share, beside a list behind a lock and a ledger of one thread.
ghost use Rattle.std.specs.Prelude.{◌≡◌};
ghost use Rattle.credit_ledger.specs.Places.{ledger_id, seat_id};

use crate::stopwatch::threads::Plan;
use crate::threads::entry_of;
use anyhow::Result;
use credit_ledger::{Entry, Ledger, Seat, SharedLedger};
use std::alloc::Global;
use std::rt::Clock;
use std::sync::{Mutex, Wait};
use std::time::{Duration, Instant};

/// Enters the entries of the plan. Requires a seat of the ledger. Fails where an entry is refused.
pub fn enters<R: Wait>(
    rt: &R,
    alloc: Global,
    ledger: &SharedLedger,
    seat: Seat,
    plan: Plan,
) -> Result<()>
    requires { seat_id seat ≡ ledger_id ledger.now }
{
    let mut seat = seat;
    'entries: for number in 0..plan.count {
        let entry = entry_of(alloc, plan.root, number)?;
        if let Err((_, fault)) = ledger.enter(rt, &mut seat, entry) {
            return Err(fault.into());
        }
    }
    Ok(())
}

/// Asks so often how long the ledger is. Requires a seat of the ledger.
pub fn looks<R: Wait>(rt: &R, ledger: &SharedLedger, seat: Seat, count: u32)
    requires { seat_id seat ≡ ledger_id ledger.now }
{
    let mut seat = seat;
    'looks: for _ in 0..count {
        ledger.look(rt, &mut seat);
    }
}

/// Pushes the same entries onto a list. Fails where memory is refused.
pub fn pushes<R: Wait>(rt: &R, alloc: Global, list: &Mutex<Vec<Entry>>, plan: Plan) -> Result<()> {
    for number in 0..plan.count {
        let entry = entry_of(alloc, plan.root, number)?;
        list.lock(rt).push(entry)?;
    }
    Ok(())
}

/// Asks so often how long the list is.
pub fn lengths<R: Wait>(rt: &R, list: &Mutex<Vec<Entry>>, count: u32) {
    for _ in 0..count {
        let _len = list.lock(rt).len();
    }
}

/// Returns how long the entries of so many roots, so many of each, take in a ledger of one thread.
pub fn in_own_ledger<R: Clock + AllocGlobal>(rt: &R, count: u32, roots: u64) -> Result<Duration> {
    let mut ledger = Ledger::new(rt.alloc());
    let start = Instant::now(rt)?;
    'numbers: for number in 0..count {
        'roots: for root in 0..roots {
            let entry = entry_of(rt.alloc(), root, number)?;
            if let Err((_, fault)) = ledger.enter(entry) {
                return Err(fault.into());
            }
        }
    }
    Ok(start.elapsed(rt)?)
}
