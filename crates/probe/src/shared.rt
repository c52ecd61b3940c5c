//! A ledger that threads share, and what it answers where they meet.
ghost use Rattle.std.specs.Prelude.{◌≡◌, IfOk};
ghost use Rattle.std.specs.Thread.{IsSync};

use crate::seats;
use crate::threads::{Plan, all_turns, are_each_once, are_in_order, enter_one, entry_of};
use anyhow::{Result, bail};
use credit_ledger::{Ledger, LedgerFault, Seat, SharedLedger};
use std::alloc::Global;
use std::sync::{Barrier, Wait};
use std::thread::{Threads, join};

/// Prints one line for each scenario.
pub fn each<R: Threads + Wait + Sync + Print + AllocGlobal>(rt: &R) -> Result<()> {
    seats::each(rt)?;
    at_barriers(rt)?;
    in_eight_threads(rt)?;
    handed_on(rt)
}

/// Has two threads each enter an entry between two barriers, and look after the second.
fn at_barriers<R: Threads + Wait + Sync + Print + AllocGlobal>(rt: &R) -> Result<()> {
    let (ledger, mut first) = SharedLedger::new(rt.alloc())?;
    let second = ledger.split(&mut first);
    let barrier = Barrier::new(2);
    let (one, other) = join(
        rt,
        || -> Result<(u32, u32), LedgerFault>
            requires { IsSync R.row × (second.place.table_id ≡ ledger.board.shared.table_id) }
        { meet(rt, &ledger, &barrier, second, 10) },
        || -> Result<(u32, u32), LedgerFault>
            requires { IsSync R.row × (first.place.table_id ≡ ledger.board.shared.table_id) }
        { meet(rt, &ledger, &barrier, first, 1) },
    );
    let (index, looked) = one?;
    let (other_index, other_looked) = other?;
    let low = index.min(other_index);
    let high = index.max(other_index);
    println!(rt; "two barriers: indices {low} and {high}, looks {looked} and {other_looked}")?;
    Ok(())
}

/// Enters the entry of a root's first child, and returns its index. Requires a seat of the ledger. Fails where
/// the entry is refused.
fn enter_first<R: Wait + AllocGlobal>(
    rt: &R,
    ledger: &SharedLedger,
    seat: &mut Seat,
    root: u64,
) -> Result<u32, LedgerFault>
    requires { seat.old.place.table_id ≡ ledger.now.board.shared.table_id }
    ensures { seat.new.place.table_id ≡ seat.old.place.table_id }
{
    let entry = entry_of(rt.alloc(), root, 0)?;
    enter_one(rt, ledger, seat, entry)
}

/// Enters an entry between two barriers, and tells its index and what a look after the second answers.
fn meet<R: Wait + AllocGlobal>(
    rt: &R,
    ledger: &SharedLedger,
    barrier: &Barrier,
    seat: Seat,
    root: u64,
) -> Result<(u32, u32), LedgerFault>
    requires { seat.place.table_id ≡ ledger.now.board.shared.table_id }
{
    let mut seat = seat;
    barrier.wait(rt);
    let entered = enter_first(rt, ledger, &mut seat, root);
    barrier.wait(rt);
    let looked = ledger.look(rt, &mut seat);
    Ok((entered?, looked))
}

/// Has eight threads enter 1,000 entries each, and look after each of the first 100.
fn in_eight_threads<R: Threads + Wait + Sync + Print + AllocGlobal>(rt: &R) -> Result<()> {
    let alloc = rt.alloc();
    let (ledger, seat) = SharedLedger::new(alloc)?;
    let plan = Plan {
        root: 1,
        threads: 8,
        entries: 1_000,
        looks: 100,
    };
    let turns = all_turns(rt, alloc, &ledger, seat, plan)?;
    let closed = ledger.close(rt, turns.seats);
    let count = counted(alloc, &closed, turns.indices.as_slice())?;
    println!(rt; "{count} entries, each thread's in order, each index once")?;
    Ok(())
}

/// Returns how many entries eight threads left. Fails unless each thread's are in its order, and each index
/// was told once.
fn counted(alloc: Global, closed: &Ledger, indices: &[u32]) -> Result<u32> {
    let count = closed.len();
    if !are_in_order(alloc, closed, 8)? {
        bail!("a thread's entries are not in its order");
    }
    if !are_each_once(alloc, indices, count)? {
        bail!("an index was told twice, or not at all");
    }
    Ok(count)
}

/// Has three threads, one after another, each enter an entry and give a new seat to the next.
fn handed_on<R: Threads + Wait + Sync + Print + AllocGlobal>(rt: &R) -> Result<()> {
    let (ledger, mut first) = SharedLedger::new(rt.alloc())?;
    let note = ledger.split(&mut first);
    let note = in_thread(rt, &ledger, note, 1)?;
    let note = in_thread(rt, &ledger, note, 2)?;
    let note = in_thread(rt, &ledger, note, 3)?;
    let joined = ledger.join(rt, &mut first, note);
    let looked = ledger.look(rt, &mut first);
    println!(rt; "three threads: joined {joined}, look {looked}")?;
    Ok(())
}

/// Lets another thread enter an entry with this seat, and takes the seat that it splits off.
fn in_thread<R: Threads + Wait + Sync + AllocGlobal>(
    rt: &R,
    ledger: &SharedLedger,
    seat: Seat,
    root: u64,
) -> Result<Seat, LedgerFault>
    requires { seat.place.table_id ≡ ledger.now.board.shared.table_id }
    ensures { IfOk result (λ note. note.place.table_id ≡ ledger.now.board.shared.table_id) }
{
    let (note, ()) = join(
        rt,
        || -> Result<Seat, LedgerFault>
            requires { IsSync R.row × (seat.place.table_id ≡ ledger.now.board.shared.table_id) }
            ensures { IfOk result (λ note. note.place.table_id ≡ ledger.entry.now.board.shared.table_id) }
        { enter_and_split(rt, ledger, seat, root) },
        || (),
    );
    note
}

/// Enters an entry, and splits off a seat that has seen it.
fn enter_and_split<R: Wait + AllocGlobal>(
    rt: &R,
    ledger: &SharedLedger,
    seat: Seat,
    root: u64,
) -> Result<Seat, LedgerFault>
    requires { seat.place.table_id ≡ ledger.now.board.shared.table_id }
    ensures { IfOk result (λ note. note.place.table_id ≡ ledger.now.board.shared.table_id) }
{
    let mut seat = seat;
    enter_first(rt, ledger, &mut seat, root)?;
    Ok(ledger.split(&mut seat))
}
