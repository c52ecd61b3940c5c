//! Two seats of a shared ledger, of which one is refused memory where memory is short.
ghost use Rattle.std.specs.Prelude.{◌≡◌, IfOk};

use crate::again::{again, tell_refused};
use crate::threads::entry_of;
use anyhow::{Result, bail};
use credit_ledger::{Seat, SharedLedger, Span};
use ompt_events::Path;
use std::sync::Wait;

/// Prints what two seats are told: one enters an entry, the other one is told of it, looks and asks whether
/// it holds the task, and both are closed. A call that is refused memory must have given the turn back and
/// left the ledger as it was; it is made again.
pub fn each<R: Wait + Print + AllocGlobal>(rt: &R) -> Result<()> {
    let alloc = rt.alloc();
    let (ledger, mut first) = begun(rt)?;
    let mut second = ledger.split(&mut first);
    let index = entered(rt, &ledger, &mut first, &mut second)?;
    let note = ledger.split(&mut first);
    let joined = ledger.join(rt, &mut second, note);
    let looked = ledger.look(rt, &mut second);
    let (len, is_held) = whole(rt, &ledger, &mut second, &mut first)?;
    let mut seats = Vec::new(alloc);
    seats.push(first)?;
    seats.push(second)?;
    let count = ledger.close(rt, seats).len();
    println!(rt;
        "one thread: index {index}, joined {joined}, look {looked}, whole ({len}, {is_held}), {count} entry"
    )?;
    Ok(())
}

/// Returns a ledger and its first seat.
fn begun<R: Print + AllocGlobal>(rt: &R) -> Result<(SharedLedger, Seat)>
    ensures { IfOk result (λ made. made.1.place.table_id ≡ made.0.board.shared.table_id) }
{
    Ok(again!(rt, _, SharedLedger::new(rt.alloc()))?)
}

/// Enters the first entry by this seat, and tells its index.
fn entered<R: Wait + Print + AllocGlobal>(
    rt: &R,
    ledger: &SharedLedger,
    seat: &mut Seat,
    other: &mut Seat,
) -> Result<u32>
    requires seat { seat.old.place.table_id ≡ ledger.now.board.shared.table_id }
    requires other { other.old.place.table_id ≡ ledger.now.board.shared.table_id }
    ensures seat { seat.new.place.table_id ≡ seat.old.place.table_id }
    ensures other { other.new.place.table_id ≡ other.old.place.table_id }
{
    let entry = entry_of(rt.alloc(), 1, 0)?;
    let (entry, fault) = match ledger.enter(rt, seat, entry) {
        Ok(receipt) => return Ok(receipt.index),
        Err(refusal) => refusal,
    };
    check_turn(rt, ledger, other, 0)?;
    tell_refused(rt)?;
    match ledger.enter(rt, seat, entry) {
        Ok(receipt) => Ok(receipt.index),
        Err(_) => bail!("{fault}"),
    }
}

/// Returns how many entries there are, and whether they hold the only task, by this seat.
fn whole<R: Wait + Print + AllocGlobal>(
    rt: &R,
    ledger: &SharedLedger,
    seat: &mut Seat,
    other: &mut Seat,
) -> Result<(u32, bool)>
    requires seat { seat.old.place.table_id ≡ ledger.now.board.shared.table_id }
    requires other { other.old.place.table_id ≡ ledger.now.board.shared.table_id }
    ensures seat { seat.new.place.table_id ≡ seat.old.place.table_id }
    ensures other { other.new.place.table_id ≡ other.old.place.table_id }
{
    let span = Span {
        from: 0,
        to: 1,
        root: 1,
        path: Path::from_vec(Vec::new(rt.alloc())),
    };
    if let Ok(whole) = ledger.whole(rt, seat, &span) {
        return Ok(whole);
    }
    check_turn(rt, ledger, other, 1)?;
    tell_refused(rt)?;
    Ok(ledger.whole(rt, seat, &span)?)
}

/// Fails unless another seat's look finds so many entries. It waits for ever where a refused call has kept
/// the turn.
fn check_turn<R: Wait>(rt: &R, ledger: &SharedLedger, seat: &mut Seat, len: u32) -> Result<()>
    requires { seat.old.place.table_id ≡ ledger.now.board.shared.table_id }
    ensures { seat.new.place.table_id ≡ seat.old.place.table_id }
{
    if ledger.look(rt, seat) != len {
        bail!("the refused call changed the ledger");
    }
    Ok(())
}
