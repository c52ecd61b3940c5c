//! Work that threads do side by side, and how long it takes.
ghost use Rattle.std.specs.Prelude.{◌≡◌};
ghost use Rattle.std.specs.Thread.{IsSync};
ghost use Rattle.credit_ledger.specs.Places.{ledger_id, seat_id};

use crate::stopwatch::{ledger_calls, recorder_calls};
use anyhow::{Result, bail};
use callbacks::Recorder;
use credit_ledger::{Entry, Seat, SharedLedger};
use ompt_events::Record;
use std::alloc::Global;
use std::rt::Clock;
use std::sync::{Mutex, Wait};
use std::thread::{Threads, join};
use std::time::{Duration, Instant};

/// What each of some threads does, so many times; their roots have the numbers from `root` on.
#[derive(Clone, Copy)]
pub struct Plan {
    pub work: Work,
    pub count: u32,
    pub root: u64,
    pub threads: u64,
}

/// A piece of work.
#[derive(Clone, Copy)]
pub enum Work {
    /// An entry goes into the shared ledger.
    Enter,
    /// The length of the shared ledger is asked for.
    Look,
    /// An entry goes to a list behind a lock.
    Push,
    /// The length of that list is asked for.
    Len,
    /// The record of a creation goes to a list behind a lock.
    List,
    /// A recorder of the shared ledger makes calls.
    Recorder(Calls),
}

/// The calls of a recorder in one piece of work.
#[derive(Clone, Copy)]
pub enum Calls {
    /// A root creates a task: no call asks the ledger.
    Create,
    /// It switches to another task and back.
    Switch,
    /// It creates a task, switches to it, and the task is complete.
    Finish,
    /// It begins and ends a taskwait.
    Region,
}

impl Work {
    /// Returns the work of this name, or none.
    fn from_name(name: &str) -> Option<Work> {
        Some(match name {
            "enter" => Work::Enter,
            "look" => Work::Look,
            "push" => Work::Push,
            "len" => Work::Len,
            "list" => Work::List,
            "create" => Work::Recorder(Calls::Create),
            "switch" => Work::Recorder(Calls::Switch),
            "finish" => Work::Recorder(Calls::Finish),
            "region" => Work::Recorder(Calls::Region),
            _ => return None,
        })
    }
}

/// Prints how many nanoseconds the threads take, side by side, until each has done one piece of the work, on
/// an average over so many pieces. The work `one-enter` is that of all threads, done by one in a ledger of
/// its own.
pub fn timed<R: Threads + Wait + Sync + Clock + Print + AllocGlobal>(
    rt: &R,
    name: &str,
    count: u32,
    threads: u64,
) -> Result<()> {
    let took = match Work::from_name(name) {
        Some(work) => {
            let plan = Plan {
                work,
                count,
                root: 1,
                threads,
            };
            side_by_side(rt, plan)?
        }
        None if name == "one-enter" => ledger_calls::in_own_ledger(rt, count, threads)?,
        None => bail!(
            "the work must be enter, look, one-enter, push, len, create, switch, finish, region or list"
        ),
    };
    if count > 0 {
        println!(rt; "{}", took.as_nanos() / u128::from(count))?;
    }
    Ok(())
}

/// Returns how long the threads of the plan take.
fn side_by_side<R: Threads + Wait + Sync + Clock + AllocGlobal>(
    rt: &R,
    plan: Plan,
) -> Result<Duration> {
    let alloc = rt.alloc();
    let (ledger, seat) = SharedLedger::new(alloc)?;
    let entries = Mutex::new(Vec::new(alloc));
    let records = Mutex::new(Vec::new(alloc));
    let shared = Shared {
        alloc,
        ledger: &ledger,
        entries: &entries,
        records: &records,
    };
    let start = Instant::now(rt)?;
    all(rt, &shared, seat, plan)?;
    Ok(start.elapsed(rt)?)
}

/// What the threads share.
#[derive(Clone, Copy)]
struct Shared<'a> {
    alloc: Global,
    ledger: &'a SharedLedger,
    entries: &'a Mutex<Vec<Entry>>,
    records: &'a Mutex<Vec<Record>>,
}

/// Does the work of all threads. Half of them are started by another thread.
fn all<R: Threads + Wait + Sync>(rt: &R, shared: &Shared, seat: Seat, plan: Plan) -> Result<()>
    requires { seat_id seat ≡ ledger_id shared.now.ledger.now }
{
    if plan.threads <= 1 {
        return own(rt, shared, seat, plan);
    }
    let mut seat = seat;
    let other = shared.ledger.split(&mut seat);
    let half = plan.threads / 2;
    let first = Plan {
        threads: half,
        ..plan
    };
    let rest = Plan {
        threads: plan.threads - half,
        root: plan.root.saturating_add(half),
        ..plan
    };
    let (low, high) = join(
        rt,
        || -> Result<()>
            requires { IsSync R.row × (seat_id other ≡ ledger_id shared.now.ledger.now) }
        { all(rt, shared, other, first) },
        || -> Result<()>
            requires { IsSync R.row × (seat_id seat ≡ ledger_id shared.now.ledger.now) }
        { all(rt, shared, seat, rest) },
    );
    low?;
    high
}

/// Does the work of one thread.
fn own<R: Wait>(rt: &R, shared: &Shared, seat: Seat, plan: Plan) -> Result<()>
    requires { seat_id seat ≡ ledger_id shared.now.ledger.now }
{
    match plan.work {
        Work::Enter => ledger_calls::enters(rt, shared.alloc, shared.ledger, seat, plan),
        Work::Look => {
            ledger_calls::looks(rt, shared.ledger, seat, plan.count);
            Ok(())
        }
        Work::Push => ledger_calls::pushes(rt, shared.alloc, shared.entries, plan),
        Work::Len => {
            ledger_calls::lengths(rt, shared.entries, plan.count);
            Ok(())
        }
        Work::List => recorder_calls::pushes(rt, shared.records, plan.count),
        Work::Recorder(calls) => {
            let recorder = Recorder::new(shared.alloc, 0, seat);
            recorder_calls::make(rt, shared.ledger, recorder, calls, plan)
        }
    }
}
