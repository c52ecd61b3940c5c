//! The run of a script.
ghost use Rattle.std.specs.Prelude.{◌≡◌, ◌⊎◌, ◌<◌, ◌≤◌, ◌++◌, ◌∷◌, [], All, IfOk, IfErr, IfSome, OnOk, None, Some, length, take};
ghost use Rattle.std.specs.Thread.{IsSync};
ghost use Rattle.credit_ledger.specs.Places.{ledger_id, seat_id, view_of};
ghost use Rattle.callbacks.specs.Gathered.{gathered, HaveOwnThreads, ArePaired, BelongTogether, IsWithinLimits, version_of};
ghost use Rattle.scripts.specs.Scripts.{IsScript, IsShortScript};
ghost use Rattle.callbacks.specs.declared.fault.CallFault.TheVariants as call;
ghost use Rattle.scripts.specs.Runs.{IsRunOf, IsRunFault};
ghost use Rattle.scripts.specs.Parts.{ArePlaces, AreSeats, AreOfLedger, IsOutcome, HaveEnded, HaveAllEnded, IsEarly, first_stop, seat_of, views_of};
ghost use Rattle.scripts.specs.declared.run_fault.RunFault.TheVariants.{Memory, Thread};
ghost use Rattle.scripts.specs.declared.run_fault.Stop.TheVariants.{Refused};

use crate::Script;
use crate::board::Context;
use crate::plan::places_by_thread;
use crate::run_fault::{RunFault, Stop, first_stop};
use crate::seats::seats_of;
use crate::shared::Shared;
use callbacks::{CallFault, Closed, Recorder, close_all, gather, gather_version_3};
use credit_ledger::{Seat, SharedLedger};
use ompt_events::Trace;
use std::alloc::Global;
use std::marker::{Brand, PhantomData};
use std::sync::Wait;
use std::thread::{Promise, PromisedHandle, Scope, Threads, scope, scope_env};
use task_states::row;

/// Makes the calls of a script, each thread of the script on a thread of its own, and returns the trace
/// that their recorders gather: one of version 3 if regions may lie inside others, else one of version 2. A
/// step waits until the step named by its `after` is done, and until all earlier steps that name one of its
/// tasks are done. Fails with the first refused call, in the order of the script: which call that is depends
/// on the script alone. If the run has no trace, it returns the script with the fault.
pub fn run<R: Threads + Wait + Sync>(
    rt: &R,
    alloc: Global,
    script: Script,
) -> Result<Trace, (Script, RunFault)>
    ensures trace { IfOk result (IsRunOf script) }
    ensures returned { IfErr result (λ refused. refused.0 ≡ script) }
    ensures fault { IfErr result (λ refused. IsRunFault script refused.1) }
{
    let Ok((ledger, seat)) = SharedLedger::new(alloc) else {
        return Err((script, RunFault::Memory));
    };
    let Ok(threads) = places_by_thread(alloc, script.steps()) else {
        return Err((script, RunFault::Memory));
    };
    let Ok(seats) = seats_of(alloc, &ledger, seat, threads.as_slice()) else {
        return Err((script, RunFault::Memory));
    };
    let ahead = Ahead {
        ledger,
        script,
        threads,
        seats,
    };
    let (script, ledger, outcomes) = recorded::<Brand, R>(rt, alloc, ahead)?;
    let Outcomes { recorders, stop } = outcomes;
    let Ok(closed) = close_all(alloc, ledger, rt, recorders) else {
        return Err((script, RunFault::Memory));
    };
    if let Some(stop) = stop {
        return Err((script, stop.fault()));
    }
    match trace_of(alloc, script.nests(), closed) {
        Ok(trace) => Ok(trace),
        Err(_) => Err((script, RunFault::Memory)),
    }
}

/// Returns the trace of closed recorders: one of version 3 if regions may lie inside others, else one of
/// version 2. Fails only when out of memory.
fn trace_of(alloc: Global, nests: bool, closed: Closed) -> Result<Trace, CallFault>
    requires together { BelongTogether nests closed }
    requires within { IsWithinLimits (gathered closed.buffers) }
    ensures trace { IfOk result (λ trace. trace
        ≡ record { version = version_of nests; records = gathered closed.buffers }) }
    ensures memory { IfErr result (λ fault. fault ≡ call.Memory) }
{
    let made = if nests {
        gather_version_3(alloc, closed)
    } else {
        gather(alloc, closed)
    };
    match made {
        Ok(trace) => Ok(trace),
        Err((_, fault)) => Err(fault),
    }
}

/// A run before its threads are started.
#[derive(Drop)]
struct Ahead {
    ledger: SharedLedger,
    script: Script,
    /// The places of the steps of each thread.
    threads: Vec<Vec<u32>>,
    /// By number of the thread, its seat of the ledger, if it has a step.
    seats: Vec<Option<Seat>>,
}

/// Returns what the script's threads leave, after each made its calls.
fn recorded<C: Context + Send + Sync, R: Threads + Wait + Sync>(
    rt: &R,
    alloc: Global,
    ahead: Ahead,
) -> Result<(Script, SharedLedger, Outcomes), (Script, RunFault)>
    requires ledger { ledger_id ahead.ledger ≡ C.ledger }
    requires script { ahead.script ≡ C.script }
    requires threads { ArePlaces C.script.steps (length C.script.steps) ahead.threads.items }
    requires few { length ahead.threads.items ≤ 256 }
    requires seats { AreSeats ahead.threads.items C.seats }
    requires views { views_of ahead.seats.items ≡ C.seats }
    requires same_ledger { AreOfLedger C.ledger ahead.seats.items }
    ensures script { IfOk result (λ made. made.0 ≡ ahead.script) }
    ensures same_ledger { IfOk result (λ made. made.1 ≡ ahead.ledger) }
    ensures ledger { IfOk result (λ made. All (λ r. r.ledger ≡ C.ledger) made.2.recorders.items) }
    ensures run { IfOk result (λ made. IsEarly made.2.stop
        ⊎ HaveAllEnded C.script made.2.recorders.items made.2.stop) }
    ensures rules { IfOk result (λ made. IsScript C.script.steps) }
    ensures short { IfOk result (λ made. IsShortScript C.script.steps) }
    ensures returned { IfErr result (λ refused. refused.0 ≡ ahead.script) }
    ensures memory { IfErr result (λ refused. refused.1 ≡ Memory) }
{
    let Ahead {
        ledger,
        script,
        threads,
        seats,
    } = ahead;
    let shared: Shared<C> = Shared::new(alloc, ledger, script, threads)?;
    let outcomes = in_scope(rt, &shared, seats);
    let Shared { script, ledger, .. } = shared;
    Ok((script, ledger, outcomes))
}

/// What threads leave: their recorders, and the first stop, if one of them stopped before its last step.
#[derive(Drop)]
struct Outcomes {
    recorders: Vec<Recorder>,
    stop: Option<Stop>,
}

impl Outcomes {
    /// Returns those of no thread.
    fn new(alloc: Global) -> Outcomes
        ensures recorders { result.recorders.items ≡ [] }
        ensures stop { result.stop ≡ None }
    {
        Outcomes {
            recorders: Vec::new(alloc),
            stop: None,
        }
    }

    /// Returns those of threads of which one was not started.
    fn not_started(alloc: Global) -> Outcomes
        ensures recorders { result.recorders.items ≡ [] }
        ensures stop { result.stop ≡ Some (Refused Thread) }
    {
        Outcomes {
            recorders: Vec::new(alloc),
            stop: Some(Stop::Refused(RunFault::Thread)),
        }
    }

    /// Returns those of one more thread.
    fn with(self, outcome: Outcome) -> Outcomes
        ensures { ((result.recorders.items ≡ self.recorders.items ++ outcome.recorder ∷ [])
            × (result.stop ≡ first_stop self.stop outcome.stop))
            ⊎ ((result.recorders.items ≡ self.recorders.items) × (result.stop ≡ Some (Refused Memory))) }
    {
        let mut recorders = self.recorders;
        let stop = match recorders.push(outcome.recorder) {
            Ok(()) => first_stop(self.stop, outcome.stop),
            Err(_) => Some(Stop::Refused(RunFault::Memory)),
        };
        Outcomes { recorders, stop }
    }
}

/// Returns the outcomes of the script's threads.
fn in_scope<C: Context + Send + Sync, R: Threads + Wait + Sync>(
    rt: &R,
    shared: &Shared<C>,
    seats: Vec<Option<Seat>>,
) -> Outcomes
    requires views { views_of seats.items ≡ C.seats }
    requires ledger { AreOfLedger C.ledger seats.items }
    ensures ledger { All (λ r. r.ledger ≡ C.ledger) result.recorders.items }
    ensures run { IsEarly result.stop ⊎ HaveAllEnded C.script result.recorders.items result.stop }
{
    scope(
        scope_env(),
        rt,
        |scope| -> Outcomes
            requires sync { IsSync R.row }
            requires views { views_of seats.items ≡ C.seats }
            requires ledger { AreOfLedger C.ledger seats.items }
            ensures ledger { All (λ r. r.ledger ≡ C.ledger) result.recorders.items }
            ensures run { IsEarly result.stop
                ⊎ HaveEnded C.script C.seats (length C.seats) result.recorders.items result.stop }
        { run_below(scope, rt, shared, seats) },
    )
}

/// What a thread leaves: its recorder, and why it stopped before its last step, if it did.
#[derive(Drop)]
struct Outcome {
    recorder: Recorder,
    stop: Option<Stop>,
}

/// What a thread ensures: its recorder is of this thread, got the thread's seat, and has recorded its steps up
/// to the one at which it stopped, if it did.
#[derive(Clone, Copy)]
struct ByThread<C: Context> {
    thread: u8,
    of: PhantomData<C>,
}

impl<C: Context> Promise<Outcome> for ByThread<C> {
    ghost kept_by = { λ promise result.
        IsOutcome C.ledger C.script C.seats promise.thread result.recorder result.stop };
}

/// Runs the first threads, this many, with their seats, and returns their outcomes.
fn run_below<'s, E, C: Context + Send + Sync, R: Threads + Wait + Sync>(
    scope: &Scope<'s, E>,
    rt: &'s R,
    shared: &'s Shared<C>,
    seats: Vec<Option<Seat>>,
) -> Outcomes
    requires views { views_of seats.items ≡ take (length seats.items) C.seats }
    requires ledger { AreOfLedger C.ledger seats.items }
    ensures ledger { All (λ r. r.ledger ≡ C.ledger) result.recorders.items }
    ensures run { IsEarly result.stop
        ⊎ HaveEnded C.script C.seats (length seats.items) result.recorders.items result.stop }
{
    let mut seats = seats;
    let Some(last) = seats.pop() else {
        return Outcomes::new(shared.alloc);
    };
    let promise = ByThread {
        thread: seats.len() as u8,
        of: PhantomData,
    };
    let Some(seat) = last else {
        return run_below(scope, rt, shared, seats);
    };
    let Some(child) = start(scope, rt, shared, seat, promise) else {
        return Outcomes::not_started(shared.alloc);
    };
    let rest = run_below(scope, rt, shared, seats);
    rest.with(child.join(rt))
}

/// Starts a thread of the script, and returns its handle. If no thread can be started, ends the run without
/// a trace.
fn start<'s, E, C: Context + Send + Sync, R: Threads + Wait + Sync>(
    scope: &Scope<'s, E>,
    rt: &'s R,
    shared: &'s Shared<C>,
    seat: Seat,
    promise: ByThread<C>,
) -> Option<PromisedHandle<Outcome, ByThread<C>>>
    requires ledger { seat_id seat ≡ C.ledger }
    requires seat { seat_of C.seats promise.thread ≡ Some (view_of seat) }
    ensures { IfSome result (λ child. child.promise ≡ promise) }
{
    let thread = promise.thread;
    match scope.spawn_with(promise, move || run_thread(rt, shared, seat, thread)) {
        Ok(child) => Some(child),
        Err(_) => {
            shared.stop(rt, 0);
            None
        }
    }
}

/// Takes the steps of a thread, until one fails or the run ends, and returns the outcome.
fn run_thread<C: Context, R: Wait>(rt: &R, shared: &Shared<C>, seat: Seat, thread: u8) -> Outcome
    requires ledger { seat_id seat ≡ C.ledger }
    requires seat { seat_of C.seats thread ≡ Some (view_of seat) }
    ensures { IsOutcome C.ledger C.script C.seats thread result.recorder result.stop }
{
    let mut recorder = if shared.script.nests() {
        Recorder::for_version_3(shared.alloc, thread, seat)
    } else {
        Recorder::new(shared.alloc, thread, seat)
    };
    let places = row(shared.threads.as_slice(), usize::from(thread));
    for index in 0..places.len() {
        if let Err(stop) = shared.take_step(rt, &mut recorder, places[index] as usize) {
            return Outcome {
                recorder,
                stop: Some(stop),
            };
        }
    }
    Outcome {
        recorder,
        stop: None,
    }
}
