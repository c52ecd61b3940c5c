//! How a thread of a run takes a step.
ghost use Rattle.std.specs.Prelude.{◌≡◌, ◌<◌, ◌≤◌, ◌+◌, ◌↔◌, ℕ, IsTrue, None, Some, is_some, length, option_map, option_and_then, IfOk, IfErr, IfSome, OnOk, OnErr};
ghost use Rattle.ompt_events.specs.Limits.{max_records};
ghost use Rattle.credit_ledger.specs.Places.{ledger_id};
ghost use Rattle.scripts.specs.Scripts.{IsScript, IsShortScript};
ghost use Rattle.scripts.specs.declared.run_fault.RunFault.TheVariants.{Memory};
ghost use Rattle.scripts.specs.RunCalls.{first_given, second_given};
ghost use Rattle.scripts.specs.HandOvers.{ComesAfter};
ghost use Rattle.scripts.specs.Progress.{refused_at};
ghost use Rattle.scripts.specs.declared.run_fault.Stop.TheVariants.{Refused};
ghost use Rattle.scripts.specs.Parts.{ArePlaces, AreUses, AreValuesAfter, HasRun, IsNext, IsStopAt};
ghost use Rattle.scripts.specs.Parts.{AreSeats, IsSameThread, AreLeft, AreMet, HasMet, HasHeard, HasSeenSame, IsAware, IsDone, IsHeard, IsMet, IsUsed, awaited_at, is_other};
ghost use Rattle.scripts.specs.Parts.{IsSameRun, IsStepOf, IsTaken, fault_of_call};

use crate::board::{Awaited, Board, Context, Held, Left, Pair, RunNote, Taken, Told};
use crate::calling::{Values, call};
use crate::run_fault::{RunFault, Stop};
use crate::uses::{Use, UseTable, Uses};
use crate::{Script, Step};
use callbacks::{CallFault, Recorder, TaskData};
use credit_ledger::SharedLedger;
use std::alloc::{AllocError, Global};
use std::marker::PhantomData;
use std::sync::{Condvar, Mutex, Wait};
use task_states::row;

/// A step that is taken next, with the values of the tasks that it is given.
#[derive(Drop)]
struct Ready<'a> {
    /// The place of the step in the script.
    at: usize,
    step: &'a Step,
    uses: Uses,
    values: Values,
}

/// What the threads of a run share.
#[derive(Drop)]
pub(crate) struct Shared<C: Context> {
    pub alloc: Global,
    pub ledger: SharedLedger,
    pub script: Script,
    /// The places of the steps of each thread.
    pub threads: Vec<Vec<u32>>,
    pub uses: UseTable,
    pub board: Mutex<Board<C>>,
    /// By number of the thread, the condition on which it waits until it may go on.
    pub changes: Vec<Condvar>,
    pub ghost of_the_ledger: { ledger_id ledger ≡ C.ledger },
    pub ghost of_the_script: { script ≡ C.script },
    pub ghost is_script: { IsScript C.script.steps },
    pub ghost is_short: { IsShortScript C.script.steps },
    pub ghost of_capacity: { C.script.capacity ≡ max_records },
    pub ghost by_thread: { ArePlaces C.script.steps (length C.script.steps) threads.items },
    pub ghost by_step: { AreUses C.script.steps (length C.script.steps) uses.uses.items },
    pub ghost few: { length threads.items ≤ 256 },
    pub ghost seated: { AreSeats threads.items C.seats },
    pub ghost as_many: { length changes.items ≡ length threads.items },
}

impl<C: Context> Shared<C> {
    /// Returns what the threads of a run share before it begins. Fails only when out of memory, and returns
    /// the script.
    pub(crate) fn new(
        alloc: Global,
        ledger: SharedLedger,
        script: Script,
        threads: Vec<Vec<u32>>,
    ) -> Result<Shared<C>, (Script, RunFault)>
        requires ledger { ledger_id ledger ≡ C.ledger }
        requires script { script ≡ C.script }
        requires threads { ArePlaces C.script.steps (length C.script.steps) threads.items }
        requires few { length threads.items ≤ 256 }
        requires seats { AreSeats threads.items C.seats }
        ensures ledger { IfOk result (λ shared. shared.ledger ≡ ledger) }
        ensures script { IfOk result (λ shared. shared.script ≡ script) }
        ensures returned { IfErr result (λ refused. refused.0 ≡ script) }
        ensures memory { IfErr result (λ refused. refused.1 ≡ Memory) }
    {
        match tables(alloc, script.steps(), threads.as_slice()) {
            Ok((uses, board, changes)) => Ok(Shared {
                alloc,
                ledger,
                script,
                threads,
                uses,
                board: Mutex::new(board),
                changes,
            }),
            Err(AllocError) => Err((script, RunFault::Memory)),
        }
    }

    /// Takes the step at this place, once all that it waits for is done. Fails if the recorder or the ledger
    /// refuses the call, which ends the run without a trace, or when out of memory; or if the run ends for
    /// another thread, before this step.
    pub(crate) fn take_step<R: Wait>(
        &self,
        rt: &R,
        recorder: &mut Recorder,
        at: usize,
    ) -> Result<(), Stop>
        requires ledger { recorder.old.ledger ≡ C.ledger }
        requires step { IsStepOf C.script.steps at recorder.old.thread }
        requires run { HasRun C.script at recorder.old }
        requires aware { IsAware C.script C.seats at recorder.old }
        ensures same { IsSameThread recorder.old recorder.new }
        ensures accepted { OnOk result (refused_at C.script at ≡ None) }
        ensures taken { OnOk result (HasRun C.script (at + 1) recorder.new) }
        ensures aware { OnOk result (IsAware C.script C.seats (at + 1) recorder.new) }
        ensures unchanged { OnErr result (HasRun C.script at recorder.new) }
        ensures stop { IfErr result (IsStopAt C.script at recorder.new) }
    {
        let step = &self.script.steps()[at];
        let uses = self.uses.at(at);
        let after = self.awaited(step);
        let Some(taken) = self.await_tasks(rt, step, uses, after) else {
            return Err(Stop::Ended { line: step.line });
        };
        let Taken { pair, note } = taken;
        let values = self.met(rt, recorder, pair);
        self.hear(recorder, note);
        self.take_ready(
            rt,
            recorder,
            Ready {
                at,
                step,
                uses,
                values,
            },
        )
    }

    /// Takes the step. Fails if the recorder or the ledger refuses the call, which ends the run without a trace,
    /// or when out of memory.
    fn take_ready<R: Wait>(&self, rt: &R, recorder: &mut Recorder, ready: Ready) -> Result<(), Stop>
        requires ledger { recorder.old.ledger ≡ C.ledger }
        requires next { IsNext C.script ready.at ready.step.now recorder.old ready.values.first
            ready.values.second }
        requires uses { IsUsed C.script.steps (length C.script.steps) ready.at ready.uses }
        requires met { HasMet C.script C.seats ready.at ready.step.now recorder.old }
        requires heard { HasHeard C.script C.seats ready.at recorder.old }
        ensures same { IsSameThread recorder.old recorder.new }
        ensures accepted { OnOk result (refused_at C.script ready.entry.at ≡ None) }
        ensures taken { OnOk result (HasRun C.script (ready.entry.at + 1) recorder.new) }
        ensures aware { OnOk result (IsAware C.script C.seats (ready.entry.at + 1) recorder.new) }
        ensures unchanged { OnErr result (HasRun C.script ready.entry.at recorder.new) }
        ensures stop { IfErr result (IsStopAt C.script ready.entry.at recorder.new) }
    {
        let Ready {
            at,
            step,
            uses,
            mut values,
        } = ready;
        match call(recorder, &self.ledger, rt, &step.body, &mut values) {
            Ok(()) => {
                let left = self.left(recorder, uses, values, at as u32 + 1);
                self.finish(rt, step, uses, left);
                Ok(())
            }
            Err(fault) => Err(self.refuse(rt, step, fault)),
        }
    }

    /// Ends the run without a trace, since the call of the step failed, and returns that.
    fn refuse<R: Wait>(&self, rt: &R, step: &Step, fault: CallFault) -> Stop
        ensures { result ≡ Refused (fault_of_call step.now.line fault) }
    {
        let fault = RunFault::of_call(step.line, fault);
        self.stop(rt, fault.line());
        Stop::Refused(fault)
    }

    /// Ends the run without a trace: no step on this line or a later one is taken any more. Wakes all threads.
    pub(crate) fn stop<R: Wait>(&self, rt: &R, line: u32) {
        self.board.lock(rt).stop(line);
        for thread in 0..self.changes.len() {
            self.changes[thread].notify_one();
        }
    }

    /// Returns the step that this one comes after, if it names one.
    fn awaited(&self, step: &Step) -> Option<Awaited>
        ensures { (first at : ℕ) → (c : ComesAfter C.script.steps first at) → c.step ≡ step.now
            → result ≡ Some (awaited_at c.before.thread first) }
    {
        let (thread, number) = step.after?;
        let at = row(self.threads.as_slice(), usize::from(thread)).get(number as usize)?;
        Some(Awaited { thread, at: *at })
    }

    /// Waits until all that the step waits for is done, takes its tasks, and returns them with a note that tells of
    /// the step that it comes after. Returns none if the run ends before the step.
    fn await_tasks<R: Wait>(
        &self,
        rt: &R,
        step: &Step,
        uses: Uses,
        after: Option<Awaited>,
    ) -> Option<Taken<C>>
        requires { step.now.thread < length self.now.changes.items }
        ensures first { IfSome result (λ taken. IsTaken (first_given step.now.body)
            (option_map (λ u. u.since) uses.first) (option_map (λ h. (h.since, h.task)) taken.pair.first)) }
        ensures second { IfSome result (λ taken. IsTaken (second_given step.now.body)
            (option_map (λ u. u.since) uses.second) (option_map (λ h. (h.since, h.task)) taken.pair.second)) }
        ensures after { IfSome result (λ taken.
            IsDone C.script C.seats after (option_map (λ n. n.note) taken.note)) }
    {
        let change = &self.changes[usize::from(step.thread)];
        let mut board = self.board.lock(rt);
        board.expect(step.thread, after);
        for _ in rt.forever() {
            if board.ends_before(step.line) {
                return None;
            }
            if let Some(taken) = board.take(&self.ledger, step, uses, after) {
                return Some(taken);
            }
            board = change.wait(rt, board);
        }
        None
    }

    /// Returns the values of the tasks, after their notes are met.
    fn met<R: Wait>(&self, rt: &R, recorder: &mut Recorder, pair: Pair<C>) -> Values
        requires { recorder.old.ledger ≡ C.ledger }
        ensures recorder { IsSameRun recorder.old recorder.new }
        ensures met { AreMet recorder.old (option_and_then (λ h. option_map (λ n. n.note) h.note) pair.first)
            (option_and_then (λ h. option_map (λ n. n.note) h.note) pair.second) recorder.new }
        ensures first { result.first ≡ option_map (λ h. h.task) pair.first }
        ensures second { result.second ≡ option_map (λ h. h.task) pair.second }
    {
        let Pair { first, second } = pair;
        Values {
            alloc: self.alloc,
            first: self.meet(rt, recorder, first),
            second: self.meet(rt, recorder, second),
        }
    }

    /// Returns the value of a task, after its note is met.
    fn meet<R: Wait>(
        &self,
        rt: &R,
        recorder: &mut Recorder,
        held: Option<Held<C>>,
    ) -> Option<TaskData>
        requires { recorder.old.ledger ≡ C.ledger }
        ensures recorder { IsSameRun recorder.old recorder.new }
        ensures met { IsMet recorder.old (option_and_then (λ h. option_map (λ n. n.note) h.note) held) recorder.new }
        ensures value { result ≡ option_map (λ h. h.task) held }
    {
        let Held { task, note, .. } = held?;
        if let Some(RunNote { note, .. }) = note {
            recorder.meet(&self.ledger, rt, note);
        }
        Some(task)
    }

    /// Learns what the note tells, if there is one. It counts from the next call on the ledger on.
    fn hear(&self, recorder: &mut Recorder, note: Option<RunNote<C>>)
        requires { recorder.old.ledger ≡ C.ledger }
        ensures { IsHeard recorder.old (option_map (λ n. n.note) note) recorder.new }
    {
        if let Some(RunNote { note, .. }) = note {
            recorder.hear(&self.ledger, note);
        }
    }

    /// Returns the tasks that a step leaves, each with a note if the next step that names it belongs to
    /// another thread, and what the thread tells if a later step comes after this one. The first `since` steps of
    /// the script are those up to this one.
    fn left(&self, recorder: &mut Recorder, uses: Uses, values: Values, since: u32) -> Left<C>
        requires ledger { recorder.old.ledger ≡ C.ledger }
        requires aware { IsAware C.script C.seats since recorder.old }
        requires first { AreValuesAfter C.script since values.first }
        requires second { AreValuesAfter C.script since values.second }
        requires first_use { AreLeft C.script since recorder.old.thread uses.first values.first }
        requires second_use { AreLeft C.script since recorder.old.thread uses.second values.second }
        ensures recorder { IsSameRun recorder.old recorder.new }
        ensures aware { IsAware C.script C.seats since recorder.new }
    {
        let Values { first, second, .. } = values;
        let pair = Pair {
            first: self.hold(recorder, uses.first, first, since),
            second: self.hold(recorder, uses.second, second, since),
        };
        let told = self.told(recorder, uses.is_awaited, since);
        Left { pair, told }
    }

    /// Returns what the thread tells of its steps, of which the last is that up to which the script has `since`
    /// steps, if a later step comes after that one.
    fn told(&self, recorder: &mut Recorder, is_awaited: bool, since: u32) -> Option<Told<C>>
        requires ledger { recorder.old.ledger ≡ C.ledger }
        requires aware { IsAware C.script C.seats since recorder.old }
        ensures recorder { IsSameRun recorder.old recorder.new }
        ensures aware { IsAware C.script C.seats since recorder.new }
    {
        if !is_awaited {
            return None;
        }
        let thread = recorder.thread();
        let note = self.note(recorder);
        Some(Told {
            thread,
            since,
            note,
        })
    }

    /// Returns the task, with a note if the next step that names it belongs to another thread. Returns none
    /// if no step names it any more.
    fn hold(
        &self,
        recorder: &mut Recorder,
        used: Option<Use>,
        task: Option<TaskData>,
        since: u32,
    ) -> Option<Held<C>>
        requires ledger { recorder.old.ledger ≡ C.ledger }
        requires aware { IsAware C.script C.seats since recorder.old }
        requires value { AreValuesAfter C.script since task }
        requires left { AreLeft C.script since recorder.old.thread used task }
        ensures recorder { IsSameRun recorder.old recorder.new }
        ensures aware { IsAware C.script C.seats since recorder.new }
    {
        let task = task?;
        let used = used?;
        let note = self.note_for(recorder, used.next);
        Some(Held { task, since, note })
    }

    /// Returns a note of what the recorder has seen, if the next step that names a task is of this thread and
    /// not of the recorder's.
    fn note_for(&self, recorder: &mut Recorder, next: Option<u8>) -> Option<RunNote<C>>
        requires ledger { recorder.old.ledger ≡ C.ledger }
        ensures recorder { IsSameRun recorder.old recorder.new }
        ensures seat { HasSeenSame recorder.old recorder.new }
        ensures told { IfSome result (λ n. n.note.seat.seen ≡ recorder.old.seat.seen) }
        ensures wanted { IsTrue (is_some result) ↔ IsTrue (is_other next recorder.old.thread) }
    {
        if !is_other(next, recorder.thread()) {
            return None;
        }
        Some(self.note(recorder))
    }

    /// Returns a note of what the recorder has seen.
    fn note(&self, recorder: &mut Recorder) -> RunNote<C>
        requires ledger { recorder.old.ledger ≡ C.ledger }
        ensures recorder { IsSameRun recorder.old recorder.new }
        ensures seat { HasSeenSame recorder.old recorder.new }
        ensures told { result.note.seat.seen ≡ recorder.old.seat.seen }
    {
        RunNote {
            note: recorder.note(&self.ledger),
            of: PhantomData,
        }
    }

    /// Notes what the step leaves, and wakes the threads that wait for it.
    fn finish<R: Wait>(&self, rt: &R, step: &Step, uses: Uses, left: Left<C>) {
        self.board.lock(rt).finish(uses, left);
        self.tell_next(uses.first);
        self.tell_next(uses.second);
        if uses.is_awaited {
            self.tell_waiting(rt, step.thread);
        }
    }

    /// Wakes the threads whose next step comes after the last one that this thread has done.
    fn tell_waiting<R: Wait>(&self, rt: &R, done: u8) {
        let board = self.board.lock(rt);
        for thread in 0..self.changes.len() {
            if board.awaits(thread, done) {
                self.changes[thread].notify_one();
            }
        }
    }

    /// Wakes the thread of the next step that names the task.
    fn tell_next(&self, used: Option<Use>) {
        if let Some(
            Use {
                next: Some(thread),
                ..
            },
        ) = used
            && let Some(change) = self.changes.get(usize::from(thread))
        {
            change.notify_one();
        }
    }
}

/// Returns whether there is a next thread, and it is another one.
fn is_other(next: Option<u8>, thread: u8) -> bool
    ensures { result ≡ is_other next thread }
{
    match next {
        Some(next) => next != thread,
        None => false,
    }
}

/// Returns the uses of the steps, the board at the start, and for each thread a condition to wait on. The
/// second table has the places of each thread's steps.
fn tables<C: Context>(
    alloc: Global,
    steps: &[Step],
    threads: &[Vec<u32>],
) -> Result<(UseTable, Board<C>, Vec<Condvar>), AllocError>
    requires rules { IsScript steps.now }
    requires short { IsShortScript steps.now }
    ensures uses { IfOk result (λ made. AreUses steps.now (length steps.now) made.0.uses.items) }
    ensures changes { IfOk result (λ made. length made.2.items ≡ length threads.now) }
{
    let uses = UseTable::of(alloc, steps, threads)?;
    let board = Board::new(alloc, uses.tasks(), threads.len())?;
    let changes = conditions(alloc, threads.len())?;
    Ok((uses, board, changes))
}

/// Returns this many conditions to wait on.
fn conditions(alloc: Global, count: usize) -> Result<Vec<Condvar>, AllocError>
    ensures { IfOk result (λ conditions. length conditions.items ≡ count) }
{
    let mut conditions = Vec::with_capacity(alloc, count)?;
    for _ in 0..count {
        conditions.push(Condvar::new())?;
    }
    Ok(conditions)
}
