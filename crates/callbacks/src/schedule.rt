//! The calls by which tasks start, stop, are fulfilled and discarded (OpenMP 5.2, 19.5.2.10 and 19.5.2.18).
ghost use Rattle.std.specs.Prelude.{◌≡◌, ◌<◌, Option, None, Some, true, false, option_map, length, IfOk, IfErr, OnOk, OnErr, IsErr, IsSome, IsTrue, ℕ};
ghost use Rattle.std.specs.Borrow.{MutBor};
ghost use Rattle.ompt_events.specs.declared.records.Part.{Part};
ghost use Rattle.ompt_events.specs.declared.records.Part.TheVariants.{Whole};
ghost use Rattle.ompt_events.specs.declared.records.Body.TheVariants.{Cancel};
ghost use Rattle.ompt_events.specs.Flags.{cancel_flags, are_named};
ghost use Rattle.ompt_events.specs.Limits.{max_records};
ghost use Rattle.ompt_events.specs.Names.{status_part};
ghost use Rattle.credit_ledger.specs.Places.{ledger_id};
ghost use Rattle.callbacks.specs.Tasks.{TaskView, after_start, after_stop, entry_of_part, credit_of, entered_credit_of, MovesCredit};
ghost use Rattle.callbacks.specs.Calls.{call_fault};
ghost use Rattle.callbacks.specs.Standing.{standing_of};
ghost use Rattle.callbacks.specs.Recorders.{RecorderView, IsConcluded, IsFinishRefused, allowed};
ghost use Rattle.callbacks.specs.Schedules.{turns_of, schedule_body, may_start, may_schedule, is_by_parent, has_its_next, is_last_turn, schedule_refusal, IsStopped, IsStoppedBy, stopped_entry, left_of, schedule_of, switch_refusal, is_pause, LeavesNext, with_discarded, discard_body, may_discard, discard_refusal};

use crate::fault::CallFault;
use crate::recording::Recorder;
use crate::standing::{Standing, is_task};
use crate::task::TaskData;
use bitflags::Flags;
use credit_ledger::SharedLedger;
use ompt_events::{Body, BoxedClaim, CancelFlags, Part, Status, Turns};
use std::marker::Model;
use std::sync::Wait;

/// A task that stops or is fulfilled with a status, and the task that runs next, if there is one.
#[derive(Drop)]
pub struct Schedule<'a> {
    prior: &'a TaskData,
    status: Status,
    next: Option<&'a TaskData>,
}

impl<'a> Model for Schedule<'a> {
    ghost use Rattle.std.specs.Prelude.{option_map};
    ghost use Rattle.callbacks.specs.Schedules.{ScheduleView};

    ghost Value = { ScheduleView };

    ghost view = { λ schedule. record {
      prior = schedule.prior.now;
      status = schedule.status;
      next = option_map (λ n. n.now) schedule.next;
    } };
}

impl<'a> Schedule<'a> {
    /// Returns the schedule by which the task stops or is fulfilled, and none runs next.
    pub fn of(prior: &'a TaskData, status: Status) -> Schedule<'a>
        ensures { result ≡ schedule_of prior.now status None }
    {
        Schedule {
            prior,
            status,
            next: None,
        }
    }

    /// Returns the schedule by which the task stops, and the other one runs next.
    pub fn before(prior: &'a TaskData, status: Status, next: &'a TaskData) -> Schedule<'a>
        ensures { result ≡ schedule_of prior.now status (Some next.now) }
    {
        Schedule {
            prior,
            status,
            next: Some(next),
        }
    }

    /// Returns the body of its record, with the claim of a task that it finishes.
    fn body(&self, claim: Option<BoxedClaim>) -> Body
        ensures { result ≡ schedule_body self.now claim }
    {
        Body::TaskSchedule {
            status: self.status,
            turns: self.turns(),
            prior: self.prior.id(),
            next: self.next_id(),
            claim,
        }
    }

    /// Returns the id of the task that runs next.
    pub fn next_id(&self) -> Option<u64>
        ensures { result ≡ option_map (λ n. n.id) self.now.next }
    {
        match self.next {
            Some(next) => Some(next.id()),
            None => None,
        }
    }

    /// Returns the turn that ends, and the turn that begins.
    pub fn turns(&self) -> Option<Turns>
        ensures { result ≡ option_map (turns_of self.now.prior) self.now.next }
    {
        match self.next {
            Some(next) => Some(Turns {
                prior: self.prior.turn(),
                next: next.next_turn().unwrap_or(0),
            }),
            None => None,
        }
    }

    /// Returns whether there is a next task that has no further turn.
    pub fn is_last_turn(&self) -> bool
        ensures { result ≡ is_last_turn self.now }
    {
        match self.next {
            Some(next) => next.next_turn().is_none(),
            None => false,
        }
    }

    /// Returns whether there is a next task if and only if the status demands one.
    fn has_its_next(&self) -> bool
        ensures { result ≡ has_its_next self.now }
    {
        if self.status.demands_next() {
            self.next.is_some()
        } else {
            self.next.is_none()
        }
    }
}

impl<'a> Schedule<'a> {
    /// Returns whether the tasks allow the schedule, on a thread of this number and state.
    pub fn is_allowed(&self, thread: u8, standing: &Standing) -> bool
        ensures { (r : RecorderView) → r.thread ≡ thread → standing.now ≡ standing_of r.records
            → result ≡ may_schedule r self.now }
    {
        let may_start = match self.next {
            Some(next) => may_start(thread, standing, next),
            None => true,
        };
        self.prior.state_stopped(self.status).is_some()
            && self.has_its_next()
            && is_by_parent(standing, self.prior, self.status)
            && may_start
    }
}

/// Returns whether the task may run next on a thread of this number and state.
fn may_start(thread: u8, standing: &Standing, next: &TaskData) -> bool
    ensures { (r : RecorderView) → r.thread ≡ thread → standing.now ≡ standing_of r.records
        → result ≡ may_start r next.now }
{
    let is_here = next.place().is_none()
        || (next.is_root_on(thread) && is_task(next.id(), standing.innermost()));
    next.state_started().is_some() && is_here
}

/// Returns whether the taskwait's parent runs, if the status is that of a complete taskwait; else true.
fn is_by_parent(standing: &Standing, prior: &TaskData, status: Status) -> bool
    ensures { (r : RecorderView) → standing.now ≡ standing_of r.records
        → result ≡ is_by_parent r prior.now status }
{
    match status {
        Status::TaskwaitComplete => match prior.parent() {
            Some(parent) => is_task(parent, standing.current()),
            None => false,
        },
        _ => true,
    }
}

impl Recorder {
    /// Records that the prior task stops as the schedule says. The record names the ledger's length, or, if
    /// a part of the task is finished, the index of the entry that it makes.
    fn stop<R: Wait>(
        &mut self,
        ledger: &SharedLedger,
        wait: &R,
        schedule: &Schedule,
    ) -> Result<(), CallFault>
        requires { self.old.ledger ≡ ledger_id ledger.now }
        ensures ledger { self.new.ledger ≡ self.old.ledger }
        ensures stopped { OnOk result (IsStopped self.old schedule.now self.new) }
        ensures may { OnOk result (may_schedule self.old schedule.now ≡ true) }
        ensures refused { IsSome (schedule_refusal self.old schedule.now) → IsErr result }
        ensures fault { IfErr result (IsFinishRefused self.old (schedule_refusal self.old schedule.now)
            (stopped_entry self.old schedule.now) self.new) }
    {
        let body = schedule.body(None);
        let may = schedule.is_allowed(self.thread(), self.standing());
        self.test(may, false, schedule.is_last_turn(), &body)?;
        match schedule.status.part() {
            None => {
                self.observe(ledger, wait, body)?;
                Ok(())
            }
            Some(part) => self.finish(ledger, wait, schedule, part),
        }
    }

    /// Records that the prior task stops, and that a part of it is finished.
    fn finish<R: Wait>(
        &mut self,
        ledger: &SharedLedger,
        wait: &R,
        schedule: &Schedule,
        part: Part,
    ) -> Result<(), CallFault>
        requires ledger { self.old.ledger ≡ ledger_id ledger.now }
        requires few { length self.old.records < max_records }
        requires allowed { allowed self.old (schedule_body schedule.now None) ≡ true }
        requires may { may_schedule self.old schedule.now ≡ true }
        requires part { status_part schedule.now.status ≡ Some part }
        ensures ledger { self.new.ledger ≡ self.old.ledger }
        ensures stopped { OnOk result (IsStoppedBy (Some part) self.old schedule.now self.new) }
        ensures fault { IfErr result (IsFinishRefused self.old None
            (Some (entry_of_part self.old.thread part schedule.now.prior)) self.new) }
    {
        let Ok((entry, claim)) = schedule.prior.finish(self.thread(), part) else {
            return Err(CallFault::Memory);
        };
        self.conclude(ledger, wait, entry, schedule.body(Some(claim)))?;
        Ok(())
    }

    /// Records that the prior task stops for the next one.
    fn stop_for<R: Wait>(
        &mut self,
        ledger: &SharedLedger,
        wait: &R,
        prior: &TaskData,
        status: Status,
        next: &TaskData,
    ) -> Result<(), CallFault>
        requires { self.old.ledger ≡ ledger_id ledger.now }
        ensures ledger { self.new.ledger ≡ self.old.ledger }
        ensures stopped { OnOk result (IsStopped self.old
            (schedule_of prior.now status (Some next.now)) self.new) }
        ensures may { OnOk result (may_schedule self.old
            (schedule_of prior.now status (Some next.now)) ≡ true) }
        ensures refused { IsSome (schedule_refusal self.old (schedule_of prior.now status (Some next.now)))
            → IsErr result }
        ensures fault { IfErr result (IsFinishRefused self.old
            (schedule_refusal self.old (schedule_of prior.now status (Some next.now)))
            (stopped_entry self.old (schedule_of prior.now status (Some next.now))) self.new) }
    {
        self.stop(ledger, wait, &Schedule::before(prior, status, next))
    }

    /// Records that the prior task stops, and the next one runs. Returns what is left of the prior task.
    fn switch<R: Wait>(
        &mut self,
        ledger: &SharedLedger,
        wait: &R,
        prior: TaskData,
        status: Status,
        next: &mut TaskData,
    ) -> Result<Option<TaskData>, (TaskData, CallFault)>
        requires { self.old.ledger ≡ ledger_id ledger.now }
        ensures ledger { self.new.ledger ≡ self.old.ledger }
        ensures stopped { OnOk result (IsStopped self.old
            (schedule_of prior status (Some next.old)) self.new) }
        ensures may { OnOk result (may_schedule self.old
            (schedule_of prior status (Some next.old)) ≡ true) }
        ensures started { OnOk result (next.new ≡ after_start next.old) }
        ensures unchanged { OnErr result (next.new ≡ next.old) }
        ensures back { IfOk result (λ back. back ≡ left_of prior status) }
        ensures returned { IfErr result (λ refused. refused.0 ≡ prior) }
        ensures refused { IsSome (schedule_refusal self.old
            (schedule_of prior status (Some next.old))) → IsErr result }
        ensures fault { IfErr result (λ refused. IsFinishRefused self.old
            (schedule_refusal self.old (schedule_of prior status (Some next.old)))
            (stopped_entry self.old (schedule_of prior status (Some next.old))) self.new refused.1) }
    {
        match self.stop_for(ledger, wait, &prior, status, next) {
            Ok(()) => {
                next.start();
                Ok(left_of(prior, status))
            }
            Err(fault) => Err((prior, fault)),
        }
    }

    /// Records that the task is fulfilled, or is complete as a taskwait. Returns what is left of it.
    fn fulfil<R: Wait>(
        &mut self,
        ledger: &SharedLedger,
        wait: &R,
        prior: TaskData,
        status: Status,
    ) -> Result<Option<TaskData>, (TaskData, CallFault)>
        requires { self.old.ledger ≡ ledger_id ledger.now }
        ensures ledger { self.new.ledger ≡ self.old.ledger }
        ensures stopped { OnOk result (IsStopped self.old (schedule_of prior status None) self.new) }
        ensures may { OnOk result (may_schedule self.old (schedule_of prior status None) ≡ true) }
        ensures back { IfOk result (λ back. back ≡ left_of prior status) }
        ensures returned { IfErr result (λ refused. refused.0 ≡ prior) }
        ensures refused { IsSome (schedule_refusal self.old (schedule_of prior status None))
            → IsErr result }
        ensures fault { IfErr result (λ refused. IsFinishRefused self.old
            (schedule_refusal self.old (schedule_of prior status None))
            (stopped_entry self.old (schedule_of prior status None)) self.new refused.1) }
    {
        let schedule = Schedule {
            prior: &prior,
            status,
            next: None,
        };
        match self.stop(ledger, wait, &schedule) {
            Ok(()) => Ok(left_of(prior, status)),
            Err(fault) => Err((prior, fault)),
        }
    }

    /// Records that the task `prior` stops running or is fulfilled with this status, and that `next`, if it
    /// is given, runs from here on (19.5.2.10). `next` is given for `complete`, `yield`, `cancel`, `detach`
    /// and `switch`, and for no other status. A status that finishes a part of the task puts its credit
    /// into the ledger; any other looks at the ledger. Both may wait for their turn there. Returns the
    /// prior task if its value is used again: suspended, as the event that a detached task waits for, or
    /// after an early fulfilment. If the call fails, it returns the prior task as it was.
    pub fn ompt_callback_task_schedule<R: Wait>(
        &mut self,
        ledger: &SharedLedger,
        wait: &R,
        prior: TaskData,
        status: Status,
        next: Option<&mut TaskData>,
    ) -> Result<Option<TaskData>, (TaskData, CallFault)>
        requires { self.old.ledger ≡ ledger_id ledger.now }
        ensures ledger { self.new.ledger ≡ self.old.ledger }
        ensures stopped { OnOk result (IsStopped self.old
            (schedule_of prior status (option_map (λ n. n.now) next.entry)) self.new) }
        ensures back { IfOk result (λ back. back ≡ left_of prior status) }
        ensures returned { IfErr result (λ refused. refused.0 ≡ prior) }
        ensures refused { IsSome (schedule_refusal self.old
            (schedule_of prior status (option_map (λ n. n.now) next.entry))) → IsErr result }
        ensures fault { IfErr result (λ refused. IsFinishRefused self.old
            (schedule_refusal self.old (schedule_of prior status (option_map (λ n. n.now) next.entry)))
            (stopped_entry self.old (schedule_of prior status (option_map (λ n. n.now) next.entry)))
            self.new refused.1) }
        ensures started { (n : MutBor TaskView) → next.entry ≡ Some n
            → OnOk result (LeavesNext next.exit (λ left. left ≡ after_start n.now)) }
        ensures unchanged { (n : MutBor TaskView) → next.entry ≡ Some n
            → OnErr result (LeavesNext next.exit (λ left. left ≡ n.now)) }
        ensures credit { OnOk result ((part : Part) → status_part status ≡ Some part
            → MovesCredit part (credit_of prior)
            (entered_credit_of (entry_of_part self.old.thread part prior))
            (credit_of (after_stop prior status))) }
    {
        match next {
            Some(next) => self.switch(ledger, wait, prior, status, next),
            None => self.fulfil(ledger, wait, prior, status),
        }
    }

    /// Records that one task is suspended and another one runs, by `yield` or `switch` (19.5.2.10). Does
    /// the same as [`Recorder::ompt_callback_task_schedule`] with such a status, but only borrows both
    /// tasks. Fails with `WrongState` for any other status.
    pub fn switch_to<R: Wait>(
        &mut self,
        ledger: &SharedLedger,
        wait: &R,
        prior: &mut TaskData,
        next: &mut TaskData,
        status: Status,
    ) -> Result<(), CallFault>
        requires { self.old.ledger ≡ ledger_id ledger.now }
        ensures ledger { self.new.ledger ≡ self.old.ledger }
        ensures stopped { OnOk result (IsStopped self.old
            (schedule_of prior.old status (Some next.old)) self.new) }
        ensures prior { OnOk result (prior.new ≡ after_stop prior.old status) }
        ensures next { OnOk result (next.new ≡ after_start next.old) }
        ensures unchanged { OnErr result (self.new ≡ self.old) }
        ensures same_prior { OnErr result (prior.new ≡ prior.old) }
        ensures same_next { OnErr result (next.new ≡ next.old) }
        ensures refused { IsSome (switch_refusal self.old (schedule_of prior.old status (Some next.old)))
            → IsErr result }
        ensures fault { IfErr result (λ fault. fault
            ≡ call_fault (switch_refusal self.old (schedule_of prior.old status (Some next.old)))) }
    {
        if !is_pause(status) {
            return Err(CallFault::WrongState);
        }
        self.stop_for(ledger, wait, prior, status, next)?;
        prior.stop(status);
        next.start();
        Ok(())
    }

    /// Records that the task, which has not begun, is discarded, since its taskgroup was cancelled (11.5
    /// and 19.5.2.18). Adds the flag `discarded_task` to the flags, puts the task's credit into the ledger,
    /// and may wait for its turn there. Returns the index of the entry. If the call fails, it returns the
    /// task.
    pub fn ompt_callback_cancel_discarded<R: Wait>(
        &mut self,
        ledger: &SharedLedger,
        wait: &R,
        task: TaskData,
        flags: CancelFlags,
    ) -> Result<u32, (TaskData, CallFault)>
        requires { self.old.ledger ≡ ledger_id ledger.now }
        ensures ledger { self.new.ledger ≡ self.old.ledger }
        ensures made { IfOk result (λ index. IsConcluded self.old
            (entry_of_part self.old.thread Whole task) index (discard_body task flags (Some task.claim))
            self.new) }
        ensures credit { OnOk result (MovesCredit Whole (credit_of task)
            (entered_credit_of (entry_of_part self.old.thread Whole task)) (credit_of task)) }
        ensures returned { IfErr result (λ refused. refused.0 ≡ task) }
        ensures refused { IsSome (discard_refusal self.old task flags) → IsErr result }
        ensures fault { IfErr result (λ refused. IsFinishRefused self.old (discard_refusal self.old task flags)
            (Some (entry_of_part self.old.thread Whole task)) self.new refused.1) }
    {
        match self.discard(ledger, wait, &task, flags) {
            Ok(index) => Ok(index),
            Err(fault) => Err((task, fault)),
        }
    }

    /// Records that the task is discarded.
    fn discard<R: Wait>(
        &mut self,
        ledger: &SharedLedger,
        wait: &R,
        task: &TaskData,
        flags: CancelFlags,
    ) -> Result<u32, CallFault>
        requires { self.old.ledger ≡ ledger_id ledger.now }
        ensures ledger { self.new.ledger ≡ self.old.ledger }
        ensures made { IfOk result (λ index. IsConcluded self.old
            (entry_of_part self.old.thread Whole task.now) index
            (discard_body task.now flags (Some task.now.claim)) self.new) }
        ensures may { OnOk result (may_discard task.now flags ≡ true) }
        ensures refused { IsSome (discard_refusal self.old task.now flags) → IsErr result }
        ensures fault { IfErr result (IsFinishRefused self.old (discard_refusal self.old task.now flags)
            (Some (entry_of_part self.old.thread Whole task.now)) self.new) }
    {
        let flags = flags.union(CancelFlags::DISCARDED_TASK);
        let may = task.state_discarded().is_some() && flags.are_named();
        self.test(may, false, false, &discard_body(task, flags, None))?;
        let Ok((entry, claim)) = task.finish(self.thread(), Part::Whole) else {
            return Err(CallFault::Memory);
        };
        self.conclude(ledger, wait, entry, discard_body(task, flags, Some(claim)))
    }
}

/// Returns the body of the record of a discard.
fn discard_body(task: &TaskData, flags: CancelFlags, claim: Option<BoxedClaim>) -> Body
    ensures { result ≡ Cancel flags task.now.id claim }
{
    Body::Cancel {
        flags,
        task: task.id(),
        claim,
    }
}

/// Returns what is left of a task that stopped or was fulfilled with this status: its value, if it is used
/// again.
fn left_of(mut prior: TaskData, status: Status) -> Option<TaskData>
    ensures { result ≡ left_of prior status }
{
    match status {
        Status::Yield | Status::Switch | Status::EarlyFulfill | Status::Detach => {
            prior.stop(status);
            Some(prior)
        }
        _ => None,
    }
}

/// Returns whether a status only suspends its task.
fn is_pause(status: Status) -> bool
    ensures { result ≡ is_pause status }
{
    match status {
        Status::Yield | Status::Switch => true,
        _ => false,
    }
}
