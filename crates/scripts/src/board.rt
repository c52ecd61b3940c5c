//! What the threads of a run share: how far each is, and the tasks that no thread has at the moment.
ghost use Rattle.std.specs.Prelude.{◌≡◌, List, [], Option, IfSome, option_map};
ghost use Rattle.atomic_table.specs.Seated.{TableId};
ghost use Rattle.credit_ledger.specs.declared.view.View.{View};
ghost use Rattle.credit_ledger.specs.Places.{ledger_id};
ghost use Rattle.scripts.specs.Scripts.{ScriptView, empty_script};
ghost use Rattle.scripts.specs.RunCalls.{first_given, second_given};
ghost use Rattle.scripts.specs.Parts.{IsValueAfter, IsNoted, IsTaken, IsDone, TellsOf};

use crate::Step;
use crate::calling::{first_given, second_given};
use crate::uses::{Use, Uses};
use callbacks::{Note, TaskData};
use credit_ledger::SharedLedger;
use std::alloc::{AllocError, Global};
use std::marker::{Brand, PhantomData};

/// The ledger, the script and the seats of a run, in ghost values. The run chooses them.
pub trait Context {
    ghost ledger: { TableId };

    ghost script: { ScriptView };

    /// By number of the thread, what its seat knew at the start.
    ghost seats: { List (Option View) };
}

impl Context for Brand {
    ghost ledger = { record {
      words = 0;
      slots = 0;
      views_name = 0;
      atom = 0;
      block = 0;
      offset = 0;
      slot_names = [];
    } };

    ghost script = { empty_script };

    ghost seats = { [] };
}

/// A note of a recorder of the run.
#[derive(Drop)]
pub(crate) struct RunNote<C: Context> {
    pub note: Note,
    pub of: PhantomData<C>,
    pub ghost of_the_run: { note.ledger ≡ C.ledger },
}

impl<C: Context> RunNote<C> {
    /// Returns the same note again.
    fn again(&mut self, ledger: &SharedLedger) -> RunNote<C>
        requires { ledger_id ledger.now ≡ C.ledger }
        ensures kept { self.new.note.seat.seen ≡ self.old.note.seat.seen }
        ensures same { result.note.seat.seen ≡ self.old.note.seat.seen }
    {
        RunNote {
            note: self.note.again(ledger),
            of: PhantomData,
        }
    }
}

/// A task that no thread has, with a note if the next step that names it belongs to another thread.
#[derive(Drop)]
pub(crate) struct Held<C: Context> {
    pub task: TaskData,
    /// How many steps the script has up to the last one that named the task, with that one.
    pub since: u32,
    pub note: Option<RunNote<C>>,
    pub ghost value: { IsValueAfter C.script since task },
    pub ghost noted: { IsNoted C.script C.seats since task (option_map (λ n. n.note) note) },
}

/// The tasks of a step, while no thread has them, in the order in which its call names them.
#[derive(Drop)]
pub(crate) struct Pair<C: Context> {
    pub first: Option<Held<C>>,
    pub second: Option<Held<C>>,
}

/// The tasks of a step that is taken, and a note of the thread whose step it comes after, if it comes after one.
#[derive(Drop)]
pub(crate) struct Taken<C: Context> {
    pub pair: Pair<C>,
    pub note: Option<RunNote<C>>,
}

/// The tasks that a step leaves, and what its thread tells, if a later step comes after it.
#[derive(Drop)]
pub(crate) struct Left<C: Context> {
    pub pair: Pair<C>,
    pub told: Option<Told<C>>,
}

/// A step that another one comes after.
#[derive(Clone, Copy)]
pub(crate) struct Awaited {
    pub thread: u8,
    /// The place of the step in the script.
    pub at: u32,
}

/// What a thread tells of its steps to those that come after one of them.
#[derive(Drop)]
pub(crate) struct Told<C: Context> {
    pub thread: u8,
    /// How many steps the script has up to the last one of the thread that is told of, with that one.
    pub since: u32,
    pub note: RunNote<C>,
    pub ghost tells: { TellsOf C.script C.seats thread since note.note.seat.seen },
}

/// How far a thread is.
#[derive(Drop)]
struct Progress<C: Context> {
    /// What it told at its last step that a later one comes after, if it has done one.
    told: Option<Told<C>>,
    /// The step that its next step comes after, if it comes after one.
    after: Option<Awaited>,
}

/// What the threads of a run share.
#[derive(Drop)]
pub(crate) struct Board<C: Context> {
    /// By number of the task, where it waits for the next step that names it.
    slots: Vec<Option<Held<C>>>,
    /// By number of the thread.
    threads: Vec<Progress<C>>,
    /// The first line on which no step is taken any more, if the run ends without a trace.
    end: Option<u32>,
}

impl<C: Context> Board<C> {
    /// Returns the board of a run in which no step is done.
    pub(crate) fn new(alloc: Global, tasks: usize, threads: usize) -> Result<Board<C>, AllocError> {
        let mut slots = Vec::with_capacity(alloc, tasks)?;
        for _ in 0..tasks {
            slots.push(None)?;
        }
        let mut all = Vec::with_capacity(alloc, threads)?;
        for _ in 0..threads {
            all.push(Progress {
                told: None,
                after: None,
            })?;
        }
        Ok(Board {
            slots,
            threads: all,
            end: None,
        })
    }

    /// Ends the run without a trace: no step on this line or a later one is taken any more.
    pub(crate) fn stop(&mut self, line: u32) {
        if !self.ends_before(line) {
            self.end = Some(line);
        }
    }

    /// Returns whether a step on this line is no longer taken.
    pub(crate) fn ends_before(&self, line: u32) -> bool {
        match self.end {
            Some(end) => end <= line,
            None => false,
        }
    }

    /// Notes that the thread's next step comes after this one, if it comes after one.
    pub(crate) fn expect(&mut self, thread: u8, after: Option<Awaited>) {
        if let Some(progress) = self.threads.get_mut(usize::from(thread)) {
            progress.after = after;
        }
    }

    /// Takes the tasks that the step is given, and returns them with a note that tells of the step that it comes
    /// after. Returns none, and takes none, unless all that the step waits for is done.
    pub(crate) fn take(
        &mut self,
        ledger: &SharedLedger,
        step: &Step,
        uses: Uses,
        after: Option<Awaited>,
    ) -> Option<Taken<C>>
        requires { ledger_id ledger.now ≡ C.ledger }
        ensures first { IfSome result (λ taken. IsTaken (first_given step.now.body)
            (option_map (λ u. u.since) uses.first) (option_map (λ h. (h.since, h.task)) taken.pair.first)) }
        ensures second { IfSome result (λ taken. IsTaken (second_given step.now.body)
            (option_map (λ u. u.since) uses.second) (option_map (λ h. (h.since, h.task)) taken.pair.second)) }
        ensures after { IfSome result (λ taken.
            IsDone C.script C.seats after (option_map (λ n. n.note) taken.note)) }
    {
        let first = self.take_one(first_given(&step.body), uses.first)?;
        let Some(second) = self.take_one(second_given(&step.body), uses.second) else {
            self.put(uses.first, first);
            return None;
        };
        match self.note_of(ledger, after) {
            Some(note) => Some(Taken {
                pair: Pair { first, second },
                note,
            }),
            None => {
                self.put(uses.first, first);
                self.put(uses.second, second);
                None
            }
        }
    }

    /// Returns a note that tells of the step, if there is one. Returns none if the step is not done.
    fn note_of(
        &mut self,
        ledger: &SharedLedger,
        after: Option<Awaited>,
    ) -> Option<Option<RunNote<C>>>
        requires { ledger_id ledger.now ≡ C.ledger }
        ensures { IfSome result (λ note. IsDone C.script C.seats after (option_map (λ n. n.note) note)) }
    {
        let Some(after) = after else {
            return Some(None);
        };
        let progress = self.threads.get_mut(usize::from(after.thread))?;
        match &mut progress.told {
            Some(told) if told.thread == after.thread && after.at < told.since => {
                Some(Some(told.note.again(ledger)))
            }
            _ => None,
        }
    }

    /// Takes the task that a step is given, if it is given one, and returns it. Returns none unless all earlier
    /// steps that name the task are done.
    fn take_one(&mut self, task: Option<u64>, used: Option<Use>) -> Option<Option<Held<C>>>
        ensures { IfSome result (λ held. IsTaken task (option_map (λ u. u.since) used)
            (option_map (λ h. (h.since, h.task)) held)) }
    {
        let Some(task) = task else {
            return Some(None);
        };
        let used = used?;
        let slot = self.slots.get_mut(used.task as usize)?;
        match slot.take() {
            Some(held) if held.task.id() == task && held.since == used.since => Some(Some(held)),
            other => {
                *slot = other;
                None
            }
        }
    }

    /// Notes what a step leaves: puts back its tasks, and keeps what its thread tells.
    pub(crate) fn finish(&mut self, uses: Uses, left: Left<C>) {
        let Left { pair, told } = left;
        let Pair { first, second } = pair;
        self.put(uses.first, first);
        self.put(uses.second, second);
        if let Some(told) = told
            && let Some(progress) = self.threads.get_mut(usize::from(told.thread))
        {
            progress.told = Some(told);
        }
    }

    /// Puts the task back, if it has not ended.
    fn put(&mut self, used: Option<Use>, held: Option<Held<C>>) {
        if let Some(used) = used
            && let Some(slot) = self.slots.get_mut(used.task as usize)
        {
            *slot = held;
        }
    }

    /// Returns whether the next step of a thread comes after the last step that this other one told of.
    pub(crate) fn awaits(&self, thread: usize, other: u8) -> bool {
        let (Some(waiting), Some(done)) = (
            self.threads.get(thread),
            self.threads.get(usize::from(other)),
        ) else {
            return false;
        };
        match (waiting.after, &done.told) {
            (Some(after), Some(told)) => {
                after.thread == other && told.since.checked_sub(1) == Some(after.at)
            }
            _ => false,
        }
    }
}
