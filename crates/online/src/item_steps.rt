//! What any record asks of the items that children depend on: one step for each record.
ghost use Rattle.std.specs.Prelude.{ℕ, ◌≡◌, ◌↔◌, ◌++◌, ◌∷◌, [], List, length, Some, None, IfOk, OnOk, IsTrue};
ghost use Rattle.ompt_events.specs.declared.records.Record.{Record};
ghost use Rattle.ompt_events.specs.Records as say;
ghost use Rattle.ompt_events.specs.Completion.{IsCompleteAt};
ghost use Rattle.ompt_events.specs.Dependences.{IsPredecessor};
ghost use Rattle.callbacks.specs.Logs.{known_from};
ghost use Rattle.online.specs.Online.{HasLists, IsDependentAt};
ghost use Rattle.online.specs.Items.{IsItemsOf, MayBeRead, Reads, TakesList, TakesFinish, TakesEndOf};
ghost use Rattle.online.specs.Uses.{KeepsTables, numbers_of, location_of};
ghost use Rattle.online.specs.Items.{KeepsItems, LetsGo, MayGoOn, PassesWait, PassesStart};
ghost use Rattle.online.specs.Items.{completed_by, ended_by};

use crate::items::Items;
use ompt_events::{Body, Dep, Part, Record, finish};
use std::alloc::AllocError;

impl Items {
    /// Reads the record. `parent` is the parent of the task that starts there, of the taskwait with
    /// dependences that is complete there, or of the task whose dependences are listed there, if it has one.
    ///
    /// Returns true only if all predecessors of that task or taskwait are complete at the record, and all
    /// lists of dependences that count for it are there. Once it has returned false, or has failed when out of
    /// memory, the items are of no use.
    pub fn take(&mut self, record: &Record, parent: Option<u64>) -> Result<bool, AllocError>
        ensures kept { IfOk result (λ taken. IsTrue taken → (rs : List Record)
            → MayBeRead rs «record».now parent → IsItemsOf rs self.old
            → IsItemsOf (rs ++ «record».now ∷ []) self.new) }
        ensures listed { IfOk result (λ taken. IsTrue taken → (rs : List Record)
            → MayBeRead rs «record».now parent → IsItemsOf rs self.old → (dependent : ℕ)
            → IsDependentAt (rs ++ «record».now ∷ []) (length rs) dependent
            → HasLists (rs ++ «record».now ∷ []) dependent) }
        ensures complete { IfOk result (λ taken. IsTrue taken → (rs : List Record)
            → MayBeRead rs «record».now parent → IsItemsOf rs self.old → (dependent predecessor : ℕ)
            → IsDependentAt (rs ++ «record».now ∷ []) (length rs) dependent
            → IsPredecessor (rs ++ «record».now ∷ []) dependent predecessor
            → IsCompleteAt (rs ++ «record».now ∷ []) predecessor (length rs)) }
        ensures let_go { IfOk result (λ taken. IsTrue taken → LetsGo «record».now self.new) }
    {
        match &record.body {
            Body::TaskCreate {
                deps,
                task,
                child,
                ..
            } => self.create(*task, *child, *deps),
            Body::Dependences { task, list } => self.take_list(parent, *task, list.as_slice()),
            _ => self.take_other(record, parent),
        }
    }

    /// Reads a record that lists the dependences of the task. Returns false where no parent of it is given.
    fn take_list(
        &mut self,
        parent: Option<u64>,
        task: u64,
        list: &[Dep],
    ) -> Result<bool, AllocError>
        ensures { IfOk result (λ taken. IsTrue taken → (p : ℕ) → parent ≡ Some p
            → TakesList self.old self.new p task list.now) }
    {
        match parent {
            Some(parent) => self.list(parent, task, list),
            None => Ok(false),
        }
    }

    /// Reads a record that creates no task and lists no dependences.
    fn take_other(&mut self, record: &Record, parent: Option<u64>) -> Result<bool, AllocError>
        requires { (say.creation «record».now.body ≡ None) × (say.dependences «record».now.body ≡ None) }
        ensures reads { IfOk result (λ taken. IsTrue taken → Reads self.old self.new «record».now parent) }
        ensures let_go { IfOk result (λ taken. IsTrue taken → LetsGo «record».now self.new) }
    {
        if !self.passes_wait(record, parent)? {
            return Ok(false);
        }
        self.other();
        self.complete_finished(record)?;
        self.end_finished(record)?;
        let starts = self.passes_start(record, parent)?;
        Ok(starts)
    }

    /// Returns whether a taskwait with dependences that is complete at the record may be so. It is asked
    /// before the record is read.
    fn passes_wait(&mut self, record: &Record, parent: Option<u64>) -> Result<bool, AllocError>
        ensures ready { IfOk result (λ ready. IsTrue ready → PassesWait self.old «record».now parent) }
        ensures kept { IfOk result (λ _. KeepsItems self.old self.new) }
    {
        match (record.body.wait_completed(), parent) {
            (Some(task), Some(parent)) => self.may_go_on(parent, task, u64::from(record.seen)),
            (Some(_), None) => Ok(false),
            (None, _) => Ok(true),
        }
    }

    /// Returns whether a task that starts at the record may do so. It is asked once the record is read.
    fn passes_start(&mut self, record: &Record, parent: Option<u64>) -> Result<bool, AllocError>
        ensures ready { IfOk result (λ ready. IsTrue ready → PassesStart self.old «record».now parent) }
        ensures kept { IfOk result (λ _. KeepsItems self.old self.new) }
        ensures tables { IfOk result (λ _. KeepsTables self.old.uses self.new.uses) }
    {
        match (started(record), parent) {
            (Some(task), Some(parent)) => self.may_go_on(parent, task, known_after(record)),
            _ => Ok(true),
        }
    }

    /// Returns whether the lists of dependences that count for the task are there, and its predecessors are
    /// complete by the entries below the length.
    fn may_go_on(&mut self, parent: u64, task: u64, length: u64) -> Result<bool, AllocError>
        ensures ready { IfOk result (λ ready. IsTrue ready → MayGoOn self.old parent task length) }
        ensures kept { IfOk result (λ _. KeepsItems self.old self.new) }
        ensures tables { IfOk result (λ _. KeepsTables self.old.uses self.new.uses) }
    {
        if !self.has_lists(parent, task) {
            return Ok(false);
        }
        let ready = self.is_ready(task, length)?;
        Ok(ready)
    }

    /// Takes out a task that the record completes.
    fn complete_finished(&mut self, record: &Record) -> Result<(), AllocError>
        ensures finished { OnOk result (TakesFinish self.old self.new «record».now) }
        ensures taken { OnOk result ((task : ℕ) → completed_by (say.finish «record».now.body) ≡ Some task
            → numbers_of self.new.uses task ≡ None) }
    {
        match completed(record) {
            Some(task) => self.complete(task, u64::from(record.seen) + 1),
            None => Ok(()),
        }
    }

    /// Takes out the locations that children use of a task whose body the record ends.
    fn end_finished(&mut self, record: &Record) -> Result<(), AllocError>
        ensures ended { OnOk result (TakesEndOf self.old self.new «record».now) }
        ensures taken { OnOk result ((task location : ℕ)
            → ended_by (say.finish «record».now.body) (say.ended_root «record».now.body) ≡ Some task
            → location_of self.new.uses task location ≡ None) }
        ensures tasks { OnOk result ((task : ℕ)
            → numbers_of self.new.uses task ≡ numbers_of self.old.uses task) }
    {
        match ended(record) {
            Some(task) => self.end(task),
            None => Ok(()),
        }
    }
}

/// Returns the task that starts at the record: its turn 0 begins.
fn started(record: &Record) -> Option<u64>
    ensures { (task : ℕ) → (result ≡ Some task) ↔ (say.begun_turn «record».now.body ≡ Some (task, 0)) }
{
    match record.body.begun_turn() {
        Some((task, 0)) => Some(task),
        _ => None,
    }
}

/// Returns the task that the record completes: it finishes the task whole, or its event, and its body was
/// finished before.
pub(crate) fn completed(record: &Record) -> Option<u64>
    ensures { result ≡ completed_by (say.finish «record».now.body) }
{
    match finish(record) {
        Some((task, Part::Whole | Part::Event)) => Some(task),
        _ => None,
    }
}

/// Returns the task whose body the record ends, or the root that it ends.
fn ended(record: &Record) -> Option<u64>
    ensures { result ≡ ended_by (say.finish «record».now.body) (say.ended_root «record».now.body) }
{
    match finish(record) {
        Some((task, Part::Whole | Part::Body)) => Some(task),
        Some((_, Part::Event)) => None,
        None => record.body.ended_root(),
    }
}

/// Returns the length that is known after the record.
fn known_after(record: &Record) -> u64
    ensures { result ≡ known_from «record».now.seen «record».now.body }
{
    let seen = u64::from(record.seen);
    if finish(record).is_some() {
        seen + 1
    } else {
        seen
    }
}
