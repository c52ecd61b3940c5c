//! Records taken one after another, as if recorders were given their calls.
ghost use Rattle.std.specs.Prelude.{ℕ, List, Bool, true, false, Some, None, ◌≡◌, ◌<◌, ◌^◌, ◌++◌, ◌∷◌, [], IsTrue, IfOk, IfSome, OnOk, Contains, is_some, length, nat_eq, option_and_then};
ghost use Rattle.ompt_events.specs.declared.records.Record.{Record};
ghost use Rattle.ompt_events.specs.Records.{made};
ghost use Rattle.callbacks.specs.Standing.{allows};
ghost use Rattle.callbacks.specs.Logs.{IsLeft};
ghost use Rattle.ompt_events.specs.declared.records.Body.TheVariants.{ImplicitTask};
ghost use Rattle.ompt_events.specs.declared.names.Endpoint.TheVariants.{End};
ghost use Rattle.ompt_events.specs.declared.names.SyncKind.TheVariants.{Taskwait};
ghost use Rattle.callbacks.specs.Tasks.{TaskView, parent_of, is_running, end_of_root};
ghost use Rattle.online.specs.Tasks.{value_of};
ghost use Rattle.online.specs.Replays.{IsReplayOf, IsNoted, IsNextOf, IsNextThere, IsCalled, IsAdvanced};

use crate::calls::{Place, take};
use crate::ids::Ids;
use crate::tasks::Tasks;
use crate::thread::Thread;
use ompt_events::{Body, Record, SyncKind};
use std::alloc::{AllocError, Global};

/// Thread numbers are below this.
const THREADS: usize = 256;

/// No thread has more records, since each has a number of 32 bits there.
const CAPACITY: u64 = 1 << 32;

/// No more records are taken in all.
const MOST: usize = 1 << 63;

/// What the records so far leave: of each thread, of each task that is live, and which ids tasks have had.
#[derive(Drop)]
pub struct Replay {
    /// Whether regions may lie inside others.
    nests: bool,
    threads: Vec<Thread>,
    tasks: Tasks,
    used: Ids,
    /// How many records there are.
    count: usize,
}

impl Replay {
    /// Returns what no records leave, in a trace where regions may lie inside others or not. Fails only when out
    /// of memory.
    pub fn new(alloc: Global, nests: bool) -> Result<Replay, AllocError>
        ensures { IfOk result (IsReplayOf []) }
    {
        let mut threads = Vec::with_capacity(alloc, THREADS)?;
        for _thread in 0..THREADS {
            threads.push(Thread::new(alloc, nests))?;
        }
        Ok(Replay {
            nests,
            threads,
            tasks: Tasks::new(alloc),
            used: Ids::new(alloc),
            count: 0,
        })
    }

    /// Takes one more record, and returns true, only if recorders that were given the calls of the records so far
    /// and then this one make these records, but for the ledger lengths.
    pub fn take(&mut self, record: &Record) -> Result<bool, AllocError>
        ensures made { IfOk result (λ taken. IsTrue taken → (rs : List Record) → IsReplayOf rs self.old
            → IsReplayOf (rs ++ «record».now ∷ []) self.new) }
        ensures kind { IfOk result (λ taken. IsTrue taken → self.new.nests ≡ self.old.nests) }
    {
        if record.nests != self.nests || !self.fits(record) {
            return Ok(false);
        }
        if !self.take_call(record)? {
            return Ok(false);
        }
        if !self.note_made(&record.body)? {
            return Ok(false);
        }
        self.advance(record)
    }

    /// Returns how many records there are so far.
    pub(crate) fn count(&self) -> usize
        ensures { result ≡ self.now.count }
    {
        self.count
    }

    /// Returns the parent of the task, if the task is live and has one.
    pub(crate) fn parent(&self, task: u64) -> Option<u64>
        ensures { result ≡ option_and_then (λ t. parent_of t.origin) (value_of self.now.tasks task) }
    {
        self.tasks.get(task)?.parent()
    }

    /// Returns the size of the team of a root and its number there, with which a recorder ends it, if it is live.
    pub(crate) fn place_in_team(&self, root: u64) -> Option<(u32, u32)>
        ensures { IfSome result (λ place. (t : TaskView) × (value_of self.now.tasks root ≡ Some t)
            × (end_of_root t 0 ≡ ImplicitTask End place.0 place.1 t.flags 0 t.id)) }
    {
        match self.tasks.get(root)?.end_of_root(0) {
            Body::ImplicitTask { actual, index, .. } => Some((actual, index)),
            _ => None,
        }
    }

    /// Returns whether the task is live and runs.
    pub(crate) fn runs(&self, task: u64) -> bool
        ensures { IsTrue result → (t : TaskView) × (value_of self.now.tasks task ≡ Some t) × (is_running t.state ≡ true) }
    {
        match self.tasks.get(task) {
            Some(value) => value.is_running(),
            None => false,
        }
    }

    /// Returns whether the task is live.
    pub(crate) fn is_live(&self, task: u64) -> bool
        ensures { result ≡ is_some (value_of self.now.tasks task) }
    {
        self.tasks.contains(task)
    }

    /// Returns true only if the task is live and has no taskwait open.
    pub(crate) fn is_outside(&self, task: u64) -> bool
        ensures { IsTrue result → (t : TaskView) → value_of self.now.tasks task ≡ Some t
            → Contains t.regions Taskwait → ⊥ }
    {
        match self.tasks.get(task) {
            Some(value) => !has_taskwait(value.regions()),
            None => false,
        }
    }

    /// Returns whether the record is the next one of its thread, by its number there and by what the thread's
    /// records so far allow.
    fn fits(&self, record: &Record) -> bool
        ensures { IsTrue result → IsNextThere self.now «record».now }
    {
        match self.threads.get(usize::from(record.thread)) {
            Some(thread) => is_next(thread, record),
            None => false,
        }
    }

    /// Does to the tasks what the record's call does. Returns true only if recorders that are given the call make
    /// the record.
    fn take_call(&mut self, record: &Record) -> Result<bool, AllocError>
        ensures { IfOk result (λ taken. IsTrue taken → IsCalled self.old self.new «record».now) }
    {
        let alloc = *self.threads.allocator();
        let Some(thread) = self.threads.get(usize::from(record.thread)) else {
            return Ok(false);
        };
        let place = Place {
            number: record.thread,
            state: &thread.state,
        };
        take(alloc, &mut self.tasks, &place, &record.body)
    }

    /// Goes on with the thread behind its record, and counts the record. Returns false where there is no such
    /// thread, or no number for the record.
    fn advance(&mut self, record: &Record) -> Result<bool, AllocError>
        ensures { IfOk result (λ done. IsTrue done → IsAdvanced self.old self.new «record».now) }
    {
        let Some(thread) = self.threads.get_mut(usize::from(record.thread)) else {
            return Ok(false);
        };
        if thread.count >= CAPACITY || self.count >= MOST {
            return Ok(false);
        }
        thread.advance(&record.body)?;
        self.count += 1;
        Ok(true)
    }

    /// Notes the id of the task that the record makes, if it makes one. Returns false where a task had this id.
    fn note_made(&mut self, body: &Body) -> Result<bool, AllocError>
        ensures { IfOk result (λ noted. IsTrue noted → IsNoted self.old self.new (made body.now)) }
    {
        match body.made() {
            Some(task) => self.used.insert(task),
            None => Ok(true),
        }
    }
}

/// Returns whether one of the kinds is that of a taskwait.
fn has_taskwait(kinds: &[SyncKind]) -> bool
    ensures { result ≡ false → Contains kinds.now Taskwait → ⊥ }
{
    kinds.contains(&SyncKind::Taskwait)
}

/// Returns whether the record is the next one of the thread.
fn is_next(thread: &Thread, record: &Record) -> bool
    ensures { IsTrue result → IsNextOf thread.now «record».now }
{
    u64::from(record.seq) == thread.count && thread.state.allows(&record.body)
}
