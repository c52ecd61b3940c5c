//! The audit of records that come one after another.
ghost use Rattle.std.specs.Prelude.{ℕ, List, Some, None, true, ◌≡◌, ◌++◌, ◌∷◌, [], IsTrue, IfOk, IfSome, IsNone};
ghost use Rattle.ompt_events.specs.declared.records.Record.{Record};
ghost use Rattle.ompt_events.specs.declared.cause.Cause.{Cause};
ghost use Rattle.ompt_events.specs.declared.names.SyncKind.TheVariants.{Taskwait};
ghost use Rattle.ompt_events.specs.Causes.{HasCause};
ghost use Rattle.ompt_events.specs.Completion.{IsCompleteAt};
ghost use Rattle.ompt_events.specs.Ends.{ending_alone};
ghost use Rattle.ompt_events.specs.Linearization.{IsLinearization, IsGreedy};
ghost use Rattle.ompt_events.specs.Places.{places};
ghost use Rattle.ompt_events.specs.Violations.{IsRequired};
ghost use Rattle.scripts.specs.Scripts.{ended};
ghost use Rattle.ompt_events.specs.Records.{region, begun_turn, wait_completed};
ghost use Rattle.online.specs.Missed.{EndsTooEarly, StartsTooEarly};
ghost use Rattle.online.specs.Waits.{ends_region};
ghost use Rattle.online.specs.Watches.{IsWatchOf, HasWatched, IsRefusedWatch, HasRefused, CreatesOutside};
ghost use Rattle.online.specs.Watches.{dependent_of, parent_in, MayList, IsRefusedStart, HasRefusedStart};
ghost use Rattle.online.specs.Watches.{MustBePreceded, preceded_of, HasNoneBefore};

use crate::items::Items;
use crate::lengths::Lengths;
use crate::lists::Lists;
use crate::regions::Regions;
use crate::replay::Replay;
use crate::rosters::Rosters;
use crate::waits::Waits;
use ompt_events::{Body, Endpoint, Part, Record, Status, SyncKind, finish};
use std::alloc::{AllocError, Global};

/// A test that records may fail.
#[derive(Clone, Copy, Debug, PartialEq, Eq)]
pub enum Test {
    /// Recorders that are given the calls of the records make them.
    Calls = 1,
    /// A parallel region begins once.
    Regions,
    /// The members of a team have numbers of their own below its size, and all name this size.
    Teams,
    /// A record names a ledger length that its thread and its task allow.
    Lengths,
    /// Where a taskwait, taskgroup or barrier ends, all that it covers is complete.
    Waits,
    /// Where a task starts, or a taskwait with dependences is complete, all its predecessors are complete.
    Predecessors,
    /// The records end where they may, see [`Watch::may_end`].
    End,
}

/// A task that starts, or a taskwait with dependences that is complete, before a task that it depends on is.
#[derive(Clone, Copy, Debug, PartialEq, Eq)]
pub struct EarlyStart {
    /// The task that starts, or the taskwait.
    pub dependent: u64,
    /// The task that it depends on: its parent created it before, with a dependence that conflicts.
    pub predecessor: u64,
}

/// What is kept of the records so far.
#[derive(Drop)]
pub struct Watch {
    replay: Replay,
    regions: Regions,
    rosters: Rosters,
    lengths: Lengths,
    waits: Waits,
    items: Items,
    lists: Lists,
    /// Whether no task has created a child inside a taskwait of its own so far.
    outside: bool,
}

impl Watch {
    /// Returns what no records leave, in a trace where regions may lie inside others or not. Fails only when out
    /// of memory.
    pub fn new(alloc: Global, nests: bool) -> Result<Watch, AllocError>
        ensures none { IfOk result (IsWatchOf []) }
        ensures watched { IfOk result (HasWatched []) }
    {
        Ok(Watch {
            replay: Replay::new(alloc, nests)?,
            regions: Regions::new(alloc),
            rosters: Rosters::new(alloc),
            lengths: Lengths::new(alloc)?,
            waits: Waits::new(alloc),
            items: Items::new(alloc),
            lists: Lists::new(alloc),
            outside: true,
        })
    }

    /// Takes one more record, and returns none, only if it passes the tests by those before it: with them it shows no
    /// cause, and all is complete there that must be. What the end of a root says of its team is not tested. Else
    /// returns the test that it fails; then what is kept is of no use for later records, but [`Watch::missed`] may be
    /// asked once where that is the test of waits, and [`Watch::missed_predecessor`] where it is that of predecessors.
    /// Fails only when out of memory.
    pub fn take(&mut self, record: &Record) -> Result<Option<Test>, AllocError>
        ensures passed { IfOk result (λ failed. failed ≡ None → (records : List Record) → HasWatched records self.old
            → HasWatched (records ++ «record».now ∷ []) self.new) }
        ensures refused { IfOk result (λ failed. failed ≡ Some Test.Waits → (records : List Record)
            → HasWatched records self.old → HasRefused records «record».now self.new) }
        ensures early { IfOk result (λ failed. failed ≡ Some Test.Predecessors → (records : List Record)
            → HasWatched records self.old → HasRefusedStart records «record».now self.new) }
    {
        match self.end_made(record) {
            Some(made) => self.take_made(&made),
            None => self.take_made(record),
        }
    }

    /// Returns, of a record that ends a live root, the one that a recorder makes there: it says of the team what the
    /// begin of the root says.
    fn end_made(&self, record: &Record) -> Option<Record>
        ensures { IfSome result (λ made. (ending_alone «record».now ≡ ending_alone made)
            × (region «record».now.body ≡ None) × (begun_turn «record».now.body ≡ None)
            × (wait_completed «record».now.body ≡ None)) }
    {
        let Body::ImplicitTask {
            endpoint: Endpoint::End,
            flags,
            parallel,
            task,
            ..
        } = &record.body
        else {
            return None;
        };
        let (actual, index) = self.replay.place_in_team(*task)?;
        Some(Record {
            thread: record.thread,
            nests: record.nests,
            seq: record.seq,
            seen: record.seen,
            body: Body::ImplicitTask {
                endpoint: Endpoint::End,
                actual,
                index,
                flags: *flags,
                parallel: *parallel,
                task: *task,
            },
        })
    }

    /// Takes one more record, and returns none, only if it passes the tests; see [`Watch::take`]. What the end of a root
    /// says of its team is what its begin says.
    fn take_made(&mut self, record: &Record) -> Result<Option<Test>, AllocError>
        ensures passed { IfOk result (λ failed. failed ≡ None → (rs : List Record) → IsWatchOf rs self.old
            → IsWatchOf (rs ++ «record».now ∷ []) self.new) }
        ensures refused { IfOk result (λ failed. failed ≡ Some Test.Waits → (rs : List Record) → IsWatchOf rs self.old
            → ends_region (region «record».now.body) ≡ true → IsRefusedWatch rs «record».now self.new) }
        ensures early { IfOk result (λ failed. failed ≡ Some Test.Predecessors → (rs : List Record)
            → IsWatchOf rs self.old → IsRefusedStart (rs ++ «record».now ∷ []) self.new) }
    {
        let place = self.replay.count();
        let parent = self.parent(&record.body);
        let outside = self.stays_outside(&record.body);
        if !self.may_list(&record.body, parent) || !self.replay.take(record)? {
            return Ok(Some(Test::Calls));
        }
        if !self.regions.take(&record.body)? {
            return Ok(Some(Test::Regions));
        }
        if !self.rosters.take(record)? {
            return Ok(Some(Test::Teams));
        }
        if !self.lengths.take(record)? {
            return Ok(Some(Test::Lengths));
        }
        if !self.waits.take(record)? {
            return Ok(Some(Test::Waits));
        }
        if !self.items.take(record, parent)? {
            return Ok(Some(Test::Predecessors));
        }
        self.lists.take(record, parent, place)?;
        self.outside = outside;
        self.forget(record);
        Ok(None)
    }

    /// Returns a task that the end of a region at the record waits for and that is not complete there, the one with the
    /// least id of those that are found, where the record failed the test of waits just before. Then what is kept is of
    /// no use. Fails only when out of memory.
    pub fn missed(&mut self, record: &Record) -> Result<Option<u64>, AllocError>
        ensures { IfOk result (λ found. IfSome found (λ task. (records : List Record)
            → HasRefused records «record».now self.old → EndsTooEarly records «record».now task)) }
    {
        let Some((task, kind, endpoint)) = record.body.region() else {
            return Ok(None);
        };
        if !self.knows_children(kind) {
            return Ok(None);
        }
        self.waits.missed(&self.replay, task, kind, endpoint)
    }

    /// Returns a task that starts at the record, or a taskwait with dependences that is complete there, and a task that
    /// it depends on and that is not complete, the one of those that are found whose list of dependences came first,
    /// where the record failed the test of predecessors just before. Returns none only where by the lists that are kept
    /// no live task precedes the other one.
    pub fn missed_predecessor(&self, record: &Record) -> Option<EarlyStart>
        ensures named { IfSome result (λ found. (records : List Record)
            → HasRefusedStart records «record».now self.now
            → StartsTooEarly records «record».now found.dependent found.predecessor) }
        ensures none { IsNone result → HasNoneBefore self.now «record».now.body }
    {
        let dependent = preceded(&record.body)?;
        let predecessor = self.lists.first_before(&self.replay, dependent)?;
        Some(EarlyStart {
            dependent,
            predecessor,
        })
    }

    /// Forgets the lengths of a task that the record completes, or of a root that it ends: no record names it again.
    fn forget(&mut self, record: &Record)
        ensures { (rs : List Record) → IsWatchOf rs self.old → IsWatchOf rs self.new }
    {
        if let Some(task) = ended(record) {
            self.lengths.forget(task);
        }
    }

    /// Returns true only if the records so far may be all: each parallel region that they name is begun, each team has
    /// as many members as its size, each of them has begun each barrier that ended, and no list of dependences is
    /// missing. Then, by file order, no record has a cause (`clear`), all is complete that must be complete
    /// (`complete`), and file order is an order of the records, the one that a yes tells (`order`).
    pub fn may_end(&self) -> bool
        ensures clear { IsTrue result → (rs : List Record) → IsWatchOf rs self.now → (i : ℕ) (cause : Cause)
            → HasCause rs i cause → ⊥ }
        ensures complete { IsTrue result → (rs : List Record) → IsWatchOf rs self.now → (i task : ℕ)
            → IsRequired rs i task → IsCompleteAt rs task i }
        ensures order { IsTrue result → (rs : List Record) → IsWatchOf rs self.now
            → IsLinearization rs (places rs) × IsGreedy rs (places rs) }
    {
        if !self.regions.are_begun() {
            return false;
        }
        if !self.rosters.are_whole() {
            return false;
        }
        if !self.waits.have_begun_all() {
            return false;
        }
        self.items.are_listed()
    }

    /// Returns the parent of the task whose predecessors may have to be complete at a record with this body, or whose
    /// dependences it lists, where the task is live and has a parent.
    fn parent(&self, body: &Body) -> Option<u64>
        ensures { (task : ℕ) → dependent_of body.now ≡ Some task → result ≡ parent_in self.now.replay task }
    {
        self.replay.parent(dependent(body)?)
    }

    /// Returns true only if it is known which children the end of a region of this kind waits for: at a taskwait those
    /// that were created before it began, and so all, if no task creates one inside a taskwait of its own.
    fn knows_children(&self, kind: SyncKind) -> bool
        ensures { IsTrue result → kind ≡ Taskwait → self.now.outside ≡ true }
    {
        match kind {
            SyncKind::Taskwait => self.outside,
            _ => true,
        }
    }

    /// Returns true only if no task has created a child inside a taskwait of its own so far, nor does one by a record
    /// with this body.
    fn stays_outside(&self, body: &Body) -> bool
        ensures { IsTrue result → (self.now.outside ≡ true) × CreatesOutside self.now.replay body.now }
    {
        if !self.outside {
            return false;
        }
        match body {
            Body::TaskCreate { task, .. } => self.replay.is_outside(*task),
            _ => true,
        }
    }

    /// Returns true only if, where a record with this body lists dependences, this parent is given, and runs.
    fn may_list(&self, body: &Body, parent: Option<u64>) -> bool
        ensures { IsTrue result → MayList self.now.replay body.now parent }
    {
        match (body, parent) {
            (Body::Dependences { .. }, Some(parent)) => self.replay.runs(parent),
            (Body::Dependences { .. }, None) => false,
            _ => true,
        }
    }
}

/// Returns the task that the record ends: it finishes the task, and not the body alone, or ends it as a root.
fn ended(record: &Record) -> Option<u64>
    ensures { result ≡ ended «record».now.body }
{
    match finish(record) {
        Some((task, Part::Whole | Part::Event)) => Some(task),
        Some((_, Part::Body)) => None,
        None => record.body.ended_root(),
    }
}

/// Returns the task whose predecessors must be complete at a record with this body, if it has dependences.
fn preceded(body: &Body) -> Option<u64>
    ensures value { result ≡ preceded_of body.now }
    ensures must { IfSome result (MustBePreceded body.now) }
{
    match body {
        Body::TaskSchedule {
            status: Status::TaskwaitComplete,
            prior,
            ..
        } => Some(*prior),
        _ => match body.begun_turn() {
            Some((task, 0)) => Some(task),
            _ => None,
        },
    }
}

/// Returns that task, or the one whose dependences the record lists.
fn dependent(body: &Body) -> Option<u64>
    ensures { result ≡ dependent_of body.now }
{
    match body {
        Body::Dependences { task, .. } => Some(*task),
        _ => preceded(body),
    }
}
