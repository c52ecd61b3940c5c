//! The records of a trace with the family of its tasks. All phases of an audit take them.
ghost use Rattle.std.specs.Prelude.{ℕ, ◌≡◌, ◌↔◌, ◌<◌, All, Option, Some, None, IsTrue, MatchOption, false, is_some, length, option_copied, option_map, slice_get, if◌then◌else◌};
ghost use Rattle.ompt_events.specs.declared.records.Body.{Body};
ghost use Rattle.ompt_events.specs.Records.{begun_initial, begun_root, begun_turn, claim, created, created_with_deps, creation, dependences, discarded, ended_root, ended_turn, finish, forked, fulfilled, joined, made, region, running, schedule, started, suspended_turn, told_turns, wait_completed};
ghost use Rattle.ompt_events.specs.Flags as flag;
ghost use Rattle.ompt_events.specs.Places.{at as says_at, thread_at, seen_at};
ghost use Rattle.ompt_events.specs.Causes.{known_after};
ghost use Rattle.ompt_events.specs.Tree.{IsExplicit, HasPath, children};
ghost use Rattle.task_tree.specs.Family.{IsFamilyOf};
ghost use Rattle.task_tree.specs.Lineage.{parent_index};
ghost use Rattle.packed_trace.specs.Packed.{act_of, forked_region, makes_with, packed, schedule_status};
ghost use Rattle.task_tree.specs.Rising.{IsStartOf};
ghost use Rattle.task_tree.specs.Runs.{IsRun, IsIndexOf, IsCreation, IsFinish, IsRegionEvent, IsSchedule, IsThreadEvent, IsNoThreadEvent, IsFork, IsNoWaitEvent, IsWaitEvent, AreDependences};
ghost use Rattle.packed_trace.specs.Named.{subject, object};

use crate::family::Family;
use ompt_events::{Claim, ClaimPath, Dep, Endpoint, Membership, Part, Status, SyncKind, WaitKind};
use packed_trace::{Act, PackedEvent, PackedTrace};
use std::marker::Model;

/// The records of a trace and the family of its tasks. Calls take the place of a record, from 0, and return
/// indices of tasks, their places in the order in which the records make them.
#[derive(Debug, Drop)]
pub struct Run<'a> {
    trace: &'a PackedTrace,
    family: &'a Family,
}

impl<'a> Model for Run<'a> {
    ghost use Rattle.task_tree.specs.Runs.{RunView, IsRun};

    ghost Value = { RunView };

    ghost view = { λ run. record { records = run.trace.now.records; family = run.family.now } };

    ghost invariant = { λ run. IsRun (record { records = run.trace.now.records; family = run.family.now }) };
}

/// A creation, by the indices of its tasks.
#[derive(Clone, Copy, Debug, PartialEq, Eq)]
pub struct Creation {
    /// The task that creates.
    pub parent: usize,
    /// The explicit task that it creates.
    pub child: usize,
}

/// A finish, by the index of its task.
#[derive(Clone, Copy, Debug, PartialEq, Eq)]
pub struct Finishing {
    /// The task that is finished.
    pub task: usize,
    /// How much of it.
    pub part: Part,
}

/// The begin or end of a synchronisation region, by the index of its task.
#[derive(Clone, Copy, Debug, PartialEq, Eq)]
pub struct RegionEvent {
    /// The task that begins or ends the region.
    pub task: usize,
    /// The region's kind.
    pub kind: SyncKind,
    /// Whether it begins, ends or both.
    pub endpoint: Endpoint,
}

/// A task_schedule event, by the indices of its tasks.
#[derive(Clone, Copy, Debug, PartialEq, Eq)]
pub struct Schedule {
    /// What became of the prior task.
    pub status: Status,
    /// The task that ran, or whose event was fulfilled, or that is complete.
    pub prior: usize,
    /// The task that runs next, if the status demands one.
    pub next: Option<usize>,
}

/// What a record says of the tasks that its thread runs, by their indices.
#[derive(Clone, Copy, Debug, PartialEq, Eq)]
pub enum ThreadEvent {
    /// A task_schedule event.
    Scheduled(Schedule),
    /// An initial or implicit task begins, and runs.
    RootBegin(usize),
    /// An initial or implicit task ends. It must be running.
    RootEnd(usize),
    /// Any other record of a task that must be running.
    Running(usize),
}

/// The begin or end of a region that waits for tasks, by the index of its task.
#[derive(Clone, Copy, Debug, PartialEq, Eq)]
pub struct WaitEvent {
    /// The task that begins or ends the region.
    pub task: usize,
    /// What its end waits for.
    pub kind: WaitKind,
    /// Whether it begins, ends or both.
    pub endpoint: Endpoint,
}

impl<'a> Run<'a> {
    /// Returns the run of the records of a trace. Requires that the family is that of its tasks. Takes no
    /// memory.
    pub fn of(trace: &'a PackedTrace, family: &'a Family) -> Run<'a>
        requires { IsFamilyOf trace.now.records family.now }
        ensures records { result.records ≡ trace.now.records }
        ensures family { result.family ≡ family.now }
    {
        // Makes it known that these are the records of a trace. It compiles to nothing.
        let _count = trace.len();
        Run { trace, family }
    }

    /// Returns a second view of the same run. Takes no memory.
    pub fn again(&self) -> Run<'a>
        ensures { result ≡ self.now }
    {
        Run {
            trace: self.trace,
            family: self.family,
        }
    }

    /// Returns the family of the tasks.
    pub fn family(&self) -> &'a Family
        ensures value { result.now ≡ self.now.family }
        ensures is_run { IsRun self.now }
    {
        self.family
    }

    /// Returns how many records there are.
    pub fn len(&self) -> usize
        ensures value { result ≡ length self.now.records }
        ensures is_run { IsRun self.now }
    {
        self.trace.len()
    }

    /// Returns whether parallel regions may lie inside others, which is so in all records or in none.
    pub fn nests(&self) -> bool
        ensures { All (λ r. r.nests ≡ result) self.now.records }
    {
        self.trace.nests()
    }

    /// Returns how many tasks there are.
    pub fn task_count(&self) -> usize
        ensures value { result ≡ length self.now.family.tasks }
        ensures is_run { IsRun self.now }
    {
        self.family.tasks().as_slice().len()
    }
}

// What a record says.
impl<'a> Run<'a> {
    /// Returns the thread that made the record.
    pub fn thread(&self, at: usize) -> u8
        requires { at < length self.now.records }
        ensures { thread_at self.now.records at ≡ Some result }
    {
        self.event(at).thread
    }

    /// Returns the ledger length that the record names.
    pub fn seen(&self, at: usize) -> u32
        requires { at < length self.now.records }
        ensures { result ≡ seen_at self.now.records at }
    {
        self.event(at).seen
    }

    /// Returns the task that the record is of: the root that begins or ends, the parent that creates, the
    /// prior task of a schedule, the task that is discarded, or the one that does what the record says.
    /// Returns none for the begin or end of a thread.
    pub fn subject(&self, at: usize) -> Option<usize>
        ensures { IsIndexOf self.now subject at result }
    {
        self.family.subject(at)
    }

    /// Returns the second task that the record names: the child that is created, or the next task of a
    /// schedule.
    pub fn object(&self, at: usize) -> Option<usize>
        ensures { IsIndexOf self.now object at result }
    {
        self.family.object(at)
    }

    /// Returns the creation of an explicit task, if the record is one (OpenMP 5.2, 19.5.2.7).
    pub fn creation(&self, at: usize) -> Option<Creation>
        requires { at < length self.now.records }
        ensures { MatchOption result (says_at creation self.now.records at ≡ None)
            (λ made. IsCreation self.now at made.parent made.child) }
    {
        if !self.act(at).creates() {
            return None;
        }
        let parent = self.subject_of(at)?;
        let child = self.object_of(at)?;
        Some(Creation { parent, child })
    }

    /// Returns the task that runs from the record on, if one is scheduled (19.5.2.10).
    pub fn started(&self, at: usize) -> Option<usize>
        requires { at < length self.now.records }
        ensures { IsIndexOf self.now started at result }
    {
        self.object_if(self.act(at).starts(), at)
    }

    /// Returns the explicit task that is created there.
    pub fn created(&self, at: usize) -> Option<usize>
        requires { at < length self.now.records }
        ensures { IsIndexOf self.now created at result }
    {
        self.object_if(self.act(at).creates(), at)
    }

    /// Returns whether the record makes a task.
    pub fn makes(&self, at: usize) -> bool
        requires { at < length self.now.records }
        ensures { result ≡ is_some (says_at made self.now.records at) }
    {
        self.act(at).makes()
    }

    /// Returns whether the record makes a taskwait with dependences (15.5): a task with the flag `taskwait`.
    pub fn makes_wait(&self, at: usize) -> bool
        requires { at < length self.now.records }
        ensures { result ≡ makes_with flag.taskwait self.now.records at }
    {
        self.act(at).makes_wait()
    }

    /// Returns whether the record makes a target task (13.8): one with the flag `target`.
    pub fn makes_target(&self, at: usize) -> bool
        requires { at < length self.now.records }
        ensures { result ≡ makes_with flag.target self.now.records at }
    {
        self.act(at).makes_target()
    }

    /// Returns the task whose event is fulfilled there, early or late (12.5.2).
    pub fn fulfilled(&self, at: usize) -> Option<usize>
        requires { at < length self.now.records }
        ensures { IsIndexOf self.now fulfilled at result }
    {
        self.subject_if(self.act(at).fulfils(), at)
    }

    /// Returns the task that is discarded there before it began (11.5).
    pub fn discarded(&self, at: usize) -> Option<usize>
        requires { at < length self.now.records }
        ensures { IsIndexOf self.now discarded at result }
    {
        self.subject_if(self.act(at).discards(), at)
    }

    /// Returns the taskwait with dependences that is complete there (15.5).
    pub fn wait_completed(&self, at: usize) -> Option<usize>
        requires { at < length self.now.records }
        ensures { IsIndexOf self.now wait_completed at result }
    {
        self.subject_if(self.act(at).completes_wait(), at)
    }

    /// Returns the task that must be running on the record's thread.
    pub fn running(&self, at: usize) -> Option<usize>
        requires { at < length self.now.records }
        ensures { IsIndexOf self.now running at result }
    {
        self.subject_if(self.act(at).runs(), at)
    }

    /// Returns the task that is finished there, and how much of it.
    pub fn finishing(&self, at: usize) -> Option<Finishing>
        requires { at < length self.now.records }
        ensures { MatchOption result (says_at finish self.now.records at ≡ None)
            (λ found. IsFinish self.now at found.task found.part) }
    {
        let part = self.act(at).finishes()?;
        let task = self.subject_of(at)?;
        Some(Finishing { task, part })
    }

    /// Returns whether a task is finished there, in whole or in part.
    pub fn is_finishing(&self, at: usize) -> bool
        requires { at < length self.now.records }
        ensures { result ≡ is_some (says_at finish self.now.records at) }
    {
        self.act(at).finishes().is_some()
    }

    /// Returns the ledger length that is known after the record: one more than it names if it makes an
    /// entry.
    pub fn known_after(&self, at: usize) -> u64
        requires { at < length self.now.records }
        ensures { result ≡ known_after self.now.records at }
    {
        u64::from(self.seen(at)) + u64::from(self.is_finishing(at))
    }

    /// Returns the begin or end of a synchronisation region there (19.5.2.13).
    pub fn region(&self, at: usize) -> Option<RegionEvent>
        requires { at < length self.now.records }
        ensures { MatchOption result (says_at region self.now.records at ≡ None)
            (λ event. IsRegionEvent self.now at event.task event.kind event.endpoint) }
    {
        let (kind, endpoint) = self.act(at).region()?;
        let task = self.subject_of(at)?;
        Some(RegionEvent {
            task,
            kind,
            endpoint,
        })
    }
}

// What a record says of the tasks that its thread runs.
impl<'a> Run<'a> {
    /// Returns the status of the task_schedule event there, if the record is one (19.5.2.10).
    pub fn status(&self, at: usize) -> Option<Status>
        requires { at < length self.now.records }
        ensures { result ≡ says_at schedule_status self.now.records at }
    {
        self.act(at).status()
    }

    /// Returns the task_schedule event there, if the record is one (19.5.2.10).
    pub fn schedule(&self, at: usize) -> Option<Schedule>
        requires { at < length self.now.records }
        ensures { MatchOption result (says_at schedule self.now.records at ≡ None)
            (λ event. IsSchedule self.now at event.status event.prior event.next) }
    {
        let status = self.act(at).status()?;
        let prior = self.subject_of(at)?;
        let next = self.object_of(at);
        Some(Schedule {
            status,
            prior,
            next,
        })
    }

    /// Returns whether the record has turns.
    pub fn tells_turns(&self, at: usize) -> bool
        requires { at < length self.now.records }
        ensures { result ≡ is_some (says_at told_turns self.now.records at) }
    {
        self.trace.tells_turns(at)
    }

    /// Returns the task that runs from the record on, if one is scheduled, and the turn that it begins: turn
    /// 0 if the record has no turns.
    pub fn begun_turn(&self, at: usize) -> Option<(usize, u32)>
        requires { at < length self.now.records }
        ensures { MatchOption result (says_at begun_turn self.now.records at ≡ None)
            (λ begin. IsStartOf self.now.records self.now.family.tasks at begin.0 begin.1) }
    {
        let index = self.started(at)?;
        if !self.tells_turns(at) {
            return Some((index, 0));
        }
        let (_, turn) = self.trace.begun_turn(at)?;
        Some((index, turn))
    }

    /// Returns the turn that the task which is scheduled begins there: turn 0 if the record has no turns, and
    /// none if no task is scheduled.
    pub fn next_turn(&self, at: usize) -> Option<u32>
        requires { at < length self.now.records }
        ensures { result ≡ option_map (λ b. b.1) (says_at begun_turn self.now.records at) }
    {
        self.trace.begun_turn(at).map(|(_, turn)| turn)
    }

    /// Returns the turn that the task which stops running ends there, whether or not it runs again.
    pub fn ended_turn(&self, at: usize) -> Option<u32>
        requires { at < length self.now.records }
        ensures { result ≡ option_map (λ b. b.1) (says_at ended_turn self.now.records at) }
    {
        self.trace.ended_turn(at).map(|(_, turn)| turn)
    }

    /// Returns the turn that the task which is suspended ends there.
    pub fn suspended_turn(&self, at: usize) -> Option<u32>
        requires { at < length self.now.records }
        ensures { result ≡ option_map (λ b. b.1) (says_at suspended_turn self.now.records at) }
    {
        self.trace.suspended_turn(at).map(|(_, turn)| turn)
    }

    /// Returns what the record says of the tasks that its thread runs (12.9), if it says anything of them.
    pub fn thread_event(&self, at: usize) -> Option<ThreadEvent>
        requires { at < length self.now.records }
        ensures { MatchOption result (IsNoThreadEvent self.now at) (IsThreadEvent self.now at) }
    {
        if let Some(event) = self.schedule(at) {
            return Some(ThreadEvent::Scheduled(event));
        }
        if let Some(root) = self.begun_root(at) {
            return Some(ThreadEvent::RootBegin(root));
        }
        if let Some(root) = self.ended_root(at) {
            return Some(ThreadEvent::RootEnd(root));
        }
        let task = self.running(at)?;
        Some(ThreadEvent::Running(task))
    }
}

// What a record says of waits, teams and dependences.
impl<'a> Run<'a> {
    /// Returns the task that begins a parallel region there (19.5.2.3).
    pub fn forking(&self, at: usize) -> Option<usize>
        requires { at < length self.now.records }
        ensures { MatchOption result (says_at forked self.now.records at ≡ None)
            (IsFork self.now at) }
    {
        self.subject_if(self.act(at).forks(), at)
    }

    /// Returns the parallel region that begins there.
    pub fn forked_region(&self, at: usize) -> Option<u64>
        requires { at < length self.now.records }
        ensures { result ≡ says_at forked_region self.now.records at }
    {
        self.trace.forked_region(at)
    }

    /// Returns the begin or end of a region that waits for tasks (15.3, 15.4 and 15.5), if the record is
    /// one.
    pub fn wait_event(&self, at: usize) -> Option<WaitEvent>
        requires { at < length self.now.records }
        ensures { MatchOption result (IsNoWaitEvent self.now at)
            (λ event. IsWaitEvent self.now at event.task event.kind event.endpoint) }
    {
        let (kind, endpoint) = self.act(at).region()?;
        let kind = kind.wait_kind()?;
        let task = self.subject_of(at)?;
        Some(WaitEvent {
            task,
            kind,
            endpoint,
        })
    }

    /// Returns the initial or implicit task that begins there.
    pub fn begun_root(&self, at: usize) -> Option<usize>
        requires { at < length self.now.records }
        ensures { IsIndexOf self.now begun_root at result }
    {
        self.subject_if(self.act(at).begins_root(), at)
    }

    /// Returns the initial or implicit task that ends there.
    pub fn ended_root(&self, at: usize) -> Option<usize>
        requires { at < length self.now.records }
        ensures { IsIndexOf self.now ended_root at result }
    {
        self.subject_if(self.act(at).ends_root(), at)
    }

    /// Returns the initial task that begins there.
    pub fn begun_initial(&self, at: usize) -> Option<usize>
        requires { at < length self.now.records }
        ensures { IsIndexOf self.now begun_initial at result }
    {
        self.subject_if(self.act(at).begins_initial(), at)
    }

    /// Returns the number in its team of the implicit task that begins there, with the team and its size.
    /// Returns none for an initial task.
    pub fn joined(&self, at: usize) -> Option<Membership>
        requires { at < length self.now.records }
        ensures { result ≡ says_at joined self.now.records at }
    {
        self.trace.joined(at)
    }

    /// Returns the claim of the record that finishes a task, if it has one.
    pub fn claim(&self, at: usize) -> Option<&'a Claim>
        requires { at < length self.now.records }
        ensures { option_copied result ≡ says_at claim self.now.records at }
    {
        let trace = self.trace;
        trace.claim(at)
    }

    /// Returns what `claim` does. Looks first at the claim with this index among all claims.
    pub fn claim_near(&self, at: usize, near: usize) -> Option<&'a Claim>
        requires { at < length self.now.records }
        ensures { option_copied result ≡ says_at claim self.now.records at }
    {
        let trace = self.trace;
        trace.claim_near(at, near)
    }

    /// Returns the task that is created there with dependences, which follow.
    pub fn created_with_deps(&self, at: usize) -> Option<usize>
        requires { at < length self.now.records }
        ensures { IsIndexOf self.now created_with_deps at result }
    {
        self.object_if(self.act(at).creates_with_deps(), at)
    }

    /// Returns the dependences that the record lists, and the task that has them (15.9.5).
    pub fn dependences(&self, at: usize) -> Option<(usize, &'a [Dep])>
        requires { at < length self.now.records }
        ensures { MatchOption result (says_at dependences self.now.records at ≡ None)
            (λ list. AreDependences self.now at list.0 list.1.now) }
    {
        if !self.act(at).depends() {
            return None;
        }
        let trace = self.trace;
        let items = trace.listed_deps(at)?;
        let task = self.subject_of(at)?;
        Some((task, items))
    }
}

impl Run<'_> {
    /// Returns the packed event of the record at a place. A run has one for each record.
    fn event(&self, at: usize) -> PackedEvent
        requires { at < length self.now.records }
        ensures { option_map packed (slice_get self.now.records at) ≡ Some result }
    {
        self.trace.event(at)
    }

    /// Returns what the record at a place says, without what it names.
    fn act(&self, at: usize) -> Act
        requires { at < length self.now.records }
        ensures { (body : Body) → says_at Some self.now.records at ≡ Some body → act_of body ≡ result }
    {
        self.trace.act(at)
    }

    /// Returns what `subject` of the family does. A run has an entry for each record, so none is missed.
    fn subject_of(&self, at: usize) -> Option<usize>
        requires { at < length self.now.records }
        ensures { IsIndexOf self.now subject at result }
    {
        self.family.subject_of(at)
    }

    /// Returns what `object` of the family does.
    fn object_of(&self, at: usize) -> Option<usize>
        requires { at < length self.now.records }
        ensures { IsIndexOf self.now object at result }
    {
        self.family.object_of(at)
    }

    /// Returns the index of the task that the record is of, if the record names one in this way.
    fn subject_if(&self, named: bool, at: usize) -> Option<usize>
        requires { at < length self.now.records }
        ensures { (says : Body → Option ℕ)
            → ((body : Body) → says_at Some self.now.records at ≡ Some body
            → says body ≡ (if named then subject body else None))
            → IsIndexOf self.now says at result }
    {
        if named { self.subject_of(at) } else { None }
    }

    /// Returns the index of the second task of the record, if the record names one in this way.
    fn object_if(&self, named: bool, at: usize) -> Option<usize>
        requires { at < length self.now.records }
        ensures { (says : Body → Option ℕ)
            → ((body : Body) → says_at Some self.now.records at ≡ Some body
            → says body ≡ (if named then object body else None))
            → IsIndexOf self.now says at result }
    {
        if named { self.object_of(at) } else { None }
    }
}

// What is known of a task.
impl<'a> Run<'a> {
    /// Returns the id of the task at this index.
    pub fn task(&self, index: usize) -> u64
        requires { index < length self.now.family.tasks }
        ensures { slice_get self.now.family.tasks index ≡ Some result }
    {
        self.family.tasks().as_slice()[index]
    }

    /// Returns the index of the task, if a record makes it.
    pub fn index_of(&self, task: u64) -> Option<usize>
        ensures { (index : ℕ) → (result ≡ Some index) ↔ (slice_get self.now.family.tasks index ≡ Some task) }
    {
        self.family.tasks().index_of(task)
    }

    /// Returns the place of the record that makes the task at this index.
    pub fn made_at(&self, index: usize) -> usize
        requires { index < length self.now.family.tasks }
        ensures { says_at made self.now.records result ≡ slice_get self.now.family.tasks index }
    {
        self.family.made_at(index)
    }

    /// Returns the place of the record that creates the task at this index, none for a root.
    pub fn created_at(&self, index: usize) -> Option<usize>
        requires { index < length self.now.family.tasks }
        ensures { (task place : ℕ) → slice_get self.now.family.tasks index ≡ Some task
            → (result ≡ Some place) ↔ (says_at created self.now.records place ≡ Some task) }
    {
        if self.family.is_explicit_at(index) {
            Some(self.family.made_at(index))
        } else {
            None
        }
    }

    /// Returns whether another task created the task at this index.
    pub fn is_explicit(&self, index: usize) -> bool
        requires { index < length self.now.family.tasks }
        ensures { (task : ℕ) → slice_get self.now.family.tasks index ≡ Some task
            → IsTrue result ↔ IsExplicit self.now.records task }
    {
        self.family.is_explicit_at(index)
    }

    /// Returns the index of the task that created the one at this index, none for a root.
    pub fn parent(&self, index: usize) -> Option<usize>
        ensures { result ≡ parent_index self.now.family index }
    {
        self.family.parent_at(index)
    }

    /// Returns the children of the task at this index, in the order of their numbers.
    pub fn children(&self, index: usize) -> &'a [u64]
        requires { index < length self.now.family.tasks }
        ensures { (task : ℕ) → slice_get self.now.family.tasks index ≡ Some task
            → result.now ≡ children self.now.records task }
    {
        self.family.children_at(index)
    }

    /// Returns how many children the task at this index has.
    pub fn child_count(&self, index: usize) -> usize
        requires { index < length self.now.family.tasks }
        ensures { (task : ℕ) → slice_get self.now.family.tasks index ≡ Some task
            → result ≡ length (children self.now.records task) }
    {
        self.family.child_count(index)
    }

    /// Returns whether the task at this index has this root and this path, the numbers of the children from
    /// the root down. Takes at most as many steps as the path has numbers.
    pub fn has_path(&self, index: usize, root: u64, path: &ClaimPath) -> bool
        requires { index < length self.now.family.tasks }
        ensures { (task : ℕ) → slice_get self.now.family.tasks index ≡ Some task
            → IsTrue result ↔ HasPath self.now.records root task path.now }
    {
        self.family.has_path(index, root, path)
    }
}
