//! One recorded event.
ghost use Rattle.std.specs.Prelude.{◌≡◌, option_map, option_copied};
ghost use Rattle.ompt_events.specs.Flags as flag;
ghost use Rattle.ompt_events.specs.Flags.{has_flag};
ghost use Rattle.ompt_events.specs.Records.{begun_root, ended_root, joined, begun_initial, forked, region_named, creation, created, created_with_deps, dependences, made, started, told_turns, begun_turn, suspended_turn, ended_turn, wait_completed, discarded, running, region, flags, claim, named, finish};
ghost use Rattle.ompt_events.specs.Regions.{ends_wait};

use crate::boxed_claim::BoxedClaim;
use crate::claim_path::ClaimPath;
use crate::deps::{Dep, Deps};
use crate::flags::{CancelFlags, TaskFlags};
use crate::named::NamedTasks;
use crate::names::{Endpoint, Status, SyncKind, ThreadKind};
use bitflags::Flags;

/// How much of a task a finishing record finishes. A detachable task (OpenMP 5.2, 12.5.2)
/// is complete when both its body and its event are finished; any other task is finished whole.
#[derive(Clone, Copy, Debug, PartialEq, Eq)]
pub enum Part {
    Whole,
    Body,
    Event,
}

/// What a finishing record says of the place of its task in the tree of tasks.
#[derive(Debug, Drop, PartialEq)]
pub struct Claim {
    /// How many children the task created.
    pub kept: u32,
    /// The initial or implicit task at the top of the task's tree.
    pub root: u64,
    /// The numbers of the children from the root down to the task, at most 1,024 of them.
    pub path: ClaimPath,
}

/// Which turns a task_schedule event ends and begins, in files of version 2 and 3. A task runs in turns: it starts
/// in turn 0, and each time that it resumes after a suspension its turn is one more. A root begins in turn
/// 0.
#[derive(Clone, Copy, Debug, PartialEq, Eq)]
pub struct Turns {
    /// The turn of the prior task, which ends.
    pub prior: u32,
    /// The turn of the next task, which begins.
    pub next: u32,
}

/// A task's place in the team of a parallel region (OpenMP 5.2, 10.1 and 19.5.2.11).
#[derive(Clone, Copy, Debug, PartialEq, Eq)]
pub struct Membership {
    /// The parallel region.
    pub parallel: u64,
    /// How many members its team has.
    pub actual: u32,
    /// The member's number in the team, from 0.
    pub index: u32,
    /// The implicit task that is the member.
    pub member: u64,
}

/// What happened, with the arguments of its OMPT callback (OpenMP 5.2, 19.5.2).
#[derive(Debug, Drop, PartialEq)]
pub enum Body {
    /// A thread begins (19.5.2.1).
    ThreadBegin {
        kind: ThreadKind,
    },
    /// A thread ends (19.5.2.2).
    ThreadEnd,
    /// `task` begins a parallel region, and requests this number of threads for it (19.5.2.3).
    ParallelBegin {
        requested: u32,
        task: u64,
        parallel: u64,
    },
    /// `task` ends a parallel region (19.5.2.4).
    ParallelEnd {
        task: u64,
        parallel: u64,
    },
    /// An initial or implicit task begins or ends (19.5.2.11). With the flag `initial` it is an initial
    /// task; else it is a member of the team of `parallel`, `actual` is the size of that team, and `index`
    /// its number there.
    ImplicitTask {
        endpoint: Endpoint,
        actual: u32,
        index: u32,
        flags: TaskFlags,
        parallel: u64,
        task: u64,
    },
    /// `task` creates the explicit task `child` (19.5.2.7). With `deps` its dependences follow in the
    /// thread.
    TaskCreate {
        deps: bool,
        flags: TaskFlags,
        task: u64,
        child: u64,
    },
    /// What `task` depends on, at most 64 items (19.5.2.8).
    Dependences {
        task: u64,
        list: Deps,
    },
    /// `prior` stops running or is fulfilled with this status (19.5.2.10), and `next`, where there is one,
    /// runs from here on. A finishing record has a `claim`. In a trace of version 2 or 3 one with a `next` has
    /// `turns`.
    TaskSchedule {
        status: Status,
        turns: Option<Turns>,
        prior: u64,
        next: Option<u64>,
        claim: Option<BoxedClaim>,
    },
    /// `task` begins or ends a synchronisation region (19.5.2.13).
    SyncRegion {
        kind: SyncKind,
        endpoint: Endpoint,
        parallel: Option<u64>,
        task: u64,
    },
    /// `task` cancels a region or sees it cancelled, or is itself discarded (19.5.2.18). Discarded, it has
    /// a `claim`.
    Cancel {
        flags: CancelFlags,
        task: u64,
        claim: Option<BoxedClaim>,
    },
}

impl Body {
    /// Returns the initial or implicit task that begins.
    pub fn begun_root(&self) -> Option<u64>
        ensures { result ≡ begun_root self.now }
    {
        match self {
            Body::ImplicitTask {
                endpoint: Endpoint::Begin,
                task,
                ..
            } => Some(*task),
            _ => None,
        }
    }

    /// Returns the initial or implicit task that ends.
    pub fn ended_root(&self) -> Option<u64>
        ensures { result ≡ ended_root self.now }
    {
        match self {
            Body::ImplicitTask {
                endpoint: Endpoint::End,
                task,
                ..
            } => Some(*task),
            _ => None,
        }
    }

    /// Returns the member of a team that begins: an implicit task. An initial task is no member.
    pub fn joined(&self) -> Option<Membership>
        ensures { result ≡ joined self.now }
    {
        match self {
            Body::ImplicitTask {
                endpoint: Endpoint::Begin,
                actual,
                index,
                flags,
                parallel,
                task,
            } if !is_initial(*flags) => Some(Membership {
                parallel: *parallel,
                actual: *actual,
                index: *index,
                member: *task,
            }),
            _ => None,
        }
    }

    /// Returns the initial task that begins.
    pub fn begun_initial(&self) -> Option<u64>
        ensures { result ≡ begun_initial self.now }
    {
        match self {
            Body::ImplicitTask {
                endpoint: Endpoint::Begin,
                flags,
                task,
                ..
            } if is_initial(*flags) => Some(*task),
            _ => None,
        }
    }

    /// Returns the task that begins a parallel region, and the region.
    pub fn forked(&self) -> Option<(u64, u64)>
        ensures { result ≡ forked self.now }
    {
        match self {
            Body::ParallelBegin { task, parallel, .. } => Some((*task, *parallel)),
            _ => None,
        }
    }

    /// Returns the parallel region that ends, or whose team a task joins.
    pub fn region_named(&self) -> Option<u64>
        ensures { result ≡ region_named self.now }
    {
        match self {
            Body::ParallelEnd { parallel, .. } => Some(*parallel),
            _ => self.joined().map(|member| member.parallel),
        }
    }

    /// Returns the task that creates, and the explicit task that it creates.
    pub fn creation(&self) -> Option<(u64, u64)>
        ensures { result ≡ creation self.now }
    {
        match self {
            Body::TaskCreate { task, child, .. } => Some((*task, *child)),
            _ => None,
        }
    }

    /// Returns the explicit task that is created.
    pub fn created(&self) -> Option<u64>
        ensures { result ≡ created self.now }
    {
        self.creation().map(|(_, child)| child)
    }

    /// Returns the explicit task that is created, where its dependences follow.
    pub fn created_with_deps(&self) -> Option<u64>
        ensures { result ≡ created_with_deps self.now }
    {
        match self {
            Body::TaskCreate {
                deps: true,
                child,
                ..
            } => Some(*child),
            _ => None,
        }
    }

    /// Returns the task whose dependences are listed, and the list.
    pub fn dependences(&self) -> Option<(u64, &[Dep])>
        ensures { option_map (λ d. (d.0, d.1.now)) result ≡ dependences self.now }
    {
        match self {
            Body::Dependences { task, list } => Some((*task, list.as_slice())),
            _ => None,
        }
    }

    /// Returns the task that the record makes: one that is created, or an initial or implicit one that
    /// begins.
    pub fn made(&self) -> Option<u64>
        ensures { result ≡ made self.now }
    {
        match self {
            Body::TaskCreate { child, .. } => Some(*child),
            _ => self.begun_root(),
        }
    }

    /// Returns the task that runs next.
    pub fn started(&self) -> Option<u64>
        ensures { result ≡ started self.now }
    {
        match self {
            Body::TaskSchedule { next, .. } => *next,
            _ => None,
        }
    }

    /// Returns the turns that the record has: the one of the prior task that ends, and the one of the next
    /// task that begins.
    pub fn told_turns(&self) -> Option<Turns>
        ensures { result ≡ told_turns self.now }
    {
        match self {
            Body::TaskSchedule { turns, .. } => *turns,
            _ => None,
        }
    }

    /// Returns the task that runs next, and the turn that it begins: turn 0 if the record has no turns.
    pub fn begun_turn(&self) -> Option<(u64, u32)>
        ensures { result ≡ begun_turn self.now }
    {
        match self {
            Body::TaskSchedule {
                turns,
                next: Some(next),
                ..
            } => Some((*next, turns.map_or(0, |told| told.next))),
            _ => None,
        }
    }

    /// Returns the task that is suspended, and the turn that it ends: turn 0 if the record has no turns.
    pub fn suspended_turn(&self) -> Option<(u64, u32)>
        ensures { result ≡ suspended_turn self.now }
    {
        match self {
            Body::TaskSchedule {
                status: Status::Yield | Status::Switch,
                turns,
                prior,
                ..
            } => Some((*prior, turns.map_or(0, |told| told.prior))),
            _ => None,
        }
    }

    /// Returns the task that stops running, and the turn that it ends: turn 0 if the record has no turns.
    pub fn ended_turn(&self) -> Option<(u64, u32)>
        ensures { result ≡ ended_turn self.now }
    {
        match self {
            Body::TaskSchedule {
                status,
                turns,
                prior,
                ..
            } if status.demands_next() => Some((*prior, turns.map_or(0, |told| told.prior))),
            _ => None,
        }
    }

    /// Returns the taskwait with dependences that is complete (OpenMP 5.2, 15.5).
    pub fn wait_completed(&self) -> Option<u64>
        ensures { result ≡ wait_completed self.now }
    {
        match self {
            Body::TaskSchedule {
                status: Status::TaskwaitComplete,
                prior,
                ..
            } => Some(*prior),
            _ => None,
        }
    }

    /// Returns the task that must be running on the thread: the one that the record is of.
    pub fn running(&self) -> Option<u64>
        ensures { result ≡ running self.now }
    {
        match self {
            Body::ParallelBegin { task, .. } | Body::ParallelEnd { task, .. } => Some(*task),
            Body::ImplicitTask { .. } => self.ended_root(),
            Body::TaskCreate { task, .. } => Some(*task),
            Body::TaskSchedule { status, prior, .. } if status.demands_next() => Some(*prior),
            Body::SyncRegion { task, .. } => Some(*task),
            Body::Cancel { flags, task, .. } if !discards(*flags) => Some(*task),
            _ => None,
        }
    }

    /// Returns the task that is discarded before it began (OpenMP 5.2, 11.5).
    pub fn discarded(&self) -> Option<u64>
        ensures { result ≡ discarded self.now }
    {
        match self {
            Body::Cancel { flags, task, .. } if discards(*flags) => Some(*task),
            _ => None,
        }
    }

    /// Returns the task that begins or ends a synchronisation region, with the region's kind.
    pub fn region(&self) -> Option<(u64, SyncKind, Endpoint)>
        ensures { result ≡ region self.now }
    {
        match self {
            Body::SyncRegion {
                kind,
                endpoint,
                task,
                ..
            } => Some((*task, *kind, *endpoint)),
            _ => None,
        }
    }

    /// Returns whether the record ends a region that waits for tasks. A begin and end in one is an end too.
    pub fn ends_wait(&self) -> bool
        ensures { result ≡ ends_wait self.now }
    {
        match self.region() {
            Some((_, kind, endpoint)) => endpoint != Endpoint::Begin && kind.waits_for_tasks(),
            None => false,
        }
    }

    /// Returns the flags of the task that begins, ends or is created.
    pub fn flags(&self) -> Option<TaskFlags>
        ensures { option_map (λ f. f.0) result ≡ flags self.now }
    {
        match self {
            Body::ImplicitTask { flags, .. } | Body::TaskCreate { flags, .. } => Some(*flags),
            _ => None,
        }
    }

    /// Returns the record's claim of the place of the task that it finishes.
    pub fn claim(&self) -> Option<&Claim>
        ensures { option_copied result ≡ claim self.now }
    {
        match self {
            Body::TaskSchedule { claim, .. } | Body::Cancel { claim, .. } => match claim {
                Some(claim) => Some(claim.get()),
                None => None,
            },
            _ => None,
        }
    }

    /// Returns each task that the record names, also the root of its claim.
    pub fn named(&self) -> NamedTasks
        ensures { result ≡ named self.now }
    {
        match self {
            Body::ThreadBegin { .. } | Body::ThreadEnd => NamedTasks::none(),
            Body::ParallelBegin { task, .. }
            | Body::ParallelEnd { task, .. }
            | Body::ImplicitTask { task, .. }
            | Body::Dependences { task, .. }
            | Body::SyncRegion { task, .. } => NamedTasks::of(*task, None, None),
            Body::TaskCreate { task, child, .. } => NamedTasks::of(*task, Some(*child), None),
            Body::TaskSchedule {
                prior,
                next,
                claim,
                ..
            } => { NamedTasks::of(*prior, *next, claimed_root(claim)) }
            Body::Cancel { task, claim, .. } => NamedTasks::of(*task, claimed_root(claim), None),
        }
    }
}

/// One event, as its thread recorded it.
#[derive(Debug, Drop, PartialEq)]
pub struct Record {
    /// The thread that recorded it.
    pub thread: u8,
    /// Whether parallel regions may lie inside others: in a trace of version 3. There the end of an initial or
    /// implicit task lets the task go on that ran when it began; else the root below it goes on.
    pub nests: bool,
    /// How many records its thread made before it.
    pub seq: u32,
    /// The length of the ledger of finished tasks, as far as the thread knew it. Of a finishing record it is
    /// the index of its own entry.
    pub seen: u32,
    /// What happened.
    pub body: Body,
}

/// Returns the task that the record finishes, and in which part.
pub fn finish(event: &Record) -> Option<(u64, Part)>
    ensures { result ≡ finish event.now.body }
{
    match &event.body {
        Body::TaskSchedule { status, prior, .. } => match status.part() {
            Some(part) => Some((*prior, part)),
            None => None,
        },
        body => match body.discarded() {
            Some(task) => Some((task, Part::Whole)),
            None => None,
        },
    }
}

/// Returns whether the task is an initial one.
fn is_initial(flags: TaskFlags) -> bool
    ensures { result ≡ has_flag flags.0 flag.initial }
{
    flags.contains(TaskFlags::INITIAL)
}

/// Returns the root of the claim.
fn claimed_root(claim: &Option<BoxedClaim>) -> Option<u64>
    ensures { result ≡ option_map (λ c. c.root) claim.now }
{
    claim.as_ref().map(|claim| claim.get().root)
}

/// Returns whether a cancellation discards its task.
fn discards(flags: CancelFlags) -> bool
    ensures { result ≡ has_flag flags.0 flag.discarded_task }
{
    flags.contains(CancelFlags::DISCARDED_TASK)
}

// A record takes at most 72 bytes beside its claim and its lists, and a claim at most 56 beside the list of a
// path that is not kept in it.
const _: () = prove!(std::mem::size_of::<Record>() <= 72);

const _: () = prove!(std::mem::size_of::<Claim>() <= 56);
