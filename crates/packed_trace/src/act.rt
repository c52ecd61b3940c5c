//! A packed event: what a record says, in eight bytes.
ghost use Rattle.std.specs.Prelude.{ℕ, Bool, ◌≡◌, Some, None, is_some, option_map, if◌then◌else◌};
ghost use Rattle.ompt_events.specs.declared.records.Body.{Body};
ghost use Rattle.ompt_events.specs.Flags as flag;
ghost use Rattle.ompt_events.specs.Flags.{has_flag};
ghost use Rattle.ompt_events.specs.Records.{begun_initial, begun_root, created, created_with_deps, creation, dependences, discarded, ended_root, finish, forked, fulfilled, joined, made, region, region_named, running, schedule, started, told_turns, wait_completed};
ghost use Rattle.ompt_events.specs.Regions.{ends_wait};
ghost use Rattle.ompt_events.specs.Traces.{HasItsNext};
ghost use Rattle.packed_trace.specs.Named.{subject, object};
ghost use Rattle.packed_trace.specs.Packed.{act_of, both, first_id, forked_region, made_with, root_begun, schedule_status, second_id, task_created};

use bitflags::Flags;
use ompt_events::{Endpoint, Part, Status, SyncKind, TaskFlags};

/// What a record says, without the tasks, regions and numbers that it names (OpenMP 5.2, 19.5.2).
#[derive(Clone, Copy, Debug)]
pub enum Act {
    /// A thread begins or ends.
    Thread,
    /// A task begins a parallel region.
    Fork,
    /// A task ends a parallel region.
    Join,
    /// An initial task begins. It has the flag `taskwait` or not, and the flag `target` or not.
    InitialBegin { wait: bool, target: bool },
    /// An implicit task begins, with these flags or without.
    ImplicitBegin { wait: bool, target: bool },
    /// An initial or implicit task ends.
    RootEnd,
    /// An initial or implicit task begins and ends, which no trace has.
    RootBoth,
    /// A task creates another one, which may be a taskwait with dependences, or a target task.
    Create { wait: bool, target: bool },
    /// The same, and the dependences of that task follow.
    CreateWithDeps { wait: bool, target: bool },
    /// The dependences of a task.
    Depend,
    /// A task_schedule event, which may have turns.
    Schedule { status: Status, told: bool },
    /// A task begins or ends a synchronisation region.
    Region { kind: SyncKind, endpoint: Endpoint },
    /// A cancellation, which may discard its task.
    Cancel { discards: bool },
}

/// What a record says, in few bytes.
#[derive(Clone, Copy, Debug)]
pub struct PackedEvent {
    pub act: Act,
    /// The thread that recorded it.
    pub thread: u8,
    /// The ledger length that it names.
    pub seen: u32,
}

impl Act {
    /// Returns whether the record is of a task.
    pub fn is_of_task(self) -> bool
        ensures { (body : Body) → act_of body ≡ self
            → subject body ≡ (if result then Some (first_id body) else None) }
    {
        match self {
            Act::Thread => false,
            _ => true,
        }
    }

    /// Returns whether the record names a second task: a child that it creates, or the next task of a schedule.
    pub fn names_second(self) -> bool
        ensures { (body : Body) → HasItsNext body → act_of body ≡ self
            → object body ≡ (if result then Some (second_id body) else None) }
    {
        match self {
            Act::Create { .. } | Act::CreateWithDeps { .. } => true,
            Act::Schedule { status, .. } => status.demands_next(),
            _ => false,
        }
    }

    /// Returns whether a task is created, the second one that the record names.
    pub fn creates(self) -> bool
        ensures created { (body : Body) → act_of body ≡ self
            → created body ≡ (if result then object body else None) }
        ensures creation { (body : Body) → act_of body ≡ self
            → creation body ≡ (if result then both (subject body) (object body) else None) }
        ensures ids { (body : Body) → act_of body ≡ self
            → creation body ≡ (if result then Some (first_id body, second_id body) else None) }
        ensures second { (body : Body) → act_of body ≡ self
            → created body ≡ (if result then Some (second_id body) else None) }
        ensures made { (body : Body) → act_of body ≡ self
            → made body ≡ (if result then Some (second_id body) else begun_root body) }
    {
        match self {
            Act::Create { .. } | Act::CreateWithDeps { .. } => true,
            _ => false,
        }
    }

    /// Returns whether a task is created whose dependences follow.
    pub fn creates_with_deps(self) -> bool
        ensures { (body : Body) → act_of body ≡ self
            → created_with_deps body ≡ (if result then object body else None) }
    {
        match self {
            Act::CreateWithDeps { .. } => true,
            _ => false,
        }
    }

    /// Returns whether the record makes a task that has the flag `taskwait` (15.5).
    pub fn makes_wait(self) -> bool
        ensures { (body : Body) → act_of body ≡ self → result ≡ made_with flag.taskwait body }
    {
        match self {
            Act::InitialBegin { wait, .. } => wait,
            Act::ImplicitBegin { wait, .. } => wait,
            Act::Create { wait, .. } => wait,
            Act::CreateWithDeps { wait, .. } => wait,
            _ => false,
        }
    }

    /// Returns whether the record makes a task that has the flag `target` (13.8).
    pub fn makes_target(self) -> bool
        ensures { (body : Body) → act_of body ≡ self → result ≡ made_with flag.target body }
    {
        match self {
            Act::InitialBegin { target, .. } => target,
            Act::ImplicitBegin { target, .. } => target,
            Act::Create { target, .. } => target,
            Act::CreateWithDeps { target, .. } => target,
            _ => false,
        }
    }

    /// Returns whether the record makes a task.
    pub fn makes(self) -> bool
        ensures { (body : Body) → act_of body ≡ self → result ≡ is_some (made body) }
    {
        match self {
            Act::InitialBegin { .. } | Act::ImplicitBegin { .. } => true,
            Act::Create { .. } | Act::CreateWithDeps { .. } => true,
            _ => false,
        }
    }

    /// Returns whether the second task that the record names, if it names one, runs next (19.5.2.10).
    pub fn starts(self) -> bool
        ensures { (body : Body) → act_of body ≡ self
            → started body ≡ (if result then object body else None) }
    {
        match self {
            Act::Schedule { .. } => true,
            _ => false,
        }
    }

    /// Returns whether the record has turns.
    pub fn tells_turns(self) -> bool
        ensures { (body : Body) → act_of body ≡ self → result ≡ is_some (told_turns body) }
    {
        match self {
            Act::Schedule { told, .. } => told,
            _ => false,
        }
    }

    /// Returns the status of a task_schedule event (19.5.2.10).
    pub fn status(self) -> Option<Status>
        ensures status { (body : Body) → act_of body ≡ self → result ≡ schedule_status body }
        ensures schedule { (body : Body) → act_of body ≡ self
            → schedule body ≡ option_map (λ s. (s.0, s.1, object body)) (both result (subject body)) }
    {
        match self {
            Act::Schedule { status, .. } => Some(status),
            _ => None,
        }
    }

    /// Returns whether the event of the task is fulfilled, early or late (12.5.2).
    pub fn fulfils(self) -> bool
        ensures { (body : Body) → act_of body ≡ self
            → fulfilled body ≡ (if result then subject body else None) }
    {
        match self {
            Act::Schedule {
                status: Status::EarlyFulfill | Status::LateFulfill,
                ..
            } => true,
            _ => false,
        }
    }

    /// Returns whether the task is a taskwait with dependences that is complete (15.5).
    pub fn completes_wait(self) -> bool
        ensures { (body : Body) → act_of body ≡ self
            → wait_completed body ≡ (if result then subject body else None) }
    {
        match self {
            Act::Schedule {
                status: Status::TaskwaitComplete,
                ..
            } => true,
            _ => false,
        }
    }

    /// Returns whether the task is discarded before it began (11.5).
    pub fn discards(self) -> bool
        ensures { (body : Body) → act_of body ≡ self
            → discarded body ≡ (if result then subject body else None) }
    {
        match self {
            Act::Cancel { discards } => discards,
            _ => false,
        }
    }

    /// Returns which part of the task is finished, if one is.
    pub fn finishes(self) -> Option<Part>
        ensures any { (body : Body) → act_of body ≡ self → is_some result ≡ is_some (finish body) }
        ensures finish { (body : Body) → act_of body ≡ self → finish body ≡ both (subject body) result }
    {
        match self {
            Act::Schedule { status, .. } => status.part(),
            Act::Cancel { discards: true } => Some(Part::Whole),
            _ => None,
        }
    }

    /// Returns whether the task must be running on the thread.
    pub fn runs(self) -> bool
        ensures { (body : Body) → act_of body ≡ self
            → running body ≡ (if result then subject body else None) }
    {
        match self {
            Act::Thread | Act::Depend => false,
            Act::InitialBegin { .. } | Act::ImplicitBegin { .. } | Act::RootBoth => false,
            Act::Fork | Act::Join | Act::RootEnd | Act::Region { .. } => true,
            Act::Create { .. } | Act::CreateWithDeps { .. } => true,
            Act::Schedule { status, .. } => status.demands_next(),
            Act::Cancel { discards } => !discards,
        }
    }

    /// Returns whether the task begins a parallel region (19.5.2.3).
    pub fn forks(self) -> bool
        ensures forked { (body : Body) → act_of body ≡ self
            → option_map (λ f. f.0) (forked body) ≡ (if result then subject body else None) }
        ensures region { (body : Body) → act_of body ≡ self
            → forked_region body ≡ (if result then Some (second_id body) else None) }
    {
        match self {
            Act::Fork => true,
            _ => false,
        }
    }

    /// Returns whether the record ends a parallel region, or its task joins the team of one.
    pub fn names_region(self) -> bool
        ensures { (body : Body) → act_of body ≡ self
            → region_named body ≡ (if result then Some (second_id body) else None) }
    {
        match self {
            Act::Join | Act::ImplicitBegin { .. } => true,
            _ => false,
        }
    }

    /// Returns whether the task is an initial or implicit one that begins.
    pub fn begins_root(self) -> bool
        ensures { (body : Body) → act_of body ≡ self
            → begun_root body ≡ (if result then subject body else None) }
    {
        match self {
            Act::InitialBegin { .. } | Act::ImplicitBegin { .. } => true,
            _ => false,
        }
    }

    /// Returns whether the task is an initial or implicit one that ends.
    pub fn ends_root(self) -> bool
        ensures { (body : Body) → act_of body ≡ self
            → ended_root body ≡ (if result then subject body else None) }
    {
        match self {
            Act::RootEnd => true,
            _ => false,
        }
    }

    /// Returns whether the task is an initial one that begins.
    pub fn begins_initial(self) -> bool
        ensures { (body : Body) → act_of body ≡ self
            → begun_initial body ≡ (if result then subject body else None) }
    {
        match self {
            Act::InitialBegin { .. } => true,
            _ => false,
        }
    }

    /// Returns whether the task is an implicit one that begins.
    pub fn joins(self) -> bool
        ensures { (body : Body) → act_of body ≡ self → result ≡ is_some (joined body) }
    {
        match self {
            Act::ImplicitBegin { .. } => true,
            _ => false,
        }
    }

    /// Returns whether the record lists dependences.
    pub fn depends(self) -> bool
        ensures { (body : Body) → act_of body ≡ self → result ≡ is_some (dependences body) }
    {
        match self {
            Act::Depend => true,
            _ => false,
        }
    }

    /// Returns whether a region ends that waits for tasks (15.3, 15.4 and 15.5).
    pub fn ends_wait(self) -> bool
        ensures { (body : Body) → act_of body ≡ self → result ≡ ends_wait body }
    {
        match self {
            Act::Region {
                endpoint: Endpoint::Begin,
                ..
            } => false,
            Act::Region { kind, .. } => kind.waits_for_tasks(),
            _ => false,
        }
    }

    /// Returns the synchronisation region that the task begins or ends (19.5.2.13).
    pub fn region(self) -> Option<(SyncKind, Endpoint)>
        ensures { (body : Body) → act_of body ≡ self
            → region body ≡ option_map (λ r. (r.0, r.1.0, r.1.1)) (both (subject body) result) }
    {
        match self {
            Act::Region { kind, endpoint } => Some((kind, endpoint)),
            _ => None,
        }
    }
}

/// Returns what the begin of a root with these flags is.
pub(crate) fn root_begun(flags: TaskFlags) -> Act
    ensures { result ≡ root_begun (has_flag flags.0 flag.initial) (has_flag flags.0 flag.taskwait)
        (has_flag flags.0 flag.target) }
{
    let wait = flags.contains(TaskFlags::TASKWAIT);
    let target = flags.contains(TaskFlags::TARGET);
    if flags.contains(TaskFlags::INITIAL) {
        Act::InitialBegin { wait, target }
    } else {
        Act::ImplicitBegin { wait, target }
    }
}

/// Returns what the creation of a task with these flags is, whose dependences follow or not.
pub(crate) fn task_created(deps: bool, flags: TaskFlags) -> Act
    ensures { result ≡ task_created deps (has_flag flags.0 flag.taskwait) (has_flag flags.0 flag.target) }
{
    let wait = flags.contains(TaskFlags::TASKWAIT);
    let target = flags.contains(TaskFlags::TARGET);
    if deps {
        Act::CreateWithDeps { wait, target }
    } else {
        Act::Create { wait, target }
    }
}

// A packed event takes eight bytes.
const _: () = prove!(std::mem::size_of::<PackedEvent>() <= 8);
