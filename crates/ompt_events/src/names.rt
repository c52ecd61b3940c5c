//! The names of statuses, endpoints and kinds in a file.
ghost use Rattle.std.specs.Prelude.{◌≡◌, ◌↔◌, Some};
ghost use Rattle.ompt_events.specs.Waits.{wait_kind};
ghost use Rattle.ompt_events.specs.Regions.{is_barrier, is_called_barrier, waits_for_tasks};
ghost use Rattle.ompt_events.specs.Names.{status_name, endpoint_name, sync_kind_name, dep_kind_name, thread_kind_name, status_part, demands_next, conflict};

use crate::records::Part;

/// The status of the task that stops running or is fulfilled at a task_schedule event (OpenMP 5.2,
/// `ompt_task_status_t`).
#[derive(Clone, Copy, Debug, PartialEq, Eq)]
pub enum Status {
    Complete,
    Yield,
    Cancel,
    Detach,
    EarlyFulfill,
    LateFulfill,
    Switch,
    TaskwaitComplete,
}

/// Whether an event begins or ends its region, or both (OpenMP 5.2, `ompt_scope_endpoint_t`).
#[derive(Clone, Copy, Debug, PartialEq, Eq)]
pub enum Endpoint {
    Begin,
    End,
    /// The begin and the end coincide. Only synchronisation regions have it.
    BeginEnd,
}

/// Which construct a synchronisation region belongs to (OpenMP 5.2, `ompt_sync_region_t`).
#[derive(Clone, Copy, Debug, PartialEq, Eq)]
pub enum SyncKind {
    Barrier,
    BarrierImplicit,
    BarrierExplicit,
    BarrierImplementation,
    Taskwait,
    Taskgroup,
    Reduction,
    BarrierImplicitWorkshare,
    BarrierImplicitParallel,
    BarrierTeams,
}

/// How a task uses a location that it depends on (OpenMP 5.2, 15.9.5 and `ompt_dependence_type_t`).
#[derive(Clone, Copy, Debug, PartialEq, Eq)]
pub enum DepKind {
    In,
    Out,
    Inout,
    Mutexinoutset,
    Inoutset,
}

/// The type of a thread (OpenMP 5.2, `ompt_thread_t`).
#[derive(Clone, Copy, Debug, PartialEq, Eq)]
pub enum ThreadKind {
    Initial,
    Worker,
    Other,
    Unknown,
}

// Each table is written once; the first word names the code that its rows become.

// For each status: its name, whether another task runs next, and the part of its task that it finishes.
macro_rules! statuses {
    ($shape:ident $value:expr) => {
        $shape! {
            $value, Status,
            Complete = "complete" (true, Some(Part::Whole)),
            Yield = "yield" (true, None),
            Cancel = "cancel" (true, Some(Part::Whole)),
            Detach = "detach" (true, Some(Part::Body)),
            EarlyFulfill = "early_fulfill" (false, None),
            LateFulfill = "late_fulfill" (false, Some(Part::Event)),
            Switch = "switch" (true, None),
            TaskwaitComplete = "taskwait_complete" (false, Some(Part::Whole))
        }
    };
}

macro_rules! endpoints {
    ($shape:ident $value:expr) => {
        $shape! { $value, Endpoint, Begin = "begin" (), End = "end" (), BeginEnd = "beginend" () }
    };
}

macro_rules! sync_kinds {
    ($shape:ident $value:expr) => {
        $shape! {
            $value, SyncKind,
            Barrier = "barrier" (),
            BarrierImplicit = "barrier_implicit" (),
            BarrierExplicit = "barrier_explicit" (),
            BarrierImplementation = "barrier_implementation" (),
            Taskwait = "taskwait" (),
            Taskgroup = "taskgroup" (),
            Reduction = "reduction" (),
            BarrierImplicitWorkshare = "barrier_implicit_workshare" (),
            BarrierImplicitParallel = "barrier_implicit_parallel" (),
            BarrierTeams = "barrier_teams" ()
        }
    };
}

macro_rules! dep_kinds {
    ($shape:ident $value:expr) => {
        $shape! {
            $value, DepKind,
            In = "in" (),
            Out = "out" (),
            Inout = "inout" (),
            Mutexinoutset = "mutexinoutset" (),
            Inoutset = "inoutset" ()
        }
    };
}

macro_rules! thread_kinds {
    ($shape:ident $value:expr) => {
        $shape! {
            $value, ThreadKind,
            Initial = "initial" (),
            Worker = "worker" (),
            Other = "other" (),
            Unknown = "unknown" ()
        }
    };
}

macro_rules! name_of {
    ($value:expr, $kind:ident, $($variant:ident = $name:literal $facts:tt),*) => {
        match $value {
            $($kind::$variant => $name,)*
        }
    };
}

macro_rules! value_of {
    ($value:expr, $kind:ident, $($variant:ident = $name:literal $facts:tt),*) => {
        match $value {
            $($name => Some($kind::$variant),)*
            _ => None,
        }
    };
}

macro_rules! has_next {
    ($value:expr, $kind:ident, $($variant:ident = $name:literal ($next:expr, $part:expr)),*) => {
        match $value {
            $($kind::$variant => $next,)*
        }
    };
}

macro_rules! part_of {
    ($value:expr, $kind:ident, $($variant:ident = $name:literal ($next:expr, $part:expr)),*) => {
        match $value {
            $($kind::$variant => $part,)*
        }
    };
}

impl Status {
    /// Returns the name in a file.
    pub fn name(self) -> &'static str
        ensures { result.now ≡ status_name self }
    {
        statuses!(name_of self)
    }

    /// Returns the status with this name, if there is one.
    pub fn from_name(name: &str) -> Option<Self>
        ensures { (status : Status) → (result ≡ Some status) ↔ (status_name status ≡ name.now) }
    {
        statuses!(value_of name)
    }

    /// Returns whether another task runs after an event with this status.
    pub fn demands_next(self) -> bool
        ensures { result ≡ demands_next self }
    {
        statuses!(has_next self)
    }

    /// Returns the part of its task that an event with this status finishes, if it finishes any.
    pub fn part(self) -> Option<Part>
        ensures { result ≡ status_part self }
    {
        statuses!(part_of self)
    }
}

impl Endpoint {
    /// Returns the name in a file.
    pub fn name(self) -> &'static str
        ensures { result.now ≡ endpoint_name self }
    {
        endpoints!(name_of self)
    }

    /// Returns the endpoint with this name, if there is one.
    pub fn from_name(name: &str) -> Option<Self>
        ensures { (endpoint : Endpoint) → (result ≡ Some endpoint) ↔ (endpoint_name endpoint ≡ name.now) }
    {
        endpoints!(value_of name)
    }
}

impl SyncKind {
    /// Returns the name in a file.
    pub fn name(self) -> &'static str
        ensures { result.now ≡ sync_kind_name self }
    {
        sync_kinds!(name_of self)
    }

    /// Returns the kind with this name, if there is one.
    pub fn from_name(name: &str) -> Option<Self>
        ensures { (kind : SyncKind) → (result ≡ Some kind) ↔ (sync_kind_name kind ≡ name.now) }
    {
        sync_kinds!(value_of name)
    }

    /// Returns whether a region of this kind is a barrier that waits for the tasks of the parallel region
    /// (OpenMP 5.2, 15.3).
    pub fn is_barrier(self) -> bool
        ensures { result ≡ is_barrier self }
    {
        match self {
            SyncKind::Barrier
            | SyncKind::BarrierImplicit
            | SyncKind::BarrierExplicit
            | SyncKind::BarrierImplicitWorkshare
            | SyncKind::BarrierImplicitParallel => true,
            _ => false,
        }
    }

    /// Returns whether this is any kind of barrier. An explicit task may have no barrier (OpenMP 5.2, 15.3).
    pub fn is_called_barrier(self) -> bool
        ensures { result ≡ is_called_barrier self }
    {
        match self {
            SyncKind::BarrierImplementation | SyncKind::BarrierTeams => true,
            _ => self.is_barrier(),
        }
    }

    /// Returns whether the end of a region of this kind waits for tasks: a barrier, a taskwait or a
    /// taskgroup (OpenMP 5.2, 15.3, 15.4 and 15.5).
    pub fn waits_for_tasks(self) -> bool
        ensures { result ≡ waits_for_tasks self }
    {
        match self {
            SyncKind::Taskwait | SyncKind::Taskgroup => true,
            _ => self.is_barrier(),
        }
    }
}

/// The regions whose ends wait for tasks, by what they wait for (OpenMP 5.2, 15.3, 15.4 and 15.5).
#[derive(Clone, Copy, Debug, PartialEq, Eq)]
pub enum WaitKind {
    /// The children that were created before.
    Taskwait,
    /// The children that were created in it, with their descendants.
    Taskgroup,
    /// The children that the members of the team created before, with their descendants.
    Barrier,
}

impl SyncKind {
    /// Returns what the end of a region of this kind waits for, or none where it waits for no tasks.
    pub fn wait_kind(self) -> Option<WaitKind>
        ensures { result ≡ wait_kind self }
    {
        match self {
            SyncKind::Taskwait => Some(WaitKind::Taskwait),
            SyncKind::Taskgroup => Some(WaitKind::Taskgroup),
            _ if self.is_barrier() => Some(WaitKind::Barrier),
            _ => None,
        }
    }
}

impl DepKind {
    /// Returns the name in a file.
    pub fn name(self) -> &'static str
        ensures { result.now ≡ dep_kind_name self }
    {
        dep_kinds!(name_of self)
    }

    /// Returns the kind with this name, if there is one.
    pub fn from_name(name: &str) -> Option<Self>
        ensures { (kind : DepKind) → (result ≡ Some kind) ↔ (dep_kind_name kind ≡ name.now) }
    {
        dep_kinds!(value_of name)
    }
}

impl ThreadKind {
    /// Returns the name in a file.
    pub fn name(self) -> &'static str
        ensures { result.now ≡ thread_kind_name self }
    {
        thread_kinds!(name_of self)
    }

    /// Returns the kind with this name, if there is one.
    pub fn from_name(name: &str) -> Option<Self>
        ensures { (kind : ThreadKind) → (result ≡ Some kind) ↔ (thread_kind_name kind ≡ name.now) }
    {
        thread_kinds!(value_of name)
    }
}

/// Returns whether a task with the one dependence waits for an earlier sibling that has the other one at the
/// same location (OpenMP 5.2, 15.9.5).
pub fn conflicts(a: DepKind, b: DepKind) -> bool
    ensures { result ≡ conflict a b }
{
    match (a, b) {
        (DepKind::In, DepKind::In) => false,
        (DepKind::Inoutset, DepKind::Inoutset) => false,
        (DepKind::Mutexinoutset, DepKind::Mutexinoutset) => false,
        _ => true,
    }
}
