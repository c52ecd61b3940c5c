//! The state of a thread while it records.
ghost use Rattle.std.specs.Prelude.{◌≡◌, None, slice_get, OnOk, OnErr, IsOk};
ghost use Rattle.ompt_events.specs.Records.{begun_root};
ghost use Rattle.ompt_events.specs.States.{is_task};
ghost use Rattle.callbacks.specs.Standing.{standing_at_start, innermost, with_root, without_root, next_standing, is_same, is_in_place, runs_its_task, ends_innermost, fits, is_outside, is_on_host};

use bitflags::Flags;
use ompt_events::{Body, Endpoint, TaskFlags};
use std::alloc::{AllocError, Global};
use std::marker::Model;

/// An initial or implicit task that is open on a thread.
#[derive(Clone, Copy)]
struct OpenRoot {
    task: u64,
    /// Whether it is an initial task, or else a member of a team.
    is_initial: bool,
    /// The task that ran when it began, if one did.
    outer: Option<u64>,
}

/// The open roots of a thread (its initial and implicit tasks), the task that it runs, and the creation that
/// awaits its dependences.
#[derive(Drop)]
pub struct Standing {
    /// The innermost last.
    roots: Vec<OpenRoot>,
    /// The task that the thread runs.
    current: Option<u64>,
    /// The task that was created with dependences, which come next.
    awaited: Option<u64>,
}

impl Model for Standing {
    ghost use Rattle.std.specs.Prelude.{map, reverse};
    ghost use Rattle.callbacks.specs.Standing as specs;

    ghost Value = { specs.Standing };

    ghost view = { λ standing. record {
      walk = record {
        roots = map (λ r. r.task) (reverse standing.roots.items);
        outer = map (λ r. r.outer) (reverse standing.roots.items);
        current = standing.current;
      };
      initial = map (λ r. r.is_initial) (reverse standing.roots.items);
      awaited = standing.awaited;
    } };
}

impl Standing {
    /// Returns the state of a thread that has recorded nothing. Takes no memory.
    pub(crate) fn at_start(alloc: Global) -> Standing
        ensures { result ≡ standing_at_start }
    {
        Standing {
            roots: Vec::new(alloc),
            current: None,
            awaited: None,
        }
    }

    /// Returns the task that the thread runs.
    pub fn current(&self) -> Option<u64>
        ensures { result ≡ self.now.walk.current }
    {
        self.current
    }

    /// Returns the task that was created with dependences, which come next.
    pub fn awaited(&self) -> Option<u64>
        ensures { result ≡ self.now.awaited }
    {
        self.awaited
    }

    /// Returns the innermost open root.
    pub fn innermost(&self) -> Option<u64>
        ensures { result ≡ innermost self.now }
    {
        match self.roots.last() {
            Some(root) => Some(root.task),
            None => None,
        }
    }

    /// Returns whether the innermost open root is an initial task, or else a member of a team.
    fn is_initial(&self) -> Option<bool>
        ensures { result ≡ slice_get self.now.initial 0 }
    {
        match self.roots.last() {
            Some(root) => Some(root.is_initial),
            None => None,
        }
    }

    /// Changes the state to that after a record with this body, in a trace where regions may lie inside others
    /// or not. Fails only where a root begins, when out of memory, and changes nothing then.
    pub(crate) fn advance(&mut self, body: &Body, nests: bool) -> Result<(), AllocError>
        ensures advanced { OnOk result (self.new ≡ next_standing nests self.old body.now) }
        ensures unchanged { OnErr result (self.new ≡ self.old) }
        ensures infallible { begun_root body.now ≡ None → IsOk result }
    {
        match body {
            Body::ImplicitTask {
                endpoint: Endpoint::Begin,
                flags,
                task,
                ..
            } => self.begin_root(*flags, *task)?,
            Body::ImplicitTask {
                endpoint: Endpoint::End,
                ..
            } => self.end_root(nests),
            Body::TaskSchedule { status, next, .. } if status.demands_next() => {
                self.current = *next;
            }
            _ => {}
        }
        self.awaited = body.created_with_deps();
        Ok(())
    }
}

impl Standing {
    /// Begins a root, which runs.
    fn begin_root(&mut self, flags: TaskFlags, task: u64) -> Result<(), AllocError>
        ensures begun { OnOk result (self.new ≡ with_root self.old flags.0 task) }
        ensures unchanged { OnErr result (self.new ≡ self.old) }
    {
        self.roots.push(OpenRoot {
            task,
            is_initial: flags.contains(TaskFlags::INITIAL),
            outer: self.current,
        })?;
        self.current = Some(task);
        Ok(())
    }

    /// Ends the innermost root. Where regions may lie inside others the task that ran when it began runs
    /// again, else the root below it.
    fn end_root(&mut self, nests: bool)
        ensures { self.new ≡ without_root nests self.old }
    {
        let ended = self.roots.pop();
        self.current = match ended {
            Some(root) if nests => root.outer,
            _ => self.innermost(),
        };
    }

    /// Returns whether the record comes in its place and is of the task that runs, as far as it must be, and
    /// ends no root but the innermost.
    pub(crate) fn fits(&self, body: &Body) -> bool
        ensures { result ≡ fits self.now body.now }
    {
        self.is_in_place(body) && self.runs_its_task(body) && self.ends_innermost(body)
    }

    /// Returns whether the record lists the dependences that are awaited, or none are awaited and it lists
    /// none.
    fn is_in_place(&self, body: &Body) -> bool
        ensures { result ≡ is_in_place self.now body.now }
    {
        let listed = match body {
            Body::Dependences { task, .. } => Some(*task),
            _ => None,
        };
        is_same(self.awaited, listed)
    }

    /// Returns whether the record, if it must be of the running task, is of the task that the thread runs.
    fn runs_its_task(&self, body: &Body) -> bool
        ensures { result ≡ runs_its_task self.now body.now }
    {
        match body.running() {
            Some(task) => is_task(task, self.current),
            None => true,
        }
    }

    /// Returns whether a root that ends is the innermost open one.
    fn ends_innermost(&self, body: &Body) -> bool
        ensures { result ≡ ends_innermost self.now body.now }
    {
        match body.ended_root() {
            Some(task) => is_task(task, self.innermost()),
            None => true,
        }
    }

    /// Returns whether no parallel region, member or initial task begins inside a parallel region.
    pub(crate) fn is_outside(&self, body: &Body) -> bool
        ensures { result ≡ is_outside self.now body.now }
    {
        let is_initial = self.is_initial();
        let is_forked_outside = match body.forked() {
            Some((task, _)) => is_task(task, self.innermost()) && is_initial == Some(true),
            None => true,
        };
        is_forked_outside
            && !(body.joined().is_some() && is_initial == Some(false))
            && !(body.begun_initial().is_some() && self.innermost().is_some())
    }
}

/// Returns whether both are the same task, or both are none.
fn is_same(one: Option<u64>, other: Option<u64>) -> bool
    ensures { result ≡ is_same one other }
{
    match (one, other) {
        (None, None) => true,
        (Some(one), Some(other)) => one == other,
        _ => false,
    }
}

/// Returns whether a task was found and is this one.
pub(crate) fn is_task(task: u64, found: Option<u64>) -> bool
    ensures { result ≡ is_task task found }
{
    match found {
        Some(other) => other == task,
        None => false,
    }
}

/// Returns whether the record makes no task that is to run on a device.
pub(crate) fn is_on_host(body: &Body) -> bool
    ensures { result ≡ is_on_host body.now }
{
    let is_target = match body.flags() {
        Some(flags) => flags.contains(TaskFlags::TARGET),
        None => false,
    };
    !(body.made().is_some() && is_target)
}
