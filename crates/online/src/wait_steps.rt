//! The step of each record, for what the ends of taskwaits, taskgroups and barriers need.
//!
//! `take` does the step of any record: `take_region` of one that begins or ends a region, `take_task` of any
//! other.
ghost use Rattle.std.specs.Prelude.{ℕ, ◌≡◌, ◌≢◌, ◌++◌, ◌∷◌, [], List, None, Some, true, false, IsTrue, IfOk, OnOk, length};
ghost use Rattle.ompt_events.specs.declared.records.Record.{Record};
ghost use Rattle.ompt_events.specs.declared.records.Body.TheVariants.{ImplicitTask};
ghost use Rattle.ompt_events.specs.declared.names.SyncKind.{SyncKind};
ghost use Rattle.ompt_events.specs.declared.names.SyncKind.TheVariants.{Taskwait, Taskgroup};
ghost use Rattle.ompt_events.specs.declared.names.Endpoint.TheVariants.{Begin, End, BeginEnd};
ghost use Rattle.ompt_events.specs.Records.{made, region};
ghost use Rattle.ompt_events.specs.Regions.{is_barrier};
ghost use Rattle.online.specs.Waits.{IsWaitsOf, MayFollow, IsCoverComplete, IsSameTable, ends_region};
ghost use Rattle.online.specs.Teams.{AreTeamsOf, FindsRoom};
ghost use Rattle.online.specs.Kept.{kept_by, teams_by};
ghost use Rattle.online.specs.WaitSteps.{StepsBefore, TakesStep, TakesRecord, IsOfRegion};

use crate::waits::Waits;
use bitflags::Flags;
use ompt_events::{Body, Endpoint, Part, Record, SyncKind, TaskFlags, WaitKind, finish};
use std::alloc::AllocError;

impl Waits {
    /// Does the record's step, and returns true only if all that must be complete for a taskwait, taskgroup
    /// or barrier that ends there is complete below the length that the record names; for a barrier of a
    /// team also all that it may come to cover. Where it returns false, or fails, what is kept is of no use for
    /// later records; where it returns false at the end of a region, what is kept of tasks is what it was. A member
    /// of a team that begins there finds room in the team. Fails only when out of memory.
    pub fn take(&mut self, record: &Record) -> Result<bool, AllocError>
        ensures tasks { IfOk result (λ taken. IsTrue taken → (rs : List Record) → MayFollow rs «record».now
            → IsWaitsOf rs (kept_by self.old) → IsWaitsOf (rs ++ «record».now ∷ []) (kept_by self.new)) }
        ensures teams { IfOk result (λ taken. IsTrue taken → (rs : List Record) → MayFollow rs «record».now
            → FindsRoom rs «record».now → IsWaitsOf rs (kept_by self.old) → AreTeamsOf rs (kept_by self.old) (teams_by self.old)
            → AreTeamsOf (rs ++ «record».now ∷ []) (kept_by self.new) (teams_by self.new)) }
        ensures complete { IfOk result (λ taken. IsTrue taken → (rs : List Record) → MayFollow rs «record».now
            → FindsRoom rs «record».now → IsWaitsOf rs (kept_by self.old) → AreTeamsOf rs (kept_by self.old) (teams_by self.old)
            → IsCoverComplete rs «record».now) }
        ensures refused { IfOk result (λ taken. taken ≡ false → ends_region (region «record».now.body) ≡ true
            → IsSameTable (kept_by self.old) (kept_by self.new)) }
    {
        match record.body.region() {
            Some((task, kind, endpoint)) => self.take_region(task, kind, endpoint, record.seen),
            None => self.take_task(record),
        }
    }

    /// Does the step of a record of no region. Returns false if a root begins and ends in it.
    fn take_task(&mut self, record: &Record) -> Result<bool, AllocError>
        requires { region «record».now.body ≡ None }
        ensures { IfOk result (λ taken. IsTrue taken → TakesStep «record».now self.old self.new) }
    {
        match &record.body {
            Body::ImplicitTask {
                endpoint,
                actual,
                flags,
                parallel,
                task,
                ..
            } => match endpoint {
                Endpoint::Begin => self.begin_root(*flags, *task, *parallel, *actual)?,
                Endpoint::End => self.end_root(*task),
                Endpoint::BeginEnd => return Ok(false),
            },
            Body::TaskCreate { task, child, .. } => return self.create(*task, *child),
            _ => self.take_finish(record),
        }
        Ok(true)
    }

    /// Does the step of the begin of an initial task, or of an implicit one of the parallel region.
    fn begin_root(
        &mut self,
        flags: TaskFlags,
        root: u64,
        parallel: u64,
        size: u32,
    ) -> Result<(), AllocError>
        ensures { OnOk result ((r : Record) (index : ℕ)
            → r.body ≡ ImplicitTask Begin size index flags parallel root → TakesStep r self.old self.new) }
    {
        if flags.contains(TaskFlags::INITIAL) {
            self.begin_initial(root)
        } else {
            self.join(root, parallel, size)
        }
    }

    /// Does the step of a record of no region that makes no task, also of one that finishes a task. A task is
    /// complete when it is finished whole, or by its event.
    #[tactic(auto, using(crate::proofs::WaitStepLemmas::quiet_task))]
    fn take_finish(&mut self, record: &Record)
        requires made { made «record».now.body ≡ None }
        requires region { region «record».now.body ≡ None }
        ensures { TakesStep «record».now self.old self.new }
    {
        match finish(record) {
            Some((task, Part::Whole | Part::Event)) => self.complete(task, record.seen),
            Some((_, Part::Body)) | None => {}
        }
    }

    /// Does the step of a record that begins or ends a region, and returns true only if all is complete that
    /// an end there waits for.
    fn take_region(
        &mut self,
        task: u64,
        kind: SyncKind,
        endpoint: Endpoint,
        seen: u32,
    ) -> Result<bool, AllocError>
        ensures taken { IfOk result (λ taken. IsTrue taken → (r : Record) → IsOfRegion task kind endpoint seen r
            → TakesRecord r self.old self.new) }
        ensures refused { IfOk result (λ taken. taken ≡ false → ends_region (Some (task, kind, endpoint)) ≡ true
            → IsSameTable (kept_by self.old) (kept_by self.new)) }
    {
        match kind.wait_kind() {
            Some(WaitKind::Taskwait) => Ok(self.take_taskwait(task, endpoint, seen)),
            Some(WaitKind::Taskgroup) => self.take_taskgroup(task, endpoint, seen),
            Some(WaitKind::Barrier) => self.take_barrier(task, endpoint, seen),
            None => Ok(true),
        }
    }

    /// The same of a taskwait. Nothing changes.
    fn take_taskwait(&self, task: u64, endpoint: Endpoint, seen: u32) -> bool
        ensures { IsTrue result → (r : Record) → IsOfRegion task Taskwait endpoint seen r
            → TakesRecord r self.now self.now }
    {
        match endpoint {
            Endpoint::Begin => true,
            Endpoint::End | Endpoint::BeginEnd => self.is_taskwait_over(task, seen),
        }
    }

    /// The same of a taskgroup. One that begins and ends in one record covers nothing.
    fn take_taskgroup(
        &mut self,
        task: u64,
        endpoint: Endpoint,
        seen: u32,
    ) -> Result<bool, AllocError>
        ensures taken { IfOk result (λ taken. IsTrue taken → (r : Record)
            → IsOfRegion task Taskgroup endpoint seen r → TakesRecord r self.old self.new) }
        ensures refused { IfOk result (λ taken. taken ≡ false → IsSameTable (kept_by self.old) (kept_by self.new)) }
    {
        match endpoint {
            Endpoint::Begin => {
                self.begin_taskgroup(task)?;
                Ok(true)
            }
            Endpoint::End => Ok(self.end_taskgroup(task, seen)),
            Endpoint::BeginEnd => Ok(true),
        }
    }

    /// The same of a barrier. Its end is noted behind the step.
    fn take_barrier(&mut self, task: u64, endpoint: Endpoint, seen: u32) -> Result<bool, AllocError>
        ensures taken { IfOk result (λ taken. IsTrue taken → (r : Record) (kind : SyncKind) → is_barrier kind ≡ true
            → IsOfRegion task kind endpoint seen r → TakesRecord r self.old self.new) }
        ensures refused { IfOk result (λ taken. taken ≡ false → endpoint ≢ BeginEnd
            → IsSameTable (kept_by self.old) (kept_by self.new)) }
    {
        self.step_barrier(task, endpoint)?;
        match endpoint {
            Endpoint::Begin => Ok(true),
            Endpoint::End | Endpoint::BeginEnd => self.end_barrier(task, seen),
        }
    }

    /// Does the step of a record of a barrier, but for its end. One that begins and ends in one record is begun there
    /// too.
    fn step_barrier(&mut self, task: u64, endpoint: Endpoint) -> Result<(), AllocError>
        ensures steps { OnOk result ((r : Record) (kind : SyncKind) → is_barrier kind ≡ true
            → region r.body ≡ Some (task, kind, endpoint) → StepsBefore r self.old self.new) }
        ensures ends { OnOk result (endpoint ≡ End → IsSameTable (kept_by self.old) (kept_by self.new)) }
    {
        match endpoint {
            Endpoint::Begin | Endpoint::BeginEnd => self.begin_barrier(task),
            Endpoint::End => Ok(()),
        }
    }
}
