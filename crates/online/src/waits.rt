//! What the ends of taskwaits, taskgroups and barriers need of the records so far.
ghost use Rattle.std.specs.Prelude.{◌≡◌, ◌≤◌, ◌+◌, ◌++◌, ◌∷◌, IsTrue, IfOk, IfSome, OnOk, OnErr, false, nat_eq, List, [], length, is_some, if◌then◌else◌};
ghost use Rattle.std.specs.HashMap.{get, hash_map_len};
ghost use Rattle.ompt_events.specs.declared.records.Record.{Record};
ghost use Rattle.online.specs.Waits.{IsWaitsOf, KeepsWaits, Follows, EndsRoot, CreatesTask, CompletesTask};
ghost use Rattle.online.specs.Waits.{BeginsTaskgroup, EndsTaskgroup, EndsTaskwait, MayFollow, IsCoverComplete};
ghost use Rattle.online.specs.Waits.{IsSameTable};
ghost use Rattle.online.specs.Missed.{IsFoundAt};
ghost use Rattle.online.specs.Teams.{AreTeamsBefore, AreTeamsOf, AreBarriersBegun, HasBarrierEnded, KeepsTeams, TeamsFollow, BeginsInitial, Joins, BeginsBarrier, EndsBarrier, TeamsJoin};
ghost use Rattle.online.specs.Kept.{kept_by, teams_by};

use crate::kin::Kin;
use crate::kins::{
    Table, are_children_over, begin_barrier, begin_group, complete, complete_child, count_child,
    end_group, is_family_over, is_root, is_settled, place_in, put, settle_child, team_in,
};
use crate::missed::{awaited_at, first_missed, going};
use crate::replay::Replay;
use crate::teams::{Teams, begin_in, create_in, end_in, have_begun_all, join, leave, settle_in};
use ompt_events::{Endpoint, SyncKind};
use std::alloc::{AllocError, Global};
use std::collections::HashMap;

/// Takes the task out if it is settled, and returns its parent.
fn take_settled(table: &mut Table, teams: &mut Teams, task: u64) -> Option<u64>
    ensures kept { KeepsWaits (get nat_eq table.old) (get nat_eq table.new) }
    ensures teams { KeepsTeams (get nat_eq table.old) (get nat_eq teams.old) (get nat_eq table.new) (get nat_eq teams.new) }
    ensures fewer { hash_map_len table.new + (if is_some result then 1 else 0) ≤ hash_map_len table.old }
{
    if !is_settled(table, task) {
        return None;
    }
    let kin = table.remove(&task)?;
    settle_child(table, kin.parent, kin.group, kin.family.greatest);
    settle_in(teams, kin.parent_team, kin.phase, kin.family.greatest);
    kin.parent
}

/// Takes the task out if it is settled, then its parent if that is settled, and so on.
fn settle(table: &mut Table, teams: &mut Teams, task: u64)
    ensures kept { KeepsWaits (get nat_eq table.old) (get nat_eq table.new) }
    ensures teams { KeepsTeams (get nat_eq table.old) (get nat_eq teams.old) (get nat_eq table.new) (get nat_eq teams.new) }
{
    let mut next = Some(task);
    while let Some(settled) = next {
        next = take_settled(table, teams, settled);
    }
}

/// What the ends of taskwaits, taskgroups and barriers need of the records so far. It is kept of the tasks that are
/// not settled (of a task, or of a descendant, it is not known that it is complete), and of the teams of which some
/// member may still do something. Where a step is refused for memory, what is kept is of no use for later records.
#[derive(Drop)]
pub struct Waits {
    table: Table,
    teams: Teams,
    alloc: Global,
}

impl Waits {
    /// Returns what no records leave.
    pub fn new(alloc: Global) -> Self
        ensures tasks { IsWaitsOf [] (kept_by result) }
        ensures teams { AreTeamsOf [] (kept_by result) (teams_by result) }
    {
        Waits {
            table: HashMap::new(alloc),
            teams: HashMap::new(alloc),
            alloc,
        }
    }

    /// Notes the begin of an initial task.
    pub(crate) fn begin_initial(&mut self, root: u64) -> Result<(), AllocError>
        ensures tasks { OnOk result (Follows (BeginsInitial root) (kept_by self.old) (kept_by self.new)) }
        ensures teams { OnOk result (TeamsFollow (BeginsInitial root) (kept_by self.old) (teams_by self.old) (kept_by self.new) (teams_by self.new)) }
    {
        put(&mut self.table, root, Kin::of_root(self.alloc, None))
    }

    /// Notes the begin of an implicit task: a member of the team of the parallel region, which has this size and room
    /// for the member.
    pub(crate) fn join(&mut self, root: u64, parallel: u64, size: u32) -> Result<(), AllocError>
        ensures tasks { OnOk result (Follows (Joins root parallel size) (kept_by self.old) (kept_by self.new)) }
        ensures teams { OnOk result (TeamsJoin root parallel size (kept_by self.old) (teams_by self.old) (kept_by self.new) (teams_by self.new)) }
    {
        put(
            &mut self.table,
            root,
            Kin::of_root(self.alloc, Some(parallel)),
        )?;
        join(&mut self.teams, self.alloc, parallel, size)
    }

    /// Notes the end of an initial or implicit task. Where that was all for its team, nothing is kept of the team.
    pub(crate) fn end_root(&mut self, root: u64)
        ensures tasks { Follows (EndsRoot root) (kept_by self.old) (kept_by self.new) }
        ensures teams { TeamsFollow (EndsRoot root) (kept_by self.old) (teams_by self.old) (kept_by self.new) (teams_by self.new) }
    {
        if is_root(&self.table, root) {
            leave(&mut self.teams, team_in(&self.table, root));
            let _ = complete(&mut self.table, root, 0);
            settle(&mut self.table, &mut self.teams, root);
        }
    }

    /// Notes that the parent creates the child. Returns false if the barrier of a member of its team has ended that
    /// waits for it.
    pub(crate) fn create(&mut self, parent: u64, child: u64) -> Result<bool, AllocError>
        ensures tasks { IfOk result (λ created. IsTrue created
            → Follows (CreatesTask parent child) (kept_by self.old) (kept_by self.new)) }
        ensures teams { IfOk result (λ created. IsTrue created
            → TeamsFollow (CreatesTask parent child) (kept_by self.old) (teams_by self.old) (kept_by self.new) (teams_by self.new)) }
    {
        let Some(place) = place_in(&self.table, parent) else {
            return Ok(true);
        };
        put(
            &mut self.table,
            child,
            Kin::of_child(self.alloc, parent, place),
        )?;
        count_child(&mut self.table, parent);
        create_in(&mut self.teams, place.team, place.barriers)
    }

    /// Notes that the task is complete by the entry with the index `seen`.
    pub(crate) fn complete(&mut self, task: u64, seen: u32)
        ensures tasks { Follows (CompletesTask task seen) (kept_by self.old) (kept_by self.new) }
        ensures teams { TeamsFollow (CompletesTask task seen) (kept_by self.old) (teams_by self.old) (kept_by self.new) (teams_by self.new) }
    {
        let length = seen as u64 + 1;
        let parent = complete(&mut self.table, task, length);
        complete_child(&mut self.table, parent, length);
        settle(&mut self.table, &mut self.teams, task);
    }

    /// Notes the begin of a taskgroup of the task.
    pub(crate) fn begin_taskgroup(&mut self, task: u64) -> Result<(), AllocError>
        ensures tasks { OnOk result (Follows (BeginsTaskgroup task) (kept_by self.old) (kept_by self.new)) }
        ensures teams { OnOk result (TeamsFollow (BeginsTaskgroup task) (kept_by self.old) (teams_by self.old) (kept_by self.new) (teams_by self.new)) }
    {
        begin_group(&mut self.table, task)
    }

    /// Notes the end of a taskgroup of the task, and returns whether all that it covers is complete by the entries
    /// below the length `seen`. If not, what is kept is of no use for later records.
    pub(crate) fn end_taskgroup(&mut self, task: u64, seen: u32) -> bool
        ensures tasks { IsTrue result → Follows (EndsTaskgroup task seen) (kept_by self.old) (kept_by self.new) }
        ensures teams { IsTrue result → TeamsFollow (EndsTaskgroup task seen) (kept_by self.old) (teams_by self.old) (kept_by self.new) (teams_by self.new) }
        ensures complete { IsTrue result → (rs : List Record) (r : Record) → EndsTaskgroup task seen r
            → MayFollow rs r → IsWaitsOf rs (kept_by self.old) → IsCoverComplete rs r }
        ensures refused { result ≡ false → IsSameTable (kept_by self.old) (kept_by self.new) }
    {
        end_group(&mut self.table, task, seen as u64)
    }

    /// Notes the begin of a barrier of the task.
    pub(crate) fn begin_barrier(&mut self, task: u64) -> Result<(), AllocError>
        ensures tasks { OnOk result (Follows (BeginsBarrier task) (kept_by self.old) (kept_by self.new)) }
        ensures teams { OnOk result (TeamsFollow (BeginsBarrier task) (kept_by self.old) (teams_by self.old) (kept_by self.new) (teams_by self.new)) }
    {
        let Some(place) = place_in(&self.table, task) else {
            return Ok(());
        };
        begin_barrier(&mut self.table, task);
        begin_in(&mut self.teams, place.team, place.barriers)
    }

    /// Returns whether all that a taskwait of the task covers is complete by the entries below the length `seen`,
    /// where the taskwait ends. Children that the task creates inside the taskwait count too.
    pub(crate) fn is_taskwait_over(&self, task: u64, seen: u32) -> bool
        ensures { IsTrue result → (rs : List Record) (r : Record) → EndsTaskwait task seen r
            → IsWaitsOf rs (kept_by self.now) → IsCoverComplete rs r }
    {
        are_children_over(&self.table, task, seen as u64)
    }

    /// Notes the end of a barrier of the task, behind the step of the record at which it ends. Returns true only if all
    /// that it covers is complete by the entries below the length `seen`; of a team, all that it may come to cover. If
    /// not, what is kept is of no use for later records.
    pub(crate) fn end_barrier(&mut self, task: u64, seen: u32) -> Result<bool, AllocError>
        ensures tasks { KeepsWaits (kept_by self.old) (kept_by self.new) }
        ensures table { IsSameTable (kept_by self.old) (kept_by self.new) }
        ensures ends { IfOk result (λ ended. IsTrue ended → (rs : List Record) (r : Record) → EndsBarrier task seen r
            → MayFollow rs r → IsWaitsOf (rs ++ r ∷ []) (kept_by self.old)
            → AreTeamsBefore (rs ++ r ∷ []) (length rs) (kept_by self.old) (teams_by self.old)
            → HasBarrierEnded rs r (kept_by self.new) (teams_by self.new)) }
    {
        let Some(place) = place_in(&self.table, task) else {
            return Ok(false);
        };
        let Some(parallel) = place.team else {
            return Ok(is_family_over(&self.table, task, seen as u64));
        };
        match place.barriers.checked_sub(1) {
            Some(number) => end_in(&mut self.teams, parallel, number, seen as u64),
            None => Ok(false),
        }
    }

    /// Returns true only if each member of a team has a barrier with the number of each barrier of the team that has
    /// ended.
    pub fn have_begun_all(&self) -> bool
        ensures { IsTrue result → (rs : List Record) → IsWaitsOf rs (kept_by self.now)
            → AreTeamsOf rs (kept_by self.now) (teams_by self.now) → AreBarriersBegun rs }
    {
        have_begun_all(&self.teams)
    }

    /// Returns a task that the end of a region of the task waits for and that is live, the one with the least id of
    /// those that are found. Then what is kept is of no use. Fails only when out of memory.
    pub(crate) fn missed(
        &mut self,
        replay: &Replay,
        task: u64,
        kind: SyncKind,
        endpoint: Endpoint,
    ) -> Result<Option<u64>, AllocError>
        ensures { IfOk result (λ found. IfSome found (IsFoundAt replay.now (kept_by self.old) task kind endpoint)) }
    {
        let Some(awaited) = awaited_at(&self.table, task, kind, endpoint) else {
            return Ok(None);
        };
        let tasks = going(&self.table, self.alloc)?;
        Ok(first_missed(&mut self.table, replay, awaited, &tasks))
    }
}
