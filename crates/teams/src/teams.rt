//! The teams of a run, the barriers of their members, and the first place at which one lacks a member.
ghost use Rattle.std.specs.Prelude.{ℕ, ◌≡◌, ◌<◌, Option, Some, IfOk, IfErr, MatchOption, length, slice_get};
ghost use Rattle.std.specs.Global.{Vec};
ghost use Rattle.ompt_events.specs.declared.names.SyncKind.{SyncKind};
ghost use Rattle.ompt_events.specs.declared.cause.Cause.TheVariants.{TeamShort};
ghost use Rattle.ompt_events.specs.Regions.{IsRegion};
ghost use Rattle.task_tree.specs.Own.{IsOwnFault};
ghost use Rattle.task_states.specs.Regions.{IsRegionBegin};
ghost use Rattle.teams.specs.Missed.{IsBarrierEnd, EndsNoBarrier};
ghost use Rattle.task_states.specs.Rows.{row_at};
ghost use Rattle.teams.specs.Teams.{own_of, IsTeams};

use crate::missed::{BarrierEnd, barrier_end};
use crate::rosters::empty_rosters;
use crate::short::find_short;
use crate::tables::Tables;
use index_tables::Slot;
use ompt_events::{Cause, Fault};
use std::alloc::Global;
use std::marker::Model;
use task_states::{Regions, row};
use task_tree::{Own, Run};

/// The teams of a run in its tasks' own order (OpenMP 5.2, 1.2.2), and where their members begin barriers.
#[derive(Debug, Drop)]
pub struct Teams<'a> {
    regions: &'a Regions<'a>,
    /// By index of the task the number of its team; none for an explicit task.
    teams: Vec<Slot>,
    /// By number of the team the indices of its members, by their own numbers. There is no roster after that
    /// of the last team.
    rosters: Vec<Vec<Slot>>,
    /// By index of the task the numbers of the records at which it begins barriers. There is no row after
    /// that of the last task that begins one.
    begins: Vec<Vec<u32>>,
    /// For each record that begins a barrier how many its task began before.
    numbers: Vec<u32>,
}

impl<'a> Model for Teams<'a> {
    ghost use Rattle.teams.specs.Teams.{TeamsView, IsTeams};

    ghost Value = { TeamsView };

    ghost view = { λ teams. record {
      run = teams.regions.now.own.run;
      places = teams.regions.now.own.places;
      teams = teams.teams.items;
      rosters = teams.rosters.items;
      begins = teams.begins.items;
      numbers = teams.numbers.items;
    } };

    ghost invariant = { λ teams. IsTeams (record {
      run = teams.regions.now.own.run;
      places = teams.regions.now.own.places;
      teams = teams.teams.items;
      rosters = teams.rosters.items;
      begins = teams.begins.items;
      numbers = teams.numbers.items;
    }) };
}

impl<'a> Teams<'a> {
    /// Returns the teams of a run in its tasks' own order. Fails with TeamShort if a team or a barrier
    /// lacks a member (OpenMP 5.2, 10.1 and 15.3), at its first place in the file; and when out of memory.
    /// Takes a few steps for each record, and a look-up of its region for each member; memory is linear in
    /// the records.
    pub fn in_own(alloc: Global, regions: &'a Regions<'a>) -> Result<Teams<'a>, Fault>
        ensures run { IfOk result (λ teams. teams.run ≡ regions.now.own.run) }
        ensures places { IfOk result (λ teams. teams.places ≡ regions.now.own.places) }
        ensures teams { IfOk result IsTeams }
        ensures fault { IfErr result (IsOwnFault regions.now.own TeamShort) }
    {
        let tables = Tables::in_own(alloc, regions)?;
        let mut rosters = empty_rosters(alloc, &tables)?;
        if let Some(at) = find_short(&tables, &mut rosters) {
            return Err(Fault::Malformed {
                at,
                cause: Cause::TeamShort,
            });
        }
        Ok(Teams {
            regions,
            teams: tables.teams,
            rosters,
            begins: tables.begins,
            numbers: tables.numbers,
        })
    }

    /// Returns the run, whose records are in the tasks' own order.
    pub fn run(&self) -> &'a Run<'a>
        ensures value { result.now ≡ self.now.run }
        ensures is_teams { IsTeams self.now }
    {
        self.regions.own().run()
    }

    /// Returns the run with the places of its records in the file.
    pub fn own(&self) -> &'a Own<'a>
        ensures value { result.now ≡ own_of self.now }
        ensures is_teams { IsTeams self.now }
    {
        self.regions.own()
    }

    /// Returns the number of the record at which the region began that the record with this number ends. If
    /// the record is a begin and end in one, that is this record.
    pub fn begin_of(&self, number: usize) -> Option<usize>
        requires { number < length self.now.run.records }
        ensures { MatchOption result ((task begin : ℕ) (kind : SyncKind)
            → IsRegion self.now.run.records number task kind begin → ⊥)
            (IsRegionBegin self.now.run.records number) }
    {
        self.regions.begin_of(number)
    }

    /// Returns the barrier that the record with this number ends, if it ends one.
    pub fn barrier_end(&self, number: usize) -> Option<BarrierEnd>
        requires { number < length self.now.run.records }
        ensures { MatchOption result (EndsNoBarrier self.now.run.records number)
            (λ end. IsBarrierEnd self.now.run number end.task end.begin) }
    {
        barrier_end(self.regions, number)
    }

    /// Returns the number of the team of the task at this index.
    pub fn team(&self, index: usize) -> Option<usize>
        requires { index < length self.now.teams }
        ensures { slice_get self.now.teams index ≡ Some result }
    {
        self.teams[index].get()
    }

    /// Returns the indices of the team's members, by their numbers in the team.
    pub fn roster(&self, team: usize) -> &[Slot]
        requires { team < length self.now.rosters }
        ensures { (roster : Vec (Option ℕ)) → slice_get self.now.rosters team ≡ Some roster
            → result.now ≡ roster.items }
    {
        self.rosters[team].as_slice()
    }

    /// Returns the numbers of the records at which the task at this index begins barriers.
    pub fn begins(&self, index: usize) -> &[u32]
        ensures { result.now ≡ row_at self.now.begins index }
    {
        row(&self.begins, index)
    }

    /// Returns how many barriers the task began before the one that it begins at this record.
    pub fn number(&self, at: usize) -> u32
        requires { at < length self.now.numbers }
        ensures { slice_get self.now.numbers at ≡ Some result }
    {
        self.numbers[at]
    }
}
