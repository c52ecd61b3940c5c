//! The tables of the teams of a run, before it is known that no member is missing.
ghost use Rattle.std.specs.Prelude.{◌≡◌, ◌<◌, Some, IfOk, length, slice_get};
ghost use Rattle.teams.specs.Tables.{tables_own, AreTables};

use crate::begins::{Begins, find_begins};
use crate::fewest::find_fewest;
use crate::members::{Members, find_members};
use index_tables::Slot;
use std::alloc::{AllocError, Global};
use std::marker::Model;
use task_states::Regions;
use task_tree::{Own, Run};

/// The team of each task, how many members each team has, and which barriers they begin.
#[derive(Drop)]
pub(crate) struct Tables<'a> {
    pub(crate) regions: &'a Regions<'a>,
    /// By index of the task the number of its team; none for an explicit task.
    pub(crate) teams: Vec<Slot>,
    /// By number of the team how many members it has.
    sizes: Vec<u32>,
    /// By index of the task the numbers of the records at which it begins barriers. There is no row after
    /// that of the last task that begins one.
    pub(crate) begins: Vec<Vec<u32>>,
    /// For each record that begins a barrier how many its task began before.
    pub(crate) numbers: Vec<u32>,
    /// By number of the team the least number of barriers that a member begins.
    fewest: Vec<u32>,
}

impl<'a> Model for Tables<'a> {
    ghost use Rattle.teams.specs.Tables.{TablesView, AreTables};

    ghost Value = { TablesView };

    ghost view = { λ tables. record {
      run = tables.regions.now.own.run;
      places = tables.regions.now.own.places;
      teams = tables.teams.items;
      sizes = tables.sizes.items;
      begins = tables.begins.items;
      numbers = tables.numbers.items;
      fewest = tables.fewest.items;
    } };

    ghost invariant = { λ tables. AreTables (record {
      run = tables.regions.now.own.run;
      places = tables.regions.now.own.places;
      teams = tables.teams.items;
      sizes = tables.sizes.items;
      begins = tables.begins.items;
      numbers = tables.numbers.items;
      fewest = tables.fewest.items;
    }) };
}

impl<'a> Tables<'a> {
    /// Returns the tables of the run. Takes a few steps for each record, and a look-up of its region for each
    /// member.
    pub(crate) fn in_own(alloc: Global, regions: &'a Regions<'a>) -> Result<Tables<'a>, AllocError>
        ensures run { IfOk result (λ tables. tables.run ≡ regions.now.own.run) }
        ensures places { IfOk result (λ tables. tables.places ≡ regions.now.own.places) }
    {
        let run = regions.own().run();
        let Begins { begins, numbers } = find_begins(alloc, run)?;
        let Members { teams, sizes } = find_members(alloc, run)?;
        let fewest = find_fewest(alloc, teams.as_slice(), begins.as_slice())?;
        Ok(Tables {
            regions,
            teams,
            sizes,
            begins,
            numbers,
            fewest,
        })
    }

    /// Returns the run.
    pub(crate) fn run(&self) -> &Run<'a>
        ensures value { result.now ≡ self.now.run }
        ensures are_tables { AreTables self.now }
    {
        self.regions.own().run()
    }

    /// Returns the run with the places of its records in the file.
    pub(crate) fn own(&self) -> &Own<'a>
        ensures value { result.now ≡ tables_own self.now }
        ensures are_tables { AreTables self.now }
    {
        self.regions.own()
    }

    /// Returns by index of the task the number of its team; none for an explicit task.
    pub(crate) fn teams(&self) -> &[Slot]
        ensures value { result.now ≡ self.now.teams }
        ensures are_tables { AreTables self.now }
    {
        let _run = self.regions.own();
        self.teams.as_slice()
    }

    /// Returns the number of the team of the task at this index.
    pub(crate) fn team(&self, index: usize) -> Option<usize>
        requires { index < length self.now.teams }
        ensures { slice_get self.now.teams index ≡ Some result }
    {
        self.teams[index].get()
    }

    /// Returns how many members the team has.
    pub(crate) fn size(&self, team: usize) -> u32
        requires { team < length self.now.sizes }
        ensures { slice_get self.now.sizes team ≡ Some result }
    {
        self.sizes[team]
    }

    /// Returns how many barriers the task began before the one that it begins at this record.
    pub(crate) fn number(&self, at: usize) -> u32
        requires { at < length self.now.numbers }
        ensures { slice_get self.now.numbers at ≡ Some result }
    {
        self.numbers[at]
    }

    /// Returns the least number of barriers that a member of the team begins.
    pub(crate) fn fewest(&self, team: usize) -> u32
        requires { team < length self.now.fewest }
        ensures { slice_get self.now.fewest team ≡ Some result }
    {
        self.fewest[team]
    }
}
