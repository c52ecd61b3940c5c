//! The tasks of a trace, by file order and by their own order.
ghost use Rattle.std.specs.Prelude.{◌≡◌, ◌∷◌, [], false, IfOk, IfErr, IsTrue, length, slice_get};
ghost use Rattle.std.specs.List.{filter_map};
ghost use Rattle.ompt_events.specs.declared.cause.Cause.TheVariants.{CreatedTwice, Rootless, TurnGap};
ghost use Rattle.ompt_events.specs.declared.fault.Fault.TheVariants.{Memory};
ghost use Rattle.ompt_events.specs.Causes.{IsFreeOf};
ghost use Rattle.ompt_events.specs.Faults.{IsFault, FindsFirst};
ghost use Rattle.ompt_events.specs.Turns.{in_own_order, own_places};
ghost use Rattle.task_tree.specs.Family.{IsFamilyOf};
ghost use Rattle.task_tree.specs.Rising.{TurnsRise};
ghost use Rattle.task_tree.specs.Runs.{IsRun};
ghost use Rattle.task_tree.specs.OwnOrder.{AreAllPlaces};
ghost use Rattle.task_tree.specs.Families.{AreFamiliesOf, IsOwnOf, own_family};

use crate::family::Family;
use crate::gaps::find_gap;
use crate::own::Own;
use crate::own_order::{OwnOrder, arrange};
use crate::rising::turns_rise;
use crate::run::Run;
use crate::turn_table::turns_of;
use ompt_events::Fault;
use packed_trace::PackedTrace;
use std::alloc::{AllocError, Global};
use std::marker::Model;

/// The families of a trace's tasks: by file order, and by the tasks' own order.
#[derive(Debug, Drop)]
pub struct Families {
    file: Family,
    /// None only if file order is the tasks' own order.
    arranged: Option<Arranged>,
    order: OwnOrder,
    gap: Option<usize>,
}

impl Model for Families {
    ghost use Rattle.task_tree.specs.Families.{FamiliesView};

    ghost Value = { FamiliesView };

    ghost view = { λ families. record {
      file = families.file;
      arranged = families.arranged;
      places = families.order;
      gap = families.gap;
    } };
}

/// The records of a trace in the tasks' own order, with the family of its tasks by that order.
#[derive(Debug, Drop)]
struct Arranged {
    trace: PackedTrace,
    family: Family,
}

impl Model for Arranged {
    ghost use Rattle.task_tree.specs.Runs.{RunView, IsRun};

    ghost Value = { RunView };

    ghost view = { λ arranged. record { records = arranged.trace.records; family = arranged.family } };

    ghost invariant = { λ arranged. IsRun (record { records = arranged.trace.records; family = arranged.family }) };
}

impl Families {
    /// Returns the families of the trace's tasks. Fails with CreatedTwice if a task or a parallel region is
    /// made twice, else with Rootless if a record names a task without a root or a region without a begin;
    /// and when out of memory. In version 2, copies the records into the tasks' own order, unless
    /// `turns_rise` holds in file order.
    pub fn build(alloc: Global, trace: &PackedTrace) -> Result<Families, Fault>
        ensures families { IfOk result (AreFamiliesOf trace.now.records) }
        ensures fault { IfErr result (IsFault trace.now.records (CreatedTwice ∷ Rootless ∷ [])) }
    {
        let count = trace.len();
        let file = Family::build(alloc, trace)?;
        if is_in_own_order(alloc, trace, &file)? {
            return Ok(Families {
                file,
                arranged: None,
                order: OwnOrder::in_file(count),
                gap: None,
            });
        }
        let turns = turns_of(alloc, trace, &file)?;
        let gap = find_gap(alloc, trace, &file, &turns)?;
        let order = arrange(alloc, trace, turns.as_slice())?;
        let arranged = Some(Arranged::of(alloc, trace, &order)?);
        Ok(Families {
            file,
            arranged,
            order,
            gap,
        })
    }

    /// Returns the run of the trace. Requires that the families are those of the trace.
    pub fn run<'a>(&'a self, trace: &'a PackedTrace) -> Run<'a>
        requires { AreFamiliesOf trace.now.records self.now }
        ensures records { result.records ≡ trace.now.records }
        ensures family { result.family ≡ self.now.file }
    {
        Run::of(trace, &self.file)
    }

    /// Returns the run of the trace in the tasks' own order. Requires the same.
    pub fn own<'a>(&'a self, trace: &'a PackedTrace) -> Own<'a>
        requires { AreFamiliesOf trace.now.records self.now }
        ensures { IsOwnOf trace.now.records result }
    {
        match &self.arranged {
            None => Own::of(Run::of(trace, &self.file), &self.order),
            Some(arranged) => Own::of(arranged.run(), &self.order),
        }
    }

    /// Returns the family by the tasks' own order.
    pub fn own_family(&self) -> &Family
        ensures { result.now ≡ own_family self.now }
    {
        match &self.arranged {
            None => &self.file,
            Some(arranged) => &arranged.family,
        }
    }

    /// Returns the place of the first record with a turn gap: the turns that it gives are not those of its
    /// tasks.
    pub fn gap(&self) -> Option<usize>
        ensures { result ≡ self.now.gap }
    {
        self.gap
    }
}

/// Returns true only if file order is the tasks' own order and no record has a turn gap. Returns true for
/// each trace of version 1.
fn is_in_own_order(alloc: Global, trace: &PackedTrace, family: &Family) -> Result<bool, AllocError>
    requires { IsFamilyOf trace.now.records family.now }
    ensures rises { IfOk result (λ own. IsTrue own → TurnsRise trace.now.records) }
    ensures gapless { IfOk result (λ own. IsTrue own → IsFreeOf trace.now.records TurnGap) }
{
    if trace.version() == 1 {
        return Ok(true);
    }
    turns_rise(alloc, trace, family)
}

impl Arranged {
    /// Returns the records of a trace in the tasks' own order. Requires a trace that makes each task and each
    /// parallel region once, and names none without a root or a begin. Fails only when out of memory.
    fn of(alloc: Global, trace: &PackedTrace, order: &OwnOrder) -> Result<Arranged, Fault>
        requires once { IsFreeOf trace.now.records CreatedTwice }
        requires rooted { IsFreeOf trace.now.records Rootless }
        requires order { order.now ≡ own_places trace.now.records }
        ensures records { IfOk result (λ arranged. arranged.records ≡ in_own_order trace.now.records) }
        ensures is_run { IfOk result IsRun }
        ensures memory_alone { IfErr result (λ fault. fault ≡ Memory) }
    {
        let trace = arranged_trace(alloc, trace, order)?;
        let family = Family::build(alloc, &trace)?;
        Ok(Arranged { trace, family })
    }

    /// Returns the run of these records.
    fn run(&self) -> Run<'_>
        ensures { result ≡ self.now }
    {
        Run::of(&self.trace, &self.family)
    }
}

/// Returns copies of the records, in the tasks' own order.
fn arranged_trace(
    alloc: Global,
    trace: &PackedTrace,
    order: &OwnOrder,
) -> Result<PackedTrace, AllocError>
    requires { order.now ≡ own_places trace.now.records }
    ensures version { IfOk result (λ copies. copies.version ≡ trace.now.version) }
    ensures records { IfOk result (λ copies. copies.records ≡ in_own_order trace.now.records) }
{
    let mut copies = PackedTrace::new(alloc);
    copies.begin(trace.version());
    for number in 0..trace.len() {
        copies.push_from(alloc, trace, order.place(number))?;
    }
    Ok(copies)
}
