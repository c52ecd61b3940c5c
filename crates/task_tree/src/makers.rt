//! Which tasks and parallel regions the records make.
ghost use Rattle.std.specs.Prelude.{ℕ, ◌≡◌, ◌<◌, ◌≤◌, ◌^◌, ◌+◌, ◌∷◌, ◌↔◌, [], List, Option, IsTrue, IfOk, OnOk, IfErr, length};
ghost use Rattle.ompt_events.specs.declared.cause.Cause.TheVariants.{CreatedTwice};
ghost use Rattle.ompt_events.specs.declared.fault.Fault.TheVariants.{Malformed};
ghost use Rattle.ompt_events.specs.declared.records.Record.{Record};
ghost use Rattle.ompt_events.specs.declared.records.Body.{Body};
ghost use Rattle.ompt_events.specs.Records.{made};
ghost use Rattle.ompt_events.specs.Places.{at as says_at};
ghost use Rattle.ompt_events.specs.Causes.{IsFreeOf};
ghost use Rattle.ompt_events.specs.Shown.{AreAllWith};
ghost use Rattle.index_tables.specs.Numbering.{AreApart};
ghost use Rattle.task_tree.specs.Makers.{AreNoted, AreMade, AreGathered, AddsName, IsPlaceAgain, begun_regions, least_of};
ghost use Rattle.task_tree.specs.Makers.{AreNamedBefore, Repeats};
ghost use Rattle.ompt_events.specs.Faults.{IsFault};
ghost use Rattle.packed_trace.specs.Packed.{forked_region};

use index_tables::Numbering;
use ompt_events::{Cause, Fault, Shown};
use packed_trace::PackedTrace;
use std::alloc::{AllocError, Global};
use std::collections::BTreeSet;

/// The tasks that the records make and the parallel regions that they begin, each in file order, and by
/// index of the task the place of the record that makes it.
pub(crate) struct Made {
    pub(crate) tasks: Numbering,
    pub(crate) places: Vec<u32>,
    pub(crate) regions: Numbering,
}

/// What the records make, before it is known whether they make a task or a region again.
struct Gathered {
    tasks: Names,
    regions: Names,
}

/// Ids in file order, each as often as a record names it, and the places of these records.
#[derive(Drop)]
struct Names {
    ids: Vec<u64>,
    places: Vec<u32>,
}

/// Ids in file order, each once, and the places of the records that name them.
#[derive(Drop)]
struct Numbered {
    ids: Numbering,
    places: Vec<u32>,
}

impl Names {
    fn new(alloc: Global) -> Names
        ensures ids { result.ids.items ≡ [] }
        ensures places { result.places.items ≡ [] }
    {
        Names {
            ids: Vec::new(alloc),
            places: Vec::new(alloc),
        }
    }

    /// Adds the id that the record at a place names, if it names one.
    fn add(&mut self, found: Option<u64>, at: usize) -> Result<(), AllocError>
        requires { at < 2 ^ 32 }
        ensures { OnOk result (AddsName self.old self.new found at) }
    {
        let Some(id) = found else {
            return Ok(());
        };
        self.ids.push(id)?;
        self.places.push(at as u32)?;
        Ok(())
    }
}

/// Returns what the records make. Fails with CreatedTwice at the first record that makes a task or a region
/// again, or when out of memory.
pub(crate) fn find_made(alloc: Global, trace: &PackedTrace) -> Result<Made, Fault>
    ensures few { IfOk result (λ _. length trace.now.records ≤ 2 ^ 22) }
    ensures tasks { IfOk result (λ found. AreNoted made trace.now.records (length trace.now.records) found.tasks) }
    ensures places { IfOk result (λ found. AreMade trace.now.records
        (length trace.now.records) found.tasks found.places.items) }
    ensures regions { IfOk result (λ found. AreNoted forked_region trace.now.records
        (length trace.now.records) found.regions) }
    ensures begun { IfOk result (λ found. found.regions ≡ begun_regions trace.now.records) }
    ensures free { IfOk result (λ _. IsFreeOf trace.now.records CreatedTwice) }
    ensures found { IfErr result (IsFault trace.now.records (CreatedTwice ∷ [])) }
{
    let Gathered { tasks, regions } = gather(alloc, trace)?;
    let tasks = match number(alloc, tasks)? {
        Ok(tasks) => tasks,
        Err(task) => {
            let region = number(alloc, regions)?.err();
            return Err(first_again(task, region));
        }
    };
    match number(alloc, regions)? {
        Ok(regions) => Ok(Made {
            tasks: tasks.ids,
            places: tasks.places,
            regions: regions.ids,
        }),
        Err(region) => Err(first_again(region, None)),
    }
}

/// Returns the tasks and the regions that the records make, each as often as it is made.
fn gather(alloc: Global, trace: &PackedTrace) -> Result<Gathered, AllocError>
    ensures few { IfOk result (λ _. length trace.now.records ≤ 2 ^ 22) }
    ensures tasks { IfOk result (λ found. AreGathered made trace.now.records
        (length trace.now.records) found.tasks.ids.items found.tasks.places.items) }
    ensures regions { IfOk result (λ found. AreGathered forked_region trace.now.records
        (length trace.now.records) found.regions.ids.items found.regions.places.items) }
{
    let mut tasks = Names::new(alloc);
    let mut regions = Names::new(alloc);
    for at in 0..trace.len() {
        tasks.add(trace.made(at), at)?;
        regions.add(trace.forked_region(at), at)?;
    }
    Ok(Gathered { tasks, regions })
}

/// Returns the ids, each once, or the place of the first record that names one again.
fn number(alloc: Global, names: Names) -> Result<Result<Numbered, usize>, AllocError>
    requires { length names.places.items ≡ length names.ids.items }
    ensures ids { IfOk result (λ found. IfOk found (λ numbered. numbered.ids ≡ names.ids.items)) }
    ensures places { IfOk result (λ found. IfOk found (λ numbered. numbered.places ≡ names.places)) }
    ensures apart { IfOk result (λ found. IfOk found (λ _. AreApart names.ids.items)) }
    ensures again { IfOk result (λ found. IfErr found (IsPlaceAgain names.ids.items names.places.items)) }
{
    let Names { ids, places } = names;
    match Numbering::of(alloc, ids)? {
        Ok(ids) => Ok(Ok(Numbered { ids, places })),
        Err(again) => Ok(Err(places[again] as usize)),
    }
}

/// Returns the fault of the first record that makes something again: of the one at this place, or of the
/// other if that is before it.
fn first_again(at: usize, other: Option<usize>) -> Fault
    ensures { result ≡ Malformed (least_of at other) CreatedTwice }
{
    let first = match other {
        Some(other) => at.min(other),
        None => at,
    };
    Fault::Malformed {
        at: first,
        cause: Cause::CreatedTwice,
    }
}

/// Returns the places of all records that make a task which an earlier record makes, or begin a parallel
/// region which an earlier one begins.
pub fn made_again(alloc: Global, trace: &PackedTrace) -> Result<Shown, AllocError>
    ensures { IfOk result (AreAllWith trace.now.records CreatedTwice) }
{
    let mut tasks = BTreeSet::new(alloc);
    let mut regions = BTreeSet::new(alloc);
    let mut shown = Shown::none(alloc);
    for at in 0..trace.len() {
        let task = is_again(&mut tasks, trace.made(at))?;
        let region = is_again(&mut regions, trace.forked_region(at))?;
        shown.note(at, task || region)?;
    }
    Ok(shown)
}

/// Adds the id that a record names, if it names one, to those of the records before it. Returns whether it
/// is one of these.
fn is_again(ids: &mut BTreeSet<u64>, found: Option<u64>) -> Result<bool, AllocError>
    ensures { (says : Body → Option ℕ) (records : List Record) (at : ℕ)
        → AreNamedBefore says records at ids.old → found ≡ says_at says records at
        → IfOk result (λ again. (IsTrue again ↔ Repeats says records at)
        × AreNamedBefore says records (at + 1) ids.new) }
{
    let Some(id) = found else {
        return Ok(false);
    };
    let is_new = ids.insert(id)?;
    Ok(!is_new)
}
