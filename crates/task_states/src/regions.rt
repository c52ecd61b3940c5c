//! Which begin the end of each synchronisation region belongs to.
ghost use Rattle.std.specs.Prelude.{◌∷◌, [], ℕ, ◌≡◌, ◌≢◌, ◌<◌, ◌+◌, ◌↔◌, Some, None, true, false, slice_get, slice_index_or, IsTrue, IfOk, IfErr, OnOk, MatchOption, length, replicate};
ghost use Rattle.ompt_events.specs.Tree.{IsExplicit};
ghost use Rattle.ompt_events.specs.declared.cause.Cause.{Cause};
ghost use Rattle.ompt_events.specs.declared.cause.Cause.TheVariants.{RegionOrder};
ghost use Rattle.ompt_events.specs.declared.names.SyncKind.{SyncKind};
ghost use Rattle.ompt_events.specs.Regions.{kind_at, is_called_barrier, IsRegion};
ghost use Rattle.ompt_events.specs.Causes.{HasCause, IsFreeOf};
ghost use Rattle.task_tree.specs.Runs.{IsRegionEvent};
ghost use Rattle.task_tree.specs.Own.{AreAllPlacesWith, FindsFirstPlace, IsOwnFault};
ghost use Rattle.task_states.specs.Regions.{AreLinked, AreLinkedOrNot, AreOpened, AreRegions, IsRegionBegin, IsEarliest, IsInnermost, IsPlaceJudged, top_after};

use index_tables::Slot;
use ompt_events::{Cause, Endpoint, Fault, Shown, SyncKind};
use std::alloc::{AllocError, Global};
use std::marker::Model;
use task_tree::{Own, RegionEvent, Run};

/// The regions of a run in its tasks' own order: which begin the end of each belongs to.
#[derive(Debug, Drop)]
pub struct Regions<'a> {
    own: Own<'a>,
    /// For each record that ends a region, the number of its begin; for each that begins one, the region
    /// that is open below it.
    begins: Vec<Slot>,
}

impl<'a> Model for Regions<'a> {
    ghost use Rattle.task_states.specs.Regions.{RegionsView, AreRegions};

    ghost Value = { RegionsView };

    ghost view = { λ regions. record { own = regions.own; begins = regions.begins.items } };

    ghost invariant = { λ regions. AreRegions (record { own = regions.own; begins = regions.begins.items }) };
}

impl<'a> Regions<'a> {
    /// Returns the regions of a run in its tasks' own order. Fails with the first place in the file at which
    /// a region ends without its begin, or an explicit task has a barrier (OpenMP 5.2, 15.3). Takes a few
    /// steps for each record, and memory linear in the records.
    pub fn in_own(alloc: Global, own: &Own<'a>) -> Result<Regions<'a>, Fault>
        ensures own { IfOk result (λ regions. regions.own ≡ own.now) }
        ensures regions { IfOk result AreRegions }
        ensures closed { OnOk result (IsFreeOf own.now.run.records RegionOrder) }
        ensures fault { IfErr result (IsOwnFault own.now RegionOrder) }
    {
        let _run = own.run();
        let begins = find_links(alloc, own)?;
        Ok(Regions {
            own: own.again(),
            begins,
        })
    }

    /// Returns the run in its tasks' own order.
    pub fn own(&self) -> &Own<'a>
        ensures value { result.now ≡ self.now.own }
        ensures are_regions { AreRegions self.now }
    {
        &self.own
    }

    /// Returns the number of the begin of the region that the record with this number ends, or none if it
    /// ends none. For a begin and end in one that is the same number.
    pub fn begin_of(&self, number: usize) -> Option<usize>
        requires { number < length self.now.own.run.records }
        ensures { MatchOption result ((task begin : ℕ) (kind : SyncKind)
            → IsRegion self.now.own.run.records number task kind begin → ⊥)
            (IsRegionBegin self.now.own.run.records number) }
    {
        let event = self.own.run().region(number)?;
        match event.endpoint {
            Endpoint::Begin => None,
            Endpoint::End => link_at(self.begins.as_slice(), number).get(),
            Endpoint::BeginEnd => Some(number),
        }
    }
}

/// Returns all places in the file at which a region ends without its begin, or an explicit task begins or
/// ends a barrier. `Regions::in_own` fails with the first of them. Takes a few steps for each record, and
/// memory linear in the records.
pub fn misplaced_regions(alloc: Global, own: &Own) -> Result<Shown, AllocError>
    ensures { IfOk result (AreAllPlacesWith own.now RegionOrder) }
{
    let run = own.run();
    let links = link_regions(alloc, own)?;
    let mut shown = Shown::none(alloc);
    if links.earliest.is_none() {
        return Ok(shown);
    }
    for place in 0..run.len() {
        let misplaced = is_misplaced_by(run, links.opened.as_slice(), own.number(place));
        shown.note(place, misplaced)?;
    }
    Ok(shown)
}

/// Returns for each record the begin that an end belongs to, or the innermost region of the task that is
/// open when a begin opens another. Fails with the first place in the file of an end that belongs to no
/// begin, or of a begin or end of a barrier by an explicit task.
fn find_links(alloc: Global, own: &Own) -> Result<Vec<Slot>, Fault>
    ensures linked { IfOk result (λ links.
        AreLinked own.now.run.records (length own.now.run.records) links.items) }
    ensures free { OnOk result (IsFreeOf own.now.run.records RegionOrder) }
    ensures fault { IfErr result (IsOwnFault own.now RegionOrder) }
{
    let links = link_regions(alloc, own)?;
    match links.earliest {
        Some(at) => Err(Fault::Malformed {
            at,
            cause: Cause::RegionOrder,
        }),
        None => Ok(links.opened),
    }
}

/// The regions of a run in its tasks' own order, whether or not each may begin or end where it does.
#[derive(Drop)]
struct Links {
    /// For each record that begins or ends a region, the innermost one of its task that is open before it.
    opened: Vec<Slot>,
    /// The first place in the file at which a region may not begin or end.
    earliest: Option<usize>,
}

/// Returns the region that is open before each record that begins or ends one, and the first place in the
/// file at which a region may not begin or end. A record that may not opens or closes a region as any other.
/// Fails only when out of memory.
fn link_regions(alloc: Global, own: &Own) -> Result<Links, AllocError>
    ensures opened { IfOk result (λ links.
        AreOpened own.now.run.records (length own.now.run.records) links.opened.items) }
    ensures linked { IfOk result (λ links.
        AreLinkedOrNot own.now.run.records (length own.now.run.records) links.opened.items) }
    ensures earliest { IfOk result (λ links. FindsFirstPlace own.now RegionOrder links.earliest) }
{
    let run = own.run();
    let mut innermost = no_places(alloc, run.task_count())?;
    let mut links = no_places(alloc, run.len())?;
    let mut earliest = None;
    for number in 0..run.len() {
        let Some(event) = run.region(number) else {
            continue;
        };
        let opened = innermost[event.task];
        let misplaced = is_misplaced(run, number, opened.get(), event);
        earliest = earlier(own, earliest, number, misplaced);
        innermost[event.task] = next_top(&links, opened, number, event.endpoint);
        links[number] = opened;
    }
    Ok(Links {
        opened: links,
        earliest,
    })
}

/// Returns the earlier in the file of two places: the earliest so far, if there is one, and that of the
/// record with this number, if that record has the cause.
fn earlier(own: &Own, earliest: Option<usize>, number: usize, has: bool) -> Option<usize>
    requires { number < length own.now.run.records }
    ensures { (cause : Cause) → (IsTrue has ↔ HasCause own.now.run.records number cause)
        → IsEarliest own.now cause number earliest → IsEarliest own.now cause (number + 1) result }
{
    if !has {
        return earliest;
    }
    let place = own.place(number);
    match earliest {
        Some(before) => Some(before.min(place)),
        None => Some(place),
    }
}

/// Returns whether the record with this number begins or ends a region that may not, by the regions that are
/// open before each record.
fn is_misplaced_by(run: &Run, opened: &[Slot], number: usize) -> bool
    requires within { number < length run.now.records }
    requires opened { AreOpened run.now.records (length run.now.records) opened.now }
    ensures { IsTrue result ↔ HasCause run.now.records number RegionOrder }
{
    match run.region(number) {
        Some(event) => is_misplaced(run, number, link_at(opened, number).get(), event),
        None => false,
    }
}

/// Returns whether the region may not begin or end there: it ends, and the innermost open one of its task is
/// not of that kind; or it is a barrier of an explicit task.
fn is_misplaced(run: &Run, number: usize, opened: Option<usize>, event: RegionEvent) -> bool
    requires event { IsRegionEvent run.now number event.task event.kind event.endpoint }
    requires opened { IsInnermost run.now number event.task opened }
    ensures { IsPlaceJudged run.now.records number opened result }
{
    let _tasks = run.task_count();
    if misses_begin(run, opened, event) {
        return true;
    }
    if is_barred(run, event) {
        return true;
    }
    false
}

/// Returns a table of this many entries, each without a place.
fn no_places(alloc: Global, count: usize) -> Result<Vec<Slot>, AllocError>
    ensures { IfOk result (λ places. places.items ≡ replicate count None) }
{
    vec![in alloc; Slot::none(); count]
}

/// Returns whether the record ends a region, and the innermost open one of its task is not of that kind.
fn misses_begin(run: &Run, opened: Option<usize>, event: RegionEvent) -> bool
    ensures misses { IsTrue result → (event.endpoint ≡ Endpoint.End)
        × ((begin : ℕ) → opened ≡ Some begin → kind_at run.now.records begin ≢ Some event.kind) }
    ensures finds { result ≡ false → event.endpoint ≡ Endpoint.End → (begin : ℕ) × (opened ≡ Some begin)
        × (kind_at run.now.records begin ≡ Some event.kind) }
{
    match event.endpoint {
        Endpoint::Begin | Endpoint::BeginEnd => false,
        Endpoint::End => match opened {
            Some(begin) => !is_of_kind(run, begin, event.kind),
            None => true,
        },
    }
}

/// Returns whether a region of this kind begins or ends there.
fn is_of_kind(run: &Run, place: usize, kind: SyncKind) -> bool
    ensures { IsTrue result ↔ (kind_at run.now.records place ≡ Some kind) }
{
    match kind_of(run, place) {
        Some(found) => found == kind,
        None => false,
    }
}

/// Returns the kind of the region that begins or ends there.
fn kind_of(run: &Run, place: usize) -> Option<SyncKind>
    ensures { result ≡ kind_at run.now.records place }
{
    if place >= run.len() {
        return None;
    }
    let event = run.region(place)?;
    Some(event.kind)
}

/// Returns whether the region is a barrier, and the task is explicit, so that it may have none.
fn is_barred(run: &Run, event: RegionEvent) -> bool
    requires { event.task < length run.now.family.tasks }
    ensures { (task : ℕ) → slice_get run.now.family.tasks event.task ≡ Some task → IsTrue result
        ↔ ((is_called_barrier event.kind ≡ true) × IsExplicit run.now.records task) }
{
    event.kind.is_called_barrier() && run.is_explicit(event.task)
}

/// Returns the innermost open region of a task after its record with this number.
fn next_top(links: &[Slot], opened: Slot, number: usize, endpoint: Endpoint) -> Slot
    requires { number < 4294967295 }
    ensures { result ≡ top_after links.now opened number endpoint }
{
    match endpoint {
        Endpoint::Begin => Slot::some(number),
        Endpoint::BeginEnd => opened,
        Endpoint::End => match opened.get() {
            Some(begin) => link_at(links, begin),
            None => Slot::none(),
        },
    }
}

/// Returns the begin that the end of a region at a place belongs to, or the region that is open below the
/// one that begins there.
fn link_at(links: &[Slot], at: usize) -> Slot
    ensures { result ≡ slice_index_or links.now at None }
{
    if at < links.len() {
        links[at]
    } else {
        Slot::none()
    }
}
