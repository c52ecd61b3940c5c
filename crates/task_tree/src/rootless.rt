//! A check that each record names only tasks that have a root, and parallel regions that began.
ghost use Rattle.std.specs.Prelude.{ℕ, ◌≡◌, ◌<◌, ◌↔◌, Some, None, IfOk, IfErr, IsTrue, IsSomeAnd, IfSome, Contains, length, slice_get};
ghost use Rattle.ompt_events.specs.declared.cause.Cause.TheVariants.{CreatedTwice, Rootless};
ghost use Rattle.ompt_events.specs.declared.fault.Fault.TheVariants.{Memory};
ghost use Rattle.ompt_events.specs.declared.records.Record.{Record};
ghost use Rattle.ompt_events.specs.Records.{claim, region_named};
ghost use Rattle.ompt_events.specs.Places.{at as says_at};
ghost use Rattle.ompt_events.specs.Causes.{IsFreeOf, HasNoRoot};
ghost use Rattle.ompt_events.specs.Shown.{AreAllWith};
ghost use Rattle.index_tables.specs.Numbering.{AreApart};
ghost use Rattle.task_tree.specs.Subjects.{Finds};
ghost use Rattle.packed_trace.specs.Named.{object};
ghost use Rattle.task_tree.specs.Rootless.{AreRootsMade, CreatesUnrooted, IsMissing};
ghost use Rattle.task_tree.specs.Tables.{AreTablesOf};
ghost use Rattle.task_tree.specs.declared.roots.Standing.{Standing};

use crate::standing_slot::StandingSlot;
use crate::tables::{Tables, find_tables};
use index_tables::{Numbering, Slot};
use ompt_events::{Fault, Shown};
use packed_trace::PackedTrace;
use std::alloc::{AllocError, Global};

/// Returns the places of all records that name a task which no record makes, create one whose chain of
/// parents reaches no root, or end or join a parallel region that no record begins. Requires that no task
/// and no region is made twice. Fails only when out of memory.
pub fn rootless_records(alloc: Global, trace: &PackedTrace) -> Result<Shown, Fault>
    requires { IsFreeOf trace.now.records CreatedTwice }
    ensures all { IfOk result (AreAllWith trace.now.records Rootless) }
    ensures memory_alone { IfErr result (λ fault. fault ≡ Memory) }
{
    let tables = find_tables(alloc, trace)?;
    Ok(find_rootless(alloc, trace, &tables)?)
}

/// Returns the same, given the tables.
pub(crate) fn find_rootless(
    alloc: Global,
    trace: &PackedTrace,
    tables: &Tables,
) -> Result<Shown, AllocError>
    requires { AreTablesOf trace.now.records tables.now }
    ensures { IfOk result (AreAllWith trace.now.records Rootless) }
{
    let mut shown = Shown::none(alloc);
    // Nearly each file ends here: what the records name was looked up before.
    if tables.named.known && are_known(tables.roots.as_slice()) {
        return Ok(shown);
    }
    for at in 0..trace.len() {
        shown.note(at, is_rootless(trace, at, tables))?;
    }
    Ok(shown)
}

/// Returns true only if the root of each task is known.
fn are_known(roots: &[StandingSlot]) -> bool
    ensures { IsTrue result → (index : ℕ) → slice_get roots.now index ≡ Some None → ⊥ }
{
    for root in roots {
        if root.is_none() {
            return false;
        }
    }
    true
}

/// Returns whether the record at a place is one of these.
fn is_rootless(trace: &PackedTrace, at: usize, tables: &Tables) -> bool
    requires within { at < length trace.now.records }
    requires tables { AreTablesOf trace.now.records tables.now }
    ensures { IsTrue result ↔ HasNoRoot trace.now.records at }
{
    let roots = tables.roots.as_slice();
    let first = tables.named.subjects[at];
    let second = tables.named.objects[at];
    if is_missing(trace.subject(at), first) {
        return true;
    }
    if is_missing(trace.object(at), second) {
        return true;
    }
    if claims_unmade(trace, at, first, &tables.tasks, roots) {
        return true;
    }
    if creates_unrooted(trace, at, &tables.tasks, second, roots) {
        return true;
    }
    names_no_region(trace, at, &tables.regions)
}

/// Returns whether the record at a place creates a task of which no root is known. Requires the slot of its
/// second task, in which there is an index if it has such a task.
fn creates_unrooted(
    trace: &PackedTrace,
    at: usize,
    tasks: &Numbering,
    second: Slot,
    roots: &[StandingSlot],
) -> bool
    requires within { at < length trace.now.records }
    requires apart { AreApart tasks.now }
    requires all { length roots.now ≡ length tasks.now }
    requires found { Finds tasks.now (says_at object trace.now.records at) second }
    requires filled { IsMissing (says_at object trace.now.records at) second → ⊥ }
    ensures { (r : Record) → slice_get trace.now.records at ≡ Some r
        → IsTrue result ↔ CreatesUnrooted tasks.now roots.now r.body }
{
    trace.creation(at).is_some() && has_no_root(second, roots)
}

/// Returns whether a task is named, and has no index in its slot.
fn is_missing(task: Option<u64>, slot: Slot) -> bool
    ensures { IsTrue result ↔ IsMissing task slot }
{
    task.is_some() && slot.is_none()
}

/// Returns whether no root of the task is known. Returns true for a slot without an index.
fn has_no_root(task: Slot, roots: &[StandingSlot]) -> bool
    requires { IfSome task (λ index. index < length roots.now) }
    ensures { IsTrue result ↔ ((index : ℕ) → task ≡ Some index → slice_get roots.now index ≡ Some None) }
{
    match task.get() {
        Some(index) => roots[index].is_none(),
        None => true,
    }
}

/// Returns whether the record at a place has a claim of a root that no record makes.
fn claims_unmade(
    trace: &PackedTrace,
    at: usize,
    task: Slot,
    tasks: &Numbering,
    roots: &[StandingSlot],
) -> bool
    requires within { at < length trace.now.records }
    requires made { AreRootsMade tasks.now roots.now }
    ensures { IsTrue result
        ↔ IsSomeAnd (says_at claim trace.now.records at) (λ claim. Contains tasks.now claim.root → ⊥) }
{
    match trace.claim(at) {
        Some(claim) => !is_root_of(claim.root, task, roots) && !tasks.contains(claim.root),
        None => false,
    }
}

/// Returns true only if this is the known root of some task. Looks at the root of this task, which a right
/// claim names.
fn is_root_of(root: u64, task: Slot, roots: &[StandingSlot]) -> bool
    ensures { IsTrue result → (index : ℕ) × (standing : Standing)
        × (slice_get roots.now index ≡ Some (Some standing)) × (standing.root ≡ root) }
{
    match task.get() {
        Some(index) if index < roots.len() => {
            roots[index]
                .get()
                .is_some_and(|standing| standing.root == root)
        }
        _ => false,
    }
}

/// Returns whether the record at a place ends or joins a parallel region that no record begins.
fn names_no_region(trace: &PackedTrace, at: usize, regions: &Numbering) -> bool
    requires { at < length trace.now.records }
    ensures { IsTrue result
        ↔ IsSomeAnd (says_at region_named trace.now.records at) (λ region. Contains regions.now region → ⊥) }
{
    match trace.region_named(at) {
        Some(region) => !regions.contains(region),
        None => false,
    }
}
