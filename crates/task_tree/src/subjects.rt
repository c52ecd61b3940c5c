//! The tasks that each record names, looked up once for all later steps.
ghost use Rattle.std.specs.Prelude.{◌≡◌, ◌≤◌, ◌^◌, ◌<◌, Some, None, IfOk, IfSome, IsTrue, Contains, length, replicate};
ghost use Rattle.ompt_events.specs.declared.cause.Cause.TheVariants.{CreatedTwice};
ghost use Rattle.ompt_events.specs.Records.{claim, made, region_named};
ghost use Rattle.ompt_events.specs.Places.{at as says_at};
ghost use Rattle.ompt_events.specs.Causes.{IsFreeOf};
ghost use Rattle.task_tree.specs.Makers.{AreNoted};
ghost use Rattle.index_tables.specs.Numbering.{AreApart};
ghost use Rattle.task_tree.specs.Links.{AreChildCounts, AreLinks};
ghost use Rattle.packed_trace.specs.Named.{subject, object};
ghost use Rattle.task_tree.specs.Rootless.{AllNameKnown};
ghost use Rattle.task_tree.specs.Subjects.{Finds, AreFound, IsKnownAt};

use crate::hints::Hints;
use crate::links::{Linked, link_child, no_counts, no_links};
use index_tables::{Numbering, Slot};
use packed_trace::PackedTrace;
use std::alloc::{AllocError, Global};

/// By place of the record the indices of the tasks that it names.
#[derive(Drop)]
pub(crate) struct Subjects {
    pub(crate) subjects: Vec<Slot>,
    pub(crate) objects: Vec<Slot>,
    /// True only if all tasks and parallel regions that the records name are known. May be false if they
    /// are.
    pub(crate) known: bool,
}

/// What one pass over the records finds: the tasks that they name, and the links of those that they create.
pub(crate) struct Lookup {
    pub(crate) named: Subjects,
    pub(crate) linked: Linked,
}

/// Returns the tasks that the records name, and the link of each task that they create to its parent.
pub(crate) fn find_subjects(
    alloc: Global,
    trace: &PackedTrace,
    tasks: &Numbering,
    regions: &Numbering,
) -> Result<Lookup, AllocError>
    requires noted { AreNoted made trace.now.records (length trace.now.records) tasks.now }
    requires apart { AreApart tasks.now }
    requires once { IsFreeOf trace.now.records CreatedTwice }
    requires few { length trace.now.records ≤ 2 ^ 22 }
    requires few_tasks { length tasks.now ≤ 2 ^ 22 }
    ensures subjects { IfOk result (λ found. AreFound subject trace.now.records
        (length trace.now.records) tasks.now found.named.subjects.items) }
    ensures objects { IfOk result (λ found. AreFound object trace.now.records
        (length trace.now.records) tasks.now found.named.objects.items) }
    ensures known { IfOk result (λ found. IsTrue found.named.known
        → AllNameKnown trace.now.records (length trace.now.records) tasks.now regions.now) }
    ensures counts { IfOk result (λ found. AreChildCounts trace.now.records
        (length trace.now.records) tasks.now found.linked.counts.items) }
    ensures links { IfOk result (λ found. AreLinks trace.now.records
        (length trace.now.records) tasks.now found.linked.links.items) }
{
    let count = trace.len();
    let mut subjects = no_slots(alloc, count)?;
    let mut objects = no_slots(alloc, count)?;
    let mut counts = no_counts(alloc, tasks.as_slice().len())?;
    let mut links = no_links(alloc, tasks.as_slice().len())?;
    let mut hints = Hints::new();
    let mut known = true;
    for at in 0..count {
        let found = look_up(trace, at, tasks, regions, &mut hints, &mut known);
        subjects[at] = found.subject;
        objects[at] = found.object;
        if trace.creation(at).is_some() {
            link_child(found.subject, found.object, &mut counts, &mut links);
        }
    }
    Ok(Lookup {
        named: Subjects {
            subjects,
            objects,
            known,
        },
        linked: Linked { counts, links },
    })
}

/// Returns no task for each record.
fn no_slots(alloc: Global, records: usize) -> Result<Vec<Slot>, AllocError>
    ensures { IfOk result (λ slots. slots.items ≡ replicate records None) }
{
    vec![in alloc; Slot::none(); records]
}

/// The indices of the tasks that one record names.
#[derive(Clone, Copy)]
struct Found {
    subject: Slot,
    object: Slot,
}

/// Looks up the tasks that the record at a place names, and notes what that says of the indices of later ones.
/// `known` stays true only if all tasks and regions that it names are known. Inlined into the loop over all
/// records, since a call would pass its state through memory.
#[inline(always)]
fn look_up(
    trace: &PackedTrace,
    at: usize,
    tasks: &Numbering,
    regions: &Numbering,
    hints: &mut Hints,
    known: &mut bool,
) -> Found
    requires within { at < length trace.now.records }
    requires few { length tasks.now ≤ 2 ^ 22 }
    ensures subject { Finds tasks.now (says_at subject trace.now.records at) result.subject }
    ensures object { Finds tasks.now (says_at object trace.now.records at) result.object }
    ensures known { IsTrue known.new
        → IsTrue known.old × IsKnownAt tasks.now regions.now trace.now.records at }
{
    check_region(trace, at, regions, known);
    check_claim(trace, at, tasks, hints, known);
    let subject = find_subject(trace, at, tasks, hints, known);
    let object = find_object(trace, at, tasks, hints, known);
    Found { subject, object }
}

/// Returns the index of the task that the record is of, if it is of one.
#[inline(always)]
fn find_subject(
    trace: &PackedTrace,
    at: usize,
    tasks: &Numbering,
    hints: &mut Hints,
    known: &mut bool,
) -> Slot
    requires within { at < length trace.now.records }
    requires few { length tasks.now ≤ 2 ^ 22 }
    ensures found { Finds tasks.now (says_at subject trace.now.records at) result }
    ensures known { IsTrue known.new
        → IsTrue known.old × IfSome (says_at subject trace.now.records at) (Contains tasks.now) }
{
    let Some(task) = trace.subject(at) else {
        return Slot::none();
    };
    let event = trace.event(at);
    let index = tasks.index_near(task, hints.subject(event));
    hints.note_subject(event, index);
    checked(index, known)
}

/// Returns the index of the second task that the record names, if it names one.
#[inline(always)]
fn find_object(
    trace: &PackedTrace,
    at: usize,
    tasks: &Numbering,
    hints: &mut Hints,
    known: &mut bool,
) -> Slot
    requires within { at < length trace.now.records }
    requires few { length tasks.now ≤ 2 ^ 22 }
    ensures found { Finds tasks.now (says_at object trace.now.records at) result }
    ensures known { IsTrue known.new
        → IsTrue known.old × IfSome (says_at object trace.now.records at) (Contains tasks.now) }
{
    let Some(task) = trace.object(at) else {
        return Slot::none();
    };
    let event = trace.event(at);
    let index = tasks.index_near(task, hints.object(event));
    hints.note_object(event, index);
    checked(index, known)
}

/// Returns the slot of an index. Sets `known` to false if there is none.
fn checked(index: Option<usize>, known: &mut bool) -> Slot
    requires { IfSome index (λ i. i < 4294967295) }
    ensures slot { result ≡ index }
    ensures known { IsTrue known.new → IsTrue known.old × (index ≡ None → ⊥) }
{
    match index {
        Some(index) => Slot::some(index),
        None => {
            *known = false;
            Slot::none()
        }
    }
}

/// Looks up the root that the record claims, if it claims one. Looks first at the index that the thread's last
/// claim found.
#[inline(always)]
fn check_claim(
    trace: &PackedTrace,
    at: usize,
    tasks: &Numbering,
    hints: &mut Hints,
    known: &mut bool,
)
    requires { at < length trace.now.records }
    ensures { IsTrue known.new → IsTrue known.old
        × IfSome (says_at claim trace.now.records at) (λ claim. Contains tasks.now claim.root) }
{
    let Some(claim) = trace.claim_near(at, hints.claims()) else {
        return;
    };
    let thread = trace.thread(at);
    match tasks.index_near(claim.root, hints.root(thread)) {
        Some(index) => hints.note_root(thread, index),
        None => *known = false,
    }
}

/// Looks up the parallel region that ends, or whose team a task joins.
#[inline(always)]
fn check_region(trace: &PackedTrace, at: usize, regions: &Numbering, known: &mut bool)
    requires { at < length trace.now.records }
    ensures { IsTrue known.new → IsTrue known.old
        × IfSome (says_at region_named trace.now.records at) (Contains regions.now) }
{
    if let Some(region) = trace.region_named(at) {
        if !regions.contains(region) {
            *known = false;
        }
    }
}
