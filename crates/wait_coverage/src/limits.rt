//! The least ledger length at which what the end of a region covers is finished.
ghost use Rattle.std.specs.Prelude.{ℕ, ◌≡◌, ◌<◌, ◌+◌, ◌↔◌, ◌++◌, ◌∷◌, [], Some, None, IfOk, IsTrue, length, replicate};
ghost use Rattle.ompt_events.specs.declared.names.SyncKind.{SyncKind};
ghost use Rattle.ompt_events.specs.Records.{region};
ghost use Rattle.ompt_events.specs.Places.{at as says_at};
ghost use Rattle.task_tree.specs.Runs.{IsCreation, IsWaitEvent};
ghost use Rattle.wait_coverage.specs.Limits.{IsLimitOfBegin, IsMark, AreFalling, Gathers, IsLimitProgress, AreNodes};
ghost use Rattle.wait_coverage.specs.Meetings.{AreMet};

use crate::done::Done;
use crate::limit::Limit;
use crate::meetings::meet;
use index_tables::Slot;
use ompt_events::{Endpoint, WaitKind};
use std::alloc::{AllocError, Global};
use task_tree::{Creation, WaitEvent};

/// What is noted at one record.
#[derive(Clone, Copy, Debug, PartialEq, Eq)]
pub(crate) struct Node {
    /// The least ledger length at which tasks are finished. For a creation: the child and its descendants.
    /// For the begin of a taskwait: the children so far. For the begin of a barrier: these and their
    /// descendants. For the end of a region: what it covers.
    pub(crate) limit: Limit,
    /// For a creation and the end of a taskgroup: the one before it of the same task, of those that are not
    /// in a taskgroup that ended since.
    previous: Slot,
}

/// What is known of each task, by its index, during the pass over the records.
#[derive(Drop)]
struct Progress {
    /// The last node of the task that the end of a taskgroup may have to visit.
    heads: Vec<Slot>,
    /// The least ledger length at which the children so far are finished.
    latest: Vec<Limit>,
    /// The same for the children so far and their descendants.
    families: Vec<Limit>,
}

impl Node {
    /// Returns a node that the end of a taskgroup never has to visit.
    fn alone(limit: Limit) -> Node
        ensures limit { result.limit ≡ limit }
        ensures alone { result.previous ≡ None }
    {
        Node {
            limit,
            previous: Slot::none(),
        }
    }
}

/// What is noted at each record, except the ends of barriers; and, by number of the team and number of the
/// barrier, the least ledger length at which the children that each member created before its barrier began
/// are finished, with their descendants.
pub(crate) struct Noted {
    pub(crate) nodes: Vec<Node>,
    pub(crate) meetings: Vec<Vec<Limit>>,
}

/// Returns what is noted at the records.
pub(crate) fn find_limits(alloc: Global, done: &Done) -> Result<Noted, AllocError>
    ensures nodes { IfOk result (λ noted. AreNodes done.now noted.nodes.items) }
    ensures met { IfOk result (λ noted.
        AreMet done.now (length done.now.teams.run.records) noted.meetings.items) }
{
    let run = done.run();
    let mut meetings: Vec<Vec<Limit>> = Vec::new(alloc);
    let mut progress = no_progress(alloc, run.task_count())?;
    let mut nodes: Vec<Node> = Vec::with_capacity(alloc, run.len())?;
    for at in 0..run.len() {
        let node = node_at(done, nodes.as_slice(), &mut progress, at);
        meet(alloc, done, node.limit, &mut meetings, at)?;
        nodes.push(node)?;
    }
    Ok(Noted { nodes, meetings })
}

/// Returns what is known before the first record.
fn no_progress(alloc: Global, tasks: usize) -> Result<Progress, AllocError>
    ensures heads { IfOk result (λ progress. progress.heads.items ≡ replicate tasks None) }
    ensures latest { IfOk result (λ progress. progress.latest.items ≡ replicate tasks 0) }
    ensures families { IfOk result (λ progress. progress.families.items ≡ replicate tasks 0) }
{
    Ok(Progress {
        heads: vec![in alloc; Slot::none(); tasks]?,
        latest: vec![in alloc; Limit::zero(); tasks]?,
        families: vec![in alloc; Limit::zero(); tasks]?,
    })
}

/// Returns the node of a record, and notes what it changes.
fn node_at(done: &Done, nodes: &[Node], progress: &mut Progress, at: usize) -> Node
    requires within { at < length done.now.teams.run.records }
    requires noted { IsLimitProgress done.now at nodes.now progress.old }
    ensures { IsLimitProgress done.now (at + 1) (nodes.now ++ result ∷ []) progress.new }
{
    let run = done.run();
    if let Some(made) = run.creation(at) {
        return create(done, nodes, progress, made, at);
    }
    let Some(event) = run.wait_event(at) else {
        return Node::alone(Limit::zero());
    };
    if ends_taskgroup(event) {
        return close(done, nodes, progress, event, at);
    }
    Node::alone(limit_at(done, nodes, progress, event, at))
}

/// Returns whether the event is the end of a taskgroup.
fn ends_taskgroup(event: WaitEvent) -> bool
    ensures { IsTrue result ↔ ((event.kind ≡ WaitKind.Taskgroup) × (event.endpoint ≡ Endpoint.End)) }
{
    event.kind == WaitKind::Taskgroup && event.endpoint == Endpoint::End
}

/// Returns the limit of the begin or end of a region, except the end of a taskgroup.
fn limit_at(done: &Done, nodes: &[Node], progress: &Progress, event: WaitEvent, at: usize) -> Limit
    requires within { at < length done.now.teams.run.records }
    requires event { IsWaitEvent done.now.teams.run at event.task event.kind event.endpoint }
    requires noted { IsLimitProgress done.now at nodes.now progress.now }
    ensures { (event.kind ≡ WaitKind.Taskgroup → event.endpoint ≡ Endpoint.End → ⊥)
        → IsMark done.now at result }
{
    match event.kind {
        WaitKind::Taskwait => {
            if event.endpoint == Endpoint::End {
                limit_of_begin(done, nodes, at)
            } else {
                progress.latest[event.task]
            }
        }
        WaitKind::Taskgroup => Limit::zero(),
        WaitKind::Barrier => progress.families[event.task],
    }
}

/// Returns the node of a creation, which has the child's limit.
fn create(done: &Done, nodes: &[Node], progress: &mut Progress, made: Creation, at: usize) -> Node
    requires made { IsCreation done.now.teams.run at made.parent made.child }
    requires noted { IsLimitProgress done.now at nodes.now progress.old }
    ensures { IsLimitProgress done.now (at + 1) (nodes.now ++ result ∷ []) progress.new }
{
    let own = Limit::of(done.own()[made.child]);
    let limit = Limit::of(done.families()[made.child]);
    let previous = progress.heads[made.parent];
    progress.heads[made.parent] = Slot::some(at);
    progress.latest[made.parent] = progress.latest[made.parent].max(own);
    progress.families[made.parent] = progress.families[made.parent].max(limit);
    Node { limit, previous }
}

/// Returns the node of the end of a taskgroup, which replaces all nodes created in it.
fn close(done: &Done, nodes: &[Node], progress: &mut Progress, event: WaitEvent, at: usize) -> Node
    requires within { at < length done.now.teams.run.records }
    requires event { IsWaitEvent done.now.teams.run at event.task WaitKind.Taskgroup Endpoint.End }
    requires noted { IsLimitProgress done.now at nodes.now progress.old }
    ensures { IsLimitProgress done.now (at + 1) (nodes.now ++ result ∷ []) progress.new }
{
    let Some(begin) = done.begin_of(at) else {
        return Node::alone(Limit::zero());
    };
    let _run = done.run();
    let node = gather(nodes, progress.heads[event.task], begin);
    progress.heads[event.task] = Slot::some(at);
    node
}

/// Returns one node that replaces those of a chain that are later than the begin.
fn gather(nodes: &[Node], head: Slot, begin: usize) -> Node
    requires falling { AreFalling nodes.now }
    requires known { (number : ℕ) → head ≡ Some number → number < length nodes.now }
    ensures { Gathers nodes.now head begin result }
{
    let mut limit = Limit::zero();
    let mut rest = head;
    'nodes: while let Some(number) = later(rest, begin) {
        limit = limit.max(nodes[number].limit);
        rest = nodes[number].previous;
    }
    Node {
        limit,
        previous: rest,
    }
}

/// Returns the number in the slot, if it is later than the begin.
fn later(slot: Slot, begin: usize) -> Option<usize>
    ensures { (number : ℕ) → (result ≡ Some number) ↔ ((slot ≡ Some number) × (begin < number)) }
{
    match slot.get() {
        Some(number) if number > begin => Some(number),
        _ => None,
    }
}

/// Returns the limit at the begin of the taskwait that the record ends.
fn limit_of_begin(done: &Done, nodes: &[Node], at: usize) -> Limit
    requires within { at < length done.now.teams.run.records }
    requires count { length nodes.now ≡ at }
    requires ends { (task : ℕ) × (says_at region done.now.teams.run.records at
        ≡ Some (task, SyncKind.Taskwait, Endpoint.End)) }
    ensures { IsLimitOfBegin done.now.teams.run.records nodes.now at result }
{
    match done.begin_of(at) {
        Some(begin) => nodes[begin].limit,
        None => Limit::zero(),
    }
}
