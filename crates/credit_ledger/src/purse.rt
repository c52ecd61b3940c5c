//! The shares of one credit that have come back.
ghost use Rattle.std.specs.Prelude.{◌≡◌, ◌≤◌, ◌++◌, ◌∷◌, [], ℕ, IfOk, IfErr, IfSome, is_none, OnOk, OnErr, IsErr, IsTrue, IsOkUnless, ◌↔◌, if◌then◌else◌, ◌<◌, take, length, reverse, false, Some, vec_len, vec_capacity};
ghost use Rattle.std.specs.List.{list_any};
ghost use Rattle.credit_ledger.specs.Shares.{overlaps, overlaps_either, Hold};
ghost use Rattle.credit_ledger.specs.Paths.{path_of};
ghost use Rattle.credit_ledger.specs.Trees.{is_by, child, place, progress_at, time_above, IsTreeLinked, IsSettling, IsTreeKnown, IsHeldFrom, IsSearchStart, IsGrown};

use crate::credit_fault::CreditFault;
use crate::links::Side;
use crate::share::Share;
use crate::tree::{Run, Start, Tree, Walk};
use std::alloc::Global;
use std::marker::Model;

/// The shares of one credit that have come back, in the order in which they were entered (F. Mattern,
/// 1989).
///
/// A tree records which shares they hold. Its root is the whole. It has a node for each share that ends
/// with a Give half, if that share or one that begins with it was entered. A node is held if an entered
/// share is the node's share followed by Keep halves alone, and each child with a number below the count
/// of these halves is held. Each call takes as many steps as its share has Give halves, unless its own
/// description says otherwise.
#[derive(Debug, Drop)]
pub struct Purse {
    shares: Vec<Share>,
    tree: Tree,
}

impl Model for Purse {
    ghost use Rattle.std.specs.Prelude.{List};
    ghost use Rattle.credit_ledger.specs.declared.share.Half.{Half};
    ghost use Rattle.credit_ledger.specs.Trees.{progress_at, IsTreeLinked, IsTreeKnown};

    ghost Value = { List (List Half) };

    ghost view = { λ purse. purse.shares.items };

    ghost invariant = { λ purse. IsTreeLinked purse.tree × IsTreeKnown purse.shares.items (progress_at purse.tree) };
}

impl Purse {
    /// Returns a purse with no share. Allocates nothing.
    pub fn new(alloc: Global) -> Purse
        ensures { result ≡ [] }
    {
        Purse {
            shares: Vec::new(alloc),
            tree: Tree::new(alloc),
        }
    }

    /// Enters the share. Fails with `Overlap` if the share overlaps one in the purse, and otherwise only
    /// with `Memory`. If it fails, it returns the share, and the purse is unchanged. It looks at each
    /// share in the purse if one below the new share's node may overlap it.
    pub fn enter(&mut self, share: Share) -> Result<(), (Share, CreditFault)>
        ensures entered { OnOk result (self.new ≡ self.old ++ share ∷ []) }
        ensures unchanged { OnErr result (self.new ≡ self.old) }
        ensures overlaps { IsTrue (list_any (overlaps share) self.old) → IsErr result }
        ensures returned { IfErr result (λ refusal. refusal.0 ≡ share) }
        ensures fault { IfErr result (λ refusal.
            refusal.1 ≡ (if list_any (overlaps share) self.old
            then CreditFault.Overlap
            else CreditFault.Memory)) }
    {
        let index = match node_for(&mut self.tree, self.shares.as_slice(), &share) {
            Ok(index) => index,
            Err(fault) => return Err((share, fault)),
        };
        let Ok(()) = self.shares.reserve(1) else {
            return Err((share, CreditFault::Memory));
        };
        add(&mut self.tree, &mut self.shares, share, index);
        Ok(())
    }

    /// Enters two shares, or neither. Fails with `Overlap` if one of them overlaps a share in the purse or
    /// the other one, and otherwise only with `Memory`. If it fails, it returns both shares, and the purse
    /// is unchanged.
    pub fn enter_both(
        &mut self,
        first: Share,
        second: Share,
    ) -> Result<(), (Share, Share, CreditFault)>
        ensures entered { OnOk result (self.new ≡ self.old ++ first ∷ second ∷ []) }
        ensures unchanged { OnErr result (self.new ≡ self.old) }
        ensures overlaps { IsTrue (overlaps_either first second self.old) → IsErr result }
        ensures returned { IfErr result (λ refusal. (refusal.0 ≡ first) × (refusal.1 ≡ second)) }
        ensures fault { IfErr result (λ refusal.
            refusal.2 ≡ (if overlaps_either first second self.old then CreditFault.Overlap else CreditFault.Memory)) }
    {
        let Err((first, second)) = add_both(&mut self.tree, &mut self.shares, first, second) else {
            return Ok(());
        };
        let fault = fault_of_both(&self.tree, self.shares.as_slice(), &first, &second);
        Err((first, second, fault))
    }

    /// Returns whether the shares in the purse hold this one, so that all of it has come back: each list
    /// of halves that begins with it, and is at least as long as it and as each of them, begins with one
    /// of them. Fails only with `Memory`.
    pub fn holds(&self, share: &Share) -> Result<bool, CreditFault>
        ensures held { IfOk result (λ held. IsTrue held ↔ Hold self.now share.now) }
        ensures memory_alone { IsOkUnless result CreditFault.Memory }
    {
        Ok(self.held_since(share).is_some())
    }

    /// Returns the least n such that the first n shares in the purse, in the order in which they were
    /// entered, hold this one, or `None` if they do not hold it. If the share ends with a Keep half, it
    /// may look at each child of the node of its last Give half.
    pub fn held_since(&self, share: &Share) -> Option<usize>
        ensures { (upto : ℕ) → IsTrue (is_by result upto) ↔ Hold (take upto self.now) share.now }
    {
        match self.tree.walk(share.runs()) {
            Walk::Above(time) => Some(time + 1),
            Walk::Missing(_) => None,
            Walk::Found(index) => since_at(&self.tree, self.shares.as_slice(), share, index),
        }
    }
}

/// Returns the least n such that the first n shares hold the share. Requires that this is the share's
/// node, and that no entered share with fewer Give halves begins it.
fn since_at(tree: &Tree, shares: &[Share], share: &Share, index: usize) -> Option<usize>
    requires known { IsTreeKnown shares.now (progress_at tree.now) }
    requires place { place (child tree.now) (path_of share.now).0 ≡ Some index }
    requires above { time_above (progress_at tree.now) (path_of share.now).0 ≡ None }
    ensures { IsHeldFrom shares.now result share.now }
{
    let progress = tree.node(index).progress;
    let Some(run) = progress.run else {
        return None;
    };
    let last = share.last();
    if run.keeps <= last {
        Some(run.time + 1)
    } else if last == 0 {
        progress.since
    } else {
        tree.since_all(index, run.time + 1, last, run.keeps)
    }
}

/// Returns where the nodes of the share begin to be missing: behind the last one if none is. Returns `None`
/// if the share overlaps an entered one.
fn start_of(tree: &Tree, shares: &[Share], share: &Share) -> Option<Start>
    requires linked { IsTreeLinked tree.now }
    requires known { IsTreeKnown shares.now (progress_at tree.now) }
    ensures overlaps { is_none result ≡ list_any (overlaps share.now) shares.now }
    ensures start { IfSome result (λ start. IsSearchStart tree.now (reverse (path_of share.now).0) start) }
{
    match tree.walk(share.runs()) {
        Walk::Above(_) => None,
        Walk::Missing(start) => Some(start),
        Walk::Found(index) => {
            if is_taken(tree, shares, share, index) {
                return None;
            }
            Some(Start {
                depth: share.runs().len(),
                index,
                at: index,
                side: Side::First,
            })
        }
    }
}

/// Returns whether the share overlaps an entered one. Requires that this is the share's node, and that no
/// entered share with fewer Give halves begins it.
fn is_taken(tree: &Tree, shares: &[Share], share: &Share, index: usize) -> bool
    requires linked { IsTreeLinked tree.now }
    requires known { IsTreeKnown shares.now (progress_at tree.now) }
    requires place { place (child tree.now) (path_of share.now).0 ≡ Some index }
    requires above { time_above (progress_at tree.now) (path_of share.now).0 ≡ None }
    ensures { result ≡ list_any (overlaps share.now) shares.now }
{
    let node = tree.node(index);
    if let Some(_) = node.progress.run {
        return true;
    }
    if node.reach <= share.last() {
        return false;
    }
    shares.iter().any(|entered| share.overlaps(entered))
}

/// Returns the node of the share, and adds it and the nodes above it where they are missing. Fails with
/// `Overlap` if the share overlaps an entered one, and otherwise only with `Memory`; some of the nodes may
/// have been added then.
fn node_for(tree: &mut Tree, shares: &[Share], share: &Share) -> Result<usize, CreditFault>
    requires linked { IsTreeLinked tree.old }
    requires known { IsTreeKnown shares.now (progress_at tree.old) }
    ensures grown { IsGrown tree.old tree.new }
    ensures known { IsTreeKnown shares.now (progress_at tree.new) }
    ensures place { IfOk result (λ index. place (child tree.new) (path_of share.now).0 ≡ Some index) }
    ensures within { IfOk result (λ index. index < length tree.new.nodes.items) }
    ensures free { OnOk result (list_any (overlaps share.now) shares.now ≡ false) }
    ensures fault { IfErr result (λ fault.
        fault ≡ (if list_any (overlaps share.now) shares.now then CreditFault.Overlap else CreditFault.Memory)) }
{
    let Some(start) = start_of(tree, shares, share) else {
        return Err(CreditFault::Overlap);
    };
    tree.make(share.runs(), start)
        .map_err(|_| CreditFault::Memory)
}

/// Adds two shares, or returns both if that fails. The node of the second share is searched after those of
/// the first are added, since these may lie above it.
fn add_both(
    tree: &mut Tree,
    shares: &mut Vec<Share>,
    first: Share,
    second: Share,
) -> Result<(), (Share, Share)>
    requires linked { IsTreeLinked tree.old }
    requires known { IsTreeKnown shares.old.items (progress_at tree.old) }
    ensures linked { IsTreeLinked tree.new }
    ensures known { IsTreeKnown shares.new.items (progress_at tree.new) }
    ensures added { OnOk result (shares.new.items ≡ shares.old.items ++ first ∷ second ∷ []) }
    ensures unchanged { OnErr result (shares.new.items ≡ shares.old.items) }
    ensures overlaps { IsTrue (overlaps_either first second shares.old.items) → IsErr result }
    ensures returned { IfErr result (λ back. (back.0 ≡ first) × (back.1 ≡ second)) }
{
    if first.overlaps(&second) {
        return Err((first, second));
    }
    let Ok(index) = node_for(tree, shares.as_slice(), &first) else {
        return Err((first, second));
    };
    let Ok(other) = node_for(tree, shares.as_slice(), &second) else {
        return Err((first, second));
    };
    let Ok(()) = shares.reserve(2) else {
        return Err((first, second));
    };
    add(tree, shares, first, index);
    add(tree, shares, second, other);
    Ok(())
}

/// Returns the fault of two shares that could not be entered.
fn fault_of_both(tree: &Tree, shares: &[Share], first: &Share, second: &Share) -> CreditFault
    requires linked { IsTreeLinked tree.now }
    requires known { IsTreeKnown shares.now (progress_at tree.now) }
    ensures { result ≡ (if overlaps_either first.now second.now shares.now
        then CreditFault.Overlap
        else CreditFault.Memory) }
{
    if overlaps_one(tree, shares, first)
        || overlaps_one(tree, shares, second)
        || first.overlaps(second)
    {
        CreditFault::Overlap
    } else {
        CreditFault::Memory
    }
}

/// Returns whether the share overlaps an entered one.
fn overlaps_one(tree: &Tree, shares: &[Share], share: &Share) -> bool
    requires linked { IsTreeLinked tree.now }
    requires known { IsTreeKnown shares.now (progress_at tree.now) }
    ensures { result ≡ list_any (overlaps share.now) shares.now }
{
    start_of(tree, shares, share).is_none()
}

/// Adds a share at its node. Requires that it overlaps no entered share, and that the list has room for
/// it.
fn add(tree: &mut Tree, shares: &mut Vec<Share>, share: Share, index: usize)
    requires linked { IsTreeLinked tree.old }
    requires known { IsTreeKnown shares.old.items (progress_at tree.old) }
    requires free { list_any (overlaps share) shares.old.items ≡ false }
    requires room { vec_len shares.old < vec_capacity shares.old }
    requires place { place (child tree.old) (path_of share).0 ≡ Some index }
    requires within { index < length tree.old.nodes.items }
    ensures linked { IsTreeLinked tree.new }
    ensures known { IsTreeKnown shares.new.items (progress_at tree.new) }
    ensures added { shares.new.items ≡ shares.old.items ++ share ∷ [] }
    ensures capacity { vec_capacity shares.old ≤ vec_capacity shares.new }
    ensures links { tree.new.links ≡ tree.old.links }
    ensures nodes { length tree.new.nodes.items ≡ length tree.old.nodes.items }
{
    let run = Run {
        keeps: share.last(),
        time: shares.len(),
    };
    let _ = shares.push(share);
    tree.put_run(index, run);
    let entered = &shares[run.time];
    settle(tree, shares.as_slice(), entered.runs(), index);
}

/// Marks as held the node with this index and the nodes above it, up to the first that is not held. The
/// last entered share is the first with which they are held.
fn settle(tree: &mut Tree, shares: &[Share], runs: &[u64], index: usize)
    requires linked { IsTreeLinked tree.old }
    requires place { place (child tree.old) (reverse runs.now) ≡ Some index }
    requires settling { IsSettling shares.now (progress_at tree.old) (reverse runs.now) }
    requires within { 0 < length tree.old.nodes.items }
    ensures linked { IsTreeLinked tree.new }
    ensures known { IsTreeKnown shares.now (progress_at tree.new) }
    ensures links { tree.new.links ≡ tree.old.links }
    ensures nodes { length tree.new.nodes.items ≡ length tree.old.nodes.items }
{
    let time = shares.len();
    let mut index = index;
    let mut depth = runs.len();
    'levels: while tree.node(index).progress.is_full() {
        tree.mark(index, time);
        if depth == 0 {
            return;
        }
        depth -= 1;
        index = tree.node(index).parent;
        tree.count_child(index);
    }
}
