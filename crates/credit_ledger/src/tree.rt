//! The nodes of a tree of shares.
ghost use Rattle.std.specs.Prelude.{◌≡◌, ◌≤◌, ◌<◌, ◌+◌, ◌^◌, ◌-◌, ◌++◌, ◌∷◌, [], ℕ, IsTrue, ◌↔◌, List, length, reverse, slice_set, Some, IfOk, OnOk, vec_len, vec_capacity};
ghost use Rattle.credit_ledger.specs.Shares.{start_share};
ghost use Rattle.credit_ledger.specs.declared.links.Side.{Side};
ghost use Rattle.credit_ledger.specs.declared.links.Spot.{Spot};
ghost use Rattle.credit_ledger.specs.Links.{leaf_link, link_at, spot_of, with_link};
ghost use Rattle.credit_ledger.specs.Trees.{no_progress, empty_node, node_at, child, place, progress_at, time_within, child_since, since_all, with_reach, with_run, with_since, with_held_child, IsTreeLinked, IsGrown, IsFull, IsSearchStart, IsWalked};

use crate::links::{Link, Side, Spot, search};
use std::alloc::{AllocError, Global};

/// The most nodes of a tree, which take 384 GiB.
const MOST_NODES: usize = 1 << 32;

/// An entered share: a node's share followed by this many Keep halves.
#[derive(Clone, Copy, Debug)]
pub(crate) struct Run {
    pub keeps: u64,
    /// How many shares were entered before it.
    pub time: usize,
}

/// What has come back at a node and below it.
#[derive(Clone, Copy, Debug)]
pub(crate) struct Progress {
    /// The entered share that is the node's share followed by Keep halves alone.
    pub run: Option<Run>,
    /// How many children are held.
    pub held_children: u64,
    /// The least n such that the node's share is held by the first n entered shares.
    pub since: Option<usize>,
}

/// A share that ends with a Give half, or the whole.
#[derive(Clone, Copy, Debug)]
pub(crate) struct Node {
    pub parent: usize,
    /// Greater than the number of each child of the node.
    pub reach: u64,
    pub progress: Progress,
}

/// The nodes, the root first, and the links by which children are found by their numbers.
#[derive(Debug, Drop)]
pub(crate) struct Tree {
    pub nodes: Vec<Node>,
    pub links: Vec<Link>,
}

/// Where nodes of a share begin to be missing. The first `depth` runs have nodes, and the node `index` is
/// the last of them. If there is a next run, the search for its node ended at the node `at`, on this side
/// of it.
#[derive(Clone, Copy)]
pub(crate) struct Start {
    pub depth: usize,
    pub index: usize,
    pub at: usize,
    pub side: Side,
}

/// Where a walk down the nodes of a share ends.
#[derive(Clone, Copy)]
pub(crate) enum Walk {
    /// The entered share with this index begins this share and has fewer Give halves.
    Above(usize),
    /// No such share was entered, and a node is missing.
    Missing(Start),
    /// No such share was entered, and this is the node.
    Found(usize),
}

impl Progress {
    /// Returns the progress of a node at and below which nothing was entered.
    fn none() -> Progress
        ensures { result ≡ no_progress }
    {
        Progress {
            run: None,
            held_children: 0,
            since: None,
        }
    }

    /// Returns whether a run was entered at the node and as many children are held as it has Keep halves.
    pub fn is_full(&self) -> bool
        ensures { IsTrue result ↔ IsFull self.now }
    {
        match self.run {
            Some(run) => self.held_children == run.keeps,
            None => false,
        }
    }
}

impl Node {
    /// Returns a node at and below which nothing was entered.
    fn new(parent: usize) -> Node
        ensures { result ≡ empty_node parent }
    {
        Node {
            parent,
            reach: 0,
            progress: Progress::none(),
        }
    }
}

impl Tree {
    /// Returns a tree with no node. Allocates nothing.
    pub fn new(alloc: Global) -> Tree
        ensures linked { IsTreeLinked result }
        ensures empty { (up : List ℕ) → progress_at result up ≡ no_progress }
    {
        Tree {
            nodes: Vec::new(alloc),
            links: Vec::new(alloc),
        }
    }

    /// Returns the node with this index, or an empty one if there is none.
    pub fn node(&self, index: usize) -> Node
        ensures { result ≡ node_at self.now index }
    {
        self.nodes.get(index).copied().unwrap_or(Node::new(0))
    }

    /// Returns the index of the child of a node with this number.
    fn child(&self, index: usize, number: u64) -> Option<usize>
        ensures { result ≡ child self.now index number }
    {
        match search(self.links.as_slice(), index, number) {
            Spot::Found(child) => Some(child),
            Spot::Missing(_, _) => None,
        }
    }

    /// Walks down the nodes of these runs, until an entered share begins theirs or a node is missing.
    /// Returns where the walk ends.
    pub fn walk(&self, runs: &[u64]) -> Walk
        ensures { IsWalked self.now runs.now result }
    {
        let mut index = 0;
        'runs: for depth in 0..runs.len() {
            let number = runs[depth];
            let run = self.node(index).progress.run;
            if let Some(time) = ended_within(run, number) {
                return Walk::Above(time);
            }
            match search(self.links.as_slice(), index, number) {
                Spot::Found(child) => index = child,
                Spot::Missing(at, side) => {
                    return Walk::Missing(Start {
                        depth,
                        index,
                        at,
                        side,
                    });
                }
            }
        }
        Walk::Found(index)
    }

    /// Returns the least n such that the first n entered shares hold a child of a node, or `None` if it is
    /// not held.
    fn child_since(&self, index: usize, number: u64) -> Option<usize>
        ensures { result ≡ child_since self.now index number }
    {
        let child = self.child(index, number)?;
        self.node(child).progress.since
    }

    /// Returns the least n, at least `start`, such that the first n entered shares hold each child with a
    /// number from `first` to below `end`, or `None` if one of these is not held. It visits at most one
    /// child that is not held.
    pub fn since_all(&self, index: usize, start: usize, first: u64, end: u64) -> Option<usize>
        requires { first ≤ end }
        ensures { result ≡ since_all (child_since self.now index) start first (end - first) }
    {
        let mut latest = start;
        'numbers: for number in first..end {
            let Some(since) = self.child_since(index, number) else {
                return None;
            };
            latest = latest.max(since);
        }
        Some(latest)
    }

    /// Returns the node of these runs, and adds it and the nodes above it where they are missing. Requires
    /// that `start` is where they begin to be missing, so nothing is searched. Fails only when out of
    /// memory.
    pub fn make(&mut self, runs: &[u64], start: Start) -> Result<usize, AllocError>
        requires linked { IsTreeLinked self.old }
        requires small { length (start_share runs.now) ≤ 2 ^ 48 }
        requires start { IsSearchStart self.old runs.now start }
        ensures grown { IsGrown self.old self.new }
        ensures made { IfOk result (λ index. place (child self.new) (reverse runs.now) ≡ Some index) }
        ensures within { IfOk result (λ index. index < length self.new.nodes.items) }
    {
        self.make_root()?;
        let mut index = start.index;
        let mut at = start.at;
        let mut side = start.side;
        'runs: for depth in start.depth..runs.len() {
            self.reserve()?;
            index = self.add_child(index, runs[depth], at, side);
            at = index;
            side = Side::First;
        }
        Ok(index)
    }

    /// Adds the root if it is missing. Fails only when out of memory.
    fn make_root(&mut self) -> Result<(), AllocError>
        requires { IsTreeLinked self.old }
        ensures grown { IsGrown self.old self.new }
        ensures made { OnOk result (0 < length self.new.nodes.items) }
        ensures spots { (index number : ℕ) → spot_of self.new.links.items index number
            ≡ spot_of self.old.links.items index number }
    {
        if self.nodes.is_empty() {
            self.reserve()?;
            self.push(0, 0);
        }
        Ok(())
    }

    /// Reserves memory for one more node. Fails when out of memory, or if the tree has 2^32 nodes.
    fn reserve(&mut self) -> Result<(), AllocError>
        ensures nodes { self.new.nodes.items ≡ self.old.nodes.items }
        ensures links { self.new.links.items ≡ self.old.links.items }
        ensures room_for_node { OnOk result (vec_len self.new.nodes < vec_capacity self.new.nodes) }
        ensures room_for_link { OnOk result (vec_len self.new.links < vec_capacity self.new.links) }
        ensures few { OnOk result (length self.old.nodes.items < 2 ^ 32) }
    {
        if self.nodes.len() >= MOST_NODES {
            return Err(AllocError);
        }
        self.nodes.reserve(1)?;
        self.links.reserve(1)?;
        Ok(())
    }

    /// Adds a node to which no link leads yet.
    fn push(&mut self, parent: usize, number: u64)
        requires room_for_node { vec_len self.old.nodes < vec_capacity self.old.nodes }
        requires room_for_link { vec_len self.old.links < vec_capacity self.old.links }
        requires few { parent < 2 ^ 32 }
        ensures nodes { self.new.nodes.items ≡ self.old.nodes.items ++ empty_node parent ∷ [] }
        ensures links { self.new.links.items ≡ self.old.links.items ++ leaf_link parent number ∷ [] }
    {
        let _ = self.nodes.push(Node::new(parent));
        let _ = self.links.push(Link::leaf(parent as u32, number));
    }

    /// Adds the child of a node where the search for its number ended, and returns its index. The new node
    /// has no child, so a search among its children ends at its first side.
    fn add_child(&mut self, index: usize, number: u64, at: usize, side: Side) -> usize
        requires linked { IsTreeLinked self.old }
        requires within { index < length self.old.nodes.items }
        requires small { number ≤ 2 ^ 48 }
        requires missing { spot_of self.old.links.items index number ≡ Spot.Missing at side }
        requires room_for_node { vec_len self.old.nodes < vec_capacity self.old.nodes }
        requires room_for_link { vec_len self.old.links < vec_capacity self.old.links }
        requires few { length self.old.nodes.items < 2 ^ 32 }
        ensures grown { IsGrown self.old self.new }
        ensures made { child self.new index number ≡ Some result }
        ensures inside { result < length self.new.nodes.items }
        ensures fresh { (next : ℕ) → spot_of self.new.links.items result next ≡ Spot.Missing result Side.First }
    {
        let made = self.nodes.len();
        self.push(index, number);
        self.put_link(at, side, made);
        self.reach_to(index, number);
        made
    }

    /// Makes a side of a link lead to a node.
    fn put_link(&mut self, at: usize, side: Side, child: usize)
        requires within { at < length self.old.links.items }
        requires few { child < 2 ^ 32 }
        ensures nodes { self.new.nodes ≡ self.old.nodes }
        ensures links { self.new.links.items ≡ slice_set self.old.links.items at (with_link
            (link_at self.old.links.items at) side child) }
    {
        self.links[at] = self.links[at].leading(side, child as u32);
    }

    /// Records that a node has a child with this number.
    fn reach_to(&mut self, index: usize, number: u64)
        requires within { index < length self.old.nodes.items }
        requires small { number ≤ 2 ^ 48 }
        ensures nodes { self.new.nodes.items ≡ slice_set self.old.nodes.items index (with_reach
            (node_at self.old index) number) }
        ensures links { self.new.links ≡ self.old.links }
    {
        let node = self.nodes[index];
        self.nodes[index] = Node {
            reach: node.reach.max(number + 1),
            ..node
        };
    }

    /// Records the run that was entered at a node.
    pub fn put_run(&mut self, index: usize, run: Run)
        requires { index < length self.old.nodes.items }
        ensures nodes { self.new.nodes.items ≡ slice_set self.old.nodes.items index (with_run
            (node_at self.old index) run) }
        ensures links { self.new.links ≡ self.old.links }
    {
        let node = self.nodes[index];
        let progress = Progress {
            run: Some(run),
            ..node.progress
        };
        self.nodes[index] = Node { progress, ..node };
    }

    /// Records the least n such that the first n entered shares hold a node.
    pub fn mark(&mut self, index: usize, time: usize)
        requires { index < length self.old.nodes.items }
        ensures nodes { self.new.nodes.items ≡ slice_set self.old.nodes.items index (with_since
            (node_at self.old index) time) }
        ensures links { self.new.links ≡ self.old.links }
    {
        let node = self.nodes[index];
        let progress = Progress {
            since: Some(time),
            ..node.progress
        };
        self.nodes[index] = Node { progress, ..node };
    }

    /// Counts one more held child of a node.
    pub fn count_child(&mut self, index: usize)
        requires within { index < length self.old.nodes.items }
        requires small { (node_at self.old index).progress.held_children < 2 ^ 63 }
        ensures nodes { self.new.nodes.items ≡ slice_set self.old.nodes.items index (with_held_child
            (node_at self.old index)) }
        ensures links { self.new.links ≡ self.old.links }
    {
        let node = self.nodes[index];
        let progress = Progress {
            held_children: node.progress.held_children + 1,
            ..node.progress
        };
        self.nodes[index] = Node { progress, ..node };
    }
}

/// Returns when the run was entered, if it has at most this many Keep halves.
fn ended_within(run: Option<Run>, number: u64) -> Option<usize>
    ensures { result ≡ time_within run number }
{
    run.filter(|run| run.keeps <= number).map(|run| run.time)
}
