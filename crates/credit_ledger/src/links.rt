//! The search for a child of a node by its number.
//!
//! The children of a node form a search tree of their own. At each child the next base-4 digit of the
//! searched number, from the lowest on, selects the side on which the search goes on. A number has 32
//! digits, so a search visits at most 33 children, whatever the numbers are.
ghost use Rattle.std.specs.Prelude.{◌≡◌};
ghost use Rattle.credit_ledger.specs.Links.{leaf_link, link_at, link_behind, is_link_of, side_of as side_at, spot_of, with_link};

/// A node among its parent's children. A side with 0 leads nowhere, since node 0 is the root and no child.
/// Nodes have 32-bit indices, so a link takes 32 bytes.
#[derive(Clone, Copy, Debug)]
pub(crate) struct Link {
    pub number: u64,
    pub parent: u32,
    /// The child at which a search among the node's own children begins.
    pub first: u32,
    /// The siblings at which a search goes on, by the next digit.
    pub zero: u32,
    pub one: u32,
    pub two: u32,
    pub three: u32,
}

/// The side of a node on which a search goes on.
#[derive(Clone, Copy)]
pub(crate) enum Side {
    First,
    Zero,
    One,
    Two,
    Three,
}

/// Where a search ends: at the child, or at a node and the side of it where the child is to be added.
#[derive(Clone, Copy)]
pub(crate) enum Spot {
    Found(usize),
    Missing(usize, Side),
}

impl Link {
    /// Returns the link of a node that has no children and leads to no sibling.
    pub fn leaf(parent: u32, number: u64) -> Link
        ensures { result ≡ leaf_link parent number }
    {
        Link {
            number,
            parent,
            first: 0,
            zero: 0,
            one: 0,
            two: 0,
            three: 0,
        }
    }

    /// Returns the index to which this side leads, or 0.
    fn behind(&self, side: Side) -> usize
        ensures { result ≡ link_behind self.now side }
    {
        match side {
            Side::First => self.first as usize,
            Side::Zero => self.zero as usize,
            Side::One => self.one as usize,
            Side::Two => self.two as usize,
            Side::Three => self.three as usize,
        }
    }

    /// Returns the link with this side leading to a child.
    pub fn leading(self, side: Side, child: u32) -> Link
        ensures { result ≡ with_link self side child }
    {
        match side {
            Side::First => Link {
                first: child,
                ..self
            },
            Side::Zero => Link {
                zero: child,
                ..self
            },
            Side::One => Link { one: child, ..self },
            Side::Two => Link { two: child, ..self },
            Side::Three => Link {
                three: child,
                ..self
            },
        }
    }

    /// Returns whether the link is that of the child of this node with this number.
    fn is_of(&self, parent: usize, number: u64) -> bool
        ensures { result ≡ is_link_of parent number self.now }
    {
        self.parent as usize == parent && self.number == number
    }
}

/// Returns the side for the lowest base-4 digit.
fn side_of(digits: u64) -> Side
    ensures { result ≡ side_at digits }
{
    match digits % 4 {
        0 => Side::Zero,
        1 => Side::One,
        2 => Side::Two,
        _ => Side::Three,
    }
}

/// Returns the link with this index, or one that leads nowhere if there is none.
fn link_of(links: &[Link], index: usize) -> Link
    ensures { result ≡ link_at links.now index }
{
    links.get(index).copied().unwrap_or(Link::leaf(0, 0))
}

/// Returns where the search for the child of a node by its number ends.
pub(crate) fn search(links: &[Link], index: usize, number: u64) -> Spot
    ensures { result ≡ spot_of links.now index number }
{
    let mut at = index;
    let mut link = link_of(links, index);
    let mut side = Side::First;
    let mut digits = number;
    'links: for _ in 0..links.len() {
        let next = link.behind(side);
        if next == 0 {
            return Spot::Missing(at, side);
        }
        let sibling = link_of(links, next);
        if sibling.is_of(index, number) {
            return Spot::Found(next);
        }
        at = next;
        link = sibling;
        side = side_of(digits);
        digits /= 4;
    }
    Spot::Missing(at, side)
}
