//! The dependences of a task. Contracts see them as a list.
ghost use Rattle.std.specs.Prelude.{◌≡◌, ◌<◌, ◌^◌, All};

use crate::names::DepKind;
use std::marker::Model;

/// One dependence of a task: a location, and how the task uses it (OpenMP 5.2, 15.9.5).
#[derive(Clone, Copy, Debug, PartialEq, Eq)]
pub struct Dep {
    /// The location.
    pub var: u64,
    /// How it is used.
    pub kind: DepKind,
}

impl Dep {
    /// Ensures that the location is a number of 64 bits.
    fn read_location(&self)
        ensures { self.now.var < 2 ^ 64 }
    {
        let _location = self.var;
    }
}

/// The dependences of a task, in the order in which the runtime reports them.
#[derive(Debug, Drop)]
pub struct Deps {
    items: Vec<Dep>,
}

impl Model for Deps {
    ghost use Rattle.std.specs.Prelude.{List, ◌<◌, ◌^◌, All};
    ghost use Rattle.ompt_events.specs.declared.deps.Dep.{Dep};

    ghost Value = { List Dep };

    ghost view = { λ deps. deps.items.items };

    ghost invariant = { λ deps. All (λ d. d.var < 2 ^ 64) deps.items.items };
}

impl PartialEq for Deps {
    ghost use Rattle.std.specs.Cmp.Lexicographic.{lists_per, pointwise};
    ghost use Rattle.ompt_events.specs.contracts.deps.DepPartialEq.TheImpl as dep;
    ghost use Rattle.ompt_events.specs.contracts.deps.DepPartialEq.TheImpl.Laws.{laws-law};

    ghost eq = { pointwise (dep.ghosts).eq };

    ghost laws = { lists_per laws-law };

    fn eq(&self, other: &Self) -> bool {
        self.as_slice() == other.as_slice()
    }
}

impl Deps {
    /// Returns the list of these dependences. Takes no memory.
    pub fn from_vec(items: Vec<Dep>) -> Deps
        ensures { result ≡ items.items }
    {
        read_locations(items.as_slice());
        Deps { items }
    }

    /// Returns the dependences in order.
    pub fn as_slice(&self) -> &[Dep]
        ensures { result.now ≡ self.now }
    {
        self.items.as_slice()
    }

    /// Ensures that each location is a number of 64 bits. Compiles to nothing.
    pub(crate) fn read_numbers(&self)
        ensures { All (λ d. d.var < 2 ^ 64) self.now }
    {
        let _items = self.items.as_slice();
    }

    /// Returns the dependences, and drops the list around them. Takes no memory.
    pub fn into_vec(self) -> Vec<Dep>
        ensures { result.items ≡ self }
    {
        let Deps { items: list } = self;
        list
    }
}

/// Ensures that each location is a number of 64 bits: the proof has this fact once the location is read.
/// Compiles to nothing.
fn read_locations(items: &[Dep])
    ensures { All (λ d. d.var < 2 ^ 64) items.now }
{
    for item in items {
        item.read_location();
    }
}
