//! A queue of places that gives the least first.
ghost use Rattle.std.specs.Prelude.{ℕ, ◌≡◌, ◌≤◌, ◌∷◌, IfNone, IfSome, OnOk, Contains, IsPermutation, length};

use std::alloc::{AllocError, Global};
use std::cmp::Reverse;
use std::collections::BinaryHeap;
use std::marker::Model;

/// Places, of which the least is taken first. A place may be in it twice. Contracts see a list in no order.
#[derive(Drop)]
pub(crate) struct Queue {
    heap: BinaryHeap<Reverse<usize>>,
}

impl Model for Queue {
    ghost use Rattle.std.specs.Prelude.{List, ℕ};
    ghost use Rattle.std.specs.BinaryHeap.{IsHeap, heap_items};
    ghost use Rattle.checker.specs.Queue.{heap_places, later_place};

    ghost Value = { List ℕ };

    ghost view = { λ queue. heap_places (heap_items queue.heap) };

    ghost invariant = { λ queue. IsHeap later_place (heap_items queue.heap) };
}

impl Queue {
    /// Returns an empty queue. Takes no memory.
    pub(crate) fn new(alloc: Global) -> Queue
        ensures { (i : ℕ) → Contains result i → ⊥ }
    {
        Queue {
            heap: BinaryHeap::new(alloc),
        }
    }

    /// Adds the place. Never inlined, so that the merge has one copy of the heap's code.
    #[inline(never)]
    pub(crate) fn put(&mut self, place: usize) -> Result<(), AllocError>
        ensures { OnOk result (IsPermutation (place ∷ self.old) self.new) }
    {
        self.heap.push(Reverse(place))?;
        Ok(())
    }

    /// Takes the least place out, and returns it.
    pub(crate) fn take(&mut self) -> Option<usize>
        ensures none { IfNone result (length self.old ≡ 0) }
        ensures taken { IfSome result (λ place. IsPermutation self.old (place ∷ self.new)) }
        ensures least { IfSome result (λ place. (i : ℕ) → Contains self.old i → place ≤ i) }
    {
        let Reverse(place) = self.heap.pop()?;
        Some(place)
    }
}
