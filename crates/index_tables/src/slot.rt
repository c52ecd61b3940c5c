//! An index or none, in 32 bits.
ghost use Rattle.std.specs.Prelude.{◌≡◌, ◌<◌, ◌↔◌, Some, None, IsTrue};

use std::marker::Model;

/// An index or a place below 2^32 - 1, or none.
#[derive(Clone, Copy, Debug, PartialEq, Eq)]
pub struct Slot {
    code: u32,
}

impl Model for Slot {
    ghost use Rattle.std.specs.Prelude.{Option, ℕ};
    ghost use Rattle.index_tables.specs.Slots.{index_of_code, code_of_index, code_again};

    ghost Value = { Option ℕ };

    ghost view = { λ slot. index_of_code slot.code };

    ghost inverse = { λ index. record { code = code_of_index index } };

    ghost inverse_ok = { λ slot _. code_again (λ code. record { code = code }) slot.code };
}

/// The code of no index.
const NONE: u32 = u32::MAX;

impl Slot {
    /// Returns the slot without an index.
    pub fn none() -> Slot
        ensures { result ≡ None }
    {
        Slot { code: NONE }
    }

    /// Returns the slot of this index.
    pub fn some(index: usize) -> Slot
        requires { index < 4294967295 }
        ensures { result ≡ Some index }
    {
        Slot { code: index as u32 }
    }

    /// Returns whether there is no index.
    pub fn is_none(self) -> bool
        ensures { IsTrue result ↔ (self ≡ None) }
    {
        self.get().is_none()
    }

    /// Returns the index, if there is one.
    pub fn get(self) -> Option<usize>
        ensures { result ≡ self }
    {
        if self.code == NONE {
            None
        } else {
            Some(self.code as usize)
        }
    }
}
