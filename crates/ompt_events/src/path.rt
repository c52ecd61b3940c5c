//! The path of a task below its root. Contracts see it as a list of numbers.
ghost use Rattle.std.specs.Prelude.{◌≡◌};

use std::marker::Model;

/// The place of a task below its root: the numbers of the children, from the root down.
#[derive(Debug, Drop)]
pub struct Path {
    numbers: Vec<u32>,
}

impl Model for Path {
    ghost use Rattle.std.specs.Prelude.{List, ℕ, ◌<◌, ◌^◌, All};

    ghost Value = { List ℕ };

    ghost view = { λ path. path.numbers.items };

    ghost invariant = { λ path. All (λ n. n < 2 ^ 32) path.numbers.items };
}

impl PartialEq for Path {
    ghost use Rattle.std.specs.Cmp.Lexicographic.{nat_list_eq_equiv, pointwise};
    ghost use Rattle.std.specs.Cmp as Cmp;
    ghost use Rattle.std.specs.Prelude.{nat_eq};

    ghost eq = { pointwise nat_eq };

    ghost laws = { Cmp.partial_equiv_from_equiv nat_list_eq_equiv };

    fn eq(&self, other: &Self) -> bool {
        self.as_slice() == other.as_slice()
    }
}

impl Path {
    /// Returns the path of these numbers. Takes no memory.
    pub fn from_vec(numbers: Vec<u32>) -> Path
        ensures { result ≡ numbers.items }
    {
        Path { numbers }
    }

    /// Returns the numbers, from the root down.
    pub fn as_slice(&self) -> &[u32]
        ensures { result.now ≡ self.now }
    {
        self.numbers.as_slice()
    }

    /// Returns the numbers, and drops the path around them. Takes no memory.
    pub fn into_vec(self) -> Vec<u32>
        ensures { result.items ≡ self }
    {
        let Path { numbers: list } = self;
        list
    }
}
