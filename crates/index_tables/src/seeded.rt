//! Hashers for tables of ids that a file chooses.
//!
//! By default the kit's hash tables have one fixed seed, so a file could have many ids that collide, and each
//! look-up would take as many steps as there are ids. So the seed of a table is made from all ids that the
//! table may get. Whoever changes an id to make it collide with others changes the seed, and with it which
//! ids collide. Nothing but the time of a look-up depends on the seed.
ghost use Rattle.std.specs.Prelude.{◌≡◌};
ghost use Rattle.index_tables.specs.Seeded.{hasher_of};

use std::hash::{BuildHasher, DefaultHasher, FoldHasher, Hasher};
use std::marker::Model;

/// Makes the hashers of a table, with a seed that is made from ids.
#[derive(Clone, Copy, Debug)]
pub struct Seeded {
    initial: FoldHasher,
}

impl Model for Seeded {
    ghost use Rattle.std.specs.Prelude.{refl};
    ghost use Rattle.std.specs.declared.hash.FoldHasher.{FoldHasher};

    ghost Value = { FoldHasher };

    ghost view = { λ seeded. seeded.initial };

    ghost inverse = { λ initial. record { initial = initial } };

    ghost inverse_ok = { λ _ _. refl };
}

impl Seeded {
    /// Returns what makes the hashers of a table that may get these ids.
    pub fn of(ids: &[u64]) -> Seeded
        ensures { result ≡ hasher_of ids.now }
    {
        let mut digest = DefaultHasher::new();
        for id in ids {
            digest.write_u64(*id);
        }
        let mut initial = FoldHasher::default();
        initial.write_u64(digest.finish());
        Seeded { initial }
    }
}

impl BuildHasher for Seeded {
    type Hasher = FoldHasher;

    ghost build_hasher = { λ seeded. seeded };

    fn build_hasher(&self) -> FoldHasher {
        self.initial
    }
}
