//! A ledger length in 32 bits.
ghost use Rattle.std.specs.Prelude.{ℕ, ◌≡◌, ◌<◌, ◌≤◌, ◌^◌, IsTrue, max};

use std::marker::Model;

/// The least ledger length at which something is finished, or a greater one, in 32 bits. No record can name
/// a length of 2^32, so 2^32 means all greater ones too, and never.
#[derive(Clone, Copy, Debug, PartialEq, Eq)]
pub(crate) struct Limit {
    code: u32,
}

impl Model for Limit {
    ghost use Rattle.std.specs.Prelude.{ℕ, ◌≤◌};
    ghost use Rattle.wait_coverage.specs.Codes.{length_of_code, code_of_length, length_code_again};

    ghost Value = { ℕ };

    ghost view = { λ limit. length_of_code limit.code };

    ghost invariant = { λ limit. limit.code ≤ 4294967295 };

    ghost inverse = { λ length. record { code = code_of_length length } };

    ghost inverse_ok = { λ limit small. length_code_again (λ code. record { code = code }) limit.code small };
}

/// The code of 2^32.
const NEVER: u32 = u32::MAX;

impl Limit {
    /// Returns the length 0: finished from the start.
    pub(crate) fn zero() -> Limit
        ensures { result ≡ 0 }
    {
        Limit { code: 0 }
    }

    /// Returns this length if it is less than 2^32 - 1, else 2^32.
    pub(crate) fn of(length: u64) -> Limit
        ensures enough { (m : ℕ) → m < 2 ^ 32 → result ≤ m → length ≤ m }
        ensures least { (m : ℕ) → m < 4294967295 → length ≤ m → result ≤ m }
    {
        if length < u64::from(NEVER) {
            Limit {
                code: length as u32,
            }
        } else {
            Limit { code: NEVER }
        }
    }

    /// Returns the greater of the two.
    pub(crate) fn max(self, other: Limit) -> Limit
        ensures { result ≡ max self other }
    {
        Limit {
            code: self.code.max(other.code),
        }
    }

    /// Returns whether a record that names this length reaches the limit; for the length 2^32 - 1, true only if
    /// it does.
    pub(crate) fn is_reached(self, length: u32) -> bool
        ensures reached { IsTrue result → self ≤ length }
        ensures missed { length < 4294967295 → self ≤ length → IsTrue result }
    {
        self.code <= length && self.code < NEVER
    }
}
