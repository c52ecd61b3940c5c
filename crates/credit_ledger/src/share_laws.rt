//! What always holds of the shares of a credit. These are laws about the definitions alone, proved for
//! every list of events. The functions do nothing.
ghost use Rattle.std.specs.Prelude.{◌++◌, List, ℕ, All, IsTrue};
ghost use Rattle.credit_ledger.specs.declared.share.Half.{Half};
ghost use Rattle.credit_ledger.specs.Shares.{Tile, Hold, overlaps};
ghost use Rattle.credit_ledger.specs.Credits.{Event, credits_after, is_root, live_shares, entered_shares};

/// The live and the entered shares of a root together are its whole credit, cut up: each list of halves
/// that is at least as long as each of these shares begins with exactly one of them (F. Mattern, 1989:
/// credit is neither lost nor made).
pub fn shares_tile()
    ensures { (events : List Event) (root : ℕ)
        → let credits = credits_after events in
        IsTrue (is_root root credits)
        → Tile (live_shares root credits ++ entered_shares root credits) }
{}

/// If the entered shares of a root hold a share, no live share overlaps it, neither then nor after any
/// later events: each task or event that received a part of it is finished.
pub fn held_is_over()
    ensures { (events later : List Event) (root : ℕ) (s : List Half)
        → Hold (entered_shares root (credits_after events)) s
        → All (λ t. ¬ IsTrue (overlaps s t)) (live_shares root (credits_after (events ++ later))) }
{}
