//! Which shares are all of the right to enter. These are laws about the definitions alone, for callers of
//! `SharedLedger::close` that have all seats of a ledger. The functions do nothing.
ghost use Rattle.std.specs.Prelude.{◌++◌, ◌∷◌, [], List, map};
ghost use Rattle.std.specs.List.Sorted.{IsPermutation};
ghost use Rattle.credit_ledger.specs.declared.share.Half.{Half};
ghost use Rattle.credit_ledger.specs.Shares.{keep_half, give_half};
ghost use Rattle.credit_ledger.specs.Seats.{AreAll};

/// The share of the first seat is all.
pub fn the_first_share_is_all()
    ensures { AreAll ([] ∷ []) }
{}

/// Where a split puts both halves of some shares in their place, they are all as before.
pub fn split_shares_are_all()
    ensures { (before shares after : List (List Half)) → AreAll (before ++ shares ++ after)
        → AreAll (before ++ (map keep_half shares ++ map give_half shares) ++ after) }
{}

/// The order of the shares does not matter.
pub fn shares_in_any_order_are_all()
    ensures { (shares other : List (List Half)) → IsPermutation shares other → AreAll shares
        → AreAll other }
{}
