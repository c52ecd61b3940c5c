//! The rule of the lock, and the effect of each of its steps.
use crate::ledger::Ledger;
use crate::view::View;
use atomic_table::{Join, Play, Split, TableRule};

/// The lock of tickets. Word 0 is the next ticket, and word 1 the ticket that is served. The slot holds
/// the ledger while no seat has the turn.
pub struct Lock;

impl TableRule<Option<Ledger>, View, ()> for Lock {
    ghost use Rattle.credit_ledger.specs.Seats.{Kept, newcomer};

    ghost holds = { λ _. Kept };

    ghost first = { λ _. newcomer };
}

/// A new seat learns its number.
pub(crate) struct Settle;

impl Play<Option<Ledger>, View> for Settle {
    ghost use Rattle.credit_ledger.specs.Seats.{Settled};

    ghost then = { λ _ before _ after. Settled before after };
}

/// A seat takes a ticket, or nothing changes.
pub(crate) struct Draw;

impl Play<Option<Ledger>, View> for Draw {
    ghost use Rattle.credit_ledger.specs.Seats.{Drawn};

    ghost then = { λ step before found after. Drawn step.first before found after };
}

/// A seat reads which ticket is served. If it is its own, the seat has the turn and the ledger.
pub(crate) struct Serve;

impl Play<Option<Ledger>, View> for Serve {
    ghost use Rattle.credit_ledger.specs.Seats.{Served};

    ghost then = { λ _ before found after. Served before found after };
}

/// A seat ends its turn with a Look.
pub(crate) struct Looks;

impl Play<Option<Ledger>, View> for Looks {
    ghost use Rattle.credit_ledger.specs.Seats.{Looked};

    ghost then = { λ _ before _ after. Looked before after };
}

/// A seat ends its turn with an Enter.
pub(crate) struct Enters;

impl Play<Option<Ledger>, View> for Enters {
    ghost use Rattle.credit_ledger.specs.Seats.{Entered};

    ghost then = { λ _ before _ after. Entered before after };
}

/// A new seat with the same history, which has not learned its number yet. Each share is cut in its two
/// halves, one for either seat.
pub(crate) struct Copies;

impl Split<View> for Copies {
    ghost use Rattle.credit_ledger.specs.Seats.{halved, copied};

    ghost left = { halved };

    ghost right = { copied };
}

/// The same, but the new seat gets no share.
pub(crate) struct Notes;

impl Split<View> for Notes {
    ghost use Rattle.credit_ledger.specs.Seats.{noted};

    ghost left = { λ v. v };

    ghost right = { noted };
}

/// A seat learns which numbers a new one without shares knows to be given.
pub(crate) struct Counts;

impl Join<View> for Counts {
    ghost use Rattle.credit_ledger.specs.Seats.{with_given, spent};

    ghost both = { λ v w. with_given v w.given };

    ghost spent = { spent };
}

/// A seat learns the history that one without shares has seen.
pub(crate) struct Hears;

impl Join<View> for Hears {
    ghost use Rattle.credit_ledger.specs.Seats.{told_of, spent};

    ghost both = { told_of };

    ghost spent = { spent };
}

/// A seat learns the history that another one has seen, and takes in its shares and calls.
pub(crate) struct TakesIn;

impl Join<View> for TakesIn {
    ghost use Rattle.credit_ledger.specs.Seats.{joined_of, spent};

    ghost both = { joined_of };

    ghost spent = { spent };
}

/// A new seat that has seen nothing.
pub(crate) struct Sit;

impl Play<Option<Ledger>, View> for Sit {
    ghost use Rattle.credit_ledger.specs.Seats.{Sat};

    ghost then = { λ _ _ _ after. Sat after };
}

/// A seat that has the turn takes in another one's shares and calls.
pub(crate) struct Gathers;

impl Join<View> for Gathers {
    ghost use Rattle.credit_ledger.specs.Seats.{gathered_of, spent};

    ghost both = { gathered_of };

    ghost spent = { spent };
}

/// A seat that has the turn learns that what it took in is in the history, and whose calls the entries are.
pub(crate) struct Claims;

impl Play<Option<Ledger>, View> for Claims {
    ghost use Rattle.credit_ledger.specs.Seats.{Told};

    ghost then = { λ _ before _ after. Told before after };
}
