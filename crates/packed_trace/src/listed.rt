//! The records that a packed trace stands for, for contracts alone.
ghost use Rattle.std.specs.Prelude.{◌≡◌, ◌++◌, ◌∷◌, [], List, option_to_list, slice_get};
ghost use Rattle.std.specs.Borrow.{ftrue};
ghost use Rattle.ompt_events.specs.declared.records.Record.{Record};

use ompt_events::Record;
use std::marker::Model;

/// The records that were packed, in their order. It takes no memory.
#[derive(Debug, Drop)]
pub(crate) struct Listed {
    pub(crate) ghost records: { List Record },
}

impl Model for Listed {
    ghost also_owns = { λ _. ftrue };
}

// It owns nothing.
unsafe impl Send for Listed {}

unsafe impl Sync for Listed {}

impl Listed {
    /// Returns no records. Does nothing.
    pub(crate) fn none() -> Listed
        ensures { result.records ≡ [] }
    {
        Listed {}
    }

    /// Returns the records and this one behind them. Does nothing.
    pub(crate) fn with(_before: &Listed, _event: &Record) -> Listed
        ensures { result.records ≡ _before.now.records ++ _event.now ∷ [] }
    {
        Listed {}
    }

    /// Returns the records and, behind them, the one at a place of other records, if there is one. Does
    /// nothing.
    pub(crate) fn with_one_of(_before: &Listed, _others: &Listed, _at: &usize) -> Listed
        ensures { result.records
            ≡ _before.now.records ++ option_to_list (slice_get _others.now.records _at.now) }
    {
        Listed {}
    }
}
