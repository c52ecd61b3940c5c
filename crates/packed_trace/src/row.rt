//! What the columns have of one record, and what that says.
ghost use Rattle.std.specs.Prelude.{◌≡◌};
ghost use Rattle.ompt_events.specs.declared.records.Body.{Body};
ghost use Rattle.ompt_events.specs.Records.{begun_turn, ended_turn, joined, suspended_turn, told_turns};
ghost use Rattle.packed_trace.specs.Rows.{IsRowOf};

use crate::act::Act;
use crate::columns::Numbers;
use crate::ids::Ids;
use ompt_events::{Membership, Status, Turns};

/// What the columns have of one record.
#[derive(Clone, Copy)]
pub(crate) struct Row {
    pub(crate) act: Act,
    pub(crate) ids: Ids,
    pub(crate) numbers: Numbers,
}

impl Row {
    /// Returns the turns that the record has.
    pub(crate) fn told_turns(self) -> Option<Turns>
        ensures { (body : Body) → IsRowOf body self → result ≡ told_turns body }
    {
        if !self.act.tells_turns() {
            return None;
        }
        Some(Turns {
            prior: self.numbers.first,
            next: self.numbers.second,
        })
    }

    /// Returns the task that runs next, and the turn that it begins.
    pub(crate) fn begun_turn(self) -> Option<(u64, u32)>
        ensures { (body : Body) → IsRowOf body self → result ≡ begun_turn body }
    {
        match self.act {
            Act::Schedule { status, .. } if status.demands_next() => {
                Some((self.ids.second, self.numbers.second))
            }
            _ => None,
        }
    }

    /// Returns the task that is suspended, and the turn that it ends.
    pub(crate) fn suspended_turn(self) -> Option<(u64, u32)>
        ensures { (body : Body) → IsRowOf body self → result ≡ suspended_turn body }
    {
        match self.act {
            Act::Schedule {
                status: Status::Yield | Status::Switch,
                ..
            } => Some((self.ids.first, self.numbers.first)),
            _ => None,
        }
    }

    /// Returns the task that stops running, and the turn that it ends.
    pub(crate) fn ended_turn(self) -> Option<(u64, u32)>
        ensures { (body : Body) → IsRowOf body self → result ≡ ended_turn body }
    {
        match self.act {
            Act::Schedule { status, .. } if status.demands_next() => {
                Some((self.ids.first, self.numbers.first))
            }
            _ => None,
        }
    }

    /// Returns the member of a team that begins.
    pub(crate) fn joined(self) -> Option<Membership>
        ensures { (body : Body) → IsRowOf body self → result ≡ joined body }
    {
        if !self.act.joins() {
            return None;
        }
        Some(Membership {
            parallel: self.ids.second,
            actual: self.numbers.first,
            index: self.numbers.second,
            member: self.ids.first,
        })
    }
}
