//! What is kept of one phase of a team.
ghost use Rattle.std.specs.Prelude.{◌≡◌};
ghost use Rattle.online.specs.Teams.{no_phase, with_child, without_child, with_begin, with_end, over_from};

use crate::scope::Scope;

/// What is kept of a phase of a team. A member is in the phase with the number of barriers that it has begun; the
/// barrier behind the phase has the same number.
#[derive(Clone, Copy, Debug, PartialEq, Eq)]
pub struct Phase {
    /// The members' children created in it that are not settled. Where the phase is over there is none, and `greatest`
    /// is that of all phases before it too.
    pub scope: Scope,
    /// How many members have begun the barrier behind it.
    pub begun: u64,
    /// How many have ended that barrier.
    pub ended: u64,
}

impl Phase {
    /// Returns what is kept of a phase of which no record says anything.
    pub fn empty() -> Self
        ensures { result ≡ no_phase }
    {
        Phase {
            scope: Scope::empty(),
            begun: 0,
            ended: 0,
        }
    }

    /// Returns what is kept with one more child, which is not settled.
    pub fn with_child(self) -> Self
        ensures { result ≡ with_child self }
    {
        Phase {
            scope: self.scope.with_task(),
            ..self
        }
    }

    /// Returns what is kept where one of the children is settled from the length on.
    pub fn without_child(self, length: u64) -> Self
        ensures { result ≡ without_child length self }
    {
        Phase {
            scope: self.scope.without_task(length),
            ..self
        }
    }

    /// Returns what is kept where one more member begins the barrier behind it.
    pub fn with_begin(self) -> Self
        ensures { result ≡ with_begin self }
    {
        Phase {
            begun: self.begun.saturating_add(1),
            ..self
        }
    }

    /// Returns what is kept where one more member ends that barrier.
    pub fn with_end(self) -> Self
        ensures { result ≡ with_end self }
    {
        Phase {
            ended: self.ended.saturating_add(1),
            ..self
        }
    }

    /// Returns what is kept where the phase is over, and from the length on all children are settled that were created
    /// in it or before it.
    pub fn over_from(self, length: u64) -> Self
        ensures { result ≡ over_from length self }
    {
        Phase {
            scope: Scope {
                left: 0,
                greatest: length,
            },
            ..self
        }
    }
}
