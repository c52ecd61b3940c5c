//! What is kept of a thread.
ghost use Rattle.std.specs.Prelude.{List, ◌≡◌, ◌<◌, ◌^◌, ◌++◌, ◌∷◌, [], OnOk, length};
ghost use Rattle.ompt_events.specs.declared.records.Record.{Record};
ghost use Rattle.online.specs.ThreadStates.{IsThreadOf};

use callbacks::ThreadState;
use ompt_events::Body;
use std::alloc::{AllocError, Global};

/// What the records of one thread leave, and how many they are.
#[derive(Drop)]
pub(crate) struct Thread {
    pub(crate) state: ThreadState,
    pub(crate) count: u64,
}

impl Thread {
    /// Returns a thread without records, in a trace where regions may lie inside others or not.
    pub(crate) fn new(alloc: Global, nests: bool) -> Thread
        ensures of { IsThreadOf [] result }
        ensures nests { result.state.nests ≡ nests }
    {
        Thread {
            state: ThreadState::new(alloc, nests),
            count: 0,
        }
    }

    /// Goes on behind one more record of the thread, which has this body. Fails only when out of memory.
    pub(crate) fn advance(&mut self, body: &Body) -> Result<(), AllocError>
        requires { self.old.count < 2 ^ 32 }
        ensures of { OnOk result ((own : List Record) (r : Record) → r.body ≡ body.now
            → r.nests ≡ self.old.state.nests → IsThreadOf own self.old → IsThreadOf (own ++ r ∷ []) self.new) }
        ensures nests { OnOk result (self.new.state.nests ≡ self.old.state.nests) }
    {
        self.state.advance(body)?;
        self.count += 1;
        Ok(())
    }
}
