//! The standing of a task or none, in 16 bytes.
ghost use Rattle.std.specs.Prelude.{◌≡◌, ◌↔◌, Some, None, IsTrue};

use crate::roots::Standing;
use std::marker::Model;

/// The standing of a task, or none.
#[derive(Clone, Copy, Debug)]
pub(crate) struct StandingSlot {
    content: Content,
}

/// The content of a slot. An `Option<Standing>` would take 24 bytes, since its tag would be before the
/// whole `Standing`, which has room for it after the depth.
#[derive(Clone, Copy, Debug)]
enum Content {
    Nothing,
    Stands { depth: u32, root: u64 },
}

impl Model for StandingSlot {
    ghost use Rattle.std.specs.Prelude.{Option};
    ghost use Rattle.task_tree.specs.declared.roots.Standing.{Standing};
    ghost use Rattle.task_tree.specs.StandingSlots.{standing_in, content_of, content_again};

    ghost Value = { Option Standing };

    ghost view = { λ slot. standing_in slot.content };

    ghost inverse = { λ standing. record { content = content_of standing } };

    ghost inverse_ok = { λ slot _. content_again (λ content. record { content = content }) slot.content };
}

impl StandingSlot {
    /// Returns the slot without a standing.
    pub(crate) fn none() -> StandingSlot
        ensures { result ≡ None }
    {
        StandingSlot {
            content: Content::Nothing,
        }
    }

    /// Returns the slot of this standing.
    pub(crate) fn some(standing: Standing) -> StandingSlot
        ensures { result ≡ Some standing }
    {
        let Standing { depth, root } = standing;
        StandingSlot {
            content: Content::Stands { depth, root },
        }
    }

    /// Returns whether there is no standing.
    pub(crate) fn is_none(self) -> bool
        ensures { IsTrue result ↔ (self ≡ None) }
    {
        self.get().is_none()
    }

    /// Returns the standing, if there is one.
    pub(crate) fn get(self) -> Option<Standing>
        ensures { result ≡ self }
    {
        match self.content {
            Content::Nothing => None,
            Content::Stands { depth, root } => Some(Standing { depth, root }),
        }
    }
}
