//! A link or none, in 8 bytes.
ghost use Rattle.std.specs.Prelude.{◌≡◌, ◌<◌, Some, None};

use crate::links::Link;
use std::marker::Model;

/// A link to a parent whose index is below 2^32 - 1, or none.
#[derive(Clone, Copy, Debug)]
pub(crate) struct LinkSlot {
    /// 0 if there is no link.
    number: u32,
    parent: u32,
}

impl Model for LinkSlot {
    ghost use Rattle.std.specs.Prelude.{Option};
    ghost use Rattle.task_tree.specs.declared.links.Link.{Link};
    ghost use Rattle.task_tree.specs.LinkSlots.{link_of_code, link_number, link_parent, IsCode, link_again};

    ghost Value = { Option Link };

    ghost view = { λ slot. link_of_code slot.number slot.parent };

    ghost invariant = { λ slot. IsCode slot.number slot.parent };

    ghost inverse = { λ link. record { number = link_number link; parent = link_parent link } };

    ghost inverse_ok = { λ slot is_code.
        link_again (λ number parent. record { number = number; parent = parent }) slot.number slot.parent is_code };
}

/// The parent that stands for no link.
const NONE: u32 = u32::MAX;

impl LinkSlot {
    /// Returns the slot without a link.
    pub(crate) fn none() -> LinkSlot
        ensures { result ≡ None }
    {
        LinkSlot {
            number: 0,
            parent: NONE,
        }
    }

    /// Returns the slot of this link.
    pub(crate) fn some(link: Link) -> LinkSlot
        requires { link.parent < 4294967295 }
        ensures { result ≡ Some link }
    {
        let Link { number, parent } = link;
        LinkSlot { number, parent }
    }

    /// Returns the link, if there is one.
    pub(crate) fn get(self) -> Option<Link>
        ensures { result ≡ self }
    {
        let LinkSlot { number, parent } = self;
        if parent == NONE {
            None
        } else {
            Some(Link { number, parent })
        }
    }
}
