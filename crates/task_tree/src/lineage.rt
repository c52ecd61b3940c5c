//! The parent and the depth of a task, by index.
ghost use Rattle.std.specs.Prelude.{◌≡◌};
ghost use Rattle.task_tree.specs.Lineage.{parent_index, depth_in};

use crate::family::Family;

impl Family {
    /// Returns the index of the task that created the one at this index, none for a root.
    pub fn parent_at(&self, index: usize) -> Option<usize>
        ensures { result ≡ parent_index self.now index }
    {
        match self.link_at(index) {
            Some(link) => Some(link.parent as usize),
            None => None,
        }
    }

    /// Returns how many steps the task at this index is below its root.
    pub fn depth_at(&self, index: usize) -> usize
        ensures { result ≡ depth_in self.now index }
    {
        match self.standing_at(index) {
            Some(standing) => standing.depth as usize,
            None => 0,
        }
    }
}
