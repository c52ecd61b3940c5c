//! Comparisons of the path of a task, by climbing from it to its root.
ghost use Rattle.std.specs.Prelude.{ℕ, ◌≡◌, ◌↔◌, ◌<◌, List, Some, IsTrue, length, slice_get};
ghost use Rattle.ompt_events.specs.declared.records.Record.{Record};
ghost use Rattle.ompt_events.specs.Tree.{HasPath, children};
ghost use Rattle.task_tree.specs.Family.{IsFamilyOf};

use crate::family::Family;
use ompt_events::ClaimPath;

impl Family {
    /// Returns whether the task at this index has this root and this path, the numbers of the children from
    /// the root down. Climbs at most as many steps as the path has numbers.
    pub fn has_path(&self, index: usize, root: u64, path: &ClaimPath) -> bool
        requires { index < length self.now.tasks }
        ensures { (records : List Record) → IsFamilyOf records self.now → (task : ℕ)
            → slice_get self.now.tasks index ≡ Some task
            → IsTrue result ↔ HasPath records root task path.now }
    {
        let Some(standing) = self.standing_at(index) else {
            return false;
        };
        if standing.root != root {
            return false;
        }
        if standing.depth as usize != path.len() {
            return false;
        }
        self.climbs(index, path)
    }

    /// Returns whether this path, which has the length of that of the task at this index, is the same.
    fn climbs(&self, index: usize, path: &ClaimPath) -> bool
        ensures { (records : List Record) → IsFamilyOf records self.now → (root task : ℕ) (whole : List ℕ)
            → slice_get self.now.tasks index ≡ Some task → HasPath records root task whole
            → length whole ≡ length path.now → IsTrue result ↔ (whole ≡ path.now) }
    {
        let mut current = index;
        for step in 0..path.len() {
            let Some(link) = self.link_at(current) else {
                return false;
            };
            if link.number != path.number(path.len() - 1 - step) {
                return false;
            }
            current = link.parent as usize;
        }
        true
    }

    /// Returns how many children the task at this index has.
    pub fn child_count(&self, index: usize) -> usize
        requires { index < length self.now.tasks }
        ensures { (records : List Record) → IsFamilyOf records self.now → (task : ℕ)
            → slice_get self.now.tasks index ≡ Some task → result ≡ length (children records task) }
    {
        self.children_at(index).len()
    }
}
