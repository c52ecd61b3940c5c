//! Groups of tasks that use one location and do not wait for each other, each behind the group before it. The
//! tasks themselves are not kept.
ghost use Rattle.std.specs.Prelude.{true, ℕ, ◌≡◌, ◌<◌, ◌≤◌, ◌+◌, List, IfOk, OnOk, IfSome, IsTrue, Some, None};
ghost use Rattle.online.specs.Groups.{group_at, put, HasEntered, HasLeft, KeepsCounts, IsClearAt};
ghost use Rattle.online.specs.Groups.{HasLeftAll, AreClearAt};

use std::alloc::{AllocError, Global};
use std::collections::HashMap;

/// What is counted of the tasks of a group, and what stands before it.
#[derive(Clone, Copy, Debug)]
pub(crate) struct Group {
    /// How many of the tasks are not complete.
    left: u64,
    /// A length from which on all others are complete.
    greatest: u64,
    /// A length from which on all tasks before the group are complete, but for those up to `before`.
    floor: u64,
    /// The group before it, if not all of its tasks and of those before it are known to be complete.
    before: Option<u64>,
    /// Whether a group behind it, or a later use of the location, may ask for it.
    needed: bool,
}

/// The groups by number.
#[derive(Debug, Drop)]
pub(crate) struct Groups {
    table: HashMap<u64, Group>,
    next: u64,
}

impl Groups {
    /// Returns no groups. Takes no memory.
    pub(crate) fn new(alloc: Global) -> Groups
        ensures none { (n : ℕ) → group_at result n ≡ None }
        ensures next { result.next ≡ 0 }
    {
        Groups {
            table: HashMap::new(alloc),
            next: 0,
        }
    }

    /// Returns the group with the number, if it is kept.
    fn get(&self, number: u64) -> Option<Group>
        ensures { result ≡ group_at self.now number }
    {
        self.table.get(&number).copied()
    }

    /// Keeps the group under the number. Fails when out of memory.
    fn set(&mut self, number: u64, group: Group) -> Result<(), AllocError>
        ensures set { OnOk result ((q : ℕ) → group_at self.new q ≡ put (group_at self.old) number (Some group) q) }
        ensures next { self.new.next ≡ self.old.next }
    {
        self.table.insert(number, group)?;
        Ok(())
    }

    /// Drops the group with the number.
    fn remove(&mut self, number: u64)
        ensures set { (q : ℕ) → group_at self.new q ≡ put (group_at self.old) number None q }
        ensures next { self.new.next ≡ self.old.next }
    {
        self.table.remove(&number);
    }

    /// Returns the number of a new empty group behind another one; `None` where no number is left. Fails when out
    /// of memory.
    pub(crate) fn begin(&mut self, before: Option<u64>) -> Result<Option<u64>, AllocError>
        ensures { IfOk result (λ made. IfSome made (λ n. (n ≡ self.old.next) × (self.new.next ≡ n + 1)
            × ((q : ℕ) → group_at self.new q ≡ put (group_at self.old) n
            (Some (record { left = 0; greatest = 0; floor = 0; before = before; needed = true })) q))) }
    {
        let number = self.next;
        let Some(next) = number.checked_add(1) else {
            return Ok(None);
        };
        let group = Group {
            left: 0,
            greatest: 0,
            floor: 0,
            before,
            needed: true,
        };
        self.set(number, group)?;
        self.next = next;
        Ok(Some(number))
    }

    /// Lets a task enter the group. Returns false where the group is not kept, or its count is full. Fails when
    /// out of memory.
    pub(crate) fn enter(&mut self, number: u64) -> Result<bool, AllocError>
        ensures entered { IfOk result (λ entered. IsTrue entered
            → HasEntered (group_at self.old) (group_at self.new) number) }
        ensures next { self.new.next ≡ self.old.next }
    {
        let Some(group) = self.get(number) else {
            return Ok(false);
        };
        let Some(left) = group.left.checked_add(1) else {
            return Ok(false);
        };
        self.set(number, Group { left, ..group })?;
        Ok(true)
    }

    /// Counts a use of the group as over: its task is complete by entries below the length. Fails when out of
    /// memory.
    pub(crate) fn leave(&mut self, number: u64, length: u64) -> Result<(), AllocError>
        ensures left { OnOk result (HasLeft (group_at self.old) (group_at self.new) number length) }
        ensures next { self.new.next ≡ self.old.next }
    {
        let Some(group) = self.get(number) else {
            return Ok(());
        };
        let lowered = Group {
            left: group.left.saturating_sub(1),
            greatest: group.greatest.max(length),
            ..group
        };
        if is_over(lowered) {
            self.remove(number);
            self.release(lowered.before)?;
            return Ok(());
        }
        self.set(number, lowered)?;
        Ok(())
    }

    /// Takes out a group for which none will ask, once all of its tasks are complete, and so each group before it.
    /// Fails when out of memory.
    pub(crate) fn release(&mut self, number: Option<u64>) -> Result<(), AllocError>
        ensures counted { OnOk result (KeepsCounts (group_at self.old) (group_at self.new)) }
        ensures next { self.new.next ≡ self.old.next }
    {
        let mut last = number;
        // Each step takes a group out, so the walk ends before the steps do.
        for _step in 0..u64::MAX {
            let Some(group) = last else {
                break;
            };
            last = self.release_one(group)?;
        }
        Ok(())
    }

    /// Takes out the group if all of its tasks are complete, and returns the one before it; else notes that none
    /// will ask for it. Fails when out of memory.
    fn release_one(&mut self, number: u64) -> Result<Option<u64>, AllocError>
        ensures counted { IfOk result (λ _. KeepsCounts (group_at self.old) (group_at self.new)) }
        ensures next { self.new.next ≡ self.old.next }
    {
        let Some(group) = self.get(number) else {
            return Ok(None);
        };
        if group.left == 0 {
            self.remove(number);
            return Ok(group.before);
        }
        let released = Group {
            needed: false,
            ..group
        };
        self.set(number, released)?;
        Ok(None)
    }

    /// Counts a use of each of the groups as over, as `leave` does.
    pub(crate) fn leave_all(&mut self, numbers: &[u64], length: u64) -> Result<(), AllocError>
        ensures left { OnOk result (HasLeftAll (group_at self.old) (group_at self.new) numbers.now length) }
        ensures next { self.new.next ≡ self.old.next }
    {
        for number in numbers {
            self.leave(*number, length)?;
        }
        Ok(())
    }

    /// Returns whether all tasks before each of the groups are complete by entries below the length. Fails when
    /// out of memory.
    pub(crate) fn are_clear(&mut self, numbers: &[u64], length: u64) -> Result<bool, AllocError>
        ensures clear { IfOk result (λ clear. IsTrue clear → AreClearAt (group_at self.old) numbers.now length) }
        ensures counted { IfOk result (λ _. KeepsCounts (group_at self.old) (group_at self.new)) }
        ensures next { self.new.next ≡ self.old.next }
    {
        for number in numbers {
            self.settle(*number)?;
            if !self.is_clear(*number, length) {
                return Ok(false);
            }
        }
        Ok(true)
    }

    /// Takes out the group before this one, where all of its tasks are complete. Returns whether there was one.
    /// Fails when out of memory.
    fn pass(&mut self, number: u64) -> Result<bool, AllocError>
        ensures counted { IfOk result (λ _. KeepsCounts (group_at self.old) (group_at self.new)) }
        ensures next { self.new.next ≡ self.old.next }
    {
        let Some(own) = self.get(number) else {
            return Ok(false);
        };
        let Some(before) = own.before else {
            return Ok(false);
        };
        let Some(earlier) = self.get(before) else {
            return Ok(false);
        };
        if earlier.left != 0 {
            return Ok(false);
        }
        let moved = Group {
            floor: own.floor.max(earlier.floor.max(earlier.greatest)),
            before: earlier.before,
            ..own
        };
        self.remove(before);
        self.set(number, moved)?;
        Ok(true)
    }

    /// Takes out all groups before this one that are complete together with those before them. Fails when out of
    /// memory.
    pub(crate) fn settle(&mut self, number: u64) -> Result<(), AllocError>
        ensures counted { OnOk result (KeepsCounts (group_at self.old) (group_at self.new)) }
        ensures next { self.new.next ≡ self.old.next }
    {
        // Each step takes a group out, so the walk ends before the steps do.
        for _step in 0..u64::MAX {
            if !self.pass(number)? {
                break;
            }
        }
        Ok(())
    }

    /// Returns whether all tasks before the group are complete by entries below the length. All groups before it
    /// that are complete must have been taken out.
    pub(crate) fn is_clear(&self, number: u64, length: u64) -> bool
        ensures { IsTrue result → IsClearAt (group_at self.now) number length }
    {
        match self.get(number) {
            Some(group) => is_past(group, length),
            None => false,
        }
    }
}

/// Returns whether nothing stands before the group that is not known to be complete by the length.
fn is_past(group: Group, length: u64) -> bool
    ensures { IsTrue result → (group.before ≡ None) × (group.floor ≤ length) }
{
    if group.before.is_some() {
        return false;
    }
    group.floor <= length
}

/// Returns whether the group has no task that is not complete, and none will ask for it.
fn is_over(group: Group) -> bool {
    group.left == 0 && !group.needed
}
