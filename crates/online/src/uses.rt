//! The uses of locations by siblings, in the order of their lists of dependences, and for which of them a task
//! must wait.
ghost use Rattle.std.specs.Prelude.{ℕ, ◌≡◌, None, IfOk, OnOk, IfSome, IsTrue, true, Some, [], ◌∷◌, option_map};
ghost use Rattle.online.specs.Groups.{group_at, put, KeepsCounts};
ghost use Rattle.online.specs.Uses.{can_share, IsUses, HasFound, HasPlaced, HasListed, HasCompleted, HasEnded};
ghost use Rattle.online.specs.Uses.{KeepsUses, KeepsTables, IsReadyBy, last_in, location_in, family_at};
ghost use Rattle.online.specs.Uses.{numbers_of, location_of};

use crate::groups::Groups;
use ompt_events::{DepKind, conflicts};
use std::alloc::{AllocError, Global};
use std::collections::HashMap;

/// How one task uses a location.
#[derive(Clone, Copy, Debug)]
pub(crate) struct Use {
    /// The location.
    pub(crate) location: u64,
    /// The kind of the use; `None` for a use of more than one kind.
    pub(crate) kind: Option<DepKind>,
}

/// The last group of tasks that use a location.
#[derive(Clone, Copy, Debug)]
pub(crate) struct Location {
    /// The group's number.
    last: u64,
    /// The kind of its uses.
    kind: Option<DepKind>,
}

/// The uses by the children of each task that may create more, and by each task that is not complete.
#[derive(Debug, Drop)]
pub(crate) struct UseTable {
    /// By task the locations that its children use.
    families: HashMap<u64, HashMap<u64, Location>>,
    /// By task the groups of its uses.
    tasks: HashMap<u64, Vec<u64>>,
    groups: Groups,
    alloc: Global,
}

/// Returns whether tasks with these kinds of use need not wait for each other.
fn can_share(a: Option<DepKind>, b: Option<DepKind>) -> bool
    ensures { result ≡ can_share a b }
{
    match (a, b) {
        (Some(a), Some(b)) => !conflicts(a, b),
        _ => false,
    }
}

impl UseTable {
    /// Returns a table of no uses. Takes no memory.
    pub(crate) fn new(alloc: Global) -> UseTable
        ensures { IsUses [] [] [] result }
    {
        UseTable {
            families: HashMap::new(alloc),
            tasks: HashMap::new(alloc),
            groups: Groups::new(alloc),
            alloc,
        }
    }

    /// Reads the list of dependences of a task, as one use of each location. Returns false where the table is
    /// full. Fails when out of memory; the table is of no use then.
    pub(crate) fn list(&mut self, parent: u64, task: u64, uses: &[Use]) -> Result<bool, AllocError>
        ensures { IfOk result (λ listed. IsTrue listed → HasListed self.old self.new parent task uses.now) }
    {
        let mut family = take_family(self.alloc, &mut self.families, parent);
        let Some(numbers) = place_all(self.alloc, &mut self.groups, &mut family, uses)? else {
            return Ok(false);
        };
        self.families.insert(parent, family)?;
        self.tasks.insert(task, numbers)?;
        Ok(true)
    }

    /// Takes out a task that is complete by entries below the length. Fails when out of memory; the table is of no
    /// use then.
    pub(crate) fn complete(&mut self, task: u64, length: u64) -> Result<(), AllocError>
        ensures completed { OnOk result (HasCompleted self.old self.new task length) }
        ensures taken { OnOk result (numbers_of self.new task ≡ None) }
    {
        let Some(numbers) = self.tasks.remove(&task) else {
            return Ok(());
        };
        self.groups.leave_all(numbers.as_slice(), length)?;
        Ok(())
    }

    /// Takes out the locations that the children of a task use. It may create no more children. Fails when out of
    /// memory; the table is of no use then.
    pub(crate) fn end(&mut self, parent: u64) -> Result<(), AllocError>
        ensures ended { OnOk result (HasEnded self.old self.new parent) }
        ensures taken { OnOk result ((w : ℕ) → location_of self.new parent w ≡ None) }
        ensures tasks { OnOk result ((task : ℕ) → numbers_of self.new task ≡ numbers_of self.old task) }
    {
        let family = take_family(self.alloc, &mut self.families, parent);
        release_all(&mut self.groups, &family)?;
        Ok(())
    }

    /// Returns whether all that the task must wait for is complete by entries below the length. Fails when out of
    /// memory; the table is of no use then.
    pub(crate) fn is_ready(&mut self, task: u64, length: u64) -> Result<bool, AllocError>
        ensures ready { IfOk result (λ ready. IsTrue ready → IsReadyBy self.old task length) }
        ensures other { numbers_of self.old task ≡ None → IfOk result IsTrue }
        ensures kept { IfOk result (λ _. KeepsUses self.old self.new) }
        ensures tables { IfOk result (λ _. KeepsTables self.old self.new) }
    {
        let Some(numbers) = self.tasks.get(&task) else {
            return Ok(true);
        };
        let ready = self.groups.are_clear(numbers.as_slice(), length)?;
        Ok(ready)
    }
}

/// Returns the number of the group in which the use stands: the last of its location, or a new one behind that;
/// `None` where no number is left. Fails when out of memory.
fn find_group(
    groups: &mut Groups,
    family: &mut HashMap<u64, Location>,
    used: Use,
) -> Result<Option<u64>, AllocError>
    ensures { IfOk result (λ found. IfSome found (HasFound (group_at groups.old) groups.old.next family.old
        (group_at groups.new) groups.new.next family.new used)) }
{
    if let Some(location) = open_group(family, used) {
        return Ok(Some(location.last));
    }
    let before = number_of(last_of(family, used.location));
    let Some(number) = groups.begin(before)? else {
        return Ok(None);
    };
    let location = Location {
        last: number,
        kind: used.kind,
    };
    family.insert(used.location, location)?;
    Ok(Some(number))
}

/// Lets the last group of each location go.
fn release_all(groups: &mut Groups, family: &HashMap<u64, Location>) -> Result<(), AllocError>
    ensures counted { OnOk result (KeepsCounts (group_at groups.old) (group_at groups.new)) }
    ensures next { groups.new.next ≡ groups.old.next }
{
    for location in family.values() {
        groups.release(Some(location.last))?;
    }
    Ok(())
}

/// Takes out the locations that the children of the task use: none, where they have used none.
fn take_family(
    alloc: Global,
    families: &mut HashMap<u64, HashMap<u64, Location>>,
    parent: u64,
) -> HashMap<u64, Location>
    ensures taken { (w : ℕ) → last_in result w ≡ location_in (family_at families.old parent) w }
    ensures others { (p : ℕ) → family_at families.new p ≡ put (family_at families.old) parent None p }
{
    match families.remove(&parent) {
        Some(family) => family,
        None => HashMap::new(alloc),
    }
}

/// Returns the last group of a location.
fn last_of(family: &HashMap<u64, Location>, location: u64) -> Option<Location>
    ensures { result ≡ last_in family.now location }
{
    family.get(&location).copied()
}

/// Returns the number of a location's last group.
fn number_of(last: Option<Location>) -> Option<u64>
    ensures { result ≡ option_map (λ l. l.last) last }
{
    last.map(|location| location.last)
}

/// Returns the last group of the use's location, only if the use may stand in it.
fn open_group(family: &HashMap<u64, Location>, used: Use) -> Option<Location>
    ensures { IfSome result (λ l. (last_in family.now used.location ≡ Some l) × (can_share l.kind used.kind ≡ true)) }
{
    let location = last_of(family, used.location)?;
    if can_share(location.kind, used.kind) {
        Some(location)
    } else {
        None
    }
}

/// Counts the use in the group in which it stands, and returns the number of that; `None` where no number or count
/// is left. Fails when out of memory.
fn place(
    groups: &mut Groups,
    family: &mut HashMap<u64, Location>,
    used: Use,
) -> Result<Option<u64>, AllocError>
    ensures { IfOk result (λ placed. IfSome placed (λ n. HasPlaced (group_at groups.old) groups.old.next family.old
        (group_at groups.new) groups.new.next family.new (used ∷ []) (n ∷ []))) }
{
    let Some(number) = find_group(groups, family, used)? else {
        return Ok(None);
    };
    if !groups.enter(number)? {
        return Ok(None);
    }
    groups.settle(number)?;
    Ok(Some(number))
}

/// Counts each use, as `place` does, and returns the numbers of their groups.
fn place_all(
    alloc: Global,
    groups: &mut Groups,
    family: &mut HashMap<u64, Location>,
    uses: &[Use],
) -> Result<Option<Vec<u64>>, AllocError>
    ensures { IfOk result (λ placed. IfSome placed (λ numbers. HasPlaced (group_at groups.old) groups.old.next
        family.old (group_at groups.new) groups.new.next family.new uses.now numbers.items)) }
{
    let mut numbers = Vec::new(alloc);
    for used in uses {
        let Some(number) = place(groups, family, *used)? else {
            return Ok(None);
        };
        numbers.push(number)?;
    }
    Ok(Some(numbers))
}
