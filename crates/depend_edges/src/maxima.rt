//! The greatest lengths of the tasks that use each location.
ghost use Rattle.std.specs.Prelude.{◌≡◌, OnOk, IfErr, length};
ghost use Rattle.ompt_events.specs.declared.names.DepKind.{DepKind};
ghost use Rattle.ompt_events.specs.declared.fault.Fault.TheVariants.{Memory};
ghost use Rattle.depend_edges.specs.Maxima.{maximum, maximum_at, IsKindRaised, IsGreatestConflicting, AreLengthsEntered, IsGreatest};

use ompt_events::{Dep, DepKind, Fault};
use std::collections::BTreeMap;

/// The greatest lengths of the tasks that use a location, by how they use it.
#[derive(Clone, Copy)]
pub(crate) struct Maxima {
    pub(crate) readers: u64,
    pub(crate) writers: u64,
    pub(crate) mutexes: u64,
    pub(crate) sets: u64,
}

impl Maxima {
    /// Returns the lengths of a location that no task uses.
    fn none() -> Maxima
        ensures { (kind : DepKind) → maximum result kind ≡ 0 }
    {
        Maxima {
            readers: 0,
            writers: 0,
            mutexes: 0,
            sets: 0,
        }
    }

    /// Returns the lengths with one more task of this length, which uses the location in this way.
    fn raise(self, kind: DepKind, task_length: u64) -> Maxima
        ensures { IsKindRaised self result kind task_length }
    {
        let mut raised = self;
        match kind {
            DepKind::In => raised.readers = self.readers.max(task_length),
            DepKind::Out | DepKind::Inout => raised.writers = self.writers.max(task_length),
            DepKind::Mutexinoutset => raised.mutexes = self.mutexes.max(task_length),
            DepKind::Inoutset => raised.sets = self.sets.max(task_length),
        }
        raised
    }

    /// Returns the greatest length of the tasks that a task with such an item waits for.
    fn awaited(self, kind: DepKind) -> u64
        ensures { IsGreatestConflicting self kind result }
    {
        match kind {
            DepKind::In => self.writers.max(self.mutexes).max(self.sets),
            DepKind::Out | DepKind::Inout => {
                self.writers
                    .max(self.mutexes)
                    .max(self.sets)
                    .max(self.readers)
            }
            DepKind::Mutexinoutset => self.writers.max(self.sets).max(self.readers),
            DepKind::Inoutset => self.writers.max(self.mutexes).max(self.readers),
        }
    }
}

/// Returns the greatest lengths at a location.
fn maxima_at(map: &BTreeMap<u64, Maxima>, var: u64) -> Maxima
    ensures { (kind : DepKind) → maximum result kind ≡ maximum_at map.now var kind }
{
    match map.get(&var) {
        Some(maxima) => *maxima,
        None => Maxima::none(),
    }
}

/// Enters the length of a task at each of its items.
pub(crate) fn enter(
    map: &mut BTreeMap<u64, Maxima>,
    items: &[Dep],
    task_length: u64,
) -> Result<(), Fault>
    ensures entered { OnOk result (AreLengthsEntered map.old map.new items.now (length items.now) task_length) }
    ensures memory_alone { IfErr result (λ fault. fault ≡ Memory) }
{
    for at in 0..items.len() {
        let item = items[at];
        let raised = maxima_at(map, item.var).raise(item.kind, task_length);
        map.insert(item.var, raised)?;
    }
    Ok(())
}

/// Returns the greatest length of the tasks that a task with these items waits for.
pub(crate) fn greatest(map: &BTreeMap<u64, Maxima>, items: &[Dep]) -> u64
    ensures { IsGreatest map.now items.now (length items.now) result }
{
    let mut greatest: u64 = 0;
    for at in 0..items.len() {
        let item = items[at];
        greatest = greatest.max(maxima_at(map, item.var).awaited(item.kind));
    }
    greatest
}
