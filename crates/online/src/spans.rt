//! Intervals of ids that a map keeps: by the first id of each the last.
ghost use Rattle.std.specs.Prelude.{OnOk, OnErr};
ghost use Rattle.std.specs.Ordering.{nat_cmp};
ghost use Rattle.std.specs.BTreeMap.{IsOrdered, IsUnchanged};
ghost use Rattle.online.specs.Spans.{last_from, IsNearest, IsFirstWith, IsLastWith, IsJoined};

use std::alloc::AllocError;
use std::collections::BTreeMap;

/// Returns the interval whose first id is the greatest that is at most this one.
pub(crate) fn nearest(spans: &BTreeMap<u64, u64>, id: u64) -> Option<(u64, u64)>
    ensures nearest { IsNearest (last_from spans.now) id result }
    ensures ordered { IsOrdered nat_cmp spans.now }
{
    match spans.range(..=id).next_back() {
        Some((first, last)) => Some((*first, *last)),
        None => None,
    }
}

/// Returns the first id of the interval that ends right before the id, or the id where none does.
pub(crate) fn first_with(spans: &BTreeMap<u64, u64>, id: u64) -> u64
    ensures { IsFirstWith (last_from spans.now) id result }
{
    match nearest(spans, id) {
        Some((first, last)) => {
            if last < id && id - last == 1 {
                first
            } else {
                id
            }
        }
        None => id,
    }
}

/// Returns the last id of the interval that begins right behind the id, or the id where none does.
pub(crate) fn last_with(spans: &BTreeMap<u64, u64>, id: u64) -> u64
    ensures { IsLastWith (last_from spans.now) id result }
{
    let Some(next) = id.checked_add(1) else {
        return id;
    };
    match spans.get(&next) {
        Some(last) => *last,
        None => id,
    }
}

/// Puts in the interval from `first` to `last`, and takes out the one that begins right behind `id`, if
/// `last` is behind that. Fails only when out of memory; then nothing changes.
pub(crate) fn join(
    spans: &mut BTreeMap<u64, u64>,
    first: u64,
    id: u64,
    last: u64,
) -> Result<(), AllocError>
    ensures joined { OnOk result (IsJoined (last_from spans.old) (last_from spans.new) first id last) }
    ensures was_ordered { IsOrdered nat_cmp spans.old }
    ensures ordered { OnOk result (IsOrdered nat_cmp spans.new) }
    ensures unchanged { OnErr result (IsUnchanged spans.old spans.new) }
{
    spans.insert(first, last)?;
    if id < last {
        spans.remove(&(id + 1));
    }
    Ok(())
}
