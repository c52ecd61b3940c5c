//! The order of all records in which one record is as early as possible.
ghost use Rattle.std.specs.Prelude.{◌≡◌, ◌<◌, IfOk, IfErr, length, filter};
ghost use Rattle.ompt_events.specs.declared.fault.Fault.TheVariants.{Memory};
ghost use Rattle.ompt_events.specs.Linearization.{IsLinearization};
ghost use Rattle.checker.specs.Counter.{IsEarliestOrder, HaveAllThreads, is_below};

use crate::before::{find_before, is_below};
use crate::merge::find_order;
use crate::ordered::Ordered;
use crate::verdict::Order;
use ompt_events::Fault;
use std::alloc::{AllocError, Global};

/// Returns the order in which the record at a place is as early as possible: first those that happen before
/// it, each time the first in file order whose predecessors are all placed; then the record; then the
/// others in the same manner. Takes n log n steps in the records.
pub(crate) fn earliest_order(alloc: Global, ordered: &Ordered, at: usize) -> Result<Order, Fault>
    requires { at < length ordered.now.ledger.run.records }
    ensures earliest { IfOk result (IsEarliestOrder ordered.now.ledger.run.records at) }
    ensures linearization { IfOk result (IsLinearization ordered.now.ledger.run.records) }
    ensures memory_alone { IfErr result (λ fault. fault ≡ Memory) }
{
    let makers = ordered.makers();
    let bounds = find_before(alloc, ordered, at)?;
    let mut base = below(alloc, ordered, bounds.as_slice())?;
    base.push(at as u32)?;
    Ok(Order::from_vec(find_order(alloc, makers, base)?))
}

/// Returns the records below the bounds of their threads, in their order.
fn below(alloc: Global, ordered: &Ordered, bounds: &[u32]) -> Result<Vec<u32>, AllocError>
    requires { HaveAllThreads ordered.now.ledger.run.records bounds.now }
    ensures { IfOk result (λ places. places.items
        ≡ filter (is_below ordered.now.ledger.run.records bounds.now) ordered.now.order) }
{
    let (run, order) = (ordered.run(), ordered.order());
    let mut places = Vec::with_capacity(alloc, run.len())?;
    for before in 0..order.len() {
        let place = order.place_at(before).unwrap();
        if is_below(bounds, run, place) {
            places.push(place as u32)?;
        }
    }
    Ok(places)
}
