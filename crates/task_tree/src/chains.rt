//! The records of each thread, as chains of their places.
ghost use Rattle.std.specs.Prelude.{◌≡◌, IfOk, replicate};
ghost use Rattle.task_tree.specs.Chains.{AreChainsFrom};

use packed_trace::PackedTrace;
use std::alloc::{AllocError, Global};

/// The chains of the records' places, one for each thread.
#[derive(Drop)]
pub(crate) struct Chains {
    /// By thread the place of its first record, or the number of all records if it has none.
    pub(crate) firsts: Vec<usize>,
    /// By place the place of the next record of the same thread, or that number if there is none.
    pub(crate) nexts: Vec<usize>,
}

/// Returns the chains of the records. Takes one pass from the last record to the first.
pub(crate) fn find_chains(alloc: Global, trace: &PackedTrace) -> Result<Chains, AllocError>
    ensures { IfOk result (λ chains. AreChainsFrom trace.now.records 0 chains.firsts.items chains.nexts.items) }
{
    let count = trace.len();
    let mut firsts = ends(alloc, 256, count)?;
    let mut nexts = ends(alloc, count, count)?;
    for passed in 0..count {
        let at = count - 1 - passed;
        let thread = usize::from(trace.thread(at));
        nexts[at] = firsts[thread];
        firsts[thread] = at;
    }
    Ok(Chains { firsts, nexts })
}

/// Returns this many chains, each of which ends at once.
fn ends(alloc: Global, chains: usize, end: usize) -> Result<Vec<usize>, AllocError>
    ensures { IfOk result (λ places. places.items ≡ replicate chains end) }
{
    vec![in alloc; end; chains]
}
