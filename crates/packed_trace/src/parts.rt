//! What the columns keep of one record, found by one look at it.
ghost use Rattle.std.specs.Prelude.{◌≡◌, None};
ghost use Rattle.std.specs.Option.{option_map_or};
ghost use Rattle.ompt_events.specs.declared.records.Body.{Body};
ghost use Rattle.ompt_events.specs.Records.{claim};
ghost use Rattle.packed_trace.specs.Packed.{act_of, ids_of, listed_deps, numbers_of};

use crate::act::{Act, root_begun, task_created};
use crate::columns::Numbers;
use crate::ids::Ids;
use bitflags::Flags;
use ompt_events::{Body, BoxedClaim, CancelFlags, Deps, Endpoint, Turns};

/// What the columns keep of one record.
#[derive(Drop)]
pub(crate) struct Parts {
    pub(crate) act: Act,
    pub(crate) ids: Ids,
    pub(crate) numbers: Numbers,
    pub(crate) claim: Option<BoxedClaim>,
    pub(crate) list: Option<Deps>,
}

impl Parts {
    /// Returns the parts of a record with this body.
    #[inline(always)]
    pub(crate) fn of(body: Body) -> Parts
        ensures act { result.act ≡ act_of body }
        ensures ids { result.ids ≡ ids_of body }
        ensures numbers { result.numbers ≡ numbers_of body }
        ensures claim { result.claim ≡ claim body }
        ensures list { result.list ≡ listed_deps body }
    {
        match body {
            Body::ThreadBegin { .. } => Parts::plain(Act::Thread, 0, 0),
            Body::ThreadEnd => Parts::plain(Act::Thread, 0, 0),
            Body::ParallelBegin { task, parallel, .. } => Parts::plain(Act::Fork, task, parallel),
            Body::ParallelEnd { task, parallel } => Parts::plain(Act::Join, task, parallel),
            Body::ImplicitTask {
                endpoint,
                actual,
                index,
                flags,
                parallel,
                task,
            } => Parts {
                act: match endpoint {
                    Endpoint::Begin => root_begun(flags),
                    Endpoint::End => Act::RootEnd,
                    Endpoint::BeginEnd => Act::RootBoth,
                },
                ids: Ids {
                    first: task,
                    second: parallel,
                },
                numbers: Numbers {
                    first: actual,
                    second: index,
                },
                claim: None,
                list: None,
            },
            Body::TaskCreate {
                deps,
                flags,
                task,
                child,
            } => Parts::plain(task_created(deps, flags), task, child),
            Body::Dependences { task, list } => Parts {
                act: Act::Depend,
                ids: Ids {
                    first: task,
                    second: 0,
                },
                numbers: Numbers {
                    first: 0,
                    second: 0,
                },
                claim: None,
                list: Some(list),
            },
            Body::TaskSchedule {
                status,
                turns,
                prior,
                next,
                claim,
            } => Parts {
                act: Act::Schedule {
                    status,
                    told: turns.is_some(),
                },
                ids: Ids {
                    first: prior,
                    second: next.unwrap_or(0),
                },
                numbers: numbers_told(turns),
                claim,
                list: None,
            },
            Body::SyncRegion {
                kind,
                endpoint,
                task,
                ..
            } => Parts::plain(Act::Region { kind, endpoint }, task, 0),
            Body::Cancel { flags, task, claim } => Parts {
                act: Act::Cancel {
                    discards: flags.contains(CancelFlags::DISCARDED_TASK),
                },
                ids: Ids {
                    first: task,
                    second: 0,
                },
                numbers: Numbers {
                    first: 0,
                    second: 0,
                },
                claim,
                list: None,
            },
        }
    }

    /// Returns the parts of a record that names these ids, and has no numbers and no list.
    fn plain(act: Act, first: u64, second: u64) -> Parts
        ensures { result ≡ record {
          act = act;
          ids = record { first = first; second = second };
          numbers = record { first = 0; second = 0 };
          claim = None;
          list = None;
        } }
    {
        Parts {
            act,
            ids: Ids { first, second },
            numbers: Numbers {
                first: 0,
                second: 0,
            },
            claim: None,
            list: None,
        }
    }
}

/// Returns the turns of a record, and 0 for each if it has none.
fn numbers_told(turns: Option<Turns>) -> Numbers
    ensures { result ≡ record {
      first = option_map_or (λ t. t.prior) turns 0;
      second = option_map_or (λ t. t.next) turns 0;
    } }
{
    match turns {
        Some(Turns { prior, next }) => Numbers {
            first: prior,
            second: next,
        },
        None => Numbers {
            first: 0,
            second: 0,
        },
    }
}
