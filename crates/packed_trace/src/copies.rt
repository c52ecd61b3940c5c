//! Copies of records. The lists in a record need memory.
ghost use Rattle.std.specs.Prelude.{◌≡◌, IfOk};

use ompt_events::{Body, BoxedClaim, Claim, Dep, Deps, Record};
use std::alloc::{AllocError, Global};

/// Returns a copy of the record.
pub(crate) fn copy_of(alloc: Global, event: &Record) -> Result<Record, AllocError>
    ensures { IfOk result (λ copy. copy ≡ event.now) }
{
    Ok(Record {
        thread: event.thread,
        nests: event.nests,
        seq: event.seq,
        seen: event.seen,
        body: body_of(alloc, &event.body)?,
    })
}

// Copies a variant, by the names of its fields: those that are copied as they are, then one that has a
// function that copies it.
macro_rules! same_variant {
    ($body:ident $alloc:ident $($variant:ident ($($field:ident)*) $($listed:ident by $copy:ident)?;)*) => {
        match $body {
            $(Body::$variant { $($field,)* $($listed,)? } => Ok(Body::$variant {
                $($field: *$field,)*
                $($listed: $copy($alloc, $listed)?,)?
            }),)*
        }
    };
}

/// Returns a copy of the body.
fn body_of(alloc: Global, body: &Body) -> Result<Body, AllocError>
    ensures { IfOk result (λ copy. copy ≡ body.now) }
{
    same_variant! {
        body alloc
        ThreadBegin (kind);
        ThreadEnd ();
        ParallelBegin (requested task parallel);
        ParallelEnd (task parallel);
        ImplicitTask (endpoint actual index flags parallel task);
        TaskCreate (deps flags task child);
        Dependences (task) list by deps_of;
        TaskSchedule (status turns prior next) claim by claim_of;
        SyncRegion (kind endpoint parallel task);
        Cancel (flags task) claim by claim_of;
    }
}

/// Returns a copy of the dependences.
pub(crate) fn deps_of(alloc: Global, list: &Deps) -> Result<Deps, AllocError>
    ensures { IfOk result (λ copy. copy ≡ list.now) }
{
    let mut items: Vec<Dep> = Vec::new(alloc);
    items.extend_from_slice(list.as_slice())?;
    Ok(Deps::from_vec(items))
}

/// Returns a copy of the claim, if there is one.
fn claim_of(alloc: Global, claim: &Option<BoxedClaim>) -> Result<Option<BoxedClaim>, AllocError>
    ensures { IfOk result (λ copy. copy ≡ claim.now) }
{
    match claim {
        Some(claim) => Ok(Some(boxed_copy(alloc, claim)?)),
        None => Ok(None),
    }
}

/// Returns a copy of the claim.
pub(crate) fn boxed_copy(alloc: Global, claim: &BoxedClaim) -> Result<BoxedClaim, AllocError>
    ensures { IfOk result (λ copy. copy ≡ claim.now) }
{
    let claim = claim.get();
    let copy = Claim {
        kept: claim.kept,
        root: claim.root,
        path: claim.path.copied(alloc)?,
    };
    BoxedClaim::new(alloc, copy)
}
