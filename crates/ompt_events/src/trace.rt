//! A list of records that keeps within the limits of a file.
ghost use Rattle.std.specs.Prelude.{◌≡◌, ◌↔◌, IsTrue, IfOk, IfErr, MatchOption, is_some, IfSome, length, ◌≤◌, ◌<◌, ◌^◌, ◌⊎◌};
ghost use Rattle.ompt_events.specs.Traces.{IsSound, IsTrace, IsTraceOf, IsKnown, IsSoundIn, FitsIn, HasItsTurns, IsFirstRefused, IsInRange, BodyInRange, ClaimInRange, TurnsInRange};

use crate::boxed_claim::BoxedClaim;
use crate::names::Endpoint;
use crate::records::{Body, Claim, Record, Turns};
use std::marker::Model;

/// The most records that a trace has.
pub const MAX_RECORDS: usize = 1 << 22;

/// The most tasks that a trace makes, by creation or as initial or implicit tasks.
pub const MAX_TASKS: usize = 1 << 20;

/// The most dependences that a task has.
pub const MAX_DEPENDENCES: usize = 64;

/// The most numbers that a path has: how deep below its root a finished task may be.
pub const MAX_DEPTH: usize = 1024;

/// Records in file order, each sound by itself, within the limits on their number. In a trace of version 2 or 3
/// each record after which a task runs next has turns, and no other record does; in one of version 1 none has.
/// In a trace of version 3 each record says that parallel regions may lie inside others.
#[derive(Debug, Drop)]
pub struct Trace {
    version: u32,
    records: Vec<Record>,
}

impl Model for Trace {
    ghost use Rattle.ompt_events.specs.Traces.{TraceView, IsTraceOf};

    ghost Value = { TraceView };

    ghost view = { λ trace. record { version = trace.version; records = trace.records.items } };

    ghost invariant = { λ trace. IsTraceOf trace.version trace.records.items };
}

impl Trace {
    /// Returns the trace of version 1 of these records. Fails with the records and the place of the first
    /// one that cannot be in such a trace. Such a record is past the limit on records or tasks, has a flag
    /// bit without a name, has a claim but finishes no task or finishes one without a claim, has a next task
    /// that its status forbids or lacks one that it demands, is the begin and end of an implicit task in
    /// one, has a path or a list of dependences that is too long, has turns, or `nests`. Takes no memory.
    pub fn from_records(records: Vec<Record>) -> Result<Trace, (Vec<Record>, usize)>
        ensures accepted { IfOk result (λ trace. trace ≡ record { version = 1; records = records.items }) }
        ensures refused { IfErr result (λ refusal. (refusal.0.items ≡ records.items)
            × IsFirstRefused 1 records.items refusal.1) }
    {
        trace_of(1, records)
    }

    /// Returns the trace of version 2 of these records. Fails as [`Trace::from_records`] does, but for
    /// turns: a record after which a task runs next must have them, and any other record must not. Takes no
    /// memory.
    pub fn from_turns(records: Vec<Record>) -> Result<Trace, (Vec<Record>, usize)>
        ensures accepted { IfOk result (λ trace. trace ≡ record { version = 2; records = records.items }) }
        ensures refused { IfErr result (λ refusal. (refusal.0.items ≡ records.items)
            × IsFirstRefused 2 records.items refusal.1) }
    {
        trace_of(2, records)
    }

    /// Returns the trace of version 3 of these records, in which parallel regions may lie inside others. Fails as
    /// [`Trace::from_turns`] does, and at a record that does not say so. Takes no memory.
    pub fn from_nested(records: Vec<Record>) -> Result<Trace, (Vec<Record>, usize)>
        ensures accepted { IfOk result (λ trace. trace ≡ record { version = 3; records = records.items }) }
        ensures refused { IfErr result (λ refusal. (refusal.0.items ≡ records.items)
            × IsFirstRefused 3 records.items refusal.1) }
    {
        trace_of(3, records)
    }

    /// Returns the trace of this version of the records. Requires that they are those of such a trace: no
    /// record is looked at. Takes no memory.
    pub fn from_parts(version: u32, records: Vec<Record>) -> Trace
        requires { IsTraceOf version records.items }
        ensures { result ≡ record { version = version; records = records.items } }
    {
        Trace { version, records }
    }

    /// Returns the version of the file format: 1, 2 where records have turns, or 3 where also parallel regions
    /// may lie inside others. Takes no memory.
    pub fn version(&self) -> u32
        ensures { result ≡ self.now.version }
    {
        self.version
    }

    /// Returns the records in file order. Takes no memory.
    pub fn records(&self) -> &[Record]
        ensures value { result.now ≡ self.now.records }
        ensures is_trace { IsTraceOf self.now.version result.now }
    {
        self.records.as_slice()
    }

    /// Returns the records in file order, and drops the trace around them. Takes no memory.
    pub fn into_records(self) -> Vec<Record>
        ensures value { result.items ≡ self.records }
        ensures is_trace { IsTraceOf self.version result.items }
    {
        self.records
    }
}

/// Returns the trace of this version of the records. Fails with the records and the place of the first one
/// that cannot be in such a trace.
fn trace_of(version: u32, records: Vec<Record>) -> Result<Trace, (Vec<Record>, usize)>
    requires { IsKnown version }
    ensures accepted { IfOk result (λ trace. trace ≡ record { version = version; records = records.items }) }
    ensures refused { IfErr result (λ refusal. (refusal.0.items ≡ records.items)
        × IsFirstRefused version records.items refusal.1) }
{
    match first_refused(version, records.as_slice()) {
        Some(at) => Err((records, at)),
        None => Ok(Trace { version, records }),
    }
}

/// Returns the place of the first record that cannot be in a trace of this version after those before it.
fn first_refused(version: u32, records: &[Record]) -> Option<usize>
    requires { IsKnown version }
    ensures { MatchOption result (IsTraceOf version records.now) (IsFirstRefused version records.now) }
{
    let mut tasks: usize = 0;
    for (at, event) in records.iter().enumerate() {
        if at >= MAX_RECORDS {
            return Some(at);
        }
        if !event.fits_in(version) {
            return Some(at);
        }
        event.read_numbers();
        if event.body.made().is_some() {
            if tasks >= MAX_TASKS {
                return Some(at);
            }
            tasks += 1;
        }
    }
    None
}

impl Body {
    /// Returns whether a record with this body can be in a trace, as far as it alone shows. Takes no memory.
    pub fn is_sound(&self) -> bool
        ensures { IsTrue result ↔ IsSound self.now }
    {
        match self {
            Body::ImplicitTask {
                endpoint,
                flags,
                ..
            } => *endpoint != Endpoint::BeginEnd && flags.are_named(),
            Body::TaskCreate { flags, .. } => flags.are_named(),
            Body::Dependences { list, .. } => list.as_slice().len() <= MAX_DEPENDENCES,
            Body::TaskSchedule {
                status,
                next,
                claim,
                ..
            } => {
                next.is_some() == status.demands_next()
                    && claim.is_some() == status.part().is_some()
                    && is_short(claim)
            }
            Body::Cancel { flags, claim, .. } => {
                flags.are_named()
                    && claim.is_some() == self.discarded().is_some()
                    && is_short(claim)
            }
            _ => true,
        }
    }
}

impl Body {
    /// Returns whether a record with this body can be in a trace of the version, as far as it alone shows.
    /// Takes no memory.
    pub fn is_sound_in(&self, version: u32) -> bool
        ensures { IsTrue result ↔ IsSoundIn version self.now }
    {
        self.is_sound() && self.tells_its_turns(version)
    }

    /// Returns whether the record has turns exactly where a trace of the version demands them.
    fn tells_its_turns(&self, version: u32) -> bool
        ensures { IsTrue result ↔ HasItsTurns version self.now }
    {
        let demanded = version > 1 && self.started().is_some();
        self.told_turns().is_some() == demanded
    }
}

/// Returns whether the claimed path, if there is one, is within the limit.
fn is_short(claim: &Option<BoxedClaim>) -> bool
    ensures { IsTrue result ↔ IfSome claim.now (λ claim. length claim.path ≤ MAX_DEPTH) }
{
    match claim {
        Some(claim) => claim.get().path.len() <= MAX_DEPTH,
        None => true,
    }
}

// A proof has the range of a number behind a reference once the number is read. The reads compile to
// nothing.

impl Record {
    /// Returns whether the record can be in a trace of the version, as far as it alone shows. Takes no memory.
    pub fn fits_in(&self, version: u32) -> bool
        ensures { IsTrue result ↔ FitsIn version self.now }
    {
        self.body.is_sound_in(version) && self.nests == (version == 3)
    }

    /// Ensures that each number of a record is within the range of its type. Compiles to nothing.
    pub fn read_numbers(&self)
        ensures { IsInRange self.now }
    {
        let _thread = self.thread;
        let _seq = self.seq;
        let _seen = self.seen;
        read_arguments(&self.body);
    }
}

/// Ensures that each number among the callback's arguments is within the range of its type.
fn read_arguments(body: &Body)
    ensures { BodyInRange body.now }
{
    match body {
        Body::ThreadBegin { .. } | Body::ThreadEnd => {}
        Body::ParallelBegin {
            requested,
            task,
            parallel,
        } => {
            let _numbers = (*requested, *task, *parallel);
        }
        Body::ParallelEnd { task, parallel } => {
            let _numbers = (*task, *parallel);
        }
        Body::ImplicitTask {
            actual,
            index,
            parallel,
            task,
            ..
        } => {
            let _numbers = (*actual, *index, *parallel, *task);
        }
        Body::TaskCreate { task, child, .. } => {
            let _numbers = (*task, *child);
        }
        Body::Dependences { task, list } => {
            let _task = *task;
            list.read_numbers();
        }
        Body::TaskSchedule {
            turns,
            prior,
            next,
            claim,
            ..
        } => {
            read_turns(*turns);
            let _prior = *prior;
            read_id(*next);
            read_claimed(claim);
        }
        Body::SyncRegion { parallel, task, .. } => {
            let _task = *task;
            read_id(*parallel);
        }
        Body::Cancel { task, claim, .. } => {
            let _number = *task;
            read_claimed(claim);
        }
    }
}

/// Ensures that each turn, if there are some, is within the range of its type.
fn read_turns(turns: Option<Turns>)
    ensures { IfSome turns TurnsInRange }
{
    if let Some(told) = turns {
        let _numbers = (told.prior, told.next);
    }
}

/// Ensures that each number of the claim, if there is one, is within the range of its type.
fn read_claimed(claim: &Option<BoxedClaim>)
    ensures { IfSome claim.now ClaimInRange }
{
    if let Some(claim) = claim {
        read_claim(claim.get());
    }
}

/// Ensures that each number of the claim is within the range of its type.
fn read_claim(claim: &Claim)
    ensures { ClaimInRange claim.now }
{
    let _kept = claim.kept;
    let _root = claim.root;
    claim.path.read_numbers();
}

/// Ensures that an id, if there is one, is a number of 64 bits.
fn read_id(found: Option<u64>)
    ensures { IfSome found (λ id. id < 2 ^ 64) }
{
    if let Some(id) = found {
        let _id = id;
    }
}
