//! The trace of closed recorders, of version 2 or 3.
ghost use Rattle.std.specs.Prelude.{◌≡◌, ◌≤◌, ◌<◌, ◌+◌, ◌++◌, [], Some, true, false, length, IsTrue};
ghost use Rattle.std.specs.Prelude.{◌↔◌, MatchOption, IfOk, IfErr, OnOk};
ghost use Rattle.std.specs.List.Sorted.{IsNonDecreasingBy};
ghost use Rattle.std.specs.Vec.{vec_capacity};
ghost use Rattle.ompt_events.specs.declared.cause.Cause.TheVariants.{SeqGap, CreatedTwice, NestedParallel};
ghost use Rattle.ompt_events.specs.declared.cause.Cause.TheVariants.{EntryTwice, LengthAhead, LengthBack};
ghost use Rattle.ompt_events.specs.declared.cause.Cause.TheVariants.{RegionNesting, TargetTask};
ghost use Rattle.ompt_events.specs.Causes.{IsFreeOf, entries_in};
ghost use Rattle.callbacks.specs.Logs.{AreOfKind};
ghost use Rattle.callbacks.specs.declared.fault.CallFault.TheVariants.{Memory};
ghost use Rattle.callbacks.specs.Closed.{AreClosed};
ghost use Rattle.callbacks.specs.Gathered.{gathered, HaveOwnThreads, ArePaired, BelongTogether, IsWithinLimits};
ghost use Rattle.callbacks.specs.Gathered.{IsGatherFault, AreHandedOver, version_of, count_of};

use crate::closed::Closed;
use crate::{Buffer, CallFault};
use ompt_events::{MAX_RECORDS, MAX_TASKS, Record, Trace, finish};
use std::alloc::Global;

/// What is counted in the records of all threads.
#[derive(Clone, Copy)]
pub(crate) enum Counted {
    /// Records that make an entry of the ledger.
    Entries,
    Records,
    /// Tasks that are made.
    Tasks,
}

impl Counted {
    /// Returns how many of them the records have.
    fn count(self, records: &[Record]) -> usize
        ensures { result ≡ count_of self records.now }
    {
        match self {
            Counted::Entries => records
                .iter()
                .filter(|event| finish(event).is_some())
                .count(),
            Counted::Records => records.len(),
            Counted::Tasks => records
                .iter()
                .filter(|event| event.body.made().is_some())
                .count(),
        }
    }

    /// Returns how many more there may be, up to a limit, beside those in the buffers. Returns none if
    /// these are too many.
    fn left(self, buffers: &[Buffer], limit: usize) -> Option<usize>
        ensures { MatchOption result (limit < count_of self (gathered buffers.now))
            (λ left. left + count_of self (gathered buffers.now) ≡ limit) }
    {
        let mut left = limit;
        'buffers: for index in 0..buffers.len() {
            let count = self.count(buffers[index].records());
            if count > left {
                return None;
            }
            left -= count;
        }
        Some(left)
    }
}

/// Returns whether no two buffers have the same thread number. Requires that the buffers are sorted by
/// thread number.
fn are_apart(buffers: &[Buffer]) -> bool
    requires { IsNonDecreasingBy (λ b. b.thread) buffers.now }
    ensures { IsTrue result ↔ HaveOwnThreads buffers.now }
{
    'buffers: for index in 1..buffers.len() {
        if buffers[index - 1].thread() == buffers[index].thread() {
            return false;
        }
    }
    true
}

/// Returns whether regions may lie inside others in all these records, or in none of them.
fn are_of_kind(records: &[Record], nests: bool) -> bool
    ensures { IsTrue result ↔ AreOfKind nests records.now }
{
    records.iter().all(|event| event.nests == nests)
}

/// Returns the same of the records of all buffers.
fn are_all_of_kind(buffers: &[Buffer], nests: bool) -> bool
    ensures { IsTrue result ↔ AreOfKind nests (gathered buffers.now) }
{
    'buffers: for index in 0..buffers.len() {
        if !are_of_kind(buffers[index].records(), nests) {
            return false;
        }
    }
    true
}

impl Closed {
    /// Returns whether the records are of the trace's version, no two buffers have the same thread number, and
    /// the finishing records and the ledger's entries pair off one to one.
    fn belong_together(&self, nests: bool) -> bool
        ensures { IsTrue result ↔ BelongTogether nests self.now }
    {
        let buffers = self.buffers();
        if !are_all_of_kind(buffers, nests) {
            return false;
        }
        if !are_apart(buffers) {
            return false;
        }
        self.are_as_many()
    }

    /// Returns whether the records make as many entries as the ledger has.
    fn are_as_many(&self) -> bool
        ensures { IsTrue result ↔ (entries_in (gathered self.now.buffers) ≡ length self.now.entries) }
    {
        let entries = self.ledger().len() as usize;
        match Counted::Entries.left(self.buffers(), entries) {
            Some(left) => left == 0,
            None => false,
        }
    }

    /// Returns whether there are no more records and tasks than a trace may have.
    fn is_within(&self) -> bool
        ensures { IsTrue result ↔ IsWithinLimits (gathered self.now.buffers) }
    {
        let buffers = self.buffers();
        Counted::Records.left(buffers, MAX_RECORDS).is_some()
            && Counted::Tasks.left(buffers, MAX_TASKS).is_some()
    }
}

/// Returns the trace of closed recorders, of version 2: the records of each thread are those of its
/// recorder, one thread after another by thread number. Fails with `WrongState` if a recorder was made for
/// version 3 and has records, if two recorders have the same thread number, or if an entry of the ledger was
/// made by none of these records, for example because a recorder of the ledger is missing. Else fails with
/// `Full` if there are more than 2^22 records or 2^20 tasks, or with `Memory`. When it fails, it returns the
/// closed recorders as they were.
///
/// A gathered trace has none of the causes `SeqGap`, `EntryTwice`, `LengthAhead` and `TargetTask`, and no
/// `NestedParallel` if no task is made twice. It has no `LengthBack` if each task that was created or
/// suspended on another thread was handed over with a note that was met.
pub fn gather(alloc: Global, closed: Closed) -> Result<Trace, (Closed, CallFault)>
    ensures trace { IfOk result (λ trace. trace ≡ record { version = 2; records = gathered closed.buffers }) }
    ensures apart { OnOk result (HaveOwnThreads closed.buffers) }
    ensures paired { OnOk result (ArePaired closed) }
    ensures numbered { IfOk result (λ trace. IsFreeOf trace.records SeqGap) }
    ensures outside { IfOk result (λ trace.
        IsFreeOf trace.records CreatedTwice → IsFreeOf trace.records NestedParallel) }
    ensures once { IfOk result (λ trace. IsFreeOf trace.records EntryTwice) }
    ensures not_ahead { IfOk result (λ trace. IsFreeOf trace.records LengthAhead) }
    ensures on_host { IfOk result (λ trace. IsFreeOf trace.records TargetTask) }
    ensures rising { IfOk result (λ trace. AreHandedOver trace.records → IsFreeOf trace.records LengthBack) }
    ensures returned { IfErr result (λ refused. refused.0 ≡ closed) }
    ensures fault { IfErr result (λ refused. IsGatherFault false closed refused.1) }
{
    gathered_as(alloc, false, closed)
}

/// Returns the trace of closed recorders, of version 3, as [`gather`] returns one of version 2. Fails with
/// `WrongState` also if a recorder was not made for version 3 and has records.
///
/// The trace has none of the causes `SeqGap`, `RegionNesting`, `EntryTwice` and `LengthAhead`, and no
/// `LengthBack` as that of version 2.
pub fn gather_version_3(alloc: Global, closed: Closed) -> Result<Trace, (Closed, CallFault)>
    ensures trace { IfOk result (λ trace. trace ≡ record { version = 3; records = gathered closed.buffers }) }
    ensures apart { OnOk result (HaveOwnThreads closed.buffers) }
    ensures paired { OnOk result (ArePaired closed) }
    ensures numbered { IfOk result (λ trace. IsFreeOf trace.records SeqGap) }
    ensures nested { IfOk result (λ trace. IsFreeOf trace.records RegionNesting) }
    ensures once { IfOk result (λ trace. IsFreeOf trace.records EntryTwice) }
    ensures not_ahead { IfOk result (λ trace. IsFreeOf trace.records LengthAhead) }
    ensures rising { IfOk result (λ trace. AreHandedOver trace.records → IsFreeOf trace.records LengthBack) }
    ensures returned { IfErr result (λ refused. refused.0 ≡ closed) }
    ensures fault { IfErr result (λ refused. IsGatherFault true closed refused.1) }
{
    gathered_as(alloc, true, closed)
}

/// Returns the trace of closed recorders, in which regions may lie inside others or not.
fn gathered_as(alloc: Global, nests: bool, closed: Closed) -> Result<Trace, (Closed, CallFault)>
    ensures trace { IfOk result (λ trace. trace
        ≡ record { version = version_of nests; records = gathered closed.buffers }) }
    ensures are_closed { OnOk result (AreClosed closed) }
    ensures together { OnOk result (BelongTogether nests closed) }
    ensures returned { IfErr result (λ refused. refused.0 ≡ closed) }
    ensures fault { IfErr result (λ refused. IsGatherFault nests closed refused.1) }
{
    match closed.test(nests) {
        Ok(()) => joined(alloc, nests, closed),
        Err(fault) => Err((closed, fault)),
    }
}

/// Returns the trace of closed recorders. Fails only when out of memory. Requires that their records are of its
/// version, and within the limits of a trace.
fn joined(alloc: Global, nests: bool, closed: Closed) -> Result<Trace, (Closed, CallFault)>
    requires of_kind { AreOfKind nests (gathered closed.buffers) }
    requires within { IsWithinLimits (gathered closed.buffers) }
    ensures trace { IfOk result (λ trace. trace
        ≡ record { version = version_of nests; records = gathered closed.buffers }) }
    ensures are_closed { OnOk result (AreClosed closed) }
    ensures returned { IfErr result (λ refused. refused.0 ≡ closed) }
    ensures memory { IfErr result (λ refused. refused.1 ≡ Memory) }
{
    let Ok(records) = Vec::with_capacity(alloc, closed.record_count()) else {
        return Err((closed, CallFault::Memory));
    };
    let records = concatenated(closed.into_buffers(), records);
    Ok(Trace::from_parts(version_of(nests), records))
}

/// Returns the version of a trace in which regions may lie inside others or not.
fn version_of(nests: bool) -> u32
    ensures { result ≡ version_of nests }
{
    if nests { 3 } else { 2 }
}

impl Closed {
    /// Fails if there is no trace of these recorders, for a reason other than memory.
    fn test(&self, nests: bool) -> Result<(), CallFault>
        ensures together { OnOk result (BelongTogether nests self.now) }
        ensures within { OnOk result (IsWithinLimits (gathered self.now.buffers)) }
        ensures fault { IfErr result (IsGatherFault nests self.now) }
    {
        if !self.belong_together(nests) {
            return Err(CallFault::WrongState);
        }
        if !self.is_within() {
            return Err(CallFault::Full);
        }
        Ok(())
    }

    /// Returns how many records there are.
    fn record_count(&self) -> usize
        requires { IsWithinLimits (gathered self.now.buffers) }
        ensures { result ≡ length (gathered self.now.buffers) }
    {
        match Counted::Records.left(self.buffers(), MAX_RECORDS) {
            Some(left) => MAX_RECORDS - left,
            None => unreachable!(),
        }
    }
}

/// Returns the records of all buffers, one thread after another. Requires room for them.
fn concatenated(buffers: Vec<Buffer>, records: Vec<Record>) -> Vec<Record>
    requires empty { records.items ≡ [] }
    requires fits { length (gathered buffers.items) ≤ vec_capacity records }
    ensures { result.items ≡ gathered buffers.items }
{
    let (mut buffers, mut records) = (buffers, records);
    buffers.reverse();
    'buffers: while let Some(buffer) = buffers.pop() {
        append(&mut records, buffer.into_records());
    }
    records
}

/// Appends more records to these. Requires room for them.
fn append(records: &mut Vec<Record>, more: Vec<Record>)
    requires { length records.old.items + length more.items ≤ vec_capacity records.old }
    ensures items { records.new.items ≡ records.old.items ++ more.items }
    ensures capacity { vec_capacity records.new ≡ vec_capacity records.old }
{
    let mut more = more;
    more.reverse();
    'records: while let Some(event) = more.pop() {
        records.push_reserved(event);
    }
}
