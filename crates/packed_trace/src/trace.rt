//! A trace in columns.
ghost use Rattle.std.specs.Prelude.{ℕ, ◌≡◌, ◌<◌, ◌++◌, ◌∷◌, [], Bool, List, Option, All, Some, None, IfOk, OnOk, is_some, length, map, option_copied, option_map, slice_get, take, if◌then◌else◌};
ghost use Rattle.ompt_events.specs.declared.records.Record.{Record as SpecRecord};
ghost use Rattle.ompt_events.specs.declared.records.Body.{Body};
ghost use Rattle.ompt_events.specs.Flags as flag;
ghost use Rattle.ompt_events.specs.Records.{begun_root, begun_turn, claim, creation, ended_turn, joined, made, region_named, running, suspended_turn, told_turns};
ghost use Rattle.ompt_events.specs.Places.{at as says_at, seen_at, thread_at};
ghost use Rattle.ompt_events.specs.Traces.{IsKnown, IsSound, IsTraceOf, TraceView};
ghost use Rattle.packed_trace.specs.Named.{object, subject};
ghost use Rattle.packed_trace.specs.Packed.{act_of, first_id, forked_region, listed_deps, made_with, packed, second_id};
ghost use Rattle.packed_trace.specs.Rows.{IsRowOf};

use crate::act::{Act, PackedEvent};
use crate::columns::Columns;
use crate::copies::copy_of;
use crate::listed::Listed;
use crate::row::Row;
use ompt_events::{Claim, Dep, Membership, Record, Trace, Turns};
use std::alloc::{AllocError, Global};
use std::marker::Model;

/// The records of a trace in columns. Contracts see the version and the records, as of a [`Trace`]. Calls take
/// the place of a record, from 0.
#[derive(Debug, Drop)]
pub struct PackedTrace {
    version: u32,
    columns: Columns,
    listed: Listed,
}

impl Model for PackedTrace {
    ghost use Rattle.ompt_events.specs.Traces.{TraceView};
    ghost use Rattle.packed_trace.specs.Columns.{IsPacked};

    ghost Value = { TraceView };

    ghost view = { λ trace. record { version = trace.version; records = trace.listed.records } };

    ghost invariant = { λ trace. IsPacked trace.version trace.listed.records trace.columns };
}

impl PackedTrace {
    /// Returns a trace of version 1 without records. Takes no memory.
    pub fn new(alloc: Global) -> PackedTrace
        ensures { result ≡ record { version = 1; records = [] } }
    {
        PackedTrace {
            version: 1,
            columns: Columns::new(alloc),
            listed: Listed::none(),
        }
    }

    /// Removes all records, and begins a trace of this version.
    pub fn begin(&mut self, version: u32)
        requires { IsKnown version }
        ensures { self.new ≡ record { version = version; records = [] } }
    {
        self.columns.clear();
        self.listed = Listed::none();
        self.version = version;
    }

    /// Adds a record behind the others. Requires that this is a trace too. Fails only when out of memory; then
    /// it is not defined which records are left.
    pub fn push(&mut self, event: Record) -> Result<(), AllocError>
        requires { IsTraceOf self.old.version (self.old.records ++ event ∷ []) }
        ensures { OnOk result (self.new
            ≡ record { version = self.old.version; records = self.old.records ++ event ∷ [] }) }
    {
        let listed = Listed::with(&self.listed, &event);
        if self.columns.add(event).is_err() {
            self.columns.clear();
            self.listed = Listed::none();
            return Err(AllocError);
        }
        self.listed = listed;
        Ok(())
    }

    /// Adds a copy of the record at a place of another trace behind the others. Requires that this is a trace
    /// too. Fails only when out of memory; then it is not defined which records are left.
    pub fn push_from(
        &mut self,
        alloc: Global,
        other: &PackedTrace,
        at: usize,
    ) -> Result<(), AllocError>
        requires within { at < length other.now.records }
        requires trace { (r : SpecRecord) → slice_get other.now.records at ≡ Some r
            → IsTraceOf self.old.version (self.old.records ++ r ∷ []) }
        ensures { (r : SpecRecord) → slice_get other.now.records at ≡ Some r → OnOk result (self.new
            ≡ record { version = self.old.version; records = self.old.records ++ r ∷ [] }) }
    {
        let listed = Listed::with_one_of(&self.listed, &other.listed, &at);
        match self.columns.add_from(alloc, &other.columns, at) {
            Ok(()) => {
                self.listed = listed;
                Ok(())
            }
            Err(fault) => {
                self.columns.clear();
                self.listed = Listed::none();
                Err(fault)
            }
        }
    }

    /// Returns the trace in columns. Fails only when out of memory.
    pub fn of(alloc: Global, trace: &Trace) -> Result<PackedTrace, AllocError>
        ensures { IfOk result (λ packed. packed ≡ trace.now) }
    {
        let records = trace.records();
        let mut packed = PackedTrace::new(alloc);
        packed.begin(trace.version());
        for at in 0..records.len() {
            packed.push(copy_of(alloc, &records[at])?)?;
        }
        Ok(packed)
    }

    /// Returns the version of the trace.
    pub fn version(&self) -> u32
        ensures value { result ≡ self.now.version }
        ensures is_trace { IsTraceOf self.now.version self.now.records }
    {
        self.version
    }

    /// Returns how many records there are.
    pub fn len(&self) -> usize
        ensures value { result ≡ length self.now.records }
        ensures is_trace { IsTraceOf self.now.version self.now.records }
    {
        self.columns.events.len()
    }

    /// Returns whether parallel regions may lie inside others, which is so in all records or in none.
    pub fn nests(&self) -> bool
        ensures { All (λ r. r.nests ≡ result) self.now.records }
    {
        self.version == 3
    }

    /// Returns the packed event of the record at a place.
    pub fn event(&self, at: usize) -> PackedEvent
        requires { at < length self.now.records }
        ensures value { option_map packed (slice_get self.now.records at) ≡ Some result }
        ensures sound { (body : Body) → says_at Some self.now.records at ≡ Some body → IsSound body }
    {
        self.columns.events[at]
    }

    /// Returns what the record at a place says, without what it names.
    pub fn act(&self, at: usize) -> Act
        requires { at < length self.now.records }
        ensures act { (body : Body) → says_at Some self.now.records at ≡ Some body → act_of body ≡ result }
        ensures sound { (body : Body) → says_at Some self.now.records at ≡ Some body → IsSound body }
    {
        self.event(at).act
    }

    /// Returns the thread that made the record.
    pub fn thread(&self, at: usize) -> u8
        requires { at < length self.now.records }
        ensures { thread_at self.now.records at ≡ Some result }
    {
        self.event(at).thread
    }

    /// Returns the ledger length that the record names.
    pub fn seen(&self, at: usize) -> u32
        requires { at < length self.now.records }
        ensures { result ≡ seen_at self.now.records at }
    {
        self.event(at).seen
    }

    /// Returns the number that the record has in its thread.
    pub fn seq(&self, at: usize) -> u32
        requires { at < length self.now.records }
        ensures { option_map (λ r. r.seq) (slice_get self.now.records at) ≡ Some result }
    {
        self.columns.seqs[at]
    }
}

// The tasks and regions that a record names.
impl PackedTrace {
    /// Returns the task that the record is of: the root that begins or ends, the parent that creates, the
    /// prior task of a schedule, the task that is discarded, or the one that does what the record says.
    pub fn subject(&self, at: usize) -> Option<u64>
        requires { at < length self.now.records }
        ensures { result ≡ says_at subject self.now.records at }
    {
        if self.act(at).is_of_task() {
            Some(self.first_id(at))
        } else {
            None
        }
    }

    /// Returns the second task that the record names: the child that is created, or the next task of a
    /// schedule.
    pub fn object(&self, at: usize) -> Option<u64>
        requires { at < length self.now.records }
        ensures { result ≡ says_at object self.now.records at }
    {
        if self.act(at).names_second() {
            Some(self.second_id(at))
        } else {
            None
        }
    }

    /// Returns the task that the record makes: one that is created, or an initial or implicit one that begins.
    pub fn made(&self, at: usize) -> Option<u64>
        requires { at < length self.now.records }
        ensures { result ≡ says_at made self.now.records at }
    {
        let act = self.act(at);
        if act.creates() {
            return Some(self.second_id(at));
        }
        self.first_if(act.begins_root(), at)
    }

    /// Returns the task that creates, and the explicit task that it creates.
    pub fn creation(&self, at: usize) -> Option<(u64, u64)>
        requires { at < length self.now.records }
        ensures { result ≡ says_at creation self.now.records at }
    {
        if self.act(at).creates() {
            Some((self.first_id(at), self.second_id(at)))
        } else {
            None
        }
    }

    /// Returns the initial or implicit task that begins.
    pub fn begun_root(&self, at: usize) -> Option<u64>
        requires { at < length self.now.records }
        ensures { result ≡ says_at begun_root self.now.records at }
    {
        self.first_if(self.act(at).begins_root(), at)
    }

    /// Returns the task that must be running on the record's thread.
    pub fn running(&self, at: usize) -> Option<u64>
        requires { at < length self.now.records }
        ensures { result ≡ says_at running self.now.records at }
    {
        self.first_if(self.act(at).runs(), at)
    }

    /// Returns the parallel region that begins.
    pub fn forked_region(&self, at: usize) -> Option<u64>
        requires { at < length self.now.records }
        ensures { result ≡ says_at forked_region self.now.records at }
    {
        self.second_if(self.act(at).forks(), at)
    }

    /// Returns the parallel region that ends, or whose team a task joins.
    pub fn region_named(&self, at: usize) -> Option<u64>
        requires { at < length self.now.records }
        ensures { result ≡ says_at region_named self.now.records at }
    {
        self.second_if(self.act(at).names_region(), at)
    }

    /// Returns the task that the record is of, if the record names it in this way.
    fn first_if(&self, named: bool, at: usize) -> Option<u64>
        requires { at < length self.now.records }
        ensures { (says : Body → Option ℕ) → ((body : Body) → says_at Some self.now.records at ≡ Some body
            → says body ≡ (if named then subject body else None)) → result ≡ says_at says self.now.records at }
    {
        if named { self.subject(at) } else { None }
    }

    /// Returns the second id of the record, if it names one in this way.
    fn second_if(&self, named: bool, at: usize) -> Option<u64>
        requires { at < length self.now.records }
        ensures { (says : Body → Option ℕ) → ((body : Body) → says_at Some self.now.records at ≡ Some body
            → says body ≡ (if named then Some (second_id body) else None))
            → result ≡ says_at says self.now.records at }
    {
        if named {
            Some(self.second_id(at))
        } else {
            None
        }
    }

    /// Returns the first id of the record, and 0 if it has none.
    fn first_id(&self, at: usize) -> u64
        requires { at < length self.now.records }
        ensures { (body : Body) → says_at Some self.now.records at ≡ Some body → first_id body ≡ result }
    {
        self.columns.ids.at(at).first
    }

    /// Returns the second id of the record, and 0 if it has none.
    fn second_id(&self, at: usize) -> u64
        requires { at < length self.now.records }
        ensures { (body : Body) → says_at Some self.now.records at ≡ Some body → second_id body ≡ result }
    {
        self.columns.ids.at(at).second
    }
}

// The turns, flags, team, claim and dependences that a record tells.
impl PackedTrace {
    /// Returns whether the record has turns.
    pub fn tells_turns(&self, at: usize) -> bool
        requires { at < length self.now.records }
        ensures { result ≡ is_some (says_at told_turns self.now.records at) }
    {
        self.act(at).tells_turns()
    }

    /// Returns the turns that the record has: the one of the prior task that ends, and the one of the next
    /// task that begins.
    pub fn told_turns(&self, at: usize) -> Option<Turns>
        requires { at < length self.now.records }
        ensures { result ≡ says_at told_turns self.now.records at }
    {
        self.row(at).told_turns()
    }

    /// Returns the task that runs next, and the turn that it begins: turn 0 if the record has no turns.
    pub fn begun_turn(&self, at: usize) -> Option<(u64, u32)>
        requires { at < length self.now.records }
        ensures { result ≡ says_at begun_turn self.now.records at }
    {
        self.row(at).begun_turn()
    }

    /// Returns the task that is suspended, and the turn that it ends: turn 0 if the record has no turns.
    pub fn suspended_turn(&self, at: usize) -> Option<(u64, u32)>
        requires { at < length self.now.records }
        ensures { result ≡ says_at suspended_turn self.now.records at }
    {
        self.row(at).suspended_turn()
    }

    /// Returns the task that stops running, and the turn that it ends: turn 0 if the record has no turns.
    pub fn ended_turn(&self, at: usize) -> Option<(u64, u32)>
        requires { at < length self.now.records }
        ensures { result ≡ says_at ended_turn self.now.records at }
    {
        self.row(at).ended_turn()
    }

    /// Returns the member of a team that begins: an implicit task. An initial task is no member.
    pub fn joined(&self, at: usize) -> Option<Membership>
        requires { at < length self.now.records }
        ensures { result ≡ says_at joined self.now.records at }
    {
        self.row(at).joined()
    }

    /// Returns the claim of the record, if it has one. Takes log n steps in the claims.
    pub fn claim(&self, at: usize) -> Option<&Claim>
        requires { at < length self.now.records }
        ensures { option_copied result ≡ says_at claim self.now.records at }
    {
        self.claim_near(at, usize::MAX)
    }

    /// Returns what `claim` does. Looks first at the claim with this index among all claims: calls place after
    /// place take one step each if they count the claims.
    #[inline(always)]
    pub fn claim_near(&self, at: usize, near: usize) -> Option<&Claim>
        requires { at < length self.now.records }
        ensures { option_copied result ≡ says_at claim self.now.records at }
    {
        self.act(at).finishes()?;
        Some(self.columns.claims.find_near(at, near)?.get())
    }

    /// Returns the dependences that the record lists, if it lists some. Takes log n steps in such records.
    pub fn listed_deps(&self, at: usize) -> Option<&[Dep]>
        requires { at < length self.now.records }
        ensures { option_copied result ≡ says_at listed_deps self.now.records at }
    {
        Some(self.columns.lists.find(at)?.as_slice())
    }

    /// Returns what the columns have of the record.
    fn row(&self, at: usize) -> Row
        requires { at < length self.now.records }
        ensures { (body : Body) → says_at Some self.now.records at ≡ Some body → IsRowOf body result }
    {
        Row {
            act: self.act(at),
            ids: self.columns.ids.at(at),
            numbers: self.columns.numbers[at],
        }
    }
}
