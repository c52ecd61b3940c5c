//! The records of one thread.
ghost use Rattle.std.specs.Prelude.{◌≡◌, ◌≤◌, ◌<◌, ◌+◌, ◌^◌, ◌++◌, ◌∷◌, [], None, true, length, nat_le, OnOk, OnErr, IfErr, IsOk, IsOkUnless};
ghost use Rattle.ompt_events.specs.Limits.{max_records};
ghost use Rattle.ompt_events.specs.Records.{begun_root, forked};
ghost use Rattle.ompt_events.specs.Traces.{IsSoundIn};
ghost use Rattle.callbacks.specs.Standing.{standing_of, allows};
ghost use Rattle.callbacks.specs.Logs.{IsSameLog, AreRecorded, AreOfKind, known_from};
ghost use Rattle.callbacks.specs.declared.fault.CallFault.TheVariants.{Memory};

use crate::Buffer;
use crate::fault::CallFault;
use crate::standing::Standing;
use crate::thread_state::ThreadState;
use ompt_events::{Body, MAX_RECORDS, Record, finish};
use std::alloc::Global;
use std::marker::Model;

/// The records of one thread, the state of the thread after them, and the ledger length that it knew last.
/// Room for a record is made before anything else happens, so that adding the record cannot fail, unless it
/// begins a root or a region.
#[derive(Drop)]
pub(crate) struct Log {
    buffer: Buffer,
    state: ThreadState,
    known: u32,
}

impl Model for Log {
    ghost use Rattle.callbacks.specs.Logs.{LogView, AreRecorded, IsLeft};

    ghost Value = { LogView };

    ghost view = { λ log. record {
      thread = log.buffer.thread;
      nests = log.state.nests;
      records = log.buffer.records;
      known = log.known;
      spare = log.buffer.spare;
    } };

    ghost invariant = { λ log. AreRecorded log.buffer.thread log.buffer.records log.known
        × IsLeft log.buffer.records log.state };
}

impl Log {
    /// Returns a log without records, of a trace where regions may lie inside others or not. Takes no memory.
    pub(crate) fn new(alloc: Global, thread: u8, nests: bool) -> Log
        ensures thread { result.thread ≡ thread }
        ensures nests { result.nests ≡ nests }
        ensures records { result.records ≡ [] }
        ensures known { result.known ≡ 0 }
    {
        Log {
            buffer: Buffer::new(alloc, thread),
            state: ThreadState::new(alloc, nests),
            known: 0,
        }
    }

    /// Returns the number of the thread.
    pub(crate) fn thread(&self) -> u8
        ensures { result ≡ self.now.thread }
    {
        self.buffer.thread()
    }

    /// Returns whether regions may lie inside others.
    pub(crate) fn nests(&self) -> bool
        ensures { result ≡ self.now.nests }
    {
        self.state.nests()
    }

    /// Returns the state of the thread after its records.
    pub(crate) fn standing(&self) -> &Standing
        ensures { result.now ≡ standing_of self.now.records }
    {
        self.state.standing()
    }

    /// Returns whether a record with this body may come next, as far as the thread's records show.
    pub(crate) fn allows(&self, body: &Body) -> bool
        ensures { result ≡ allows self.now.nests self.now.records body.now }
    {
        self.state.allows(body)
    }

    /// Returns the ledger length that the thread knew last.
    pub(crate) fn known(&self) -> u32
        ensures { result ≡ self.now.known }
    {
        self.known
    }

    /// Returns whether it has as many records as a trace may have.
    pub(crate) fn is_full(&self) -> bool
        ensures { result ≡ nat_le max_records (length self.now.records) }
    {
        self.buffer.len() >= MAX_RECORDS
    }

    /// Makes room for one more record. Fails only when out of memory.
    pub(crate) fn reserve(&mut self) -> Result<(), CallFault>
        requires { length self.old.records < max_records }
        ensures room { OnOk result (1 ≤ self.new.spare) }
        ensures kept { IsSameLog self.old self.new }
        ensures memory { IsOkUnless result Memory }
    {
        match self.buffer.reserve_one() {
            Ok(()) => Ok(()),
            Err(_) => Err(CallFault::Memory),
        }
    }

    /// Adds a record that names this ledger length. Requires room for it, and that it begins neither a root nor
    /// a region.
    pub(crate) fn push(&mut self, seen: u32, body: Body)
        requires room { 1 ≤ self.old.spare }
        requires few { length self.old.records < max_records }
        requires rises { self.old.known ≤ seen }
        requires small { known_from seen body < 2 ^ 32 }
        requires allowed { allows self.old.nests self.old.records body ≡ true }
        requires sound { IsSoundIn 2 body }
        requires no_root { begun_root body ≡ None }
        requires no_region { forked body ≡ None }
        ensures thread { self.new.thread ≡ self.old.thread }
        ensures nests { self.new.nests ≡ self.old.nests }
        ensures records { self.new.records ≡ self.old.records ++ record {
          thread = self.old.thread;
          nests = self.old.nests;
          seq = length self.old.records;
          seen = seen;
          body = body;
        } ∷ [] }
        ensures known { self.new.known ≡ known_from seen body }
    {
        match self.try_push(seen, body) {
            Ok(()) => {}
            Err(_) => unreachable!(),
        }
    }

    /// Adds a record that names this ledger length. Requires room for it. Fails only when out of memory, and
    /// only if the record begins a root or a region; then it returns the body.
    pub(crate) fn try_push(&mut self, seen: u32, body: Body) -> Result<(), Body>
        requires room { 1 ≤ self.old.spare }
        requires few { length self.old.records < max_records }
        requires rises { self.old.known ≤ seen }
        requires small { known_from seen body < 2 ^ 32 }
        requires allowed { allows self.old.nests self.old.records body ≡ true }
        requires sound { IsSoundIn 2 body }
        ensures thread { self.new.thread ≡ self.old.thread }
        ensures nests { self.new.nests ≡ self.old.nests }
        ensures records { OnOk result (self.new.records ≡ self.old.records ++ record {
          thread = self.old.thread;
          nests = self.old.nests;
          seq = length self.old.records;
          seen = seen;
          body = body;
        } ∷ []) }
        ensures known { OnOk result (self.new.known ≡ known_from seen body) }
        ensures unchanged { OnErr result (IsSameLog self.old self.new) }
        ensures returned { IfErr result (λ back. back ≡ body) }
        ensures infallible { begun_root body ≡ None → forked body ≡ None → IsOk result }
    {
        let Ok(()) = self.state.advance(&body) else {
            return Err(body);
        };
        let event = Record {
            thread: self.buffer.thread(),
            nests: self.state.nests(),
            seq: self.buffer.len() as u32,
            seen,
            body,
        };
        event.read_numbers();
        self.known = known_from(&event);
        self.buffer.push_reserved(event);
        Ok(())
    }

    /// Sets the ledger length that the thread knows. Requires that it is no less than before.
    pub(crate) fn learn(&mut self, known: u32)
        requires { self.old.known ≤ known }
        ensures thread { self.new.thread ≡ self.old.thread }
        ensures nests { self.new.nests ≡ self.old.nests }
        ensures records { self.new.records ≡ self.old.records }
        ensures known { self.new.known ≡ known }
    {
        self.known = known;
    }

    /// Returns the records, and ends the log.
    pub(crate) fn into_buffer(self) -> Buffer
        ensures thread { result.thread ≡ self.thread }
        ensures records { result.records ≡ self.records }
        ensures of_kind { AreOfKind self.nests self.records }
        ensures recorded { AreRecorded self.thread self.records self.known }
    {
        self.buffer
    }
}

/// Returns the ledger length that is known after a record: one more than it names if it makes an entry
/// itself.
fn known_from(event: &Record) -> u32
    requires { known_from event.now.seen event.now.body < 2 ^ 32 }
    ensures { result ≡ known_from event.now.seen event.now.body }
{
    match finish(event) {
        Some(_) => event.seen + 1,
        None => event.seen,
    }
}
