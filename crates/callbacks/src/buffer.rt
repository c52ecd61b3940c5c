//! A thread's records while they are recorded.
ghost use Rattle.std.specs.Prelude.{◌≡◌, ◌<◌, ◌≤◌, ◌+◌, ◌++◌, ◌∷◌, [], length, IfErr, IsErr, OnOk};
ghost use Rattle.ompt_events.specs.Limits.{max_records};
ghost use Rattle.callbacks.specs.Buffers.{SameRecords, refusal_of};

use crate::buffer_fault::BufferFault;
use ompt_events::{MAX_RECORDS, Record};
use std::alloc::Global;
use std::marker::Model;

/// The records that one thread has made so far, in order. Room for a record is reserved before the record is
/// made, so that pushing it cannot fail.
#[derive(Drop)]
pub struct Buffer {
    thread: u8,
    records: Vec<Record>,
}

impl Model for Buffer {
    ghost use Rattle.std.specs.Prelude.{vec_len, ◌-◌};
    ghost use Rattle.std.specs.Vec.{vec_capacity};
    ghost use Rattle.callbacks.specs.Buffers.{BufferView};

    ghost Value = { BufferView };

    ghost view = { λ buffer. record {
      thread = buffer.thread;
      records = buffer.records.items;
      spare = vec_capacity buffer.records - vec_len buffer.records;
    } };
}

impl Buffer {
    /// Returns an empty buffer of the thread with this number. Takes no memory.
    pub fn new(alloc: Global, thread: u8) -> Buffer
        ensures thread { result.thread ≡ thread }
        ensures records { result.records ≡ [] }
    {
        Buffer {
            thread,
            records: Vec::new(alloc),
        }
    }

    /// Reserves room for one more record. Fails with `Full` at 2^22 records, and else only with `Memory`.
    /// The records stay as they are in each case.
    pub fn reserve_one(&mut self) -> Result<(), BufferFault>
        ensures room { OnOk result (1 ≤ self.new.spare) }
        ensures kept { SameRecords self.old self.new }
        ensures full { max_records ≤ length self.old.records → IsErr result }
        ensures fault { IfErr result (λ fault. fault ≡ refusal_of self.old) }
    {
        if self.records.len() >= MAX_RECORDS {
            return Err(BufferFault::Full);
        }
        self.records.reserve(1).map_err(|_| BufferFault::Memory)
    }

    /// Adds the record at the end. Requires room that was reserved for it. Takes no memory.
    pub fn push_reserved(&mut self, event: Record)
        requires { 1 ≤ self.old.spare }
        ensures thread { self.new.thread ≡ self.old.thread }
        ensures records { self.new.records ≡ self.old.records ++ event ∷ [] }
        ensures spare { self.new.spare + 1 ≡ self.old.spare }
    {
        self.records.push_reserved(event);
    }

    /// Returns the number of the thread.
    pub fn thread(&self) -> u8
        ensures { result ≡ self.now.thread }
    {
        self.thread
    }

    /// Returns the number of records.
    pub fn len(&self) -> usize
        ensures { result ≡ length self.now.records }
    {
        self.records.len()
    }

    /// Returns the records in the order in which they were pushed.
    pub fn records(&self) -> &[Record]
        ensures { result.now ≡ self.now.records }
    {
        self.records.as_slice()
    }

    /// Returns the records, and drops the buffer around them. Takes no memory.
    pub fn into_records(self) -> Vec<Record>
        ensures { result.items ≡ self.records }
    {
        self.records
    }
}
