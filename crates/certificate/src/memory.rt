//! A source and a sink in memory, which fail when they are made to.
ghost use Rattle.std.specs.Prelude.{◌≡◌, ◌+◌, ◌≤◌, ◌<◌, [], Some, IfOk, length, max, drop, vec_len, vec_capacity};
ghost use Rattle.std.specs.Io.{ReadsAtMost, WritesAtMost};
ghost use Rattle.std.specs.Io.KnownBytes.{ReadConsumes, WriteAppends};
ghost use Rattle.certificate.specs.Counts.{agains_after, breaks_after, stalls_after};
ghost use Rattle.certificate.specs.MemoryDevices.{read_answer, after_read, given_by, write_answer, after_write};

use crate::device::{DeviceFault, Sink, Source};
use std::alloc::{AllocError, Global};
use std::marker::Model;

/// A source over bytes in memory.
#[derive(Debug, Drop)]
pub struct MemSource {
    bytes: Vec<u8>,
    at: usize,
    per_read: usize,
    agains_first: u64,
    reads: u64,
    broken_read: Option<u64>,
    agains: u64,
    breaks: u64,
}

impl Model for MemSource {
    ghost use Rattle.std.specs.Prelude.{◌≤◌, ◌<◌, drop, vec_len};
    ghost use Rattle.certificate.specs.MemoryDevices.{SourceView};

    ghost Value = { SourceView };

    ghost view = { λ source. record {
      left = drop source.at source.bytes.items;
      per_read = source.per_read;
      agains_first = source.agains_first;
      reads = source.reads;
      broken_read = source.broken_read;
      agains = source.agains;
      breaks = source.breaks;
    } };

    ghost invariant = { λ source. (source.at ≤ vec_len source.bytes) × (0 < source.per_read) };
}

impl MemSource {
    /// Returns a source of these bytes that gives at most `per_read` of them a read, and at least one.
    /// Its first `agains_first` reads answer `Again`. The read with the number `broken_read`, counted from 0
    /// and including those, answers `Broken` instead.
    pub fn new(
        bytes: Vec<u8>,
        per_read: usize,
        agains_first: u64,
        broken_read: Option<u64>,
    ) -> MemSource
        ensures { result ≡ record {
          left = bytes.items;
          per_read = max per_read 1;
          agains_first = agains_first;
          reads = 0;
          broken_read = broken_read;
          agains = 0;
          breaks = 0;
        } }
    {
        MemSource {
            bytes,
            at: 0,
            per_read: per_read.max(1),
            agains_first,
            reads: 0,
            broken_read,
            agains: 0,
            breaks: 0,
        }
    }
}

impl Source for MemSource {
    ghost remaining = { λ source. Some source.left };

    ghost agains = { λ source. source.agains };

    ghost breaks = { λ source. source.breaks };

    fn read(&mut self, buffer: &mut [u8]) -> Result<usize, DeviceFault>
        ensures bound { ReadsAtMost result buffer.new }
        ensures bytes { ReadConsumes (Some self.old.left) (Some self.new.left) result buffer.new }
        ensures agains { self.new.agains ≡ agains_after result self.old.agains }
        ensures breaks { self.new.breaks ≡ breaks_after result self.old.breaks }
        ensures answer { result ≡ read_answer self.old (length buffer.old) }
        ensures after { self.new ≡ after_read self.old result (given_by result) }
    {
        let number = self.reads;
        self.reads = number.wrapping_add(1);
        if self.broken_read.is_some_and(|read| read == number) {
            self.breaks = self.breaks.wrapping_add(1);
            return Err(DeviceFault::Broken);
        }
        if number < self.agains_first {
            self.agains = self.agains.wrapping_add(1);
            return Err(DeviceFault::Again);
        }
        let rest = &self.bytes[self.at..];
        let count = self.per_read.min(buffer.len()).min(rest.len());
        buffer[..count].copy_from_slice(&rest[..count]);
        self.at += count;
        Ok(count)
    }
}

/// A sink that keeps the bytes in memory.
#[derive(Debug, Drop)]
pub struct MemSink {
    bytes: Vec<u8>,
    room: usize,
    writes: u64,
    broken_write: Option<u64>,
    idle_from: Option<u64>,
    stalls: u64,
    breaks: u64,
}

impl Model for MemSink {
    ghost use Rattle.std.specs.Prelude.{◌+◌, ◌≤◌, vec_len, vec_capacity};
    ghost use Rattle.certificate.specs.MemoryDevices.{SinkView};

    ghost Value = { SinkView };

    ghost view = { λ sink. record {
      taken = sink.bytes.items;
      room = sink.room;
      writes = sink.writes;
      broken_write = sink.broken_write;
      idle_from = sink.idle_from;
      stalls = sink.stalls;
      breaks = sink.breaks;
    } };

    ghost invariant = { λ sink. vec_len sink.bytes + sink.room ≤ vec_capacity sink.bytes };
}

impl MemSink {
    /// Returns a sink with room for this many bytes, which is allocated now; past it, a write answers
    /// `Broken`. The write with the number `broken_write`, counted from 0, answers `Broken` too, and each
    /// from `idle_from` on takes nothing.
    pub fn new(
        alloc: Global,
        room: usize,
        broken_write: Option<u64>,
        idle_from: Option<u64>,
    ) -> Result<MemSink, AllocError>
        ensures { IfOk result (λ sink. sink ≡ record {
          taken = [];
          room = room;
          writes = 0;
          broken_write = broken_write;
          idle_from = idle_from;
          stalls = 0;
          breaks = 0;
        }) }
    {
        Ok(MemSink {
            bytes: Vec::with_capacity(alloc, room)?,
            room,
            writes: 0,
            broken_write,
            idle_from,
            stalls: 0,
            breaks: 0,
        })
    }

    /// Returns the bytes that were taken so far.
    pub fn bytes(&self) -> &[u8]
        ensures { result.now ≡ self.now.taken }
    {
        self.bytes.as_slice()
    }
}

impl Sink for MemSink {
    ghost contents = { λ sink. Some sink.taken };

    ghost stalls = { λ sink. sink.stalls };

    ghost breaks = { λ sink. sink.breaks };

    fn write(&mut self, bytes: &[u8]) -> Result<usize, DeviceFault>
        ensures bound { WritesAtMost result bytes.now }
        ensures bytes { WriteAppends (Some self.old.taken) (Some self.new.taken) result bytes.now }
        ensures stalls { self.new.stalls ≡ stalls_after (length bytes.now) result self.old.stalls }
        ensures breaks { self.new.breaks ≡ breaks_after result self.old.breaks }
        ensures answer { result ≡ write_answer self.old (length bytes.now) }
        ensures after { self.new ≡ after_write self.old result bytes.now (given_by result) }
    {
        let number = self.writes;
        self.writes = number.wrapping_add(1);
        let broken = self.broken_write.is_some_and(|write| write == number);
        if broken || (self.room == 0 && !bytes.is_empty()) {
            self.breaks = self.breaks.wrapping_add(1);
            return Err(DeviceFault::Broken);
        }
        let idle = self.idle_from.is_some_and(|from| from <= number);
        let count = if idle { 0 } else { bytes.len().min(self.room) };
        if count == 0 && !bytes.is_empty() {
            self.stalls = self.stalls.wrapping_add(1);
        }
        self.bytes.extend_from_slice(&bytes[..count]).unwrap();
        self.room -= count;
        Ok(count)
    }
}
