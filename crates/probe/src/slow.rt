//! A source and a sink that give and take little at a time, and stall.
use certificate::{DeviceFault, Sink, Source};
use std::alloc::Global;

/// A source that gives one byte a read. Each read whose number is a multiple of `every`, counted from 0,
/// asks for another turn.
#[derive(Drop)]
pub struct SlowSource {
    bytes: Vec<u8>,
    at: usize,
    every: u64,
    reads: u64,
    agains: u64,
    breaks: u64,
}

impl SlowSource {
    /// Returns a source of these bytes.
    pub fn new(bytes: Vec<u8>, every: u64) -> SlowSource {
        SlowSource {
            bytes,
            at: 0,
            every,
            reads: 0,
            agains: 0,
            breaks: 0,
        }
    }
}

impl Source for SlowSource {
    ghost agains = { λ source. source.agains };

    ghost breaks = { λ source. source.breaks };

    fn read(&mut self, buffer: &mut [u8]) -> Result<usize, DeviceFault> {
        let number = self.reads;
        self.reads = number.wrapping_add(1);
        if is_multiple(number, self.every) {
            self.agains = self.agains.wrapping_add(1);
            return Err(DeviceFault::Again);
        }
        if self.at >= self.bytes.len() || buffer.is_empty() {
            return Ok(0);
        }
        buffer[0] = self.bytes[self.at];
        self.at += 1;
        Ok(1)
    }
}

/// Returns whether this is a multiple of that.
fn is_multiple(number: u64, every: u64) -> bool {
    every > 0 && number % every == 0
}

/// When a sink stalls or breaks, by the numbers of its writes, counted from 0.
#[derive(Clone, Copy)]
pub enum Stall {
    /// The write with this number breaks.
    Breaks(u64),
    /// The first so many ask for another turn, and so many behind them take nothing.
    First { agains: u64, idles: u64 },
    /// Each whose number is a multiple of this one takes nothing.
    Every(u64),
}

/// What a write does.
#[derive(Clone, Copy, PartialEq, Eq)]
enum Write {
    Takes,
    TakesNothing,
    AsksAgain,
    Breaks,
}

impl Stall {
    /// Returns what the write with this number does.
    fn write(self, number: u64) -> Write {
        match self {
            Stall::Breaks(broken) if number == broken => Write::Breaks,
            Stall::First { agains, .. } if number < agains => Write::AsksAgain,
            Stall::First { agains, idles } if number.saturating_sub(agains) < idles => {
                Write::TakesNothing
            }
            Stall::Every(every) if is_multiple(number, every) => Write::TakesNothing,
            _ => Write::Takes,
        }
    }
}

/// A sink that takes so many bytes a write at most, and keeps them.
#[derive(Drop)]
pub struct SlowSink {
    bytes: Vec<u8>,
    per_write: usize,
    stall: Stall,
    writes: u64,
    stalls: u64,
    breaks: u64,
}

impl SlowSink {
    /// Returns a sink that has taken nothing.
    pub fn new(alloc: Global, per_write: usize, stall: Stall) -> SlowSink {
        SlowSink {
            bytes: Vec::new(alloc),
            per_write,
            stall,
            writes: 0,
            stalls: 0,
            breaks: 0,
        }
    }

    /// Returns the bytes that were taken so far.
    pub fn bytes(&self) -> &[u8] {
        self.bytes.as_slice()
    }
}

impl Sink for SlowSink {
    ghost stalls = { λ sink. sink.stalls };

    ghost breaks = { λ sink. sink.breaks };

    fn write(&mut self, bytes: &[u8]) -> Result<usize, DeviceFault> {
        let write = self.stall.write(self.writes);
        self.writes = self.writes.wrapping_add(1);
        if write == Write::AsksAgain {
            self.stalls = self.stalls.wrapping_add(1);
            return Err(DeviceFault::Again);
        }
        let most = if write == Write::Takes {
            self.per_write
        } else {
            0
        };
        let count = most.min(bytes.len());
        if write == Write::Breaks || self.bytes.extend_from_slice(&bytes[..count]).is_err() {
            self.breaks = self.breaks.wrapping_add(1);
            return Err(DeviceFault::Broken);
        }
        if count == 0 && !bytes.is_empty() {
            self.stalls = self.stalls.wrapping_add(1);
        }
        Ok(count)
    }
}
