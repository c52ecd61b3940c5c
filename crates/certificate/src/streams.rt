//! The readers and writers of std as sources and sinks.
ghost use Rattle.std.specs.Prelude.{◌≡◌, ◌↔◌, ℕ, List, length, Option, Result, Err};
ghost use Rattle.std.specs.Io.{ReadsAtMost, WritesAtMost};
ghost use Rattle.std.specs.Io.KnownBytes.{ReadConsumes, WriteAppends};
ghost use Rattle.std.specs.IoError.{error_kind};
ghost use Rattle.std.specs.declared.io.ErrorKind.{ErrorKind};
ghost use Rattle.certificate.specs.Answers.{answer_of, Tells};
ghost use Rattle.certificate.specs.Counts.{agains_after, breaks_after, stalls_after};

use crate::device::{DeviceFault, Sink, Source};
use std::io::{self, Error, ErrorKind, Read, Write};

/// A reader of std, with a name for the effect of one call. Each reader of std is one.
pub trait StdRead {
    /// The bytes that are left, if they are known.
    ghost remaining: { Self → Option (List ℕ) };

    /// The effect of one call: the reader and the buffer before, the answer, and both after.
    ghost reads: { Self → List ℕ → Result ℕ ErrorKind → Self → List ℕ → Type 0 };

    /// Calls the reader once.
    fn read_once(&mut self, buffer: &mut [u8]) -> io::Result<usize>
        ensures bound { ReadsAtMost result buffer.new }
        ensures bytes { ReadConsumes (remaining self.old) (remaining self.new) result buffer.new }
        ensures once { reads self.old buffer.old (answer_of result) self.new buffer.new };
}

impl<R: Read> StdRead for R {
    ghost remaining = { R.remaining };

    ghost reads = { λ old before answer new after. Unit {0} };

    fn read_once(&mut self, buffer: &mut [u8]) -> io::Result<usize> {
        self.read(buffer)
    }
}

/// A writer of std, with a name for the effect of one call. Each writer of std is one.
pub trait StdWrite {
    /// The bytes that were taken so far, if they are known.
    ghost contents: { Self → Option (List ℕ) };

    /// The effect of one call: the writer before, the bytes, the answer, and the writer after.
    ghost writes: { Self → List ℕ → Result ℕ ErrorKind → Self → Type 0 };

    /// Calls the writer once.
    fn write_once(&mut self, bytes: &[u8]) -> io::Result<usize>
        ensures bound { WritesAtMost result bytes.now }
        ensures bytes { WriteAppends (contents self.old) (contents self.new) result bytes.now }
        ensures once { writes self.old bytes.now (answer_of result) self.new };
}

impl<W: Write> StdWrite for W {
    ghost contents = { W.contents };

    ghost writes = { λ old bytes answer new. Unit {0} };

    fn write_once(&mut self, bytes: &[u8]) -> io::Result<usize> {
        self.write(bytes)
    }
}

/// A source over a reader of std.
#[derive(Drop)]
pub struct FromRead<R> {
    reader: R,
    agains: u64,
    breaks: u64,
}

impl<R> FromRead<R> {
    ghost use Rattle.certificate.specs.Streams.{reader_of, agains_of, source_breaks};

    /// Returns a source that gives what the reader gives. It has not failed so far.
    pub fn new(reader: R) -> FromRead<R>
        ensures reader { reader_of result ≡ reader }
        ensures agains { agains_of result ≡ 0 }
        ensures breaks { source_breaks result ≡ 0 }
    {
        FromRead {
            reader,
            agains: 0,
            breaks: 0,
        }
    }
}

impl<R: StdRead> Source for FromRead<R> {
    ghost remaining = { λ source. R.remaining source.reader };

    ghost agains = { λ source. source.agains };

    ghost breaks = { λ source. source.breaks };

    fn read(&mut self, buffer: &mut [u8]) -> Result<usize, DeviceFault>
        ensures bound { ReadsAtMost result buffer.new }
        ensures bytes { ReadConsumes (R.remaining self.old.reader)
            (R.remaining self.new.reader) result buffer.new }
        ensures agains { self.new.agains ≡ agains_after result self.old.agains }
        ensures breaks { self.new.breaks ≡ breaks_after result self.old.breaks }

        // The reader is called once, with the whole buffer, and its answer is returned.
        ensures once { (answer : Result ℕ ErrorKind) × Tells answer result
            × R.reads self.old.reader buffer.old answer self.new.reader buffer.new }
    {
        match self.reader.read_once(buffer) {
            Ok(count) => Ok(count),
            Err(error) => Err(told(&error, &mut self.agains, &mut self.breaks)),
        }
    }
}

/// A sink over a writer of std.
#[derive(Drop)]
pub struct ToWrite<W> {
    writer: W,
    stalls: u64,
    breaks: u64,
}

impl<W> ToWrite<W> {
    ghost use Rattle.certificate.specs.Streams.{writer_of, stalls_of, sink_breaks};

    /// Returns a sink that passes its bytes to the writer. It has not failed so far.
    pub fn new(writer: W) -> ToWrite<W>
        ensures writer { writer_of result ≡ writer }
        ensures stalls { stalls_of result ≡ 0 }
        ensures breaks { sink_breaks result ≡ 0 }
    {
        ToWrite {
            writer,
            stalls: 0,
            breaks: 0,
        }
    }
}

impl<W: StdWrite> Sink for ToWrite<W> {
    ghost contents = { λ sink. W.contents sink.writer };

    ghost stalls = { λ sink. sink.stalls };

    ghost breaks = { λ sink. sink.breaks };

    fn write(&mut self, bytes: &[u8]) -> Result<usize, DeviceFault>
        ensures bound { WritesAtMost result bytes.now }
        ensures bytes { WriteAppends (W.contents self.old.writer)
            (W.contents self.new.writer) result bytes.now }
        ensures stalls { self.new.stalls ≡ stalls_after (length bytes.now) result self.old.stalls }
        ensures breaks { self.new.breaks ≡ breaks_after result self.old.breaks }

        // The writer is called once, with all the bytes, and its answer is returned.
        ensures once { (answer : Result ℕ ErrorKind) × Tells answer result
            × W.writes self.old.writer bytes.now answer self.new.writer }
    {
        match self.writer.write_once(bytes) {
            Ok(count) => {
                if count == 0 && !bytes.is_empty() {
                    self.stalls = self.stalls.wrapping_add(1);
                }
                Ok(count)
            }
            Err(error) => Err(told(&error, &mut self.stalls, &mut self.breaks)),
        }
    }
}

/// Returns the fault for an error of std, and counts it: an interrupted call may be repeated, and after any
/// other error the device has failed.
fn told(error: &Error, agains: &mut u64, breaks: &mut u64) -> DeviceFault
    ensures again { (result ≡ DeviceFault.Again) ↔ (error_kind error.now ≡ ErrorKind.Interrupted) }
    ensures agains { agains.new ≡ agains_after (Err result) agains.old }
    ensures breaks { breaks.new ≡ breaks_after (Err result) breaks.old }
{
    if error.kind() == ErrorKind::Interrupted {
        *agains = agains.wrapping_add(1);
        DeviceFault::Again
    } else {
        *breaks = breaks.wrapping_add(1);
        DeviceFault::Broken
    }
}
