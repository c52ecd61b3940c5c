//! Traces and bytes written to a sink.
ghost use Rattle.std.specs.Prelude.{◌≡◌, ◌≢◌, ◌<◌, ◌≤◌, ◌++◌, ◌∷◌, [], ℕ, length, take, Ok, Err, OnOk, OnErr, IfOk, IfErr};
ghost use Rattle.std.specs.Io.KnownBytes.{Appends, Keeps};
ghost use Rattle.certificate.specs.Counts.{TakesStalls, breaks_written, count_more, next_count, stalls_after};
ghost use Rattle.lines.specs.Texts.{header_line, line_of};
ghost use Rattle.certificate.specs.TraceTexts.{trace_text};

use crate::device::{DeviceFault, MAX_TURNS, Sink};
use crate::faults::WriteFault;
use lines::{put_header, put_record};
use ompt_events::{Record, Trace};
use std::alloc::Global;

/// Lines are written as soon as they have this many bytes together.
const BLOCK: usize = 65_536;

/// Writes the text of the trace: the header of its version, then the line of each record, in blocks of some
/// 64 KiB. Fails if the sink fails, or out of memory; then a prefix of the text was written.
pub fn write<S: Sink>(alloc: Global, trace: &Trace, sink: &mut S) -> Result<(), WriteFault>
    ensures ok { OnOk result
        (Appends (S.contents sink.old) (S.contents sink.new) (trace_text trace.now)) }
    ensures prefix { OnErr result
        ((n : ℕ) × Appends (S.contents sink.old) (S.contents sink.new) (take n (trace_text trace.now))) }

    // The call ends with the 10,001st answer `Again` or write that took none of some bytes.
    ensures turns { (turns : ℕ) × TakesStalls result turns (S.stalls sink.old) (S.stalls sink.new) }

    // `Device` is reported if and only if the sink has failed.
    ensures breaks { S.breaks sink.new ≡ breaks_written result (S.breaks sink.old) }
{
    let mut block = header(alloc, trace.version())?;
    let mut turns = 0;
    'records: for event in trace.records() {
        add_line(&mut block, event)?;
        if block.len() >= BLOCK {
            turns = send(block.as_slice(), sink, turns)?;
            block.clear();
        }
    }
    send(block.as_slice(), sink, turns)?;
    Ok(())
}

/// Returns the header line of a file of this version, with its line feed.
fn header(alloc: Global, version: u32) -> Result<Vec<u8>, WriteFault>
    ensures line { IfOk result (λ block. block.items ≡ header_line version ++ 10 ∷ []) }
    ensures fault { IfErr result (λ fault. fault ≡ WriteFault.Memory) }
{
    let mut block = Vec::new(alloc);
    put_header(&mut block, version).map_err(|_| WriteFault::Memory)?;
    block.push(b'\n').map_err(|_| WriteFault::Memory)?;
    Ok(block)
}

/// Adds the line of the record with its line feed.
fn add_line(block: &mut Vec<u8>, event: &Record) -> Result<(), WriteFault>
    ensures line { OnOk result (block.new.items ≡ block.old.items ++ (line_of event.now ++ 10 ∷ [])) }
    ensures fault { IfErr result (λ fault. fault ≡ WriteFault.Memory) }
{
    put_record(block, event).map_err(|_| WriteFault::Memory)?;
    block.push(b'\n').map_err(|_| WriteFault::Memory)?;
    Ok(())
}

/// Writes exactly these bytes. Fails if the sink fails; then a prefix of them was written. Takes no memory.
pub fn write_bytes<S: Sink>(bytes: &[u8], sink: &mut S) -> Result<(), WriteFault>
    ensures ok { OnOk result (Appends (S.contents sink.old) (S.contents sink.new) bytes.now) }
    ensures prefix { OnErr result
        ((n : ℕ) × Appends (S.contents sink.old) (S.contents sink.new) (take n bytes.now)) }

    // The call ends with the 10,001st answer `Again` or write that took none of some bytes.
    ensures turns { (turns : ℕ) × TakesStalls result turns (S.stalls sink.old) (S.stalls sink.new) }

    // `Device` is reported if and only if the sink has failed.
    ensures breaks { S.breaks sink.new ≡ breaks_written result (S.breaks sink.old) }
    ensures memory { result ≢ Err WriteFault.Memory }
{
    send(bytes, sink, 0)?;
    Ok(())
}

/// Writes all the bytes to the sink, in a call that was interrupted `turns` times before. Returns how often
/// it was then.
fn send<S: Sink>(bytes: &[u8], sink: &mut S, before: u32) -> Result<u32, WriteFault>
    requires { before ≤ MAX_TURNS }
    ensures ok { OnOk result (Appends (S.contents sink.old) (S.contents sink.new) bytes.now) }
    ensures prefix { OnErr result
        ((n : ℕ) × Appends (S.contents sink.old) (S.contents sink.new) (take n bytes.now)) }
    ensures few { IfOk result (λ turns. turns ≤ MAX_TURNS) }
    ensures counted { IfOk result (λ turns. (start : ℕ) → S.stalls sink.old ≡ count_more start before
        → S.stalls sink.new ≡ count_more start turns) }
    ensures ended { IfErr result (λ fault. (start : ℕ) → S.stalls sink.old ≡ count_more start before →
        (turns : ℕ) × TakesStalls (Err fault) turns start (S.stalls sink.new)) }
    ensures kept { OnOk result (S.breaks sink.new ≡ S.breaks sink.old) }
    ensures breaks { IfErr result (λ fault. S.breaks sink.new ≡ breaks_written (Err fault)
        (S.breaks sink.old)) }
    ensures memory { result ≢ Err WriteFault.Memory }
{
    let mut at = 0;
    let mut turns = before;
    'bytes: while at < bytes.len() {
        let taken = offer(&bytes[at..], sink)?;
        if taken == 0 {
            turns += 1;
            if turns > MAX_TURNS {
                return Err(WriteFault::TurnsSpent);
            }
        }
        at += taken;
    }
    Ok(turns)
}

/// Writes some bytes to the sink once. Returns how many it took: none also if it was interrupted.
fn offer<S: Sink>(bytes: &[u8], sink: &mut S) -> Result<usize, WriteFault>
    requires { 0 < length bytes.now }
    ensures bound { IfOk result (λ n. n ≤ length bytes.now) }
    ensures bytes { IfOk result (λ n. Appends (S.contents sink.old) (S.contents sink.new)
        (take n bytes.now)) }
    ensures stalls { IfOk result (λ n. S.stalls sink.new ≡ stalls_after (length bytes.now) (Ok n)
        (S.stalls sink.old)) }
    ensures breaks { OnOk result (S.breaks sink.new ≡ S.breaks sink.old) }
    ensures fault { IfErr result (λ fault. fault ≡ WriteFault.Device) }
    ensures broken { OnErr result (S.breaks sink.new ≡ next_count (S.breaks sink.old)) }
    ensures err { OnErr result (Keeps (S.contents sink.old) (S.contents sink.new)
        × (S.stalls sink.new ≡ S.stalls sink.old)) }
{
    match sink.write(bytes) {
        Ok(count) => Ok(count),
        Err(DeviceFault::Again) => Ok(0),
        Err(DeviceFault::Broken) => Err(WriteFault::Device),
    }
}
