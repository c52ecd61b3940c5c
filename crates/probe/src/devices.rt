//! Sources and sinks that give and take in pieces, ask for another turn, take nothing, or break.
use crate::slow::{SlowSink, SlowSource, Stall};
use crate::standard_input::{HEADER, told};
use anyhow::{Result, bail};
use certificate::{
    FromRead, MemSink, MemSource, ReadFault, Script, Sink, Source, ToWrite, WriteFault, read,
    read_blocks, read_on, read_script, upgrade, write, write_bytes,
};
use ompt_events::Trace;
use std::alloc::Global;
use std::thread::Threads;

/// Reads the file from such sources. Where it is a trace, also a longer one made of it, and writes its text,
/// that of its upgrade and the bytes to such sinks.
pub fn all<R: Threads + Sync + Print + AllocGlobal>(rt: &R, bytes: &[u8]) -> Result<()> {
    for reading in READINGS {
        in_pieces(rt, bytes, reading)?;
        broken(rt, bytes, reading)?;
        stalling(rt, bytes, reading, 2, "each second read asks again")?;
    }
    match read(rt.alloc(), &mut FromRead::new(bytes)) {
        Ok(trace) => of_trace(rt, bytes, trace),
        Err(_) => Ok(()),
    }
}

/// How the bytes of a source are read.
#[derive(Clone, Copy)]
enum Reading {
    Trace,
    /// As a trace by three workers.
    OnWorkers,
    /// As a trace by two workers, each of which takes blocks of 64 bytes.
    InBlocks,
    Script,
}

/// Such a source of a long file has given 150,000 bytes when it has asked 10,001 times.
const LATE: &str = "each sixteenth read of a long file asks again";

const READINGS: [Reading; 4] = [
    Reading::Trace,
    Reading::OnWorkers,
    Reading::InBlocks,
    Reading::Script,
];

impl Reading {
    /// Returns what stands in front of the answers.
    fn name(self) -> &'static str {
        match self {
            Reading::Trace => "trace",
            Reading::OnWorkers => "trace on workers",
            Reading::InBlocks => "trace in blocks",
            Reading::Script => "script",
        }
    }
}

/// Returns how many records or steps the source gives, or the fault.
fn answer<R: Threads + Sync + AllocGlobal, S: Source>(
    rt: &R,
    reading: Reading,
    source: &mut S,
) -> Result<String> {
    let alloc = rt.alloc();
    match reading {
        Reading::Trace => records_read(alloc, read(alloc, source)),
        Reading::OnWorkers => records_read(alloc, read_on(rt, alloc, source, 3)),
        Reading::InBlocks => records_read(alloc, read_blocks(rt, alloc, source, 2, 64)),
        Reading::Script => steps_read(alloc, read_script(alloc, source)),
    }
}

/// Returns how many records were read, or the fault.
fn records_read(alloc: Global, answer: Result<Trace, ReadFault>) -> Result<String> {
    match answer {
        Ok(trace) => {
            let count = trace.records().len();
            Ok(format!(in alloc; "{count} records")?)
        }
        Err(fault) => told(alloc, fault),
    }
}

/// Returns how many steps were read, or the fault.
fn steps_read(alloc: Global, answer: Result<Script, ReadFault>) -> Result<String> {
    match answer {
        Ok(script) => {
            let count = script.steps().len();
            Ok(format!(in alloc; "{count} steps")?)
        }
        Err(fault) => told(alloc, fault),
    }
}

/// Reads from sources that give so many bytes a read, after so many answers `Again`.
fn in_pieces<R: Threads + Sync + Print + AllocGlobal>(
    rt: &R,
    bytes: &[u8],
    reading: Reading,
) -> Result<()> {
    let name = reading.name();
    for (per_read, agains) in [
        (1, 0),
        (7, 10_000),
        (43, 1),
        (65_536, 10_000),
        (100, 10_001),
    ] {
        let whole = Vec::from_slice(rt.alloc(), bytes)?;
        let mut source = MemSource::new(whole, per_read, agains, None);
        let answer = answer(rt, reading, &mut source)?;
        println!(rt; "{name}, {per_read} bytes a read after {agains} Agains: {answer}")?;
    }
    Ok(())
}

/// Reads from sources that give one byte a read and break, each at another read. Prints the answers that
/// differ from the one before.
fn broken<R: Threads + Sync + Print + AllocGlobal>(
    rt: &R,
    bytes: &[u8],
    reading: Reading,
) -> Result<()> {
    let name = reading.name();
    let mut last = String::new(rt.alloc());
    for number in 0..bytes.len().saturating_add(2) {
        let whole = Vec::from_slice(rt.alloc(), bytes)?;
        let mut source = MemSource::new(whole, 1, 0, Some(number as u64));
        let answer = answer(rt, reading, &mut source)?;
        if answer != last {
            println!(rt; "{name}, broken at read {number} or a later one: {answer}")?;
            last = answer;
        }
    }
    Ok(())
}

/// Reads from a source that asks again at each read whose number is a multiple of `every`, and prints how it
/// does with the answer.
fn stalling<R: Threads + Sync + Print + AllocGlobal>(
    rt: &R,
    bytes: &[u8],
    reading: Reading,
    every: u64,
    how: &str,
) -> Result<()> {
    let name = reading.name();
    let mut source = SlowSource::new(Vec::from_slice(rt.alloc(), bytes)?, every);
    let answer = answer(rt, reading, &mut source)?;
    println!(rt; "{name}, {how}: {answer}")?;
    Ok(())
}

/// Reads a longer trace in the same way, and writes the trace to sinks.
fn of_trace<R: Threads + Sync + Print + AllocGlobal>(
    rt: &R,
    bytes: &[u8],
    trace: Trace,
) -> Result<()> {
    let long = long_file(rt.alloc(), bytes)?;
    for reading in READINGS {
        stalling(rt, &long, reading, 16, LATE)?;
    }
    to_sinks(rt, "bytes", Written::Bytes(bytes))?;
    to_sinks(rt, "text", Written::Text(&trace))?;
    handed_over(rt, &trace)?;
    if let Ok(long) = read(rt.alloc(), &mut FromRead::new(long.as_slice())) {
        to_sink_that_stalls_late(rt, "long text", Written::Text(&long))?;
    }
    match upgrade(rt.alloc(), trace) {
        Ok(upgraded) => to_sinks(rt, "upgraded text", Written::Text(&upgraded)),
        Err((_, fault)) => bail!("not upgraded: {fault}"),
    }
}

/// Returns a file of version 1 with its records 240 times.
fn long_file(alloc: Global, bytes: &[u8]) -> Result<Vec<u8>> {
    let Some(lines) = bytes.get(HEADER.len()..) else {
        bail!("no header");
    };
    let mut file = Vec::from_slice(alloc, HEADER.as_bytes())?;
    file.extend_from_slice(lines.repeat(alloc, 240)?.as_slice())?;
    Ok(file)
}

/// What is written.
#[derive(Clone, Copy)]
enum Written<'a> {
    Text(&'a Trace),
    Bytes(&'a [u8]),
}

impl Written<'_> {
    /// Writes it to the sink.
    fn to<S: Sink>(self, alloc: Global, sink: &mut S) -> Result<(), WriteFault> {
        match self {
            Written::Text(trace) => write(alloc, trace, sink),
            Written::Bytes(bytes) => write_bytes(bytes, sink),
        }
    }
}

/// Sinks with room for so many bytes, of which a write breaks, or each takes nothing from one on; the write
/// that breaks, and the first that takes nothing.
const SINKS: [(&str, usize, Option<u64>, Option<u64>); 6] = [
    ("room for all", 100_000, None, None),
    ("write 1 breaks", 100_000, Some(1), None),
    ("room for 100", 100, None, None),
    ("no room", 0, None, None),
    ("write 0 breaks", 100, Some(0), None),
    ("nothing is taken", 100, None, Some(0)),
];

/// Sinks that take 64 bytes a write, and stall.
const STALLS: [(&str, Stall); 7] = [
    (
        "10,000 Agains",
        Stall::First {
            agains: 10_000,
            idles: 0,
        },
    ),
    (
        "10,001 Agains",
        Stall::First {
            agains: 10_001,
            idles: 0,
        },
    ),
    (
        "nothing is taken 10,000 times",
        Stall::First {
            agains: 0,
            idles: 10_000,
        },
    ),
    (
        "nothing is taken 10,001 times",
        Stall::First {
            agains: 0,
            idles: 10_001,
        },
    ),
    (
        "10,000 of both",
        Stall::First {
            agains: 4_000,
            idles: 6_000,
        },
    ),
    (
        "10,001 of both",
        Stall::First {
            agains: 4_000,
            idles: 6_001,
        },
    ),
    ("each second write takes nothing", Stall::Every(2)),
];

/// Writes to all these sinks.
fn to_sinks<P: Print + AllocGlobal>(rt: &P, what: &str, written: Written<'_>) -> Result<()> {
    for (name, room, broken, idle) in SINKS {
        let mut sink = MemSink::new(rt.alloc(), room, broken, idle)?;
        let answer = written.to(rt.alloc(), &mut sink);
        taken(
            rt,
            format!(in rt.alloc(); "{what}, {name}")?.as_str(),
            answer,
            sink.bytes(),
        )?;
    }
    for (name, stall) in STALLS {
        let mut sink = SlowSink::new(rt.alloc(), 64, stall);
        let answer = written.to(rt.alloc(), &mut sink);
        taken(
            rt,
            format!(in rt.alloc(); "{what}, {name}")?.as_str(),
            answer,
            sink.bytes(),
        )?;
    }
    to_broken_sinks(rt, what, written)
}

/// Writes to sinks that take 64 bytes a write and break, each at another write; the last one does not break.
fn to_broken_sinks<P: Print + AllocGlobal>(rt: &P, what: &str, written: Written<'_>) -> Result<()> {
    for number in 0..u64::MAX {
        let mut sink = SlowSink::new(rt.alloc(), 64, Stall::Breaks(number));
        let answer = written.to(rt.alloc(), &mut sink);
        let is_whole = answer.is_ok();
        let name = format!(in rt.alloc(); "{what}, broken at write {number}")?;
        taken(rt, name.as_str(), answer, sink.bytes())?;
        if is_whole {
            break;
        }
    }
    Ok(())
}

/// Writes to a sink that takes one byte a write, and nothing at each fourteenth: it has taken 130,000 bytes
/// when it has taken none 10,001 times.
fn to_sink_that_stalls_late<P: Print + AllocGlobal>(
    rt: &P,
    what: &str,
    written: Written<'_>,
) -> Result<()> {
    let mut sink = SlowSink::new(rt.alloc(), 1, Stall::Every(14));
    let answer = written.to(rt.alloc(), &mut sink);
    taken(rt, what, answer, sink.bytes())
}

/// Writes the trace's text to a writer of std.
fn handed_over<P: Print + AllocGlobal>(rt: &P, trace: &Trace) -> Result<()> {
    let mut text = Vec::new(rt.alloc());
    let answer = write(rt.alloc(), trace, &mut ToWrite::new(&mut text));
    taken(rt, "text, a writer of std", answer, &text)
}

/// Prints the answer, how many bytes were taken, and the last of them.
fn taken<P: Print + AllocGlobal>(
    rt: &P,
    what: &str,
    answer: Result<(), WriteFault>,
    bytes: &[u8],
) -> Result<()> {
    let count = bytes.len();
    let end = String::from_utf8_lossy(rt.alloc(), &bytes[count.saturating_sub(12)..])?;
    println!(rt; "{what}: {answer:?}, {count} bytes, at the end {end:?}")?;
    Ok(())
}
