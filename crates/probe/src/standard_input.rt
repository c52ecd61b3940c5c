//! Standard input as lines and as traces, and what single lines stand for.
use anyhow::{Result, bail};
use certificate::{FromRead, ReadFault, ToWrite, read, write};
use memchr::memchr;
use ompt_events::Trace;
use std::alloc::Global;
use std::io;
use std::io::Read;

/// The first line of a trace file of version 1.
pub const HEADER: &str = "{\"format\":\"task-credit-audit\",\"version\":1}\n";

/// The first line of a trace file of version 2.
pub const HEADER_WITH_TURNS: &str = "{\"format\":\"task-credit-audit\",\"version\":2}\n";

/// Returns standard input to its end.
pub fn input(rt: &HostRuntime) -> Result<Vec<u8>> {
    let mut bytes = Vec::new(rt.alloc());
    rt.reader().read_to_end(&mut bytes)?;
    Ok(bytes)
}

/// Returns standard input to its end, as text. Fails where it is not UTF-8.
pub fn text_of_input<R: Input + AllocGlobal>(rt: &R) -> Result<String> {
    let mut text = String::new(rt.alloc());
    rt.reader().read_to_string(&mut text)?;
    Ok(text)
}

/// Returns the trace that stands on standard input. Fails where it cannot be read.
pub fn trace_of_input(rt: &HostRuntime) -> Result<Trace> {
    trace_of(rt.alloc(), input(rt)?.as_slice())
}

/// Returns the trace that stands on standard input, which is read block by block. Fails where it cannot be read.
pub fn read_trace(rt: &HostRuntime) -> Result<Trace> {
    Ok(read(rt.alloc(), &mut FromRead::new(rt.reader()))?)
}

/// Reads the records of standard input, and writes them to standard output.
pub fn rewrite(rt: &HostRuntime) -> Result<()> {
    let trace = read_trace(rt)?;
    write(rt.alloc(), &trace, &mut ToWrite::new(io::writer(rt)))?;
    Ok(())
}

/// Returns the traces of the files that stand one after another on standard input. Fails where one cannot be
/// read.
pub fn traces_of_input(rt: &HostRuntime) -> Result<Vec<Trace>> {
    let bytes = input(rt)?;
    let mut traces = Vec::new(rt.alloc());
    let mut file: Vec<u8> = Vec::new(rt.alloc());
    for line in lines_of(rt.alloc(), &bytes)?.iter() {
        if is_header(*line) && !file.is_empty() {
            traces.push(trace_of(rt.alloc(), file.as_slice())?)?;
            file.clear();
        }
        file.extend_from_slice(*line)?;
        file.push(b'\n')?;
    }
    traces.push(trace_of(rt.alloc(), file.as_slice())?)?;
    Ok(traces)
}

/// Returns whether the line is the first one of a file.
fn is_header(line: &[u8]) -> bool {
    line == HEADER.trim_ascii_end().as_bytes()
        || line == HEADER_WITH_TURNS.trim_ascii_end().as_bytes()
}

/// Returns the trace of a file. Fails where it cannot be read.
fn trace_of(alloc: Global, file: &[u8]) -> Result<Trace> {
    match read(alloc, &mut FromRead::new(file)) {
        Ok(trace) => Ok(trace),
        Err(fault) => bail!("{}", told(alloc, fault)?),
    }
}

/// Returns the first eight words of a line; those that it lacks are empty.
pub fn words_of(line: &str) -> [&str; 8] {
    let mut words = [""; 8];
    for (place, word) in line.split(' ').take(8).enumerate() {
        if let Some(slot) = words.get_mut(place) {
            *slot = word;
        }
    }
    words
}

/// Returns the first part of the bytes that this byte ends, without it, and the bytes after it; none where
/// no such byte is left.
pub fn split_part(bytes: &[u8], end: u8) -> Option<(&[u8], &[u8])> {
    let at = memchr(end, bytes)?;
    if at >= bytes.len() {
        return None;
    }
    Some((&bytes[..at], &bytes[at + 1..]))
}

/// Returns the parts that this byte ends, without it.
pub fn parts_of(alloc: Global, bytes: &[u8], end: u8) -> Result<Vec<&[u8]>> {
    let mut parts = Vec::new(alloc);
    let mut rest = bytes;
    for _ in 0..u64::MAX {
        let Some((part, behind)) = split_part(rest, end) else {
            break;
        };
        parts.push(part)?;
        rest = behind;
    }
    Ok(parts)
}

/// Returns the lines that a line feed ends, without it.
pub fn lines_of(alloc: Global, bytes: &[u8]) -> Result<Vec<&[u8]>> {
    parts_of(alloc, bytes, b'\n')
}

/// Prints for each line of standard input, as line 2 of a file with this header, the line that is written of
/// its record, or the fault.
pub fn each(rt: &HostRuntime, header: &str) -> Result<()> {
    let bytes = input(rt)?;
    for line in lines_of(rt.alloc(), &bytes)?.iter() {
        let answer = written(rt.alloc(), header, *line)?;
        println!(rt; "{answer}")?;
    }
    Ok(())
}

/// Returns the line that is written of the record that the line stands for, or the fault.
fn written(alloc: Global, header: &str, line: &[u8]) -> Result<String> {
    let mut file = Vec::from_slice(alloc, header.as_bytes())?;
    file.extend_from_slice(line)?;
    file.push(b'\n')?;
    match read(alloc, &mut FromRead::new(file.as_slice())) {
        Ok(trace) => {
            let mut text = Vec::new(alloc);
            write(alloc, &trace, &mut ToWrite::new(&mut text))?;
            Ok(last_line(alloc, &text)?)
        }
        Err(fault) => Ok(told(alloc, fault)?),
    }
}

/// Returns the second line of the text.
fn last_line(alloc: Global, text: &[u8]) -> Result<String> {
    let lines = lines_of(alloc, text)?;
    let line = lines.get(1).copied().unwrap_or(b"".as_slice());
    Ok(String::from_utf8_lossy(alloc, line)?)
}

/// Returns the fault with its line, number and name, as text.
pub fn told(alloc: Global, fault: ReadFault) -> Result<String> {
    let number = fault.cause.number();
    let name = fault.cause.name();
    let line = fault.line;
    Ok(format!(in alloc; "line {line}: {number} {name}")?)
}
