//! What several workers answer on the trace of standard input.
use crate::gates::CountingGate;
use anyhow::{Result, bail};
use certificate::{FromRead, ToWrite, read, read_blocks, write};
use checker::{CheckFault, Order, Verdict, Why, check_on};
use std::io::writer;
use std::thread::Threads;
use std::time::Clock;

/// The most bytes of a block.
const LARGEST_BLOCK: usize = 1 << 24;

/// Checks the trace of standard input by so many workers at the gate of this name. Prints the verdict, with
/// the order of a yes, or the fault; and how often each worker came to the gate.
pub fn decided<R: Threads + Sync + Clock + Input + Print + AllocGlobal>(
    rt: &R,
    workers: u32,
    gate: &str,
    refused: &str,
) -> Result<()> {
    let trace = read(rt.alloc(), &mut FromRead::new(rt.reader()))?;
    let gate = CountingGate::new(rt.alloc(), rt, workers, gate, refused)?;
    match check_on(rt, rt.alloc(), &trace, workers, &gate) {
        Ok(verdict) => tell(rt, &verdict)?,
        Err(CheckFault::Memory) => print!(rt; "memory")?,
        Err(CheckFault::Workers) => print!(rt; "workers")?,
        Err(CheckFault::Gate(worker)) => print!(rt; "gate {worker}")?,
        Err(CheckFault::Thread) => print!(rt; "thread")?,
    }
    print!(rt; "; passes")?;
    for worker in 0..workers {
        print!(rt; " {}", gate.passes_of(worker))?;
    }
    println!(rt; "")?;
    Ok(())
}

/// Prints a verdict, with the places of the records that it names, from 0.
fn tell<P: Print>(rt: &P, verdict: &Verdict) -> Result<()> {
    match verdict {
        Verdict::Yes { order } => tell_order(rt, order)?,
        Verdict::No {
            at,
            why: Why::Unfinished(task),
        } => print!(rt; "no {at} unfinished {task}")?,
        Verdict::No {
            at,
            why: Why::Predecessor(task),
        } => print!(rt; "no {at} predecessor {task}")?,
        Verdict::Malformed { at, cause } => print!(rt; "malformed {at} {}", cause.number())?,
    }
    Ok(())
}

/// Prints a yes with the places in its order.
fn tell_order<P: Print>(rt: &P, order: &Order) -> Result<()> {
    print!(rt; "yes")?;
    for before in 0..order.len() {
        if let Some(place) = order.place_at(before) {
            print!(rt; " {place}")?;
        }
    }
    Ok(())
}

/// Reads the trace file of standard input by so many workers and in blocks of so many bytes, and writes it;
/// or prints why it cannot be read.
pub fn rewritten<R: Threads + Sync + Input + Print + AllocGlobal>(
    rt: &R,
    workers: u32,
    block: usize,
) -> Result<()> {
    if workers == 0 || block == 0 || block > LARGEST_BLOCK {
        bail!("there must be a worker, and a block has 1 to 2^24 bytes");
    }
    match read_blocks(
        rt,
        rt.alloc(),
        &mut FromRead::new(rt.reader()),
        workers,
        block,
    ) {
        Ok(trace) => write(rt.alloc(), &trace, &mut ToWrite::new(writer(rt)))?,
        Err(fault) => println!(rt;
            "unreadable: line {}: {} {}",
            fault.line,
            fault.cause.number(),
            fault.cause.name()
        )?,
    }
    Ok(())
}
