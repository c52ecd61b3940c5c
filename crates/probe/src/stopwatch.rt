//! Runs one layer alone, or says how long calls take.
//!
//! A layer works on standard input: `values`, `read` and `write`, `rise` and `arrange` (`turns`), `coverage` and
//! `unfinished` (`waits`), `ledger`. Threads make calls side by side (`threads`); the calls are those of
//! `ledger_calls` and `recorder_calls`.
mod layers;
mod ledger;
mod ledger_calls;
mod recorder_calls;
mod threads;
mod turns;
mod waits;

use crate::standard_input::rewrite;
use anyhow::{Result, bail};
use std::env::Args;
use std::rt::Clock;
use std::sync::Wait;
use std::thread::Threads;

/// Runs the layer of this name on standard input.
pub fn run(rt: &HostRuntime, layer: &str) -> Result<()> {
    match layer {
        "values" => layers::values(rt),
        "read" => layers::records(rt),
        "write" => rewrite(rt),
        "rise" => turns::rise(rt),
        "arrange" => turns::arranged(rt),
        "coverage" => waits::of_input(rt, false),
        "unfinished" => waits::of_input(rt, true),
        "ledger" => ledger::each(rt),
        _ => bail!(
            "the layer must be values, read, write, rise, arrange, coverage, unfinished or ledger"
        ),
    }
}

/// Has threads do the work of this name, so many pieces each, and prints the time of a piece. The next word says
/// how many threads.
pub fn timed<R: Threads + Wait + Sync + Clock + Print + AllocGlobal>(
    rt: &R,
    work: &str,
    count: u32,
    words: Args,
) -> Result<()> {
    let mut words = words;
    let Some(count_of_threads) = words.next() else {
        bail!("the words are stopwatch WORK COUNT THREADS");
    };
    threads::timed(rt, work, count, count_of_threads.parse()?)
}
