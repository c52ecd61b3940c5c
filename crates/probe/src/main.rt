//! Prints what calls of the libraries answer that the program `taskaudit` does not show, for `tests/`; and runs
//! one layer alone or measures calls, for `bench/`. Nothing is promised but safety.
//!
//! A word says which calls; most take a trace file or commands on standard input. Begin at `run`.
//! `standard_input` reads standard input; `again` makes a call that is refused memory once more; `recorders` has
//! the calls of recorders, `stopwatch` what `bench/` measures, and each other module the calls of one library, or
//! of several workers.
#![tactic(auto)]

mod again;
mod devices;
mod edges;
mod gates;
mod in_turns;
mod ledger;
mod names;
mod recorders;
mod refusals;
mod script;
mod seats;
mod shared;
mod shares;
mod slow;
mod standard_input;
mod states;
mod stopwatch;
mod tables;
mod threads;
mod tree;
mod verdict;
mod waits;
mod workers;

use anyhow::{Result, bail};
use std::env;

const WORDS: &str =
    "write, lines, lines_with_turns, scripts, turns, names, tables, shares, states, ledger, \
     refusals, tree, edges, verdict, counters, waits, seats, shared, recorders, devices, \
     workers N GATE [REFUSED], blocks N SIZE, program TASKS THREADS SEED [hasty], stopwatch LAYER or \
     stopwatch WORK COUNT THREADS";

/// Makes the calls that the word names.
fn run(rt: &HostRuntime, word: &str) -> Result<()> {
    match word {
        "write" => standard_input::rewrite(rt),
        "lines" => standard_input::each(rt, standard_input::HEADER),
        "lines_with_turns" => standard_input::each(rt, standard_input::HEADER_WITH_TURNS),
        "scripts" => script::each(rt),
        "turns" => in_turns::of_input(rt),
        "names" => names::each(rt),
        "tables" => tables::all(rt),
        "shares" => shares::each(rt),
        "states" => states::each(rt),
        "ledger" => ledger::each(rt),
        "refusals" => refusals::all(rt),
        "tree" => tree::of_input(rt),
        "edges" => edges::of_input(rt),
        "verdict" => verdict::of_input(rt),
        "counters" => verdict::counters_of_input(rt),
        "waits" => waits::each(rt),
        _ => bail!("the words must be {WORDS}"),
    }
}

fn main(rt: HostRuntime) -> Result<()> {
    let mut words = env::args(&rt)?;
    let _program = words.next();
    let Some(word) = words.next() else {
        bail!("the words must be {WORDS}");
    };
    match (word.as_str(), words.next(), words.next()) {
        ("shared", ..) => shared::each(&rt),
        ("seats", ..) => seats::each(&rt),
        ("recorders", ..) => recorders::each(&rt),
        ("devices", ..) => devices::all(&rt, &standard_input::input(&rt)?),
        ("workers", Some(count), Some(gate)) => {
            let refused = words.next();
            let refused = refused.as_deref().unwrap_or("");
            workers::decided(&rt, count.parse()?, gate.as_str(), refused)
        }
        ("blocks", Some(count), Some(size)) => {
            workers::rewritten(&rt, count.parse()?, size.parse()?)
        }
        ("program", Some(tasks), Some(threads)) => {
            recorders::program(&rt, tasks.parse()?, threads.parse()?, words)
        }
        ("stopwatch", Some(work), Some(count)) => {
            stopwatch::timed(&rt, work.as_str(), count.parse()?, words)
        }
        ("stopwatch", Some(word), None) => stopwatch::run(&rt, word.as_str()),
        (word, ..) => run(&rt, word),
    }
}
