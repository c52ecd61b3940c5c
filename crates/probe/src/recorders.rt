//! What calls of recorders answer: those that standard input lists, or those of a random program.
//!
//! Begin at `session`, which says what the commands are; `calls` makes the calls of one recorder, `tasks` keeps
//! the values of tasks, `answers` notes what recorders and tasks answer, since a call that is refused for memory
//! must change none of that, and `words` reads words. `random` runs a random program, whose tasks lie in a
//! `pool`.
mod answers;
mod calls;
mod pool;
mod random;
mod session;
mod tasks;
mod words;

use crate::standard_input::text_of_input;
use anyhow::{Result, bail};
use std::env::Args;
use std::sync::Wait;
use std::thread::Threads;

/// Makes the calls that standard input lists.
pub fn each<R: Wait + Input + Print + AllocGlobal>(rt: &R) -> Result<()> {
    session::each(rt, text_of_input(rt)?.as_str())
}

/// Runs a random program of so many tasks on so many threads with a recorder each, and prints the trace that is
/// gathered. The next word is the seed; with one more the threads do not wait.
pub fn program<R: Threads + Wait + Sync + Print + AllocGlobal>(
    rt: &R,
    tasks: usize,
    threads: u8,
    words: Args,
) -> Result<()> {
    let mut words = words;
    let Some(seed) = words.next() else {
        bail!("the words are program TASKS THREADS SEED [hasty]");
    };
    random::run(rt, tasks, threads, seed.parse()?, words.next().is_some())
}
