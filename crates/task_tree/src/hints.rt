//! Guesses of the indices of the tasks that a record names, so that few tasks are searched for. Nothing but
//! the time depends on a hint.

use packed_trace::{Act, PackedEvent};

/// What the records so far say of the threads.
#[derive(Drop)]
pub(crate) struct Hints {
    /// How many tasks the records made.
    made: usize,
    /// By thread the index of the task that it runs.
    running: [usize; 256],
    /// How many claims the records had.
    claims: usize,
    /// By thread the index of the root that it claimed last.
    roots: [usize; 256],
}

impl Hints {
    /// Returns the hints before the first record.
    pub(crate) fn new() -> Hints {
        Hints {
            made: 0,
            running: [0; 256],
            claims: 0,
            roots: [0; 256],
        }
    }

    /// Returns the likely index of the task that a record is of, and counts it if the record makes it.
    #[inline(always)]
    pub(crate) fn subject(&mut self, event: PackedEvent) -> usize {
        match event.act {
            Act::InitialBegin { .. } | Act::ImplicitBegin { .. } => self.take_made(),
            Act::Depend => self.made.wrapping_sub(1),
            _ => self.running[usize::from(event.thread)],
        }
    }

    /// Returns the likely index of the second task that a record names, and counts it if the record makes it.
    /// There is no guess of a task that runs next.
    #[inline(always)]
    pub(crate) fn object(&mut self, event: PackedEvent) -> usize {
        match event.act {
            Act::Create { .. } | Act::CreateWithDeps { .. } => self.take_made(),
            _ => usize::MAX,
        }
    }

    /// Notes the index of the task that a record is of, if one was found: the thread runs it from there on.
    #[inline(always)]
    pub(crate) fn note_subject(&mut self, event: PackedEvent, found: Option<usize>) {
        match event.act {
            Act::Fork | Act::Join | Act::InitialBegin { .. } | Act::ImplicitBegin { .. } => {
                self.note_running(event.thread, found);
            }
            _ => {}
        }
    }

    /// Notes the index of the second task that a record names, if one was found: the thread runs it from there
    /// on, unless the record creates it.
    #[inline(always)]
    pub(crate) fn note_object(&mut self, event: PackedEvent, found: Option<usize>) {
        match event.act {
            Act::Schedule { .. } => self.note_running(event.thread, found),
            _ => {}
        }
    }

    /// Returns the likely index of the task that a record makes now, and counts it.
    fn take_made(&mut self) -> usize {
        let next = self.made;
        self.made = next.wrapping_add(1);
        next
    }

    /// Notes that the thread runs the task at this index from here on, if one was found.
    fn note_running(&mut self, thread: u8, found: Option<usize>) {
        if let Some(index) = found {
            self.running[usize::from(thread)] = index;
        }
    }

    /// Returns the likely index of the next claim among all claims.
    pub(crate) fn claims(&self) -> usize {
        self.claims
    }

    /// Returns the likely index of the root that the thread claims.
    pub(crate) fn root(&self, thread: u8) -> usize {
        self.roots[usize::from(thread)]
    }

    /// Notes that the thread claimed the root at this index, and counts the claim.
    pub(crate) fn note_root(&mut self, thread: u8, index: usize) {
        self.claims = self.claims.wrapping_add(1);
        self.roots[usize::from(thread)] = index;
    }
}
