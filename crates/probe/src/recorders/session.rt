//! Recorders of one ledger, by commands.
ghost use Rattle.std.specs.Prelude.{◌≡◌, All};
ghost use Rattle.credit_ledger.specs.Places.{ledger_id, seat_id};

use crate::recorders::answers::{Answers, ClosedAnswers};
use crate::recorders::calls::{Command, Outcome, perform, tell_fault};
use crate::recorders::tasks::Tasks;
use crate::standard_input::words_of;
use anyhow::{Result, bail};
use callbacks::{CallFault, Closed, Note, Recorder, close_all, gather, gather_version_3};
use certificate::{ToWrite, write};
use credit_ledger::{Seat, SharedLedger};
use ompt_events::Trace;
use std::alloc::Global;
use std::io::writer;
use std::sync::Wait;

/// A ledger, its recorders, and what was noted and made with them.
#[derive(Drop)]
struct Session {
    ledger: SharedLedger,
    /// The seat of which further ones are split.
    seat: Seat,
    recorders: Vec<Recorder>,
    notes: Vec<Note>,
    tasks: Tasks,
    ghost seated: { seat_id seat ≡ ledger_id ledger },
    ghost recorded: { All (λ r. r.ledger ≡ ledger_id ledger) recorders.items },
    ghost noted: { All (λ n. n.ledger ≡ ledger_id ledger) notes.items },
}

/// Does what each line of the text says, and prints what comes of it behind the line. The first word is the
/// number of a recorder, counted from 0 in the order in which they were made, and the second a call of it
/// (`calls`); or: `new THREAD` makes a recorder, and `new THREAD 3` one for version 3; `N note` keeps a note of
/// a recorder, `N meet M` lets it meet the note with the number M, and `N hear M` lets it hear that note;
/// `gather` closes all recorders and prints the trace that is gathered from them, `gather N` leaves those from the number N on out, and
/// `gather_version_3` does the same for version 3. After each of these the next line begins anew.
///
/// Where a call of the library is refused for memory, `memory, ` is printed in front of its answer; that of
/// a new ledger stands in front of the next line. The call must have changed nothing that can be asked for,
/// and the ledger must still answer; then it is made once more, with the values that came back. The program
/// ends with an error where something has changed, and where it gets no memory for what it does itself.
pub fn each<R: Wait + Print + AllocGlobal>(rt: &R, text: &str) -> Result<()> {
    let mut session = Session::new(rt)?;
    for line in text.lines() {
        let words = words_of(line);
        print!(rt; "{line}: ")?;
        let nests = words[0] == "gather_version_3";
        if nests || words[0] == "gather" {
            session.end(rt, nests, words[1])?;
            session = Session::new(rt)?;
        } else {
            session.answer(rt, words)?;
        }
    }
    Ok(())
}

impl Session {
    /// A new ledger, without recorders.
    fn new<R: Print + AllocGlobal>(rt: &R) -> Result<Session> {
        let alloc = rt.alloc();
        let made = match SharedLedger::new(alloc) {
            Ok(made) => Ok(made),
            Err(_memory) => {
                print!(rt; "memory, ")?;
                SharedLedger::new(alloc)
            }
        };
        let (ledger, seat) = made?;
        Ok(Session {
            ledger,
            seat,
            recorders: Vec::new(alloc),
            notes: Vec::new(alloc),
            tasks: Tasks::new(alloc),
        })
    }

    /// Does what the words say.
    fn answer<R: Wait + Print + AllocGlobal>(&mut self, rt: &R, words: [&str; 8]) -> Result<()> {
        match (words[0], words[1]) {
            ("new", thread) => self.add(rt, thread.parse()?, words[2] == "3"),
            (number, "note") => self.note(rt, number.parse()?),
            (number, "meet") => self.meet(rt, number.parse()?, words[2].parse()?, true),
            (number, "hear") => self.meet(rt, number.parse()?, words[2].parse()?, false),
            (number, _) => self.call(rt, number.parse()?, words),
        }
    }

    /// One more recorder, of a trace where regions may lie inside others or not.
    fn add<R: Print + AllocGlobal>(&mut self, rt: &R, thread: u8, nests: bool) -> Result<()> {
        let seat = self.ledger.split(&mut self.seat);
        let recorder = if nests {
            Recorder::for_version_3(rt.alloc(), thread, seat)
        } else {
            Recorder::new(rt.alloc(), thread, seat)
        };
        self.recorders.push(recorder)?;
        println!(rt; "ok")?;
        Ok(())
    }

    /// One more note.
    fn note<R: Print + AllocGlobal>(&mut self, rt: &R, number: usize) -> Result<()> {
        let Some(recorder) = self.recorders.get_mut(number) else {
            bail!("no such recorder");
        };
        let note = recorder.note(&self.ledger);
        self.notes.push(note)?;
        println!(rt; "ok")?;
        Ok(())
    }

    /// A recorder meets a note, or hears it without a look.
    fn meet<R: Wait + Print + AllocGlobal>(
        &mut self,
        rt: &R,
        number: usize,
        place: usize,
        looks: bool,
    ) -> Result<()> {
        if place >= self.notes.len() {
            bail!("no such note");
        }
        let note = self.notes.swap_remove(place);
        let Some(recorder) = self.recorders.get_mut(number) else {
            bail!("no such recorder");
        };
        if looks {
            recorder.meet(&self.ledger, rt, note);
        } else {
            recorder.hear(&self.ledger, note);
        }
        println!(rt; "ok {}", recorder.known())?;
        Ok(())
    }

    /// A recorder makes a call, and makes it again where it is refused for memory.
    fn call<R: Wait + Print + AllocGlobal>(
        &mut self,
        rt: &R,
        number: usize,
        words: [&str; 8],
    ) -> Result<()> {
        let mut command = Command::new(words);
        let before = self.answers(rt)?;
        if self.perform(rt, number, &mut command)? == Outcome::Answered {
            return Ok(());
        }
        self.tell_memory(rt, &before)?;
        if self.perform(rt, number, &mut command)? == Outcome::Memory {
            tell_fault(rt, CallFault::Memory)?;
        }
        Ok(())
    }

    /// A recorder makes a call once.
    fn perform<R: Wait + Print + AllocGlobal>(
        &mut self,
        rt: &R,
        number: usize,
        command: &mut Command,
    ) -> Result<Outcome> {
        let Some(recorder) = self.recorders.get_mut(number) else {
            bail!("no such recorder");
        };
        perform(rt, &self.ledger, recorder, &mut self.tasks, command)
    }

    /// What the recorders and the tasks answer, and how long the ledger is.
    fn answers<R: Wait + AllocGlobal>(&mut self, rt: &R) -> Result<Answers> {
        let ledger_len = self.ledger.look(rt, &mut self.seat);
        Answers::of(
            rt.alloc(),
            ledger_len,
            self.recorders.as_slice(),
            &self.tasks,
        )
    }

    /// Prints that a call was refused for memory, and tests that each answer is the one before it.
    fn tell_memory<R: Wait + Print + AllocGlobal>(
        &mut self,
        rt: &R,
        before: &Answers,
    ) -> Result<()> {
        print!(rt; "memory, ")?;
        self.answers(rt)?.test(before)
    }

    /// Closes the recorders below a number, or all of them, and prints the trace.
    fn end<R: Wait + Print + AllocGlobal>(self, rt: &R, nests: bool, upto: &str) -> Result<()> {
        let mut session = self;
        if !upto.is_empty() {
            session.recorders.truncate(upto.parse()?);
        }
        let before = session.answers(rt)?;
        let closed = match session.close(rt) {
            Ok(closed) => Ok(closed),
            Err(mut session) => {
                session.tell_memory(rt, &before)?;
                session.close(rt)
            }
        };
        match closed {
            Ok(closed) => print_trace(rt, nests, closed),
            Err(_session) => tell_fault(rt, CallFault::Memory),
        }
    }

    /// Closes all recorders. Where that is refused for memory, the session comes back.
    fn close<R: Wait + AllocGlobal>(self, rt: &R) -> Result<Closed, Session> {
        let Session {
            ledger,
            seat,
            recorders,
            notes,
            tasks,
        } = self;
        match close_all(rt.alloc(), ledger, rt, recorders) {
            Ok(closed) => Ok(closed),
            Err((ledger, recorders, _memory)) => Err(Session {
                ledger,
                seat,
                recorders,
                notes,
                tasks,
            }),
        }
    }
}

/// Returns the trace of closed recorders, in which regions may lie inside others or not.
fn gathered(alloc: Global, nests: bool, closed: Closed) -> Result<Trace, (Closed, CallFault)> {
    if nests {
        gather_version_3(alloc, closed)
    } else {
        gather(alloc, closed)
    }
}

/// Prints the trace of closed recorders behind a line `ok`, or why there is none.
pub fn print_trace<R: Print + AllocGlobal>(rt: &R, nests: bool, closed: Closed) -> Result<()> {
    let alloc = rt.alloc();
    let before = ClosedAnswers::of(alloc, &closed)?;
    let made = match gathered(alloc, nests, closed) {
        Err((closed, CallFault::Memory)) => {
            print!(rt; "memory, ")?;
            ClosedAnswers::of(alloc, &closed)?.test(&before)?;
            gathered(alloc, nests, closed)
        }
        made => made,
    };
    match made {
        Ok(trace) => {
            println!(rt; "ok")?;
            write(alloc, &trace, &mut ToWrite::new(writer(rt)))?;
            Ok(())
        }
        Err((_closed, fault)) => tell_fault(rt, fault),
    }
}
