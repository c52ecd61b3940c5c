//! The audit of a file record by record, in the memory of what is alive.
ghost use Rattle.std.specs.Prelude.{◌≡◌, ◌≢◌, ◌≤◌, ℕ, List, Option, ◌++◌, ◌∷◌, [], IfOk, IfErr, IfSome, Err, None, true, IsTrue, length, string_bytes};
ghost use Rattle.std.specs.Result.{result_map_both};
ghost use Rattle.online.specs.Watches.{HasRefused, HasRefusedStart};
ghost use Rattle.certificate.specs.Counts.{breaks_written};
ghost use Rattle.certificate.specs.Limits.{max_numbered};
ghost use Rattle.taskaudit.specs.Devices.{TellsDevices, AsksForTurns, read_cause_of, written_of};
ghost use Rattle.taskaudit.specs.Watchings.{CountsOne, IsWatching, IsWholeTaken, LeavesWatch, Watches};
ghost use Rattle.taskaudit.specs.Watchings.{HasFailed, IsLongReadRightly, IsMissedBy, IsMissedHere, StopsAt};
ghost use Rattle.taskaudit.specs.Watchings.{early_text};
ghost use Rattle.taskaudit.specs.Reports.{place_text, record_place};

use crate::auditing::tell;
use crate::report::{Counts, Place, late_line, no_line, yes_line};
use crate::work::{AuditFault, Outcome};
use certificate::{MAX_NUMBERED, Sink, Source, Taken, Taker, WriteFault, read_each};
use ompt_events::Record;
use online::{Test, Watch};
use std::alloc::{AllocError, Global};

/// What is kept of the records so far.
#[derive(Drop)]
pub(crate) struct Watching {
    alloc: Global,
    watch: Watch,
    count: usize,
    counts: Counts,
    /// The test that the last record failed.
    failed: Option<Test>,
    /// The task that is missed at the last record, if one is known.
    missed: Option<Missed>,
}

/// A task that is missed at a record, and where on its thread that record stands.
#[derive(Clone, Copy)]
struct Missed {
    thread: u8,
    seq: u32,
    task: u64,
    /// The task that starts there, or the taskwait that is complete there, if it must wait for that one.
    dependent: Option<u64>,
}

/// Reads a trace file record by record, to its end or to the first record that fails a test of [`Watch`], and
/// writes the report of a yes; or of a no, where that record ends a taskwait, taskgroup or barrier, starts a task, or
/// completes a taskwait with dependences, and a task is known that this waits for and that no record so far
/// completes. Keeps no record, and takes up to 2^32 - 3. Where a record, or the end of the file, fails a test
/// otherwise there is no verdict: then [`audit`](crate::auditing::audit) has one, if it takes the file.
pub fn watch<I: Source, O: Sink>(
    alloc: Global,
    source: &mut I,
    sink: &mut O,
) -> Result<Outcome, AuditFault>
    ensures reports { IfOk result
        (Watches (I.remaining source.old) (O.contents sink.old) (O.contents sink.new)) }
    ensures leaves { IfErr result
        (LeavesWatch (I.remaining source.old) (O.contents sink.old) (O.contents sink.new)) }
    ensures unreadable { IfErr result (IsLongReadRightly (I.remaining source.old) (I.remaining source.new)) }

    // A fault of the source or of the sink is told exactly where it occurs.
    ensures devices { TellsDevices result
        (record { turns = I.agains source.old; breaks = I.breaks source.old })
        (record { turns = I.agains source.new; breaks = I.breaks source.new })
        (record { turns = O.stalls sink.old; breaks = O.breaks sink.old })
        (record { turns = O.stalls sink.new; breaks = O.breaks sink.new }) }
    ensures memory { result ≢ Err (AuditFault.Write WriteFault.Memory) }
{
    let Ok(mut watching) = Watching::new(alloc) else {
        return Err(AuditFault::Memory);
    };
    match read_each(alloc, source, &mut watching) {
        Ok(Taken::All) => watching.conclude(sink),
        Ok(Taken::Until(line)) => watching.refuse(line, sink),
        Err(fault) => Err(AuditFault::Read(fault)),
    }
}

impl Watching {
    /// Returns what no records leave. Fails only when out of memory.
    fn new(alloc: Global) -> Result<Watching, AllocError>
        ensures { IfOk result (IsWatching []) }
    {
        Ok(Watching {
            alloc,
            watch: Watch::new(alloc, false)?,
            count: 0,
            counts: Counts::none(),
            failed: None,
            missed: None,
        })
    }

    /// Counts one more record, and returns true; false where there are too many to count.
    fn count_one(&mut self, event: &Record) -> bool
        ensures counted { IsTrue result → CountsOne self.old self.new event.now }
        ensures missed { self.new.missed ≡ self.old.missed }
    {
        if self.count >= MAX_NUMBERED as usize {
            return false;
        }
        let Some(counts) = self.counts.with(event) else {
            return false;
        };
        self.count += 1;
        self.counts = counts;
        true
    }

    /// Returns the task that is missed at the record, where one is found and the record has just failed the test of
    /// waits or that of predecessors. Fails only when out of memory.
    fn find_missed(&mut self, event: &Record) -> Result<Option<Missed>, AllocError>
        ensures { IfOk result (λ found. IfSome found (λ m. (rs : List Record)
            → HasFailed self.old.failed rs event.now self.old.watch → IsMissedHere rs event.now m)) }
    {
        match self.failed {
            Some(Test::Waits) => self.find_waited_for(event),
            Some(Test::Predecessors) => Ok(self.find_predecessor(event)),
            _ => Ok(None),
        }
    }

    /// Returns the task that is missed at the end of a region. Fails only when out of memory.
    fn find_waited_for(&mut self, event: &Record) -> Result<Option<Missed>, AllocError>
        ensures { IfOk result (λ found. IfSome found (λ m. (rs : List Record) → HasRefused rs event.now self.old.watch
            → IsMissedHere rs event.now m)) }
    {
        let Some(task) = self.watch.missed(event)? else {
            return Ok(None);
        };
        Ok(Some(Missed {
            thread: event.thread,
            seq: event.seq,
            task,
            dependent: None,
        }))
    }

    /// Returns the predecessor that is missed where a task starts, or a taskwait is complete.
    fn find_predecessor(&self, event: &Record) -> Option<Missed>
        ensures { IfSome result (λ m. (rs : List Record) → HasRefusedStart rs event.now self.now.watch
            → IsMissedHere rs event.now m) }
    {
        let found = self.watch.missed_predecessor(event)?;
        Some(Missed {
            thread: event.thread,
            seq: event.seq,
            task: found.predecessor,
            dependent: Some(found.dependent),
        })
    }

    /// Writes the report of a no, where a task is missed at the record on this line, which was not taken. Else there
    /// is no verdict.
    fn refuse<O: Sink>(&self, line: u32, sink: &mut O) -> Result<Outcome, AuditFault>
        ensures reports { IfOk result (λ outcome. (bytes : Option (List ℕ)) → StopsAt bytes line self.now
            → Watches bytes (O.contents sink.old) (O.contents sink.new) outcome) }
        ensures leaves { IfErr result (λ fault. (bytes : Option (List ℕ)) → StopsAt bytes line self.now
            → LeavesWatch bytes (O.contents sink.old) (O.contents sink.new) fault) }
        ensures unread { read_cause_of result ≡ None }
        ensures rightly { (bytes left : Option (List ℕ)) → IfErr result (IsLongReadRightly bytes left) }
        ensures breaks { O.breaks sink.new ≡ breaks_written (written_of result) (O.breaks sink.old) }
        ensures turns { AsksForTurns result (O.stalls sink.old) (O.stalls sink.new) }
        ensures memory { result ≢ Err (AuditFault.Write WriteFault.Memory) }
    {
        let Some(missed) = self.missed else {
            return Err(AuditFault::Undecided {
                line,
                test: self.failed.unwrap_or(Test::Calls),
            });
        };
        let place = Place::on(line, missed.thread, missed.seq);
        let Ok(text) = early_line(self.alloc, place, missed.dependent, missed.task) else {
            return Err(AuditFault::Memory);
        };
        tell(Outcome::No, text.as_bytes(), sink)
    }

    /// Writes the report of a yes, where the records so far may be all.
    fn conclude<O: Sink>(&self, sink: &mut O) -> Result<Outcome, AuditFault>
        requires { self.now.count ≤ max_numbered }
        ensures reports { IfOk result (λ outcome. (bytes : Option (List ℕ)) → IsWholeTaken bytes self.now
            → Watches bytes (O.contents sink.old) (O.contents sink.new) outcome) }
        ensures leaves { IfErr result (λ fault. (bytes : Option (List ℕ)) → IsWholeTaken bytes self.now
            → LeavesWatch bytes (O.contents sink.old) (O.contents sink.new) fault) }
        ensures unread { read_cause_of result ≡ None }
        ensures rightly { (bytes left : Option (List ℕ)) → IfErr result (IsLongReadRightly bytes left) }
        ensures breaks { O.breaks sink.new ≡ breaks_written (written_of result) (O.breaks sink.old) }
        ensures turns { AsksForTurns result (O.stalls sink.old) (O.stalls sink.new) }
        ensures memory { result ≢ Err (AuditFault.Write WriteFault.Memory) }
    {
        if !self.watch.may_end() {
            return Err(AuditFault::Undecided {
                line: self.count as u32 + 2,
                test: Test::End,
            });
        }
        let Ok(text) = yes_line(self.alloc, self.count, self.counts) else {
            return Err(AuditFault::Memory);
        };
        tell(Outcome::Yes, text.as_bytes(), sink)
    }
}

impl Taker for Watching {
    ghost has_taken = { λ version rs watching. IsWatching rs watching };

    ghost has_refused = { λ version rs event watching. IsMissedBy rs event watching };

    fn begin(&mut self, version: u32) -> Result<(), AllocError> {
        self.watch = Watch::new(self.alloc, version >= 3)?;
        self.count = 0;
        self.counts = Counts::none();
        self.missed = None;
        Ok(())
    }

    fn take(&mut self, event: &Record) -> Result<bool, AllocError> {
        self.failed = self.watch.take(event)?;
        if self.failed.is_some() {
            self.missed = self.find_missed(event)?;
            return Ok(false);
        }
        Ok(self.count_one(event))
    }
}

/// Returns the report of a no: the task is unfinished at the record that stands there, or must precede this one.
fn early_line(
    alloc: Global,
    place: Place,
    dependent: Option<u64>,
    task: u64,
) -> Result<String, AllocError>
    ensures { IfOk result (λ text. (rs : List Record) (i : ℕ)
        → place_text place.line place.thread place.seq ≡ record_place rs i
        → string_bytes text ≡ early_text dependent rs i task) }
{
    match dependent {
        Some(dependent) => late_line(alloc, place, task, dependent),
        None => no_line(alloc, place, task),
    }
}
