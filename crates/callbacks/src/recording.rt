//! The recorder of one thread.
ghost use Rattle.std.specs.Prelude.{◌≡◌, ◌≤◌, ◌<◌, ◌+◌, [], None, Some, true, false, length, ℕ, IfOk, IfErr, OnOk, OnErr, IsErr, IsOkUnless};
ghost use Rattle.ompt_events.specs.Records.{begun_root, forked};
ghost use Rattle.ompt_events.specs.Limits.{max_records};
ghost use Rattle.ompt_events.specs.Records.{finish};
ghost use Rattle.ompt_events.specs.Traces.{IsSoundIn};
ghost use Rattle.credit_ledger.specs.declared.view.Call.TheVariants.{Enter, Look};
ghost use Rattle.credit_ledger.specs.Entries.{entry_fault};
ghost use Rattle.credit_ledger.specs.Seats.{Extends, IsCopy, told_of, with_given};
ghost use Rattle.credit_ledger.specs.Places.{ledger_id, seat_id, view_of};
ghost use Rattle.callbacks.specs.declared.fault.CallFault.TheVariants.{Memory};
ghost use Rattle.callbacks.specs.Calls.{ledger_refusal};
ghost use Rattle.callbacks.specs.Standing.{standing_of, innermost};
ghost use Rattle.callbacks.specs.Logs.{AreRecorded, AreOfKind};
ghost use Rattle.callbacks.specs.Recorders.{IsBacked, entries_of, uses_ledger, recorded_alone, IsObserved, IsConcluded, IsFinishRefused, entry_by, allowed, may_fork, refusal_at};

use crate::Buffer;
use crate::fault::{CallFault, of_ledger};
use crate::log::Log;
use crate::past::Past;
use crate::standing::Standing;
use crate::task::TaskData;
use credit_ledger::{Entry, News, Seat, SharedLedger};
use ompt_events::Body;
use std::alloc::Global;
use std::marker::Model;
use std::sync::Wait;

/// The recorder of one thread. Its calls are the callbacks of an OMPT tool (OpenMP 5.2, 19.5.2): each that
/// succeeds appends one record. Schedules, discards, the ends of regions and [`Recorder::meet`] look at the
/// ledger that all threads share or add to it, and may wait for their turn there; no other call waits.
#[derive(Drop)]
pub struct Recorder {
    alloc: Global,
    log: Log,
    past: Past,
    seat: Seat,
}

impl Model for Recorder {
    ghost use Rattle.ompt_events.specs.Limits.{max_records};
    ghost use Rattle.credit_ledger.specs.Places.{seat_id, view_of};
    ghost use Rattle.callbacks.specs.Recorders.{RecorderView, IsBacked};

    ghost Value = { RecorderView };

    ghost view = { λ recorder. record {
      thread = recorder.log.thread;
      nests = recorder.log.nests;
      records = recorder.log.records;
      capacity = max_records;
      known = recorder.log.known;
      ledger = seat_id recorder.seat;
      before = recorder.past.calls;
      seat = view_of recorder.seat;
    } };

    ghost invariant = { λ recorder.
        IsBacked recorder.past.calls recorder.log.records recorder.log.known (view_of recorder.seat) };
}

/// What one recorder has seen of the ledger, for another one. When a task goes to another thread, pass a
/// note with it, and let that thread meet the note first. Then what the task did here comes before what it
/// does there.
#[derive(Drop)]
pub struct Note {
    news: News,
}

impl Model for Note {
    ghost use Rattle.credit_ledger.specs.Places.{news_id, view_told};
    ghost use Rattle.callbacks.specs.Recorders.{NoteView};

    ghost Value = { NoteView };

    ghost view = { λ note. record { ledger = news_id note.news; seat = view_told note.news } };
}

impl Note {
    /// Returns the same note again, for one more recorder to meet.
    pub fn again(&mut self, ledger: &SharedLedger) -> Note
        requires { self.old.ledger ≡ ledger_id ledger.now }
        ensures same { self.new
            ≡ record self.old { seat = with_given self.old.seat (result.seat.number + 1) } }
        ensures ledger { result.ledger ≡ self.old.ledger }
        ensures copy { IsCopy self.old.seat result.seat }
    {
        Note {
            news: ledger.again(&mut self.news),
        }
    }
}

impl Recorder {
    /// Returns a recorder without records, for the thread with this number, whose records become part of a
    /// trace of version 2: no parallel region is begun inside another one. Each recorder of a ledger needs its
    /// own number and its own seat. Takes no memory.
    pub fn new(alloc: Global, thread: u8, seat: Seat) -> Recorder
        ensures thread { result.thread ≡ thread }
        ensures nests { result.nests ≡ false }
        ensures records { result.records ≡ [] }
        ensures capacity { result.capacity ≡ max_records }
        ensures known { result.known ≡ 0 }
        ensures ledger { result.ledger ≡ seat_id seat }
        ensures before { result.before ≡ (view_of seat).own }
        ensures seat { result.seat ≡ view_of seat }
    {
        Recorder {
            alloc,
            log: Log::new(alloc, thread, false),
            past: Past::of(&seat),
            seat,
        }
    }

    /// Returns the same for a trace of version 3: any task that runs may begin a parallel region (OpenMP 5.2,
    /// 10.1), and a thread inside a region begins a root only of a region that its current task began there.
    pub fn for_version_3(alloc: Global, thread: u8, seat: Seat) -> Recorder
        ensures thread { result.thread ≡ thread }
        ensures nests { result.nests ≡ true }
        ensures records { result.records ≡ [] }
        ensures capacity { result.capacity ≡ max_records }
        ensures known { result.known ≡ 0 }
        ensures ledger { result.ledger ≡ seat_id seat }
        ensures before { result.before ≡ (view_of seat).own }
        ensures seat { result.seat ≡ view_of seat }
    {
        Recorder {
            alloc,
            log: Log::new(alloc, thread, true),
            past: Past::of(&seat),
            seat,
        }
    }

    /// Returns the number of the thread. As each recorder, this one has a capacity of 2^22 records.
    pub fn thread(&self) -> u8
        ensures value { result ≡ self.now.thread }
        ensures capacity { self.now.capacity ≡ max_records }
    {
        self.log.thread()
    }

    /// Returns the open roots of the thread and the task that it runs, by its records.
    pub(crate) fn standing(&self) -> &Standing
        ensures { result.now ≡ standing_of self.now.records }
    {
        self.log.standing()
    }

    /// Returns the task that the thread runs, by its records.
    pub fn current(&self) -> Option<u64>
        ensures { result ≡ (standing_of self.now.records).walk.current }
    {
        self.log.standing().current()
    }

    /// Returns the innermost initial or implicit task that is open on the thread.
    pub fn innermost_root(&self) -> Option<u64>
        ensures { result ≡ innermost (standing_of self.now.records) }
    {
        self.log.standing().innermost()
    }

    /// Returns the task that was created last, while its dependences are awaited: they must be the next
    /// record.
    pub fn awaits(&self) -> Option<u64>
        ensures { result ≡ (standing_of self.now.records).awaited }
    {
        self.log.standing().awaited()
    }

    /// Returns the length of the ledger that the recorder knew last.
    pub fn known(&self) -> u32
        ensures { result ≡ self.now.known }
    {
        self.log.known()
    }

    /// Returns a note of what this recorder has seen, for another one to meet. Takes no memory.
    pub fn note(&mut self, ledger: &SharedLedger) -> Note
        requires { self.old.ledger ≡ ledger_id ledger.now }
        ensures recorder { self.new
            ≡ record self.old { seat = with_given self.old.seat (result.seat.number + 1) } }
        ensures ledger { result.ledger ≡ self.old.ledger }
        ensures copy { IsCopy self.old.seat result.seat }
        ensures knows { self.old.known ≤ length (entries_of result.seat) }
    {
        Note {
            news: ledger.news(&mut self.seat),
        }
    }

    /// Learns what another recorder had seen when it gave the note. Looks at the ledger, and may wait for
    /// its turn there.
    pub fn meet<R: Wait>(&mut self, ledger: &SharedLedger, wait: &R, note: Note)
        requires ledger { self.old.ledger ≡ ledger_id ledger.now }
        requires note { note.ledger ≡ ledger_id ledger.now }
        ensures thread { self.new.thread ≡ self.old.thread }
        ensures nests { self.new.nests ≡ self.old.nests }
        ensures records { self.new.records ≡ self.old.records }
        ensures capacity { self.new.capacity ≡ self.old.capacity }
        ensures ledger { self.new.ledger ≡ self.old.ledger }
        ensures before { self.new.before ≡ self.old.before }
        ensures looked { Extends (told_of self.old.seat note.seat) Look self.new.known self.new.seat }
        ensures knows { length (entries_of note.seat) ≤ self.new.known }
    {
        let known = ledger.meet(wait, &mut self.seat, note.news);
        self.log.learn(known);
    }

    /// Learns the same without a look at the ledger: what was seen counts from the next call on that uses the
    /// ledger. Waits for nothing.
    pub fn hear(&mut self, ledger: &SharedLedger, note: Note)
        requires ledger { self.old.ledger ≡ ledger_id ledger.now }
        requires note { note.ledger ≡ ledger_id ledger.now }
        ensures { self.new ≡ record self.old { seat = told_of self.old.seat note.seat } }
    {
        ledger.hear(&mut self.seat, note.news);
    }

    /// Returns the records and the seat, and ends the recorder.
    pub fn into_parts(self) -> (Buffer, Seat)
        ensures thread { result.0.thread ≡ self.thread }
        ensures records { result.0.records ≡ self.records }
        ensures ledger { seat_id result.1 ≡ self.ledger }
        ensures seat { view_of result.1 ≡ self.seat }
        ensures of_kind { AreOfKind self.nests self.records }
        ensures recorded { AreRecorded self.thread self.records self.known }
        ensures backed { IsBacked self.before self.records self.known self.seat }
    {
        let Recorder { log, seat, .. } = self;
        (log.into_buffer(), seat)
    }
}

// How records are made.
impl Recorder {
    /// Returns whether the task may begin a parallel region: any task where regions may lie inside others, else
    /// only an initial task.
    pub(crate) fn may_fork(&self, task: &TaskData) -> bool
        ensures { result ≡ may_fork self.now task.now }
    {
        self.log.nests() || task.is_initial()
    }

    /// Returns the allocator of the recorder.
    pub(crate) fn allocator(&self) -> Global {
        self.alloc
    }

    /// Fails if a call that would add a record with this body is refused for a reason other than memory.
    /// The caller passes whether its tasks allow the call, whether they are too deep, and whether they have
    /// no room for more.
    #[tactic(auto, unfolding(crate::specs::Recorders::refusal_at))]
    pub(crate) fn test(
        &self,
        may: bool,
        deep: bool,
        full: bool,
        body: &Body,
    ) -> Result<(), CallFault>
        ensures passed { OnOk result (refusal_at self.now may deep full body.now ≡ None) }
        ensures fault { IfErr result (λ fault. refusal_at self.now may deep full body.now ≡ Some fault) }
        ensures may { OnOk result (may ≡ true) }
        ensures allowed { OnOk result (allowed self.now body.now ≡ true) }
        ensures deep { OnOk result (deep ≡ false) }
        ensures full { OnOk result (full ≡ false) }
        ensures few { OnOk result (length self.now.records < max_records) }
    {
        if !may || !self.log.allows(body) {
            return Err(CallFault::WrongState);
        }
        if deep {
            return Err(CallFault::TooDeep);
        }
        if full || self.log.is_full() {
            return Err(CallFault::Full);
        }
        Ok(())
    }

    /// Adds a record of a call that does not use the ledger. When out of memory, returns the body.
    pub(crate) fn append(&mut self, body: Body) -> Result<(), Body>
        requires few { length self.old.records < max_records }
        requires allowed { allowed self.old body ≡ true }
        requires sound { IsSoundIn 2 body }
        requires unfinished { finish body ≡ None }
        requires alone { uses_ledger body ≡ false }
        ensures made { OnOk result (self.new ≡ recorded_alone self.old body) }
        ensures unchanged { OnErr result (self.new ≡ self.old) }
        ensures returned { IfErr result (λ back. back ≡ body) }
    {
        let Ok(()) = self.log.reserve() else {
            return Err(body);
        };
        let seen = self.log.known();
        self.log.try_push(seen, body)?;
        Ok(())
    }

    /// Looks at the ledger, adds a record that names its length, and returns that length. Fails only when
    /// out of memory. Requires that the record is one that uses the ledger, and begins neither a root nor a
    /// region.
    pub(crate) fn observe<R: Wait>(
        &mut self,
        ledger: &SharedLedger,
        wait: &R,
        body: Body,
    ) -> Result<u32, CallFault>
        requires ledger { self.old.ledger ≡ ledger_id ledger.now }
        requires few { length self.old.records < max_records }
        requires allowed { allowed self.old body ≡ true }
        requires sound { IsSoundIn 2 body }
        requires unfinished { finish body ≡ None }
        requires looks { uses_ledger body ≡ true }
        requires no_root { begun_root body ≡ None }
        requires no_region { forked body ≡ None }
        ensures ledger { self.new.ledger ≡ self.old.ledger }
        ensures made { IfOk result (λ seen. IsObserved self.old seen body self.new) }
        ensures unchanged { OnErr result (self.new ≡ self.old) }
        ensures memory { IsOkUnless result Memory }
    {
        self.log.reserve()?;
        let seen = ledger.look(wait, &mut self.seat);
        self.log.push(seen, body);
        Ok(seen)
    }

    /// Puts an entry into the ledger, adds the record that makes it, and returns the entry's index. Fails
    /// when out of memory, or if the ledger refuses the entry. Requires that the record begins neither a root
    /// nor a region.
    pub(crate) fn conclude<R: Wait>(
        &mut self,
        ledger: &SharedLedger,
        wait: &R,
        entry: Entry,
        body: Body,
    ) -> Result<u32, CallFault>
        requires ledger { self.old.ledger ≡ ledger_id ledger.now }
        requires few { length self.old.records < max_records }
        requires allowed { allowed self.old body ≡ true }
        requires sound { IsSoundIn 2 body }
        requires makes { entry_by self.old.thread body ≡ Some entry }
        requires no_root { begun_root body ≡ None }
        requires no_region { forked body ≡ None }
        requires short { length entry.path ≤ 1024 }
        ensures ledger { self.new.ledger ≡ self.old.ledger }
        ensures made { IfOk result (λ index. IsConcluded self.old entry index body self.new) }
        ensures fault { IfErr result (IsFinishRefused self.old None (Some entry) self.new) }
    {
        self.log.reserve()?;
        let index = enter(ledger, wait, &mut self.seat, entry)?;
        self.log.push(index, body);
        Ok(index)
    }
}

/// Puts an entry into the ledger, and returns its index. Fails if the ledger refuses it.
fn enter<R: Wait>(
    ledger: &SharedLedger,
    wait: &R,
    seat: &mut Seat,
    entry: Entry,
) -> Result<u32, CallFault>
    requires ledger { seat_id seat.old ≡ ledger_id ledger.now }
    requires short { length entry.path ≤ 1024 }
    ensures seat { seat_id seat.new ≡ seat_id seat.old }
    ensures entered { IfOk result (λ index.
        Extends (view_of seat.old) (Enter entry) index (view_of seat.new)) }
    ensures looked { IfErr result (λ fault.
        (seen : ℕ) × Extends (view_of seat.old) Look seen (view_of seat.new)) }
    ensures fault { IfErr result (λ fault.
        fault ≡ ledger_refusal (entry_fault (entries_of (view_of seat.new)) entry)) }
{
    match ledger.enter(wait, seat, entry) {
        Ok(receipt) => Ok(receipt.index),
        Err((_, fault)) => Err(of_ledger(fault)),
    }
}
