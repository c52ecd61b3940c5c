//! Which causes a gathered trace does not have, and when its finishing records pair off with the ledger's
//! entries. These are laws about the definitions alone, proved for whatever closed recorders leave. The
//! functions do nothing.
ghost use Rattle.std.specs.Prelude.{◌≡◌, ◌≤◌, ◌↔◌, ℕ, Some, length, slice_get};
ghost use Rattle.ompt_events.specs.declared.records.Record.{Record};
ghost use Rattle.ompt_events.specs.declared.records.Body.{Body};
ghost use Rattle.ompt_events.specs.declared.cause.Cause.TheVariants.{SeqGap, CreatedTwice, NestedParallel};
ghost use Rattle.ompt_events.specs.declared.cause.Cause.TheVariants.{EntryTwice, LengthAhead, LengthBack};
ghost use Rattle.ompt_events.specs.declared.cause.Cause.TheVariants.{RegionNesting, TargetTask};
ghost use Rattle.ompt_events.specs.Causes.{IsFreeOf, entries_in};
ghost use Rattle.credit_ledger.specs.declared.view.Call.TheVariants.{Look};
ghost use Rattle.credit_ledger.specs.Seats.{Extends, told_of};
ghost use Rattle.callbacks.specs.Logs.{AreRecorded};
ghost use Rattle.callbacks.specs.Recorders.{RecorderView, NoteView, IsBacked, entries_of};
ghost use Rattle.callbacks.specs.Closed.{ClosedView, AreClosed};
ghost use Rattle.callbacks.specs.Gathered.{gathered, HaveOwnThreads, ArePaired, AreHandedOver};
ghost use Rattle.callbacks.specs.Noted.{HasOneMore};

/// Each thread's records have the numbers 0, 1, 2 and so on, if no two recorders have the same thread
/// number.
pub fn threads_are_numbered()
    ensures { (closed : ClosedView) → AreClosed closed → HaveOwnThreads closed.buffers
        → IsFreeOf (gathered closed.buffers) SeqGap }
{}

/// No record of a trace of version 2 makes a task that is to run on a device.
pub fn no_task_is_on_a_device()
    ensures { (closed : ClosedView) → AreClosed closed → IsFreeOf (gathered closed.buffers) TargetTask }
{}

/// No parallel region of a trace of version 2 is inside another one, if no two recorders have the same thread
/// number and no task is made twice.
pub fn no_region_is_nested()
    ensures { (closed : ClosedView) → AreClosed closed → HaveOwnThreads closed.buffers
        → IsFreeOf (gathered closed.buffers) CreatedTwice
        → IsFreeOf (gathered closed.buffers) NestedParallel }
{}

/// A root begins inside another one only of a region that the current task of its thread has begun there, if
/// no two recorders have the same thread number.
pub fn no_region_is_misnested()
    ensures { (closed : ClosedView) → AreClosed closed → HaveOwnThreads closed.buffers
        → IsFreeOf (gathered closed.buffers) RegionNesting }
{}

/// No two finishing records name the same entry of the ledger, if no two recorders have the same thread
/// number.
pub fn no_entry_is_named_twice()
    ensures { (closed : ClosedView) → AreClosed closed → HaveOwnThreads closed.buffers
        → IsFreeOf (gathered closed.buffers) EntryTwice }
{}

/// If no two recorders have the same thread number, the finishing records and the ledger's entries pair off
/// one to one if and only if there are as many of each.
pub fn as_many_records_pair_off()
    ensures { (closed : ClosedView) → AreClosed closed → HaveOwnThreads closed.buffers
        → (entries_in (gathered closed.buffers) ≡ length closed.entries) ↔ ArePaired closed }
{}

/// If no two recorders have the same thread number and these pair off, no record names a greater length
/// than that of the ledger.
pub fn no_length_is_ahead()
    ensures { (closed : ClosedView) → AreClosed closed → HaveOwnThreads closed.buffers → ArePaired closed
        → IsFreeOf (gathered closed.buffers) LengthAhead }
{}

/// No record names a lesser length than one that the program puts before it, if no two recorders have the
/// same thread number and each task is handed over with a note.
pub fn lengths_never_fall()
    ensures { (closed : ClosedView) → AreClosed closed → HaveOwnThreads closed.buffers
        → AreHandedOver (gathered closed.buffers) → IsFreeOf (gathered closed.buffers) LengthBack }
{}

/// A note orders records: none that was made before the note was given names a greater length than one that is
/// made after it was met. For what the giver knew is in the note, and what the taker knows after the meeting is
/// not less; from then on no call of the taker lessens it, and each record names at least what is known.
pub fn notes_order_records()
    ensures ordered { (giver taker new : RecorderView) (note : NoteView) (i seen : ℕ) (a : Record) (body : Body)
        → AreRecorded giver.thread giver.records giver.known → slice_get giver.records i ≡ Some a
        → giver.known ≤ length (entries_of note.seat) → length (entries_of note.seat) ≤ taker.known
        → IsBacked taker.before taker.records taker.known taker.seat
        → HasOneMore taker seen body new → a.seen ≤ seen }
    ensures call { (old new : RecorderView) (seen : ℕ) (body : Body)
        → IsBacked old.before old.records old.known old.seat
        → HasOneMore old seen body new → old.known ≤ new.known }
    ensures meeting { (old new : RecorderView) (note : NoteView)
        → IsBacked old.before old.records old.known old.seat
        → Extends (told_of old.seat note.seat) Look new.known new.seat → old.known ≤ new.known }
{}
