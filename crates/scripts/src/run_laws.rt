//! What a run of a script records. These are laws about the definitions alone, proved for every
//! script. The functions do nothing.
ghost use Rattle.std.specs.Prelude.{◌≡◌, ◌≢◌, ◌<◌, ℕ, List, None, Some, false, length, map, slice_get, take};
ghost use Rattle.std.specs.Prelude.{AllPairs, Contains};
ghost use Rattle.ompt_events.specs.declared.records.Record.{Record};
ghost use Rattle.credit_ledger.specs.Credits.{Credit, credits_after};
ghost use Rattle.credit_ledger.specs.declared.entry.Entry.{Entry};
ghost use Rattle.credit_ledger.specs.Entries.{is_overlap};
ghost use Rattle.credit_ledger.specs.TraceEntries.{entry_of};
ghost use Rattle.scripts.specs.Scripts.{ScriptView, IsScript};
ghost use Rattle.callbacks.specs.Gathered.{AreHandedOver};
ghost use Rattle.scripts.specs.Called.{recorded_calls, calls_of};
ghost use Rattle.scripts.specs.HandOvers.{ArePassedOn};
ghost use Rattle.scripts.specs.Progress.{own_records, progress_to, refused_at, thread_records};
ghost use Rattle.scripts.specs.Progress.{without_seen};
ghost use Rattle.scripts.specs.Tiling.{Holder, credit_held, events_of};

/// Entries of two records of a run do not overlap: no two of them bring back the same share, or a share and
/// a part of it, of a root's tree or of a pool (F. Mattern, 1989). What an entry brings back does not depend
/// on the length that its record names, so this holds in whatever order the ledger takes the entries.
pub fn entries_of_a_run_are_apart()
    ensures { (script : ScriptView) (n i j : ℕ) (r q : Record) (e f : Entry)
        → IsScript script.steps → i ≢ j
        → slice_get (progress_to script n).records i ≡ Some r
        → slice_get (progress_to script n).records j ≡ Some q
        → entry_of r ≡ Some e → entry_of q ≡ Some f
        → is_overlap e f ≡ false }
{}

/// The records of a run have the calls of its script. As long as no step is refused, the records of each
/// thread have the calls of its steps in their order, but for what recorders add: claims, turns, and the
/// values with which a root began.
pub fn records_have_the_calls()
    ensures begun { (script : ScriptView) (n thread : ℕ)
        → IsScript script.steps → ((at : ℕ) → at < n → refused_at script at ≡ None)
        → recorded_calls (own_records script n thread) ≡ calls_of (take n script.steps) thread }
    ensures whole { (script : ScriptView) (thread : ℕ)
        → IsScript script.steps → ((at : ℕ) → refused_at script at ≡ None)
        → recorded_calls (own_records script (length script.steps) thread) ≡ calls_of script.steps thread }
{}

/// The credits of a run are those of the machine of credits, up to their order: those of live tasks and of
/// roots that have ended, and those that records entered, each once, are the credits after the events that
/// the records tell. So they tile each root's whole credit, by `credit_ledger::share_laws::shares_tile`.
pub fn credits_are_the_machines()
    ensures { (script : ScriptView) (n : ℕ)
        → IsScript script.steps
        → (holders : List Holder) × (AllPairs (λ h k. h ≢ k) holders)
        × ((h : Holder) (c : Credit) → credit_held script n h ≡ Some c → Contains holders h)
        × (map Some (credits_after (events_of (progress_to script n).records))
        ≡ map (credit_held script n) holders) }
{}

/// In a run each task is handed over with the ledger's length: from its creation to its start, its discard or
/// the fulfilment of its event, and from a suspension to its next turn, the later record names no lesser
/// length. For this it is enough that the length does not fall from a step that names a task to the next step
/// that names it, since the steps of a hand-over come in this order in the script. In what order the file has
/// their records does not matter.
pub fn tasks_are_handed_over()
    ensures { (script : ScriptView) (rs : List Record)
        → IsScript script.steps → ((at : ℕ) → refused_at script at ≡ None)
        → ((thread : ℕ)
        → map without_seen (thread_records rs thread) ≡ own_records script (length script.steps) thread)
        → ArePassedOn script.steps rs → AreHandedOver rs }
{}
