//! What an answer of `Items` says of completeness at a record. These are laws about the definitions alone, proved
//! for all records. The function does nothing.
ghost use Rattle.std.specs.Prelude.{ℕ, ◌≡◌, ◌+◌, List, [], ◌∷◌, ◌++◌, length, None};
ghost use Rattle.ompt_events.specs.declared.records.Record.{Record};
ghost use Rattle.ompt_events.specs.Records.{creation, dependences};
ghost use Rattle.ompt_events.specs.HappensBefore.{IsFinishing};
ghost use Rattle.ompt_events.specs.Completion.{IsCompleteAt, StartsTask};
ghost use Rattle.ompt_events.specs.Dependences.{IsPredecessor};
ghost use Rattle.online.specs.Online.{IsInOrder};
ghost use Rattle.online.specs.Items.{IsFinishedBelow};

/// What is finished below a length is complete at a record that names it.
///
/// - `below`: what is finished below the length that a record names is complete there.
/// - `own`: where the record starts a task, what it finishes itself counts too.
/// - `before`: a record that creates no task and lists no dependences adds no predecessor; so a taskwait with
///   dependences is tested before the record that completes it is read.
/// - `stays`: what is finished stays so.
pub fn ready_is_complete()
    ensures below { (rs : List Record) (r : Record) (task : ℕ) → IsFinishedBelow (rs ++ r ∷ []) task r.seen
        → IsCompleteAt (rs ++ r ∷ []) task (length rs) }
    ensures own { (rs : List Record) (r : Record) (task : ℕ) → IsInOrder (rs ++ r ∷ [])
        → StartsTask (rs ++ r ∷ []) (length rs) → IsFinishing (rs ++ r ∷ []) (length rs)
        → IsFinishedBelow (rs ++ r ∷ []) task (r.seen + 1) → IsCompleteAt (rs ++ r ∷ []) task (length rs) }
    ensures before { (rs : List Record) (r : Record) (task predecessor : ℕ) → creation r.body ≡ None
        → dependences r.body ≡ None → IsPredecessor (rs ++ r ∷ []) task predecessor
        → IsPredecessor rs task predecessor }
    ensures stays { (rs : List Record) (r : Record) (task limit : ℕ) → IsFinishedBelow rs task limit
        → IsFinishedBelow (rs ++ r ∷ []) task limit }
{}
