//! What the ledger of a trace says of tasks. These are laws about the definitions alone, proved for every
//! trace. The functions do nothing.
ghost use Rattle.std.specs.Prelude.{◌≡◌, ◌≢◌, ◌↔◌, ℕ, false, List, take};
ghost use Rattle.ompt_events.specs.declared.records.Record.{Record};
ghost use Rattle.ompt_events.specs.Traces.{IsTrace};
ghost use Rattle.ompt_events.specs.Tree.{HasPath, IsChild};
ghost use Rattle.ompt_events.specs.Turns.{in_own_order};
ghost use Rattle.task_tree.specs.Own.{OwnView};
ghost use Rattle.task_tree.specs.Families.{IsOwnOf};
ghost use Rattle.credit_ledger.specs.declared.entry.Entry.{Entry};
ghost use Rattle.credit_ledger.specs.Entries.{is_overlap};
ghost use Rattle.credit_ledger.specs.TraceEntries.{IsEntryAt, IsLedgerOf, IsDone, HasRightEntries};
ghost use Rattle.credit_ledger.specs.TraceEntries.{IsFreeUpTo, ShowsNoneUpTo};
ghost use Rattle.credit_ledger.specs.TraceCredits.{IsHeldInTree, IsHeldInPool, IsFamilyDone};

/// Records without the causes 1 to 13 have right entries. If a trace shows none of these causes, its
/// records in the tasks' own order have right entries, as a list and as the records of a run. The other
/// laws require right entries; two of them also require `IsTrace`.
pub fn entries_are_right()
    ensures listed { (rs : List Record) → IsFreeUpTo rs 13 → HasRightEntries rs }
    ensures shown { (rs : List Record) → ShowsNoneUpTo rs 13 → HasRightEntries (in_own_order rs) }
    ensures run { (rs : List Record) (own : OwnView) → IsOwnOf rs own → ShowsNoneUpTo rs 13
        → HasRightEntries own.run.records }
{}

/// Held credit means finished tasks. In a trace with right entries, the first n entries finish a task if
/// and only if they hold the share with which it starts in its parent's pool. They finish the task and all
/// its descendants if and only if they hold the share with which it starts in its root's tree (F. Mattern,
/// 1989: work is over exactly where all of its credit has come back).
pub fn held_is_done()
    ensures pool { (rs : List Record) (entries : List Entry) (n root parent number task : ℕ) (path : List ℕ)
        → IsTrace rs → HasRightEntries rs → IsLedgerOf rs entries
        → HasPath rs root parent path → IsChild rs parent number task
        → IsDone rs n task ↔ IsHeldInPool (take n entries) root path number }
    ensures tree { (rs : List Record) (entries : List Entry) (n root task : ℕ) (path : List ℕ)
        → IsTrace rs → HasRightEntries rs → IsLedgerOf rs entries
        → HasPath rs root task path
        → IsFamilyDone rs n task ↔ IsHeldInTree (take n entries) root path }
{}

/// Entries of two records do not overlap: in records with right entries, no two of them bring back the
/// same share, or a share and a part of it, of a root's tree or of a pool.
pub fn entries_are_apart()
    ensures { (rs : List Record) (i j index other : ℕ) (e f : Entry)
        → HasRightEntries rs → i ≢ j → IsEntryAt rs i index e → IsEntryAt rs j other f
        → is_overlap e f ≡ false }
{}

/// Each trace with right entries has a ledger. Its finishing records make the entries, one for each index.
pub fn ledger_is_there()
    ensures { (rs : List Record) → IsTrace rs → HasRightEntries rs
        → (entries : List Entry) × IsLedgerOf rs entries }
{}
