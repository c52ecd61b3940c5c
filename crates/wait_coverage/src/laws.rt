//! What held credit says of tasks, and what a result in the tasks' own order says of the file. These are
//! laws about the definitions alone, proved for every trace. The functions do nothing.
ghost use Rattle.std.specs.Prelude.{◌≡◌, ◌↔◌, ℕ, List, Option, Some, MatchOption, slice_get};
ghost use Rattle.ompt_events.specs.declared.records.Record.{Record};
ghost use Rattle.ompt_events.specs.declared.cause.Cause.TheVariants.{TeamShort};
ghost use Rattle.ompt_events.specs.Causes.{IsFreeOf};
ghost use Rattle.ompt_events.specs.Traces.{IsTrace};
ghost use Rattle.task_tree.specs.Own.{OwnView, IsOwn};
ghost use Rattle.task_tree.specs.Families.{IsOwnOf};
ghost use Rattle.credit_ledger.specs.declared.entry.Entry.{Entry};
ghost use Rattle.credit_ledger.specs.declared.entry.Span.{Span};
ghost use Rattle.credit_ledger.specs.declared.entry.Cover.{Cover};
ghost use Rattle.credit_ledger.specs.TraceEntries.{IsLedgerOf, HasRightEntries};
ghost use Rattle.wait_coverage.specs.Spans.{AreSpans, AreHeldAt, IsCoverComplete};
ghost use Rattle.wait_coverage.specs.Waits.{IsFirstCoveredUnfinished};
ghost use Rattle.wait_coverage.specs.Shown.{IsCompleteShown, IsFirstUnfinishedShown};

/// The entries below the ledger length that an end names finish each task that it covers
/// (`IsCoverComplete`) if and only if they hold the start share of each child of its spans (`AreHeldAt`): in
/// its parent's pool for a taskwait, in the tree for the others (F. Mattern, 1989: work is over exactly where
/// all of its credit has come back). Requires that the trace has right entries, and that each team and
/// barrier has all its members. A trace without the causes 1 to 13 is such a one
/// (`credit_ledger::trace_laws::entries_are_right`).
pub fn held_is_complete()
    ensures { (rs : List Record) (entries : List Entry) (i : ℕ) (cover : Cover) (spans : List Span)
        → IsTrace rs → HasRightEntries rs → IsFreeOf rs TeamShort → IsLedgerOf rs entries
        → AreSpans rs i cover spans
        → IsCoverComplete rs i ↔ AreHeldAt rs entries i cover spans }
{}

/// What is unfinished at a wait by the records in the tasks' own order (`IsFirstCoveredUnfinished` of
/// specs/Waits) is also unfinished there by the trace alone (`IsFirstUnfinishedShown` of specs/Shown). Where
/// nothing is unfinished by the one (`IsCoverComplete` of specs/Spans), nothing is by the other
/// (`IsCompleteShown` of specs/Shown). So what `find_unfinished` returns, which searches the run in the
/// tasks' own order, is right by the trace alone.
pub fn unfinished_is_shown()
    ensures { (rs : List Record) (own : OwnView) (number place : ℕ) (found : Option ℕ) → IsOwnOf rs own
        → IsOwn own → slice_get own.places number ≡ Some place
        → MatchOption found (IsCoverComplete own.run.records number) (IsFirstCoveredUnfinished own number)
        → MatchOption found (IsCompleteShown rs place) (IsFirstUnfinishedShown rs place) }
{}
