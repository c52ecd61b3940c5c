//! What follows from the definitions of turns and of the tasks' own order alone. The functions do nothing:
//! their contracts are the laws.
ghost use Rattle.std.specs.Prelude.{◌≡◌, ◌↔◌, ◌⊎◌, ◌<◌, ℕ, List, length, slice_get, slice_index, Some};
ghost use Rattle.std.specs.List.Sorted.{IsPermutation};
ghost use Rattle.ompt_events.specs.declared.records.Record.{Record};
ghost use Rattle.ompt_events.specs.declared.cause.Cause.{Cause};
ghost use Rattle.ompt_events.specs.declared.cause.Cause.TheVariants.{CreatedTwice, NotCurrent, TurnGap, RegionOrder, TeamShort, ShareWrong};
ghost use Rattle.ompt_events.specs.Records.{started, suspended_turn};
ghost use Rattle.ompt_events.specs.Places.{at, places};
ghost use Rattle.ompt_events.specs.Traces.{IsTraceOf};
ghost use Rattle.ompt_events.specs.Turns.{TellsNoTurns, turn_at, own_places, own_place, in_own_order};
ghost use Rattle.ompt_events.specs.Tree.{IsExplicit, children, HasPath};
ghost use Rattle.ompt_events.specs.Threads.{MisfitsAt};
ghost use Rattle.ompt_events.specs.HappensBefore.{IsResumption};
ghost use Rattle.ompt_events.specs.Coverage.{Covers};
ghost use Rattle.ompt_events.specs.Dependences.{IsPredecessor};
ghost use Rattle.ompt_events.specs.Violations.{IsRequired, MustBeComplete};
ghost use Rattle.ompt_events.specs.Causes.{HasCause, Shows, IsFreeOf};
ghost use Rattle.task_tree.specs.Renaming.{IsRenaming};
ghost use Rattle.task_tree.specs.Rising.{TurnsRise};

/// The tasks' own order has each record of the file once. Of two records, the one in the earlier turn comes
/// first; of two in one turn, the one that is earlier in the file.
pub fn own_order_is_by_turn()
    ensures permuted { (records : List Record) → IsPermutation (places records) (own_places records) }
    ensures as_long { (records : List Record)
        → (length (own_places records) ≡ length records) × (length (in_own_order records) ≡ length records) }
    ensures within { (records : List Record) (i : ℕ)
        → own_place records i < length records ↔ i < length records }
    ensures stands { (records : List Record) (i : ℕ) → i < length records
        → (slice_get (own_places records) (own_place records i) ≡ Some i)
        × (slice_get (in_own_order records) (own_place records i) ≡ slice_get records i) }
    ensures once { (records : List Record) (n i : ℕ) → slice_get (own_places records) n ≡ Some i
        → own_place records i ≡ n }
    ensures by_turn { (records : List Record) (i k : ℕ) → i < length records → k < length records
        → own_place records i < own_place records k
        ↔ ((turn_at records i < turn_at records k) ⊎ ((turn_at records i ≡ turn_at records k) × (i < k))) }
{}

/// Records in another order say the same, whatever turns they give, if each task's own records keep their
/// order, and so do those at which members of teams begin. Each task has the same children and the same
/// paths, and waits for the same earlier siblings; the end of each region waits for the same tasks; and the
/// causes of regions, of teams and of claims are at the same records.
pub fn renamed_records_say_the_same()
    ensures children { (rs ss : List Record) (to back : ℕ → ℕ) → IsRenaming rs ss to back
        → (task : ℕ) → children rs task ≡ children ss task }
    ensures paths { (rs ss : List Record) (to back : ℕ → ℕ) → IsRenaming rs ss to back
        → (root task : ℕ) (path : List ℕ) → HasPath rs root task path ↔ HasPath ss root task path }
    ensures covers { (rs ss : List Record) (to back : ℕ → ℕ) → IsRenaming rs ss to back
        → (i task : ℕ) → Covers rs i task ↔ Covers ss (to i) task }
    ensures predecessors { (rs ss : List Record) (to back : ℕ → ℕ) → IsRenaming rs ss to back
        → (task other : ℕ) → IsPredecessor rs task other ↔ IsPredecessor ss task other }
    ensures region_order { (rs ss : List Record) (to back : ℕ → ℕ) → IsRenaming rs ss to back
        → (i : ℕ) → HasCause rs i RegionOrder ↔ HasCause ss (to i) RegionOrder }
    ensures team_short { (rs ss : List Record) (to back : ℕ → ℕ) → IsRenaming rs ss to back
        → (i : ℕ) → HasCause rs i TeamShort ↔ HasCause ss (to i) TeamShort }
    ensures share_wrong { (rs ss : List Record) (to back : ℕ → ℕ) → IsRenaming rs ss to back
        → (i : ℕ) → HasCause rs i ShareWrong ↔ HasCause ss (to i) ShareWrong }
{}

/// If no task's turns fall along the file, the tasks' own order keeps the order of each task's records, and
/// that of the records at which members of teams begin.
pub fn rising_turns_are_a_renaming()
    ensures { (records : List Record) → TurnsRise records
        → IsRenaming records (in_own_order records) (own_place records) (slice_index (own_places records)) }
{}

/// If no task's turns fall along the file, file order says what the tasks' own order says: the causes that
/// the records show, and the tasks that must be complete at a record, are those by file order.
pub fn rising_turns_change_nothing()
    ensures causes { (records : List Record) → TurnsRise records → (i : ℕ) (cause : Cause)
        → Shows records i cause ↔ HasCause records i cause }
    ensures required { (records : List Record) → TurnsRise records → (i task : ℕ)
        → MustBeComplete records i task ↔ IsRequired records i task }
{}

/// If no record gives a turn, no task's turns fall along the file.
pub fn without_turns_all_rise()
    ensures { (records : List Record) → TellsNoTurns records → TurnsRise records }
{}

/// A trace of version 1 gives no turns. So its records show the causes that they have by file order, and
/// what must be complete at a record is what must be complete there by file order.
pub fn version_1_is_read_in_file_order()
    ensures causes { (records : List Record) → IsTraceOf 1 records → (i : ℕ) (cause : Cause)
        → Shows records i cause ↔ HasCause records i cause }
    ensures required { (records : List Record) → IsTraceOf 1 records → (i task : ℕ)
        → MustBeComplete records i task ↔ IsRequired records i task }
    ensures gapless { (records : List Record) → IsTraceOf 1 records → IsFreeOf records TurnGap }
{}

/// If no record is the first of its thread that speaks for a task which the thread does not run, no record
/// at all speaks for such a task.
pub fn without_not_current_none_misfits()
    ensures { (records : List Record) → IsFreeOf records NotCurrent → (i : ℕ) → MisfitsAt records i → ⊥ }
{}

/// In version 2 a created task is suspended at most once in each of its turns. So a record at which it runs
/// on awaits at most one record at which it was suspended. This assumes that no record shows the causes 2,
/// 4 and 5: no task is made twice, each record is of the task that its thread runs, and the turns that the
/// records give are those of the tasks.
pub fn suspended_once_in_a_turn()
    ensures suspended { (records : List Record) → IsTraceOf 2 records → IsFreeOf records CreatedTwice
        → IsFreeOf records NotCurrent → IsFreeOf records TurnGap
        → (task turn a b : ℕ) → IsExplicit records task
        → at suspended_turn records a ≡ Some (task, turn) → at suspended_turn records b ≡ Some (task, turn)
        → a ≡ b }
    ensures awaited { (records : List Record) → IsTraceOf 2 records → IsFreeOf records CreatedTwice
        → IsFreeOf records NotCurrent → IsFreeOf records TurnGap
        → (task a b i : ℕ) → IsExplicit records task
        → at started records i ≡ Some task → IsResumption records a i → IsResumption records b i → a ≡ b }
{}
