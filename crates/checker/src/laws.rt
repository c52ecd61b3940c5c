//! A trace has one verdict; what an unfinished task shows about orders; and what turns and versions change in a
//! verdict.
//! These are laws about the definitions alone, proved for all records. The functions do nothing.
ghost use Rattle.std.specs.Prelude.{◌≡◌, ◌≢◌, ◌<◌, ◌↔◌, ℕ, true, List, Option, Some, All};
ghost use Rattle.ompt_events.specs.declared.records.Record.{Record};
ghost use Rattle.ompt_events.specs.declared.cause.Cause.TheVariants.{CreatedTwice, NotCurrent, TurnGap, StatusOrder};
ghost use Rattle.ompt_events.specs.declared.cause.Cause.TheVariants.{RegionNesting};
ghost use Rattle.ompt_events.specs.Records.{begun_root, started, suspended_turn};
ghost use Rattle.ompt_events.specs.Places.{at, is_own, places};
ghost use Rattle.ompt_events.specs.Traces.{IsTraceOf, IsKnown, FitsIn};
ghost use Rattle.ompt_events.specs.Turns.{own_place};
ghost use Rattle.ompt_events.specs.Tree.{IsExplicit};
ghost use Rattle.ompt_events.specs.Causes.{IsFreeOf};
ghost use Rattle.ompt_events.specs.HappensBefore.{IsStart};
ghost use Rattle.ompt_events.specs.Linearization.{IsEarlier, IsLinearization};
ghost use Rattle.ompt_events.specs.Completion.{IsCompleteAt};
ghost use Rattle.ompt_events.specs.Ends.{AreSameButForEnds};
ghost use Rattle.ompt_events.specs.Upgrades.{IsUpgrade, IsRelabelled, MovesNowhere};
ghost use Rattle.ompt_events.specs.Violations as violations;
ghost use Rattle.task_tree.specs.Rising.{TurnsRise};
ghost use Rattle.checker.specs.declared.verdict.Verdict.{Verdict};
ghost use Rattle.checker.specs.declared.verdict.Verdict.TheVariants.{Yes};
ghost use Rattle.checker.specs.Readings.{by_task, by_file, IsRequiredBy};
ghost use Rattle.checker.specs.Verdicts.{ShowsNone, IsUnfinished, IsMissed, IsVerdict, IsVerdictBy};
ghost use Rattle.checker.specs.Counter.{IsCounterBy};

/// A trace has one verdict: a yes one order, a no one record, task and reason, and malformed one record and
/// cause. This holds by each task's own order, and by the order of the file alone.
pub fn a_trace_has_one_verdict()
    ensures by_task { (version : ℕ) (rs : List Record) (verdict other : Verdict) → IsTraceOf version rs
        → IsVerdict rs verdict → IsVerdict rs other → verdict ≡ other }
    ensures by_file { (version : ℕ) (rs : List Record) (verdict other : Verdict) → IsTraceOf version rs
        → IsVerdictBy (by_file rs) verdict → IsVerdictBy (by_file rs) other → verdict ≡ other }
{}

/// Unfinished means missed. Let no cause occur and the records have an order. Then a task that must be
/// complete at a record is unfinished by what the record has seen if and only if some order of all records,
/// allowed by them, leaves it incomplete there.
pub fn unfinished_is_missed()
    ensures { (rs : List Record) (order : List ℕ) (i task : ℕ)
        → ShowsNone (by_task rs) → IsLinearization rs order
        → IsUnfinished (by_task rs) i task ↔ IsMissed (by_task rs) i task }
{}

/// Each order that the records allow keeps each task's own order. Let a trace show no cause, and let the
/// order be a linearization of its records.
///
/// - `own_order`: of two records of one task, the one that is earlier in the task's own order is earlier.
/// - `starts`: the record that first starts a task is earlier than each record at which the task resumes.
/// - `begins`: the record that begins an initial or implicit task is earlier than each at which it resumes.
pub fn each_order_keeps_every_tasks_own_order()
    ensures own_order { (version : ℕ) (rs : List Record) (order : List ℕ) → IsTraceOf version rs
        → ShowsNone (by_task rs) → IsLinearization rs order
        → (task i k : ℕ) → is_own rs task i ≡ true → is_own rs task k ≡ true
        → own_place rs i < own_place rs k → IsEarlier order i k }
    ensures starts { (version : ℕ) (rs : List Record) (order : List ℕ) → IsTraceOf version rs
        → ShowsNone (by_task rs) → IsLinearization rs order
        → (task i k : ℕ) → IsStart rs i task → at started rs k ≡ Some task → i ≢ k → IsEarlier order i k }
    ensures begins { (rs : List Record) (order : List ℕ) → ShowsNone (by_task rs) → IsLinearization rs order
        → (task i k : ℕ) → at begun_root rs i ≡ Some task → at started rs k ≡ Some task
        → IsEarlier order i k }
{}

/// In a trace of version 2 or 3 a created task is suspended at most once in each of its turns. This assumes that
/// no record shows the causes 2, 4, 5 and 6: no task is made twice, each record is of the task that its thread
/// runs, the turns that the records give are those of the tasks, and each task is started and stopped as its
/// state allows.
pub fn a_task_is_suspended_once_in_a_turn()
    ensures { (version : ℕ) (rs : List Record) → IsTraceOf version rs → 1 < version
        → IsFreeOf rs CreatedTwice → IsFreeOf rs NotCurrent → IsFreeOf rs TurnGap → IsFreeOf rs StatusOrder
        → (task turn a b : ℕ) → IsExplicit rs task
        → at suspended_turn rs a ≡ Some (task, turn) → at suspended_turn rs b ≡ Some (task, turn) → a ≡ b }
{}

/// Where no task's turns fall along the file, the order of the file alone gives the same verdict as each
/// task's own order, record for record, and the same counter orders. A trace of version 1 records no turns,
/// so this holds of each such trace.
pub fn file_order_gives_the_verdict()
    ensures rising { (rs : List Record) → TurnsRise rs → (verdict : Verdict)
        → IsVerdict rs verdict ↔ IsVerdictBy (by_file rs) verdict }
    ensures rising_counter { (rs : List Record) → TurnsRise rs → (i task : ℕ) (found : Option (List ℕ))
        → IsCounterBy (by_task rs) i task found ↔ IsCounterBy (by_file rs) i task found }
    ensures version_1 { (rs : List Record) → IsTraceOf 1 rs → (verdict : Verdict)
        → IsVerdict rs verdict ↔ IsVerdictBy (by_file rs) verdict }
    ensures version_1_counter { (rs : List Record) → IsTraceOf 1 rs → (i task : ℕ) (found : Option (List ℕ))
        → IsCounterBy (by_task rs) i task found ↔ IsCounterBy (by_file rs) i task found }
{}

/// A task is required at a record, in the sense of a verdict, if and only if it must be complete there by
/// the definitions of waits and dependences.
pub fn required_is_owed_by_waits_and_dependences()
    ensures by_task { (rs : List Record) (i task : ℕ)
        → IsRequiredBy (by_task rs) i task ↔ violations.MustBeComplete rs i task }
    ensures by_file { (rs : List Record) (i task : ℕ)
        → IsRequiredBy (by_file rs) i task ↔ violations.IsRequired rs i task }
{}

/// Let no task of a trace of version 1 move. Upgraded to version 2, the trace has the same verdict, record
/// for record and with the same order, and the same counter orders.
pub fn an_upgrade_keeps_the_verdict()
    ensures verdict { (rs upgraded : List Record) → IsTraceOf 1 rs → MovesNowhere rs → IsUpgrade rs upgraded
        → (verdict : Verdict) → IsVerdict rs verdict ↔ IsVerdict upgraded verdict }
    ensures counter { (rs upgraded : List Record) → IsTraceOf 1 rs → MovesNowhere rs → IsUpgrade rs upgraded
        → (i task : ℕ) (found : Option (List ℕ))
        → IsCounterBy (by_task rs) i task found ↔ IsCounterBy (by_task upgraded) i task found }
{}

/// Let a trace of version 2 show no cause, and let its records in version 3 have no RegionNesting: each root that
/// begins there inside another one begins where the task that runs there has begun its region. Then the trace
/// has the same verdict in version 3, record for record and with the same order, and the same counter orders.
pub fn version_3_keeps_the_verdict()
    ensures verdict { (rs relabelled : List Record) → IsTraceOf 2 rs → ShowsNone (by_task rs)
        → IsRelabelled rs relabelled → IsFreeOf relabelled RegionNesting
        → (verdict : Verdict) → IsVerdict rs verdict ↔ IsVerdict relabelled verdict }
    ensures counter { (rs relabelled : List Record) → IsTraceOf 2 rs → ShowsNone (by_task rs)
        → IsRelabelled rs relabelled → IsFreeOf relabelled RegionNesting
        → (i task : ℕ) (found : Option (List ℕ))
        → IsCounterBy (by_task rs) i task found ↔ IsCounterBy (by_task relabelled) i task found }
{}

/// A trace of version 1 that shows no cause can be upgraded: none of its tasks moves.
pub fn a_well_formed_first_version_can_be_upgraded()
    ensures { (rs : List Record) → IsTraceOf 1 rs → ShowsNone (by_task rs) → MovesNowhere rs }
{}

/// What the end of an initial or implicit task says of its team tells nothing. Let two lists of records be the
/// same but for the size of the team and the number there that such an end repeats. Then they have the same
/// verdict, record for record and with the same order, and the same counter orders.
pub fn the_end_of_a_root_tells_nothing_of_its_team()
    ensures verdict { (rs ss : List Record) → AreSameButForEnds rs ss
        → (verdict : Verdict) → IsVerdict rs verdict ↔ IsVerdict ss verdict }
    ensures counter { (rs ss : List Record) → AreSameButForEnds rs ss
        → (i task : ℕ) (found : Option (List ℕ))
        → IsCounterBy (by_task rs) i task found ↔ IsCounterBy (by_task ss) i task found }
{}

/// A file in order has a yes, with its own order. By the order of the file alone let no record show a cause, and
/// let each task that must be complete at a record be complete there by what the record has seen; and let that
/// order be a linearization.
///
/// - `alike`: the file has these records, however many. Each alone can be in a file of the version.
/// - `but_for_ends`: the file has these records, but for what ends of initial and implicit tasks say of teams.
pub fn a_file_in_order_has_a_yes()
    ensures alike { (version : ℕ) (rs : List Record) → IsKnown version → All (FitsIn version) rs
        → ShowsNone (by_file rs)
        → ((i task : ℕ) → violations.IsRequired rs i task → IsCompleteAt rs task i)
        → IsLinearization rs (places rs) → IsVerdict rs (Yes (places rs)) }
    ensures but_for_ends { (version : ℕ) (records rs : List Record) → IsKnown version
        → All (FitsIn version) records → AreSameButForEnds records rs → ShowsNone (by_file rs)
        → ((i task : ℕ) → violations.IsRequired rs i task → IsCompleteAt rs task i)
        → IsLinearization rs (places rs) → IsVerdict records (Yes (places records)) }
{}
