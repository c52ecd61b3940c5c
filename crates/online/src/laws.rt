//! When the order of a file is an order of its records, and what the records up to a place tell of it. These are
//! laws about the definitions alone, proved for all records. The functions do nothing.
ghost use Rattle.std.specs.Prelude.{Bool, ◌≡◌, ◌<◌, ◌≤◌, ◌+◌, ◌^◌, ◌↔◌, ◌⊎◌, ◌∷◌, ◌++◌, ℕ, true, List, [], length, Option};
ghost use Rattle.ompt_events.specs.declared.records.Record.{Record};
ghost use Rattle.ompt_events.specs.declared.names.SyncKind.{SyncKind};
ghost use Rattle.ompt_events.specs.declared.cause.Cause.{Cause};
ghost use Rattle.ompt_events.specs.declared.cause.Cause.TheVariants.{CreatedTwice, EntryTwice, LengthAhead};
ghost use Rattle.ompt_events.specs.declared.cause.Cause.TheVariants.{StatusOrder, DepsPlace, TeamShort, ShareWrong};
ghost use Rattle.ompt_events.specs.declared.names.Endpoint.{Endpoint};
ghost use Rattle.ompt_events.specs.Records.{region};
ghost use Rattle.ompt_events.specs.Places.{places};
ghost use Rattle.ompt_events.specs.Tree.{children_before};
ghost use Rattle.ompt_events.specs.Regions.{open_regions, IsRegion, IsBarrierBegin};
ghost use Rattle.ompt_events.specs.Coverage.{Covers};
ghost use Rattle.ompt_events.specs.Dependences.{IsPredecessor};
ghost use Rattle.ompt_events.specs.Completion.{IsCompleteAt};
ghost use Rattle.ompt_events.specs.Violations.{IsRequired};
ghost use Rattle.ompt_events.specs.Causes.{HasCause, IsFreeOf};
ghost use Rattle.ompt_events.specs.Linearization.{IsLinearization, IsGreedy};
ghost use Rattle.ompt_events.specs.declared.cause.Cause.TheVariants.{NotCurrent, TurnGap, RegionOrder};
ghost use Rattle.ompt_events.specs.declared.cause.Cause.TheVariants.{SeqGap, Moved, NestedParallel, RegionNesting, TargetTask};
ghost use Rattle.ompt_events.specs.Causes.{ShowsNowhere, IsMadeAgain, IsShort};
ghost use Rattle.online.specs.Rosters.{IsShortRoster, AreWhole, MissesBegin};
ghost use Rattle.scripts.specs.Progress.{Values};
ghost use Rattle.online.specs.Replays.{IsReplayed};
ghost use Rattle.online.specs.Lengths.{MayFollow, NamesLength};
ghost use Rattle.online.specs.Waits as waits;
ghost use Rattle.online.specs.Online.{IsInOrder, IsWatchable, is_told_at_once, stays_told};
ghost use Rattle.online.specs.declared.kin.Kin.{Kin};
ghost use Rattle.online.specs.declared.team.Team.{Team};
ghost use Rattle.online.specs.Teams.{TeamsFollow, SaysNothing};
ghost use Rattle.online.specs.Waits.{Follows, ChangesNothing, IsCoverComplete};
ghost use Rattle.online.specs.Online.{EndsLast, AreBegun, HasTeamBegun, IsBarrierSettled, AreListed, HasLists, IsDependentAt};
ghost use Rattle.online.specs.Online.{EachRecord, ComesAfter, ListsAwaited, AreForked, NoneAwaited, PassesAfter};
ghost use Rattle.online.specs.Online.{IsUnfinishedAfter, IsCompleteAfter, IsSettledAfter};

/// File order is an order of the records, and the greedy one, where each record stands behind what it has seen
/// and what it goes on with. Conversely the records are so in each file whose order is one of them, unless an
/// entry occurs twice, or a record names a length that the ledger never has. So whether it is one is decided
/// record by record.
pub fn file_order_is_an_order()
    ensures order { (rs : List Record) → IsInOrder rs → IsLinearization rs (places rs) }
    ensures greedy { (rs : List Record) → IsInOrder rs → IsGreedy rs (places rs) }
    ensures in_order { (rs : List Record) → IsFreeOf rs EntryTwice → IsFreeOf rs LengthAhead
        → IsLinearization rs (places rs) → IsInOrder rs }
{}

/// Let records be watchable, and no task be made twice. Then whether one of the first records shows a cause of
/// these is shown by the first records alone.
///
/// - `shown`: a cause that it has among all records, it has among the first.
/// - `stays`: a cause that it has among the first, it has among all, but for TurnGap: a later record may begin the
///   turn that was missing.
pub fn causes_show_when_their_records_are_read()
    ensures shown { (before after : List Record) (i : ℕ) (cause : Cause) → IsWatchable (before ++ after)
        → IsFreeOf (before ++ after) CreatedTwice → is_told_at_once cause ≡ true → i < length before
        → HasCause (before ++ after) i cause → HasCause before i cause }
    ensures stays { (before after : List Record) (i : ℕ) (cause : Cause) → IsWatchable (before ++ after)
        → IsFreeOf (before ++ after) CreatedTwice → stays_told cause ≡ true → i < length before
        → HasCause before i cause → HasCause (before ++ after) i cause }
{}

/// What the first records say of a place among them, they say together with the records that follow.
///
/// - `children`, `opened`: which children a task created before the place, and which of its regions are open.
/// - `regions`, `barriers`: which region ends there, and which number the begin of a barrier has.
/// - `complete`: which tasks are complete there. `dependents`: which task starts there, or which taskwait is
///   complete. For both the records are watchable, and no task is made twice.
/// - `covers`, `precedes`: what an end there covers, and what precedes a task. Later records can only add to it.
pub fn what_is_read_stays()
    ensures children { (before after : List Record) (parent i : ℕ) → i ≤ length before
        → children_before (before ++ after) parent i ≡ children_before before parent i }
    ensures opened { (before after : List Record) (task i : ℕ) → i ≤ length before
        → open_regions (before ++ after) task i ≡ open_regions before task i }
    ensures regions { (before after : List Record) (i task begin : ℕ) (kind : SyncKind) → i < length before
        → IsRegion before i task kind begin ↔ IsRegion (before ++ after) i task kind begin }
    ensures barriers { (before after : List Record) (task number start : ℕ) → start < length before
        → IsBarrierBegin before task number start ↔ IsBarrierBegin (before ++ after) task number start }
    ensures complete { (before after : List Record) (i task : ℕ) → IsWatchable (before ++ after)
        → IsFreeOf (before ++ after) CreatedTwice → i < length before
        → IsCompleteAt before task i ↔ IsCompleteAt (before ++ after) task i }
    ensures dependents { (before after : List Record) (i dependent : ℕ) → IsWatchable (before ++ after)
        → IsFreeOf (before ++ after) CreatedTwice → i < length before
        → IsDependentAt before i dependent ↔ IsDependentAt (before ++ after) i dependent }
    ensures covers { (before after : List Record) (i task : ℕ) → i < length before → Covers before i task
        → Covers (before ++ after) i task }
    ensures precedes { (before after : List Record) (dependent predecessor : ℕ)
        → IsPredecessor before dependent predecessor → IsPredecessor (before ++ after) dependent predecessor }
{}

/// Let records be watchable, and no task be made twice. Then the first of them tell whether all is complete that
/// must be complete at one of them, if the records that count for it are among the first.
///
/// - `covered`: what the end of a region covers, where no record of a task stands behind the end of its body
///   (`EndsLast`), and the barrier begins that count are among the first (`AreBegun`).
/// - `covers`: then, where all is complete that the end covers by the first records, it covers no other task.
/// - `begun`: these begins are among the first, where the whole team has begun its barriers of that number there
///   (`HasTeamBegun`). No team may lack a member.
/// - `preceded`, `precedes`: the same of the predecessors of a task that starts, or of a taskwait that is
///   complete, where the lists of dependences are among the first (`AreListed`).
/// - `listed`: these lists are, where each follows its creation there (`HasLists`). No list may be misplaced.
/// - `required`: all that must be complete there. And where it is by all records, it is by the first.
pub fn what_must_be_complete_is_known_when_its_record_is_read()
    ensures covered { (before after : List Record) (i : ℕ) → IsWatchable (before ++ after)
        → IsFreeOf (before ++ after) CreatedTwice → EndsLast (before ++ after) → i < length before
        → AreBegun (before ++ after) (length before) i
        → ((task : ℕ) → Covers before i task → IsCompleteAt before task i)
        → (task : ℕ) → Covers (before ++ after) i task → IsCompleteAt (before ++ after) task i }
    ensures covers { (before after : List Record) (i : ℕ) → IsWatchable (before ++ after)
        → IsFreeOf (before ++ after) CreatedTwice → EndsLast (before ++ after) → i < length before
        → AreBegun (before ++ after) (length before) i
        → ((task : ℕ) → Covers before i task → IsCompleteAt before task i)
        → (task : ℕ) → Covers (before ++ after) i task → Covers before i task }
    ensures begun { (before after : List Record) (i : ℕ) → IsWatchable (before ++ after)
        → IsFreeOf (before ++ after) CreatedTwice → IsFreeOf (before ++ after) TeamShort → i < length before
        → HasTeamBegun before i → AreBegun (before ++ after) (length before) i }
    ensures preceded { (before after : List Record) (i dependent : ℕ) → IsWatchable (before ++ after)
        → IsFreeOf (before ++ after) CreatedTwice → i < length before
        → IsDependentAt (before ++ after) i dependent → AreListed (before ++ after) (length before) dependent
        → ((task : ℕ) → IsPredecessor before dependent task → IsCompleteAt before task i)
        → (task : ℕ) → IsPredecessor (before ++ after) dependent task
        → IsCompleteAt (before ++ after) task i }
    ensures precedes { (before after : List Record) (i dependent predecessor : ℕ)
        → IsWatchable (before ++ after) → IsFreeOf (before ++ after) CreatedTwice → i < length before
        → IsDependentAt (before ++ after) i dependent → AreListed (before ++ after) (length before) dependent
        → IsPredecessor (before ++ after) dependent predecessor → IsPredecessor before dependent predecessor }
    ensures listed { (before after : List Record) (i dependent : ℕ) → IsWatchable (before ++ after)
        → IsFreeOf (before ++ after) CreatedTwice → IsFreeOf (before ++ after) DepsPlace → i < length before
        → IsDependentAt (before ++ after) i dependent → HasLists before dependent
        → AreListed (before ++ after) (length before) dependent }
    ensures required { (before after : List Record) (i : ℕ) → IsWatchable (before ++ after)
        → IsFreeOf (before ++ after) CreatedTwice → EndsLast (before ++ after) → i < length before
        → AreBegun (before ++ after) (length before) i
        → ((dependent : ℕ) → IsDependentAt (before ++ after) i dependent
        → AreListed (before ++ after) (length before) dependent)
        → ((task : ℕ) → IsRequired before i task → IsCompleteAt before task i)
        ↔ ((task : ℕ) → IsRequired (before ++ after) i task → IsCompleteAt (before ++ after) task i) }
{}

/// What the tests of each record with those before it tell of all records.
///
/// - `watchable`: where no task is made twice, the records are watchable exactly where each passes the tests of
///   `ComesAfter`.
/// - `placed`: no list of dependences is misplaced exactly where each record lists what its thread awaits, and no
///   thread awaits dependences after the last record (`ListsAwaited`, `NoneAwaited`).
/// - `clear`: let the records be watchable, each pass the tests of causes (`PassesAfter`), each parallel region that
///   they name be begun by one of them, and no thread await dependences. Then no record has a cause, by file order. That none has StatusOrder, TeamShort or ShareWrong is
///   a premise.
pub fn tests_at_each_record_exclude_all_causes()
    ensures watchable { (rs : List Record) → IsFreeOf rs CreatedTwice
        → EachRecord ComesAfter rs ↔ IsWatchable rs }
    ensures placed { (rs : List Record) → IsFreeOf rs DepsPlace
        ↔ (EachRecord ListsAwaited rs × NoneAwaited rs) }
    ensures clear { (rs : List Record) → IsWatchable rs → EachRecord PassesAfter rs → AreForked rs
        → NoneAwaited rs
        → IsFreeOf rs StatusOrder → IsFreeOf rs TeamShort → IsFreeOf rs ShareWrong
        → (i : ℕ) (cause : Cause) → HasCause rs i cause → ⊥ }
{}

/// If at each record all is complete that must be complete there by it and those before it, then all is complete
/// that must be complete by all records.
///
/// - `ends_last`: where no task is finished before one of its records (`IsUnfinishedAfter`), `EndsLast` holds.
/// - `required`: where `EndsLast` holds, and the barrier begins and the lists of dependences that count for a record
///   are among those up to it (`AreBegun`, `AreListed`).
/// - `settled`: where each record passes the tests of causes and of completeness (`IsSettledAfter`), no thread
///   awaits dependences after the last record, and each barrier ends behind the begins that count for it, or behind
///   what they add to it (`IsBarrierSettled`).
pub fn what_is_complete_at_each_record_is_complete()
    ensures ends_last { (rs : List Record) → EachRecord IsUnfinishedAfter rs → EndsLast rs }
    ensures required { (rs : List Record) → IsWatchable rs → IsFreeOf rs CreatedTwice → EndsLast rs
        → ((i : ℕ) → i < length rs → AreBegun rs (i + 1) i)
        → ((i dependent : ℕ) → i < length rs → IsDependentAt rs i dependent → AreListed rs (i + 1) dependent)
        → EachRecord IsCompleteAfter rs → (i task : ℕ) → IsRequired rs i task → IsCompleteAt rs task i }
    ensures settled { (rs : List Record) → IsWatchable rs → EachRecord PassesAfter rs → NoneAwaited rs
        → ((i : ℕ) → IsBarrierSettled rs i) → EachRecord IsSettledAfter rs
        → (i task : ℕ) → IsRequired rs i task → IsCompleteAt rs task i }
{}

/// Each record has to be tested once, when it is read: a test that each of some records has passed stays so with
/// one more.
pub fn each_record_is_tested_once()
    ensures none { EachRecord ComesAfter [] × EachRecord PassesAfter [] × EachRecord IsSettledAfter [] }
    ensures comes { (rs : List Record) (r : Record) → EachRecord ComesAfter rs → ComesAfter rs r
        → EachRecord ComesAfter (rs ++ r ∷ []) }
    ensures passes { (rs : List Record) (r : Record) → EachRecord PassesAfter rs → PassesAfter rs r
        → EachRecord PassesAfter (rs ++ r ∷ []) }
    ensures settled { (rs : List Record) (r : Record) → EachRecord IsSettledAfter rs → IsSettledAfter rs r
        → EachRecord IsSettledAfter (rs ++ r ∷ []) }
{}

/// Records that recorders would make, if they were given their calls (`IsReplayed`), show none of the causes that
/// speak of how tasks run: each record of a task is made by the thread that runs the task (`current`), turns are
/// those of the tasks (`gapless`), each task moves as its states allow (`ordered`), regions end as they began
/// (`closed`), and a record that finishes a task claims its place in the tree and its children (`claimed`).
pub fn replayed_records_show_no_cause_of_tasks()
    ensures current { (nests : Bool) (rs : List Record) (values : Values) → IsReplayed nests rs values
        → ShowsNowhere rs NotCurrent }
    ensures gapless { (nests : Bool) (rs : List Record) (values : Values) → IsReplayed nests rs values
        → ShowsNowhere rs TurnGap }
    ensures ordered { (nests : Bool) (rs : List Record) (values : Values) → IsReplayed nests rs values
        → ShowsNowhere rs StatusOrder }
    ensures closed { (nests : Bool) (rs : List Record) (values : Values) → IsReplayed nests rs values
        → ShowsNowhere rs RegionOrder }
    ensures claimed { (nests : Bool) (rs : List Record) (values : Values) → IsReplayed nests rs values
        → ShowsNowhere rs ShareWrong }
{}

/// Records that recorders would make show none of the causes that speak of threads and their records: numbers
/// rise by one (`numbered`), no task is made twice (`once`), none moves without turns (`unmoved`), regions lie
/// inside others only where they may (`flat`, `nested`), and no task is on a device where none may be
/// (`on_host`). By file order too, regions end as they began (`closed`), and claims are right (`claimed`).
pub fn replayed_records_show_no_cause_of_threads()
    ensures numbered { (nests : Bool) (rs : List Record) (values : Values) → IsReplayed nests rs values
        → IsFreeOf rs SeqGap }
    ensures once { (nests : Bool) (rs : List Record) (values : Values) → IsReplayed nests rs values
        → (i : ℕ) → IsMadeAgain rs i → ⊥ }
    ensures unmoved { (nests : Bool) (rs : List Record) (values : Values) → IsReplayed nests rs values
        → IsFreeOf rs Moved }
    ensures flat { (nests : Bool) (rs : List Record) (values : Values) → IsReplayed nests rs values
        → IsFreeOf rs NestedParallel }
    ensures nested { (nests : Bool) (rs : List Record) (values : Values) → IsReplayed nests rs values
        → IsFreeOf rs RegionNesting }
    ensures on_host { (nests : Bool) (rs : List Record) (values : Values) → IsReplayed nests rs values
        → IsFreeOf rs TargetTask }
    ensures closed { (nests : Bool) (rs : List Record) (values : Values) → IsReplayed nests rs values
        → IsFreeOf rs RegionOrder }
    ensures claimed { (nests : Bool) (rs : List Record) (values : Values) → IsReplayed nests rs values
        → IsFreeOf rs ShareWrong }
{}

/// What a record says of those before it, where recorders would make all of them.
///
/// - `comes`: it passes the tests by which records are watchable, if it names a length that the ledger may have.
/// - `placed`: each record lists the dependences that its thread awaits.
/// - `unfinished`: no task has a record behind the end of its body.
/// - `follows`: it may follow the others, as the steps of `Waits` ask, if they can be counted in 64 bits.
pub fn replayed_records_follow_each_other()
    ensures comes { (nests : Bool) (rs : List Record) (r : Record) (values : Values)
        → IsReplayed nests (rs ++ r ∷ []) values → NamesLength rs r → ComesAfter rs r }
    ensures placed { (nests : Bool) (rs : List Record) (values : Values) → IsReplayed nests rs values
        → EachRecord ListsAwaited rs }
    ensures unfinished { (nests : Bool) (rs : List Record) (values : Values) → IsReplayed nests rs values
        → EachRecord IsUnfinishedAfter rs }
    ensures follows { (nests : Bool) (rs : List Record) (r : Record) (values : Values)
        → IsReplayed nests (rs ++ r ∷ []) values → IsWatchable (rs ++ r ∷ [])
        → IsFreeOf (rs ++ r ∷ []) CreatedTwice → length rs + 2 < 2 ^ 64 → waits.MayFollow rs r }
{}

/// Some records need no step of what is kept for the ends of taskwaits, taskgroups and barriers (`Waits`).
///
/// - `kept`, `teams`: a record that makes no task, and begins and ends no taskgroup, may be passed over, if it
///   begins no barrier either. It may still complete a task: then less is known to be complete.
/// - `empty`: a taskgroup that begins and ends in one record covers nothing.
pub fn some_records_need_no_step()
    ensures kept { (table : ℕ → Option Kin) → Follows ChangesNothing table table }
    ensures teams { (table : ℕ → Option Kin) (teams : ℕ → Option Team) → TeamsFollow SaysNothing table teams table teams }
    ensures empty { (rs : List Record) (r : Record) (task : ℕ)
        → region r.body ≡ Some (task, SyncKind.Taskgroup, Endpoint.BeginEnd) → IsCoverComplete rs r }
{}

/// Where records are watchable, and neither they nor one more make a task twice, that one may follow them, as
/// `Lengths::take` asks.
pub fn lengths_may_be_taken()
    ensures { (rs : List Record) (r : Record) → IsWatchable rs → IsFreeOf (rs ++ r ∷ []) CreatedTwice
        → MayFollow rs r }
{}

/// No record has the cause TeamShort, where each team has all its members, each with an index of its own, as
/// `Rosters` tells, and the whole team has begun each barrier that ends.
///
/// - `cases`: the cause is one that `Rosters` excludes (`IsShortRoster`), or a barrier ends that a member does not
///   begin.
/// - `free`: so it does not occur where neither does.
pub fn whole_teams_lack_no_member()
    ensures cases { (rs : List Record) (i : ℕ) → IsShort rs i → IsShortRoster rs i ⊎ MissesBegin rs i }
    ensures free { (rs : List Record) → AreWhole rs → ((i : ℕ) → HasTeamBegun rs i) → IsFreeOf rs TeamShort }
{}
