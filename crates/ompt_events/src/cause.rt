//! The causes of malformed records, with their numbers and names.
ghost use Rattle.std.specs.Prelude.{◌≡◌, ◌↔◌, Some};
ghost use Rattle.ompt_events.specs.CauseNames.{cause_name, cause_number};

/// Why the records are malformed: no run within the model can produce them. If several causes occur, the
/// lowest-numbered one is reported.
#[derive(Clone, Copy, Debug, PartialEq, Eq)]
pub enum Cause {
    /// The record's `seq` is not the number of earlier records of its thread.
    SeqGap,
    /// A task or a parallel region is made a second time.
    CreatedTwice,
    /// A task is named that no record makes, or whose chain of parents reaches no root.
    Rootless,
    /// A record speaks for a task that its thread is not running.
    NotCurrent,
    /// An explicit task runs on a second thread, in a file of version 1, which does not record turns.
    Moved,
    /// The turns that a record has are not those of its tasks, in a file of version 2 or 3.
    TurnGap,
    /// A record changes a task in a way that the task's state does not allow.
    StatusOrder,
    /// A region ends without its begin, or an explicit task has a barrier.
    RegionOrder,
    /// A team lacks a member, or a member lacks a barrier.
    TeamShort,
    /// A parallel region inside another, in a file of version 1 or 2.
    NestedParallel,
    /// A root begins inside another one whose task did not begin its region there, in a file of version 3.
    RegionNesting,
    /// A list of dependences that does not follow its creation, or is missing there.
    DepsPlace,
    /// A finishing record claims a place that is not its task's.
    ShareWrong,
    /// Two finishing records name one ledger entry.
    EntryTwice,
    /// A ledger length is named that the ledger never had.
    LengthAhead,
    /// A ledger length is less than one that was known before.
    LengthBack,
    /// The record happens before itself, or after one that does.
    NoOrder,
    /// A target task, which runs on a device.
    TargetTask,
}

// The table of numbers and names; the first word names the code that its rows become.
macro_rules! causes {
    ($shape:ident $value:expr) => {
        $shape! {
            $value,
            SeqGap = 1 "SeqGap",
            CreatedTwice = 2 "CreatedTwice",
            Rootless = 3 "Rootless",
            NotCurrent = 4 "NotCurrent",
            Moved = 5 "Moved",
            TurnGap = 5 "TurnGap",
            StatusOrder = 6 "StatusOrder",
            RegionOrder = 7 "RegionOrder",
            TeamShort = 8 "TeamShort",
            NestedParallel = 9 "NestedParallel",
            RegionNesting = 9 "RegionNesting",
            DepsPlace = 10 "DepsPlace",
            ShareWrong = 11 "ShareWrong",
            EntryTwice = 12 "EntryTwice",
            LengthAhead = 13 "LengthAhead",
            LengthBack = 14 "LengthBack",
            NoOrder = 15 "NoOrder",
            TargetTask = 16 "TargetTask"
        }
    };
}

macro_rules! number_of {
    ($value:expr, $($variant:ident = $number:literal $name:literal),*) => {
        match $value {
            $(Cause::$variant => $number,)*
        }
    };
}

macro_rules! name_of {
    ($value:expr, $($variant:ident = $number:literal $name:literal),*) => {
        match $value {
            $(Cause::$variant => $name,)*
        }
    };
}

macro_rules! value_of {
    ($value:expr, $($variant:ident = $number:literal $name:literal),*) => {
        match $value {
            $($name => Some(Cause::$variant),)*
            _ => None,
        }
    };
}

impl Cause {
    /// Returns the number, from 1 to 16. Of the causes that occur, the lowest-numbered one is reported.
    /// Two causes share the number 5, and two the number 9: of such two, one occurs in some versions of the
    /// file and the other in the others.
    pub fn number(self) -> u8
        ensures { result ≡ cause_number self }
    {
        causes!(number_of self)
    }

    /// Returns the name of the cause in a report.
    pub fn name(self) -> &'static str
        ensures { result.now ≡ cause_name self }
    {
        causes!(name_of self)
    }

    /// Returns the cause with this name, if there is one.
    pub fn from_name(name: &str) -> Option<Self>
        ensures { (cause : Cause) → (result ≡ Some cause) ↔ (cause_name cause ≡ name.now) }
    {
        causes!(value_of name)
    }
}
