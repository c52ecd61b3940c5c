//! The members of a line's object, by their names.
ghost use Rattle.std.specs.Prelude.{◌≡◌, ◌<◌, true};
ghost use Rattle.lines.specs.MemberNames.{member_code, member_name};
ghost use Rattle.lines.specs.Texts.{is_plain_text};

/// How many members there are.
pub(crate) const MEMBER_COUNT: usize = 28;

/// A member of a line's object.
#[derive(Clone, Copy, Debug, PartialEq, Eq)]
pub(crate) enum Member {
    Actual,
    After,
    Callback,
    Child,
    Deps,
    Endpoint,
    Flags,
    Format,
    Index,
    Kept,
    Kind,
    List,
    Next,
    NextTurn,
    Parallel,
    Path,
    Prior,
    PriorTurn,
    Requested,
    Root,
    Seen,
    Seq,
    Status,
    Task,
    Thread,
    Type,
    Var,
    Version,
}

// The table of the names in a file.
macro_rules! member_names {
    ($shape:ident $given:tt) => {
        $shape! {
            $given
            Actual = "actual",
            After = "after",
            Callback = "cb",
            Child = "child",
            Deps = "deps",
            Endpoint = "endpoint",
            Flags = "flags",
            Format = "format",
            Index = "index",
            Kept = "kept",
            Kind = "kind",
            List = "list",
            Next = "next",
            NextTurn = "next_turn",
            Parallel = "parallel",
            Path = "path",
            Prior = "prior",
            PriorTurn = "prior_turn",
            Requested = "requested",
            Root = "root",
            Seen = "seen",
            Seq = "seq",
            Status = "status",
            Task = "task",
            Thread = "thread",
            Type = "type",
            Var = "var",
            Version = "version"
        }
    };
}

// The name in the table.
macro_rules! name_of {
    (($member:ident) $($variant:ident = $name:literal),*) => {
        match $member {
            $(Member::$variant => $name),*
        }
    };
}

impl Member {
    /// Returns the name in a file.
    #[inline(always)]
    pub(crate) fn name(self) -> &'static str
        ensures is { result.now ≡ member_name self }
        ensures plain { is_plain_text result.now ≡ true }
    {
        member_names!(name_of(self))
    }

    /// Returns the number of the member, from 0.
    #[inline(always)]
    pub(crate) fn code(self) -> usize
        ensures is { result ≡ member_code self }
        ensures below { result < MEMBER_COUNT }
    {
        self as usize
    }
}

pub(crate) use member_names;
