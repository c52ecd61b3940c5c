//! Why a file is not read.
ghost use Rattle.std.specs.Prelude.{◌≡◌, ◌↔◌, Some};
ghost use Rattle.lines.specs.CauseNames.{read_cause_name, read_cause_number};

/// Why a file is not read. A line alone has the causes `Memory`, `NotJson`, `Field` and `Limit`, and a
/// header `Memory` and `Header`. Of several causes of a line, the one that is looked for first is reported:
/// `LineTooLong`, `Unended`, on line 1 `Header`, then `NotJson`, `Field`, `Limit`.
#[derive(Clone, Copy, Debug, PartialEq, Eq)]
pub enum ReadCause {
    /// The source has failed.
    Device,
    /// Out of memory.
    Memory,
    /// Line 1 is not the header of a trace file of a version that is read.
    Header,
    /// More than 65,536 bytes with no line feed among them.
    LineTooLong,
    /// Not UTF-8, or no JSON value.
    NotJson,
    /// No object, or a member is missing, of the wrong kind or with an unknown name.
    Field,
    /// A number, a path or the count of records or tasks is past its limit.
    Limit,
    /// The input ends after at least one byte with no line feed.
    Unended,
    /// The source was interrupted too often.
    TurnsSpent,
}

// The table of numbers and names; the first word names the shape that the rows are put into.
macro_rules! read_causes {
    ($shape:ident $value:expr) => {
        $shape! {
            $value, ReadCause,
            Device = 1 "Device",
            Memory = 2 "Memory",
            Header = 3 "Header",
            LineTooLong = 4 "LineTooLong",
            NotJson = 5 "NotJson",
            Field = 6 "Field",
            Limit = 7 "Limit",
            Unended = 8 "Unended",
            TurnsSpent = 9 "TurnsSpent"
        }
    };
}

macro_rules! number_of {
    ($value:expr, $kind:ident, $($variant:ident = $number:literal $name:literal),*) => {
        match $value {
            $($kind::$variant => $number,)*
        }
    };
}

macro_rules! name_of {
    ($value:expr, $kind:ident, $($variant:ident = $number:literal $name:literal),*) => {
        match $value {
            $($kind::$variant => $name,)*
        }
    };
}

macro_rules! value_of {
    ($value:expr, $kind:ident, $($variant:ident = $number:literal $name:literal),*) => {
        match $value {
            $($name => Some($kind::$variant),)*
            _ => None,
        }
    };
}

impl ReadCause {
    /// Returns the number in a report, from 1 to 9.
    pub fn number(self) -> u8
        ensures { result ≡ read_cause_number self }
    {
        read_causes!(number_of self)
    }

    /// Returns the name in a report.
    pub fn name(self) -> &'static str
        ensures { result.now ≡ read_cause_name self }
    {
        read_causes!(name_of self)
    }

    /// Returns the cause with this name, if there is one.
    pub fn from_name(name: &str) -> Option<Self>
        ensures { (cause : ReadCause) → (result ≡ Some cause) ↔ (read_cause_name cause ≡ name.now) }
    {
        read_causes!(value_of name)
    }
}
