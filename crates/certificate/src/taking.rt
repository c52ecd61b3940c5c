//! A trace file whose records are handed on one after another, and not kept.
ghost use Rattle.std.specs.Prelude.{◌≡◌, ◌≤◌, ◌+◌, ℕ, List, Option, Ok, IfErr};
ghost use Rattle.std.specs.Result.{result_err};
ghost use Rattle.certificate.specs.Counts.{TakesTurns, breaks_told, cause_told};
ghost use Rattle.certificate.specs.Files.{long_traces, no_trace};
ghost use Rattle.certificate.specs.Reading.{IsBetween};
ghost use Rattle.certificate.specs.Taking.{HasTakenAll, HasTakenUntil, IsBegun, IsFaultlessUpTo};
ghost use Rattle.certificate.specs.Taking.{IsTakenOn, IsTaking, IsToldOf};

use crate::device::{MAX_TURNS, Source};
use crate::faults::ReadFault;
use crate::line_reader::LineReader;
use lines::ReadCause;
use ompt_events::Record;
use std::alloc::{AllocError, Global};

/// The most records that a file has which is not kept: so many, one in each line from line 2 on, that the line
/// past them has a number too.
pub const MAX_NUMBERED: u32 = u32::MAX - 2;

/// The last line that may have a record. In the next line, the last that has a number, a record is one too
/// many.
pub(crate) const LAST_RECORD_LINE: u32 = MAX_NUMBERED + 1;

/// What takes the records of a file one after another.
pub trait Taker {
    ghost use Rattle.std.specs.Prelude.{◌≡◌, ◌≤◌, ◌++◌, ◌∷◌, [], ℕ, List, true, false, IfOk};
    ghost use Rattle.ompt_events.specs.declared.records.Record.{Record};

    /// That these records were taken, of a file of this version.
    ghost has_taken: { ℕ → List Record → Self → Type 0 };

    /// That these records were taken, of a file of this version, and then this one was refused.
    ghost has_refused: { ℕ → List Record → Record → Self → Type 0 };

    /// Begins a file of this version. Fails only when out of memory.
    fn begin(&mut self, version: u32) -> Result<(), AllocError>
        requires { (1 ≤ version) × (version ≤ 3) }
        ensures { IfOk result (λ _. has_taken version [] self.new) };

    /// Takes one more record and returns true, or refuses it and returns false: then it is given no more.
    /// Fails only when out of memory.
    fn take(&mut self, event: &Record) -> Result<bool, AllocError>
        ensures taken { IfOk result (λ taken. taken ≡ true → (version : ℕ) (rs : List Record)
            → has_taken version rs self.old → has_taken version (rs ++ event.now ∷ []) self.new) }
        ensures refused { IfOk result (λ taken. taken ≡ false → (version : ℕ) (rs : List Record)
            → has_taken version rs self.old → has_refused version rs event.now self.new) };
}

/// How far a file was taken.
#[derive(Clone, Copy, Debug, PartialEq, Eq)]
pub enum Taken {
    /// To its end.
    All,
    /// Up to the line of this number, whose record the taker refused.
    Until(u32),
}

/// What became of a line.
pub(crate) enum Line {
    /// Its record was taken.
    Taken,
    /// Its record was refused.
    Refused,
    /// There was none.
    End,
}

/// Reads a trace file of a version up to [`NEWEST_VERSION`](crate::NEWEST_VERSION), and hands its records
/// to the taker one after another, without keeping any, to the end of the file or the first record that the
/// taker refuses. A file may have 2^32 - 3 records, one in each line from line 2 on, and any number of tasks;
/// one record more is the fault `Limit` in line 2^32 - 1. Fails else as [`read`](crate::read) does. Has a
/// buffer of 131,074 bytes, two of the longest lines with their line feeds.
pub fn read_each<S: Source, T: Taker>(
    alloc: Global,
    source: &mut S,
    taker: &mut T,
) -> Result<Taken, ReadFault>
    // The file was taken to its end: the taker has the records that the bytes stand for.
    ensures all { result ≡ Ok Taken.All → HasTakenAll (S.remaining source.old)
        (λ version rs. T.has_taken version rs taker.new) }

    // Else no line has a fault up to the one whose record was refused.
    ensures until { (line : ℕ) → result ≡ Ok (Taken.Until line) → (2 ≤ line) × (line ≤ LAST_RECORD_LINE)
        × IsFaultlessUpTo line (S.remaining source.old) }

    // The taker took the records of the lines before that one, and then refused the record of that line.
    ensures refused { (line : ℕ) → result ≡ Ok (Taken.Until line)
        → HasTakenUntil line (S.remaining source.old)
        (λ version rs event. T.has_refused version rs event taker.new) }

    // The first fault of the bytes, or a failure of the device or of memory.
    ensures fault { IfErr result
        (λ fault. IsToldOf (S.remaining source.old) fault.cause fault.line (S.remaining source.new)) }

    // The call ends with the 10,001st answer `Again`.
    ensures turns { (turns : ℕ) × TakesTurns (cause_told result) 0 turns (S.agains source.old)
        (S.agains source.new) }

    // `Device` is reported if and only if the source has failed.
    ensures breaks { S.breaks source.new ≡ breaks_told (cause_told result) (S.breaks source.old) }
    ensures line { IfErr result (λ fault. (1 ≤ fault.line) × (fault.line ≤ LAST_RECORD_LINE + 1)) }
{
    let Ok(mut reader) = LineReader::new(alloc) else {
        return Err(ReadFault {
            line: 1,
            cause: ReadCause::Memory,
        });
    };
    let version = match begin(&mut reader, source, taker) {
        Ok(version) => version,
        Err(cause) => return Err(ReadFault { line: 1, cause }),
    };
    'lines: for line in 2..=LAST_RECORD_LINE + 1 {
        match take_line(&mut reader, source, version, line, taker) {
            Ok(Line::Taken) => {}
            Ok(Line::Refused) => return Ok(Taken::Until(line)),
            Ok(Line::End) => return Ok(Taken::All),
            Err(cause) => return Err(ReadFault { line, cause }),
        }
    }
    unreachable!()
}

/// Reads the header, and begins to take the file's records. Returns the version.
fn begin<S: Source, T: Taker>(
    reader: &mut LineReader,
    source: &mut S,
    taker: &mut T,
) -> Result<u32, ReadCause>
    requires { reader.old.turns ≤ MAX_TURNS }
    ensures after { (known : Option (List ℕ)) → IsBetween long_traces known 1 no_trace
        reader.old.window (S.remaining source.old)
        → IsBegun result known reader.new.window (S.remaining source.new)
        (λ version rs. T.has_taken version rs taker.new) }
    ensures turns { TakesTurns (result_err result) reader.old.turns reader.new.turns (S.agains source.old)
        (S.agains source.new) }
    ensures breaks { S.breaks source.new ≡ breaks_told (result_err result) (S.breaks source.old) }
{
    let (version, len) = reader.header(source)?;
    match taker.begin(version) {
        Ok(()) => {
            reader.skip(len + 1);
            Ok(version)
        }
        Err(_) => Err(ReadCause::Memory),
    }
}

/// Reads the line of this number, and hands on its record, if a record may stand there.
fn take_line<S: Source, T: Taker>(
    reader: &mut LineReader,
    source: &mut S,
    version: u32,
    line: u32,
    taker: &mut T,
) -> Result<Line, ReadCause>
    requires { reader.old.turns ≤ MAX_TURNS }
    ensures after { (known : Option (List ℕ)) → IsTaking known line version
        reader.old.window (S.remaining source.old) (λ version rs. T.has_taken version rs taker.old)
        → IsTakenOn result known line version reader.new.window (S.remaining source.new)
        (λ version rs. T.has_taken version rs taker.new)
        (λ version rs event. T.has_refused version rs event taker.new) }
    ensures numbered { result ≡ Ok Line.Refused → line ≤ LAST_RECORD_LINE }
    ensures turns { TakesTurns (result_err result) reader.old.turns reader.new.turns (S.agains source.old)
        (S.agains source.new) }
    ensures breaks { S.breaks source.new ≡ breaks_told (result_err result) (S.breaks source.old) }
{
    match reader.record(source, version)? {
        Some((event, len)) => {
            if line > LAST_RECORD_LINE {
                return Err(ReadCause::Limit);
            }
            event.read_numbers();
            match taker.take(&event) {
                Ok(true) => {
                    reader.skip(len + 1);
                    Ok(Line::Taken)
                }
                Ok(false) => Ok(Line::Refused),
                Err(_) => Err(ReadCause::Memory),
            }
        }
        None => Ok(Line::End),
    }
}
