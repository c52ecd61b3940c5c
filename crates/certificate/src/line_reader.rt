//! What reads the lines of a trace file one after another.
ghost use Rattle.std.specs.Prelude.{◌≡◌, ◌≤◌, [], length, drop, IfOk, IfErr};
ghost use Rattle.std.specs.Result.{result_err};
ghost use Rattle.std.specs.Io.KnownBytes.{Keeps, prepend_known};
ghost use Rattle.lines.specs.RecordLines.{line_says};
ghost use Rattle.certificate.specs.Counts.{TakesTurns, breaks_told};
ghost use Rattle.certificate.specs.Taking.{ShowsHeader, ShowsNoHeader, ShowsNothing, ShowsRecord};

use crate::device::{MAX_TURNS, Source};
use crate::reading::{NEWEST_VERSION, next_line};
use crate::window::Window;
use json::Scratch;
use lines::{ReadCause, TRACES, header, record, record_in_front};
use ompt_events::Record;
use std::alloc::{AllocError, Global};

/// The bytes of a source that no line has yet, what reading a line needs, and the turns so far.
#[derive(Drop)]
pub(crate) struct LineReader {
    pub(crate) alloc: Global,
    pub(crate) window: Window,
    pub(crate) scratch: Scratch,
    pub(crate) turns: u32,
}

impl LineReader {
    /// Returns a reader that has read nothing. Fails out of memory.
    pub(crate) fn new(alloc: Global) -> Result<LineReader, AllocError>
        ensures { IfOk result (λ reader. (reader.window ≡ []) × (reader.turns ≡ 0)) }
    {
        Ok(LineReader {
            alloc,
            window: Window::new(alloc)?,
            scratch: Scratch::new(alloc),
            turns: 0,
        })
    }

    /// Returns the version that the first line names, and the length of this line, with which the window then
    /// begins.
    pub(crate) fn header<S: Source>(&mut self, source: &mut S) -> Result<(u32, usize), ReadCause>
        requires { self.old.turns ≤ MAX_TURNS }
        ensures bytes { Keeps (prepend_known self.old.window (S.remaining source.old))
            (prepend_known self.new.window (S.remaining source.new)) }
        ensures found { IfOk result (λ found. ShowsHeader found self.new.window) }
        ensures fault { IfErr result
            (λ cause. ShowsNoHeader cause self.new.window (S.remaining source.new)) }
        ensures turns { TakesTurns (result_err result) self.old.turns self.new.turns (S.agains source.old)
            (S.agains source.new) }
        ensures breaks { S.breaks source.new ≡ breaks_told (result_err result) (S.breaks source.old) }
    {
        match next_line(&mut self.window, source, &mut self.turns)? {
            Some(len) => {
                let text = self.window.front(len);
                let version = header(self.alloc, TRACES, NEWEST_VERSION, text, &mut self.scratch)?;
                Ok((version, len))
            }
            None => Err(ReadCause::Header),
        }
    }

    /// Returns the record of the next line in a file of this version, and the length of the line, with which
    /// the window then begins; none at the end of the input.
    pub(crate) fn record<S: Source>(
        &mut self,
        source: &mut S,
        version: u32,
    ) -> Result<Option<(Record, usize)>, ReadCause>
        requires { self.old.turns ≤ MAX_TURNS }
        ensures bytes { Keeps (prepend_known self.old.window (S.remaining source.old))
            (prepend_known self.new.window (S.remaining source.new)) }
        ensures found { IfOk result
            (λ found. ShowsRecord version found self.new.window (S.remaining source.new)) }
        ensures fault { IfErr result
            (λ cause. ShowsNothing (line_says version) cause self.new.window (S.remaining source.new)) }
        ensures turns { TakesTurns (result_err result) self.old.turns self.new.turns (S.agains source.old)
            (S.agains source.new) }
        ensures breaks { S.breaks source.new ≡ breaks_told (result_err result) (S.breaks source.old) }
    {
        match record_in_front(self.alloc, version, self.window.all()) {
            Some(found) => Ok(Some(found)),
            None => self.other_record(source, version),
        }
    }

    /// Returns what `record` does, whatever form the line has: searches for its end first. It is not inlined:
    /// with the other forms beside it, a line in written form takes longer.
    #[inline(never)]
    fn other_record<S: Source>(
        &mut self,
        source: &mut S,
        version: u32,
    ) -> Result<Option<(Record, usize)>, ReadCause>
        requires { self.old.turns ≤ MAX_TURNS }
        ensures bytes { Keeps (prepend_known self.old.window (S.remaining source.old))
            (prepend_known self.new.window (S.remaining source.new)) }
        ensures found { IfOk result
            (λ found. ShowsRecord version found self.new.window (S.remaining source.new)) }
        ensures fault { IfErr result
            (λ cause. ShowsNothing (line_says version) cause self.new.window (S.remaining source.new)) }
        ensures turns { TakesTurns (result_err result) self.old.turns self.new.turns (S.agains source.old)
            (S.agains source.new) }
        ensures breaks { S.breaks source.new ≡ breaks_told (result_err result) (S.breaks source.old) }
    {
        match next_line(&mut self.window, source, &mut self.turns)? {
            Some(len) => {
                let text = self.window.front(len);
                let event = record(self.alloc, version, text, &mut self.scratch)?;
                Ok(Some((event, len)))
            }
            None => Ok(None),
        }
    }

    /// Removes the first bytes of the window.
    pub(crate) fn skip(&mut self, count: usize)
        requires { count ≤ length self.old.window }
        ensures window { self.new.window ≡ drop count self.old.window }
        ensures turns { self.new.turns ≡ self.old.turns }
    {
        self.window.skip(count);
    }
}
