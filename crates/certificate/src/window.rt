//! The bytes of a source that no line has yet.
ghost use Rattle.std.specs.Prelude.{◌≡◌, ℕ, ◌≤◌, ◌<◌, ◌+◌, ◌-◌, [], length, take, drop, slice_range, Ok, IfOk, IfErr};
ghost use Rattle.std.specs.Result.{result_err};
ghost use Rattle.std.specs.Io.KnownBytes.{ReadConsumes, Keeps, IsAtEnd, prepend_known};
ghost use Rattle.memchr.specs.Find.{IsFirstByte, is_byte};
ghost use Rattle.certificate.specs.Counts.{TakesTurns, agains_after, breaks_after, breaks_told};
ghost use Rattle.certificate.specs.Windows.{IsDeviceFault, IsWindow};

use crate::device::{DeviceFault, MAX_TURNS, Source};
use lines::{MAX_LINE, ReadCause};
use memchr::memchr;
use std::alloc::{AllocError, Global};
use std::marker::Model;

/// Twice the longest line with its line feed: if it is full, half of it is or becomes free.
const SIZE: usize = 2 * (MAX_LINE + 1);

/// A buffer of bytes that grows at its end by reading the source, and is read from its front.
#[derive(Drop)]
pub(crate) struct Window {
    bytes: Vec<u8>,
    start: usize,
    // There is no line feed from `start` up to here.
    searched: usize,
    end: usize,
}

impl Model for Window {
    ghost use Rattle.std.specs.Prelude.{List, ℕ, slice_range};
    ghost use Rattle.certificate.specs.Windows.{IsWindow};

    ghost Value = { List ℕ };

    ghost view = { λ window. slice_range window.bytes.items window.start window.end };

    ghost invariant = { λ window. IsWindow window.bytes.items window.start window.searched window.end };
}

impl Window {
    /// Returns an empty window. Fails out of memory.
    pub(crate) fn new(alloc: Global) -> Result<Window, AllocError>
        ensures { IfOk result (λ window. window ≡ []) }
    {
        Ok(Window {
            bytes: vec![in alloc; 0; SIZE]?,
            start: 0,
            searched: 0,
            end: 0,
        })
    }

    /// Returns how many bytes the window has.
    pub(crate) fn len(&self) -> usize
        ensures { result ≡ length self.now }
    {
        self.end - self.start
    }

    /// Returns the place of the first line feed, if there is one. No byte is searched twice.
    pub(crate) fn line_feed(&mut self) -> Option<usize>
        ensures same { self.new ≡ self.old }
        ensures first { IsFirstByte (is_byte 10) self.old result }
    {
        match memchr(b'\n', &self.bytes[self.searched..self.end]) {
            Some(at) => Some(self.searched - self.start + at),
            None => {
                self.searched = self.end;
                None
            }
        }
    }

    /// Returns the first bytes. The window has at most two of the longest lines.
    pub(crate) fn front(&self, count: usize) -> &[u8]
        requires { count ≤ length self.now }
        ensures bytes { result.now ≡ take count self.now }
        ensures size { length self.now ≤ SIZE }
    {
        &self.bytes[self.start..self.start + count]
    }

    /// Returns all bytes, at most two of the longest lines.
    pub(crate) fn all(&self) -> &[u8]
        ensures bytes { result.now ≡ self.now }
        ensures size { length self.now ≤ SIZE }
    {
        &self.bytes[self.start..self.end]
    }

    /// Removes the first bytes.
    pub(crate) fn skip(&mut self, count: usize)
        requires { count ≤ length self.old }
        ensures { self.new ≡ drop count self.old }
    {
        self.start += count;
        self.searched = self.start;
    }

    /// Reads more bytes from the source. Returns how many: none only at its end. Retries while the source is
    /// interrupted, at most 10,000 times in one call of the reader.
    pub(crate) fn fill<S: Source>(
        &mut self,
        source: &mut S,
        turns: &mut u32,
    ) -> Result<usize, ReadCause>
        requires window { length self.old ≤ MAX_LINE }
        requires turns { turns.old ≤ MAX_TURNS }
        ensures bytes { Keeps (prepend_known self.old (S.remaining source.old))
            (prepend_known self.new (S.remaining source.new)) }
        ensures more { IfOk result (λ count. length self.new ≡ length self.old + count) }
        ensures end { result ≡ Ok 0 → IsAtEnd (S.remaining source.new) }
        ensures none { result ≡ Ok 0 → self.new ≡ self.old }
        ensures fault { IfErr result (λ cause. (self.new ≡ self.old) × IsDeviceFault cause) }
        ensures turns { TakesTurns (result_err result) turns.old turns.new (S.agains source.old)
            (S.agains source.new) }
        ensures breaks { S.breaks source.new ≡ breaks_told (result_err result) (S.breaks source.old) }
    {
        let (start, searched, end) = make_room(
            &mut self.bytes,
            self.start,
            self.searched,
            self.end,
        );
        self.start = start;
        self.searched = searched;
        self.end = end;
        let count = read_at(&mut self.bytes, self.end, source, turns)?;
        self.end += count;
        Ok(count)
    }
}

/// Moves the bytes to the front, if nothing is free after them.
fn make_room(
    bytes: &mut Vec<u8>,
    start: usize,
    searched: usize,
    end: usize,
) -> (usize, usize, usize)
    requires window { IsWindow bytes.old.items start searched end }
    requires short { end - start ≤ MAX_LINE }
    ensures window { IsWindow bytes.new.items result.0 result.1 result.2 }
    ensures room { result.2 < length bytes.new.items }
    ensures same { slice_range bytes.new.items result.0 result.2 ≡ slice_range bytes.old.items start end }
{
    if end < SIZE {
        return (start, searched, end);
    }
    bytes.copy_within(start..end, 0);
    (0, searched - start, end - start)
}

/// Reads into the buffer from a place on. Returns how many bytes. Retries while the source is interrupted.
pub(crate) fn read_at<S: Source>(
    bytes: &mut Vec<u8>,
    at: usize,
    source: &mut S,
    turns: &mut u32,
) -> Result<usize, ReadCause>
    requires room { at < length bytes.old.items }
    requires turns { turns.old ≤ MAX_TURNS }
    ensures len { length bytes.new.items ≡ length bytes.old.items }
    ensures front { take at bytes.new.items ≡ take at bytes.old.items }
    ensures bound { IfOk result (λ count. at + count ≤ length bytes.new.items) }
    ensures bytes { ReadConsumes (S.remaining source.old) (S.remaining source.new) result
        (drop at bytes.new.items) }
    ensures fault { IfErr result IsDeviceFault }
    ensures turns { TakesTurns (result_err result) turns.old turns.new (S.agains source.old)
        (S.agains source.new) }
    ensures breaks { S.breaks source.new ≡ breaks_told (result_err result) (S.breaks source.old) }
{
    'turns: while *turns <= MAX_TURNS {
        match read_once(bytes, at, source) {
            Ok(count) => return Ok(count),
            Err(DeviceFault::Again) => *turns += 1,
            Err(DeviceFault::Broken) => return Err(ReadCause::Device),
        }
    }
    Err(ReadCause::TurnsSpent)
}

/// Reads into the buffer from a place on, by one call of the source. Returns how many bytes.
fn read_once<S: Source>(
    bytes: &mut Vec<u8>,
    at: usize,
    source: &mut S,
) -> Result<usize, DeviceFault>
    requires { at < length bytes.old.items }
    ensures len { length bytes.new.items ≡ length bytes.old.items }
    ensures front { take at bytes.new.items ≡ take at bytes.old.items }
    ensures bound { IfOk result (λ count. at + count ≤ length bytes.new.items) }
    ensures bytes { ReadConsumes (S.remaining source.old) (S.remaining source.new) result
        (drop at bytes.new.items) }
    ensures agains { S.agains source.new ≡ agains_after result (S.agains source.old) }
    ensures breaks { S.breaks source.new ≡ breaks_after result (S.breaks source.old) }
{
    source.read(&mut bytes[at..])
}
