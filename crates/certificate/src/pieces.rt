//! How a piece of a trace file is judged: whole lines after the header, without counts of the records before
//! them.
ghost use Rattle.std.specs.Prelude.{◌≡◌, ◌≤◌, ◌<◌, ◌+◌, [], length, slice_range, slice_index, IfOk, OnOk, IfErr};
ghost use Rattle.certificate.specs.Pieces.{IsWholeLines, IsPieceJudged, AreJudged, TakesLine, TakesText, WithRecord, SamePiece};
ghost use Rattle.certificate.specs.Blocks.{AreCuts, IsPiece};

use json::Scratch;
use lines::{MAX_LINE, ReadCause, record, record_in_front};
use memchr::memchr;
use ompt_events::Record;
use std::alloc::{AllocError, Global};
use std::thread;
use std::thread::Threads;

/// The line of a record is rarely shorter. If many are, the list of a piece's records grows.
const LINE: usize = 96;

/// The records of a piece's lines up to its first faulty one, and the cause of that line.
#[derive(Drop)]
pub(crate) struct Piece {
    pub(crate) records: Vec<Record>,
    pub(crate) fault: Option<ReadCause>,
}

impl Piece {
    /// Adds the record.
    #[inline(always)]
    fn add(&mut self, event: Record) -> Result<(), ReadCause>
        ensures ok { OnOk result (WithRecord event self.old self.new) }
        ensures err { IfErr result (λ cause. (cause ≡ ReadCause.Memory) × SamePiece self.old self.new) }
    {
        if self.records.push(event).is_err() {
            return Err(ReadCause::Memory);
        }
        Ok(())
    }
}

/// Judges the lines of all pieces of a file of this version side by side. The cuts are where pieces end.
pub(crate) fn judge_all<R: Threads + Sync>(
    rt: &R,
    alloc: Global,
    version: u32,
    text: &[u8],
    cuts: &[usize],
) -> Result<Vec<Piece>, AllocError>
    requires { AreCuts text.now cuts.now }
    ensures { IfOk result (λ pieces. AreJudged version pieces.items text.now) }
{
    let pieces = thread::map_indices(
        rt,
        alloc,
        cuts.len() - 1,
        &|i: usize| -> Piece
            requires { AreCuts text.now cuts.now × (i + 1 < length cuts.now) }
            ensures { IsPieceJudged version
                (slice_range text.entry.now (slice_index cuts.entry.now i) (slice_index cuts.entry.now (i + 1)))
                result }
        { judge_piece(alloc, version, text, cuts, i) },
    )?;
    Ok(pieces)
}

/// Judges the piece with this number, from 0.
fn judge_piece(alloc: Global, version: u32, text: &[u8], cuts: &[usize], number: usize) -> Piece
    requires cuts { AreCuts text.now cuts.now }
    requires number { number + 1 < length cuts.now }
    ensures { IsPieceJudged version
        (slice_range text.now (slice_index cuts.now number) (slice_index cuts.now (number + 1))) result }
{
    judge(
        alloc,
        version,
        piece_of(text, cuts[number], cuts[number + 1]),
    )
}

/// Returns whole lines of the bytes.
fn piece_of(text: &[u8], start: usize, end: usize) -> &[u8]
    requires { IsPiece text.now start end }
    ensures { result.now ≡ slice_range text.now start end }
{
    &text[start..end]
}

/// Judges the lines of a piece of a file of this version, up to the first faulty one.
fn judge(alloc: Global, version: u32, text: &[u8]) -> Piece
    requires { IsWholeLines text.now }
    ensures { IsPieceJudged version text.now result }
{
    let mut scratch = Scratch::new(alloc);
    let mut piece = Piece {
        records: reserved(alloc, text.len() / LINE),
        fault: None,
    };
    let mut start = 0;
    'lines: while start < text.len() {
        match judge_line(alloc, version, &text[start..], &mut piece, &mut scratch) {
            Ok(len) => start += len,
            Err(cause) => {
                piece.fault = Some(cause);
                return piece;
            }
        }
    }
    piece
}

/// Returns a piece without records, with room for this many if there is memory for them now.
fn reserved(alloc: Global, count: usize) -> Vec<Record>
    ensures { result.items ≡ [] }
{
    match Vec::with_capacity(alloc, count) {
        Ok(records) => records,
        Err(_) => Vec::new(alloc),
    }
}

/// Judges the first line. Returns its length, line feed included.
fn judge_line(
    alloc: Global,
    version: u32,
    rest: &[u8],
    piece: &mut Piece,
    scratch: &mut Scratch,
) -> Result<usize, ReadCause>
    requires whole { IsWholeLines rest.now }
    requires some { 0 < length rest.now }
    ensures { TakesLine version rest.now piece.old result piece.new }
{
    match record_in_front(alloc, version, rest) {
        Some((event, len)) => {
            piece.add(event)?;
            Ok(len + 1)
        }
        None => judge_other_line(alloc, version, rest, piece, scratch),
    }
}

/// Judges the next line, whatever form it has: searches for its end first.
#[inline(never)]
fn judge_other_line(
    alloc: Global,
    version: u32,
    rest: &[u8],
    piece: &mut Piece,
    scratch: &mut Scratch,
) -> Result<usize, ReadCause>
    requires whole { IsWholeLines rest.now }
    requires some { 0 < length rest.now }
    ensures { TakesLine version rest.now piece.old result piece.new }
{
    match memchr(b'\n', rest) {
        Some(len) if len <= MAX_LINE => {
            judge_text(alloc, version, &rest[..len], piece, scratch)?;
            Ok(len + 1)
        }
        Some(_) => Err(ReadCause::LineTooLong),
        None => unreachable!(),
    }
}

/// Judges the text of a line in any form.
#[inline(never)]
fn judge_text(
    alloc: Global,
    version: u32,
    text: &[u8],
    piece: &mut Piece,
    scratch: &mut Scratch,
) -> Result<(), ReadCause>
    ensures { TakesText version text.now piece.old result piece.new }
{
    piece.add(record(alloc, version, text, scratch)?)
}

/// Returns where to cut whole lines into at most `count` pieces of about the same size.
pub(crate) fn cuts(alloc: Global, text: &[u8], count: u32) -> Result<Vec<usize>, AllocError>
    requires whole { IsWholeLines text.now }
    requires count { 1 ≤ count }
    ensures cuts { IfOk result (λ cuts. AreCuts text.now cuts.items) }
    ensures few { IfOk result (λ cuts. length cuts.items ≡ count + 1) }
{
    let size = text.len() / count as usize;
    let mut cuts = Vec::with_capacity(alloc, count as usize + 1)?;
    cuts.push(0)?;
    let mut start = 0;
    'pieces: for _ in 1..count {
        start = next_cut(text, start, size);
        cuts.push(start)?;
    }
    cuts.push(text.len())?;
    Ok(cuts)
}

/// Returns the end of the first line that ends at least this many bytes after the start, or the end of all.
fn next_cut(text: &[u8], start: usize, size: usize) -> usize
    requires { start ≤ length text.now }
    ensures { IsWholeLines text.now → IsPiece text.now start result }
{
    let least = start + size.min(text.len() - start);
    match memchr(b'\n', &text[least..]) {
        Some(at) => least + at + 1,
        None => text.len(),
    }
}
