//! The state of a reading on several workers, on the calling thread: the records that were read, the pieces
//! that come next, and the block that is filled while others are judged.
ghost use Rattle.std.specs.Prelude.{◌≡◌, ◌≤◌, ◌<◌, ◌+◌, ℕ, List, Option, Ok, None, true, false, [], ◌++◌, length, IfOk, IfErr, OnOk};
ghost use Rattle.std.specs.Result.{result_err};
ghost use Rattle.certificate.specs.Formats.{line_feeds};
ghost use Rattle.certificate.specs.Pieces.{IsWholeLines, IsPieceJudged, AreJudged};
ghost use Rattle.certificate.specs.Windows.{LineFeedAt};
ghost use Rattle.certificate.specs.Blocks.{IsFillFault};
ghost use Rattle.certificate.specs.ReadingOn.{IsBetweenLines, IsJudgedUpTo, IsLineCounted, IsLineFault};
ghost use Rattle.certificate.specs.Ahead.{IsFirst, IsInHand, CanAsk, ArePiecesAdded, IsRefilled, WorkedBeside, MeetsMore, SameSource, SameLines};

use crate::blocks::{Block, fill};
use crate::device::Source;
use crate::kept::{Kept, RecordList};
use crate::pieces::Piece;
use crate::reading::LAST_LINE;
use lines::{MAX_LINE, ReadCause};
use std::alloc::{AllocError, Global};
use std::mem::replace;

/// How many workers judge lines, and the size of a worker's blocks.
#[derive(Drop)]
pub(crate) struct Hands {
    pub(crate) alloc: Global,
    pub(crate) workers: u32,
    pub(crate) block: usize,
    pub(crate) ghost some: { 1 ≤ workers },
}

/// What the calling thread works on while others judge lines.
#[derive(Drop)]
pub(crate) struct Ahead<L: RecordList> {
    /// The number of the line that comes next.
    pub(crate) line: u32,
    /// What the lines before it stand for.
    pub(crate) kept: Kept<L>,
    /// The pieces of the lines from there on that were judged.
    pub(crate) pieces: Vec<Piece>,
    /// The bytes after those that are judged now.
    pub(crate) block: Block,
    /// How often the source was interrupted.
    pub(crate) turns: u32,
    /// The last answer of the source: whether more may come.
    pub(crate) filled: Result<bool, ReadCause>,
    /// Whether the source is read again.
    pub(crate) asks: bool,
}

impl<L: RecordList> Ahead<L> {
    /// Returns the state before anything was read, with a list for the records. The block has room for at
    /// most this many bytes.
    pub(crate) fn new(alloc: Global, list: L, limit: usize) -> Result<Ahead<L>, AllocError>
        ensures { IfOk result (IsFirst limit) }
    {
        Ok(Ahead {
            line: 1,
            kept: Kept::new(list),
            pieces: Vec::new(alloc),
            block: Block::new(alloc, limit)?,
            turns: 0,
            filled: Ok(true),
            asks: true,
        })
    }

    /// Leaves whole lines in the block, and moves the bytes after them to its own, which is empty.
    /// Decides whether the source is read again: not if it has ended, nor if a line is too long.
    pub(crate) fn part(&mut self, front: &mut Block) -> Result<(), ReadCause>
        requires empty { self.old.block.waiting ≡ [] }
        requires limit { front.old.limit ≡ self.old.block.limit }
        requires full { self.old.filled ≡ Ok true → MAX_LINE < length front.old.waiting }
        ensures parts { OnOk result (front.old.waiting ≡ front.new.waiting ++ self.new.block.waiting) }
        ensures whole { OnOk result (IsWholeLines front.new.waiting) }
        ensures none { OnOk result (LineFeedAt self.new.block.waiting None) }
        ensures few { length front.old.waiting ≤ front.old.limit }
        ensures limit { (front.new.limit ≡ front.old.limit) × (self.new.block.limit ≡ self.old.block.limit) }
        ensures lines { SameLines self.old self.new }
        ensures source { (self.new.turns ≡ self.old.turns) × (self.new.filled ≡ self.old.filled) }
        ensures fault { IfErr result (λ cause. cause ≡ ReadCause.Memory) }
        ensures asks { OnOk result (self.new.asks ≡ true
            → (self.new.filled ≡ Ok true) × (0 < length front.new.waiting)) }
        ensures rests { OnOk result (self.new.asks ≡ false → self.new.filled ≡ Ok true
            → MAX_LINE < length self.new.block.waiting) }
    {
        let Ok(()) = front.move_rest(&mut self.block) else {
            return Err(ReadCause::Memory);
        };
        self.asks = may_ask(self.filled, self.block.len());
        Ok(())
    }

    /// Does what is done while lines are judged: adds the pieces before them, and then fills the block, if the
    /// source is read again.
    pub(crate) fn work_beside<S: Source>(
        &mut self,
        alloc: Global,
        source: &mut S,
    ) -> Result<(), ReadCause>
        requires in_hand { IsInHand self.old }
        requires can_ask { CanAsk self.old }
        ensures worked { WorkedBeside result self.old self.new (S.remaining source.old)
            (S.remaining source.new) }
        ensures met { MeetsMore self.old self.new (S.agains source.old) (S.agains source.new)
            (S.breaks source.old) (S.breaks source.new) }
    {
        self.add_pieces(alloc)?;
        self.refill(source);
        Ok(())
    }

    /// Adds the pieces, up to the first fault.
    pub(crate) fn add_pieces(&mut self, alloc: Global) -> Result<(), ReadCause>
        requires { IsInHand self.old }
        ensures added { ArePiecesAdded result self.old self.new }
        ensures source { SameSource self.old self.new }
    {
        let pieces = replace(&mut self.pieces, Vec::new(alloc));
        join(pieces, &mut self.line, &mut self.kept)
    }

    /// Fills the block, if the source is read again.
    fn refill<S: Source>(&mut self, source: &mut S)
        requires can_ask { CanAsk self.old }
        requires met { IfErr self.old.filled IsFillFault }
        ensures refilled { IsRefilled self.old self.new (S.remaining source.old) (S.remaining source.new) }
        ensures met { MeetsMore self.old self.new (S.agains source.old) (S.agains source.new)
            (S.breaks source.old) (S.breaks source.new) }
    {
        if !self.asks {
            return;
        }
        self.filled = fill(&mut self.block, source, &mut self.turns);
    }
}

/// Returns whether the source is read again after this answer, if this many bytes follow the whole lines.
fn may_ask(filled: Result<bool, ReadCause>, len: usize) -> bool
    ensures asks { result ≡ true → (filled ≡ Ok true) × (len ≤ MAX_LINE) }
    ensures rests { result ≡ false → filled ≡ Ok true → MAX_LINE < len }
{
    match filled {
        Ok(true) => len <= MAX_LINE,
        Ok(false) => false,
        Err(_) => false,
    }
}

/// Adds the records of these pieces, up to the first fault.
fn join<L: RecordList>(
    pieces: Vec<Piece>,
    line: &mut u32,
    kept: &mut Kept<L>,
) -> Result<(), ReadCause>
    requires judged { (bytes : List ℕ) × AreJudged kept.old.version pieces.items bytes }
    requires line { (2 ≤ line.old) × (line.old ≤ LAST_LINE) }
    requires counted { IsLineCounted line.old kept.old }
    ensures judged { (bytes more : List ℕ) (known left : Option (List ℕ)) (room : ℕ) →
        AreJudged kept.old.version pieces.items bytes → length (bytes ++ more) ≤ room
        → IsBetweenLines known line.old kept.old (bytes ++ more) left
        → IsJudgedUpTo result known line.new kept.new more room left }
    ensures lines { OnOk result ((bytes : List ℕ) → AreJudged kept.old.version pieces.items bytes
        → line.new ≡ line.old + line_feeds bytes) }
    ensures line { (line.old ≤ line.new) × (line.new ≤ LAST_LINE) }
    ensures counted { OnOk result (IsLineCounted line.new kept.new) }
    ensures version { OnOk result (kept.new.version ≡ kept.old.version) }
    ensures fault { IfErr result IsLineFault }
{
    let mut rest = pieces.into_iter();
    'pieces: while let Some(piece) = rest.next() {
        add(piece, line, kept)?;
    }
    Ok(())
}

/// Adds the records of a piece, up to its fault. A record past the limits is reported before the fault.
fn add<L: RecordList>(piece: Piece, line: &mut u32, kept: &mut Kept<L>) -> Result<(), ReadCause>
    requires judged { (bytes : List ℕ) × IsPieceJudged kept.old.version bytes piece }
    requires line { (2 ≤ line.old) × (line.old ≤ LAST_LINE) }
    requires counted { IsLineCounted line.old kept.old }
    ensures judged { (bytes more : List ℕ) (known left : Option (List ℕ)) (room : ℕ) →
        IsPieceJudged kept.old.version bytes piece → length (bytes ++ more) ≤ room
        → IsBetweenLines known line.old kept.old (bytes ++ more) left
        → IsJudgedUpTo result known line.new kept.new more room left }
    ensures lines { OnOk result ((bytes : List ℕ) → IsPieceJudged kept.old.version bytes piece
        → line.new ≡ line.old + line_feeds bytes) }
    ensures line { (line.old ≤ line.new) × (line.new ≤ LAST_LINE) }
    ensures counted { OnOk result (IsLineCounted line.new kept.new) }
    ensures version { OnOk result (kept.new.version ≡ kept.old.version) }
    ensures fault { IfErr result IsLineFault }
{
    let (count, why) = kept.keep_all(piece.records);
    *line += count as u32;
    match why {
        Some(cause) => Err(cause),
        None => fault_of(piece.fault),
    }
}

/// Returns the fault, if there is one.
fn fault_of(fault: Option<ReadCause>) -> Result<(), ReadCause>
    ensures { fault ≡ result_err result }
{
    match fault {
        Some(cause) => Err(cause),
        None => Ok(()),
    }
}
