//! The reader of trace files on several workers. While the whole lines of one block are judged side by side,
//! cut into pieces, the calling thread adds the pieces of the block before it and fills the next one.
ghost use Rattle.std.specs.Prelude.{◌≡◌, ◌≢◌, ◌≤◌, ◌<◌, ◌+◌, ◌*◌, ◌^◌, ℕ, List, Option, Ok, true, false, [], length, IfOk, IfErr, IfSome, OnOk, OnErr, None, Some};
ghost use Rattle.std.specs.Result.{result_err};
ghost use Rattle.std.specs.Io.KnownBytes.{IsAtEnd};
ghost use denote.Param.Send.{IsSync};
ghost use Rattle.ompt_events.specs.Traces.{TraceView};
ghost use Rattle.certificate.specs.Counts.{cause_told};
ghost use Rattle.certificate.specs.Pieces.{IsWholeLines};
ghost use Rattle.certificate.specs.Windows.{LineFeedAt};
ghost use Rattle.certificate.specs.Blocks.{IsFillFault};
ghost use Rattle.certificate.specs.ReadingOn.{IsAnswerOn, IsAnswerInBlocks, ReadsAhead, IsToldAfter, IsBetweenLines, IsReadToEnd, IsLineFault, room_of};
ghost use Rattle.certificate.specs.Ahead.{AreJudgedOf, SameSource, IsFirst, IsInHand, CanAsk, IsRoundReady, Waits, IsAfterStep, IsAfterRound, AreBlocksTurned, WorkedBeside, HasMet, MeetsMore, rounds_left};

use crate::ahead::{Ahead, Hands};
use crate::blocks::{Block, fill};
use crate::device::Source;
use crate::faults::ReadFault;
use crate::kept::{Kept, RecordList};
use crate::lists::Records;
use crate::pieces::{Piece, cuts, judge_all};
use crate::reading::{LAST_LINE, NEWEST_VERSION, take_header};
use json::Scratch;
use lines::{MAX_LINE, ReadCause};
use memchr::memchr;
use ompt_events::Trace;
use packed_trace::PackedTrace;
use std::alloc::{AllocError, Global};
use std::mem::swap;
use std::thread::{Threads, join_mut};

/// The size of a block of [`read_on`] in bytes, for each worker.
const BLOCK: usize = 1 << 21;

/// Reads a trace file of a version up to [`NEWEST_VERSION`] to its end, on this many workers. Returns what
/// [`crate::read`] returns. Has buffers of at most `workers` times 2^21 bytes, and two of the longest lines
/// with their line feeds. The source is read ahead of the lines that are judged: if it fails or is
/// interrupted too often, the lines before are judged first.
pub fn read_on<R: Threads + Sync, S: Source>(
    rt: &R,
    alloc: Global,
    source: &mut S,
    workers: u32,
) -> Result<Trace, ReadFault>
    requires { 1 ≤ workers }

    // The trace that the bytes stand for, their first fault, or a failure of the device or of memory.
    ensures file { IfSome (S.remaining source.old)
        (λ bytes. IsAnswerOn workers result bytes (S.remaining source.new)) }

    // The reading ends with the 10,001st answer `Again` or an answer `Broken`, which is reported unless a
    // line before it has a fault.
    ensures device { (turns : ℕ) × ReadsAhead (cause_told result) 0 turns (S.agains source.old)
        (S.agains source.new) (S.breaks source.old) (S.breaks source.new) }
    ensures line { IfErr result (λ fault. (1 ≤ fault.line) × (fault.line ≤ LAST_LINE)) }
    ensures version { IfOk result (λ trace. trace.version ≤ NEWEST_VERSION) }
{
    read_blocks(rt, alloc, source, workers, BLOCK)
}

/// Reads a trace file into columns, on this many workers, as [`read_on`] reads it.
pub fn read_packed_on<R: Threads + Sync, S: Source>(
    rt: &R,
    alloc: Global,
    source: &mut S,
    workers: u32,
) -> Result<PackedTrace, ReadFault>
    requires { 1 ≤ workers }

    // The trace that the bytes stand for, their first fault, or a failure of the device or of memory.
    ensures file { IfSome (S.remaining source.old)
        (λ bytes. IsAnswerOn workers result bytes (S.remaining source.new)) }

    // The reading ends with the 10,001st answer `Again` or an answer `Broken`, which is reported unless a
    // line before it has a fault.
    ensures device { (turns : ℕ) × ReadsAhead (cause_told result) 0 turns (S.agains source.old)
        (S.agains source.new) (S.breaks source.old) (S.breaks source.new) }
    ensures line { IfErr result (λ fault. (1 ≤ fault.line) × (fault.line ≤ LAST_LINE)) }
    ensures version { IfOk result (λ trace. trace.version ≤ NEWEST_VERSION) }
{
    let hands = Hands {
        alloc,
        workers,
        block: BLOCK,
    };
    Ok(read_ahead(rt, &hands, source, PackedTrace::new(alloc))?.into_list())
}

/// Reads ahead as [`read_on`] does, with blocks of this size, from 1 byte to 2^24. Returns what `read_on` does.
pub fn read_blocks<R: Threads + Sync, S: Source>(
    rt: &R,
    alloc: Global,
    source: &mut S,
    workers: u32,
    block: usize,
) -> Result<Trace, ReadFault>
    requires workers { 1 ≤ workers }
    requires block { (1 ≤ block) × (block ≤ 2 ^ 24) }

    // The trace that the bytes stand for, their first fault, or a failure of the device or of memory.
    ensures file { IfSome (S.remaining source.old)
        (λ bytes. IsAnswerInBlocks workers block result bytes (S.remaining source.new)) }

    // The reading ends with the 10,001st answer `Again` or an answer `Broken`, which is reported unless a
    // line before it has a fault.
    ensures device { (turns : ℕ) × ReadsAhead (cause_told result) 0 turns (S.agains source.old)
        (S.agains source.new) (S.breaks source.old) (S.breaks source.new) }
    ensures line { IfErr result (λ fault. (1 ≤ fault.line) × (fault.line ≤ LAST_LINE)) }
    ensures version { IfOk result (λ trace. trace.version ≤ NEWEST_VERSION) }
{
    let hands = Hands {
        alloc,
        workers,
        block,
    };
    Ok(
        read_ahead(rt, &hands, source, Records::new(alloc))?
            .into_list()
            .into_trace(),
    )
}

/// Reads ahead into this list, by workers and blocks as these hands say.
fn read_ahead<R: Threads + Sync, S: Source, L: RecordList>(
    rt: &R,
    hands: &Hands,
    source: &mut S,
    list: L,
) -> Result<Kept<L>, ReadFault>
    requires { (1 ≤ hands.now.block) × (hands.now.block ≤ 2 ^ 24) }
    ensures file { IfSome (S.remaining source.old)
        (λ bytes. IsAnswerInBlocks hands.now.workers hands.now.block result bytes (S.remaining source.new)) }
    ensures device { (turns : ℕ) × ReadsAhead (cause_told result) 0 turns (S.agains source.old)
        (S.agains source.new) (S.breaks source.old) (S.breaks source.new) }
    ensures line { IfErr result (λ fault. (1 ≤ fault.line) × (fault.line ≤ LAST_LINE)) }
    ensures version { IfOk result (λ trace. trace.version ≤ NEWEST_VERSION) }
{
    let limit = limit_of(hands.workers, hands.block);
    let Ok(mut front) = Block::new(hands.alloc, limit) else {
        return Err(ReadFault {
            line: 1,
            cause: ReadCause::Memory,
        });
    };
    let Ok(mut ahead) = Ahead::new(hands.alloc, list, limit) else {
        return Err(ReadFault {
            line: 1,
            cause: ReadCause::Memory,
        });
    };
    if let Err(cause) = start(hands.alloc, &mut front, &mut ahead, source) {
        return Err(ReadFault {
            line: ahead.line,
            cause,
        });
    }
    'rounds: loop {
        match round(rt, hands, &mut front, &mut ahead, source) {
            Ok(true) => {}
            Ok(false) => return Ok(ahead.kept),
            Err(cause) => {
                return Err(ReadFault {
                    line: ahead.line,
                    cause,
                });
            }
        }
    }
}

/// Returns the size of each of the two blocks in bytes.
fn limit_of(workers: u32, block: usize) -> usize
    requires { block ≤ 2 ^ 24 }
    ensures long { MAX_LINE < result }
    ensures room { result + result ≤ room_of workers block }
{
    workers as usize * block / 2 + MAX_LINE + 1
}

/// Reads the first bytes, and takes the header.
fn start<S: Source, L: RecordList>(
    alloc: Global,
    front: &mut Block,
    ahead: &mut Ahead<L>,
    source: &mut S,
) -> Result<(), ReadCause>
    requires first { IsFirst front.old.limit ahead.old }
    requires empty { front.old.waiting ≡ [] }
    requires long { MAX_LINE < front.old.limit }
    ensures after { (room : ℕ) → front.old.limit + front.old.limit ≤ room
        → IsAfterStep result (S.remaining source.old) (S.remaining source.new) room front.new.waiting
        ahead.new }
    ensures ready { OnOk result (IsRoundReady front.new ahead.new) }
    ensures limit { front.new.limit ≡ front.old.limit }
    ensures line { OnErr result (ahead.new.line ≡ 1) }
    ensures met { HasMet ahead.new 0 (S.agains source.old) (S.breaks source.old) (S.agains source.new)
        (S.breaks source.new) }
    ensures told { IfErr result (λ cause. IsToldAfter (result_err ahead.new.filled) (Some cause)) }
{
    ahead.filled = fill(front, source, &mut ahead.turns);
    ahead.part(front)?;
    begin(alloc, front, ahead)
}

/// Takes the header from the front of the whole lines.
fn begin<L: RecordList>(
    alloc: Global,
    front: &mut Block,
    ahead: &mut Ahead<L>,
) -> Result<(), ReadCause>
    requires line { ahead.old.line ≡ 1 }
    requires pieces { ahead.old.pieces.items ≡ [] }
    requires whole { IsWholeLines front.old.waiting }
    requires none { LineFeedAt ahead.old.block.waiting None }
    requires limit { front.old.limit ≡ ahead.old.block.limit }
    requires long { MAX_LINE < front.old.limit }
    requires can_ask { CanAsk ahead.old }
    requires rests { (ahead.old.asks ≡ false → ahead.old.filled ≡ Ok true
        → MAX_LINE < length ahead.old.block.waiting) }
    requires some { ahead.old.asks ≡ true → 0 < length front.old.waiting }
    requires met { IfErr ahead.old.filled IsFillFault }
    ensures after { (known left : Option (List ℕ)) (room : ℕ)
        → Waits known left room front.old.waiting ahead.old
        → IsAfterStep result known left room front.new.waiting ahead.new }
    ensures ready { OnOk result (IsRoundReady front.new ahead.new) }
    ensures limit { front.new.limit ≡ front.old.limit }
    ensures line { OnErr result (ahead.new.line ≡ 1) }
    ensures source { SameSource ahead.old ahead.new }
    ensures told { IfErr result (λ cause. IsToldAfter (result_err ahead.new.filled) (Some cause)) }
{
    let text = front.bytes();
    let len = match memchr(b'\n', text) {
        Some(len) if len <= MAX_LINE => len,
        Some(_) => return Err(ReadCause::LineTooLong),
        None => return end(ahead.filled, ahead.block.len(), 1),
    };
    let mut scratch = Scratch::new(alloc);
    take_header(
        alloc,
        NEWEST_VERSION,
        &text[..len],
        &mut ahead.kept,
        &mut scratch,
    )?;
    ahead.line = 2;
    front.skip(len + 1);
    Ok(())
}

/// Judges the lines in front while the pieces before them are added and the other block is filled. Returns
/// whether more may come.
fn round<R: Threads + Sync, S: Source, L: RecordList>(
    rt: &R,
    hands: &Hands,
    front: &mut Block,
    ahead: &mut Ahead<L>,
    source: &mut S,
) -> Result<bool, ReadCause>
    requires ready { IsRoundReady front.old ahead.old }
    ensures after { (known : Option (List ℕ)) (room : ℕ) → front.old.limit + front.old.limit ≤ room
        → Waits known (S.remaining source.old) room front.old.waiting ahead.old
        → IsAfterRound result known (S.remaining source.new) room front.new.waiting ahead.new }
    ensures ready { result ≡ Ok true → IsRoundReady front.new ahead.new }
    ensures limit { front.new.limit ≡ front.old.limit }
    ensures fewer { result ≡ Ok true
        → rounds_left front.new.waiting ahead.new < rounds_left front.old.waiting ahead.old }
    ensures line { (1 ≤ ahead.new.line) × (ahead.new.line ≤ LAST_LINE) }
    ensures version { OnOk result (ahead.new.kept.version ≤ NEWEST_VERSION) }
    ensures met { MeetsMore ahead.old ahead.new (S.agains source.old) (S.agains source.new)
        (S.breaks source.old) (S.breaks source.new) }
    ensures told { IfErr result (λ cause. IsToldAfter (result_err ahead.new.filled) (Some cause)) }
    ensures ended { result ≡ Ok false → result_err ahead.new.filled ≡ None }
{
    let asks = ahead.asks;
    advance(rt, hands, front, ahead, source)?;
    if asks {
        ahead.part(front)?;
        return Ok(true);
    }
    finish(hands.alloc, front, ahead)?;
    Ok(false)
}

/// Judges the lines in front while the pieces before them are added and the other block is filled. Then the
/// judged ones are to be added, and the block that was filled is in front.
fn advance<R: Threads + Sync, S: Source, L: RecordList>(
    rt: &R,
    hands: &Hands,
    front: &mut Block,
    ahead: &mut Ahead<L>,
    source: &mut S,
) -> Result<(), ReadCause>
    requires ready { IsRoundReady front.old ahead.old }
    ensures after { (known : Option (List ℕ)) (room : ℕ) → front.old.limit + front.old.limit ≤ room
        → Waits known (S.remaining source.old) room front.old.waiting ahead.old
        → IsAfterStep result known (S.remaining source.new) room front.new.waiting ahead.new }
    ensures turned { OnOk result (AreBlocksTurned front.old ahead.old front.new ahead.new) }
    ensures limit { front.new.limit ≡ front.old.limit }
    ensures line { (1 ≤ ahead.new.line) × (ahead.new.line ≤ LAST_LINE) }
    ensures met { MeetsMore ahead.old ahead.new (S.agains source.old) (S.agains source.new)
        (S.breaks source.old) (S.breaks source.new) }
    ensures fault { IfErr result IsLineFault }
{
    let (judged, worked) = side_by_side(rt, hands, front.bytes(), ahead, source);
    worked?;
    let Ok(pieces) = judged else {
        return Err(ReadCause::Memory);
    };
    ahead.pieces = pieces;
    front.clear();
    swap(front, &mut ahead.block);
    Ok(())
}

/// Judges whole lines in another thread, and meanwhile does the work of this one.
fn side_by_side<R: Threads + Sync, S: Source, L: RecordList>(
    rt: &R,
    hands: &Hands,
    text: &[u8],
    ahead: &mut Ahead<L>,
    source: &mut S,
) -> (Result<Vec<Piece>, AllocError>, Result<(), ReadCause>)
    requires whole { IsWholeLines text.now }
    requires in_hand { IsInHand ahead.old }
    requires can_ask { CanAsk ahead.old }
    ensures judged { IfOk result.0 (λ pieces. AreJudgedOf ahead.old.kept.version pieces.items text.now) }
    ensures worked { WorkedBeside result.1 ahead.old ahead.new (S.remaining source.old)
        (S.remaining source.new) }
    ensures met { MeetsMore ahead.old ahead.new (S.agains source.old) (S.agains source.new)
        (S.breaks source.old) (S.breaks source.new) }
{
    let version = ahead.kept.version();
    join_mut(
        rt,
        &mut || -> Result<Vec<Piece>, AllocError>
            requires { IsSync R.row × IsWholeLines text.now }
            ensures { IfOk result (λ pieces. AreJudgedOf version pieces.items text.entry.now) }
        { judge(rt, hands, version, text) },
        &mut || -> Result<(), ReadCause>
            requires { IsInHand ahead.now × CanAsk ahead.now }
            ensures worked { WorkedBeside result ahead.entry.now ahead.exit.now
                (S.remaining source.entry.now) (S.remaining source.exit.now) }
            ensures met { MeetsMore ahead.entry.now ahead.exit.now (S.agains source.entry.now)
                (S.agains source.exit.now) (S.breaks source.entry.now) (S.breaks source.exit.now) }
        { ahead.work_beside(hands.alloc, source) },
    )
}

/// Judges whole lines in pieces side by side.
fn judge<R: Threads + Sync>(
    rt: &R,
    hands: &Hands,
    version: u32,
    text: &[u8],
) -> Result<Vec<Piece>, AllocError>
    requires whole { IsWholeLines text.now }
    ensures { IfOk result (λ pieces. AreJudgedOf version pieces.items text.now) }
{
    if text.is_empty() {
        return Ok(Vec::new(hands.alloc));
    }
    let count = pieces_of(judges_of(hands.workers), hands.block, text.len());
    let cuts = cuts(hands.alloc, text, count)?;
    judge_all(rt, hands.alloc, version, text, &cuts)
}

/// Returns how many threads judge lines. Of three workers or more the calling thread is one, since it fills
/// blocks meanwhile. Two workers both judge, which takes longer than what the calling thread does.
fn judges_of(workers: u32) -> u32
    requires { 1 ≤ workers }
    ensures some { 1 ≤ result }
    ensures few { result ≤ workers }
{
    if workers > 2 { workers - 1 } else { workers }
}

/// Returns how many pieces this many bytes are cut into: one for each thread that judges, but none smaller
/// than a sixteenth of a block.
fn pieces_of(judges: u32, block: usize, len: usize) -> u32
    requires { 1 ≤ judges }
    ensures some { 1 ≤ result }
    ensures few { result ≤ judges }
{
    let pieces = len / (block / 16 + 1);
    if pieces >= judges as usize {
        judges
    } else {
        pieces as u32 + 1
    }
}

/// Adds the last pieces, which these bytes follow, and returns how the reading ends.
fn finish<L: RecordList>(
    alloc: Global,
    front: &Block,
    ahead: &mut Ahead<L>,
) -> Result<(), ReadCause>
    requires in_hand { IsInHand ahead.old }
    requires none { LineFeedAt front.now.waiting None }
    requires empty { ahead.old.block.waiting ≡ [] }
    requires rests { ahead.old.filled ≡ Ok true → MAX_LINE < length front.now.waiting }
    ensures after { (known left : Option (List ℕ)) (room : ℕ)
        → Waits known left room front.now.waiting ahead.old
        → IsReadToEnd result known ahead.new.line ahead.new.kept room left }
    ensures line { (1 ≤ ahead.new.line) × (ahead.new.line ≤ LAST_LINE) }
    ensures version { OnOk result (ahead.new.kept.version ≤ NEWEST_VERSION) }
    ensures source { SameSource ahead.old ahead.new }
    ensures told { IsToldAfter (result_err ahead.new.filled) (result_err result) }
{
    ahead.add_pieces(alloc)?;
    end(ahead.filled, front.len(), ahead.line)
}

/// Returns how a reading ends if these bytes follow all lines: a line that is too long is reported before a
/// failure of the source.
fn end(filled: Result<bool, ReadCause>, len: usize, line: u32) -> Result<(), ReadCause>
    requires fault { IfErr filled IsFillFault }
    requires full { filled ≡ Ok true → MAX_LINE < len }
    ensures after { (known : Option (List ℕ)) (kept : TraceView) (waiting : List ℕ) (room : ℕ)
        (left : Option (List ℕ)) → IsBetweenLines known line kept waiting left → length waiting ≡ len
        → LineFeedAt waiting None → length waiting ≤ room → (filled ≡ Ok false → IsAtEnd left)
        → IsReadToEnd result known line kept room left }
    ensures later { OnOk result (line ≢ 1) }
    ensures told { IsToldAfter (result_err filled) (result_err result) }
{
    if len > MAX_LINE {
        return Err(ReadCause::LineTooLong);
    }
    match filled {
        Ok(true) => unreachable!(),
        Ok(false) if len > 0 => Err(ReadCause::Unended),
        Ok(false) if line == 1 => Err(ReadCause::Header),
        Ok(false) => Ok(()),
        Err(cause) => Err(cause),
    }
}
