//! A block of bytes from a source, for several workers.
ghost use Rattle.std.specs.Prelude.{◌≡◌, ◌≤◌, ◌<◌, ◌+◌, ◌++◌, ◌==◌, [], length, take, drop, true, false, Ok, None, IfOk, IfErr, OnOk, OnErr};
ghost use Rattle.std.specs.Result.{result_err};
ghost use Rattle.std.specs.Io.KnownBytes.{Keeps, IsAtEnd, prepend_known};
ghost use Rattle.certificate.specs.Counts.{TakesTurns, breaks_told};
ghost use Rattle.certificate.specs.Windows.{IsDeviceFault, LineFeedAt};
ghost use Rattle.certificate.specs.Pieces.{IsWholeLines};
ghost use Rattle.certificate.specs.Blocks.{AreWholeLines, IsFillFault};

use crate::device::{MAX_TURNS, Source};
use crate::window::read_at;
use lines::ReadCause;
use memchr::memrchr;
use std::alloc::{AllocError, Global};
use std::marker::Model;

/// The first size of a block in bytes. It grows as bytes come.
const FIRST_BYTES: usize = 65_536;

/// Bytes of a source that were not judged yet.
#[derive(Drop)]
pub(crate) struct Block {
    bytes: Vec<u8>,
    end: usize,
    limit: usize,
}

impl Model for Block {
    ghost use Rattle.std.specs.Prelude.{◌-◌, slice_range, vec_len};
    ghost use Rattle.certificate.specs.Blocks.{BlockView, IsBlock};

    ghost Value = { BlockView };

    ghost view = { λ block. record {
      waiting = slice_range block.bytes.items 0 block.end;
      free = vec_len block.bytes - block.end;
      limit = block.limit;
    } };

    ghost invariant = { λ block. IsBlock (vec_len block.bytes) block.end block.limit };
}

impl Block {
    /// Returns an empty block for at most `limit` bytes. Reserves memory for all of them, and touches it
    /// only where bytes are put.
    pub(crate) fn new(alloc: Global, limit: usize) -> Result<Block, AllocError>
        ensures { IfOk result (λ block. block ≡ record { waiting = []; free = 0; limit = limit }) }
    {
        Ok(Block {
            bytes: Vec::with_capacity(alloc, limit)?,
            end: 0,
            limit,
        })
    }

    /// Returns how many bytes the block has.
    pub(crate) fn len(&self) -> usize
        ensures count { result ≡ length self.now.waiting }
        ensures few { length self.now.waiting ≤ self.now.limit }
    {
        self.end
    }

    /// Returns whether the block is full.
    pub(crate) fn is_full(&self) -> bool
        ensures full { result ≡ (length self.now.waiting == self.now.limit) }
        ensures few { length self.now.waiting ≤ self.now.limit }
    {
        self.end == self.limit
    }

    /// Makes room for a byte more, unless the block is full.
    pub(crate) fn make_room(&mut self) -> Result<(), AllocError>
        requires { length self.old.waiting < self.old.limit }
        ensures waiting { self.new.waiting ≡ self.old.waiting }
        ensures limit { self.new.limit ≡ self.old.limit }
        ensures free { OnOk result (0 < self.new.free) }
    {
        if self.end < self.bytes.len() {
            return Ok(());
        }
        let more = self.end.max(FIRST_BYTES).min(self.limit - self.end);
        self.bytes.resize(self.end + more, 0)
    }

    /// Reads more bytes from the source. Returns how many: none only at its end. Retries while the source is
    /// interrupted, at most 10,000 times in one call of the reader.
    pub(crate) fn read<S: Source>(
        &mut self,
        source: &mut S,
        turns: &mut u32,
    ) -> Result<usize, ReadCause>
        requires room { 0 < self.old.free }
        requires turns { turns.old ≤ MAX_TURNS }
        ensures bytes { Keeps (prepend_known self.old.waiting (S.remaining source.old))
            (prepend_known self.new.waiting (S.remaining source.new)) }
        ensures few { length self.new.waiting ≤ self.new.limit }
        ensures limit { self.new.limit ≡ self.old.limit }
        ensures more { IfOk result (λ count. length self.new.waiting ≡ length self.old.waiting + count) }
        ensures end { result ≡ Ok 0 → IsAtEnd (S.remaining source.new) }
        ensures fault { IfErr result IsDeviceFault }
        ensures turns { TakesTurns (result_err result) turns.old turns.new (S.agains source.old)
            (S.agains source.new) }
        ensures breaks { S.breaks source.new ≡ breaks_told (result_err result) (S.breaks source.old) }
    {
        let count = read_at(&mut self.bytes, self.end, source, turns)?;
        self.end += count;
        Ok(count)
    }

    /// Returns how many bytes the whole lines have, line feeds included.
    pub(crate) fn whole_lines(&self) -> usize
        ensures lines { AreWholeLines result self.now.waiting }
        ensures few { length self.now.waiting ≤ self.now.limit }
    {
        match memrchr(b'\n', &self.bytes[..self.end]) {
            Some(at) => at + 1,
            None => 0,
        }
    }

    /// Returns the bytes.
    pub(crate) fn bytes(&self) -> &[u8]
        ensures bytes { result.now ≡ self.now.waiting }
        ensures few { length self.now.waiting ≤ self.now.limit }
    {
        &self.bytes[..self.end]
    }

    /// Removes the first bytes, and moves the others to the front.
    pub(crate) fn skip(&mut self, count: usize)
        requires { count ≤ length self.old.waiting }
        ensures waiting { self.new.waiting ≡ drop count self.old.waiting }
        ensures limit { self.new.limit ≡ self.old.limit }
    {
        self.bytes.copy_within(count..self.end, 0);
        self.end -= count;
    }

    /// Removes all bytes.
    pub(crate) fn clear(&mut self)
        ensures waiting { self.new.waiting ≡ [] }
        ensures limit { self.new.limit ≡ self.old.limit }
    {
        self.end = 0;
    }

    /// Makes room for this many bytes. Requires that the block is empty.
    fn hold(&mut self, count: usize) -> Result<(), AllocError>
        requires none { self.old.waiting ≡ [] }
        requires few { count ≤ self.old.limit }
        ensures waiting { self.new.waiting ≡ [] }
        ensures limit { self.new.limit ≡ self.old.limit }
        ensures free { OnOk result (count ≤ self.new.free) }
    {
        if count <= self.bytes.len() {
            return Ok(());
        }
        self.bytes.resize(count, 0)
    }

    /// Puts these bytes into the block. Requires that it is empty.
    fn put(&mut self, bytes: &[u8]) -> Result<(), AllocError>
        requires none { self.old.waiting ≡ [] }
        requires few { length bytes.now ≤ self.old.limit }
        ensures waiting { OnOk result (self.new.waiting ≡ bytes.now) }
        ensures limit { self.new.limit ≡ self.old.limit }
    {
        self.hold(bytes.len())?;
        put_front(&mut self.bytes, bytes);
        self.end = bytes.len();
        Ok(())
    }

    /// Keeps the whole lines, and moves the bytes after them to another block, which is empty.
    pub(crate) fn move_rest(&mut self, rest: &mut Block) -> Result<(), AllocError>
        requires none { rest.old.waiting ≡ [] }
        requires limit { self.old.limit ≡ rest.old.limit }
        ensures parts { OnOk result (self.old.waiting ≡ self.new.waiting ++ rest.new.waiting) }
        ensures whole { OnOk result (IsWholeLines self.new.waiting) }
        ensures none { OnOk result (LineFeedAt rest.new.waiting None) }
        ensures same { OnErr result (self.new ≡ self.old) }
        ensures few { length self.old.waiting ≤ self.old.limit }
        ensures limit { (self.new.limit ≡ self.old.limit) × (rest.new.limit ≡ rest.old.limit) }
    {
        let whole = self.whole_lines();
        rest.put(&self.bytes[whole..self.end])?;
        self.end = whole;
        Ok(())
    }
}

/// Writes these bytes over the first ones.
fn put_front(bytes: &mut [u8], front: &[u8])
    requires { length front.now ≤ length bytes.old }
    ensures len { length bytes.new ≡ length bytes.old }
    ensures front { take (length front.now) bytes.new ≡ front.now }
{
    bytes[..front.len()].copy_from_slice(front);
}

/// Reads until the block is full or the source ends. Returns whether more may come.
pub(crate) fn fill<S: Source>(
    block: &mut Block,
    source: &mut S,
    turns: &mut u32,
) -> Result<bool, ReadCause>
    requires { turns.old ≤ MAX_TURNS }
    ensures bytes { Keeps (prepend_known block.old.waiting (S.remaining source.old))
        (prepend_known block.new.waiting (S.remaining source.new)) }
    ensures few { length block.new.waiting ≤ block.new.limit }
    ensures limit { block.new.limit ≡ block.old.limit }
    ensures full { result ≡ Ok true → length block.new.waiting ≡ block.new.limit }
    ensures end { result ≡ Ok false → IsAtEnd (S.remaining source.new) }
    ensures fault { IfErr result IsFillFault }
    ensures turns { TakesTurns (result_err result) turns.old turns.new (S.agains source.old)
        (S.agains source.new) }
    ensures breaks { S.breaks source.new ≡ breaks_told (result_err result) (S.breaks source.old) }
{
    'asks: while !block.is_full() {
        let Ok(()) = block.make_room() else {
            return Err(ReadCause::Memory);
        };
        if block.read(source, turns)? == 0 {
            return Ok(false);
        }
    }
    Ok(true)
}
