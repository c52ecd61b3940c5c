//! A look at the first bytes of a file, which tell whether it is compressed.
ghost use Rattle.std.specs.Prelude.{◌≡◌, ◌+◌, ◌≤◌, Option, IfErr, IfOk, IfSome, drop, length, take};
ghost use Rattle.std.specs.Io.{ReadsAtMost};
ghost use Rattle.std.specs.Io.KnownBytes.{Keeps, ReadConsumes, prepend_known};
ghost use Rattle.certificate.specs.Counts.{agains_after, breaks_after};
ghost use Rattle.certificate.specs.Windows.{IsDeviceFault};
ghost use Rattle.taskaudit.specs.Packings.{packing_in, IsLookedAt, packing_of};

use crate::work::Packing;
use certificate::{DeviceFault, ReadCause, Source};

/// How many bytes are looked at: those of the longest mark.
const LOOKED: usize = 6;

/// The bytes that a file of gzip begins with.
const GZIP: [u8; 2] = [0x1f, 0x8b];

/// The bytes that a file of Zstandard begins with.
const ZSTANDARD: [u8; 4] = [0x28, 0xb5, 0x2f, 0xfd];

/// The bytes that a file of xz begins with.
const XZ: [u8; 6] = [0xfd, 0x37, 0x7a, 0x58, 0x5a, 0x00];

/// How often a look may be interrupted while it waits for some bytes. The next time ends it.
const MAX_TURNS: u32 = 10_000;

/// A source whose first bytes were looked at. It gives them first, and then the others.
#[derive(Drop)]
pub struct Looked<I> {
    first: [u8; LOOKED],
    at: usize,
    end: usize,
    rest: I,
    ghost within: { (at ≤ end) × (end ≤ 6) },
}

impl<I: Source> Source for Looked<I> {
    ghost remaining = { λ source. prepend_known (drop source.at (take source.end source.first))
        (I.remaining source.rest) };

    ghost agains = { λ source. I.agains source.rest };

    ghost breaks = { λ source. I.breaks source.rest };

    fn read(&mut self, buffer: &mut [u8]) -> Result<usize, DeviceFault> {
        if self.at < self.end {
            let held = &self.first[self.at..self.end];
            let count = held.len().min(buffer.len());
            buffer[..count].copy_from_slice(&held[..count]);
            self.at += count;
            return Ok(count);
        }
        self.rest.read(buffer)
    }
}

impl<I> Looked<I> {
    /// Returns how the file is compressed, by the bytes that were looked at.
    pub fn packing(&self) -> Option<Packing>
        ensures { result ≡ packing_in (take self.now.end self.now.first) }
    {
        packing_in(&self.first[..self.end])
    }
}

/// Looks at the first bytes of the source, up to [`LOOKED`]. Fails if the source fails before that many bytes
/// or its end.
pub fn look<I: Source + Drop>(source: I) -> Result<Looked<I>, ReadCause>
    ensures looked { IfOk result (λ looked. IsLookedAt (I.remaining source) (take looked.end looked.first)
        (prepend_known (drop looked.at (take looked.end looked.first)) (I.remaining looked.rest))) }
    ensures fault { IfErr result IsDeviceFault }
{
    let mut rest = source;
    let mut first = [0u8; LOOKED];
    let mut end = 0;
    while end < LOOKED {
        let count = read_some(&mut rest, &mut first[end..])?;
        if count == 0 {
            return Ok(Looked {
                first,
                at: 0,
                end,
                rest,
            });
        }
        end += count;
    }
    Ok(Looked {
        first,
        at: 0,
        end,
        rest,
    })
}

/// Reads some bytes to the front of the buffer, and returns how many. Reads again while the source is
/// interrupted.
fn read_some<I: Source>(source: &mut I, buffer: &mut [u8]) -> Result<usize, ReadCause>
    ensures bound { ReadsAtMost result buffer.new }
    ensures bytes { ReadConsumes (I.remaining source.old) (I.remaining source.new) result buffer.new }
    ensures fault { IfErr result IsDeviceFault }
{
    for _ in 0..=MAX_TURNS {
        match source.read(buffer) {
            Ok(count) => return Ok(count),
            Err(DeviceFault::Again) => {}
            Err(DeviceFault::Broken) => return Err(ReadCause::Device),
        }
    }
    Err(ReadCause::TurnsSpent)
}

/// How a file that begins with these bytes is compressed.
fn packing_in(first: &[u8]) -> Option<Packing>
    ensures { result ≡ packing_in first.now }
{
    if first.starts_with(&GZIP) {
        return Some(Packing::Gzip);
    }
    if first.starts_with(&ZSTANDARD) {
        return Some(Packing::Zstandard);
    }
    if first.starts_with(&XZ) {
        return Some(Packing::Xz);
    }
    None
}
