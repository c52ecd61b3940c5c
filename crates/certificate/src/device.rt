//! Where traces are read from, and where bytes are written to.
ghost use Rattle.std.specs.Prelude.{◌≡◌, ℕ, List, length, Option, None};
ghost use Rattle.std.specs.Io.{ReadsAtMost, WritesAtMost};
ghost use Rattle.std.specs.Io.KnownBytes.{ReadConsumes, WriteAppends};
ghost use Rattle.certificate.specs.Counts.{agains_after, breaks_after, stalls_after};

use thiserror::Error;

/// How often a device may be interrupted in one call. The next time ends the call.
pub(crate) const MAX_TURNS: u32 = 10_000;

/// Why a device read or wrote nothing.
#[derive(Clone, Copy, Debug, PartialEq, Eq, Error)]
pub enum DeviceFault {
    /// Interrupted: nothing was done, and the call may be repeated.
    #[error("interrupted; retry")]
    Again,
    /// The device has failed.
    #[error("the device failed")]
    Broken,
}

/// Where bytes come from, in pieces of any size. Its failures are counted, in counters that begin again at 0
/// after 2^64 - 1: they are exact within one call of `read` of this crate, which reads far fewer than 2^64
/// times.
pub trait Source {
    /// The bytes that are left, if they are known.
    ghost remaining: { Self → Option (List ℕ) } = { λ _. None };

    /// How often it has answered `Again` so far, modulo 2^64.
    ghost agains: { Self → ℕ };

    /// How often it has answered `Broken` so far, modulo 2^64.
    ghost breaks: { Self → ℕ };

    /// Puts the next bytes at the front of the buffer. Returns how many: for a buffer that is not empty,
    /// none only at the end.
    fn read(&mut self, buffer: &mut [u8]) -> Result<usize, DeviceFault>
        ensures bound { ReadsAtMost result buffer.new }
        ensures bytes { ReadConsumes (remaining self.old) (remaining self.new) result buffer.new }
        ensures agains { agains self.new ≡ agains_after result (agains self.old) }
        ensures breaks { breaks self.new ≡ breaks_after result (breaks self.old) };
}

/// Where bytes go, in pieces of any size. It counts as a `Source` does.
pub trait Sink {
    /// The bytes that were taken so far, if they are known.
    ghost contents: { Self → Option (List ℕ) } = { λ _. None };

    /// How often it has answered `Again`, or took none of some bytes, so far, modulo 2^64.
    ghost stalls: { Self → ℕ };

    /// How often it has answered `Broken` so far, modulo 2^64.
    ghost breaks: { Self → ℕ };

    /// Takes bytes from the front. Returns how many.
    fn write(&mut self, bytes: &[u8]) -> Result<usize, DeviceFault>
        ensures bound { WritesAtMost result bytes.now }
        ensures bytes { WriteAppends (contents self.old) (contents self.new) result bytes.now }
        ensures stalls { stalls self.new ≡ stalls_after (length bytes.now) result (stalls self.old) }
        ensures breaks { breaks self.new ≡ breaks_after result (breaks self.old) };
}
