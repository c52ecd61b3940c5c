//! Calls that are made once more where they are refused memory, so that a test which refuses memory sees
//! that they can be.
use anyhow::Result;

/// Prints that memory was refused to a call, which is now made again.
pub fn tell_refused<P: Print>(rt: &P) -> Result<()> {
    print!(rt; "memory, ")?;
    Ok(())
}

/// Returns what the call answers. Where its fault matches the pattern, prints that memory was refused, and
/// returns what the call answers when it is made again.
macro_rules! again {
    ($rt:expr, $memory:pat, $call:expr) => {
        match $call {
            Err($memory) => {
                $crate::again::tell_refused($rt)?;
                $call
            }
            answer => answer,
        }
    };
}

pub(crate) use again;
