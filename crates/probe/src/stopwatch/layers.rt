//! Reading alone.
use crate::standard_input::{read_trace, split_part};
use anyhow::Result;
use serde_json::Value;
use std::io::Read;

/// Reads each line of standard input as a JSON value.
pub fn values(rt: &HostRuntime) -> Result<()> {
    let mut bytes = Vec::new(rt.alloc());
    rt.reader().read_to_end(&mut bytes)?;
    let mut rest = bytes.as_slice();
    let mut count = 0u64;
    for _ in 0..u64::MAX {
        let Some((line, behind)) = split_part(rest, b'\n') else {
            break;
        };
        if Value::from_slice(rt.alloc(), line)?.is_object() {
            count = count.wrapping_add(1);
        }
        rest = behind;
    }
    println!(rt; "{count} values")?;
    Ok(())
}

/// Reads the records of standard input.
pub fn records(rt: &HostRuntime) -> Result<()> {
    let trace = read_trace(rt)?;
    println!(rt; "{} records", trace.records().len())?;
    Ok(())
}
