//! What scripts say.
use crate::standard_input::{input, parts_of, told};
use anyhow::Result;
use certificate::{FromRead, Script, read_script};

/// What ends a script: a form feed.
const END: u8 = 12;

/// Prints for each script of standard input its steps, or its fault, and then a line `end`.
pub fn each(rt: &HostRuntime) -> Result<()> {
    let bytes = input(rt)?;
    for file in parts_of(rt.alloc(), &bytes, END)?.iter() {
        match read_script(rt.alloc(), &mut FromRead::new(*file)) {
            Ok(script) => tell(rt, &script)?,
            Err(fault) => println!(rt; "{}", told(rt.alloc(), fault)?)?,
        }
        println!(rt; "end")?;
    }
    Ok(())
}

/// Prints the steps.
fn tell(rt: &HostRuntime, script: &Script) -> Result<()> {
    for step in script.steps() {
        let (line, thread, after) = (step.line, step.thread, step.after);
        println!(rt; "{line} {thread} {after:?} {:?}", step.body)?;
    }
    Ok(())
}
