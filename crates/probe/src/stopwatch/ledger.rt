//! Entries of finished tasks, and questions, by commands to a ledger of one thread, with nothing beside them.
use crate::ledger::{cover_of, enter, entry_of, span_of, tell};
use crate::standard_input::{text_of_input, words_of};
use anyhow::{Result, bail};
use credit_ledger::{Cover, Ledger, Span};

/// Does what each line of standard input says to one ledger, and prints the answer. A command is `enter ROOT
/// PATH KEPT` or `holds UPTO ROOT PATH FROM TO COVER`, as of `ledger`.
pub fn each(rt: &HostRuntime) -> Result<()> {
    let text = text_of_input(rt)?;
    let mut ledger = Ledger::new(rt.alloc());
    for line in text.lines() {
        print!(rt; "{line}: ")?;
        answer(rt, &mut ledger, words_of(line))?;
    }
    Ok(())
}

/// Prints what a command answers.
fn answer(rt: &HostRuntime, ledger: &mut Ledger, words: [&str; 8]) -> Result<()> {
    let [verb, first, second, third, fourth, fifth, sixth, _] = words;
    match verb {
        "enter" => {
            let entry = entry_of(rt.alloc(), first, second, third, "whole")?;
            tell(rt, enter(ledger, entry)?)
        }
        "holds" => {
            let span = span_of(rt.alloc(), second, third, fourth, fifth)?;
            held(rt, ledger, first.parse()?, &span, cover_of(sixth)?)
        }
        _ => bail!("the command must be enter or holds"),
    }
}

/// Prints whether so many entries hold the span. `bench/ledger_calls.py` counts it, so it is not put into
/// its caller.
#[inline(never)]
fn held(rt: &HostRuntime, ledger: &Ledger, upto: u32, span: &Span, cover: Cover) -> Result<()> {
    if span.path.as_slice().len() > 1_024 {
        bail!("the path has more than 1,024 numbers");
    }
    let held = ledger.holds(upto, span, cover)?;
    println!(rt; "{held}")?;
    Ok(())
}
