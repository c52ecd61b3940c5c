//! A ledger of finished tasks, by commands.
use crate::again::{again, tell_refused};
use crate::shares::path_of;
use crate::standard_input::{text_of_input, words_of};
use anyhow::{Result, bail};
use credit_ledger::{Cover, Entry, Ledger, LedgerFault, Span};
use ompt_events::{Part, Path};
use std::alloc::Global;

/// Does what each line of standard input says to one ledger, and prints the answer. The words of a command
/// are `enter ROOT PATH KEPT PART`, `holds UPTO ROOT PATH FROM TO COVER`, `from ROOT PATH NUMBER COVER`,
/// `entry INDEX`, `len` and `new`; a path is its numbers with commas between them. A call that is refused
/// memory is made again.
pub fn each(rt: &HostRuntime) -> Result<()> {
    let text = text_of_input(rt)?;
    let mut ledger = Ledger::new(rt.alloc());
    for line in text.lines() {
        print!(rt; "{line}: ")?;
        answer(rt, &mut ledger, words_of(line))?;
    }
    Ok(())
}

/// Prints what a command answers.
fn answer(rt: &HostRuntime, ledger: &mut Ledger, words: [&str; 8]) -> Result<()> {
    let [verb, first, second, third, fourth, fifth, sixth, _] = words;
    match verb {
        "new" => renewed(rt, ledger),
        "len" => Ok(println!(rt; "{}", ledger.len())?),
        "entry" => Ok(println!(rt; "{:?}", ledger.entry(first.parse()?))?),
        "enter" => entered(
            rt,
            ledger,
            entry_of(rt.alloc(), first, second, third, fourth)?,
        ),
        "holds" => {
            let span = span_of(rt.alloc(), second, third, fourth, fifth)?;
            held(rt, ledger, first, &span, sixth)
        }
        "from" => held_from(rt, ledger, [first, second, third, fourth]),
        _ => bail!("the command must be new, len, entry, enter, holds or from"),
    }
}

/// Begins again with an empty ledger.
fn renewed(rt: &HostRuntime, ledger: &mut Ledger) -> Result<()> {
    *ledger = Ledger::new(rt.alloc());
    println!(rt; "ok")?;
    Ok(())
}

/// Prints whether so many entries hold the span.
fn held(rt: &HostRuntime, ledger: &Ledger, upto: &str, span: &Span, cover: &str) -> Result<()> {
    if span.path.as_slice().len() > 1_024 {
        bail!("the path has more than 1,024 numbers");
    }
    let (upto, cover) = (upto.parse()?, cover_of(cover)?);
    let held = again!(rt, _, ledger.holds(upto, span, cover))?;
    println!(rt; "{held}")?;
    Ok(())
}

/// Prints the least ledger length at which the child's share is held.
fn held_from(rt: &HostRuntime, ledger: &Ledger, words: [&str; 4]) -> Result<()> {
    let [root, path, number, cover] = words;
    let path = path_of(rt.alloc(), path)?;
    if path.len() > 1_024 {
        bail!("the path has more than 1,024 numbers");
    }
    let (root, number, cover) = (root.parse()?, number.parse()?, cover_of(cover)?);
    let from = again!(
        rt,
        _,
        ledger.held_from(root, path.as_slice(), number, cover)
    )?;
    println!(rt; "{from:?}")?;
    Ok(())
}

/// Returns the entry of thread 0 and task 2 with this claim and part.
pub fn entry_of(alloc: Global, root: &str, path: &str, kept: &str, part: &str) -> Result<Entry> {
    let part = match part {
        "body" => Part::Body,
        "event" => Part::Event,
        _ => Part::Whole,
    };
    Ok(Entry {
        thread: 0,
        part,
        kept: kept.parse()?,
        task: 2,
        root: root.parse()?,
        path: Path::from_vec(path_of(alloc, path)?),
    })
}

/// Returns the span of these words.
pub fn span_of(alloc: Global, root: &str, path: &str, from: &str, to: &str) -> Result<Span> {
    Ok(Span {
        from: from.parse()?,
        to: to.parse()?,
        root: root.parse()?,
        path: Path::from_vec(path_of(alloc, path)?),
    })
}

/// Returns the cover of this name.
pub fn cover_of(word: &str) -> Result<Cover> {
    match word {
        "children" => Ok(Cover::Children),
        "descendants" => Ok(Cover::Descendants),
        _ => bail!("the cover must be children or descendants"),
    }
}

/// Enters the entry, and prints its index or the fault. Where memory is refused, the ledger must be as it
/// was and the entry have come back, which is then entered.
fn entered(rt: &HostRuntime, ledger: &mut Ledger, entry: Entry) -> Result<()> {
    let given = format!(in rt.alloc(); "{entry:?}")?;
    let list = list_of(rt.alloc(), ledger)?;
    match enter(ledger, entry)? {
        Err((back, LedgerFault::Memory)) => {
            if format!(in rt.alloc(); "{back:?}")? != given
                || list_of(rt.alloc(), ledger)? != list
            {
                bail!("the refused call changed the ledger or the entry");
            }
            tell_refused(rt)?;
            tell(rt, enter(ledger, back)?)
        }
        answer => tell(rt, answer),
    }
}

/// Enters the entry, whose path may be longer than a trace's.
pub fn enter(ledger: &mut Ledger, entry: Entry) -> Result<Result<u32, (Entry, LedgerFault)>> {
    if entry.path.as_slice().len() > 1_024 {
        bail!("the path has more than 1,024 numbers");
    }
    Ok(ledger.enter(entry))
}

/// Prints the index, or the fault.
pub fn tell(rt: &HostRuntime, answer: Result<u32, (Entry, LedgerFault)>) -> Result<()> {
    match answer {
        Ok(index) => println!(rt; "{index}")?,
        Err((_, fault)) => println!(rt; "{fault:?}")?,
    }
    Ok(())
}

/// Returns the entries of the ledger, as text.
fn list_of(alloc: Global, ledger: &Ledger) -> Result<String> {
    let mut list = String::new(alloc);
    for index in 0..ledger.len() {
        list.push_str(format!(in alloc; "{:?}\n", ledger.entry(index))?.as_str())?;
    }
    Ok(list)
}
