//! Shares and a purse, by commands.
use crate::standard_input::text_of_input;
use anyhow::{Result, bail};
use credit::{Purse, Share};
use std::alloc::Global;

/// Does what each line of standard input says to one purse, and prints the answer. A share is written by
/// its halves, K for one that is kept and G for one that is given away; `whole` is the share without
/// halves.
pub fn each(rt: &HostRuntime) -> Result<()> {
    let text = text_of_input(rt)?;
    let mut purse = Purse::new(rt.alloc());
    for line in text.lines() {
        print!(rt; "{line}: ")?;
        answer(rt, &mut purse, line)?;
    }
    Ok(())
}

/// Prints what a command answers.
fn answer(rt: &HostRuntime, purse: &mut Purse, command: &str) -> Result<()> {
    let mut words = command.split(' ');
    let verb = words.next().unwrap_or("");
    let first = words.next().unwrap_or("");
    let second = words.next().unwrap_or("");
    match verb {
        "new" => renewed(rt, purse),
        "enter" => entered(rt, purse, share(rt.alloc(), first)?),
        "holds" => Ok(println!(rt; "{}", purse.holds(&share(rt.alloc(), first)?)?)?),
        "begins" => begins(rt, first, second),
        "of" => of_path(rt, first, second, words.next().unwrap_or("")),
        "give" => given(rt, first.parse()?),
        _ => bail!("the command must be new, enter, holds, begins, of or give"),
    }
}

/// Begins again with an empty purse.
fn renewed(rt: &HostRuntime, purse: &mut Purse) -> Result<()> {
    *purse = Purse::new(rt.alloc());
    println!(rt; "ok")?;
    Ok(())
}

/// Prints whether the one share begins with the other.
fn begins(rt: &HostRuntime, one: &str, other: &str) -> Result<()> {
    let begins = share(rt.alloc(), one)?.starts_with(&share(rt.alloc(), other)?);
    println!(rt; "{begins}")?;
    Ok(())
}

/// Returns the share of these halves, by halving the whole.
fn share(alloc: Global, halves: &str) -> Result<Share> {
    let mut share = Share::whole(alloc);
    if halves == "whole" {
        return Ok(share);
    }
    for half in halves.bytes() {
        let (kept, given) = share.halve().map_err(|refusal| refusal.1)?;
        share = if half == b'K' { kept } else { given };
    }
    Ok(share)
}

/// Enters the share; where it is refused it must come back unchanged.
fn entered(rt: &HostRuntime, purse: &mut Purse, share: Share) -> Result<()> {
    match purse.enter(share) {
        Ok(()) => println!(rt; "ok")?,
        Err((_, fault)) => println!(rt; "{fault:?}")?,
    }
    Ok(())
}

/// Returns the numbers between commas.
pub fn path_of(alloc: Global, path: &str) -> Result<Vec<u32>> {
    let mut numbers = Vec::new(alloc);
    for number in path.split(',').filter(|number| !number.is_empty()) {
        numbers.push(number.parse::<u32>()?)?;
    }
    Ok(numbers)
}

/// Prints whether the share of a whole finish at this path, with so many children, is the one of these
/// halves.
fn of_path(rt: &HostRuntime, path: &str, kept: &str, halves: &str) -> Result<()> {
    let numbers = path_of(rt.alloc(), path)?;
    if numbers.len() > 1_024 {
        bail!("the path has more than 1,024 numbers");
    }
    let one = Share::of(rt.alloc(), numbers.as_slice(), kept.parse()?)?;
    let other = share(rt.alloc(), halves)?;
    let same = one.starts_with(&other) && other.starts_with(&one);
    println!(rt; "{same}")?;
    Ok(())
}

/// Prints what comes of giving away half of the share again and again.
fn given(rt: &HostRuntime, times: u32) -> Result<()> {
    let mut share = Share::whole(rt.alloc());
    for time in 0..times {
        match share.halve() {
            Ok((_, given)) => share = given,
            Err((_, fault)) => {
                println!(rt; "{fault:?} after {time}")?;
                return Ok(());
            }
        }
    }
    println!(rt; "ok")?;
    Ok(())
}
