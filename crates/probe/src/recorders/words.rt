//! What the words of commands stand for.
use anyhow::{Result, bail};
use bitflags::Flags;
use ompt_events::{CancelFlags, Dep, DepKind, Status, SyncKind, TaskFlags, ThreadKind};
use std::alloc::Global;

/// Returns the flags of a task, with `+` between their names; `-` is none, and a number stands for its bits.
/// Fails where a word is none of these.
pub fn task_flags(word: &str) -> Result<TaskFlags> {
    let mut flags = TaskFlags::empty();
    for name in word.split('+').filter(|name| *name != "-") {
        match TaskFlags::from_name(name) {
            Some(flag) => flags.insert(flag),
            None => flags.insert(TaskFlags(name.parse()?)),
        }
    }
    Ok(flags)
}

/// Returns the flags of a cancellation, in the same form.
pub fn cancel_flags(word: &str) -> Result<CancelFlags> {
    let mut flags = CancelFlags::empty();
    for name in word.split('+').filter(|name| *name != "-") {
        match CancelFlags::from_name(name) {
            Some(flag) => flags.insert(flag),
            None => flags.insert(CancelFlags(name.parse()?)),
        }
    }
    Ok(flags)
}

/// Returns the dependences, as `kind:location`, with commas between them; `-` is none. Fails where a word
/// has another form.
pub fn dependences(alloc: Global, word: &str) -> Result<Vec<Dep>> {
    let mut list = Vec::new(alloc);
    for item in word.split(',').filter(|item| *item != "-") {
        let Some((kind, var)) = item.split_once(':') else {
            bail!("a dependence is kind:location");
        };
        let Some(kind) = DepKind::from_name(kind) else {
            bail!("no such kind of dependence");
        };
        list.push(Dep {
            var: var.parse()?,
            kind,
        })?;
    }
    Ok(list)
}

/// Returns the kind of a thread. Fails where there is no such kind.
pub fn thread_kind(word: &str) -> Result<ThreadKind> {
    let Some(value) = ThreadKind::from_name(word) else {
        bail!("no such kind of thread");
    };
    Ok(value)
}

/// Returns the kind of a region. Fails where there is no such kind.
pub fn sync_kind(word: &str) -> Result<SyncKind> {
    let Some(value) = SyncKind::from_name(word) else {
        bail!("no such kind of region");
    };
    Ok(value)
}

/// Returns the status of a schedule. Fails where there is no such status.
pub fn status(word: &str) -> Result<Status> {
    let Some(value) = Status::from_name(word) else {
        bail!("no such status");
    };
    Ok(value)
}
