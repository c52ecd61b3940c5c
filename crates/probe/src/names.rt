//! Which values have a name.
use crate::standard_input::text_of_input;
use anyhow::Result;
use bitflags::Flags;
use certificate::{ReadCause, WriteFault};
use ompt_events::{CancelFlags, Cause, DepKind, Endpoint, Status, SyncKind, TaskFlags, ThreadKind};

/// Prints for each line of standard input, a name, the values that have it, each with its own name, and what
/// it says by itself.
pub fn each(rt: &HostRuntime) -> Result<()> {
    let text = text_of_input(rt)?;
    for name in text.lines() {
        print!(rt; "{name}:")?;
        values_named(rt, name)?;
        flags_named(rt, name)?;
        faults_named(rt, name)?;
        println!(rt)?;
    }
    Ok(())
}

// Prints the value of each type that has the name, with its own name.
macro_rules! print_named {
    ($rt:ident, $name:ident, $($type:ident),*) => {
        $(if let Some(value) = $type::from_name($name) {
            print!($rt; " {value:?} {}", value.name())?;
        })*
    };
}

// Prints the cause or fault that has the name, with its number and its own name.
macro_rules! print_numbered {
    ($rt:ident, $name:ident, $($what:literal $type:ident),*) => {
        $(if let Some(value) = $type::from_name($name) {
            print!($rt; " {} {} {}", $what, value.number(), value.name())?;
        })*
    };
}

/// Prints the values of a record that have the name.
fn values_named(rt: &HostRuntime, name: &str) -> Result<()> {
    print_named!(rt, name, Status, Endpoint, SyncKind, DepKind, ThreadKind);
    if let Some(status) = Status::from_name(name) {
        print!(rt; " next {} part {:?}", status.demands_next(), status.part())?;
    }
    Ok(())
}

/// Prints the flags that have the name.
fn flags_named(rt: &HostRuntime, name: &str) -> Result<()> {
    if let Some(flags) = TaskFlags::from_name(name) {
        print!(rt; " task flag {:#x}", flags.bits())?;
    }
    if let Some(flags) = CancelFlags::from_name(name) {
        print!(rt; " cancel flag {:#x}", flags.bits())?;
    }
    Ok(())
}

/// Prints the causes and faults that have the name.
fn faults_named(rt: &HostRuntime, name: &str) -> Result<()> {
    print_numbered!(rt, name, "cause" Cause, "read" ReadCause, "write" WriteFault);
    Ok(())
}
