//! Judges recorded runs of OpenMP tasks: whether each wait ended, and each dependent task started, only when
//! it was allowed to. Read `audit` first (`auditing.rt`): its clause `reports` is the headline; then `record`
//! (`record.rt`), which writes a trace, `upgrade` (`upgrading.rt`), which writes one with turns, and
//! `order_records` (`ordering.rt`), which writes one with its records in another order, and `watch`
//! (`watching.rt`), which audits a file record by record. Then `run` (`program.rt`), from the words of the
//! command line to the exit status, `tell` (`telling.rt`) and the texts (`report.rt`, `finding_texts.rt` for all
//! findings, `order.rt` for an order, and `version.rt` for the version).
#![tactic(auto)]

mod auditing;
mod finding_texts;
mod looking;
mod opening;
mod order;
mod ordering;
mod program;
mod record;
mod report;
mod telling;
mod upgrading;
mod version;
mod watching;
mod words;
mod work;

use certificate::{FromRead, ToWrite};
use program::run;
use std::io::{ErrorKind, writer};
use std::process::ExitCode;
use std::rt::Env;
use std::{env, io};
use work::{AuditFault, Refusal};

fn main(rt: HostRuntime) -> ExitCode {
    let mut source = FromRead::new(rt.reader());
    let mut sink = ToWrite::new(writer(&rt));
    ExitCode::from(run(command_words(&rt), rt.alloc(), &rt, &mut source, &mut sink))
}

/// The words of the command line, the program's name first.
fn command_words<R: Env + AllocGlobal>(rt: &R) -> Result<Vec<String>, Refusal<'static>> {
    match read_words(rt) {
        Ok(words) => Ok(words),
        Err(error) if error.kind() == ErrorKind::OutOfMemory => Err(Refusal::Audit(
            AuditFault::Memory,
        )),
        Err(_) => Err(Refusal::NotText),
    }
}

/// The words of the command line as text.
fn read_words<R: Env + AllocGlobal>(rt: &R) -> io::Result<Vec<String>> {
    Ok(env::args(rt)?.collect(rt.alloc())?)
}
