//! The program from the words of its command line to its exit status.
ghost use Rattle.std.specs.Prelude.{◌≡◌, ◌≤◌, ℕ, List, Option, map, IfOk, IfErr};
ghost use Rattle.std.specs.Result.{result_map_both};
ghost use Rattle.clap.specs.Words.{Text};
ghost use Rattle.taskaudit.specs.Audits.{Prints, Reports, Leaves, shown_of};
ghost use Rattle.taskaudit.specs.Commands.{AsksOf, AsksVersion, HasItsNumber, by_name};
ghost use Rattle.taskaudit.specs.Programs.{Does, DoesAsked, IsFileRefused, IsOpened, IsRefused, LeavesOfJob, Ends, Runs, ShowsVersion, ending_of, world_of};
ghost use Rattle.taskaudit.specs.Statuses.{exit_status_of};

use crate::auditing::{Crew, audit, audit_on};
use crate::looking::look;
use crate::opening::Inputs;
use crate::ordering::order_records;
use crate::record::record;
use crate::report::{NOT_REPORTED, WRONG_WORDS, fault_status, usage_status};
use crate::telling::{Console, tell, tell_reading};
use crate::upgrading::{upgrade, version_to};
use crate::watching::watch;
use crate::words::asked;
use crate::work::{Asked, AuditFault, Done, FileFault, Input, Job, Outcome, Printed, Refusal};
use certificate::{ReadFault, Sink, Source};
use checker::OpenGate;
use std::alloc::Global;
use std::convert::AsStr;
use std::sync::Wait;
use std::thread::Threads;

/// Runs the program on the words of its command line, or why there are none, on standard input, or the file
/// that they name, and this output. Tells on the console why there is no verdict or no trace, and returns the
/// exit status. The console is also what opens files and starts threads.
pub fn run<S: AsStr + Drop, C: Console + Inputs + Threads + Wait + Sync, I: Source, O: Sink>(
    words: Result<Vec<S>, Refusal<'_>>,
    alloc: Global,
    console: &C,
    source: &mut I,
    sink: &mut O,
) -> u8
    ensures runs { Runs (world_of (C.made console.now) (C.opens console.now) (C.sits console.now)
        C.File.remaining)
        (result_map_both (λ list. map S.text list.items) (λ refusal. refusal) words.entry)
        (I.remaining source.old) (O.contents sink.old) (O.contents sink.new) result }

    // `--version` or `-V` alone writes the text of the version, with status 0.
    ensures version { IfOk words.entry (λ list. AsksVersion (map S.text list.items)
        → ShowsVersion (C.made console.now) result) }

    // Where the words name a file, standard input is left as it is.
    ensures untouched { IfOk words.entry (λ list. (name : Text) → AsksOf (map S.text list.items) (by_name name)
        → source.new ≡ source.old) }
{
    match words {
        Ok(words) => end(
            console,
            serve(alloc, console, words.as_slice(), source, sink),
        ),
        Err(refusal) => end(console, Err(refusal)),
    }
}

/// Tells why there is no verdict or no trace, and returns the exit status.
fn end<C: Console>(console: &C, ending: Result<Done, Refusal>) -> u8
    ensures { Ends (C.made console.now) ending.entry result }
{
    exit_status(&tell(console, ending))
}

/// Does what the words of the command line ask for (the first of them is the program's name), on standard
/// input, or the file that they name, and this output.
pub fn serve<'a, S: AsStr, C: Console + Inputs + Threads + Wait + Sync, I: Source, O: Sink>(
    alloc: Global,
    console: &C,
    words: &'a [S],
    source: &mut I,
    sink: &mut O,
) -> Result<Done, Refusal<'a>>
    ensures does { IfOk result (DoesAsked (world_of (C.made console.now) (C.opens console.now)
        (C.sits console.now) C.File.remaining)
        (map S.text words.entry.now) (I.remaining source.old) (O.contents sink.old) (O.contents sink.new)) }
    ensures refused { IfErr result (IsRefused (world_of (C.made console.now) (C.opens console.now)
        (C.sits console.now) C.File.remaining)
        (map S.text words.entry.now) (I.remaining source.old) (O.contents sink.old) (O.contents sink.new)) }
    ensures untouched { (name : Text) → AsksOf (map S.text words.entry.now) (by_name name)
        → source.new ≡ source.old }
{
    match asked(alloc, words) {
        Ok(
            Asked {
                job,
                input: Input::Unnamed,
            },
        ) => {
            tell_reading(console, job);
            ending_of(do_job(alloc, console, job, source, sink))
        }
        Ok(
            Asked {
                job,
                input: Input::Standard,
            },
        ) => ending_of(do_job(alloc, console, job, source, sink)),
        Ok(
            Asked {
                job,
                input: Input::Named(name),
            },
        ) => do_named(alloc, console, job, name, sink),
        Err(error) => Err(Refusal::Words(error)),
    }
}

/// Opens the file, and does the job on it, unless it is compressed.
fn do_named<'a, C: Inputs + Threads + Wait + Sync, O: Sink>(
    alloc: Global,
    console: &C,
    job: Job,
    name: &'a str,
    sink: &mut O,
) -> Result<Done, Refusal<'a>>
    requires { HasItsNumber job }
    ensures does { IfOk result (λ done. (bytes : Option (List ℕ))
        × IsOpened (C.opens console.now) C.File.remaining name.entry.now bytes
        × Does job bytes (O.contents sink.old) (O.contents sink.new) done) }
    ensures refused { IfErr result (IsFileRefused (C.opens console.now) C.File.remaining job name.entry.now
        (O.contents sink.old) (O.contents sink.new)) }
{
    let file = match console.open(name) {
        Ok(file) => file,
        Err(why) => return Err(Refusal::File(FileFault::Unopened { name, why })),
    };
    let mut looked = match look(file) {
        Ok(looked) => looked,
        Err(cause) => return Err(Refusal::Audit(AuditFault::Read(ReadFault { line: 1, cause }))),
    };
    match looked.packing() {
        Some(packing) => Err(Refusal::File(FileFault::Compressed { name, packing, job })),
        None => ending_of(do_job(alloc, console, job, &mut looked, sink)),
    }
}

/// Returns how the run ends, by how its job does.
fn ending_of<'a>(ending: Result<Done, AuditFault>) -> Result<Done, Refusal<'a>>
    ensures { result ≡ ending_of ending }
{
    match ending {
        Ok(done) => Ok(done),
        Err(fault) => Err(Refusal::Audit(fault)),
    }
}

/// Does the job on this input and output.
fn do_job<R: Threads + Wait + Sync, I: Source, O: Sink>(
    alloc: Global,
    rt: &R,
    job: Job,
    source: &mut I,
    sink: &mut O,
) -> Result<Done, AuditFault>
    requires { HasItsNumber job }
    ensures does { IfOk result
        (Does job (I.remaining source.old) (O.contents sink.old) (O.contents sink.new)) }
    ensures leaves { IfErr result
        (LeavesOfJob job (I.remaining source.old) (O.contents sink.old) (O.contents sink.new)) }
{
    match job {
        Job::Check {
            workers: None,
            most,
        } => audit(alloc, Printed::of_check(most), source, sink).map(Done::Judged),
        Job::Check {
            workers: Some(workers),
            most,
        } => audit_by(alloc, rt, workers, most, source, sink).map(Done::Judged),
        Job::Order { records: false } => {
            audit(alloc, Printed::Order, source, sink).map(Done::Judged)
        }
        Job::Order { records: true } => order_records(alloc, source, sink).map(Done::Judged),
        Job::Record => record(rt, alloc, source, sink).map(|()| Done::Written),
        Job::Upgrade(to) => { upgrade(alloc, version_to(to), source, sink).map(|()| Done::Written) }
        Job::Watch => watch(alloc, source, sink).map(Done::Judged),
    }
}

/// Audits by so many workers, at a gate that lets each of them pass: so the check has no other fault than lack
/// of memory.
fn audit_by<R: Threads + Sync, I: Source, O: Sink>(
    alloc: Global,
    rt: &R,
    workers: u32,
    most: Option<u32>,
    source: &mut I,
    sink: &mut O,
) -> Result<Outcome, AuditFault>
    requires { (1 ≤ workers) × (workers ≤ 256) }
    ensures reports { IfOk result
        (Reports (Prints (shown_of most)) (I.remaining source.old) (O.contents sink.old) (O.contents sink.new)) }
    ensures leaves { IfErr result
        (Leaves (Prints (shown_of most)) (I.remaining source.old) (O.contents sink.old) (O.contents sink.new)) }
{
    let crew = Crew {
        threads: rt,
        workers,
        gate: &OpenGate,
    };
    audit_on(alloc, crew, most, source, sink)
}

/// The exit status of a run of the program that ended so.
pub fn exit_status(ending: &Result<Done, Refusal>) -> u8
    ensures { result ≡ exit_status_of ending.now }
{
    match ending {
        Ok(done) => done.status(),
        Err(Refusal::NotText) => WRONG_WORDS,
        Err(Refusal::Words(error)) => usage_status(error),
        Err(Refusal::File(_)) => NOT_REPORTED,
        Err(Refusal::Audit(fault)) => fault_status(fault),
    }
}
