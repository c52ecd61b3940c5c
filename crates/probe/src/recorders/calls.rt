//! The calls of one recorder.
ghost use Rattle.std.specs.Prelude.{◌≡◌};
ghost use Rattle.credit_ledger.specs.Places.{ledger_id};

use crate::recorders::tasks::Tasks;
use crate::recorders::words::{
    cancel_flags, dependences, status, sync_kind, task_flags, thread_kind,
};
use anyhow::{Result, bail};
use callbacks::{CallFault, Recorder, TaskData};
use credit_ledger::SharedLedger;
use ompt_events::Dep;
use std::alloc::Global;
use std::sync::Wait;

/// What came of a call.
#[derive(Clone, Copy, PartialEq, Eq)]
pub enum Outcome {
    /// Its answer is printed.
    Answered,
    /// It was refused for memory, and nothing is printed.
    Memory,
}

/// A command for a recorder.
#[derive(Drop)]
pub struct Command<'a> {
    words: [&'a str; 8],
    /// The dependences that came back from a call that was refused for memory.
    list: Option<Vec<Dep>>,
}

impl<'a> Command<'a> {
    /// Returns the command of these words.
    pub fn new(words: [&'a str; 8]) -> Command<'a> {
        Command { words, list: None }
    }
}

/// Prints what a call answers that gives nothing.
fn tell<P: Print + AllocGlobal>(rt: &P, answer: Result<(), CallFault>) -> Result<Outcome> {
    match answer {
        Ok(()) => tell_ok(rt),
        Err(fault) => refused(rt, fault),
    }
}

/// Prints that a call was accepted.
fn tell_ok<P: Print + AllocGlobal>(rt: &P) -> Result<Outcome> {
    println!(rt; "ok")?;
    Ok(Outcome::Answered)
}

/// Prints what a call answers that gives a length or an index.
fn tell_number<P: Print + AllocGlobal>(rt: &P, answer: Result<u32, CallFault>) -> Result<Outcome> {
    match answer {
        Ok(number) => {
            println!(rt; "ok {number}")?;
            Ok(Outcome::Answered)
        }
        Err(fault) => refused(rt, fault),
    }
}

/// Prints a refusal for another reason than memory.
fn refused<P: Print + AllocGlobal>(rt: &P, fault: CallFault) -> Result<Outcome> {
    if fault == CallFault::Memory {
        return Ok(Outcome::Memory);
    }
    tell_fault(rt, fault)?;
    Ok(Outcome::Answered)
}

/// Prints a refusal with its number and its name.
pub fn tell_fault<P: Print + AllocGlobal>(rt: &P, fault: CallFault) -> Result<()> {
    println!(rt; "refused: {} {fault:?}", fault as u8)?;
    Ok(())
}

/// Makes the call that the command says, and prints its answer, unless it was refused for memory.
pub fn perform<R: Wait + Print + AllocGlobal>(
    rt: &R,
    ledger: &SharedLedger,
    recorder: &mut Recorder,
    tasks: &mut Tasks,
    command: &mut Command,
) -> Result<Outcome>
    requires { recorder.old.ledger ≡ ledger_id ledger.now }
    ensures { recorder.new.ledger ≡ recorder.old.ledger }
{
    let words = command.words;
    match words[1] {
        "thread_begin" => {
            let kind = thread_kind(words[2])?;
            tell(rt, recorder.ompt_callback_thread_begin(kind))
        }
        "thread_end" => tell(rt, recorder.ompt_callback_thread_end()),
        "parallel_begin" | "parallel_end" => parallel(rt, recorder, tasks, words),
        "implicit_begin" => implicit_begin(rt, recorder, tasks, words),
        "implicit_end" => implicit_end(rt, recorder, tasks, words),
        "create" => create(rt, recorder, tasks, words),
        "dependences" => list(rt, recorder, tasks, command),
        "schedule" => schedule(rt, ledger, recorder, tasks, words),
        "switch_to" => switch(rt, ledger, recorder, tasks, words),
        "begin" | "end" | "both" => region(rt, ledger, recorder, tasks, words),
        "cancel" => cancel(rt, recorder, tasks, words),
        "discard" => discard(rt, ledger, recorder, tasks, words),
        "stands" => stands(rt, recorder),
        _ => bail!("no such call"),
    }
}

/// Prints where the recorder stands: its current task, its innermost root, the task whose dependences it
/// awaits, and the length that it knew last.
fn stands<P: Print + AllocGlobal>(rt: &P, recorder: &Recorder) -> Result<Outcome> {
    println!(rt;
        "{:?} {:?} {:?} {}",
        recorder.current(),
        recorder.innermost_root(),
        recorder.awaits(),
        recorder.known()
    )?;
    Ok(Outcome::Answered)
}

/// `T parallel_begin VALUE REGION REQUESTED` and `T parallel_end VALUE REGION`.
fn parallel<P: Print + AllocGlobal>(
    rt: &P,
    recorder: &mut Recorder,
    tasks: &mut Tasks,
    words: [&str; 8],
) -> Result<Outcome>
    ensures { recorder.new.ledger ≡ recorder.old.ledger }
{
    let task = tasks.take(words[2])?;
    let region = words[3].parse()?;
    let answer = if words[1] == "parallel_begin" {
        let requested = words[4].parse()?;
        recorder.ompt_callback_parallel_begin(&task, region, requested)
    } else {
        recorder.ompt_callback_parallel_end(&task, region)
    };
    tasks.put(words[2], task)?;
    tell(rt, answer)
}

/// `T implicit_begin VALUE ID REGION ACTUAL INDEX FLAGS`.
fn implicit_begin<P: Print + AllocGlobal>(
    rt: &P,
    recorder: &mut Recorder,
    tasks: &mut Tasks,
    words: [&str; 8],
) -> Result<Outcome>
    ensures { recorder.new.ledger ≡ recorder.old.ledger }
{
    let [_, _, name, id, region, actual, index, flags] = words;
    let flags = task_flags(flags)?;
    let begun = recorder.ompt_callback_implicit_task_begin(
        region.parse()?,
        id.parse()?,
        actual.parse()?,
        index.parse()?,
        flags,
    );
    keep(rt, tasks, name, begun)
}

/// Keeps a task that was made, or prints why it wasn't.
fn keep<P: Print + AllocGlobal>(
    rt: &P,
    tasks: &mut Tasks,
    name: &str,
    made: Result<TaskData, CallFault>,
) -> Result<Outcome> {
    match made {
        Ok(task) => {
            tasks.put(name, task)?;
            tell_ok(rt)
        }
        Err(fault) => refused(rt, fault),
    }
}

/// `T implicit_end VALUE REGION`.
fn implicit_end<P: Print + AllocGlobal>(
    rt: &P,
    recorder: &mut Recorder,
    tasks: &mut Tasks,
    words: [&str; 8],
) -> Result<Outcome>
    ensures { recorder.new.ledger ≡ recorder.old.ledger }
{
    let task = tasks.take(words[2])?;
    let region = words[3].parse()?;
    match recorder.ompt_callback_implicit_task_end(task, region) {
        Ok(()) => tell_ok(rt),
        Err((task, fault)) => {
            tasks.put(words[2], task)?;
            refused(rt, fault)
        }
    }
}

/// `T create VALUE CHILD ID FLAGS [deps]`.
fn create<P: Print + AllocGlobal>(
    rt: &P,
    recorder: &mut Recorder,
    tasks: &mut Tasks,
    words: [&str; 8],
) -> Result<Outcome>
    ensures { recorder.new.ledger ≡ recorder.old.ledger }
{
    let [_, _, name, child, id, flags, deps, _] = words;
    let flags = task_flags(flags)?;
    let mut task = tasks.take(name)?;
    let made = recorder.ompt_callback_task_create(&mut task, id.parse()?, flags, deps == "deps");
    tasks.put(name, task)?;
    keep(rt, tasks, child, made)
}

/// `T dependences VALUE KIND:LOCATION,..`.
fn list<P: Print + AllocGlobal>(
    rt: &P,
    recorder: &mut Recorder,
    tasks: &mut Tasks,
    command: &mut Command,
) -> Result<Outcome>
    ensures { recorder.new.ledger ≡ recorder.old.ledger }
{
    let words = command.words;
    let items = match command.list.take() {
        Some(items) => items,
        None => dependences(rt.alloc(), words[3])?,
    };
    let task = tasks.take(words[2])?;
    let answer = recorder.ompt_callback_dependences(&task, items);
    tasks.put(words[2], task)?;
    match answer {
        Ok(()) => tell_ok(rt),
        Err((items, CallFault::Memory)) => {
            test_list(rt.alloc(), items.as_slice(), words[3])?;
            command.list = Some(items);
            Ok(Outcome::Memory)
        }
        Err((items, fault)) => {
            println!(rt;
                "refused: {} {fault:?}, {} items back",
                fault as u8,
                items.len()
            )?;
            Ok(Outcome::Answered)
        }
    }
}

/// Tests that the dependences that came back are those of the word.
fn test_list(alloc: Global, items: &[Dep], word: &str) -> Result<()> {
    if items != dependences(alloc, word)?.as_slice() {
        bail!("changed: the dependences that came back");
    }
    Ok(())
}

/// `T schedule VALUE STATUS NEXT`; `-` is no next task.
fn schedule<R: Wait + Print + AllocGlobal>(
    rt: &R,
    ledger: &SharedLedger,
    recorder: &mut Recorder,
    tasks: &mut Tasks,
    words: [&str; 8],
) -> Result<Outcome>
    requires { recorder.old.ledger ≡ ledger_id ledger.now }
    ensures { recorder.new.ledger ≡ recorder.old.ledger }
{
    let [_, _, name, told, next, ..] = words;
    let told = status(told)?;
    let prior = tasks.take(name)?;
    let answer = if next == "-" {
        recorder.ompt_callback_task_schedule(ledger, rt, prior, told, None)
    } else {
        let mut task = tasks.take(next)?;
        let answer = recorder.ompt_callback_task_schedule(ledger, rt, prior, told, Some(&mut task));
        tasks.put(next, task)?;
        answer
    };
    match answer {
        Ok(Some(prior)) => {
            println!(rt; "ok, {:?}", prior.state())?;
            tasks.put(name, prior)?;
            Ok(Outcome::Answered)
        }
        Ok(None) => tell_ok(rt),
        Err((prior, fault)) => {
            tasks.put(name, prior)?;
            refused(rt, fault)
        }
    }
}

/// `T switch_to VALUE STATUS NEXT`.
fn switch<R: Wait + Print + AllocGlobal>(
    rt: &R,
    ledger: &SharedLedger,
    recorder: &mut Recorder,
    tasks: &mut Tasks,
    words: [&str; 8],
) -> Result<Outcome>
    requires { recorder.old.ledger ≡ ledger_id ledger.now }
    ensures { recorder.new.ledger ≡ recorder.old.ledger }
{
    let told = status(words[3])?;
    let mut prior = tasks.take(words[2])?;
    let mut next = tasks.take(words[4])?;
    let answer = recorder.switch_to(ledger, rt, &mut prior, &mut next, told);
    tasks.put(words[2], prior)?;
    tasks.put(words[4], next)?;
    tell(rt, answer)
}

/// `T begin VALUE KIND`, `T end VALUE KIND` and `T both VALUE KIND`.
fn region<R: Wait + Print + AllocGlobal>(
    rt: &R,
    ledger: &SharedLedger,
    recorder: &mut Recorder,
    tasks: &mut Tasks,
    words: [&str; 8],
) -> Result<Outcome>
    requires { recorder.old.ledger ≡ ledger_id ledger.now }
    ensures { recorder.new.ledger ≡ recorder.old.ledger }
{
    let kind = sync_kind(words[3])?;
    let mut task = tasks.take(words[2])?;
    let outcome = match words[1] {
        "begin" => tell(
            rt,
            recorder.ompt_callback_sync_region_begin(&mut task, kind, None),
        )?,
        "end" => tell_number(
            rt,
            recorder.ompt_callback_sync_region_end(ledger, rt, &mut task, kind, None),
        )?,
        _ => tell_number(
            rt,
            recorder.ompt_callback_sync_region_both(ledger, rt, &mut task, kind, None),
        )?,
    };
    tasks.put(words[2], task)?;
    Ok(outcome)
}

/// `T cancel VALUE FLAGS`.
fn cancel<P: Print + AllocGlobal>(
    rt: &P,
    recorder: &mut Recorder,
    tasks: &mut Tasks,
    words: [&str; 8],
) -> Result<Outcome>
    ensures { recorder.new.ledger ≡ recorder.old.ledger }
{
    let flags = cancel_flags(words[3])?;
    let task = tasks.take(words[2])?;
    let answer = recorder.ompt_callback_cancel(&task, flags);
    tasks.put(words[2], task)?;
    tell(rt, answer)
}

/// `T discard VALUE FLAGS`.
fn discard<R: Wait + Print + AllocGlobal>(
    rt: &R,
    ledger: &SharedLedger,
    recorder: &mut Recorder,
    tasks: &mut Tasks,
    words: [&str; 8],
) -> Result<Outcome>
    requires { recorder.old.ledger ≡ ledger_id ledger.now }
    ensures { recorder.new.ledger ≡ recorder.old.ledger }
{
    let flags = cancel_flags(words[3])?;
    let task = tasks.take(words[2])?;
    match recorder.ompt_callback_cancel_discarded(ledger, rt, task, flags) {
        Ok(index) => tell_number(rt, Ok(index)),
        Err((task, fault)) => {
            tasks.put(words[2], task)?;
            refused(rt, fault)
        }
    }
}
