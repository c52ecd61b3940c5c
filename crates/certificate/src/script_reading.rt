//! The reader of script files.
ghost use Rattle.std.specs.Prelude.{◌≡◌, ◌≤◌, ◌+◌, ℕ, List, Option, Ok, true, IfErr, IfSome, if◌then◌else◌};
ghost use Rattle.std.specs.Result.{result_err, result_map_both};
ghost use Rattle.certificate.specs.Counts.{TakesTurns, breaks_told, cause_told};
ghost use Rattle.certificate.specs.Reading.{IsAnswerIn, IsBetween, IsAfter, Grows};
ghost use Rattle.lines.specs.RecordLines.{IsSaid};
ghost use Rattle.certificate.specs.ScriptFiles.{cause_of, is_within, script_adds, scripts, with_step};
ghost use Rattle.scripts.specs.Scripts.{empty_script, may_follow};

use crate::device::{MAX_TURNS, Source};
use crate::faults::ReadFault;
use crate::reading::{LAST_LINE, next_line};
use crate::window::Window;
use json::Scratch;
use lines::{Loose, ReadCause, SaidStep, header, step};
use scripts::{Script, ScriptFault};
use std::alloc::Global;

/// The format of script files.
const SCRIPTS: &str = "task-credit-script";
/// Their newest version: in the trace of its run parallel regions may lie inside others.
const NEWEST: u32 = 2;

/// Reads a script file of version 1 or 2 to its end. Fails at the first faulty line, if the source fails, or
/// out of memory; then it is not defined how far the source was read. Has a buffer of 131,074 bytes, two of
/// the longest lines with their line feeds.
pub fn read_script<S: Source>(alloc: Global, source: &mut S) -> Result<Script, ReadFault>
    // The script that the bytes stand for, their first fault, or a failure of the device or of memory.
    ensures file { IfSome (S.remaining source.old)
        (λ bytes. IsAnswerIn scripts result bytes (S.remaining source.new)) }

    // The call ends with the 10,001st answer `Again`.
    ensures turns { (turns : ℕ) × TakesTurns (cause_told result) 0 turns (S.agains source.old)
        (S.agains source.new) }

    // `Device` is reported if and only if the source has failed.
    ensures breaks { S.breaks source.new ≡ breaks_told (cause_told result) (S.breaks source.old) }
    ensures line { IfErr result (λ fault. (1 ≤ fault.line) × (fault.line ≤ LAST_LINE)) }
{
    let Ok(mut window) = Window::new(alloc) else {
        return Err(ReadFault {
            line: 1,
            cause: ReadCause::Memory,
        });
    };
    let mut script = Script::new(alloc);
    let mut scratch = Scratch::new(alloc);
    let mut turns = 0;
    'lines: for line in 1..=LAST_LINE {
        match read_line(
            alloc,
            line,
            &mut window,
            source,
            &mut turns,
            &mut script,
            &mut scratch,
        ) {
            Ok(true) => {}
            Ok(false) => return Ok(script),
            Err(cause) => return Err(ReadFault { line, cause }),
        }
    }
    unreachable!()
}

/// Reads the line with this number and adds its step. Returns whether there was one.
fn read_line<S: Source>(
    alloc: Global,
    line: u32,
    window: &mut Window,
    source: &mut S,
    turns: &mut u32,
    script: &mut Script,
    scratch: &mut Scratch,
) -> Result<bool, ReadCause>
    requires line { 1 ≤ line }
    requires turns { turns.old ≤ MAX_TURNS }
    requires first { line ≡ 1 → script.old ≡ empty_script }
    ensures after { (known : Option (List ℕ)) → IsBetween scripts known line script.old window.old
        (S.remaining source.old)
        → IsAfter scripts result known line script.new window.new (S.remaining source.new) }
    ensures grows { result ≡ Ok true → Grows line script.old.steps script.new.steps }
    ensures turns { TakesTurns (result_err result) turns.old turns.new (S.agains source.old)
        (S.agains source.new) }
    ensures breaks { S.breaks source.new ≡ breaks_told (result_err result) (S.breaks source.old) }
{
    match next_line(window, source, turns)? {
        Some(len) => {
            take_text(alloc, line, window.front(len), script, scratch)?;
            window.skip(len + 1);
            Ok(true)
        }
        None if line == 1 => Err(ReadCause::Header),
        None => Ok(false),
    }
}

/// Takes the text of the line with this number: the header, which gives the version, or a step.
fn take_text(
    alloc: Global,
    line: u32,
    text: &[u8],
    script: &mut Script,
    scratch: &mut Scratch,
) -> Result<(), ReadCause>
    requires line { 1 ≤ line }
    requires first { line ≡ 1 → script.old ≡ empty_script }
    ensures { IsSaid (result_map_both (λ _. script.new) (λ e. e) result)
        (script_adds line script.old text.now) }
{
    if line > 1 {
        return add(script, step(alloc, text, scratch)?);
    }
    let version = header(alloc, SCRIPTS, NEWEST, text, scratch)?;
    script.set_nests(version == NEWEST);
    Ok(())
}

/// Adds a step. A step that may not follow is reported before a limit.
fn add(script: &mut Script, said: SaidStep) -> Result<(), ReadCause>
    ensures { IsSaid (result_map_both (λ _. script.new) (λ e. e) result) (with_step script.old (Ok said)) }
{
    if is_within(&said) {
        add_within(script, said)
    } else {
        Err(past_limit(script, &said))
    }
}

/// Returns whether the numbers and lists of a line are within their limits.
fn is_within(said: &SaidStep) -> bool
    ensures { result ≡ is_within said.now }
{
    said.loose.fits && said.thread < 256
}

/// Adds a step of a line within its limits.
fn add_within(script: &mut Script, said: SaidStep) -> Result<(), ReadCause>
    requires { is_within said ≡ true }
    ensures { IsSaid (result_map_both (λ _. script.new) (λ e. e) result) (with_step script.old (Ok said)) }
{
    let SaidStep {
        thread,
        after,
        loose,
    } = said;
    let Loose { body, .. } = loose;
    match script.add(thread as u8, after, body) {
        Ok(()) => Ok(()),
        Err((_body, fault)) => Err(cause_of(fault)),
    }
}

/// Returns the cause of a line with a number or a list past its limit.
fn past_limit(script: &Script, said: &SaidStep) -> ReadCause
    ensures { result ≡ (if may_follow script.now.steps said.now.after said.now.loose.body
        then ReadCause.Limit
        else ReadCause.Field) }
{
    if script.may_follow(said.after, &said.loose.body) {
        ReadCause::Limit
    } else {
        ReadCause::Field
    }
}

/// Returns the cause of a line whose step is refused.
fn cause_of(fault: ScriptFault) -> ReadCause
    ensures { result ≡ cause_of fault }
{
    match fault {
        ScriptFault::Misplaced => ReadCause::Field,
        ScriptFault::Full => ReadCause::Limit,
        ScriptFault::Memory => ReadCause::Memory,
    }
}
