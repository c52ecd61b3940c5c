//! The command line.
ghost use Rattle.std.specs.Prelude.{◌≡◌, true, false, codes, map, IfOk, IfErr, Some, is_some, option_and_then};
ghost use Rattle.clap.specs.Words.{app_of, rule_of, rows_of, found_of, first_of, one_of, shape_of, new_app, fault_of, kind_of, takes, subcommand_rows_of, FailsBy};
ghost use Rattle.clap.specs.declared.builder.command.Command.TheViews.{out-Command};
ghost use Rattle.taskaudit.specs.Commands.{command_line, check_app, order_app, upgrade_app, file_app, file_rule, flag_rule, workers_rule, all_rule, most_rule, records_rule, version_rule, number_in, is_given, most_asked, check_in, order_in, job_named, file_word, place_named, place_of, AsksFor, AsksOf, HasItsNumber};

use crate::version::VERSION_TEXT;
use crate::work::{Asked, Input, Job};
use checker::MAX_WORKERS;
use clap::error::ErrorKind;
use clap::{Arg, ArgAction, ArgMatches, Command, Error, value_parser};
use std::alloc::{AllocError, Global};
use std::convert::AsStr;

/// What the program is for.
const ABOUT: &str =
    "Checks recorded OpenMP tasks: did each wait end, and each dependent task start, only when \
                     it was allowed to?";

/// What `check` is for.
const CHECK_ABOUT: &str = "Checks a trace file";

/// What `order` is for.
const ORDER_ABOUT: &str =
    "Checks a trace file, and prints an order of its events that shows the answer";

/// What `record` is for.
const RECORD_ABOUT: &str = "Runs a script with recorders, and writes the trace that they record";

/// What `upgrade` is for.
const UPGRADE_ABOUT: &str = "Writes a trace file in a newer version of its format";

/// What `watch` is for.
const WATCH_ABOUT: &str = "Checks a trace file record by record, in the memory of its live tasks";

/// What the word for the file is for.
const TRACE_HELP: &str = "The trace file, or - for standard input; without it standard input";

/// What the word for the file of `record` is for.
const SCRIPT_HELP: &str = "The script, or - for standard input; without it standard input";

/// What the option `--workers` of `check` is for.
const WORKERS_HELP: &str = "Reads and checks on N threads (1 to 256); without it, on one";

/// What the option `--all` of `check` is for.
const ALL_HELP: &str = "Prints below the answer each event at which it shows (20 at most)";

/// What the option `--most` of `check` is for.
const MOST_HELP: &str = "The same, but N at most (1 to 1000)";

/// How many findings are printed at most where no number is given.
const USUAL_MOST: u32 = 20;

/// What the option `--records` of `order` is for.
const RECORDS_HELP: &str = "For a yes, writes the trace file with its events in that order";

/// What the option `--to` of `upgrade` is for.
const VERSION_HELP: &str = "The version to write, 2 or 3; without it 2";

/// What stands below the options in the help, and in that of `check`.
const EXPLANATION: &str = r#"Answers of check, one line on standard output:
  yes: 6 records, 1 entries, 1 tasks, 1 waits
      in every order of the events that the file allows, each task that a
      taskwait, taskgroup or barrier waits for is complete when the wait
      ends, and each dependent task starts after all its predecessors
  no: line 5, thread 0, seq 3: task 2 unfinished
      the first event in the file at which some order of the events, allowed
      by the file, leaves a task incomplete that must be complete: here a
      wait that ended before its task 2; taskaudit order prints such an order
  no: line 7, thread 0, seq 5: task 2 must precede task 3
      here task 3 starts before its predecessor 2 is finished
  malformed: line 4, thread 0, seq 2: cause 2 CreatedTwice
      no run within the model gives these events: the cause, and the first
      event that shows it; docs/CAUSES.md says what to fix

Exit status: 0 yes, 1 no, 2 malformed, 3 input not read or answer not written,
  4 wrong arguments, 5 out of memory. Errors go to standard error.
  Those of record, upgrade and watch: in the help of each.

Input: one JSON object a line, in UTF-8. The first line is
  {"format":"task-credit-audit","version":2}
(or 1: no turns; or 3: parallel regions may be inside others), and each other one
an event of OpenMP's tool interface (OMPT), with the members
  cb, thread, seq (0, 1, .. in each thread), seen, and with cb
  parallel_begin task, parallel, requested
  parallel_end   task, parallel
  implicit_task  endpoint, parallel, task, actual, index, flags
  task_create    task, child, flags, deps
  dependences    task, list
  task_schedule  prior, status, next; where it finishes a task also root, path, kept;
                 in versions 2 and 3 with a next task also prior_turn, next_turn
  sync_region    kind, endpoint, parallel, task
  cancel         task, flags; with discarded_task also root, path, kept
  thread_begin   kind
  thread_end     no others
seen is about one ledger of finished tasks, which all threads share. An event
that finishes a task appends an entry: its seen is the entry's index, and the
thread then knows index + 1. A task_schedule that does not finish a task, and an
end or beginend of a sync_region, reads the ledger's length there and then. Any
other event repeats what its thread last knew, 0 at first.
The turn of a task is 0 at its start, and one more each time that it resumes.
docs/RECORDING.md says how to record, docs/FORMAT.md has the whole format."#;

/// What stands below the options in the help of `order`.
const ORDER_EXPLANATION: &str = r#"Answers, on standard output; the first line is that of check:
  yes: 6 records, 1 entries, 1 tasks, 1 waits
      below it all events in an order that the file allows, one line an event:
      its thread, a space and its seq
  no: line 7, thread 0, seq 5: task 2 unfinished
      below it all events in an order that the file allows, in which the named
      task is not complete at the named event: here task 2 at the line 0 5
  malformed: line 4, thread 0, seq 2: cause 2 CreatedTwice
      nothing below it

With --records, for a yes in place of these lines: the trace file in the same version,
with its events in that order. Lines are written as by upgrade, without members that
the format does not know. For a no and a malformed file: as above.

Exit status: 0 yes, 1 no, 2 malformed, 3 input not read or answer not written,
  4 wrong arguments, 5 out of memory. Errors go to standard error.

taskaudit check --help says what the answers mean and what the input is."#;

/// What stands below the options in the help of `record`.
const RECORD_EXPLANATION: &str =
    r#"A script is a list of calls of OpenMP's tool interface (OMPT). Each thread of the
script runs on a thread of its own, with a recorder, and makes its calls in their
order. What the recorders gather is written as a trace file of version 2, the input
of taskaudit check. Where a call is refused nothing is written.

Input: one JSON object a line, in UTF-8. The first line is
  {"format":"task-credit-script","version":1}
(or 2: parallel regions may be inside others, and the trace is of version 3), and
each other one a call: an event as in the input of check, but without seq, seen,
root, path, kept, prior_turn and next_turn, which the recorders find. It may have the
member
  after          [thread, step]: a step on an earlier line, by its thread and its
                 number among the steps of that thread, from 0
A step is taken when the step named by its after is done, and all steps on earlier
lines that name one of its tasks. A task is named by no line before the one that
makes it, and by none after the one that ends it.

Errors, one line on standard error:
  refused: line 4: 3 WrongState
      the recorder refused the call on this line, the first such in the script:
      2 Full, a limit of the file format; 3 WrongState, it does not fit the state of
      the thread or of a task; 4 TooDeep, a task too deep below its root; 5 Overlap,
      two tasks with one place in the tree. What the recorders together cannot
      gather is refused at the last line.
  unreadable: line 3: 6 Field
      the first faulty line, and why it is none of a script

Exit status: 0 written, 2 a call refused, 3 input not read or trace not written,
  4 wrong arguments, 5 out of memory or no thread could be started.

taskaudit check --help says what the members of an event are."#;

/// What stands below the options in the help of `upgrade`.
const UPGRADE_EXPLANATION: &str =
    r#"Output, on standard output: the file in the version that --to names. A file of that
version, or of a newer one, is written as it is.
  From 1 to 2: each task_schedule with a next task tells the turns that prior and next
      are in (prior_turn, next_turn), counted along the file. Nothing else changes, and
      taskaudit check answers the same for both files.
  From 2 to 3: only the header changes. If the answer for the old file is yes or no, it is
      the same for the new one, unless that is malformed by cause 4 NotCurrent or
      9 RegionNesting: a root began on a thread with an open root, and the task that ran
      there had not begun its region.

Errors, one line on standard error; nothing is written:
  not upgraded: line 7: 2 Moved
      the first event in the file whose next task was the next task of an event
      before it on another thread: the file does not tell which turn comes first
  unreadable: line 3: 6 Field
      the first faulty line, and why it is none of a trace file

Exit status: 0 written, 2 not upgraded, 3 input not read or trace not written,
  4 wrong arguments, 5 out of memory.

taskaudit check --help says what the input is."#;

/// What stands below the options in the help of `watch`.
const WATCH_EXPLANATION: &str =
    r#"Takes the events one after another, as they were written, and keeps only what is
alive: so it can read from a pipe while the program runs, and needs memory for the
live tasks alone. The events must stand in an order in which they can have happened:
so the recorder of ompt/ writes them, and taskaudit order --records FILE.

Answer, one line on standard output:
  yes: 6 records, 1 entries, 1 tasks, 1 waits
      as check says it of the same file
  no: line 5, thread 0, seq 3: task 2 unfinished
      a taskwait, taskgroup or barrier ends with this event, and it waits for the
      task, which no event before completes; check says no too, there or before,
      or malformed
Else nothing is claimed: check decides. One line on standard error:
  undecided: line 5: 6 Predecessors
      the first event that fails a test of watch: 1 Calls, its thread or task cannot
      make it there; 2 Regions, its parallel region began before; 3 Teams, its number
      in the team is taken, or the team has another size; 4 Lengths, its seen does not
      fit those before it; 5 Waits, a taskwait, taskgroup or barrier ends and not all
      is complete, but no task is found that is missed; 6 Predecessors, a task starts
      and a predecessor is not complete; 7 End, the file ends too early, past this
      line
  unreadable: line 3: 6 Field
      the first faulty line, and why it is none of a trace file

Exit status: 0 yes, 1 no, 3 input not read or answer not written, 4 wrong arguments,
  5 out of memory, 6 undecided.

taskaudit check --help says what the answer means and what the input is."#;

/// What the command line asks for; its first word is the program's name.
pub fn asked<'a, S: AsStr>(alloc: Global, words: &'a [S]) -> Result<Asked<'a>, Error>
    ensures job { IfOk result (λ asked. AsksFor (map S.text words.entry.now) asked.job) }
    ensures input { IfOk result (λ asked. AsksOf (map S.text words.entry.now) (place_of asked.input)) }

    // The number that the job names, if it does, is in its range.
    ensures number { IfOk result (λ asked. HasItsNumber asked.job) }

    // Words that clap accepts are refused only where memory runs out.
    ensures passes { IfErr result (λ e. takes command_line (map S.text words.entry.now) ≡ true
        → kind_of e ≡ ErrorKind.OutOfMemory) }
    ensures kinds { FailsBy (fault_of command_line (map S.text words.entry.now)) result }
{
    match command(alloc)?.try_get_matches_from(words) {
        // One subcommand is required, so one was met.
        Ok(matches) => Ok(asked_of(&matches)),
        Err(error) => Err(error),
    }
}

/// What the subcommand and the words behind it ask for.
fn asked_of<'a>(matches: &ArgMatches<'a>) -> Asked<'a>
    requires { is_some (option_and_then job_named (subcommand_rows_of matches.now)) ≡ true }
    ensures job { option_and_then job_named (subcommand_rows_of matches.now) ≡ Some result.job }
    ensures input { place_named (option_and_then file_word (subcommand_rows_of matches.now))
        ≡ place_of result.input }
{
    match matches.subcommand() {
        Some((name, found)) => Asked {
            job: job_of(name, found),
            input: input_of(found),
        },
        None => Asked {
            job: Job::Check {
                workers: None,
                most: None,
            },
            input: Input::Unnamed,
        },
    }
}

/// Where a job reads from, by what was found for its arguments.
fn input_of<'a>(found: &ArgMatches<'a>) -> Input<'a>
    ensures { place_named (first_of (codes "file") (rows_of (found_of found.now))) ≡ place_of result }
{
    match found.get_str("file") {
        None => Input::Unnamed,
        Some("-") => Input::Standard,
        Some(name) => Input::Named(name),
    }
}

/// The job that the name of a subcommand stands for, with what was found for its arguments.
fn job_of(name: &str, found: &ArgMatches) -> Job
    requires { is_some (job_named (name.now, rows_of (found_of found.now))) ≡ true }
    ensures { job_named (name.now, rows_of (found_of found.now)) ≡ Some result }
{
    match name {
        "order" => order_of(found),
        "record" => Job::Record,
        "upgrade" => Job::Upgrade(version_found(found)),
        "watch" => Job::Watch,
        _ => check_of(found),
    }
}

/// The check that was asked for, with what was found for its arguments.
fn check_of(found: &ArgMatches) -> Job
    requires { is_some (check_in (rows_of (found_of found.now))) ≡ true }
    ensures { check_in (rows_of (found_of found.now)) ≡ Some result }
{
    let workers = workers_found(found);
    let most = most_asked(flag_found(found, "all"), most_found(found));
    Job::Check { workers, most }
}

/// Returns the order that was asked for, by what was found for its arguments.
fn order_of(found: &ArgMatches) -> Job
    ensures { result ≡ order_in (rows_of (found_of found.now)) }
{
    Job::Order {
        records: flag_found(found, "records"),
    }
}

/// Returns how many findings are printed at most, or none where they are not asked for.
fn most_asked(all: bool, most: Option<u32>) -> Option<u32>
    ensures { result ≡ most_asked all most }
{
    match most {
        Some(most) => Some(most),
        None if all => Some(USUAL_MOST),
        None => None,
    }
}

/// Returns whether the option of this name is given, which has no value.
fn flag_found(found: &ArgMatches, name: &str) -> bool
    ensures { result ≡ is_given (first_of name.now (rows_of (found_of found.now))) }
{
    match found.get_str(name) {
        Some("true") => true,
        Some(_other) => false,
        None => false,
    }
}

/// The value of `--workers`, if there is one.
fn workers_found(found: &ArgMatches) -> Option<u32>
    requires { is_some (number_in 1 256 (one_of (codes "workers") (rows_of (found_of found.now)))) ≡ true }
    ensures { number_in 1 256 (one_of (codes "workers") (rows_of (found_of found.now))) ≡ Some result }
{
    found.get_one::<u32>("workers")
}

/// The value of `--most`, if there is one.
fn most_found(found: &ArgMatches) -> Option<u32>
    requires { is_some (number_in 1 1000 (one_of (codes "most") (rows_of (found_of found.now)))) ≡ true }
    ensures { number_in 1 1000 (one_of (codes "most") (rows_of (found_of found.now))) ≡ Some result }
{
    found.get_one::<u32>("most")
}

/// The value of `--to`, if there is one.
fn version_found(found: &ArgMatches) -> Option<u32>
    requires { is_some (number_in 2 3 (one_of (codes "to") (rows_of (found_of found.now)))) ≡ true }
    ensures { number_in 2 3 (one_of (codes "to") (rows_of (found_of found.now))) ≡ Some result }
{
    found.get_one::<u32>("to")
}

/// The command line that the program takes.
fn command<'a>(alloc: Global) -> Result<Command<'a>, AllocError>
    ensures app { IfOk result (λ c. app_of c ≡ command_line) }
    ensures local { IfOk result (λ c. (out-Command c).has_globals ≡ false) }
{
    let check = checking(alloc)?;
    let order = ordering(alloc)?;
    let recording = reading(
        alloc,
        "record",
        RECORD_ABOUT,
        RECORD_EXPLANATION,
        SCRIPT_HELP,
    )?;
    let upgrade = upgrading(alloc)?;
    let watch = reading(alloc, "watch", WATCH_ABOUT, WATCH_EXPLANATION, TRACE_HELP)?;
    Command::new(alloc, "taskaudit")
        .version(VERSION_TEXT)
        .about(ABOUT)
        .after_help(EXPLANATION)
        .disable_help_subcommand(true)
        .subcommand_required(true)
        .subcommand(check)?
        .subcommand(order)?
        .subcommand(recording)?
        .subcommand(upgrade)?
        .subcommand(watch)
}

/// The subcommand `check`, with its options and its file.
fn checking<'a>(alloc: Global) -> Result<Command<'a>, AllocError>
    ensures shape { IfOk result (λ c. shape_of c ≡ check_app.top) }
    ensures local { IfOk result (λ c. (out-Command c).has_globals ≡ false) }
{
    reading(alloc, "check", CHECK_ABOUT, EXPLANATION, TRACE_HELP)?
        .arg(workers(alloc))?
        .arg(all(alloc))?
        .arg(most(alloc))
}

/// The subcommand `order`, with its option and its file.
fn ordering<'a>(alloc: Global) -> Result<Command<'a>, AllocError>
    ensures shape { IfOk result (λ c. shape_of c ≡ order_app.top) }
    ensures local { IfOk result (λ c. (out-Command c).has_globals ≡ false) }
{
    let command = reading(alloc, "order", ORDER_ABOUT, ORDER_EXPLANATION, TRACE_HELP)?;
    command.arg(records(alloc))
}

/// The subcommand `upgrade`, with its option and its file.
fn upgrading<'a>(alloc: Global) -> Result<Command<'a>, AllocError>
    ensures shape { IfOk result (λ c. shape_of c ≡ upgrade_app.top) }
    ensures local { IfOk result (λ c. (out-Command c).has_globals ≡ false) }
{
    let command = reading(
        alloc,
        "upgrade",
        UPGRADE_ABOUT,
        UPGRADE_EXPLANATION,
        TRACE_HELP,
    )?;
    command.arg(version(alloc))
}

/// A subcommand with a word for the file that it reads.
fn reading<'a>(
    alloc: Global,
    name: &'a str,
    about: &'a str,
    explanation: &'a str,
    help: &'a str,
) -> Result<Command<'a>, AllocError>
    ensures shape { IfOk result (λ c. shape_of c ≡ (file_app name.entry.now).top) }
    ensures local { IfOk result (λ c. (out-Command c).has_globals ≡ false) }
{
    plain(alloc, name, about, explanation).arg(file(alloc, help))
}

/// The word for that file.
fn file<'a>(alloc: Global, help: &'a str) -> Arg<'a>
    ensures rule { rule_of result ≡ file_rule }
    ensures local { result.global ≡ false }
{
    Arg::new(alloc, "file")
        .value_name("FILE")
        .help(help)
        .action(ArgAction::Set)
}

/// The option `--workers` of `check`.
fn workers<'a>(alloc: Global) -> Arg<'a>
    ensures rule { rule_of result ≡ workers_rule }
    ensures local { result.global ≡ false }
{
    Arg::new(alloc, "workers")
        .long("workers")
        .value_name("N")
        .help(WORKERS_HELP)
        .action(ArgAction::Set)
        .value_parser(value_parser!(u32).range(1..=i64::from(MAX_WORKERS)))
}

/// The option `--all` of `check`.
fn all<'a>(alloc: Global) -> Arg<'a>
    ensures rule { rule_of result ≡ all_rule }
    ensures local { result.global ≡ false }
{
    flag(alloc, "all", ALL_HELP)
}

/// The option `--records` of `order`.
fn records<'a>(alloc: Global) -> Arg<'a>
    ensures rule { rule_of result ≡ records_rule }
    ensures local { result.global ≡ false }
{
    flag(alloc, "records", RECORDS_HELP)
}

/// An option of this name, which has no value.
fn flag<'a>(alloc: Global, name: &'a str, help: &'a str) -> Arg<'a>
    ensures rule { rule_of result ≡ flag_rule name.now }
    ensures local { result.global ≡ false }
{
    Arg::new(alloc, name)
        .long(name)
        .help(help)
        .action(ArgAction::SetTrue)
}

/// The option `--most` of `check`.
fn most<'a>(alloc: Global) -> Arg<'a>
    ensures rule { rule_of result ≡ most_rule }
    ensures local { result.global ≡ false }
{
    Arg::new(alloc, "most")
        .long("most")
        .value_name("N")
        .help(MOST_HELP)
        .action(ArgAction::Set)
        .value_parser(value_parser!(u32).range(1..=1000))
}

/// The option `--to` of `upgrade`.
fn version<'a>(alloc: Global) -> Arg<'a>
    ensures rule { rule_of result ≡ version_rule }
    ensures local { result.global ≡ false }
{
    Arg::new(alloc, "to")
        .long("to")
        .value_name("VERSION")
        .help(VERSION_HELP)
        .action(ArgAction::Set)
        .value_parser(value_parser!(u32).range(2..=3))
}

/// A subcommand without arguments.
fn plain<'a>(alloc: Global, name: &'a str, about: &'a str, explanation: &'a str) -> Command<'a>
    ensures shape { shape_of result ≡ (new_app name.now).top }
    ensures local { (out-Command result).has_globals ≡ false }
{
    Command::new(alloc, name)
        .about(about)
        .after_help(explanation)
}
