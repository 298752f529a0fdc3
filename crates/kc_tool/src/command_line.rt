//! The command line: it is carried out over streams that the caller keeps.
ghost use Rattle.std.specs.Prelude.{◌≡◌, ◌≤◌, ◌⊎◌, ◌++◌, [], Bool, true, IfErr, IfOk, List, MatchOption, Some};
ghost use Rattle.std.specs.Prelude.{codes, map};
ghost use Rattle.std.specs.Prelude.{string_bytes};
ghost use Rattle.clap.specs.Words.{Text, found_of, one_of, rows_of};
ghost use Rattle.kc_command.specs.Arguments.{IsFlag};
ghost use Rattle.kc_io.specs.Sinks.{Writes};
ghost use Rattle.kc_tool.specs.FaultLines.{fault_line};
ghost use Rattle.kc_tool.specs.CommandLine.{CarriesOut, RefusesSo, SaysText, ShowsSo, WantsMore, status_of, text_of};
ghost use Rattle.kc_tool.specs.Commands.{AreNotTogether, GoTogether, Surroundings};
ghost use Rattle.kc_tool.specs.Selections.{counts_line};
ghost use Rattle.kc_tool.specs.Told.{IsClosing, asked_line};
ghost use Rattle.kc_tool.specs.Process.{Ends, EndsSaying, EndsUnread, TellsUnread};
ghost use Rattle.kc_tool.specs.declared.tool_faults.ToolFault.TheVariants.{Memory, Write};
ghost use Rattle.kc_tool.specs.declared.command_line.Ending.TheVariants.{Fault};

use crate::closing_line::closing_line;
use crate::commands::{Verb, run_command, verb_named};
use crate::count_progress::Progress;
use crate::counted_sources::Means;
use crate::counts_line::write_counts;
use crate::explanations::{Known, explanation};
use crate::fault_lines::write_fault;
use crate::files::NamedFiles;
use crate::option_tips::{Conflict, conflict_text, with_tip};
use crate::told::{Told, asked_counts};
use crate::tool_faults::ToolFault;
use clap::ArgMatches;
use clap::error::ErrorKind;
use kc_command::command::command;
use kc_command::{has_flag, has_no_words, has_too_many_tables, pairs_refusal};
use kc_io::{Failed, Sink, Source, write_out};
use kc_report::Block;
use kc_select::SelectionCounts;
use std::alloc::{AllocError, AllocFailed, Global};
use std::io;
use std::rt::Files;
use std::sync::Wait;
use std::thread::Threads;

/// The exit status of success.
const DONE: u8 = 0;
/// The exit status of a fault.
const FAULT: u8 = 1;
/// The exit status of a command line that is refused.
const REFUSED: u8 = 2;

// The line for an argument that is no text.
const NOT_TEXT: &[u8] = b"kcount: an argument is not UTF-8\n";

/// Carries out the command line `arguments`, which begins with the program's name, and returns the exit status. Files
/// are opened and created by their names. The progress of a count is reported to `progress`, and its end before the
/// report or the line of a fault is written.
///
/// Status 0: the output, or the file or both files that the arguments name for it, has what the arguments ask for: a
/// report, the counts of a query, selected reads, profiles, help or the version; and a selection's counts went to the
/// errors, if they are asked for. Status 1: the line of a fault went to the errors, and the output is unchanged, or has
/// a beginning of the text if writing failed, or what was selected before the fault. Status 2: the output is unchanged,
/// and the reason why the arguments are refused went to the errors. The input is read if a command reads no file,
/// otherwise it is unchanged; and no file is requested but those that the command asks for.
///
/// The arguments are as std gives them. If one of them is not UTF-8, the command line is refused: status 2, nothing was
/// read or written, and a line about it went to the errors. If they can't be had for another reason, there was no
/// memory for them: status 1, and the line of `Memory`.
pub fn run<H: Threads + Wait + Sync, S: Files, R: Source, W: Sink, E: Sink, P: Progress + Sync>(
    rt: &H,
    alloc: Global,
    arguments: &io::Result<Vec<String>>,
    files: &mut NamedFiles<'_, S>,
    input: &mut R,
    output: &mut W,
    errors: &mut E,
    progress: &P,
) -> u8
    ensures within { result ≤ 2 }
    ensures texts { IfOk arguments.now (λ texts. EndsSaying (P.watched progress.now) (map string_bytes texts.items)
        (record { input = R.seen input.old; output = W.seen output.old; asked = files.old })
        (record { input = R.seen input.new; output = W.seen output.new; asked = files.new })
        (E.seen errors.old) (E.seen errors.new) result) }
    ensures unread { IfErr arguments.now (λ error. EndsUnread error
        (record { input = R.seen input.old; output = W.seen output.old; asked = files.old })
        (record { input = R.seen input.new; output = W.seen output.new; asked = files.new })
        (E.seen errors.old) (E.seen errors.new) result) }
{
    let arguments = match arguments {
        Ok(arguments) => arguments,
        Err(error) => return tell_unread(error, errors),
    };
    let Ok(app) = command(alloc) else {
        return tell_end(Err(Ending::Fault(ToolFault::Memory)), b"", errors);
    };
    let matches = match app.try_get_matches_from(arguments) {
        Ok(matches) => matches,
        Err(error) => return tell_end(show(alloc, &error, arguments, output), b"", errors),
    };
    // `clap` accepts no command line without one of the commands
    let Some((name, matches)) = matches.subcommand() else {
        unreachable!()
    };
    let Some(verb) = verb_named(name) else {
        unreachable!()
    };
    if let Some(conflict) = conflict_of(verb, matches) {
        return tell_end(Err(ending_of_conflict(alloc, verb, conflict)), b"", errors);
    }
    let means = Means {
        rt,
        alloc,
        progress,
    };
    let ended = run_command(&means, verb, matches, files, input, output);
    progress.ends();
    let said = closing_remark(&means, &ended, verb, matches, files);
    tell_end(ended.map_err(Ending::Fault), said.as_bytes(), errors)
}

// Why the arguments of a command conflict, if they do.
fn conflict_of(verb: Verb, matches: &ArgMatches<'_>) -> Option<Conflict>
    ensures { MatchOption result (GoTogether verb (rows_of (found_of matches.now)))
        (λ conflict. AreNotTogether verb (rows_of (found_of matches.now)) conflict) }
{
    match verb {
        Verb::Select => match pairs_refusal(matches) {
            Some(why) => Some(Conflict::Pairs(why)),
            None => None,
        },
        Verb::Merge | Verb::Intersect | Verb::Subtract if has_too_many_tables(matches) => {
            Some(Conflict::TooManyTables)
        }
        Verb::Query if has_no_words(matches) => Some(Conflict::NoWords),
        _ => None,
    }
}

// The end of a command line with arguments that conflict.
fn ending_of_conflict(alloc: Global, verb: Verb, conflict: Conflict) -> Ending
    ensures { RefusesSo result }
{
    match conflict_text(alloc, verb, conflict) {
        Ok(text) => Ending::Refused(text),
        Err(_) => Ending::Fault(ToolFault::Memory),
    }
}

// What is printed besides the lines for programs.
#[derive(Drop)]
enum Remark {
    // Nothing.
    Unsaid,
    // What was counted or selected.
    Closing(Block),
    // Why there was a fault.
    Explained(String),
}

impl Remark {
    // The text.
    fn as_bytes(&self) -> &[u8]
        ensures { result.now ≡ text_of self.now }
    {
        match self {
            Remark::Unsaid => b"",
            Remark::Closing(text) => text.as_slice(),
            Remark::Explained(text) => text.as_bytes(),
        }
    }
}

// The closing line of a success, or the text that explains a fault, if a person reads the errors or asks for it.
// Otherwise nothing is printed, nor if there is no memory to explain a fault.
fn closing_remark<H: Threads, S: Files, P: Progress>(
    means: &Means<'_, H, P>,
    ended: &Result<Told, ToolFault>,
    verb: Verb,
    matches: &ArgMatches<'_>,
    files: &NamedFiles<'_, S>,
) -> Remark
    ensures asked { (text_of result ≡ []) ⊎ (P.watched means.now.progress.now ≡ true)
        ⊎ IsFlag (rows_of (found_of matches.now)) (codes "explain") true }
    ensures closing { IfOk ended.now (λ told. (P.watched means.now.progress.now ≡ true)
        ⊎ (one_of (codes "explain") (rows_of (found_of matches.now)) ≡ Some (codes "true"))
        → IsClosing told (text_of result)) }
{
    let is_asked = has_flag(matches, "explain");
    if !means.progress.is_watched() && !is_asked {
        return Remark::Unsaid;
    }
    let fault = match ended {
        Ok(told) => return Remark::Closing(closing_line(told, means.progress.tenths_passed())),
        Err(fault) => fault,
    };
    let looks = files.looks();
    let known = Known {
        verb,
        matches,
        looks: &looks,
        refusal: files.refusal(),
        output_refusal: files.output_refusal(),
    };
    match explanation(means.alloc, fault, &known) {
        Ok(text) => Remark::Explained(text),
        Err(_) => Remark::Unsaid,
    }
}

// Prints why there are no arguments, and returns the exit status.
fn tell_unread<E: Sink>(error: &io::Error, errors: &mut E) -> u8
    ensures { TellsUnread error.now (E.seen errors.old) (E.seen errors.new) result }
{
    if error.kind() == io::ErrorKind::InvalidData {
        // as with any refusal, the status is the same if this can't be printed
        let _ = write_out(errors, NOT_TEXT);
        return REFUSED;
    }
    let _ = write_fault(errors, &ToolFault::Memory);
    FAULT
}

// Prints how a command line ended, with this text after the line of a fault, or of what was asked for, and returns the
// exit status. The status is the same if that can't be printed.
fn tell_end<E: Sink>(ended: Result<Told, Ending>, said: &[u8], errors: &mut E) -> u8
    ensures within { result ≤ 2 }
    ensures ends { (watched : Bool) (arguments : List Text) (old new : Surroundings)
        → CarriesOut arguments old new ended
        → IfOk ended (λ told. WantsMore watched arguments → IsClosing told said.now)
        → Ends watched arguments old new (E.seen errors.old) (E.seen errors.new) said.now result }
{
    match ended {
        Ok(told) => {
            let _ = write_told(errors, &told, said);
            DONE
        }
        Err(Ending::Fault(fault)) => {
            let _ = write_explained(errors, &fault, said);
            status_of(&fault)
        }
        Err(Ending::Refused(text)) => {
            let _ = write_out(errors, text.as_bytes());
            REFUSED
        }
    }
}

// Writes the counts of a selection, if they are asked for, followed by this text. If there is nothing to write, the
// errors are not called.
fn write_told<E: Sink>(errors: &mut E, told: &Told, said: &[u8]) -> Result<(), Failed>
    ensures { SaysText (asked_line told.now ++ said.now) (E.seen errors.old) (E.seen errors.new) }
{
    match asked_counts(told) {
        Some(counts) => write_counted(errors, &counts, said),
        None if said.is_empty() => Ok(()),
        None => write_out(errors, said),
    }
}

// Writes the line of the counts of a selection, followed by this text.
fn write_counted<E: Sink>(
    errors: &mut E,
    counts: &SelectionCounts,
    said: &[u8],
) -> Result<(), Failed>
    ensures { Writes (E.seen errors.old) (E.seen errors.new) result (counts_line counts.now ++ said.now) }
{
    match write_counts(errors, counts) {
        Err(failed) => Err(failed),
        Ok(()) if said.is_empty() => Ok(()),
        Ok(()) => match write_out(errors, said) {
            Ok(()) => Ok(()),
            Err(failed) => Err(failed),
        },
    }
}

// Writes the line of a fault, followed by this text.
fn write_explained<E: Sink>(
    errors: &mut E,
    fault: &ToolFault,
    explained: &[u8],
) -> Result<(), ToolFault>
    ensures { Writes (E.seen errors.old) (E.seen errors.new) result (fault_line fault.now ++ explained.now) }
{
    match write_fault(errors, fault) {
        Err(failed) => Err(failed),
        Ok(()) if explained.is_empty() => Ok(()),
        Ok(()) => match write_out(errors, explained) {
            Ok(()) => Ok(()),
            Err(Failed) => Err(ToolFault::Write),
        },
    }
}

// Why a command was not carried out.
#[derive(Drop)]
enum Ending {
    // The command met a fault.
    Fault(ToolFault),
    // The command line was refused, and this text is the reason.
    Refused(String),
}

impl From<Failed> for Ending {
    ghost from_gives = { λ _ ending. ending ≡ Fault Write };

    fn from(_error: Failed) -> Ending {
        Ending::Fault(ToolFault::Write)
    }
}

impl From<AllocError> for Ending {
    ghost from_gives = { λ _ ending. ending ≡ Fault Memory };

    fn from(_error: AllocError) -> Ending {
        Ending::Fault(ToolFault::Memory)
    }
}

// The exit status of a fault: a bad option refuses the command line.
fn status_of(fault: &ToolFault) -> u8
    ensures { result ≡ status_of fault.now }
{
    match fault {
        ToolFault::BadOption(_) => REFUSED,
        _ => FAULT,
    }
}

// Help and the version go to the output, and nothing else is printed. Any other text refuses the command line.
fn show<W: Sink>(
    alloc: Global,
    error: &clap::Error,
    arguments: &[String],
    output: &mut W,
) -> Result<Told, Ending>
    ensures { ShowsSo error.now (W.seen output.old) (W.seen output.new) result }
{
    if error.kind() == ErrorKind::OutOfMemory {
        return Err(Ending::Fault(ToolFault::Memory));
    }
    let text = error.to_string(alloc)?;
    if error.use_stderr() {
        return Err(Ending::Refused(with_tip(alloc, text, arguments)?));
    }
    write_out(output, text.as_bytes())?;
    Ok(Told::Nothing)
}
