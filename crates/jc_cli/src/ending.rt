//! How the program ends, with which status, and what it says; and, before that, what it says to a person at a terminal.
ghost use Rattle.std.specs.Prelude.{◌≡◌, ◌++◌, ◌&&◌, ◌==◌, length, true, is_err, OnOk, IfOk, IfErr, [], codes};
ghost use Rattle.std.specs.Option.{option_copied};
ghost use Rattle.jc_cli.specs.Endings.{Greets, HasStatus, SaysNothing, SaysSo, SaysFault, TellsLine, IsPrinted, Leaves, ending_of, is_unheard, unwritten_status, no_text_line, path_of, checked_path, ending_of_check};
ghost use Rattle.jc_cli.specs.Faults.{listed_line, told_lines};
ghost use Rattle.jc_cli.specs.Meters.{next_count_if};
ghost use Rattle.jc_cli.specs.Watching.{AddsText};

use crate::asked::Check;
use crate::fault::{
    ProgramFault, is_of_config, is_of_report, write_lines, write_listed, write_name, write_told,
};
use crate::output::WatchedWriter;
use clap::Error;
use std::io;
use std::io::Write;

/// How the program ends.
#[derive(Drop)]
pub enum Ending {
    /// All was done: the report or the table was printed, or the files that were checked are fine.
    Done,
    /// A fault, whose line is to be told on standard error.
    Faulty(ProgramFault),
    /// A fault that is to be explained, with the path of its file: its line has the program's name before it, and the
    /// explanation's lines below it.
    Explained(ProgramFault, String),
    /// A fault of files that were checked, with the path of its file, which is told with all that stand behind it: each
    /// explained or not; members that an op does not need are faults or not.
    Listed {
        fault: ProgramFault,
        path: String,
        explain: bool,
        strict: bool,
    },
    /// Help was asked for, or the words are mistaken.
    Refused(Error),
    /// The words are mistaken and ask for explanations: this text is told, with the program's name before it.
    Mistaken(String),
    /// One of the words is no text.
    NotText,
}

/// The status, and whether all was written that is to be said; if not, its writer failed.
#[derive(Clone, Copy, Debug, PartialEq, Eq)]
pub struct Ended {
    pub status: u8,
    pub told: bool,
}

/// Why the words can't be had.
#[derive(Debug, PartialEq, Eq, Drop)]
pub enum WordsFault {
    /// One of them is no text.
    NotText,
    /// One of them is no text, and they ask for explanations: this text is told, with the program's name before it.
    Explained(String),
    OutOfMemory,
}

fn write_greeting<E: Write>(errors: &mut WatchedWriter<E>) -> bool
    ensures { Greets E.contents true result errors.old errors.new }
{
    writeln!(
        errors,
        "jcache: reads a script from this terminal until its end (Ctrl-D); --help tells more"
    )
    .is_ok()
}

/// Tells a person who gave no words at a terminal that the script is awaited there: nothing else would be seen until it
/// has ended. Whether all was written that is to be said.
pub fn greet<E: Write>(
    words: &Result<Vec<String>, WordsFault>,
    at_terminal: bool,
    errors: &mut WatchedWriter<E>,
) -> bool
    ensures greets { IfOk words.now (λ v. Greets E.contents (at_terminal && (length v.items == 0))
        result errors.old errors.new) }
    ensures mistaken { IfErr words.now (λ fault.
        SaysNothing E.contents result errors.old errors.new) }
{
    match words {
        Ok(words) => {
            if at_terminal && words.as_slice().is_empty() {
                return write_greeting(errors);
            }
            true
        }
        Err(_) => true,
    }
}

/// The path of the file in which a fault is: that of the configuration, or of the script.
fn path_of(config: String, script: String, fault: &ProgramFault) -> String
    ensures { result ≡ path_of config script fault.now }
{
    if is_of_config(fault) { config } else { script }
}

/// How a run of these files ended: `Done`, or with its fault, which may have to be explained.
pub fn ending_of(
    explain: bool,
    config: String,
    script: String,
    ran: Result<(), ProgramFault>,
) -> Ending
    ensures { result ≡ ending_of explain (path_of config script) ran }
{
    match ran {
        Ok(()) => Ending::Done,
        Err(fault) => {
            if explain {
                let path = path_of(config, script, &fault);
                Ending::Explained(fault, path)
            } else {
                Ending::Faulty(fault)
            }
        }
    }
}

/// The same of one file.
pub fn ending_in(explain: bool, path: String, ran: Result<(), ProgramFault>) -> Ending
    ensures { result ≡ ending_of explain (λ fault. path) ran }
{
    match ran {
        Ok(()) => Ending::Done,
        Err(fault) => {
            if explain {
                Ending::Explained(fault, path)
            } else {
                Ending::Faulty(fault)
            }
        }
    }
}

fn checked_path(config: String, script: Option<String>, fault: &ProgramFault) -> String
    ensures { result ≡ checked_path config script fault.now }
{
    match script {
        Some(script) => path_of(config, script, fault),
        None => config,
    }
}

/// How a check ended: `Done`, or with its fault, or with all.
pub fn ending_of_check(explain: bool, check: Check, ran: Result<(), ProgramFault>) -> Ending
    ensures { result ≡ ending_of_check explain check ran }
{
    let Err(fault) = ran else {
        return Ending::Done;
    };
    let strict = check.strict;
    let all = check.all;
    let path = checked_path(check.config, check.script, &fault);
    if all {
        return Ending::Listed {
            fault,
            path,
            explain,
            strict,
        };
    }
    if explain {
        Ending::Explained(fault, path)
    } else {
        Ending::Faulty(fault)
    }
}

fn write_no_text<E: Write>(errors: &mut WatchedWriter<E>) -> io::Result<()>
    ensures bytes { OnOk result (AddsText E.contents errors.old errors.new no_text_line) }
    ensures failures { errors.new.failures ≡ next_count_if (is_err result) errors.old.failures }
{
    writeln!(errors, "error: a word is not UTF-8")
}

/// Prints help, or the version: whether it was written and flushed.
fn print_help<O: Write>(error: &Error, output: &mut WatchedWriter<O>) -> bool
    ensures { IsPrinted result output.old output.new }
{
    write!(output, "{error}").is_ok() && output.flush().is_ok()
}

/// Prints help, or tells a mistake on standard error. Help that could not be written is no success; 141 is its status
/// where nobody reads it any more.
fn refuse<O: Write, E: Write>(
    error: &Error,
    output: &mut WatchedWriter<O>,
    errors: &mut WatchedWriter<E>,
) -> Ended
    ensures status { HasStatus (Ending.Refused error.now) result.told output.new.unheard
        result.status }
    ensures says { SaysSo E.contents [] (Ending.Refused error.now) result.told output.new.unheard
        errors.old errors.new }
    ensures leaves { Leaves (Ending.Refused error.now) result.told output.old output.new }
{
    if error.use_stderr() {
        let told = write!(errors, "{error}").is_ok();
        return Ended { status: 2, told };
    }
    let told = print_help(error, output);
    let unwritten = if output.unheard() { 141 } else { 1 };
    Ended {
        status: if told { 0 } else { unwritten },
        told,
    }
}

/// Tells a mistake in the words under the program's name; false where the writer failed.
fn write_mistake<E: Write>(text: &str, errors: &mut WatchedWriter<E>) -> bool
    ensures { TellsLine E.contents (codes "jcache: " ++ text.now) result errors.old errors.new }
{
    if !write_name(errors) {
        return false;
    }
    write_lines(text, errors)
}

/// Tells a fault, but for a report that nobody reads any more; the lines are those of its explanation.
fn say_fault<E: Write>(
    fault: &ProgramFault,
    lines: Option<&str>,
    unheard: bool,
    errors: &mut WatchedWriter<E>,
) -> Ended
    ensures status { result.status ≡ unwritten_status (is_unheard fault.now unheard) }
    ensures says { SaysFault E.contents (is_unheard fault.now unheard)
        (told_lines fault.now (option_copied lines.entry)) result.told errors.old errors.new }
{
    if is_of_report(fault) && unheard {
        return Ended {
            status: 141,
            told: true,
        };
    }
    Ended {
        status: 1,
        told: write_told(fault, lines, errors),
    }
}

/// Tells a fault with others behind it, but for a report that nobody reads any more.
fn say_listed<E: Write>(
    explain: bool,
    fault: &ProgramFault,
    lines: &str,
    unheard: bool,
    errors: &mut WatchedWriter<E>,
) -> Ended
    ensures status { result.status ≡ unwritten_status (is_unheard fault.now unheard) }
    ensures says { SaysFault E.contents (is_unheard fault.now unheard)
        (listed_line explain fault.now lines.now) result.told errors.old errors.new }
{
    if is_of_report(fault) && unheard {
        return Ended {
            status: 141,
            told: true,
        };
    }
    Ended {
        status: 1,
        told: write_listed(explain, fault, lines, errors),
    }
}

/// Says how the program ends, and with which status; the lines are those of an explanation, or of other faults.
pub fn say<O: Write, E: Write>(
    ending: &Ending,
    lines: &str,
    output: &mut WatchedWriter<O>,
    errors: &mut WatchedWriter<E>,
) -> Ended
    ensures status { HasStatus ending.now result.told output.new.unheard result.status }
    ensures says { SaysSo E.contents lines.now ending.now result.told output.new.unheard
        errors.old errors.new }
    ensures leaves { Leaves ending.now result.told output.old output.new }
{
    match ending {
        Ending::Done => Ended {
            status: 0,
            told: true,
        },
        Ending::Faulty(fault) => say_fault(fault, None, output.unheard(), errors),
        Ending::Explained(fault, _) => say_fault(fault, Some(lines), output.unheard(), errors),
        Ending::Listed { fault, explain, .. } => say_listed(
            *explain,
            fault,
            lines,
            output.unheard(),
            errors,
        ),
        Ending::Refused(error) => refuse(error, output, errors),
        Ending::Mistaken(text) => Ended {
            status: 2,
            told: write_mistake(text.as_str(), errors),
        },
        Ending::NotText => Ended {
            status: 2,
            told: write_no_text(errors).is_ok(),
        },
    }
}
