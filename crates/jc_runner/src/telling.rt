//! The program with its explanations.
ghost use Rattle.std.specs.Prelude.{◌≡◌, IfOk, IfErr, Ok, Err, MatchResult, map, option_map, string_bytes};
ghost use Rattle.jc_runner.specs.Telling.{answer_for, answer_of, kept_bytes, no_memory_line, shown_path, EndsTold, TellsEnding};

use crate::disk::KeepingDisk;
use crate::every::listed_lines;
use crate::explaining::{Origin, fault_lines};
use crate::{
    Ended, Ending, Opened, ProgramFault, RunFiles, Standard, WatchedReader, WordsFault, dispatch,
    say,
};
use jc_cli::{is_input, is_of_config};
use jc_explain::Kept;
use std::alloc::{AllocError, Global};
use std::fs::Files;
use std::io::{ErrorKind, Read, Write};
use std::sync::Wait;
use std::thread::Threads;

/// The bytes that a file kept, or else standard input.
fn kept_bytes<'a, F: Read, I: Read>(
    file: &'a Option<WatchedReader<Kept<F>>>,
    input: &'a WatchedReader<Kept<I>>,
) -> Option<&'a [u8]>
    ensures { option_map (λ bytes. bytes.now) result ≡ kept_bytes file.now input.now }
{
    match file {
        Some(file) => file.inner().bytes(),
        None => input.inner().bytes(),
    }
}

/// What the system answered for the file in which a fault is.
fn answer_of<F: Read, I: Read>(
    file: &Option<WatchedReader<Kept<F>>>,
    disk: Option<ErrorKind>,
    input: &WatchedReader<Kept<I>>,
) -> Option<ErrorKind>
    ensures { result ≡ answer_of file.now disk input.now }
{
    match file {
        Some(file) => file.inner().fault(),
        None => match disk {
            Some(kind) => Some(kind),
            None => input.inner().fault(),
        },
    }
}

fn answer_for<F: Read, I: Read>(
    fault: &ProgramFault,
    disk: Option<ErrorKind>,
    opened: &Opened<Kept<F>>,
    input: &WatchedReader<Kept<I>>,
) -> Option<ErrorKind>
    ensures { result ≡ answer_for opened.now disk input.now fault.now }
{
    if is_of_config(fault) {
        answer_of(&opened.config, disk, input)
    } else {
        answer_of(&opened.script, disk, input)
    }
}

/// A path as it is told.
fn shown_path(path: &str) -> &str
    ensures { result.now ≡ shown_path path.now }
{
    if is_input(path) {
        "standard input"
    } else {
        path
    }
}

/// What is told where memory is wanting for an explanation.
const NO_MEMORY: &str = "  out of memory for the explanation\n";

/// The lines of an explanation, or of what stands behind a fault; none where there is nothing to tell.
fn lines_of<F: Read, I: Read>(
    alloc: Global,
    ending: &Ending,
    disk: Option<ErrorKind>,
    opened: &Opened<Kept<F>>,
    input: &WatchedReader<Kept<I>>,
) -> Result<String, AllocError>
    ensures { IfOk result (λ s. TellsEnding opened.now disk input.now ending.now (string_bytes s)) }
{
    let Some(config) = kept_bytes(&opened.config, input) else {
        return Err(AllocError);
    };
    let Some(script) = kept_bytes(&opened.script, input) else {
        return Err(AllocError);
    };
    match ending {
        Ending::Explained(fault, path) => {
            let origin = Origin {
                config,
                script,
                path: shown_path(path.as_str()),
                kind: answer_for(fault, disk, opened, input),
            };
            fault_lines(alloc, fault, &origin)
        }
        Ending::Listed {
            fault,
            path,
            explain,
            strict,
        } => {
            let origin = Origin {
                config,
                script,
                path: shown_path(path.as_str()),
                kind: answer_for(fault, disk, opened, input),
            };
            listed_lines(alloc, *explain, *strict, fault, &origin)
        }
        _ => Ok(String::new(alloc)),
    }
}

/// The lines themselves, or what is told for want of memory.
fn text_of(explanation: &Result<String, AllocError>) -> &str
    ensures { MatchResult explanation.now (λ s. result.now ≡ string_bytes s)
        (λ e. result.now ≡ no_memory_line) }
{
    match explanation {
        Ok(lines) => lines.as_str(),
        Err(_) => NO_MEMORY,
    }
}

/// The program: it does what the words after its name ask for, and says how that ended, as `program` of `jc_runner`
/// does; where a fault is to be explained, its line has the program's name before it and the explanation below it.
pub fn run_program<D: Files, I: Read, O: Write, E: Write, R: Threads + Wait + Sync>(
    rt: &R,
    alloc: Global,
    words: Result<Vec<String>, WordsFault>,
    files: &mut RunFiles<KeepingDisk<'_, D>, Kept<D::File>>,
    standard: &mut Standard<Kept<I>, O, E>,
) -> Ended
    ensures ends { IfOk words (λ v. EndsTold D.File.remaining I.remaining O.contents E.contents
        files.old.opened files.new.opened files.new.disk.fault standard.old standard.new
        (Ok (map string_bytes v.items)) result) }
    ensures wordless { IfErr words (λ fault. EndsTold D.File.remaining I.remaining O.contents
        E.contents files.old.opened files.new.opened files.new.disk.fault
        standard.old standard.new (Err fault) result) }
{
    let ending = dispatch(rt, alloc, words, files, standard);
    let fault = files.disk.fault;
    let explanation = lines_of(alloc, &ending, fault, &files.opened, &standard.input);
    let lines = text_of(&explanation);
    say(&ending, lines, &mut standard.output, &mut standard.errors)
}
