//! The program: it does what its words ask for, over a disk and the standard streams, and says how that ended.
ghost use Rattle.std.specs.Prelude.{◌≡◌, ◌↔◌, ℕ, List, [], IsTrue, IfOk, IfErr, Ok, Err, map, string_bytes};
ghost use Rattle.clap.specs.Words.{kind_of};
ghost use Rattle.jc_runner.specs.Program.{WordsEnd, Obeys, ProgramEnds, RefusesSo};

pub mod demonstration;
pub mod streams;
pub mod words;

use crate::command::demonstration::demonstrate;
use crate::command::streams::{RunFiles, Standard};
use crate::files::check::check_files;
use crate::files::disk::Disk;
use crate::files::replay::replay_file;
use crate::files::run_files;
use clap::Error;
use clap::error::ErrorKind;
use jc_cli::{
    Asked, Ended, Ending, ProgramFault, RunFault, WordsFault, asks_to_explain, ending_in,
    ending_of, ending_of_check, explains, mistake_text, read_words, say,
};
use jc_model::OutOfMemory;
use std::alloc::Global;
use std::io::{Read, Write};
use std::sync::Wait;
use std::thread::Threads;

/// The words as texts.
fn texts_of<'a>(alloc: Global, words: &'a [String]) -> Result<Vec<&'a str>, OutOfMemory>
    ensures { IfOk result (λ v. map (λ text. text.now) v.items ≡ map string_bytes words.entry.now) }
{
    let mut texts = Vec::with_capacity(alloc, words.len())?;
    for word in words {
        texts.push(word.as_str())?;
    }
    Ok(texts)
}

fn lacks_memory(error: &Error) -> bool
    ensures { IsTrue result ↔ (kind_of error.now ≡ ErrorKind.OutOfMemory) }
{
    matches!(error.kind(), ErrorKind::OutOfMemory)
}

/// How words are refused: under the program's name where they ask for explanations and memory suffices. Help and the version are no mistakes.
fn refusal(alloc: Global, words: &[&str], error: Error, at_terminal: bool) -> Ending
    ensures { RefusesSo at_terminal (map (λ word. word.now) words.now) error result }
{
    if !error.use_stderr() || !asks_to_explain(words, at_terminal) {
        return Ending::Refused(error);
    }
    match mistake_text(alloc, words, &error) {
        Ok(text) => Ending::Mistaken(text),
        Err(_) => Ending::Refused(error),
    }
}

/// Does what the words after the program's name ask for.
fn obey_words<D: Disk, I: Read, O: Write, E, R: Threads + Wait + Sync>(
    rt: &R,
    alloc: Global,
    words: &[String],
    files: &mut RunFiles<D, D::File>,
    standard: &mut Standard<I, O, E>,
) -> Ending
    ensures ends { WordsEnd D.File.remaining I.remaining O.contents
        (D.holds files.old.disk) (D.asked files.old.disk) (D.asked files.new.disk)
        files.old.opened files.new.opened
        standard.old.input standard.new.input standard.old.output standard.new.output
        standard.old.at_terminal (map string_bytes words.now) result }
    ensures errors { standard.new.errors ≡ standard.old.errors }
    ensures same { (other : List ℕ) → D.holds files.new.disk other ≡ D.holds files.old.disk other }
{
    let at_terminal = standard.at_terminal;
    let Ok(texts) = texts_of(alloc, words) else {
        return Ending::Faulty(ProgramFault::Run(RunFault::Memory));
    };
    match read_words(alloc, texts.as_slice()) {
        Ok(Some(Asked::Run(run))) => {
            let ran = run_files(rt, alloc, files, &run, standard);
            let explain = explains(run.explain, at_terminal);
            ending_of(explain, run.config, run.script, ran)
        }
        Ok(Some(Asked::Check(check))) => {
            let ran = check_files(alloc, files, &check, &mut standard.input);
            let explain = explains(check.explain, at_terminal);
            ending_of_check(explain, check, ran)
        }
        Ok(Some(Asked::Replay(replay))) => {
            let (input, output) = (&mut standard.input, &mut standard.output);
            let ran = replay_file(alloc, files, &replay, input, output);
            let explain = explains(replay.explain, at_terminal);
            ending_in(explain, replay.trace, ran)
        }
        Ok(None) => match demonstrate(alloc, &mut standard.input, &mut standard.output) {
            Ok(()) => Ending::Done,
            Err(fault) => Ending::Faulty(ProgramFault::Run(fault)),
        },
        Err(error) => {
            if lacks_memory(&error) {
                return Ending::Faulty(ProgramFault::Run(RunFault::Memory));
            }
            refusal(alloc, texts.as_slice(), error, at_terminal)
        }
    }
}

/// Does what the words ask for, where they are there. Nothing is said on standard error, which is a terminal or not.
pub fn dispatch<D: Disk, I: Read, O: Write, E, R: Threads + Wait + Sync>(
    rt: &R,
    alloc: Global,
    words: Result<Vec<String>, WordsFault>,
    files: &mut RunFiles<D, D::File>,
    standard: &mut Standard<I, O, E>,
) -> Ending
    ensures obeys { IfOk words (λ v. Obeys D.File.remaining I.remaining O.contents
        (D.holds files.old.disk) (D.asked files.old.disk) (D.asked files.new.disk)
        files.old.opened files.new.opened
        standard.old.input standard.new.input standard.old.output standard.new.output
        standard.old.at_terminal (Ok (map string_bytes v.items)) result) }
    ensures wordless { IfErr words (λ fault. Obeys D.File.remaining I.remaining O.contents
        (D.holds files.old.disk) (D.asked files.old.disk) (D.asked files.new.disk)
        files.old.opened files.new.opened
        standard.old.input standard.new.input standard.old.output standard.new.output
        standard.old.at_terminal (Err fault) result) }
    ensures errors { standard.new.errors ≡ standard.old.errors }
    ensures same { (other : List ℕ) → D.holds files.new.disk other ≡ D.holds files.old.disk other }
{
    match words {
        Ok(words) => obey_words(rt, alloc, words.as_slice(), files, standard),
        Err(WordsFault::NotText) => Ending::NotText,
        Err(WordsFault::Explained(text)) => Ending::Mistaken(text),
        Err(WordsFault::OutOfMemory) => Ending::Faulty(ProgramFault::Run(RunFault::Memory)),
    }
}

/// The program: it does what the words after its name ask for, and says how that ended.
///
/// Without words the script on standard input is run on the demonstration's caches. Faults come in this order: the
/// words, reading the configuration, its text, whether it has caches where that is asked for, reading the script, its
/// text, members that its ops do not need where that is asked for, the run, the writing of the report. A check of the
/// files ends before the run, and says nothing where they are fine. A replay reads the trace, counts, and writes the
/// table. A report that nobody reads any more is told by the
/// status alone.
///
/// Standard output has the report and nothing else, and nothing at all after a fault, save a prefix of the report
/// where it could not be written whole; help goes there too. The texts of help and of mistaken words are `clap`'s.
pub fn program<D: Disk, I: Read, O: Write, E: Write, R: Threads + Wait + Sync>(
    rt: &R,
    alloc: Global,
    words: Result<Vec<String>, WordsFault>,
    files: &mut RunFiles<D, D::File>,
    standard: &mut Standard<I, O, E>,
) -> Ended
    ensures ends { IfOk words (λ v. ProgramEnds D.File.remaining I.remaining O.contents E.contents
        (D.holds files.old.disk) (D.asked files.old.disk) (D.asked files.new.disk)
        files.old.opened files.new.opened
        standard.old standard.new [] (Ok (map string_bytes v.items)) result) }
    ensures wordless { IfErr words (λ fault. ProgramEnds D.File.remaining I.remaining O.contents
        E.contents (D.holds files.old.disk) (D.asked files.old.disk) (D.asked files.new.disk)
        files.old.opened files.new.opened standard.old standard.new [] (Err fault) result) }
    ensures same { (other : List ℕ) → D.holds files.new.disk other ≡ D.holds files.old.disk other }
{
    let ending = dispatch(rt, alloc, words, files, standard);
    say(&ending, "", &mut standard.output, &mut standard.errors)
}
