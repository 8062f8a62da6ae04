//! What is told of mistaken words in place of what `clap` says of them, which does not name what was meant.
ghost use Rattle.std.specs.Prelude.{◌≡◌, IfOk, option_map, string_bytes};
ghost use Rattle.std.specs.List.{list_any};
ghost use Rattle.jc_cli.specs.Note.{is_mark_of_path, is_like_path, run_hint, first_word, list_in, capacities_in, capacity_line, NotesParts, NotesList, NotesOn};
ghost use Rattle.jc_cli.specs.Program.{texts_lent};

use crate::capacities::{parts_of, read_capacity};
use crate::number::note_among;
use std::alloc::{AllocError, Global};

/// Whether one of the bytes is a dot or a slash.
fn has_mark_of_path(bytes: &[u8]) -> bool
    ensures { result ≡ list_any is_mark_of_path bytes.now }
{
    for byte in bytes {
        if *byte == b'.' || *byte == b'/' {
            return true;
        }
    }
    false
}

/// Whether a word that stands in a subcommand's place is like a path.
fn is_like_path(word: &str) -> bool
    ensures { result ≡ is_like_path word.now }
{
    match word.as_bytes() {
        [] => false,
        [first, ..] => *first != b'-' && has_mark_of_path(word.as_bytes()),
    }
}

/// What is told of a path in a subcommand's place.
fn run_hint(alloc: Global, word: &str) -> Result<String, AllocError>
    ensures { IfOk result (λ s. string_bytes s ≡ run_hint word.now) }
{
    if !is_like_path(word) {
        return Ok(String::new(alloc));
    }
    format!(in alloc; "unrecognized subcommand '{word}'; did you mean 'jcache run {word} ..'?\n")
}

/// The list behind the option in its own word.
fn list_in(word: &str) -> Option<&str>
    ensures { option_map (λ list. list.now) result ≡ list_in word.now }
{
    word.strip_prefix("--capacity=")
}

fn first_word<'a>(words: &[&'a str]) -> Option<&'a str>
    ensures { option_map (λ word. word.now) result ≡ first_word (texts_lent words.now) }
{
    match words {
        [] => None,
        [word, ..] => Some(word),
    }
}

/// The list of capacities, in its option's word or the next.
fn capacities_in<'a>(words: &[&'a str]) -> Option<&'a str>
    ensures { option_map (λ list. list.now) result ≡ capacities_in (texts_lent words.now) }
{
    match words {
        [] => None,
        [word, rest @ ..] => {
            if *word == "--" {
                return None;
            }
            if *word == "--capacity" {
                return first_word(rest);
            }
            match list_in(word) {
                Some(list) => Some(list),
                None => capacities_in(rest),
            }
        }
    }
}

fn capacity_line(alloc: Global, part: &str) -> Result<String, AllocError>
    ensures { IfOk result (λ s. string_bytes s ≡ capacity_line part.now) }
{
    format!(in alloc;
        "invalid value '{part}' for '--capacity <LIST>': not a whole number in 1..=65536\n"
    )
}

fn note_parts(alloc: Global, parts: &[&str]) -> Result<String, AllocError>
    ensures { IfOk result (λ s. NotesParts (texts_lent parts.now) (string_bytes s)) }
{
    for part in parts {
        if read_capacity(part).is_none() {
            return capacity_line(alloc, part);
        }
    }
    Ok(String::new(alloc))
}

/// What is told of capacities that are none.
fn capacity_note(alloc: Global, words: &[&str]) -> Result<String, AllocError>
    ensures { IfOk result (λ s. NotesList (capacities_in (texts_lent words.now)) (string_bytes s)) }
{
    match capacities_in(words) {
        None => Ok(String::new(alloc)),
        Some(list) => {
            let parts = parts_of(alloc, list)?;
            note_parts(alloc, parts.as_slice())
        }
    }
}

/// The note on a number below 0 behind an option of `run`, on a capacity, or on a subcommand that is left out; nothing
/// where the words have none of these mistakes.
pub(crate) fn note_on(alloc: Global, words: &[&str]) -> Result<String, AllocError>
    ensures { IfOk result (λ s. NotesOn (texts_lent words.now) (string_bytes s)) }
{
    match words {
        [] => Ok(String::new(alloc)),
        [word, rest @ ..] => match *word {
            "run" => note_among(alloc, rest),
            "replay" => capacity_note(alloc, rest),
            _ => run_hint(alloc, word),
        },
    }
}
