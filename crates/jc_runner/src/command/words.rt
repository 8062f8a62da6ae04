//! The words of the command line, as the machine hands them over.
ghost use Rattle.std.specs.Prelude.{◌≡◌, ◌≢◌, ◌⊎◌, IfErr};
ghost use Rattle.std.specs.IoError.{error_kind};
ghost use Rattle.jc_runner.specs.Given.{IsOfNoText};

use crate::files::disk::is_of_memory;
use jc_cli::{WordsFault, told_of_words};
use std::env;
use std::env::Env;
use std::io::{Error, ErrorKind};

/// The fault of words of which one is no text.
fn no_text<R: Env + AllocGlobal>(rt: &R, at_terminal: bool) -> WordsFault
    ensures { IsOfNoText result }
{
    match told_of_words(rt, at_terminal) {
        Ok(Some(text)) => WordsFault::Explained(text),
        _ => WordsFault::NotText,
    }
}

/// The fault of words that the machine does not hand over.
fn words_fault<R: Env + AllocGlobal>(rt: &R, error: &Error, at_terminal: bool) -> WordsFault
    ensures memory { error_kind error.now ≡ ErrorKind.OutOfMemory
        → result ≡ WordsFault.OutOfMemory }
    ensures others { error_kind error.now ≢ ErrorKind.OutOfMemory → IsOfNoText result }
{
    if is_of_memory(error) {
        WordsFault::OutOfMemory
    } else {
        no_text(rt, at_terminal)
    }
}

/// The words after the program's name. Nothing is known of what the machine hands over, so no clause says what they are.
/// Where one is no text and they ask for explanations, what is told is the definition's text for some words: that these
/// are the machine's is by this code alone. Standard error is a terminal or not.
pub fn words_of<R: Env + AllocGlobal>(rt: &R, at_terminal: bool) -> Result<Vec<String>, WordsFault>
    ensures { IfErr result (λ fault. (fault ≡ WordsFault.OutOfMemory) ⊎ IsOfNoText fault) }
{
    match env::args(rt) {
        Ok(arguments) => match arguments.skip(1).collect(rt.alloc()) {
            Ok(words) => Ok(words),
            Err(_) => Err(WordsFault::OutOfMemory),
        },
        Err(error) => Err(words_fault(rt, &error, at_terminal)),
    }
}
