//! How a mistake in the words is told.
ghost use Rattle.std.specs.Prelude.{◌≡◌, IfOk, string_bytes};
ghost use Rattle.jc_cli.specs.Note.{TellsMistake};
ghost use Rattle.jc_cli.specs.Program.{asks_to_explain, texts_lent};

use crate::explain::{explains, first_explain};
use crate::note::note_on;
use clap::Error;
use std::alloc::{AllocError, Global};

/// What `clap` writes before a mistake.
const BEFORE: &str = "error: ";

/// Whether the words ask for explanations, also where they are mistaken; standard error is a terminal or not.
pub fn asks_to_explain(words: &[&str], at_terminal: bool) -> bool
    ensures { result ≡ asks_to_explain at_terminal (texts_lent words.now) }
{
    explains(first_explain(words), at_terminal)
}

/// What `clap` writes of a mistake, without what it writes before it.
fn clap_text(alloc: Global, error: &Error) -> Result<String, AllocError> {
    let text = error.to_string(alloc)?;
    match text.as_str().strip_prefix(BEFORE) {
        Some(rest) => String::from_str(alloc, rest),
        None => Ok(text),
    }
}

/// What a mistake in these words is told by: the note on it, where there is one, else what `clap` writes.
pub fn mistake_text(alloc: Global, words: &[&str], error: &Error) -> Result<String, AllocError>
    ensures { IfOk result (λ s. TellsMistake (texts_lent words.now) (string_bytes s)) }
{
    let note = note_on(alloc, words)?;
    if note.is_empty() {
        return clap_text(alloc, error);
    }
    Ok(note)
}
