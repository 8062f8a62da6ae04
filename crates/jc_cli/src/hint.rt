//! Mistaken words without a hint that is far off.
ghost use Rattle.std.specs.Prelude.{◌≡◌, IfOk, IfSome};
ghost use Rattle.clap.specs.Words.{kind_of};

use crate::command::program;
use clap::Error;
use clap::error::ErrorKind;
use std::alloc::{AllocError, Global};
use strsim::levenshtein;

/// The most edits that lead from a word to one that is hinted at.
const MOST_EDITS: usize = 2;

/// What stands in quotes behind these words, if they stand in a text.
fn quoted_behind<'a>(text: &'a str, words: &str) -> Option<&'a str> {
    let (_, behind) = text.split_once(words)?;
    let (quoted, _) = behind.split_once("'")?;
    Some(quoted)
}

/// An argument that is not known, and the one that a text hints at in its place.
fn hint_in(text: &str) -> Option<(&str, &str)> {
    let unknown = quoted_behind(text, "unexpected argument '")?;
    let near = quoted_behind(text, "a similar argument exists: '")?;
    Some((unknown, near))
}

/// A mistake without its hint, where that is far off.
fn unhinted(alloc: Global, error: &Error) -> Result<Option<Error>, AllocError>
    ensures { IfOk result (λ other. IfSome other (λ e. kind_of e ≡ ErrorKind.UnknownArgument)) }
{
    let text = error.to_string(alloc)?;
    let Some((unknown, near)) = hint_in(text.as_str()) else {
        return Ok(None);
    };
    if levenshtein(alloc, unknown, near)? <= MOST_EDITS {
        return Ok(None);
    }
    let message = format!(in alloc; "unexpected argument '{unknown}' found")?;
    let mut command = program(alloc)?;
    Ok(Some(command.error(ErrorKind::UnknownArgument, message.as_str())?))
}

/// A refusal of words, without a hint at an argument that is more than two edits away from the one that is not known. It
/// is of the same kind.
pub(crate) fn without_far_hint(alloc: Global, error: Error) -> Error
    ensures { kind_of result ≡ kind_of error }
{
    match error.kind() {
        ErrorKind::UnknownArgument => match unhinted(alloc, &error) {
            Ok(Some(other)) => other,
            Ok(None) | Err(_) => error,
        },
        _ => error,
    }
}
