//! The words of the command line as bytes.
ghost use Rattle.std.specs.Prelude.{◌≡◌, IfOk, IfSome, string_bytes};
ghost use Rattle.jc_cli.specs.NoText.{IsToldOfWords};

use crate::no_text::no_text_mistake;
use std::alloc::AllocError;
use std::env::{Env, FillError};

/// The bytes of the word at a place, where there is one; the program's name is at 0.
fn word_at<R: Env + AllocGlobal>(rt: &R, place: usize) -> Result<Option<Vec<u8>>, AllocError> {
    let mut bytes = Vec::new(rt.alloc());
    let mut room: usize = 256;
    for _ in 0..usize::BITS {
        bytes.resize(room, 0)?;
        match rt.arg(place, bytes.as_mut_slice()) {
            Ok(length) => {
                bytes.truncate(length);
                return Ok(Some(bytes));
            }
            Err(FillError::NotPresent) => return Ok(None),
            Err(FillError::TooLong) => room = room.saturating_add(room),
        }
    }
    Err(AllocError)
}

/// The bytes of the words after the program's name.
fn raw_words<R: Env + AllocGlobal>(rt: &R) -> Result<Vec<Vec<u8>>, AllocError> {
    let mut words = Vec::new(rt.alloc());
    for place in 1..usize::MAX {
        match word_at(rt, place)? {
            Some(word) => words.push(word)?,
            None => break,
        }
    }
    Ok(words)
}

/// What is told, without the program's name, of the machine's words, where they ask for explanations and one is no text.
///
/// Nothing is known of what the machine hands over: that the words of the clause are the machine's is by this code alone.
pub fn told_of_words<R: Env + AllocGlobal>(
    rt: &R,
    at_terminal: bool,
) -> Result<Option<String>, AllocError>
    ensures { IfOk result (λ told. IfSome told (λ s. IsToldOfWords (string_bytes s))) }
{
    let words = raw_words(rt)?;
    let mut bytes = Vec::new(rt.alloc());
    for word in &words {
        bytes.push(word.as_slice())?;
    }
    no_text_mistake(rt.alloc(), bytes.as_slice(), at_terminal)
}
