//! Words of which one is no text.
ghost use Rattle.std.specs.Prelude.{◌≡◌, ◌++◌, IfOk, OnOk, option_map, string_bytes};
ghost use Rattle.jc_cli.specs.NoText.{bytes_shown, word_shown, no_text_from, told_of_word, no_text_mistake};
ghost use Rattle.jc_cli.specs.Program.{texts_lent};

use crate::explain::{explains, first_explain_in};
use std::alloc::{AllocError, Global};

/// Adds each byte as `\x` and its hexadecimal digits.
fn push_bytes(text: &mut String, bytes: &[u8]) -> Result<(), AllocError>
    ensures { OnOk result (string_bytes text.new ≡ string_bytes text.old ++ bytes_shown bytes.now) }
{
    for byte in bytes {
        write!(text, "\\x{:x}", *byte)?;
    }
    Ok(())
}

/// A word as text, its bytes that are no UTF-8 by their digits.
fn show_word(alloc: Global, word: &[u8]) -> Result<String, AllocError>
    ensures { IfOk result (λ s. string_bytes s ≡ word_shown word.now) }
{
    let mut text = String::new(alloc);
    for chunk in word.utf8_chunks() {
        text.push_str(chunk.valid())?;
        push_bytes(&mut text, chunk.invalid())?;
    }
    Ok(text)
}

/// The first word that is not UTF-8, and its place, counted from 1.
fn first_no_text<'a>(words: &[&'a [u8]]) -> Option<(usize, &'a [u8])>
    ensures { option_map (λ p. (p.0, p.1.now)) result ≡ no_text_from 1 (texts_lent words.now) }
{
    for i in 0..words.len() {
        match str::from_utf8(words[i]) {
            Ok(_) => continue,
            Err(_) => return Some((i + 1, words[i])),
        }
    }
    None
}

fn told_of(alloc: Global, place: usize, word: &[u8]) -> Result<String, AllocError>
    ensures { IfOk result (λ s. string_bytes s ≡ told_of_word (place, word.now)) }
{
    let shown = show_word(alloc, word)?;
    format!(in alloc; "a word is not UTF-8\n  word {place} is '{shown}'\n")
}

/// What is told, without the program's name, of words that ask for explanations and of which one is not UTF-8: which it
/// is. Nothing of other words.
pub fn no_text_mistake(
    alloc: Global,
    words: &[&[u8]],
    at_terminal: bool,
) -> Result<Option<String>, AllocError>
    ensures { IfOk result (λ told.
        option_map string_bytes told ≡ no_text_mistake at_terminal (texts_lent words.now)) }
{
    if !explains(first_explain_in(words), at_terminal) {
        return Ok(None);
    }
    match first_no_text(words) {
        Some((place, word)) => Ok(Some(told_of(alloc, place, word)?)),
        None => Ok(None),
    }
}
