//! The known word nearest to one that is not known.
ghost use Rattle.std.specs.Prelude.{◌≡◌, IfOk};
ghost use Rattle.jc_explain.specs.Spelling.{close, nearest};
ghost use Rattle.jc_explain.specs.Words.{word_lent, words_lent};

use std::alloc::{AllocError, Global};
use strsim::levenshtein;

/// The first of the known words that so many edits make of the word, or fewer.
fn close<'a>(
    alloc: Global,
    word: &str,
    known: &[&'a str],
    edits: usize,
) -> Result<Option<&'a str>, AllocError>
    ensures { IfOk result (λ near. word_lent near ≡ close edits word.now (words_lent known.now)) }
{
    for name in known {
        if levenshtein(alloc, word, name)? <= edits {
            return Ok(Some(name));
        }
    }
    Ok(None)
}

/// The known word that is nearest: the first that is one edit away, else the first that is two edits away. Words of one
/// byte and of more than 63 have none, and those of fewer than four none at two edits.
pub fn nearest<'a>(
    alloc: Global,
    word: &str,
    known: &[&'a str],
) -> Result<Option<&'a str>, AllocError>
    ensures { IfOk result (λ near. word_lent near ≡ nearest word.now (words_lent known.now)) }
{
    if word.len() < 2 || word.len() > 63 {
        return Ok(None);
    }
    let near = close(alloc, word, known, 1)?;
    if near.is_some() || word.len() < 4 {
        return Ok(near);
    }
    close(alloc, word, known, 2)
}
