//! When faults are explained.
ghost use Rattle.std.specs.Prelude.{◌≡◌, IfOk, MatchOption};
ghost use Rattle.jc_cli.specs.Program.{explains, explain_text, NamesExplain, NamesNoExplain, SaysNoExplain, first_explain, says_explain, rows_in_matches, texts_lent, whole_form, written_out};

use crate::run::Explain;
use clap::ArgMatches;
use std::alloc::{AllocError, Global};

/// The word that asks for explanations, and what it is short for.
const BRIEF: &str = "--explain";

const WHOLE: &str = "--explain=always";

/// The word that asks for none.
const NEVER: &str = "--explain=never";

/// Behind this word all words are paths.
const END_OF_OPTIONS: &str = "--";

/// Whether a fault is explained, where standard error is a terminal or not.
pub fn explains(explain: Explain, at_terminal: bool) -> bool
    ensures { result ≡ explains at_terminal explain }
{
    match explain {
        Explain::Always => true,
        Explain::Never => false,
        Explain::Auto => at_terminal,
    }
}

/// What that text stands for.
fn read_explain(text: &str) -> Option<Explain>
    ensures { MatchOption result (SaysNoExplain text.now)
        (λ explain. text.now ≡ explain_text explain) }
{
    match text {
        "always" => Some(Explain::Always),
        "never" => Some(Explain::Never),
        "auto" => Some(Explain::Auto),
        _ => None,
    }
}

/// When the matches ask for explanations.
pub(crate) fn explain_in(matches: &ArgMatches<'_>) -> Option<Explain>
    ensures { MatchOption result (NamesNoExplain (rows_in_matches matches.now))
        (NamesExplain (rows_in_matches matches.now)) }
{
    match matches.get_str("explain") {
        Some(text) => read_explain(text),
        None => None,
    }
}

/// What a word says of explanations, if it does.
fn says_explain(word: &[u8]) -> Option<Explain>
    ensures { result ≡ says_explain word.now }
{
    if word == BRIEF.as_bytes() || word == WHOLE.as_bytes() {
        Some(Explain::Always)
    } else if word == NEVER.as_bytes() {
        Some(Explain::Never)
    } else {
        None
    }
}

/// What the first of the words says that speaks of explanations.
pub(crate) fn first_explain(words: &[&str]) -> Explain
    ensures { result ≡ first_explain (texts_lent words.now) }
{
    match words {
        [] => Explain::Auto,
        [word, rest @ ..] => match says_explain(word.as_bytes()) {
            Some(explain) => explain,
            None => first_explain(rest),
        },
    }
}

/// The same of words that need not be text.
pub(crate) fn first_explain_in(words: &[&[u8]]) -> Explain
    ensures { result ≡ first_explain (texts_lent words.now) }
{
    match words {
        [] => Explain::Auto,
        [word, rest @ ..] => match says_explain(word) {
            Some(explain) => explain,
            None => first_explain_in(rest),
        },
    }
}

fn whole_form(word: &str) -> &str
    ensures { result.now ≡ whole_form word.now }
{
    if word == BRIEF { WHOLE } else { word }
}

/// The words with `--explain` written out. Words behind `--` are paths.
pub(crate) fn written_out<'a>(alloc: Global, words: &[&'a str]) -> Result<Vec<&'a str>, AllocError>
    ensures { IfOk result (λ v. texts_lent v.items ≡ written_out (texts_lent words.now)) }
{
    let mut written = Vec::new(alloc);
    for (i, word) in words.iter().enumerate() {
        if *word == END_OF_OPTIONS {
            written.extend_from_slice(&words[i..])?;
            return Ok(written);
        }
        written.push(whole_form(word))?;
    }
    Ok(written)
}
