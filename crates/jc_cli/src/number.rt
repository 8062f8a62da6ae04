//! Numbers below 0 behind an option, of which `clap` says that they are no words that it knows.
ghost use Rattle.std.specs.Prelude.{◌≡◌, IfOk, option_map, string_bytes};
ghost use Rattle.std.specs.List.{list_any};
ghost use Rattle.jc_cli.specs.Number.{limits_of, is_above_zero, is_below_zero, first_below_zero, number_line, note_among};
ghost use Rattle.jc_cli.specs.Program.{texts_lent};

use std::alloc::{AllocError, Global};

/// The numbers that an option takes, if it takes one.
fn limits_of(option: &str) -> Option<&'static str>
    ensures { option_map (λ limits. limits.now) result ≡ limits_of option.now }
{
    match option {
        "--workers" => Some("1..=8"),
        "--seed" => Some("0..=9223372036854775807"),
        _ => None,
    }
}

/// Whether one of the bytes is a digit other than 0.
fn has_value(bytes: &[u8]) -> bool
    ensures { result ≡ list_any is_above_zero bytes.now }
{
    for byte in bytes {
        if b'1' <= *byte && *byte <= b'9' {
            return true;
        }
    }
    false
}

/// Whether a word begins as a number below 0.
fn is_below_zero(word: &str) -> bool
    ensures { result ≡ is_below_zero word.now }
{
    match word.as_bytes() {
        [sign, digits @ ..] => {
            *sign == b'-' && digits.first().is_some_and(u8::is_ascii_digit) && has_value(digits)
        }
        [] => false,
    }
}

fn first_below_zero<'a>(words: &[&'a str]) -> Option<&'a str>
    ensures { option_map (λ word. word.now) result ≡ first_below_zero (texts_lent words.now) }
{
    match words {
        [word, ..] => {
            if is_below_zero(word) {
                Some(word)
            } else {
                None
            }
        }
        [] => None,
    }
}

fn number_line(
    alloc: Global,
    option: &str,
    number: &str,
    limits: &str,
) -> Result<String, AllocError>
    ensures { IfOk result (λ s. string_bytes s ≡ number_line option.now number.now limits.now) }
{
    format!(in alloc; "invalid value '{number}' for '{option} <N>': {number} is not in {limits}\n")
}

/// The line of the first option that takes a number and has one below 0 behind it; words behind `--` are paths.
pub(crate) fn note_among(alloc: Global, words: &[&str]) -> Result<String, AllocError>
    ensures { IfOk result (λ s. string_bytes s ≡ note_among (texts_lent words.now)) }
{
    match words {
        [] => Ok(String::new(alloc)),
        [option, rest @ ..] => {
            if *option == "--" {
                return Ok(String::new(alloc));
            }
            if let Some(limits) = limits_of(option) {
                if let Some(number) = first_below_zero(rest) {
                    return number_line(alloc, option, number, limits);
                }
            }
            note_among(alloc, rest)
        }
    }
}
