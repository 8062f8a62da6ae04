//! The lines of an explanation, each below the fault's line and two blanks in.
ghost use Rattle.std.specs.Prelude.{◌≡◌, ◌++◌, IfOk, string_bytes};
ghost use Rattle.json.specs.Print.{quoted};
ghost use Rattle.jc_explain.specs.Lines.{text_shown, suggestion, member_line, missing_line, unknown_line, no_member_line, plain_line};
ghost use Rattle.jc_explain.specs.Words.{word_lent};

use serde_json::Value;
use std::alloc::{AllocError, Global};

/// A text as a JSON string.
fn quote(alloc: Global, text: &str) -> Result<String, AllocError>
    ensures { IfOk result (λ s. string_bytes s ≡ quoted text.now) }
{
    Value::String(String::from_str(alloc, text)?).to_string(alloc)
}

/// A text as a JSON string, if it has at most 63 bytes; of a longer one, how many it has.
pub fn show_text(alloc: Global, text: &str) -> Result<String, AllocError>
    ensures { IfOk result (λ s. string_bytes s ≡ text_shown text.now) }
{
    if text.len() > 63 {
        return format!(in alloc; "a string of {} bytes", text.len());
    }
    quote(alloc, text)
}

/// What is asked about the nearest word.
pub fn suggest(alloc: Global, near: Option<&str>) -> Result<String, AllocError>
    ensures { IfOk result (λ s. string_bytes s ≡ suggestion (word_lent near.entry)) }
{
    match near {
        Some(word) => format!(in alloc; "; did you mean \"{word}\"?"),
        None => Ok(String::new(alloc)),
    }
}

/// A member that is there: what it is, and what it has to be.
pub fn member_line(
    alloc: Global,
    member: &str,
    shown: &str,
    allowed: &str,
    suggestion: &str,
) -> Result<String, AllocError>
    ensures { IfOk result (λ s.
        string_bytes s ≡ member_line member.now shown.now allowed.now suggestion.now) }
{
    format!(in alloc; "  \"{member}\" is {shown}; it has to be {allowed}{suggestion}\n")
}

/// A member that is not there, and what it has to be.
pub fn missing_line(alloc: Global, member: &str, allowed: &str) -> Result<String, AllocError>
    ensures { IfOk result (λ s. string_bytes s ≡ missing_line member.now allowed.now) }
{
    format!(in alloc; "  \"{member}\" is missing; it has to be {allowed}\n")
}

/// A member that no table has.
pub fn unknown_line(alloc: Global, shown: &str, suggestion: &str) -> Result<String, AllocError>
    ensures { IfOk result (λ s. string_bytes s ≡ unknown_line shown.now suggestion.now) }
{
    format!(in alloc; "  unknown member {shown}{suggestion}\n")
}

/// A member of a line that the line's op does not have.
pub fn no_member_line(alloc: Global, shown: &str, suggestion: &str) -> Result<String, AllocError>
    ensures { IfOk result (λ s. string_bytes s ≡ no_member_line shown.now suggestion.now) }
{
    format!(in alloc; "  the op has no member {shown}{suggestion}\n")
}

/// A line of this text.
pub fn plain_line(alloc: Global, text: &str) -> Result<String, AllocError>
    ensures { IfOk result (λ s. string_bytes s ≡ plain_line text.now) }
{
    format!(in alloc; "  {text}\n")
}

/// One text behind the other.
pub fn join(alloc: Global, first: &String, second: &String) -> Result<String, AllocError>
    ensures { IfOk result (λ s. string_bytes s ≡ string_bytes first.now ++ string_bytes second.now) }
{
    format!(in alloc; "{first}{second}")
}
