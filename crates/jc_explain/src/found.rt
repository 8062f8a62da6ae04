//! What a member is, shown in a line.
ghost use Rattle.std.specs.Prelude.{◌≡◌, IfOk, string_bytes};
ghost use Rattle.toml.specs.View.{view as toml_view};
ghost use Rattle.serde_json.specs.View.{view as json_view};
ghost use Rattle.jc_explain.specs.Found.{toml_shown, toml_kind, json_shown, json_kind, written_shown};
ghost use Rattle.jc_explain.specs.Words.{word_lent};

use crate::lines::show_text;
use std::alloc::{AllocError, Global};

/// A value of a configuration: a short text or a whole number as it is, anything else by its kind.
pub fn show_toml(alloc: Global, value: &toml::Value) -> Result<String, AllocError>
    ensures { IfOk result (λ s. string_bytes s ≡ toml_shown (toml_view value.now)) }
{
    if let Some(text) = value.as_str() {
        return show_text(alloc, text);
    }
    if let Some(number) = value.as_integer() {
        return format!(in alloc; "{number}");
    }
    String::from_str(alloc, toml_kind(value))
}

/// The kind of a value that is neither a text nor a whole number.
fn toml_kind(value: &toml::Value) -> &'static str
    ensures { result.now ≡ toml_kind (toml_view value.now) }
{
    if value.is_bool() {
        "true or false"
    } else if value.is_float() {
        "a number with a fraction"
    } else if value.is_array() {
        "a list"
    } else if value.is_table() {
        "a table"
    } else {
        "a date or a time"
    }
}

/// A value of a script, in the same way.
pub fn show_json(alloc: Global, value: &serde_json::Value) -> Result<String, AllocError>
    ensures { IfOk result (λ s. string_bytes s ≡ json_shown (json_view value.now)) }
{
    if let Some(text) = value.as_str() {
        return show_text(alloc, text);
    }
    if let Some(number) = value.as_u64() {
        return format!(in alloc; "{number}");
    }
    if let Some(number) = value.as_i64() {
        return format!(in alloc; "{number}");
    }
    String::from_str(alloc, json_kind(value))
}

/// A value of a script, or the number that it is as it is written there, where that is short.
pub fn show_written(
    alloc: Global,
    value: &serde_json::Value,
    written: Option<&str>,
) -> Result<String, AllocError>
    ensures { IfOk result (λ s. string_bytes s
        ≡ written_shown (word_lent written.entry) (json_view value.now)) }
{
    match written {
        None => show_json(alloc, value),
        Some(text) => {
            if text.len() > 63 {
                return show_json(alloc, value);
            }
            String::from_str(alloc, text)
        }
    }
}

/// The kind of a value that is neither a text nor a whole number.
fn json_kind(value: &serde_json::Value) -> &'static str
    ensures { result.now ≡ json_kind (json_view value.now) }
{
    if value.is_boolean() {
        "true or false"
    } else if value.is_number() {
        "a number with a fraction"
    } else if value.is_array() {
        "a list"
    } else if value.is_object() {
        "an object"
    } else {
        "null"
    }
}
