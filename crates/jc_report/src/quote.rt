//! Keys and values as text.
ghost use Rattle.std.specs.Prelude.{◌≡◌, IfOk, OnOk, string_bytes};
ghost use Rattle.json.specs.Print.{quoted};
ghost use Rattle.jc_report.specs.Report.{bytes_text, Appends};

use serde_json::Value;
use std::alloc::{AllocError, Global};

/// A text as a JSON string.
pub fn quote_text(alloc: Global, text: &str) -> Result<String, AllocError>
    ensures { IfOk result (λ s. string_bytes s ≡ quoted text.now) }
{
    Value::String(String::from_str(alloc, text)?).to_string(alloc)
}

/// Bytes as a JSON string, and as hexadecimal digits where they are no text.
fn show(alloc: Global, bytes: &[u8]) -> Result<String, AllocError>
    ensures { IfOk result (λ s. string_bytes s ≡ bytes_text bytes.now) }
{
    match std::str::from_utf8(bytes) {
        Ok(text) => quote_text(alloc, text),
        Err(_) => {
            let mut shown = String::from_str(alloc, "hex:")?;
            shown.push_str(hex::encode(alloc, bytes)?.as_str())?;
            Ok(shown)
        }
    }
}

/// Adds the text of a key or a value.
pub fn push_bytes(alloc: Global, text: &mut String, bytes: &[u8]) -> Result<(), AllocError>
    ensures { OnOk result (Appends (bytes_text bytes.now) text.old text.new) }
{
    text.push_str(show(alloc, bytes)?.as_str())
}
