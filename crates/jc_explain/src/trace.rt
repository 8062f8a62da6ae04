//! Explanations of a trace's faults.
ghost use Rattle.std.specs.Prelude.{◌≡◌, IfOk, string_bytes};
ghost use Rattle.jc_explain.specs.Trace.{key_line, text_or_not};

use crate::lines::show_text;
use crate::script::piece_at;
use std::alloc::{AllocError, Global};

fn text_or_not(alloc: Global, piece: &[u8]) -> Result<String, AllocError>
    ensures { IfOk result (λ s. string_bytes s ≡ text_or_not piece.now) }
{
    match std::str::from_utf8(piece) {
        Ok(text) => show_text(alloc, text),
        Err(_) => String::from_str(alloc, "not UTF-8"),
    }
}

/// The line that explains why a line of a trace, by its number, is no key; these are the trace's bytes.
pub fn explain_key(alloc: Global, bytes: &[u8], line: usize) -> Result<String, AllocError>
    ensures { IfOk result (λ s. string_bytes s ≡ key_line line bytes.now) }
{
    match piece_at(alloc, bytes, line)? {
        Some(piece) => {
            let shown = text_or_not(alloc, piece)?;
            format!(in alloc; "  the line is {shown}; it has to be a key, 1 to 63 bytes of UTF-8\n")
        }
        None => Ok(String::new(alloc)),
    }
}
