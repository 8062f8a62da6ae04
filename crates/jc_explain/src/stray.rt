//! What strictness refuses in a line.
ghost use Rattle.std.specs.Prelude.{◌≡◌, IfOk, string_bytes};
ghost use Rattle.serde_json.specs.View.{view};
ghost use Rattle.jc_script.specs.Twice.{member_twice};
ghost use Rattle.jc_explain.specs.Other.{other_in};
ghost use Rattle.jc_explain.specs.Stray.{twice_member_line, stray_line_by, stray_piece_line, stray_line};

use crate::lines::show_text;
use crate::other::other_in;
use crate::script::{other_line, piece_at};
use jc_script::{member_twice, read_json};
use serde_json::Value;
use std::alloc::{AllocError, Global};

/// The line of the first member that stands twice, if one does.
fn twice_member_line(alloc: Global, piece: &[u8]) -> Result<String, AllocError>
    ensures { IfOk result (λ s. string_bytes s ≡ twice_member_line (member_twice piece.now)) }
{
    match member_twice(alloc, piece)? {
        Some(name) => {
            let shown = show_text(alloc, name.as_str())?;
            format!(in alloc; "  the member {shown} is there twice\n")
        }
        None => Ok(String::new(alloc)),
    }
}

fn stray_line(alloc: Global, line: &Value, piece: &[u8]) -> Result<String, AllocError>
    ensures { IfOk result (λ s. string_bytes s
        ≡ stray_line_by (other_in (view line.now)) (member_twice piece.now)) }
{
    if other_in(line).is_some() {
        return other_line(alloc, line);
    }
    twice_member_line(alloc, piece)
}

fn stray_piece_line(alloc: Global, piece: &[u8]) -> Result<String, AllocError>
    ensures { IfOk result (λ s. string_bytes s ≡ stray_piece_line piece.now) }
{
    match read_json(alloc, piece)? {
        Some(line) => stray_line(alloc, &line, piece),
        None => Ok(String::new(alloc)),
    }
}

/// The line that names a member which the op of this line does not need, else one that stands twice, by the line's
/// number.
pub fn explain_stray(alloc: Global, bytes: &[u8], line: usize) -> Result<String, AllocError>
    ensures { IfOk result (λ s. string_bytes s ≡ stray_line line bytes.now) }
{
    match piece_at(alloc, bytes, line)? {
        Some(piece) => stray_piece_line(alloc, piece),
        None => Ok(String::new(alloc)),
    }
}
