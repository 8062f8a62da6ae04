//! What a whole file looks like that is not what it has to be.
ghost use Rattle.std.specs.Prelude.{◌≡◌, IfOk, is_some, string_bytes};
ghost use Rattle.jc_config.specs.Config.{document_of};
ghost use Rattle.jc_explain.specs.Shape.{first_mark, begins_by, is_blank, config_shape, script_shape};

use crate::lines::plain_line;
use jc_config::read_document;
use std::alloc::{AllocError, Global};

fn is_blank(byte: u8) -> bool
    ensures { result ≡ is_blank byte }
{
    byte == b' ' || byte == b'\t' || byte == b'\n' || byte == b'\r'
}

/// The first byte that is not blank.
fn first_mark(bytes: &[u8]) -> Option<u8>
    ensures { result ≡ first_mark bytes.now }
{
    for byte in bytes {
        if !is_blank(*byte) {
            return Some(*byte);
        }
    }
    None
}

/// Whether that byte is this one.
fn begins_by(bytes: &[u8], mark: u8) -> bool
    ensures { result ≡ begins_by mark (first_mark bytes.now) }
{
    match first_mark(bytes) {
        None => false,
        Some(byte) => byte == mark,
    }
}

/// The line of a configuration that looks like a script.
pub fn config_shape(alloc: Global, bytes: &[u8]) -> Result<String, AllocError>
    ensures { IfOk result (λ s. string_bytes s ≡ config_shape bytes.now) }
{
    if begins_by(bytes, b'{') {
        return plain_line(
            alloc,
            "this looks like a script; the configuration comes first, then the script",
        );
    }
    Ok(String::new(alloc))
}

fn is_document(alloc: Global, bytes: &[u8]) -> Result<bool, AllocError>
    ensures { IfOk result (λ is. is ≡ is_some (document_of bytes.now)) }
{
    match read_document(alloc, bytes)? {
        Some(_) => Ok(true),
        None => Ok(false),
    }
}

/// The line of a script that is a configuration, or that has a list around its lines.
pub fn script_shape(alloc: Global, bytes: &[u8]) -> Result<String, AllocError>
    ensures { IfOk result (λ s. string_bytes s ≡ script_shape bytes.now) }
{
    if is_document(alloc, bytes)? {
        return plain_line(
            alloc,
            "this is a configuration; it comes first, then the script",
        );
    }
    if begins_by(bytes, b'[') {
        return plain_line(
            alloc,
            "a script is an object a line, with no list around the lines",
        );
    }
    Ok(String::new(alloc))
}
