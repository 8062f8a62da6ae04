//! The keys of a trace.
ghost use Rattle.std.specs.Prelude.{◌≡◌, ◌≤◌, ◌+◌, IfOk, length, map};
ghost use Rattle.std.specs.List.{slice_split};
ghost use Rattle.jc_model.specs.Limits.{text_bytes};
ghost use Rattle.jc_replay.specs.Trace.{ends_trace_line, key_or_none, keys_from, trace_keys, GivesReplay};

use crate::fault::ReplayFault;
use jc_model::key::Key;
use jc_model::limits::TEXT_BYTES;
use std::alloc::{AllocError, Global};

/// The bytes between the line feeds.
fn lines_of<'a>(alloc: Global, trace: &'a [u8]) -> Result<Vec<&'a [u8]>, AllocError>
    ensures { IfOk result (λ v.
        map (λ line. line.now) v.items ≡ slice_split ends_trace_line trace.entry.now) }
{
    trace.split(|b| *b == b'\n').collect(alloc)
}

/// The key that these bytes are, if they are one.
fn read_key(line: &[u8]) -> Option<Key>
    ensures { result ≡ key_or_none line.now }
{
    match std::str::from_utf8(line) {
        Ok(text) => match Key::from_text(text) {
            Ok(key) => Some(key),
            Err(_) => None,
        },
        Err(_) => None,
    }
}

/// The keys in lines.
fn read_lines(alloc: Global, lines: &[&[u8]]) -> Result<Vec<Key>, ReplayFault>
    ensures read { GivesReplay (λ v. v.items) result (keys_from 1 (map (λ line. line.now) lines.now)) }
    ensures few { IfOk result (λ v. length v.items ≤ length lines.now) }
{
    let mut keys = Vec::new(alloc);
    for (i, line) in lines.iter().enumerate() {
        if line.is_empty() {
            continue;
        }
        let Some(key) = read_key(line) else {
            return Err(ReplayFault::BadKey { line: i + 1 });
        };
        keys.push(key)?;
    }
    Ok(keys)
}

/// The keys of a trace, one a line; an empty line is passed over.
pub(crate) fn read_trace(alloc: Global, trace: &[u8]) -> Result<Vec<Key>, ReplayFault>
    ensures read { GivesReplay (λ v. v.items) result (trace_keys trace.now) }
    ensures few { IfOk result (λ v. length v.items ≤ text_bytes + 1) }
{
    if trace.len() > TEXT_BYTES {
        return Err(ReplayFault::TooLong);
    }
    let lines = lines_of(alloc, trace)?;
    read_lines(alloc, lines.as_slice())
}
