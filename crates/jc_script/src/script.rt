//! A whole script.
ghost use Rattle.std.specs.Prelude.{◌≡◌, ◌<◌, ◌∷◌, length, map, IfSome, IfOk};
ghost use Rattle.std.specs.List.{slice_split, list_all};
ghost use Rattle.jc_model.specs.Runs.{opened_from};
ghost use Rattle.jc_script.specs.Faults.{GivesScript};
ghost use Rattle.jc_script.specs.Line.{line_of, on_cache};
ghost use Rattle.jc_script.specs.Live.{lives_in};
ghost use Rattle.jc_script.specs.Named.{AllName};
ghost use Rattle.jc_script.specs.Script.{is_feed, is_blank, pieces_after, piece_of, lines};
ghost use Rattle.jc_script.specs.Reading.{Reads};

use crate::creating::read_create;
use crate::fault::ScriptFault;
use crate::line::{Line, LineCall};
use crate::live::{Live, read_cache};
use crate::member::Reader;
use crate::object::read_object;
use crate::operation::read_call;
use jc_config::Settings;
use jc_model::event::CacheId;
use jc_model::limits::TEXT_BYTES;
use json::Scratch;
use memchr::memchr;
use std::alloc::{AllocError, Global};

/// The line of a session that names a live cache.
#[tactic(auto, unfolding(crate::specs::Line::on_cache, crate::specs::Line::calling))]
fn read_on_cache(live: &Live, reader: &Reader<'_, '_>, session: u32) -> Result<Line, ScriptFault>
    ensures { Reads (on_cache (lives_in live.now) session) reader.now result }
{
    let number = read_cache(live, reader)?;
    let id = CacheId::new(number);
    let at = reader.moment()?;
    let name = reader.op()?;
    if name == "destroy" {
        return Ok(Line::Destroy { session, id });
    }
    let call = read_call(reader, live.processors(number), name)?;
    Ok(Line::Call(LineCall {
        session,
        id,
        at,
        call,
    }))
}

#[tactic(auto, unfolding(crate::specs::Line::line_of))]
fn read_line(live: &Live, reader: &Reader<'_, '_>) -> Result<Line, ScriptFault>
    ensures { Reads (line_of (lives_in live.now)) reader.now result }
{
    let session = reader.session()?;
    if reader.asks_to_create() {
        return read_create(reader, session);
    }
    read_on_cache(live, reader, session)
}

#[tactic(auto, unfolding(crate::specs::Script::piece_of))]
fn read_piece(
    alloc: Global,
    live: &Live,
    piece: &[u8],
    line: usize,
    scratch: &mut Scratch,
) -> Result<Line, ScriptFault>
    ensures { GivesScript (λ x. x) result (piece_of (lives_in live.now) line piece.now) }
{
    let object = read_object(alloc, piece, line, scratch)?;
    read_line(
        live,
        &Reader {
            alloc,
            line,
            object: &object,
        },
    )
}

/// Whether a line has spaces, tabs and carriage returns alone.
pub fn is_blank(piece: &[u8]) -> bool
    ensures { result ≡ is_blank piece.now }
{
    piece
        .iter()
        .all(|b| *b == b' ' || *b == b'\t' || *b == b'\r')
}

/// The bytes, cut at each line feed.
pub fn pieces(alloc: Global, bytes: &[u8]) -> Result<Vec<&[u8]>, AllocError>
    ensures { IfOk result (λ v. map (λ piece. piece.now) v.items ≡ slice_split is_feed bytes.now) }
{
    bytes.split(|b| *b == b'\n').collect(alloc)
}

/// The bytes before the first line feed, and those after it if there is one.
fn first_piece(bytes: &[u8]) -> (&[u8], Option<&[u8]>)
    ensures cut { slice_split is_feed bytes.now ≡ result.0.now ∷ pieces_after result.1 }
    ensures shorter { IfSome result.1 (λ rest. length rest.now < length bytes.now) }
{
    match memchr(b'\n', bytes) {
        Some(i) => (&bytes[..i], Some(&bytes[i + 1..])),
        None => (bytes, None),
    }
}

/// The lines of a script, or its first fault: one JSON object a line.
#[tactic(auto, unfolding(crate::specs::Script::lines))]
pub fn read_script(
    alloc: Global,
    bytes: &[u8],
    settings: &Settings,
) -> Result<Vec<Line>, ScriptFault>
    ensures read { GivesScript (λ v. v.items) result (lines settings.now bytes.now) }
    ensures named { IfOk result (λ v. AllName (opened_from 0 settings.now) v.items) }
{
    if bytes.len() > TEXT_BYTES {
        return Err(ScriptFault::TooLong);
    }
    let mut live = Live::new(alloc, settings)?;
    let mut scratch = Scratch::new(alloc);
    let mut lines = Vec::new(alloc);
    let mut number = 0;
    let mut left = Some(bytes);
    while let Some(rest) = left {
        let (piece, after) = first_piece(rest);
        number += 1;
        left = after;
        if !is_blank(piece) {
            let line = read_piece(alloc, &live, piece, number, &mut scratch)?;
            if line.manages() {
                live = live.after(&line)?;
            }
            lines.push(line)?;
        }
    }
    Ok(lines)
}
