//! The first line of a script with a member that its op does not need, or that stands twice.

ghost use Rattle.std.specs.Prelude.{◌≡◌, IfOk, Some, option_map, string_bytes};
ghost use Rattle.std.specs.List.{list_all};
ghost use Rattle.std.specs.BTreeMap.{keys};
ghost use Rattle.serde_json.specs.View.{view, members_view};
ghost use Rattle.jc_script.specs.Member.{json_of};
ghost use Rattle.jc_script.specs.Members.{has_member};
ghost use Rattle.jc_script.specs.Stray.{line_members_are, op_of, knows_line, may_know, is_known_piece, stray_line};
ghost use Rattle.jc_script.specs.Twice.{member_twice};

use crate::members::has_member;
use crate::twice::member_twice;
use crate::{pieces, read_json};
use serde_json::{Map, Value};
use std::alloc::{AllocError, Global};

fn has_known_keys(op: &str, members: &Map<String, Value>) -> bool
    ensures { result ≡ list_all (λ k. has_member op.now (string_bytes k)) (keys members.now) }
{
    members.keys().all(|member| has_member(op, member.as_str()))
}

fn knows_all(op: &str, members: &Map<String, Value>) -> bool
    ensures { result ≡ line_members_are (has_member op.now) (members_view members.now.entries) }
{
    has_known_keys(op, members)
}

fn op_of(line: &Value) -> Option<&str>
    ensures { option_map (λ op. op.now) result ≡ op_of (view line.now) }
{
    line.get("op").and_then(Value::as_str)
}

fn knows_members(line: &Value) -> bool
    ensures { result ≡ knows_line (view line.now) }
{
    let Some(members) = line.as_object() else {
        return true;
    };
    match op_of(line) {
        Some(op) => knows_all(op, members),
        None => true,
    }
}

fn knows_line(alloc: Global, line: &Value, piece: &[u8]) -> Result<bool, AllocError>
    ensures { IfOk result (λ known. known
        ≡ may_know (member_twice piece.now) (Some (view line.now))) }
{
    if !knows_members(line) {
        return Ok(false);
    }
    if op_of(line).is_none() {
        return Ok(true);
    }
    Ok(member_twice(alloc, piece)?.is_none())
}

/// Whether the op of a line, if it has one, needs all its members or may have them, and each stands there once.
#[tactic(auto, unfolding(crate::specs::Stray::is_known_piece))]
fn is_known(alloc: Global, piece: &[u8]) -> Result<bool, AllocError>
    ensures { IfOk result (λ known. known ≡ is_known_piece piece.now) }
{
    match read_json(alloc, piece)? {
        Some(line) => knows_line(alloc, &line, piece),
        None => Ok(true),
    }
}

/// The first line, counted from 1, with a member that its op does not need, or that stands twice.
#[tactic(auto, unfolding(crate::specs::Stray::stray_line))]
pub fn stray_line(alloc: Global, bytes: &[u8]) -> Result<Option<usize>, AllocError>
    ensures { IfOk result (λ line. line ≡ stray_line bytes.now) }
{
    let pieces = pieces(alloc, bytes)?;
    for (i, piece) in pieces.as_slice().iter().enumerate() {
        if !is_known(alloc, piece)? {
            return Ok(Some(i + 1));
        }
    }
    Ok(None)
}
