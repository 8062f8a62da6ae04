//! Explanations of a script's faults.
ghost use Rattle.std.specs.Prelude.{◌≡◌, IfOk, option_map, string_bytes};
ghost use Rattle.serde_json.specs.View.{view};
ghost use Rattle.jc_explain.specs.Script.{piece_at, json_at, column_line, TellsColumn, object_line, near_word, value_suggestion, json_value_line, near_other, other_line, json_member_lines, names_line, names_text, ops_line, line_policy, further, bad_lines, bad_in_piece, bad_at, lines_at, too_long_line, TellsNotJson, TellsScriptFault};
ghost use Rattle.jc_explain.specs.Lines.{suggestion};
ghost use Rattle.jc_explain.specs.Words.{ops, script_words, word_lent, words_lent};

use crate::found::{show_json, show_written};
use crate::lines::{
    join, member_line, missing_line, no_member_line, plain_line, show_text, suggest,
};
use crate::methods::op_of_method;
use crate::other::other_in;
use crate::policy::policy_line;
use crate::shape::script_shape;
use crate::spelling::nearest;
use crate::stranger::is_known;
use crate::twice::twice_line;
use crate::words::{ops, policies, script_allowed, script_members};
use jc_script::{Member, ScriptFault, number_written, pieces, read_json};
use serde_json::Value;
use std::alloc::{AllocError, Global};

/// The line with this number, counted from 1.
pub(crate) fn piece_at(
    alloc: Global,
    bytes: &[u8],
    line: usize,
) -> Result<Option<&[u8]>, AllocError>
    ensures { IfOk result (λ o. option_map (λ piece. piece.now) o ≡ piece_at line bytes.now) }
{
    let pieces = pieces(alloc, bytes)?;
    let place = line.saturating_sub(1);
    for (i, piece) in pieces.as_slice().iter().enumerate() {
        if i == place {
            return Ok(Some(*piece));
        }
    }
    Ok(None)
}

/// What that line is as JSON, if it is there and is JSON.
fn json_at(alloc: Global, bytes: &[u8], line: usize) -> Result<Option<Value>, AllocError>
    ensures { IfOk result (λ o. option_map view o ≡ json_at line bytes.now) }
{
    match piece_at(alloc, bytes, line)? {
        Some(piece) => read_json(alloc, piece),
        None => Ok(None),
    }
}

fn column_line(alloc: Global, line: usize, column: usize, why: &str) -> Result<String, AllocError>
    ensures { IfOk result (λ s. string_bytes s ≡ column_line line column why.now) }
{
    format!(in alloc; "  line {line}, column {column}: {why}\n")
}

/// The column at which bytes cease to be JSON, and why.
fn end_of_json(alloc: Global, piece: &[u8]) -> Result<(usize, &'static str), AllocError> {
    match Value::from_slice(alloc, piece) {
        Ok(_) => Ok((1, "read again, it is JSON")),
        Err(error) => {
            if error.is_memory() {
                Err(AllocError)
            } else if error.is_eof() {
                Ok((error.column(), "the JSON ends too soon"))
            } else {
                Ok((error.column(), "no JSON from here on"))
            }
        }
    }
}

/// Where the line ceases to be JSON.
fn not_json_at(alloc: Global, bytes: &[u8], line: usize) -> Result<String, AllocError>
    ensures { IfOk result (λ s. TellsColumn line (string_bytes s)) }
{
    let (column, why) = match piece_at(alloc, bytes, line)? {
        Some(piece) => end_of_json(alloc, piece)?,
        None => (1, "read again, it is not there"),
    };
    column_line(alloc, line, column, why)
}

/// The same, and what the whole script looks like.
fn not_json(alloc: Global, bytes: &[u8], line: usize) -> Result<String, AllocError>
    ensures { IfOk result (λ s. TellsNotJson bytes.now line (string_bytes s)) }
{
    let place = not_json_at(alloc, bytes, line)?;
    let shape = script_shape(alloc, bytes)?;
    join(alloc, &place, &shape)
}

/// A line that is JSON and no object.
fn object_line(alloc: Global, value: &Value) -> Result<String, AllocError>
    ensures { IfOk result (λ s. string_bytes s ≡ object_line (view value.now)) }
{
    let shown = show_json(alloc, value)?;
    format!(in alloc; "  the line is {shown}; it has to be an object\n")
}

/// The op that a method of JCache's is, else the nearest op.
fn near_op(alloc: Global, text: &str) -> Result<Option<&'static str>, AllocError>
    ensures { IfOk result (λ near. word_lent near ≡ near_word Member.Op text.now ops) }
{
    match op_of_method(text) {
        Some(op) => Ok(Some(op)),
        None => nearest(alloc, text, ops()),
    }
}

/// What is asked about a member's text, where the member has few words.
fn suggest_word(
    alloc: Global,
    text: &str,
    member: Member,
    names: &[&str],
) -> Result<String, AllocError>
    ensures { IfOk result (λ s. string_bytes s
        ≡ suggestion (near_word member text.now (script_words (words_lent names.now) member))) }
{
    match member {
        Member::Cache => suggest(alloc, nearest(alloc, text, names)?),
        Member::Op => suggest(alloc, near_op(alloc, text)?),
        Member::Expiry => suggest(alloc, nearest(alloc, text, policies())?),
        _ => suggest(alloc, nearest(alloc, text, &[])?),
    }
}

/// The same of a member that is a text.
fn suggest_value(
    alloc: Global,
    value: &Value,
    member: Member,
    names: &[&str],
) -> Result<String, AllocError>
    ensures { IfOk result (λ s. string_bytes s
        ≡ value_suggestion (words_lent names.now) member (view value.now)) }
{
    match value.as_str() {
        Some(text) => suggest_word(alloc, text, member, names),
        None => Ok(String::new(alloc)),
    }
}

/// A member of a line as it is, and as it has to be.
fn value_line(
    alloc: Global,
    value: &Value,
    written: Option<&str>,
    member: Member,
    names: &[&str],
) -> Result<String, AllocError>
    ensures { IfOk result (λ s. string_bytes s ≡ json_value_line (words_lent names.now) member
        (word_lent written.entry) (view value.now)) }
{
    let suggestion = suggest_value(alloc, value, member, names)?;
    let shown = show_written(alloc, value, written)?;
    member_line(
        alloc,
        member.name(),
        shown.as_str(),
        script_allowed(member),
        suggestion.as_str(),
    )
}

/// The member nearest to one that no op has.
fn near_other(alloc: Global, word: &str) -> Result<Option<&'static str>, AllocError>
    ensures { IfOk result (λ near. word_lent near ≡ near_other word.now) }
{
    if is_known(script_members(), word) {
        return Ok(None);
    }
    nearest(alloc, word, script_members())
}

/// The line of the first member that the line's op does not have, if there is one.
pub(crate) fn other_line(alloc: Global, line: &Value) -> Result<String, AllocError>
    ensures { IfOk result (λ s. string_bytes s ≡ other_line (view line.now)) }
{
    let Some(word) = other_in(line) else {
        return Ok(String::new(alloc));
    };
    let near = near_other(alloc, word)?;
    let suggestion = suggest(alloc, near)?;
    let shown = show_text(alloc, word)?;
    no_member_line(alloc, shown.as_str(), suggestion.as_str())
}

/// A member of a line that is bad. Where it is missing, the first that the op does not have may be meant for it.
fn member_lines(
    alloc: Global,
    line: &Value,
    written: Option<&str>,
    member: Member,
    names: &[&str],
) -> Result<String, AllocError>
    ensures { IfOk result (λ s. string_bytes s ≡ json_member_lines (words_lent names.now) member
        (word_lent written.entry) (view line.now)) }
{
    match line.get(member.name()) {
        Some(value) => value_line(alloc, value, written, member, names),
        None => {
            let missing = missing_line(alloc, member.name(), script_allowed(member))?;
            let other = other_line(alloc, line)?;
            format!(in alloc; "{missing}{other}")
        }
    }
}

/// The names with a blank before each.
fn join_names(alloc: Global, names: &[&str]) -> Result<String, AllocError>
    ensures { IfOk result (λ s. string_bytes s ≡ names_text (words_lent names.now)) }
{
    let mut text = String::new(alloc);
    for name in names {
        text.push(' ')?;
        text.push_str(name)?;
    }
    Ok(text)
}

/// The caches that a configuration has, or how many.
fn names_line(alloc: Global, names: &[&str]) -> Result<String, AllocError>
    ensures { IfOk result (λ s. string_bytes s ≡ names_line (words_lent names.now)) }
{
    if names.is_empty() {
        return plain_line(alloc, "the configuration has no caches");
    }
    if names.len() > 16 {
        return format!(in alloc; "  the configuration has {} caches\n", names.len());
    }
    let joined = join_names(alloc, names)?;
    format!(in alloc; "  the configuration has the caches{joined}\n")
}

/// All ops.
fn ops_line(alloc: Global) -> Result<String, AllocError>
    ensures { IfOk result (λ s. string_bytes s ≡ ops_line) }
{
    let joined = join_names(alloc, ops())?;
    format!(in alloc; "  the ops are{joined}\n")
}

fn line_policy(alloc: Global, line: &Value) -> Result<String, AllocError>
    ensures { IfOk result (λ s. string_bytes s ≡ line_policy (view line.now)) }
{
    let has_expiry = line.get("expiry").is_some();
    let has_duration = line.get("duration").is_some();
    policy_line(alloc, has_expiry, has_duration)
}

/// What is told besides: at a cache the names that there are, at an op all ops, at keys the one that is there twice.
fn further(
    alloc: Global,
    line: &Value,
    member: Member,
    names: &[&str],
) -> Result<String, AllocError>
    ensures { IfOk result (λ s.
        string_bytes s ≡ further (words_lent names.now) member (view line.now)) }
{
    match member {
        Member::Cache => names_line(alloc, names),
        Member::Op => ops_line(alloc),
        Member::Duration => line_policy(alloc, line),
        Member::Keys => twice_line(alloc, line.get("ks"), false),
        Member::Pairs => twice_line(alloc, line.get("kvs"), true),
        _ => Ok(String::new(alloc)),
    }
}

fn bad_lines(
    alloc: Global,
    line: &Value,
    written: Option<&str>,
    member: Member,
    names: &[&str],
) -> Result<String, AllocError>
    ensures { IfOk result (λ s. string_bytes s
        ≡ bad_lines (words_lent names.now) member (word_lent written.entry) (view line.now)) }
{
    let lines = member_lines(alloc, line, written, member, names)?;
    let further = further(alloc, line, member, names)?;
    format!(in alloc; "{lines}{further}")
}

/// The same by the line's bytes.
fn bad_in_piece(
    alloc: Global,
    piece: &[u8],
    member: Member,
    names: &[&str],
) -> Result<String, AllocError>
    ensures { IfOk result (λ s. string_bytes s
        ≡ bad_in_piece (words_lent names.now) member piece.now) }
{
    let Some(line) = read_json(alloc, piece)? else {
        return Ok(String::new(alloc));
    };
    match number_written(alloc, piece, member.name())? {
        Some(text) => bad_lines(alloc, &line, Some(text.as_str()), member, names),
        None => bad_lines(alloc, &line, None, member, names),
    }
}

fn bad_member(
    alloc: Global,
    bytes: &[u8],
    line: usize,
    member: Member,
    names: &[&str],
) -> Result<String, AllocError>
    ensures { IfOk result (λ s. string_bytes s
        ≡ bad_at (words_lent names.now) member (piece_at line bytes.now)) }
{
    match piece_at(alloc, bytes, line)? {
        Some(piece) => bad_in_piece(alloc, piece, member, names),
        None => Ok(String::new(alloc)),
    }
}

fn not_object(alloc: Global, bytes: &[u8], line: usize) -> Result<String, AllocError>
    ensures { IfOk result (λ s. string_bytes s ≡ lines_at object_line (json_at line bytes.now)) }
{
    match json_at(alloc, bytes, line)? {
        Some(value) => object_line(alloc, &value),
        None => Ok(String::new(alloc)),
    }
}

/// The lines that explain a fault of a script, of which these are the bytes; the names are those of the configuration's
/// caches.
pub fn explain_script(
    alloc: Global,
    bytes: &[u8],
    names: &[&str],
    fault: ScriptFault,
) -> Result<String, AllocError>
    ensures { IfOk result (λ s.
        TellsScriptFault bytes.now (words_lent names.now) fault (string_bytes s)) }
{
    match fault {
        ScriptFault::TooLong => explain_too_long(alloc),
        ScriptFault::NotJson { line } => not_json(alloc, bytes, line),
        ScriptFault::NotObject { line } => not_object(alloc, bytes, line),
        ScriptFault::Bad { line, member } => bad_member(alloc, bytes, line, member, names),
        ScriptFault::OutOfMemory => Ok(String::new(alloc)),
    }
}

/// The line that explains why a script is too long.
pub fn explain_too_long(alloc: Global) -> Result<String, AllocError>
    ensures { IfOk result (λ s. string_bytes s ≡ too_long_line) }
{
    plain_line(alloc, "at most 8388608 bytes are read")
}
