//! A member that stands twice in a line, and a number as it is written there.
ghost use Rattle.std.specs.Prelude.{◌≡◌, IfOk, option_map, string_bytes};
ghost use Rattle.json.specs.Find.{get};
ghost use Rattle.json.specs.Value.{members_view, value_view};
ghost use Rattle.jc_script.specs.Twice.{has_name, name_twice, twice_in, member_twice, number_in, number_written};

use crate::object::read_tree;
use json::{Scratch, Value};
use std::alloc::{AllocError, Global};

fn has_name(members: &[(&str, Value<'_>)], name: &str) -> bool
    ensures { result ≡ has_name name.now (members_view members.now) }
{
    for member in members {
        if member.0 == name {
            return true;
        }
    }
    false
}

/// The first name that a member behind it has too.
fn name_twice<'v, 'a>(members: &'v [(&'a str, Value<'a>)]) -> Option<&'a str>
    ensures { option_map (λ name. name.now) result ≡ name_twice (members_view members.now) }
{
    for (i, member) in members.iter().enumerate() {
        if has_name(&members[i + 1..], member.0) {
            return Some(member.0);
        }
    }
    None
}

fn twice_in<'v, 'a>(line: &'v Value<'a>) -> Option<&'a str>
    ensures { option_map (λ name. name.now) result ≡ twice_in (value_view line.now) }
{
    match line {
        Value::Object(members) => name_twice(members.as_slice()),
        _ => None,
    }
}

/// The first member that stands again in a line, of which these are the bytes.
#[tactic(auto, unfolding(crate::specs::Twice::member_twice))]
pub fn member_twice(alloc: Global, bytes: &[u8]) -> Result<Option<String>, AllocError>
    ensures { IfOk result (λ o. option_map string_bytes o ≡ member_twice bytes.now) }
{
    let mut scratch = Scratch::new(alloc);
    let Some(line) = read_tree(alloc, bytes, &mut scratch)? else {
        return Ok(None);
    };
    match twice_in(&line) {
        Some(name) => Ok(Some(String::from_str(alloc, name)?)),
        None => Ok(None),
    }
}

fn number_in<'v, 'a>(value: Option<&'v Value<'a>>) -> Option<&'a str>
    ensures { option_map (λ text. text.now) result
        ≡ number_in (option_map (λ v. value_view v.now) value.entry) }
{
    match value {
        Some(Value::Number(text)) => Some(text),
        _ => None,
    }
}

/// The number that a member of a line is, as it is written; nothing where the member is no number.
#[tactic(auto, unfolding(crate::specs::Twice::number_written))]
pub fn number_written(alloc: Global, bytes: &[u8], name: &str) -> Result<Option<String>, AllocError>
    ensures { IfOk result (λ o. option_map string_bytes o ≡ number_written name.now bytes.now) }
{
    let mut scratch = Scratch::new(alloc);
    let Some(line) = read_tree(alloc, bytes, &mut scratch)? else {
        return Ok(None);
    };
    match number_in(line.get(name)) {
        Some(text) => Ok(Some(String::from_str(alloc, text)?)),
        None => Ok(None),
    }
}
