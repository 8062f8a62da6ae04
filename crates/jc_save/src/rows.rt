//! Rows, one after the other.
ghost use Rattle.std.specs.Prelude.{◌≡◌, ◌≤◌, [], length, IfOk, IfErr};
ghost use Rattle.jc_model.specs.Limits.{value_bytes};
ghost use Rattle.jc_save.specs.Reading.{mark_at, key_at, value_at, row_at, rows_at};
ghost use Rattle.jc_save.specs.Restoring.{Gives, item, items};

use crate::cache::{Mark, SavedRow};
use crate::fault::{Flaw, Stop, flawed};
use crate::fields::{byte_at, text_at, u16_at, u64_at};
use jc_model::config::Expiry;
use jc_model::key::Key;
use jc_model::limits::KEY_BYTES;
use jc_model::value::Value;
use std::alloc::Global;
use std::collections::HashSet;

#[tactic(auto, unfolding(crate::specs::Reading::mark_at))]
fn mark_at(bytes: &[u8]) -> Result<(Mark, &[u8]), Stop>
    ensures { Gives (λ x. ((x.0.expiry, x.0.used), x.1.now)) result (mark_at bytes.now) }
{
    match bytes {
        [] => Err(flawed(Flaw::Cut, bytes)),
        [0, rest @ ..] => Ok((Mark::new(Expiry::Never, false), rest)),
        [1, rest @ ..] => Ok((Mark::new(Expiry::Never, true), rest)),
        [2, rest @ ..] => {
            let (moment, rest) = u64_at(rest)?;
            Ok((Mark::new(Expiry::At(moment), false), rest))
        }
        [3, rest @ ..] => {
            let (moment, rest) = u64_at(rest)?;
            Ok((Mark::new(Expiry::At(moment), true), rest))
        }
        [_, ..] => Err(flawed(Flaw::Mark, bytes)),
    }
}

#[tactic(auto, unfolding(crate::specs::Reading::key_at))]
fn key_at(bytes: &[u8]) -> Result<(Key, &[u8]), Stop>
    ensures { Gives (λ x. (x.0, x.1.now)) result (key_at bytes.now) }
{
    let (length, rest) = byte_at(bytes)?;
    if length < 1 || length as usize > KEY_BYTES {
        return Err(flawed(Flaw::KeyLength, bytes));
    }
    let (text, after) = text_at(length as usize, rest)?;
    match str::from_utf8(text) {
        Ok(text) => match Key::from_text(text) {
            Ok(key) => Ok((key, after)),
            Err(_) => Err(flawed(Flaw::KeyLength, bytes)),
        },
        Err(_) => Err(flawed(Flaw::KeyText, rest)),
    }
}

#[tactic(auto, unfolding(crate::specs::Reading::value_at))]
fn value_at(bytes: &[u8]) -> Result<(&[u8], &[u8]), Stop>
    ensures read { Gives (λ x. (x.0.now, x.1.now)) result (value_at bytes.now) }
    ensures limit { IfOk result (λ x. length x.0.now ≤ value_bytes) }
{
    let (length, rest) = u16_at(bytes)?;
    text_at(length as usize, rest)
}

/// A value of one's own with these bytes.
fn value_of(alloc: Global, bytes: &[u8]) -> Result<Value, Stop>
    requires { length bytes.now ≤ value_bytes }
    ensures made { IfOk result (λ v. v ≡ bytes.now) }
    ensures refused { IfErr result (λ stop. stop ≡ Stop.Memory) }
{
    match Value::new(alloc, bytes.to_vec(alloc)?) {
        Ok(value) => Ok(value),
        Err(_) => Err(Stop::Memory),
    }
}

#[tactic(auto, unfolding(crate::specs::Reading::row_at))]
fn row_at(alloc: Global, bytes: &[u8]) -> Result<(SavedRow, &[u8]), Stop>
    ensures { Gives (λ x. (item x.0, x.1.now)) result (row_at bytes.now) }
{
    let (mark, rest) = mark_at(bytes)?;
    let (key, rest) = match key_at(rest) {
        Ok(read) => read,
        Err(stop) => return Err(stop),
    };
    let (value, rest) = value_at(rest)?;
    let value = value_of(alloc, value)?;
    Ok((SavedRow { key, value, mark }, rest))
}

/// So many rows, none with the key of an earlier one. Memory is taken for those that were read.
pub fn rows_at(alloc: Global, count: u32, bytes: &[u8]) -> Result<(Vec<SavedRow>, &[u8]), Stop>
    ensures { Gives (λ x. (items x.0.items, x.1.now)) result (rows_at [] count bytes.now) }
{
    let mut rows = Vec::new(alloc);
    let mut keys: HashSet<Key> = HashSet::new(alloc);
    let mut rest = bytes;
    for _ in 0..count {
        let (row, after) = match row_at(alloc, rest) {
            Ok(read) => read,
            Err(stop) => return Err(stop),
        };
        let is_new = keys.insert(row.key)?;
        if !is_new {
            return Err(flawed(Flaw::DuplicateKey, rest));
        }
        rows.push(row)?;
        rest = after;
    }
    Ok((rows, rest))
}
