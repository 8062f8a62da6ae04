//! Keys, values and lists of them, out of bytes.
ghost use Rattle.std.specs.Prelude.{◌≡◌};
ghost use Rattle.jc_c.specs.Reading.{IsRead, IsListRead, key_said, value_said, key_list_said};
ghost use Rattle.jc_c.specs.Reading.{keys_said, pair_list_said, pairs_said, list_fault};

use crate::status::Fault;
use jc_model::key::Key;
use jc_model::keys::{Keys, ListFault, Pairs};
use jc_model::limits::VALUE_BYTES;
use jc_model::value::Value;
use std::alloc::Global;

/// How many bytes a pair has in a list: first its key's, then its value's.
#[repr(C)]
#[derive(Clone, Copy)]
pub struct PairLengths {
    pub key: u32,
    pub value: u32,
}

/// The key with these bytes.
pub fn read_key(bytes: &[u8]) -> Result<Key, Fault>
    ensures { result ≡ key_said bytes.now }
{
    match std::str::from_utf8(bytes) {
        Ok(text) => match Key::from_text(text) {
            Ok(key) => Ok(key),
            Err(_) => Err(Fault::BadKey),
        },
        Err(_) => Err(Fault::BadKey),
    }
}

/// The value with these bytes.
pub fn read_value(alloc: Global, bytes: &[u8]) -> Result<Value, Fault>
    ensures { IsRead (value_said bytes.now) result }
{
    if bytes.len() > VALUE_BYTES {
        return Err(Fault::BadValue);
    }
    let Ok(copy) = bytes.to_vec(alloc) else {
        return Err(Fault::OutOfMemory);
    };
    match Value::new(alloc, copy) {
        Ok(value) => Ok(value),
        Err(_) => Err(Fault::OutOfMemory),
    }
}

/// The keys that stand in these bytes, one after the other.
fn keys_in(alloc: Global, lengths: &[u32], bytes: &[u8]) -> Result<Vec<Key>, Fault>
    ensures { IsListRead (key_list_said lengths.now bytes.now) result }
{
    let mut keys = Vec::new(alloc);
    let mut left = bytes;
    for n in lengths {
        let width = *n as usize;
        if left.len() < width {
            return Err(Fault::BadLengths);
        }
        let key = read_key(&left[..width])?;
        if keys.push(key).is_err() {
            return Err(Fault::OutOfMemory);
        }
        left = &left[width..];
    }
    if left.is_empty() {
        Ok(keys)
    } else {
        Err(Fault::BadLengths)
    }
}

/// The pairs that stand in these bytes, one after the other.
fn pairs_in(
    alloc: Global,
    lengths: &[PairLengths],
    bytes: &[u8],
) -> Result<Vec<(Key, Value)>, Fault>
    ensures { IsListRead (pair_list_said lengths.now bytes.now) result }
{
    let mut pairs = Vec::new(alloc);
    let mut left = bytes;
    for w in lengths {
        let (first, second) = (w.key as usize, w.value as usize);
        if left.len() < first || left.len() - first < second {
            return Err(Fault::BadLengths);
        }
        let key = read_key(&left[..first])?;
        let value = read_value(alloc, &left[first..first + second])?;
        if pairs.push((key, value)).is_err() {
            return Err(Fault::OutOfMemory);
        }
        left = &left[first + second..];
    }
    if left.is_empty() {
        Ok(pairs)
    } else {
        Err(Fault::BadLengths)
    }
}

/// What is wrong with a list.
fn list_fault(fault: ListFault) -> Fault
    ensures { result ≡ list_fault fault }
{
    match fault {
        ListFault::TooManyKeys => Fault::TooManyKeys,
        ListFault::DuplicateKey => Fault::DuplicateKey,
    }
}

/// The list of the keys that stand in these bytes.
pub fn read_keys(alloc: Global, lengths: &[u32], bytes: &[u8]) -> Result<Keys, Fault>
    ensures { IsRead (keys_said lengths.now bytes.now) result }
{
    match Keys::new(keys_in(alloc, lengths, bytes)?) {
        Ok(keys) => Ok(keys),
        Err(fault) => Err(list_fault(fault)),
    }
}

/// The list of the pairs that stand in these bytes.
pub fn read_pairs(alloc: Global, lengths: &[PairLengths], bytes: &[u8]) -> Result<Pairs, Fault>
    ensures { IsRead (pairs_said lengths.now bytes.now) result }
{
    match Pairs::new(pairs_in(alloc, lengths, bytes)?) {
        Ok(pairs) => Ok(pairs),
        Err(fault) => Err(list_fault(fault)),
    }
}
