//! What a JSON value is read as: a key, a value, a pair of both, and lists of keys and of pairs.
ghost use Rattle.std.specs.Prelude.{◌≡◌, IfOk, option_map};
ghost use Rattle.serde_json.specs.Data.{no_items, item};
ghost use Rattle.jc_script.specs.Member.{key, pair_in, each_item, distinct_keys, distinct_pairs};
ghost use Rattle.jc_script.specs.Tree.{data_in, items_in};

use crate::tree::{array_in, text_in};
use jc_model::key::Key;
use jc_model::keys::{Keys, Pairs};
use jc_model::value;
use jc_model::value::ValueFault;
use json::Value;
use std::alloc::{AllocError, Global};

/// What a JSON value may stand for.
pub trait Item: Sized + Drop {
    ghost use Rattle.std.specs.Prelude.{◌≡◌, Option, IfOk};
    ghost use Rattle.serde_json.specs.Data.{Data};
    ghost use Rattle.jc_script.specs.Tree.{data_in};

    ghost reading: { Data → Option Self };

    /// What the JSON value stands for; `None` where it stands for no such item.
    fn from_json(alloc: Global, item: &Value<'_>) -> Result<Option<Self>, AllocError>
        ensures { IfOk result (λ o. o ≡ reading (data_in item.now)) };
}

/// The key that a value is, if it is one.
pub fn key_in(item: &Value<'_>) -> Option<Key>
    ensures { result ≡ key (data_in item.now) }
{
    match text_in(item) {
        None => None,
        Some(text) => Key::from_text(text).ok(),
    }
}

impl Item for Key {
    ghost use Rattle.jc_script.specs.Member.{key};

    ghost reading = { key };

    fn from_json(_alloc: Global, item: &Value<'_>) -> Result<Option<Key>, AllocError> {
        Ok(key_in(item))
    }
}

impl Item for value::Value {
    ghost use Rattle.jc_script.specs.Member.{value};

    ghost reading = { value };

    fn from_json(alloc: Global, item: &Value<'_>) -> Result<Option<value::Value>, AllocError> {
        let Some(text) = text_in(item) else {
            return Ok(None);
        };
        match value::Value::from_text(alloc, text) {
            Ok(value) => Ok(Some(value)),
            Err(ValueFault::TooLong) => Ok(None),
            Err(ValueFault::OutOfMemory) => Err(AllocError),
        }
    }
}

/// A key and its value.
fn pair(
    alloc: Global,
    first: &Value<'_>,
    second: &Value<'_>,
) -> Result<Option<(Key, value::Value)>, AllocError>
    ensures { IfOk result (λ o. o
        ≡ pair_in (item (data_in first.now) (item (data_in second.now) no_items))) }
{
    match key_in(first) {
        None => Ok(None),
        Some(key) => Ok(value::Value::from_json(alloc, second)?.map(|value| (key, value))),
    }
}

fn pair_of(alloc: Global, items: &[Value<'_>]) -> Result<Option<(Key, value::Value)>, AllocError>
    ensures { IfOk result (λ o. o ≡ pair_in (items_in items.now)) }
{
    if items.len() != 2 {
        return Ok(None);
    }
    pair(alloc, &items[0], &items[1])
}

impl Item for (Key, value::Value) {
    ghost use Rattle.jc_script.specs.Member.{pair};

    ghost reading = { pair };

    fn from_json(
        alloc: Global,
        item: &Value<'_>,
    ) -> Result<Option<(Key, value::Value)>, AllocError> {
        match array_in(item) {
            None => Ok(None),
            Some(items) => pair_of(alloc, items),
        }
    }
}

/// All items, if each of them can be read.
fn read_each<T: Item>(alloc: Global, items: &[Value<'_>]) -> Result<Option<Vec<T>>, AllocError>
    ensures { IfOk result (λ o.
        option_map (λ v. v.items) o ≡ each_item T.reading (items_in items.now)) }
{
    let mut list = Vec::new(alloc);
    for item in items {
        match T::from_json(alloc, item)? {
            None => return Ok(None),
            Some(read) => list.push(read)?,
        }
    }
    Ok(Some(list))
}

fn distinct_keys(keys: Vec<Key>) -> Option<Keys>
    ensures { result ≡ distinct_keys keys.items }
{
    Keys::new(keys).ok()
}

impl Item for Keys {
    ghost use Rattle.jc_script.specs.Member.{keys};

    ghost reading = { keys };

    fn from_json(alloc: Global, item: &Value<'_>) -> Result<Option<Keys>, AllocError> {
        match array_in(item) {
            None => Ok(None),
            Some(items) => Ok(read_each(alloc, items)?.and_then(distinct_keys)),
        }
    }
}

fn distinct_pairs(pairs: Vec<(Key, value::Value)>) -> Option<Pairs>
    ensures { result ≡ distinct_pairs pairs.items }
{
    Pairs::new(pairs).ok()
}

impl Item for Pairs {
    ghost use Rattle.jc_script.specs.Member.{pairs};

    ghost reading = { pairs };

    fn from_json(alloc: Global, item: &Value<'_>) -> Result<Option<Pairs>, AllocError> {
        match array_in(item) {
            None => Ok(None),
            Some(items) => Ok(read_each(alloc, items)?.and_then(distinct_pairs)),
        }
    }
}
