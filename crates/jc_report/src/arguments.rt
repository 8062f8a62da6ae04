//! What a call was made with, as members of its object.
ghost use Rattle.std.specs.Prelude.{OnOk};
ghost use Rattle.jc_report.specs.Report.{Appends};
ghost use Rattle.jc_report.specs.Arguments.{key_member, keys_member, entries_member, key_value_members, key_expect_members, processor_members, replace_member, of_one_json, of_many_json, arguments_json};

use crate::values::{push_bytes_member, push_list, push_next, push_number_member, push_truth};
use jc_model::call::Call;
use jc_model::key::Key;
use jc_model::keys::{Keys, Pairs};
use jc_model::value::Value;
use std::alloc::{AllocError, Global};

fn push_key(alloc: Global, text: &mut String, key: &Key) -> Result<(), AllocError>
    ensures { OnOk result (Appends (key_member key.now) text.old text.new) }
{
    push_bytes_member(alloc, text, "key", key.text().as_bytes())
}

fn push_keys(alloc: Global, text: &mut String, keys: &Keys) -> Result<(), AllocError>
    ensures { OnOk result (Appends (keys_member keys.now) text.old text.new) }
{
    push_next(text, "keys")?;
    push_list(alloc, text, keys.keys())
}

fn push_entries(alloc: Global, text: &mut String, pairs: &Pairs) -> Result<(), AllocError>
    ensures { OnOk result (Appends (entries_member pairs.now) text.old text.new) }
{
    push_next(text, "entries")?;
    push_list(alloc, text, pairs.pairs())
}

fn push_key_value(
    alloc: Global,
    text: &mut String,
    key: &Key,
    value: &Value,
) -> Result<(), AllocError>
    ensures { OnOk result (Appends (key_value_members key.now value.now) text.old text.new) }
{
    push_key(alloc, text, key)?;
    push_bytes_member(alloc, text, "value", value.bytes())
}

fn push_key_expected(
    alloc: Global,
    text: &mut String,
    key: &Key,
    expected: &Value,
) -> Result<(), AllocError>
    ensures { OnOk result (Appends (key_expect_members key.now expected.now) text.old text.new) }
{
    push_key(alloc, text, key)?;
    push_bytes_member(alloc, text, "expect", expected.bytes())
}

fn push_processor(
    alloc: Global,
    text: &mut String,
    processor: u8,
    argument: &Value,
) -> Result<(), AllocError>
    ensures { OnOk result (Appends (processor_members processor argument.now) text.old text.new) }
{
    push_number_member(text, "processor", u64::from(processor))?;
    push_bytes_member(alloc, text, "argument", argument.bytes())
}

fn push_replace(text: &mut String, replace: bool) -> Result<(), AllocError>
    ensures { OnOk result (Appends (replace_member replace) text.old text.new) }
{
    push_next(text, "replace")?;
    push_truth(text, replace)
}

/// Adds what a call on one key was made with; nothing for any other.
fn push_of_one(alloc: Global, text: &mut String, call: &Call) -> Result<(), AllocError>
    ensures { OnOk result (Appends (of_one_json call.now) text.old text.new) }
{
    match call {
        Call::Get(key) => push_key(alloc, text, key),
        Call::Contains(key) => push_key(alloc, text, key),
        Call::Put(key, value) => push_key_value(alloc, text, key, value),
        Call::GetAndPut(key, value) => push_key_value(alloc, text, key, value),
        Call::PutIfAbsent(key, value) => push_key_value(alloc, text, key, value),
        Call::Replace(key, value) => push_key_value(alloc, text, key, value),
        Call::ReplaceIf {
            key,
            expected,
            value,
        } => {
            push_key_expected(alloc, text, key, expected)?;
            push_bytes_member(alloc, text, "value", value.bytes())
        }
        Call::GetAndReplace(key, value) => push_key_value(alloc, text, key, value),
        Call::Remove(key) => push_key(alloc, text, key),
        Call::RemoveIf { key, expected } => push_key_expected(alloc, text, key, expected),
        Call::GetAndRemove(key) => push_key(alloc, text, key),
        Call::Invoke {
            key,
            processor,
            argument,
        } => {
            push_key(alloc, text, key)?;
            push_processor(alloc, text, *processor, argument)
        }
        _ => Ok(()),
    }
}

/// Adds what a call on many keys was made with; nothing for any other.
fn push_of_many(alloc: Global, text: &mut String, call: &Call) -> Result<(), AllocError>
    ensures { OnOk result (Appends (of_many_json call.now) text.old text.new) }
{
    match call {
        Call::GetAll(keys) => push_keys(alloc, text, keys),
        Call::InvokeAll {
            keys,
            processor,
            argument,
        } => {
            push_keys(alloc, text, keys)?;
            push_processor(alloc, text, *processor, argument)
        }
        Call::PutAll(pairs) => push_entries(alloc, text, pairs),
        Call::RemoveKeys(keys) => push_keys(alloc, text, keys),
        Call::LoadAll { keys, replace } => {
            push_keys(alloc, text, keys)?;
            push_replace(text, *replace)
        }
        _ => Ok(()),
    }
}

/// Adds what a call was made with.
#[tactic(auto, unfolding(crate::specs::Arguments::arguments_json))]
pub fn push_arguments(alloc: Global, text: &mut String, call: &Call) -> Result<(), AllocError>
    ensures { OnOk result (Appends (arguments_json call.now) text.old text.new) }
{
    push_of_one(alloc, text, call)?;
    push_of_many(alloc, text, call)
}
