//! Calls and answers, out of bytes.
ghost use Rattle.std.specs.Prelude.{◌≡◌};
ghost use Rattle.jc_c.specs.Reading.{IsRead};
ghost use Rattle.jc_c.specs.Calls.{call_with_key, call_with_value, call_with_keys, replace_if};
ghost use Rattle.jc_c.specs.Calls.{remove_if, invoke, invoke_all, put_all, load_all, loaded_answer};
ghost use Rattle.jc_c.specs.Calls.{action_of, verdict_answer_said, processed_answer};

use crate::reading::{PairLengths, read_key, read_keys, read_pairs, read_value};
use crate::status::Fault;
use jc_model::call::{Action, Answer, Call, Verdict};
use jc_model::value::Value;
use std::alloc::Global;

pub fn get(key: &[u8]) -> Result<Call, Fault>
    ensures { result ≡ call_with_key Call.Get key.now }
{
    Ok(Call::Get(read_key(key)?))
}

pub fn put(alloc: Global, key: &[u8], value: &[u8]) -> Result<Call, Fault>
    ensures { IsRead (call_with_value Call.Put key.now value.now) result }
{
    let key = read_key(key)?;
    Ok(Call::Put(key, read_value(alloc, value)?))
}

pub fn get_and_put(alloc: Global, key: &[u8], value: &[u8]) -> Result<Call, Fault>
    ensures { IsRead (call_with_value Call.GetAndPut key.now value.now) result }
{
    let key = read_key(key)?;
    Ok(Call::GetAndPut(key, read_value(alloc, value)?))
}

pub fn put_if_absent(alloc: Global, key: &[u8], value: &[u8]) -> Result<Call, Fault>
    ensures { IsRead (call_with_value Call.PutIfAbsent key.now value.now) result }
{
    let key = read_key(key)?;
    Ok(Call::PutIfAbsent(key, read_value(alloc, value)?))
}

pub fn replace(alloc: Global, key: &[u8], value: &[u8]) -> Result<Call, Fault>
    ensures { IsRead (call_with_value Call.Replace key.now value.now) result }
{
    let key = read_key(key)?;
    Ok(Call::Replace(key, read_value(alloc, value)?))
}

pub fn replace_if(alloc: Global, key: &[u8], expected: &[u8], value: &[u8]) -> Result<Call, Fault>
    ensures { IsRead (replace_if key.now expected.now value.now) result }
{
    let key = read_key(key)?;
    let expected = read_value(alloc, expected)?;
    let value = read_value(alloc, value)?;
    Ok(Call::ReplaceIf {
        key,
        expected,
        value,
    })
}

pub fn get_and_replace(alloc: Global, key: &[u8], value: &[u8]) -> Result<Call, Fault>
    ensures { IsRead (call_with_value Call.GetAndReplace key.now value.now) result }
{
    let key = read_key(key)?;
    Ok(Call::GetAndReplace(key, read_value(alloc, value)?))
}

pub fn remove(key: &[u8]) -> Result<Call, Fault>
    ensures { result ≡ call_with_key Call.Remove key.now }
{
    Ok(Call::Remove(read_key(key)?))
}

pub fn remove_if(alloc: Global, key: &[u8], expected: &[u8]) -> Result<Call, Fault>
    ensures { IsRead (remove_if key.now expected.now) result }
{
    let key = read_key(key)?;
    let expected = read_value(alloc, expected)?;
    Ok(Call::RemoveIf { key, expected })
}

pub fn get_and_remove(key: &[u8]) -> Result<Call, Fault>
    ensures { result ≡ call_with_key Call.GetAndRemove key.now }
{
    Ok(Call::GetAndRemove(read_key(key)?))
}

pub fn invoke(alloc: Global, key: &[u8], processor: u8, argument: &[u8]) -> Result<Call, Fault>
    ensures { IsRead (invoke key.now processor argument.now) result }
{
    let key = read_key(key)?;
    let argument = read_value(alloc, argument)?;
    Ok(Call::Invoke {
        key,
        processor,
        argument,
    })
}

pub fn get_all(alloc: Global, lengths: &[u32], keys: &[u8]) -> Result<Call, Fault>
    ensures { IsRead (call_with_keys Call.GetAll lengths.now keys.now) result }
{
    Ok(Call::GetAll(read_keys(alloc, lengths, keys)?))
}

pub fn put_all(alloc: Global, lengths: &[PairLengths], pairs: &[u8]) -> Result<Call, Fault>
    ensures { IsRead (put_all lengths.now pairs.now) result }
{
    Ok(Call::PutAll(read_pairs(alloc, lengths, pairs)?))
}

pub fn remove_keys(alloc: Global, lengths: &[u32], keys: &[u8]) -> Result<Call, Fault>
    ensures { IsRead (call_with_keys Call.RemoveKeys lengths.now keys.now) result }
{
    Ok(Call::RemoveKeys(read_keys(alloc, lengths, keys)?))
}

/// A `replace` that is not 0 loads keys that have a row too.
pub fn load_all(alloc: Global, lengths: &[u32], keys: &[u8], replace: u32) -> Result<Call, Fault>
    ensures { IsRead (load_all lengths.now keys.now replace) result }
{
    let keys = read_keys(alloc, lengths, keys)?;
    let replace = replace != 0;
    Ok(Call::LoadAll { keys, replace })
}

pub fn invoke_all(
    alloc: Global,
    lengths: &[u32],
    keys: &[u8],
    processor: u8,
    argument: &[u8],
) -> Result<Call, Fault>
    ensures { IsRead (invoke_all lengths.now keys.now processor argument.now) result }
{
    let keys = read_keys(alloc, lengths, keys)?;
    let argument = read_value(alloc, argument)?;
    Ok(Call::InvokeAll {
        keys,
        processor,
        argument,
    })
}

/// A value was loaded.
pub fn loaded(alloc: Global, value: &[u8]) -> Result<Answer, Fault>
    ensures { IsRead (loaded_answer value.now) result }
{
    Ok(Answer::Loaded(Some(read_value(alloc, value)?)))
}

/// What a processor does: 0 keeps the entry, 1 sets the value, 2 removes the entry.
fn action_of(alloc: Global, choice: u32, value: &[u8]) -> Result<Action, Fault>
    ensures { IsRead (action_of choice value.now) result }
{
    match choice {
        0 => Ok(Action::Keep),
        1 => Ok(Action::Set(read_value(alloc, value)?)),
        2 => Ok(Action::Remove),
        _ => Err(Fault::BadChoice),
    }
}

/// What a processor answers: nothing where the flag is 0.
fn answer_of(alloc: Global, answers: u32, answer: &[u8]) -> Result<Option<Value>, Fault>
    ensures { IsRead (verdict_answer_said answers answer.now) result }
{
    if answers == 0 {
        return Ok(None);
    }
    Ok(Some(read_value(alloc, answer)?))
}

/// A processor's verdict.
pub fn processed(
    alloc: Global,
    action: u32,
    value: &[u8],
    answers: u32,
    answer: &[u8],
) -> Result<Answer, Fault>
    ensures { IsRead (processed_answer action value.now answers answer.now) result }
{
    let action = action_of(alloc, action, value)?;
    let answer = answer_of(alloc, answers, answer)?;
    Ok(Answer::Processed(Ok(Verdict { action, answer })))
}
