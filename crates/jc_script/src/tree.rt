//! A line's tree as `json` keeps it, looked into as the data that it stands for.
ghost use Rattle.std.specs.Prelude.{◌≡◌, is_some, option_map};
ghost use Rattle.json.specs.Value.{value_view, items_view, members_view};
ghost use Rattle.serde_json.specs.Find.{get, as_str, as_bool, as_array, as_object};
ghost use Rattle.jc_script.specs.Member.{whole_u64};
ghost use Rattle.jc_script.specs.Tree.{data_in, items_in, has_numbers, items_have_numbers, members_have_numbers};

use crate::number::{is_number, whole_of};
use json::Value;

/// Whether each number of the value is in range.
#[cycle(numbers)]
#[inline(always)]
pub fn has_numbers(value: &Value<'_>) -> bool
    ensures { result ≡ has_numbers (value_view value.now) }
{
    match value {
        Value::Number(text) => is_number(text),
        Value::Array(items) => items_have_numbers(items),
        Value::Object(members) => members_have_numbers(members),
        _ => true,
    }
}

#[cycle(numbers)]
#[inline(never)]
fn items_have_numbers(items: &Vec<Value<'_>>) -> bool
    ensures { result ≡ items_have_numbers (items_view items.now.items) }
{
    for item in items {
        if !has_numbers(item) {
            return false;
        }
    }
    true
}

#[cycle(numbers)]
#[inline(never)]
fn members_have_numbers(members: &Vec<(&str, Value<'_>)>) -> bool
    ensures { result ≡ members_have_numbers (members_view members.now.items) }
{
    for member in members {
        if !has_numbers(&member.1) {
            return false;
        }
    }
    true
}

/// The member of that name, the last one where it comes twice.
pub fn member_of<'v, 'a>(value: &'v Value<'a>, name: &str) -> Option<&'v Value<'a>>
    ensures { option_map (λ v. data_in v.now) result ≡ get name.now (data_in value.now) }
{
    value.get(name)
}

/// The text that a value is, if it is one.
pub fn text_in<'a>(value: &Value<'a>) -> Option<&'a str>
    ensures { option_map (λ text. text.now) result ≡ as_str (data_in value.now) }
{
    value.as_str()
}

/// The truth value that a value is, if it is one.
pub fn truth_in(value: &Value<'_>) -> Option<bool>
    ensures { result ≡ as_bool (data_in value.now) }
{
    value.as_bool()
}

/// The whole number of 64 bits that a value is, if it is one.
pub fn whole_in(value: &Value<'_>) -> Option<u64>
    ensures { result ≡ whole_u64 (data_in value.now) }
{
    match value {
        Value::Number(text) => whole_of(text),
        _ => None,
    }
}

/// The items of an array, if the value is one.
pub fn array_in<'v, 'a>(value: &'v Value<'a>) -> Option<&'v [Value<'a>]>
    ensures { option_map (λ items. items_in items.now) result ≡ as_array (data_in value.now) }
{
    match value {
        Value::Array(items) => Some(items.as_slice()),
        _ => None,
    }
}

/// Whether the value is an object.
pub fn is_object(value: &Value<'_>) -> bool
    ensures { result ≡ is_some (as_object (data_in value.now)) }
{
    matches!(value, Value::Object(_))
}
