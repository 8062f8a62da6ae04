//! Members, words, keys, values and lists as JSON.
ghost use Rattle.std.specs.Prelude.{◌≡◌, false, IfOk, OnOk, string_bytes};
ghost use Rattle.json.specs.Print.{quoted};
ghost use Rattle.jc_report.specs.Report.{Appends};
ghost use Rattle.jc_report.specs.Values.{first_member, next_member, word_json, number_member, bytes_json, bytes_member, comma_if, items_json, list_json, answered_member, truth_json};

use crate::{push_number, quote_text};
use jc_model::call::ProcessorFault;
use jc_model::key::Key;
use jc_model::value::Value;
use std::alloc::{AllocError, Global};

/// What is written as JSON.
pub trait Shown: Sized {
    ghost use Rattle.std.specs.Prelude.{ℕ, List, OnOk};
    ghost use Rattle.jc_report.specs.Report.{Appends};

    ghost json: { Self → List ℕ };

    /// Adds it to a text.
    fn push(&self, alloc: Global, text: &mut String) -> Result<(), AllocError>
        ensures { OnOk result (Appends (json self.now) text.old text.new) };
}

/// Begins an object with the name of its first member.
#[tactic(auto, unfolding(crate::specs::Values::first_member))]
pub fn push_first(text: &mut String, name: &str) -> Result<(), AllocError>
    ensures { OnOk result (Appends (first_member name.now) text.old text.new) }
{
    text.push_str("{\"")?;
    text.push_str(name)?;
    text.push_str("\":")
}

/// Adds the name of one more member.
#[tactic(auto, unfolding(crate::specs::Values::next_member))]
pub fn push_next(text: &mut String, name: &str) -> Result<(), AllocError>
    ensures { OnOk result (Appends (next_member name.now) text.old text.new) }
{
    text.push_str(",\"")?;
    text.push_str(name)?;
    text.push_str("\":")
}

/// Adds a word of letters and spaces as a string.
#[tactic(auto, unfolding(crate::specs::Values::word_json))]
pub fn push_word(text: &mut String, word: &str) -> Result<(), AllocError>
    ensures { OnOk result (Appends (word_json word.now) text.old text.new) }
{
    text.push_str("\"")?;
    text.push_str(word)?;
    text.push_str("\"")
}

/// Adds a member that is a number.
pub fn push_number_member(text: &mut String, name: &str, number: u64) -> Result<(), AllocError>
    ensures { OnOk result (Appends (number_member name.now number) text.old text.new) }
{
    push_next(text, name)?;
    push_number(text, number)
}

/// Adds a text as a JSON string.
pub fn push_text(alloc: Global, text: &mut String, shown: &str) -> Result<(), AllocError>
    ensures { OnOk result (Appends (quoted shown.now) text.old text.new) }
{
    text.push_str(quote_text(alloc, shown)?.as_str())
}

/// Bytes as a JSON string, and where they are no text as an object with their hexadecimal digits.
fn show(alloc: Global, bytes: &[u8]) -> Result<String, AllocError>
    ensures { IfOk result (λ s. string_bytes s ≡ bytes_json bytes.now) }
{
    match std::str::from_utf8(bytes) {
        Ok(text) => quote_text(alloc, text),
        Err(_) => {
            let mut shown = String::from_str(alloc, "{\"hex\":\"")?;
            shown.push_str(hex::encode(alloc, bytes)?.as_str())?;
            shown.push_str("\"}")?;
            Ok(shown)
        }
    }
}

/// Adds bytes.
pub fn push_bytes(alloc: Global, text: &mut String, bytes: &[u8]) -> Result<(), AllocError>
    ensures { OnOk result (Appends (bytes_json bytes.now) text.old text.new) }
{
    text.push_str(show(alloc, bytes)?.as_str())
}

/// Adds a member that is bytes.
pub fn push_bytes_member(
    alloc: Global,
    text: &mut String,
    name: &str,
    bytes: &[u8],
) -> Result<(), AllocError>
    ensures { OnOk result (Appends (bytes_member name.now bytes.now) text.old text.new) }
{
    push_next(text, name)?;
    push_bytes(alloc, text, bytes)
}

/// Adds true or false.
pub fn push_truth(text: &mut String, truth: bool) -> Result<(), AllocError>
    ensures { OnOk result (Appends (truth_json truth) text.old text.new) }
{
    text.push_str(if truth { "true" } else { "false" })
}

fn push_comma(text: &mut String, later: bool) -> Result<(), AllocError>
    ensures { OnOk result (Appends (comma_if later) text.old text.new) }
{
    if later {
        return text.push_str(",");
    }
    Ok(())
}

fn push_items<T: Shown>(alloc: Global, text: &mut String, items: &[T]) -> Result<(), AllocError>
    ensures { OnOk result (Appends (items_json T.json false items.now) text.old text.new) }
{
    let mut later = false;
    for item in items {
        push_comma(text, later)?;
        item.push(alloc, text)?;
        later = true;
    }
    Ok(())
}

/// Adds a list.
#[tactic(auto, unfolding(crate::specs::Values::list_json))]
pub fn push_list<T: Shown>(alloc: Global, text: &mut String, items: &[T]) -> Result<(), AllocError>
    ensures { OnOk result (Appends (list_json T.json items.now) text.old text.new) }
{
    text.push_str("[")?;
    push_items(alloc, text, items)?;
    text.push_str("]")
}

impl Shown for Key {
    ghost use Rattle.jc_report.specs.Values.{bytes_json};

    ghost json = { bytes_json };

    fn push(&self, alloc: Global, text: &mut String) -> Result<(), AllocError> {
        push_bytes(alloc, text, self.text().as_bytes())
    }
}

impl Shown for (Key, Value) {
    ghost use Rattle.jc_report.specs.Values.{pair_json};

    ghost json = { pair_json };

    fn push(&self, alloc: Global, text: &mut String) -> Result<(), AllocError> {
        push_first(text, "key")?;
        self.0.push(alloc, text)?;
        push_bytes_member(alloc, text, "value", self.1.bytes())?;
        text.push_str("}")
    }
}

fn push_answered(
    alloc: Global,
    text: &mut String,
    answered: &Result<Value, ProcessorFault>,
) -> Result<(), AllocError>
    ensures { OnOk result (Appends (answered_member answered.now) text.old text.new) }
{
    match answered {
        Ok(value) => push_bytes_member(alloc, text, "value", value.bytes()),
        Err(_) => {
            push_next(text, "fault")?;
            push_word(text, "processor")
        }
    }
}

impl Shown for (Key, Result<Value, ProcessorFault>) {
    ghost use Rattle.jc_report.specs.Values.{result_json};

    ghost json = { result_json };

    fn push(&self, alloc: Global, text: &mut String) -> Result<(), AllocError> {
        push_first(text, "key")?;
        self.0.push(alloc, text)?;
        push_answered(alloc, text, &self.1)?;
        text.push_str("}")
    }
}
