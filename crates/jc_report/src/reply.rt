//! Replies as text.
ghost use Rattle.std.specs.Prelude.{◌≡◌, ◌++◌, IfOk, OnOk, string_bytes, decimal, codes};
ghost use Rattle.std.specs.List.{flat_map};
ghost use Rattle.jc_report.specs.Report.{found_text, key_label, pair_text, answered_text, result_text, spaced_number, counts_text, by_text, done_text, reply_text, Appends};

use crate::quote::push_bytes;
use itoa::Buffer;
use jc_model::call::{By, Counts, ProcessorFault, Reply};
use jc_model::key::Key;
use jc_model::value::Value;
use std::alloc::{AllocError, Global};

/// Adds a number in decimal digits.
pub fn push_number(text: &mut String, number: u64) -> Result<(), AllocError>
    ensures { OnOk result (Appends (decimal number) text.old text.new) }
{
    let mut digits = Buffer::new();
    text.push_str(digits.format(number))
}

fn push_found(alloc: Global, text: &mut String, found: &Option<Value>) -> Result<(), AllocError>
    ensures { OnOk result (Appends (found_text found.now) text.old text.new) }
{
    match found {
        None => text.push_str("none"),
        Some(value) => {
            text.push_str("some ")?;
            push_bytes(alloc, text, value.bytes())
        }
    }
}

fn push_key(alloc: Global, text: &mut String, key: &Key) -> Result<(), AllocError>
    ensures { OnOk result (Appends (key_label key.now) text.old text.new) }
{
    text.push_str(" ")?;
    push_bytes(alloc, text, key.text().as_bytes())?;
    text.push_str("=")
}

fn push_pair(alloc: Global, text: &mut String, pair: &(Key, Value)) -> Result<(), AllocError>
    ensures { OnOk result (Appends (pair_text pair.now) text.old text.new) }
{
    push_key(alloc, text, &pair.0)?;
    push_bytes(alloc, text, pair.1.bytes())
}

fn push_pairs(alloc: Global, text: &mut String, pairs: &[(Key, Value)]) -> Result<(), AllocError>
    ensures { OnOk result (Appends (codes "pairs" ++ flat_map pair_text pairs.now)
        text.old text.new) }
{
    text.push_str("pairs")?;
    for pair in pairs {
        push_pair(alloc, text, pair)?;
    }
    Ok(())
}

fn push_answered(
    alloc: Global,
    text: &mut String,
    answered: &Result<Value, ProcessorFault>,
) -> Result<(), AllocError>
    ensures { OnOk result (Appends (answered_text answered.now) text.old text.new) }
{
    match answered {
        Ok(value) => {
            text.push_str("some ")?;
            push_bytes(alloc, text, value.bytes())
        }
        Err(_) => text.push_str("fault"),
    }
}

fn push_result(
    alloc: Global,
    text: &mut String,
    of_key: &(Key, Result<Value, ProcessorFault>),
) -> Result<(), AllocError>
    ensures { OnOk result (Appends (result_text of_key.now) text.old text.new) }
{
    push_key(alloc, text, &of_key.0)?;
    push_answered(alloc, text, &of_key.1)
}

fn push_results(
    alloc: Global,
    text: &mut String,
    results: &[(Key, Result<Value, ProcessorFault>)],
) -> Result<(), AllocError>
    ensures { OnOk result (Appends (codes "results" ++ flat_map result_text results.now)
        text.old text.new) }
{
    text.push_str("results")?;
    for of_key in results {
        push_result(alloc, text, of_key)?;
    }
    Ok(())
}

/// Adds a number and a space.
pub fn push_spaced(text: &mut String, number: u64) -> Result<(), AllocError>
    ensures { OnOk result (Appends (spaced_number number) text.old text.new) }
{
    push_number(text, number)?;
    text.push_str(" ")
}

fn push_counts(text: &mut String, counts: &Counts) -> Result<(), AllocError>
    ensures { OnOk result (Appends (counts_text counts.now) text.old text.new) }
{
    push_spaced(text, counts.hits)?;
    push_spaced(text, counts.misses)?;
    push_spaced(text, counts.puts)?;
    push_spaced(text, counts.removals)?;
    push_number(text, counts.evictions)
}

/// What kind of callback it was.
pub fn name_of_hook(by: &By) -> &'static str
    ensures { result.now ≡ by_text by.now }
{
    match by {
        By::Loader => "loader",
        By::Writer => "writer",
        By::Processor => "processor",
    }
}

fn push_done(text: &mut String, done: Option<u32>) -> Result<(), AllocError>
    ensures { OnOk result (Appends (done_text done) text.old text.new) }
{
    match done {
        None => Ok(()),
        Some(keys) => {
            text.push_str(" after ")?;
            push_number(text, keys as u64)
        }
    }
}

/// Adds the text of a reply.
pub fn push_reply(alloc: Global, text: &mut String, reply: &Reply) -> Result<(), AllocError>
    ensures { OnOk result (Appends (reply_text reply.now) text.old text.new) }
{
    match reply {
        Reply::Done => text.push_str("ok"),
        Reply::Truth(true) => text.push_str("true"),
        Reply::Truth(false) => text.push_str("false"),
        Reply::Found(found) => push_found(alloc, text, found),
        Reply::Listed(pairs) => push_pairs(alloc, text, pairs.items()),
        Reply::Results(results) => push_results(alloc, text, results.items()),
        Reply::Counted(counts) => push_counts(text, counts),
        Reply::Fault { by, done } => {
            text.push_str("fault ")?;
            text.push_str(name_of_hook(by))?;
            push_done(text, *done)
        }
    }
}

/// The text of a reply, as a report has it.
pub fn reply_text(alloc: Global, reply: &Reply) -> Result<String, AllocError>
    ensures { IfOk result (λ s. string_bytes s ≡ reply_text reply.now) }
{
    let mut text = String::new(alloc);
    push_reply(alloc, &mut text, reply)?;
    Ok(text)
}
