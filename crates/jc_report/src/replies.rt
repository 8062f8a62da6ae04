//! What a call came to, as JSON.
ghost use Rattle.std.specs.Prelude.{OnOk, codes};
ghost use Rattle.jc_report.specs.Report.{Appends};
ghost use Rattle.jc_report.specs.Replies.{kind_member, kind_json, valued_json, found_json, other_counters, counters_json, after_json, fault_json, reply_json, end_json};
ghost use Rattle.jc_report.specs.Values.{list_json, pair_json, result_json, truth_json};

use crate::values::{
    Shown, push_bytes, push_bytes_member, push_first, push_list, push_next, push_number_member,
    push_truth, push_word,
};
use crate::{name_of_hook, name_of_kind, push_number};
use jc_model::call::{By, Counts, Notice, ProcessorFault, Reply};
use jc_model::event::End;
use jc_model::key::Key;
use jc_model::value::Value;
use std::alloc::{AllocError, Global};

/// Begins an object with its kind.
#[tactic(auto, unfolding(crate::specs::Replies::kind_member))]
pub fn push_kind(text: &mut String, kind: &str) -> Result<(), AllocError>
    ensures { OnOk result (Appends (kind_member kind.now) text.old text.new) }
{
    push_first(text, "kind")?;
    push_word(text, kind)
}

/// Adds an object that has a kind alone.
#[tactic(auto, unfolding(crate::specs::Replies::kind_json))]
pub fn push_kind_alone(text: &mut String, kind: &str) -> Result<(), AllocError>
    ensures { OnOk result (Appends (kind_json kind.now) text.old text.new) }
{
    push_kind(text, kind)?;
    text.push_str("}")
}

#[tactic(auto, unfolding(crate::specs::Replies::valued_json))]
fn push_truth_reply(text: &mut String, truth: bool) -> Result<(), AllocError>
    ensures { OnOk result (Appends (valued_json (codes "truth") (truth_json truth))
        text.old text.new) }
{
    push_kind(text, "truth")?;
    push_next(text, "value")?;
    push_truth(text, truth)?;
    text.push_str("}")
}

fn push_value(alloc: Global, text: &mut String, found: &Option<Value>) -> Result<(), AllocError>
    ensures { OnOk result (Appends (found_json found.now) text.old text.new) }
{
    match found {
        None => text.push_str("null"),
        Some(value) => push_bytes(alloc, text, value.bytes()),
    }
}

#[tactic(auto, unfolding(crate::specs::Replies::valued_json))]
fn push_found(alloc: Global, text: &mut String, found: &Option<Value>) -> Result<(), AllocError>
    ensures { OnOk result (Appends (valued_json (codes "found") (found_json found.now))
        text.old text.new) }
{
    push_kind(text, "found")?;
    push_next(text, "value")?;
    push_value(alloc, text, found)?;
    text.push_str("}")
}

#[tactic(auto, unfolding(crate::specs::Replies::valued_json))]
fn push_listed(alloc: Global, text: &mut String, pairs: &[(Key, Value)]) -> Result<(), AllocError>
    ensures { OnOk result (Appends (valued_json (codes "listed") (list_json pair_json pairs.now))
        text.old text.new) }
{
    push_kind(text, "listed")?;
    push_next(text, "value")?;
    push_list(alloc, text, pairs)?;
    text.push_str("}")
}

#[tactic(auto, unfolding(crate::specs::Replies::valued_json))]
fn push_results(
    alloc: Global,
    text: &mut String,
    results: &[(Key, Result<Value, ProcessorFault>)],
) -> Result<(), AllocError>
    ensures { OnOk result (Appends
        (valued_json (codes "results") (list_json result_json results.now)) text.old text.new) }
{
    push_kind(text, "results")?;
    push_next(text, "value")?;
    push_list(alloc, text, results)?;
    text.push_str("}")
}

/// Adds the counters behind the hits, each by its name.
#[tactic(auto, unfolding(crate::specs::Replies::other_counters))]
pub fn push_other_counters(text: &mut String, counts: &Counts) -> Result<(), AllocError>
    ensures { OnOk result (Appends (other_counters counts.now) text.old text.new) }
{
    push_number_member(text, "misses", counts.misses)?;
    push_number_member(text, "puts", counts.puts)?;
    push_number_member(text, "removals", counts.removals)?;
    push_number_member(text, "evictions", counts.evictions)
}

fn push_counters(text: &mut String, counts: &Counts) -> Result<(), AllocError>
    ensures { OnOk result (Appends (counters_json counts.now) text.old text.new) }
{
    push_first(text, "hits")?;
    push_number(text, counts.hits)?;
    push_other_counters(text, counts)?;
    text.push_str("}")
}

#[tactic(auto, unfolding(crate::specs::Replies::valued_json))]
fn push_counted(text: &mut String, counts: &Counts) -> Result<(), AllocError>
    ensures { OnOk result (Appends (valued_json (codes "counted") (counters_json counts.now))
        text.old text.new) }
{
    push_kind(text, "counted")?;
    push_next(text, "value")?;
    push_counters(text, counts)?;
    text.push_str("}")
}

fn push_after(text: &mut String, done: Option<u32>) -> Result<(), AllocError>
    ensures { OnOk result (Appends (after_json done) text.old text.new) }
{
    match done {
        None => text.push_str("null"),
        Some(keys) => push_number(text, u64::from(keys)),
    }
}

fn push_fault(text: &mut String, by: &By, done: Option<u32>) -> Result<(), AllocError>
    ensures { OnOk result (Appends (fault_json by.now done) text.old text.new) }
{
    push_kind(text, "fault")?;
    push_next(text, "by")?;
    push_word(text, name_of_hook(by))?;
    push_next(text, "after")?;
    push_after(text, done)?;
    text.push_str("}")
}

/// Adds a reply.
fn push_reply(alloc: Global, text: &mut String, reply: &Reply) -> Result<(), AllocError>
    ensures { OnOk result (Appends (reply_json reply.now) text.old text.new) }
{
    match reply {
        Reply::Done => push_kind_alone(text, "done"),
        Reply::Truth(truth) => push_truth_reply(text, *truth),
        Reply::Found(found) => push_found(alloc, text, found),
        Reply::Listed(pairs) => push_listed(alloc, text, pairs.items()),
        Reply::Results(results) => push_results(alloc, text, results.items()),
        Reply::Counted(counts) => push_counted(text, counts),
        Reply::Fault { by, done } => push_fault(text, by, *done),
    }
}

/// Adds how a call stands.
pub fn push_end(alloc: Global, text: &mut String, end: &End) -> Result<(), AllocError>
    ensures { OnOk result (Appends (end_json end.now) text.old text.new) }
{
    match end {
        End::Waiting => push_kind_alone(text, "waiting"),
        End::Replied(reply) => push_reply(alloc, text, reply),
        End::GivenUp => push_kind_alone(text, "gave up"),
    }
}

impl Shown for Notice {
    ghost use Rattle.jc_report.specs.Replies.{event_json};

    ghost json = { event_json };

    fn push(&self, alloc: Global, text: &mut String) -> Result<(), AllocError> {
        push_kind(text, name_of_kind(&self.kind))?;
        push_bytes_member(alloc, text, "key", self.key.text().as_bytes())?;
        text.push_str("}")
    }
}
