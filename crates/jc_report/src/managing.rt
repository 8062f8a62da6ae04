//! The objects of lines that create and destroy caches.
ghost use Rattle.std.specs.Prelude.{◌≡◌, OnOk};
ghost use Rattle.jc_report.specs.Report.{Appends};
ghost use Rattle.jc_report.specs.Lines.{head_json, id_json, refusal_text, answer_json, managed_json};

use crate::replies::{push_kind, push_kind_alone};
use crate::values::{push_first, push_next, push_number_member, push_text, push_word};
use crate::{name_of_op, push_number};
use jc_model::event::CreateRefusal;
use jc_script::Managed;
use std::alloc::{AllocError, Global};

/// Adds the beginning of a line's object: its number, its session, and the name of its cache.
#[tactic(auto, unfolding(crate::specs::Lines::head_json))]
pub fn push_head(
    alloc: Global,
    text: &mut String,
    number: usize,
    session: u32,
    cache: &str,
) -> Result<(), AllocError>
    ensures { OnOk result (Appends (head_json number session cache.now) text.old text.new) }
{
    push_first(text, "line")?;
    push_number(text, number as u64)?;
    push_number_member(text, "session", u64::from(session))?;
    push_next(text, "cache")?;
    push_text(alloc, text, cache)
}

fn push_id(text: &mut String, refusal: Option<CreateRefusal>, id: u64) -> Result<(), AllocError>
    ensures { OnOk result (Appends (id_json refusal id) text.old text.new) }
{
    match refusal {
        None => push_number(text, id),
        Some(_) => text.push_str("null"),
    }
}

fn name_of_refusal(refusal: CreateRefusal) -> &'static str
    ensures { result.now ≡ refusal_text refusal }
{
    match refusal {
        CreateRefusal::TooManyCaches => "too many caches",
        CreateRefusal::BadCapacity => "bad capacity",
        CreateRefusal::TooManyListeners => "too many listeners",
        CreateRefusal::TooManyProcessors => "too many processors",
        CreateRefusal::DuplicateName => "duplicate name",
        CreateRefusal::TotalCapacity => "total capacity",
        CreateRefusal::IdsSpent => "ids spent",
        CreateRefusal::OutOfMemory => "out of memory",
    }
}

fn push_answer(text: &mut String, refusal: Option<CreateRefusal>) -> Result<(), AllocError>
    ensures { OnOk result (Appends (answer_json refusal) text.old text.new) }
{
    match refusal {
        None => push_kind_alone(text, "done"),
        Some(refusal) => {
            push_kind(text, "refused")?;
            push_next(text, "why")?;
            push_word(text, name_of_refusal(refusal))?;
            text.push_str("}")
        }
    }
}

/// Adds the object of a line that created or destroyed the life with this id, or was refused.
#[tactic(auto, unfolding(crate::specs::Lines::managed_json))]
pub fn push_managed(
    alloc: Global,
    text: &mut String,
    number: usize,
    id: u64,
    managed: &Managed,
) -> Result<(), AllocError>
    ensures { OnOk result (Appends (managed_json number id managed.now) text.old text.new) }
{
    push_head(alloc, text, number, managed.session, managed.name.text())?;
    push_next(text, "id")?;
    push_id(text, managed.refusal, id)?;
    push_next(text, "op")?;
    push_word(text, name_of_op(managed.op))?;
    push_next(text, "reply")?;
    push_answer(text, managed.refusal)?;
    text.push_str("}\n")
}
