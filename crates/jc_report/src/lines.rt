//! The objects of a script's lines.
ghost use Rattle.std.specs.Prelude.{◌≡◌, ◌≤◌, ◌<◌, ◌+◌, ◌-◌, ◌^◌, List, drop, length, slice_get, option_copied, OnOk};
ghost use Rattle.jc_model.specs.declared.event.Entry.{Entry as Called};
ghost use Rattle.jc_report.specs.Report.{Appends};
ghost use Rattle.jc_report.specs.Callers.{AreLeft};
ghost use Rattle.jc_report.specs.Lines.{asked_json, answered_json, call_json, name_at, call_line, json_managed_line, id_after, next_after, entries_left_by, managed_after, line_json, lines_json};

use crate::arguments::push_arguments;
use crate::callers::{Callers, callers, take_first};
use crate::line_numbers::{Asked, NumberedLine};
use crate::managing::{push_head, push_managed};
use crate::replies::push_end;
use crate::run_record::RunRecord;
use crate::values::{push_list, push_next, push_number_member, push_word};
use jc_model::event::{CacheId, Entry, Life};
use jc_script::{Managed, name_of};
use std::alloc::{AllocError, Global};

/// What lines have left to those after them: entries, and what became of lines that create and destroy; and the id that
/// the next life gets.
#[derive(Drop)]
struct Left<'e> {
    callers: Callers<'e>,
    managed: &'e [Managed],
    next: u64,
}

impl<'e> Left<'e> {
    /// Takes what became of the next line that creates or destroys.
    fn take_managed(&mut self) -> Option<&'e Managed>
        ensures first { option_copied result ≡ slice_get self.old.managed.now 0 }
        ensures left { self.new.managed.now ≡ drop 1 self.old.managed.now }
        ensures callers { self.new.callers ≡ self.old.callers }
        ensures next { self.new.next ≡ self.old.next }
    {
        match self.managed {
            [] => None,
            [first, rest @ ..] => {
                self.managed = rest;
                Some(first)
            }
        }
    }

    /// The id of the life that a line begins, if it begins one; what became of it was noted here.
    fn id(&mut self, managed: Option<&Managed>) -> u64
        requires { self.old.next < 2 ^ 64 - 1 }
        ensures id { result ≡ self.old.next }
        ensures next { self.new.next ≡ id_after (option_copied managed.entry) self.old.next }
        ensures callers { self.new.callers ≡ self.old.callers }
        ensures managed { self.new.managed ≡ self.old.managed }
    {
        let id = self.next;
        if let Some(managed) = managed
            && managed.refusal.is_none()
        {
            self.next = id + 1;
        }
        id
    }
}

/// Adds a call's cache and moment, its op, and what it was made with.
#[tactic(auto, unfolding(crate::specs::Lines::asked_json))]
fn push_asked(alloc: Global, text: &mut String, entry: &Entry) -> Result<(), AllocError>
    ensures { OnOk result (Appends (asked_json entry.now) text.old text.new) }
{
    push_number_member(text, "id", u64::from(entry.id.number()))?;
    push_number_member(text, "at", entry.at)?;
    push_next(text, "op")?;
    push_word(text, name_of(&entry.call))?;
    push_arguments(alloc, text, &entry.call)
}

/// Adds what was told of a call, and what it came to.
#[tactic(auto, unfolding(crate::specs::Lines::answered_json))]
fn push_answered(alloc: Global, text: &mut String, entry: &Entry) -> Result<(), AllocError>
    ensures { OnOk result (Appends (answered_json entry.now) text.old text.new) }
{
    push_next(text, "events")?;
    push_list(alloc, text, entry.told.items())?;
    push_next(text, "reply")?;
    push_end(alloc, text, &entry.end)
}

#[tactic(auto, unfolding(crate::specs::Lines::call_json))]
fn push_call(
    alloc: Global,
    text: &mut String,
    number: usize,
    cache: &str,
    entry: &Entry,
) -> Result<(), AllocError>
    ensures { OnOk result (Appends (call_json number cache.now entry.now) text.old text.new) }
{
    push_head(alloc, text, number, entry.session, cache)?;
    push_asked(alloc, text, entry)?;
    push_answered(alloc, text, entry)?;
    text.push_str("}\n")
}

/// The name of a life's cache; an id is its place.
fn name_at(lives: &[Life], id: CacheId) -> &str
    ensures { result.now ≡ name_at lives.now id }
{
    match lives.get(id.number() as usize) {
        Some(life) => life.config.name.text(),
        None => "",
    }
}

fn push_call_line(
    alloc: Global,
    text: &mut String,
    number: usize,
    lives: &[Life],
    entry: Option<&Entry>,
) -> Result<(), AllocError>
    ensures { OnOk result (Appends (call_line number lives.now (option_copied entry.entry))
        text.old text.new) }
{
    match entry {
        Some(entry) => push_call(alloc, text, number, name_at(lives, entry.id), entry),
        None => Ok(()),
    }
}

fn push_managed_line(
    alloc: Global,
    text: &mut String,
    number: usize,
    id: u64,
    managed: Option<&Managed>,
) -> Result<(), AllocError>
    ensures { OnOk result (Appends (json_managed_line number id (option_copied managed.entry))
        text.old text.new) }
{
    match managed {
        Some(managed) => push_managed(alloc, text, number, id, managed),
        None => Ok(()),
    }
}

/// Adds the object of a line.
fn push_line(
    alloc: Global,
    text: &mut String,
    lives: &[Life],
    left: &mut Left<'_>,
    line: &NumberedLine,
) -> Result<(), AllocError>
    requires { left.old.next < 2 ^ 64 - 1 }
    ensures text { OnOk result ((entries : List Called) → AreLeft left.old.callers entries
        → Appends (line_json lives.now line.now.number left.old.next line.now.asked entries
        left.old.managed.now) text.old text.new) }
    ensures entries { (entries : List Called) → AreLeft left.old.callers entries
        → AreLeft left.new.callers (entries_left_by line.now.asked entries) }
    ensures managed { left.new.managed.now ≡ managed_after line.now.asked left.old.managed.now }
    ensures next { left.new.next ≡ next_after line.now.asked left.old.managed.now left.old.next }
{
    match line.asked {
        Asked::Call { session, id } => {
            let entry = take_first(&mut left.callers, session, id);
            push_call_line(alloc, text, line.number, lives, entry)
        }
        Asked::Create => {
            let managed = left.take_managed();
            let id = left.id(managed);
            push_managed_line(alloc, text, line.number, id, managed)
        }
        Asked::Destroy { id } => {
            let managed = left.take_managed();
            push_managed_line(alloc, text, line.number, u64::from(id.number()), managed)
        }
    }
}

/// Adds the objects of the lines, in their order. The first life that they create gets the id `first`.
pub fn push_lines(
    alloc: Global,
    text: &mut String,
    outline: &[NumberedLine],
    first: u32,
    run: &RunRecord<'_>,
) -> Result<(), AllocError>
    requires { first + length outline.now < 2 ^ 64 }
    ensures { OnOk result (Appends (lines_json run.now.transcript.now.lives first
        outline.now run.now.transcript.now.entries run.now.managed.now) text.old text.new) }
{
    let (lives, entries) = (run.transcript.lives(), run.transcript.entries());
    let mut left = Left {
        callers: callers(alloc, entries)?,
        managed: run.managed,
        next: u64::from(first),
    };
    for line in outline {
        push_line(alloc, text, lives, &mut left, line)?;
    }
    Ok(())
}
