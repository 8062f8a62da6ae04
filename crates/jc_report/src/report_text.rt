//! The whole report.
ghost use Rattle.std.specs.Prelude.{◌≡◌, IfOk, OnOk, map, nat_eq, string_bytes, option_copied};
ghost use Rattle.std.specs.List.{flat_map};
ghost use Rattle.jc_report.specs.Report.{kind_text, event_text, end_text, call_text, entry_text, group, header, life_text, lives_text, text, Appends};
ghost use Rattle.indexmap.specs.IndexMap.{get};

use crate::groups::grouped;
use crate::managed_text::push_managed;
use crate::quote::push_bytes;
use crate::reply::{push_number, push_reply, push_spaced};
use indexmap::IndexMap;
use jc_model::Transcript;
use jc_model::call::{Kind, Notice};
use jc_model::event::{End, Entry, Life};
use jc_script::{Managed, name_of};
use std::alloc::{AllocError, Global};

/// What a listener was told of an entry.
pub fn name_of_kind(kind: &Kind) -> &'static str
    ensures { result.now ≡ kind_text kind.now }
{
    match kind {
        Kind::Created => "created",
        Kind::Updated => "updated",
        Kind::Removed => "removed",
        Kind::Expired => "expired",
    }
}

fn push_event(
    alloc: Global,
    report: &mut String,
    session: u32,
    notice: &Notice,
) -> Result<(), AllocError>
    ensures { OnOk result (Appends (event_text session notice.now) report.old report.new) }
{
    push_number(report, session as u64)?;
    report.push_str(" event ")?;
    report.push_str(name_of_kind(&notice.kind))?;
    report.push_str(" ")?;
    push_bytes(alloc, report, notice.key.text().as_bytes())?;
    report.push_str("\n")
}

fn push_events(
    alloc: Global,
    report: &mut String,
    session: u32,
    told: &[Notice],
) -> Result<(), AllocError>
    ensures { OnOk result (Appends (flat_map (event_text session) told.now) report.old report.new) }
{
    for notice in told {
        push_event(alloc, report, session, notice)?;
    }
    Ok(())
}

fn push_end(alloc: Global, report: &mut String, end: &End) -> Result<(), AllocError>
    ensures { OnOk result (Appends (end_text end.now) report.old report.new) }
{
    match end {
        End::Waiting => report.push_str("waiting"),
        End::Replied(reply) => push_reply(alloc, report, reply),
        End::GivenUp => report.push_str("gave up"),
    }
}

fn push_call(alloc: Global, report: &mut String, entry: &Entry) -> Result<(), AllocError>
    ensures { OnOk result (Appends (call_text entry.now) report.old report.new) }
{
    push_spaced(report, entry.session as u64)?;
    report.push_str(name_of(&entry.call))?;
    report.push_str(" ")?;
    push_end(alloc, report, &entry.end)?;
    report.push_str("\n")
}

fn push_entry(alloc: Global, report: &mut String, entry: &Entry) -> Result<(), AllocError>
    ensures { OnOk result (Appends (entry_text entry.now) report.old report.new) }
{
    push_events(alloc, report, entry.session, entry.told.items())?;
    push_call(alloc, report, entry)
}

fn push_group(alloc: Global, report: &mut String, group: &[&Entry]) -> Result<(), AllocError>
    ensures { OnOk result (Appends (flat_map entry_text (map (λ e. e.now) group.now))
        report.old report.new) }
{
    for entry in group {
        push_entry(alloc, report, entry)?;
    }
    Ok(())
}

fn push_header(report: &mut String, name: &str) -> Result<(), AllocError>
    ensures { OnOk result (Appends (header name.now) report.old report.new) }
{
    report.push_str("cache ")?;
    report.push_str(name)?;
    report.push_str("\n")
}

fn push_cache(
    alloc: Global,
    report: &mut String,
    name: &str,
    entries: Option<&Vec<&Entry>>,
) -> Result<(), AllocError>
    ensures { OnOk result (Appends (life_text name.now (group (option_copied entries.entry)))
        report.old report.new) }
{
    push_header(report, name)?;
    match entries {
        None => Ok(()),
        Some(group) => push_group(alloc, report, group.as_slice()),
    }
}

fn push_life(
    alloc: Global,
    report: &mut String,
    life: &Life,
    groups: &IndexMap<usize, Vec<&Entry>>,
) -> Result<(), AllocError>
    ensures { OnOk result (Appends
        (life_text life.now.config.name (group (get nat_eq groups.now life.now.id)))
        report.old report.new) }
{
    let id = life.id.number() as usize;
    push_cache(alloc, report, life.config.name.text(), groups.get(&id))
}

fn push_lives(
    alloc: Global,
    report: &mut String,
    lives: &[Life],
    entries: &[Entry],
) -> Result<(), AllocError>
    ensures { OnOk result (Appends (lives_text lives.now entries.now) report.old report.new) }
{
    let groups = grouped(alloc, entries)?;
    for life in lives {
        push_life(alloc, report, life, &groups)?;
    }
    Ok(())
}

/// The report of a transcript: each life by its cache's name, in order of id, and its entries, each with the notices
/// that were told; then, where there were such lines, what became of those that created and destroyed caches.
pub fn report(
    alloc: Global,
    transcript: &Transcript,
    managed: &[Managed],
) -> Result<String, AllocError>
    ensures { IfOk result (λ s. string_bytes s ≡ text transcript.now managed.now) }
{
    let mut report = String::new(alloc);
    push_lives(alloc, &mut report, transcript.lives(), transcript.entries())?;
    push_managed(&mut report, managed)?;
    Ok(report)
}
