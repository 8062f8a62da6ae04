//! The entries of each caller: of a session on a cache.
ghost use Rattle.std.specs.Prelude.{◌≡◌, None, List, drop, slice_get, option_copied, IfOk, OnOk};
ghost use Rattle.std.specs.HashMap.{get};
ghost use Rattle.std.specs.List.{find};
ghost use Rattle.jc_model.specs.declared.event.Entry.{Entry as Called};
ghost use Rattle.jc_report.specs.Callers.{caller_eq, entries_by, AddsCallersEntry, AreLeft, ChangesOwn};
ghost use Rattle.jc_report.specs.Lines.{is_by, without_first};

use crate::queue::Queue;
use jc_model::event::{CacheId, Entry};
use std::alloc::{AllocError, Global};
use std::collections::HashMap;

/// By a cache's id and a session, the entries that are left, in their order.
pub type Callers<'e> = HashMap<(u32, u32), Queue<'e>>;

/// Adds the first entry of a caller.
fn begin<'e>(
    alloc: Global,
    callers: &mut Callers<'e>,
    id: u32,
    session: u32,
    entry: &'e Entry,
) -> Result<(), AllocError>
    requires { get caller_eq callers.old (id, session) ≡ None }
    ensures { OnOk result (AddsCallersEntry entry.entry.now id session callers.old callers.new) }
{
    let mut queue = Queue::new(alloc);
    queue.push(entry)?;
    callers.insert((id, session), queue)?;
    Ok(())
}

/// Adds an entry behind those of its caller.
fn add<'e>(
    alloc: Global,
    callers: &mut Callers<'e>,
    id: u32,
    session: u32,
    entry: &'e Entry,
) -> Result<(), AllocError>
    ensures { OnOk result (AddsCallersEntry entry.entry.now id session callers.old callers.new) }
{
    match callers.get_mut(&(id, session)) {
        Some(queue) => queue.push(entry),
        None => begin(alloc, callers, id, session, entry),
    }
}

/// The entries of each caller.
pub fn callers<'e>(alloc: Global, entries: &'e [Entry]) -> Result<Callers<'e>, AllocError>
    ensures { IfOk result (λ callers. AreLeft callers entries.entry.now) }
{
    let mut callers = HashMap::new(alloc);
    for entry in entries {
        add(alloc, &mut callers, entry.id.number(), entry.session, entry)?;
    }
    Ok(callers)
}

/// Takes the first of the entries that a caller has left.
fn take_entry<'e>(callers: &mut Callers<'e>, id: u32, session: u32) -> Option<&'e Entry>
    ensures first { option_copied result ≡ slice_get (entries_by id session callers.old) 0 }
    ensures left { ChangesOwn (drop 1) id session callers.old callers.new }
{
    match callers.get_mut(&(id, session)) {
        Some(queue) => queue.take(),
        None => None,
    }
}

/// Takes the first entry of a session on a cache.
pub fn take_first<'e>(callers: &mut Callers<'e>, session: u32, id: CacheId) -> Option<&'e Entry>
    ensures first { (entries : List Called) → AreLeft callers.old entries
        → option_copied result ≡ find (is_by id session) entries }
    ensures left { (entries : List Called) → AreLeft callers.old entries
        → AreLeft callers.new (without_first (is_by id session) entries) }
{
    take_entry(callers, id.number(), session)
}
