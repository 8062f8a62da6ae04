//! What a call on many keys gathers of its steps, in room that was made before the first of them.
ghost use Rattle.std.specs.Prelude.{◌≡◌, ℕ, ◌+◌, ◌<◌, ◌≤◌, ◌^◌, Some, None, IfOk, IfSome, option_map};
ghost use Rattle.jc_model.specs.declared.call.Reply.TheVariants.{Fault};
ghost use Rattle.jc_model.specs.Bulk.{with_key, gathered_reply, ends_call};
ghost use Rattle.jc_ops.specs.Visited.{Visited};
ghost use Rattle.jc_bulk.specs.Calls.{first_sum};
ghost use Rattle.jc_bulk.specs.Tallied.{gathered_in, sum_of, found_in, result_in, pushed};
ghost use Rattle.jc_bulk.specs.Tallied.{HasRoomFor, UsesRoomForOne};

use crate::lists::Lists;
use jc_model::OutOfMemory;
use jc_model::call::{By, Call, ProcessorFault, Reply};
use jc_model::key::Key;
use jc_model::owners::Owners;
use jc_model::value::Value;
use jc_ops::step::reply::{done, fault};
use std::alloc::Global;

/// The replies of the keys so far.
#[derive(Drop)]
pub enum Collected {
    Nothing,
    Pairs(Lists<(Key, Value)>),
    Results(Lists<(Key, Result<Value, ProcessorFault>)>),
}

/// How many keys are done, and what was gathered of them.
#[derive(Drop)]
pub struct CallSum {
    pub done: u32,
    pub collected: Collected,
}

/// Whose fault ends the call, if this reply to a key is one.
fn ends_call(reply: &Reply) -> Option<By>
    ensures { result ≡ ends_call reply.now }
{
    match reply {
        Reply::Fault { by: By::Loader, .. } => Some(By::Loader),
        Reply::Fault { by: By::Writer, .. } => Some(By::Writer),
        _ => None,
    }
}

/// The value that was found.
fn found(reply: Reply) -> Option<Value>
    ensures { result ≡ found_in reply }
{
    match reply {
        Reply::Found(value) => value,
        _ => None,
    }
}

/// What the processor came to, if it answered or failed.
fn processed(reply: Reply) -> Option<Result<Value, ProcessorFault>>
    ensures { result ≡ result_in reply }
{
    match reply {
        Reply::Found(Some(value)) => Some(Ok(value)),
        Reply::Fault { .. } => Some(Err(ProcessorFault {})),
        _ => None,
    }
}

/// Adds a key with its part of the reply, where it has one.
pub fn push<T: Drop>(lists: &mut Lists<(Key, T)>, key: Key, part: Owners<Option<T>>)
    requires room { 0 < lists.old.spare }
    ensures items { lists.new.items ≡ pushed lists.old.items key part }
    ensures spare { lists.old.spare ≤ lists.new.spare + 1 }
{
    let (first, second, third) = part.into_three();
    if let (Some(first), Some(second), Some(third)) = (first, second, third) {
        lists.push(Owners::new((key, first), (key, second), (key, third)));
    }
}

impl CallSum {
    /// No keys are done, and there is room for what a call on so many gathers.
    pub fn for_call(alloc: Global, call: &Call, keys: usize) -> Result<CallSum, OutOfMemory>
        ensures sum { (v : Visited) → IfOk result (λ t. sum_of t ≡ first_sum v call.now) }
        ensures room { IfOk result (λ t. HasRoomFor keys t.collected) }
    {
        let collected = match call {
            Call::GetAll(_) => Collected::Pairs(Lists::with_room(alloc, keys)?),
            Call::InvokeAll { .. } => Collected::Results(Lists::with_room(alloc, keys)?),
            _ => Collected::Nothing,
        };
        Ok(CallSum { done: 0, collected })
    }

    /// Adds a key that is done, with its reply. Where that ends the call, nothing is added, and this is the call's reply.
    pub fn add(&mut self, key: Key, reply: Owners<Reply>) -> Option<Owners<Reply>>
        requires room { HasRoomFor 1 self.old.collected }
        requires few { self.old.done + 1 < 2 ^ 32 }
        ensures ends { result ≡ option_map (λ by. Fault by (Some self.old.done)) (ends_call reply) }
        ensures same { IfSome result (λ r. self.new ≡ self.old) }
        ensures sum { result ≡ None → sum_of self.new ≡ with_key key reply (sum_of self.old) }
        ensures room { result ≡ None → UsesRoomForOne self.old.collected self.new.collected }
    {
        if let Some(by) = ends_call(reply.first()) {
            drop(reply);
            return Some(fault(by, Some(self.done)));
        }
        self.done += 1;
        match &mut self.collected {
            Collected::Nothing => {}
            Collected::Pairs(pairs) => push(pairs, key, reply.map(found)),
            Collected::Results(results) => push(results, key, reply.map(processed)),
        }
        None
    }

    /// The reply after the last key.
    pub fn into_reply(self) -> Owners<Reply>
        ensures { result ≡ gathered_reply (gathered_in self.collected) }
    {
        match self.collected {
            Collected::Nothing => done(),
            Collected::Pairs(pairs) => pairs.into_lists().map(Reply::Listed),
            Collected::Results(results) => results.into_lists().map(Reply::Results),
        }
    }
}
