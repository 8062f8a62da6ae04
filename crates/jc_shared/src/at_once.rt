//! Calls that have their reply at once, in the one tenure of the manager's lock in which they begin, so that no entry is
//! made before it: gets that ask no one, and all calls on caches without callbacks.
ghost use Rattle.std.specs.Prelude.{◌≡◌, ◌≢◌, None, IsOk, IfSome, IfOk, IfErr};
ghost use mathlib.Core.List.{IsPrefix};
ghost use Rattle.jc_model.specs.declared.call.Reply.TheVariants.{Found};
ghost use Rattle.jc_model.specs.declared.event.End.TheVariants.{Replied};
ghost use Rattle.jc_engine.specs.Recording.{blank};
ghost use Rattle.jc_engine.specs.RecordedSteps.{reply_in};
ghost use Rattle.jc_locked.specs.Calls.{Adds, CallFails, LacksProcessor};
ghost use Rattle.jc_locked.specs.Finding.{IsReplied};
ghost use Rattle.jc_locked.specs.Pending.{AddsEntry};
ghost use Rattle.jc_locked.specs.Unasked.{HasNoCallbacks};
ghost use Rattle.jc_shared.specs.Progress.{AddsBegun};

use crate::session::Session;
use jc_engine::journal::change::CallHeader;
use jc_engine::recorded::found_in;
use jc_hooks::{FilteredListener, Loader, Processor, Writer};
use jc_locked::fault::CallFault;
use jc_locked::guarded_state::GuardedState;
use jc_locked::journal_policy::{JournalPolicy, SessionJournal};
use jc_locked::name::Name;
use jc_model::call::{Call, Reply};
use jc_model::event::{CacheId, Step};
use jc_model::value::Value;
use std::alloc::Global;
use std::sync::{MutexGuard, Wait};

/// Adds a call that has begun, and of which this is kept, to a session's own: with its reply, where its first step is
/// that, else as one that waits. Beside the step stands a copy of the reply. It is inlined, so that neither is moved.
#[inline(always)]
pub(crate) fn add_begun<O: SessionJournal>(
    own: &mut O,
    alloc: Global,
    call: (CallHeader, O::Kept),
    first: (Step, Option<Reply>),
) -> Result<Reply, CallFault>
    requires room { O.HasRoom own.old }
    requires kept { O.IsOf call.1 call.0.call.value }
    requires copy { first.1 ≡ reply_in first.0 }
    ensures adds { AddsBegun call.0 first.0 (O.calls own.old) (O.calls own.new) result }
    ensures replied { IsReplied first.0 → IsOk result }
{
    let (begun, kept) = call;
    let (step, copy) = first;
    match step {
        Step::Done(reply) => match copy {
            Some(copy) => {
                own.push_replied(alloc, begun, kept, copy);
                Ok(reply)
            }
            None => unreachable!(),
        },
        Step::Need(request) => {
            drop((request, copy));
            own.push_waiting(alloc, begun, kept);
            Err(CallFault::Overtaken)
        }
    }
}

impl<
    'a,
    N: Name,
    L: Loader,
    W: Writer,
    P: Processor,
    K: FilteredListener,
    J: JournalPolicy,
> Session<'a, N, L, W, P, K, J> {
    /// Makes a get that has its reply at once, where no entry of it is kept in memory: the value that was found. Of any
    /// other call nothing, and the session is as it was.
    pub(crate) fn get_at_once<R: Wait>(
        &mut self,
        rt: &R,
        id: CacheId,
        now: u64,
        call: &Call,
    ) -> Option<Option<Value>>
        ensures number { self.new.number ≡ self.old.number }
        ensures some { IfSome result (λ value. AddsEntry N.configs self.old self.new
            (record (blank self.old.number id now call.now) { end = Replied (Found value) })) }
        ensures lacks { LacksProcessor N.configs id call.now → result ≡ None }
        ensures same { result ≡ None → self.new ≡ self.old }
        ensures front { IsPrefix self.old.pass.images self.new.pass.images }
    {
        let Call::Get(_) = call else {
            return None;
        };
        if !self.own.notes() {
            return None;
        }
        let manager = self.manager;
        let begun = CallHeader::of(self.origin(id, now), call);
        let found = manager
            .locked
            .lock(rt)
            .get_at_once(&mut self.seat, begun.origin, call);
        let value = found?;
        let reply = Reply::Found(value);
        if !self.own.note(begun, &reply) {
            unreachable!()
        }
        Some(found_in(reply))
    }

    /// Makes a call on a cache without callbacks, in this tenure. It is never inlined: a get that hits is to have no share
    /// in what this needs.
    #[inline(never)]
    pub(crate) fn make_in(
        &mut self,
        mut locked: MutexGuard<'_, GuardedState<N, J>>,
        id: CacheId,
        now: u64,
        call: Call,
    ) -> Result<Reply, CallFault>
        ensures number { self.new.number ≡ self.old.number }
        ensures ok { IfOk result (λ reply.
            Adds N.configs N.stated self.old self.new id now call (Replied reply)) }
        ensures err { IfErr result (CallFails N.configs N.stated self.old self.new id now call) }
        ensures unasked { HasNoCallbacks N.configs id →
            IfErr result (λ fault. fault ≢ CallFault.Overtaken) }
        ensures front { IsPrefix self.old.pass.images self.new.pass.images }
    {
        let manager = self.manager;
        let kept = self.own.keep(&call);
        let Ok(kept) = kept else {
            drop(locked);
            drop(call);
            return Err(CallFault::OutOfMemory);
        };
        let begun = CallHeader::of(self.origin(id, now), &call);
        let came = locked.begin_call(&mut self.seat, id, now, call);
        drop(locked);
        match came {
            Ok(pair) => add_begun(&mut self.own, manager.alloc, (begun, kept), pair),
            Err(fault) => {
                drop((begun, kept));
                Err(fault)
            }
        }
    }
}
