//! Calls whose requests are answered by what is lent to them.
ghost use Rattle.std.specs.Prelude.{◌≡◌, None, IfOk, IfErr, slice_get};
ghost use mathlib.Core.List.{IsPrefix};
ghost use Rattle.jc_model.specs.declared.event.End.TheVariants.{Replied};
ghost use Rattle.jc_engine.specs.Recording.{blank};
ghost use Rattle.jc_shared.specs.Progress.{AddsCall, AddsWaited, EndsBy, FailsBy};

use crate::pending::{PendingCall, Progress};
use crate::session::Session;
use jc_engine::journal::open_calls::OpenCalls;
use jc_hooks::{FilteredListener, Loader, Processor, Responder, Writer};
use jc_locked::fault::CallFault;
use jc_locked::guarded_state::GuardedState;
use jc_locked::name::Name;
use jc_model::call::{Call, Notice, Reply, Request};
use jc_model::event::{CacheId, Entry};
use jc_model::list::Sequence;
use std::sync::{MutexGuard, Wait};

impl<'a, N: Name, L: Loader, W: Writer, P: Processor, K: FilteredListener> Session<
    'a,
    N,
    L,
    W,
    P,
    K,
    OpenCalls,
> {
    /// Makes a call whose requests are answered by what is lent to it. Such calls on a cache, and those that its callbacks
    /// answer, wait for each other.
    ///
    /// Refused as `begin`; also as `OutOfMemory` at once where the callbacks of a created cache can't be shared. Where an
    /// answer or memory for it is lacking the call is given up, and the notices that are left are told: `OutOfMemory`.
    pub fn call_by<R: Wait, A: Responder>(
        &mut self,
        rt: &R,
        id: CacheId,
        now: u64,
        call: Call,
        responder: &mut A,
    ) -> Result<Reply, CallFault>
        ensures number { self.new.number ≡ self.old.number }
        ensures ok { IfOk result (λ reply. AddsCall N.configs self.old self.new
            (blank self.old.number id now call) (Replied reply)) }
        ensures err { IfErr result (FailsBy N.configs self.old self.new id now call) }
        ensures front { IsPrefix self.old.pass.images self.new.pass.images }
    {
        if let Some(value) = self.get_at_once(rt, id, now, &call) {
            drop(call);
            return Ok(Reply::Found(value));
        }
        let drafted = self.draft_of(id, now, &call);
        let Ok(draft) = drafted else {
            drop(call);
            return Err(CallFault::OutOfMemory);
        };
        match self.manager.opening_hooks(id) {
            Some(_) => self.call_opened_by(rt, draft, call, responder),
            None => self.call_created_by(rt, draft, call, responder),
        }
    }

    /// The same on a cache that a session has created. One without callbacks has no turns.
    fn call_created_by<R: Wait, A: Responder>(
        &mut self,
        rt: &R,
        draft: Entry,
        call: Call,
        responder: &mut A,
    ) -> Result<Reply, CallFault>
        requires draft { draft ≡ blank self.old.number draft.id draft.at call }
        requires created { slice_get N.configs draft.id ≡ None }
        ensures number { self.new.number ≡ self.old.number }
        ensures ok { IfOk result (λ reply.
            AddsCall N.configs self.old self.new draft (Replied reply)) }
        ensures err { IfErr result (FailsBy N.configs self.old self.new draft.id draft.at call) }
        ensures front { IsPrefix self.old.pass.images self.new.pass.images }
    {
        let manager = self.manager;
        let locked = manager.locked.lock(rt);
        if locked.asks_no_one(draft.id) {
            return self.make_by(rt, locked, draft, call, responder);
        }
        drop(locked);
        let lock = match manager.hooks_lock(rt, draft.id) {
            Ok(lock) => lock,
            Err(unfound) => {
                drop((draft, call));
                return Err(CallFault::from(unfound));
            }
        };
        let _turn = lock.lock(rt);
        self.make_by(rt, manager.locked.lock(rt), draft, call, responder)
    }

    /// The same on a cache of the opening.
    fn call_opened_by<R: Wait, A: Responder>(
        &mut self,
        rt: &R,
        draft: Entry,
        call: Call,
        responder: &mut A,
    ) -> Result<Reply, CallFault>
        requires { draft ≡ blank self.old.number draft.id draft.at call }
        ensures number { self.new.number ≡ self.old.number }
        ensures ok { IfOk result (λ reply.
            AddsCall N.configs self.old self.new draft (Replied reply)) }
        ensures err { IfErr result (FailsBy N.configs self.old self.new draft.id draft.at call) }
        ensures front { IsPrefix self.old.pass.images self.new.pass.images }
    {
        let manager = self.manager;
        let Some(lock) = manager.opened_lock(draft.id) else {
            return self.make_by(rt, manager.locked.lock(rt), draft, call, responder);
        };
        let _turn = lock.lock(rt);
        self.make_by(rt, manager.locked.lock(rt), draft, call, responder)
    }

    /// Makes the draft's call, which begins in this tenure, in the cache's turn.
    fn make_by<R: Wait, A: Responder>(
        &mut self,
        rt: &R,
        locked: MutexGuard<'_, GuardedState<N, OpenCalls>>,
        draft: Entry,
        call: Call,
        responder: &mut A,
    ) -> Result<Reply, CallFault>
        requires { draft ≡ blank self.old.number draft.id draft.at call }
        ensures number { self.new.number ≡ self.old.number }
        ensures ok { IfOk result (λ reply.
            AddsCall N.configs self.old self.new draft (Replied reply)) }
        ensures err { IfErr result (FailsBy N.configs self.old self.new draft.id draft.at call) }
        ensures front { IsPrefix self.old.pass.images self.new.pass.images }
    {
        match self.begin_in(locked, draft, call) {
            Ok(Progress::Replied(reply)) => Ok(reply),
            Ok(Progress::Waits(pending)) => self.carry(rt, pending, responder),
            Err((fault, call)) => {
                drop(call);
                Err(fault)
            }
        }
    }

    /// Carries a call to its end.
    fn carry<R: Wait, A: Responder>(
        &mut self,
        rt: &R,
        pending: PendingCall<N>,
        responder: &mut A,
    ) -> Result<Reply, CallFault>
        ensures number { self.new.number ≡ self.old.number }
        ensures ok { IfOk result (λ reply.
            AddsWaited N.configs self.old self.new pending.draft (Replied reply)) }
        ensures err { IfErr result (EndsBy N.configs self.old self.new pending.draft) }
        ensures front { IsPrefix self.old.pass.images self.new.pass.images }
    {
        let mut pending = pending;
        for _ in rt.forever() {
            let Ok(answer) = responder.respond(pending.request()) else {
                return Err(self.abandon(rt, pending, responder));
            };
            match self.resume(rt, pending, answer) {
                Ok(Progress::Replied(reply)) => return Ok(reply),
                Ok(Progress::Waits(next)) => pending = next,
                Err((_, back, answer)) => {
                    drop(answer);
                    return Err(self.abandon(rt, back, responder));
                }
            }
        }
        unreachable!()
    }

    /// Gives a call up, and tells the notices that are left.
    fn abandon<R: Wait, A: Responder>(
        &mut self,
        rt: &R,
        pending: PendingCall<N>,
        responder: &mut A,
    ) -> CallFault
        ensures number { self.new.number ≡ self.old.number }
        ensures ends { EndsBy N.configs self.old self.new pending.draft result }
        ensures front { IsPrefix self.old.pass.images self.new.pass.images }
    {
        match self.give_up(rt, pending) {
            Ok(left) => {
                tell_left(responder, left);
                CallFault::OutOfMemory
            }
            Err(fault) => fault,
        }
    }
}

/// Has the notices told that a give-up has left, if there are any.
fn tell_left<A: Responder>(responder: &mut A, left: Sequence<Notice>) {
    if left.items().is_empty() {
        drop(left);
        return;
    }
    let request = Request::Tell(left);
    drop(responder.respond(&request));
    drop(request);
}
