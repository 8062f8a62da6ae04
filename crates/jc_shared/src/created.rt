//! Calls on caches that sessions have created.
ghost use Rattle.std.specs.Prelude.{◌≡◌, None, IfOk, IfErr, slice_get};
ghost use mathlib.Core.List.{IsPrefix};
ghost use Rattle.jc_model.specs.declared.event.End.TheVariants.{Replied};
ghost use Rattle.jc_locked.specs.Calls.{Adds, CallFails};

use crate::session::Session;
use jc_hooks::{FilteredListener, Loader, Processor, Writer};
use jc_locked::fault::CallFault;
use jc_locked::hooks::OwnHooks;
use jc_locked::journal_policy::JournalPolicy;
use jc_locked::name::Name;
use jc_model::call::{Call, Reply};
use jc_model::event::CacheId;
use std::sync::Wait;

impl<
    'a,
    N: Name,
    L: Loader,
    W: Writer,
    P: Processor,
    K: FilteredListener,
    J: JournalPolicy,
> Session<'a, N, L, W, P, K, J> {
    /// Makes a call on a cache that a session has created, as `call`. One without callbacks has its reply in one tenure of
    /// the manager's lock, and no other lock is taken.
    #[inline(never)]
    pub(crate) fn call_created<R: Wait>(
        &mut self,
        rt: &R,
        id: CacheId,
        now: u64,
        call: Call,
    ) -> Result<Reply, CallFault>
        requires created { slice_get N.configs id ≡ None }
        ensures number { self.new.number ≡ self.old.number }
        ensures ok { IfOk result (λ reply.
            Adds N.configs N.stated self.old self.new id now call (Replied reply)) }
        ensures err { IfErr result (CallFails N.configs N.stated self.old self.new id now call) }
        ensures front { IsPrefix self.old.pass.images self.new.pass.images }
    {
        let manager = self.manager;
        let locked = manager.locked.lock(rt);
        if !locked.asks_no_one(id) {
            drop(locked);
            return self.call_by_own(rt, id, now, call);
        }
        self.make_in(locked, id, now, call)
    }

    /// The same by callbacks of its own.
    fn call_by_own<R: Wait>(
        &mut self,
        rt: &R,
        id: CacheId,
        now: u64,
        call: Call,
    ) -> Result<Reply, CallFault>
        requires created { slice_get N.configs id ≡ None }
        ensures number { self.new.number ≡ self.old.number }
        ensures ok { IfOk result (λ reply.
            Adds N.configs N.stated self.old self.new id now call (Replied reply)) }
        ensures err { IfErr result (CallFails N.configs N.stated self.old self.new id now call) }
        ensures front { IsPrefix self.old.pass.images self.new.pass.images }
    {
        let manager = self.manager;
        let lock = match manager.hooks_lock(rt, id) {
            Ok(lock) => lock,
            Err(unfound) => {
                drop(call);
                return Err(CallFault::from(unfound));
            }
        };
        let mut hooks = lock.lock(rt);
        let OwnHooks { asked, locked } = &mut *hooks;
        let asked = manager.hooks_to_ask(id, asked);
        self.make(rt, asked, locked, id, now, call)
    }
}
