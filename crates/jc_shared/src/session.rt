//! One caller's way to the caches of a manager.
ghost use Rattle.std.specs.Prelude.{◌≡◌, ◌≢◌, ◌<◌, ◌⊎◌, ◌+◌, suc, Bool, true, false, Some, None, IfOk, IfErr, OnOk, OnErr, Err, slice_get};
ghost use mathlib.Core.List.{IsPrefix};
ghost use Rattle.jc_model.specs.declared.event.End.TheVariants.{Replied};
ghost use Rattle.jc_hooks.specs.Suits.{Suits};
ghost use Rattle.jc_index.specs.Stripes.{AreReadAtRest};
ghost use Rattle.jc_index.specs.declared.lookup.Lookup.TheVariants.{Sure, Unsure};
ghost use Rattle.jc_locked.specs.Accounts.{own_log};
ghost use Rattle.jc_locked.specs.Calls.{Adds, CallFails, LacksProcessor, TellsLack};
ghost use Rattle.jc_locked.specs.Living.{IsCreated, IsCreateFault, IsSessionDestroyRefusal, HasGone, TellsLiveRow, IsSeen};
ghost use Rattle.jc_locked.specs.Lookups.{found_by, Agrees, MayBeUnsure, SessionReadsStripes};
ghost use Rattle.jc_locked.specs.Sessions.{SeesSome, log_of};
ghost use Rattle.jc_locked.specs.Stated.{AreOf};
ghost use Rattle.jc_locked.specs.Unasked.{HasNoCallbacks};
ghost use Rattle.jc_shared.specs.Served.{ServesCall};

use crate::manager::Manager;
use jc_engine::journal::all_calls::AllCalls;
use jc_engine::journal::blank;
use jc_engine::journal::change::Origin;
use jc_hooks::{CacheHooks, FilteredListener, Loader, Processor, Writer, suits};
use jc_index::lookup::Lookup;
use jc_locked::auditing::{Logged, SessionLog};
use jc_locked::fault::{CallFault, CreateFault, DestroyFault};
use jc_locked::hooks::{LockedHooks, OwnHooks, SharedHooks};
use jc_locked::journal_policy::{JournalPolicy, SessionJournal};
use jc_locked::name::Name;
use jc_locked::seat::Seat;
use jc_model::OutOfMemory;
use jc_model::call::{Call, Reply};
use jc_model::config::CacheConfig;
use jc_model::event::{CacheId, Entry, Step};
use jc_model::key::Key;
use jc_model::share::Share;
use std::marker::Model;
use std::mem;
use std::sync::Wait;

/// A session of a manager, with the entries of its own calls, and a pass, in which it looks keys up. Contracts see its
/// number, these, and what the pass has seen; over the journal `OpenCalls` its own calls are not in memory.
#[derive(Drop)]
pub struct Session<
    'a,
    N: Name,
    L: Loader,
    W: Writer,
    P: Processor,
    K: FilteredListener,
    J: JournalPolicy = AllCalls,
> {
    pub(crate) manager: &'a Manager<N, L, W, P, K, J>,
    pub(crate) seat: Seat<N>,
    pub(crate) own: J::Own,
}

impl<'a, N: Name, L: Loader, W: Writer, P: Processor, K: FilteredListener, J: JournalPolicy> Model
    for Session<'a, N, L, W, P, K, J> {
    ghost use Rattle.jc_locked.specs.Sessions.{Sitting};

    ghost Value = { Sitting };

    ghost view = { λ s. record {
      number = s.seat.number;
      calls = J.Own.calls s.own;
      accepted = s.seat.accepted;
      pass = s.seat.pass;
    } };
}

impl<'a, N: Name, L: Loader, W: Writer, P: Processor, K: FilteredListener> Logged
    for Session<'a, N, L, W, P, K> {
    ghost use Rattle.jc_locked.specs.Sessions.{log_of};

    ghost log = { log_of };

    fn log_number(&self) -> u32 {
        self.seat.number()
    }

    fn log_calls(&self) -> &[Entry] {
        self.own.entries.as_slice()
    }
}

impl<'a, N: Name, L: Loader, W: Writer, P: Processor, K: FilteredListener> Session<
    'a,
    N,
    L,
    W,
    P,
    K,
> {
    /// What it has kept of its calls. The session ends, and borrows its manager no longer.
    pub fn into_log(self) -> SessionLog
        ensures { own_log result ≡ log_of self.entry }
    {
        let number = self.seat.number();
        drop(self.seat);
        SessionLog {
            number,
            own: self.own.entries,
        }
    }
}

/// Room for an entry more among a session's own, and a copy of its call.
pub(crate) fn copy_for<O: SessionJournal>(own: &mut O, call: &Call) -> Result<Call, OutOfMemory>
    ensures copy { IfOk result (λ copy. copy ≡ call.now) }
    ensures room { OnOk result (O.HasRoom own.new) }
    ensures same { O.calls own.new ≡ O.calls own.old }
{
    own.make_room()?;
    call.share()
}

impl<
    'a,
    N: Name,
    L: Loader,
    W: Writer,
    P: Processor,
    K: FilteredListener,
    J: JournalPolicy,
> Session<'a, N, L, W, P, K, J> {
    pub(crate) fn new(
        manager: &'a Manager<N, L, W, P, K, J>,
        seat: Seat<N>,
        own: J::Own,
    ) -> Session<'a, N, L, W, P, K, J>
        ensures { result ≡ record {
          number = seat.number;
          calls = J.Own.calls own;
          accepted = seat.accepted;
          pass = seat.pass;
        } }
    {
        Session { manager, seat, own }
    }

    /// Its number, from 0, which no other session of the manager has.
    pub fn number(&self) -> u32
        ensures { result ≡ self.now.number }
    {
        self.seat.number()
    }

    /// That of its call on a cache at a moment.
    pub(crate) fn origin(&self, id: CacheId, now: u64) -> Origin
        ensures { result ≡ record { session = self.now.number; id = id; at = now } }
    {
        Origin {
            session: self.seat.number(),
            id,
            at: now,
        }
    }

    /// Makes a call on a cache at a moment. The cache's callbacks answer its requests, one call on the cache at a time.
    /// Its entry is added to the session's own. Where no entry is kept in memory, a get that asks no one takes no lock
    /// but the manager's, and so does each call on a cache without callbacks.
    ///
    /// Refused as `NoSuchCache`, `NoSuchProcessor`, then as `OutOfMemory`, `Busy` or `Overtaken`; also as `NoSuchCache`
    /// where the cache is destroyed meanwhile, and as `OutOfMemory` at once where the callbacks of a created cache can't
    /// be shared. A call that has not begun leaves the session as it was. Where memory is refused in the midst of the call it is given up,
    /// and its listeners are told what it has changed; its entry says so. `Busy` is for a cache on which a call by hand
    /// is open: by the locks nothing else should come to it, nor to `Overtaken`. A clause says so of `Overtaken` on a cache
    /// of the opening without callbacks, of the others none.
    pub fn call<R: Wait>(
        &mut self,
        rt: &R,
        id: CacheId,
        now: u64,
        call: Call,
    ) -> Result<Reply, CallFault>
        ensures number { self.new.number ≡ self.old.number }
        ensures ok { IfOk result (λ reply.
            Adds N.configs N.stated self.old self.new id now call (Replied reply)) }
        ensures refused { LacksProcessor N.configs id call → TellsLack result × (self.new ≡ self.old) }
        ensures err { IfErr result (CallFails N.configs N.stated self.old self.new id now call) }
        ensures unasked { HasNoCallbacks N.configs id →
            IfErr result (λ fault. fault ≢ CallFault.Overtaken) }
        ensures front { IsPrefix self.old.pass.images self.new.pass.images }
    {
        if let Some(value) = self.get_at_once(rt, id, now, &call) {
            drop(call);
            return Ok(Reply::Found(value));
        }
        let manager = self.manager;
        let Some(asked) = manager.opening_hooks(id) else {
            return self.call_created(rt, id, now, call);
        };
        let accepted = asked.accept(&call);
        if let Err(fault) = accepted {
            drop(call);
            return Err(manager.lack_fault(rt, id, fault));
        }
        // One without callbacks takes no lock but the manager's.
        match manager.opened_lock(id) {
            Some(lock) => {
                let mut locked = lock.lock(rt);
                self.make(rt, asked, &mut *locked, id, now, call)
            }
            None => self.make_in(manager.locked.lock(rt), id, now, call),
        }
    }

    /// The same by these callbacks of the cache.
    #[inline(never)]
    pub(crate) fn make<R: Wait>(
        &mut self,
        rt: &R,
        asked: &SharedHooks<L, P>,
        locked: &mut LockedHooks<W, K>,
        id: CacheId,
        now: u64,
        call: Call,
    ) -> Result<Reply, CallFault>
        requires stated { AreOf L.load_of P.verdict_of N.stated id asked.now }
        ensures number { self.new.number ≡ self.old.number }
        ensures ok { IfOk result (λ reply.
            Adds N.configs N.stated self.old self.new id now call (Replied reply)) }
        ensures served { ServesCall W.may K.state_after locked.old locked.new
            self.old.calls self.new.calls result }
        ensures err { IfErr result (CallFails N.configs N.stated self.old self.new id now call) }
        ensures front { IsPrefix self.old.pass.images self.new.pass.images }
    {
        let manager = self.manager;
        let copied = copy_for(&mut self.own, &call);
        let Ok(copy) = copied else {
            drop(call);
            return Err(CallFault::OutOfMemory);
        };
        let mut draft = blank(manager.alloc, self.origin(id, now), copy);
        let begun = manager
            .locked
            .lock(rt)
            .begin(&mut self.seat, &mut draft, call);
        let request = match begun {
            Ok(Step::Need(request)) => request,
            Ok(Step::Done(reply)) => {
                self.own.push(draft);
                return Ok(reply);
            }
            Err(fault) => {
                drop(draft);
                return Err(fault);
            }
        };
        let replied = manager.carry_on(rt, asked, locked, &mut draft, request, &mut self.seat);
        self.own.push(draft);
        replied
    }

    /// Creates a cache with these callbacks. It gets an id that no cache had before.
    ///
    /// Refused as `Cache`, with the engine's refusal; as `HooksDiffer`; as `OutOfMemory`. Configuration and callbacks
    /// are handed back then. No entry tells of it, and the session's lookups know the cache from its next call on.
    pub fn create<R: Wait>(
        &self,
        rt: &R,
        config: CacheConfig,
        hooks: CacheHooks<L, W, P, K>,
    ) -> Result<CacheId, (CreateFault, CacheConfig, CacheHooks<L, W, P, K>)>
        ensures created { IfOk result (λ id. IsCreated N.configs id config) }
        ensures suits { OnOk result (Suits P.wants config hooks) }
        ensures refused { IfErr result (λ e.
            IsCreateFault N.configs config (Suits P.wants config hooks) e.0) }
        ensures back { IfErr result (λ e. (e.1 ≡ config) × (e.2 ≡ hooks)) }
    {
        let manager = self.manager;
        let suited = suits(&config, &hooks);
        let mut directory = manager.directory.lock(rt);
        let room = directory.make_room(manager.alloc);
        let created = manager.locked.lock(rt).create(config, suited, room.is_ok());
        let id = match created {
            Ok(id) => id,
            Err((fault, config)) => return Err((fault, config, hooks)),
        };
        let Ok(lock) = room else { unreachable!() };
        drop(mem::replace(&mut *lock.lock(rt), OwnHooks::of(hooks)));
        directory.enter(id, lock);
        Ok(id)
    }

    /// Destroys a cache, with its rows, its counters and its callbacks; loader and processors of the opening stay. No one
    /// is told. It waits for a call on the cache that is under way. Where memory allows it the session's lookups know of
    /// it at once.
    ///
    /// Refused as `NoSuchCache`, `Busy`; as `OutOfMemory` at once where the callbacks of a created cache can't be
    /// shared. The session is then as it was. `Busy` is as for a call.
    pub fn destroy<R: Wait>(&mut self, rt: &R, id: CacheId) -> Result<(), DestroyFault>
        ensures gone { OnOk result (HasGone N.configs id self.new.pass) }
        ensures fault { IfErr result (λ fault. IsSessionDestroyRefusal N.configs id fault) }
        ensures refused { OnErr result (self.new ≡ self.old) }
        ensures front { IsPrefix self.old.pass.images self.new.pass.images }
        ensures same { log_of self.new ≡ log_of self.old }
        ensures accepted { OnOk result (self.new.accepted ≡ self.old.accepted + 1) }
    {
        let manager = self.manager;
        if manager.opening_hooks(id).is_some() {
            return self.destroy_opened(rt, id);
        }
        let lock = manager.hooks_lock(rt, id)?;
        let hooks = lock.lock(rt);
        let destroyed = manager.locked.lock(rt).destroy(&mut self.seat, id);
        if destroyed.is_ok() {
            manager.directory.lock(rt).remove(id);
        }
        drop(hooks);
        drop(lock);
        destroyed
    }

    /// The same for a cache of the opening. Its writer and listeners are let go.
    fn destroy_opened<R: Wait>(&mut self, rt: &R, id: CacheId) -> Result<(), DestroyFault>
        ensures gone { OnOk result (HasGone N.configs id self.new.pass) }
        ensures fault { IfErr result (λ fault. IsSessionDestroyRefusal N.configs id fault) }
        ensures refused { OnErr result (self.new ≡ self.old) }
        ensures front { IsPrefix self.old.pass.images self.new.pass.images }
        ensures same { log_of self.new ≡ log_of self.old }
        ensures accepted { OnOk result (self.new.accepted ≡ self.old.accepted + 1) }
    {
        let manager = self.manager;
        let Some(lock) = manager.opened_lock(id) else {
            return manager.locked.lock(rt).destroy(&mut self.seat, id);
        };
        let mut hooks = lock.lock(rt);
        let destroyed = manager.locked.lock(rt).destroy(&mut self.seat, id);
        if destroyed.is_ok() {
            drop(mem::replace(&mut *hooks, LockedHooks::none(manager.alloc)));
        }
        drop(hooks);
        destroyed
    }

    /// Sees the table as it is now without a call, for a session that only looks keys up: what others have put, and a
    /// table that has doubled since. `OutOfMemory`: lookups are unsure until a meeting succeeds.
    pub fn refresh<R: Wait>(&mut self, rt: &R) -> Result<(), OutOfMemory>
        ensures sees { SeesSome N.configs self.new.pass }
        ensures met { OnOk result (self.new.pass.met ≡ true) }
        ensures refused { OnErr result (self.new.pass.met ≡ false) }
        ensures front { IsPrefix self.old.pass.images self.new.pass.images }
        ensures same { log_of self.new ≡ log_of self.old }
        ensures accepted { self.new.accepted ≡ self.old.accepted }
    {
        let manager = self.manager;
        manager.locked.lock(rt).refresh(&mut self.seat.pass)
    }

    /// Whether a cache has a live row of this key, without waiting: it takes no lock. It is sure only of the last image
    /// that the session has seen, which is no older than its own last call. An unknown cache has no rows.
    pub fn contains_key(&mut self, id: CacheId, key: &Key, now: u64) -> Lookup
        ensures sure { (b : Bool) → result ≡ Sure b →
            found_by self.new.pass id key.now now ≡ Some b }
        ensures stays { (b : Bool) → result ≡ Sure b →
            AreReadAtRest self.new.pass.begun self.new.pass.checked }
        ensures unmet { self.old.pass.met ≡ false →
            (result ≡ Unsure) × (self.new.pass ≡ self.old.pass) }
        ensures unsure { result ≡ Unsure → MayBeUnsure self.old.pass self.new.pass id key.now now }
        ensures stripes { self.old.pass.met ≡ true →
            SessionReadsStripes self.old.pass self.new.pass id key.now }
        ensures counted { self.old.pass.met ≡ true →
            self.new.pass.lookups ≡ suc self.old.pass.lookups }
        ensures front { IsPrefix self.old.pass.images self.new.pass.images }
        ensures met { self.new.pass.met ≡ self.old.pass.met }
        ensures same { log_of self.new ≡ log_of self.old }
        ensures accepted { self.new.accepted ≡ self.old.accepted }
    {
        self.seat.pass.lookup(id, key, now)
    }

    /// Whether a cache has a live row of this key: by a lookup where that is sure, else under the lock. It is no use of
    /// the row, and the session keeps no entry of it.
    pub fn contains<R: Wait>(&mut self, rt: &R, id: CacheId, key: &Key, now: u64) -> bool
        ensures told { IsSeen id key.now now self.new.pass result
            ⊎ TellsLiveRow N.configs id key.now now self.new.pass result }
        ensures unmet { self.old.pass.met ≡ false →
            TellsLiveRow N.configs id key.now now self.new.pass result }
        ensures agrees { Agrees self.new.pass id key.now now result }
        ensures front { IsPrefix self.old.pass.images self.new.pass.images }
        ensures same { log_of self.new ≡ log_of self.old }
        ensures accepted { self.new.accepted ≡ self.old.accepted }
    {
        match self.contains_key(id, key, now) {
            Lookup::Sure(holds) => holds,
            Lookup::Unsure => {
                let manager = self.manager;
                manager
                    .locked
                    .lock(rt)
                    .has(id, key, now, &mut self.seat.pass)
            }
        }
    }
}
