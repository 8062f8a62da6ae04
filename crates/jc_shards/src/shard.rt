//! One manager among several.
ghost use Rattle.std.specs.Prelude.{◌≡◌, [], true, IfOk, IfErr, Ok, Err};
ghost use Rattle.jc_locked.specs.Admitting.{IsAdmission};
ghost use Rattle.jc_locked.specs.Sessions.{SeesSome};
ghost use Rattle.jc_shards.specs.Sharding.{IsCreation};

use crate::caches::{Caches, LentCalls};
use jc_hooks::{NoHooks, PlaceholderHooks, Responder};
use jc_index::lookup::Lookup;
use jc_model::OutOfMemory;
use jc_model::call::{Call, Reply};
use jc_model::config::CacheConfig;
use jc_model::event::CacheId;
use jc_model::key::Key;
use jc_shared::{
    CallFault, CreateFault, DestroyFault, JournalPolicy, Manager, Name, OpenCalls, Session,
    SessionRefusal,
};
use std::sync::Wait;

/// A manager whose callbacks nobody asks: its caches have none, or what is lent to calls answers for them.
pub type Unasking<N, J> = Manager<N, NoHooks, NoHooks, NoHooks, NoHooks, J>;

/// Such a manager, and a session of it.
#[derive(Drop)]
pub struct Shard<'a, N: Name, J: JournalPolicy = OpenCalls> {
    pub manager: &'a Unasking<N, J>,
    pub session: Session<'a, N, NoHooks, NoHooks, NoHooks, NoHooks, J>,
}

impl<'a, N: Name, J: JournalPolicy> Shard<'a, N, J> {
    /// A new session beside its manager. Refused as `Manager::session`.
    pub fn new<R: Wait>(
        rt: &R,
        manager: &'a Unasking<N, J>,
    ) -> Result<Shard<'a, N, J>, SessionRefusal>
        ensures calls { IfOk result (λ s. s.session.calls ≡ []) }
        ensures sees { IfOk result (λ s.
            SeesSome N.configs s.session.pass × (s.session.pass.met ≡ true)) }
        ensures admitted { IfOk result (λ s. IsAdmission J.after J.closes (Ok s.session.number)) }
        ensures refused { IfErr result (λ refusal. IsAdmission J.after J.closes (Err refusal)) }
    {
        let session = manager.session(rt)?;
        Ok(Shard { manager, session })
    }
}

impl<'a, N: Name, J: JournalPolicy> Caches for Shard<'a, N, J> {
    ghost use Rattle.jc_shards.specs.Sharding.{IsCall, IsCreation, IsDestruction, IsFoundByName, IsLook, IsLookup, IsRefresh};

    type Id = CacheId;

    ghost Calls = { λ old new id now call result. IsCall N.configs N.stated old.session new.session id now call result };

    ghost LooksUp = { λ old new id key now result. IsLookup old.session new.session id key now result };

    ghost Holds = { λ old new id key now result. IsLook N.configs old.session new.session id key now result };

    ghost Refreshes = { λ old new result. IsRefresh N.configs old.session new.session result };

    ghost Finds = { λ spread name result. IsFoundByName N.configs name result };

    ghost Creates = { λ spread config hooks result. IsCreation N.configs config hooks result };

    ghost Destroys = { λ old new id result. IsDestruction N.configs old.session new.session id result };

    fn call<R: Wait>(
        &mut self,
        rt: &R,
        id: CacheId,
        now: u64,
        call: Call,
    ) -> Result<Reply, CallFault> {
        self.session.call(rt, id, now, call)
    }

    fn contains_key(&mut self, id: CacheId, key: &Key, now: u64) -> Lookup {
        self.session.contains_key(id, key, now)
    }

    fn contains<R: Wait>(&mut self, rt: &R, id: CacheId, key: &Key, now: u64) -> bool {
        self.session.contains(rt, id, key, now)
    }

    fn refresh<R: Wait>(&mut self, rt: &R) -> Result<(), OutOfMemory> {
        self.session.refresh(rt)
    }

    fn find_by<R: Wait>(&self, rt: &R, _spread: u32, name: &Key) -> Option<CacheId> {
        self.manager.cache(rt, name)
    }

    fn create_by<R: Wait>(
        &self,
        rt: &R,
        _spread: u32,
        config: CacheConfig,
        hooks: PlaceholderHooks,
    ) -> Result<CacheId, (CreateFault, CacheConfig, PlaceholderHooks)>
        ensures { IsCreation N.configs config hooks result }
    {
        self.session.create(rt, config, hooks)
    }

    fn destroy<R: Wait>(&mut self, rt: &R, id: CacheId) -> Result<(), DestroyFault> {
        self.session.destroy(rt, id)
    }
}

impl<'a, N: Name> LentCalls for Shard<'a, N> {
    ghost use Rattle.jc_shards.specs.Sharding.{IsCallBy};

    ghost CallsBy = { λ old new id now call result. IsCallBy N.configs old.session new.session id now call result };

    fn call_by<R: Wait, A: Responder>(
        &mut self,
        rt: &R,
        id: CacheId,
        now: u64,
        call: Call,
        responder: &mut A,
    ) -> Result<Reply, CallFault> {
        self.session.call_by(rt, id, now, call, responder)
    }
}
