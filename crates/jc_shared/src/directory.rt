//! The hooks locks of the live caches that sessions have created, by id.
ghost use Rattle.std.specs.Prelude.{◌≡◌, ◌≤◌, ℕ, None, Some, IsSome, OnOk, IfErr, nat_eq};
ghost use Rattle.std.specs.HashMap.{get, spare, Updates};
ghost use Rattle.jc_shared.specs.Unfound.{unfound_at};

use crate::unfound::Unfound;
use jc_locked::hooks::OwnHooks;
use jc_model::OutOfMemory;
use jc_model::event::CacheId;
use std::alloc::Global;
use std::collections::HashMap;
use std::sync::{Arc, Mutex};

/// The hooks lock of one cache, shared by the directory and by the calls on the cache.
pub(crate) type HooksLock<L, W, P, K> = Arc<Mutex<OwnHooks<L, W, P, K>>>;

/// The hooks locks of all live caches that sessions have created.
#[derive(Drop)]
pub(crate) struct Directory<L, W, P, K> {
    locks: HashMap<u32, HooksLock<L, W, P, K>>,
}

impl<L: Drop, W: Drop, P: Drop, K: Drop> Directory<L, W, P, K> {
    pub(crate) fn new(alloc: Global) -> Directory<L, W, P, K>
        ensures { (id : ℕ) → get nat_eq result.locks id ≡ None }
    {
        Directory {
            locks: HashMap::new(alloc),
        }
    }

    /// The hooks lock of a cache.
    pub(crate) fn find(&self, id: CacheId) -> Result<HooksLock<L, W, P, K>, Unfound>
        ensures found { OnOk result (IsSome (get nat_eq self.now.locks id)) }
        ensures unfound { IfErr result (λ why. why ≡ unfound_at (get nat_eq self.now.locks id)) }
    {
        let number = id.number();
        let Some(lock) = self.locks.get(&number) else {
            return Err(Unfound::NoSuchCache);
        };
        match Arc::try_clone(lock) {
            Ok(lock) => Ok(lock),
            Err(_) => Err(Unfound::OutOfMemory),
        }
    }

    /// A hooks lock over no callbacks, for which there is room now.
    pub(crate) fn make_room(&mut self, alloc: Global) -> Result<HooksLock<L, W, P, K>, OutOfMemory>
        ensures room { OnOk result (1 ≤ spare self.new.locks) }
        ensures same { (id : ℕ) → get nat_eq self.new.locks id ≡ get nat_eq self.old.locks id }
    {
        self.locks.reserve(1)?;
        let lock = Arc::new(alloc, Mutex::new(OwnHooks::none(alloc)))?;
        Ok(lock)
    }

    /// Enters a cache's hooks lock, for which there is room.
    pub(crate) fn enter(&mut self, id: CacheId, lock: HooksLock<L, W, P, K>)
        requires { 1 ≤ spare self.old.locks }
        ensures { Updates nat_eq self.old.locks self.new.locks id (Some lock) }
    {
        let number = id.number();
        if self.locks.insert(number, lock).is_err() {
            unreachable!()
        }
    }

    /// Takes a cache's hooks lock out.
    pub(crate) fn remove(&mut self, id: CacheId)
        ensures { Updates nat_eq self.old.locks self.new.locks id None }
    {
        let number = id.number();
        self.locks.remove(&number);
    }
}
