//! Caches that one caller asks, in one manager or in several.
//!
//! None of their callbacks is asked: such caches have none, or they are what is lent to calls.
use jc_hooks::{PlaceholderHooks, Responder};
use jc_index::lookup::Lookup;
use jc_model::OutOfMemory;
use jc_model::call::{Call, Reply};
use jc_model::config::CacheConfig;
use jc_model::key::Key;
use jc_shared::{CallFault, CreateFault, DestroyFault};
use std::sync::Wait;

/// A caller's way to caches. Each ghost member says all that contracts know of a method.
pub trait Caches {
    ghost use Rattle.std.specs.Prelude.{ℕ, Bool, List, Option, Result};
    ghost use Rattle.std.specs.declared.alloc.AllocError.{AllocError as NoMemory};
    ghost use Rattle.jc_model.specs.declared.call.Call.{Call as Called};
    ghost use Rattle.jc_model.specs.declared.call.Reply.{Reply as Replied};
    ghost use Rattle.jc_model.specs.declared.config.CacheConfig.{CacheConfig as Configured};
    ghost use Rattle.jc_shards.specs.Sharding.{Hooks};
    ghost use Rattle.jc_index.specs.declared.lookup.Lookup.{Lookup as LookedUp};
    ghost use Rattle.jc_locked.specs.declared.fault.CallFault.{CallFault as NotCalled};
    ghost use Rattle.jc_locked.specs.declared.fault.CreateFault.{CreateFault as NotCreated};
    ghost use Rattle.jc_locked.specs.declared.fault.DestroyFault.{DestroyFault as NotDestroyed};

    /// Names a cache among them.
    type Id: Copy;

    /// Of a call: the caller before and after, the cache, the moment, the call, and what it came to.
    ghost Calls: { Self → Self → Self.Id → ℕ → Called → Result Replied NotCalled → Type 0 };

    /// Of a lookup: the caller before and after, the cache, the key, the moment, and what it came to.
    ghost LooksUp: { Self → Self → Self.Id → List ℕ → ℕ → LookedUp → Type 0 };

    /// Of a look under the lock, where a lookup is not sure.
    ghost Holds: { Self → Self → Self.Id → List ℕ → ℕ → Bool → Type 0 };

    /// Of a meeting with the tables.
    ghost Refreshes: { Self → Self → Result (Unit {0}) NoMemory → Type 0 };

    /// Of a cache that is sought by its name, which spreads so.
    ghost Finds: { ℕ → List ℕ → Option Self.Id → Type 0 };

    /// Of a cache that is created, whose name spreads so.
    ghost Creates: { ℕ → Configured → Hooks → Result Self.Id (NotCreated × Configured × Hooks) → Type 0 };

    /// Of a cache that is destroyed: the caller before and after, the cache, and what it came to.
    ghost Destroys: { Self → Self → Self.Id → Result (Unit {0}) NotDestroyed → Type 0 };

    /// Makes a call on a cache at a moment, as `Session::call`.
    fn call<R: Wait>(
        &mut self,
        rt: &R,
        id: Self::Id,
        now: u64,
        call: Call,
    ) -> Result<Reply, CallFault>
        ensures { Calls self.old self.new id now call result };

    /// Whether a cache has a live row of this key, as `Session::contains_key`: it takes no lock.
    fn contains_key(&mut self, id: Self::Id, key: &Key, now: u64) -> Lookup
        ensures { LooksUp self.old self.new id key.now now result };

    /// The same as `Session::contains`: under the lock where a lookup is not sure.
    fn contains<R: Wait>(&mut self, rt: &R, id: Self::Id, key: &Key, now: u64) -> bool
        ensures { Holds self.old self.new id key.now now result };

    /// Sees all tables as they are now, as `Session::refresh`.
    fn refresh<R: Wait>(&mut self, rt: &R) -> Result<(), OutOfMemory>
        ensures { Refreshes self.old self.new result };

    /// The live cache with this name, sought on the way that these bits tell, from the lowest up: `find` takes them
    /// from a dealing.
    fn find_by<R: Wait>(&self, rt: &R, spread: u32, name: &Key) -> Option<Self::Id>
        ensures { Finds spread name.now result };

    /// Creates a cache on the way that these bits tell, from the lowest up, as `Session::create`: `create` takes them
    /// from a dealing. Who picks them otherwise gives equal names equal bits.
    fn create_by<R: Wait>(
        &self,
        rt: &R,
        spread: u32,
        config: CacheConfig,
        hooks: PlaceholderHooks,
    ) -> Result<Self::Id, (CreateFault, CacheConfig, PlaceholderHooks)>
        ensures { Creates spread config hooks result };

    /// Destroys a cache, as `Session::destroy`.
    fn destroy<R: Wait>(&mut self, rt: &R, id: Self::Id) -> Result<(), DestroyFault>
        ensures { Destroys self.old self.new id result };
}

/// Caches whose managers keep their open calls alone: what is lent to a call may answer its requests.
pub trait LentCalls: Caches {
    ghost use Rattle.std.specs.Prelude.{ℕ, Result};
    ghost use Rattle.jc_model.specs.declared.call.Call.{Call as Called};
    ghost use Rattle.jc_model.specs.declared.call.Reply.{Reply as Replied};
    ghost use Rattle.jc_locked.specs.declared.fault.CallFault.{CallFault as NotCalled};

    /// Of such a call: the caller before and after, the cache, the moment, the call, and what it came to.
    ghost CallsBy: { Self → Self → Self.Id → ℕ → Called → Result Replied NotCalled → Type 0 };

    /// Makes a call whose requests are answered by what is lent to it, as `Session::call_by`.
    fn call_by<R: Wait, A: Responder>(
        &mut self,
        rt: &R,
        id: Self::Id,
        now: u64,
        call: Call,
        responder: &mut A,
    ) -> Result<Reply, CallFault>
        ensures { CallsBy self.old self.new id now call result };
}
