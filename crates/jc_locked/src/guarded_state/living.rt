//! Tenures in which caches are found, created and destroyed.
ghost use Rattle.std.specs.Prelude.{◌≡◌, ◌≢◌, ◌+◌, ℕ, true, IfOk, IfErr, OnOk, OnErr};
ghost use mathlib.Core.List.{IsPrefix};
ghost use Rattle.jc_model.specs.declared.event.Event.TheVariants.{Create, Destroy};
ghost use Rattle.jc_model.specs.declared.event.Outcome.TheVariants.{Created, Destroyed};
ghost use Rattle.jc_model.specs.Places.{named_from};
ghost use Rattle.jc_engine.specs.Caches.{lives_of};
ghost use Rattle.jc_locked.specs.Living.{IsIdOfName, IsCreated, IsCreateFault, IsDestroyFault, HasGone, IsRefusedConfig, IsRefusedDestroy};
ghost use Rattle.jc_locked.specs.Tenures.{IsTenure};

use super::GuardedState;
use crate::fault::{CreateFault, DestroyFault};
use crate::journal_policy::JournalPolicy;
use crate::name::Name;
use crate::seat::Seat;
use jc_model::config::CacheConfig;
use jc_model::event::{CacheId, Cause};
use jc_model::key::Key;

impl<N: Name, J: JournalPolicy> GuardedState<N, J> {
    /// The id of the live cache with this name.
    pub fn cache(&self, name: &Key) -> Option<CacheId>
        ensures exact { result ≡
            named_from (λ k. k.config.name) name.now 0 (lives_of self.now.recorded.caches) }
        ensures named { IsIdOfName N.configs name.now result }
    {
        self.recorded.cache(name)
    }

    /// Creates a cache, where its callbacks suit it and there is room for them.
    pub fn create(
        &mut self,
        config: CacheConfig,
        suited: bool,
        room: bool,
    ) -> Result<CacheId, (CreateFault, CacheConfig)>
        ensures created { IfOk result (λ id. IsCreated N.configs id config) }
        ensures tenure { IfOk result (λ id. (session : ℕ) →
            IsTenure self.old.recorded self.new.recorded session (Create config) (Created id)) }
        ensures refused { IfErr result (λ e. IsCreateFault N.configs config (suited ≡ true) e.0) }
        ensures exact { IfErr result (λ e.
            IsRefusedConfig (lives_of self.old.recorded.caches) config suited e.0) }
        ensures same { OnErr result (self.new.recorded ≡ self.old.recorded) }
        ensures kept { (self.new.given ≡ self.old.given) × (self.new.closed ≡ self.old.closed) }
        ensures may { OnOk result ((suited ≡ true) × (room ≡ true)) }
        ensures back { IfErr result (λ e. e.1 ≡ config) }
    {
        if let Some(refusal) = self.recorded.create_refusal(&config) {
            return Err((CreateFault::Cache(refusal), config));
        }
        if !suited {
            return Err((CreateFault::HooksDiffer, config));
        }
        if !room {
            return Err((CreateFault::OutOfMemory, config));
        }
        match self.recorded.create(config) {
            Ok(id) => Ok(id),
            Err((_, config)) => Err((CreateFault::OutOfMemory, config)),
        }
    }

    /// Destroys a cache. The session's pass sees the table without its rows, where memory allows it.
    pub fn destroy(&mut self, seat: &mut Seat<N>, id: CacheId) -> Result<(), DestroyFault>
        ensures gone { OnOk result (HasGone N.configs id seat.new.pass) }
        ensures tenure { OnOk result ((session : ℕ) →
            IsTenure self.old.recorded self.new.recorded session (Destroy id) Destroyed) }
        ensures front { IsPrefix seat.old.pass.images seat.new.pass.images }
        ensures refused { IfErr result (λ fault. IsDestroyFault N.configs id fault) }
        ensures exact { IfErr result (IsRefusedDestroy (lives_of self.old.recorded.caches) id) }
        ensures same { OnErr result
            ((self.new.recorded ≡ self.old.recorded) × (seat.new ≡ seat.old)) }
        ensures number { seat.new.number ≡ seat.old.number }
        ensures accepted { OnOk result (seat.new.accepted ≡ seat.old.accepted + 1) }
        ensures kept { (self.new.given ≡ self.old.given) × (self.new.closed ≡ self.old.closed) }
    {
        match self.recorded.destroy(id) {
            Ok(()) => {
                seat.accept();
                self.show(&mut seat.pass);
                Ok(())
            }
            Err(Cause::NoSuchCache) => Err(DestroyFault::NoSuchCache),
            Err(_) => Err(DestroyFault::Busy),
        }
    }
}
