//! Caches that are created and destroyed while the manager runs.
ghost use Rattle.std.specs.Prelude.{◌≡◌, None, Some, [], ◌∷◌, ◌++◌, IfOk, IfErr, OnOk, OnErr, length, slice_set};
ghost use Rattle.jc_model.specs.declared.event.Event.TheVariants.{Create, Destroy};
ghost use Rattle.jc_model.specs.Runs.{create_refusal};
ghost use Rattle.jc_engine.specs.Caches.{lives_of, fresh_cache};
ghost use Rattle.jc_engine.specs.Opening.{MayCome};
ghost use Rattle.jc_engine.specs.Heard.{IsAnswer, IsFreeAnswer, LeadsTo};
ghost use Rattle.jc_engine.specs.Results.{of_create, of_destroy};

use crate::cache::Managed;
use crate::engine::Engine;
use crate::turn::Turn;
use jc_model::config::CacheConfig;
use jc_model::event::{CacheId, Cause, CreateRefusal};
use jc_ops::state::CacheState;
use jc_ring::ring::Ring;
use jc_rows::rows::Rows;

impl<R: Rows, G: Ring> Engine<R, G> {
    /// Creates a cache without rows and counts. Its id is the least above all that were given before.
    ///
    /// Refused as `TooManyCaches` (1,024 live ones), `BadCapacity`, `TooManyListeners`, `TooManyProcessors`,
    /// `DuplicateName` (of a live cache), `TotalCapacity` (of all live caches together), `IdsSpent`, `OutOfMemory`, in
    /// this order; the configuration is then handed back.
    pub fn create(&mut self, config: CacheConfig) -> Result<CacheId, (CreateRefusal, CacheConfig)>
        ensures outcome { IsAnswer self.old (Create config) (of_create result) }
        ensures lives { LeadsTo self.old (Create config) (of_create result) self.new }
        ensures added { OnOk result (self.new ≡ self.old ++ Some (fresh_cache config) ∷ []) }
        ensures back { IfErr result (λ e. e.1 ≡ config) }
        ensures refused { OnErr result (self.new ≡ self.old) }
    {
        if let Some(refusal) = self.create_refusal(&config) {
            return Err((refusal, config));
        }
        self.admit(config)
            .map_err(|config| (CreateRefusal::OutOfMemory, config))
    }

    /// Destroys a cache: all its rows are taken out of the table, which no one is told and nothing counts, and its id
    /// is given to no other.
    ///
    /// Refused as `NoSuchCache`, `Busy` (a call on this cache is open), in this order; takes no memory.
    pub fn destroy(&mut self, id: CacheId) -> Result<(), Cause>
        ensures outcome { IsFreeAnswer self.old (Destroy id) (of_destroy result) }
        ensures lives { LeadsTo self.old (Destroy id) (of_destroy result) self.new }
        ensures gone { OnOk result (self.new ≡ slice_set self.old id None) }
        ensures refused { OnErr result (self.new ≡ self.old) }
    {
        let Some(cache) = self.find(id) else {
            return Err(Cause::NoSuchCache);
        };
        if cache.is_open() {
            return Err(Cause::Busy);
        }
        let number = id.number();
        let Some(mut cache) = self.caches.remove(&number) else {
            unreachable!()
        };
        cache.leave(&mut self.visit);
        drop(cache);
        self.roster.remove(number);
        Ok(())
    }

    /// The id that the next cache gets.
    #[tactic(auto, using(crate::proofs::Listed::length_listed))]
    pub fn next_id(&self) -> CacheId
        ensures { result ≡ length self.now }
    {
        CacheId::new(self.roster.next())
    }

    /// Why no cache can be created now, where memory suffices.
    #[tactic(auto, using(crate::proofs::Listed::refusal_listed))]
    pub fn create_refusal(&self, config: &CacheConfig) -> Option<CreateRefusal>
        ensures { result ≡ create_refusal (lives_of self.now) config.now }
    {
        self.roster.refusal(config)
    }

    /// Adds a cache under the next id. Only memory can refuse it, before any change.
    pub(crate) fn admit(&mut self, config: CacheConfig) -> Result<CacheId, CacheConfig>
        requires { MayCome self.old config }
        ensures id { IfOk result (λ id. id ≡ length self.old) }
        ensures added { OnOk result (self.new ≡ self.old ++ Some (fresh_cache config) ∷ []) }
        ensures back { IfErr result (λ back. back ≡ config) }
        ensures refused { OnErr result (self.new ≡ self.old) }
    {
        let number = self.roster.next();
        let (name, capacity) = (config.name, config.capacity);
        let Ok(_) = self.caches.reserve(1) else {
            return Err(config);
        };
        let state = CacheState::empty(self.alloc, CacheId::new(number), config)?;
        let state = match Box::new(self.alloc, state) {
            Ok(state) => state,
            Err(refused) => return Err(refused.value.into_config()),
        };
        let Ok(_) = self.roster.add(name, capacity) else {
            return Err(Box::into_inner(state).into_config());
        };
        let turn = Turn::Idle;
        match self.caches.insert(number, Managed { state, turn }) {
            Ok(none) => {
                drop(none);
                Ok(CacheId::new(number))
            }
            Err(_) => unreachable!(),
        }
    }
}
