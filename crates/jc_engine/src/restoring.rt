//! Caches that come from their bytes.
ghost use Rattle.std.specs.Prelude.{◌≡◌, ◌≤◌, ◌++◌, ◌∷◌, [], length, Some, None, IfOk, OnOk, OnErr};
ghost use Rattle.jc_model.specs.Sound.{HasDistinctKeys};
ghost use Rattle.jc_save.specs.Restoring.{items};
ghost use Rattle.jc_ops.specs.Kept.{items_of};
ghost use Rattle.jc_ops.specs.Tied.{SameElsewhere};
ghost use Rattle.jc_engine.specs.Managed.{IsReady, RestsAgain, IsManaged, cache_in};
ghost use Rattle.jc_engine.specs.Opening.{MayCome};
ghost use Rattle.jc_engine.specs.Saving.{IsRestoreAnswer, AddsSaved, AddsLike};
ghost use Rattle.jc_engine.specs.Sound.{IsAt};
ghost use Rattle.jc_engine.specs.declared.turn.Turn.TheVariants.{Idle};

use crate::cache::Managed;
use crate::engine::Engine;
use crate::turn::Turn;
use jc_model::OutOfMemory;
use jc_model::call::Counts;
use jc_model::config::CacheConfig;
use jc_model::event::{CacheId, CreateRefusal};
use jc_model::key::Key;
use jc_model::owners::Owners;
use jc_ops::slots::Record;
use jc_ops::state::CacheState;
use jc_ops::visit::Visit;
use jc_ring::ring::Ring;
use jc_rows::rows::Rows;
use jc_save::{Flaw, SaveFault, SavedCache, SavedRow};
use std::alloc::{AllocError, Global};

/// Why bytes are not restored.
#[derive(Clone, Copy, Debug, PartialEq, Eq)]
pub enum RestoreRefusal {
    /// They are no saved cache: the first flaw from the left, and how many bytes stand before the field that has it.
    Damaged { flaw: Flaw, place: usize },
    /// Such a cache is not created, or memory is refused.
    NotCreated(CreateRefusal),
}

/// Adds these rows in their order, unless memory is refused before one.
fn add_rows<R: Rows, G: Ring>(
    visit: &mut Visit<R, G>,
    rows: Vec<SavedRow>,
) -> Result<(), OutOfMemory>
    requires empty { visit.old.cache.cells ≡ [] }
    requires apart { HasDistinctKeys (items rows.items) }
    requires within { length rows.items ≤ visit.old.cache.config.capacity }
    ensures same { visit.new.cache ≡ record visit.old.cache { cells = visit.new.cache.cells } }
    ensures elsewhere { SameElsewhere visit.old.cache.id visit.old.table visit.new.table }
    ensures noted { visit.new.noted ≡ visit.old.noted }
    ensures added { OnOk result (items_of visit.new.cache.cells ≡ items rows.items) }
{
    visit.reserve_rows(rows.len())?;
    for row in rows {
        let Ok(value) = Owners::of(&row.value) else {
            return Err(AllocError);
        };
        let record = Record {
            key: row.key,
            value,
            expiry: row.mark.expiry,
        };
        visit.add_saved(record, row.mark.used);
    }
    Ok(())
}

impl<G: Ring> Managed<G> {
    /// A cache without rows, with these statistics and no open call.
    fn empty(
        alloc: Global,
        id: CacheId,
        config: CacheConfig,
        counts: Counts,
    ) -> Result<Managed<G>, OutOfMemory>
        requires { 1 ≤ config.capacity }
        ensures { IfOk result (λ cache. cache ≡ record {
          state = record { config = config; id = id; cells = []; counts = counts };
          turn = Idle;
        }) }
    {
        let Ok(mut state) = CacheState::empty(alloc, id, config) else {
            return Err(AllocError);
        };
        state.set_counts(counts);
        let state = Box::new(alloc, state)?;
        let turn = Turn::Idle;
        Ok(Managed { state, turn })
    }

    /// Gets these rows, in the table too. Where memory is refused, the table has none of them.
    fn fill<R: Rows>(
        &mut self,
        visit: &mut Visit<R, G>,
        rows: Vec<SavedRow>,
    ) -> Result<(), OutOfMemory>
        requires ready { IsReady self.old visit.old }
        requires new { (self.old.turn ≡ Idle) × (self.old.state.cells ≡ []) }
        requires apart { HasDistinctKeys (items rows.items) }
        requires within { length rows.items ≤ self.old.state.config.capacity }
        ensures same { self.new
            ≡ record self.old { state = record self.old.state { cells = self.new.state.cells } } }
        ensures filled { OnOk result (items_of self.new.state.cells ≡ items rows.items) }
        ensures there { OnOk result (IsManaged visit.new.table self.old.state.id self.new) }
        ensures gone { OnErr result (IsAt visit.new.table self.old.state.id None) }
        ensures elsewhere { SameElsewhere self.old.state.id visit.old.table visit.new.table }
        ensures rests { RestsAgain visit.old visit.new }
    {
        visit.exchange(&mut self.state);
        match add_rows(visit, rows) {
            Ok(()) => {
                visit.exchange(&mut self.state);
                Ok(())
            }
            Err(refused) => {
                visit.clear();
                visit.exchange(&mut self.state);
                Err(refused)
            }
        }
    }
}

impl<R: Rows, G: Ring> Engine<R, G> {
    /// Adds the cache that these bytes are, under this name and the next id: with its configuration, its rows as they
    /// were and its statistics. Other caches stay as they are.
    ///
    /// Refused as `Damaged`, then as creating is, in the same order, before any change. Memory may be refused before a
    /// flaw is met.
    pub fn restore(&mut self, name: Key, bytes: &[u8]) -> Result<CacheId, RestoreRefusal>
        ensures exact { IsRestoreAnswer self.old name bytes.now result }
        ensures added { OnOk result (AddsSaved name bytes.now self.old self.new) }
        ensures refused { OnErr result (self.new ≡ self.old) }
    {
        let saved = match jc_save::restore(self.alloc, name, bytes) {
            Ok(saved) => saved,
            Err(SaveFault::Damaged { flaw, place }) => {
                return Err(RestoreRefusal::Damaged { flaw, place });
            }
            Err(SaveFault::OutOfMemory) => {
                return Err(RestoreRefusal::NotCreated(CreateRefusal::OutOfMemory));
            }
        };
        if let Some(refusal) = self.create_refusal(&saved.config) {
            drop(saved);
            return Err(RestoreRefusal::NotCreated(refusal));
        }
        match self.admit_saved(saved) {
            Ok(id) => Ok(id),
            Err(_) => Err(RestoreRefusal::NotCreated(CreateRefusal::OutOfMemory)),
        }
    }

    /// Adds a cache as it was saved. Only memory can refuse it, and then all is as before.
    fn admit_saved(&mut self, saved: SavedCache) -> Result<CacheId, OutOfMemory>
        requires may { MayCome self.old saved.config }
        requires apart { HasDistinctKeys (items saved.rows) }
        requires within { length saved.rows ≤ saved.config.capacity }
        ensures id { IfOk result (λ id. id ≡ length self.old) }
        ensures added { OnOk result (AddsLike saved self.old self.new) }
        ensures refused { OnErr result (self.new ≡ self.old) }
    {
        let SavedCache {
            config,
            counts,
            rows,
        } = saved;
        let number = self.roster.next();
        let (name, capacity) = (config.name, config.capacity);
        let Ok(_) = self.caches.reserve(1) else {
            return Err(AllocError);
        };
        let Ok(mut cache) = Managed::empty(self.alloc, CacheId::new(number), config, counts) else {
            return Err(AllocError);
        };
        let Ok(_) = cache.fill(&mut self.visit, rows.into_items()) else {
            drop(cache);
            return Err(AllocError);
        };
        let Ok(_) = self.roster.add(name, capacity) else {
            cache.leave(&mut self.visit);
            drop(cache);
            return Err(AllocError);
        };
        match self.caches.insert(number, cache) {
            Ok(none) => {
                drop(none);
                Ok(CacheId::new(number))
            }
            Err(_) => unreachable!(),
        }
    }
}
