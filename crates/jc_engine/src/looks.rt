//! Looks at a cache. They are no calls: they change and count nothing, take no memory, and go on beside an open call.
ghost use Rattle.std.specs.Prelude.{◌≡◌, option_map};
ghost use Rattle.jc_model.specs.Places.{at_place};
ghost use Rattle.jc_engine.specs.Caches.{config_in, count_in, live_row_in, row_in, NumbersRows};

use crate::engine::Engine;
use jc_model::config::CacheConfig;
use jc_model::event::CacheId;
use jc_model::key::Key;
use jc_ops::slots::Record;
use jc_ring::ring::Ring;
use jc_rows::rows::Rows;

impl<R: Rows, G: Ring> Engine<R, G> {
    /// The configuration of a live cache (JSR 107, `Cache.getConfiguration`).
    pub fn config(&self, id: CacheId) -> Option<&CacheConfig>
        ensures { option_map (λ config. config.now) result ≡ config_in (at_place self.now id) }
    {
        match self.caches.get(&id.number()) {
            Some(cache) => Some(cache.state.config()),
            None => None,
        }
    }

    /// How many rows a live cache has, expired ones among them.
    pub fn count(&self, id: CacheId) -> Option<u32>
        ensures { result ≡ count_in (at_place self.now id) }
    {
        match self.caches.get(&id.number()) {
            Some(cache) => Some(cache.state.len()),
            None => None,
        }
    }

    /// What a cache's live row of this key holds, if there is one. This is no use of the row.
    pub fn peek(&self, id: CacheId, key: &Key, now: u64) -> Option<&Record>
        ensures { option_map (λ held. held.now) result
            ≡ live_row_in now key.now (at_place self.now id) }
    {
        match self.caches.get(&id.number()) {
            Some(cache) => cache.state.peek(self.visit.rows(), key, now),
            None => None,
        }
    }

    /// What a cache's row of this number holds, expired or not, if there is one. A row keeps its number as long as it is
    /// there.
    pub fn row(&self, id: CacheId, number: u32) -> Option<&Record>
        ensures row { option_map (λ held. held.now) result ≡ row_in number (at_place self.now id) }
        ensures numbers { NumbersRows (at_place self.now id) }
    {
        match self.caches.get(&id.number()) {
            Some(cache) => cache.state.row_at(number),
            None => None,
        }
    }
}
