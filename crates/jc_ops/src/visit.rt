//! A call's visit to its cache: the cache, the table that all caches share, the notices so far, and the call's moment.
//!
//! A row stands twice: with its value in the cache, and with its number and expiry in the table. Each change is made on
//! both, and changes nothing that the table says of another cache. So the two say the same of the cache's rows as long
//! as the visit lasts: that is its invariant.
mod creation;
mod removal;
mod renewal;
mod saving;
mod supplies;
mod walk;
mod watched;

ghost use Rattle.std.specs.Prelude.{◌≡◌, ℕ, ◌+◌, ◌≤◌, List, [], length, eqb, true, Some};
ghost use Rattle.jc_model.specs.State.{zeros, live};
ghost use Rattle.jc_model.specs.Sound.{HasDistinctKeys};
ghost use Rattle.jc_ops.specs.declared.slots.Record.{Record};
ghost use Rattle.jc_ops.specs.Shelf.{seek, has_row};
ghost use Rattle.jc_ops.specs.Kept.{items_of, FoundRow, with_hit, with_miss, with_put, with_removal};
ghost use Rattle.jc_ops.specs.Kept.{with_eviction, room_in};
ghost use Rattle.jc_ops.specs.Visited.{IsKeptIn, has_live_in};

use crate::notices::Notices;
use crate::state::{CacheState, NO_COUNTS};
use jc_expiry::counters::{with_eviction, with_hit, with_miss, with_put, with_removal};
use jc_expiry::expiry::live;
use jc_model::call::Counts;
use jc_model::config::CacheConfig;
use jc_model::key::Key;
use jc_model::owners::Owners;
use jc_model::value::Value;
use jc_ring::ring::Ring;
use jc_rows::rows::Rows;
use std::alloc::Global;
use std::marker::Model;
use std::mem;

/// A call's visit to its cache. It owns what the call may change. Between two calls it has a cache that no call visits.
#[derive(Drop)]
pub struct Visit<R: Rows, G: Ring> {
    alloc: Global,
    // Most calls write these two and nothing else here: they lie side by side.
    moment: u64,
    cache: Box<CacheState<G>>,
    notices: Notices,
    rows: R,
}

impl<R: Rows, G: Ring> Model for Visit<R, G> {
    ghost use Rattle.std.specs.Coded.{codes};
    ghost use Rattle.jc_ops.specs.Kept.{room_in};
    ghost use Rattle.jc_ops.specs.Visited.{Visited, IsKeptIn, table_code};

    ghost Value = { Visited };

    ghost coded = { Prim.hlevel (codes, table_code) };

    ghost view = { λ v. record {
      cache = v.cache.value.kept;
      table = R.contents v.rows;
      spare = room_in (R.spare v.rows) v.cache.value;
      noted = v.notices;
      moment = v.moment;
    } };

    ghost invariant = { λ v. IsKeptIn (R.contents v.rows) v.cache.value.kept };
}

impl<R: Rows, G: Ring> Visit<R, G> {
    /// A visit to this cache, with no notices yet.
    pub fn new(alloc: Global, cache: Box<CacheState<G>>, rows: R) -> Visit<R, G>
        requires kept { IsKeptIn (R.contents rows) cache.value.kept }
        ensures cache { result.cache ≡ cache.value.kept }
        ensures table { result.table ≡ R.contents rows }
        ensures spare { result.spare ≡ room_in (R.spare rows) cache.value }
        ensures untold { result.noted.told ≡ [] }
        ensures moment { result.moment ≡ 0 }
    {
        Visit {
            alloc,
            cache,
            rows,
            notices: Notices::none(alloc),
            moment: 0,
        }
    }

    /// The same visit over another table, which has the cache's rows too.
    pub fn over<S: Rows>(self, rows: S) -> Visit<S, G>
        requires kept { IsKeptIn (S.contents rows) self.cache }
        ensures cache { result.cache ≡ self.cache }
        ensures table { result.table ≡ S.contents rows }
        ensures spare { result.spare ≤ S.spare rows }
        ensures notices { result.noted ≡ self.noted }
        ensures moment { result.moment ≡ self.moment }
    {
        Visit {
            alloc: self.alloc,
            cache: self.cache,
            rows,
            notices: self.notices,
            moment: self.moment,
        }
    }

    /// What the call's lists are made with.
    pub fn alloc(&self) -> Global {
        self.alloc
    }

    /// From now on it is for a call of this moment.
    pub fn set_moment(&mut self, moment: u64)
        ensures { self.new ≡ record self.old { moment = moment } }
    {
        self.moment = moment;
    }

    /// Takes this cache in, and leaves the one that it had in its place.
    pub fn exchange(&mut self, cache: &mut Box<CacheState<G>>)
        requires kept { IsKeptIn self.old.table cache.old.value.kept }
        ensures exchanged { self.new
            ≡ record self.old { cache = cache.old.value.kept; spare = self.new.spare } }
        ensures left { cache.new.value.kept ≡ self.old.cache }
        ensures was_kept { IsKeptIn self.old.table self.old.cache }
    {
        mem::swap(&mut self.cache, cache);
    }

    /// Goes on with these notices, in place of those that it had.
    pub fn take_notices(&mut self, notices: Notices)
        ensures { self.new ≡ record self.old { noted = notices } }
    {
        self.notices = notices;
    }

    /// Whether there are no notices to be told.
    pub fn is_untold(&self) -> bool
        ensures { result ≡ eqb (length self.now.noted.told) 0 }
    {
        self.notices.is_empty()
    }

    /// Hands the notices out, to be told.
    pub fn hand_out_notices(&mut self) -> Notices
        ensures same { self.new ≡ record self.old { noted = self.new.noted } }
        ensures untold { self.new.noted.told ≡ [] }
        ensures notices { result ≡ self.old.noted }
    {
        mem::replace(&mut self.notices, Notices::none(self.alloc))
    }

    /// The table.
    pub fn rows(&self) -> &R
        ensures table { R.contents result.now ≡ self.now.table }
        ensures spare { self.now.spare ≤ R.spare result.now }
        ensures kept { IsKeptIn self.now.table self.now.cache }
    {
        &self.rows
    }

    /// The configuration of its cache.
    pub fn config(&self) -> &CacheConfig
        ensures { result.now ≡ self.now.cache.config }
    {
        self.cache.config()
    }

    /// The moment of its call.
    pub fn moment(&self) -> u64
        ensures { result ≡ self.now.moment }
    {
        self.moment
    }

    /// The number of the key's row, whether or not it has expired.
    pub fn find(&self, key: &Key) -> Option<u32>
        ensures found { FoundRow key.now self.now.cache result }
        ensures apart { HasDistinctKeys (items_of self.now.cache.cells) }
    {
        self.cache.find(&self.rows, key)
    }

    /// Whether the key has a live row. This is no use of the row: it renews nothing and counts nothing.
    pub fn holds(&self, key: &Key) -> bool
        ensures { result ≡ has_live_in self.now key.now }
    {
        self.has_live(self.find(key))
    }

    /// Whether a key that has this row, if any, has a live row.
    pub fn has_live(&self, row: Option<u32>) -> bool
        requires there { (r : ℕ) → row ≡ Some r → has_row r self.now.cache.cells ≡ true }
        ensures { (key : List ℕ) → FoundRow key self.now.cache row →
            result ≡ has_live_in self.now key }
    {
        match row {
            Some(row) => self.is_live(row),
            None => false,
        }
    }

    /// Whether a row is live.
    pub fn is_live(&self, row: u32) -> bool
        requires { has_row row self.now.cache.cells ≡ true }
        ensures { (held : Record) → seek row self.now.cache.cells ≡ Some held →
            result ≡ live self.now.moment held.expiry }
    {
        live(self.moment, self.cache.record(row).expiry)
    }

    /// The value of a row.
    pub fn value(&self, row: u32) -> &Owners<Value>
        requires { has_row row self.now.cache.cells ≡ true }
        ensures { (held : Record) → seek row self.now.cache.cells ≡ Some held →
            result.now ≡ held.value }
    {
        &self.cache.record(row).value
    }

    /// The statistics.
    pub fn counts(&self) -> Counts
        ensures { result ≡ self.now.cache.counts }
    {
        self.cache.counts
    }

    /// Sets all counters to zero.
    pub fn clear_counts(&mut self)
        ensures { self.new
            ≡ record self.old { cache = record self.old.cache { counts = zeros } } }
    {
        self.cache.counts = NO_COUNTS;
    }

    /// Counts a hit.
    pub fn hit(&mut self)
        ensures { self.new ≡ record self.old { cache = with_hit self.old.cache } }
    {
        self.cache.counts = with_hit(self.cache.counts);
    }

    /// Counts a miss.
    pub fn miss(&mut self)
        ensures { self.new ≡ record self.old { cache = with_miss self.old.cache } }
    {
        self.cache.counts = with_miss(self.cache.counts);
    }

    /// Counts a put.
    pub fn put(&mut self)
        ensures { self.new ≡ record self.old { cache = with_put self.old.cache } }
    {
        self.cache.counts = with_put(self.cache.counts);
    }

    /// Counts a removal.
    pub fn removal(&mut self)
        ensures { self.new ≡ record self.old { cache = with_removal self.old.cache } }
    {
        self.cache.counts = with_removal(self.cache.counts);
    }

    /// Counts an eviction.
    fn eviction(&mut self)
        ensures { self.new ≡ record self.old { cache = with_eviction self.old.cache } }
    {
        self.cache.counts = with_eviction(self.cache.counts);
    }
}
