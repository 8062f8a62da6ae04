//! The state of one cache: its configuration, its rows in the order of its ring, and its statistics.
//!
//! That the table which all caches share says the same of its rows is a visit's care (`visit`).
ghost use Rattle.std.specs.Prelude.{◌≡◌, ◌+◌, ◌<◌, ◌≤◌, [], ◌∷◌, ◌++◌, length, true, false};
ghost use Rattle.std.specs.Prelude.{ℕ, Some, None, IfOk, IfErr, OnOk, OnErr, IsOk, option_map};
ghost use Rattle.jc_model.specs.State.{zeros};
ghost use Rattle.jc_model.specs.Whole.{holds};
ghost use Rattle.jc_ring.specs.Ring.{first};
ghost use Rattle.jc_ops.specs.declared.slots.Record.{Record};
ghost use Rattle.jc_ops.specs.Shelf.{seek, has_row, row_after, without_row, turned_cells};
ghost use Rattle.jc_ops.specs.Shelf.{new_cell, saved_cell, bit_in, stored, held_of, with_expiry_of};
ghost use Rattle.jc_ops.specs.Kept.{state_of, live_row, IsTied, FoundRow, IsVictim};
ghost use Rattle.jc_ops.specs.Kept.{with_cells, HasPlacesForRows, LacksPlacesForRows};
ghost use Rattle.jc_ops.specs.Tied.{Distinct};

use crate::places::{move_rows, next_places};
use crate::slots::{Record, Slots};
use jc_expiry::expiry::live;
use jc_model::OutOfMemory;
use jc_model::call::Counts;
use jc_model::config::{CacheConfig, Expiry};
use jc_model::event::CacheId;
use jc_model::key::Key;
use jc_ring::ring::Ring;
use jc_rows::rows::Rows;
use std::alloc::Global;
use std::marker::Model;

/// One cache: its configuration, its id, its rows in the order of its CLOCK ring, and its statistics.
#[derive(Drop)]
pub struct CacheState<G: Ring> {
    config: CacheConfig,
    id: CacheId,
    slots: Slots,
    ring: G,
    pub(crate) counts: Counts,
}

impl<G: Ring> Model for CacheState<G> {
    ghost use Rattle.jc_ops.specs.Shelf.{cells_of, IsShelf};
    ghost use Rattle.std.specs.Prelude.{length};
    ghost use Rattle.jc_ops.specs.Kept.{Housed};

    ghost Value = { Housed };

    ghost view = { λ s. record {
      kept = record {
        config = s.config;
        id = s.id;
        cells = cells_of s.slots (G.list s.ring);
        counts = s.counts;
      };
      places = length s.slots;
    } };

    ghost invariant = { λ s. IsShelf s.slots (G.list s.ring) (G.limit s.ring) s.config.capacity };
}

/// All counters at zero.
pub(crate) const NO_COUNTS: Counts = Counts {
    hits: 0,
    misses: 0,
    puts: 0,
    removals: 0,
    evictions: 0,
};

#[tactic(auto, using(crate::proofs::Shelves::shelf_laws))]
impl<G: Ring> CacheState<G> {
    /// A cache with no rows, with memory for none, and all counters at zero. Where memory is refused, the configuration
    /// comes back.
    pub fn empty(alloc: Global, id: CacheId, config: CacheConfig) -> Result<Self, CacheConfig>
        requires { 1 ≤ config.capacity }
        ensures made { IfOk result (λ s.
            s.kept ≡ record { config = config; id = id; cells = []; counts = zeros }) }
        ensures back { IfErr result (λ back. back ≡ config) }
    {
        let Ok(ring) = G::with_capacity(alloc, 0) else {
            return Err(config);
        };
        Ok(CacheState {
            config,
            id,
            slots: Slots::none(alloc),
            ring,
            counts: NO_COUNTS,
        })
    }

    /// Makes memory for so many rows more, or for all that it may have where those are fewer. Nothing is done where it is
    /// there. Where memory is refused, all stays as it was.
    pub(crate) fn reserve(&mut self, alloc: Global, more: usize) -> Result<(), OutOfMemory>
        requires apart { Distinct self.old.kept.cells }
        ensures kept { self.new.kept ≡ self.old.kept }
        ensures grown { OnOk result (HasPlacesForRows more self.new) }
        ensures refused { OnErr result (LacksPlacesForRows more self.new) }
        ensures there { HasPlacesForRows more self.old → self.new ≡ self.old }
        ensures more { self.old.places ≤ self.new.places }
        ensures stands { HasPlacesForRows more self.old → IsOk result }
    {
        let left = self.config.capacity - self.len();
        let wanted = self.len()
            + if more < left as usize {
                more as u32
            } else {
                left
            };
        let places = self.slots.len();
        if wanted <= places {
            return Ok(());
        }
        self.grow(alloc, next_places(places, wanted, self.config.capacity))
    }

    /// Makes memory for so many rows in all.
    #[tactic(auto, using(crate::proofs::Growing::growing_laws))]
    fn grow(&mut self, alloc: Global, places: u32) -> Result<(), OutOfMemory>
        requires apart { Distinct self.old.kept.cells }
        requires more { self.old.places ≤ places }
        requires within { places ≤ self.old.kept.config.capacity }
        ensures kept { self.new.kept ≡ self.old.kept }
        ensures grown { OnOk result (self.new.places ≡ places) }
        ensures refused { OnErr result (self.new.places ≡ self.old.places) }
    {
        let mut ring = G::with_capacity(alloc, places)?;
        self.slots.grow(places - self.slots.len())?;
        move_rows(&mut self.ring, &mut ring);
        self.ring = ring;
        Ok(())
    }

    /// The configuration alone; the rest is let go.
    pub fn into_config(self) -> CacheConfig
        ensures { result ≡ self.kept.config }
    {
        self.config
    }

    /// How many rows it has, expired ones among them.
    pub fn len(&self) -> u32
        ensures { result ≡ length self.now.kept.cells }
    {
        self.slots.filled()
    }

    /// Its configuration.
    pub fn config(&self) -> &CacheConfig
        ensures { result.now ≡ self.now.kept.config }
    {
        &self.config
    }

    /// Its statistics.
    pub fn counts(&self) -> &Counts
        ensures { result.now ≡ self.now.kept.counts }
    {
        &self.counts
    }

    /// Goes on with these statistics.
    pub fn set_counts(&mut self, counts: Counts)
        ensures { self.new ≡ record self.old { kept = record self.old.kept { counts = counts } } }
    {
        self.counts = counts;
    }

    /// Its id.
    pub(crate) fn id(&self) -> CacheId
        ensures { result ≡ self.now.kept.id }
    {
        self.id
    }

    /// The number of the key's row, whether or not it has expired.
    pub fn find<R: Rows>(&self, rows: &R, key: &Key) -> Option<u32>
        requires tied { IsTied (R.contents rows.now) self.now.kept }
        ensures found { FoundRow key.now self.now.kept result }
    {
        rows.find(self.id, key)
    }

    /// Whether the key has a live row. This is no use of the row: it renews nothing and counts nothing.
    pub fn holds<R: Rows>(&self, rows: &R, key: &Key, now: u64) -> bool
        requires tied { IsTied (R.contents rows.now) self.now.kept }
        ensures { result ≡ holds self.now.kept.config now key.now (state_of self.now.kept) }
    {
        match self.find(rows, key) {
            Some(row) => live(now, self.record(row).expiry),
            None => false,
        }
    }

    /// What the key's live row holds, if it has one. This is no use of the row: it renews nothing and counts nothing.
    pub fn peek<R: Rows>(&self, rows: &R, key: &Key, now: u64) -> Option<&Record>
        requires tied { IsTied (R.contents rows.now) self.now.kept }
        ensures { option_map (λ held. held.now) result ≡ live_row now key.now (state_of self.now.kept) }
    {
        match self.find(rows, key) {
            Some(row) if live(now, self.record(row).expiry) => Some(self.record(row)),
            _ => None,
        }
    }

    /// What the row of this number holds, if there is one. A row keeps its number as long as it is there. No number is
    /// as great as the capacity.
    #[tactic(auto, using(crate::proofs::Numbers::number_laws))]
    pub fn row_at(&self, number: u32) -> Option<&Record>
        ensures row { option_map (λ held. held.now) result ≡ seek number self.now.kept.cells }
        ensures below { (n : ℕ) → self.now.kept.config.capacity ≤ n → seek n self.now.kept.cells ≡ None }
    {
        self.slots.get(number)
    }

    /// Whether no more rows fit.
    pub(crate) fn is_full(&self) -> bool
        ensures full { result ≡ true → length self.now.kept.cells ≡ self.now.kept.config.capacity }
        ensures some { result ≡ true → 0 < length self.now.kept.cells }
        ensures below { result ≡ false → length self.now.kept.cells < self.now.kept.config.capacity }
    {
        self.len() == self.config.capacity
    }

    /// What a row holds.
    pub fn record(&self, row: u32) -> &Record
        requires { has_row row self.now.kept.cells ≡ true }
        ensures { seek row self.now.kept.cells ≡ Some result.now }
    {
        self.slots.record(row)
    }

    /// Whether a row was used since CLOCK's hand last passed it.
    pub fn is_used(&self, row: u32) -> bool
        requires { has_row row self.now.kept.cells ≡ true }
        ensures { result ≡ bit_in row self.now.kept.cells }
    {
        self.ring.is_used(row)
    }

    /// The number of the first row, which is the one at CLOCK's hand.
    pub fn first(&self) -> Option<u32>
        ensures { result ≡ option_map (λ c. c.row) (first self.now.kept.cells) }
    {
        let (row, _) = self.head()?;
        Some(row)
    }

    /// The number of the row after a row.
    pub fn after(&self, row: u32) -> Option<u32>
        requires { has_row row self.now.kept.cells ≡ true }
        ensures { result ≡ row_after row self.now.kept.cells }
    {
        self.ring.after(row)
    }

    /// Takes a row out, and returns what it held.
    pub(crate) fn take(&mut self, row: u32) -> Record
        requires { has_row row self.old.kept.cells ≡ true }
        ensures was { seek row self.old.kept.cells ≡ Some result }
        ensures kept { self.new ≡ with_cells (without_row row self.old.kept.cells) self.old }
        ensures one { length self.new.kept.cells + 1 ≡ length self.old.kept.cells }
    {
        self.ring.drop_one(row);
        self.slots.take(row)
    }

    /// Adds a row, last in the ring and with a clear bit, and returns its number.
    pub(crate) fn push(&mut self, new: Record) -> u32
        requires { length self.old.kept.cells < self.old.places }
        ensures fresh { has_row result self.old.kept.cells ≡ false }
        ensures kept { self.new
            ≡ with_cells (self.old.kept.cells ++ new_cell result new ∷ []) self.old }
    {
        let row = self.slots.fill(new);
        self.ring.push(row);
        row
    }

    /// Adds a row as it was saved, last in the ring and with this bit, and returns its number.
    #[tactic(auto, using(crate::proofs::Saving::saving_laws))]
    pub(crate) fn push_saved(&mut self, new: Record, used: bool) -> u32
        requires { length self.old.kept.cells < self.old.places }
        ensures fresh { has_row result self.old.kept.cells ≡ false }
        ensures kept { self.new
            ≡ with_cells (self.old.kept.cells ++ saved_cell result new used ∷ []) self.old }
    {
        let expiry = new.expiry;
        let row = self.push(new);
        if used {
            self.renew(row, expiry);
        }
        row
    }

    /// Replaces what a row holds, sets its bit, and returns what it held.
    pub(crate) fn store(&mut self, row: u32, new: Record) -> Record
        requires { has_row row self.old.kept.cells ≡ true }
        ensures was { seek row self.old.kept.cells ≡ Some result }
        ensures kept { self.new ≡ with_cells (stored row new self.old.kept.cells) self.old }
    {
        self.ring.touch(row);
        self.slots.replace(row, new)
    }

    /// Changes a row's expiry and sets its bit.
    pub(crate) fn renew(&mut self, row: u32, expiry: Expiry)
        requires { has_row row self.old.kept.cells ≡ true }
        ensures { let held : Record = held_of (seek row self.old.kept.cells) in
            self.new
            ≡ with_cells (stored row (with_expiry_of expiry held) self.old.kept.cells) self.old }
    {
        self.ring.touch(row);
        self.slots.set_expiry(row, expiry);
    }

    /// The number of the first row, and its bit.
    fn head(&self) -> Option<(u32, bool)>
        ensures { result ≡ option_map (λ c. (c.row, c.bit)) (first self.now.kept.cells) }
    {
        self.ring.head()
    }

    /// The hand passes the first row: it goes last, its bit clear.
    fn turn(&mut self)
        requires { 0 < length self.old.kept.cells }
        ensures { self.new ≡ with_cells (turned_cells self.old.kept.cells) self.old }
    {
        self.ring.turn();
    }

    /// The hand turns until it stops, at a row that is expired or was not used since it last passed. Returns that
    /// row's number.
    pub(crate) fn turn_hand(&mut self, now: u64) -> u32
        requires { 0 < length self.old.kept.cells }
        ensures hand { IsVictim now self.old.kept self.new.kept result }
        ensures places { self.new.places ≡ self.old.places }
    {
        while let Some((row, bit)) = self.head() {
            if !bit || !live(now, self.record(row).expiry) {
                return row;
            }
            self.turn();
        }
        unreachable!()
    }
}
