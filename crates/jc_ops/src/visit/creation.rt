//! New rows, and room for them, by CLOCK.
ghost use Rattle.std.specs.Prelude.{◌≡◌, ℕ, ◌<◌, [], ◌∷◌, ◌++◌, length, None, is_some};
ghost use Rattle.std.specs.FinMap as map;
ghost use Rattle.jc_model.specs.State.{after_create};
ghost use Rattle.jc_model.specs.Changes.{create, with_room};
ghost use Rattle.jc_ops.specs.Shelf.{new_cell};
ghost use Rattle.jc_ops.specs.Noted.{IsTold};
ghost use Rattle.jc_ops.specs.Kept.{key_row};
ghost use Rattle.jc_ops.specs.Tied.{StaysAbsent};
ghost use Rattle.jc_ops.specs.Visited.{SpendsAtMost, HasPlacesIn, progress_in};

use super::Visit;
use crate::notices::Happening;
use crate::slots::Record;
use crate::stored::Stored;
use jc_expiry::expiry::after_create;
use jc_model::call::Kind;
use jc_model::key::Key;
use jc_ring::ring::Ring;
use jc_rows::rows::Rows;

impl<R: Rows, G: Ring> Visit<R, G> {
    /// Gives the key a new row, with room made for it where the cache is full, and tells it where the cache has
    /// listeners. Where the policy's duration on creation is zero, this stores nothing, evicts nothing and tells
    /// nothing. Returns whether it stored.
    #[tactic(auto, using(crate::proofs::Found::absent_there))]
    pub fn create(&mut self, key: Key, stored: Stored) -> bool
        requires absent { key_row self.old.cache key ≡ None }
        requires room { 0 < self.old.spare }
        requires places { HasPlacesIn 2 self.old }
        requires told { IsTold self.old.cache.config stored }
        ensures spends { SpendsAtMost 1 2 self.old self.new }
        ensures stored { result ≡ is_some (after_create self.old.cache.config.policy self.old.moment) }
        ensures progress { progress_in self.new
            ≡ create self.old.cache.config self.old.moment key stored.value (progress_in self.old) }
    {
        let Some(expiry) = after_create(self.config().policy, self.moment) else {
            return false;
        };
        self.ensure_room();
        let Stored { value, told } = stored;
        self.add_row(Record { key, value, expiry });
        let happening = Happening {
            kind: Kind::Created,
            key,
            value: told,
            before: None,
        };
        self.notices.note_for(self.cache.config(), happening);
        true
    }

    /// Adds a row to the cache and the table, last in the ring and with a clear bit.
    #[tactic(auto, using(crate::proofs::Changes::change_laws))]
    fn add_row(&mut self, new: Record)
        requires absent { map.get self.old.table (self.old.cache.id, new.key) ≡ None }
        requires within { length self.old.cache.cells < self.old.cache.config.capacity }
        requires room { 0 < self.old.spare }
        ensures spends { SpendsAtMost 1 0 self.old self.new }
        ensures kept { (row : ℕ) × (self.new.cache
            ≡ record self.old.cache { cells = self.old.cache.cells ++ new_cell row new ∷ [] }) }
        ensures noted { self.new.noted ≡ self.old.noted }
    {
        let key = new.key;
        let expiry = new.expiry;
        let row = self.cache.push(new);
        self.rows.put(self.cache.id(), key, row, expiry);
    }

    /// Makes room for one row where the cache is full: the row where the hand stops goes, with its notice where it has
    /// expired, and else counted as an eviction.
    fn ensure_room(&mut self)
        requires { HasPlacesIn 1 self.old }
        ensures spends { SpendsAtMost 0 1 self.old self.new }
        ensures still_absent { StaysAbsent self.old.cache.id self.old.table self.new.table }
        ensures below { length self.new.cache.cells < self.new.cache.config.capacity }
        ensures progress { progress_in self.new
            ≡ with_room self.old.cache.config self.old.moment (progress_in self.old) }
    {
        if self.cache.is_full() {
            let row = self.cache.turn_hand(self.moment);
            if self.is_live(row) {
                let _gone = self.take_row(row);
                self.eviction();
            } else {
                self.remove_row(row, Kind::Expired);
            }
        }
    }
}
