//! Rows that a cache had when it was saved.
ghost use Rattle.std.specs.Prelude.{◌≡◌, ◌<◌, ◌++◌, ◌∷◌, [], length, None};
ghost use Rattle.jc_ops.specs.Kept.{items_of, item_with, key_row};
ghost use Rattle.jc_ops.specs.Visited.{SpendsAtMost};

use super::Visit;
use crate::slots::Record;
use jc_ring::ring::Ring;
use jc_rows::rows::Rows;

impl<R: Rows, G: Ring> Visit<R, G> {
    /// Adds a row as it was saved, last in the ring: with its bit and its expiry. No one is told, and nothing is counted.
    #[tactic(auto, using(crate::proofs::Changes::change_laws, crate::proofs::Found::absent_there))]
    pub fn add_saved(&mut self, new: Record, used: bool)
        requires absent { key_row self.old.cache new.key ≡ None }
        requires within { length self.old.cache.cells < self.old.cache.config.capacity }
        requires room { 0 < self.old.spare }
        ensures spends { SpendsAtMost 1 0 self.old self.new }
        ensures same { self.new.cache ≡ record self.old.cache { cells = self.new.cache.cells } }
        ensures added { items_of self.new.cache.cells
            ≡ items_of self.old.cache.cells ++ item_with new used ∷ [] }
        ensures noted { self.new.noted ≡ self.old.noted }
    {
        let key = new.key;
        let expiry = new.expiry;
        let row = self.cache.push_saved(new, used);
        self.rows.put(self.cache.id(), key, row, expiry);
    }
}
