//! All rows of a cache: a walk along its ring, and their removal.
ghost use Rattle.std.specs.Prelude.{◌≡◌, ◌<◌, ◌^◌, [], length, map, IfOk, OnOk};
ghost use Rattle.jc_model.specs.Sound.{HasDistinctKeys};
ghost use Rattle.jc_ops.specs.Kept.{items_of};
ghost use Rattle.jc_ops.specs.Visited.{SpendsAtMost};

use super::Visit;
use crate::state::CacheState;
use jc_model::OutOfMemory;
use jc_model::key::Key;
use jc_ring::ring::Ring;
use jc_rows::rows::Rows;

impl<R: Rows, G: Ring> Visit<R, G> {
    /// The keys of all rows, expired ones among them, in the order of the ring.
    pub fn keys(&self) -> Result<Vec<Key>, OutOfMemory>
        ensures keys { IfOk result (λ keys.
            keys.items ≡ map (λ x. x.key) (items_of self.now.cache.cells)) }
        ensures apart { OnOk result (HasDistinctKeys (items_of self.now.cache.cells)) }
        ensures few { IfOk result (λ keys. length keys.items < 2 ^ 32) }
    {
        let cache: &CacheState<G> = &self.cache;
        let mut keys = Vec::with_capacity(self.alloc, cache.len() as usize)?;
        let mut next = cache.first();
        'rows: while let Some(row) = next {
            keys.push_reserved(cache.record(row).key);
            next = cache.after(row);
        }
        Ok(keys)
    }

    /// Drops all rows. No one is told, and nothing is counted.
    pub fn clear(&mut self)
        ensures spends { SpendsAtMost 0 0 self.old self.new }
        ensures cleared { self.new.cache ≡ record self.old.cache { cells = [] } }
        ensures noted { self.new.noted ≡ self.old.noted }
    {
        'rows: while let Some(row) = self.cache.first() {
            let _gone = self.take_row(row);
        }
    }
}
