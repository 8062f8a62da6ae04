//! Memory that a call's changes need, made before the first of them.
ghost use Rattle.std.specs.Prelude.{◌≡◌, ◌<◌, ◌≤◌, ◌+◌, ◌^◌, OnOk, OnErr, IsOk};
ghost use Rattle.std.specs.FinMap as map;
ghost use Rattle.jc_ops.specs.Visited.{HasPlacesIn, LacksPlacesIn};

use super::Visit;
use jc_model::OutOfMemory;
use jc_ring::ring::Ring;
use jc_rows::rows::Rows;
use std::alloc::AllocError;

impl<R: Rows, G: Ring> Visit<R, G> {
    /// Makes places for so many notices more, where the cache has listeners.
    pub fn reserve_notices(&mut self, more: usize) -> Result<(), OutOfMemory>
        ensures same { self.new ≡ record self.old { noted = self.new.noted } }
        ensures told { self.new.noted.told ≡ self.old.noted.told }
        ensures places { OnOk result (HasPlacesIn more self.new) }
        ensures refused { OnErr result (LacksPlacesIn more self.new) }
        ensures succeeds { HasPlacesIn more self.old → IsOk result }
    {
        self.notices.reserve_for(self.cache.config(), more)
    }

    /// Makes room for so many rows more, in the table and in the cache, which needs none past its capacity. Nothing is
    /// done where none are wanted, or where there is room.
    pub fn reserve_rows(&mut self, more: usize) -> Result<(), OutOfMemory>
        ensures same { self.new ≡ record self.old { spare = self.new.spare } }
        ensures room { OnOk result (more ≤ self.new.spare) }
        ensures refused { map.len self.old.table + more < 2 ^ 64 →
            OnErr result (self.new.spare < more) }
        ensures kept { self.old.spare ≤ self.new.spare }
        ensures there { more ≤ self.old.spare → self.new.spare ≡ self.old.spare }
        ensures none { more ≡ 0 → IsOk result }
        ensures stands { more ≤ self.old.spare →
            map.len self.old.table + more < 2 ^ 64 → IsOk result }
    {
        if more == 0 {
            return Ok(());
        }
        match self.rows.len().checked_add(more) {
            Some(all) => self.make_room(all, more),
            None => Err(AllocError),
        }
    }

    /// Makes room for so many rows of the table in all, and for so many more of the cache.
    fn make_room(&mut self, all: usize, more: usize) -> Result<(), OutOfMemory>
        requires all { all ≡ map.len self.old.table + more }
        requires some { 0 < more }
        ensures same { self.new ≡ record self.old { spare = self.new.spare } }
        ensures room { OnOk result (more ≤ self.new.spare) }
        ensures refused { OnErr result (self.new.spare < more) }
        ensures kept { self.old.spare ≤ self.new.spare }
        ensures there { more ≤ self.old.spare → self.new.spare ≡ self.old.spare }
        ensures stands { more ≤ self.old.spare → IsOk result }
    {
        self.rows.make_room(all)?;
        self.cache.reserve(self.alloc, more)
    }
}
