//! The table as the rows of all caches.
ghost use Rattle.std.specs.Prelude.{◌≡◌, ◌⊎◌, ℕ, ◌+◌, ◌-◌, ◌≤◌, ◌<◌, None, Some, IsSome, IsOk, OnOk, OnErr};
ghost use Rattle.std.specs.FinMap as map;
ghost use Rattle.jc_rows.specs.Rows.{HasRoomForRows, LacksRoomForRows, number_at, with_expiry};
ghost use Rattle.jc_cuckoo.specs.Cells.{rows_in};
ghost use Rattle.jc_cuckoo.specs.Table.{HasInSlot, IsStill, MayStash, TouchesPlace, no_work};
ghost use Rattle.jc_cuckoo.specs.Attempts.{IsWorkOfPut, Tries, TriesTwice};

use crate::cuckoo::Cuckoo;
use crate::held::{Held, Work};
use crate::mirror::Mirror;
use jc_model::OutOfMemory;
use jc_model::config::Expiry;
use jc_model::event::CacheId;
use jc_model::key::Key;
use jc_place::place::Placer;
use jc_rows::rows::Rows;
use std::alloc::AllocError;

/// So many cells and no more: the stash's count is kept in 32 bits.
pub(crate) const LONGEST: usize = 4_294_967_295;

impl<P: Placer + Drop, M: Mirror> Cuckoo<P, M> {
    /// How many rows more the stash can take without memory.
    pub(crate) fn room(&self) -> usize
        ensures { result ≡ self.now.room }
    {
        let cells = self.cells.capacity().min(LONGEST) - self.cells.len();
        cells.min(self.index.room())
    }
}

impl<P: Placer + Drop, M: Mirror> Rows for Cuckoo<P, M> {
    ghost contents = { λ t. rows_in t.cells };

    ghost spare = { λ t. t.room };

    fn len(&self) -> usize {
        self.held
    }

    fn make_room(&mut self, n: usize) -> Result<(), OutOfMemory>
        ensures same { rows_in self.new.cells ≡ rows_in self.old.cells }
        ensures ok { OnOk result (HasRoomForRows n (rows_in self.new.cells) self.new.room) }
        ensures refused { OnErr result (LacksRoomForRows n (rows_in self.new.cells) self.new.room) }
        ensures succeeds { HasRoomForRows n (rows_in self.old.cells) self.old.room → IsOk result }
        ensures there { HasRoomForRows n (rows_in self.old.cells) self.old.room
            → self.new.room ≡ self.old.room }
        ensures kept { self.old.room ≤ self.new.room }
        ensures still { IsStill self.old self.new }
    {
        if n <= self.held {
            return Ok(());
        }
        let more = n - self.held;
        if more <= self.room() {
            return Ok(());
        }
        if more > LONGEST - self.cells.len() {
            return Err(AllocError);
        }
        self.cells.reserve(more)?;
        self.index.reserve(more)
    }

    fn find(&self, id: CacheId, key: &Key) -> Option<u32> {
        match self.seek_row(id, key) {
            Some((_, held)) => Some(held.row),
            None => None,
        }
    }

    fn put(&mut self, id: CacheId, key: Key, row: u32, expiry: Expiry)
        requires absent { map.get (rows_in self.old.cells) (id, key) ≡ None }
        requires room { 0 < self.old.room }
        ensures put { rows_in self.new.cells ≡ map.insert (rows_in self.old.cells) (id, key) (row, expiry) }
        ensures kept { self.old.room ≤ self.new.room + 1 }

        // Each slot that a search looked at is counted. As many images on the way as rows were moved, and one before
        // them where the buckets doubled; none of them has the new row. Then the last one.
        ensures images { Tries P.placing M.images (id, key) no_work self.old self.new
            ⊎ TriesTwice P.placing M.images (id, key) self.old self.new }
        ensures work { IsWorkOfPut self.new.work }
        ensures stash { HasInSlot self.new (id, key) ⊎ MayStash P.placing self.new (id, key) }
        ensures placer { self.new.placer ≡ self.old.placer }
    {
        let held = Held {
            id,
            key,
            row,
            expiry,
        };
        self.work = Work {
            searches: 0,
            looked: 0,
            moves: 0,
        };
        if self.settle(held.same()) {
            return;
        }
        if !self.double() {
            self.stow(held);
            return;
        }
        if self.settle(held.same()) {
            return;
        }
        self.stow(held);
    }

    fn remove(&mut self, id: CacheId, key: &Key) -> Option<u32>
        ensures found { result ≡ number_at (rows_in self.old.cells) (id, key.now) }
        ensures removed { rows_in self.new.cells ≡ map.remove (rows_in self.old.cells) (id, key.now) }
        ensures kept { self.old.room ≤ self.new.room }
        ensures touches { TouchesPlace M.images self.old self.new (id, key.now) None }
        ensures absent { map.get (rows_in self.old.cells) (id, key.now) ≡ None → self.new ≡ self.old }
    {
        let slots = self.slots();
        match self.seek_row(id, key) {
            Some((at, held)) => {
                let row = held.row;
                let held = held.same();
                if at < slots {
                    self.clear(at, held);
                    return Some(row);
                }
                self.pull(at, held);
                Some(row)
            }
            None => None,
        }
    }

    fn set_expiry(&mut self, id: CacheId, key: &Key, expiry: Expiry)
        requires { IsSome (map.get (rows_in self.old.cells) (id, key.now)) }
        ensures set { rows_in self.new.cells ≡ with_expiry (rows_in self.old.cells) (id, key.now) expiry }
        ensures kept { self.old.room ≤ self.new.room }
        ensures touches { TouchesPlace M.images self.old self.new (id, key.now)
            (Some ((id, key.now), expiry)) }

        // What changes nothing tells no image.
        ensures still { (row : ℕ)
            → map.get (rows_in self.old.cells) (id, key.now) ≡ Some (row, expiry)
            → self.new ≡ self.old }
    {
        let slots = self.slots();
        if let Some((at, held)) = self.seek_row(id, key) {
            if held.expiry == expiry {
                return;
            }
            let held = held.same();
            if at < slots {
                self.renew(at, held, expiry);
                return;
            }
            self.renew_stashed(at, held, expiry);
        }
    }
}
