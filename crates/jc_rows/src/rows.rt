//! The table of rows: a finite map from a cache and a key to a row number and an expiry.
ghost use Rattle.std.specs.Prelude.{◌≡◌, ℕ, ◌+◌, ◌<◌, ◌≤◌, None, IsSome, IsOk, OnOk, OnErr};
ghost use Rattle.std.specs.FinMap as map;
ghost use Rattle.jc_rows.specs.Rows.{HasRoomForRows, LacksRoomForRows, RowMap, number_at, with_expiry};

use jc_model::OutOfMemory;
use jc_model::config::Expiry;
use jc_model::event::CacheId;
use jc_model::key::Key;

/// One table for the rows of all caches. Two caches may have rows with the same key, and rows of two caches may have
/// the same number.
pub trait Rows: Drop {
    /// What it holds.
    ghost contents: { Self → RowMap };

    /// How many further rows it has room for.
    ghost spare: { Self → ℕ };

    /// How many rows it holds, of all caches.
    fn len(&self) -> usize
        ensures { result ≡ map.len (contents self.now) };

    /// Makes room for `n` rows in all. Nothing is done where that room is there. Where memory runs out, the rows stay as
    /// they were, and so many do not fit.
    fn make_room(&mut self, n: usize) -> Result<(), OutOfMemory>
        ensures same { contents self.new ≡ contents self.old }
        ensures ok { OnOk result (HasRoomForRows n (contents self.new) (spare self.new)) }
        ensures refused { OnErr result (LacksRoomForRows n (contents self.new) (spare self.new)) }
        ensures succeeds { HasRoomForRows n (contents self.old) (spare self.old) → IsOk result }
        ensures there { HasRoomForRows n (contents self.old) (spare self.old)
            → spare self.new ≡ spare self.old }
        ensures kept { spare self.old ≤ spare self.new };

    /// The number of a key's row, or `None` where the cache has no row of this key.
    fn find(&self, id: CacheId, key: &Key) -> Option<u32>
        ensures { result ≡ number_at (contents self.now) (id, key.now) };

    /// Adds a row. It needs room, and takes no memory.
    fn put(&mut self, id: CacheId, key: Key, row: u32, expiry: Expiry)
        requires absent { map.get (contents self.old) (id, key) ≡ None }
        requires room { 0 < spare self.old }
        ensures put { contents self.new ≡ map.insert (contents self.old) (id, key) (row, expiry) }
        ensures kept { spare self.old ≤ spare self.new + 1 };

    /// Takes a key's row out, and returns its number.
    fn remove(&mut self, id: CacheId, key: &Key) -> Option<u32>
        ensures found { result ≡ number_at (contents self.old) (id, key.now) }
        ensures removed { contents self.new ≡ map.remove (contents self.old) (id, key.now) }
        ensures kept { spare self.old ≤ spare self.new };

    /// Changes the expiry of a key's row.
    fn set_expiry(&mut self, id: CacheId, key: &Key, expiry: Expiry)
        requires { IsSome (map.get (contents self.old) (id, key.now)) }
        ensures set { contents self.new ≡ with_expiry (contents self.old) (id, key.now) expiry }
        ensures kept { spare self.old ≤ spare self.new };
}
