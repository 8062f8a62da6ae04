//! The plain reference body of the table: a map of std.
ghost use Rattle.std.specs.Prelude.{◌≡◌};
ghost use Rattle.std.specs.FinMap as map;
ghost use Rattle.jc_rows.specs.Listed.{contents_of};

use crate::rows::Rows;
use jc_model::OutOfMemory;
use jc_model::config::Expiry;
use jc_model::event::CacheId;
use jc_model::key::Key;
use std::alloc::{AllocError, Global};
use std::collections::HashMap;
use std::marker::Model;

/// Row numbers and expiries by cache and key.
#[derive(Drop)]
pub struct ListRows {
    rows: HashMap<(CacheId, Key), (u32, Expiry)>,
}

impl Model for ListRows {
    ghost use Rattle.std.specs.HashMap.{spare};
    ghost use Rattle.jc_rows.specs.Listed.{Listed};

    ghost Value = { Listed };

    ghost view = { λ table. record { rows = table.rows.entries; spare = spare table.rows } };
}

impl ListRows {
    /// A table with no rows and no room, which takes no memory yet.
    pub fn new(alloc: Global) -> ListRows
        ensures empty { contents_of result ≡ map.empty }
    {
        ListRows {
            rows: HashMap::new(alloc),
        }
    }
}

impl Rows for ListRows {
    ghost contents = { contents_of };

    ghost spare = { λ table. table.spare };

    fn len(&self) -> usize {
        self.rows.len()
    }

    fn make_room(&mut self, n: usize) -> Result<(), OutOfMemory> {
        let held = self.rows.len();
        if n <= self.rows.capacity() {
            return Ok(());
        }
        // Whether they fit is seen by the room alone: std does not say what a refusal leaves of it.
        let more = n - held;
        let _ = self.rows.reserve(more);
        if self.rows.capacity() - held < more {
            return Err(AllocError);
        }
        Ok(())
    }

    fn find(&self, id: CacheId, key: &Key) -> Option<u32> {
        match self.rows.get(&(id, *key)) {
            Some(row) => Some(row.0),
            None => None,
        }
    }

    fn put(&mut self, id: CacheId, key: Key, row: u32, expiry: Expiry) {
        let _ = self.rows.insert((id, key), (row, expiry));
    }

    fn remove(&mut self, id: CacheId, key: &Key) -> Option<u32> {
        match self.rows.remove(&(id, *key)) {
            Some((row, _)) => Some(row),
            None => None,
        }
    }

    fn set_expiry(&mut self, id: CacheId, key: &Key, expiry: Expiry) {
        if let Some(row) = self.rows.get_mut(&(id, *key)) {
            row.1 = expiry;
        }
    }
}
