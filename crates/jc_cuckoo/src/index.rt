//! Where each row of the stash stands, found by a hash that keys can't be chosen for.
ghost use Rattle.std.specs.Prelude.{◌≡◌, ◌≢◌, ◌+◌, ◌≤◌, ◌<◌, ℕ, List, Some, None, IsOk, IfOk, OnOk, OnErr, IsSome};
ghost use Rattle.jc_cuckoo.specs.Index.{IsAsBefore, IsElsewhereAsBefore, IsOfNone, index_hasher, index_room, cell_in_stash};

use jc_model::OutOfMemory;
use jc_model::event::CacheId;
use jc_model::key::Key;
use jc_place::keyed::KeyedState;
use std::alloc::{AllocError, Global};
use std::collections::HashMap;

/// Where a row of the stash stands, and how many rows came to the stash before it.
#[derive(Clone, Copy, Debug)]
pub struct Arrival {
    pub at: usize,
    pub number: u64,
}

/// Of each row of the stash, by its cache and key, where it stands.
#[derive(Drop)]
pub struct StashIndex {
    arrivals: HashMap<(CacheId, Key), Arrival, KeyedState, Global>,
    next: u64,
}

impl StashIndex {
    /// An index of no row, under this hash, with room for so many.
    pub fn new(alloc: Global, keyed: KeyedState, rows: usize) -> Result<StashIndex, OutOfMemory>
        ensures none { IfOk result IsOfNone }
        ensures hasher { IfOk result (λ index. index_hasher index ≡ keyed) }
        ensures room { IfOk result (λ index. rows ≤ index_room index) }
    {
        let arrivals = HashMap::with_capacity_and_hasher(alloc, rows, keyed)?;
        Ok(StashIndex { arrivals, next: 0 })
    }

    /// How many more rows can be listed without memory.
    pub fn room(&self) -> usize
        ensures { result ≡ index_room self.now }
    {
        self.arrivals.capacity() - self.arrivals.len()
    }

    /// Makes room for so many rows more.
    pub fn reserve(&mut self, more: usize) -> Result<(), OutOfMemory>
        ensures same { IsAsBefore self.old self.new }
        ensures ok { OnOk result (more ≤ index_room self.new) }
        ensures refused { OnErr result (index_room self.new < more) }
        ensures succeeds { more ≤ index_room self.old → IsOk result }
        ensures kept { index_room self.old ≤ index_room self.new }
    {
        // Whether they fit is seen by the room alone: std does not say what a refusal leaves of it.
        let _ = self.arrivals.reserve(more);
        if more <= self.room() {
            return Ok(());
        }
        Err(AllocError)
    }

    /// Where a row stands, if it is in the stash.
    pub fn find(&self, id: CacheId, key: &Key) -> Option<usize>
        ensures { result ≡ cell_in_stash self.now (id, key.now) }
    {
        match self.arrivals.get(&(id, *key)) {
            Some(arrival) => Some(arrival.at),
            None => None,
        }
    }

    /// How many rows came to the stash before a row of it.
    pub fn number(&self, id: CacheId, key: &Key) -> u64 {
        match self.arrivals.get(&(id, *key)) {
            Some(arrival) => arrival.number,
            None => 0,
        }
    }

    /// Notes where a row stands that came to the stash.
    pub fn add(&mut self, id: CacheId, key: &Key, at: usize)
        requires room { 0 < index_room self.old }
        ensures added { cell_in_stash self.new (id, key.now) ≡ Some at }
        ensures others { IsElsewhereAsBefore (id, key.now) self.old self.new }
        ensures room { index_room self.old ≤ index_room self.new + 1 }
    {
        let number = self.next;
        self.next = number.wrapping_add(1);
        let _ = self.arrivals.insert((id, *key), Arrival { at, number });
    }

    /// Forgets a row that left the stash.
    pub fn remove(&mut self, id: CacheId, key: &Key)
        ensures gone { cell_in_stash self.new (id, key.now) ≡ None }
        ensures others { IsElsewhereAsBefore (id, key.now) self.old self.new }
        ensures kept { index_room self.old ≤ index_room self.new }
    {
        let _ = self.arrivals.remove(&(id, *key));
    }

    /// Notes that a row of the stash stands elsewhere now.
    pub fn move_to(&mut self, id: CacheId, key: &Key, at: usize)
        ensures moved { IsSome (cell_in_stash self.old (id, key.now))
            → cell_in_stash self.new (id, key.now) ≡ Some at }
        ensures others { IsElsewhereAsBefore (id, key.now) self.old self.new }
        ensures kept { index_room self.old ≤ index_room self.new }
    {
        if let Some(arrival) = self.arrivals.get_mut(&(id, *key)) {
            arrival.at = at;
        }
    }
}
