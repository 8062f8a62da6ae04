//! The plain reference body of the ring: a queue that starts at the hand.
ghost use Rattle.std.specs.Prelude.{◌≡◌, ◌<◌, ◌≤◌, length, true, false, slice_index_or};
ghost use Rattle.std.specs.VecDeque.{deque_capacity};
ghost use Rattle.jc_ring.specs.Ring.{on_ring, rows_apart};

use crate::ring::Ring;
use jc_model::OutOfMemory;
use std::alloc::Global;
use std::collections::VecDeque;

/// A ring in a queue. A turn takes one step; to find a row in the middle is a walk.
#[derive(Drop)]
pub struct ListRing {
    items: VecDeque<(u32, bool)>,
    limit: u32,
    ghost room: { limit ≤ deque_capacity items },
    ghost apart: { rows_apart items.items ≡ true },
}

/// The place of a row.
fn place_of(items: &VecDeque<(u32, bool)>, row: u32) -> usize
    requires { on_ring row items.now.items ≡ true }
    ensures within { result < length items.now.items }
    ensures row { (slice_index_or items.now.items result (0, false)).0 ≡ row }
{
    let mut place = 0;
    'places: while items[place].0 != row {
        place += 1;
    }
    place
}

impl Ring for ListRing {
    ghost list = { λ ring. ring.items.items };

    ghost limit = { λ ring. ring.limit };

    fn with_capacity(alloc: Global, capacity: u32) -> Result<Self, OutOfMemory> {
        let items = VecDeque::with_capacity(alloc, capacity as usize)?;
        Ok(ListRing {
            items,
            limit: capacity,
        })
    }

    fn push(&mut self, row: u32) {
        self.items.push_back_reserved((row, false));
    }

    fn drop_one(&mut self, row: u32) {
        let place = place_of(&self.items, row);
        let _ = self.items.remove(place);
    }

    fn touch(&mut self, row: u32) {
        let place = place_of(&self.items, row);
        self.items[place] = (row, true);
    }

    fn turn(&mut self) {
        if let Some((passed, _)) = self.items.pop_front() {
            self.items.push_back_reserved((passed, false));
        }
    }

    fn head(&self) -> Option<(u32, bool)> {
        match self.items.front() {
            Some(item) => Some(*item),
            None => None,
        }
    }

    fn is_used(&self, row: u32) -> bool {
        let place = place_of(&self.items, row);
        self.items[place].1
    }

    fn after(&self, row: u32) -> Option<u32> {
        let place = place_of(&self.items, row);
        match self.items.get(place + 1) {
            Some(item) => Some(item.0),
            None => None,
        }
    }
}
