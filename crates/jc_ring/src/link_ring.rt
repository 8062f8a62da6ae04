//! The ring in links: changes and looks take constant time, and no change takes memory.
ghost use Rattle.jc_ring.specs.Links.{linked_list, AreLinks, AreLinks-prop};

use crate::ring::Ring;
use jc_model::OutOfMemory;
use std::alloc::Global;

/// A clock (MemC3, section 4) whose rows are linked both ways, since a row may leave it from any place.
/// Each table has a place for each row, and one place more, at the limit, which closes the ring: it stands just
/// before the hand and after the last row, so that no change has a special case.
#[derive(Drop)]
pub struct LinkRing {
    next: Vec<u32>,
    previous: Vec<u32>,
    used: Vec<bool>,
    limit: u32,
    ghost linked: { AreLinks next.items previous.items used.items limit } by { AreLinks-prop next.items previous.items used.items limit },
}

impl Ring for LinkRing {
    ghost list = { λ ring. linked_list ring.next.items ring.used.items ring.limit };

    ghost limit = { λ ring. ring.limit };

    fn with_capacity(alloc: Global, capacity: u32) -> Result<Self, OutOfMemory> {
        let places = capacity as usize + 1;
        let next = vec![in alloc; capacity; places]?;
        let previous = vec![in alloc; capacity; places]?;
        let used = vec![in alloc; false; places]?;
        Ok(LinkRing {
            next,
            previous,
            used,
            limit: capacity,
        })
    }

    fn push(&mut self, row: u32) {
        let end = self.limit;
        let last = self.previous[end as usize];
        self.next[last as usize] = row;
        self.previous[row as usize] = last;
        self.next[row as usize] = end;
        self.previous[end as usize] = row;
        self.used[row as usize] = false;
    }

    fn drop_one(&mut self, row: u32) {
        let before = self.previous[row as usize];
        let behind = self.next[row as usize];
        self.next[before as usize] = behind;
        self.previous[behind as usize] = before;
    }

    fn touch(&mut self, row: u32) {
        self.used[row as usize] = true;
    }

    fn turn(&mut self) {
        let passed = self.next[self.limit as usize];
        self.drop_one(passed);
        self.push(passed);
    }

    fn head(&self) -> Option<(u32, bool)> {
        let first = self.next[self.limit as usize];
        if first == self.limit {
            None
        } else {
            Some((first, self.used[first as usize]))
        }
    }

    fn is_used(&self, row: u32) -> bool {
        self.used[row as usize]
    }

    fn after(&self, row: u32) -> Option<u32> {
        let behind = self.next[row as usize];
        if behind == self.limit {
            None
        } else {
            Some(behind)
        }
    }
}
