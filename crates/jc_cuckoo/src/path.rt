//! Paths: rows that move, each to its other bucket, until the last one finds an empty slot (MemC3, section 3).
ghost use Rattle.std.specs.Prelude.{◌≡◌, ◌≢◌, ◌⊎◌, ◌+◌, ◌-◌, ◌*◌, ◌/◌, ◌≤◌, ◌<◌, None, Some, true, false, MatchOption, length};
ghost use Rattle.std.specs.FinMap as map;
ghost use Rattle.jc_cuckoo.specs.Cells.{cell, rows_in, held_place};
ghost use Rattle.jc_cuckoo.specs.Table.{Extends, Searches, SettlesRow, ChangesCountsOnly};
ghost use Rattle.jc_cuckoo.specs.Search.{Grows, IsEnd, queued_bucket, looked_slot};
ghost use Rattle.jc_cuckoo.specs.Paths.{CountsFrom, HasSameStart, HasSearchLeft, IsExhaustedFrom, IsQueueOf, IsSearchedTo, LooksAtSome};

use crate::cuckoo::Cuckoo;
use crate::held::{Held, Work};
use crate::mirror::Mirror;
use crate::queue::Queue;
use jc_place::place::{Placer, alternate, rest};

/// The most rows of a path.
const MOST_MOVES: u8 = 5;

impl<P: Placer + Drop, M: Mirror> Cuckoo<P, M> {
    /// Adds the bucket that a row could move into, where it is near and new and there is room for it. The row stands in
    /// the slot that the search comes to after so many.
    #[tactic(auto, using(jc_place::proofs::Other::counts))]
    pub(crate) fn reach(&self, queue: &mut Queue, looked: usize)
        requires queue { IsQueueOf P.placing self.now queue.old }
        requires searched { IsSearchedTo P.placing self.now queue.old looked }
        requires looked { looked < 4 * queue.old.count }
        requires row { cell self.now.cells (looked_slot queue.old looked) ≢ None }
        ensures queue { IsQueueOf P.placing self.now queue.new }
        ensures searched { IsSearchedTo P.placing self.now queue.new (looked + 1) }
        ensures grows { Grows queue.old queue.new }
    {
        let head = looked / 4;
        if queue.depths[head] >= MOST_MOVES {
            return;
        }
        if queue.count >= 64 {
            return;
        }
        let bucket = queue.buckets[head];
        let at = 4 * bucket as usize + looked % 4;
        let tag = self.tags[at];
        let other = alternate(bucket, tag, self.buckets);
        if queue.has(other) {
            return;
        }
        queue.push(other, at as u32, tag, head as u8);
    }

    /// Looks for a path, 256 slots at most: the bucket of the queue in which it ends, and that bucket's empty slot.
    pub(crate) fn search(&self, queue: &mut Queue, work: &mut Work) -> Option<(usize, usize)>
        requires queue { IsQueueOf P.placing self.now queue.old }
        requires start { queue.old.count ≡ 2 }
        requires work { (work.old.searches ≤ 1) × (work.old.looked ≤ 256) }
        ensures queue { IsQueueOf P.placing self.now queue.new }
        ensures buckets { HasSameStart queue.old queue.new }
        ensures counted { CountsFrom P.placing self.now queue.old work.old work.new }
        ensures looked { LooksAtSome work.old work.new }
        ensures moves { work.new.moves ≡ work.old.moves }
        ensures found { MatchOption result (IsExhaustedFrom P.placing self.now queue.old)
            (λ found. IsEnd self.now.cells queue.new found) }
    {
        work.count_search();
        let mut looked = 0;
        'slots: while looked < 4 * queue.count {
            let head = looked / 4;
            let at = 4 * queue.buckets[head] as usize + looked % 4;
            if work.look(&self.cells[at]) {
                return Some((head, at));
            }
            self.reach(queue, looked);
            looked += 1;
        }
        None
    }

    /// The row in a slot.
    pub(crate) fn row_in(&self, at: usize) -> Option<Held>
        requires { at < 4 * self.now.buckets }
        ensures { result ≡ cell self.now.cells at }
    {
        match &self.cells[at] {
            Some(held) => Some(held.same()),
            None => None,
        }
    }

    /// Moves the rows on a path, each into the slot that the one before it left, the last one first. It returns the
    /// slot that is empty then, and how many rows it moved.
    pub(crate) fn displace(&mut self, queue: &Queue, end: usize, empty: usize) -> (usize, u32)
        requires queue { IsQueueOf P.placing self.old queue.now }
        requires end { IsEnd self.old.cells queue.now (end, empty) }
        ensures rows { rows_in self.new.cells ≡ rows_in self.old.cells }
        ensures slot { result.0 < 4 * self.old.buckets }
        ensures empty { cell self.new.cells result.0 ≡ None }
        ensures bucket { (result.0 / 4 ≡ queued_bucket queue.now 0)
            ⊎ (result.0 / 4 ≡ queued_bucket queue.now 1) }
        ensures placer { (self.new.placer ≡ self.old.placer) × (self.new.buckets ≡ self.old.buckets) }
        ensures room { self.new.room ≡ self.old.room }
        ensures moves { result.1 ≤ 5 }
        ensures work { self.new.work ≡ self.old.work }
        ensures length { length self.new.cells ≡ length self.old.cells }
        ensures images { Extends M.images self.old self.new result.1 }
    {
        let mut node = end;
        let mut gap = empty;
        let mut moves = 0;
        'moves: while node >= 2 {
            let from = queue.slots[node] as usize;
            match self.row_in(from) {
                Some(held) => {
                    self.shift(from, gap, queue.tags[node], held);
                    gap = from;
                    node = queue.parents[node] as usize;
                    moves += 1;
                }
                None => return (gap, moves),
            }
        }
        (gap, moves)
    }

    /// Puts a row into a slot where a path leads to one, and says whether one did. Where none did, only `work` changes.
    #[tactic(auto, using(jc_place::proofs::Other::counts))]
    pub(crate) fn settle(&mut self, held: Held) -> bool
        requires absent { map.get (rows_in self.old.cells) (held_place held) ≡ None }
        requires work { HasSearchLeft self.old.work }
        ensures settled { result ≡ true → SettlesRow M.images self.old self.new held }
        ensures stays { result ≡ false
            → ChangesCountsOnly (P.placing self.old.placer) self.old self.new (held_place held) }
        ensures counted { Searches P.placing self.old (held_place held) self.old.work self.new.work }
        ensures looked { LooksAtSome self.old.work self.new.work }
    {
        let place = self.placer.place(held.id, &held.key);
        let first = rest(place.first, self.buckets);
        let second = alternate(first, place.tag, self.buckets);
        let mut queue = Queue::new(first, second);
        let mut work = self.work;
        let path = self.search(&mut queue, &mut work);
        self.work = work;
        match path {
            Some((end, empty)) => {
                let (gap, moves) = self.displace(&queue, end, empty);
                self.work.moves = moves;
                self.fill(gap, place.tag, held);
                true
            }
            None => false,
        }
    }
}
