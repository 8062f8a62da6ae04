//! Doubling: a table of twice as many buckets is filled with the rows, and takes the place of the old one.
ghost use Rattle.std.specs.Prelude.{◌≡◌, ◌+◌, ◌*◌, ◌/◌, ◌≤◌, ◌<◌, None, Some, IfOk, OnOk, length, true, false, replicate};
ghost use Rattle.std.specs.FinMap as map;
ghost use Rattle.jc_place.specs.Place.{IsTableSize};
ghost use Rattle.jc_cuckoo.specs.Cells.{rows_in, held_place, IsBucketOf, IsFull};
ghost use Rattle.jc_cuckoo.specs.Double.{IsAdded, IsBlankFrom, IsDoubled, IsFilled, IsLeft, AreStashRows, HasRoomForStash, HasSlots, HasStash, HoldsStash, KeepsStashNeeded, Doubles};
ghost use Rattle.jc_cuckoo.specs.Table.{TellsImage, image};
ghost use Rattle.jc_cuckoo.specs.Images.{grown_image};

use crate::change::stash_count;
use crate::cuckoo::{Cuckoo, MOST_BUCKETS};
use crate::held::Held;
use crate::mirror::{Mirror, NoMirror};
use crate::scan::first_empty;
use crate::table::LONGEST;
use jc_model::OutOfMemory;
use jc_place::place::{Placer, alternate, rest};
use std::alloc::AllocError;

impl<P: Placer + Drop, M: Mirror> Cuckoo<P, M> {
    /// Puts a row into the first empty slot of one of its buckets, where it has one.
    fn fill_first(&mut self, bucket: u32, tag: u8, held: Held) -> bool
        requires below { bucket < self.old.buckets }
        requires bucket { IsBucketOf (P.placing self.old.placer) self.old.buckets (held_place held) bucket }
        requires tag { tag ≡ (P.placing self.old.placer held.id held.key).tag }
        requires absent { map.get (rows_in self.old.cells) (held_place held) ≡ None }
        ensures added { result ≡ true → IsAdded self.old self.new held }
        ensures filled { result ≡ true → IsFilled self.old.cells self.new.cells bucket held }
        ensures full { result ≡ false → IsFull self.old.cells bucket }
        ensures same { result ≡ false → self.new ≡ self.old }
    {
        match first_empty(&self.cells, bucket) {
            Some(at) => {
                self.fill(at, tag, held);
                true
            }
            None => false,
        }
    }

    /// Puts a row from a slot of a table of half the size into that one of its two buckets which the slot's bucket
    /// became part of.
    #[tactic(auto, using(jc_place::proofs::Other::counts))]
    fn bring(&mut self, half: u32, at: usize, held: Held)
        requires size { IsTableSize half }
        requires twice { self.old.buckets ≡ 2 * half }
        requires at { at < 4 * half }
        requires bucket { IsBucketOf (P.placing self.old.placer) half (held_place held) (at / 4) }
        requires absent { map.get (rows_in self.old.cells) (held_place held) ≡ None }
        requires slots { length self.old.cells ≡ 8 * half }
        requires blank { IsBlankFrom half self.old.cells at }
        ensures added { IsAdded self.old self.new held }
        ensures slots { length self.new.cells ≡ 8 * half }
        ensures blank { IsBlankFrom half self.new.cells (at + 1) }
    {
        // At most four rows come to a bucket, so it has an empty slot.
        let place = self.placer.place(held.id, &held.key);
        let first = rest(place.first, self.buckets);
        if first % half == (at / 4) as u32 {
            let _ = self.fill_first(first, place.tag, held);
            return;
        }
        let second = alternate(first, place.tag, self.buckets);
        let _ = self.fill_first(second, place.tag, held);
    }

    /// Brings the row of a slot into a table of twice as many buckets.
    fn bring_slot(&self, at: usize, twice: &mut Cuckoo<P, NoMirror>)
        requires at { at < 4 * self.now.buckets }
        requires slots { HasSlots self.now at twice.old }
        ensures slots { HasSlots self.now (at + 1) twice.new }
        ensures room { twice.old.room ≤ twice.new.room }
    {
        if let Some(held) = self.row_in(at) {
            twice.bring(self.buckets, at, held);
        }
    }

    /// Brings the rows of all slots into an empty table of twice as many buckets.
    fn bring_slots(&self, twice: &mut Cuckoo<P, NoMirror>)
        requires placer { twice.old.placer ≡ self.now.placer }
        requires buckets { twice.old.buckets ≡ 2 * self.now.buckets }
        requires empty { twice.old.cells ≡ replicate (8 * self.now.buckets) None }
        ensures slots { HasSlots self.now (4 * self.now.buckets) twice.new }
        ensures room { twice.old.room ≤ twice.new.room }
    {
        let mut at = 0;
        'slots: while at < self.slots() {
            self.bring_slot(at, twice);
            at += 1;
        }
    }

    /// Puts a row into the first empty slot of its first bucket, else of its second, else at the end of the stash.
    #[tactic(auto, using(jc_place::proofs::Other::counts))]
    fn admit(&mut self, held: Held)
        requires room { 0 < self.old.room }
        requires absent { map.get (rows_in self.old.cells) (held_place held) ≡ None }
        ensures added { IsAdded self.old self.new held }
        ensures needed { KeepsStashNeeded P.placing self.old self.new }
    {
        let place = self.placer.place(held.id, &held.key);
        let first = rest(place.first, self.buckets);
        let second = alternate(first, place.tag, self.buckets);
        if self.fill_first(first, place.tag, held.same()) {
            return;
        }
        if self.fill_first(second, place.tag, held.same()) {
            return;
        }
        self.stow(held);
    }

    /// The rows of the stash, each after a number that grows with its arrival.
    fn stash_rows(&self) -> Result<Vec<(u64, Held)>, OutOfMemory>
        ensures { IfOk result (λ rows. HoldsStash self.now.buckets self.now.cells rows.items) }
    {
        let alloc = *self.cells.allocator();
        let slots = self.slots();
        let mut rows = Vec::with_capacity(alloc, self.cells.len() - slots)?;
        let mut at = slots;
        'stash: while at < self.cells.len() {
            if let Some(held) = &self.cells[at] {
                rows.push_reserved((self.index.number(held.id, &held.key), held.same()));
            }
            at += 1;
        }
        Ok(rows)
    }

    /// The rows of the stash in the order in which they came.
    fn stash_in_order(&self) -> Result<Vec<(u64, Held)>, OutOfMemory>
        ensures { IfOk result (λ rows. AreStashRows self.now.buckets self.now.cells rows.items) }
    {
        let mut rows = self.stash_rows()?;
        rows.sort_unstable_by_key(|row: &(u64, Held)| -> u64 { row.0 });
        Ok(rows)
    }

    /// Brings the rows of the stash into a table of twice as many buckets, in the order in which they came.
    fn bring_stash(&self, twice: &mut Cuckoo<P, NoMirror>) -> Result<(), OutOfMemory>
        requires stash { HasStash P.placing self.now (4 * self.now.buckets) twice.old }
        requires room { HasRoomForStash self.now twice.old }
        ensures { OnOk result (IsDoubled P.placing self.now twice.new) }
    {
        let waiting = self.stash_in_order()?;
        let mut at = 0;
        'stash: while at < waiting.len() {
            twice.admit(waiting[at].1.same());
            at += 1;
        }
        Ok(())
    }

    /// A table of twice as many buckets with the same rows.
    fn double_table(&self) -> Result<Cuckoo<P, NoMirror>, OutOfMemory>
        requires { self.now.buckets < 65536 }
        ensures { IfOk result (λ twice. IsDoubled P.placing self.now twice) }
    {
        let slots = self.slots();
        let stash = self.cells.len() - slots + self.room();
        if stash > LONGEST - 2 * slots {
            return Err(AllocError);
        }
        let alloc = *self.cells.allocator();
        let mut twice = Cuckoo::with_room(alloc, self.placer, NoMirror, 2 * self.buckets, stash)?;
        self.bring_slots(&mut twice);
        self.bring_stash(&mut twice)?;
        Ok(twice)
    }

    /// The slots, and how many rows the stash holds: what an image tells.
    fn slots_and_stash(&self) -> (&[Option<Held>], u32)
        ensures image { grown_image result.0.now result.1 ≡ image self.now }
        ensures slots { length result.0.now ≡ 4 * self.now.buckets }
    {
        let stash = stash_count(&self.tags, &self.cells);
        (&self.cells.as_slice()[..self.slots()], stash)
    }

    /// Holds the rows from now on as a table of twice as many buckets does, unless the mirror finds no memory for it.
    fn take_over(&mut self, twice: Cuckoo<P, NoMirror>) -> bool
        requires few { 2 * self.old.buckets ≤ 65536 }
        requires doubled { IsDoubled P.placing self.old twice }
        ensures doubled { result ≡ true → IsDoubled P.placing self.old self.new }
        ensures images { result ≡ true → TellsImage M.images self.old self.new }
        ensures refused { result ≡ false → IsLeft M.images self.old self.new }
        ensures work { self.new.work ≡ self.old.work }
        ensures wide { 4 * self.new.buckets ≤ length self.new.cells }
    {
        let (slots, stash) = twice.slots_and_stash();
        match self.mirror.grow(slots, stash) {
            Ok(()) => {
                self.buckets = twice.buckets;
                self.tags = twice.tags;
                self.cells = twice.cells;
                self.index = twice.index;
                true
            }
            Err(_) => false,
        }
    }

    /// Doubles the buckets where rows for half of their slots are held, memory is found, and there are not too many.
    pub(crate) fn double(&mut self) -> bool
        ensures allowed { result ≡ true → Doubles self.old self.new }
        ensures doubled { result ≡ true → IsDoubled P.placing self.old self.new }
        ensures images { result ≡ true → TellsImage M.images self.old self.new }
        ensures refused { result ≡ false → IsLeft M.images self.old self.new }
        ensures work { self.new.work ≡ self.old.work }
        ensures wide { 4 * self.new.buckets ≤ length self.new.cells }
    {
        if self.buckets >= MOST_BUCKETS || self.held < 2 * self.buckets as usize {
            return false;
        }
        match self.double_table() {
            Ok(twice) => self.take_over(twice),
            Err(_) => false,
        }
    }
}
