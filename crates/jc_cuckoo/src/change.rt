//! The changes of one row, each told as one image.
ghost use Rattle.std.specs.Prelude.{◌≡◌, ℕ, Option, ◌+◌, ◌-◌, ◌*◌, ◌/◌, ◌≤◌, ◌<◌, None, Some, [], ◌∷◌, ◌++◌, length, slice_set};
ghost use Rattle.std.specs.List.{swap_remove};
ghost use Rattle.std.specs.Vec.{vec_capacity};
ghost use Rattle.std.specs.FinMap as map;
ghost use Rattle.jc_place.specs.declared.keyed.KeyedState.{KeyedState};
ghost use Rattle.jc_cuckoo.specs.Cells.{cell, rows_in, DropsCell, IsBucketOf, IsOnce, held_place};
ghost use Rattle.jc_cuckoo.specs.Index.{IsIndexed, index_room};
ghost use Rattle.jc_cuckoo.specs.Images.{CoversImage};
ghost use Rattle.jc_cuckoo.specs.Table.{longest, AddsRow, Follows, RenewsRow, TouchesPlace, image};

use crate::cuckoo::Cuckoo;
use crate::held::Held;
use crate::index::StashIndex;
use crate::mirror::Mirror;
use jc_model::config::Expiry;
use jc_place::place::Placer;

/// How many cells stand after the slots.
pub(crate) fn stash_count(tags: &[u8], cells: &[Option<Held>]) -> u32
    requires { (length tags.now ≤ length cells.now) × (length cells.now ≤ longest) }
    ensures { result ≡ length cells.now - length tags.now }
{
    (cells.len() - tags.len()) as u32
}

/// The cell behind the last one.
fn end(cells: &[Option<Held>]) -> usize
    ensures { result ≡ length cells.now }
{
    cells.len()
}

/// The row in a cell, if there is one.
fn row_at(cells: &[Option<Held>], at: usize) -> Option<Held>
    ensures { result ≡ cell cells.now at }
{
    match cells.get(at) {
        Some(Some(held)) => Some(held.same()),
        _ => None,
    }
}

/// Takes a cell out. The last one takes its place.
fn swap_out(cells: &mut Vec<Option<Held>>, at: usize)
    requires { at < length cells.old.items }
    ensures dropped { DropsCell cells.old.items cells.new.items at }
    ensures swapped { (last : Option Held) × (cells.new.items ≡ swap_remove cells.old.items at last) }
    ensures capacity { vec_capacity cells.new ≡ vec_capacity cells.old }
{
    let _ = cells.swap_remove(at);
}

/// Takes a row out of the stash.
fn take_out(cells: &mut Vec<Option<Held>>, index: &mut StashIndex, at: usize, held: &Held)
    requires within { at < length cells.old.items }
    requires held { cell cells.old.items at ≡ Some held.now }
    requires once { IsOnce cells.old.items }
    ensures dropped { DropsCell cells.old.items cells.new.items at }
    ensures swapped { (last : Option Held) × (cells.new.items ≡ swap_remove cells.old.items at last) }
    ensures index { (keyed : KeyedState) (n : ℕ) → 4 * n ≤ at
        → IsIndexed keyed n cells.old.items index.old
        → IsIndexed keyed n cells.new.items index.new }
    ensures capacity { vec_capacity cells.new ≡ vec_capacity cells.old }
    ensures room { index_room index.old ≤ index_room index.new }
{
    index.remove(held.id, &held.key);
    swap_out(cells, at);
    match row_at(cells, at) {
        Some(moved) => index.move_to(moved.id, &moved.key, at),
        None => {}
    }
}

impl<P: Placer + Drop, M: Mirror> Cuckoo<P, M> {
    /// Puts a row into an empty slot of one of its buckets.
    pub(crate) fn fill(&mut self, at: usize, tag: u8, held: Held)
        requires slot { at < 4 * self.old.buckets }
        requires empty { cell self.old.cells at ≡ None }
        requires bucket { IsBucketOf (P.placing self.old.placer) self.old.buckets
            (held_place held) (at / 4) }
        requires tag { tag ≡ (P.placing self.old.placer held.id held.key).tag }
        requires absent { map.get (rows_in self.old.cells) (held_place held) ≡ None }
        ensures cells { self.new.cells ≡ slice_set self.old.cells at (Some held) }
        ensures rows { AddsRow held self.old self.new }
        ensures room { self.new.room ≡ self.old.room }
        ensures follows { Follows M.images self.old self.new }
        ensures covers { CoversImage (image self.old) (image self.new) }
    {
        self.cells[at] = Some(held.same());
        let writes = [(at as u32, Some(held))];
        self.tags[at] = tag;
        self.held += 1;
        let stash = stash_count(&self.tags, &self.cells);
        self.mirror.commit(&writes, stash);
    }

    /// Puts a row at the end of the stash.
    pub(crate) fn stow(&mut self, held: Held)
        requires room { 0 < self.old.room }
        requires absent { map.get (rows_in self.old.cells) (held_place held) ≡ None }
        ensures cells { self.new.cells ≡ self.old.cells ++ Some held ∷ [] }
        ensures rows { AddsRow held self.old self.new }
        ensures room { self.old.room ≤ self.new.room + 1 }
        ensures follows { Follows M.images self.old self.new }
        ensures covers { CoversImage (image self.old) (image self.new) }
    {
        let at = end(&self.cells);
        self.index.add(held.id, &held.key, at);
        self.cells.push_reserved(Some(held));
        self.held += 1;
        let stash = stash_count(&self.tags, &self.cells);
        self.mirror.commit(&[], stash);
    }

    /// Moves a row to an empty slot of its other bucket.
    pub(crate) fn shift(&mut self, from: usize, to: usize, tag: u8, held: Held)
        requires from { from < 4 * self.old.buckets }
        requires to { to < 4 * self.old.buckets }
        requires held { cell self.old.cells from ≡ Some held }
        requires empty { cell self.old.cells to ≡ None }
        requires bucket { IsBucketOf (P.placing self.old.placer) self.old.buckets
            (held_place held) (to / 4) }
        requires tag { tag ≡ (P.placing self.old.placer held.id held.key).tag }
        ensures cells { self.new.cells ≡ slice_set (slice_set self.old.cells from None) to (Some held) }
        ensures rows { rows_in self.new.cells ≡ rows_in self.old.cells }
        ensures room { self.new.room ≡ self.old.room }
        ensures follows { Follows M.images self.old self.new }
        ensures covers { CoversImage (image self.old) (image self.new) }
    {
        self.cells[from] = None;
        self.tags[from] = 0;
        self.cells[to] = Some(held.same());
        let writes = [(from as u32, None), (to as u32, Some(held))];
        self.tags[to] = tag;
        let stash = stash_count(&self.tags, &self.cells);
        self.mirror.commit(&writes, stash);
    }

    /// Empties a slot.
    pub(crate) fn clear(&mut self, at: usize, held: Held)
        requires slot { at < 4 * self.old.buckets }
        requires held { cell self.old.cells at ≡ Some held }
        ensures rows { rows_in self.new.cells ≡ map.remove (rows_in self.old.cells) (held_place held) }
        ensures room { self.new.room ≡ self.old.room }
        ensures touches { TouchesPlace M.images self.old self.new (held_place held) None }
    {
        self.cells[at] = None;
        self.tags[at] = 0;
        self.held -= 1;
        let stash = stash_count(&self.tags, &self.cells);
        self.mirror.commit(&[(at as u32, None)], stash);
    }

    /// Takes a row out of the stash. The last one takes its place.
    pub(crate) fn pull(&mut self, at: usize, held: Held)
        requires stash { 4 * self.old.buckets ≤ at }
        requires held { cell self.old.cells at ≡ Some held }
        ensures rows { rows_in self.new.cells ≡ map.remove (rows_in self.old.cells) (held_place held) }
        ensures room { self.old.room ≤ self.new.room }
        ensures touches { TouchesPlace M.images self.old self.new (held_place held) None }
    {
        take_out(&mut self.cells, &mut self.index, at, &held);
        self.held -= 1;
        let stash = stash_count(&self.tags, &self.cells);
        self.mirror.commit(&[], stash);
    }

    /// Changes the expiry of a row in a slot.
    pub(crate) fn renew(&mut self, at: usize, held: Held, expiry: Expiry)
        requires slot { at < 4 * self.old.buckets }
        requires held { cell self.old.cells at ≡ Some held }
        ensures rows { RenewsRow held expiry self.old self.new }
        ensures room { self.new.room ≡ self.old.room }
        ensures touches { TouchesPlace M.images self.old self.new (held_place held)
            (Some (held_place held, expiry)) }
    {
        let renewed = Held {
            id: held.id,
            key: held.key,
            row: held.row,
            expiry,
        };
        self.cells[at] = Some(renewed.same());
        let writes = [(at as u32, Some(renewed))];
        let stash = stash_count(&self.tags, &self.cells);
        self.mirror.commit(&writes, stash);
    }

    /// Changes the expiry of a row in the stash, of which no image tells.
    pub(crate) fn renew_stashed(&mut self, at: usize, held: Held, expiry: Expiry)
        requires stash { 4 * self.old.buckets ≤ at }
        requires held { cell self.old.cells at ≡ Some held }
        ensures rows { RenewsRow held expiry self.old self.new }
        ensures room { self.new.room ≡ self.old.room }
        ensures touches { TouchesPlace M.images self.old self.new (held_place held)
            (Some (held_place held, expiry)) }
    {
        self.cells[at] = Some(Held {
            id: held.id,
            key: held.key,
            row: held.row,
            expiry,
        });
    }
}
