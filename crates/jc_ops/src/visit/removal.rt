//! Rows that go: expired ones as they are met, and removed ones.
ghost use Rattle.std.specs.Prelude.{◌≡◌, ℕ, if◌then◌else◌, List, true, false, Some, None, is_some};
ghost use Rattle.jc_model.specs.State.{Item, live};
ghost use Rattle.jc_model.specs.Changes.{purge, delete};
ghost use Rattle.jc_ops.specs.declared.slots.Record.{Record};
ghost use Rattle.jc_ops.specs.Shelf.{seek, has_row, held_of};
ghost use Rattle.jc_ops.specs.Noted.{notice_of, told_after};
ghost use Rattle.jc_ops.specs.Kept.{IsRow, FoundRow};
ghost use Rattle.jc_ops.specs.Visited.{SpendsAtMost, IsWithout, HasPlacesIn, progress_in, has_live_in};

use super::Visit;
use crate::notices::Happening;
use crate::slots::Record;
use jc_model::call::Kind;
use jc_ring::ring::Ring;
use jc_rows::rows::Rows;

impl<R: Rows, G: Ring> Visit<R, G> {
    /// Takes a row out of the cache and the table.
    #[tactic(auto, using(crate::proofs::Changes::change_laws))]
    pub(super) fn take_row(&mut self, row: u32) -> Record
        requires { has_row row self.old.cache.cells ≡ true }
        ensures was { seek row self.old.cache.cells ≡ Some result }
        ensures spends { SpendsAtMost 0 0 self.old self.new }
        ensures gone { IsWithout row self.old self.new }
        ensures noted { self.new.noted ≡ self.old.noted }
    {
        let gone = self.cache.take(row);
        let _row = self.rows.remove(self.cache.id(), &gone.key);
        gone
    }

    /// Removes a row, with a notice of this kind.
    pub(super) fn remove_row(&mut self, row: u32, kind: Kind)
        requires there { has_row row self.old.cache.cells ≡ true }
        requires places { HasPlacesIn 1 self.old }
        ensures spends { SpendsAtMost 0 1 self.old self.new }
        ensures gone { IsWithout row self.old self.new }
        ensures told { let held : Record = held_of (seek row self.old.cache.cells) in
            self.new.noted.told ≡ told_after self.old.cache.config
            (notice_of kind held.key None (Some held.value)) self.old.noted.told }
    {
        let gone = self.take_row(row);
        let happening = Happening {
            kind,
            key: gone.key,
            value: None,
            before: Some(gone.value),
        };
        self.notices.note_for(self.cache.config(), happening);
    }

    /// Of a key's row, if it has one, the number where it is live. An expired row is removed here, with its notice; a
    /// live one tells nothing.
    pub fn purge(&mut self, row: Option<u32>) -> Option<u32>
        requires there { (r : ℕ) → row ≡ Some r → has_row r self.old.cache.cells ≡ true }
        requires places { (r : ℕ) (held : Record) → row ≡ Some r →
            seek r self.old.cache.cells ≡ Some held → live self.old.moment held.expiry ≡ false →
            HasPlacesIn 1 self.old }
        ensures spends { SpendsAtMost 0 (if is_some result then 0 else 1) self.old self.new }
        ensures live { (key : List ℕ) → FoundRow key self.old.cache row →
            is_some result ≡ has_live_in self.old key }
        ensures progress { (key : List ℕ) → FoundRow key self.old.cache row →
            progress_in self.new
            ≡ purge self.old.cache.config self.old.moment key (progress_in self.old) }
        ensures found { (key : List ℕ) → FoundRow key self.old.cache row →
            FoundRow key self.new.cache result }
    {
        let row = row?;
        if self.is_live(row) {
            return Some(row);
        }
        self.remove_row(row, Kind::Expired);
        None
    }

    /// Removes a row, with its notice.
    pub fn delete(&mut self, row: u32)
        requires there { has_row row self.old.cache.cells ≡ true }
        requires places { HasPlacesIn 1 self.old }
        ensures spends { SpendsAtMost 0 1 self.old self.new }
        ensures progress { (now : ℕ) (key : List ℕ) (x : Item) → IsRow key self.old.cache row x →
            progress_in self.new ≡ delete self.old.cache.config now x (progress_in self.old) }
    {
        self.remove_row(row, Kind::Removed);
    }
}
