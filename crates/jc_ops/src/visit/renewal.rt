//! Uses of a row that is there: access and update.
ghost use Rattle.std.specs.Prelude.{◌≡◌, ◌≤◌, ℕ, List, true, Some, option_map};
ghost use Rattle.std.specs.FinMap as map;
ghost use Rattle.jc_model.specs.State.{Item};
ghost use Rattle.jc_model.specs.Changes.{access, update};
ghost use Rattle.jc_rows.specs.Rows.{with_expiry};
ghost use Rattle.jc_ops.specs.Shelf.{has_row};
ghost use Rattle.jc_ops.specs.Noted.{IsTold};
ghost use Rattle.jc_ops.specs.Kept.{IsRow};
ghost use Rattle.jc_ops.specs.Visited.{SpendsAtMost, HasPlacesIn, progress_in};

use super::Visit;
use crate::notices::Happening;
use crate::slots::Record;
use crate::state::CacheState;
use crate::stored::Stored;
use jc_expiry::expiry::{after_access, after_update};
use jc_model::call::Kind;
use jc_model::config::Expiry;
use jc_model::event::CacheId;
use jc_ring::ring::Ring;
use jc_rows::rows::Rows;

/// Gives the table's row of what is held the expiry `to`; nothing is written where it has it already.
#[tactic(auto, using(crate::proofs::Changes::same_expiry))]
fn renew<R: Rows>(rows: &mut R, id: CacheId, held: &Record, to: Expiry)
    requires { option_map (λ row. row.1) (map.get (R.contents rows.old) (id, held.now.key))
        ≡ Some held.now.expiry }
    ensures set { R.contents rows.new ≡ with_expiry (R.contents rows.old) (id, held.now.key) to }
    ensures room { R.spare rows.old ≤ R.spare rows.new }
{
    if held.expiry != to {
        rows.set_expiry(id, &held.key, to);
    }
}

impl<R: Rows, G: Ring> Visit<R, G> {
    /// Uses a row: its bit is set, and its expiry renewed as the policy says.
    #[tactic(auto, using(crate::proofs::Changes::change_laws))]
    pub fn access(&mut self, row: u32)
        requires there { has_row row self.old.cache.cells ≡ true }
        ensures spends { SpendsAtMost 0 0 self.old self.new }
        ensures progress { (key : List ℕ) (x : Item) → IsRow key self.old.cache row x →
            progress_in self.new
            ≡ access self.old.cache.config self.old.moment x (progress_in self.old) }
        ensures noted { self.new.noted ≡ self.old.noted }
    {
        let cache: &mut CacheState<G> = &mut self.cache;
        let held = cache.record(row);
        let expiry = after_access(cache.config().policy, held.expiry, self.moment);
        renew(&mut self.rows, cache.id(), held, expiry);
        cache.renew(row, expiry);
    }

    /// Gives a row another value: its bit is set, its expiry renewed as the policy says, and the change is told where
    /// the cache has listeners.
    #[tactic(auto, using(crate::proofs::Changes::change_laws))]
    pub fn update(&mut self, row: u32, stored: Stored)
        requires there { has_row row self.old.cache.cells ≡ true }
        requires places { HasPlacesIn 1 self.old }
        requires told { IsTold self.old.cache.config stored }
        ensures spends { SpendsAtMost 0 1 self.old self.new }
        ensures progress { (key : List ℕ) (x : Item) → IsRow key self.old.cache row x →
            progress_in self.new
            ≡ update self.old.cache.config self.old.moment x stored.value (progress_in self.old) }
    {
        let Stored { value, told } = stored;
        let cache: &mut CacheState<G> = &mut self.cache;
        let held = cache.record(row);
        let key = held.key;
        let expiry = after_update(cache.config().policy, held.expiry, self.moment);
        let before = cache.store(row, Record { key, value, expiry });
        renew(&mut self.rows, cache.id(), &before, expiry);
        let happening = Happening {
            kind: Kind::Updated,
            key,
            value: told,
            before: Some(before.value),
        };
        self.notices.note_for(self.cache.config(), happening);
    }
}
