//! The cell in which a key's row stands.
ghost use Rattle.std.specs.Prelude.{◌≡◌, ◌+◌, ◌-◌, ◌<◌, None, Some, MatchOption, length};
ghost use Rattle.std.specs.FinMap as map;
ghost use Rattle.jc_cuckoo.specs.Cells.{rows_in, IsSought, RowAt};
ghost use Rattle.jc_cuckoo.specs.Table.{IsSoughtInStash};

use crate::cuckoo::Cuckoo;
use crate::held::Held;
use crate::mirror::Mirror;
use crate::scan::{is_at, scan_bucket};
use jc_model::event::CacheId;
use jc_model::key::Key;
use jc_place::place::{Placer, alternate, rest};

impl<P: Placer + Drop, M: Mirror> Cuckoo<P, M> {
    /// The cell in which a key's row stands.
    #[tactic(auto, using(jc_place::proofs::Other::counts))]
    pub(crate) fn seek(&self, id: CacheId, key: &Key) -> Option<usize>
        ensures { IsSought self.now.cells 0 (length self.now.cells) (id, key.now) result }
    {
        let place = self.placer.place(id, key);
        let first = rest(place.first, self.buckets);
        if let Some(at) = scan_bucket(&self.tags, &self.cells, first, place.tag, id, key) {
            return Some(at);
        }
        let second = alternate(first, place.tag, self.buckets);
        if let Some(at) = scan_bucket(&self.tags, &self.cells, second, place.tag, id, key) {
            return Some(at);
        }
        self.seek_stashed(id, key)
    }

    /// The cell of the stash in which a key's row stands.
    fn seek_stashed(&self, id: CacheId, key: &Key) -> Option<usize>
        ensures { IsSoughtInStash self.now (id, key.now) result }
    {
        if self.cells.len() == self.tags.len() {
            return None;
        }
        let at = self.index.find(id, key)?;
        if at < self.tags.len() {
            return None;
        }
        match self.cells.get(at) {
            Some(Some(held)) if is_at(held, id, key) => Some(at),
            _ => None,
        }
    }

    /// A key's row, and the cell in which it stands.
    pub(crate) fn seek_row(&self, id: CacheId, key: &Key) -> Option<(usize, &Held)>
        ensures { MatchOption result (map.get (rows_in self.now.cells) (id, key.now) ≡ None)
            (λ found. RowAt self.now.cells (id, key.now) (found.0, found.1.now)) }
    {
        match self.seek(id, key) {
            Some(at) => match &self.cells[at] {
                Some(held) => Some((at, held)),
                None => None,
            },
            None => None,
        }
    }
}
