//! The table.
ghost use Rattle.std.specs.Prelude.{◌≡◌, ◌+◌, ◌-◌, ◌*◌, ◌<◌, ◌≤◌, None, true, false, IfOk, IfErr, ◌↔◌, min, replicate};
ghost use Rattle.std.specs.Vec.{vec_capacity};
ghost use Rattle.std.specs.FinMap as map;
ghost use Rattle.jc_place.specs.Place.{IsTableSize};
ghost use Rattle.jc_cuckoo.specs.declared.cuckoo.TableRefusal.TheVariants.{BadBuckets};
ghost use Rattle.jc_cuckoo.specs.Cells.{rows_in};
ghost use Rattle.jc_rows.specs.Images.{Shows};
ghost use Rattle.jc_cuckoo.specs.Images.{blank_image};
ghost use Rattle.jc_cuckoo.specs.Table.{longest, no_work, HasParts, IsMirrorOf, image};

use crate::held::{Held, Work};
use crate::index::StashIndex;
use crate::mirror::Mirror;
use jc_model::OutOfMemory;
use jc_place::place::Placer;
use jc_rows::rows::Rows;
use std::alloc::Global;
use std::marker::Model;

/// Rows in buckets of four slots, each in one of its two buckets or in the stash.
#[derive(Drop)]
pub struct Cuckoo<P: Placer + Drop, M: Mirror> {
    pub(crate) placer: P,
    pub(crate) mirror: M,
    pub(crate) buckets: u32,
    /// Of each slot that holds a row the key's tag, else 0.
    pub(crate) tags: Vec<u8>,
    /// The slots, four to a bucket, and after them the stash.
    pub(crate) cells: Vec<Option<Held>>,
    /// Where each row of the stash stands.
    pub(crate) index: StashIndex,
    pub(crate) held: usize,
    pub(crate) work: Work,
}

impl<P: Placer + Drop, M: Mirror> Model for Cuckoo<P, M> {
    ghost use Rattle.std.specs.Prelude.{◌-◌, min};
    ghost use Rattle.std.specs.Vec.{vec_capacity, vec_len};
    ghost use Rattle.jc_cuckoo.specs.Index.{IsIndexed, index_room};
    ghost use Rattle.jc_cuckoo.specs.Table.{Table, IsTable, longest};

    ghost Value = { Table P M };

    ghost view = { λ t. record {
      placer = t.placer;
      mirror = t.mirror;
      buckets = t.buckets;
      cells = t.cells.items;
      room = min (min (vec_capacity t.cells) longest - vec_len t.cells) (index_room t.index);
      work = t.work;
    } };

    ghost invariant = { λ t. IsTable (P.placing t.placer) (M.placing t.mirror) (M.images t.mirror)
        t.buckets t.tags.items t.cells.items t.held
        × IsIndexed (P.keying t.placer) t.buckets t.cells.items t.index };
}

/// The most buckets of a table.
pub const MOST_BUCKETS: u32 = 65_536;

/// Why there is no table.
#[derive(Clone, Copy, Debug, PartialEq, Eq)]
pub enum TableRefusal {
    /// The number of buckets is no power of two from 2 to 65,536.
    BadBuckets,
    OutOfMemory,
}

/// Whether a table can have so many buckets.
fn is_size(buckets: u32) -> bool
    ensures size { result ≡ true → IsTableSize buckets }
    ensures none { result ≡ false → IsTableSize buckets → ⊥ }
{
    if buckets < 2 {
        return false;
    }
    if buckets > MOST_BUCKETS {
        return false;
    }
    buckets.is_power_of_two()
}

/// So many empty slots, in memory for so many cells.
fn empty_cells(
    alloc: Global,
    slots: usize,
    capacity: usize,
) -> Result<Vec<Option<Held>>, OutOfMemory>
    requires { slots ≤ capacity }
    ensures cells { IfOk result (λ cells. cells.items ≡ replicate slots None) }
    ensures capacity { IfOk result (λ cells. vec_capacity cells ≡ capacity) }
{
    let mut cells = Vec::with_capacity(alloc, capacity)?;
    let mut at = 0;
    'cells: while at < slots {
        cells.push_reserved(None);
        at += 1;
    }
    Ok(cells)
}

impl<P: Placer + Drop, M: Mirror> Cuckoo<P, M> {
    /// A table without rows, with a power of two buckets, from 2 to 65,536.
    pub fn new(
        alloc: Global,
        placer: P,
        mirror: M,
        buckets: u32,
    ) -> Result<Cuckoo<P, M>, TableRefusal>
        requires mirror { IsMirrorOf (M.images mirror) (M.placing mirror)
            (P.placing placer) (blank_image buckets) }
        ensures empty { IfOk result (λ table. rows_in table.cells ≡ map.empty) }
        ensures slots { IfOk result (λ table. table.cells ≡ replicate (4 * buckets) None) }
        ensures parts { IfOk result (λ table. HasParts placer mirror buckets table) }
        ensures work { IfOk result (λ table. table.work ≡ no_work) }
        ensures size { IfOk result (λ table. IsTableSize buckets) }
        ensures refused { IfErr result (λ refusal. refusal ≡ BadBuckets ↔ (IsTableSize buckets → ⊥)) }
    {
        if !is_size(buckets) {
            return Err(TableRefusal::BadBuckets);
        }
        match Cuckoo::with_room(alloc, placer, mirror, buckets, 0) {
            Ok(table) => Ok(table),
            Err(_) => Err(TableRefusal::OutOfMemory),
        }
    }

    /// A table without rows, in memory for so many in the stash.
    pub(crate) fn with_room(
        alloc: Global,
        placer: P,
        mirror: M,
        buckets: u32,
        stash: usize,
    ) -> Result<Cuckoo<P, M>, OutOfMemory>
        requires size { IsTableSize buckets }
        requires mirror { IsMirrorOf (M.images mirror) (M.placing mirror)
            (P.placing placer) (blank_image buckets) }
        requires stash { 4 * buckets + stash ≤ longest }
        ensures empty { IfOk result (λ table. table.cells ≡ replicate (4 * buckets) None) }
        ensures parts { IfOk result (λ table. HasParts placer mirror buckets table) }
        ensures room { IfOk result (λ table. stash ≤ table.room) }
        ensures work { IfOk result (λ table. table.work ≡ no_work) }
    {
        let slots = 4 * buckets as usize;
        let tags = vec![in alloc; 0; slots]?;
        let cells = empty_cells(alloc, slots, slots + stash)?;
        let index = StashIndex::new(alloc, placer.keyed(), stash)?;
        Ok(Cuckoo {
            placer,
            mirror,
            buckets,
            tags,
            cells,
            index,
            held: 0,
            work: Work {
                searches: 0,
                looked: 0,
                moves: 0,
            },
        })
    }

    /// The same table, which tells another mirror from now on.
    pub fn with_mirror<N: Mirror>(self, mirror: N) -> Cuckoo<P, N>
        requires mirror { IsMirrorOf (N.images mirror) (N.placing mirror)
            (P.placing self.placer) (image self) }
        ensures rows { (result.cells ≡ self.cells) × (result.room ≡ self.room) }
        ensures parts { HasParts self.placer mirror self.buckets result }
        ensures work { result.work ≡ self.work }
    {
        Cuckoo {
            placer: self.placer,
            mirror,
            buckets: self.buckets,
            tags: self.tags,
            cells: self.cells,
            index: self.index,
            held: self.held,
            work: self.work,
        }
    }

    /// How many slots it has.
    pub(crate) fn slots(&self) -> usize
        ensures slots { result ≡ 4 * self.now.buckets }
        ensures shows { Shows (rows_in self.now.cells) (image self.now) }
    {
        4 * self.buckets as usize
    }
}
