//! The table that all caches of a manager share, and the index that shows it to lookups.
ghost use Rattle.std.specs.Prelude.{◌≡◌, None, IfOk, replicate};
ghost use Rattle.std.specs.FinMap as finite;
ghost use Rattle.jc_cuckoo.specs.Cells.{rows_in};

use crate::name::{IndexOf, Name};
use jc_cuckoo::cuckoo::{Cuckoo, TableRefusal};
use jc_cuckoo::mirror::NoMirror;
use jc_index::naming::Unnamed;
use jc_index::pass::Pass;
use jc_index::words::Words;
use jc_model::OutOfMemory;
use jc_place::seeded::SeededPlacer;
use std::alloc::{AllocError, Global};
use std::marker::Model;

/// Buckets under a seeded hash, without images.
pub type Table = Cuckoo<SeededPlacer, NoMirror>;

/// The same, which tells its images to an index.
pub type ShownTable<N> = Cuckoo<SeededPlacer, Words<IndexOf<N>, SeededPlacer>>;

/// What a session has seen of that index.
pub type TablePass<N> = Pass<IndexOf<N>, SeededPlacer>;

/// How many buckets a table has at first.
const BUCKETS: u32 = 16;

/// A table without rows. The seed picks the places of its rows.
pub fn table(alloc: Global, seed: u64) -> Result<Table, OutOfMemory>
    ensures empty { IfOk result (λ table. rows_in table.cells ≡ finite.empty) }
    ensures slots { IfOk result (λ table.
        (table.cells ≡ replicate 64 None) × (table.buckets ≡ 16)) }
    ensures placer { IfOk result (λ table. table.placer ≡ seed) }
{
    match Cuckoo::new(alloc, SeededPlacer::new(seed), NoMirror, BUCKETS) {
        Ok(table) => Ok(table),
        Err(TableRefusal::OutOfMemory) => Err(AllocError),
        Err(TableRefusal::BadBuckets) => unreachable!(),
    }
}

/// A table without rows, and an index that shows it. Contracts see the index's name, and the seed.
#[derive(Drop)]
pub struct BlankTable {
    table: Table,
    words: Unnamed<SeededPlacer>,
}

impl Model for BlankTable {
    ghost use Rattle.jc_locked.specs.Opening.{Blank, IsBlank};

    ghost Value = { Blank };

    ghost view = { λ b. record { index = b.words.name; seed = b.table.placer } };

    ghost invariant = { λ b. IsBlank b.table.placer b.table.buckets b.table.cells b.words };
}

impl BlankTable {
    /// The seed picks the places of the rows.
    pub fn new(alloc: Global, seed: u64) -> Result<BlankTable, OutOfMemory>
        ensures { IfOk result (λ b. b.seed ≡ seed) }
    {
        let table = table(alloc, seed)?;
        let words = Unnamed::new(alloc, SeededPlacer::new(seed), BUCKETS)?;
        Ok(BlankTable { table, words })
    }

    /// The table, whose index has a name now.
    pub fn named<N: Name>(self) -> ShownTable<N>
        requires { self.index ≡ N.index }
        ensures empty { rows_in result.cells ≡ finite.empty }
        ensures seed { result.placer ≡ self.seed }
    {
        self.table.with_mirror(self.words.named::<IndexOf<N>>())
    }
}
