//! The name of an index, and words that have none yet.
ghost use Rattle.std.specs.Prelude.{◌≡◌, ◌%◌, IfOk};
ghost use Rattle.jc_place.specs.Place.{IsTableSize};
ghost use Rattle.jc_index.specs.StripeLayout.{versions_at};
ghost use Rattle.jc_index.specs.Indexes.{IsBlankIndex};

use crate::fill::blank;
use crate::lineage::Lineage;
use crate::placed::Placed;
use crate::words::Words;
use jc_model::OutOfMemory;
use jc_place::place::Placer;
use std::alloc::Global;
use std::marker::{Brand, Model, PhantomData};

/// Which index it is: its words and its passes carry the name, so that a pass meets its own words alone. Each call of a
/// program picks it.
pub trait Naming {
    ghost use Rattle.atomic_table.specs.Seated.{TableId};

    ghost name: { TableId };
}

impl Naming for Brand {
    ghost use Rattle.std.specs.Prelude.{[]};

    ghost name = { record { words = 0; slots = 0; views_name = 0; atom = 0; block = 0; offset = 0; slot_names = [] } };
}

/// Words with one empty image, which have no name yet.
#[derive(Drop)]
pub struct Unnamed<P: Placer + Drop> {
    lineage: Lineage<Placed<P>>,
    placer: P,
    buckets: u32,
}

impl<P: Placer + Drop> Model for Unnamed<P> {
    ghost use Rattle.jc_index.specs.Indexes.{Index, IsIndex, index_of};

    ghost Value = { Index P };

    ghost view = { λ w. index_of w.placer w.buckets w.lineage };

    ghost invariant = { λ w. IsIndex w.placer w.buckets 0 w.lineage };
}

impl<P: Placer + Drop> Unnamed<P> {
    /// One empty image of so many buckets. All versions begin at 0.
    pub fn new(alloc: Global, placer: P, buckets: u32) -> Result<Unnamed<P>, OutOfMemory>
        requires { IsTableSize buckets }
        ensures words { IfOk result (λ w. IsBlankIndex placer buckets w) }
        ensures versions { IfOk result (λ w. w.versions ≡ versions_at 0) }
    {
        Unnamed::starting_at(alloc, placer, buckets, 0)
    }

    /// The same, but all versions of the first table begin at this even number; those of tables that follow begin at 0.
    /// It is there for tests: near 2^64 a few commits exhaust a version, and from 0 no test could.
    pub fn starting_at(
        alloc: Global,
        placer: P,
        buckets: u32,
        start: u64,
    ) -> Result<Unnamed<P>, OutOfMemory>
        requires size { IsTableSize buckets }
        requires even { start % 2 ≡ 0 }
        ensures words { IfOk result (λ w. IsBlankIndex placer buckets w) }
        ensures versions { IfOk result (λ w. w.versions ≡ versions_at start) }
    {
        let words = blank(alloc.clone()?, buckets, start)?;
        let law = Placed { placer, buckets };
        let lineage = Lineage::starting_at(alloc, &law, &words, start)?;
        Ok(Unnamed {
            lineage,
            placer,
            buckets,
        })
    }

    /// The words under their name.
    pub fn named<N: Naming>(self) -> Words<N, P>
        requires { self.name ≡ N.name }
        ensures { result ≡ self }
    {
        Words {
            lineage: self.lineage,
            placer: self.placer,
            buckets: self.buckets,
            count: 0,
            name: PhantomData,
        }
    }
}
