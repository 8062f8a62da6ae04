//! The index as its writer has it.
ghost use Rattle.std.specs.Prelude.{◌≡◌, ◌*◌, ◌≤◌, Some, IfOk, OnErr, OnOk, length};
ghost use Rattle.jc_index.specs.StripeLayout.{versions_at};
ghost use Rattle.jc_cuckoo.specs.Mirrors.{AddsGrownImage, AddsWrittenImage, SlotsMakeGrowth, WritesFitLast, WritesMakeImage};
ghost use Rattle.jc_index.specs.Indexes.{CommitsIndexVersions, HasMetIndex};

use crate::change::Change;
use crate::fill::fill_words;
use crate::lineage::Lineage;
use crate::naming::Naming;
use crate::pass::Pass;
use crate::placed::Placed;
use jc_cuckoo::held::Held;
use jc_cuckoo::mirror::{Mirror, Watch};
use jc_model::OutOfMemory;
use jc_place::place::Placer;
use std::marker::{Model, PhantomData};

/// Images of the table in shared words. Those of the newest table are the last image.
#[derive(Drop)]
pub struct Words<N: Naming, P: Placer + Drop> {
    pub(crate) lineage: Lineage<Placed<P>>,
    pub(crate) placer: P,
    pub(crate) buckets: u32,
    pub(crate) count: u32,
    pub(crate) name: PhantomData<N>,
}

impl<N: Naming, P: Placer + Drop> Model for Words<N, P> {
    ghost use Rattle.std.specs.Prelude.{◌≡◌};
    ghost use Rattle.jc_index.specs.Indexes.{Index, IsIndex, index_of};

    ghost Value = { Index P };

    ghost view = { λ w. index_of w.placer w.buckets w.lineage };

    ghost invariant = { λ w. IsIndex w.placer w.buckets w.count w.lineage
        × (w.lineage.keeper.seat.table_id ≡ N.name) };
}

impl<N: Naming, P: Placer + Drop> Words<N, P> {
    /// A pass that has seen all images, and made no lookup.
    pub fn pass(&mut self) -> Result<Pass<N, P>, OutOfMemory>
        ensures same { self.new ≡ self.old }
        ensures pass { IfOk result (λ p. HasMetIndex self.old p) }
        ensures counted { IfOk result (λ p. p.lookups ≡ 0) }
    {
        let member = self.lineage.member()?;
        Ok(Pass {
            member,
            placer: self.placer,
            buckets: self.buckets,
            met: true,
            name: PhantomData,
        })
    }
}

impl<N: Naming, P: Placer + Drop> Mirror for Words<N, P> {
    ghost use Rattle.std.specs.Prelude.{Some};

    ghost images = { λ w. Some w.images };

    ghost placing = { λ w. P.placing w.placer };

    /// Only the versions of the buckets that are written are taken, and that of the stash where its count changes or no
    /// slot is written.
    fn commit(&mut self, writes: &[(u32, Option<Held>)], stash: u32)
        requires few { length writes.now ≤ 2 }
        requires inside { WritesFitLast writes.now (Some self.old.images) }
        requires image { WritesMakeImage (P.placing self.old.placer) writes.now stash
            (Some self.old.images) }
        ensures images { AddsWrittenImage writes.now stash (Some self.old.images) (Some self.new.images) }
        ensures placing { P.placing self.new.placer ≡ P.placing self.old.placer }
        ensures versions { CommitsIndexVersions writes.now stash self.old self.new }
        ensures same { (self.new.placer ≡ self.old.placer) × (self.new.buckets ≡ self.old.buckets) }
    {
        let change = Change::of(writes, self.count, stash);
        self.lineage.commit(change.stripes(), change.writes());
        self.count = stash;
    }

    /// The image is the first of a new table, whose versions all begin at 0. The old table's readers are unsure from
    /// then on.
    fn grow(&mut self, slots: &[Option<Held>], stash: u32) -> Result<(), OutOfMemory>
        requires growth { SlotsMakeGrowth (P.placing self.old.placer) slots.now stash
            (Some self.old.images) }
        ensures images { OnOk result
            (AddsGrownImage slots.now stash (Some self.old.images) (Some self.new.images)) }
        ensures buckets { OnOk result (self.new.buckets ≡ 2 * self.old.buckets) }
        ensures versions { OnOk result (self.new.versions ≡ versions_at 0) }
        ensures refused { OnErr result (Some self.new.images ≡ Some self.old.images) }
        ensures kept { OnErr result (self.new ≡ self.old) }
        ensures placing { P.placing self.new.placer ≡ P.placing self.old.placer }
        ensures same { self.new.placer ≡ self.old.placer }
    {
        let alloc = *self.lineage.retired.allocator();
        let words = fill_words(alloc.clone()?, slots, stash)?;
        let law = Placed {
            placer: self.placer,
            buckets: 2 * self.buckets,
        };
        self.lineage.follow(alloc, &law, &words)?;
        self.buckets = 2 * self.buckets;
        self.count = stash;
        Ok(())
    }
}

impl<N: Naming, P: Placer + Drop> Watch for Words<N, P> {
    type Watcher = Pass<N, P>;

    ghost seen = { λ p. p.images };

    ghost met = { λ p. p.met };

    fn watch(&mut self) -> Result<Pass<N, P>, OutOfMemory> {
        self.pass()
    }

    fn meet(&mut self, pass: &mut Pass<N, P>) -> Result<(), OutOfMemory> {
        pass.meet(self)
    }
}
