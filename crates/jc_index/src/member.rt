//! A reader among tables that follow one another.
ghost use Rattle.std.specs.Prelude.{◌≡◌, Some, slice_get};
ghost use Rattle.jc_index.specs.Lineages.{tables};

use crate::board::{Law, StripesSeat};
use crate::keeper::Follower;
use crate::reader::Reader;

/// A reader at one of the tables, which is the one of its generation.
#[derive(Drop)]
pub struct Member<L: Law + Drop> {
    pub reader: Reader<L>,
    pub follower: Follower<StripesSeat<L>>,
    pub generation: usize,
    pub ghost listed: { slice_get (tables follower.seat.me.0.items) generation
        ≡ Some reader.seat.table_id },
}
