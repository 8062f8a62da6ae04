//! What holds of the words whenever they are committed.
ghost use Rattle.std.specs.Prelude.{◌≡◌, ◌<◌};
ghost use Rattle.jc_place.specs.Place.{IsTableSize};
ghost use Rattle.jc_index.specs.Spelling.{buckets_of};

use crate::board::Law;
use jc_model::event::CacheId;
use jc_model::key::Key;
use jc_place::place::{Placer, alternate, rest};

/// The words spell an image of so many buckets, in which each key stands in one of the two that this placer gives it.
#[derive(Drop)]
pub struct Placed<P> {
    pub placer: P,
    pub buckets: u32,
}

impl<P: Placer> Law for Placed<P> {
    ghost use Rattle.jc_index.specs.Spelling.{IsLawful, group_of};

    ghost group = { group_of };

    ghost admits = { λ l. IsLawful (P.placing l.placer) l.buckets };
}

/// The two buckets of a key of a cache.
#[tactic(auto, using(jc_place::proofs::Other::counts))]
pub(crate) fn buckets_of<P: Placer>(
    placer: &P,
    buckets: u32,
    id: CacheId,
    key: &Key,
) -> (usize, usize)
    requires { IsTableSize buckets }
    ensures these { result ≡ buckets_of (P.placing placer.now) buckets (id, key.now) }
    ensures below { (result.0 < buckets) × (result.1 < buckets) }
{
    let place = placer.place(id, key);
    let first = rest(place.first, buckets);
    let second = alternate(first, place.tag, buckets);
    (first as usize, second as usize)
}
