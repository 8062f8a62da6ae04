//! Places that a test picks.

use jc_model::event::CacheId;
use jc_model::key::Key;
use jc_place::keyed::KeyedState;
use jc_place::place::{Place, Placer};

/// All keys have the buckets of 3 and the tag 1.
#[derive(Clone, Copy, Debug)]
pub struct ConstantPlacer;

impl Placer for ConstantPlacer {
    ghost use Rattle.jc_place.specs.Keyed.{keyed_by};

    ghost placing = { λ placer id key. record { first = 3; tag = 1 } };

    ghost keying = { λ placer. keyed_by 0 0 };

    fn place(&self, _id: CacheId, _key: &Key) -> Place {
        Place { first: 3, tag: 1 }
    }

    fn keyed(&self) -> KeyedState {
        KeyedState::new(0, 0)
    }
}

/// The place of a key stands in a list, at the number of the key's first byte.
#[derive(Clone, Copy, Debug)]
pub struct TablePlacer {
    pub firsts: [u32; 128],
    pub tags: [u8; 128],
}

impl Placer for TablePlacer {
    ghost use Rattle.jc_place.specs.Keyed.{keyed_by};
    ghost use Rattle.jc_trials.specs.Places.{listed_place};

    ghost placing = { λ placer id key. listed_place placer.firsts placer.tags key };

    ghost keying = { λ placer. keyed_by 0 0 };

    fn place(&self, _id: CacheId, key: &Key) -> Place {
        let at = (key.text().as_bytes()[0] % 128) as usize;
        Place {
            first: self.firsts[at],
            tag: self.tags[at].max(1),
        }
    }

    fn keyed(&self) -> KeyedState {
        KeyedState::new(0, 0)
    }
}
