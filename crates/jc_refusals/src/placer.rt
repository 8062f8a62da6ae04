//! Places in the table that the rows pick.

ghost use Rattle.std.specs.Prelude.{◌≡◌};
ghost use Rattle.jc_refusals.specs.Places.{is_capital};

use jc_model::event::CacheId;
use jc_model::key::Key;
use jc_place::keyed::KeyedState;
use jc_place::place::{Place, Placer};

/// Keys share the buckets 0 and 5 of 16, but for those that begin with a capital letter: these share the buckets 5 and
/// 14.
#[derive(Clone, Copy, Debug)]
pub struct ByCase;

/// Whether a key begins with a capital letter.
fn is_capital(key: &Key) -> bool
    ensures { result ≡ is_capital key.now }
{
    match key.text().as_bytes() {
        [first, ..] => *first >= b'A' && *first <= b'Z',
        [] => false,
    }
}

impl Placer for ByCase {
    ghost use Rattle.jc_place.specs.Keyed.{keyed_by};
    ghost use Rattle.jc_refusals.specs.Places.{place_by_case};

    ghost placing = { λ placer id key. place_by_case key };

    ghost keying = { λ placer. keyed_by 0 0 };

    fn place(&self, _id: CacheId, key: &Key) -> Place {
        if is_capital(key) {
            Place { first: 5, tag: 2 }
        } else {
            Place { first: 0, tag: 1 }
        }
    }

    fn keyed(&self) -> KeyedState {
        KeyedState::new(0, 0)
    }
}
