//! Places by a hash under a seed, which a user picks.
ghost use Rattle.std.specs.Prelude.{◌≡◌, fold};
ghost use Rattle.std.specs.Int.{to_le_bytes, w32};
ghost use Rattle.jc_place.specs.Seeded.{fnv_step, seeded_place};

use crate::keyed::KeyedState;
use crate::place::{Place, Placer, place_of};
use jc_model::event::CacheId;
use jc_model::key::Key;
use std::marker::Model;

const OFFSET: u64 = 0xcbf2_9ce4_8422_2325;

const PRIME: u64 = 0x100_0000_01b3;

/// `PRIME` to the fourth power, in 64 bits.
const PRIME_TO_THE_FOURTH: u64 = 0x9ffa_ac08_5635_bc91;

/// Places by FNV-1a of 64 bits, over the cache's id and the key, from a start that the seed changes. A seed is for runs
/// that are to be repeated, and no protection: keys chosen for one seed share their buckets under most others.
#[derive(Clone, Copy, Debug, PartialEq, Eq)]
pub struct SeededPlacer {
    seed: u64,
}

impl Model for SeededPlacer {
    ghost use Rattle.std.specs.Prelude.{ℕ};

    ghost Value = { ℕ };

    ghost view = { λ placer. placer.seed };

    ghost inverse = { λ n. record { seed = n } };
}

impl SeededPlacer {
    /// The placer of this seed: any number serves.
    pub fn new(seed: u64) -> SeededPlacer
        ensures { result ≡ seed }
    {
        SeededPlacer { seed }
    }
}

/// FNV-1a from this hash on, over further bytes.
fn walk(hash: u64, bytes: &[u8]) -> u64
    ensures { result ≡ fold fnv_step hash bytes.now }
{
    let mut walked = hash;
    for byte in bytes {
        walked = (walked ^ u64::from(*byte)).wrapping_mul(PRIME);
    }
    walked
}

/// The same over a number's four bytes, the low byte first. Ids are small as a rule, and zeros do no more than multiply.
fn walk_number(hash: u64, number: u32) -> u64
    ensures { result ≡ fold fnv_step hash (to_le_bytes w32 number) }
{
    if number < 256 {
        return (hash ^ u64::from(number)).wrapping_mul(PRIME_TO_THE_FOURTH);
    }
    walk(hash, &number.to_le_bytes())
}

impl Placer for SeededPlacer {
    ghost use Rattle.jc_place.specs.Keyed.{keyed_by};

    ghost placing = { seeded_place };

    ghost keying = { λ seed. keyed_by seed 0 };

    fn place(&self, id: CacheId, key: &Key) -> Place {
        let of_id = walk_number(OFFSET ^ self.seed, id.number());
        place_of(walk(of_id, key.text().as_bytes()))
    }

    fn keyed(&self) -> KeyedState {
        KeyedState::new(self.seed, 0)
    }
}
