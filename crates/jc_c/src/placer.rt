//! Where the keys of a handle's manager have their rows: by a seed, or under a secret.
ghost use Rattle.std.specs.Prelude.{◌≡◌};
ghost use Rattle.jc_c.specs.Placing.{secret_placer};

use jc_model::event::CacheId;
use jc_model::key::Key;
use jc_place::keyed::KeyedState;
use jc_place::place::{Place, Placer};
use jc_place::secret::SecretPlacer;
use jc_place::seeded::SeededPlacer;

/// Places by a seed, for runs that are to be repeated; or by a hash under a secret of 128 bits, for
/// keys that strangers may choose.
#[derive(Clone, Copy)]
pub enum FfiPlacer {
    Seeded(SeededPlacer),
    Secret(SecretPlacer<KeyedState>),
}

impl FfiPlacer {
    /// The placer of a seed.
    pub fn seeded(seed: u64) -> FfiPlacer
        ensures { result ≡ FfiPlacer.Seeded seed }
    {
        FfiPlacer::Seeded(SeededPlacer::new(seed))
    }

    /// The placer of a secret.
    pub fn secret(secret: &[u8; 16]) -> FfiPlacer
        ensures { result ≡ secret_placer secret.now }
    {
        let s = secret;
        let first = u64::from_le_bytes([s[0], s[1], s[2], s[3], s[4], s[5], s[6], s[7]]);
        let second = u64::from_le_bytes([s[8], s[9], s[10], s[11], s[12], s[13], s[14], s[15]]);
        FfiPlacer::Secret(SecretPlacer::new(KeyedState::new(first, second)))
    }
}

impl Placer for FfiPlacer {
    ghost use Rattle.jc_c.specs.Placing.{keying_by, placing_by};

    ghost placing = { placing_by };

    ghost keying = { keying_by };

    fn place(&self, id: CacheId, key: &Key) -> Place {
        match self {
            FfiPlacer::Seeded(placer) => placer.place(id, key),
            FfiPlacer::Secret(placer) => placer.place(id, key),
        }
    }

    fn keyed(&self) -> KeyedState {
        match self {
            FfiPlacer::Seeded(placer) => placer.keyed(),
            FfiPlacer::Secret(placer) => placer.keyed(),
        }
    }
}
