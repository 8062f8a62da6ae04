//! Places by a hash under a secret, for keys that strangers may choose.
ghost use Rattle.std.specs.Prelude.{◌≡◌};

use crate::keyed::KeyedState;
use crate::place::{Place, Placer, place_of};
use jc_model::event::CacheId;
use jc_model::key::Key;
use std::hash::{BuildHasher, Hasher};
use std::marker::Model;

/// Places by a keyed hash, over the cache's id and the key. With std's `RandomState` that is the hash of a `HashMap`,
/// SipHash-1-3 under a secret of 128 bits: who does not know the secret can't choose keys that share their buckets, and
/// two secrets place alike only by chance.
#[derive(Clone, Copy)]
pub struct SecretPlacer<S> {
    secret: S,
}

impl<S> Model for SecretPlacer<S> {
    ghost Value = { S };

    ghost view = { λ placer. placer.secret };

    ghost inverse = { λ secret. record { secret = secret } };
}

impl<S> SecretPlacer<S> {
    /// The placer of this secret.
    pub fn new(secret: S) -> SecretPlacer<S>
        ensures { result ≡ secret }
    {
        SecretPlacer { secret }
    }
}

impl<S: BuildHasher + Copy> Placer for SecretPlacer<S> {
    ghost use Rattle.std.specs.Int.{to_le_bytes, w32};
    ghost use Rattle.jc_place.specs.Keyed.{keyed_by, index_word, stash_word};
    ghost use Rattle.jc_place.specs.Place.{place_of_hash};

    ghost placing = { λ secret id key. place_of_hash (S.Hasher.finish (S.Hasher.write (S.Hasher.write (S.build_hasher secret) (to_le_bytes w32 id)) key)) };

    ghost keying = { λ secret.
        let read = S.Hasher.write (S.build_hasher secret) index_word in
        keyed_by (S.Hasher.finish read) (S.Hasher.finish (S.Hasher.write read stash_word)) };

    fn place(&self, id: CacheId, key: &Key) -> Place {
        let mut hasher = self.secret.build_hasher();
        hasher.write(&id.number().to_le_bytes());
        hasher.write(key.text().as_bytes());
        place_of(hasher.finish())
    }

    fn keyed(&self) -> KeyedState {
        let mut hasher = self.secret.build_hasher();
        hasher.write(b"index");
        let first = hasher.finish();
        hasher.write(b"stash");
        KeyedState::new(first, hasher.finish())
    }
}
