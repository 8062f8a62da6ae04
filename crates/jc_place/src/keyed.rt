//! A hash under a placer's secret, for an index of keys beside the buckets.

ghost use Rattle.std.specs.Prelude.{◌≡◌};
ghost use Rattle.jc_place.specs.Keyed.{keyed_by};

use std::hash::{BuildHasher, DefaultHasher, Hasher};

/// Makes hashers of SipHash-1-3 that have read 128 bits: where these are secret, nobody can choose keys that such a hash
/// brings together.
#[derive(Clone, Copy)]
pub struct KeyedState {
    initial: DefaultHasher,
}

impl KeyedState {
    /// Makes hashers that have read these two numbers.
    pub fn new(first: u64, second: u64) -> KeyedState
        ensures { result ≡ keyed_by first second }
    {
        let mut initial = DefaultHasher::new();
        initial.write(&first.to_le_bytes());
        initial.write(&second.to_le_bytes());
        KeyedState { initial }
    }
}

impl BuildHasher for KeyedState {
    type Hasher = DefaultHasher;

    ghost build_hasher = { λ state. state.initial };

    fn build_hasher(&self) -> DefaultHasher {
        self.initial
    }
}
