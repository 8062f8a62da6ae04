//! Loaders: where a cache with read-through finds a missing key's value.

use jc_model::OutOfMemory;
use jc_model::key::Key;
use jc_model::value::Value;
use std::alloc::Global;

/// What a loader answers for a key: a value, nothing, or that it failed.
#[derive(Drop)]
pub enum Loaded {
    /// The key's value, or nothing where it has none.
    Found(Option<Value>),
    /// It failed: the call that asked for the key ends with that fault.
    Failed,
}

/// Loads a key's value from outside the cache (JSR 107, `CacheLoader`). Sessions share it, so it is asked by `&self`.
///
/// Where memory suffices it answers by a function of the key.
pub trait Loader: Drop + Send + Sync {
    ghost use Rattle.std.specs.Prelude.{◌≡◌, ℕ, List, IfOk};
    ghost use Rattle.jc_hooks.specs.declared.loader.Loaded.{Loaded};

    ghost load_of: { Self → List ℕ → Loaded };

    /// The answer for a key, or that there was no memory for it.
    fn load(&self, alloc: Global, key: &Key) -> Result<Loaded, OutOfMemory>
        ensures stated { IfOk result (λ l. l ≡ load_of self.now key.now) };
}

impl Loader for Box<dyn Loader> {
    ghost load_of = { λ b. (Loader-box b).load_of b.value };

    fn load(&self, alloc: Global, key: &Key) -> Result<Loaded, OutOfMemory> {
        (**self).load(alloc, key)
    }
}
