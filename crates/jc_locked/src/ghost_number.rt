//! A number that exists in proofs alone.
ghost use Rattle.std.specs.Prelude.{◌≡◌, ◌+◌, ℕ};
ghost use Rattle.std.specs.Borrow.{ftrue};

use std::marker::Model;

/// A number that contracts see, and of which nothing is in memory.
#[derive(Drop)]
pub struct GhostNumber {
    pub ghost number: { ℕ },
}

impl Model for GhostNumber {
    ghost also_owns = { λ _. ftrue };
}

// It owns nothing.
unsafe impl Send for GhostNumber {}

unsafe impl Sync for GhostNumber {}

impl GhostNumber {
    pub(crate) fn zero() -> GhostNumber
        ensures { result.number ≡ 0 }
    {
        GhostNumber {}
    }

    /// One more.
    pub(crate) fn after(_before: &GhostNumber) -> GhostNumber
        ensures { result.number ≡ _before.now.number + 1 }
    {
        GhostNumber {}
    }
}
