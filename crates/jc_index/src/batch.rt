//! The words that a commit sets.
ghost use Rattle.std.specs.Prelude.{◌≡◌, ◌+◌, ◌<◌, ◌≤◌, ◌^◌, [], ◌∷◌};
ghost use Rattle.jc_index.specs.Layout.{most_writes, slot_words};
ghost use Rattle.jc_index.specs.Batches.{placed_at};
ghost use Rattle.jc_index.specs.Changes.{AddsWrites, writes_in};

use crate::layout::{MOST_WRITES, SLOT_WORDS};

/// The words so far, each with its place.
#[derive(Drop)]
pub(crate) struct Batch {
    pub(crate) writes: [(usize, u64); MOST_WRITES],
    pub(crate) length: usize,
}

impl Batch {
    /// No words.
    pub(crate) fn new() -> Batch
        ensures { (writes_in result ≡ []) × (result.length ≡ 0) }
    {
        Batch {
            writes: [(0, 0); MOST_WRITES],
            length: 0,
        }
    }

    /// One word more.
    pub(crate) fn push(&mut self, place: usize, value: u64)
        requires { self.old.length < most_writes }
        ensures { AddsWrites ((place, value) ∷ []) 1 self.old self.new }
    {
        self.writes[self.length] = (place, value);
        self.length += 1;
    }

    /// The words of a slot more.
    pub(crate) fn push_slot(&mut self, first: usize, words: [u64; SLOT_WORDS])
        requires { (self.old.length + slot_words ≤ most_writes) × (first + slot_words < 2 ^ 63) }
        ensures { AddsWrites (placed_at first words) slot_words self.old self.new }
    {
        for k in 0..SLOT_WORDS {
            self.push(first + k, words[k]);
        }
    }

    /// The words, each with its place.
    pub(crate) fn writes(&self) -> &[(usize, u64)]
        requires { self.now.length ≤ most_writes }
        ensures { result.now ≡ writes_in self.now }
    {
        &self.writes[..self.length]
    }
}
