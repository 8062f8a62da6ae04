//! What a lookup looks for.
ghost use Rattle.std.specs.Prelude.{◌≡◌, ◌≢◌, ◌+◌, ◌*◌, ◌%◌, ◌^◌, ◌<◌, ◌≤◌, true, false, None, slice_index};
ghost use Rattle.jc_model.specs.Key.{words_of};
ghost use Rattle.jc_model.specs.Limits.{key_words};
ghost use Rattle.jc_index.specs.Spelling.{bytes_in, key_of_words};
ghost use Rattle.jc_index.specs.Found.{answer_with_stash};

use crate::slot::{NEVER, words_of_key};
use jc_model::event::CacheId;
use jc_model::key::Key;
use jc_model::limits::KEY_WORDS;

/// A key of a cache, by its words, at a moment.
#[derive(Drop)]
pub(crate) struct Sought {
    pub(crate) id: CacheId,
    /// The cache's number plus 1, as a slot has it.
    pub(crate) number: u64,
    pub(crate) words: [u64; KEY_WORDS],
    /// How many of them have its length and its text. The others are 0.
    pub(crate) count: usize,
    pub(crate) moment: u64,
    pub(crate) ghost numbered: { number ≡ id + 1 },
    pub(crate) ghost spelt: { words ≡ words_of (key_of_words words) },
    pub(crate) ghost long: { slice_index (bytes_in words) 0 < 8 * count },
    pub(crate) ghost few: { count ≤ key_words },
}

impl Sought {
    pub(crate) fn new(id: CacheId, key: &Key, moment: u64) -> Sought
        ensures { (result.id ≡ id) × (key_of_words result.words ≡ key.now) × (result.moment ≡ moment) }
    {
        Sought {
            id,
            number: u64::from(id.number()) + 1,
            words: words_of_key(key),
            count: key.text().len() / 8 + 1,
            moment,
        }
    }

    /// Whether a slot with this first word holds a row of the cache.
    pub(crate) fn is_of_cache(&self, head: u64) -> bool
        ensures same { result ≡ true → head % 2 ^ 33 ≡ self.now.id + 1 }
        ensures other { result ≡ false → head % 2 ^ 33 ≢ self.now.id + 1 }
    {
        head % NEVER == self.number
    }
}

/// What the stash's count tells of a key that is in no slot: it may lie in the stash.
pub(crate) fn answer(count: u64) -> Option<bool>
    ensures { result ≡ answer_with_stash None count }
{
    if count == 0 {
        return Some(false);
    }
    None
}
