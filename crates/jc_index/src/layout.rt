//! How the words of a table are laid: the versions, the stash's count, and then the slots, bucket by bucket.
use crate::board::VERSION_COUNT;
use jc_model::limits::KEY_WORDS;

/// The words of a slot: the cache's number, the key's words, and the moment at which the row expires.
pub(crate) const SLOT_WORDS: usize = KEY_WORDS + 2;

/// Where the moment stands in a slot.
pub(crate) const MOMENT_PLACE: usize = KEY_WORDS + 1;

/// The slots of a bucket.
pub(crate) const BUCKET_SLOTS: usize = 4;

/// The words of a bucket.
pub(crate) const BUCKET_WORDS: usize = BUCKET_SLOTS * SLOT_WORDS;

/// The words before the first slot: the versions, and the stash's count.
pub(crate) const HEADER_WORDS: usize = VERSION_COUNT + 1;

/// The most words that a commit sets: those of two slots, and the count.
pub(crate) const MOST_WRITES: usize = 2 * SLOT_WORDS + 1;
