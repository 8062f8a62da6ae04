//! The words of a new table.
ghost use Rattle.std.specs.Prelude.{◌≡◌, ◌*◌, ◌≤◌, ◌∷◌, ◌++◌, IfOk, length, replicate};
ghost use Rattle.jc_cuckoo.specs.Images.{grown_image};
ghost use Rattle.jc_index.specs.StripeLayout.{versions_at};
ghost use Rattle.jc_index.specs.Layout.{bucket_slots, bucket_words};
ghost use Rattle.jc_index.specs.Spelling.{AreCoded, words_of_image};

use crate::board::VERSION_COUNT;
use crate::layout::{BUCKET_WORDS, HEADER_WORDS, SLOT_WORDS};
use crate::slot::words_of_slot;
use jc_cuckoo::held::Held;
use jc_model::OutOfMemory;
use std::alloc::Global;

/// Versions at rest, and the words of an image.
pub(crate) fn fill_words(
    alloc: Global,
    slots: &[Option<Held>],
    stash: u32,
) -> Result<Vec<u64>, OutOfMemory>
    requires { length slots.now ≤ bucket_slots * 65536 }
    ensures { IfOk result (λ v.
        (v.items ≡ versions_at 0 ++ words_of_image (grown_image slots.now stash))
        × AreCoded slots.now) }
{
    let mut words = vec![in alloc; 0; VERSION_COUNT]?;
    words.reserve(1 + SLOT_WORDS * slots.len())?;
    words.push(u64::from(stash))?;
    for i in 0..slots.len() {
        let own = words_of_slot(slots[i]);
        words.extend_from_slice(&own)?;
    }
    Ok(words)
}

/// Versions that are this number, and the words of an image with empty slots.
pub(crate) fn blank(alloc: Global, buckets: u32, start: u64) -> Result<Vec<u64>, OutOfMemory>
    requires { buckets ≤ 65536 }
    ensures { IfOk result
        (λ v. v.items ≡ versions_at start ++ 0 ∷ replicate (bucket_words * buckets) 0) }
{
    let mut words = vec![in alloc; start; VERSION_COUNT]?;
    words.resize(HEADER_WORDS + BUCKET_WORDS * buckets as usize, 0)?;
    Ok(words)
}
