//! What a commit sets, and which versions it takes.
ghost use Rattle.std.specs.Prelude.{◌≡◌, ◌⊎◌, ◌+◌, ◌*◌, ◌<◌, ◌≤◌, ◌++◌, ℕ, List, All, Some, None, take, length};
ghost use Rattle.jc_index.specs.Stripes.{AreUnderVersions};
ghost use Rattle.jc_index.specs.StripeLayout.{version_count};
ghost use Rattle.jc_index.specs.Layout.{most_writes, slot_words};
ghost use Rattle.jc_index.specs.Spelling.{IsCoded, IsSpelt, group_of, image_in};
ghost use Rattle.jc_index.specs.Batches.{count_batch, count_for, is_some, shown_by_write, slot_batch, stripes_for};
ghost use Rattle.jc_index.specs.Changes.{ArePlacesOf, AreSlotsOf, SpellsWritten, stripes_of_commit, stripes_taken, writes_in};

use crate::batch::Batch;
use crate::layout::{BUCKET_SLOTS, SLOT_WORDS};
use crate::slot::words_of_slot;
use crate::versions::{STASH, versions_of};
use jc_cuckoo::held::Held;

/// The words that are set, each with its place, and the versions that are opened before and shut after.
#[derive(Drop)]
pub(crate) struct Change {
    pub(crate) batch: Batch,
    pub(crate) stripes: [usize; 3],
    pub(crate) taken: usize,
}

/// The words of these slots.
fn batch_of(writes: &[(u32, Option<Held>)]) -> Batch
    requires few { length writes.now ≤ 2 }
    ensures batch { writes_in result ≡ slot_batch writes.now }
    ensures length { result.length ≡ slot_words * length writes.now }
    ensures coded { All (λ w. IsCoded (shown_by_write w)) writes.now }
{
    let mut batch = Batch::new();
    for i in 0..writes.len() {
        let (slot, held) = writes[i];
        batch.push_slot(SLOT_WORDS * slot as usize + 1, words_of_slot(held));
    }
    batch
}

/// The versions of the buckets of these slots, and that of the stash where its count is set.
fn stripes_of(writes: &[(u32, Option<Held>)], stash: bool) -> ([usize; 3], usize)
    requires { length writes.now ≤ 2 }
    ensures few { result.1 ≤ 3 }
    ensures these { take result.1 result.0 ≡ stripes_for writes.now stash }
{
    if writes.len() == 0 {
        return ([STASH, 0, 0], 1);
    }
    let one = writes[0].0 as usize / BUCKET_SLOTS;
    if writes.len() == 1 {
        return versions_of(one, one, stash);
    }
    versions_of(one, writes[1].0 as usize / BUCKET_SLOTS, stash)
}

/// The count is set where it changes or no slot is written.
fn count_of(slots: usize, old: u32, stash: u32) -> Option<u32>
    ensures same { result ≡ count_for slots old stash }
    ensures cases { (result ≡ Some stash) ⊎ ((result ≡ None) × (old ≡ stash) × (0 < slots)) }
{
    if slots == 0 || old != stash {
        return Some(stash);
    }
    None
}

fn change_for(writes: &[(u32, Option<Held>)], count: Option<u32>) -> Change
    requires few { length writes.now ≤ 2 }
    ensures fits { (result.batch.length ≤ most_writes) × (result.taken ≤ 3) }
    ensures batch { writes_in result.batch ≡ slot_batch writes.now ++ count_batch count }
    ensures stripes { stripes_taken result ≡ stripes_for writes.now (is_some count) }
    ensures coded { All (λ w. IsCoded (shown_by_write w)) writes.now }
{
    let mut batch = batch_of(writes);
    match count {
        None => {
            let (stripes, taken) = stripes_of(writes, false);
            Change {
                batch,
                stripes,
                taken,
            }
        }
        Some(count) => {
            let (stripes, taken) = stripes_of(writes, true);
            batch.push(0, u64::from(count));
            Change {
                batch,
                stripes,
                taken,
            }
        }
    }
}

impl Change {
    /// At most two slots are written, and the stash's count.
    pub(crate) fn of(writes: &[(u32, Option<Held>)], old: u32, stash: u32) -> Change
        requires { length writes.now ≤ 2 }
        ensures fits { (result.batch.length ≤ most_writes) × (result.taken ≤ 3) }
        ensures stripes { stripes_taken result ≡ stripes_of_commit writes.now old stash }
        ensures some { 0 < length (writes_in result.batch) }
        ensures few { All (λ j. j < version_count) (stripes_taken result) }
        ensures covered { AreUnderVersions group_of (stripes_taken result) (writes_in result.batch) }
        ensures inside { (buckets : ℕ)
            → AreSlotsOf buckets writes.now → ArePlacesOf buckets (writes_in result.batch) }
        ensures image { (buckets : ℕ) (words : List ℕ) → AreSlotsOf buckets writes.now
            → IsSpelt buckets words → (image_in words).stash ≡ old
            → SpellsWritten buckets writes.now stash words (writes_in result.batch) }
    {
        let count = count_of(writes.len(), old, stash);
        change_for(writes, count)
    }

    /// The versions.
    pub(crate) fn stripes(&self) -> &[usize]
        requires { self.now.taken ≤ 3 }
        ensures { result.now ≡ stripes_taken self.now }
    {
        &self.stripes[..self.taken]
    }

    /// The words, each with its place.
    pub(crate) fn writes(&self) -> &[(usize, u64)]
        requires { self.now.batch.length ≤ most_writes }
        ensures { result.now ≡ writes_in self.now.batch }
    {
        self.batch.writes()
    }
}
