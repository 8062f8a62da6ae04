//! What a lookup reads between its versions.
ghost use Rattle.std.specs.Prelude.{◌≡◌, ◌+◌, ◌*◌, ◌/◌, ◌≤◌, false, List, ℕ};
ghost use Rattle.jc_index.specs.Stripes.{IsOneOf, glance_of};
ghost use Rattle.jc_index.specs.StripeLayout.{common};
ghost use Rattle.jc_index.specs.Layout.{bucket_slots, header_words, slot_words, stripe_of, table_words};
ghost use Rattle.jc_index.specs.Passes.{FindsHead, FindsInBucket, FindsInBuckets, FindsInSlot, IsNoted};

use crate::layout::{BUCKET_SLOTS, MOMENT_PLACE, SLOT_WORDS};
use crate::placed::Placed;
use crate::reader::Reader;
use crate::slot::NEVER;
use crate::sought::{Sought, answer};
use jc_place::place::Placer;

/// The first word of a slot that holds the key. It reads no further than to the key's end, or the first word that differs.
fn head_at<P: Placer>(reader: &mut Reader<Placed<P>>, slot: usize, sought: &Sought) -> Option<u64>
    requires inside { header_words + slot_words * (slot + 1) ≤ reader.old.seat.table_id.words }
    requires young { (glance_of reader.old.seat.me.0).settled ≡ false }
    ensures same { reader.new.seat.table_id ≡ reader.old.seat.table_id }
    ensures young { (glance_of reader.new.seat.me.0).settled ≡ false }
    ensures noted { (js : List ℕ) → IsOneOf (stripe_of (slot / bucket_slots)) js
        → IsNoted js reader.old.seat reader.new.seat (FindsHead sought.now slot result) }
{
    let first = SLOT_WORDS * slot + 1;
    let head = reader.note(first);
    if !sought.is_of_cache(head) {
        return None;
    }
    for k in 0..sought.count {
        if reader.note(first + 1 + k) != sought.words[k] {
            return None;
        }
    }
    Some(head)
}

/// Whether a slot holds the key, and whether it is live there.
fn look_slot<P: Placer>(
    reader: &mut Reader<Placed<P>>,
    slot: usize,
    sought: &Sought,
) -> Option<bool>
    requires inside { header_words + slot_words * (slot + 1) ≤ reader.old.seat.table_id.words }
    requires young { (glance_of reader.old.seat.me.0).settled ≡ false }
    ensures same { reader.new.seat.table_id ≡ reader.old.seat.table_id }
    ensures young { (glance_of reader.new.seat.me.0).settled ≡ false }
    ensures noted { (js : List ℕ) → IsOneOf (stripe_of (slot / bucket_slots)) js
        → IsNoted js reader.old.seat reader.new.seat (FindsInSlot sought.now slot result) }
{
    let Some(head) = head_at(reader, slot, sought) else {
        return None;
    };
    if head >= NEVER {
        return Some(true);
    }
    let moment = reader.note(SLOT_WORDS * slot + 1 + MOMENT_PLACE);
    Some(sought.moment < moment)
}

/// Looks at a bucket's slots in turn, up to the one that holds the key.
fn look_bucket<P: Placer>(
    reader: &mut Reader<Placed<P>>,
    bucket: usize,
    sought: &Sought,
) -> Option<bool>
    requires inside { table_words (bucket + 1) ≤ reader.old.seat.table_id.words }
    requires young { (glance_of reader.old.seat.me.0).settled ≡ false }
    ensures same { reader.new.seat.table_id ≡ reader.old.seat.table_id }
    ensures young { (glance_of reader.new.seat.me.0).settled ≡ false }
    ensures noted { (js : List ℕ) → IsOneOf (stripe_of bucket) js
        → IsNoted js reader.old.seat reader.new.seat (FindsInBucket sought.now bucket result) }
{
    let first = BUCKET_SLOTS * bucket;
    for slot in first..first + BUCKET_SLOTS {
        let live = look_slot(reader, slot, sought);
        if live.is_some() {
            return live;
        }
    }
    None
}

/// Reads the slots of two buckets up to the one that holds the key, and where none does the stash's count.
pub(crate) fn look<P: Placer>(
    reader: &mut Reader<Placed<P>>,
    one: usize,
    two: usize,
    sought: &Sought,
) -> Option<bool>
    requires one { table_words (one + 1) ≤ reader.old.seat.table_id.words }
    requires two { table_words (two + 1) ≤ reader.old.seat.table_id.words }
    requires young { (glance_of reader.old.seat.me.0).settled ≡ false }
    ensures same { reader.new.seat.table_id ≡ reader.old.seat.table_id }
    ensures young { (glance_of reader.new.seat.me.0).settled ≡ false }
    ensures noted { (js : List ℕ)
        → IsOneOf (stripe_of one) js → IsOneOf (stripe_of two) js → IsOneOf common js
        → IsNoted js reader.old.seat reader.new.seat (FindsInBuckets sought.now one two result) }
{
    let first = look_bucket(reader, one, sought);
    if first.is_some() {
        return first;
    }
    let second = look_bucket(reader, two, sought);
    if second.is_some() {
        return second;
    }
    answer(reader.note(0))
}
