//! A lookup that never waits.
ghost use Rattle.std.specs.Prelude.{◌≡◌, ◌⊎◌, ◌%◌, Bool, true, false, length, Some, None};
ghost use Rattle.jc_place.specs.Place.{IsTableSize};
ghost use Rattle.jc_index.specs.Stripes.{glance_of};
ghost use Rattle.jc_index.specs.Layout.{table_words};
ghost use Rattle.jc_index.specs.Spelling.{buckets_of, key_of_words};
ghost use Rattle.jc_index.specs.declared.lookup.Lookup.TheVariants.{Sure, Unsure};
ghost use Rattle.jc_index.specs.Versions.{versions_of};
ghost use Rattle.jc_index.specs.Passes.{HasBuckets, HasStayed, IsReaderLookup, HasMoved, found_by_reader, place_sought};

use crate::board::STRIPE_COUNT;
use crate::look::look;
use crate::placed::{Placed, buckets_of};
use crate::reader::Reader;
use crate::sought::Sought;
use crate::versions::STASH;
use jc_model::key::Key;
use jc_place::place::Placer;

/// Whether a key is there and live, where that is sure.
#[derive(Clone, Copy, Debug, PartialEq, Eq)]
pub enum Lookup {
    Sure(bool),
    Unsure,
}

/// What the words tell, read between the readings of these versions, and whether the versions were at rest and stayed.
/// Where it is called it is known how many they are, so there its loops over them are unrolled.
#[inline(always)]
fn probe<P: Placer>(
    reader: &mut Reader<Placed<P>>,
    stripes: &[usize],
    versions: &mut [u64],
    one: usize,
    two: usize,
    sought: &Sought,
) -> (bool, Option<bool>)
    requires law { HasBuckets P.placing reader.old.seat sought.now one two }
    requires stripes { stripes.now ≡ versions_of one two true }
    requires alike { length versions.old ≡ length stripes.now }
    requires rests { (glance_of reader.old.seat.me.0).settled ≡ true }
    ensures sure { result.0 ≡ true → found_by_reader reader.new sought.now ≡ result.1 }
    ensures stays { result.0 ≡ true → HasStayed reader.new }
    ensures unsure { result.0 ≡ false → HasMoved reader.new }
    ensures reads { IsReaderLookup (one, two) reader.old reader.new }
{
    reader.begin(stripes, versions);
    let answer = look(reader, one, two, sought);
    let same = reader.check(stripes, versions);
    (same, answer)
}

/// Sure where the versions stayed and the words tell.
fn lookup_result(same: bool, answer: Option<bool>) -> Lookup
    ensures sure { (b : Bool) → result ≡ Sure b → (same ≡ true) × (answer ≡ Some b) }
    ensures unsure { result ≡ Unsure → (same ≡ false) ⊎ ((same ≡ true) × (answer ≡ None)) }
{
    if !same {
        return Lookup::Unsure;
    }
    match answer {
        Some(live) => Lookup::Sure(live),
        None => Lookup::Unsure,
    }
}

/// Whether a key is there and live. It is sure only of the last image that the reader has seen.
pub(crate) fn look_up<P: Placer>(
    reader: &mut Reader<Placed<P>>,
    placer: &P,
    buckets: u32,
    key: &Key,
    sought: &Sought,
) -> Lookup
    requires same { key_of_words sought.now.words ≡ key.now }
    requires law { reader.old.seat.me.0.law ≡ Some record { placer = placer.now; buckets = buckets } }
    requires wide { table_words buckets ≡ reader.old.seat.table_id.words }
    requires size { IsTableSize buckets }
    requires rests { (glance_of reader.old.seat.me.0).settled ≡ true }
    ensures sure { (b : Bool) → result ≡ Sure b → found_by_reader reader.new sought.now ≡ Some b }
    ensures stays { (b : Bool) → result ≡ Sure b → HasStayed reader.new }
    ensures unsure { result ≡ Unsure
        → HasMoved reader.new ⊎ (found_by_reader reader.new sought.now ≡ None) }
    ensures reads { IsReaderLookup (buckets_of (P.placing placer.now) buckets (place_sought sought.now))
        reader.old reader.new }
{
    let (one, two) = buckets_of(placer, buckets, sought.id, key);
    let (first, second) = (one % STRIPE_COUNT, two % STRIPE_COUNT);
    if first == second {
        let (same, answer) = probe(reader, &[first, STASH], &mut [0; 2], one, two, sought);
        return lookup_result(same, answer);
    }
    if first < second {
        let (same, answer) = probe(
            reader,
            &[first, second, STASH],
            &mut [0; 3],
            one,
            two,
            sought,
        );
        return lookup_result(same, answer);
    }
    let (same, answer) = probe(
        reader,
        &[second, first, STASH],
        &mut [0; 3],
        one,
        two,
        sought,
    );
    lookup_result(same, answer)
}
