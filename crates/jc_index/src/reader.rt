//! A reader of the words. It never waits.
ghost use Rattle.std.specs.Prelude.{◌≡◌, ◌≢◌, ◌⊎◌, ◌+◌, ◌%◌, ◌<◌, ◌≤◌, ◌^◌, true, false, [], length, All};
ghost use Rattle.std.specs.Arc.{arc_value};
ghost use Rattle.jc_index.specs.StripeLayout.{version_count};
ghost use Rattle.jc_index.specs.Stripes.{IsReader, stack_of};
ghost use Rattle.jc_index.specs.Seats.{AdmitsLast, FrontIsPrefix, HasLaw, HasSameFront, glance_at, last_words};
ghost use Rattle.jc_index.specs.Steps.{AddsCheck, AddsNote, BeginsLookup, CheckShows, ChecksSameStripes, HasChecks, NotesStand, VersionsDiffer, VersionsStayed, BeginsStripe};

use crate::board::{Begin, Board, Check, Law, Note, StripesSeat, VERSION_COUNT};
use std::alloc::Global;
use std::sync::Arc;

/// What it has seen is a beginning of the front.
#[derive(Drop)]
pub struct Reader<L: Law> {
    pub(crate) board: Arc<Board<L>, Global>,
    pub seat: StripesSeat<L>,
    pub ghost seated: { seat.table_id ≡ (arc_value board).shared.table_id },
    pub ghost sized: { (version_count ≤ seat.table_id.words) × (seat.table_id.words < 2 ^ 63) },
    pub ghost empty: { seat.me.1 ≡ [] },
    pub ghost reads: { IsReader seat.me.0 },
}

/// Whether a version that was read twice was at rest and stayed.
fn was_at_rest(first: u64, again: u64) -> bool
    ensures yes { result ≡ true → (first ≡ again) × (first % 2 ≡ 0) }
    ensures no { result ≡ false → (first ≢ again) ⊎ (first % 2 ≡ 1) }
{
    if first != again {
        return false;
    }
    first % 2 == 0
}

impl<L: Law> Reader<L> {
    /// Reads the version of a stripe for the first time.
    fn begin_one(&mut self, stripe: usize) -> u64
        requires { stripe < version_count }
        ensures same { self.new.seat.table_id ≡ self.old.seat.table_id }
        ensures view { BeginsStripe stripe result self.old.seat self.new.seat }
    {
        self.board.shared.load::<Begin>(&mut self.seat, stripe)
    }

    /// Reads the version of a stripe again. The first check of a lookup sees the front so far, and later ones keep it.
    fn check_one(&mut self, stripe: usize) -> u64
        requires { stripe < version_count }
        ensures same { self.new.seat.table_id ≡ self.old.seat.table_id }
        ensures view { AddsCheck stripe result self.old.seat self.new.seat }
        ensures front { FrontIsPrefix self.old.seat self.new.seat }
        ensures later { (glance_at self.old.seat).settled ≡ true
            → HasSameFront self.old.seat self.new.seat }
        ensures shows { CheckShows L.group stripe result self.old.seat self.new.seat }
        ensures lawful { (l : L) → HasLaw l self.old.seat
            → (glance_at self.old.seat).settled ≡ false
            → L.admits l (last_words self.new.seat) }
    {
        self.board.shared.load::<Check<L>>(&mut self.seat, stripe)
    }

    /// Reads the versions of these stripes. What was read before is forgotten.
    pub fn begin(&mut self, stripes: &[usize], versions: &mut [u64])
        requires some { 0 < length stripes.now }
        requires alike { length versions.old ≡ length stripes.now }
        requires few { All (λ j. j < version_count) stripes.now }
        requires rests { (glance_at self.old.seat).settled ≡ true }
        ensures same { self.new.seat.table_id ≡ self.old.seat.table_id }
        ensures alike { length versions.new ≡ length versions.old }
        ensures view { BeginsLookup (stack_of stripes.now versions.new []) self.old.seat self.new.seat }
    {
        versions[0] = self.begin_one(stripes[0]);
        for i in 1..stripes.len() {
            versions[i] = self.begin_one(stripes[i]);
        }
    }

    /// Reads the word at a place.
    pub fn note(&mut self, place: usize) -> u64
        requires inside { version_count + place < self.old.seat.table_id.words }
        requires young { (glance_at self.old.seat).settled ≡ false }
        ensures same { self.new.seat.table_id ≡ self.old.seat.table_id }
        ensures view { AddsNote place result self.old.seat self.new.seat }
    {
        self.board
            .shared
            .load::<Note>(&mut self.seat, VERSION_COUNT + place)
    }

    /// Reads the versions again, and sees the front so far. Where they are even and as they were, what was read under
    /// them stands in the last of the front.
    pub fn check(&mut self, stripes: &[usize], versions: &[u64]) -> bool
        requires some { 0 < length stripes.now }
        requires alike { length versions.now ≡ length stripes.now }
        requires few { All (λ j. j < version_count) stripes.now }
        requires begun { (glance_at self.old.seat).begun ≡ stack_of stripes.now versions.now [] }
        requires fresh { (glance_at self.old.seat).checked ≡ [] }
        requires young { (glance_at self.old.seat).settled ≡ false }
        ensures same { self.new.seat.table_id ≡ self.old.seat.table_id }
        ensures view { HasChecks (glance_at self.new.seat).checked self.old.seat self.new.seat }
        ensures again { ChecksSameStripes self.old.seat self.new.seat }
        ensures front { FrontIsPrefix self.old.seat self.new.seat }
        ensures lawful { AdmitsLast L.admits self.old.seat self.new.seat }
        ensures read { result ≡ true → NotesStand L.group stripes.now self.old.seat self.new.seat }
        ensures stays { result ≡ true → VersionsStayed self.old.seat self.new.seat }
        ensures differ { result ≡ false → VersionsDiffer self.old.seat self.new.seat }
    {
        let again = self.check_one(stripes[0]);
        let mut same = was_at_rest(versions[0], again);
        for i in 1..stripes.len() {
            let again = self.check_one(stripes[i]);
            same &= was_at_rest(versions[i], again);
        }
        same
    }
}
