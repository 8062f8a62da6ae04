//! What the writer does to the shared words: it opens versions, sets words under them, and shuts them.
ghost use Rattle.std.specs.Prelude.{◌≡◌, ◌^◌, ◌<◌, slice_index, slice_set, All};
ghost use Rattle.jc_index.specs.StripeLayout.{version_count, versions_at};
ghost use Rattle.jc_index.specs.Stripes.{IsWriter, IsVersionOpened, IsVersionShut, Changes, desk, set_all};
ghost use Rattle.jc_index.specs.Seats.{AdmitsWords, HasWordPlace, HasWordPlaces, HasVersions, IsSameSeat, IsSeated, StripeIsOpen, last_words, words_of_seat};
ghost use Rattle.jc_index.specs.Steps.{HasSameOthers, SealsWords, SetsDesk, SetsVersions, SetsWords};

use crate::board::{Board, Law, Seal, Set, StripesSeat, VERSION_COUNT, VersionChange};

/// All versions are this number.
pub(crate) fn versions_at(start: u64) -> [u64; VERSION_COUNT]
    ensures { result ≡ versions_at start }
{
    [start; VERSION_COUNT]
}

/// Sets a word.
fn set<L: Law>(board: &Board<L>, seat: &mut StripesSeat<L>, place: usize, value: u64)
    requires own { HasWordPlace place board.now.shared.table_id seat.old }
    requires is_open { IsWriter seat.old.me.0 × StripeIsOpen (L.group place) seat.old }
    ensures same { IsSameSeat seat.old seat.new }
    ensures view { SetsWords (slice_set (words_of_seat seat.old) place value) seat.old seat.new }
{
    board
        .shared
        .store::<Set>(seat, VERSION_COUNT + place, value);
}

/// Sets the last word of a commit: the words are then the next of the front.
pub(crate) fn seal<L: Law>(board: &Board<L>, seat: &mut StripesSeat<L>, place: usize, value: u64)
    requires own { HasWordPlace place board.now.shared.table_id seat.old }
    requires is_open { IsWriter seat.old.me.0 × StripeIsOpen (L.group place) seat.old }
    requires lawful { AdmitsWords L.admits seat.old (slice_set (words_of_seat seat.old) place value) }
    ensures same { IsSameSeat seat.old seat.new }
    ensures view { SealsWords (slice_set (words_of_seat seat.old) place value) seat.old seat.new }
{
    board
        .shared
        .store::<Seal>(seat, VERSION_COUNT + place, value);
}

/// Makes the version of a stripe odd, if it is not.
pub(crate) fn open_one<L: Law>(
    board: &Board<L>,
    seat: &mut StripesSeat<L>,
    versions: &mut [u64; VERSION_COUNT],
    stripe: usize,
)
    requires own { HasVersions board.now.shared.table_id seat.old }
    requires known { seat.old.me.0.role ≡ desk versions.old (words_of_seat seat.old) }
    requires few { stripe < version_count }
    ensures same { IsSameSeat seat.old seat.new }
    ensures view { SetsVersions versions.new seat.old seat.new }
    ensures one { IsVersionOpened (slice_index versions.old stripe) (slice_index versions.new stripe) }
    ensures others { HasSameOthers stripe versions.old versions.new }
{
    let version = versions[stripe];
    if version % 2 == 1 {
        return;
    }
    board
        .shared
        .store::<VersionChange>(seat, stripe, version + 1);
    versions[stripe] = version + 1;
}

/// Makes an odd version of a stripe the next even number, if there is one: the greatest version stays for good.
fn shut_one<L: Law>(
    board: &Board<L>,
    seat: &mut StripesSeat<L>,
    versions: &mut [u64; VERSION_COUNT],
    stripe: usize,
)
    requires own { HasVersions board.now.shared.table_id seat.old }
    requires known { seat.old.me.0.role ≡ desk versions.old (last_words seat.old) }
    requires few { stripe < version_count }
    ensures same { IsSameSeat seat.old seat.new }
    ensures view { SetsDesk versions.new (last_words seat.old) seat.old seat.new }
    ensures one { IsVersionShut (slice_index versions.old stripe) (slice_index versions.new stripe) }
    ensures others { HasSameOthers stripe versions.old versions.new }
{
    let version = versions[stripe];
    if version % 2 == 0 || version == u64::MAX {
        return;
    }
    let next = version + 1;
    board.shared.store::<VersionChange>(seat, stripe, next);
    versions[stripe] = next;
}

/// Opens the versions of these stripes.
pub(crate) fn open_all<L: Law>(
    board: &Board<L>,
    seat: &mut StripesSeat<L>,
    versions: &mut [u64; VERSION_COUNT],
    stripes: &[usize],
)
    requires own { HasVersions board.now.shared.table_id seat.old }
    requires known { seat.old.me.0.role ≡ desk versions.old (words_of_seat seat.old) }
    requires few { All (λ j. j < version_count) stripes.now }
    ensures same { IsSameSeat seat.old seat.new }
    ensures view { SetsVersions versions.new seat.old seat.new }
    ensures changes { Changes IsVersionOpened stripes.now versions.old versions.new }
{
    for i in 0..stripes.len() {
        open_one(board, seat, versions, stripes[i]);
    }
}

/// Shuts the versions of these stripes.
pub(crate) fn shut_all<L: Law>(
    board: &Board<L>,
    seat: &mut StripesSeat<L>,
    versions: &mut [u64; VERSION_COUNT],
    stripes: &[usize],
)
    requires own { HasVersions board.now.shared.table_id seat.old }
    requires known { seat.old.me.0.role ≡ desk versions.old (last_words seat.old) }
    requires few { All (λ j. j < version_count) stripes.now }
    ensures same { IsSameSeat seat.old seat.new }
    ensures view { SetsDesk versions.new (last_words seat.old) seat.old seat.new }
    ensures changes { Changes IsVersionShut stripes.now versions.old versions.new }
{
    for i in 0..stripes.len() {
        shut_one(board, seat, versions, stripes[i]);
    }
}

/// Sets these words one by one.
pub(crate) fn fill<L: Law>(board: &Board<L>, seat: &mut StripesSeat<L>, writes: &[(usize, u64)])
    requires own { IsSeated board.now.shared.table_id seat.old × (seat.old.table_id.words < 2 ^ 63) }
    requires inside { HasWordPlaces writes.now seat.old }
    requires known { IsWriter seat.old.me.0 }
    requires is_open { All (λ w. StripeIsOpen (L.group w.0) seat.old) writes.now }
    ensures same { IsSameSeat seat.old seat.new }
    ensures view { SetsWords (set_all (words_of_seat seat.old) writes.now) seat.old seat.new }
{
    for i in 0..writes.len() {
        let (place, value) = writes[i];
        set(board, seat, place, value);
    }
}
