//! The writer of the words, and what is left of it when its table is outgrown.
ghost use Rattle.std.specs.Prelude.{◌≡◌, ◌+◌, ◌%◌, ◌^◌, ◌<◌, [], length, slice_index, All, IfOk, ℕ};
ghost use Rattle.std.specs.Arc.{arc_value};
ghost use Rattle.jc_index.specs.StripeLayout.{common, content_of, version_count, versions_at, HasVersionsAt};
ghost use Rattle.jc_index.specs.Stripes.{IsWriter, AreUnderVersions, desk, joined_view, last_of, opening_view};
ghost use Rattle.jc_index.specs.Seats.{AdmitsWrites, CommitsVersions, CommitsWrites, ExtendsFront, FrontIsPrefix, HasWordPlaces, HasSameTable, HasSameTableAndFront, HasSameTableAndLaw, HasSameView, IsSeated, IsShared, StartsFront, StripeIsOpen, versions_of_seat};

use crate::board::{Board, COMMON, Hear, Law, Origin, Recall, Share, StripesSeat, VERSION_COUNT};
use crate::reader::Reader;
use crate::stroke::{fill, open_all, open_one, seal, shut_all, versions_at};
use std::alloc::{AllocError, Global};
use std::mem::replace;
use std::snapshot::Snapshot;
use std::sync::Arc;

/// Between two commits the words are the last of the front, and the odd versions are exhausted.
#[derive(Drop)]
pub struct StripeWriter<L: Law> {
    board: Arc<Board<L>, Global>,
    pub seat: StripesSeat<L>,
    versions: [u64; VERSION_COUNT],
    pub ghost seated: { seat.table_id ≡ (arc_value board).shared.table_id },
    pub ghost sized: { (seat.table_id.words ≡ version_count + length (last_of seat.me.0.front))
        × (seat.table_id.words < 2 ^ 63) },
    pub ghost empty: { seat.me.1 ≡ [] },
    pub ghost fits: { (j : ℕ) → slice_index versions j < 2 ^ 64 },
    pub ghost settled: { (j : ℕ) → slice_index versions j % 2 ≡ 1 → slice_index versions j + 1 ≡ 2 ^ 64 },
    pub ghost at_rest: { seat.me.0.role ≡ desk versions (last_of seat.me.0.front) },
}

impl<L: Law> StripeWriter<L> {
    fn over(
        alloc: Global,
        origin: Origin<L>,
        words: &Vec<u64>,
    ) -> Result<StripeWriter<L>, AllocError>
        requires words { origin.words.value ≡ words.now }
        requires lawful { L.admits origin.law.value (content_of words.now.items) }
        requires even { origin.start % 2 ≡ 0 }
        requires versions { HasVersionsAt origin.start words.now.items }
        requires sized { length words.now.items < 2 ^ 63 }
        ensures { IfOk result (λ w. w.seat.me.0 ≡ opening_view origin) }
    {
        let versions = versions_at(origin.start);
        let (table, seat) = Board::<L>::of_words(alloc.clone()?, words.as_slice(), &origin)?;
        Ok(StripeWriter {
            board: Arc::new(alloc, table)?,
            seat,
            versions,
        })
    }

    /// All versions begin at this number. The words after them are all of the front.
    pub fn starting_at(
        alloc: Global,
        law: &L,
        words: &Vec<u64>,
        start: u64,
    ) -> Result<StripeWriter<L>, AllocError>
        requires even { start % 2 ≡ 0 }
        requires versions { HasVersionsAt start words.now.items }
        requires sized { length words.now.items < 2 ^ 63 }
        requires lawful { L.admits law.now (content_of words.now.items) }
        ensures writer { IfOk result (λ w. StartsFront law.now words.now.items w.seat) }
        ensures versions { IfOk result (λ w. versions_of_seat w.seat ≡ versions_at start) }
    {
        let origin = Origin {
            law: Snapshot::of(law),
            before: None,
            words: Snapshot::of(words),
            start,
        };
        StripeWriter::over(alloc, origin, words)
    }

    /// A writer of other words, which are the next of the front. All its versions begin at 0.
    pub fn follow(
        &self,
        alloc: Global,
        law: &L,
        words: &Vec<u64>,
    ) -> Result<StripeWriter<L>, AllocError>
        requires versions { HasVersionsAt 0 words.now.items }
        requires sized { length words.now.items < 2 ^ 63 }
        requires lawful { L.admits law.now (content_of words.now.items) }
        ensures writer { IfOk result (λ w. ExtendsFront law.now words.now.items self.now.seat w.seat) }
        ensures versions { IfOk result (λ w. versions_of_seat w.seat ≡ versions_at 0) }
    {
        let origin = Origin {
            law: Snapshot::of(law),
            before: Some(Snapshot::of(&self.seat)),
            words: Snapshot::of(words),
            start: 0,
        };
        StripeWriter::over(alloc, origin, words)
    }

    /// Opens the versions of these stripes, sets words one by one, and shuts the versions. A version that is the
    /// greatest even number is opened and never shut.
    pub fn commit(&mut self, stripes: &[usize], writes: &[(usize, u64)])
        requires some { 0 < length writes.now }
        requires inside { HasWordPlaces writes.now self.old.seat }
        requires few { All (λ j. j < version_count) stripes.now }
        requires covered { AreUnderVersions L.group stripes.now writes.now }
        requires lawful { AdmitsWrites L.admits self.old.seat writes.now }
        ensures same { HasSameTableAndLaw self.old.seat self.new.seat }
        ensures versions { CommitsVersions stripes.now self.old.seat self.new.seat }
        ensures front { CommitsWrites writes.now self.old.seat self.new.seat }
    {
        let last = writes.len() - 1;
        let (place, value) = writes[last];
        open_all(&self.board, &mut self.seat, &mut self.versions, stripes);
        fill(&self.board, &mut self.seat, &writes[..last]);
        seal(&self.board, &mut self.seat, place, value);
        shut_all(&self.board, &mut self.seat, &mut self.versions, stripes);
    }

    /// A reader that has seen the front. It is refused where the count of owners is full.
    pub fn reader(&mut self) -> Result<Reader<L>, AllocError>
        ensures same { HasSameTable self.old.seat self.new.seat × HasSameView self.old.seat self.new.seat }
        ensures reader { IfOk result
            (λ r. HasSameTable self.old.seat r.seat × IsShared self.old.seat r.seat) }
    {
        let board = Arc::try_clone(&self.board)?;
        let seat = self.board.shared.split_seat::<Share>(&mut self.seat);
        Ok(Reader { board, seat })
    }

    /// The reader has seen the front from now on. Its old seat is taken in: what that had seen is a beginning of the
    /// front. Nothing is allocated, and no count of owners changes.
    pub fn renew(&mut self, reader: &mut Reader<L>)
        requires { reader.old.seat.table_id ≡ self.old.seat.table_id }
        ensures same { self.new.seat.table_id ≡ self.old.seat.table_id }
        ensures view { self.new.seat.me.0 ≡ joined_view self.old.seat.me.0 reader.old.seat.me.0 }
        ensures table { reader.new.seat.table_id ≡ reader.old.seat.table_id }
        ensures reader { IsShared self.old.seat reader.new.seat }
        ensures seen { FrontIsPrefix reader.old.seat self.old.seat }
    {
        let seat = self.board.shared.split_seat::<Share>(&mut self.seat);
        let old = replace(&mut reader.seat, seat);
        take_in(&self.board, &mut self.seat, old);
    }

    /// Opens the common version for good.
    pub fn retire(self) -> Retired<L>
        ensures { HasSameTableAndFront self.seat result.seat }
    {
        let StripeWriter {
            board,
            mut seat,
            mut versions,
        } = self;
        open_one(&board, &mut seat, &mut versions, COMMON);
        Retired { board, seat }
    }
}

/// Joins a reader's seat to the writer's: what it has seen is a beginning of the writer's front.
fn take_in<L: Law>(board: &Board<L>, seat: &mut StripesSeat<L>, theirs: StripesSeat<L>)
    requires own { IsSeated board.now.shared.table_id seat.old × (0 < seat.old.table_id.words) }
    requires empty { (seat.old.me.1 ≡ []) × (theirs.me.1 ≡ []) }
    requires writes { IsWriter seat.old.me.0 }
    requires theirs { theirs.table_id ≡ seat.old.table_id }
    ensures same { seat.new.table_id ≡ seat.old.table_id }
    ensures view { seat.new.me ≡ (joined_view seat.old.me.0 theirs.me.0, []) }
    ensures seen { FrontIsPrefix theirs seat.old }
{
    board.shared.join_seat::<Hear>(seat, theirs);
    board.shared.load::<Recall>(seat, 0);
}

/// The writer of an outgrown table. The common version stays odd, so that no lookup there is at rest.
#[derive(Drop)]
pub struct Retired<L: Law> {
    board: Arc<Board<L>, Global>,
    pub seat: StripesSeat<L>,
    pub ghost seated: { seat.table_id ≡ (arc_value board).shared.table_id },
    pub ghost sized: { 0 < seat.table_id.words },
    pub ghost empty: { seat.me.1 ≡ [] },
    pub ghost writes: { IsWriter seat.me.0 },
    pub ghost odd: { StripeIsOpen common seat },
}

impl<L: Law> Retired<L> {
    /// Takes in a reader: what it has seen is a beginning of the front.
    pub fn hear(&mut self, reader: Reader<L>)
        requires { reader.seat.table_id ≡ self.old.seat.table_id }
        ensures same { HasSameTableAndFront self.old.seat self.new.seat }
        ensures seen { FrontIsPrefix reader.seat self.old.seat }
    {
        let Reader { board, seat } = reader;
        drop(board);
        take_in(&self.board, &mut self.seat, seat);
    }
}
