//! Tables of words that follow one another. Readers move on to the newest.
ghost use Rattle.std.specs.Prelude.{◌≡◌, ◌%◌, ◌^◌, ◌<◌, [], ◌∷◌, ◌++◌, length, Some, IfOk, IfErr, All, slice_get};
ghost use mathlib.Core.List.{IsPrefix};
ghost use Rattle.jc_index.specs.StripeLayout.{content_of, version_count, versions_at, HasVersionsAt};
ghost use Rattle.jc_index.specs.Stripes.{AreUnderVersions, Front};
ghost use Rattle.jc_index.specs.Lineages.{tables, outgrown, outgrown_tables, AreEarlier};
ghost use Rattle.jc_index.specs.Seats.{AdmitsWrites, CommitsVersions, CommitsWrites, ExtendsFront, FrontIsPrefix, HasMet, HasWordPlaces, HasSameTable, HasSameTableAndLaw, IsSameButTold, IsShared, KnowsSame, StartsFront, versions_of_seat};
ghost use Rattle.jc_index.specs.Members.{IsMemberOf};

use crate::board::{Law, StripesSeat};
use crate::keeper::Keeper;
use crate::member::Member;
use crate::reader::Reader;
use crate::writer::{Retired, StripeWriter};
use std::alloc::{AllocError, Global};
use std::mem::replace;

/// The writer of the newest table, and those of the tables before it. The keeper's list names the tables.
#[derive(Drop)]
pub struct Lineage<L: Law + Drop> {
    pub keeper: Keeper<StripesSeat<L>>,
    pub retired: Vec<Retired<L>>,
    pub writer: StripeWriter<L>,
    pub ghost listed: { tables keeper.seat.me.0.items
        ≡ outgrown_tables retired.items ++ writer.seat.table_id ∷ [] },
    pub ghost earlier: { AreEarlier writer.seat.me.0.front retired.items },
}

fn hear_at<L: Law + Drop>(writers: &mut Vec<Retired<L>>, generation: usize, reader: Reader<L>)
    requires { slice_get (outgrown_tables writers.old.items) generation ≡ Some reader.seat.table_id }
    ensures same { outgrown writers.new.items ≡ outgrown writers.old.items }
    ensures seen { (front : Front)
        → AreEarlier front writers.old.items → IsPrefix reader.seat.me.0.front front }
{
    let writer = &mut writers[generation];
    writer.hear(reader);
}

impl<L: Law + Drop> Lineage<L> {
    /// One table, whose versions all begin at this number; those of the tables that follow begin at 0. The words after
    /// the versions are all of the front.
    pub fn starting_at(
        alloc: Global,
        law: &L,
        words: &Vec<u64>,
        start: u64,
    ) -> Result<Lineage<L>, AllocError>
        requires even { start % 2 ≡ 0 }
        requires versions { HasVersionsAt start words.now.items }
        requires sized { length words.now.items < 2 ^ 63 }
        requires lawful { L.admits law.now (content_of words.now.items) }
        ensures lineage { IfOk result (λ l. StartsFront law.now words.now.items l.writer.seat) }
        ensures versions { IfOk result (λ l. versions_of_seat l.writer.seat ≡ versions_at start) }
    {
        let mut keeper = Keeper::new(alloc.clone()?)?;
        let writer = StripeWriter::starting_at(alloc.clone()?, law, words, start)?;
        keeper.add(&writer.seat);
        Ok(Lineage {
            keeper,
            retired: Vec::new(alloc),
            writer,
        })
    }

    /// A new table with these words follows, whose versions all begin at 0. The old one is retired.
    pub fn follow(&mut self, alloc: Global, law: &L, words: &Vec<u64>) -> Result<(), AllocError>
        requires versions { HasVersionsAt 0 words.now.items }
        requires sized { length words.now.items < 2 ^ 63 }
        requires lawful { L.admits law.now (content_of words.now.items) }
        ensures name { self.new.keeper.seat.table_id ≡ self.old.keeper.seat.table_id }
        ensures ok { IfOk result (λ _. ExtendsFront law.now words.now.items
            self.old.writer.seat self.new.writer.seat) }
        ensures versions { IfOk result (λ _. versions_of_seat self.new.writer.seat ≡ versions_at 0) }
        ensures refused { IfErr result (λ _. KnowsSame self.old.writer.seat self.new.writer.seat) }
    {
        self.retired.reserve(1)?;
        let writer = self.writer.follow(alloc, law, words)?;
        self.keeper.add(&writer.seat);
        let old = replace(&mut self.writer, writer);
        self.retired.push_reserved(old.retire());
        Ok(())
    }

    /// Sets words of the newest table as one commit, under the versions of these stripes.
    pub fn commit(&mut self, stripes: &[usize], writes: &[(usize, u64)])
        requires some { 0 < length writes.now }
        requires inside { HasWordPlaces writes.now self.old.writer.seat }
        requires few { All (λ j. j < version_count) stripes.now }
        requires covered { AreUnderVersions L.group stripes.now writes.now }
        requires lawful { AdmitsWrites L.admits self.old.writer.seat writes.now }
        ensures name { self.new.keeper.seat.table_id ≡ self.old.keeper.seat.table_id }
        ensures same { HasSameTableAndLaw self.old.writer.seat self.new.writer.seat }
        ensures versions { CommitsVersions stripes.now self.old.writer.seat self.new.writer.seat }
        ensures front { CommitsWrites writes.now self.old.writer.seat self.new.writer.seat }
    {
        self.writer.commit(stripes, writes);
    }

    /// A reader at the newest table.
    pub fn member(&mut self) -> Result<Member<L>, AllocError>
        ensures name { self.new.keeper.seat.table_id ≡ self.old.keeper.seat.table_id }
        ensures same { KnowsSame self.old.writer.seat self.new.writer.seat }
        ensures member { IfOk result (λ m. IsMemberOf self.old.keeper self.old.writer m) }
    {
        let reader = self.writer.reader()?;
        let follower = self.keeper.follower();
        let generation = self.retired.len();
        Ok(Member {
            reader,
            follower,
            generation,
        })
    }

    /// The reader goes on at the newest table, with the writer's front. Where it is refused, it stays as it was.
    pub fn meet(&mut self, member: &mut Member<L>) -> Result<(), AllocError>
        requires { member.old.follower.seat.table_id ≡ self.old.keeper.seat.table_id }
        ensures name { HasSameTable self.old.keeper.seat self.new.keeper.seat
            × HasSameTable member.old.follower.seat member.new.follower.seat }
        ensures writer { IsSameButTold self.old.writer.seat self.new.writer.seat }
        ensures front { FrontIsPrefix member.old.reader.seat member.new.reader.seat }
        ensures met { IfOk result (λ _. HasMet self.old.writer.seat member.new.reader.seat) }
        ensures refused { IfErr result (λ _. KnowsSame member.old.reader.seat member.new.reader.seat) }
    {
        let newest = self.retired.len();
        if member.generation < newest {
            return self.bring(member);
        }
        self.keeper.renew(&mut member.follower);
        self.writer.renew(&mut member.reader);
        Ok(())
    }

    /// A reader at an outgrown table goes on at the newest, with the writer's front. Where it is refused, it stays.
    fn bring(&mut self, member: &mut Member<L>) -> Result<(), AllocError>
        requires name { member.old.follower.seat.table_id ≡ self.old.keeper.seat.table_id }
        requires outgrown { member.old.generation < length self.old.retired.items }
        ensures name { self.new.keeper.seat.table_id ≡ self.old.keeper.seat.table_id }
        ensures table { self.new.writer.seat.table_id ≡ self.old.writer.seat.table_id }
        ensures view { self.new.writer.seat.me.0 ≡ self.old.writer.seat.me.0 }
        ensures follower { member.new.follower.seat.table_id ≡ member.old.follower.seat.table_id }
        ensures seen { IfOk result (λ _. FrontIsPrefix member.old.reader.seat self.old.writer.seat) }
        ensures met { IfOk result (λ _. IsShared self.old.writer.seat member.new.reader.seat) }
        ensures moved { IfOk result (λ _. HasSameTable self.old.writer.seat member.new.reader.seat) }
        ensures refused { IfErr result (λ _. member.new.reader ≡ member.old.reader) }
    {
        let reader = self.writer.reader()?;
        self.keeper.renew(&mut member.follower);
        let old = replace(&mut member.reader, reader);
        hear_at(&mut self.retired, member.generation, old);
        member.generation = self.retired.len();
        Ok(())
    }
}
