//! The one that adds to a roll, and those that know a beginning of it.
ghost use Rattle.std.specs.Prelude.{◌≡◌, ◌<◌, true, [], ◌∷◌, ◌++◌, IfOk};
ghost use mathlib.Core.List.{IsPrefix};
ghost use Rattle.jc_index.specs.Rolls.{KnowsSameItems};

use crate::roll::{Add, Hear, Recall, Roll, RollSeat, Share};
use std::alloc::{AllocError, Global};
use std::mem::replace;

/// The one that adds.
#[derive(Drop)]
pub struct Keeper<T: Drop> {
    roll: Roll<T>,
    pub seat: RollSeat<T>,
    pub ghost seated: { (seat.table_id ≡ roll.shared.table_id) × (0 < seat.table_id.words) },
    pub ghost keeps: { (seat.me.1 ≡ []) × (seat.me.0.keeps ≡ true) },
}

/// It knows a beginning of the list.
#[derive(Drop)]
pub struct Follower<T> {
    pub seat: RollSeat<T>,
    pub ghost empty: { seat.me.1 ≡ [] },
}

impl<T: Drop> Keeper<T> {
    /// The keeper of an empty list.
    pub fn new(alloc: Global) -> Result<Keeper<T>, AllocError>
        ensures { IfOk result (λ k. k.seat.me.0.items ≡ []) }
    {
        let (roll, seat) = Roll::<T>::of_words(alloc, &[0], &())?;
        Ok(Keeper { roll, seat })
    }

    /// One item more, the last.
    pub fn add(&mut self, item: &T)
        ensures same { self.new.seat.table_id ≡ self.old.seat.table_id }
        ensures items { self.new.seat.me.0.items ≡ self.old.seat.me.0.items ++ item.now ∷ [] }
    {
        let roll = &self.roll;
        roll.shared
            .compare_exchange_with::<Add>(&mut self.seat, 0, 0, 0, item);
    }

    /// A follower that knows all of the list.
    pub fn follower(&mut self) -> Follower<T>
        ensures same { KnowsSameItems self.old.seat self.new.seat }
        ensures follower { KnowsSameItems self.old.seat result.seat }
    {
        let roll = &self.roll;
        let seat = roll.shared.split_seat::<Share>(&mut self.seat);
        Follower { seat }
    }

    /// Takes in a follower: what it knows is a beginning of the list.
    pub fn hear(&mut self, follower: Follower<T>)
        requires { follower.seat.table_id ≡ self.old.seat.table_id }
        ensures same { KnowsSameItems self.old.seat self.new.seat }
        ensures seen { IsPrefix follower.seat.me.0.items self.old.seat.me.0.items }
    {
        let Follower { seat } = follower;
        let roll = &self.roll;
        roll.shared.join_seat::<Hear>(&mut self.seat, seat);
        roll.shared.load::<Recall>(&mut self.seat, 0);
    }

    /// The follower knows all of the list from now on. What it knew is a beginning of it.
    pub fn renew(&mut self, follower: &mut Follower<T>)
        requires { follower.old.seat.table_id ≡ self.old.seat.table_id }
        ensures name { self.new.seat.table_id ≡ self.old.seat.table_id }
        ensures same { self.new.seat.me.0.items ≡ self.old.seat.me.0.items }
        ensures table { follower.new.seat.table_id ≡ follower.old.seat.table_id }
        ensures follower { follower.new.seat.me.0.items ≡ self.old.seat.me.0.items }
        ensures seen { IsPrefix follower.old.seat.me.0.items self.old.seat.me.0.items }
    {
        let old = replace(follower, self.follower());
        self.hear(old);
    }
}
