//! Lists in three equal copies, in room that was made before any change.
ghost use Rattle.std.specs.Prelude.{◌≡◌, ◌+◌, ◌<◌, ◌∷◌, ◌++◌, [], IfOk};

use jc_model::OutOfMemory;
use jc_model::list::Sequence;
use jc_model::owners::Owners;
use std::alloc::Global;
use std::marker::Model;

/// Three equal lists; contracts see one, and how many items more there is room for.
#[derive(Drop)]
pub struct Lists<T> {
    first: Vec<T>,
    second: Vec<T>,
    third: Vec<T>,
}

impl<T> Model for Lists<T> {
    ghost use Rattle.std.specs.Prelude.{◌≡◌, ◌-◌, min};
    ghost use Rattle.std.specs.Vec.{vec_len, vec_capacity};
    ghost use Rattle.jc_bulk.specs.Listing.{Listing};

    ghost Value = { Listing T };

    ghost view = { λ l. record {
      items = l.first.items;
      spare = min (vec_capacity l.first) (min (vec_capacity l.second) (vec_capacity l.third))
          - vec_len l.first;
    } };

    ghost invariant = { λ l. (l.second.items ≡ l.first.items) × (l.third.items ≡ l.first.items) };
}

impl<T> Lists<T> {
    /// Empty lists, with room for so many items.
    pub fn with_room(alloc: Global, room: usize) -> Result<Lists<T>, OutOfMemory>
    where
        T: Drop,
        ensures items { IfOk result (λ lists. lists.items ≡ []) }
        ensures room { IfOk result (λ lists. lists.spare ≡ room) }
    {
        Ok(Lists {
            first: Vec::with_capacity(alloc, room)?,
            second: Vec::with_capacity(alloc, room)?,
            third: Vec::with_capacity(alloc, room)?,
        })
    }

    /// Adds an item. It needs room, and takes no memory.
    pub fn push(&mut self, item: Owners<T>)
        requires { 0 < self.old.spare }
        ensures items { self.new.items ≡ self.old.items ++ item ∷ [] }
        ensures spare { self.new.spare + 1 ≡ self.old.spare }
    {
        let (first, second, third) = item.into_three();
        self.first.push_reserved(first);
        self.second.push_reserved(second);
        self.third.push_reserved(third);
    }

    /// The lists.
    pub fn into_lists(self) -> Owners<Sequence<T>>
        ensures { result ≡ self.items }
    {
        Owners::new(
            Sequence::new(self.first),
            Sequence::new(self.second),
            Sequence::new(self.third),
        )
    }
}
