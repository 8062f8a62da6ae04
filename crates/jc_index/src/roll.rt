//! A list that exists in proofs alone: the rule of a table whose one word says nothing. One seat keeps the list, and
//! the others know a beginning of it.
use atomic_table::{Join, Play, Seat, Split, Table, TableRule};
use std::alloc::Global;
use std::collections::LinkedList;

/// What a seat knows. No value of it is made.
pub struct Known<T> {
    pub keeps: bool,
    pub items: LinkedList<T>,
    /// The items of a seat that was joined.
    pub told: LinkedList<T>,
}

/// A seat at the roll: the keeper's or a follower's.
pub type RollSeat<T> = Seat<T, Known<T>>;

/// The rule of the roll: only the keeper adds, and only at the end, so a beginning once known stays one.
pub struct Growing;

impl<T> TableRule<T, Known<T>, ()> for Growing {
    ghost use Rattle.jc_index.specs.Rolls.{RollRule, first_known};

    ghost holds = { λ _. RollRule };

    ghost first = { λ _. first_known };
}

/// The roll's table. Its one word says nothing: the table is there for its seats alone.
pub type Roll<T> = Table<T, Known<T>, (), Growing, Global>;

pub(crate) struct Add;

impl<T> Play<T, Known<T>> for Add {
    ghost use Rattle.jc_index.specs.Rolls.{AddStep};

    ghost then = { AddStep };
}

pub(crate) struct Recall;

impl<T> Play<T, Known<T>> for Recall {
    ghost use Rattle.jc_index.specs.Rolls.{RecallItemsStep};

    ghost then = { RecallItemsStep };
}

pub(crate) struct Share;

impl<T> Split<Known<T>> for Share {
    ghost use Rattle.jc_index.specs.Rolls.{follower_known};

    ghost left = { λ v. v };

    ghost right = { follower_known };
}

pub(crate) struct Hear;

impl<T> Join<Known<T>> for Hear {
    ghost use Rattle.jc_index.specs.Rolls.{joined_known, nobody_known};

    ghost both = { joined_known };

    ghost spent = { nobody_known };
}
