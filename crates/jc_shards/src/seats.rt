//! From which managers threads take their sessions.
ghost use Rattle.std.specs.Prelude.{IfOk, IfErr};

use crate::caches::Caches;
use crate::pair::Pair;
use crate::shard::{Shard, Unasking};
use crate::side::Side;
use jc_model::event::CacheId;
use jc_shared::{JournalPolicy, Name, SessionRefusal};
use std::sync::Wait;

/// One manager, or several, from which each thread takes a seat.
pub trait Seats {
    ghost use Rattle.jc_locked.specs.declared.fault.SessionRefusal.{SessionRefusal as Refused};

    /// Names a cache among them.
    type Id: Copy + Send + Sync;

    /// A session, or one of each manager.
    type Seat: Caches<Id = Self::Id> + Drop + Send;

    /// Of a new seat.
    ghost IsNew: { Self.Seat → Type 0 };

    /// Of what refuses one.
    ghost Refuses: { Refused → Type 0 };

    /// A new seat, as `Manager::session` of each manager. Where one refuses, its refusal is told.
    fn seat<R: Wait>(&self, rt: &R) -> Result<Self::Seat, SessionRefusal>
        ensures new { IfOk result IsNew }
        ensures refused { IfErr result Refuses };
}

/// One manager, whatever it keeps of its calls.
#[derive(Drop)]
pub struct One<'a, N: Name, J: JournalPolicy> {
    pub manager: &'a Unasking<N, J>,
}

impl<'a, N: Name + Send + Sync, J: JournalPolicy + Send> Seats for One<'a, N, J>
where
    J::Own: Send,
{
    ghost use Rattle.jc_shards.specs.Seating.{IsSeated, IsUnseated};

    type Id = CacheId;

    type Seat = Shard<'a, N, J>;

    ghost IsNew = { λ seat. IsSeated J.after J.closes N.configs seat.session };

    ghost Refuses = { IsUnseated J.after J.closes };

    fn seat<R: Wait>(&self, rt: &R) -> Result<Shard<'a, N, J>, SessionRefusal> {
        Shard::new(rt, self.manager)
    }
}

/// Two of them, between which the caches are dealt out.
#[derive(Drop)]
pub struct Both<'a, A, B> {
    pub left: &'a A,
    pub right: &'a B,
}

impl<'a, A: Seats, B: Seats> Seats for Both<'a, A, B> {
    ghost use Rattle.jc_shards.specs.Seating.{IsSeatedInBoth, IsUnseatedInOne};

    type Id = Side<A::Id, B::Id>;

    type Seat = Pair<A::Seat, B::Seat>;

    ghost IsNew = { IsSeatedInBoth A.IsNew B.IsNew };

    ghost Refuses = { IsUnseatedInOne A.Refuses B.Refuses };

    fn seat<R: Wait>(&self, rt: &R) -> Result<Pair<A::Seat, B::Seat>, SessionRefusal> {
        Ok(Pair {
            left: self.left.seat(rt)?,
            right: self.right.seat(rt)?,
        })
    }
}
