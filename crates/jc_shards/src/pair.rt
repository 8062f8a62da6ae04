//! Two halves, each with caches of its own.
ghost use Rattle.std.specs.Prelude.{◌≡◌};
ghost use Rattle.jc_shards.specs.Halves.{first_error, IsMadeInHalf};
ghost use Rattle.jc_shards.specs.Dealing.{goes_right};

use crate::caches::{Caches, LentCalls};
use crate::side::Side;
use jc_hooks::{PlaceholderHooks, Responder};
use jc_index::lookup::Lookup;
use jc_model::OutOfMemory;
use jc_model::call::{Call, Reply};
use jc_model::config::CacheConfig;
use jc_model::key::Key;
use jc_shared::{CallFault, CreateFault, DestroyFault};
use std::sync::Wait;

/// Two halves. What is asked of a cache goes to its half and leaves the other as it is. A half may be a pair again.
#[derive(Drop)]
pub struct Pair<A, B> {
    pub left: A,
    pub right: B,
}

/// Whether a name of this spread belongs to the right half.
fn goes_right(spread: u32) -> bool
    ensures { result ≡ goes_right spread }
{
    spread % 2 == 1
}

/// Done where both are.
fn both(left: Result<(), OutOfMemory>, right: Result<(), OutOfMemory>) -> Result<(), OutOfMemory>
    ensures { result ≡ first_error left right }
{
    left?;
    right
}

impl<A: Caches, B: Caches> Caches for Pair<A, B> {
    ghost use Rattle.jc_shards.specs.Halves.{InHalf, InBoth, IsFoundInHalf, IsMadeInHalf};

    type Id = Side<A::Id, B::Id>;

    ghost Calls = { λ old new id now call result. InHalf (λ a b it. A.Calls a b it now call result) (λ a b it. B.Calls a b it now call result) old new id };

    ghost LooksUp = { λ old new id key now result. InHalf (λ a b it. A.LooksUp a b it key now result) (λ a b it. B.LooksUp a b it key now result) old new id };

    ghost Holds = { λ old new id key now result. InHalf (λ a b it. A.Holds a b it key now result) (λ a b it. B.Holds a b it key now result) old new id };

    ghost Refreshes = { λ old new result. InBoth A.Refreshes B.Refreshes old new result };

    ghost Finds = { λ spread name result. IsFoundInHalf (λ rest it. A.Finds rest name it) (λ rest it. B.Finds rest name it) spread result };

    ghost Creates = { λ spread config hooks result. IsMadeInHalf (λ rest it. A.Creates rest config hooks it) (λ rest it. B.Creates rest config hooks it) spread result };

    ghost Destroys = { λ old new id result. InHalf (λ a b it. A.Destroys a b it result) (λ a b it. B.Destroys a b it result) old new id };

    fn call<R: Wait>(
        &mut self,
        rt: &R,
        id: Side<A::Id, B::Id>,
        now: u64,
        call: Call,
    ) -> Result<Reply, CallFault> {
        match id {
            Side::Left(id) => self.left.call(rt, id, now, call),
            Side::Right(id) => self.right.call(rt, id, now, call),
        }
    }

    fn contains_key(&mut self, id: Side<A::Id, B::Id>, key: &Key, now: u64) -> Lookup {
        match id {
            Side::Left(id) => self.left.contains_key(id, key, now),
            Side::Right(id) => self.right.contains_key(id, key, now),
        }
    }

    fn contains<R: Wait>(&mut self, rt: &R, id: Side<A::Id, B::Id>, key: &Key, now: u64) -> bool {
        match id {
            Side::Left(id) => self.left.contains(rt, id, key, now),
            Side::Right(id) => self.right.contains(rt, id, key, now),
        }
    }

    fn refresh<R: Wait>(&mut self, rt: &R) -> Result<(), OutOfMemory> {
        let left = self.left.refresh(rt);
        let right = self.right.refresh(rt);
        both(left, right)
    }

    fn find_by<R: Wait>(&self, rt: &R, spread: u32, name: &Key) -> Option<Side<A::Id, B::Id>> {
        if goes_right(spread) {
            let id = self.right.find_by(rt, spread / 2, name)?;
            return Some(Side::Right(id));
        }
        let id = self.left.find_by(rt, spread / 2, name)?;
        Some(Side::Left(id))
    }

    fn create_by<R: Wait>(
        &self,
        rt: &R,
        spread: u32,
        config: CacheConfig,
        hooks: PlaceholderHooks,
    ) -> Result<Side<A::Id, B::Id>, (CreateFault, CacheConfig, PlaceholderHooks)>
        ensures { IsMadeInHalf (λ rest it. A.Creates rest config hooks it)
            (λ rest it. B.Creates rest config hooks it) spread result }
    {
        if goes_right(spread) {
            return match self.right.create_by(rt, spread / 2, config, hooks) {
                Ok(id) => Ok(Side::Right(id)),
                Err(refused) => Err(refused),
            };
        }
        match self.left.create_by(rt, spread / 2, config, hooks) {
            Ok(id) => Ok(Side::Left(id)),
            Err(refused) => Err(refused),
        }
    }

    fn destroy<R: Wait>(&mut self, rt: &R, id: Side<A::Id, B::Id>) -> Result<(), DestroyFault> {
        match id {
            Side::Left(id) => self.left.destroy(rt, id),
            Side::Right(id) => self.right.destroy(rt, id),
        }
    }
}

impl<A: LentCalls, B: LentCalls> LentCalls for Pair<A, B> {
    ghost use Rattle.jc_shards.specs.Halves.{InHalf};

    ghost CallsBy = { λ old new id now call result. InHalf (λ a b it. A.CallsBy a b it now call result) (λ a b it. B.CallsBy a b it now call result) old new id };

    fn call_by<R: Wait, S: Responder>(
        &mut self,
        rt: &R,
        id: Side<A::Id, B::Id>,
        now: u64,
        call: Call,
        responder: &mut S,
    ) -> Result<Reply, CallFault> {
        match id {
            Side::Left(id) => self.left.call_by(rt, id, now, call, responder),
            Side::Right(id) => self.right.call_by(rt, id, now, call, responder),
        }
    }
}
