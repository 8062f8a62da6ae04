//! A manager of four shards.
ghost use Rattle.std.specs.Prelude.{◌≡◌, None, IfSome, IfOk, IfErr, OnOk};
ghost use Rattle.jc_shards.specs.Dealing.{spread_of};
ghost use Rattle.jc_shards.specs.Seating.{IsUnseated};
ghost use Rattle.jc_shards.specs.Sharded.{four_told_by, AreSeated, IsFirstOpen, IsFirstOpenOfFour, IsFoundInFour, IsMadeInFour, NoneIsOpen};

use crate::ShardMap;
use crate::naming::{create, find};
use crate::opening::Twins;
use crate::pair::Pair;
use crate::quarters::Quarters;
use crate::shard::{Shard, Unasking};
use crate::shard_names::{FirstOf, FourthOf, SecondOf, ShardNames, ThirdOf};
use crate::side::Side;
use crossbeam_utils::CachePadded;
use jc_hooks::PlaceholderHooks;
use jc_model::config::CacheConfig;
use jc_model::event::CacheId;
use jc_model::key::Key;
use jc_shared::{CreateFault, JournalPolicy, Name, OpenCalls, PendingCall, SessionRefusal};
use std::sync::Wait;

/// A cache of a sharded manager: its shard, and its id there.
pub type ShardedId = Side<Side<CacheId, CacheId>, Side<CacheId, CacheId>>;

/// Sessions of two shards.
pub type PairSeat<'a, A, B, J = OpenCalls> = Pair<Shard<'a, A, J>, Shard<'a, B, J>>;

/// A manager of four shards. Each has an engine, a table and a lock of its own, and the caches that the dealing gives it.
/// Threads that ask caches of different shards share nothing: shards lie on different lines of a processor's cache, too.
/// Callbacks are asked of nobody: caches have none, or what is lent to a call answers for them, or its caller does.
#[derive(Drop)]
pub struct ShardedManager<A: Name, B: Name, C: Name, D: Name, J: JournalPolicy = OpenCalls> {
    dealing: ShardMap,
    first: CachePadded<Unasking<A, J>>,
    second: CachePadded<Unasking<B, J>>,
    third: CachePadded<Unasking<C, J>>,
    fourth: CachePadded<Unasking<D, J>>,
}

/// A session of a sharded manager: one of each shard, and the dealing that tells which shard has a cache.
#[derive(Drop)]
pub struct ShardedSession<'a, A: Name, B: Name, C: Name, D: Name, J: JournalPolicy = OpenCalls> {
    dealing: &'a ShardMap,
    pub caches: Pair<PairSeat<'a, A, B, J>, PairSeat<'a, C, D, J>>,
}

/// A sharded manager whose shards have one name.
pub type Sharded<N, J = OpenCalls> = ShardedManager<
    FirstOf<N>,
    SecondOf<N>,
    ThirdOf<N>,
    FourthOf<N>,
    J,
>;

/// Sessions of its shards.
pub type ShardedSeat<'a, N, J = OpenCalls> = ShardedSession<
    'a,
    FirstOf<N>,
    SecondOf<N>,
    ThirdOf<N>,
    FourthOf<N>,
    J,
>;

/// A call by hand that waits in one of its shards.
pub type ShardedCall<N> = Side<
    Side<PendingCall<FirstOf<N>>, PendingCall<SecondOf<N>>>,
    Side<PendingCall<ThirdOf<N>>, PendingCall<FourthOf<N>>>,
>;

impl<J: JournalPolicy> Quarters<J> {
    /// The manager under a name, which tells what each shard has.
    pub fn named<N: ShardNames>(self) -> Sharded<N, J>
        requires { four_told_by self.left.left self.left.right self.right.left self.right.right ≡ N.shards }
        ensures { result.dealing ≡ self.dealing }
    {
        let Quarters {
            dealing,
            left,
            right,
        } = self;
        let Twins {
            left: first,
            right: second,
        } = left;
        let Twins {
            left: third,
            right: fourth,
        } = right;
        ShardedManager {
            dealing,
            first: CachePadded::new(first.named::<FirstOf<N>>()),
            second: CachePadded::new(second.named::<SecondOf<N>>()),
            third: CachePadded::new(third.named::<ThirdOf<N>>()),
            fourth: CachePadded::new(fourth.named::<FourthOf<N>>()),
        }
    }
}

impl<A: Name, B: Name, C: Name, D: Name, J: JournalPolicy> ShardedManager<A, B, C, D, J> {
    /// A new session, of each shard. Where one refuses, as `Manager::session`, its refusal is told.
    pub fn session<R: Wait>(
        &self,
        rt: &R,
    ) -> Result<ShardedSession<'_, A, B, C, D, J>, SessionRefusal>
        ensures left { IfOk result (λ s. AreSeated J.after J.closes A.configs B.configs
            s.caches.left.left.session s.caches.left.right.session) }
        ensures right { IfOk result (λ s. AreSeated J.after J.closes C.configs D.configs
            s.caches.right.left.session s.caches.right.right.session) }
        ensures dealing { IfOk result (λ s. s.dealing.now ≡ self.now.dealing) }
        ensures refused { IfErr result (IsUnseated J.after J.closes) }
    {
        let left = seats(rt, &self.first, &self.second)?;
        let right = seats(rt, &self.third, &self.fourth)?;
        Ok(ShardedSession {
            dealing: &self.dealing,
            caches: Pair { left, right },
        })
    }

    /// Its shards.
    pub fn shards(
        &self,
    ) -> (
        &Unasking<A, J>,
        &Unasking<B, J>,
        &Unasking<C, J>,
        &Unasking<D, J>,
    ) {
        (&self.first, &self.second, &self.third, &self.fourth)
    }

    /// The same by themselves: those that keep all calls are closed one by one.
    pub fn into_shards(
        self,
    ) -> (
        Unasking<A, J>,
        Unasking<B, J>,
        Unasking<C, J>,
        Unasking<D, J>,
    ) {
        let ShardedManager {
            dealing: _,
            first,
            second,
            third,
            fourth,
        } = self;
        (
            first.into_inner(),
            second.into_inner(),
            third.into_inner(),
            fourth.into_inner(),
        )
    }

    /// Lets all shards go, with all that they keep, and compares nothing.
    pub fn discard(self) {
        drop(self);
    }
}

impl<A: Name, B: Name, C: Name, D: Name> ShardedManager<A, B, C, D> {
    /// The first cache whose call is open, if any is, shard by shard. No session borrows the manager now, so no lock is
    /// taken.
    pub fn open_call(&mut self) -> Option<ShardedId>
        ensures none { result ≡ None →
            NoneIsOpen A.configs B.configs × NoneIsOpen C.configs D.configs }
        ensures some { IfSome result (IsFirstOpenOfFour A.configs B.configs C.configs D.configs) }
    {
        if let Some(id) = first_open(&mut self.first, &mut self.second) {
            return Some(Side::Left(id));
        }
        let id = first_open(&mut self.third, &mut self.fourth)?;
        Some(Side::Right(id))
    }

    /// Ends the manager, where no call is open in any shard. Its sessions have ended before, since they borrow it.
    ///
    /// Else the first cache whose call is open is told, and the manager is handed back.
    pub fn end(mut self) -> Result<(), (ShardedId, ShardedManager<A, B, C, D>)>
        ensures ended { OnOk result
            (NoneIsOpen A.configs B.configs × NoneIsOpen C.configs D.configs) }
        ensures open { IfErr result (λ e.
            IsFirstOpenOfFour A.configs B.configs C.configs D.configs e.0) }
    {
        match self.open_call() {
            Some(id) => Err((id, self)),
            None => {
                drop(self);
                Ok(())
            }
        }
    }
}

/// The first cache of two shards whose call is open, if any is.
fn first_open<A: Name, B: Name>(
    left: &mut Unasking<A, OpenCalls>,
    right: &mut Unasking<B, OpenCalls>,
) -> Option<Side<CacheId, CacheId>>
    ensures none { result ≡ None → NoneIsOpen A.configs B.configs }
    ensures some { IfSome result (IsFirstOpen A.configs B.configs) }
{
    if let Some(id) = left.open_call() {
        return Some(Side::Left(id));
    }
    let id = right.open_call()?;
    Some(Side::Right(id))
}

/// A session of each of two shards.
fn seats<'a, A: Name, B: Name, J: JournalPolicy, R: Wait>(
    rt: &R,
    left: &'a Unasking<A, J>,
    right: &'a Unasking<B, J>,
) -> Result<PairSeat<'a, A, B, J>, SessionRefusal>
    ensures new { IfOk result (λ s.
        AreSeated J.after J.closes A.configs B.configs s.left.session s.right.session) }
    ensures refused { IfErr result (IsUnseated J.after J.closes) }
{
    Ok(Pair {
        left: Shard::new(rt, left)?,
        right: Shard::new(rt, right)?,
    })
}

impl<'a, A: Name, B: Name, C: Name, D: Name, J: JournalPolicy> ShardedSession<'a, A, B, C, D, J> {
    /// The live cache with this name.
    pub fn cache<R: Wait>(&self, rt: &R, name: &Key) -> Option<ShardedId>
        ensures { IsFoundInFour A.configs B.configs C.configs D.configs
            (spread_of self.now.dealing.now name.now) name.now result }
    {
        find(&self.caches, rt, self.dealing, name)
    }

    /// Creates a cache with these callbacks, in the shard that the dealing picks for its name. Refused as
    /// `Session::create` there; configuration and callbacks are handed back then.
    pub fn create<R: Wait>(
        &self,
        rt: &R,
        config: CacheConfig,
        hooks: PlaceholderHooks,
    ) -> Result<ShardedId, (CreateFault, CacheConfig, PlaceholderHooks)>
        ensures { IsMadeInFour A.configs B.configs C.configs D.configs
            (spread_of self.now.dealing.now config.name) config hooks result }
    {
        create(&self.caches, rt, self.dealing, config, hooks)
    }
}
