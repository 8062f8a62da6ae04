//! A manager of four shards: where its caches are, that all its sessions find them there, and its end.
ghost use Rattle.std.specs.Prelude.{◌≡◌};
ghost use Rattle.jc_shards.specs.Sharded.{four_told_by};

use crate::shards::SEED;
use jc_hooks::placeholder_hooks;
use jc_model::call::{Call, Reply};
use jc_model::event::CreateRefusal;
use jc_shards::{
    Caches, Quarters, ShardNames, Sharded, ShardedId, ShardedSeat, Side, open_four_in_turn,
};
use jc_shared::CreateFault;
use jc_trials::{Trouble, is, key, plain_cache, value_of};
use std::alloc::Global;
use std::marker::Brand;
use std::sync::Wait;

/// A name for each shard, in their order, as told by the `DefaultHasher` of Rust's own std over the seed's eight bytes
/// and the name's: the lowest bit of its hash tells the half, the next one the shard there.
static NAMES: [&str; 4] = ["g", "b", "a", "f"];

/// Caches of the opening, which go in turn: the first to the left half, the second to the right one.
static OPENED: [&str; 2] = ["users", "orders"];

/// The number of a cache's shard.
fn shard_of(id: ShardedId) -> u8 {
    match id {
        Side::Left(Side::Left(_)) => 0,
        Side::Left(Side::Right(_)) => 1,
        Side::Right(Side::Left(_)) => 2,
        Side::Right(Side::Right(_)) => 3,
    }
}

/// A cache that a session creates, and whether its name is refused a second time.
fn created<N: ShardNames, R: Wait>(
    rt: &R,
    alloc: Global,
    session: &ShardedSeat<'_, N>,
    text: &str,
) -> Result<(ShardedId, bool), Trouble> {
    let (config, second) = (plain_cache(alloc, text, 4)?, plain_cache(alloc, text, 4)?);
    let (hooks, none) = (
        placeholder_hooks(alloc, &config)?,
        placeholder_hooks(alloc, &second)?,
    );
    let Ok(id) = session.create(rt, config, hooks) else {
        return Err(Trouble::Unexpected);
    };
    let again = session.create(rt, second, none);
    let refused = is(
        again.err().map(|e| e.0),
        Some(CreateFault::Cache(CreateRefusal::DuplicateName)),
    );
    Ok((id, refused))
}

/// Whether another session than the one that created a cache finds it, and a row that was put there.
fn is_met<N: ShardNames, R: Wait>(
    rt: &R,
    alloc: Global,
    session: &mut ShardedSeat<'_, N>,
    other: &mut ShardedSeat<'_, N>,
    id: ShardedId,
    text: &str,
) -> Result<[bool; 3], Trouble> {
    let (name, x) = (key(text)?, key("x")?);
    let (one, same) = (value_of(alloc, text)?, value_of(alloc, text)?);
    Ok([
        other.cache(rt, &name) == Some(id),
        is(
            session.caches.call(rt, id, 0, Call::Put(x, one)),
            Ok(Reply::Done),
        ),
        is(
            other.caches.call(rt, id, 0, Call::Get(x)),
            Ok(Reply::Found(Some(same))),
        ),
    ])
}

/// What came of it.
#[derive(Drop)]
struct Seen {
    /// The shards of the opening's caches.
    opened: [Option<u8>; 2],
    /// Those of the caches that were created.
    shards: [u8; 4],
    refused: [bool; 4],
    met: [[bool; 3]; 4],
    ended: bool,
}

/// The shard of a cache of the opening.
fn opened<N: ShardNames, R: Wait>(
    rt: &R,
    session: &ShardedSeat<'_, N>,
    text: &str,
) -> Result<Option<u8>, Trouble> {
    Ok(session.cache(rt, &key(text)?).map(shard_of))
}

/// What comes of the opening's caches, and of one for each shard.
fn come<N: ShardNames, R: Wait>(
    rt: &R,
    alloc: Global,
    manager: &Sharded<N>,
    seen: &mut Seen,
) -> Result<(), Trouble> {
    let mut session = manager.session(rt)?;
    let mut other = manager.session(rt)?;
    seen.opened = [
        opened(rt, &other, OPENED[0])?,
        opened(rt, &other, OPENED[1])?,
    ];
    for (place, text) in NAMES.iter().enumerate() {
        let (id, refused) = created(rt, alloc, &session, text)?;
        seen.shards[place] = shard_of(id);
        seen.refused[place] = refused;
        seen.met[place] = is_met(rt, alloc, &mut session, &mut other, id, text)?;
    }
    Ok(())
}

fn named<N: ShardNames, R: Wait>(rt: &R, alloc: Global, quarters: Quarters) -> Result<Seen, Trouble>
    requires { four_told_by quarters.left.left quarters.left.right quarters.right.left
        quarters.right.right ≡ N.shards }
{
    let manager = quarters.named::<N>();
    let mut seen = Seen {
        opened: [None; 2],
        shards: [9; 4],
        refused: [false; 4],
        met: [[false; 3]; 4],
        ended: false,
    };
    come(rt, alloc, &manager, &mut seen)?;
    seen.ended = manager.end().is_ok();
    Ok(seen)
}

/// The same, under a name that this call picks.
fn observe<R: Wait>(rt: &R, alloc: Global, quarters: Quarters) -> Result<Seen, Trouble> {
    named::<Brand, R>(rt, alloc, quarters)
}

/// Four managers, between which two caches go in turn.
fn dealt(alloc: Global) -> Result<Quarters, Trouble> {
    let mut configs = Vec::new(alloc);
    for text in &OPENED {
        configs.push(plain_cache(alloc, text, 4)?)?;
    }
    match open_four_in_turn(alloc, configs, SEED) {
        Ok(quarters) => Ok(quarters),
        Err(refused) => {
            drop(refused);
            Err(Trouble::Unexpected)
        }
    }
}

#[test]
fn a_sharded_manager_has_its_caches_where_they_are_dealt(rt: HostRuntime) -> Result<(), Trouble> {
    let alloc = rt.alloc();
    let seen = observe(&rt, alloc, dealt(alloc)?)?;
    assert_eq!(rt; seen.opened, [Some(0), Some(2)]);
    assert_eq!(rt; seen.shards, [0, 1, 2, 3]);
    assert_eq!(rt; seen.refused, [true; 4]);
    assert_eq!(rt; seen.met, [[true; 3]; 4]);
    assert!(rt; seen.ended);
    Ok(())
}
