//! Caches in two managers that are asked as one: where names go, and that no half learns of the other's caches.
ghost use Rattle.jc_shards.specs.Naming.{IsUnder};

use jc_hooks::placeholder_hooks;
use jc_index::lookup::Lookup;
use jc_model::call::{Call, Reply};
use jc_model::event::{CacheId, CreateRefusal};
use jc_shards::{Caches, Pair, Shard, ShardMap, Side, Twins, Unasking, create, find, open_two};
use jc_shared::{CallFault, CreateFault, Name, OpenCalls};
use jc_trials::{Trouble, is, key, plain_cache, value_of};
use std::alloc::Global;
use std::marker::Brand;
use std::sync::Wait;

type Half<N> = Unasking<N, OpenCalls>;

/// The seed of the dealing. Under 0 and 1 both of `NAMES` go to one half.
pub const SEED: u64 = 2;

/// A name for each half, the left first. Where names go is told by the `DefaultHasher` of Rust's own std over the seed's
/// eight bytes and the name's: its hash is even or odd.
pub static NAMES: [&str; 2] = ["b", "a"];

/// The caches of the opening, that of the left half first.
static OPENED: [&str; 2] = ["users", "orders"];

/// Whether a cache goes where its name says, is found there alone, and gets the calls that are made on it.
fn lives<A: Name, B: Name, R: Wait>(
    rt: &R,
    alloc: Global,
    (left, right): (&Half<A>, &Half<B>),
    caches: &mut Pair<Shard<'_, A>, Shard<'_, B>>,
    dealing: &ShardMap,
    text: &str,
) -> Result<[bool; 9], Trouble> {
    let (name, x) = (key(text)?, key("x")?);
    let (one, same) = (value_of(alloc, text)?, value_of(alloc, text)?);
    let (config, second) = (plain_cache(alloc, text, 4)?, plain_cache(alloc, text, 4)?);
    let (hooks, none) = (
        placeholder_hooks(alloc, &config)?,
        placeholder_hooks(alloc, &second)?,
    );
    let Ok(id) = create(caches, rt, dealing, config, hooks) else {
        return Err(Trouble::Unexpected);
    };
    let goes_right = dealing.is_right(0, &name);
    let again = create(caches, rt, dealing, second, none);
    Ok([
        matches!(id, Side::Right(_)) == goes_right,
        find(caches, rt, dealing, &name) == Some(id),
        left.cache(rt, &name).is_some() != goes_right,
        right.cache(rt, &name).is_some() == goes_right,
        is(
            again.err().map(|e| e.0),
            Some(CreateFault::Cache(CreateRefusal::DuplicateName)),
        ),
        is(caches.call(rt, id, 0, Call::Put(x, one)), Ok(Reply::Done)),
        is(
            caches.call(rt, id, 0, Call::Get(x)),
            Ok(Reply::Found(Some(same))),
        ),
        caches.contains_key(id, &x, 0) == Lookup::Sure(true),
        caches.contains(rt, id, &x, 0),
    ])
}

/// Whether a cache goes, and its name with it, while another stays.
fn goes<A: Name, B: Name, R: Wait>(
    rt: &R,
    caches: &mut Pair<Shard<'_, A>, Shard<'_, B>>,
    dealing: &ShardMap,
    going: &str,
    staying: &str,
) -> Result<[bool; 5], Trouble> {
    let (name, other, x) = (key(going)?, key(staying)?, key("x")?);
    let Some(id) = find(caches, rt, dealing, &name) else {
        return Err(Trouble::Unexpected);
    };
    Ok([
        caches.destroy(rt, id) == Ok(()),
        find(caches, rt, dealing, &name).is_none(),
        is(
            caches.call(rt, id, 0, Call::Get(x)),
            Err(CallFault::NoSuchCache),
        ),
        find(caches, rt, dealing, &other).is_some(),
        caches.refresh(rt).is_ok(),
    ])
}

/// Whether the caches of the opening are found where they were dealt out to, and nowhere else.
fn are_found<A: Name, B: Name, R: Wait>(
    rt: &R,
    caches: &Pair<Shard<'_, A>, Shard<'_, B>>,
    dealing: &ShardMap,
) -> Result<[bool; 4], Trouble> {
    let (left, right) = (key(OPENED[0])?, key(OPENED[1])?);
    let first = CacheId::new(0);
    Ok([
        find(caches, rt, dealing, &left) == Some(Side::Left(first)),
        find(caches, rt, dealing, &right) == Some(Side::Right(first)),
        caches.left.manager.cache(rt, &right).is_none(),
        caches.right.manager.cache(rt, &left).is_none(),
    ])
}

/// What came of it.
#[derive(Drop)]
struct Seen {
    found: [bool; 4],
    lived: [[bool; 9]; 2],
    gone: [bool; 5],
}

/// What comes of caches that are created, and of one that goes.
fn come<A: Name, B: Name, R: Wait>(
    rt: &R,
    alloc: Global,
    halves: (&Half<A>, &Half<B>),
    caches: &mut Pair<Shard<'_, A>, Shard<'_, B>>,
    dealing: &ShardMap,
) -> Result<([[bool; 9]; 2], [bool; 5]), Trouble> {
    let first = lives(rt, alloc, halves, caches, dealing, NAMES[0])?;
    let second = lives(rt, alloc, halves, caches, dealing, NAMES[1])?;
    let gone = goes(rt, caches, dealing, NAMES[0], NAMES[1])?;
    Ok(([first, second], gone))
}

fn named<A: Name, B: Name, R: Wait>(rt: &R, alloc: Global, twins: Twins) -> Result<Seen, Trouble>
    requires left { IsUnder twins.left A.configs A.stated A.index }
    requires right { IsUnder twins.right B.configs B.stated B.index }
{
    let Twins { left, right } = twins;
    let (left, right) = (left.named::<A>(), right.named::<B>());
    let mut caches = Pair {
        left: Shard::new(rt, &left)?,
        right: Shard::new(rt, &right)?,
    };
    let dealing = ShardMap::by_hash(alloc, SEED);
    let found = are_found(rt, &caches, &dealing)?;
    let (lived, gone) = come(rt, alloc, (&left, &right), &mut caches, &dealing)?;
    Ok(Seen { found, lived, gone })
}

/// The same, under names that this call picks.
fn observe<R: Wait>(rt: &R, alloc: Global, twins: Twins) -> Result<Seen, Trouble> {
    named::<Brand, Brand, R>(rt, alloc, twins)
}

/// Two managers with a cache each.
fn dealt(alloc: Global) -> Result<Twins, Trouble> {
    let mut configs = Vec::new(alloc);
    for text in &OPENED {
        configs.push(plain_cache(alloc, text, 4)?)?;
    }
    match open_two(alloc, &ShardMap::by_hash(alloc, SEED), 0, configs, 7) {
        Ok(twins) => Ok(twins),
        Err(refused) => {
            drop(refused);
            Err(Trouble::Unexpected)
        }
    }
}

#[test]
fn caches_go_to_the_half_of_their_name(rt: HostRuntime) -> Result<(), Trouble> {
    let alloc = rt.alloc();
    let seen = observe(&rt, alloc, dealt(alloc)?)?;
    assert_eq!(rt; seen.found, [true; 4]);
    assert_eq!(rt; seen.lived, [[true; 9]; 2]);
    assert_eq!(rt; seen.gone, [true; 5]);
    Ok(())
}
