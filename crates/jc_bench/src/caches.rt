//! The caches that are measured: how they come to be, and what they are filled with.
use crate::fault::Fault;
use crate::words::{Managers, Size};
use jc_hooks::placeholder_hooks;
use jc_model::call::Call;
use jc_model::config::CacheConfig;
use jc_model::key::Key;
use jc_model::value::Value;
use jc_shards::{Caches, ShardMap, create, find};
use std::alloc::Global;
use std::sync::Wait;

/// Places rows in all tables.
pub const SEED: u64 = 0;

/// The most rows that all caches may have together.
const CAPACITY: u32 = 262_144;

/// The most rows that one of them may have.
const MOST_ROWS: u32 = 65_536;

/// Keys of cache 0 that share two buckets of every table under the seed 0: four of them go to the stash.
static STASHED: [&str; 12] = [
    "bP5kS", "cYyR2", "d1Qv5", "ef1SR", "eFMcF", "e7o-u", "gHQDS", "g_bBW", "hZvvs", "h7I9Z",
    "iBYmx", "iXlqW",
];

/// The front of the caches' names.
const CACHE: &str = "cache";

/// Caches one behind the other, by number.
#[derive(Clone, Copy)]
pub struct Span {
    pub first: u32,
    pub count: u32,
}

/// A cache with this name, of which no one asks a callback: all that is asked for is there.
fn config_of(alloc: Global, name: Key, capacity: u32, size: Size) -> CacheConfig {
    let config = CacheConfig::new(alloc, name, capacity);
    if size.read_through {
        config.read_through()
    } else {
        config
    }
}

/// The caches of a run over these managers.
fn all_configs(alloc: Global, size: Size, managers: Managers) -> Result<Vec<CacheConfig>, Fault> {
    let most = managers.most(size.caches);
    let capacity = MOST_ROWS.min(CAPACITY / most.max(1));
    let names = numbered_keys(alloc, CACHE, size.caches)?;
    let mut configs = Vec::with_capacity(alloc, names.len())?;
    for name in &names {
        configs.push(config_of(alloc, *name, capacity, size))?;
    }
    Ok(configs)
}

/// The dealing by which they go in turn.
pub fn dealing_of(alloc: Global, size: Size, managers: Managers) -> Result<ShardMap, Fault> {
    let configs = all_configs(alloc, size, managers)?;
    Ok(ShardMap::in_turn(alloc, SEED, configs.as_slice())?)
}

/// Those that are there from the opening.
pub fn opening(alloc: Global, size: Size, managers: Managers) -> Result<Vec<CacheConfig>, Fault> {
    if size.created {
        return Ok(Vec::new(alloc));
    }
    all_configs(alloc, size, managers)
}

/// Creates them where the dealing has them.
pub fn create_all<C: Caches, R: Wait>(
    rt: &R,
    alloc: Global,
    seat: &C,
    dealing: &ShardMap,
    (size, managers): (Size, Managers),
) -> Result<(), Fault> {
    for config in all_configs(alloc, size, managers)? {
        let hooks = placeholder_hooks(alloc, &config)?;
        if let Err(refused) = create(seat, rt, dealing, config, hooks) {
            drop(refused);
            return Err(Fault::Refused);
        }
    }
    Ok(())
}

/// The key with this front and number.
fn numbered_key(alloc: Global, front: &str, number: u32) -> Result<Key, Fault> {
    let text = format!(in alloc; "{front}-{number:06}")?;
    Ok(Key::from_text(text.as_str())?)
}

/// The keys with this front and the numbers from 0 on.
pub fn numbered_keys(alloc: Global, front: &str, count: u32) -> Result<Vec<Key>, Fault> {
    let mut keys = Vec::with_capacity(alloc, count as usize)?;
    for number in 0..count {
        keys.push(numbered_key(alloc, front, number)?)?;
    }
    Ok(keys)
}

/// Puts a value of one byte.
pub fn put<C: Caches, R: Wait>(
    rt: &R,
    alloc: Global,
    seat: &mut C,
    cache: C::Id,
    key: &Key,
) -> Result<(), Fault> {
    let value = Value::new(alloc, b"v".to_vec(alloc)?)?;
    drop(seat.call(rt, cache, 0, Call::Put(*key, value))?);
    Ok(())
}

/// The ids of these caches.
pub fn ids_of<C: Caches, R: Wait>(
    rt: &R,
    alloc: Global,
    seat: &C,
    dealing: &ShardMap,
    caches: Span,
) -> Result<Vec<C::Id>, Fault> {
    let mut ids = Vec::with_capacity(alloc, caches.count as usize)?;
    for place in 0..caches.count {
        let number = caches.first.wrapping_add(place);
        let name = numbered_key(alloc, CACHE, number)?;
        let Some(id) = find(seat, rt, dealing, &name) else {
            return Err(Fault::Refused);
        };
        ids.push(id)?;
    }
    Ok(ids)
}

/// Puts the rows that a run begins with.
pub fn fill<C: Caches, R: Wait>(
    rt: &R,
    alloc: Global,
    seat: &mut C,
    caches: &[C::Id],
    size: Size,
) -> Result<(), Fault> {
    if let (true, [first, ..]) = (size.stashed, caches) {
        for text in &STASHED {
            let key = Key::from_text(text)?;
            put(rt, alloc, seat, *first, &key)?;
        }
    }
    let keys = numbered_keys(alloc, "key", size.rows)?;
    for cache in caches {
        for key in &keys {
            put(rt, alloc, seat, *cache, key)?;
        }
    }
    Ok(())
}
