//! Where a cache goes by its name.
ghost use Rattle.jc_shards.specs.Dealing.{spread_of};

use crate::ShardMap;
use crate::caches::Caches;
use jc_hooks::PlaceholderHooks;
use jc_model::config::CacheConfig;
use jc_model::key::Key;
use jc_shared::CreateFault;
use std::sync::Wait;

/// The live cache with this name, in the manager that the dealing picks for it. One that was created or opened under
/// another dealing may stand elsewhere.
pub fn find<C: Caches, R: Wait>(caches: &C, rt: &R, dealing: &ShardMap, name: &Key) -> Option<C::Id>
    ensures { C.Finds (spread_of dealing.now name.now) name.now result }
{
    caches.find_by(rt, dealing.spread_of(name), name)
}

/// Creates a cache with these callbacks, in the manager that the dealing picks for its name. Refused as
/// `Session::create` there; configuration and callbacks are handed back then. No two managers have caches of one name
/// where each was created so under this same dealing, or dealt out by its `deal` and opened.
pub fn create<C: Caches, R: Wait>(
    caches: &C,
    rt: &R,
    dealing: &ShardMap,
    config: CacheConfig,
    hooks: PlaceholderHooks,
) -> Result<C::Id, (CreateFault, CacheConfig, PlaceholderHooks)>
    ensures { C.Creates (spread_of dealing.now config.name) config hooks result }
{
    let spread = dealing.spread_of(&config.name);
    caches.create_by(rt, spread, config, hooks)
}
