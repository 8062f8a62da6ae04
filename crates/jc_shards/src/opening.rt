//! Opening managers whose callbacks nobody asks, and of which each has some of the caches.
ghost use Rattle.std.specs.Prelude.{◌≡◌, IfOk, IfErr};
ghost use Rattle.jc_hooks.specs.declared.no_hooks.NoHooks.{NoHooks as Silent};
ghost use Rattle.jc_hooks.specs.Suits.{AllSuit};
ghost use Rattle.jc_shards.specs.Dealt.{AreHalves, HasOpened, IsHalfRefusal, IsRefusal};

use crate::ShardMap;
use jc_hooks::{NoHooks, PlaceholderHooks, placeholder_hooks};
use jc_model::OutOfMemory;
use jc_model::config::CacheConfig;
use jc_shared::{JournalPolicy, OpenCalls, Shared, SharedRefusal};
use std::alloc::Global;

/// A manager before it has a name, whose callbacks nobody asks.
pub type Unnamed<J = OpenCalls> = Shared<NoHooks, NoHooks, NoHooks, NoHooks, J>;

/// Two managers before they have names, between which caches are dealt out.
#[derive(Drop)]
pub struct Twins<J: JournalPolicy = OpenCalls> {
    pub left: Unnamed<J>,
    pub right: Unnamed<J>,
}

/// Why two managers do not open: which half is refused, and as what. The refusal counts the caches of that half, in their
/// order.
#[derive(Debug, Drop, PartialEq, Eq)]
pub struct HalfRefusal {
    pub right: bool,
    pub refusal: SharedRefusal,
}

/// Callbacks that suit these configurations.
fn hooks_of(alloc: Global, configs: &[CacheConfig]) -> Result<Vec<PlaceholderHooks>, OutOfMemory>
    ensures { IfOk result (λ hooks. AllSuit (λ (p : Silent). p.wants) configs.now hooks.items) }
{
    let mut hooks = Vec::with_capacity(alloc, configs.len())?;
    for config in configs {
        hooks.push(placeholder_hooks(alloc, config)?)?;
    }
    Ok(hooks)
}

/// A manager of these caches over an empty table. The seed picks the places there.
///
/// Refused as `Caches` and `OutOfMemory`, as `Shared::open`; memory may be refused before the caches are looked at.
pub fn open<J: JournalPolicy>(
    alloc: Global,
    configs: Vec<CacheConfig>,
    seed: u64,
) -> Result<Unnamed<J>, SharedRefusal>
    ensures opened { IfOk result (HasOpened configs.items seed) }
    ensures refused { IfErr result (IsRefusal configs.items) }
{
    match hooks_of(alloc, configs.as_slice()) {
        Ok(hooks) => Shared::open(alloc, configs, hooks, seed),
        Err(_) => {
            drop(configs);
            Err(SharedRefusal::OutOfMemory)
        }
    }
}

/// The same for a half.
fn open_half<J: JournalPolicy>(
    alloc: Global,
    configs: Vec<CacheConfig>,
    seed: u64,
    right: bool,
) -> Result<Unnamed<J>, HalfRefusal>
    ensures opened { IfOk result (HasOpened configs.items seed) }
    ensures half { IfErr result (λ refused. refused.right ≡ right) }
    ensures refused { IfErr result (λ refused. IsRefusal configs.items refused.refusal) }
{
    match open(alloc, configs, seed) {
        Ok(manager) => Ok(manager),
        Err(refusal) => Err(HalfRefusal { right, refusal }),
    }
}

/// Two managers of the caches that the dealing gives each half at this level. The seed picks the places in both tables.
///
/// Refused as `open` of the left half, then of the right; memory may be refused before the caches are looked at.
pub fn open_two<J: JournalPolicy>(
    alloc: Global,
    dealing: &ShardMap,
    level: u32,
    configs: Vec<CacheConfig>,
    seed: u64,
) -> Result<Twins<J>, HalfRefusal>
    ensures dealt { IfOk result (λ twins.
        AreHalves dealing.now level configs.items seed twins.left twins.right) }
    ensures refused { IfErr result (IsHalfRefusal dealing.now level configs.items) }
{
    let Ok((left, right)) = dealing.deal(alloc, level, configs) else {
        return Err(HalfRefusal {
            right: false,
            refusal: SharedRefusal::OutOfMemory,
        });
    };
    let left = open_half(alloc, left, seed, false)?;
    match open_half(alloc, right, seed, true) {
        Ok(right) => Ok(Twins { left, right }),
        Err(refused) => {
            drop(left);
            Err(refused)
        }
    }
}
