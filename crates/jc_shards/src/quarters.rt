//! Opening four managers, between which caches are dealt out.
ghost use Rattle.std.specs.Prelude.{◌≡◌, IfOk, IfErr};
ghost use Rattle.jc_shards.specs.Dealing.{in_turn, names_of, GoInTurn};
ghost use Rattle.jc_shards.specs.Dealt.{AreHalves, IsHalfRefusal};
ghost use Rattle.jc_shards.specs.Sharded.{AreQuarters, IsQuarterRefusal, unseen};

use crate::ShardMap;
use crate::opening::{HalfRefusal, Twins, open_two};
use jc_model::config::CacheConfig;
use jc_shared::{JournalPolicy, OpenCalls, SharedRefusal};
use std::alloc::Global;

/// Four managers before they have a name, and the dealing by which they have their caches.
#[derive(Drop)]
pub struct Quarters<J: JournalPolicy = OpenCalls> {
    pub dealing: ShardMap,
    pub left: Twins<J>,
    pub right: Twins<J>,
}

/// Why four managers do not open: which half of them is refused, and why.
#[derive(Debug, Drop, PartialEq, Eq)]
pub struct QuarterRefusal {
    pub right: bool,
    pub half: HalfRefusal,
}

/// Want of memory before the caches are looked at.
fn no_memory() -> QuarterRefusal
    ensures { result ≡ unseen }
{
    QuarterRefusal {
        right: false,
        half: HalfRefusal {
            right: false,
            refusal: SharedRefusal::OutOfMemory,
        },
    }
}

/// The two managers of a half.
fn open_pair<J: JournalPolicy>(
    alloc: Global,
    dealing: &ShardMap,
    configs: Vec<CacheConfig>,
    seed: u64,
    right: bool,
) -> Result<Twins<J>, QuarterRefusal>
    ensures dealt { IfOk result (λ twins.
        AreHalves dealing.now 1 configs.items seed twins.left twins.right) }
    ensures half { IfErr result (λ refused. refused.right ≡ right) }
    ensures refused { IfErr result (λ refused. IsHalfRefusal dealing.now 1 configs.items refused.half) }
{
    match open_two(alloc, dealing, 1, configs, seed) {
        Ok(twins) => Ok(twins),
        Err(half) => Err(QuarterRefusal { right, half }),
    }
}

/// Four managers of these caches: the dealing's level 0 tells the half, its level 1 the manager there. The seed picks the
/// places in all tables.
///
/// Refused as `open_two` of the left half, then of the right; memory may be refused before the caches are looked at.
pub fn open_four<J: JournalPolicy>(
    alloc: Global,
    dealing: ShardMap,
    configs: Vec<CacheConfig>,
    seed: u64,
) -> Result<Quarters<J>, QuarterRefusal>
    ensures dealing { IfOk result (λ four. four.dealing ≡ dealing) }
    ensures dealt { IfOk result (λ four. AreQuarters dealing configs.items seed
        four.left.left four.left.right four.right.left four.right.right) }
    ensures refused { IfErr result (IsQuarterRefusal dealing configs.items) }
{
    let Ok((left, right)) = dealing.deal(alloc, 0, configs) else {
        return Err(no_memory());
    };
    let left = open_pair(alloc, &dealing, left, seed, false)?;
    match open_pair(alloc, &dealing, right, seed, true) {
        Ok(right) => Ok(Quarters {
            dealing,
            left,
            right,
        }),
        Err(refused) => {
            drop(left);
            Err(refused)
        }
    }
}

/// The same by the dealing under which these caches go in turn, with this seed: the bits of a cache's number are its
/// spread. So of four that follow each other no two are in one manager, and none has two more than another.
pub fn open_four_in_turn<J: JournalPolicy>(
    alloc: Global,
    configs: Vec<CacheConfig>,
    seed: u64,
) -> Result<Quarters<J>, QuarterRefusal>
    ensures dealing { IfOk result (λ four. four.dealing ≡ in_turn seed configs.items) }
    ensures go { IfOk result (λ four. GoInTurn four.dealing (names_of configs.items)) }
    ensures dealt { IfOk result (λ four. AreQuarters (in_turn seed configs.items) configs.items seed
        four.left.left four.left.right four.right.left four.right.right) }
    ensures refused { IfErr result (IsQuarterRefusal (in_turn seed configs.items) configs.items) }
{
    match ShardMap::in_turn(alloc, seed, configs.as_slice()) {
        Ok(dealing) => open_four(alloc, dealing, configs, seed),
        Err(_) => {
            drop(configs);
            Err(no_memory())
        }
    }
}
