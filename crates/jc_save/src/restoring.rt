//! A saved cache out of its bytes.
ghost use Rattle.std.specs.Prelude.{◌≡◌, IfOk, Ok};
ghost use Rattle.jc_model.specs.declared.config.CacheConfig.{CacheConfig};
ghost use Rattle.jc_model.specs.State.{State};
ghost use Rattle.jc_save.specs.Spelling.{saved};
ghost use Rattle.jc_save.specs.Savable.{IsSavable, IsRestored};
ghost use Rattle.jc_save.specs.Restoring.{Gives, Restores, body_at, cache_at, restored, cache_of, state_of};

use crate::cache::SavedCache;
use crate::fault::{Flaw, SaveFault, Stop, flawed};
use crate::head::{begun_at, count_at, counters_at, settings_at, version_at};
use crate::limits::SAVED_BYTES;
use crate::rows::rows_at;
use jc_model::key::Key;
use jc_model::list::Sequence;
use std::alloc::Global;

#[tactic(auto, unfolding(crate::specs::Restoring::body_at))]
fn body_at(alloc: Global, name: Key, bytes: &[u8]) -> Result<(SavedCache, &[u8]), Stop>
    ensures { Gives (λ x. (cache_of x.0, x.1.now)) result (body_at name bytes.now) }
{
    let (config, rest) = match settings_at(alloc, name, bytes) {
        Ok(read) => read,
        Err(stop) => return Err(stop),
    };
    let (counts, rest) = counters_at(rest)?;
    let (count, rest) = count_at(config.capacity, rest)?;
    let (rows, rest) = match rows_at(alloc, count, rest) {
        Ok(read) => read,
        Err(stop) => return Err(stop),
    };
    let cache = SavedCache {
        config,
        counts,
        rows: Sequence::new(rows),
    };
    Ok((cache, rest))
}

#[tactic(auto, unfolding(crate::specs::Restoring::cache_at))]
fn cache_at(alloc: Global, name: Key, bytes: &[u8]) -> Result<SavedCache, Stop>
    ensures { Gives cache_of result (cache_at name bytes.now) }
{
    let rest = begun_at(bytes)?;
    let rest = version_at(rest)?;
    let (cache, rest) = match body_at(alloc, name, rest) {
        Ok(read) => read,
        Err(stop) => return Err(stop),
    };
    if !rest.is_empty() {
        return Err(flawed(Flaw::Trailing, rest));
    }
    Ok(cache)
}

#[tactic(auto, unfolding(crate::specs::Restoring::restored))]
fn restored(alloc: Global, name: Key, bytes: &[u8]) -> Result<SavedCache, SaveFault>
    ensures { Restores cache_of result (restored name bytes.now) }
{
    if bytes.len() > SAVED_BYTES {
        return Err(SaveFault::Damaged {
            flaw: Flaw::TooLong,
            place: SAVED_BYTES,
        });
    }
    match cache_at(alloc, name, bytes) {
        Ok(cache) => Ok(cache),
        Err(Stop::Memory) => Err(SaveFault::OutOfMemory),
        Err(Stop::Flawed(found)) => Err(SaveFault::Damaged {
            flaw: found.flaw,
            place: bytes.len().saturating_sub(found.left),
        }),
    }
}

/// The cache of this name that these bytes are. They are read from left to right, and the first flaw is told with its
/// place; memory is taken for what was read, and never for what the bytes merely claim.
pub fn restore(alloc: Global, name: Key, bytes: &[u8]) -> Result<SavedCache, SaveFault>
    // Bytes that are read are what saving their cache gives, and it keeps all limits.
    ensures found { IfOk result (λ v. IsRestored name bytes.now v.config (state_of v)) }
    // What was saved is read back.
    ensures only { (c : CacheConfig) (s : State) → IsSavable c s → c.name ≡ name → bytes.now ≡ saved c s
        → Restores cache_of result (Ok (c, s)) }
    // Anything else is refused with its first flaw.
    ensures exact { Restores cache_of result (restored name bytes.now) }
{
    restored(alloc, name, bytes)
}
