//! What stands before the rows, and what it is to a cache.
ghost use Rattle.std.specs.Prelude.{◌≡◌, []};
ghost use Rattle.jc_save.specs.Reading.{policy_at, flags_at, capacity_at, listeners_at, processors_at, settings_at, counters_at};
ghost use Rattle.jc_save.specs.Restoring.{Gives, begun_at, version_at, count_at};

use crate::fault::{Flaw, Stop, flawed};
use crate::fields::{byte_at, flag_at, text_at, u32_at, u64_at};
use crate::limits::{MAGIC, VERSION};
use jc_model::call::Counts;
use jc_model::config::{CacheConfig, Policy};
use jc_model::key::Key;
use jc_model::limits::{MOST_LISTENERS, MOST_PROCESSORS, MOST_ROWS};
use jc_model::list::Sequence;
use std::alloc::Global;

#[tactic(auto, unfolding(crate::specs::Restoring::begun_at))]
pub fn begun_at(bytes: &[u8]) -> Result<&[u8], Stop>
    ensures { Gives (λ rest. rest.now) result (begun_at bytes.now) }
{
    let (first, rest) = text_at(MAGIC.len(), bytes)?;
    if first != MAGIC.as_slice() {
        return Err(flawed(Flaw::NotSaved, bytes));
    }
    Ok(rest)
}

#[tactic(auto, unfolding(crate::specs::Restoring::version_at))]
pub fn version_at(bytes: &[u8]) -> Result<&[u8], Stop>
    ensures { Gives (λ rest. rest.now) result (version_at bytes.now) }
{
    let (version, rest) = byte_at(bytes)?;
    if version != VERSION {
        return Err(flawed(Flaw::OtherVersion, bytes));
    }
    Ok(rest)
}

#[tactic(auto, unfolding(crate::specs::Reading::capacity_at))]
fn capacity_at(bytes: &[u8]) -> Result<(u32, &[u8]), Stop>
    ensures { Gives (λ x. (x.0, x.1.now)) result (capacity_at bytes.now) }
{
    let (capacity, rest) = u32_at(bytes)?;
    if capacity < 1 || capacity > MOST_ROWS {
        return Err(flawed(Flaw::Capacity, bytes));
    }
    Ok((capacity, rest))
}

#[tactic(auto, unfolding(crate::specs::Reading::policy_at))]
fn policy_at(bytes: &[u8]) -> Result<(Policy, &[u8]), Stop>
    ensures { Gives (λ x. (x.0, x.1.now)) result (policy_at bytes.now) }
{
    match bytes {
        [] => Err(flawed(Flaw::Cut, bytes)),
        [0, rest @ ..] => Ok((Policy::Eternal, rest)),
        [1, rest @ ..] => {
            let (duration, rest) = u64_at(rest)?;
            Ok((Policy::Created(duration), rest))
        }
        [2, rest @ ..] => {
            let (duration, rest) = u64_at(rest)?;
            Ok((Policy::Accessed(duration), rest))
        }
        [3, rest @ ..] => {
            let (duration, rest) = u64_at(rest)?;
            Ok((Policy::Modified(duration), rest))
        }
        [4, rest @ ..] => {
            let (duration, rest) = u64_at(rest)?;
            Ok((Policy::Touched(duration), rest))
        }
        [_, ..] => Err(flawed(Flaw::Policy, bytes)),
    }
}

#[tactic(auto, unfolding(crate::specs::Reading::listeners_at))]
fn listeners_at(bytes: &[u8]) -> Result<(u8, &[u8]), Stop>
    ensures { Gives (λ x. (x.0, x.1.now)) result (listeners_at bytes.now) }
{
    let (listeners, rest) = byte_at(bytes)?;
    if listeners > MOST_LISTENERS {
        return Err(flawed(Flaw::Listeners, bytes));
    }
    Ok((listeners, rest))
}

fn flags_at(alloc: Global, count: u8, bytes: &[u8]) -> Result<(Vec<bool>, &[u8]), Stop>
    ensures { Gives (λ x. (x.0.items, x.1.now)) result (flags_at [] count bytes.now) }
{
    let mut flags = Vec::new(alloc);
    let mut rest = bytes;
    for _ in 0..count {
        let (wants, after) = flag_at(rest)?;
        flags.push(wants)?;
        rest = after;
    }
    Ok((flags, rest))
}

#[tactic(auto, unfolding(crate::specs::Reading::processors_at))]
fn processors_at(alloc: Global, bytes: &[u8]) -> Result<(Vec<bool>, &[u8]), Stop>
    ensures { Gives (λ x. (x.0.items, x.1.now)) result (processors_at bytes.now) }
{
    let (count, rest) = byte_at(bytes)?;
    if count as usize > MOST_PROCESSORS {
        return Err(flawed(Flaw::Processors, bytes));
    }
    flags_at(alloc, count, rest)
}

/// The configuration of this name.
#[tactic(auto, unfolding(crate::specs::Reading::settings_at))]
pub fn settings_at(alloc: Global, name: Key, bytes: &[u8]) -> Result<(CacheConfig, &[u8]), Stop>
    ensures { Gives (λ x. (x.0, x.1.now)) result (settings_at name bytes.now) }
{
    let (capacity, rest) = capacity_at(bytes)?;
    let (policy, rest) = policy_at(rest)?;
    let (loader, rest) = flag_at(rest)?;
    let (writer, rest) = flag_at(rest)?;
    let (listeners, rest) = listeners_at(rest)?;
    let (processors, rest) = processors_at(alloc, rest)?;
    let config = CacheConfig {
        name,
        capacity,
        policy,
        loader,
        writer,
        processors: Sequence::new(processors),
        listeners,
    };
    Ok((config, rest))
}

#[tactic(auto, unfolding(crate::specs::Reading::counters_at))]
pub fn counters_at(bytes: &[u8]) -> Result<(Counts, &[u8]), Stop>
    ensures { Gives (λ x. (x.0, x.1.now)) result (counters_at bytes.now) }
{
    let (hits, rest) = u64_at(bytes)?;
    let (misses, rest) = u64_at(rest)?;
    let (puts, rest) = u64_at(rest)?;
    let (removals, rest) = u64_at(rest)?;
    let (evictions, rest) = u64_at(rest)?;
    let counts = Counts {
        hits,
        misses,
        puts,
        removals,
        evictions,
    };
    Ok((counts, rest))
}

/// How many rows there are.
#[tactic(auto, unfolding(crate::specs::Restoring::count_at))]
pub fn count_at(capacity: u32, bytes: &[u8]) -> Result<(u32, &[u8]), Stop>
    ensures { Gives (λ x. (x.0, x.1.now)) result (count_at capacity bytes.now) }
{
    let (count, rest) = u32_at(bytes)?;
    if count > capacity {
        return Err(flawed(Flaw::Rows, bytes));
    }
    Ok((count, rest))
}
