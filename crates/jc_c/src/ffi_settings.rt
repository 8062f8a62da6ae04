//! What a cache is created with.
ghost use Rattle.std.specs.Prelude.{◌≡◌, IfOk, map, IfErr};
ghost use Rattle.jc_save.specs.Spelling.{flag};
ghost use Rattle.jc_c.specs.Asked.{bound_told, duration_of, policy_number, settings_by};
ghost use Rattle.jc_c.specs.Reading.{IsRead, bound_said, cache_said, is_set, policy_said};

use crate::reading::read_key;
use crate::status::Fault;
use jc_model::config::{CacheConfig, Policy};
use jc_model::limits::VALUE_BYTES;
use jc_model::list::Sequence;
use std::alloc::Global;

/// The numbers of a configuration. A flag is set where it is not 0.
#[repr(C)]
#[derive(Clone, Copy)]
pub struct FfiSettings {
    /// In milliseconds; an eternal policy has none.
    pub duration: u64,
    /// How many rows the cache may have.
    pub capacity: u32,
    /// 0 eternal, 1 created, 2 accessed, 3 modified, 4 touched.
    pub policy: u32,
    /// Whether a missing key is loaded.
    pub loader: u8,
    /// Whether changes are written.
    pub writer: u8,
    /// How many listeners are told.
    pub listeners: u8,
    /// The most bytes of a value; 0 where the cache has no bound of its own.
    pub max_value: u32,
    /// 0.
    pub reserved: u64,
}

/// A cache to be created: its configuration, and the most bytes of a value.
#[derive(Drop)]
pub struct NewCache {
    pub config: CacheConfig,
    pub max_value: u32,
}

/// The policy of this number.
fn policy_of(choice: u32, duration: u64) -> Result<Policy, Fault>
    ensures { result ≡ policy_said choice duration }
{
    match choice {
        0 => Ok(Policy::Eternal),
        1 => Ok(Policy::Created(duration)),
        2 => Ok(Policy::Accessed(duration)),
        3 => Ok(Policy::Modified(duration)),
        4 => Ok(Policy::Touched(duration)),
        _ => Err(Fault::BadChoice),
    }
}

/// The flags that bytes are.
fn flags_of(alloc: Global, bytes: &[u8]) -> Result<Vec<bool>, Fault>
    ensures flags { IfOk result (λ flags. flags.items ≡ map is_set bytes.now) }
    ensures memory { IfErr result (λ fault. fault ≡ Fault.OutOfMemory) }
{
    let mut flags = Vec::new(alloc);
    for byte in bytes {
        if flags.push(*byte != 0).is_err() {
            return Err(Fault::OutOfMemory);
        }
    }
    Ok(flags)
}

/// The most bytes of a value, of which 0 says that there is no bound of the cache's own.
pub fn bound_of(max_value: u32) -> u32
    ensures { result ≡ bound_said max_value }
{
    if max_value == 0 {
        VALUE_BYTES as u32
    } else {
        max_value
    }
}

/// The cache of this name and these numbers; `wants` has a flag for each processor, whether it
/// wants the value.
pub fn read_cache(
    alloc: Global,
    name: &[u8],
    settings: &FfiSettings,
    wants: &[u8],
) -> Result<NewCache, Fault>
    ensures { IsRead (cache_said name.now settings.now wants.now) result }
{
    let name = read_key(name)?;
    let policy = policy_of(settings.policy, settings.duration)?;
    if settings.reserved != 0 {
        return Err(Fault::BadChoice);
    }
    let processors = Sequence::new(flags_of(alloc, wants)?);
    let config = CacheConfig {
        name,
        capacity: settings.capacity,
        policy,
        loader: settings.loader != 0,
        writer: settings.writer != 0,
        processors,
        listeners: settings.listeners,
    };
    let max_value = bound_of(settings.max_value);
    Ok(NewCache { config, max_value })
}

/// A policy's number, and its duration in milliseconds, which is 0 where it has none.
fn numbers_of(policy: Policy) -> (u32, u64)
    ensures { result ≡ (policy_number policy, duration_of policy) }
{
    match policy {
        Policy::Eternal => (0, 0),
        Policy::Created(duration) => (1, duration),
        Policy::Accessed(duration) => (2, duration),
        Policy::Modified(duration) => (3, duration),
        Policy::Touched(duration) => (4, duration),
    }
}

/// The most bytes of a value, of which 0 says that there is no bound of the cache's own.
fn bound_told(most: u32) -> u32
    ensures { result ≡ bound_told most }
{
    if most == VALUE_BYTES as u32 { 0 } else { most }
}

/// 1 for a flag that is set, else 0.
pub fn byte_of(is_set: bool) -> u8
    ensures { result ≡ flag is_set }
{
    if is_set { 1 } else { 0 }
}

impl FfiSettings {
    /// The numbers of a cache that was created so.
    pub fn of(config: &CacheConfig, max_value: u32) -> FfiSettings
        ensures { result ≡ settings_by config.now max_value }
    {
        let (policy, duration) = numbers_of(config.policy);
        FfiSettings {
            duration,
            capacity: config.capacity,
            policy,
            loader: byte_of(config.loader),
            writer: byte_of(config.writer),
            listeners: config.listeners,
            max_value: bound_told(max_value),
            reserved: 0,
        }
    }
}
