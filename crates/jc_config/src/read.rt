//! Reading a configuration.

ghost use Rattle.std.specs.Prelude.{◌≡◌, true, IfOk, map};
ghost use Rattle.jc_config.specs.Faults.{GivesConfig};
ghost use Rattle.jc_config.specs.Config.{configuration_with, configuration_in};
ghost use Rattle.jc_config.specs.Limits.{within_limits};

use crate::document::{read_caches, read_document, tables};
use crate::fault::ConfigFault;
use crate::kinds::{CacheSettings, Configuration, HookKinds};
use crate::settings::Settings;
use crate::totals::check_totals;
use jc_model::config::CacheConfig;
use jc_model::limits::TEXT_BYTES;
use jc_model::list::Sequence;
use std::alloc::{AllocError, Global};

/// The configurations and the kinds of callbacks, each by itself.
fn split(
    alloc: Global,
    caches: Vec<CacheSettings>,
) -> Result<(Vec<CacheConfig>, Vec<HookKinds>), AllocError>
    ensures { IfOk result (λ r. (r.0.items ≡ map (λ c. c.config) caches.items)
        × (r.1.items ≡ map (λ c. c.hooks) caches.items)) }
{
    let mut configs = Vec::with_capacity(alloc, caches.len())?;
    let mut hooks = Vec::with_capacity(alloc, caches.len())?;
    for cache in caches {
        configs.push(cache.config)?;
        hooks.push(cache.hooks)?;
    }
    Ok((configs, hooks))
}

/// The configuration of caches that were read and that keep to what all caches together must keep to.
fn make_configuration(
    alloc: Global,
    caches: Vec<CacheSettings>,
) -> Result<Configuration, AllocError>
    requires { within_limits (map (λ c. c.config) caches.items) ≡ true }
    ensures { IfOk result (λ r. r ≡ configuration_with caches.items) }
{
    let (configs, hooks) = split(alloc, caches)?;
    Ok(Configuration {
        settings: Settings::within(Sequence::new(configs)),
        hooks: Sequence::new(hooks),
    })
}

/// Reads a TOML document with an array of tables `cache`, which may be missing.
///
/// Faults come in this order: the text's length, its form, the document's entries, then table by table the
/// members in `Member`'s order, then the number of caches, their names and their capacity together. Memory may
/// be wanting at any point.
#[tactic(auto, unfolding(crate::specs::Config::configuration_in))]
pub fn read_config(alloc: Global, bytes: &[u8]) -> Result<Configuration, ConfigFault>
    ensures read { GivesConfig (λ r. r) result (configuration_in bytes.now) }
{
    if bytes.len() > TEXT_BYTES {
        return Err(ConfigFault::TooLong);
    }
    let Some(document) = read_document(alloc, bytes)? else {
        return Err(ConfigFault::NotToml);
    };
    let tables = tables(&document)?;
    let caches = read_caches(alloc, tables)?;
    check_totals(alloc, &caches)?;
    Ok(make_configuration(alloc, caches)?)
}
