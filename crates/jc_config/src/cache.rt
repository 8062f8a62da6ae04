//! The table of one cache.

ghost use Rattle.std.specs.Prelude.{◌≡◌, string_bytes};
ghost use Rattle.std.specs.List.{list_all};
ghost use Rattle.std.specs.BTreeMap.{keys};
ghost use Rattle.toml.specs.View.{view, table_view};
ghost use Rattle.jc_config.specs.Faults.{GivesConfig};
ghost use Rattle.jc_config.specs.Members.{is_table_member, table_members_are, knows_table, no_other_entry};
ghost use Rattle.jc_config.specs.Config.{cache_of};

use crate::fault::{ConfigFault, Member};
use crate::kinds::{CacheSettings, HookKinds};
use crate::{members, processors};
use jc_model::config::CacheConfig;
use jc_model::list::Sequence;
use std::alloc::Global;
use toml::{Table, Value};

fn is_member(name: &str) -> bool
    ensures { result ≡ is_table_member name.now }
{
    name == "name"
        || name == "capacity"
        || name == "expiry"
        || name == "duration"
        || name == "loader"
        || name == "writer"
        || name == "processors"
        || name == "listeners"
}

fn has_member_keys(table: &Table) -> bool
    ensures { result ≡ list_all (λ k. is_table_member (string_bytes k)) (keys table.now) }
{
    table.keys().all(|key| is_member(key.as_str()))
}

fn knows_all(table: &Table) -> bool
    ensures { result ≡ table_members_are is_table_member (table_view table.now) }
{
    has_member_keys(table)
}

fn knows_members(table: &Value) -> bool
    ensures { result ≡ knows_table (view table.now) }
{
    match table.as_table() {
        Some(entries) => knows_all(entries),
        None => false,
    }
}

fn no_other_entry(table: &Value, cache: usize) -> Result<(), ConfigFault>
    ensures { GivesConfig (λ x. x) result (no_other_entry cache (view table.now)) }
{
    if knows_members(table) {
        Ok(())
    } else {
        Err(ConfigFault::Bad {
            cache,
            member: Member::Entry,
        })
    }
}

/// Reads the table of the cache with this number; the first bad member is the fault.
#[tactic(auto, unfolding(crate::specs::Config::cache_of))]
pub fn read_cache(alloc: Global, table: &Value, cache: usize) -> Result<CacheSettings, ConfigFault>
    ensures { GivesConfig (λ x. x) result (cache_of cache (view table.now)) }
{
    let name = members::name(table, cache)?;
    let capacity = members::capacity(table, cache)?;
    let policy = members::policy(table, cache)?;
    let loader = members::loader(table, cache)?;
    let writer = members::writer(table, cache)?;
    let kinds = processors::processors(alloc, table, cache)?;
    let listeners = members::listeners(table, cache)?;
    no_other_entry(table, cache)?;
    let wanted = processors::wanted(alloc, &kinds)?;
    let config = CacheConfig {
        name,
        capacity,
        policy,
        loader: loader.is_some(),
        writer: writer.is_some(),
        processors: Sequence::new(wanted),
        listeners,
    };
    let hooks = HookKinds {
        loader,
        writer,
        processors: Sequence::new(kinds),
    };
    Ok(CacheSettings { config, hooks })
}
