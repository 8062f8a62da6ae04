//! The document: its list of tables, one for each cache.

ghost use Rattle.std.specs.Prelude.{◌≡◌, Some, IfOk, option_map, string_bytes, codes};
ghost use Rattle.std.specs.List.{list_all};
ghost use Rattle.std.specs.BTreeMap.{keys};
ghost use Rattle.toml.specs.View.{view, items_view, table_view};
ghost use Rattle.toml.specs.Data.{get_member, as_array};
ghost use Rattle.jc_config.specs.Faults.{GivesConfig};
ghost use Rattle.jc_config.specs.Members.{table_members_are};
ghost use Rattle.jc_config.specs.Config.{document_of, is_cache, are_tables, list_of_tables, tables_of, caches_of};

use crate::cache::read_cache;
use crate::fault::ConfigFault;
use crate::kinds::CacheSettings;
use std::alloc::{AllocError, Global};
use toml::{Table, Value};

/// The TOML document that these bytes are; `None` where they are not UTF-8 or no TOML.
pub fn read_document(alloc: Global, bytes: &[u8]) -> Result<Option<Table>, AllocError>
    ensures { IfOk result (λ o. option_map table_view o ≡ document_of bytes.now) }
{
    match std::str::from_utf8(bytes) {
        Err(_) => Ok(None),
        Ok(text) => match toml::table_from_str(alloc, text) {
            Ok(table) => Ok(Some(table)),
            Err(e) => {
                if e.is_memory() {
                    Err(AllocError)
                } else {
                    Ok(None)
                }
            }
        },
    }
}

fn has_cache_keys(document: &Table) -> bool
    ensures { result ≡ list_all (λ k. is_cache (string_bytes k)) (keys document.now) }
{
    document.keys().all(|key| key.as_str() == "cache")
}

fn has_caches_alone(document: &Table) -> bool
    ensures { result ≡ table_members_are is_cache (table_view document.now) }
{
    has_cache_keys(document)
}

fn are_tables(items: &[Value]) -> bool
    ensures { result ≡ are_tables (items_view items.now) }
{
    for item in items {
        if !item.is_table() {
            return false;
        }
    }
    true
}

fn cache_entry(document: &Table) -> Option<&Value>
    ensures { option_map (λ v. view v.now) result
        ≡ get_member (codes "cache") (table_view document.now) }
{
    document.get("cache")
}

fn list_of_tables(items: &[Value]) -> Result<&[Value], ConfigFault>
    ensures { GivesConfig (λ r. items_view r.now) result
        (list_of_tables (Some (items_view items.now))) }
{
    if are_tables(items) {
        Ok(items)
    } else {
        Err(ConfigFault::UnknownEntry)
    }
}

fn tables_in(value: &Value) -> Result<&[Value], ConfigFault>
    ensures { GivesConfig (λ r. items_view r.now) result (list_of_tables (as_array (view value.now))) }
{
    match value.as_array() {
        Some(items) => list_of_tables(items.as_slice()),
        None => Err(ConfigFault::UnknownEntry),
    }
}

/// The tables of the caches; a document without `cache` has none.
pub fn tables(document: &Table) -> Result<&[Value], ConfigFault>
    ensures { GivesConfig (λ r. items_view r.now) result (tables_of (table_view document.now)) }
{
    if !has_caches_alone(document) {
        return Err(ConfigFault::UnknownEntry);
    }
    match cache_entry(document) {
        Some(value) => tables_in(value),
        None => Ok(&[]),
    }
}

/// Reads the tables in order; the first that is bad is the fault.
pub fn read_caches(alloc: Global, tables: &[Value]) -> Result<Vec<CacheSettings>, ConfigFault>
    ensures { GivesConfig (λ v. v.items) result (caches_of 1 (items_view tables.now)) }
{
    let mut caches = Vec::new(alloc);
    for (i, table) in tables.iter().enumerate() {
        let cache = read_cache(alloc, table, i + 1)?;
        caches.push(cache)?;
    }
    Ok(caches)
}
