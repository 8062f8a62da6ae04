//! All faults of a configuration: of each table the first; where no table has one, that of the whole.
ghost use Rattle.std.specs.Prelude.{◌≡◌, ◌+◌, ◌++◌, IfOk, OnOk};
ghost use Rattle.toml.specs.View.{view, items_view, table_view};
ghost use Rattle.toml.specs.Data.{Items, item};
ghost use Rattle.jc_config.specs.Config.{configuration_in, document_of};
ghost use Rattle.jc_explain.specs.ConfigFaults.{faults_of_tables, table_faults, document_faults, only_fault, all_config_faults};

use jc_config::{ConfigFault, read_cache, read_config, read_document, tables};
use jc_model::limits::TEXT_BYTES;
use std::alloc::{AllocError, Global};
use toml::{Table, Value};

/// Notes the fault of the table with this number, if it has one.
fn note_table(
    alloc: Global,
    table: &Value,
    cache: usize,
    faults: &mut Vec<ConfigFault>,
) -> Result<(), AllocError>
    ensures { OnOk result ((others : Items)
        → faults.old.items ++ faults_of_tables cache (item (view table.now) others)
        ≡ faults.new.items ++ faults_of_tables (cache + 1) others) }
{
    match read_cache(alloc, table, cache) {
        Ok(_) => Ok(()),
        Err(ConfigFault::OutOfMemory) => Err(AllocError),
        Err(fault) => {
            faults.push(fault)?;
            Ok(())
        }
    }
}

fn faults_of_tables(alloc: Global, tables: &[Value]) -> Result<Vec<ConfigFault>, AllocError>
    ensures { IfOk result (λ v. v.items ≡ faults_of_tables 1 (items_view tables.now)) }
{
    let mut faults = Vec::new(alloc);
    for (i, table) in tables.iter().enumerate() {
        note_table(alloc, table, i + 1, &mut faults)?;
    }
    Ok(faults)
}

/// The faults of the tables of a document, if it has nothing else.
fn table_faults(alloc: Global, document: &Table) -> Result<Vec<ConfigFault>, AllocError>
    ensures { IfOk result (λ v. v.items ≡ table_faults (table_view document.now)) }
{
    match tables(document) {
        Ok(tables) => faults_of_tables(alloc, tables),
        Err(ConfigFault::OutOfMemory) => Err(AllocError),
        Err(_) => Ok(Vec::new(alloc)),
    }
}

fn document_faults(alloc: Global, bytes: &[u8]) -> Result<Vec<ConfigFault>, AllocError>
    ensures { IfOk result (λ v. v.items ≡ document_faults bytes.now) }
{
    if bytes.len() > TEXT_BYTES {
        return Ok(Vec::new(alloc));
    }
    match read_document(alloc, bytes)? {
        Some(document) => table_faults(alloc, &document),
        None => Ok(Vec::new(alloc)),
    }
}

/// The fault that the reading of the whole ends with, if it does.
fn only_fault(alloc: Global, bytes: &[u8]) -> Result<Vec<ConfigFault>, AllocError>
    ensures { IfOk result (λ v. v.items ≡ only_fault (configuration_in bytes.now)) }
{
    match read_config(alloc, bytes) {
        Ok(_) => Ok(Vec::new(alloc)),
        Err(ConfigFault::OutOfMemory) => Err(AllocError),
        Err(fault) => Ok(Vec::from_array(alloc, [fault])?),
    }
}

/// All faults of a configuration, of which these are the bytes: of each table the first, in the order of the tables;
/// where no table has one, the first of the whole, if it has one.
#[tactic(auto, unfolding(crate::specs::ConfigFaults::all_config_faults))]
pub fn all_config_faults(alloc: Global, bytes: &[u8]) -> Result<Vec<ConfigFault>, AllocError>
    ensures { IfOk result (λ v. v.items ≡ all_config_faults bytes.now) }
{
    let faults = document_faults(alloc, bytes)?;
    if faults.is_empty() {
        return only_fault(alloc, bytes);
    }
    Ok(faults)
}
