//! What the tables of all caches have together: a name twice, and a sum of capacities.
ghost use Rattle.std.specs.Prelude.{◌≡◌, ◌≤◌, IfOk, option_map, length, string_bytes};
ghost use Rattle.toml.specs.View.{view, items_view, table_view};
ghost use Rattle.jc_explain.specs.Together.{tables_in, is_text, name_of, named_from, first_named, first_line, capacity_of, sum_of, sum_line, sum_lines};
ghost use Rattle.jc_explain.specs.Words.{word_lent};

use crate::config::cache_entry;
use std::alloc::{AllocError, Global};
use toml::{Table, Value};

/// The most caches, whose capacities are added up.
const MOST_CACHES: usize = 1024;

/// The tables of a document.
fn tables_in(document: &Table) -> Option<&[Value]>
    ensures { option_map (λ tables. items_view tables.now) result
        ≡ tables_in (table_view document.now) }
{
    match cache_entry(document) {
        None => None,
        Some(value) => match value.as_array() {
            Some(tables) => Some(tables.as_slice()),
            None => None,
        },
    }
}

fn name_of(table: &Value) -> Option<&str>
    ensures { word_lent result ≡ name_of (view table.now) }
{
    match table.get("name") {
        Some(name) => name.as_str(),
        None => None,
    }
}

fn is_named(table: &Value, name: &str) -> bool
    ensures { result ≡ is_text name.now (name_of (view table.now)) }
{
    match name_of(table) {
        Some(other) => other == name,
        None => false,
    }
}

/// The number of the first table with this name, counted from 1.
fn first_of_name(tables: &[Value], name: &str) -> Option<usize>
    ensures { result ≡ named_from 1 name.now (items_view tables.now) }
{
    for (i, table) in tables.iter().enumerate() {
        if is_named(table, name) {
            return Some(i + 1);
        }
    }
    None
}

/// The number of the first table with this one's name.
fn first_named(document: &Table, table: &Value) -> Option<usize>
    ensures { result
        ≡ first_named (name_of (view table.now)) (tables_in (table_view document.now)) }
{
    let name = name_of(table)?;
    let tables = tables_in(document)?;
    first_of_name(tables, name)
}

/// The line that says which table has this one's name first.
pub fn first_line(alloc: Global, document: &Table, table: &Value) -> Result<String, AllocError>
    ensures { IfOk result (λ s. string_bytes s
        ≡ first_line (table_view document.now) (view table.now)) }
{
    match first_named(document, table) {
        Some(number) => format!(in alloc; "  cache {number} is the first of that name\n"),
        None => Ok(String::new(alloc)),
    }
}

/// A table's capacity, where it has one.
fn capacity_of(table: &Value) -> u64
    ensures is { result ≡ capacity_of (view table.now) }
    ensures most { result ≤ 65536 }
{
    match table.get("capacity").and_then(Value::as_integer) {
        Some(number) if number >= 1 && number <= 65536 => number as u64,
        _ => 0,
    }
}

fn sum_of(tables: &[Value]) -> u64
    requires { length tables.now ≤ 1024 }
    ensures { result ≡ sum_of (items_view tables.now) }
{
    let mut sum = 0;
    for table in tables {
        sum += capacity_of(table);
    }
    sum
}

fn sum_line(alloc: Global, sum: u64) -> Result<String, AllocError>
    ensures { IfOk result (λ s. string_bytes s ≡ sum_line sum) }
{
    format!(in alloc; "  the capacities are {sum} together; they have to be at most 262144\n")
}

/// The sum of the tables' capacities; none where there are more tables than caches may be.
#[tactic(auto, using(jc_config::proofs::Loops::count_of_view))]
pub fn sum_lines(alloc: Global, document: &Table) -> Result<String, AllocError>
    ensures { IfOk result (λ s. string_bytes s ≡ sum_lines (table_view document.now)) }
{
    match tables_in(document) {
        None => Ok(String::new(alloc)),
        Some(tables) => {
            if tables.len() > MOST_CACHES {
                return Ok(String::new(alloc));
            }
            sum_line(alloc, sum_of(tables))
        }
    }
}
