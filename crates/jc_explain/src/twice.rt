//! A key that a list has twice.
ghost use Rattle.std.specs.Prelude.{◌≡◌, IfOk, option_map, string_bytes};
ghost use Rattle.serde_json.specs.View.{view, items_view};
ghost use Rattle.jc_explain.specs.Twice.{key_in, has_key, twice_among, twice_in, twice_line};
ghost use Rattle.jc_explain.specs.Words.{word_lent};

use crate::lines::show_text;
use serde_json::Value;
use std::alloc::{AllocError, Global};

/// The most items of a list that is looked through.
const MOST_ITEMS: usize = 64;

/// The key that an item is, or that a pair begins with.
fn key_in(item: &Value, of_pairs: bool) -> Option<&str>
    ensures { word_lent result ≡ key_in of_pairs (view item.now) }
{
    if !of_pairs {
        return item.as_str();
    }
    match item.get(0usize) {
        Some(key) => key.as_str(),
        None => None,
    }
}

fn has_key(items: &[Value], of_pairs: bool, key: &str) -> bool
    ensures { result ≡ has_key of_pairs key.now (items_view items.now) }
{
    for item in items {
        if let Some(text) = key_in(item, of_pairs) {
            if text == key {
                return true;
            }
        }
    }
    false
}

/// The first key that stands in the list again.
fn twice_among(items: &[Value], of_pairs: bool) -> Option<&str>
    ensures { word_lent result ≡ twice_among of_pairs (items_view items.now) }
{
    match items {
        [] => None,
        [item, behind @ ..] => match key_in(item, of_pairs) {
            Some(key) => {
                if has_key(behind, of_pairs, key) {
                    Some(key)
                } else {
                    twice_among(behind, of_pairs)
                }
            }
            None => twice_among(behind, of_pairs),
        },
    }
}

/// The same of a list that is not too long.
#[tactic(auto, using(crate::proofs::Counts::count_of_view))]
fn twice_in(items: &[Value], of_pairs: bool) -> Option<&str>
    ensures { word_lent result ≡ twice_in of_pairs (items_view items.now) }
{
    if items.len() > MOST_ITEMS {
        return None;
    }
    twice_among(items, of_pairs)
}

/// The line of a key that a list of keys, or of pairs, has twice.
pub fn twice_line(alloc: Global, list: Option<&Value>, of_pairs: bool) -> Result<String, AllocError>
    ensures { IfOk result (λ s. string_bytes s
        ≡ twice_line of_pairs (option_map (λ v. view v.now) list.entry)) }
{
    let Some(value) = list else {
        return Ok(String::new(alloc));
    };
    let Some(items) = value.as_array() else {
        return Ok(String::new(alloc));
    };
    match twice_in(items.as_slice(), of_pairs) {
        Some(key) => {
            let shown = show_text(alloc, key)?;
            format!(in alloc; "  the key {shown} is there twice\n")
        }
        None => Ok(String::new(alloc)),
    }
}
