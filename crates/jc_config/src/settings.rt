//! The caches of a program: at most 1,024 with at most 262,144 rows together, each with a name of its own and at most
//! 16 processors.

ghost use Rattle.std.specs.Prelude.{◌≡◌, ◌≤◌, true, Some, None, length, if◌then◌else◌, nat_le};
ghost use Rattle.std.specs.List.{All, list_all, list_any};
ghost use Rattle.std.specs.Str.{bytes_eq};
ghost use Rattle.jc_model.specs.Limits.{most_caches, most_processors, most_rows_together};
ghost use Rattle.jc_model.specs.Lists.{distinct};
ghost use Rattle.jc_config.specs.Limits.{few_processors, names_of_caches, total_capacity, within_limits};

use jc_model::config::CacheConfig;
use jc_model::key::Key;
use jc_model::limits::{MOST_CACHES, MOST_PROCESSORS, MOST_ROWS_TOGETHER};
use jc_model::list::Sequence;
use std::marker::Model;

/// The configurations of the caches, in order. Contracts see the list.
#[derive(Drop)]
pub struct Settings {
    caches: Sequence<CacheConfig>,
}

impl Model for Settings {
    ghost use Rattle.std.specs.Prelude.{List, IsTrue};
    ghost use Rattle.jc_model.specs.declared.config.CacheConfig.{CacheConfig};
    ghost use Rattle.jc_config.specs.Limits.{within_limits};

    ghost Value = { List CacheConfig };

    ghost view = { λ s. s.caches };

    ghost invariant = { λ s. IsTrue (within_limits s.caches) };
}

fn have_few_processors(caches: &[CacheConfig]) -> bool
    ensures { result ≡ list_all few_processors caches.now }
{
    caches
        .iter()
        .all(|cache| cache.processors.items().len() <= MOST_PROCESSORS)
}

fn is_taken(name: &Key, caches: &[CacheConfig]) -> bool
    ensures { result ≡ list_any (λ c. bytes_eq c.name name.now) caches.now }
{
    let bytes = name.text().as_bytes();
    caches
        .iter()
        .any(|cache| cache.name.text().as_bytes() == bytes)
}

fn have_own_names(caches: &[CacheConfig]) -> bool
    ensures { result ≡ distinct (names_of_caches caches.now) }
{
    match caches {
        [] => true,
        [first, rest @ ..] => !is_taken(&first.name, rest) && have_own_names(rest),
    }
}

/// Whether so many rows are enough for these caches.
fn fit_into(caches: &[CacheConfig], rows: u64) -> bool
    ensures { result ≡ nat_le (total_capacity caches.now) rows }
{
    let mut left = rows;
    for cache in caches {
        if cache.capacity as u64 > left {
            return false;
        }
        left -= cache.capacity as u64;
    }
    true
}

fn are_within_limits(caches: &[CacheConfig]) -> bool
    ensures { result ≡ within_limits caches.now }
{
    caches.len() <= MOST_CACHES
        && have_few_processors(caches)
        && have_own_names(caches)
        && fit_into(caches, MOST_ROWS_TOGETHER)
}

impl Settings {
    /// The settings of these caches; nothing where they exceed a limit.
    pub fn new(caches: Sequence<CacheConfig>) -> Option<Settings>
        ensures { result ≡ (if within_limits caches then Some caches else None) }
    {
        if are_within_limits(caches.items()) {
            Some(Settings { caches })
        } else {
            None
        }
    }

    /// The settings of caches that are known to keep to the limits.
    pub(crate) fn within(caches: Sequence<CacheConfig>) -> Settings
        requires { within_limits caches ≡ true }
        ensures { result ≡ caches }
    {
        Settings { caches }
    }

    /// The configuration of each cache.
    pub fn caches(&self) -> &[CacheConfig]
        ensures same { result.now ≡ self.now }
        ensures few { length self.now ≤ most_caches }
        ensures processors { All (λ c. length c.processors ≤ most_processors) self.now }
        ensures named { distinct (names_of_caches self.now) ≡ true }
        ensures fits { total_capacity self.now ≤ most_rows_together }
    {
        self.caches.items()
    }

    /// The configurations alone.
    pub fn into_caches(self) -> Vec<CacheConfig>
        ensures { result.items ≡ self }
    {
        let Settings { caches } = self;
        caches.into_items()
    }
}
