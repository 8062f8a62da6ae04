//! What all caches together must keep to.

ghost use Rattle.std.specs.Prelude.{◌≡◌, IfOk, [], map, nat_le};
ghost use Rattle.jc_model.specs.Limits.{most_rows_together};
ghost use Rattle.jc_config.specs.Faults.{GivesConfig};
ghost use Rattle.jc_config.specs.Config.{duplicate_from, total_of, check_totals};

use crate::fault::ConfigFault;
use crate::kinds::CacheSettings;
use jc_model::limits::{MOST_CACHES, MOST_ROWS_TOGETHER};
use std::alloc::{AllocError, Global};
use std::collections::HashSet;

/// The number of the first cache that has an earlier one's name.
fn first_duplicate(alloc: Global, caches: &[CacheSettings]) -> Result<Option<usize>, AllocError>
    ensures { IfOk result (λ o. o ≡ duplicate_from [] 1 (map (λ c. c.config.name) caches.now)) }
{
    let mut names: HashSet<&str> = HashSet::new(alloc);
    for (i, cache) in caches.iter().enumerate() {
        let is_new = names.insert(cache.config.name.text())?;
        if !is_new {
            return Ok(Some(i + 1));
        }
    }
    Ok(None)
}

fn fits_in_all(caches: &[CacheSettings]) -> bool
    ensures { result ≡ nat_le (total_of caches.now) most_rows_together }
{
    let mut left = MOST_ROWS_TOGETHER;
    for cache in caches {
        if cache.config.capacity as u64 > left {
            return false;
        }
        left -= cache.config.capacity as u64;
    }
    true
}

/// Their number, their names and their capacity, in this order.
pub fn check_totals(alloc: Global, caches: &[CacheSettings]) -> Result<(), ConfigFault>
    ensures { GivesConfig (λ x. x) result (check_totals caches.now) }
{
    if caches.len() > MOST_CACHES {
        return Err(ConfigFault::TooManyCaches);
    }
    if let Some(cache) = first_duplicate(alloc, caches)? {
        return Err(ConfigFault::DuplicateName { cache });
    }
    if !fits_in_all(caches) {
        return Err(ConfigFault::TotalCapacity);
    }
    Ok(())
}
