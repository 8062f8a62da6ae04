//! Memory that the table is refused by its mirror: a row that finds no slot is then in the stash, and the next put
//! doubles the buckets.

use crate::shapes::{NAMES, put_new};
use jc_cuckoo::cuckoo::{Cuckoo, TableRefusal};
use jc_cuckoo::held::Shape;
use jc_cuckoo::mirror::Mirror;
use jc_model::event::CacheId;
use jc_model::key::Key;
use jc_rows::rows::Rows;
use jc_trials::{ConstantPlacer, RefusingMirror, Trouble, key};
use std::alloc::Global;

/// The put of so many rows is the first that finds at least half as many as there are slots, 32 of 64, and so doubles
/// the buckets.
const DOUBLING: u32 = 33;

/// How many rows are put: of the same keys in each of two caches.
const ROWS: u32 = 40;

/// The cache and the key of a row.
fn place_of(row: u32) -> Result<(CacheId, Key), Trouble> {
    let name = NAMES.get((row / 2) as usize).unwrap_or(&"");
    Ok((CacheId::new(row % 2), key(name)?))
}

/// A table of 16 buckets where all keys share two. So often it does not double.
fn crowded(
    alloc: Global,
    refusals: u32,
) -> Result<Cuckoo<ConstantPlacer, RefusingMirror>, TableRefusal> {
    Cuckoo::new(alloc, ConstantPlacer, RefusingMirror { refusals }, 16)
}

/// Whether the first so many rows are found, and no others.
fn holds_first<R: Rows>(rows: &R, count: u32) -> Result<bool, Trouble> {
    for row in 0..ROWS {
        let (id, key) = place_of(row)?;
        let held = if row < count { Some(row) } else { None };
        if rows.find(id, &key) != held {
            return Ok(false);
        }
    }
    Ok(true)
}

/// The shape of so many rows whose keys share two buckets, before the buckets doubled or after that.
fn shape_of(count: u32, doubled: bool) -> Shape {
    let in_buckets = (count as usize).min(8);
    Shape {
        buckets: if doubled { 32 } else { 16 },
        in_buckets,
        in_stash: count as usize - in_buckets,
    }
}

/// Puts all rows, of which so many find no memory to double. The result is the first row after which others are held or
/// the shape is another, if there is one.
fn first_other<M: Mirror>(
    table: &mut Cuckoo<ConstantPlacer, M>,
    refusals: u32,
) -> Result<Option<u32>, Trouble> {
    let doubling = DOUBLING.saturating_add(refusals);
    for row in 0..ROWS {
        let count = row.saturating_add(1);
        let (id, key) = place_of(row)?;
        put_new(table, id, key, row)?;
        let as_told = table.shape() == shape_of(count, count >= doubling);
        if !as_told || !holds_first(table, count)? || table.make_room(usize::MAX).is_ok() {
            return Ok(Some(row));
        }
    }
    Ok(None)
}

#[test]
fn a_refused_doubling_comes_with_the_next_put(rt: HostRuntime) -> Result<(), Trouble> {
    for refusals in [0u32, 1, 2, 40] {
        let mut table = crowded(rt.alloc(), refusals)?;
        assert_eq!(rt; first_other(&mut table, refusals)?, None);
    }
    Ok(())
}
