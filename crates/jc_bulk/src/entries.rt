//! All entries of a cache at once.
ghost use Rattle.std.specs.Prelude.{◌≡◌, None, IfOk, OnOk, OnErr};
ghost use Rattle.jc_model.specs.Whole.{contents, touch_each};
ghost use Rattle.jc_ops.specs.Kept.{items_of, key_row};
ghost use Rattle.jc_ops.specs.Visited.{IsSameVisit, IsUnchanged, progress_in};
ghost use Rattle.jc_bulk.specs.Entries.{live_value, touched, all_touched};

use crate::call_sum::push;
use crate::lists::Lists;
use jc_model::OutOfMemory;
use jc_model::key::Key;
use jc_model::list::Sequence;
use jc_model::owners::Owners;
use jc_model::value::Value;
use jc_ops::visit::Visit;
use jc_ring::ring::Ring;
use jc_rows::rows::Rows;

/// Owners of the key's value, if it has a live row.
fn live_value<R: Rows, G: Ring>(
    visit: &Visit<R, G>,
    key: &Key,
) -> Result<Owners<Option<Value>>, OutOfMemory>
    ensures { IfOk result (λ value. value
        ≡ live_value visit.now.moment key.now (items_of visit.now.cache.cells)) }
{
    match visit.find(key) {
        Some(row) if visit.is_live(row) => Ok(Owners::of(visit.value(row).first())?.map(Some)),
        _ => Ok(Owners::new(None, None, None)),
    }
}

/// Counts a hit on the key's row and uses it, where it is live.
fn touch<R: Rows, G: Ring>(visit: &mut Visit<R, G>, key: &Key)
    ensures same { IsSameVisit visit.old visit.new }
    ensures progress { progress_in visit.new ≡ touched visit.old key.now (progress_in visit.old) }
    ensures none { key_row visit.old.cache key.now ≡ None → visit.new ≡ visit.old }
{
    if let Some(row) = visit.find(key) {
        if visit.is_live(row) {
            visit.hit();
            visit.access(row);
        }
    }
}

/// Counts a hit on each live row of these keys and uses it, in their order.
fn touch_each<R: Rows, G: Ring>(visit: &mut Visit<R, G>, keys: &[Key])
    ensures same { IsSameVisit visit.old visit.new }
    ensures progress { progress_in visit.new
        ≡ all_touched visit.old keys.now (progress_in visit.old) }
{
    for key in keys {
        touch(visit, key);
    }
}

/// Lists all live rows, and uses each. Where memory is refused, nothing has changed.
pub(crate) fn entries<R: Rows, G: Ring>(
    visit: &mut Visit<R, G>,
) -> Result<Owners<Sequence<(Key, Value)>>, OutOfMemory>
    ensures same_visit { IsSameVisit visit.old visit.new }
    ensures listed { IfOk result (λ pairs. pairs ≡ contents visit.old.cache.config
        visit.old.moment (items_of visit.old.cache.cells)) }
    ensures progress { OnOk result (progress_in visit.new ≡ touch_each visit.old.cache.config
        visit.old.moment (items_of visit.old.cache.cells) (progress_in visit.old)) }
    ensures same { OnErr result (IsUnchanged visit.old visit.new) }
{
    let rows = visit.keys()?;
    let keys = rows.as_slice();
    let mut pairs = Lists::with_room(visit.alloc(), keys.len())?;
    for key in keys {
        push(&mut pairs, *key, live_value(visit, key)?);
    }
    touch_each(visit, keys);
    Ok(pairs.into_lists())
}
