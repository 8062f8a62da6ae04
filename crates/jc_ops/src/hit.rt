//! Gets that ask no one and tell no one: of a live row, and of none where there is no loader.
//!
//! They are lines of the case table like any other. But most calls are such gets: so they are carried out here without
//! the means of those that ask and tell.
ghost use Rattle.std.specs.Prelude.{◌≡◌, None, IfSome, option_map};
ghost use Rattle.jc_ops.specs.Visited.{IsSameVisit, IsUnchanged};
ghost use Rattle.jc_ops.specs.Stepped.{GetFinds};

use crate::visit::Visit;
use jc_model::OutOfMemory;
use jc_model::key::Key;
use jc_model::owners::Owners;
use jc_model::value::Value;
use jc_ring::ring::Ring;
use jc_rows::rows::Rows;

/// A value with as many owners as who asks for it needs: one, or three where it goes into a transcript too.
pub trait Owned: Drop {
    ghost use Rattle.std.specs.Prelude.{◌≡◌, ℕ, List, IfOk};

    /// The value.
    ghost value: { Self → List ℕ };

    /// Further owners of a value.
    fn of(found: &Value) -> Result<Self, OutOfMemory>
        ensures { IfOk result (λ owned. value owned ≡ found.now) };
}

impl Owned for Value {
    ghost value = { λ owned. owned };

    fn of(found: &Value) -> Result<Value, OutOfMemory> {
        found.share()
    }
}

impl Owned for Owners<Value> {
    ghost value = { λ owned. owned };

    fn of(found: &Value) -> Result<Owners<Value>, OutOfMemory> {
        Owners::of(found)
    }
}

/// What a get of this key answers where it asks and tells no one: the value of the key's live row, or none, where it has
/// no row and the cache no loader. Else nothing, and nothing has changed; also where no copies of the value can be had.
pub fn get_at_once<R: Rows, G: Ring, V: Owned>(
    visit: &mut Visit<R, G>,
    key: &Key,
) -> Option<Option<V>>
    ensures same_visit { IsSameVisit visit.old visit.new }
    ensures found { IfSome result (λ found.
        GetFinds visit.old key.now (option_map V.value found) visit.new) }
    ensures noted { visit.new.noted ≡ visit.old.noted }
    ensures same { result ≡ None → IsUnchanged visit.old visit.new }
{
    match visit.find(key) {
        Some(row) => {
            if !visit.is_live(row) {
                return None;
            }
            match V::of(visit.value(row).first()) {
                Ok(owned) => {
                    visit.hit();
                    visit.access(row);
                    Some(Some(owned))
                }
                Err(_) => None,
            }
        }
        None => {
            if visit.config().loader {
                return None;
            }
            visit.miss();
            Some(None)
        }
    }
}
