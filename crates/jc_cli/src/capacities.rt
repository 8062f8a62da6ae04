//! A list of capacities.
ghost use Rattle.std.specs.Prelude.{◌≡◌, IfOk, IfSome, Some, MatchOption};
ghost use Rattle.std.specs.List.{All};
ghost use Rattle.jc_cli.specs.Program.{AreCapacities, AreNoCapacities, IsRowCount, ListsCapacities, ListsNoCapacities};
ghost use Rattle.jc_cli.specs.Program.{SaysCapacity, SaysNoCapacity, between_commas, texts_lent};

use std::alloc::{AllocError, Global};

/// The greatest capacity.
const MOST_ROWS: u32 = 65_536;

/// The texts between the commas.
pub(crate) fn parts_of<'a>(alloc: Global, list: &'a str) -> Result<Vec<&'a str>, AllocError>
    ensures { IfOk result (λ v. texts_lent v.items ≡ between_commas list.entry.now) }
{
    list.split(',').collect(alloc)
}

/// A whole number from 1 to 65,536.
pub(crate) fn read_capacity(text: &str) -> Option<u32>
    ensures { MatchOption result (SaysNoCapacity text.now) (SaysCapacity text.now) }
{
    match text.parse::<u32>() {
        Ok(n) => {
            if n < 1 || n > MOST_ROWS {
                return None;
            }
            Some(n)
        }
        Err(_) => None,
    }
}

/// The capacities that are all of these texts, if they are.
fn read_parts(alloc: Global, parts: &[&str]) -> Result<Option<Vec<u32>>, AllocError>
    ensures read { IfOk result (λ read. MatchOption read (AreNoCapacities (texts_lent parts.now))
        (λ v. AreCapacities (texts_lent parts.now) v.items)) }
    ensures limits { IfOk result (λ read. IfSome read (λ v. All IsRowCount v.items)) }
{
    let mut capacities = Vec::new(alloc);
    for part in parts {
        let Some(capacity) = read_capacity(part) else {
            return Ok(None);
        };
        capacities.push(capacity)?;
    }
    Ok(Some(capacities))
}

/// The capacities in a list with a comma between two, if it is one.
pub(crate) fn read_capacities(alloc: Global, list: &str) -> Result<Option<Vec<u32>>, AllocError>
    ensures read { IfOk result (λ read. MatchOption read (ListsNoCapacities (Some list.now))
        (λ v. ListsCapacities (Some list.now) v.items)) }
    ensures limits { IfOk result (λ read. IfSome read (λ v. All IsRowCount v.items)) }
{
    let parts = parts_of(alloc, list)?;
    read_parts(alloc, parts.as_slice())
}
