//! Entries by cache.
ghost use Rattle.std.specs.Prelude.{nat_eq, IfOk};
ghost use Rattle.indexmap.specs.IndexMap.{get};
ghost use Rattle.jc_report.specs.Report.{AreGrouped};

use indexmap::IndexMap;
use jc_model::event::Entry;
use std::alloc::{AllocError, Global};

/// The entries of each cache, in their order.
pub fn grouped<'e>(
    alloc: Global,
    entries: &'e [Entry],
) -> Result<IndexMap<usize, Vec<&'e Entry>>, AllocError>
    ensures { IfOk result (λ groups. AreGrouped entries.now (get nat_eq groups)) }
{
    let mut groups = IndexMap::new(alloc);
    for entry in entries {
        groups
            .entry(entry.id.number() as usize)?
            .or_insert_with(|| Vec::new(alloc))
            .push(entry)?;
    }
    Ok(groups)
}
