//! The member `processors`: a list of kinds.

ghost use Rattle.std.specs.Prelude.{◌≡◌, IfOk, map, option_map};
ghost use Rattle.toml.specs.View.{view, items_view};
ghost use Rattle.jc_config.specs.Faults.{GivesConfig};
ghost use Rattle.jc_config.specs.Kinds.{wants_value_of};
ghost use Rattle.jc_config.specs.Members.{kinds_of, few_kinds, processor_list, processors_or_none};

use crate::fault::{ConfigFault, Member};
use crate::kinds::ProcessorKind;
use jc_model::limits::MOST_PROCESSORS;
use std::alloc::{AllocError, Global};
use toml::Value;

fn kinds(alloc: Global, items: &[Value]) -> Result<Option<Vec<ProcessorKind>>, AllocError>
    ensures { IfOk result (λ o. option_map (λ v. v.items) o ≡ kinds_of (items_view items.now)) }
{
    let mut kinds = Vec::new(alloc);
    for item in items {
        match item.as_str().and_then(ProcessorKind::of) {
            Some(kind) => kinds.push(kind)?,
            None => return Ok(None),
        }
    }
    Ok(Some(kinds))
}

#[tactic(auto, using(crate::proofs::Loops::count_of_view))]
fn few_kinds(alloc: Global, items: &[Value]) -> Result<Option<Vec<ProcessorKind>>, AllocError>
    ensures { IfOk result (λ o. option_map (λ v. v.items) o ≡ few_kinds (items_view items.now)) }
{
    if items.len() > MOST_PROCESSORS {
        return Ok(None);
    }
    kinds(alloc, items)
}

fn processor_list(alloc: Global, value: &Value) -> Result<Option<Vec<ProcessorKind>>, AllocError>
    ensures { IfOk result (λ o. option_map (λ v. v.items) o ≡ processor_list (view value.now)) }
{
    match value.as_array() {
        Some(items) => few_kinds(alloc, items.as_slice()),
        None => Ok(None),
    }
}

/// The kinds by place, at most 16; none where the member is missing. Too many, or an unknown word, is `Bad`.
/// `OutOfMemory` where the list finds no memory.
pub fn processors(
    alloc: Global,
    table: &Value,
    cache: usize,
) -> Result<Vec<ProcessorKind>, ConfigFault>
    ensures { GivesConfig (λ v. v.items) result (processors_or_none cache (view table.now)) }
{
    let member = Member::Processors;
    match table.get(member.name()) {
        None => Ok(Vec::new(alloc)),
        Some(value) => match processor_list(alloc, value)? {
            Some(kinds) => Ok(kinds),
            None => Err(ConfigFault::Bad { cache, member }),
        },
    }
}

/// Whether each processor wants the value.
pub fn wanted(alloc: Global, kinds: &[ProcessorKind]) -> Result<Vec<bool>, AllocError>
    ensures { IfOk result (λ v. v.items ≡ map wants_value_of kinds.now) }
{
    kinds.iter().map(|kind| kind.wants_value()).collect(alloc)
}
