//! The ops of a script, each in two tables: the name of a call, and the call of a name.
ghost use Rattle.std.specs.Prelude.{◌≡◌, ◌≤◌, codes};
ghost use Rattle.jc_model.specs.Limits.{most_processors};
ghost use Rattle.jc_script.specs.Operation.{call_name, chosen, on_many, call_of};
ghost use Rattle.jc_script.specs.Reading.{Reads};

use crate::fault::{Member, ScriptFault};
use crate::member::Reader;
use jc_model::call::Call;

/// A call's name in a script and in a report.
pub fn name_of(call: &Call) -> &'static str
    ensures { result.now ≡ call_name call.now }
{
    match call {
        Call::Get(_) => "get",
        Call::GetAll(_) => "get_all",
        Call::Contains(_) => "contains",
        Call::Put(..) => "put",
        Call::GetAndPut(..) => "get_and_put",
        Call::PutIfAbsent(..) => "put_if_absent",
        Call::Replace(..) => "replace",
        Call::ReplaceIf { .. } => "replace_if",
        Call::GetAndReplace(..) => "get_and_replace",
        Call::Remove(_) => "remove",
        Call::RemoveIf { .. } => "remove_if",
        Call::GetAndRemove(_) => "get_and_remove",
        Call::Invoke { .. } => "invoke",
        Call::InvokeAll { .. } => "invoke_all",
        Call::PutAll(_) => "put_all",
        Call::RemoveKeys(_) => "remove_keys",
        Call::RemoveAll => "remove_all",
        Call::Clear => "clear",
        Call::LoadAll { .. } => "load_all",
        Call::Entries => "entries",
        Call::Stats => "stats",
        Call::ClearStats => "clear_stats",
    }
}

/// The call of that name, made of the line's members, on a cache with so many processors.
#[tactic(auto, unfolding(crate::specs::Operation::chosen, crate::specs::Operation::call_of))]
pub fn read_call(
    reader: &Reader<'_, '_>,
    processors: usize,
    name: &str,
) -> Result<Call, ScriptFault>
    requires { processors ≤ most_processors }
    ensures { Reads (call_of name.now processors) reader.now result }
{
    Ok(match name {
        "get" => Call::Get(reader.key()?),
        "contains" => Call::Contains(reader.key()?),
        "put" => Call::Put(reader.key()?, reader.value()?),
        "get_and_put" => Call::GetAndPut(reader.key()?, reader.value()?),
        "put_if_absent" => Call::PutIfAbsent(reader.key()?, reader.value()?),
        "replace" => Call::Replace(reader.key()?, reader.value()?),
        "replace_if" => Call::ReplaceIf {
            key: reader.key()?,
            expected: reader.expected()?,
            value: reader.value()?,
        },
        "get_and_replace" => Call::GetAndReplace(reader.key()?, reader.value()?),
        "remove" => Call::Remove(reader.key()?),
        "remove_if" => Call::RemoveIf {
            key: reader.key()?,
            expected: reader.expected()?,
        },
        "get_and_remove" => Call::GetAndRemove(reader.key()?),
        "invoke" => Call::Invoke {
            key: reader.key()?,
            processor: reader.processor(processors)?,
            argument: reader.argument()?,
        },
        _ => return read_call_on_many(reader, processors, name),
    })
}

/// The same, of the calls on many keys or on none.
#[tactic(auto, unfolding(crate::specs::Operation::chosen, crate::specs::Operation::call_of))]
fn read_call_on_many(
    reader: &Reader<'_, '_>,
    processors: usize,
    name: &str,
) -> Result<Call, ScriptFault>
    requires { processors ≤ most_processors }
    ensures { Reads (chosen on_many name.now processors) reader.now result }
{
    Ok(match name {
        "get_all" => Call::GetAll(reader.keys()?),
        "invoke_all" => Call::InvokeAll {
            keys: reader.keys()?,
            processor: reader.processor(processors)?,
            argument: reader.argument()?,
        },
        "put_all" => Call::PutAll(reader.pairs()?),
        "remove_keys" => Call::RemoveKeys(reader.keys()?),
        "load_all" => Call::LoadAll {
            keys: reader.keys()?,
            replace: reader.replace()?,
        },
        "remove_all" => Call::RemoveAll,
        "clear" => Call::Clear,
        "entries" => Call::Entries,
        "stats" => Call::Stats,
        "clear_stats" => Call::ClearStats,
        _ => return Err(reader.bad(Member::Op)),
    })
}
