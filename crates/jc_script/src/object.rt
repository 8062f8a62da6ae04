//! The object that a line is, as a tree over the line's bytes.
ghost use Rattle.std.specs.Prelude.{◌≡◌, IfOk, option_map};
ghost use Rattle.json.specs.Value.{value_view};
ghost use Rattle.jc_script.specs.Faults.{GivesScript};
ghost use Rattle.jc_script.specs.Member.{json_of, object_of};
ghost use Rattle.jc_script.specs.Tree.{data_in, tree_of, tree_of_text};

use crate::fault::ScriptFault;
use crate::tree::{has_numbers, is_object};
use json::{Reader, Scratch, Value};
use simdutf8::basic::from_utf8;
use std::alloc::{AllocError, Global};

/// As deep as `serde_json` lets arrays and objects nest.
const MAX_DEPTH: usize = 127;

/// The tree of a text of JSON, if it is one. Want of memory is the one error.
fn read_text<'a>(
    alloc: Global,
    text: &'a str,
    scratch: &'a mut Scratch,
) -> Result<Option<Value<'a>>, AllocError>
    ensures { IfOk result (λ o. option_map (λ v. value_view v) o ≡ tree_of_text text.now) }
{
    let mut reader = Reader::new(text, scratch)?;
    let value = match Value::read(alloc, &mut reader, MAX_DEPTH) {
        Ok(value) => value,
        Err(json::Error::Invalid) => return Ok(None),
        Err(_) => return Err(AllocError),
    };
    if reader.next().is_some() {
        return Ok(None);
    }
    if !has_numbers(&value) {
        return Ok(None);
    }
    Ok(Some(value))
}

/// The same of bytes.
pub(crate) fn read_tree<'a>(
    alloc: Global,
    bytes: &'a [u8],
    scratch: &'a mut Scratch,
) -> Result<Option<Value<'a>>, AllocError>
    ensures tree { IfOk result (λ o. option_map (λ v. value_view v) o ≡ tree_of bytes.now) }
    ensures read { IfOk result (λ o. option_map data_in o ≡ json_of bytes.now) }
{
    match from_utf8(bytes) {
        Ok(text) => read_text(alloc, text, scratch),
        Err(_) => Ok(None),
    }
}

/// The object that a line's bytes are.
#[tactic(auto, unfolding(crate::specs::Member::object_of))]
pub fn read_object<'a>(
    alloc: Global,
    bytes: &'a [u8],
    line: usize,
    scratch: &'a mut Scratch,
) -> Result<Value<'a>, ScriptFault>
    ensures { GivesScript data_in result (object_of line bytes.now) }
{
    match read_tree(alloc, bytes, scratch)? {
        None => Err(ScriptFault::NotJson { line }),
        Some(value) => {
            if is_object(&value) {
                Ok(value)
            } else {
                Err(ScriptFault::NotObject { line })
            }
        }
    }
}
