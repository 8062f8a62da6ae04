//! Members of a script's line that its op does not have.
ghost use Rattle.std.specs.Prelude.{◌≡◌};
ghost use Rattle.serde_json.specs.View.{view, members_view};
ghost use Rattle.jc_script.specs.Stray.{op_of};
ghost use Rattle.jc_explain.specs.Other.{op_has_member, other_of, other_in};
ghost use Rattle.jc_explain.specs.Words.{word_lent};

use crate::stranger::is_known;
use crate::words::script_members;
use jc_script::has_member;
use serde_json::{Map, Value};

/// Whether the op has the member; where there is no op, whether any has it.
fn is_member(op: Option<&str>, name: &str) -> bool
    ensures { result ≡ op_has_member (word_lent op.entry) name.now }
{
    match op {
        Some(op) => has_member(op, name),
        None => is_known(script_members(), name),
    }
}

fn other_of<'a>(op: Option<&str>, members: &'a Map<String, Value>) -> Option<&'a str>
    ensures { word_lent result ≡ other_of (word_lent op.entry) (members_view members.now.entries) }
{
    for name in members.keys() {
        if !is_member(op, name.as_str()) {
            return Some(name.as_str());
        }
    }
    None
}

fn op_of(line: &Value) -> Option<&str>
    ensures { word_lent result ≡ op_of (view line.now) }
{
    line.get("op").and_then(Value::as_str)
}

/// The first member of a line, in the order of their names, that its op does not have.
pub fn other_in(line: &Value) -> Option<&str>
    ensures { word_lent result ≡ other_in (view line.now) }
{
    match line.as_object() {
        Some(members) => other_of(op_of(line), members),
        None => None,
    }
}
