//! Which members an op has.

ghost use Rattle.std.specs.Prelude.{◌≡◌};
ghost use Rattle.jc_script.specs.Members.{is_on_key, stores_value, expects, names_processor, is_on_keys, is_common, is_of_creating, has_member};

/// Whether the op is on one key.
fn is_on_key(op: &str) -> bool
    ensures { result ≡ is_on_key op.now }
{
    op == "get"
        || op == "contains"
        || op == "put"
        || op == "get_and_put"
        || op == "put_if_absent"
        || op == "replace"
        || op == "replace_if"
        || op == "get_and_replace"
        || op == "remove"
        || op == "remove_if"
        || op == "get_and_remove"
        || op == "invoke"
}

/// Whether the op stores a value.
fn stores(op: &str) -> bool
    ensures { result ≡ stores_value op.now }
{
    op == "put"
        || op == "get_and_put"
        || op == "put_if_absent"
        || op == "replace"
        || op == "replace_if"
        || op == "get_and_replace"
}

/// Whether the op expects a value.
fn expects(op: &str) -> bool
    ensures { result ≡ expects op.now }
{
    op == "replace_if" || op == "remove_if"
}

/// Whether the op hands entries to a processor.
fn has_processor(op: &str) -> bool
    ensures { result ≡ names_processor op.now }
{
    op == "invoke" || op == "invoke_all"
}

/// Whether the op is on a list of keys.
fn is_on_keys(op: &str) -> bool
    ensures { result ≡ is_on_keys op.now }
{
    op == "get_all" || op == "remove_keys" || op == "invoke_all" || op == "load_all"
}

/// Whether each line has the member.
fn is_common(member: &str) -> bool
    ensures { result ≡ is_common member.now }
{
    member == "s" || member == "c" || member == "at" || member == "op"
}

/// Whether the member is one of a cache that is created.
fn is_of_creating(member: &str) -> bool
    ensures { result ≡ is_of_creating member.now }
{
    member == "capacity" || member == "expiry" || member == "duration"
}

/// Whether the op needs the member, or may have it.
#[tactic(auto, unfolding(crate::specs::Members::has_member))]
pub fn has_member(op: &str, member: &str) -> bool
    ensures { result ≡ has_member op.now member.now }
{
    if is_common(member) {
        return true;
    }
    if is_of_creating(member) {
        return op == "create";
    }
    match member {
        "k" => is_on_key(op),
        "ks" => is_on_keys(op),
        "kvs" => op == "put_all",
        "expect" => expects(op),
        "v" => stores(op),
        "replace" => op == "load_all",
        "p" => has_processor(op),
        "arg" => has_processor(op),
        _ => false,
    }
}
