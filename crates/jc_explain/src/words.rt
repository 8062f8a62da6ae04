//! The words that are known, and what each member has to be.
ghost use Rattle.std.specs.Prelude.{◌≡◌};
ghost use Rattle.jc_explain.specs.Words.{config_members, script_members, ops, policies, config_words, config_allowed, script_allowed, words_lent};

use jc_config::Member as ConfigMember;
use jc_script::Member as ScriptMember;

/// The members of a cache's table.
pub fn config_members() -> &'static [&'static str]
    ensures { words_lent result.now ≡ config_members }
{
    &[
        "name",
        "capacity",
        "expiry",
        "duration",
        "loader",
        "writer",
        "processors",
        "listeners",
    ]
}

/// The members of a script's lines.
pub fn script_members() -> &'static [&'static str]
    ensures { words_lent result.now ≡ script_members }
{
    &[
        "s", "c", "at", "op", "capacity", "expiry", "duration", "k", "ks", "kvs", "expect", "v",
        "replace", "p", "arg",
    ]
}

/// The words that a member of a cache's table may be, where they are few.
pub fn config_words(member: ConfigMember) -> &'static [&'static str]
    ensures { words_lent result.now ≡ config_words member }
{
    match member {
        ConfigMember::Expiry => policies(),
        ConfigMember::Loader => &["echo"],
        ConfigMember::Writer => &["check"],
        _ => &[],
    }
}

/// The names of all ops.
pub fn ops() -> &'static [&'static str]
    ensures { words_lent result.now ≡ ops }
{
    &[
        "get",
        "get_all",
        "contains",
        "put",
        "get_and_put",
        "put_if_absent",
        "replace",
        "replace_if",
        "get_and_replace",
        "remove",
        "remove_if",
        "get_and_remove",
        "invoke",
        "invoke_all",
        "put_all",
        "remove_keys",
        "remove_all",
        "clear",
        "load_all",
        "entries",
        "stats",
        "clear_stats",
        "create",
        "destroy",
    ]
}

/// The names of all policies.
pub fn policies() -> &'static [&'static str]
    ensures { words_lent result.now ≡ policies }
{
    &["eternal", "created", "accessed", "modified", "touched"]
}

/// What a member of a cache's table has to be.
pub fn config_allowed(member: ConfigMember) -> &'static str
    ensures { result.now ≡ config_allowed member }
{
    match member {
        ConfigMember::Name => "a string of 1 to 63 ASCII letters, digits, - and _",
        ConfigMember::Capacity => "a whole number in 1..=65536",
        ConfigMember::Expiry => {
            "one of \"eternal\", \"created\", \"accessed\", \"modified\", \"touched\""
        }
        ConfigMember::Duration => {
            "a whole number of milliseconds from 0, and left out where expiry is \"eternal\""
        }
        ConfigMember::Loader => "\"echo\"",
        ConfigMember::Writer => "\"check\"",
        ConfigMember::Processors => {
            "a list of at most 16 of \"append\", \"peek\", \"drop\", \"fail\""
        }
        ConfigMember::Listeners => "a whole number in 0..=8",
        ConfigMember::Entry => "one of a table's members",
    }
}

/// What a member of a script's line has to be.
pub fn script_allowed(member: ScriptMember) -> &'static str
    ensures { result.now ≡ script_allowed member }
{
    match member {
        ScriptMember::Session => "a whole number in 0..=63",
        ScriptMember::Cache =>
            "the name of a cache that is live at this line, or of one to be created",
        ScriptMember::At => "a whole number of milliseconds from 0",
        ScriptMember::Op => "a string, the name of an op",
        ScriptMember::Capacity => "a whole number in 1..=65536",
        ScriptMember::Expiry => {
            "one of \"eternal\", \"created\", \"accessed\", \"modified\", \"touched\""
        }
        ScriptMember::Duration => {
            "a whole number of milliseconds from 0, and left out where expiry is \"eternal\""
        }
        ScriptMember::Key => "a string of 1 to 63 bytes",
        ScriptMember::Keys => "a list of at most 64 keys, all different",
        ScriptMember::Pairs =>
            "a list of at most 64 lists of a key and a value, all keys different",
        ScriptMember::Expect => "a string of at most 65535 bytes",
        ScriptMember::Value => "a string of at most 65535 bytes",
        ScriptMember::Replace => "true or false",
        ScriptMember::Processor => "a whole number, the place of one of the cache's processors",
        ScriptMember::Argument => "a string of at most 65535 bytes",
    }
}
