//! The members of a cache's table, each read by itself.

ghost use Rattle.std.specs.Prelude.{◌≡◌, None, pos, option_map};
ghost use Rattle.toml.specs.View.{view};
ghost use Rattle.jc_model.specs.Limits.{most_rows};
ghost use Rattle.jc_config.specs.Faults.{GivesConfig};
ghost use Rattle.jc_config.specs.Kinds.{expiry_kind_of, with_duration, policy_in, loader_of, writer_of, processor_of};
ghost use Rattle.jc_config.specs.Members.{number, whole_number, name_text, text_kind, optional, needed_table_member, table_expiry_or_eternal, listeners_or_none, table_policy};

use crate::fault::{ConfigFault, Member};
use crate::kinds::{LoaderKind, ProcessorKind, WriterKind};
use crate::name::name_in;
use jc_model::config::Policy;
use jc_model::key::Key;
use jc_model::limits::{MOST_LISTENERS, MOST_ROWS};
use toml::Value;

/// An expiry policy whose duration is not read yet.
#[derive(Clone, Copy, PartialEq, Eq)]
pub enum ExpiryKind {
    Eternal,
    Created,
    Accessed,
    Modified,
    Touched,
}

impl ExpiryKind {
    /// The policy of that name, if there is one.
    pub fn of(text: &str) -> Option<ExpiryKind>
        ensures { result ≡ expiry_kind_of text.now }
    {
        match text {
            "eternal" => Some(ExpiryKind::Eternal),
            "created" => Some(ExpiryKind::Created),
            "accessed" => Some(ExpiryKind::Accessed),
            "modified" => Some(ExpiryKind::Modified),
            "touched" => Some(ExpiryKind::Touched),
            _ => None,
        }
    }

    /// The policy with this duration, in milliseconds; an eternal one has none.
    pub fn with_duration(self, duration: u64) -> Policy
        ensures { result ≡ with_duration self duration }
    {
        match self {
            ExpiryKind::Eternal => Policy::Eternal,
            ExpiryKind::Created => Policy::Created(duration),
            ExpiryKind::Accessed => Policy::Accessed(duration),
            ExpiryKind::Modified => Policy::Modified(duration),
            ExpiryKind::Touched => Policy::Touched(duration),
        }
    }

    /// The policy by the member `duration`, where it is there: an eternal cache has none, and others need a whole
    /// number.
    pub fn policy(self, duration: Option<Option<u64>>) -> Option<Policy>
        ensures { result ≡ policy_in self duration }
    {
        match (self, duration) {
            (ExpiryKind::Eternal, None) => Some(Policy::Eternal),
            (ExpiryKind::Eternal, Some(_)) | (_, None | Some(None)) => None,
            (kind, Some(Some(duration))) => Some(kind.with_duration(duration)),
        }
    }
}

impl LoaderKind {
    fn of(text: &str) -> Option<LoaderKind>
        ensures { result ≡ loader_of text.now }
    {
        if text == "echo" {
            Some(LoaderKind::Echo)
        } else {
            None
        }
    }
}

impl WriterKind {
    fn of(text: &str) -> Option<WriterKind>
        ensures { result ≡ writer_of text.now }
    {
        if text == "check" {
            Some(WriterKind::Check)
        } else {
            None
        }
    }
}

impl ProcessorKind {
    pub(crate) fn of(text: &str) -> Option<ProcessorKind>
        ensures { result ≡ processor_of text.now }
    {
        match text {
            "append" => Some(ProcessorKind::Append),
            "fail" => Some(ProcessorKind::Fail),
            "drop" => Some(ProcessorKind::Drop),
            "peek" => Some(ProcessorKind::Peek),
            _ => None,
        }
    }
}

/// Needed: 1 to 63 ASCII letters, digits, `-` or `_`, else `Bad`. That no other cache has it is checked later.
pub fn name(table: &Value, cache: usize) -> Result<Key, ConfigFault>
    ensures { GivesConfig (λ x. x) result
        (needed_table_member name_text cache Member.Name (view table.now)) }
{
    let member = Member::Name;
    table
        .get(member.name())
        .and_then(Value::as_str)
        .and_then(name_in)
        .ok_or(ConfigFault::Bad { cache, member })
}

/// Needed: rows, a TOML integer from 1 to 65,536, else `Bad`.
pub fn capacity(table: &Value, cache: usize) -> Result<u32, ConfigFault>
    ensures { GivesConfig (λ x. x) result
        (needed_table_member (number 1 most_rows) cache Member.Capacity (view table.now)) }
{
    let member = Member::Capacity;
    match table.get(member.name()).and_then(Value::as_integer) {
        Some(number) if number >= 1 && number <= MOST_ROWS as i64 => Ok(number as u32),
        _ => Err(ConfigFault::Bad { cache, member }),
    }
}

fn expiry(table: &Value, cache: usize) -> Result<ExpiryKind, ConfigFault>
    ensures { GivesConfig (λ x. x) result (table_expiry_or_eternal cache (view table.now)) }
{
    let member = Member::Expiry;
    match table.get(member.name()) {
        None => Ok(ExpiryKind::Eternal),
        Some(value) => value
            .as_str()
            .and_then(ExpiryKind::of)
            .ok_or(ConfigFault::Bad { cache, member }),
    }
}

/// The whole number that a value is, if it is one.
fn whole(value: &Value) -> Option<u64>
    ensures { result ≡ whole_number (view value.now) }
{
    match value.as_integer() {
        Some(number) if number >= 0 => Some(number as u64),
        _ => None,
    }
}

/// The members `expiry` and `duration`.
#[tactic(auto, unfolding(crate::specs::Members::table_policy))]
pub fn policy(table: &Value, cache: usize) -> Result<Policy, ConfigFault>
    ensures { GivesConfig (λ x. x) result (table_policy cache (view table.now)) }
{
    let kind = expiry(table, cache)?;
    let member = Member::Duration;
    let duration = table.get(member.name()).map(whole);
    kind.policy(duration)
        .ok_or(ConfigFault::Bad { cache, member })
}

/// `"echo"`, or none where the member is missing; anything else is `Bad`.
pub fn loader(table: &Value, cache: usize) -> Result<Option<LoaderKind>, ConfigFault>
    ensures { GivesConfig (λ x. x) result
        (optional (text_kind loader_of) cache Member.Loader (view table.now)) }
{
    let member = Member::Loader;
    match table.get(member.name()) {
        None => Ok(None),
        Some(value) => match value.as_str().and_then(LoaderKind::of) {
            Some(kind) => Ok(Some(kind)),
            None => Err(ConfigFault::Bad { cache, member }),
        },
    }
}

/// `"check"`, or none where the member is missing; anything else is `Bad`.
pub fn writer(table: &Value, cache: usize) -> Result<Option<WriterKind>, ConfigFault>
    ensures { GivesConfig (λ x. x) result
        (optional (text_kind writer_of) cache Member.Writer (view table.now)) }
{
    let member = Member::Writer;
    match table.get(member.name()) {
        None => Ok(None),
        Some(value) => match value.as_str().and_then(WriterKind::of) {
            Some(kind) => Ok(Some(kind)),
            None => Err(ConfigFault::Bad { cache, member }),
        },
    }
}

/// How many listeners: a TOML integer from 0 to 8, else `Bad`; 0 where the member is missing.
pub fn listeners(table: &Value, cache: usize) -> Result<u8, ConfigFault>
    ensures { GivesConfig (λ x. x) result (listeners_or_none cache (view table.now)) }
{
    let member = Member::Listeners;
    match table.get(member.name()) {
        None => Ok(0),
        Some(value) => match value.as_integer() {
            Some(number) if number >= 0 && number <= MOST_LISTENERS as i64 => Ok(number as u8),
            _ => Err(ConfigFault::Bad { cache, member }),
        },
    }
}
