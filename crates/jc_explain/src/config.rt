//! Explanations of a configuration's faults.
ghost use Rattle.std.specs.Prelude.{◌≡◌, ◌≤◌, ◌-◌, IfOk, codes, length, take, option_map, string_bytes};
ghost use Rattle.toml.specs.View.{view, table_view};
ghost use Rattle.toml.specs.Data.{get, get_member};
ghost use Rattle.jc_config.specs.Config.{document_of};
ghost use Rattle.jc_explain.specs.Config.{place_line, TellsPlace, TellsNotToml, table_at, stranger_line, entry_lines, near_toml_value, toml_value_line, toml_member_lines, table_policy, table_lines, duplicate_lines, duplicate_lines_by, at_table, of_document, no_caches_line, TellsConfigFault};
ghost use Rattle.jc_explain.specs.Together.{sum_lines};
ghost use Rattle.jc_explain.specs.Words.{word_lent, words_lent};

use crate::found::show_toml;
use crate::lines::{join, member_line, missing_line, plain_line, show_text, suggest, unknown_line};
use crate::place::place_of;
use crate::policy::policy_line;
use crate::shape::config_shape;
use crate::spelling::nearest;
use crate::stranger::{stranger_in, stranger_of};
use crate::together::{first_line, sum_lines};
use crate::words::{config_allowed, config_members, config_words};
use jc_config::{ConfigFault, Member, read_document};
use std::alloc::{AllocError, Global};
use toml::{Table, Value};

/// A line about a place of a text.
fn place_line(alloc: Global, bytes: &[u8], at: usize, why: &str) -> Result<String, AllocError>
    requires { at ≤ length bytes.now }
    ensures { IfOk result (λ s. string_bytes s ≡ place_line (take at bytes.now) why.now) }
{
    let place = place_of(bytes, at);
    format!(in alloc; "  line {}, column {}: {why}\n", place.line, place.column)
}

/// A line about a place, or about the end of the text where it would lie behind that.
fn tell_place(alloc: Global, bytes: &[u8], at: usize, why: &str) -> Result<String, AllocError>
    ensures { IfOk result (λ s. TellsPlace bytes.now (string_bytes s)) }
{
    let at = at.min(bytes.len());
    place_line(alloc, bytes, at, why)
}

/// Where the bytes cease to be a TOML document, and what the reader of TOML says of it.
fn not_toml_at(alloc: Global, bytes: &[u8]) -> Result<String, AllocError>
    ensures { IfOk result (λ s. TellsPlace bytes.now (string_bytes s)) }
{
    match std::str::from_utf8(bytes) {
        Err(error) => tell_place(alloc, bytes, error.valid_up_to(), "not UTF-8"),
        Ok(text) => match toml::table_from_str(alloc, text) {
            Ok(_) => tell_place(alloc, bytes, 0, "read again, it is TOML"),
            Err(error) => match error.span() {
                None => Err(AllocError),
                Some(span) => tell_place(alloc, bytes, span.start, error.message()),
            },
        },
    }
}

/// The same, and what the whole configuration looks like.
fn not_toml(alloc: Global, bytes: &[u8]) -> Result<String, AllocError>
    ensures { IfOk result (λ s. TellsNotToml bytes.now (string_bytes s)) }
{
    let place = not_toml_at(alloc, bytes)?;
    let shape = config_shape(alloc, bytes)?;
    join(alloc, &place, &shape)
}

pub(crate) fn cache_entry(document: &Table) -> Option<&Value>
    ensures { option_map (λ v. view v.now) result ≡
        get_member (codes "cache") (table_view document.now) }
{
    document.get("cache")
}

/// The table of the cache with this number, counted from 1.
fn table_at(document: &Table, cache: usize) -> Option<&Value>
    ensures { option_map (λ v. view v.now) result ≡ table_at cache (table_view document.now) }
{
    match cache_entry(document) {
        Some(tables) => tables.get(cache.saturating_sub(1)),
        None => None,
    }
}

/// The line of a table's first member that is not known, if it has one.
fn stranger_line(
    alloc: Global,
    stranger: Option<&str>,
    known: &[&str],
) -> Result<String, AllocError>
    ensures { IfOk result (λ s.
        string_bytes s ≡ stranger_line (words_lent known.now) (word_lent stranger.entry)) }
{
    let Some(word) = stranger else {
        return Ok(String::new(alloc));
    };
    let near = nearest(alloc, word, known)?;
    let suggestion = suggest(alloc, near)?;
    let shown = show_text(alloc, word)?;
    unknown_line(alloc, shown.as_str(), suggestion.as_str())
}

/// What a document has besides `cache`, or what that has to be.
fn entry_lines(alloc: Global, document: &Table) -> Result<String, AllocError>
    ensures { IfOk result (λ s. string_bytes s ≡ entry_lines (table_view document.now)) }
{
    match stranger_in(&["cache"], document) {
        Some(word) => stranger_line(alloc, Some(word), &["cache"]),
        None => plain_line(
            alloc,
            "\"cache\" has to be a list of tables, each headed [[cache]]",
        ),
    }
}

/// The word nearest to a member's text, where the member has few words.
fn near_value<'a>(
    alloc: Global,
    value: &Value,
    words: &[&'a str],
) -> Result<Option<&'a str>, AllocError>
    ensures { IfOk result (λ near.
        word_lent near ≡ near_toml_value (view value.now) (words_lent words.now)) }
{
    match value.as_str() {
        Some(text) => nearest(alloc, text, words),
        None => Ok(None),
    }
}

/// A member of a table as it is, and as it has to be.
fn value_line(alloc: Global, value: &Value, member: Member) -> Result<String, AllocError>
    ensures { IfOk result (λ s. string_bytes s ≡ toml_value_line member (view value.now)) }
{
    let near = near_value(alloc, value, config_words(member))?;
    let suggestion = suggest(alloc, near)?;
    let shown = show_toml(alloc, value)?;
    member_line(
        alloc,
        member.name(),
        shown.as_str(),
        config_allowed(member),
        suggestion.as_str(),
    )
}

/// A member of a table that is bad. Where it is missing, the first member that is not known may be meant for it.
fn member_lines(alloc: Global, table: &Value, member: Member) -> Result<String, AllocError>
    ensures { IfOk result (λ s. string_bytes s ≡ toml_member_lines member (view table.now)) }
{
    match table.get(member.name()) {
        Some(value) => value_line(alloc, value, member),
        None => {
            let missing = missing_line(alloc, member.name(), config_allowed(member))?;
            let stranger = stranger_of(config_members(), table);
            let unknown = stranger_line(alloc, stranger, config_members())?;
            format!(in alloc; "{missing}{unknown}")
        }
    }
}

fn table_policy(alloc: Global, table: &Value) -> Result<String, AllocError>
    ensures { IfOk result (λ s. string_bytes s ≡ table_policy (view table.now)) }
{
    let has_expiry = table.get("expiry").is_some();
    let has_duration = table.get("duration").is_some();
    policy_line(alloc, has_expiry, has_duration)
}

/// A duration that is bad, and what the policy asks of it.
fn duration_lines(alloc: Global, table: &Value) -> Result<String, AllocError>
    ensures { IfOk result (λ s. string_bytes s ≡ table_lines Member.Duration (view table.now)) }
{
    let lines = member_lines(alloc, table, Member::Duration)?;
    let policy = table_policy(alloc, table)?;
    format!(in alloc; "{lines}{policy}")
}

/// What is bad in a table.
fn table_lines(alloc: Global, table: &Value, member: Member) -> Result<String, AllocError>
    ensures { IfOk result (λ s. string_bytes s ≡ table_lines member (view table.now)) }
{
    match member {
        Member::Entry => {
            let stranger = stranger_of(config_members(), table);
            stranger_line(alloc, stranger, config_members())
        }
        Member::Duration => duration_lines(alloc, table),
        Member::Name
        | Member::Capacity
        | Member::Expiry
        | Member::Loader
        | Member::Writer
        | Member::Processors
        | Member::Listeners => member_lines(alloc, table, member),
    }
}

fn name_line(alloc: Global, table: &Value) -> Result<String, AllocError>
    ensures { IfOk result (λ s. string_bytes s
        ≡ duplicate_lines_by (get (codes "name") (view table.now))) }
{
    match table.get("name") {
        Some(name) => {
            let shown = show_toml(alloc, name)?;
            member_line(
                alloc,
                "name",
                shown.as_str(),
                "another than that of each table before",
                "",
            )
        }
        None => Ok(String::new(alloc)),
    }
}

/// The name that an earlier table has too, and which.
fn duplicate_lines(alloc: Global, document: &Table, table: &Value) -> Result<String, AllocError>
    ensures { IfOk result (λ s. string_bytes s
        ≡ duplicate_lines (table_view document.now) (view table.now)) }
{
    let name = name_line(alloc, table)?;
    let first = first_line(alloc, document, table)?;
    format!(in alloc; "{name}{first}")
}

fn at_table(
    alloc: Global,
    bytes: &[u8],
    cache: usize,
    member: Option<Member>,
) -> Result<String, AllocError>
    ensures { IfOk result (λ s. string_bytes s ≡ at_table cache member (document_of bytes.now)) }
{
    let Some(document) = read_document(alloc, bytes)? else {
        return Ok(String::new(alloc));
    };
    match table_at(&document, cache) {
        Some(table) => match member {
            Some(member) => table_lines(alloc, table, member),
            None => duplicate_lines(alloc, &document, table),
        },
        None => Ok(String::new(alloc)),
    }
}

fn unknown_entry(alloc: Global, bytes: &[u8]) -> Result<String, AllocError>
    ensures { IfOk result (λ s. string_bytes s ≡ of_document entry_lines (document_of bytes.now)) }
{
    match read_document(alloc, bytes)? {
        Some(document) => entry_lines(alloc, &document),
        None => Ok(String::new(alloc)),
    }
}

fn total_lines(alloc: Global, bytes: &[u8]) -> Result<String, AllocError>
    ensures { IfOk result (λ s. string_bytes s ≡ of_document sum_lines (document_of bytes.now)) }
{
    match read_document(alloc, bytes)? {
        Some(document) => sum_lines(alloc, &document),
        None => Ok(String::new(alloc)),
    }
}

/// The lines that explain a fault of a configuration, of which these are the bytes.
pub fn explain_config(alloc: Global, bytes: &[u8], fault: ConfigFault) -> Result<String, AllocError>
    ensures { IfOk result (λ s. TellsConfigFault bytes.now fault (string_bytes s)) }
{
    match fault {
        ConfigFault::TooLong => plain_line(alloc, "at most 8388608 bytes are read"),
        ConfigFault::NotToml => not_toml(alloc, bytes),
        ConfigFault::UnknownEntry => unknown_entry(alloc, bytes),
        ConfigFault::Bad { cache, member } => at_table(alloc, bytes, cache, Some(member)),
        ConfigFault::TooManyCaches => plain_line(alloc, "at most 1024 tables [[cache]] are read"),
        ConfigFault::DuplicateName { cache } => at_table(alloc, bytes, cache, None),
        ConfigFault::TotalCapacity => total_lines(alloc, bytes),
        ConfigFault::OutOfMemory => Ok(String::new(alloc)),
    }
}

/// The line that explains why a configuration without caches is refused.
pub fn explain_no_caches(alloc: Global) -> Result<String, AllocError>
    ensures { IfOk result (λ s. string_bytes s ≡ no_caches_line) }
{
    plain_line(alloc, "--strict asks for a table [[cache]] at least")
}
