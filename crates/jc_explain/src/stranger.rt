//! Members that are not known.
ghost use Rattle.std.specs.Prelude.{◌≡◌};
ghost use Rattle.toml.specs.View.{view, table_view};
ghost use Rattle.jc_explain.specs.Stranger.{is_known, stranger_in, stranger_of};
ghost use Rattle.jc_explain.specs.Words.{word_lent, words_lent};

use toml::{Table, Value};

/// Whether a word is among those that are known.
pub fn is_known(known: &[&str], word: &str) -> bool
    ensures { result ≡ is_known (words_lent known.now) word.now }
{
    for name in known {
        if *name == word {
            return true;
        }
    }
    false
}

/// The first member of a table, in the order of their names, that is not known.
pub fn stranger_in<'a>(known: &[&str], table: &'a Table) -> Option<&'a str>
    ensures { word_lent result ≡ stranger_in (words_lent known.now) (table_view table.now) }
{
    for name in table.keys() {
        if !is_known(known, name.as_str()) {
            return Some(name.as_str());
        }
    }
    None
}

/// The same of a value, if it is a table.
pub fn stranger_of<'a>(known: &[&str], value: &'a Value) -> Option<&'a str>
    ensures { word_lent result ≡ stranger_of (words_lent known.now) (view value.now) }
{
    match value.as_table() {
        Some(table) => stranger_in(known, table),
        None => None,
    }
}
