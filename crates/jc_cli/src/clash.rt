//! Words that can't stand together.

ghost use Rattle.std.specs.Prelude.{◌≡◌};
ghost use Rattle.clap.specs.Words.{first_of};
ghost use Rattle.jc_cli.specs.Program.{is_in_words, is_input, may_be_input, clash_of, rows_in_matches};

use clap::ArgMatches;
use clap::parser::ValueSource;

/// What can't stand together.
#[derive(Clone, Copy, Debug, PartialEq, Eq)]
pub enum Clash {
    /// `--serial` and `--workers`.
    Threads,
    /// Standard input for both files.
    Inputs,
}

impl Clash {
    /// What the words are told.
    pub(crate) fn text(self) -> &'static str {
        match self {
            Clash::Threads => "the argument '--serial' cannot be used with '--workers <N>'",
            Clash::Inputs => "standard input can be one of the files, and not both",
        }
    }
}

/// Whether the words have a value for this id, which has none by default.
fn is_in_words(matches: &ArgMatches<'_>, id: &str) -> bool
    ensures { result ≡ is_in_words id.now (rows_in_matches matches.now) }
{
    match matches.value_source(id) {
        None => false,
        Some(ValueSource::DefaultValue) => false,
        Some(ValueSource::CommandLine) => true,
    }
}

/// Whether a path stands for standard input.
pub fn is_input(path: &str) -> bool
    ensures { result ≡ is_input path.now }
{
    path == "-"
}

/// Whether the path of this id stands for standard input.
fn may_be_input(matches: &ArgMatches<'_>, id: &str) -> bool
    ensures { result ≡ may_be_input (first_of id.now (rows_in_matches matches.now)) }
{
    match matches.get_str(id) {
        None => false,
        Some(path) => is_input(path),
    }
}

/// What of the matches can't stand together.
pub(crate) fn clash_of(matches: &ArgMatches<'_>) -> Option<Clash>
    ensures { result ≡ clash_of (rows_in_matches matches.now) }
{
    if is_in_words(matches, "serial") && is_in_words(matches, "workers") {
        return Some(Clash::Threads);
    }
    if may_be_input(matches, "CONFIG") && may_be_input(matches, "SCRIPT") {
        return Some(Clash::Inputs);
    }
    None
}
