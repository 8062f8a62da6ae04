//! The form of a report.
ghost use Rattle.std.specs.Prelude.{◌≡◌, MatchOption};
ghost use Rattle.jc_cli.specs.Program.{NamesFormat, NamesNoFormat, SaysNoFormat, format_text, rows_in_matches};

use crate::run::Format;
use clap::ArgMatches;

/// The form of that name.
fn read_format(text: &str) -> Option<Format>
    ensures { MatchOption result (SaysNoFormat text.now) (λ form. text.now ≡ format_text form) }
{
    match text {
        "text" => Some(Format::Text),
        "json" => Some(Format::Json),
        _ => None,
    }
}

/// The form that the matches name.
pub(crate) fn format_in(matches: &ArgMatches<'_>) -> Option<Format>
    ensures { MatchOption result (NamesNoFormat (rows_in_matches matches.now))
        (NamesFormat (rows_in_matches matches.now)) }
{
    match matches.get_str("format") {
        Some(text) => read_format(text),
        None => None,
    }
}
