//! The words after the program's name, as `clap` reads them.

ghost use Rattle.std.specs.Prelude.{◌≡◌, ◌≤◌, ◌<◌, ◌^◌, ◌↔◌, [], IfOk, IfErr, IfSome, None, Ok, option_map, string_bytes};
ghost use Rattle.std.specs.List.{All};
ghost use Rattle.jc_cli.specs.Program.{AsksRun, AsksBy, AsksCheck, AsksFor, AsksForNone, AsksInFull, AsksOptions, AsksReplay, HaveNoCheck, HaveNoOptions, HaveNoReplay, HaveNoRun, IsRowCount, KeepsLimits, MayRefuse, MayRefuseInFull, rows_in_matches, texts_lent};

use crate::asked::{Asked, Check, Replay};
use crate::capacities::read_capacities;
use crate::clash::clash_of;
use crate::command::program;
use crate::explain::{explain_in, written_out};
use crate::format::format_in;
use crate::help;
use crate::hint::without_far_hint;
use crate::run::{Options, Run};
use clap::error::ErrorKind;
use clap::{ArgMatches, Error};
use std::alloc::{AllocError, Global};

/// The greatest seed.
const MAX_SEED: u64 = 9_223_372_036_854_775_807;

fn options(matches: &ArgMatches<'_>) -> Option<Options>
    ensures asks { IfSome result (AsksOptions (rows_in_matches matches.now)) }
    ensures workers { IfSome result (λ o. (1 ≤ o.workers) × (o.workers ≤ 8)) }
    ensures seed { IfSome result (λ o. o.seed < 2 ^ 63) }
    ensures none { result ≡ None → HaveNoOptions (rows_in_matches matches.now) }
{
    let workers = matches.get_one::<u8>("workers")?;
    let seed = matches.get_one::<u64>("seed")?;
    let serial = matches.get_one::<bool>("serial")?;
    let format = format_in(matches)?;
    let strict = matches.get_one::<bool>("strict")?;
    let explain = explain_in(matches)?;
    if workers < 1 || workers > 8 || seed > MAX_SEED {
        return None;
    }
    Some(Options {
        workers,
        seed,
        serial,
        format,
        strict,
        explain,
    })
}

/// What the matches of `run` ask for.
fn run_asked(alloc: Global, matches: &ArgMatches<'_>) -> Result<Option<Run>, AllocError>
    ensures asks { IfOk result (λ run. IfSome run (AsksRun (rows_in_matches matches.now))) }
    ensures workers { IfOk result (λ run. IfSome run (λ r. (1 ≤ r.workers) × (r.workers ≤ 8))) }
    ensures seed { IfOk result (λ run. IfSome run (λ r. r.seed < 2 ^ 63)) }
    ensures none { IfOk result (λ run. run ≡ None → HaveNoRun (rows_in_matches matches.now)) }
{
    let Some(config) = matches.get_str("CONFIG") else {
        return Ok(None);
    };
    let Some(script) = matches.get_str("SCRIPT") else {
        return Ok(None);
    };
    let Some(options) = options(matches) else {
        return Ok(None);
    };
    Ok(Some(Run {
        config: String::from_str(alloc, config)?,
        script: String::from_str(alloc, script)?,
        workers: options.workers,
        seed: options.seed,
        serial: options.serial,
        format: options.format,
        strict: options.strict,
        explain: options.explain,
    }))
}

/// A text of its own, where there is a text.
fn own_text(alloc: Global, text: Option<&str>) -> Result<Option<String>, AllocError>
    ensures { IfOk result (λ o. option_map string_bytes o ≡ option_map (λ t. t.now) text.entry) }
{
    match text {
        Some(text) => Ok(Some(String::from_str(alloc, text)?)),
        None => Ok(None),
    }
}

/// What the matches of `check` ask for.
fn check_asked(alloc: Global, matches: &ArgMatches<'_>) -> Result<Option<Check>, AllocError>
    ensures asks { IfOk result (λ check. IfSome check (AsksCheck (rows_in_matches matches.now))) }
    ensures none { IfOk result (λ check. check ≡ None → HaveNoCheck (rows_in_matches matches.now)) }
{
    let Some(config) = matches.get_str("CONFIG") else {
        return Ok(None);
    };
    let Some(strict) = matches.get_one::<bool>("strict") else {
        return Ok(None);
    };
    let Some(all) = matches.get_one::<bool>("all") else {
        return Ok(None);
    };
    let Some(explain) = explain_in(matches) else {
        return Ok(None);
    };
    let script = own_text(alloc, matches.get_str("SCRIPT"))?;
    let config = String::from_str(alloc, config)?;
    Ok(Some(Check {
        config,
        script,
        strict,
        all,
        explain,
    }))
}

/// What the matches of `replay` ask for.
fn replay_asked(alloc: Global, matches: &ArgMatches<'_>) -> Result<Option<Replay>, AllocError>
    ensures asks { IfOk result (λ replay.
        IfSome replay (AsksReplay (rows_in_matches matches.now))) }
    ensures limits { IfOk result (λ replay.
        IfSome replay (λ r. All IsRowCount r.capacities.items)) }
    ensures none { IfOk result (λ replay.
        replay ≡ None → HaveNoReplay (rows_in_matches matches.now)) }
{
    let Some(trace) = matches.get_str("TRACE") else {
        return Ok(None);
    };
    let Some(list) = matches.get_str("capacity") else {
        return Ok(None);
    };
    let Some(capacities) = read_capacities(alloc, list)? else {
        return Ok(None);
    };
    let Some(format) = format_in(matches) else {
        return Ok(None);
    };
    let Some(explain) = explain_in(matches) else {
        return Ok(None);
    };
    let trace = String::from_str(alloc, trace)?;
    Ok(Some(Replay {
        trace,
        capacities,
        format,
        explain,
    }))
}

/// What the matches of a subcommand ask for.
fn read_asked(
    alloc: Global,
    name: &str,
    matches: &ArgMatches<'_>,
) -> Result<Option<Asked>, AllocError>
    ensures asks { IfOk result (λ asked.
        IfSome asked (AsksBy (name.now, rows_in_matches matches.now))) }
    ensures limits { IfOk result (λ asked. IfSome asked KeepsLimits) }
    ensures none { IfOk result (λ asked.
        asked ≡ None → AsksForNone (name.now, rows_in_matches matches.now)) }
{
    if name == "run" {
        return match run_asked(alloc, matches)? {
            Some(run) => Ok(Some(Asked::Run(run))),
            None => Ok(None),
        };
    }
    if name == "check" {
        return match check_asked(alloc, matches)? {
            Some(check) => Ok(Some(Asked::Check(check))),
            None => Ok(None),
        };
    }
    if name == "replay" {
        return match replay_asked(alloc, matches)? {
            Some(replay) => Ok(Some(Asked::Replay(replay))),
            None => Ok(None),
        };
    }
    Ok(None)
}

/// What words are told that ask for nothing.
fn unasked_text(matches: &ArgMatches<'_>) -> &'static str {
    match matches.subcommand() {
        None => help::NO_LIST,
        Some((name, inner)) => {
            if explain_in(inner).is_none() {
                help::NO_EXPLAIN
            } else if name != "check" && format_in(inner).is_none() {
                help::NO_FORMAT
            } else {
                help::NO_LIST
            }
        }
    }
}

/// What words ask for that are written out.
fn read_whole<'a>(alloc: Global, words: &'a [&'a str]) -> Result<Asked, Error>
    ensures exact { IfOk result (AsksInFull (texts_lent words.entry.now)) }
    ensures limits { IfOk result KeepsLimits }
    ensures refused { IfErr result (MayRefuseInFull (texts_lent words.entry.now)) }
{
    let mut command = program(alloc)?;
    let matches = command.try_get_matches_from_mut(words)?;
    if let Some((name, inner)) = matches.subcommand() {
        if let Some(clash) = clash_of(inner) {
            return Err(command.error(ErrorKind::ArgumentConflict, clash.text())?);
        }
        if let Some(asked) = read_asked(alloc, name, inner)? {
            return Ok(asked);
        }
    }
    Err(command.error(ErrorKind::InvalidSubcommand, unasked_text(&matches))?)
}

/// What the words after the program's name ask for: nothing where there are none, else a run, a check or a replay.
///
/// The error's text is for the user; it is the help where that was asked for.
///
/// Words that ask for a check, for a replay, or for a run within the limits, are refused for a fault of `clap`'s or for
/// want of memory alone. `--serial` beside `--workers` asks for nothing, nor does standard input for both files, nor
/// a form that no report has, nor another time to explain than always, never and auto, nor capacities that are no list.
///
/// What the clauses do not say: that words which `clap` takes ask for a run or a check, since its contract does not give
/// the rows of a subcommand for every such words; that want of memory comes only where memory was refused; which of
/// several mistakes is told, and the texts of mistakes and of help.
#[tactic(auto, using(crate::proofs::Readings::same_kind))]
pub fn read_words(alloc: Global, words: &[&str]) -> Result<Option<Asked>, Error>
    ensures none { IfOk result (λ asked. (asked ≡ None) ↔ (words.now ≡ [])) }
    ensures wordless { words.now ≡ [] → result ≡ Ok None }
    ensures exact { IfOk result (λ asked. IfSome asked (AsksFor (texts_lent words.now))) }
    ensures limits { IfOk result (λ asked. IfSome asked KeepsLimits) }
    ensures refused { IfErr result (MayRefuse (texts_lent words.now)) }
{
    if words.is_empty() {
        return Ok(None);
    }
    let written = written_out(alloc, words)?;
    match read_whole(alloc, written.as_slice()) {
        Ok(asked) => Ok(Some(asked)),
        Err(error) => Err(without_far_hint(alloc, error)),
    }
}
