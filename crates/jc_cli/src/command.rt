//! The command that `clap` is given.

ghost use Rattle.std.specs.Prelude.{◌≡◌, IfOk, true, false};
ghost use Rattle.clap.specs.Words.{app_of, new_app, rule_of};
ghost use Rattle.clap.specs.declared.builder.Command.TheViews.{out-Command};
ghost use Rattle.jc_cli.specs.Program.{path_rule, workers_rule, seed_rule, format_rule, flag_rule, capacity_rule, run_app, check_app, explain_rule, replay_app, bare_app, program as program_app};

use crate::help;
use clap::{Arg, ArgAction, Command, value_parser};
use std::alloc::{AllocError, Global};

/// A path that has to be there.
fn path<'a>(alloc: Global, id: &'a str, help: &'a str) -> Arg<'a>
    ensures rule { rule_of result ≡ path_rule id.entry.now true }
    ensures global { result.global ≡ false }
{
    optional_path(alloc, id, help).required(true)
}

fn optional_path<'a>(alloc: Global, id: &'a str, help: &'a str) -> Arg<'a>
    ensures rule { rule_of result ≡ path_rule id.entry.now false }
    ensures global { result.global ≡ false }
{
    Arg::new(alloc, id).help(help).action(ArgAction::Set)
}

fn workers<'a>(alloc: Global) -> Arg<'a>
    ensures rule { rule_of result ≡ workers_rule }
    ensures global { result.global ≡ false }
{
    Arg::new(alloc, "workers")
        .long("workers")
        .value_name("N")
        .help(help::WORKERS)
        .action(ArgAction::Set)
        .value_parser(value_parser!(u8).range(1..=8))
        .default_value("1")
}

fn seed<'a>(alloc: Global) -> Arg<'a>
    ensures rule { rule_of result ≡ seed_rule }
    ensures global { result.global ≡ false }
{
    Arg::new(alloc, "seed")
        .long("seed")
        .value_name("N")
        .help(help::SEED)
        .action(ArgAction::Set)
        .value_parser(value_parser!(i64).range(0..))
        .default_value("0")
}

fn format<'a>(alloc: Global, help: &'a str) -> Arg<'a>
    ensures rule { rule_of result ≡ format_rule }
    ensures global { result.global ≡ false }
{
    Arg::new(alloc, "format")
        .long("format")
        .value_name("FORM")
        .help(help)
        .action(ArgAction::Set)
        .default_value("text")
}

fn explain<'a>(alloc: Global) -> Arg<'a>
    ensures rule { rule_of result ≡ explain_rule }
    ensures global { result.global ≡ false }
{
    Arg::new(alloc, "explain")
        .long("explain")
        .value_name("WHEN")
        .help(help::EXPLAIN)
        .action(ArgAction::Set)
        .default_value("auto")
}

/// An option without a value.
fn flag<'a>(alloc: Global, id: &'a str, help: &'a str) -> Arg<'a>
    ensures rule { rule_of result ≡ flag_rule id.entry.now }
    ensures global { result.global ≡ false }
{
    Arg::new(alloc, id)
        .long(id)
        .help(help)
        .action(ArgAction::SetTrue)
}

/// A command with the help's texts; the last stands below the arguments.
fn command_with_help<'a>(
    alloc: Global,
    name: &'a str,
    about: &'a str,
    after: &'a str,
) -> Command<'a>
    ensures app { app_of result ≡ new_app name.entry.now }
    ensures local { (out-Command result).has_globals ≡ false }
{
    Command::new(alloc, name).about(about).after_help(after)
}

fn run<'a>(alloc: Global) -> Result<Command<'a>, AllocError>
    ensures app { IfOk result (λ c. app_of c ≡ run_app) }
    ensures local { IfOk result (λ c. (out-Command c).has_globals ≡ false) }
{
    command_with_help(alloc, "run", help::RUN, help::AFTER_FILES)
        .arg(path(alloc, "CONFIG", help::CONFIG))?
        .arg(path(alloc, "SCRIPT", help::SCRIPT))?
        .arg(workers(alloc))?
        .arg(seed(alloc))?
        .arg(flag(alloc, "serial", help::SERIAL))?
        .arg(format(alloc, help::FORMAT))?
        .arg(flag(alloc, "strict", help::STRICT))?
        .arg(explain(alloc))
}

fn check<'a>(alloc: Global) -> Result<Command<'a>, AllocError>
    ensures app { IfOk result (λ c. app_of c ≡ check_app) }
    ensures local { IfOk result (λ c. (out-Command c).has_globals ≡ false) }
{
    command_with_help(alloc, "check", help::CHECK, help::AFTER_FILES)
        .arg(path(alloc, "CONFIG", help::CONFIG))?
        .arg(optional_path(alloc, "SCRIPT", help::SCRIPT))?
        .arg(flag(alloc, "strict", help::STRICT))?
        .arg(flag(alloc, "all", help::ALL))?
        .arg(explain(alloc))
}

fn capacity<'a>(alloc: Global) -> Arg<'a>
    ensures rule { rule_of result ≡ capacity_rule }
    ensures global { result.global ≡ false }
{
    Arg::new(alloc, "capacity")
        .long("capacity")
        .value_name("LIST")
        .help(help::CAPACITY)
        .action(ArgAction::Set)
        .required(true)
}

fn replay<'a>(alloc: Global) -> Result<Command<'a>, AllocError>
    ensures app { IfOk result (λ c. app_of c ≡ replay_app) }
    ensures local { IfOk result (λ c. (out-Command c).has_globals ≡ false) }
{
    command_with_help(alloc, "replay", help::REPLAY, help::AFTER_TRACE)
        .arg(path(alloc, "TRACE", help::TRACE))?
        .arg(capacity(alloc))?
        .arg(format(alloc, help::TABLE))?
        .arg(explain(alloc))
}

/// The program's command without its subcommands.
fn bare<'a>(alloc: Global) -> Result<Command<'a>, AllocError>
    ensures app { IfOk result (λ c. app_of c ≡ bare_app) }
{
    command_with_help(alloc, "jcache", help::ABOUT, help::BRIEF)
        .after_long_help(help::AFTER)
        .version(help::VERSION)
        .propagate_version(true)
        .override_usage(help::USAGE)
        .no_binary_name(true)
        .subcommand_required(true)
        .bin_name("jcache")
}

/// The program's command.
pub fn program<'a>(alloc: Global) -> Result<Command<'a>, AllocError>
    ensures app { IfOk result (λ c. app_of c ≡ program_app) }
{
    bare(alloc)?
        .subcommand(run(alloc)?)?
        .subcommand(check(alloc)?)?
        .subcommand(replay(alloc)?)
}
