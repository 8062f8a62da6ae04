//! A check of the two files of a run, which runs nothing.
ghost use Rattle.std.specs.Prelude.{◌≡◌, ◌≢◌, ℕ, List, Err};
ghost use Rattle.jc_runner.specs.Disks.{AsksForPath};
ghost use Rattle.jc_cli.specs.Meters.{most_reads, AddsAtMost};
ghost use Rattle.jc_runner.specs.Program.{LinesEnd, ScriptRead, CheckEnds, LinesAt};
ghost use Rattle.jc_cli.specs.declared.fault.RunFault.TheVariants.{Read};

use crate::command::streams::RunFiles;
use crate::files::disk::Disk;
use crate::files::{configured_from, open_script, require_caches};
use crate::serial_run::{lines_of, reject_unknown_members};
use jc_cli::{Check, ProgramFault, RunFault, WatchedReader, is_input, read_bytes};
use jc_config::Settings;
use std::alloc::Global;
use std::io::Read;

/// What lines are checked by: the settings of the caches, and whether a member that no op needs is refused.
#[derive(Clone, Copy)]
struct LineRules<'a> {
    settings: &'a Settings,
    strict: bool,
}

/// Reads a script to its end, and its lines.
fn check_lines<I: Read>(
    alloc: Global,
    rules: LineRules<'_>,
    reader: &mut WatchedReader<I>,
) -> Result<(), RunFault>
    ensures ends { LinesEnd I.remaining rules.entry.strict rules.entry.settings.now
        reader.old reader.new result }
    ensures unfailed { result ≢ Err Read → reader.new.failures ≡ reader.old.failures }
    ensures reads { AddsAtMost most_reads reader.old.reads reader.new.reads }
{
    let bytes = read_bytes(alloc, reader)?;
    match lines_of(alloc, bytes.as_slice(), rules.settings) {
        Ok(_) => reject_unknown_members(alloc, bytes.as_slice(), rules.strict),
        Err(fault) => Err(fault),
    }
}

/// Opens a script and reads it to its end.
fn check_script<D: Disk>(
    alloc: Global,
    files: &mut RunFiles<D, D::File>,
    path: &str,
    rules: LineRules<'_>,
) -> Result<(), RunFault>
    ensures ends { ScriptRead D.File.remaining (D.holds files.old.disk path.now)
        rules.entry.strict rules.entry.settings.now files.new.opened.script result }
    ensures asked { AsksForPath (D.asked files.old.disk) (D.asked files.new.disk) path.now }
    ensures config { files.new.opened.config ≡ files.old.opened.config }
    ensures same { (other : List ℕ) → D.holds files.new.disk other ≡ D.holds files.old.disk other }
{
    files.opened.script = None;
    let mut reader = open_script(&mut files.disk, path)?;
    let checked = check_lines(alloc, rules, &mut reader);
    files.opened.script = Some(reader);
    checked
}

/// Reads a script to its end: standard input, or a file that is opened.
fn check_from<D: Disk, I: Read>(
    alloc: Global,
    files: &mut RunFiles<D, D::File>,
    path: &str,
    rules: LineRules<'_>,
    input: &mut WatchedReader<I>,
) -> Result<(), RunFault>
    ensures ends { LinesAt D.File.remaining I.remaining (D.holds files.old.disk) path.now
        (D.asked files.old.disk) (D.asked files.new.disk) input.old input.new
        rules.entry.strict rules.entry.settings.now files.new.opened.script result }
    ensures config { files.new.opened.config ≡ files.old.opened.config }
    ensures same { (other : List ℕ) → D.holds files.new.disk other ≡ D.holds files.old.disk other }
{
    if is_input(path) {
        files.opened.script = None;
        return check_lines(alloc, rules, input);
    }
    check_script(alloc, files, path, rules)
}

/// Reads the files that the words name, first the configuration, and runs nothing. Either may be standard input.
///
/// `Ok` where none has a fault; else the fault that a run of the same files ends with before its first call.
pub fn check_files<D: Disk, I: Read>(
    alloc: Global,
    files: &mut RunFiles<D, D::File>,
    check: &Check,
    input: &mut WatchedReader<I>,
) -> Result<(), ProgramFault>
    ensures ends { CheckEnds D.File.remaining I.remaining
        (D.holds files.old.disk) (D.asked files.old.disk) (D.asked files.new.disk)
        check.now files.new.opened.config files.new.opened.script input.old input.new result }
    ensures same { (other : List ℕ) → D.holds files.new.disk other ≡ D.holds files.old.disk other }
{
    files.opened.script = None;
    let path = check.config.as_str();
    let config = &mut files.opened.config;
    let read = configured_from(alloc, &mut files.disk, path, config, input)?;
    let configuration = require_caches(check.strict, read)?;
    let Some(path) = &check.script else {
        return Ok(());
    };
    let rules = LineRules {
        settings: &configuration.settings,
        strict: check.strict,
    };
    let path = path.as_str();
    match check_from(alloc, files, path, rules, input) {
        Ok(()) => Ok(()),
        Err(fault) => Err(ProgramFault::Run(fault)),
    }
}
