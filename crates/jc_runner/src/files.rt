//! The two files of a run: the configuration, and the script that is played with its callbacks.
ghost use Rattle.std.specs.Prelude.{◌≡◌, ◌≢◌, ◌<◌, ℕ, true, false, List, IfOk, IfErr, Ok, Err, string_bytes};
ghost use Rattle.jc_runner.specs.Disks.{AsksForPath, FailsToOpen};
ghost use Rattle.jc_cli.specs.Meters.{most_reads, AddsAtMost};
ghost use Rattle.jc_runner.specs.Opens.{CanOpenConfiguration};
ghost use Rattle.jc_runner.specs.Program.{RunEnds, ConfigEnds, ScriptEnds, FilesEnd, allowed_config, IsUnreadFile, ConfigAt, AskedScriptEnds};
ghost use Rattle.jc_cli.specs.declared.fault.RunFault.TheVariants.{Read, Memory};

pub mod check;
pub mod configuration;
pub mod disk;
pub mod replay;

use crate::callbacks::named::all_hooks;
use crate::command::streams::{RunFiles, Standard};
use crate::files::configuration::read_configuration;
use crate::files::disk::{Disk, OpenFault};
use crate::form::{Script, form_of};
use crate::serial_run::{
    CacheSetup, SerialOptions, SerialRun, lines_of, reject_unknown_members, serial_as,
};
use crate::threaded_run::{Crew, Setup, threaded_as};
use jc_cli::{ProgramFault, Run, RunFault, WatchedReader, WatchedWriter, is_input, read_bytes};
use jc_config::Configuration;
use jc_threads::OpenGate;
use std::alloc::Global;
use std::io::{Read, Write};
use std::sync::Wait;
use std::thread::Threads;

/// Opens a configuration and reads it to its end.
pub(crate) fn open_configuration<D: Disk>(
    alloc: Global,
    disk: &mut D,
    path: &str,
    config: &mut Option<WatchedReader<D::File>>,
) -> Result<Configuration, ProgramFault>
    ensures ends { ConfigEnds D.File.remaining (D.holds disk.old path.now) config.new result }
    ensures opens { IfOk result CanOpenConfiguration }
    ensures asked { AsksForPath (D.asked disk.old) (D.asked disk.new) path.now }
    ensures same { (other : List ℕ) → D.holds disk.new other ≡ D.holds disk.old other }
{
    *config = None;
    let file = match disk.open(path) {
        Ok(file) => file,
        Err(OpenFault::Unreadable) => return Err(ProgramFault::ConfigRead),
        Err(OpenFault::OutOfMemory) => return Err(ProgramFault::Run(RunFault::Memory)),
    };
    let mut reader = WatchedReader::new(file);
    let configuration = read_configuration(alloc, &mut reader);
    *config = Some(reader);
    configuration
}

/// Reads a configuration to its end: standard input, or a file that is opened.
pub(crate) fn configured_from<D: Disk, I: Read>(
    alloc: Global,
    disk: &mut D,
    path: &str,
    config: &mut Option<WatchedReader<D::File>>,
    input: &mut WatchedReader<I>,
) -> Result<Configuration, ProgramFault>
    ensures ends { ConfigAt D.File.remaining I.remaining (D.holds disk.old) path.now
        (D.asked disk.old) (D.asked disk.new) input.old input.new config.new result }
    ensures opens { IfOk result CanOpenConfiguration }
    ensures same { (other : List ℕ) → D.holds disk.new other ≡ D.holds disk.old other }
{
    if is_input(path) {
        *config = None;
        return read_configuration(alloc, input);
    }
    open_configuration(alloc, disk, path, config)
}

/// A configuration, where it has caches or may have none.
pub(crate) fn require_caches(
    strict: bool,
    configuration: Configuration,
) -> Result<Configuration, ProgramFault>
    ensures same { result ≡ allowed_config strict (Ok configuration) }
    ensures only { IfOk result (λ c. c ≡ configuration) }
{
    if strict && configuration.settings.caches().is_empty() {
        return Err(ProgramFault::NoCaches);
    }
    Ok(configuration)
}

/// A run that words ask for, and the configuration that was read for it.
#[derive(Drop)]
struct ConfiguredRun<'a> {
    run: &'a Run,
    configuration: Configuration,
}

/// Runs a script in its lines' order with the callbacks that the configuration names.
pub(crate) fn play<I: Read, O: Write>(
    alloc: Global,
    configuration: Configuration,
    options: SerialOptions,
    reader: &mut WatchedReader<I>,
    writer: &mut WatchedWriter<O>,
) -> Result<(), RunFault>
    requires { CanOpenConfiguration configuration }
    ensures ends { RunEnds I.remaining O.contents
        true options.strict options.format configuration
        reader.old reader.new writer.old writer.new result }
    ensures unfailed { result ≢ Err Read → reader.new.failures ≡ reader.old.failures }
    ensures reads { AddsAtMost most_reads reader.old.reads reader.new.reads }
{
    let Configuration { settings, hooks } = configuration;
    let mut hooks = all_hooks(alloc, settings.caches(), hooks.items())?;
    let run = SerialRun {
        setup: CacheSetup {
            settings,
            seed: options.seed,
        },
        strict: options.strict,
        format: options.format,
    };
    serial_as(alloc, run, hooks.as_mut_slice(), reader, writer)
}

/// Runs a script on so many workers, with the callbacks that the configuration names.
fn play_together<I: Read, O: Write, R: Threads + Wait + Sync>(
    rt: &R,
    alloc: Global,
    configured: ConfiguredRun<'_>,
    reader: &mut WatchedReader<I>,
    writer: &mut WatchedWriter<O>,
) -> Result<(), RunFault>
    requires opens { CanOpenConfiguration configured.configuration }
    requires workers { 0 < configured.run.now.workers }
    ensures ends { RunEnds I.remaining O.contents
        false configured.entry.run.now.strict configured.entry.run.now.format
        configured.entry.configuration reader.old reader.new writer.old writer.new result }
    ensures unfailed { result ≢ Err Read → reader.new.failures ≡ reader.old.failures }
    ensures reads { AddsAtMost most_reads reader.old.reads reader.new.reads }
{
    let ConfiguredRun { run, configuration } = configured;
    let Configuration { settings, hooks } = configuration;
    let bytes = read_bytes(alloc, reader)?;
    let lines = lines_of(alloc, bytes.as_slice(), &settings)?;
    reject_unknown_members(alloc, bytes.as_slice(), run.strict)?;
    let form = form_of(alloc, run.format, bytes.as_slice(), lines.as_slice())?;
    let hooks = all_hooks(alloc, settings.caches(), hooks.items())?;
    let setup = Setup {
        settings,
        hooks,
        seed: run.seed,
    };
    let crew = Crew {
        threads: rt,
        workers: run.workers as usize,
        gate: &OpenGate,
    };
    threaded_as(alloc, setup, &crew, Script { lines, form }, writer)
}

/// Runs a script as the words ask for it: in its lines' order, or on workers.
fn play_so<I: Read, O: Write, R: Threads + Wait + Sync>(
    rt: &R,
    alloc: Global,
    configured: ConfiguredRun<'_>,
    reader: &mut WatchedReader<I>,
    writer: &mut WatchedWriter<O>,
) -> Result<(), RunFault>
    requires opens { CanOpenConfiguration configured.configuration }
    requires workers { 0 < configured.run.now.workers }
    ensures ends { RunEnds I.remaining O.contents configured.entry.run.now.serial
        configured.entry.run.now.strict configured.entry.run.now.format
        configured.entry.configuration reader.old reader.new writer.old writer.new result }
    ensures unfailed { result ≢ Err Read → reader.new.failures ≡ reader.old.failures }
    ensures reads { AddsAtMost most_reads reader.old.reads reader.new.reads }
{
    if configured.run.serial {
        let ConfiguredRun { run, configuration } = configured;
        let options = SerialOptions {
            seed: run.seed,
            strict: run.strict,
            format: run.format,
        };
        return play(alloc, configuration, options, reader, writer);
    }
    play_together(rt, alloc, configured, reader, writer)
}

/// Opens a script.
pub(crate) fn open_script<D: Disk>(
    disk: &mut D,
    path: &str,
) -> Result<WatchedReader<D::File>, RunFault>
    ensures unread { IfOk result (IsUnreadFile D.File.remaining (D.holds disk.old path.now)) }
    ensures unopened { IfErr result (FailsToOpen Read Memory (D.holds disk.old path.now)) }
    ensures asked { AsksForPath (D.asked disk.old) (D.asked disk.new) path.now }
    ensures same { (other : List ℕ) → D.holds disk.new other ≡ D.holds disk.old other }
{
    match disk.open(path) {
        Ok(file) => Ok(WatchedReader::new(file)),
        Err(OpenFault::Unreadable) => Err(RunFault::Read),
        Err(OpenFault::OutOfMemory) => Err(RunFault::Memory),
    }
}

/// Opens a script and runs it.
fn run_script_file<D: Disk, O: Write, R: Threads + Wait + Sync>(
    rt: &R,
    alloc: Global,
    files: &mut RunFiles<D, D::File>,
    configured: ConfiguredRun<'_>,
    writer: &mut WatchedWriter<O>,
) -> Result<(), RunFault>
    requires opens { CanOpenConfiguration configured.configuration }
    requires workers { 0 < configured.run.now.workers }
    ensures ends { ScriptEnds D.File.remaining
        (D.holds files.old.disk (string_bytes configured.entry.run.now.script)) O.contents
        configured.entry.run.now.serial configured.entry.run.now.strict
        configured.entry.run.now.format configured.entry.configuration
        writer.old writer.new files.new.opened.script result }
    ensures asked { AsksForPath (D.asked files.old.disk) (D.asked files.new.disk)
        (string_bytes configured.entry.run.now.script) }
    ensures config { files.new.opened.config ≡ files.old.opened.config }
    ensures same { (other : List ℕ) → D.holds files.new.disk other ≡ D.holds files.old.disk other }
{
    files.opened.script = None;
    let mut reader = open_script(&mut files.disk, configured.run.script.as_str())?;
    let ran = play_so(rt, alloc, configured, &mut reader, writer);
    files.opened.script = Some(reader);
    ran
}

/// Runs a script: standard input, or a file that is opened.
fn scripted_from<D: Disk, I: Read, O: Write, E, R: Threads + Wait + Sync>(
    rt: &R,
    alloc: Global,
    files: &mut RunFiles<D, D::File>,
    configured: ConfiguredRun<'_>,
    standard: &mut Standard<I, O, E>,
) -> Result<(), RunFault>
    requires opens { CanOpenConfiguration configured.configuration }
    requires workers { 0 < configured.run.now.workers }
    ensures ends { AskedScriptEnds D.File.remaining I.remaining O.contents
        (D.holds files.old.disk) configured.entry.run.now configured.entry.configuration
        (D.asked files.old.disk) (D.asked files.new.disk)
        standard.old.input standard.new.input standard.old.output standard.new.output
        files.new.opened.script result }
    ensures config { files.new.opened.config ≡ files.old.opened.config }
    ensures errors { standard.new.errors ≡ standard.old.errors }
    ensures same { (other : List ℕ) → D.holds files.new.disk other ≡ D.holds files.old.disk other }
{
    if is_input(configured.run.script.as_str()) {
        files.opened.script = None;
        return play_so(
            rt,
            alloc,
            configured,
            &mut standard.input,
            &mut standard.output,
        );
    }
    run_script_file(rt, alloc, files, configured, &mut standard.output)
}

/// Runs the two files that the words name: first the configuration is read, then the script. Either may be standard
/// input. Nothing is said on standard error.
pub fn run_files<D: Disk, I: Read, O: Write, E, R: Threads + Wait + Sync>(
    rt: &R,
    alloc: Global,
    files: &mut RunFiles<D, D::File>,
    run: &Run,
    standard: &mut Standard<I, O, E>,
) -> Result<(), ProgramFault>
    requires { 0 < run.now.workers }
    ensures ends { FilesEnd D.File.remaining I.remaining O.contents
        (D.holds files.old.disk) (D.asked files.old.disk) (D.asked files.new.disk)
        run.now files.new.opened.config files.new.opened.script
        standard.old.input standard.new.input standard.old.output standard.new.output result }
    ensures errors { standard.new.errors ≡ standard.old.errors }
    ensures same { (other : List ℕ) → D.holds files.new.disk other ≡ D.holds files.old.disk other }
{
    files.opened.script = None;
    let path = run.config.as_str();
    let config = &mut files.opened.config;
    let input = &mut standard.input;
    let read = configured_from(alloc, &mut files.disk, path, config, input)?;
    let configuration = require_caches(run.strict, read)?;
    let configured = ConfiguredRun { run, configuration };
    match scripted_from(rt, alloc, files, configured, standard) {
        Ok(()) => Ok(()),
        Err(fault) => Err(ProgramFault::Run(fault)),
    }
}
