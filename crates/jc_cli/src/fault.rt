//! The faults of a run and of the program, and the line that tells each.
ghost use Rattle.std.specs.Prelude.{◌≡◌, not, is_err, IfOk, OnOk, codes, string_bytes};
ghost use Rattle.std.specs.Bool.{OnTrue};
ghost use Rattle.std.specs.Option.{option_copied};
ghost use Rattle.jc_cli.specs.declared.fault.RunFault.TheVariants.{Memory};
ghost use Rattle.jc_cli.specs.Faults.{of_work, bad_line, bad_cache_line, script_line, config_line, trace_line, run_line, fault_line, explained_line, told_lines, is_of_config, is_of_report, listed_line};
ghost use Rattle.jc_cli.specs.Meters.{next_count_if};
ghost use Rattle.jc_cli.specs.Watching.{AddsText};

use crate::output::WatchedWriter;
use jc_config::ConfigFault;
use jc_replay::ReplayFault;
use jc_script::ScriptFault;
use jc_threads::WorkFault;
use std::alloc::{AllocError, AllocFailed, Global};
use std::io;
use std::io::Write;
use thiserror::Error;

/// The fault of a run.
#[derive(Debug, Drop, PartialEq, Eq, Error)]
pub enum RunFault {
    #[error("the reader failed")]
    Read,
    #[error("the input is too long")]
    TooLong,
    #[error("the script is faulty: {0:?}")]
    Script(ScriptFault),
    #[error("line {line} has a member that its op does not need")]
    Entry { line: usize },
    #[error("the manager does not open")]
    Open,
    #[error("the sessions and the transcript differ")]
    Close,
    #[error("the writer failed")]
    Write,
    #[error("out of memory")]
    Memory,
}

impl From<AllocError> for RunFault {
    ghost from_gives = { λ _ e. e ≡ Memory };

    fn from(_e: AllocError) -> RunFault {
        RunFault::Memory
    }
}

impl<T: Drop> From<AllocFailed<T>> for RunFault {
    ghost from_gives = { λ _ e. e ≡ Memory };

    fn from(_e: AllocFailed<T>) -> RunFault {
        RunFault::Memory
    }
}

impl From<WorkFault> for RunFault {
    ghost from_gives = { λ fault e. e ≡ of_work fault };

    fn from(fault: WorkFault) -> RunFault {
        match fault {
            WorkFault::Close => RunFault::Close,
            WorkFault::OutOfMemory => RunFault::Memory,
        }
    }
}

/// The fault of the program.
#[derive(Debug, Drop, PartialEq, Eq, Error)]
pub enum ProgramFault {
    #[error("the configuration can't be read")]
    ConfigRead,
    #[error("the configuration is faulty: {0:?}")]
    Config(ConfigFault),
    #[error("the configuration has no caches")]
    NoCaches,
    #[error("the trace can't be read")]
    TraceRead,
    #[error("the trace is faulty: {0:?}")]
    Trace(ReplayFault),
    #[error("the run ended: {0:?}")]
    Run(RunFault),
}

fn write_bad<W: Write>(line: usize, member: &str, writer: &mut WatchedWriter<W>) -> io::Result<()>
    ensures bytes { OnOk result (AddsText W.contents writer.old writer.new
        (bad_line line member.now)) }
    ensures failures { writer.new.failures ≡ next_count_if (is_err result) writer.old.failures }
{
    writeln!(writer, "script line {line}: bad {member}")
}

fn write_script_fault<W: Write>(fault: ScriptFault, writer: &mut WatchedWriter<W>) -> io::Result<()>
    ensures bytes { OnOk result (AddsText W.contents writer.old writer.new (script_line fault)) }
    ensures failures { writer.new.failures ≡ next_count_if (is_err result) writer.old.failures }
{
    match fault {
        ScriptFault::TooLong => writeln!(writer, "script: too long"),
        ScriptFault::NotJson { line } => writeln!(writer, "script line {line}: not JSON"),
        ScriptFault::NotObject { line } => writeln!(writer, "script line {line}: not an object"),
        ScriptFault::Bad { line, member } => write_bad(line, member.name(), writer),
        ScriptFault::OutOfMemory => writeln!(writer, "out of memory"),
    }
}

fn write_bad_cache<W: Write>(
    cache: usize,
    member: &str,
    writer: &mut WatchedWriter<W>,
) -> io::Result<()>
    ensures bytes { OnOk result (AddsText W.contents writer.old writer.new
        (bad_cache_line cache member.now)) }
    ensures failures { writer.new.failures ≡ next_count_if (is_err result) writer.old.failures }
{
    writeln!(writer, "config cache {cache}: bad {member}")
}

fn write_config_fault<W: Write>(fault: ConfigFault, writer: &mut WatchedWriter<W>) -> io::Result<()>
    ensures bytes { OnOk result (AddsText W.contents writer.old writer.new (config_line fault)) }
    ensures failures { writer.new.failures ≡ next_count_if (is_err result) writer.old.failures }
{
    match fault {
        ConfigFault::TooLong => writeln!(writer, "config: too long"),
        ConfigFault::NotToml => writeln!(writer, "config: not TOML"),
        ConfigFault::UnknownEntry => writeln!(writer, "config: unknown entry"),
        ConfigFault::Bad { cache, member } => write_bad_cache(cache, member.name(), writer),
        ConfigFault::TooManyCaches => writeln!(writer, "config: too many caches"),
        ConfigFault::DuplicateName { cache } => {
            writeln!(writer, "config cache {cache}: duplicate name")
        }
        ConfigFault::TotalCapacity => writeln!(writer, "config: total capacity"),
        ConfigFault::OutOfMemory => writeln!(writer, "out of memory"),
    }
}

fn write_run_fault<W: Write>(fault: &RunFault, writer: &mut WatchedWriter<W>) -> io::Result<()>
    ensures bytes { OnOk result (AddsText W.contents writer.old writer.new (run_line fault.now)) }
    ensures failures { writer.new.failures ≡ next_count_if (is_err result) writer.old.failures }
{
    match fault {
        RunFault::Read => writeln!(writer, "script: cannot be read"),
        RunFault::TooLong => writeln!(writer, "script: too long"),
        RunFault::Script(fault) => write_script_fault(*fault, writer),
        RunFault::Entry { line } => write_bad(*line, "entry", writer),
        RunFault::Open => writeln!(writer, "manager: cannot be opened"),
        RunFault::Close => writeln!(writer, "sessions and transcript differ"),
        RunFault::Write => writeln!(writer, "report: cannot be written"),
        RunFault::Memory => writeln!(writer, "out of memory"),
    }
}

fn write_replay_fault<W: Write>(fault: ReplayFault, writer: &mut WatchedWriter<W>) -> io::Result<()>
    ensures bytes { OnOk result (AddsText W.contents writer.old writer.new (trace_line fault)) }
    ensures failures { writer.new.failures ≡ next_count_if (is_err result) writer.old.failures }
{
    match fault {
        ReplayFault::TooLong => writeln!(writer, "trace: too long"),
        ReplayFault::BadKey { line } => writeln!(writer, "trace line {line}: bad key"),
        ReplayFault::OutOfMemory => writeln!(writer, "out of memory"),
    }
}

/// Whether a fault is in the configuration, not in the script or the trace.
pub fn is_of_config(fault: &ProgramFault) -> bool
    ensures { result ≡ is_of_config fault.now }
{
    match fault {
        ProgramFault::ConfigRead | ProgramFault::Config(_) | ProgramFault::NoCaches => true,
        ProgramFault::TraceRead | ProgramFault::Trace(_) | ProgramFault::Run(_) => false,
    }
}

/// Whether a fault is that the report could not be written.
pub fn is_of_report(fault: &ProgramFault) -> bool
    ensures { result ≡ is_of_report fault.now }
{
    match fault {
        ProgramFault::Run(RunFault::Write) => true,
        ProgramFault::Run(
            RunFault::Read
            | RunFault::TooLong
            | RunFault::Script(_)
            | RunFault::Entry { .. }
            | RunFault::Open
            | RunFault::Close
            | RunFault::Memory,
        ) => false,
        ProgramFault::ConfigRead | ProgramFault::Config(_) | ProgramFault::NoCaches => false,
        ProgramFault::TraceRead | ProgramFault::Trace(_) => false,
    }
}

/// Writes the line of a fault; false where the writer failed.
pub fn write_fault<W: Write>(fault: &ProgramFault, writer: &mut WatchedWriter<W>) -> bool
    ensures told { OnTrue result (AddsText W.contents writer.old writer.new
        (fault_line fault.now)) }
    ensures failures { writer.new.failures ≡ next_count_if (not result) writer.old.failures }
{
    let result = match fault {
        ProgramFault::ConfigRead => writeln!(writer, "config: cannot be read"),
        ProgramFault::Config(fault) => write_config_fault(*fault, writer),
        ProgramFault::NoCaches => writeln!(writer, "config: no caches"),
        ProgramFault::TraceRead => writeln!(writer, "trace: cannot be read"),
        ProgramFault::Trace(fault) => write_replay_fault(*fault, writer),
        ProgramFault::Run(fault) => write_run_fault(fault, writer),
    };
    result.is_ok()
}

pub(crate) fn write_name<W: Write>(writer: &mut WatchedWriter<W>) -> bool
    ensures told { OnTrue result (AddsText W.contents writer.old writer.new (codes "jcache: ")) }
    ensures failures { writer.new.failures ≡ next_count_if (not result) writer.old.failures }
{
    write!(writer, "jcache: ").is_ok()
}

pub(crate) fn write_lines<W: Write>(lines: &str, writer: &mut WatchedWriter<W>) -> bool
    ensures told { OnTrue result (AddsText W.contents writer.old writer.new lines.now) }
    ensures failures { writer.new.failures ≡ next_count_if (not result) writer.old.failures }
{
    write!(writer, "{lines}").is_ok()
}

/// Writes the program's name, the line of a fault, and the lines of its explanation; false where the writer failed.
fn write_explained<W: Write>(
    fault: &ProgramFault,
    lines: &str,
    writer: &mut WatchedWriter<W>,
) -> bool
    ensures told { OnTrue result (AddsText W.contents writer.old writer.new
        (explained_line fault.now lines.now)) }
    ensures failures { writer.new.failures ≡ next_count_if (not result) writer.old.failures }
{
    if !write_name(writer) {
        return false;
    }
    if !write_fault(fault, writer) {
        return false;
    }
    write_lines(lines, writer)
}

/// Writes a fault with others behind it; false where the writer failed.
pub(crate) fn write_listed<W: Write>(
    explain: bool,
    fault: &ProgramFault,
    lines: &str,
    writer: &mut WatchedWriter<W>,
) -> bool
    ensures told { OnTrue result (AddsText W.contents writer.old writer.new
        (listed_line explain fault.now lines.now)) }
    ensures failures { writer.new.failures ≡ next_count_if (not result) writer.old.failures }
{
    if explain {
        return write_explained(fault, lines, writer);
    }
    if !write_fault(fault, writer) {
        return false;
    }
    write_lines(lines, writer)
}

/// The line of a fault.
pub fn fault_text(alloc: Global, fault: &ProgramFault) -> Result<String, AllocError>
    ensures { IfOk result (λ s. string_bytes s ≡ fault_line fault.now) }
{
    let mut writer = WatchedWriter::new(Vec::new(alloc));
    if !write_fault(fault, &mut writer) {
        return Err(AllocError);
    }
    match String::from_utf8(writer.into_inner()) {
        Ok(text) => Ok(text),
        Err(_) => Err(AllocError),
    }
}

/// Writes the line of a fault, and its explanation where there is one; false where the writer failed.
pub fn write_told<W: Write>(
    fault: &ProgramFault,
    lines: Option<&str>,
    writer: &mut WatchedWriter<W>,
) -> bool
    ensures told { OnTrue result (AddsText W.contents writer.old writer.new
        (told_lines fault.now (option_copied lines.entry))) }
    ensures failures { writer.new.failures ≡ next_count_if (not result) writer.old.failures }
{
    match lines {
        None => write_fault(fault, writer),
        Some(lines) => write_explained(fault, lines, writer),
    }
}
