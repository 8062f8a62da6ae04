//! The lines that explain a fault.
ghost use Rattle.std.specs.Prelude.{◌≡◌, ◌++◌, IfOk, map, string_bytes};
ghost use Rattle.jc_config.specs.Limits.{names_of_caches};
ghost use Rattle.jc_runner.specs.Explaining.{TellsScript, TellsRun, TellsContent, TellsTrace, TellsIn, TellsFault};

use crate::{ProgramFault, RunFault};
use jc_config::{ConfigFault, Settings, read_config};
use jc_explain::{
    explain_config, explain_key, explain_no_caches, explain_path, explain_script, explain_stray,
    explain_too_long, explain_unread,
};
use jc_replay::ReplayFault;
use jc_script::ScriptFault;
use std::alloc::{AllocError, Global};
use std::io::ErrorKind;

/// What a fault comes from: the bytes that were read of the two files, the path of the file in which it is, and what the
/// system answered where that can't be read.
#[derive(Clone, Copy)]
pub struct Origin<'a> {
    pub config: &'a [u8],
    pub script: &'a [u8],
    pub path: &'a str,
    pub kind: Option<ErrorKind>,
}

/// The names of the caches.
fn names_of(alloc: Global, settings: &Settings) -> Result<Vec<&str>, AllocError>
    ensures { IfOk result (λ v. map (λ name. name.now) v.items ≡ names_of_caches settings.now) }
{
    let mut names = Vec::new(alloc);
    for cache in settings.caches() {
        names.push(cache.name.text())?;
    }
    Ok(names)
}

/// A fault of the script; nothing where the configuration is faulty, which it is not before such a fault.
fn script_lines(
    alloc: Global,
    config: &[u8],
    script: &[u8],
    fault: ScriptFault,
) -> Result<String, AllocError>
    ensures { IfOk result (λ s. TellsScript config.now script.now fault (string_bytes s)) }
{
    match read_config(alloc, config) {
        Ok(configuration) => {
            let names = names_of(alloc, &configuration.settings)?;
            explain_script(alloc, script, names.as_slice(), fault)
        }
        Err(ConfigFault::OutOfMemory) => Err(AllocError),
        Err(_) => Ok(String::new(alloc)),
    }
}

fn run_lines(
    alloc: Global,
    fault: &RunFault,
    config: &[u8],
    script: &[u8],
) -> Result<String, AllocError>
    ensures { IfOk result (λ s. TellsRun config.now script.now fault.now (string_bytes s)) }
{
    match fault {
        RunFault::TooLong => explain_too_long(alloc),
        RunFault::Script(fault) => script_lines(alloc, config, script, *fault),
        RunFault::Entry { line } => explain_stray(alloc, script, *line),
        RunFault::Read | RunFault::Open | RunFault::Close | RunFault::Write | RunFault::Memory =>
            Ok(String::new(alloc)),
    }
}

fn trace_lines(alloc: Global, trace: &[u8], fault: ReplayFault) -> Result<String, AllocError>
    ensures { IfOk result (λ s. TellsTrace trace.now fault (string_bytes s)) }
{
    match fault {
        ReplayFault::TooLong => explain_too_long(alloc),
        ReplayFault::BadKey { line } => explain_key(alloc, trace, line),
        ReplayFault::OutOfMemory => Ok(String::new(alloc)),
    }
}

/// What is wrong in what was read of the two files.
fn content_lines(
    alloc: Global,
    fault: &ProgramFault,
    config: &[u8],
    script: &[u8],
) -> Result<String, AllocError>
    ensures { IfOk result (λ s. TellsContent config.now script.now fault.now (string_bytes s)) }
{
    match fault {
        ProgramFault::Config(fault) => explain_config(alloc, config, *fault),
        ProgramFault::NoCaches => explain_no_caches(alloc),
        ProgramFault::Trace(fault) => trace_lines(alloc, script, *fault),
        ProgramFault::Run(fault) => run_lines(alloc, fault, config, script),
        ProgramFault::ConfigRead | ProgramFault::TraceRead => Ok(String::new(alloc)),
    }
}

/// One text behind the other.
pub(crate) fn joined(alloc: Global, place: &String, lines: &String) -> Result<String, AllocError>
    ensures { IfOk result (λ s. string_bytes s ≡ string_bytes place.now ++ string_bytes lines.now) }
{
    format!(in alloc; "{place}{lines}")
}

/// What is wrong below the path in which it is; nothing where that is nothing.
fn lines_in(alloc: Global, fault: &ProgramFault, origin: &Origin<'_>) -> Result<String, AllocError>
    ensures { IfOk result (λ s. TellsIn origin.now.path.now
        (TellsContent origin.now.config.now origin.now.script.now fault.now) (string_bytes s)) }
{
    let lines = content_lines(alloc, fault, origin.config, origin.script)?;
    if lines.is_empty() {
        return Ok(lines);
    }
    let place = explain_path(alloc, origin.path)?;
    joined(alloc, &place, &lines)
}

/// The lines that explain a fault, by what it comes from.
pub fn fault_lines(
    alloc: Global,
    fault: &ProgramFault,
    origin: &Origin<'_>,
) -> Result<String, AllocError>
    ensures { IfOk result (λ s. TellsFault origin.now.path.now origin.now.kind
        origin.now.config.now origin.now.script.now fault.now (string_bytes s)) }
{
    match fault {
        ProgramFault::ConfigRead | ProgramFault::TraceRead | ProgramFault::Run(RunFault::Read) => {
            explain_unread(alloc, origin.path, origin.kind)
        }
        ProgramFault::Config(_)
        | ProgramFault::NoCaches
        | ProgramFault::Trace(_)
        | ProgramFault::Run(
            RunFault::TooLong
            | RunFault::Script(_)
            | RunFault::Entry { .. }
            | RunFault::Open
            | RunFault::Close
            | RunFault::Write
            | RunFault::Memory,
        ) => lines_in(alloc, fault, origin),
    }
}
