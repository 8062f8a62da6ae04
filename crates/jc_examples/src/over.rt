//! Runs over other tables than the program's: one in which all keys share two buckets, and a list.
ghost use Rattle.std.specs.Prelude.{◌≡◌};
ghost use Rattle.std.specs.FinMap as finite;

use jc_config::{Configuration, HookKinds, ProcessorKind, read_config};
use jc_cuckoo::cuckoo::Cuckoo;
use jc_cuckoo::mirror::NoMirror;
use jc_hooks::program::{CheckWriter, EchoLoader, ProgramHooks, ProgramProcessor};
use jc_hooks::{CacheHooks, ListenerHook, TallyListener};
use jc_model::OutOfMemory;
use jc_rows::list_rows::ListRows;
use jc_rows::rows::Rows;
use jc_runner::{RunFault, all_suit, report_on};
use jc_script::read_script;
use jc_trials::ConstantPlacer;
use std::alloc::Global;
use std::fs::Files;
use std::{fs, io};

fn processor_of(kind: ProcessorKind) -> ProgramProcessor {
    match kind {
        ProcessorKind::Append => ProgramProcessor::Append,
        ProcessorKind::Fail => ProgramProcessor::Fail,
        ProcessorKind::Drop => ProgramProcessor::Drop,
        ProcessorKind::Peek => ProgramProcessor::Peek,
    }
}

/// The callbacks that a cache's configuration names.
fn hooks_of(alloc: Global, kinds: &HookKinds, listeners: u8) -> Result<ProgramHooks, OutOfMemory> {
    let mut processors = Vec::new(alloc);
    for kind in kinds.processors.items() {
        processors.push(processor_of(*kind))?;
    }
    let mut tallies = Vec::new(alloc);
    for _ in 0..listeners {
        tallies.push(ListenerHook::unfiltered(TallyListener::new()))?;
    }
    Ok(CacheHooks {
        loader: kinds.loader.map(|_| EchoLoader),
        writer: kinds.writer.map(|_| CheckWriter),
        processors,
        listeners: tallies,
    })
}

/// The report of a script on caches of a configuration, over an empty table.
///
/// `Open` where the configuration is faulty.
fn reported<T: Rows>(
    alloc: Global,
    rows: T,
    config: &[u8],
    script: &[u8],
) -> Result<String, RunFault>
    requires { T.contents rows ≡ finite.empty }
{
    let Ok(Configuration { settings, hooks }) = read_config(alloc, config) else {
        return Err(RunFault::Open);
    };
    let lines = read_script(alloc, script, &settings).map_err(RunFault::Script)?;
    let mut own = Vec::new(alloc);
    for (config, kinds) in settings.caches().iter().zip(hooks.items()) {
        own.push(hooks_of(alloc, kinds, config.listeners)?)?;
    }
    if !all_suit(&settings, own.as_slice()) {
        return Err(RunFault::Open);
    }
    report_on(alloc, rows, settings, own.as_mut_slice(), lines)
}

/// The report over a cuckoo table in which all keys share two buckets.
fn one_bucket_for_all_keys(
    alloc: Global,
    config: &[u8],
    script: &[u8],
) -> Result<String, RunFault> {
    match Cuckoo::new(alloc, ConstantPlacer, NoMirror, 16) {
        Ok(rows) => reported(alloc, rows, config, script),
        Err(_) => Err(RunFault::Memory),
    }
}

/// The report over a list of rows.
fn a_list_for_all_keys(alloc: Global, config: &[u8], script: &[u8]) -> Result<String, RunFault> {
    reported(alloc, ListRows::new(alloc), config, script)
}

/// The report over both tables, or why there is none.
fn text_of(alloc: Global, config: &[u8], script: &[u8]) -> Result<String, RunFault> {
    let crowded = one_bucket_for_all_keys(alloc, config, script)?;
    let listed = a_list_for_all_keys(alloc, config, script)?;
    if crowded.as_bytes() == listed.as_bytes() {
        Ok(crowded)
    } else {
        Ok(format!(in alloc; "another report over a list\n")?)
    }
}

/// Prints the report of the configuration and the script of a name.
pub fn play_files<R: Files + Print + AllocGlobal>(rt: &R, name: &str) -> io::Result<()> {
    let alloc = rt.alloc();
    let config = format!(in alloc; "{name}.toml")?;
    let config = fs::read(rt, config.as_str())?;
    let script = format!(in alloc; "{name}.jsonl")?;
    let script = fs::read(rt, script.as_str())?;
    match text_of(alloc, config.as_slice(), script.as_slice()) {
        Ok(report) => print!(rt; "{report}"),
        Err(fault) => println!(rt; "{fault:?}"),
    }
}
