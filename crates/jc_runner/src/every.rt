//! All faults of files that were checked, behind the first.
ghost use Rattle.std.specs.Prelude.{◌≡◌, ◌++◌, [], IfOk, OnOk, codes, drop, map, string_bytes};
ghost use Rattle.std.specs.Bool.{MatchBool};
ghost use Rattle.jc_config.specs.Config.{configuration_in};
ghost use Rattle.jc_runner.specs.Every.{of_config, of_script, of_entry, others_on, script_others, config_others, others, Each, TellsAlone, TellsExplained, TellsBelow};
ghost use Rattle.jc_runner.specs.Explaining.{TellsFault};

use crate::explaining::{Origin, fault_lines, joined};
use jc_cli::{ProgramFault, RunFault, fault_text};
use jc_config::{ConfigFault, Settings, read_config};
use jc_explain::{all_config_faults, all_faults, all_strays};
use jc_script::ScriptFault;
use std::alloc::{AllocError, Global};

/// Adds the faults of lines.
fn add_faults(lines: &[ScriptFault], faults: &mut Vec<ProgramFault>) -> Result<(), AllocError>
    ensures { OnOk result (faults.new.items ≡ faults.old.items ++ map of_script lines.now) }
{
    for fault in lines {
        faults.push(ProgramFault::Run(RunFault::Script(*fault)))?;
    }
    Ok(())
}

/// Adds the lines with a member that their ops do not need.
fn add_strays(lines: &[usize], faults: &mut Vec<ProgramFault>) -> Result<(), AllocError>
    ensures { OnOk result (faults.new.items ≡ faults.old.items ++ map of_entry lines.now) }
{
    for line in lines {
        faults.push(ProgramFault::Run(RunFault::Entry { line: *line }))?;
    }
    Ok(())
}

/// Adds the faults of a configuration.
fn add_config_faults(
    tables: &[ConfigFault],
    faults: &mut Vec<ProgramFault>,
) -> Result<(), AllocError>
    ensures { OnOk result (faults.new.items ≡ faults.old.items ++ map of_config tables.now) }
{
    for fault in tables {
        faults.push(ProgramFault::Config(*fault))?;
    }
    Ok(())
}

/// All but the first.
fn behind_first<T>(items: &[T]) -> &[T]
    ensures { result.now ≡ drop 1 items.now }
{
    match items {
        [] => items,
        [_, rest @ ..] => rest,
    }
}

/// The faults of a script on these caches that stand behind the first.
fn others_on(
    alloc: Global,
    strict: bool,
    settings: Settings,
    script: &[u8],
    fault: &ProgramFault,
) -> Result<Vec<ProgramFault>, AllocError>
    ensures { IfOk result (λ v. v.items ≡ others_on strict settings script.now fault.now) }
{
    let mut faults = Vec::new(alloc);
    match fault {
        ProgramFault::Run(RunFault::Script(_)) => {
            let lines = all_faults(alloc, script, settings)?;
            add_faults(behind_first(lines.as_slice()), &mut faults)?;
            if strict {
                let strays = all_strays(alloc, script)?;
                add_strays(strays.as_slice(), &mut faults)?;
            }
            Ok(faults)
        }
        ProgramFault::Run(RunFault::Entry { .. }) => {
            let strays = all_strays(alloc, script)?;
            add_strays(behind_first(strays.as_slice()), &mut faults)?;
            Ok(faults)
        }
        _ => Ok(faults),
    }
}

/// The same by the bytes of both files; there are none where the configuration is faulty.
fn script_others(
    alloc: Global,
    strict: bool,
    config: &[u8],
    script: &[u8],
    fault: &ProgramFault,
) -> Result<Vec<ProgramFault>, AllocError>
    ensures { IfOk result (λ v. v.items
        ≡ script_others strict script.now fault.now (configuration_in config.now)) }
{
    match read_config(alloc, config) {
        Ok(configuration) => others_on(alloc, strict, configuration.settings, script, fault),
        Err(ConfigFault::OutOfMemory) => Err(AllocError),
        Err(_) => Ok(Vec::new(alloc)),
    }
}

/// The faults of a configuration that stand behind the first.
fn config_others(alloc: Global, config: &[u8]) -> Result<Vec<ProgramFault>, AllocError>
    ensures { IfOk result (λ v. v.items ≡ config_others config.now) }
{
    let tables = all_config_faults(alloc, config)?;
    let mut faults = Vec::new(alloc);
    add_config_faults(behind_first(tables.as_slice()), &mut faults)?;
    Ok(faults)
}

/// The faults of the faulty file that stand behind the first.
fn others(
    alloc: Global,
    strict: bool,
    fault: &ProgramFault,
    origin: &Origin<'_>,
) -> Result<Vec<ProgramFault>, AllocError>
    ensures { IfOk result (λ v. v.items
        ≡ others strict origin.now.config.now origin.now.script.now fault.now) }
{
    match fault {
        ProgramFault::Config(_) => config_others(alloc, origin.config),
        _ => script_others(alloc, strict, origin.config, origin.script, fault),
    }
}

/// A line and its explanation, under the program's name.
fn named(alloc: Global, line: &String, lines: &String) -> Result<String, AllocError>
    ensures { IfOk result (λ s. string_bytes s
        ≡ codes "jcache: " ++ (string_bytes line.now ++ string_bytes lines.now)) }
{
    format!(in alloc; "jcache: {line}{lines}")
}

fn explained(alloc: Global, fault: &ProgramFault, origin: &Origin<'_>) -> Result<String, AllocError>
    ensures { IfOk result (λ s. TellsExplained origin.now.path.now origin.now.kind
        origin.now.config.now origin.now.script.now fault.now (string_bytes s)) }
{
    let line = fault_text(alloc, fault)?;
    let lines = fault_lines(alloc, fault, origin)?;
    named(alloc, &line, &lines)
}

/// What is told of a fault alone: its line, or its line and its explanation under the program's name.
fn fault_alone(
    alloc: Global,
    explain: bool,
    fault: &ProgramFault,
    origin: &Origin<'_>,
) -> Result<String, AllocError>
    ensures { IfOk result (λ s. TellsAlone origin.now.path.now origin.now.kind
        origin.now.config.now origin.now.script.now explain fault.now (string_bytes s)) }
{
    if explain {
        return explained(alloc, fault, origin);
    }
    fault_text(alloc, fault)
}

/// What is told of several, one after the other.
fn each_fault(
    alloc: Global,
    explain: bool,
    faults: &[ProgramFault],
    origin: &Origin<'_>,
) -> Result<String, AllocError>
    ensures { IfOk result (λ s. Each (TellsAlone origin.now.path.now origin.now.kind
        origin.now.config.now origin.now.script.now explain) faults.now (string_bytes s)) }
{
    let mut text = String::new(alloc);
    for fault in faults {
        let one = fault_alone(alloc, explain, fault, origin)?;
        text.push_str(one.as_str())?;
    }
    Ok(text)
}

/// The explanation of the first fault, where it is to be explained.
fn first_lines(
    alloc: Global,
    explain: bool,
    fault: &ProgramFault,
    origin: &Origin<'_>,
) -> Result<String, AllocError>
    ensures { IfOk result (λ s. MatchBool explain
        (TellsFault origin.now.path.now origin.now.kind
        origin.now.config.now origin.now.script.now fault.now (string_bytes s))
        (string_bytes s ≡ [])) }
{
    if explain {
        return fault_lines(alloc, fault, origin);
    }
    Ok(String::new(alloc))
}

/// What is told below the line of the first fault: its explanation, and all faults behind it.
pub fn listed_lines(
    alloc: Global,
    explain: bool,
    strict: bool,
    fault: &ProgramFault,
    origin: &Origin<'_>,
) -> Result<String, AllocError>
    ensures { IfOk result (λ s. TellsBelow origin.now.path.now origin.now.kind
        origin.now.config.now origin.now.script.now explain strict fault.now (string_bytes s)) }
{
    let lines = first_lines(alloc, explain, fault, origin)?;
    let faults = others(alloc, strict, fault, origin)?;
    let rest = each_fault(alloc, explain, faults.as_slice(), origin)?;
    joined(alloc, &lines, &rest)
}
