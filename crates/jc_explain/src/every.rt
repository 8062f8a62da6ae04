//! All faults of a script, each line read by itself.
ghost use Rattle.std.specs.Prelude.{◌≡◌, ◌+◌, ◌∷◌, ◌++◌, ℕ, false, List, IfOk, OnOk, take, drop, []};
ghost use Rattle.jc_script.specs.Faults.{script_wants_memory};
ghost use Rattle.jc_explain.specs.Every.{at_line, live_or, live_after, live_after_one, faults_from, all_faults, strays_from, all_strays};

use jc_config::Settings;
use jc_model::OutOfMemory;
use jc_model::config::CacheConfig;
use jc_model::event::CacheId;
use jc_model::list::Sequence;
use jc_model::share::{Share, share_all};
use jc_script::{Line, ScriptFault, pieces, read_script, stray_line};
use std::alloc::{AllocError, Global};

/// Other caches, where they may be live together.
fn live_or(settings: Settings, others: Vec<CacheConfig>) -> Settings
    ensures { result ≡ live_or settings others.items }
{
    match Settings::new(Sequence::new(others)) {
        Some(others) => others,
        None => settings,
    }
}

/// The caches with one more.
fn with_cache(
    alloc: Global,
    settings: Settings,
    config: &CacheConfig,
) -> Result<Settings, OutOfMemory>
    ensures { IfOk result (λ s. s ≡ live_or settings (settings ++ config.now ∷ [])) }
{
    let mut caches = share_all(alloc, settings.caches())?;
    caches.push(config.share()?)?;
    Ok(live_or(settings, caches))
}

/// The caches without one.
fn without_cache(alloc: Global, settings: Settings, id: CacheId) -> Result<Settings, OutOfMemory>
    ensures { IfOk result (λ s. s ≡ live_or settings (take id settings ++ drop (id + 1) settings)) }
{
    let place = id.number() as usize;
    let mut caches = share_all(alloc, settings.caches())?;
    if place < caches.len() {
        drop(caches.remove(place));
    }
    Ok(live_or(settings, caches))
}

fn live_after(alloc: Global, settings: Settings, line: &Line) -> Result<Settings, OutOfMemory>
    ensures { IfOk result (λ s. s ≡ live_after settings line.now) }
{
    match line {
        Line::Call(_) => Ok(settings),
        Line::Create { config, .. } => with_cache(alloc, settings, config),
        Line::Destroy { id, .. } => without_cache(alloc, settings, *id),
    }
}

fn live_after_one(
    alloc: Global,
    settings: Settings,
    lines: &[Line],
) -> Result<Settings, OutOfMemory>
    ensures { IfOk result (λ s. s ≡ live_after_one settings lines.now) }
{
    match lines {
        [] => Ok(settings),
        [line, ..] => live_after(alloc, settings, line),
    }
}

/// Notes the fault of a line that was read alone.
fn note_fault(
    fault: ScriptFault,
    line: usize,
    faults: &mut Vec<ScriptFault>,
) -> Result<(), AllocError>
    ensures noted { OnOk result (faults.new.items ≡ faults.old.items ++ at_line line fault ∷ []) }
    ensures told { OnOk result (script_wants_memory fault ≡ false) }
{
    let here = match fault {
        ScriptFault::TooLong => ScriptFault::TooLong,
        ScriptFault::NotJson { .. } => ScriptFault::NotJson { line },
        ScriptFault::NotObject { .. } => ScriptFault::NotObject { line },
        ScriptFault::Bad { member, .. } => ScriptFault::Bad { line, member },
        ScriptFault::OutOfMemory => return Err(AllocError),
    };
    faults.push(here)?;
    Ok(())
}

/// Reads a line by itself and notes its fault, if it has one: the caches that are live after it.
fn read_alone(
    alloc: Global,
    settings: Settings,
    piece: &[u8],
    line: usize,
    faults: &mut Vec<ScriptFault>,
) -> Result<Settings, AllocError>
    ensures { IfOk result (λ s. (others : List (List ℕ))
        → faults.old.items ++ faults_from settings line (piece.now ∷ others)
        ≡ faults.new.items ++ faults_from s (line + 1) others) }
{
    match read_script(alloc, piece, &settings) {
        Ok(lines) => Ok(live_after_one(alloc, settings, lines.as_slice())?),
        Err(fault) => {
            note_fault(fault, line, faults)?;
            Ok(settings)
        }
    }
}

/// All faults of a script on these caches, in the order of its lines: of each line the first.
#[tactic(auto, unfolding(crate::specs::Every::all_faults))]
pub fn all_faults(
    alloc: Global,
    bytes: &[u8],
    settings: Settings,
) -> Result<Vec<ScriptFault>, AllocError>
    ensures { IfOk result (λ v. v.items ≡ all_faults settings bytes.now) }
{
    let pieces = pieces(alloc, bytes)?;
    let mut live = settings;
    let mut faults = Vec::new(alloc);
    for (i, piece) in pieces.as_slice().iter().enumerate() {
        live = read_alone(alloc, live, piece, i + 1, &mut faults)?;
    }
    Ok(faults)
}

/// Notes a line with a member that its op does not need.
fn note_stray(
    alloc: Global,
    piece: &[u8],
    line: usize,
    strays: &mut Vec<usize>,
) -> Result<(), AllocError>
    ensures { OnOk result ((others : List (List ℕ))
        → strays.old.items ++ strays_from line (piece.now ∷ others)
        ≡ strays.new.items ++ strays_from (line + 1) others) }
{
    if stray_line(alloc, piece)?.is_some() {
        strays.push(line)?;
    }
    Ok(())
}

/// All lines, counted from 1, with a member that their ops do not need.
#[tactic(auto, unfolding(crate::specs::Every::all_strays))]
pub fn all_strays(alloc: Global, bytes: &[u8]) -> Result<Vec<usize>, AllocError>
    ensures { IfOk result (λ v. v.items ≡ all_strays bytes.now) }
{
    let pieces = pieces(alloc, bytes)?;
    let mut strays = Vec::new(alloc);
    for (i, piece) in pieces.as_slice().iter().enumerate() {
        note_stray(alloc, piece, i + 1, &mut strays)?;
    }
    Ok(strays)
}
