//! A script in rounds: the workers make calls side by side, and are all done before a cache is created or destroyed.
ghost use Rattle.std.specs.Prelude.{◌≡◌, ◌↔◌, ◌⊎◌, ◌<◌, ◌∷◌, [], Ok, Err, None, IsTrue, IfOk, IfErr, OnOk, length, map};
ghost use Rattle.std.specs.List.{Contains};
ghost use Rattle.jc_script.specs.Calls.{call_in, calls_in_lines};
ghost use Rattle.jc_script.specs.declared.line.Line.TheVariants as lines;
ghost use Rattle.jc_threads.specs.Dealing.{AreAtRest, HasWorked, HaveWorked, AreUnderWay, EndCalls, KeepCalls, TakeCalls};
ghost use Rattle.jc_threads.specs.Managing.{AreManaged, ManagesLine};

use crate::dealing::hand_call;
use crate::fault::WorkFault;
use crate::gate::Gate;
use crate::managing::{create, destroy};
use crate::worker::{Worker, work};
use jc_hooks::{FilteredListener, Loader, Processor, Writer};
use jc_model::OutOfMemory;
use jc_model::config::CacheConfig;
use jc_model::event::{CacheId, CreateRefusal};
use jc_script::{Line, LineCall};
use jc_shared::Name;
use std::alloc::Global;
use std::sync::Wait;
use std::thread::{Threads, map_vec};

/// The workers at work, side by side.
fn work_all<
    'a,
    N: Name + Send + Sync,
    L: Loader,
    W: Writer,
    P: Processor,
    K: FilteredListener,
    G: Gate,
    R: Threads + Wait + Sync,
>(
    rt: &R,
    alloc: Global,
    gate: &G,
    crew: Vec<Worker<'a, N, L, W, P, K>>,
) -> Result<Vec<Result<Worker<'a, N, L, W, P, K>, WorkFault>>, OutOfMemory>
    ensures { IfOk result (λ v. HaveWorked N.stated crew.entry.items v.items) }
{
    let workers = crew.len();
    let results = map_vec(
        rt,
        crew,
        &|worker|
            requires { 0 < workers }
            ensures { IfOk result (λ w. HasWorked N.stated workers worker.entry w) }
        { work(rt, alloc, gate, workers, worker) },
    )?;
    Ok(results)
}

/// The workers, if each has done its work; else the fault of one that has not.
fn gather_workers<'a, N: Name, L: Loader, W: Writer, P: Processor, K: FilteredListener>(
    alloc: Global,
    results: Vec<Result<Worker<'a, N, L, W, P, K>, WorkFault>>,
) -> Result<Vec<Worker<'a, N, L, W, P, K>>, WorkFault>
    ensures ok { IfOk result (λ crew. map Ok crew.items ≡ results.entry.items) }
    ensures fault { IfErr result (λ fault. (fault ≡ WorkFault.OutOfMemory)
        ⊎ Contains results.entry.items (Err fault)) }
{
    let mut crew = Vec::new(alloc);
    for result in results {
        let worker = result?;
        crew.push(worker)?;
    }
    Ok(crew)
}

/// Whether no worker holds a call.
fn are_at_rest<'a, N: Name, L: Loader, W: Writer, P: Processor, K: FilteredListener>(
    crew: &[Worker<'a, N, L, W, P, K>],
) -> bool
    ensures { IsTrue result ↔ AreAtRest crew.now }
{
    for worker in crew {
        if !worker.is_at_rest() {
            return false;
        }
    }
    true
}

/// Ends a round: the workers make all calls that they hold. Where none holds one, no thread is started.
pub(crate) fn end_round<
    'a,
    N: Name + Send + Sync,
    L: Loader,
    W: Writer,
    P: Processor,
    K: FilteredListener,
    G: Gate,
    R: Threads + Wait + Sync,
>(
    rt: &R,
    alloc: Global,
    gate: &G,
    crew: Vec<Worker<'a, N, L, W, P, K>>,
) -> Result<Vec<Worker<'a, N, L, W, P, K>>, WorkFault>
    ensures idle { AreAtRest crew.entry.items → result ≡ Ok crew.entry }
    ensures counted { IfOk result (λ v. length v.items ≡ length crew.entry.items) }
    ensures rest { IfOk result (λ v. AreAtRest v.items) }
    ensures rested { IfOk result (λ v. EndCalls N.stated crew.entry.items v.items) }
{
    if are_at_rest(crew.as_slice()) {
        return Ok(crew);
    }
    let results = work_all(rt, alloc, gate, crew)?;
    gather_workers(alloc, results)
}

/// Takes a line that makes a call.
fn take_call<'a, N: Name, L: Loader, W: Writer, P: Processor, K: FilteredListener>(
    crew: Vec<Worker<'a, N, L, W, P, K>>,
    line: LineCall,
) -> Result<Vec<Worker<'a, N, L, W, P, K>>, OutOfMemory>
    requires some { 0 < length crew.items }
    ensures counted { IfOk result (λ v. length v.items ≡ length crew.entry.items) }
    ensures made { IfOk result (λ v. TakeCalls N.stated (line ∷ []) crew.entry.items v.items) }
{
    let mut crew = crew;
    hand_call(crew.as_mut_slice(), line)?;
    Ok(crew)
}

/// Ends the round and takes a line that creates a cache.
fn take_create<
    'a,
    N: Name + Send + Sync,
    L: Loader,
    W: Writer,
    P: Processor,
    K: FilteredListener,
    G: Gate,
    R: Threads + Wait + Sync,
>(
    rt: &R,
    alloc: Global,
    gate: &G,
    crew: Vec<Worker<'a, N, L, W, P, K>>,
    refusals: &mut Vec<Option<CreateRefusal>>,
    session: u32,
    config: CacheConfig,
) -> Result<Vec<Worker<'a, N, L, W, P, K>>, WorkFault>
    requires some { 0 < length crew.items }
    ensures counted { IfOk result (λ v. length v.items ≡ length crew.entry.items) }
    ensures made { IfOk result (λ v. KeepCalls N.stated crew.entry.items v.items) }
    ensures managed { OnOk result (ManagesLine N.configs (lines.Create session config)
        refusals.old.items refusals.new.items) }
{
    let crew = end_round(rt, alloc, gate, crew)?;
    let refusal = create(rt, alloc, crew.as_slice(), session, config)?;
    refusals.push(refusal)?;
    Ok(crew)
}

/// Ends the round and takes a line that destroys a cache.
fn take_destroy<
    'a,
    N: Name + Send + Sync,
    L: Loader,
    W: Writer,
    P: Processor,
    K: FilteredListener,
    G: Gate,
    R: Threads + Wait + Sync,
>(
    rt: &R,
    alloc: Global,
    gate: &G,
    crew: Vec<Worker<'a, N, L, W, P, K>>,
    refusals: &mut Vec<Option<CreateRefusal>>,
    session: u32,
    id: CacheId,
) -> Result<Vec<Worker<'a, N, L, W, P, K>>, WorkFault>
    requires some { 0 < length crew.items }
    ensures counted { IfOk result (λ v. length v.items ≡ length crew.entry.items) }
    ensures made { IfOk result (λ v. KeepCalls N.stated crew.entry.items v.items) }
    ensures managed { OnOk result (ManagesLine N.configs (lines.Destroy session id)
        refusals.old.items refusals.new.items) }
{
    let mut crew = end_round(rt, alloc, gate, crew)?;
    destroy(rt, crew.as_mut_slice(), session, id)?;
    refusals.push(None)?;
    Ok(crew)
}

/// Takes a line.
fn take_line<
    'a,
    N: Name + Send + Sync,
    L: Loader,
    W: Writer,
    P: Processor,
    K: FilteredListener,
    G: Gate,
    R: Threads + Wait + Sync,
>(
    rt: &R,
    alloc: Global,
    gate: &G,
    crew: Vec<Worker<'a, N, L, W, P, K>>,
    refusals: &mut Vec<Option<CreateRefusal>>,
    line: Line,
) -> Result<Vec<Worker<'a, N, L, W, P, K>>, WorkFault>
    requires some { 0 < length crew.items }
    ensures counted { IfOk result (λ v. length v.items ≡ length crew.entry.items) }
    ensures made { IfOk result (λ v. TakeCalls N.stated (call_in line) crew.entry.items v.items) }
    ensures managed { OnOk result (ManagesLine N.configs line
        refusals.old.items refusals.new.items) }
{
    match line {
        Line::Call(call) => Ok(take_call(crew, call)?),
        Line::Create { session, config } => {
            take_create(rt, alloc, gate, crew, refusals, session, config)
        }
        Line::Destroy { session, id } => {
            take_destroy(rt, alloc, gate, crew, refusals, session, id)
        }
    }
}

/// Takes all lines; the last round is still to be ended.
pub(crate) fn take_all<
    'a,
    N: Name + Send + Sync,
    L: Loader,
    W: Writer,
    P: Processor,
    K: FilteredListener,
    G: Gate,
    R: Threads + Wait + Sync,
>(
    rt: &R,
    alloc: Global,
    gate: &G,
    crew: Vec<Worker<'a, N, L, W, P, K>>,
    refusals: &mut Vec<Option<CreateRefusal>>,
    lines: Vec<Line>,
) -> Result<Vec<Worker<'a, N, L, W, P, K>>, WorkFault>
    requires some { 0 < length crew.items }
    ensures counted { IfOk result (λ v. length v.items ≡ length crew.entry.items) }
    ensures made { IfOk result (λ v. AreUnderWay N.stated [] crew.entry.items
        → AreUnderWay N.stated (calls_in_lines lines.items) v.items) }
    ensures managed { OnOk result (AreManaged N.configs [] refusals.old.items
        → AreManaged N.configs lines.items refusals.new.items) }
{
    let mut crew = crew;
    for line in lines {
        crew = take_line(rt, alloc, gate, crew, refusals, line)?;
    }
    Ok(crew)
}
