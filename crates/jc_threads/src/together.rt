//! A whole script, on worker threads.
ghost use Rattle.std.specs.Prelude.{◌≡◌, ◌<◌, List, [], IfOk, OnOk, map};
ghost use Rattle.std.specs.List.{flat_map};
ghost use Rattle.jc_model.specs.Legal.{IsLegal};
ghost use Rattle.jc_script.specs.Calls.{calls_in_lines};
ghost use Rattle.jc_locked.specs.Accounts.{own_log};
ghost use Rattle.jc_locked.specs.Sessions.{BeginsWith, log_of};
ghost use Rattle.jc_threads.specs.Lines.{AccountFor, AreCallsMade};
ghost use Rattle.jc_threads.specs.Managing.{AreManaged};

use crate::dealing::deal_sessions;
use crate::fault::WorkFault;
use crate::gate::Gate;
use crate::rounds::{end_round, take_all};
use crate::worker::Worker;
use jc_hooks::{FilteredListener, Loader, Processor, Writer};
use jc_model::event::CreateRefusal;
use jc_model::{OutOfMemory, Transcript};
use jc_script::Line;
use jc_shared::{Manager, Name, Session, SessionLog};
use std::alloc::Global;
use std::sync::Wait;
use std::thread::Threads;

/// What a run on threads has come to.
#[derive(Drop)]
pub struct Transcription {
    pub transcript: Transcript,
    /// Of each line that creates or destroys a cache, in order: why it was refused, if it was.
    pub refusals: Vec<Option<CreateRefusal>>,
}

/// All sessions of the workers.
fn all_sessions<'a, N: Name, L: Loader, W: Writer, P: Processor, K: FilteredListener>(
    alloc: Global,
    crew: Vec<Worker<'a, N, L, W, P, K>>,
) -> Result<Vec<Session<'a, N, L, W, P, K>>, OutOfMemory>
    ensures { IfOk result (λ v. v.items ≡ flat_map (λ share. share.sessions) crew.entry.items) }
{
    let mut all = Vec::new(alloc);
    for worker in crew {
        let mut sessions = worker.into_sessions();
        all.append(&mut sessions)?;
    }
    Ok(all)
}

/// What all sessions of the workers have kept of their calls.
fn all_logs<'a, N: Name, L: Loader, W: Writer, P: Processor, K: FilteredListener>(
    alloc: Global,
    crew: Vec<Worker<'a, N, L, W, P, K>>,
) -> Result<Vec<SessionLog>, OutOfMemory>
    ensures { IfOk result (λ v. map own_log v.items
        ≡ map log_of (flat_map (λ share. share.sessions) crew.entry.items)) }
{
    let mut logs = Vec::new(alloc);
    for session in all_sessions(alloc, crew)? {
        logs.push(session.into_log())?;
    }
    Ok(logs)
}

/// Makes a script's lines by sessions of this manager on so many worker threads. The result is what the sessions have
/// kept of their calls.
fn made_by_sessions<
    N: Name + Send + Sync,
    L: Loader,
    W: Writer,
    P: Processor,
    K: FilteredListener,
    G: Gate,
    R: Threads + Wait + Sync,
>(
    rt: &R,
    alloc: Global,
    manager: &Manager<N, L, W, P, K>,
    gate: &G,
    workers: usize,
    refusals: &mut Vec<Option<CreateRefusal>>,
    lines: Vec<Line>,
) -> Result<Vec<SessionLog>, WorkFault>
    requires { 0 < workers }
    ensures made { IfOk result (λ logs.
        AccountFor N.stated (calls_in_lines lines.items) (map own_log logs.items)) }
    ensures managed { OnOk result (AreManaged N.configs [] refusals.old.items
        → AreManaged N.configs lines.items refusals.new.items) }
{
    let crew = deal_sessions(rt, alloc, manager, workers, lines.as_slice())?;
    let crew = take_all(rt, alloc, gate, crew, refusals, lines)?;
    let crew = end_round(rt, alloc, gate, crew)?;
    let logs = all_logs(alloc, crew)?;
    Ok(logs)
}

/// Makes a script's lines by sessions of this manager on so many worker threads, session s by worker s mod workers.
/// Then it ends the manager, and hands its transcript out, for which the sessions' lists account.
///
/// The run goes in rounds: at a line that creates or destroys a cache all workers first make the calls that stand
/// before it, each worker its own in the script's order. Then the line's session creates or destroys the cache, and the
/// next round begins. A created cache has no callbacks.
///
/// The sessions are those from 0 to the greatest that a line names. The manager is to have none yet.
pub fn transcribed<
    N: Name + Send + Sync,
    L: Loader,
    W: Writer,
    P: Processor,
    K: FilteredListener,
    G: Gate,
    R: Threads + Wait + Sync,
>(
    rt: &R,
    alloc: Global,
    manager: Manager<N, L, W, P, K>,
    gate: &G,
    workers: usize,
    lines: Vec<Line>,
) -> Result<Transcription, WorkFault>
    requires { 0 < workers }
    ensures legal { IfOk result (λ t. IsLegal t.transcript) }
    ensures begins { IfOk result (λ t. BeginsWith N.configs t.transcript) }
    ensures made { IfOk result (λ t.
        AreCallsMade N.stated (calls_in_lines lines.items) t.transcript.entries) }
    ensures managed { IfOk result (λ t. AreManaged N.configs lines.items t.refusals.items) }
{
    let mut refusals = Vec::new(alloc);
    let made = made_by_sessions(rt, alloc, &manager, gate, workers, &mut refusals, lines);
    let logs = match made {
        Ok(logs) => logs,
        Err(fault) => {
            manager.discard();
            return Err(fault);
        }
    };
    match manager.into_transcript(logs.as_slice()) {
        Ok(transcript) => Ok(Transcription {
            transcript,
            refusals,
        }),
        Err((fault, manager)) => {
            manager.discard();
            Err(WorkFault::from(fault))
        }
    }
}
