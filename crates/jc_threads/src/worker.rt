//! One worker: it makes the calls that it holds, by its sessions and in the script's order.
ghost use Rattle.std.specs.Prelude.{◌≡◌, ◌≢◌, ◌↔◌, ◌<◌, ◌≤◌, ◌/◌, ◌∷◌, [], length, map, Err, IsTrue, IsOk, IfOk, IfErr, OnOk};
ghost use Rattle.jc_locked.specs.Sessions.{log_of};
ghost use Rattle.jc_threads.specs.Dealing.{HasWorked, WorkerMakes, with_line, with_session};
ghost use Rattle.jc_threads.specs.Faults.{call_work_fault};
ghost use Rattle.jc_threads.specs.Lines.{SessionMakes};
ghost use Rattle.jc_threads.specs.Managing.{IsDestroying};

use crate::batches::Batches;
use crate::fault::WorkFault;
use crate::gate::Gate;
use crate::managing::destroy_by;
use jc_hooks::{FilteredListener, Loader, Processor, Writer};
use jc_model::OutOfMemory;
use jc_model::call::Reply;
use jc_model::event::CacheId;
use jc_script::LineCall;
use jc_shared::{CallFault, Logged, Name, Session};
use std::alloc::Global;
use std::marker::Model;
use std::sync::Wait;

/// A worker's sessions, session s being at place s / workers, and the calls that it is to make.
#[derive(Drop)]
pub(crate) struct Worker<'a, N: Name, L: Loader, W: Writer, P: Processor, K: FilteredListener> {
    pub(crate) sessions: Vec<Session<'a, N, L, W, P, K>>,
    pub(crate) lines: Batches,
}

impl<'a, N: Name, L: Loader, W: Writer, P: Processor, K: FilteredListener> Model
    for Worker<'a, N, L, W, P, K> {
    ghost use Rattle.jc_threads.specs.Dealing.{Share};

    ghost Value = { Share };

    ghost view = { λ w. record { sessions = w.sessions.items; lines = w.lines } };
}

impl<'a, N: Name, L: Loader, W: Writer, P: Processor, K: FilteredListener> Worker<
    'a,
    N,
    L,
    W,
    P,
    K,
> {
    /// Takes a session, where this is the next place.
    pub(crate) fn seat(
        &mut self,
        session: Session<'a, N, L, W, P, K>,
        place: usize,
    ) -> Result<(), WorkFault>
        ensures next { OnOk result (length self.old.sessions ≡ place) }
        ensures other { length self.old.sessions ≢ place → result ≡ Err WorkFault.Close }
        ensures memory { length self.old.sessions ≡ place
            → IfErr result (λ fault. fault ≡ WorkFault.OutOfMemory) }
        ensures seated { OnOk result (self.new ≡ with_session session.entry self.old) }
    {
        if self.sessions.len() != place {
            return Err(WorkFault::Close);
        }
        self.sessions.push(session)?;
        Ok(())
    }

    /// Takes a call.
    pub(crate) fn hand(&mut self, line: LineCall) -> Result<(), OutOfMemory>
        ensures handed { OnOk result (self.new ≡ with_line line self.old) }
    {
        self.lines.push(line)?;
        Ok(())
    }

    /// Whether it holds no call.
    pub(crate) fn is_at_rest(&self) -> bool
        ensures { IsTrue result ↔ (self.now.lines ≡ []) }
    {
        self.lines.is_empty()
    }

    /// Its sessions.
    pub(crate) fn sessions(&self) -> &[Session<'a, N, L, W, P, K>]
        ensures { result.now ≡ self.now.sessions }
    {
        self.sessions.as_slice()
    }

    /// Destroys a cache by the session at a place, if it has this number.
    pub(crate) fn destroy<R: Wait>(
        &mut self,
        rt: &R,
        place: usize,
        session: u32,
        id: CacheId,
    ) -> Result<(), WorkFault>
        ensures gone { OnOk result (IsDestroying N.configs id) }
        ensures lines { self.new.lines ≡ self.old.lines }
        ensures same { map log_of self.new.sessions ≡ map log_of self.old.sessions }
    {
        destroy_by(rt, self.sessions.as_mut_slice(), place, session, id)
    }

    /// Its sessions alone.
    pub(crate) fn into_sessions(self) -> Vec<Session<'a, N, L, W, P, K>>
        ensures { result.items ≡ self.entry.sessions }
    {
        let Worker { sessions, .. } = self;
        sessions
    }
}

fn outcome(replied: Result<Reply, CallFault>) -> Result<(), WorkFault>
    ensures replied { OnOk result (IsOk replied) }
    ensures ok { OnOk replied (IsOk result) }
    ensures fault { IfErr replied (λ fault. result ≡ Err (call_work_fault fault)) }
{
    match replied {
        Ok(reply) => {
            drop(reply);
            Ok(())
        }
        Err(fault) => Err(WorkFault::from(fault)),
    }
}

/// Makes a call by its session.
fn make_call<
    'a,
    N: Name,
    L: Loader,
    W: Writer,
    P: Processor,
    K: FilteredListener,
    G: Gate,
    R: Wait,
>(
    rt: &R,
    gate: &G,
    session: &mut Session<'a, N, L, W, P, K>,
    line: LineCall,
) -> Result<(), WorkFault>
    ensures number { session.new.number ≡ session.old.number }
    ensures own { OnOk result (session.old.number ≡ line.session) }
    ensures other { session.old.number ≢ line.session → result ≡ Err WorkFault.Close }
    ensures made { OnOk result (SessionMakes N.stated line session.old session.new) }
{
    if session.number() != line.session {
        drop(line);
        return Err(WorkFault::Close);
    }
    let LineCall {
        session: number,
        id,
        at,
        call,
    } = line;
    let place = session.log_calls().len();
    gate.before(number, place);
    let replied = session.call(rt, id, at, call);
    gate.after(number, place);
    outcome(replied)
}

/// Makes a call by that of the worker's sessions whose call it is.
fn make_line<
    'a,
    N: Name,
    L: Loader,
    W: Writer,
    P: Processor,
    K: FilteredListener,
    G: Gate,
    R: Wait,
>(
    rt: &R,
    gate: &G,
    workers: usize,
    sessions: &mut [Session<'a, N, L, W, P, K>],
    line: LineCall,
) -> Result<(), WorkFault>
    requires { 0 < workers }
    ensures beyond { length sessions.old ≤ line.session / workers → result ≡ Err WorkFault.Close }
    ensures made { OnOk result (WorkerMakes N.stated workers (line ∷ [])
        sessions.old sessions.new) }
{
    let place = line.session as usize / workers;
    if place >= sessions.len() {
        drop(line);
        return Err(WorkFault::Close);
    }
    make_call(rt, gate, &mut sessions[place], line)
}

/// Makes the calls of a batch.
fn make_batch<
    'a,
    N: Name,
    L: Loader,
    W: Writer,
    P: Processor,
    K: FilteredListener,
    G: Gate,
    R: Wait,
>(
    rt: &R,
    gate: &G,
    workers: usize,
    sessions: &mut [Session<'a, N, L, W, P, K>],
    lines: Vec<LineCall>,
) -> Result<(), WorkFault>
    requires { 0 < workers }
    ensures { OnOk result (WorkerMakes N.stated workers lines.items sessions.old sessions.new) }
{
    for line in lines {
        make_line(rt, gate, workers, sessions, line)?;
    }
    Ok(())
}

/// Makes these calls.
fn make_all<'a, N: Name, L: Loader, W: Writer, P: Processor, K: FilteredListener, G: Gate, R: Wait>(
    rt: &R,
    gate: &G,
    workers: usize,
    sessions: &mut [Session<'a, N, L, W, P, K>],
    lines: Batches,
) -> Result<(), WorkFault>
    requires { 0 < workers }
    ensures { OnOk result (WorkerMakes N.stated workers lines sessions.old sessions.new) }
{
    let Batches { full, last } = lines;
    for batch in full {
        make_batch(rt, gate, workers, sessions, batch.into_items())?;
    }
    make_batch(rt, gate, workers, sessions, last)
}

/// Makes the calls that a worker holds.
pub(crate) fn work<
    'a,
    N: Name,
    L: Loader,
    W: Writer,
    P: Processor,
    K: FilteredListener,
    G: Gate,
    R: Wait,
>(
    rt: &R,
    alloc: Global,
    gate: &G,
    workers: usize,
    worker: Worker<'a, N, L, W, P, K>,
) -> Result<Worker<'a, N, L, W, P, K>, WorkFault>
    requires workers { 0 < workers }
    ensures { IfOk result (λ w. HasWorked N.stated workers worker.entry w) }
{
    let Worker {
        mut sessions,
        lines,
    } = worker;
    match make_all(rt, gate, workers, sessions.as_mut_slice(), lines) {
        Ok(()) => Ok(Worker {
            sessions,
            lines: Batches::new(alloc),
        }),
        Err(fault) => {
            drop(sessions);
            Err(fault)
        }
    }
}
