//! Dealing sessions and calls to workers.
ghost use Rattle.std.specs.Prelude.{◌≡◌, ◌<◌, ◌∷◌, [], Err, IfOk, OnOk, length, replicate};
ghost use Rattle.jc_threads.specs.Dealing.{idle_share, session_in, sessions_in, IsNext, HasSeat, HasSeats, KeepsSeats, AreWorkersIdle, AreUnderWay, TakeCalls};

use crate::batches::Batches;
use crate::fault::WorkFault;
use crate::worker::Worker;
use jc_hooks::{FilteredListener, Loader, Processor, Writer};
use jc_model::OutOfMemory;
use jc_script::{Line, LineCall};
use jc_shared::{Manager, Name, Session};
use std::alloc::Global;
use std::sync::Wait;

fn session_of(line: &Line) -> u32
    ensures { result ≡ session_in line.now }
{
    match line {
        Line::Call(call) => call.session,
        Line::Create { session, .. } | Line::Destroy { session, .. } => *session,
    }
}

/// How many sessions the lines need: those from 0 to the greatest that a line names.
fn sessions_of(lines: &[Line]) -> usize
    ensures { result ≡ sessions_in lines.now }
{
    let mut count = 0;
    for line in lines {
        count = count.max(session_of(line) as usize + 1);
    }
    count
}

/// Workers that have nothing.
fn idle_workers<'a, N: Name, L: Loader, W: Writer, P: Processor, K: FilteredListener>(
    alloc: Global,
    workers: usize,
) -> Result<Vec<Worker<'a, N, L, W, P, K>>, OutOfMemory>
    ensures { IfOk result (λ crew. crew.items ≡ replicate workers idle_share) }
{
    let mut crew = Vec::with_capacity(alloc, workers)?;
    for _ in 0..workers {
        crew.push(Worker {
            sessions: Vec::new(alloc),
            lines: Batches::new(alloc),
        })?;
    }
    Ok(crew)
}

/// Gives a session that has made no call to its worker, if it has this number.
fn seat_session<'a, N: Name, L: Loader, W: Writer, P: Processor, K: FilteredListener>(
    crew: &mut [Worker<'a, N, L, W, P, K>],
    session: Session<'a, N, L, W, P, K>,
    number: usize,
) -> Result<(), WorkFault>
    requires some { 0 < length crew.old }
    requires fresh { session.calls ≡ [] }
    ensures counted { length crew.new ≡ length crew.old }
    ensures close { result ≡ Err WorkFault.Close → session.entry.number ≡ number
        → IsNext number crew.old → ⊥ }
    ensures memory { result ≡ Err WorkFault.OutOfMemory
        → (session.entry.number ≡ number) × IsNext number crew.old }
    ensures own { OnOk result (HasSeat (length crew.old) number crew.new) }
    ensures kept { OnOk result (KeepsSeats (length crew.old) crew.old crew.new) }
    ensures seated { OnOk result (AreWorkersIdle crew.old → AreWorkersIdle crew.new) }
{
    if session.number() as usize != number {
        return Err(WorkFault::Close);
    }
    let workers = crew.len();
    crew[number % workers].seat(session, number / workers)
}

/// Opens so many sessions, the numbers from 0 upward, and gives each to its worker.
fn seat_all<'a, N: Name, L: Loader, W: Writer, P: Processor, K: FilteredListener, R: Wait>(
    rt: &R,
    manager: &'a Manager<N, L, W, P, K>,
    crew: &mut [Worker<'a, N, L, W, P, K>],
    sessions: usize,
) -> Result<(), WorkFault>
    requires some { 0 < length crew.old }
    ensures counted { length crew.new ≡ length crew.old }
    ensures opened { OnOk result (HasSeats (length crew.old) sessions crew.new) }
    ensures seated { OnOk result (AreWorkersIdle crew.old → AreWorkersIdle crew.new) }
{
    for number in 0..sessions {
        let session = manager.session(rt)?;
        seat_session(crew, session, number)?;
    }
    Ok(())
}

/// Gives a call to the worker that has its session.
pub(crate) fn hand_call<'a, N: Name, L: Loader, W: Writer, P: Processor, K: FilteredListener>(
    crew: &mut [Worker<'a, N, L, W, P, K>],
    line: LineCall,
) -> Result<(), OutOfMemory>
    requires some { 0 < length crew.old }
    ensures counted { length crew.new ≡ length crew.old }
    ensures handed { OnOk result (TakeCalls N.stated (line ∷ []) crew.old crew.new) }
{
    let workers = crew.len();
    crew[line.session as usize % workers].hand(line)
}

/// Opens the sessions that the lines need, and gives each to its worker.
pub(crate) fn deal_sessions<
    'a,
    N: Name,
    L: Loader,
    W: Writer,
    P: Processor,
    K: FilteredListener,
    R: Wait,
>(
    rt: &R,
    alloc: Global,
    manager: &'a Manager<N, L, W, P, K>,
    workers: usize,
    lines: &[Line],
) -> Result<Vec<Worker<'a, N, L, W, P, K>>, WorkFault>
    requires { 0 < workers }
    ensures ready { IfOk result (λ crew. (length crew.items ≡ workers)
        × AreUnderWay N.stated [] crew.items) }
    ensures opened { IfOk result (λ crew. HasSeats workers (sessions_in lines.now) crew.items) }
{
    let sessions = sessions_of(lines);
    let mut crew = idle_workers(alloc, workers)?;
    seat_all(rt, manager, crew.as_mut_slice(), sessions)?;
    Ok(crew)
}
