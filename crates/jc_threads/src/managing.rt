//! Caches created and destroyed by a worker's session.
ghost use Rattle.std.specs.Prelude.{◌≡◌, ◌≢◌, ◌<◌, ◌≤◌, None, Some, Err, IsOk, IfOk, IfErr, OnOk, length, map, slice_get};
ghost use Rattle.jc_locked.specs.Living.{AnswersConfig};
ghost use Rattle.jc_locked.specs.Sessions.{Sitting, log_of};
ghost use Rattle.jc_threads.specs.Dealing.{HasSeat, AreAtRest, KeepRest};
ghost use Rattle.jc_threads.specs.Managing.{IsCreating, IsDestroying};

use crate::fault::{WorkFault, of_create};
use crate::worker::Worker;
use jc_hooks::{CacheHooks, FilteredListener, Loader, Processor, Writer};
use jc_model::config::CacheConfig;
use jc_model::event::{CacheId, CreateRefusal};
use jc_shared::{Name, Session};
use std::alloc::Global;
use std::sync::Wait;

/// Creates a cache without callbacks by a session, and says why not, if it is refused.
fn create_by<'a, N: Name, L: Loader, W: Writer, P: Processor, K: FilteredListener, R: Wait>(
    rt: &R,
    alloc: Global,
    session: &Session<'a, N, L, W, P, K>,
    config: CacheConfig,
) -> Result<Option<CreateRefusal>, WorkFault>
    ensures told { IfOk result (λ refusal. IsCreating N.configs config refusal) }
    ensures ended { IfErr result (λ _. AnswersConfig N.configs config None) }
{
    let hooks: CacheHooks<L, W, P, K> = CacheHooks {
        loader: None,
        writer: None,
        processors: Vec::new(alloc),
        listeners: Vec::new(alloc),
    };
    match session.create(rt, config, hooks) {
        Ok(_) => Ok(None),
        Err((fault, config, hooks)) => {
            drop((config, hooks));
            Ok(Some(of_create(fault)?))
        }
    }
}

/// The session of this number, where it stands at its place in the crew.
fn own_session<'s, 'a, N: Name, L: Loader, W: Writer, P: Processor, K: FilteredListener>(
    crew: &'s [Worker<'a, N, L, W, P, K>],
    session: u32,
) -> Result<&'s Session<'a, N, L, W, P, K>, WorkFault>
    requires some { 0 < length crew.now }
    requires rest { AreAtRest crew.now }
    ensures own { IfOk result (λ found. found.now.number ≡ session) }
    ensures found { HasSeat (length crew.now) session crew.now → IsOk result }
    ensures other { IfErr result (λ fault. fault ≡ WorkFault.Close) }
{
    let workers = crew.len();
    let number = session as usize;
    let Some(own) = crew[number % workers].sessions().get(number / workers) else {
        return Err(WorkFault::Close);
    };
    if own.number() != session {
        return Err(WorkFault::Close);
    }
    Ok(own)
}

/// Creates a cache by the session of this number, once the round has ended.
pub(crate) fn create<'a, N: Name, L: Loader, W: Writer, P: Processor, K: FilteredListener, R: Wait>(
    rt: &R,
    alloc: Global,
    crew: &[Worker<'a, N, L, W, P, K>],
    session: u32,
    config: CacheConfig,
) -> Result<Option<CreateRefusal>, WorkFault>
    requires some { 0 < length crew.now }
    requires rest { AreAtRest crew.now }
    ensures told { IfOk result (λ refusal. IsCreating N.configs config refusal) }
    ensures ended { HasSeat (length crew.now) session crew.now
        → IfErr result (λ _. AnswersConfig N.configs config None) }
{
    create_by(rt, alloc, own_session(crew, session)?, config)
}

/// Destroys a cache by the session at a place, if it has this number.
pub(crate) fn destroy_by<
    'a,
    N: Name,
    L: Loader,
    W: Writer,
    P: Processor,
    K: FilteredListener,
    R: Wait,
>(
    rt: &R,
    sessions: &mut [Session<'a, N, L, W, P, K>],
    place: usize,
    session: u32,
    id: CacheId,
) -> Result<(), WorkFault>
    ensures beyond { length sessions.old ≤ place → result ≡ Err WorkFault.Close }
    ensures other { (found : Sitting) → slice_get sessions.old place ≡ Some found
        → found.number ≢ session → result ≡ Err WorkFault.Close }
    ensures gone { OnOk result (IsDestroying N.configs id) }
    ensures same { map log_of sessions.new ≡ map log_of sessions.old }
{
    if place >= sessions.len() || sessions[place].number() != session {
        return Err(WorkFault::Close);
    }
    match sessions[place].destroy(rt, id) {
        Ok(()) => Ok(()),
        Err(fault) => Err(WorkFault::from(fault)),
    }
}

/// Destroys a cache by the session of this number, once the round has ended.
pub(crate) fn destroy<
    'a,
    N: Name,
    L: Loader,
    W: Writer,
    P: Processor,
    K: FilteredListener,
    R: Wait,
>(
    rt: &R,
    crew: &mut [Worker<'a, N, L, W, P, K>],
    session: u32,
    id: CacheId,
) -> Result<(), WorkFault>
    requires some { 0 < length crew.old }
    requires rest { AreAtRest crew.old }
    ensures gone { OnOk result (IsDestroying N.configs id) }
    ensures counted { length crew.new ≡ length crew.old }
    ensures rested { KeepRest N.stated crew.old crew.new }
{
    let workers = crew.len();
    let number = session as usize;
    crew[number % workers].destroy(rt, number / workers, session, id)
}
