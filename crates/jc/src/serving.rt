//! A manager that threads share, from its opening to its end. Its calls are answered by what is lent to them, and it keeps
//! open calls alone, so its memory does not grow with calls.
ghost use Rattle.std.specs.Prelude.{◌≡◌, IfErr};
ghost use Rattle.jc_locked.specs.Stated.{stated_by_hand};
ghost use Rattle.jc_shards.specs.Dealt.{IsRefusal};

use jc_hooks::NoHooks;
use jc_model::OutOfMemory;
use jc_model::config::CacheConfig;
use jc_model::event::CacheId;
use jc_shards::{Unnamed, open};
use jc_shared::{Name, OpenCalls, SharedRefusal};
use std::alloc::Global;
use std::marker::Brand;
use std::thread::{Threads, map_indices};

/// The manager. `N` is its name, by which its sessions are known as its own.
pub type Manager<N> = jc_shared::Manager<N, NoHooks, NoHooks, NoHooks, NoHooks, OpenCalls>;

/// A session of it: each thread takes one of its own.
pub type Session<'a, N> = jc_shared::Session<'a, N, NoHooks, NoHooks, NoHooks, NoHooks, OpenCalls>;

/// What is done with a manager while it lives.
pub trait Service: Drop {
    /// What one thread comes to.
    type Visit: Drop;

    /// What all comes to.
    type Outcome: Drop;

    /// How many threads visit the manager at once.
    fn threads(&self) -> usize;

    /// What the thread with this number, from 0 on, does with the manager, under whatever name that has.
    fn visit<N: Name>(&self, manager: &Manager<N>, thread: usize) -> Self::Visit;

    /// What is done when all threads have come to an end, with what each came to, in the order of their numbers.
    fn finish<N: Name>(self, manager: &Manager<N>, visits: Vec<Self::Visit>) -> Self::Outcome;
}

/// What a service came to.
#[derive(Drop)]
pub struct Served<T> {
    pub outcome: T,
    /// A cache whose call was left open.
    pub open: Option<CacheId>,
}

/// Has the threads visit the manager, and then the service finish.
fn visited<N: Name + Send + Sync, S: Service + Send + Sync, R: Threads + Sync>(
    rt: &R,
    alloc: Global,
    manager: &Manager<N>,
    service: S,
) -> Result<S::Outcome, OutOfMemory>
where
    S::Visit: Send,
    S::Outcome: Send,
{
    let lent = &service;
    let visits = map_indices(
        rt,
        alloc,
        lent.threads(),
        &|thread| lent.visit(manager, thread),
    )?;
    Ok(service.finish(manager, visits))
}

/// Gives the manager its name, and ends it when the service is done.
fn serve_named<N: Name + Send + Sync, S: Service + Send + Sync, R: Threads + Sync>(
    rt: &R,
    alloc: Global,
    unnamed: Unnamed,
    service: S,
) -> Result<Served<S::Outcome>, OutOfMemory>
where
    S::Visit: Send,
    S::Outcome: Send,
    requires configs { unnamed.configs ≡ N.configs }
    requires stated { stated_by_hand unnamed.shared ≡ N.stated }
    requires index { unnamed.index ≡ N.index }
{
    let manager = unnamed.named::<N>();
    let visited = visited(rt, alloc, &manager, service);
    let open = match manager.end() {
        Ok(()) => None,
        Err((id, manager)) => {
            drop(manager);
            Some(id)
        }
    };
    Ok(Served {
        outcome: visited?,
        open,
    })
}

/// Opens a manager of these caches over an empty table, in which the seed picks the places; has the threads of the service
/// visit it; and ends it when the service has finished.
///
/// Refused as `Caches` and `OutOfMemory`; memory may be refused before the caches are looked at, and to the threads.
pub fn serve<S: Service + Send + Sync, R: Threads + Sync>(
    rt: &R,
    alloc: Global,
    configs: Vec<CacheConfig>,
    seed: u64,
    service: S,
) -> Result<Served<S::Outcome>, SharedRefusal>
where
    S::Visit: Send,
    S::Outcome: Send,
    ensures refused { IfErr result (IsRefusal configs.items) }
{
    match open(alloc, configs, seed) {
        Ok(unnamed) => match serve_named::<Brand, S, R>(rt, alloc, unnamed, service) {
            Ok(served) => Ok(served),
            Err(_) => Err(SharedRefusal::OutOfMemory),
        },
        Err(refusal) => {
            drop(service);
            Err(refusal)
        }
    }
}
