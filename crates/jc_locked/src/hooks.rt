//! A cache's callbacks, apart by who uses them: loader and processors are asked by all sessions side by side, writer
//! and listeners by the one call that holds the cache's hooks lock.
ghost use Rattle.std.specs.Prelude.{◌≡◌, [], None, false, length, map, is_some, IsSome, IfOk, IfErr, OnErr};
ghost use Rattle.jc_model.specs.declared.config.CacheConfig.{CacheConfig as Configured};
ghost use Rattle.jc_model.specs.Asking.{processor_invoked};
ghost use Rattle.jc_model.specs.Runs.{has_processor};
ghost use Rattle.jc_locked.specs.Finding.{ok_or_no_processor};
ghost use Rattle.jc_locked.specs.Stated.{shared_of, locked_of, wants_lock};

use crate::fault::CallFault;
use jc_hooks::{CacheHooks, FilteredListener, Loader, Processor, Writer};
use jc_model::OutOfMemory;
use jc_model::call::Call;
use jc_model::config::CacheConfig;
use std::alloc::Global;
use std::sync::Mutex;

/// The loader and the processors of one cache.
#[derive(Drop)]
pub struct SharedHooks<L, P> {
    pub loader: Option<L>,
    pub processors: Vec<P>,
}

/// Its writer and its listeners.
#[derive(Drop)]
pub struct LockedHooks<W, K> {
    pub writer: Option<W>,
    pub listeners: Vec<K>,
}

/// What lies under the hooks lock of a cache that a session has created: all its callbacks.
#[derive(Drop)]
pub struct OwnHooks<L, W, P, K> {
    pub asked: SharedHooks<L, P>,
    pub locked: LockedHooks<W, K>,
}

/// The hooks lock of a cache of the opening: a cache without callbacks has none, since none of its calls makes a
/// request.
pub type OpeningLock<W, K> = Option<Mutex<LockedHooks<W, K>>>;

/// All callbacks of the opening, by cache: loaders and processors, and what goes under the hooks locks.
#[derive(Drop)]
pub struct AllHooks<L, W, P, K> {
    pub shared: Vec<SharedHooks<L, P>>,
    pub locks: Vec<OpeningLock<W, K>>,
}

impl<L, P> SharedHooks<L, P> {
    /// No loader and no processors.
    pub fn none(alloc: Global) -> SharedHooks<L, P>
        ensures { (result.loader ≡ None) × (result.processors.items ≡ []) }
    {
        SharedHooks {
            loader: None,
            processors: Vec::new(alloc),
        }
    }

    /// Whether the processor that a call names, if any, is there.
    fn has_processor(&self, call: &Call) -> bool
        ensures names { result ≡ false → IsSome (processor_invoked call.now) }
        ensures agrees { (c : Configured) → length c.processors ≡ length self.now.processors.items →
            result ≡ has_processor c call.now }
    {
        match call {
            Call::Invoke { processor, .. } | Call::InvokeAll { processor, .. } => {
                (*processor as usize) < self.processors.len()
            }
            _ => true,
        }
    }

    /// Refuses a call that names a processor which is not there.
    pub fn accept(&self, call: &Call) -> Result<(), CallFault>
        ensures agrees { (c : Configured) → length c.processors ≡ length self.now.processors.items →
            result ≡ ok_or_no_processor (has_processor c call.now) }
        ensures err { IfErr result (λ fault. fault ≡ CallFault.NoSuchProcessor) }
        ensures names { OnErr result (IsSome (processor_invoked call.now)) }
    {
        if self.has_processor(call) {
            Ok(())
        } else {
            Err(CallFault::NoSuchProcessor)
        }
    }
}

impl<W, K> LockedHooks<W, K> {
    /// No writer and no listeners.
    pub fn none(alloc: Global) -> LockedHooks<W, K>
        ensures { (result.writer ≡ None) × (result.listeners.items ≡ []) }
    {
        LockedHooks {
            writer: None,
            listeners: Vec::new(alloc),
        }
    }
}

impl<L, W, P, K> OwnHooks<L, W, P, K> {
    /// No callbacks.
    pub fn none(alloc: Global) -> OwnHooks<L, W, P, K>
        ensures asked { (result.asked.loader ≡ None) × (result.asked.processors.items ≡ []) }
        ensures locked { (result.locked.writer ≡ None) × (result.locked.listeners.items ≡ []) }
    {
        OwnHooks {
            asked: SharedHooks::none(alloc),
            locked: LockedHooks::none(alloc),
        }
    }

    /// All callbacks of a cache that a session creates.
    pub fn of(hooks: CacheHooks<L, W, P, K>) -> OwnHooks<L, W, P, K>
        ensures { result ≡ record { asked = shared_of hooks; locked = locked_of hooks } }
    {
        let (asked, locked) = split_hooks(hooks);
        OwnHooks { asked, locked }
    }
}

/// A cache's callbacks apart: those that all sessions ask, and those under its hooks lock.
fn split_hooks<L, W, P, K>(hooks: CacheHooks<L, W, P, K>) -> (SharedHooks<L, P>, LockedHooks<W, K>)
    ensures asked { result.0 ≡ shared_of hooks }
    ensures locked { result.1 ≡ locked_of hooks }
{
    let CacheHooks {
        loader,
        writer,
        processors,
        listeners,
    } = hooks;
    let asked = SharedHooks { loader, processors };
    let locked = LockedHooks { writer, listeners };
    (asked, locked)
}

/// Whether a cache has any callbacks.
fn wants_lock<L, W, P, K>(hooks: &CacheHooks<L, W, P, K>) -> bool
    ensures { result ≡ wants_lock hooks.now }
{
    hooks.loader.is_some()
        || hooks.writer.is_some()
        || !hooks.processors.is_empty()
        || !hooks.listeners.is_empty()
}

/// A lock over writer and listeners, where one is wanted.
fn lock_over<W: Drop, K: Drop>(wanted: bool, locked: LockedHooks<W, K>) -> OpeningLock<W, K>
    ensures { is_some result ≡ wanted }
{
    if wanted {
        Some(Mutex::new(locked))
    } else {
        None
    }
}

/// The callbacks apart, in the order of the caches. Exactly the caches that have any have a lock.
pub fn apart<L: Loader, W: Writer, P: Processor, K: FilteredListener>(
    alloc: Global,
    hooks: Vec<CacheHooks<L, W, P, K>>,
) -> Result<AllHooks<L, W, P, K>, OutOfMemory>
    ensures shared { IfOk result (λ all. all.shared.items ≡ map shared_of hooks.items) }
    ensures locks { IfOk result (λ all. map is_some all.locks.items ≡ map wants_lock hooks.items) }
{
    let mut shared = Vec::with_capacity(alloc, hooks.len())?;
    let mut locks = Vec::with_capacity(alloc, hooks.len())?;
    for own in hooks {
        let wanted = wants_lock(&own);
        let (asked, locked) = split_hooks(own);
        shared.push(asked)?;
        locks.push(lock_over(wanted, locked))?;
    }
    Ok(AllHooks { shared, locks })
}
