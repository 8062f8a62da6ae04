//! Opening a manager.
ghost use Rattle.std.specs.Prelude.{◌≡◌, None, IfOk, IfErr, OnOk, length, map};
ghost use Rattle.jc_model.specs.Legal.{at_first};
ghost use Rattle.jc_model.specs.Runs.{opened_from};
ghost use Rattle.jc_engine.specs.Caches.{lives_of};
ghost use Rattle.jc_engine.specs.Opening.{open_refusal};
ghost use Rattle.jc_hooks.specs.Suits.{AllSuit};
ghost use Rattle.jc_locked.specs.Opening.{CanOpen, IsOpeningRefusal};
ghost use Rattle.jc_locked.specs.Stated.{stated_by, shared_of};

use crate::brief_lock::BriefLock;
use crate::directory::Directory;
use crate::manager::Manager;
use jc_engine::journal::all_calls::AllCalls;
use jc_engine::open::open_refusal;
use jc_engine::recorded::Recorded;
use jc_hooks::{CacheHooks, FilteredListener, Loader, Processor, Writer, first_unsuited};
use jc_locked::fault::SharedRefusal;
use jc_locked::guarded_state::GuardedState;
use jc_locked::hooks::{AllHooks, apart};
use jc_locked::journal_policy::JournalPolicy;
use jc_locked::name::Name;
use jc_locked::tables::BlankTable;
use jc_model::OutOfMemory;
use jc_model::config::CacheConfig;
use jc_model::share::Share;
use jc_ring::link_ring::LinkRing;
use jc_rows::list_rows::ListRows;
use std::alloc::{AllocError, Global};
use std::marker::Model;
use std::sync::Mutex;

/// What will be a manager once it has a name. Contracts see the configurations, of each cache its loader and processors,
/// the index and the seed.
#[derive(Drop)]
pub struct Shared<L, W, P, K, J: JournalPolicy = AllCalls> {
    alloc: Global,
    configs: Vec<CacheConfig>,
    hooks: AllHooks<L, W, P, K>,
    /// Over no table yet.
    recorded: Recorded<ListRows, LinkRing, J>,
    table: BlankTable,
}

impl<L, W, P, K, J: JournalPolicy> Model for Shared<L, W, P, K, J> {
    ghost use Rattle.jc_locked.specs.Opening.{HandedIn, IsOpened};

    ghost Value = { HandedIn L P };

    ghost view = { λ s. record {
      configs = s.configs.items;
      shared = s.hooks.shared.items;
      index = s.table.index;
      seed = s.table.seed;
    } };

    ghost invariant = { λ s. IsOpened s.configs.items s.recorded
        s.hooks.shared.items s.hooks.locks.items };
}

fn copies(alloc: Global, configs: &[CacheConfig]) -> Result<Vec<CacheConfig>, OutOfMemory>
    ensures { IfOk result (λ copies. copies.items ≡ configs.now) }
{
    let mut copies = Vec::with_capacity(alloc, configs.len())?;
    for config in configs {
        copies.push(config.share()?)?;
    }
    Ok(copies)
}

/// The recorded engine over an empty list of rows.
fn open_recorded<J: JournalPolicy>(
    alloc: Global,
    configs: Vec<CacheConfig>,
) -> Result<Recorded<ListRows, LinkRing, J>, OutOfMemory>
    requires { open_refusal configs.items ≡ None }
    ensures opened { IfOk result (λ r. lives_of r.caches ≡ opened_from 0 configs.items) }
    ensures uncalled { IfOk result (λ r. r.transcript ≡ at_first 0 configs.items) }
{
    match Recorded::open(alloc, ListRows::new(alloc), configs) {
        Ok(recorded) => Ok(recorded),
        Err(_) => Err(AllocError),
    }
}

/// All that a manager has, where memory suffices.
fn open_parts<L: Loader, W: Writer, P: Processor, K: FilteredListener, J: JournalPolicy>(
    alloc: Global,
    configs: Vec<CacheConfig>,
    hooks: Vec<CacheHooks<L, W, P, K>>,
    seed: u64,
) -> Result<Shared<L, W, P, K, J>, OutOfMemory>
    requires opens { open_refusal configs.items ≡ None }
    requires suit { AllSuit P.wants configs.items hooks.items }
    ensures configs { IfOk result (λ s. s.configs ≡ configs.items) }
    ensures shared { IfOk result (λ s. s.shared ≡ map shared_of hooks.items) }
    ensures seed { IfOk result (λ s. s.seed ≡ seed) }
{
    let hooks = apart(alloc, hooks)?;
    let table = BlankTable::new(alloc, seed)?;
    let second = copies(alloc, configs.as_slice())?;
    let recorded = open_recorded(alloc, second)?;
    Ok(Shared {
        alloc,
        configs,
        hooks,
        recorded,
        table,
    })
}

impl<L: Loader, W: Writer, P: Processor, K: FilteredListener, J: JournalPolicy> Shared<
    L,
    W,
    P,
    K,
    J,
> {
    /// Opens a manager with these caches and their callbacks, over an empty table. The seed picks the places there.
    ///
    /// Refused as `Caches`, with the engine's refusal; as `HooksDiffer`; as `OutOfMemory`.
    pub fn open(
        alloc: Global,
        configs: Vec<CacheConfig>,
        hooks: Vec<CacheHooks<L, W, P, K>>,
        seed: u64,
    ) -> Result<Shared<L, W, P, K, J>, SharedRefusal>
        ensures configs { IfOk result (λ s. s.configs ≡ configs.items) }
        ensures shared { IfOk result (λ s. s.shared ≡ map shared_of hooks.items) }
        ensures seed { IfOk result (λ s. s.seed ≡ seed) }
        ensures opens { OnOk result (CanOpen P.wants configs.items hooks.items) }
        ensures refused { IfErr result (IsOpeningRefusal P.wants configs.items hooks.items) }
    {
        if let Some(refusal) = open_refusal(alloc, configs.as_slice()) {
            return Err(SharedRefusal::Caches(refusal));
        }
        if let Some(cache) = first_unsuited(configs.as_slice(), hooks.as_slice()) {
            return Err(SharedRefusal::HooksDiffer {
                cache: cache as u32,
            });
        }
        match open_parts(alloc, configs, hooks, seed) {
            Ok(shared) => Ok(shared),
            Err(_) => Err(SharedRefusal::OutOfMemory),
        }
    }

    /// The manager under a name, which tells these configurations, what these loaders and processors state, and the
    /// index.
    pub fn named<N: Name>(self) -> Manager<N, L, W, P, K, J>
        requires configs { self.configs ≡ N.configs }
        requires stated { map (stated_by L.load_of P.verdict_of) self.shared ≡ N.stated }
        requires index { self.index ≡ N.index }
    {
        let Shared {
            alloc,
            configs: _,
            hooks,
            recorded,
            table,
        } = self;
        let AllHooks { shared, locks } = hooks;
        Manager {
            alloc,
            shared,
            locks,
            directory: Mutex::new(Directory::new(alloc)),
            locked: BriefLock::new(GuardedState::new(recorded.over(table.named::<N>()))),
        }
    }
}
