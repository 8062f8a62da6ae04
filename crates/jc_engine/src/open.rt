//! Opening a manager: which configurations it takes, and the caches as they are at first.
ghost use Rattle.std.specs.Prelude.{◌≡◌, ◌<◌, ◌≤◌, ℕ, false, List, [], ◌∷◌, ◌++◌, IfOk, sum, length};
ghost use Rattle.std.specs.FinMap as table;
ghost use Rattle.std.specs.List.{list_any};
ghost use Rattle.std.specs.Str.{bytes_eq};
ghost use Rattle.jc_model.specs.Limits.{most_caches};
ghost use Rattle.jc_engine.specs.Caches.{AreJustOpened, fresh_from};
ghost use Rattle.jc_engine.specs.Opening.{RefusesDue, RefusesNoOther, open_refusal, open_refusal_from};
ghost use Rattle.jc_engine.specs.Opening.{refusal_from, is_taken, capacities, names_in};
ghost use Rattle.jc_engine.specs.Opening.{AreNames};
ghost use Rattle.jc_engine.specs.Sound.{IsSpare};

use crate::engine::Engine;
use jc_model::OutOfMemory;
use jc_model::config::{CacheConfig, Limit};
use jc_model::event::CacheId;
use jc_model::key::Key;
use jc_model::limits::{MOST_CACHES, MOST_IDS, MOST_ROWS_TOGETHER};
use jc_model::roster::Roster;
use jc_ops::state::CacheState;
use jc_ops::visit::Visit;
use jc_ring::ring::Ring;
use jc_rows::rows::Rows;
use std::alloc::{AllocError, Global};
use std::collections::{HashMap, HashSet};

/// Why a manager does not open; `cache` is the place of the cache in the list, from 0.
#[derive(Debug, Drop, PartialEq, Eq)]
pub enum OpenRefusal {
    /// More than 1,024 caches.
    TooManyCaches,
    /// Not from 1 to 65,536 rows.
    BadCapacity { cache: u32 },
    /// More than 8 listeners.
    TooManyListeners { cache: u32 },
    /// More than 16 processors.
    TooManyProcessors { cache: u32 },
    /// An earlier cache has the same name.
    DuplicateName { cache: u32 },
    /// More than 262,144 rows together.
    TotalCapacity,
    /// The greatest id is 4,294,967,294.
    IdsSpent,
    OutOfMemory,
}

impl From<OutOfMemory> for OpenRefusal {
    ghost use Rattle.std.specs.Prelude.{◌≡◌};
    ghost use Rattle.jc_engine.specs.declared.open.OpenRefusal.TheVariants.{OutOfMemory as NoMemory};

    ghost from_gives = { λ _ refusal. refusal ≡ NoMemory };

    fn from(_: OutOfMemory) -> OpenRefusal {
        OpenRefusal::OutOfMemory
    }
}

impl<R: Rows, G: Ring> Engine<R, G> {
    /// Opens a manager with these caches, each without rows and counts, over an empty table. A cache's id is its
    /// place in the list.
    ///
    /// Refused as `TooManyCaches`; for each cache in turn `BadCapacity`, `TooManyListeners`, `TooManyProcessors`,
    /// `DuplicateName`; then `TotalCapacity`, `OutOfMemory`.
    pub fn open(
        alloc: Global,
        rows: R,
        configs: Vec<CacheConfig>,
    ) -> Result<Engine<R, G>, OpenRefusal>
        requires { R.contents rows ≡ table.empty }
        ensures refused { RefusesDue (open_refusal configs.items) result }
        ensures memory { RefusesNoOther (open_refusal configs.items) result }
        ensures opened { IfOk result (λ engine. engine ≡ fresh_from 0 configs.items) }
    {
        Engine::open_from(alloc, rows, configs, 0)
    }

    /// The same, where the first cache gets this id and each further one the next. After `TotalCapacity` comes
    /// `IdsSpent`, where an id would be 4,294,967,295 or more.
    pub fn open_from(
        alloc: Global,
        rows: R,
        configs: Vec<CacheConfig>,
        first: u32,
    ) -> Result<Engine<R, G>, OpenRefusal>
        requires { R.contents rows ≡ table.empty }
        ensures refused { RefusesDue (open_refusal_from first configs.items) result }
        ensures memory { RefusesNoOther (open_refusal_from first configs.items) result }
        ensures opened { IfOk result (λ engine. engine ≡ fresh_from first configs.items) }
    {
        if let Some(refusal) = open_refusal_from(alloc, &configs, first) {
            drop((rows, configs));
            return Err(refusal);
        }
        let mut engine = Engine {
            alloc,
            visit: Visit::new(alloc, spare_cache(alloc)?, rows),
            caches: HashMap::new(alloc),
            roster: Roster::new(alloc, first),
        };
        for config in configs {
            if let Err(config) = engine.admit(config) {
                drop((engine, config));
                return Err(OpenRefusal::OutOfMemory);
            }
        }
        Ok(engine)
    }

    /// The same manager over another empty table. No call has changed a cache yet.
    pub fn over<S: Rows>(self, rows: S) -> Engine<S, G>
        requires empty { S.contents rows ≡ table.empty }
        requires opened { AreJustOpened self }
        ensures { result ≡ self }
    {
        Engine {
            alloc: self.alloc,
            visit: self.visit.over(rows),
            caches: self.caches,
            roster: self.roster,
        }
    }
}

/// The cache without rows that the manager's visit has between two calls. It has an id that is given to none.
fn spare_cache<G: Ring>(alloc: Global) -> Result<Box<CacheState<G>>, OutOfMemory>
    ensures { IfOk result (λ cache. IsSpare cache.value.kept) }
{
    let Ok(name) = Key::from_text("spare") else {
        unreachable!()
    };
    let config = CacheConfig::new(alloc, name, 1);
    match CacheState::empty(alloc, CacheId::new(MOST_IDS), config) {
        Ok(state) => Ok(Box::new(alloc, state)?),
        Err(_) => Err(AllocError),
    }
}

/// Why a manager does not open with these caches, want of memory aside.
pub fn open_refusal(alloc: Global, configs: &[CacheConfig]) -> Option<OpenRefusal>
    ensures { result ≡ open_refusal configs.now }
{
    if configs.len() > MOST_CACHES {
        return Some(OpenRefusal::TooManyCaches);
    }
    let refusal = first_refusal(alloc, configs);
    if refusal.is_none() && total_capacity(configs) > MOST_ROWS_TOGETHER {
        return Some(OpenRefusal::TotalCapacity);
    }
    refusal
}

/// The same, where the first cache gets this id and each further one the next.
pub fn open_refusal_from(alloc: Global, configs: &[CacheConfig], first: u32) -> Option<OpenRefusal>
    ensures { result ≡ open_refusal_from first configs.now }
{
    let refusal = open_refusal(alloc, configs);
    if refusal.is_none() && u64::from(first) + configs.len() as u64 > u64::from(MOST_IDS) {
        return Some(OpenRefusal::IdsSpent);
    }
    refusal
}

/// Whether one of these caches has this name, by comparing it with each.
fn is_named(configs: &[CacheConfig], name: Key) -> bool
    ensures { result ≡ list_any (λ c. bytes_eq c.name name) configs.now }
{
    let bytes = name.text().as_bytes();
    configs
        .iter()
        .any(|config| config.name.text().as_bytes() == bytes)
}

/// Whether one of these caches has this name, by the set of their names where memory sufficed for one.
fn is_taken(names: &Option<HashSet<Key>>, before: &[CacheConfig], name: Key) -> bool
    requires { AreNames names.now (names_in before.now) }
    ensures { result ≡ is_taken name (names_in before.now) }
{
    match names {
        Some(names) => names.contains(&name),
        None => is_named(before, name),
    }
}

/// The set with one name more, unless memory is refused for it.
fn with_name(names: Option<HashSet<Key>>, name: Key) -> Option<HashSet<Key>>
    ensures { (taken : List (List ℕ))
        → AreNames names taken → AreNames result (taken ++ name ∷ []) }
{
    let mut names = names?;
    match names.insert(name) {
        Ok(_) => Some(names),
        Err(_) => None,
    }
}

/// What is wrong with the first cache of these that is refused.
fn first_refusal(alloc: Global, configs: &[CacheConfig]) -> Option<OpenRefusal>
    requires { length configs.now ≤ most_caches }
    ensures { result ≡ refusal_from [] 0 configs.now }
{
    let mut names = HashSet::with_capacity(alloc, configs.len()).ok();
    for (place, config) in configs.iter().enumerate() {
        let cache = place as u32;
        match config.broken_limit() {
            Some(Limit::Capacity) => return Some(OpenRefusal::BadCapacity { cache }),
            Some(Limit::Listeners) => return Some(OpenRefusal::TooManyListeners { cache }),
            Some(Limit::Processors) => return Some(OpenRefusal::TooManyProcessors { cache }),
            None => {}
        }
        if is_taken(&names, &configs[..place], config.name) {
            return Some(OpenRefusal::DuplicateName { cache });
        }
        names = with_name(names, config.name);
    }
    None
}

/// How many rows the caches may have together.
fn total_capacity(configs: &[CacheConfig]) -> u64
    requires { length configs.now ≤ most_caches }
    ensures { result ≡ sum (capacities configs.now) }
{
    let mut total: u64 = 0;
    for config in configs {
        total += u64::from(config.capacity);
    }
    total
}
