//! Why a test did not go on, and what all tests make.

use jc_config::ConfigFault;
use jc_cuckoo::cuckoo::TableRefusal;
use jc_engine::open::OpenRefusal;
use jc_hooks::CacheHooks;
use jc_model::OutOfMemory;
use jc_model::config::{CacheConfig, Policy};
use jc_model::key::{Key, KeyFault};
use jc_model::value::{Value, ValueFault};
use jc_script::ScriptFault;
use jc_shared::{SessionRefusal, SharedRefusal};
use std::alloc::{AllocFailed, Global};

/// What stopped a test: want of memory, what was refused, or that something else came of a call that the test builds on.
#[derive(Clone, Copy, Debug, PartialEq, Eq)]
pub enum Trouble {
    Memory,
    Unexpected,
    NoManager,
    NoConfig,
    NoScript,
    NoKey,
    NoValue,
    NoTable,
    NoSession,
}

impl From<OutOfMemory> for Trouble {
    fn from(_: OutOfMemory) -> Trouble {
        Trouble::Memory
    }
}

impl<T: Drop> From<AllocFailed<T>> for Trouble {
    fn from(_: AllocFailed<T>) -> Trouble {
        Trouble::Memory
    }
}

impl From<OpenRefusal> for Trouble {
    fn from(_: OpenRefusal) -> Trouble {
        Trouble::NoManager
    }
}

impl From<SharedRefusal> for Trouble {
    fn from(_: SharedRefusal) -> Trouble {
        Trouble::NoManager
    }
}

impl From<ConfigFault> for Trouble {
    fn from(_: ConfigFault) -> Trouble {
        Trouble::NoConfig
    }
}

impl From<ScriptFault> for Trouble {
    fn from(_: ScriptFault) -> Trouble {
        Trouble::NoScript
    }
}

impl From<KeyFault> for Trouble {
    fn from(_: KeyFault) -> Trouble {
        Trouble::NoKey
    }
}

impl From<ValueFault> for Trouble {
    fn from(_: ValueFault) -> Trouble {
        Trouble::NoValue
    }
}

impl From<TableRefusal> for Trouble {
    fn from(_: TableRefusal) -> Trouble {
        Trouble::NoTable
    }
}

impl From<SessionRefusal> for Trouble {
    fn from(_: SessionRefusal) -> Trouble {
        Trouble::NoSession
    }
}

/// Whether something is what it should be; both end here.
pub fn is<T: PartialEq + Drop>(found: T, wanted: T) -> bool {
    found == wanted
}

/// What a call came to that a test builds on: it must not be refused.
pub fn done<T: Drop, E: Drop>(came: Result<T, E>) -> Result<(), Trouble> {
    match came {
        Ok(_) => Ok(()),
        Err(_) => Err(Trouble::Unexpected),
    }
}

/// The key with this text.
pub fn key(text: &str) -> Result<Key, Trouble> {
    Ok(Key::from_text(text)?)
}

/// The value with this text.
pub fn value_of(alloc: Global, text: &str) -> Result<Value, Trouble> {
    let bytes = text.as_bytes().to_vec(alloc)?;
    Ok(Value::new(alloc, bytes)?)
}

/// A cache whose rows never expire, without callbacks.
pub fn plain_cache(alloc: Global, name: &str, capacity: u32) -> Result<CacheConfig, Trouble> {
    let name = key(name)?;
    Ok(jc_config::plain_cache(alloc, name, capacity, Policy::Eternal))
}

/// No callbacks.
pub fn no_hooks<L, W, P, K>(alloc: Global) -> CacheHooks<L, W, P, K> {
    CacheHooks {
        loader: None,
        writer: None,
        processors: Vec::new(alloc),
        listeners: Vec::new(alloc),
    }
}
