//! A cache as it is saved.
ghost use Rattle.std.specs.Prelude.{◌≡◌};

use jc_model::call::Counts;
use jc_model::config::{CacheConfig, Expiry};
use jc_model::key::Key;
use jc_model::list::Sequence;
use jc_model::value::Value;

/// When a row expires, and whether it was used since CLOCK's hand last passed it.
#[derive(Clone, Copy, Debug, PartialEq, Eq)]
pub struct Mark {
    pub expiry: Expiry,
    pub used: bool,
}

impl Mark {
    pub(crate) fn new(expiry: Expiry, used: bool) -> Mark
        ensures { result ≡ record { expiry = expiry; used = used } }
    {
        Mark { expiry, used }
    }
}

/// A row.
#[derive(Debug, Drop)]
pub struct SavedRow {
    pub key: Key,
    pub value: Value,
    pub mark: Mark,
}

/// All by which a cache will ever answer: its configuration and its state.
#[derive(Debug, Drop)]
pub struct SavedCache {
    pub config: CacheConfig,
    pub counts: Counts,
    /// From CLOCK's hand on.
    pub rows: Sequence<SavedRow>,
}
