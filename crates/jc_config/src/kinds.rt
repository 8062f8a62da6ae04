//! The kinds of callbacks that a configuration names.

ghost use Rattle.std.specs.Prelude.{◌≡◌};
ghost use Rattle.jc_config.specs.Kinds.{capacity_in, plain_cache, wants_value_of};

use crate::settings::Settings;
use jc_model::config::{CacheConfig, Policy};
use jc_model::key::Key;
use jc_model::limits::MOST_ROWS;
use jc_model::list::Sequence;
use std::alloc::Global;

/// The loader of a cache.
#[derive(Clone, Copy, Debug, PartialEq, Eq)]
pub enum LoaderKind {
    /// `EchoLoader` of `jc_hooks`.
    Echo,
}

/// The writer of a cache.
#[derive(Clone, Copy, Debug, PartialEq, Eq)]
pub enum WriterKind {
    /// `CheckWriter` of `jc_hooks`.
    Check,
}

/// One of a cache's entry processors.
#[derive(Clone, Copy, Debug, PartialEq, Eq)]
pub enum ProcessorKind {
    /// `ProgramProcessor::Append` of `jc_hooks`.
    Append,
    /// `ProgramProcessor::Fail` of `jc_hooks`.
    Fail,
    /// `ProgramProcessor::Drop` of `jc_hooks`.
    Drop,
    /// `ProgramProcessor::Peek` of `jc_hooks`.
    Peek,
}

impl ProcessorKind {
    /// Whether the processor is given the entry's value.
    pub fn wants_value(self) -> bool
        ensures { result ≡ wants_value_of self }
    {
        match self {
            ProcessorKind::Append | ProcessorKind::Peek => true,
            ProcessorKind::Fail | ProcessorKind::Drop => false,
        }
    }
}

/// The kinds of one cache's callbacks. All its listeners are tallies; its configuration says how many.
#[derive(Drop)]
pub struct HookKinds {
    pub loader: Option<LoaderKind>,
    pub writer: Option<WriterKind>,
    pub processors: Sequence<ProcessorKind>,
}

/// One cache as its table gives it.
#[derive(Drop)]
pub struct CacheSettings {
    pub config: CacheConfig,
    pub hooks: HookKinds,
}

/// What a document says: the caches, and the kinds of their callbacks in the same order.
#[derive(Drop)]
pub struct Configuration {
    pub settings: Settings,
    pub hooks: Sequence<HookKinds>,
}

/// A cache's rows, if it may have so many: 1 to 65,536.
pub fn capacity_in(rows: u64) -> Option<u32>
    ensures { result ≡ capacity_in rows }
{
    if rows >= 1 && rows <= MOST_ROWS as u64 {
        Some(rows as u32)
    } else {
        None
    }
}

/// A cache without callbacks.
pub fn plain_cache(alloc: Global, name: Key, capacity: u32, policy: Policy) -> CacheConfig
    ensures { result ≡ plain_cache name capacity policy }
{
    CacheConfig {
        name,
        capacity,
        policy,
        loader: false,
        writer: false,
        processors: Sequence::new(Vec::new(alloc)),
        listeners: 0,
    }
}
