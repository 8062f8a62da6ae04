//! Callbacks of caches whose calls are made by hand.
ghost use Rattle.std.specs.Prelude.{◌≡◌, IfOk, is_some, length, map};
ghost use Rattle.jc_hooks.specs.Suits.{Suits};
ghost use Rattle.jc_hooks.specs.declared.no_hooks.NoHooks.{NoHooks as Silent};

use crate::cache_hooks::CacheHooks;
use crate::hook::FilteredListener;
use crate::loader::{Loaded, Loader};
use crate::processor::Processor;
use crate::writer::Writer;
use jc_model::OutOfMemory;
use jc_model::call::{Notice, ProcessorFault, Verdict};
use jc_model::config::CacheConfig;
use jc_model::key::Key;
use jc_model::value::Value;
use std::alloc::Global;

/// Stands where a configuration names a callback that calls by hand answer themselves. It fails where it is asked
/// nevertheless, and hears nothing.
#[derive(Clone, Copy)]
pub struct NoHooks {
    /// Whether it stands for a processor that wants the entry's value.
    wants: bool,
}

impl Loader for NoHooks {
    ghost use Rattle.jc_hooks.specs.declared.loader.Loaded.TheVariants.{Failed};

    ghost load_of = { λ u key. Failed };

    fn load(&self, _alloc: Global, _key: &Key) -> Result<Loaded, OutOfMemory> {
        Ok(Loaded::Failed)
    }
}

impl Writer for NoHooks {
    ghost use Rattle.std.specs.Prelude.{⊤};

    ghost may = { λ u given. ⊤ };

    fn write(&mut self, _alloc: Global, _key: &Key, _value: &Value) -> Result<bool, OutOfMemory> {
        Ok(false)
    }

    fn delete(&mut self, _alloc: Global, _key: &Key) -> Result<bool, OutOfMemory> {
        Ok(false)
    }
}

impl Processor for NoHooks {
    ghost use Rattle.std.specs.Prelude.{Err};

    ghost wants = { λ u. u.wants };

    ghost verdict_of = { λ u value argument. Err (record {}) };

    fn wants_value(&self) -> bool {
        self.wants
    }

    fn process(
        &self,
        _alloc: Global,
        _value: Option<&Value>,
        _argument: &Value,
    ) -> Result<Result<Verdict, ProcessorFault>, OutOfMemory> {
        Ok(Err(ProcessorFault {}))
    }
}

impl FilteredListener for NoHooks {
    ghost use Rattle.std.specs.Prelude.{[]};

    ghost state_after = { λ u notices. [] };

    fn hear(&mut self, _notice: &Notice) {}
}

/// The callbacks of such a cache.
pub type PlaceholderHooks = CacheHooks<NoHooks, NoHooks, NoHooks, NoHooks>;

/// One of them, where the configuration names one.
fn placeholder_where(named: bool) -> Option<NoHooks>
    ensures { is_some result ≡ named }
{
    if named {
        Some(NoHooks { wants: false })
    } else {
        None
    }
}

/// As many processors as a configuration names, each of which wants the value or not, as it says.
fn processors(alloc: Global, wanted: &[bool]) -> Result<Vec<NoHooks>, OutOfMemory>
    ensures { IfOk result (λ ps. wanted.now ≡ map (λ (p : Silent). p.wants) ps.items) }
{
    let mut processors = Vec::with_capacity(alloc, wanted.len())?;
    for wants in wanted {
        processors.push(NoHooks { wants: *wants })?;
    }
    Ok(processors)
}

/// So many listeners.
fn listeners(alloc: Global, count: u8) -> Result<Vec<NoHooks>, OutOfMemory>
    ensures { IfOk result (λ ks. length ks.items ≡ count) }
{
    let mut listeners = Vec::with_capacity(alloc, count as usize)?;
    for _ in 0..count {
        listeners.push(NoHooks { wants: false })?;
    }
    Ok(listeners)
}

/// Callbacks that suit a configuration, for a cache whose calls are made by hand.
pub fn placeholder_hooks(
    alloc: Global,
    config: &CacheConfig,
) -> Result<PlaceholderHooks, OutOfMemory>
    ensures { IfOk result (λ hooks. Suits (λ (p : Silent). p.wants) config.now hooks) }
{
    Ok(CacheHooks {
        loader: placeholder_where(config.loader),
        writer: placeholder_where(config.writer),
        processors: processors(alloc, config.processors.items())?,
        listeners: listeners(alloc, config.listeners)?,
    })
}
