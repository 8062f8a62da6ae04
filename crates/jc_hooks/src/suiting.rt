//! Whether callbacks are those that configurations name.
ghost use Rattle.std.specs.Prelude.{◌≡◌, ◌≤◌, ◌↔◌, IsTrue, IfSome, MatchOption, length, map};
ghost use Rattle.jc_hooks.specs.Suits.{Suits, AllSuit, DifferFirst};

use crate::cache_hooks::CacheHooks;
use crate::hook::FilteredListener;
use crate::loader::Loader;
use crate::processor::Processor;
use crate::writer::Writer;
use jc_model::config::CacheConfig;

/// Whether the processors want the value where they are to.
fn want_alike<P: Processor>(wanted: &[bool], processors: &[P]) -> bool
    ensures { IsTrue result ↔ (wanted.now ≡ map P.wants processors.now) }
{
    if wanted.len() != processors.len() {
        return false;
    }
    for (i, processor) in processors.iter().enumerate() {
        if processor.wants_value() != wanted[i] {
            return false;
        }
    }
    true
}

/// Whether a cache has the callbacks that its configuration names, and no others.
pub fn suits<L: Loader, W: Writer, P: Processor, K: FilteredListener>(
    cache: &CacheConfig,
    hooks: &CacheHooks<L, W, P, K>,
) -> bool
    ensures { IsTrue result ↔ Suits P.wants cache.now hooks.now }
{
    cache.loader == hooks.loader.is_some()
        && cache.writer == hooks.writer.is_some()
        && cache.listeners as usize == hooks.listeners.len()
        && want_alike(cache.processors.items(), hooks.processors.as_slice())
}

/// The first place at which the callbacks are not those that the configuration names, or one of the two is missing.
pub fn first_unsuited<L: Loader, W: Writer, P: Processor, K: FilteredListener>(
    configs: &[CacheConfig],
    hooks: &[CacheHooks<L, W, P, K>],
) -> Option<usize>
    ensures first { MatchOption result (AllSuit P.wants configs.now hooks.now)
        (DifferFirst P.wants configs.now hooks.now) }
    ensures within { IfSome result (λ place. place ≤ length configs.now) }
{
    for (place, config) in configs.iter().enumerate() {
        let Some(own) = hooks.get(place) else {
            return Some(place);
        };
        if !suits(config, own) {
            return Some(place);
        }
    }
    if hooks.len() > configs.len() {
        Some(configs.len())
    } else {
        None
    }
}
