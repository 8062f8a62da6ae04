//! The counters of a cache's statistics. A counter that has come to the greatest `u64` stays there.
ghost use Rattle.std.specs.Prelude.{◌≡◌};
ghost use Rattle.jc_model.specs.State.{one_more};

use jc_model::call::Counts;

/// One more, up to the greatest `u64`.
pub fn one_more(n: u64) -> u64
    ensures { result ≡ one_more n }
{
    n.saturating_add(1)
}

/// One more key that was found.
pub fn with_hit(counts: Counts) -> Counts
    ensures { result ≡ record counts { hits = one_more counts.hits } }
{
    Counts {
        hits: one_more(counts.hits),
        ..counts
    }
}

/// One more key that was not found.
pub fn with_miss(counts: Counts) -> Counts
    ensures { result ≡ record counts { misses = one_more counts.misses } }
{
    Counts {
        misses: one_more(counts.misses),
        ..counts
    }
}

/// One more value that was stored by a call.
pub fn with_put(counts: Counts) -> Counts
    ensures { result ≡ record counts { puts = one_more counts.puts } }
{
    Counts {
        puts: one_more(counts.puts),
        ..counts
    }
}

/// One more row that was removed by a call.
pub fn with_removal(counts: Counts) -> Counts
    ensures { result ≡ record counts { removals = one_more counts.removals } }
{
    Counts {
        removals: one_more(counts.removals),
        ..counts
    }
}

/// One more live row that made room for another.
pub fn with_eviction(counts: Counts) -> Counts
    ensures { result ≡ record counts { evictions = one_more counts.evictions } }
{
    Counts {
        evictions: one_more(counts.evictions),
        ..counts
    }
}
