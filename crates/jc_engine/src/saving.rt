//! Caches as bytes, written into what is lent.
ghost use Rattle.std.specs.Prelude.{◌≡◌, ◌≤◌, length, None, IfOk, OnOk, OnErr};
ghost use Rattle.std.specs.List.{AllByRecursion};
ghost use Rattle.jc_model.specs.Places.{at_place};
ghost use Rattle.jc_model.specs.Refusals.{broken_limit};
ghost use Rattle.jc_ops.specs.Kept.{Kept, state_of};
ghost use Rattle.jc_ops.specs.Tied.{Distinct};
ghost use Rattle.jc_save.specs.Limits.{saved_bytes};
ghost use Rattle.jc_save.specs.Placing.{put_at};
ghost use Rattle.jc_save.specs.Savable.{HasDuration, AreCounters, IsRow};
ghost use Rattle.jc_save.specs.Spelling.{saved};
ghost use Rattle.jc_engine.specs.Saving.{saved_length, saved_in, IsSavableIn};

use crate::engine::Engine;
use jc_model::event::{CacheId, Cause};
use jc_ops::state::CacheState;
use jc_ring::ring::Ring;
use jc_rows::rows::Rows;
use jc_save::{Mark, put_head, put_row};

/// Writes a cache's bytes into what is lent, as many as there is room for. Tells how many they are.
fn write<G: Ring>(out: &mut [u8], state: &CacheState<G>) -> usize
    requires limits { broken_limit state.now.kept.config ≡ None }
    requires apart { Distinct state.now.kept.cells }
    requires within { length state.now.kept.cells ≤ state.now.kept.config.capacity }
    ensures length { result ≡ length (saved state.now.kept.config (state_of state.now.kept)) }
    ensures out { out.new ≡ put_at 0 (saved state.now.kept.config (state_of state.now.kept)) out.old }
    ensures duration { HasDuration state.now.kept.config.policy }
    ensures counters { AreCounters state.now.kept.counts }
    ensures rows { AllByRecursion IsRow (state_of state.now.kept).ring }
{
    let mut at = put_head(out, state.config(), state.counts(), state.len());
    let mut next = state.first();
    'rows: while let Some(row) = next {
        let held = state.record(row);
        let mark = Mark {
            expiry: held.expiry,
            used: state.is_used(row),
        };
        at = put_row(out, at, &held.key, held.value.first(), mark);
        next = state.after(row);
    }
    at
}

impl<R: Rows, G: Ring> Engine<R, G> {
    /// Writes an idle cache's bytes into what is lent, as many as there is room for, and tells how many they are. It
    /// changes nothing in the manager and takes no memory. More than 268,435,456 bytes are not restored.
    ///
    /// Refused as `NoSuchCache`, `Busy` (a call on this cache is open), in this order; nothing is written then.
    pub fn save(&self, id: CacheId, out: &mut [u8]) -> Result<usize, Cause>
        ensures exact { result ≡ saved_length (at_place self.now id) }
        ensures out { OnOk result (out.new ≡ put_at 0 (saved_in (at_place self.now id)) out.old) }
        ensures refused { OnErr result (out.new ≡ out.old) }
        ensures savable { IfOk result (λ n.
            n ≤ saved_bytes → IsSavableIn (at_place self.now id)) }
    {
        match self.caches.get(&id.number()) {
            Some(cache) => {
                if cache.is_open() {
                    return Err(Cause::Busy);
                }
                Ok(write(out, &cache.state))
            }
            None => Err(Cause::NoSuchCache),
        }
    }
}
