//! One change of a history that exists in proofs alone.
ghost use Rattle.std.specs.Prelude.{◌≡◌};

use jc_model::call::{Call, Reply};
use jc_model::config::CacheConfig;
use jc_model::event::{CacheId, Entry};
use std::snapshot::Snapshot;

/// Whose a call is: its session, the cache that it asks, and its moment.
#[derive(Clone, Copy)]
pub struct Origin {
    pub session: u32,
    pub id: CacheId,
    pub at: u64,
}

/// A call that has begun. The call itself is not in memory.
#[derive(Drop)]
pub struct CallHeader {
    pub origin: Origin,
    pub call: Snapshot<Call>,
}

impl CallHeader {
    /// The call of this origin.
    pub fn of(origin: Origin, call: &Call) -> CallHeader
        ensures origin { result.origin ≡ origin }
        ensures call { result.call.value ≡ call.now }
    {
        CallHeader {
            origin,
            call: Snapshot::of(call),
        }
    }
}

/// A call was entered behind all others, or one that waits, or one that had its reply at once; the entry at a place was
/// written; a life began; the last life was taken back.
#[derive(Drop)]
pub(crate) enum Change {
    Entered(Snapshot<Entry>),
    Waits(Snapshot<CallHeader>),
    Replied(Snapshot<CallHeader>, Snapshot<Reply>),
    Written(usize, Snapshot<Entry>),
    Lived(CacheId, Snapshot<CacheConfig>),
    Unlived,
}
