//! A history that exists in proofs alone: it is made of its changes, and none of them is in memory.
ghost use Rattle.std.specs.Prelude.{◌≡◌};
ghost use Rattle.jc_engine.specs.Recording.{with_entry, with_entry_at, with_life};
ghost use Rattle.jc_engine.specs.Changed.{begun_entry, changed, replied_at_once, without_life};
ghost use Rattle.jc_engine.specs.Past.{nothing};

use crate::journal::change::{CallHeader, Change};
use jc_model::call::Reply;
use jc_model::config::CacheConfig;
use jc_model::event::{CacheId, Entry};
use std::marker::Model;
use std::snapshot::Snapshot;

/// The lives and the calls that there were. Contracts see their lists; memory has none of them.
#[cycle(past)]
#[derive(Drop)]
pub struct GhostHistory {
    last: Option<Happened>,
}

/// What there was before, and a change of it.
#[cycle(past)]
#[derive(Drop)]
struct Happened {
    before: Snapshot<GhostHistory>,
    change: Change,
}

impl Model for GhostHistory {
    ghost use Rattle.std.specs.Prelude.{option_map};
    ghost use Rattle.jc_engine.specs.Changed.{changed};
    ghost use Rattle.jc_engine.specs.Past.{Told, told_by, after, change_count};

    ghost Value = { Told };

    ghost view = { λ p. told_by (option_map (λ e. after (changed e.change) e.before.value) p.last) };

    ghost size = { change_count };

    ghost use Rattle.std.proofs.Common.{arith};

    ghost size_decreases = { λ p h. Prim.grind (arith) };
}

impl GhostHistory {
    /// No lives and no calls.
    pub fn new() -> GhostHistory
        ensures { result.history ≡ nothing }
    {
        GhostHistory { last: None }
    }

    fn change(&mut self, change: Change)
        ensures { self.new.history ≡ changed change self.old.history }
    {
        let before = Snapshot::of(&*self);
        self.last = Some(Happened { before, change });
    }

    /// A call more, the last.
    pub fn push(&mut self, entry: &Entry)
        ensures { self.new.history ≡ with_entry entry.now self.old.history }
    {
        self.change(Change::Entered(Snapshot::of(entry)));
    }

    /// A call more, the last, which waits.
    pub fn push_waiting(&mut self, begun: CallHeader)
        ensures { self.new.history ≡ with_entry (begun_entry begun) self.old.history }
    {
        self.change(Change::Waits(Snapshot::of(&begun)));
    }

    /// A call more, the last, which had this reply at once.
    pub fn push_replied(&mut self, begun: CallHeader, reply: &Reply)
        ensures { self.new.history ≡ with_entry (replied_at_once begun reply.now) self.old.history }
    {
        self.change(Change::Replied(Snapshot::of(&begun), Snapshot::of(reply)));
    }

    /// The call at a place has this entry now.
    pub(crate) fn set(&mut self, place: usize, entry: &Entry)
        ensures { self.new.history ≡ with_entry_at place entry.now self.old.history }
    {
        self.change(Change::Written(place, Snapshot::of(entry)));
    }

    /// A life more, the last.
    pub(crate) fn push_life(&mut self, id: CacheId, config: &CacheConfig)
        ensures { self.new.history ≡ with_life id config.now self.old.history }
    {
        self.change(Change::Lived(id, Snapshot::of(config)));
    }

    /// The last life is taken back.
    pub(crate) fn pop_life(&mut self)
        ensures { self.new.history ≡ without_life self.old.history }
    {
        self.change(Change::Unlived);
    }
}
