//! A count of events that exists in proofs alone.
ghost use Rattle.std.specs.Prelude.{◌≡◌, ◌+◌};

use crate::ghost_number::GhostNumber;
use std::marker::Model;

/// How many events there were. Contracts see the number; memory has none of it.
#[derive(Drop)]
pub struct EventCount {
    events: GhostNumber,
}

impl Model for EventCount {
    ghost use Rattle.std.specs.Prelude.{ℕ};

    ghost Value = { ℕ };

    ghost view = { λ c. c.events.number };
}

impl EventCount {
    /// No events.
    pub(crate) fn new() -> EventCount
        ensures { result ≡ 0 }
    {
        EventCount {
            events: GhostNumber::zero(),
        }
    }

    /// One event more.
    pub(crate) fn add(&mut self)
        ensures { self.new ≡ self.old + 1 }
    {
        let more = GhostNumber::after(&self.events);
        self.events = more;
    }
}
