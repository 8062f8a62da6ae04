//! What a session is to its manager.
ghost use Rattle.std.specs.Prelude.{◌≡◌, ◌+◌};

use crate::event_count::EventCount;
use crate::name::Name;
use crate::tables::TablePass;

/// A session's number, what it has seen of the table, and how many events the manager has accepted of it: begins of
/// calls, answers, give-ups, and caches destroyed. It is made below the manager's lock, where each event that
/// is accepted adds one, and no other code can add or take away.
#[derive(Drop)]
pub struct Seat<N: Name> {
    pub(crate) number: u32,
    pub(crate) accepted: EventCount,
    pub pass: TablePass<N>,
}

impl<N: Name> Seat<N> {
    /// The session's number.
    pub fn number(&self) -> u32
        ensures { result ≡ self.now.number }
    {
        self.number
    }

    /// One event more.
    pub(crate) fn accept(&mut self)
        ensures { self.new ≡ record self.old { accepted = self.old.accepted + 1 } }
    {
        self.accepted.add();
    }
}
