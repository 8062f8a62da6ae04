//! A listener that counts.

ghost use Rattle.std.specs.Prelude.{◌≡◌};
ghost use Rattle.jc_hooks.specs.Tallies.{no_notices};

use crate::listener::Listener;
use jc_model::call::{Kind, Notice};
use std::marker::Model;

/// How many notices of each kind there were. A count stays at `u64::MAX` once it is there.
#[derive(Clone, Copy, Debug, PartialEq, Eq)]
pub struct Tally {
    /// Rows that came in.
    pub created: u64,
    /// Rows whose value was replaced.
    pub updated: u64,
    /// Rows that were removed by a call.
    pub removed: u64,
    /// Rows that went because they had expired.
    pub expired: u64,
}

/// Counts the notices that it is told, by kind. Its stated state is the four counts, in `Tally`'s order.
#[derive(Drop)]
pub struct TallyListener {
    tally: Tally,
}

impl Model for TallyListener {
    ghost use Rattle.jc_hooks.specs.declared.tally.Tally.{Tally};

    ghost Value = { Tally };

    ghost view = { λ l. l.tally };
}

impl TallyListener {
    /// A listener that was told nothing so far.
    pub fn new() -> TallyListener
        ensures { result ≡ no_notices }
    {
        TallyListener {
            tally: Tally {
                created: 0,
                updated: 0,
                removed: 0,
                expired: 0,
            },
        }
    }

    /// What it has counted so far.
    pub fn tally(&self) -> Tally
        ensures { result ≡ self.now }
    {
        self.tally
    }
}

impl Listener for TallyListener {
    ghost use Rattle.jc_hooks.specs.Tallies.{tally_after, tally_numbers};

    ghost state_after = { λ l notices. tally_numbers (tally_after l notices) };

    fn tell(&mut self, notice: &Notice) {
        let tally = &mut self.tally;
        match notice.kind {
            Kind::Created => tally.created = tally.created.saturating_add(1),
            Kind::Updated => tally.updated = tally.updated.saturating_add(1),
            Kind::Removed => tally.removed = tally.removed.saturating_add(1),
            Kind::Expired => tally.expired = tally.expired.saturating_add(1),
        }
    }
}
