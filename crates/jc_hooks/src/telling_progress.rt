//! Whose turn it is to be told, and of which notice.
ghost use Rattle.std.specs.Prelude.{◌≡◌, ◌<◌, ◌+◌, ◌^◌, ◌↔◌, length, IsTrue};
ghost use Rattle.jc_hooks.specs.Asking.{TellsAt};

use crate::hook::FilteredListener;
use jc_model::call::Notice;
use std::marker::PhantomData;

/// How far telling has come, each notice to all listeners before the next one. Only the functions of this module make a
/// turn: `tell_next` goes on past a listener, which it has told, and `next_notice` past a notice, where no listener is
/// left.
#[derive(Drop)]
pub struct TellingProgress<K> {
    /// How many listeners there are.
    listeners: usize,
    /// How many notices all of them were told.
    notices: usize,
    /// How many of them were told the next notice.
    told: usize,
    /// Their type: listeners of another type have turns of their own.
    of: PhantomData<K>,
}

impl<K> TellingProgress<K> {
    /// The turn of the first of so many listeners, for the first notice.
    pub(crate) fn first(listeners: usize) -> TellingProgress<K>
        ensures all { result.listeners ≡ listeners }
        ensures notices { result.notices ≡ 0 }
        ensures told { result.told ≡ 0 }
    {
        TellingProgress {
            listeners,
            notices: 0,
            told: 0,
            of: PhantomData,
        }
    }

    /// Whether a listener is left that was not told the next notice.
    pub(crate) fn has_listener(&self) -> bool
        ensures { IsTrue result ↔ (self.now.told < self.now.listeners) }
    {
        self.told < self.listeners
    }

    /// The first listener's turn, for the notice after the one that all were told.
    pub(crate) fn next_notice(self) -> TellingProgress<K>
        requires done { self.told ≡ self.listeners }
        requires fits { self.notices + 1 < 2 ^ 64 }
        ensures all { result.listeners ≡ self.listeners }
        ensures notices { result.notices ≡ self.notices + 1 }
        ensures told { result.told ≡ 0 }
    {
        TellingProgress {
            listeners: self.listeners,
            notices: self.notices + 1,
            told: 0,
            of: PhantomData,
        }
    }
}

/// Tells the listener whose turn it is, and no other.
pub(crate) fn tell_next<K: FilteredListener>(
    listeners: &mut [K],
    turn: TellingProgress<K>,
    notice: &Notice,
) -> TellingProgress<K>
    requires all { turn.listeners ≡ length listeners.old }
    requires left { turn.told < turn.listeners }
    ensures all { result.listeners ≡ turn.listeners }
    ensures notices { result.notices ≡ turn.notices }
    ensures next { result.told ≡ turn.told + 1 }
    ensures told { TellsAt K.state_after listeners.old listeners.new turn.told notice.now }
{
    let place = turn.told;
    let listener = &mut listeners[place];
    listener.hear(notice);
    TellingProgress {
        listeners: turn.listeners,
        notices: turn.notices,
        told: place + 1,
        of: PhantomData,
    }
}
