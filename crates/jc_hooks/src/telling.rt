//! Telling the listeners of a cache, each notice in the order in which they were registered.
ghost use Rattle.std.specs.Prelude.{◌≡◌, ◌<◌, ◌+◌, ◌^◌, ◌∷◌, [], length};
ghost use Rattle.jc_hooks.specs.Asking.{TellsAll};
ghost use Rattle.jc_hooks.specs.Turns.{HasTold};

use crate::hook::FilteredListener;
use crate::telling_progress::{TellingProgress, tell_next};
use jc_model::call::Notice;

/// Tells a notice to the listeners, from the first registered to the last.
fn tell<K: FilteredListener>(
    listeners: &mut [K],
    turn: TellingProgress<K>,
    notice: &Notice,
) -> TellingProgress<K>
    requires starts { HasTold turn (length listeners.old) turn.notices }
    requires fits { turn.notices + 1 < 2 ^ 64 }
    ensures told { TellsAll K.state_after listeners.old listeners.new (notice.now ∷ []) }
    ensures order { HasTold result (length listeners.old) (turn.notices + 1) }
{
    let mut turn = turn;
    while turn.has_listener() {
        turn = tell_next(listeners, turn, notice);
    }
    turn.next_notice()
}

/// Tells each notice to all listeners before the next one, in the order in which they were registered. It hands out the
/// turn that it came to, which says so.
pub fn tell_all<K: FilteredListener>(listeners: &mut [K], notices: &[Notice]) -> TellingProgress<K>
    ensures told { TellsAll K.state_after listeners.old listeners.new notices.now }
    ensures order { HasTold result (length listeners.old) (length notices.now) }
{
    let mut turn = TellingProgress::first(listeners.len());
    for notice in notices {
        turn = tell(listeners, turn, notice);
    }
    turn
}
