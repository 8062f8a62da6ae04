//! A listener behind its filter.

ghost use Rattle.std.specs.Prelude.{◌≡◌};

use crate::filter::{AdmitAll, Filter};
use crate::listener::Listener;
use jc_model::call::Notice;

/// What a cache's list of listeners holds: it hears of each change of an entry, in order. What it states for a list of
/// notices it stated before for the notice that it hears followed by the list. It takes no memory and cannot fail.
/// `ListenerHook` alone hears, so no listener stands in a list without its filter.
pub trait FilteredListener: Drop + Send {
    ghost use Rattle.std.specs.Prelude.{ℕ, List};
    ghost use Rattle.jc_model.specs.declared.call.Notice.{Notice};
    ghost use Rattle.jc_hooks.specs.Asking.{MovesOnBy};

    ghost state_after: { Self → List Notice → List ℕ };

    /// Hears of one change.
    fn hear(&mut self, notice: &Notice)
        ensures stated { MovesOnBy (state_after self.old) (state_after self.new) notice.now };
}

/// A listener that is told what its filter admits, as JSR 107 registers one (`CacheEntryListenerConfiguration`). It
/// states for a list what the listener states for the notices of the list that the filter admits.
#[derive(Drop)]
pub struct ListenerHook<F, K> {
    /// Which notices the listener is told.
    pub filter: F,
    /// Who is told them.
    pub listener: K,
}

impl<K> ListenerHook<AdmitAll, K> {
    /// A listener that is told every notice.
    pub fn unfiltered(listener: K) -> ListenerHook<AdmitAll, K>
        ensures { result ≡ record { filter = record {}; listener = listener } }
    {
        ListenerHook {
            filter: AdmitAll,
            listener,
        }
    }
}

impl<F: Filter, K: Listener> FilteredListener for ListenerHook<F, K> {
    ghost use Rattle.std.specs.Prelude.{◌≡◌, true, false};
    ghost use Rattle.jc_hooks.specs.Asking.{hook_state, MovesOnBy};

    ghost state_after = { hook_state F.lets K.state_after };

    fn hear(&mut self, notice: &Notice)
        ensures stated { MovesOnBy (hook_state F.lets K.state_after self.old)
            (hook_state F.lets K.state_after self.new) notice.now }
        ensures admitted { F.lets self.old.filter notice.now ≡ true → MovesOnBy
            (K.state_after self.old.listener) (K.state_after self.new.listener) notice.now }
        ensures refused { F.lets self.old.filter notice.now ≡ false → self.new ≡ self.old }
        ensures filter { self.new.filter ≡ self.old.filter }
    {
        if self.filter.admits(notice) {
            self.listener.tell(notice);
        }
    }
}
