//! Listeners: who is told of created, updated, removed and expired entries.

use jc_model::call::Notice;

/// Is told of each change of an entry, in order (JSR 107, `CacheEntryListener`). It takes no memory and cannot fail.
///
/// `state_after` says what state a list of notices would lead to from now on, as numbers that the listener reads in its
/// own way. To be told a notice moves it on by that notice: what it then states for a list is what it stated before for
/// the notice followed by the list.
pub trait Listener: Drop + Send {
    ghost use Rattle.std.specs.Prelude.{ℕ, List};
    ghost use Rattle.jc_model.specs.declared.call.Notice.{Notice};
    ghost use Rattle.jc_hooks.specs.Asking.{MovesOnBy};

    ghost state_after: { Self → List Notice → List ℕ };

    /// Tells it of one change.
    fn tell(&mut self, notice: &Notice)
        ensures stated { MovesOnBy (state_after self.old) (state_after self.new) notice.now };
}

impl Listener for Box<dyn Listener> {
    ghost state_after = { λ b. (Listener-box b).state_after b.value };

    fn tell(&mut self, notice: &Notice) {
        (**self).tell(notice)
    }
}
