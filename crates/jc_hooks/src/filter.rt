//! Filters: which changes of entries a listener is told of.

use jc_model::call::Notice;

/// Says which changes its listener is told of (JSR 107, `CacheEntryEventFilter`). It takes no memory and cannot fail.
pub trait Filter: Drop + Send {
    ghost use Rattle.std.specs.Prelude.{◌≡◌, Bool};
    ghost use Rattle.jc_model.specs.declared.call.Notice.{Notice};

    ghost lets: { Self → Notice → Bool };

    /// Whether the listener is to be told of the change.
    fn admits(&self, notice: &Notice) -> bool
        ensures stated { result ≡ lets self.now notice.now };
}

impl Filter for Box<dyn Filter> {
    ghost lets = { λ b. (Filter-box b).lets b.value };

    fn admits(&self, notice: &Notice) -> bool {
        (**self).admits(notice)
    }
}

/// Admits every change.
#[derive(Drop)]
pub struct AdmitAll;

impl Filter for AdmitAll {
    ghost use Rattle.std.specs.Prelude.{true};

    ghost lets = { λ _ _. true };

    fn admits(&self, _notice: &Notice) -> bool {
        true
    }
}
