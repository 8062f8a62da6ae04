//! A recorded manager whose table others may watch.
ghost use Rattle.std.specs.Prelude.{◌≡◌, IfOk, OnOk, OnErr};
ghost use mathlib.Core.List.{IsPrefix};
ghost use Rattle.jc_engine.specs.Recording.{TellsItsCaches};
ghost use Rattle.jc_engine.specs.Watching.{SeesCaches, SeesNoMore};

use super::Recorded;
use crate::journal::Journal;
use jc_model::OutOfMemory;
use jc_ring::ring::Ring;
use jc_rows::watched::Watched;

impl<R: Watched, G: Ring, J: Journal> Recorded<R, G, J> {
    /// A watcher of the table. The last image that it has seen shows the caches as the transcript leaves them.
    pub fn watch(&mut self) -> Result<R::Watcher, OutOfMemory>
        ensures same { self.new ≡ self.old }
        ensures watcher { IfOk result (λ w. SeesCaches R.seen R.met w self.old.caches) }
        ensures tells { TellsItsCaches self.old }
    {
        self.engine.watch()
    }

    /// The watcher sees the table's last image, which shows the caches as the transcript leaves them.
    pub fn meet(&mut self, watcher: &mut R::Watcher) -> Result<(), OutOfMemory>
        ensures same { self.new ≡ self.old }
        ensures front { IsPrefix (R.seen watcher.old) (R.seen watcher.new) }
        ensures met { OnOk result (SeesCaches R.seen R.met watcher.new self.old.caches) }
        ensures refused { OnErr result (SeesNoMore R.seen R.met watcher.old watcher.new) }
        ensures tells { TellsItsCaches self.old }
    {
        self.engine.meet(watcher)
    }
}
