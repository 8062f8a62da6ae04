//! A table that others may watch.
ghost use Rattle.std.specs.Prelude.{◌≡◌, IfOk, OnOk, OnErr, false};
ghost use mathlib.Core.List.{IsPrefix};
ghost use Rattle.jc_ops.specs.Visited.{SeesTable};

use super::Visit;
use jc_model::OutOfMemory;
use jc_ring::ring::Ring;
use jc_rows::watched::Watched;

impl<R: Watched, G: Ring> Visit<R, G> {
    /// A watcher of the table, which has seen its last image.
    pub fn watch(&mut self) -> Result<R::Watcher, OutOfMemory>
        ensures same { self.new ≡ self.old }
        ensures watcher { IfOk result (λ w. SeesTable self.old.table (R.seen w) (R.met w)) }
    {
        self.rows.watch()
    }

    /// The watcher sees the table's last image. Where memory runs out, it has seen what it had.
    pub fn meet(&mut self, watcher: &mut R::Watcher) -> Result<(), OutOfMemory>
        ensures same { self.new ≡ self.old }
        ensures front { IsPrefix (R.seen watcher.old) (R.seen watcher.new) }
        ensures met { OnOk result
            (SeesTable self.old.table (R.seen watcher.new) (R.met watcher.new)) }
        ensures refused { OnErr result
            ((R.seen watcher.new ≡ R.seen watcher.old) × (R.met watcher.new ≡ false)) }
    {
        self.rows.meet(watcher)
    }
}
