//! A table of rows whose images others may watch.
ghost use Rattle.std.specs.Prelude.{◌≡◌, false, IfOk, OnOk, OnErr};
ghost use mathlib.Core.List.{IsPrefix};
ghost use Rattle.jc_rows.specs.Images.{SeesLast, Shows};

use crate::rows::Rows;
use jc_model::OutOfMemory;

/// A table that has an image of its rows at each moment. A watcher sees images without asking the table.
pub trait Watched: Rows {
    ghost use Rattle.std.specs.Prelude.{Bool, List};
    ghost use Rattle.jc_rows.specs.Images.{Image};

    type Watcher: Drop;

    /// Its last image.
    ghost image: { Self → Image };

    /// The images that a watcher has seen, the last one last.
    ghost seen: { Self.Watcher → List Image };

    /// Whether its last meeting succeeded.
    ghost met: { Self.Watcher → Bool };

    /// A watcher that has seen the last image.
    fn watch(&mut self) -> Result<Self::Watcher, OutOfMemory>
        ensures same { self.new ≡ self.old }
        ensures shows { Shows (Self.contents self.old) (image self.old) }
        ensures watcher { IfOk result (λ w. SeesLast (image self.old) (seen w) (met w)) };

    /// The watcher sees the last image. It is one of this table's; where memory runs out, it has seen what it had.
    fn meet(&mut self, watcher: &mut Self::Watcher) -> Result<(), OutOfMemory>
        ensures same { self.new ≡ self.old }
        ensures shows { Shows (Self.contents self.old) (image self.old) }
        ensures front { IsPrefix (seen watcher.old) (seen watcher.new) }
        ensures met { OnOk result (SeesLast (image self.old) (seen watcher.new) (met watcher.new)) }
        ensures refused { OnErr result ((seen watcher.new ≡ seen watcher.old) × (met watcher.new ≡ false)) };
}
