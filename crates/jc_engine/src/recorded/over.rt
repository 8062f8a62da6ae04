//! A manager that is moved to another table before its first call.
ghost use Rattle.std.specs.Prelude.{◌≡◌};
ghost use Rattle.std.specs.FinMap as table;
ghost use Rattle.jc_engine.specs.Caches.{AreJustOpened};

use super::Recorded;
use crate::journal::Journal;
use jc_ring::ring::Ring;
use jc_rows::rows::Rows;

impl<R: Rows, G: Ring, J: Journal> Recorded<R, G, J> {
    /// The same manager over another empty table. No call has changed a cache yet.
    pub fn over<S: Rows>(self, rows: S) -> Recorded<S, G, J>
        requires empty { S.contents rows ≡ table.empty }
        requires opened { AreJustOpened self.caches }
        ensures { result ≡ self }
    {
        Recorded {
            alloc: self.alloc,
            engine: self.engine.over(rows),
            journal: self.journal,
        }
    }
}
