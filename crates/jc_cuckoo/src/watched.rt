//! The table as one that others may watch, where its mirror is.
ghost use Rattle.std.specs.Prelude.{◌≡◌, true, false, IfOk, OnOk, OnErr};
ghost use mathlib.Core.List.{IsPrefix};
ghost use Rattle.jc_rows.specs.Images.{Shows, last_image};
ghost use Rattle.jc_cuckoo.specs.Cells.{rows_in};
ghost use Rattle.jc_cuckoo.specs.Table.{image};

use crate::cuckoo::Cuckoo;
use crate::mirror::Watch;
use jc_model::OutOfMemory;
use jc_place::place::Placer;
use jc_rows::watched::Watched;

impl<P: Placer + Drop, M: Watch> Watched for Cuckoo<P, M> {
    type Watcher = M::Watcher;

    ghost image = { image };

    ghost seen = { M.seen };

    ghost met = { M.met };

    fn watch(&mut self) -> Result<M::Watcher, OutOfMemory> {
        self.mirror.watch()
    }

    fn meet(&mut self, watcher: &mut M::Watcher) -> Result<(), OutOfMemory> {
        self.mirror.meet(watcher)
    }
}
