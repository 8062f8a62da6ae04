//! What a table tells of itself in numbers.
ghost use Rattle.std.specs.Prelude.{◌≡◌, ◌+◌, ◌-◌, IfSome, is_some, count_by, length};
ghost use Rattle.std.specs.FinMap as map;
ghost use Rattle.jc_cuckoo.specs.Cells.{rows_in};
ghost use Rattle.jc_rows.specs.Images.{Shows, last_image};
ghost use Rattle.jc_cuckoo.specs.Table.{image};

use crate::cuckoo::Cuckoo;
use crate::held::{Shape, Work};
use crate::mirror::Mirror;
use jc_place::place::Placer;

impl<P: Placer + Drop, M: Mirror> Cuckoo<P, M> {
    /// How many buckets it has, and how many rows stand in them and in the stash.
    pub fn shape(&self) -> Shape
        ensures buckets { result.buckets ≡ (image self.now).buckets }
        ensures in_buckets { result.in_buckets ≡ count_by is_some (image self.now).slots }
        ensures in_stash { result.in_stash ≡ (image self.now).stash }
        ensures rows { result.in_buckets + result.in_stash ≡ map.len (rows_in self.now.cells) }

        // The image places rows of the table alone, with their expiries, and counts the others.
        ensures shows { Shows (rows_in self.now.cells) (image self.now) }
        ensures told { IfSome (M.images self.now.mirror) (λ is. last_image is ≡ image self.now) }
    {
        let in_stash = self.cells.len() - self.tags.len();
        Shape {
            buckets: self.buckets,
            in_buckets: self.held - in_stash,
            in_stash,
        }
    }

    /// What the last `put` did, and zeros before the first.
    pub fn work(&self) -> Work
        ensures { result ≡ self.now.work }
    {
        self.work
    }
}
