//! A version that is worn out: lookups of its stripe are unsure from then on, and all others are as sure as before.
ghost use Rattle.std.specs.Prelude.{◌≡◌, [], ◌∷◌, None, replicate};
ghost use Rattle.jc_cuckoo.specs.Images.{image_of};

use crate::shapes::put_new;
use jc_cuckoo::cuckoo::Cuckoo;
use jc_index::lookup::Lookup;
use jc_index::naming::{Naming, Unnamed};
use jc_index::words::Words;
use jc_model::event::CacheId;
use jc_rows::rows::Rows;
use jc_rows::watched::Watched;
use jc_trials::{TablePlacer, Trouble, key};
use std::alloc::Global;
use std::marker::Brand;

/// The second commit under a version that begins here opens it, and no commit shuts it.
const START: u64 = u64::MAX - 3;

/// Keys with the first of their two buckets: the other one is the first by exclusive or with 21.
const FIRSTS: [(u8, u32); 6] = [
    (b'a', 0),
    (b'b', 0),
    (b'c', 64),
    (b'd', 3),
    (b'e', 21),
    (b'f', 5),
];

/// The keys that are put, one after another. Each stands in its first bucket.
const PUTS: [&str; 6] = ["d", "a", "b", "f", "e", "c"];

/// How many keys have been put; a key; what its lookup tells; and whether the table has it. The third put wears out the
/// version of stripe 0, which buckets 0 and 64 are in.
static LOOKUPS: [(usize, &str, Lookup, bool); 15] = [
    (0, "a", Lookup::Sure(false), false),
    (1, "d", Lookup::Sure(true), true),
    (2, "a", Lookup::Sure(true), true),
    (2, "b", Lookup::Sure(false), false),
    (2, "c", Lookup::Sure(false), false),
    (3, "a", Lookup::Unsure, true),
    (3, "b", Lookup::Unsure, true),
    (3, "c", Lookup::Unsure, false),
    (3, "d", Lookup::Sure(true), true),
    (3, "e", Lookup::Unsure, false),
    (3, "f", Lookup::Sure(false), false),
    (4, "f", Lookup::Sure(true), true),
    (5, "e", Lookup::Unsure, true),
    (6, "c", Lookup::Unsure, true),
    (6, "d", Lookup::Sure(true), true),
];

fn placer() -> TablePlacer {
    let mut firsts = [0; 128];
    for (letter, first) in FIRSTS {
        firsts[(letter % 128) as usize] = first;
    }
    TablePlacer {
        firsts,
        tags: [1; 128],
    }
}

/// The number of the first lookup that tells something else, if there is one.
fn first_other<N: Naming>(
    alloc: Global,
    placer: TablePlacer,
    words: Unnamed<TablePlacer>,
) -> Result<Option<usize>, Trouble>
    requires name { words.name ≡ N.name }
    requires placer { words.placer ≡ placer }
    requires images { words.images ≡ image_of 128 (replicate 512 None) ∷ [] }
{
    let id = CacheId::new(0);
    let mut table = Cuckoo::new(alloc, placer, words.named::<N>(), 128)?;
    let mut pass = table.watch()?;
    let mut done = 0;
    for (number, (keys, name, told, there)) in LOOKUPS.iter().enumerate() {
        for name in PUTS.iter().take(*keys).skip(done) {
            put_new(&mut table, id, key(name)?, 0)?;
        }
        done = *keys;
        let key = key(name)?;
        if pass.lookup(id, &key, 0) != *told || table.find(id, &key).is_some() != *there {
            return Ok(Some(number));
        }
    }
    Ok(None)
}

#[test]
fn a_version_that_is_worn_out_leaves_its_stripe_unsure(rt: HostRuntime) -> Result<(), Trouble> {
    let placer = placer();
    let words = Unnamed::starting_at(rt.alloc(), placer, 128, START)?;
    assert_eq!(rt; first_other::<Brand>(rt.alloc(), placer, words)?, None);
    Ok(())
}
