//! Lookups beside a manager: what they tell of rows in slots, of rows in the stash, and of a table that doubled.
ghost use Rattle.std.specs.Prelude.{◌≡◌, [], ◌∷◌, None, replicate};
ghost use Rattle.jc_cuckoo.specs.Images.{image_of};

use jc_cuckoo::cuckoo::Cuckoo;
use jc_cuckoo::mirror::NoMirror;
use jc_engine::recorded::Recorded;
use jc_index::lookup::Lookup;
use jc_index::naming::{Naming, Unnamed};
use jc_index::pass::Pass;
use jc_index::words::Words;
use jc_model::call::Call;
use jc_model::config::Policy;
use jc_model::event::CacheId;
use jc_ring::link_ring::LinkRing;
use jc_rows::list_rows::ListRows;
use jc_trials::{ConstantPlacer, Trouble, done, key, plain_cache, value_of};
use std::alloc::Global;
use std::marker::Brand;

/// Keys, put in this order. All share two buckets, so eight slots.
static LETTERS: [&str; 34] = [
    "a", "b", "c", "d", "e", "f", "g", "h", "i", "j", "k", "l", "m", "n", "o", "p", "q", "r", "s",
    "t", "u", "v", "w", "x", "y", "z", "A", "B", "C", "D", "E", "F", "G", "H",
];

/// How many keys have been put, each at 0 for 10 ms; whether the pass meets the words then; a key and a moment; and
/// what is looked up.
static LOOKUPS: [(usize, bool, &str, u64, Lookup); 13] = [
    (0, false, "a", 5, Lookup::Sure(false)),
    (1, false, "a", 5, Lookup::Sure(true)),
    (1, false, "a", 10, Lookup::Sure(false)),
    (1, false, "b", 5, Lookup::Sure(false)),
    (8, false, "h", 5, Lookup::Sure(true)),
    (8, false, "i", 5, Lookup::Sure(false)),
    (9, false, "h", 5, Lookup::Sure(true)),
    (9, false, "i", 5, Lookup::Unsure),
    (9, false, "j", 5, Lookup::Unsure),
    (33, false, "a", 5, Lookup::Unsure),
    (33, true, "a", 5, Lookup::Sure(true)),
    (33, true, "a", 10, Lookup::Sure(false)),
    (33, true, "H", 5, Lookup::Unsure),
];

type Watched<N> = Recorded<Cuckoo<ConstantPlacer, Words<N, ConstantPlacer>>, LinkRing>;

/// A manager of one cache, whose rows live for 10 ms, over these words.
fn manager<N: Naming>(alloc: Global, words: Words<N, ConstantPlacer>) -> Result<Watched<N>, Trouble>
    requires { words.images ≡ image_of 16 (replicate 64 None) ∷ [] }
{
    let mut config = plain_cache(alloc, "a", 64)?;
    config.policy = Policy::Created(10);
    let configs = Vec::from_array(alloc, [config])?;
    let manager = Recorded::<ListRows, LinkRing>::open(alloc, ListRows::new(alloc), configs)?;
    let table = Cuckoo::new(alloc, ConstantPlacer, NoMirror, 16)?;
    Ok(manager.over(table.with_mirror(words)))
}

/// Puts letters until so many have been put.
fn put_letters<N: Naming>(
    alloc: Global,
    manager: &mut Watched<N>,
    before: usize,
    after: usize,
) -> Result<(), Trouble> {
    for name in LETTERS.iter().take(after).skip(before) {
        let put = Call::Put(key(name)?, value_of(alloc, name)?);
        done(manager.begin(0, CacheId::new(0), 0, put))?;
    }
    Ok(())
}

/// The number of the first lookup that tells something else, if there is one.
fn first_other<N: Naming>(
    alloc: Global,
    manager: &mut Watched<N>,
    pass: &mut Pass<N, ConstantPlacer>,
) -> Result<Option<usize>, Trouble> {
    let mut done = 0;
    for (number, (keys, meets, name, moment, told)) in LOOKUPS.iter().enumerate() {
        put_letters(alloc, manager, done, *keys)?;
        done = *keys;
        if *meets {
            manager.meet(pass)?;
        }
        if pass.lookup(CacheId::new(0), &key(name)?, *moment) != *told {
            return Ok(Some(number));
        }
    }
    Ok(None)
}

/// The same, of a manager over these words under this name.
fn first_other_named<N: Naming>(
    alloc: Global,
    words: Unnamed<ConstantPlacer>,
) -> Result<Option<usize>, Trouble>
    requires name { words.name ≡ N.name }
    requires images { words.images ≡ image_of 16 (replicate 64 None) ∷ [] }
{
    let mut manager = manager(alloc, words.named::<N>())?;
    let mut pass = manager.watch()?;
    first_other(alloc, &mut manager, &mut pass)
}

#[test]
fn lookups_tell_what_the_last_image_shows(rt: HostRuntime) -> Result<(), Trouble> {
    let words = Unnamed::new(rt.alloc(), ConstantPlacer, 16)?;
    assert_eq!(rt; first_other_named::<Brand>(rt.alloc(), words)?, None);
    Ok(())
}
