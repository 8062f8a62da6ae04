//! The shapes that the cuckoo table takes: displacement, stash, doubling, and doubling that finds no memory; over words
//! that others watch too.
ghost use Rattle.std.specs.Prelude.{◌≡◌, [], ◌∷◌, None, replicate};
ghost use Rattle.jc_cuckoo.specs.Images.{image_of};

use jc_cuckoo::cuckoo::Cuckoo;
use jc_cuckoo::held::Shape;
use jc_cuckoo::mirror::{Mirror, NoMirror};
use jc_engine::engine::Engine;
use jc_index::lookup::Lookup;
use jc_index::naming::{Naming, Unnamed};
use jc_model::call::{Answer, Call, Reply, Request};
use jc_model::config::Expiry;
use jc_model::event::{CacheId, Step};
use jc_model::key::Key;
use jc_ring::link_ring::LinkRing;
use jc_ring::ring::Ring;
use jc_rows::list_rows::ListRows;
use jc_rows::rows::Rows;
use jc_rows::watched::Watched;
use jc_trials::{
    ConstantPlacer, RefusingMirror, TablePlacer, Trouble, done, is, key, plain_cache, value_of,
};
use std::alloc::Global;
use std::marker::Brand;

/// The names of forty keys.
pub static NAMES: [&str; 40] = [
    "a", "b", "c", "d", "e", "f", "g", "h", "i", "j", "k", "l", "m", "n", "o", "p", "q", "r", "s",
    "t", "u", "v", "w", "x", "y", "z", "A", "B", "C", "D", "E", "F", "G", "H", "I", "J", "K", "L",
    "M", "N",
];

/// Puts a row of a cache where it has none of this key.
pub fn put_new<R: Rows>(rows: &mut R, id: CacheId, key: Key, row: u32) -> Result<(), Trouble> {
    if rows.find(id, &key).is_none() {
        let Some(all) = rows.len().checked_add(1) else {
            return Err(Trouble::Unexpected);
        };
        rows.make_room(all)?;
        rows.put(id, key, row, Expiry::Never);
    }
    Ok(())
}

/// Puts rows of the first so many keys into each of so many caches; whether all are found then.
pub fn holds_all<R: Rows>(rows: &mut R, keys: usize, caches: u32) -> Result<bool, Trouble> {
    for (row, name) in (0..).zip(NAMES.iter().take(keys)) {
        for cache in 0..caches {
            put_new(rows, CacheId::new(cache), key(name)?, row)?;
        }
    }
    for (row, name) in (0..).zip(NAMES.iter().take(keys)) {
        for cache in 0..caches {
            if rows.find(CacheId::new(cache), &key(name)?) != Some(row) {
                return Ok(false);
            }
        }
    }
    Ok(true)
}

/// Where keys have their places: the first of their two buckets and their tag, by the number of the key.
#[derive(Clone, Copy)]
pub enum Places {
    /// All have the first bucket 3.
    Shared,
    /// The first four have the first bucket 0, the next four 5; the ninth finds both of its buckets full, 0 and 5.
    TwoFull,
    /// One key after the other has the next of 16 buckets as its first.
    Spread,
    /// All share two of 16 buckets. Of 32 buckets, even and odd keys have two each.
    Parting,
}

/// The place of the key with this number.
fn place_of(places: Places, number: u32) -> (u32, u8) {
    match places {
        Places::Shared => (3, 1),
        Places::TwoFull if 4 <= number && number < 8 => (5, 2),
        Places::TwoFull => (0, 1),
        Places::Spread => (number % 16, 1),
        Places::Parting => (16 * (number % 2), 1),
    }
}

/// The places of all keys.
pub fn placer_of(places: Places) -> TablePlacer {
    let mut placer = TablePlacer {
        firsts: [0; 128],
        tags: [1; 128],
    };
    for (number, name) in (0u32..).zip(&NAMES) {
        if let Some(letter) = name.as_bytes().first() {
            let (first, tag) = place_of(places, number);
            placer.firsts[(*letter % 128) as usize] = first;
            placer.tags[(*letter % 128) as usize] = tag;
        }
    }
    placer
}

/// How many buckets a table has, rows in them, and rows in the stash; and of its last put how many searches it made,
/// slots it looked at, and rows it moved.
type Form = ((u32, usize, usize), (u32, u32, u32));

/// How many keys are put into each of how many caches, and how often doubling finds no memory.
type Filling = (usize, u32, u32);

/// Fillings of 16 buckets, and what comes of them.
static FILLINGS: [(Places, Filling, Form); 9] = [
    (Places::Shared, (9, 1, 0), ((16, 8, 1), (1, 8, 0))),
    (Places::Shared, (16, 2, 0), ((16, 8, 24), (1, 8, 0))),
    // The 33rd row finds half as many rows as there are slots, and the buckets double.
    (Places::Shared, (33, 1, 0), ((32, 8, 25), (2, 16, 0))),
    (Places::Shared, (20, 2, 0), ((32, 8, 32), (1, 8, 0))),
    (Places::Shared, (20, 2, 1), ((32, 8, 32), (1, 8, 0))),
    (Places::Shared, (20, 2, 40), ((16, 8, 32), (1, 8, 0))),
    // The ninth row moves one of bucket 5 to bucket 14.
    (Places::TwoFull, (9, 1, 0), ((16, 9, 0), (1, 9, 1))),
    (Places::Spread, (40, 1, 0), ((16, 40, 0), (1, 3, 0))),
    // Doubling leaves two rows in each of four buckets, and brings eight rows of the stash there.
    (Places::Parting, (33, 1, 0), ((32, 16, 17), (2, 16, 0))),
];

/// Whether all rows of a filling are found then, and what comes of it.
fn filled<M: Mirror>(
    table: &mut Cuckoo<TablePlacer, M>,
    (keys, caches, _): Filling,
) -> Result<(bool, Form), Trouble> {
    let holds = holds_all(table, keys, caches)?;
    let (shape, work) = (table.shape(), table.work());
    let shape = (shape.buckets, shape.in_buckets, shape.in_stash);
    Ok((holds, (shape, (work.searches, work.looked, work.moves))))
}

/// The same over words that others watch, and of how many rows these are sure.
fn filled_in_words<N: Naming>(
    alloc: Global,
    placer: TablePlacer,
    words: Unnamed<TablePlacer>,
    filling: Filling,
) -> Result<((bool, Form), usize), Trouble>
    requires name { words.name ≡ N.name }
    requires placer { words.placer ≡ placer }
    requires images { words.images ≡ image_of 16 (replicate 64 None) ∷ [] }
{
    let (keys, caches, _) = filling;
    let mut table = Cuckoo::new(alloc, placer, words.named::<N>(), 16)?;
    let filled = filled(&mut table, filling)?;
    let mut pass = table.watch()?;
    let mut sure = 0usize;
    for name in NAMES.iter().take(keys) {
        for cache in 0..caches {
            if pass.lookup(CacheId::new(cache), &key(name)?, 0) == Lookup::Sure(true) {
                sure = sure.saturating_add(1);
            }
        }
    }
    Ok((filled, sure))
}

#[test]
fn tables_take_the_shapes_of_their_places(rt: HostRuntime) -> Result<(), Trouble> {
    let alloc = rt.alloc();
    for (number, (places, filling, form)) in FILLINGS.iter().enumerate() {
        let (placer, (keys, caches, refusals)) = (placer_of(*places), *filling);
        let mut table = Cuckoo::new(alloc, placer, RefusingMirror { refusals }, 16)?;
        assert_eq!(rt; filled(&mut table, *filling)?, (true, *form), "{number}");
        assert!(rt; holds_all(&mut ListRows::new(alloc), keys, caches)?);
        if refusals == 0 {
            let words = Unnamed::new(alloc, placer, 16)?;
            let (filled, sure) = filled_in_words::<Brand>(alloc, placer, words, *filling)?;
            assert_eq!(rt; filled, (true, *form), "{number}");
            assert_eq!(rt; sure, form.0.1);
        }
    }
    Ok(())
}

type Manager = Engine<Cuckoo<ConstantPlacer, NoMirror>, LinkRing>;

/// A cache `a` with a loader, and a cache `b` without callbacks, all of whose keys share two buckets.
fn manager(alloc: Global) -> Result<Manager, Trouble> {
    let mut a = plain_cache(alloc, "a", 64)?;
    a.loader = true;
    let configs = Vec::from_array(alloc, [a, plain_cache(alloc, "b", 64)?])?;
    let table = Cuckoo::new(alloc, ConstantPlacer, NoMirror, 16)?;
    Ok(Manager::open(alloc, table, configs)?)
}

/// Puts forty keys into a cache.
pub fn fill<R: Rows, G: Ring>(
    alloc: Global,
    manager: &mut Engine<R, G>,
    id: CacheId,
) -> Result<(), Trouble> {
    for name in &NAMES {
        let put = Call::Put(key(name)?, value_of(alloc, name)?);
        done(manager.begin(id, 0, put))?;
    }
    Ok(())
}

/// A call on the first cache waits for its loader while the second is filled. The result is whether it asks and replies
/// as it should, and the shapes before it goes on and after that.
fn goes_on(alloc: Global, manager: &mut Manager) -> Result<(bool, Shape, Shape), Trouble> {
    let (a, k) = (CacheId::new(0), key("k")?);
    let (loaded, replied) = (value_of(alloc, "k")?, value_of(alloc, "k")?);
    let asked = manager.begin(a, 0, Call::Get(k)).ok();
    let asks = is(asked, Some(Step::Need(Request::Load(k))));
    fill(alloc, manager, CacheId::new(1))?;
    let before = manager.rows().shape();
    let step = manager.resume(a, Answer::Loaded(Some(loaded))).ok();
    let replies = is(step, Some(Step::Done(Reply::Found(Some(replied)))));
    Ok((asks && replies, before, manager.rows().shape()))
}

#[test]
fn a_waiting_call_goes_on_after_the_table_doubled(rt: HostRuntime) -> Result<(), Trouble> {
    let alloc = rt.alloc();
    let mut shape = Shape {
        buckets: 32,
        in_buckets: 8,
        in_stash: 32,
    };
    let (as_told, before, after) = goes_on(alloc, &mut manager(alloc)?)?;
    assert!(rt; as_told);
    assert_eq!(rt; before, shape);
    shape.in_stash = 33;
    assert_eq!(rt; after, shape);
    Ok(())
}
