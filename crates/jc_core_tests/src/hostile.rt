//! Keys that a stranger chose for one seed: all have the same first bucket under it, so that the stash fills. Rows of
//! the stranger and of others are found, changed and let go there as anywhere; what each costs is measured elsewhere.

use crate::shapes::put_new;
use jc_cuckoo::cuckoo::Cuckoo;
use jc_cuckoo::mirror::NoMirror;
use jc_engine::engine::Engine;
use jc_model::call::{Call, Reply};
use jc_model::config::Expiry;
use jc_model::event::{CacheId, Step};
use jc_model::key::Key;
use jc_place::place::Placer;
use jc_place::secret::SecretPlacer;
use jc_place::seeded::SeededPlacer;
use jc_ring::link_ring::LinkRing;
use jc_rows::rows::Rows;
use jc_trials::{Trouble, done, is, key, plain_cache, value_of};
use std::alloc::Global;
use std::hash::{BuildHasherDefault, DefaultHasher};

/// How many rows the stranger has, and how many the others.
const HOSTILE: u32 = 20_000;

const INNOCENT: u32 = 500;

const PARTS: usize = 15;

/// Two words of three letters for each part of a key, after each of which the hash has the same low half.
type Words = [[[u8; 3]; 2]; PARTS];

/// The low half of FNV-1a, from which the first bucket is taken, after one byte more. Its prime ends in these digits.
fn step(low: u32, byte: u8) -> u32 {
    (low ^ u32::from(byte)).wrapping_mul(0x1b3) & 0xffff
}

fn after(low: u32, word: [u8; 3]) -> u32 {
    step(step(step(low, word[0]), word[1]), word[2])
}

/// The low half of the hash of the seed 7, after the four bytes of the cache 0.
fn start() -> u32 {
    step(step(step(step(0x2325 ^ 7, 0), 0), 0), 0)
}

fn letter(number: u32) -> u8 {
    b'a' + (number % 26) as u8
}

fn word(number: u32) -> [u8; 3] {
    [letter(number / 676), letter(number / 26), letter(number)]
}

/// Two words after which this hash is the same.
fn alike(alloc: Global, low: u32) -> Result<[[u8; 3]; 2], Trouble> {
    let mut seen = vec![in alloc; 0u32; 0x1_0000]?;
    for number in 0..17_576u32 {
        let Some(first) = seen.get_mut(after(low, word(number)) as usize) else {
            return Err(Trouble::Unexpected);
        };
        if *first > 0 {
            return Ok([word(*first - 1), word(number)]);
        }
        *first = number.saturating_add(1);
    }
    Err(Trouble::Unexpected)
}

fn words(alloc: Global) -> Result<Words, Trouble> {
    let mut words = [[[b'a'; 3]; 2]; PARTS];
    let mut low = start();
    for part in &mut words {
        *part = alike(alloc, low)?;
        low = after(low, part[0]);
    }
    Ok(words)
}

/// The key with this number, of 32,768 such.
fn hostile_key(words: &Words, number: u32) -> Result<Key, Trouble> {
    let mut bytes = [b'a'; 45];
    let mut rest = number;
    for (place, part) in bytes.chunks_exact_mut(3).zip(words) {
        place.copy_from_slice(&part[(rest % 2) as usize]);
        rest /= 2;
    }
    match str::from_utf8(&bytes) {
        Ok(text) => key(text),
        Err(_) => Err(Trouble::Unexpected),
    }
}

/// A key of the others.
fn other_key(number: u32) -> Result<Key, Trouble> {
    match str::from_utf8(&word(number)) {
        Ok(text) => key(text),
        Err(_) => Err(Trouble::Unexpected),
    }
}

fn stranger() -> CacheId {
    CacheId::new(0)
}

fn other() -> CacheId {
    CacheId::new(1)
}

/// Whether all rows of both are held, but the stranger's of even numbers where they were removed, and no others.
fn holds<R: Rows>(rows: &R, words: &Words, removed: bool) -> Result<bool, Trouble> {
    for number in 0..HOSTILE {
        let there = !removed || number % 2 == 1;
        let found = rows.find(stranger(), &hostile_key(words, number)?);
        if found != there.then_some(number) {
            return Ok(false);
        }
    }
    for number in 0..INNOCENT {
        if rows.find(other(), &other_key(number)?) != Some(number) {
            return Ok(false);
        }
    }
    Ok(
        rows.find(stranger(), &hostile_key(words, HOSTILE)?)
            .is_none(),
    )
}

/// Changes the expiry of a row, where the cache has one of this key.
fn renew<R: Rows>(rows: &mut R, id: CacheId, key: &Key) {
    if rows.find(id, key).is_some() {
        rows.set_expiry(id, key, Expiry::At(9));
    }
}

/// Whether a table holds the rows of both as each is put, changed, removed and put again; and how many are then in its
/// stash.
fn table_serves<P: Placer + Drop>(
    alloc: Global,
    placer: P,
    words: &Words,
) -> Result<(bool, usize), Trouble> {
    let mut table = Cuckoo::new(alloc, placer, NoMirror, 16)?;
    for number in 0..INNOCENT {
        put_new(&mut table, other(), other_key(number)?, number)?;
    }
    for number in 0..HOSTILE {
        put_new(&mut table, stranger(), hostile_key(words, number)?, number)?;
    }
    let all = holds(&table, words, false)?;
    for number in 0..HOSTILE {
        let key = hostile_key(words, number)?;
        renew(&mut table, stranger(), &key);
        if number % 2 == 0 && table.remove(stranger(), &key) != Some(number) {
            return Ok((false, 0));
        }
    }
    let odd = holds(&table, words, true)?;
    for number in 0..HOSTILE {
        put_new(&mut table, stranger(), hostile_key(words, number)?, number)?;
    }
    let again = holds(&table, words, false)?;
    Ok((all && odd && again, table.shape().in_stash))
}

#[test]
fn rows_of_chosen_keys_are_held(rt: HostRuntime) -> Result<(), Trouble> {
    let alloc = rt.alloc();
    let words = words(alloc)?;
    let (serves, in_stash) = table_serves(alloc, SeededPlacer::new(7), &words)?;
    assert!(rt; serves);
    assert!(rt; in_stash > 18_000);
    let secret = SecretPlacer::new(BuildHasherDefault::<DefaultHasher>::new());
    let (serves, in_stash) = table_serves(alloc, secret, &words)?;
    assert!(rt; serves);
    assert!(rt; in_stash < 100);
    Ok(())
}

/// Makes a call that replies at once; whether this is its reply.
fn replies<R: Rows>(
    manager: &mut Engine<R, LinkRing>,
    id: CacheId,
    call: Call,
    reply: Reply,
) -> bool {
    is(manager.begin(id, 0, call).ok(), Some(Step::Done(reply)))
}

/// Whether a manager serves the stranger and the others, one call after the other.
fn manager_serves<P: Placer + Drop>(
    alloc: Global,
    placer: P,
    words: &Words,
) -> Result<bool, Trouble> {
    let caches = [
        plain_cache(alloc, "stranger", HOSTILE)?,
        plain_cache(alloc, "other", INNOCENT)?,
    ];
    let configs = Vec::from_array(alloc, caches)?;
    let table = Cuckoo::new(alloc, placer, NoMirror, 16)?;
    let mut manager = Engine::<_, LinkRing>::open(alloc, table, configs)?;
    for number in 0..HOSTILE {
        let put = Call::Put(hostile_key(words, number)?, value_of(alloc, "s")?);
        done(manager.begin(stranger(), 0, put))?;
        let put = Call::Put(other_key(number % INNOCENT)?, value_of(alloc, "o")?);
        done(manager.begin(other(), 0, put))?;
    }
    for number in 0..HOSTILE {
        let get = Call::Get(hostile_key(words, number)?);
        let found = Reply::Found(Some(value_of(alloc, "s")?));
        let remove = Call::Remove(hostile_key(words, number)?);
        let contains = Call::Contains(hostile_key(words, number)?);
        let get_other = Call::Get(other_key(number % INNOCENT)?);
        let found_other = Reply::Found(Some(value_of(alloc, "o")?));
        if !replies(&mut manager, stranger(), get, found)
            || !replies(&mut manager, stranger(), remove, Reply::Truth(true))
            || !replies(&mut manager, stranger(), contains, Reply::Truth(false))
            || !replies(&mut manager, other(), get_other, found_other)
        {
            return Ok(false);
        }
    }
    Ok(true)
}

#[test]
fn a_stranger_and_others_are_served(rt: HostRuntime) -> Result<(), Trouble> {
    let alloc = rt.alloc();
    let words = words(alloc)?;
    let secret = SecretPlacer::new(BuildHasherDefault::<DefaultHasher>::new());
    assert!(rt; manager_serves(alloc, SeededPlacer::new(7), &words)?);
    assert!(rt; manager_serves(alloc, secret, &words)?);
    Ok(())
}
