//! Lookups in sessions of a shared manager: what they tell beside the calls of others.
ghost use Rattle.std.specs.Prelude.{◌≡◌, map};
ghost use Rattle.jc_locked.specs.Stated.{stated_by};

use jc_hooks::program::{CheckWriter, EchoLoader, ProgramListener, ProgramProcessor};
use jc_hooks::{FilteredListener, Loader, Processor, Writer};
use jc_index::lookup::Lookup;
use jc_model::call::Call;
use jc_model::config::Policy;
use jc_model::event::CacheId;
use jc_model::key::Key;
use jc_shared::{Manager, Name, Session, Shared};
use jc_trials::{Trouble, done, no_hooks, plain_cache, seated, value_of};
use std::alloc::Global;
use std::marker::Brand;
use std::sync::Wait;
use std::thread::{Threads, join};

/// The manager of the tests: rows of cache 0 live for 10 ms, those of cache 1 for ever.
type Plain = Shared<EchoLoader, CheckWriter, ProgramProcessor, ProgramListener>;

/// The seed of its table.
const SEED: u64 = 7;

/// The number of a key of 63 letters, the most that one has.
const LONGEST: u32 = u32::MAX - 1;

/// The number of a key that differs from it in its last letter alone.
const NEARLY: u32 = u32::MAX - 2;

/// The key of a number.
fn numbered(alloc: Global, number: u32) -> Result<Key, Trouble> {
    let name = match number {
        LONGEST => format!(in alloc;
            "{}",
            "kkkkkkkkkkkkkkkkkkkkkkkkkkkkkkkkkkkkkkkkkkkkkkkkkkkkkkkkkkkkkkk"
        )?,
        NEARLY => format!(in alloc;
            "{}",
            "kkkkkkkkkkkkkkkkkkkkkkkkkkkkkkkkkkkkkkkkkkkkkkkkkkkkkkkkkkkkkkj"
        )?,
        _ => format!(in alloc; "k{number}")?,
    };
    Ok(Key::from_text(name.as_str())?)
}

fn plain(alloc: Global) -> Result<Plain, Trouble> {
    let mut short = plain_cache(alloc, "a", 2000)?;
    short.policy = Policy::Created(10);
    let configs = Vec::from_array(alloc, [short, plain_cache(alloc, "b", 2000)?])?;
    let hooks = Vec::from_array(alloc, [no_hooks(alloc), no_hooks(alloc)])?;
    Ok(Shared::open(alloc, configs, hooks, SEED)?)
}

/// What a session does.
enum Act {
    /// Puts the keys from one number up to another, at 0.
    Put(u32, u32, u32),
    /// Looks a key of a cache up at a moment.
    Look(u32, u32, u64, Lookup),
    /// Asks whether a cache has a key.
    Has(u32, u32, u64, bool),
}

/// By the number of the session.
static ACTS: [(usize, Act); 27] = [
    (0, Act::Look(0, 0, 5, Lookup::Sure(false))),
    (0, Act::Put(0, 0, 1)),
    (0, Act::Look(0, 0, 5, Lookup::Sure(true))),
    (0, Act::Look(0, 0, 10, Lookup::Sure(false))),
    (0, Act::Has(0, 0, 5, true)),
    (0, Act::Has(0, 0, 10, false)),
    // Without a meeting another session sees the put, and no other cache has the key.
    (1, Act::Look(0, 0, 5, Lookup::Sure(true))),
    (1, Act::Look(1, 0, 5, Lookup::Sure(false))),
    (1, Act::Look(7, 0, 5, Lookup::Sure(false))),
    (1, Act::Has(7, 0, 5, false)),
    // A key is compared to its last letter.
    (0, Act::Put(1, LONGEST, LONGEST + 1)),
    (0, Act::Look(1, LONGEST, 5, Lookup::Sure(true))),
    (0, Act::Look(1, NEARLY, 5, Lookup::Sure(false))),
    // The table doubles, and a session is unsure until it meets.
    (0, Act::Put(1, 0, 100)),
    (0, Act::Look(0, 0, 5, Lookup::Sure(true))),
    (0, Act::Look(1, 5, 5, Lookup::Sure(true))),
    (1, Act::Look(0, 0, 5, Lookup::Unsure)),
    (1, Act::Look(1, 5, 5, Lookup::Unsure)),
    (1, Act::Has(0, 0, 5, true)),
    (1, Act::Look(0, 0, 5, Lookup::Sure(true))),
    (1, Act::Look(1, 5, 5, Lookup::Sure(true))),
    (0, Act::Put(1, 100, 300)),
    (1, Act::Look(1, 5, 5, Lookup::Unsure)),
    (1, Act::Put(0, 1, 2)),
    (1, Act::Look(1, 5, 5, Lookup::Sure(true))),
    (1, Act::Look(0, 1, 5, Lookup::Sure(true))),
    (0, Act::Look(0, 1, 5, Lookup::Sure(true))),
];

/// A session that has not met since others doubled the table is unsure of a key in a slot, until its next call.
static DOUBLED: [(usize, Act); 6] = [
    (0, Act::Put(1, 0, 1)),
    (1, Act::Look(1, 0, 5, Lookup::Sure(true))),
    (0, Act::Put(1, 1, 300)),
    (1, Act::Look(1, 0, 5, Lookup::Unsure)),
    (1, Act::Put(0, 1, 2)),
    (1, Act::Look(1, 0, 5, Lookup::Sure(true))),
];

/// The keys of these numbers were found apart from the program: they have the same two of 16 buckets, so eight slots. Of
/// the ninth and the tenth a lookup is unsure, and whether the cache has each is told exactly.
static CROWDED: [(usize, Act); 29] = [
    (0, Act::Put(1, 0, 1)),
    (0, Act::Put(1, 13, 14)),
    (0, Act::Put(1, 39, 40)),
    (0, Act::Put(1, 45, 46)),
    (0, Act::Put(1, 62, 63)),
    (0, Act::Put(1, 81, 82)),
    (0, Act::Put(1, 109, 110)),
    (0, Act::Put(1, 175, 176)),
    (0, Act::Put(1, 197, 198)),
    (0, Act::Look(1, 0, 0, Lookup::Sure(true))),
    (0, Act::Has(1, 0, 0, true)),
    (0, Act::Look(1, 13, 0, Lookup::Sure(true))),
    (0, Act::Has(1, 13, 0, true)),
    (0, Act::Look(1, 39, 0, Lookup::Sure(true))),
    (0, Act::Has(1, 39, 0, true)),
    (0, Act::Look(1, 45, 0, Lookup::Sure(true))),
    (0, Act::Has(1, 45, 0, true)),
    (0, Act::Look(1, 62, 0, Lookup::Sure(true))),
    (0, Act::Has(1, 62, 0, true)),
    (0, Act::Look(1, 81, 0, Lookup::Sure(true))),
    (0, Act::Has(1, 81, 0, true)),
    (0, Act::Look(1, 109, 0, Lookup::Sure(true))),
    (0, Act::Has(1, 109, 0, true)),
    (0, Act::Look(1, 175, 0, Lookup::Sure(true))),
    (0, Act::Has(1, 175, 0, true)),
    (0, Act::Look(1, 197, 0, Lookup::Unsure)),
    (0, Act::Has(1, 197, 0, true)),
    (0, Act::Look(1, 321, 0, Lookup::Unsure)),
    (0, Act::Has(1, 321, 0, false)),
];

/// Puts the keys of these numbers, with one value.
fn put<N: Name, L: Loader, W: Writer, P: Processor, K: FilteredListener, R: Wait>(
    rt: &R,
    alloc: Global,
    session: &mut Session<'_, N, L, W, P, K>,
    id: CacheId,
    from: u32,
    to: u32,
) -> Result<(), Trouble> {
    for number in from..to {
        let call = Call::Put(numbered(alloc, number)?, value_of(alloc, "1")?);
        done(session.call(rt, id, 0, call))?;
    }
    Ok(())
}

/// Whether a session's act comes to what it should.
fn acts<N: Name, L: Loader, W: Writer, P: Processor, K: FilteredListener, R: Wait>(
    rt: &R,
    alloc: Global,
    session: &mut Session<'_, N, L, W, P, K>,
    act: &Act,
) -> Result<bool, Trouble> {
    match act {
        Act::Put(cache, from, to) => {
            put(rt, alloc, session, CacheId::new(*cache), *from, *to)?;
            Ok(true)
        }
        Act::Look(cache, number, at, told) => {
            let key = numbered(alloc, *number)?;
            Ok(session.contains_key(CacheId::new(*cache), &key, *at) == *told)
        }
        Act::Has(cache, number, at, told) => {
            let key = numbered(alloc, *number)?;
            Ok(session.contains(rt, CacheId::new(*cache), &key, *at) == *told)
        }
    }
}

/// The number of the first act that comes to something else, if there is one.
fn first_other<N: Name, L: Loader, W: Writer, P: Processor, K: FilteredListener, R: Wait>(
    rt: &R,
    alloc: Global,
    manager: &Manager<N, L, W, P, K>,
    list: &[(usize, Act)],
) -> Result<Option<usize>, Trouble> {
    let mut sessions = seated(rt, alloc, manager, 2)?;
    for (number, (by, act)) in list.iter().enumerate() {
        let Some(session) = sessions.get_mut(*by) else {
            return Err(Trouble::Unexpected);
        };
        if !acts(rt, alloc, session, act)? {
            return Ok(Some(number));
        }
    }
    Ok(None)
}

/// The same, under this name.
fn first_other_named<N: Name, L: Loader, W: Writer, P: Processor, K: FilteredListener, R: Wait>(
    rt: &R,
    alloc: Global,
    shared: Shared<L, W, P, K>,
    list: &[(usize, Act)],
) -> Result<Option<usize>, Trouble>
    requires configs { shared.configs ≡ N.configs }
    requires stated { map (stated_by L.load_of P.verdict_of) shared.shared ≡ N.stated }
    requires index { shared.index ≡ N.index }
{
    let manager = shared.named::<N>();
    first_other(rt, alloc, &manager, list)
}

/// The same, under a name that this call picks.
fn first_other_act<L: Loader, W: Writer, P: Processor, K: FilteredListener, R: Wait>(
    rt: &R,
    alloc: Global,
    shared: Shared<L, W, P, K>,
    list: &[(usize, Act)],
) -> Result<Option<usize>, Trouble> {
    first_other_named::<Brand, L, W, P, K, R>(rt, alloc, shared, list)
}

#[test]
fn lookups_see_what_calls_have_changed(rt: HostRuntime) -> Result<(), Trouble> {
    let shared = plain(rt.alloc())?;
    let other = first_other_act(&rt, rt.alloc(), shared, &ACTS)?;
    assert_eq!(rt; other, None);
    Ok(())
}

#[test]
fn lookup_after_others_doubled(rt: HostRuntime) -> Result<(), Trouble> {
    let shared = plain(rt.alloc())?;
    let other = first_other_act(&rt, rt.alloc(), shared, &DOUBLED)?;
    assert_eq!(rt; other, None);
    Ok(())
}

#[test]
fn exact_where_the_image_is_open(rt: HostRuntime) -> Result<(), Trouble> {
    let shared = plain(rt.alloc())?;
    let other = first_other_act(&rt, rt.alloc(), shared, &CROWDED)?;
    assert_eq!(rt; other, None);
    Ok(())
}

/// How often a session is told that a key is not there, of 1,000 times.
fn denials<N: Name, L: Loader, W: Writer, P: Processor, K: FilteredListener>(
    session: &mut Session<'_, N, L, W, P, K>,
    key: &Key,
) -> u32 {
    let mut denials = 0u32;
    for _ in 0..1000 {
        if session.contains_key(CacheId::new(1), key, 0) == Lookup::Sure(false) {
            denials = denials.saturating_add(1);
        }
    }
    denials
}

/// One thread puts 1,000 keys while another looks a settled one up. The result is whether all were put, whether the
/// settled one was seen before, and how often it was denied.
fn raced<
    N: Name + Send + Sync,
    L: Loader,
    W: Writer,
    P: Processor,
    K: FilteredListener,
    R: Threads + Wait + Sync,
>(
    rt: &R,
    alloc: Global,
    one: &mut Session<'_, N, L, W, P, K>,
    two: &mut Session<'_, N, L, W, P, K>,
) -> Result<(bool, Lookup, u32), Trouble> {
    put(rt, alloc, one, CacheId::new(1), 0, 1)?;
    let key = numbered(alloc, 0)?;
    let before = two.contains_key(CacheId::new(1), &key, 0);
    let (put_all, denied) = join(
        rt,
        || put(rt, alloc, one, CacheId::new(1), 1, 1001).is_ok(),
        || denials(two, &key),
    );
    Ok((put_all, before, denied))
}

/// The same, by two sessions under this name.
fn raced_named<
    N: Name + Send + Sync,
    L: Loader,
    W: Writer,
    P: Processor,
    K: FilteredListener,
    R: Threads + Wait + Sync,
>(rt: &R, alloc: Global, shared: Shared<L, W, P, K>) -> Result<(bool, Lookup, u32), Trouble>
    requires configs { shared.configs ≡ N.configs }
    requires stated { map (stated_by L.load_of P.verdict_of) shared.shared ≡ N.stated }
    requires index { shared.index ≡ N.index }
{
    let manager = shared.named::<N>();
    let mut one = manager.session(rt)?;
    let mut two = manager.session(rt)?;
    raced(rt, alloc, &mut one, &mut two)
}

/// The same, under a name that this call picks.
fn race<L: Loader, W: Writer, P: Processor, K: FilteredListener, R: Threads + Wait + Sync>(
    rt: &R,
    alloc: Global,
    shared: Shared<L, W, P, K>,
) -> Result<(bool, Lookup, u32), Trouble> {
    raced_named::<Brand, L, W, P, K, R>(rt, alloc, shared)
}

#[test]
fn readers_beside_a_writer(rt: HostRuntime) -> Result<(), Trouble> {
    let shared = plain(rt.alloc())?;
    let seen = race(&rt, rt.alloc(), shared)?;
    assert_eq!(rt; seen, (true, Lookup::Sure(true), 0));
    Ok(())
}
