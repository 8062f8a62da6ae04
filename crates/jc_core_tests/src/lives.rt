//! Managers at their limits: they open, create their last cache, and give no id beyond the last.

use jc_engine::open::OpenRefusal;
use jc_engine::recorded::Recorded;
use jc_model::config::CacheConfig;
use jc_model::event::CreateRefusal::{IdsSpent, TooManyCaches, TotalCapacity};
use jc_model::event::{CacheId, CreateRefusal};
use jc_model::list::Sequence;
use jc_model::share::Share;
use jc_ring::list_ring::ListRing;
use jc_rows::list_rows::ListRows;
use jc_trials::{Trouble, is, key, plain_cache};
use std::alloc::Global;

type Manager = Recorded<ListRows, ListRing>;

const LAST: u32 = 4_294_967_294;

/// Capacity, listeners and processors of a cache.
type Parts = (u32, u8, usize);

/// A cache with a number as its name.
fn numbered(
    alloc: Global,
    number: u32,
    (capacity, listeners, processors): Parts,
) -> Result<CacheConfig, Trouble> {
    let name = format!(in alloc; "{number}")?;
    let mut config = plain_cache(alloc, name.as_str(), capacity)?;
    config.listeners = listeners;
    config.processors = Sequence::new(vec![in alloc; true; processors]?);
    Ok(config)
}

/// So many caches that are alike.
fn alike(alloc: Global, count: u32, parts: Parts) -> Result<Vec<CacheConfig>, Trouble> {
    let mut configs = Vec::new(alloc);
    for number in 0..count {
        configs.push(numbered(alloc, number, parts)?)?;
    }
    Ok(configs)
}

/// A manager of so many caches that are alike. The first has this id.
fn opened(alloc: Global, first: u32, count: u32, parts: Parts) -> Result<Manager, Trouble> {
    let configs = alike(alloc, count, parts)?;
    Ok(Manager::open_from(alloc, ListRows::new(alloc), configs, first)?)
}

/// The first id of caches that are alike, how many there are, and what each has; what one more has that is asked for;
/// and why it is refused.
type Asked = (u32, u32, Parts, Parts, Option<CreateRefusal>);

static ASKED: [Asked; 8] = [
    (0, 0, (1, 0, 0), (65_536, 8, 16), None),
    (0, 3, (65_536, 8, 16), (65_536, 8, 16), None),
    (LAST - 1023, 1023, (256, 8, 16), (256, 8, 16), None),
    (
        LAST - 1023,
        1024,
        (256, 8, 16),
        (1, 0, 0),
        Some(TooManyCaches),
    ),
    (LAST - 3, 4, (65_536, 8, 16), (1, 0, 0), Some(TotalCapacity)),
    (LAST - 3, 4, (65_535, 8, 16), (4, 8, 16), Some(IdsSpent)),
    (LAST, 1, (1, 0, 0), (1, 0, 0), Some(IdsSpent)),
    (LAST + 1, 0, (1, 0, 0), (1, 0, 0), Some(IdsSpent)),
];

/// Whether the first cache has its id, and what is asked for is created, or refused so and handed back.
fn is_answered(alloc: Global, asked: &Asked) -> Result<bool, Trouble> {
    let (first, count, parts, wanted, refusal) = *asked;
    let mut manager = opened(alloc, first, count, parts)?;
    let id = if count == 0 {
        None
    } else {
        Some(CacheId::new(first))
    };
    if manager.cache(&key("0")?) != id {
        return Ok(false);
    }
    let answer = match refusal {
        Some(refusal) => Err((refusal, numbered(alloc, count, wanted)?)),
        None => Ok(CacheId::new(first.wrapping_add(count))),
    };
    Ok(manager.create(numbered(alloc, count, wanted)?) == answer)
}

#[test]
fn managers_take_all_that_the_limits_allow(rt: HostRuntime) -> Result<(), Trouble> {
    for (number, asked) in ASKED.iter().enumerate() {
        assert!(rt; is_answered(rt.alloc(), asked)?, "{number}");
    }
    Ok(())
}

/// Whether a manager gives the last id; whether that cache goes; and whether no other one comes then.
fn gives_last(alloc: Global, manager: &mut Manager) -> Result<[bool; 3], Trouble> {
    let last = CacheId::new(LAST);
    let config = plain_cache(alloc, "a", 1)?;
    let (again, back) = (config.share()?, config.share()?);
    Ok([
        is(manager.create(config), Ok(last)),
        is(manager.destroy(last), Ok(())),
        is(manager.create(again), Err((IdsSpent, back))),
    ])
}

#[test]
fn the_last_id_is_given_once(rt: HostRuntime) -> Result<(), Trouble> {
    let alloc = rt.alloc();
    let mut manager = opened(alloc, LAST, 0, (1, 0, 0))?;
    assert_eq!(rt; gives_last(alloc, &mut manager)?, [true; 3]);
    let configs = alike(alloc, 2, (1, 0, 0))?;
    let beyond = Manager::open_from(alloc, ListRows::new(alloc), configs, LAST).err();
    assert!(rt; beyond == Some(OpenRefusal::IdsSpent));
    Ok(())
}
