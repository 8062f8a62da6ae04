//! What no configuration and no script meets: refusals of `open` and of calls, runs of events, and other texts.

use jc_engine::engine::Engine;
use jc_engine::open::OpenRefusal;
use jc_engine::open::OpenRefusal::{
    BadCapacity, DuplicateName, TooManyCaches, TooManyListeners, TooManyProcessors, TotalCapacity,
};
use jc_model::call::{Answer, Call, Counts, ProcessorFault, Reply, Request};
use jc_model::config::CacheConfig;
use jc_model::event::{CacheId, Cause, Event, Outcome, Step};
use jc_model::key::Key;
use jc_model::list::Sequence;
use jc_model::value::Value;
use jc_report::reply_text;
use jc_ring::list_ring::ListRing;
use jc_rows::list_rows::ListRows;
use jc_trials::{Trouble, is, key, plain_cache, value_of};
use std::alloc::Global;

type Manager = Engine<ListRows, ListRing>;

/// Caches that are alike but for the last one's name, and why they do not open.
#[derive(Drop)]
struct Opening {
    caches: u32,
    capacity: u32,
    listeners: u8,
    processors: usize,
    last: u32,
    refusal: Option<OpenRefusal>,
}

/// The caches of an opening; their names are numbers.
fn configs(alloc: Global, opening: &Opening) -> Result<Vec<CacheConfig>, Trouble> {
    let mut configs = Vec::new(alloc);
    for place in 1..=opening.caches {
        let number = if place == opening.caches {
            opening.last
        } else {
            place
        };
        let name = format!(in alloc; "{number}")?;
        let mut config = plain_cache(alloc, name.as_str(), opening.capacity)?;
        config.listeners = opening.listeners;
        config.processors = Sequence::new(vec![in alloc; true; opening.processors]?);
        configs.push(config)?;
    }
    Ok(configs)
}

/// Caches of these numbers of caches and rows, listeners and processors, which open.
fn opens(sizes: (u32, u32), hooks: (u8, usize)) -> Opening {
    Opening {
        caches: sizes.0,
        capacity: sizes.1,
        listeners: hooks.0,
        processors: hooks.1,
        last: sizes.0,
        refusal: None,
    }
}

fn refused(sizes: (u32, u32), hooks: (u8, usize), last: u32, refusal: OpenRefusal) -> Opening {
    Opening {
        last,
        refusal: Some(refusal),
        ..opens(sizes, hooks)
    }
}

#[test]
fn managers_open_or_are_refused(rt: HostRuntime) -> Result<(), Trouble> {
    let alloc = rt.alloc();
    let openings = [
        opens((0, 0), (0, 0)),
        opens((4, 65_536), (8, 16)),
        opens((1024, 256), (0, 0)),
        refused((1025, 0), (9, 17), 1, TooManyCaches),
        refused((3, 0), (9, 17), 1, BadCapacity { cache: 0 }),
        refused((3, 65_537), (9, 17), 1, BadCapacity { cache: 0 }),
        refused((3, 1), (9, 17), 1, TooManyListeners { cache: 0 }),
        refused((3, 1), (8, 17), 1, TooManyProcessors { cache: 0 }),
        refused((5, 65_536), (8, 16), 2, DuplicateName { cache: 4 }),
        refused((5, 65_536), (8, 16), 5, TotalCapacity),
    ];
    for opening in &openings {
        let configs = configs(alloc, opening)?;
        let refusal = Manager::open(alloc, ListRows::new(alloc), configs).err();
        assert_eq!(rt; &refusal, &opening.refusal, "{}", opening.caches);
    }
    Ok(())
}

/// A cache `a` with a loader, and a cache `b` without callbacks.
fn two_caches(alloc: Global) -> Result<Manager, Trouble> {
    let mut a = plain_cache(alloc, "a", 64)?;
    a.loader = true;
    let configs = Vec::from_array(alloc, [a, plain_cache(alloc, "b", 64)?])?;
    Ok(Manager::open(alloc, ListRows::new(alloc), configs)?)
}

/// A call of the first processor.
fn invoke(alloc: Global) -> Result<Call, Trouble> {
    Ok(Call::Invoke {
        key: key("k")?,
        processor: 0,
        argument: value_of(alloc, "")?,
    })
}

/// The outcome of a step that finds this value.
fn found(value: Value) -> Outcome {
    Outcome::Step(Step::Done(Reply::Found(Some(value))))
}

/// An outcome that asks for a key's value.
fn asked(key: Key) -> Outcome {
    Outcome::Step(Step::Need(Request::Load(key)))
}

/// Events, and what they come to.
type Events = (Vec<Event>, Vec<Outcome>);

/// So many of both.
fn both<const N: usize>(
    alloc: Global,
    events: [Event; N],
    outcomes: [Outcome; N],
) -> Result<Events, Trouble> {
    let events = Vec::from_array(alloc, events)?;
    Ok((events, Vec::from_array(alloc, outcomes)?))
}

/// Two caches take turns.
fn turns(alloc: Global) -> Result<Events, Trouble> {
    let (a, b, k) = (CacheId::new(0), CacheId::new(1), key("k")?);
    let (loaded, replied) = (value_of(alloc, "k")?, value_of(alloc, "k")?);
    let put = Call::Put(key("x")?, value_of(alloc, "1")?);
    let events = [
        Event::Begin(a, 0, Call::Get(k)),
        Event::Begin(b, 0, put),
        Event::Answer(a, Answer::Loaded(Some(loaded))),
    ];
    let outcomes = [
        asked(k),
        Outcome::Step(Step::Done(Reply::Done)),
        found(replied),
    ];
    both(alloc, events, outcomes)
}

/// Events after these, refused ones among them.
fn others(alloc: Global) -> Result<Events, Trouble> {
    let (a, b, c) = (CacheId::new(0), CacheId::new(1), CacheId::new(7));
    let (l, x, stored) = (key("l")?, key("x")?, value_of(alloc, "1")?);
    let (loaded, replied) = (value_of(alloc, "2")?, value_of(alloc, "2")?);
    let (of_b, of_c) = (invoke(alloc)?, invoke(alloc)?);
    let events = [
        Event::Begin(a, 0, Call::Get(l)),
        Event::Begin(a, 0, Call::Stats),
        Event::Begin(b, 0, of_b),
        Event::Begin(c, 0, of_c),
        Event::Answer(a, Answer::Told),
        Event::Answer(a, Answer::Loaded(Some(loaded))),
        Event::GiveUp(a),
        Event::Begin(b, 0, Call::Get(x)),
        Event::GiveUp(c),
    ];
    let outcomes = [
        asked(l),
        Outcome::Refused(Cause::Busy),
        Outcome::Refused(Cause::NoSuchProcessor),
        Outcome::Refused(Cause::NoSuchCache),
        Outcome::Refused(Cause::WrongAnswer),
        found(replied),
        Outcome::Refused(Cause::NoTurn),
        found(stored),
        Outcome::Refused(Cause::NoSuchCache),
    ];
    both(alloc, events, outcomes)
}

/// Whether a run of events comes to what it should.
fn comes_so(manager: &mut Manager, (events, wanted): Events) -> bool {
    match manager.run(events) {
        Ok(outcomes) => is(outcomes, wanted),
        Err(events) => {
            drop(events);
            drop(wanted);
            false
        }
    }
}

/// Whether both runs of a manager do.
fn come_so(alloc: Global, manager: &mut Manager) -> Result<[bool; 2], Trouble> {
    let turns = comes_so(manager, turns(alloc)?);
    Ok([turns, comes_so(manager, others(alloc)?)])
}

#[test]
fn a_run_of_events_goes_on_behind_refusals(rt: HostRuntime) -> Result<(), Trouble> {
    let mut manager = two_caches(rt.alloc())?;
    assert_eq!(rt; come_so(rt.alloc(), &mut manager)?, [true; 2]);
    Ok(())
}

/// Replies that no call of the program gives, with their texts.
fn replies(alloc: Global) -> Result<[(Reply, &'static str); 3], Trouble> {
    let bytes = Vec::from_array(alloc, [255, 10])?;
    let counts = Counts {
        hits: 1,
        misses: 2,
        puts: 3,
        removals: 4,
        evictions: u64::MAX,
    };
    let mut results = Vec::new(alloc);
    results.push((key("x")?, Err(ProcessorFault {})))?;
    results.push((key("y")?, Ok(Value::new(alloc, bytes.clone()?)?)))?;
    Ok([
        (
            Reply::Found(Some(Value::new(alloc, bytes)?)),
            "some hex:ff0a",
        ),
        (Reply::Counted(counts), "1 2 3 4 18446744073709551615"),
        (
            Reply::Results(Sequence::new(results)),
            "results \"x\"=fault \"y\"=some hex:ff0a",
        ),
    ])
}

#[test]
fn replies_of_other_bytes_have_their_texts(rt: HostRuntime) -> Result<(), Trouble> {
    let alloc = rt.alloc();
    for (reply, text) in &replies(alloc)? {
        assert_eq!(rt; reply_text(alloc, reply)?.as_str(), *text);
    }
    Ok(())
}
