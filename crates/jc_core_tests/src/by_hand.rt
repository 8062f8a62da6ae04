//! Calls by hand on caches of two managers that are asked as one: each goes on in the manager that has its cache, and
//! keeps that cache alone busy.
ghost use Rattle.jc_shards.specs.Naming.{IsUnder};

use crate::shards::{NAMES, SEED};
use jc_hooks::placeholder_hooks;
use jc_index::lookup::Lookup;
use jc_model::call::{Answer, Call, Reply, Request};
use jc_model::event::CacheId;
use jc_model::key::Key;
use jc_shards::{Caches, CallsByHand, Pair, Shard, ShardMap, Side, Twins, create, open_two};
use jc_shared::{AnswerFault, CallFault, Name, PendingCall, Progress};
use jc_trials::{Trouble, is, key, plain_cache, value_of};
use std::alloc::Global;
use std::marker::Brand;
use std::sync::Wait;

/// Sessions of two managers.
type Seat<'a, 'b, A, B> = Pair<Shard<'a, A>, Shard<'b, B>>;

/// A cache of one of them.
type Id = Side<CacheId, CacheId>;

/// A call that waits in one of them.
type Waiting<A, B> = Side<PendingCall<A>, PendingCall<B>>;

/// A cache that is read through, in the half that its name picks.
fn read_through<A: Name, B: Name, R: Wait>(
    rt: &R,
    alloc: Global,
    seat: &Seat<'_, '_, A, B>,
    text: &str,
) -> Result<Id, Trouble> {
    let config = plain_cache(alloc, text, 4)?.read_through();
    let hooks = placeholder_hooks(alloc, &config)?;
    match create(seat, rt, &ShardMap::by_hash(alloc, SEED), config, hooks) {
        Ok(id) => Ok(id),
        Err(refused) => {
            drop(refused);
            Err(Trouble::Unexpected)
        }
    }
}

/// Ends a call that has come to something else than was expected.
fn end<A: Name, B: Name, R: Wait>(
    rt: &R,
    seat: &mut Seat<'_, '_, A, B>,
    progress: Progress<Waiting<A, B>>,
) -> Trouble {
    match progress {
        Progress::Replied(reply) => drop(reply),
        Progress::Waits(pending) => drop(seat.give_up(rt, pending)),
    }
    Trouble::Unexpected
}

/// Begins to get a key that the cache does not have.
fn begin<A: Name, B: Name, R: Wait>(
    rt: &R,
    seat: &mut Seat<'_, '_, A, B>,
    id: Id,
    name: Key,
) -> Result<Waiting<A, B>, Trouble> {
    match seat.begin(rt, id, 0, Call::Get(name)) {
        Ok(Progress::Waits(pending)) => Ok(pending),
        Ok(replied) => Err(end(rt, seat, replied)),
        Err(refused) => {
            drop(refused);
            Err(Trouble::Unexpected)
        }
    }
}

/// Whether a writer's answer to a load is refused. The call is handed back.
fn refuse<A: Name, B: Name, R: Wait>(
    rt: &R,
    seat: &mut Seat<'_, '_, A, B>,
    pending: Waiting<A, B>,
) -> Result<(bool, Waiting<A, B>), Trouble> {
    match seat.resume(rt, pending, Answer::Written) {
        Err((fault, pending, answer)) => {
            let is_back = answer == Answer::Written;
            drop(answer);
            Ok((is_back && fault == AnswerFault::WrongAnswer, pending))
        }
        Ok(progress) => Err(end(rt, seat, progress)),
    }
}

/// The reply to a call that is answered by what was loaded.
fn load<A: Name, B: Name, R: Wait>(
    rt: &R,
    alloc: Global,
    seat: &mut Seat<'_, '_, A, B>,
    pending: Waiting<A, B>,
    text: &str,
) -> Result<Reply, Trouble> {
    let loaded = match value_of(alloc, text) {
        Ok(value) => Answer::Loaded(Some(value)),
        Err(trouble) => {
            drop(trouble);
            Answer::LoadFailed
        }
    };
    match seat.resume(rt, pending, loaded) {
        Ok(Progress::Replied(reply)) => Ok(reply),
        Ok(waits) => Err(end(rt, seat, waits)),
        Err((_, pending, answer)) => {
            drop(answer);
            Err(end(rt, seat, Progress::Waits(pending)))
        }
    }
}

/// Whether a call waits for its load and keeps its own cache busy, and the other one not.
fn keeps_busy<A: Name, B: Name, R: Wait>(
    rt: &R,
    seat: &mut Seat<'_, '_, A, B>,
    pending: &Waiting<A, B>,
    name: Key,
    (own, other): (Id, Id),
) -> [bool; 3] {
    [
        *Seat::<A, B>::request(pending) == Request::Load(name),
        is(seat.call(rt, own, 0, Call::Stats), Err(CallFault::Busy)),
        is(seat.call(rt, other, 0, Call::Clear), Ok(Reply::Done)),
    ]
}

/// Whether a call comes to its end by what was loaded, and the cache has it then.
fn answer<A: Name, B: Name, R: Wait>(
    rt: &R,
    alloc: Global,
    seat: &mut Seat<'_, '_, A, B>,
    (own, other): (Id, Id),
) -> Result<[bool; 7], Trouble> {
    let x = key("x")?;
    let (one, same) = (value_of(alloc, "1")?, value_of(alloc, "1")?);
    let pending = begin(rt, seat, own, x)?;
    let [asks, busy, free] = keeps_busy(rt, seat, &pending, x, (own, other));
    let (refused, pending) = refuse(rt, seat, pending)?;
    let reply = load(rt, alloc, seat, pending, "1")?;
    Ok([
        asks,
        busy,
        free,
        refused,
        reply == Reply::Found(Some(one)),
        is(
            seat.call(rt, own, 0, Call::Get(x)),
            Ok(Reply::Found(Some(same))),
        ),
        seat.contains_key(other, &x, 0) == Lookup::Sure(false),
    ])
}

/// Whether a call that is given up leaves nothing, and its cache free.
fn give_up<A: Name, B: Name, R: Wait>(
    rt: &R,
    seat: &mut Seat<'_, '_, A, B>,
    own: Id,
) -> Result<[bool; 3], Trouble> {
    let y = key("y")?;
    let pending = begin(rt, seat, own, y)?;
    let left = seat.give_up(rt, pending);
    Ok([
        matches!(&left, Ok(notices) if notices.items().is_empty()),
        is(
            seat.call(rt, own, 0, Call::Contains(y)),
            Ok(Reply::Truth(false)),
        ),
        is(seat.call(rt, own, 0, Call::Clear), Ok(Reply::Done)),
    ])
}

/// What came of it in each half.
#[derive(Drop)]
struct Seen {
    answered: [[bool; 7]; 2],
    given_up: [[bool; 3]; 2],
}

fn call<A: Name, B: Name, R: Wait>(
    rt: &R,
    alloc: Global,
    seat: &mut Seat<'_, '_, A, B>,
) -> Result<Seen, Trouble> {
    let left = read_through(rt, alloc, seat, NAMES[0])?;
    let right = read_through(rt, alloc, seat, NAMES[1])?;
    let answered = [
        answer(rt, alloc, seat, (left, right))?,
        answer(rt, alloc, seat, (right, left))?,
    ];
    let given_up = [give_up(rt, seat, left)?, give_up(rt, seat, right)?];
    Ok(Seen { answered, given_up })
}

fn named<A: Name, B: Name, R: Wait>(rt: &R, alloc: Global, twins: Twins) -> Result<Seen, Trouble>
    requires left { IsUnder twins.left A.configs A.stated A.index }
    requires right { IsUnder twins.right B.configs B.stated B.index }
{
    let Twins { left, right } = twins;
    let (left, right) = (left.named::<A>(), right.named::<B>());
    let mut seat = Pair {
        left: Shard::new(rt, &left)?,
        right: Shard::new(rt, &right)?,
    };
    call(rt, alloc, &mut seat)
}

/// The same, under names that this call picks.
fn observe<R: Wait>(rt: &R, alloc: Global, twins: Twins) -> Result<Seen, Trouble> {
    named::<Brand, Brand, R>(rt, alloc, twins)
}

#[test]
fn calls_by_hand_go_on_where_they_began(rt: HostRuntime) -> Result<(), Trouble> {
    let alloc = rt.alloc();
    let twins = match open_two(
        alloc,
        &ShardMap::by_hash(alloc, SEED),
        0,
        Vec::new(alloc),
        7,
    ) {
        Ok(twins) => twins,
        Err(refused) => {
            drop(refused);
            return Err(Trouble::Unexpected);
        }
    };
    let seen = observe(&rt, alloc, twins)?;
    assert_eq!(rt; seen.answered, [[true; 7]; 2]);
    assert_eq!(rt; seen.given_up, [[true; 3]; 2]);
    Ok(())
}
