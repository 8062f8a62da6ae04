//! What one thread does, and what comes of it.
use crate::caches::put;
use crate::delays::Delays;
use crate::fault::Fault;
use crate::timing::wall;
use crate::words::Kind;
use jc_index::lookup::Lookup;
use jc_model::call::Call;
use jc_model::key::Key;
use jc_model::keys::Keys;
use jc_shards::Caches;
use std::alloc::Global;
use std::hint::spin_loop;
use std::sync::Wait;
use std::sync::atomic::{AtomicU32, Ordering};
use std::time::Clock;

/// The most rounds of a writer.
const ROUNDS: u64 = 200_000;

/// How many keys a call on many keys has.
const MANY: usize = 64;

/// How many keys a writer has. Half of them have a row at any time.
pub const WRITTEN: u32 = 64;

/// What came of one try.
#[derive(Clone, Copy)]
enum Outcome {
    /// The key has a row, or the call was answered.
    Yes,
    /// The key has no row.
    No,
    /// The lookup was not sure.
    Unsure,
    /// The call was refused.
    Refused,
}

/// How often each came.
#[derive(Clone, Copy)]
pub struct Counts {
    pub yes: u64,
    pub no: u64,
    pub unsure: u64,
    pub refused: u64,
}

impl Counts {
    /// None yet.
    pub fn none() -> Counts {
        Counts {
            yes: 0,
            no: 0,
            unsure: 0,
            refused: 0,
        }
    }

    fn add(&mut self, outcome: Outcome) {
        let count = match outcome {
            Outcome::Yes => &mut self.yes,
            Outcome::No => &mut self.no,
            Outcome::Unsure => &mut self.unsure,
            Outcome::Refused => &mut self.refused,
        };
        *count = count.wrapping_add(1);
    }
}

fn outcome_of_look(holds: bool) -> Outcome {
    if holds { Outcome::Yes } else { Outcome::No }
}

fn outcome_of_call<T: Drop, E: Drop>(answer: Result<T, E>) -> Outcome {
    match answer {
        Ok(_) => Outcome::Yes,
        Err(_) => Outcome::Refused,
    }
}

fn outcome_of_lookup(lookup: Lookup) -> Outcome {
    match lookup {
        Lookup::Sure(holds) => outcome_of_look(holds),
        Lookup::Unsure => Outcome::Unsure,
    }
}

fn ask<C: Caches, R: Wait>(
    rt: &R,
    alloc: Global,
    seat: &mut C,
    kind: Kind,
    cache: C::Id,
    key: &Key,
) -> Outcome {
    match kind {
        Kind::Lookup | Kind::Miss => outcome_of_lookup(seat.contains_key(cache, key, 0)),
        Kind::Contains => outcome_of_look(seat.contains(rt, cache, key, 0)),
        Kind::Get | Kind::Mix | Kind::Many => {
            outcome_of_call(seat.call(rt, cache, 0, Call::Get(*key)))
        }
        Kind::Put | Kind::Write => outcome_of_call(put(rt, alloc, seat, cache, key)),
    }
}

/// Gets many keys at once: the first ones, as far as there are so many.
fn get_many<C: Caches, R: Wait>(
    rt: &R,
    alloc: Global,
    seat: &mut C,
    cache: C::Id,
    keys: &[Key],
) -> Result<(), Fault> {
    let mut asked = Vec::with_capacity(alloc, MANY)?;
    for key in keys {
        if asked.len() == MANY {
            break;
        }
        asked.push(*key)?;
    }
    drop(seat.call(rt, cache, 0, Call::GetAll(Keys::new(asked)?))?);
    Ok(())
}

/// The next number of a sequence without a pattern (Knuth's constants for 64 bits).
fn following(number: u64) -> u64 {
    number
        .wrapping_mul(6_364_136_223_846_793_005)
        .wrapping_add(1_442_695_040_888_963_407)
}

/// What a number picks of these.
fn pick<T>(items: &[T], number: u64) -> Option<&T> {
    let count = items.len() as u64;
    if count == 0 {
        return None;
    }
    items.get((number % count) as usize)
}

/// What a session does again and again.
#[derive(Clone, Copy)]
pub struct Task {
    pub kind: Kind,
    /// How often.
    pub calls: u32,
    /// How many steps of the processor's pause go by after each.
    pub between: u32,
    /// Whether it is told how long each took.
    pub timed: bool,
    /// The number that its picks follow.
    pub first: u64,
}

/// What came of a thread's tries, and how long each took where that is asked.
#[derive(Clone, Copy)]
pub struct Came {
    pub counts: Counts,
    pub delays: Delays,
}

/// What is done at a number: gets and puts by turns, or always the same.
fn kind_at(kind: Kind, number: u64) -> Kind {
    match kind {
        Kind::Mix if (number >> 40) % 2 == 0 => Kind::Put,
        other => other,
    }
}

/// Does its task once, for one of the keys of one of the caches, which upper bits of the number pick.
fn ask_once<C: Caches, R: Wait>(
    rt: &R,
    alloc: Global,
    seat: &mut C,
    (kind, number): (Kind, u64),
    (caches, keys): (&[C::Id], &[Key]),
) -> Option<Outcome> {
    let cache = pick(caches, number >> 48)?;
    if kind == Kind::Many {
        return Some(outcome_of_call(get_many(rt, alloc, seat, *cache, keys)));
    }
    let key = pick(keys, number >> 33)?;
    Some(ask(rt, alloc, seat, kind_at(kind, number), *cache, key))
}

/// Does its task so often.
pub fn ask_often<C: Caches, R: Wait + Clock>(
    rt: &R,
    alloc: Global,
    seat: &mut C,
    task: Task,
    asked: (&[C::Id], &[Key]),
    came: &mut Came,
) {
    let mut number = task.first;
    for _ in 0..task.calls {
        number = following(number);
        let began = if task.timed { wall(rt) } else { 0 };
        if let Some(outcome) = ask_once(rt, alloc, seat, (task.kind, number), asked) {
            came.counts.add(outcome);
        }
        if task.timed {
            came.delays.add(wall(rt).wrapping_sub(began));
        }
        for _ in 0..task.between {
            spin_loop();
        }
    }
}

/// Puts one of its keys and removes another, in turn, while any other thread is busy.
pub fn write_meanwhile<C: Caches, R: Wait>(
    rt: &R,
    alloc: Global,
    seat: &mut C,
    cache: C::Id,
    keys: &[Key],
    busy: &AtomicU32,
    counts: &mut Counts,
) {
    let half = WRITTEN as u64 / 2;
    for round in 0..ROUNDS {
        if busy.load(Ordering::SeqCst) == 0 {
            return;
        }
        if let Some(key) = keys.get((round % WRITTEN as u64) as usize) {
            counts.add(ask(rt, alloc, seat, Kind::Write, cache, key));
        }
        if let Some(key) = keys.get(((round + half) % WRITTEN as u64) as usize) {
            counts.add(outcome_of_call(seat.call(rt, cache, 0, Call::Remove(*key))));
        }
    }
}
