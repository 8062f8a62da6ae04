//! A manager, with a journal or without one, that makes one event after the other.
ghost use Rattle.std.specs.Prelude.{◌≡◌};

use crate::placer::ByCase;
use crate::trouble::Trouble;
use crate::twin::Twin;
use jc_cuckoo::cuckoo::Cuckoo;
use jc_cuckoo::mirror::NoMirror;
use jc_engine::engine::Engine;
use jc_engine::open::OpenRefusal;
use jc_engine::recorded::Recorded;
use jc_model::call::{Answer, Call, Counts, Notice, Reply};
use jc_model::config::CacheConfig;
use jc_model::event::{CacheId, Cause, CreateRefusal, Event, Outcome, Step};
use jc_model::key::Key;
use jc_model::list::Sequence;
use jc_ring::link_ring::LinkRing;
use jc_ring::ring::Ring;
use jc_rows::rows::Rows;
use std::alloc::Global;

/// A manager whose allocations are refused.
pub trait Manager: Sized + Drop {
    /// One with these caches, over an empty table. `None` where memory is refused.
    fn open(alloc: Global, configs: Vec<CacheConfig>) -> Result<Option<Self>, Trouble>;

    /// Makes an event of a session. Where memory is refused, it is handed back.
    fn make(&mut self, session: u32, event: Event) -> Result<Outcome, Event>;

    /// Whether an event takes no memory.
    fn takes_none(event: &Event) -> bool;

    /// The names of the live caches.
    fn names(&self) -> &[Key];

    /// Whether a cache has a live row of this key at a moment.
    fn has(&self, id: CacheId, key: &Key, now: u64) -> bool;

    /// Whether it has counted, or noted in its journal, the same as its twin.
    fn tells_as(&mut self, twin: &mut Twin) -> bool;
}

/// The table of the program, in which many keys share their buckets.
type Table = Cuckoo<ByCase, NoMirror>;

/// How many buckets the table has, of four slots each.
const BUCKETS: u32 = 4;

/// A manager that keeps no journal.
pub type Plain = Engine<Table, LinkRing>;

/// A manager that keeps all calls.
pub type Journaled = Recorded<Table, LinkRing>;

/// What a refused event comes to. For want of memory it is handed back.
fn refused(cause: Cause, event: Event) -> Result<Outcome, Event> {
    if cause == Cause::OutOfMemory {
        Err(event)
    } else {
        drop(event);
        Ok(Outcome::Refused(cause))
    }
}

fn begun(id: CacheId, now: u64, came: Result<Step, (Cause, Call)>) -> Result<Outcome, Event> {
    match came {
        Ok(step) => Ok(Outcome::Step(step)),
        Err((cause, call)) => refused(cause, Event::Begin(id, now, call)),
    }
}

fn resumed(id: CacheId, came: Result<Step, (Cause, Answer)>) -> Result<Outcome, Event> {
    match came {
        Ok(step) => Ok(Outcome::Step(step)),
        Err((cause, answer)) => refused(cause, Event::Answer(id, answer)),
    }
}

fn given_up(id: CacheId, came: Result<Sequence<Notice>, Cause>) -> Result<Outcome, Event> {
    match came {
        Ok(notices) => Ok(Outcome::GivenUp(notices)),
        Err(cause) => refused(cause, Event::GiveUp(id)),
    }
}

fn created(came: Result<CacheId, (CreateRefusal, CacheConfig)>) -> Result<Outcome, Event> {
    match came {
        Ok(id) => Ok(Outcome::Created(id)),
        Err((CreateRefusal::OutOfMemory, config)) => Err(Event::Create(config)),
        Err((refusal, config)) => {
            drop(config);
            Ok(Outcome::CreateRefused(refusal))
        }
    }
}

fn destroyed(id: CacheId, came: Result<(), Cause>) -> Result<Outcome, Event> {
    match came {
        Ok(()) => Ok(Outcome::Destroyed),
        Err(cause) => refused(cause, Event::Destroy(id)),
    }
}

/// Makes an event without a journal. Where memory is refused, it is handed back.
pub fn make_plain<R: Rows, G: Ring>(
    manager: &mut Engine<R, G>,
    event: Event,
) -> Result<Outcome, Event> {
    match event {
        Event::Begin(id, now, call) => begun(id, now, manager.begin(id, now, call)),
        Event::Answer(id, answer) => resumed(id, manager.resume(id, answer)),
        Event::GiveUp(id) => given_up(id, manager.give_up(id)),
        Event::Create(config) => created(manager.create(config)),
        Event::Destroy(id) => destroyed(id, manager.destroy(id)),
    }
}

/// What a call does next, without the copy of its reply.
fn moved<E: Drop>(came: Result<(Step, Option<Reply>), E>) -> Result<Step, E> {
    match came {
        Ok((step, copy)) => {
            drop(copy);
            Ok(step)
        }
        Err(refused) => Err(refused),
    }
}

/// Makes an event of a session. Where memory is refused, it is handed back.
pub fn make_journaled<R: Rows, G: Ring>(
    manager: &mut Recorded<R, G>,
    session: u32,
    event: Event,
) -> Result<Outcome, Event> {
    match event {
        Event::Begin(id, now, call) => {
            begun(id, now, moved(manager.begin(session, id, now, call)))
        }
        Event::Answer(id, answer) => resumed(id, moved(manager.resume(id, answer))),
        Event::GiveUp(id) => given_up(id, manager.give_up(id)),
        Event::Create(config) => created(manager.create(config)),
        Event::Destroy(id) => destroyed(id, manager.destroy(id)),
    }
}

/// A manager that has opened, unless it was refused memory.
fn opened<M: Drop>(came: Result<M, OpenRefusal>) -> Result<Option<M>, Trouble> {
    match came {
        Ok(manager) => Ok(Some(manager)),
        Err(OpenRefusal::OutOfMemory) => Ok(None),
        Err(_) => Err(Trouble::NotOpened),
    }
}

/// The counts in a reply, if it has them.
fn counts_in(step: &Step) -> Option<Counts> {
    match step {
        Step::Done(Reply::Counted(counts)) => Some(*counts),
        _ => None,
    }
}

/// What a cache has counted; nothing where it is not live, or a call on it is open.
pub fn counts_of<R: Rows, G: Ring>(manager: &mut Engine<R, G>, id: CacheId) -> Option<Counts> {
    match manager.begin(id, 0, Call::Stats) {
        Ok(step) => {
            let counts = counts_in(&step);
            drop(step);
            counts
        }
        Err(refused) => {
            drop(refused);
            None
        }
    }
}

impl Manager for Plain {
    fn open(alloc: Global, configs: Vec<CacheConfig>) -> Result<Option<Plain>, Trouble> {
        match Cuckoo::new(alloc, ByCase, NoMirror, BUCKETS) {
            Ok(table) => opened(Engine::open(alloc, table, configs)),
            Err(_) => Ok(None),
        }
    }

    fn make(&mut self, _session: u32, event: Event) -> Result<Outcome, Event> {
        make_plain(self, event)
    }

    fn takes_none(event: &Event) -> bool {
        match event {
            Event::Begin(_, _, call) => matches!(
                call,
                Call::Contains(_) | Call::Clear | Call::Stats | Call::ClearStats
            ),
            Event::Answer(_, answer) => matches!(answer, Answer::Told),
            Event::GiveUp(_) | Event::Destroy(_) => true,
            Event::Create(_) => false,
        }
    }

    fn names(&self) -> &[Key] {
        Engine::names(self)
    }

    fn has(&self, id: CacheId, key: &Key, now: u64) -> bool {
        Engine::has(self, id, key, now)
    }

    fn tells_as(&mut self, twin: &mut Twin) -> bool {
        twin.has_counted_as(self)
    }
}

impl Manager for Journaled {
    fn open(alloc: Global, configs: Vec<CacheConfig>) -> Result<Option<Journaled>, Trouble> {
        match Cuckoo::new(alloc, ByCase, NoMirror, BUCKETS) {
            Ok(table) => opened(Recorded::open(alloc, table, configs)),
            Err(_) => Ok(None),
        }
    }

    fn make(&mut self, session: u32, event: Event) -> Result<Outcome, Event> {
        make_journaled(self, session, event)
    }

    fn takes_none(event: &Event) -> bool {
        matches!(event, Event::GiveUp(_) | Event::Destroy(_))
    }

    fn names(&self) -> &[Key] {
        Recorded::names(self)
    }

    fn has(&self, id: CacheId, key: &Key, now: u64) -> bool {
        Recorded::has(self, id, key, now)
    }

    fn tells_as(&mut self, twin: &mut Twin) -> bool {
        twin.has_noted_as(self.transcript())
    }
}
