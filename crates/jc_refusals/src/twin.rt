//! What the managers are compared with: the same caches over a list of rows, which are never refused.

use crate::manager::{counts_of, make_journaled, make_plain};
use crate::trouble::Trouble;
use jc_engine::engine::Engine;
use jc_engine::recorded::Recorded;
use jc_model::config::CacheConfig;
use jc_model::event::{CacheId, Event, Outcome};
use jc_model::key::Key;
use jc_model::share::{Share, share_all};
use jc_model::{OutOfMemory, Transcript};
use jc_ring::list_ring::ListRing;
use jc_ring::ring::Ring;
use jc_rows::list_rows::ListRows;
use jc_rows::rows::Rows;
use std::alloc::Global;

/// Ids from 0 are compared, so many.
pub const IDS: u32 = 8;

/// A manager without a journal, and one with one.
#[derive(Drop)]
pub struct Twin {
    plain: Engine<ListRows, ListRing>,
    journaled: Recorded<ListRows, ListRing>,
}

/// An equal second event.
pub fn share_event(event: &Event) -> Result<Event, OutOfMemory> {
    match event {
        Event::Begin(id, now, call) => Ok(Event::Begin(*id, *now, call.share()?)),
        Event::Answer(id, answer) => Ok(Event::Answer(*id, answer.share()?)),
        Event::GiveUp(id) => Ok(Event::GiveUp(*id)),
        Event::Create(config) => Ok(Event::Create(config.share()?)),
        Event::Destroy(id) => Ok(Event::Destroy(*id)),
    }
}

/// Whether an event that must not be refused came to this outcome.
fn is_same(came: Result<Outcome, Event>, outcome: &Outcome) -> Result<bool, Trouble> {
    match came {
        Ok(own) => {
            let is_same = own == *outcome;
            drop(own);
            Ok(is_same)
        }
        Err(back) => {
            drop(back);
            Err(Trouble::Memory)
        }
    }
}

impl Twin {
    /// A twin with these caches.
    pub fn open(alloc: Global, configs: &[CacheConfig]) -> Result<Twin, Trouble> {
        let (first, second) = (share_all(alloc, configs)?, share_all(alloc, configs)?);
        let plain = Engine::open(alloc, ListRows::new(alloc), first);
        let journaled = Recorded::open(alloc, ListRows::new(alloc), second);
        match (plain, journaled) {
            (Ok(plain), Ok(journaled)) => Ok(Twin { plain, journaled }),
            _ => Err(Trouble::NotOpened),
        }
    }

    /// Makes an event without a journal; whether it comes to this outcome.
    fn makes_plain(&mut self, event: &Event, outcome: &Outcome) -> Result<bool, Trouble> {
        let own = share_event(event)?;
        is_same(make_plain(&mut self.plain, own), outcome)
    }

    /// Makes an event of a session with a journal; whether it comes to this outcome.
    fn makes_journaled(
        &mut self,
        session: u32,
        event: &Event,
        outcome: &Outcome,
    ) -> Result<bool, Trouble> {
        let own = share_event(event)?;
        is_same(make_journaled(&mut self.journaled, session, own), outcome)
    }

    /// Makes an event of a session; whether it comes to this outcome.
    pub fn makes(
        &mut self,
        session: u32,
        event: &Event,
        outcome: &Outcome,
    ) -> Result<bool, Trouble> {
        let plain = self.makes_plain(event, outcome)?;
        let journaled = self.makes_journaled(session, event, outcome)?;
        Ok(plain && journaled)
    }

    /// The names of the live caches.
    pub fn names(&self) -> &[Key] {
        self.plain.names()
    }

    /// Whether a cache has a live row of this key at a moment.
    pub fn has(&self, id: CacheId, key: &Key, now: u64) -> bool {
        self.plain.has(id, key, now)
    }

    /// Whether each cache of a manager has counted what its twin has.
    pub fn has_counted_as<R: Rows, G: Ring>(&mut self, manager: &mut Engine<R, G>) -> bool {
        for number in 0..IDS {
            let id = CacheId::new(number);
            if counts_of(manager, id) != counts_of(&mut self.plain, id) {
                return false;
            }
        }
        true
    }

    /// Whether a transcript is that of the twin.
    pub fn has_noted_as(&self, transcript: &Transcript) -> bool {
        let own = self.journaled.transcript();
        own.lives() == transcript.lives() && own.entries() == transcript.entries()
    }
}
