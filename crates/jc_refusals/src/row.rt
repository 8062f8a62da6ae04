//! A row of events, each made with no memory at first, and then again with ever a little more of it, until it is not
//! refused: so that of the allocations that it makes one after the other is the first that is refused.

use crate::attempt::{Attempt, Open, answering};
use crate::manager::Manager;
use crate::memory::{MOST_LEFT, Memory, STEP};
use crate::trouble::Trouble;
use crate::twin::{IDS, Twin};
use jc_model::config::CacheConfig;
use jc_model::event::{CacheId, Event};
use jc_model::key::Key;
use jc_model::share::share_all;
use jc_script::Line;
use std::alloc::Global;

/// The table that a manager opens over takes memory for tags and for cells.
const LEAST_OPENINGS: u32 = 2;

/// A call asks no more often than this.
const MOST_REQUESTS: u32 = 16;

/// Keys that are looked up after each refusal.
static KEYS: [&str; 12] = [
    "a", "b", "c", "e", "k", "x", "y", "z", "!b", "-b", "!d", "none",
];

/// Moments at which they are looked up.
static MOMENTS: [u64; 4] = [0, 5, 10, 1_000_000];

/// When a call that asks goes on.
#[derive(Clone, Copy, Debug, PartialEq, Eq)]
pub enum Ends {
    /// At once.
    AtOnce,
    /// Behind the last line.
    Last,
    /// At once, but only its first request is answered, and then it is given up.
    GivenUp,
}

/// The keys that are looked up.
fn keys(alloc: Global) -> Result<Vec<Key>, Trouble> {
    let mut keys = Vec::new(alloc);
    for text in &KEYS {
        let Ok(key) = Key::from_text(text) else {
            return Err(Trouble::Unread);
        };
        keys.push(key)?;
    }
    Ok(keys)
}

/// A manager and its twin.
#[derive(Drop)]
pub struct Row<M> {
    alloc: Global,
    manager: M,
    twin: Twin,
    keys: Vec<Key>,
    /// The call that waits, if one does.
    open: Option<Open>,
    /// How many events were refused, each at least once.
    refused: u32,
}

/// So many copies of configurations.
fn copies(
    alloc: Global,
    count: usize,
    configs: &[CacheConfig],
) -> Result<Vec<Vec<CacheConfig>>, Trouble> {
    let mut copies = Vec::new(alloc);
    for _ in 0..count {
        copies.push(share_all(alloc, configs)?)?;
    }
    Ok(copies)
}

/// A manager with the caches of one of these copies. Its opening is refused in turn.
fn opened<M: Manager>(
    alloc: Global,
    memory: &mut Memory,
    copies: Vec<Vec<CacheConfig>>,
) -> Result<M, Trouble> {
    let (mut bytes, mut refusals) = (0usize, 0u32);
    for configs in copies {
        memory.leave(bytes)?;
        if let Some(manager) = M::open(alloc, configs)? {
            memory.see_refused(refusals, LEAST_OPENINGS)?;
            return Ok(manager);
        }
        bytes = bytes.saturating_add(STEP);
        refusals = refusals.saturating_add(1);
    }
    Err(Trouble::StillRefused)
}

impl<M: Manager> Row<M> {
    /// A manager and its twin with these caches, after all memory has been taken.
    pub fn open(
        alloc: Global,
        memory: &mut Memory,
        configs: &[CacheConfig],
    ) -> Result<Row<M>, Trouble> {
        let keys = keys(alloc)?;
        let twin = Twin::open(alloc, configs)?;
        let copies = copies(alloc, memory.most_tries(), configs)?;
        memory.take_all()?;
        let manager = opened(alloc, memory, copies)?;
        Ok(Row {
            alloc,
            manager,
            twin,
            keys,
            open: None,
            refused: 0,
        })
    }

    /// Whether a cache has live rows of the keys that its twin has, at each of some moments.
    fn has_same_rows(&self, id: CacheId) -> bool {
        for key in &self.keys {
            for now in &MOMENTS {
                if self.manager.has(id, key, *now) != self.twin.has(id, key, *now) {
                    return false;
                }
            }
        }
        true
    }

    /// Whether all is as it is with the twin, which has made the events so far.
    fn is_as_before(&mut self) -> bool {
        for number in 0..IDS {
            if !self.has_same_rows(CacheId::new(number)) {
                return false;
            }
        }
        self.manager.names() == self.twin.names() && self.manager.tells_as(&mut self.twin)
    }

    /// Sees that a refused event is handed back as it was given, and has changed nothing.
    fn see_refused(&mut self, attempt: &Attempt) -> Result<(), Trouble> {
        if M::takes_none(&attempt.given) {
            return Err(Trouble::TakesMemory);
        }
        if !attempt.is_back() {
            return Err(Trouble::HandedBackAnother);
        }
        if self.is_as_before() {
            Ok(())
        } else {
            Err(Trouble::Changed)
        }
    }

    /// Makes an event, with ever more memory until it is not refused.
    fn insist(&mut self, memory: &mut Memory, attempt: &mut Attempt) -> Result<(), Trouble> {
        for bytes in (0..MOST_LEFT).step_by(STEP) {
            memory.leave(bytes)?;
            if attempt.succeeds(&mut self.manager) {
                return Ok(());
            }
            self.see_refused(attempt)?;
            if bytes == 0 {
                self.refused = self.refused.saturating_add(1);
            }
        }
        Err(Trouble::StillRefused)
    }

    /// Makes an event, which comes to what it comes to with the twin. Enough memory is left then.
    fn make(&mut self, memory: &mut Memory, attempt: &mut Attempt) -> Result<(), Trouble> {
        self.insist(memory, attempt)?;
        memory.leave_enough()?;
        if attempt.comes_as(&mut self.twin)? {
            Ok(())
        } else {
            Err(Trouble::CameToAnother)
        }
    }

    /// Makes an event where there is one, and keeps what it asks.
    fn carry_out(
        &mut self,
        memory: &mut Memory,
        attempt: Result<Attempt, Trouble>,
    ) -> Result<(), Trouble> {
        match attempt {
            Ok(mut attempt) => {
                let made = self.make(memory, &mut attempt);
                if let Some(open) = attempt.into_open() {
                    drop(self.open.replace(open));
                }
                made
            }
            Err(trouble) => Err(trouble),
        }
    }

    /// Answers the call that waits.
    fn answer(&mut self, memory: &mut Memory) -> Result<(), Trouble> {
        match self.open.take() {
            Some(open) => self.carry_out(memory, answering(self.alloc, open)),
            None => Ok(()),
        }
    }

    /// Answers the call that waits until it ends.
    fn end(&mut self, memory: &mut Memory) -> Result<(), Trouble> {
        for _ in 0..MOST_REQUESTS {
            if self.open.is_none() {
                return Ok(());
            }
            self.answer(memory)?;
        }
        Err(Trouble::CameToAnother)
    }

    /// Answers the call that waits once, and gives it up where it waits again.
    fn give_up(&mut self, memory: &mut Memory) -> Result<(), Trouble> {
        self.answer(memory)?;
        match self.open.take() {
            Some(open) => self.carry_out(memory, open.giving_up()),
            None => Ok(()),
        }
    }

    /// Does what a line asks for.
    fn obey(&mut self, memory: &mut Memory, line: Line, ends: Ends) -> Result<(), Trouble> {
        self.carry_out(memory, Attempt::of_line(line))?;
        match ends {
            Ends::AtOnce => self.end(memory),
            Ends::GivenUp => self.give_up(memory),
            Ends::Last => Ok(()),
        }
    }

    /// Plays lines.
    pub fn play(
        &mut self,
        memory: &mut Memory,
        lines: Vec<Line>,
        ends: Ends,
    ) -> Result<(), Trouble> {
        let mut played = memory.leave_enough();
        for line in lines {
            if played.is_ok() {
                played = self.obey(memory, line, ends);
            } else {
                drop(line);
            }
        }
        played?;
        self.end(memory)
    }

    /// Sees that at least one event was refused.
    pub fn see_all(&self, memory: &Memory) -> Result<(), Trouble> {
        memory.see_refused(self.refused, 1)
    }

    /// The manager.
    pub fn into_manager(self) -> M {
        self.manager
    }
}
