//! A journal that keeps the entries of open calls alone. The history of which it tells exists in proofs.
ghost use Rattle.std.specs.Prelude.{◌≡◌, ◌<◌, ◌≤◌, ◌+◌, ◌^◌, false, nat_eq};
ghost use Rattle.std.specs.HashMap.{get, spare};
ghost use Rattle.jc_engine.specs.Changed.{replied_at_once};
ghost use Rattle.jc_engine.specs.RecordedSteps.{reply_in};
ghost use Rattle.jc_engine.specs.Managed.{step_of};
ghost use Rattle.jc_engine.specs.Recording.{CanTell, with_advance, with_entry};
ghost use Rattle.jc_engine.specs.Journals.{CanGoOn, AdvancesEntry, KeepsAll, KeepsLast, KeepsOthers};
ghost use Rattle.jc_engine.specs.Managed.{is_replied};
ghost use Rattle.jc_engine.specs.Opens.{AreOpen, beginning_entry, places_in};

use super::Journal;
use super::change::{CallHeader, Origin};
use super::ghost_history::GhostHistory;
use super::notes::{blank, put_of};
use super::open_call::{OpenCall, add_answer, take_answer, write_given_up, write_outcome};
use crate::turn::EngineStep;
use jc_model::OutOfMemory;
use jc_model::call::{Answer, Call, Notice, Reply};
use jc_model::config::CacheConfig;
use jc_model::event::{CacheId, Entry, Step};
use jc_model::list::Sequence;
use jc_ops::notices::Notices;
use std::alloc::Global;
use std::collections::HashMap;

/// A call that is about to begin.
#[derive(Drop)]
pub struct Beginning {
    alloc: Global,
    origin: Origin,
    call: Call,
}

/// By cache its open call. Of all others memory has a number alone.
#[derive(Drop)]
pub struct OpenCalls {
    past: GhostHistory,
    /// How many calls have begun.
    begun: usize,
    waiting: HashMap<u32, OpenCall>,
    ghost are_open: { AreOpen past.history begun (get nat_eq waiting) },
}

impl OpenCalls {
    /// A call has begun, and had this reply at once. Nothing of it is kept.
    fn push_replied(&mut self, begun: CallHeader, reply: &Reply)
        requires room { self.old.begun + 1 < 2 ^ 64 }
        ensures noted { self.new.past.history ≡
            with_entry (replied_at_once begun reply.now) self.old.past.history }
        ensures waiting { self.new.waiting ≡ self.old.waiting }
    {
        self.past.push_replied(begun, reply);
        self.begun += 1;
    }

    /// A call that has begun goes on. Its entry is kept from now on. Most calls have their reply at once, and are to have
    /// no share in what this needs: so it is no part of `begin`.
    #[inline(never)]
    fn open(&mut self, held: Beginning, advance: EngineStep) -> (Step, Option<Reply>)
        requires room { (1 ≤ spare self.old.waiting) × (self.old.begun + 1 < 2 ^ 64) }
        requires tells { CanTell advance (beginning_entry held) }
        requires waits { is_replied advance ≡ false }
        ensures shown { result.0 ≡ step_of advance }
        ensures copy { result.1 ≡ reply_in result.0 }
        ensures noted { self.new.past.history ≡
            with_entry (with_advance advance (beginning_entry held)) self.old.past.history }
        ensures places { KeepsLast (places_in self.old.waiting) held.origin.id
            self.old.past.history advance (places_in self.new.waiting) }
    {
        let Beginning {
            alloc,
            origin,
            call,
        } = held;
        let id = origin.id;
        let mut entry = blank(alloc, origin, call);
        let shown = write_outcome(&mut entry, advance);
        self.past.push(&entry);
        let place = self.begun;
        self.begun += 1;
        put_of(&mut self.waiting, id, OpenCall { place, entry });
        shown
    }

    /// A call that goes on has come to this.
    fn wait(&mut self, id: CacheId, advance: EngineStep) -> (Step, Option<Reply>)
        requires kept { CanGoOn self.old.past.history (places_in self.old.waiting) id advance }
        requires waits { is_replied advance ≡ false }
        ensures shown { result.0 ≡ step_of advance }
        ensures copy { result.1 ≡ reply_in result.0 }
        ensures noted { AdvancesEntry self.old.past.history (places_in self.old.waiting) id advance
            self.new.past.history }
        ensures places { KeepsAll (places_in self.old.waiting) (places_in self.new.waiting) }
    {
        let number = id.number();
        match self.waiting.get_mut(&number) {
            Some(call) => {
                let shown = write_outcome(&mut call.entry, advance);
                self.past.set(call.place, &call.entry);
                shown
            }
            None => unreachable!(),
        }
    }

    /// A call has ended with this reply. Its entry is let go.
    fn end(&mut self, id: CacheId, advance: EngineStep) -> (Step, Option<Reply>)
        requires kept { CanGoOn self.old.past.history (places_in self.old.waiting) id advance }
        ensures shown { result.0 ≡ step_of advance }
        ensures copy { result.1 ≡ reply_in result.0 }
        ensures noted { AdvancesEntry self.old.past.history (places_in self.old.waiting) id advance
            self.new.past.history }
        ensures places { KeepsOthers (places_in self.old.waiting) id (places_in self.new.waiting) }
    {
        let number = id.number();
        let Some(mut call) = self.waiting.remove(&number) else {
            unreachable!()
        };
        let shown = write_outcome(&mut call.entry, advance);
        self.past.set(call.place, &call.entry);
        drop(call);
        shown
    }
}

impl Journal for OpenCalls {
    ghost history = { λ j. j.past.history };

    ghost places = { λ j. places_in j.waiting };

    type Held = Beginning;

    ghost Enters = { λ h j held e. (j.past.history ≡ h) × (e ≡ beginning_entry held) × (1 ≤ spare j.waiting) × (j.begun + 1 < 2 ^ 64) };

    ghost Notes = { λ j. j.begun + 1 < 2 ^ 64 };

    fn new(alloc: Global) -> OpenCalls {
        OpenCalls {
            past: GhostHistory::new(),
            begun: 0,
            waiting: HashMap::new(alloc),
        }
    }

    fn open_entry(&self, id: CacheId) -> Option<&Entry> {
        let number = id.number();
        match self.waiting.get(&number) {
            Some(call) => Some(&call.entry),
            None => None,
        }
    }

    fn notes(&self) -> bool {
        self.begun < usize::MAX
    }

    fn note(&mut self, begun: CallHeader, reply: &Reply) -> bool {
        if self.begun == usize::MAX {
            return false;
        }
        self.push_replied(begun, reply);
        true
    }

    fn enter(&mut self, alloc: Global, origin: Origin, call: Call) -> Result<Beginning, Call> {
        if !self.notes() || self.waiting.reserve(1).is_err() {
            return Err(call);
        }
        Ok(Beginning {
            alloc,
            origin,
            call,
        })
    }

    fn call<'a>(&'a self, held: &'a Beginning) -> &'a Call {
        &held.call
    }

    fn take_back(&mut self, held: Beginning) -> Call {
        held.call
    }

    #[inline(always)]
    fn begin(&mut self, held: Beginning, advance: EngineStep) -> (Step, Option<Reply>) {
        match advance {
            EngineStep::Replied(reply) => {
                self.push_replied(CallHeader::of(held.origin, &held.call), reply.first());
                let (reply, copy, kept) = reply.into_three();
                drop((held, kept));
                (Step::Done(reply), Some(copy))
            }
            goes_on => self.open(held, goes_on),
        }
    }

    fn answer(&mut self, id: CacheId, answer: &Answer) -> Result<(), OutOfMemory> {
        let number = id.number();
        match self.waiting.get_mut(&number) {
            Some(call) => {
                add_answer(&mut call.entry, answer)?;
                self.past.set(call.place, &call.entry);
                Ok(())
            }
            None => unreachable!(),
        }
    }

    fn take_answer(&mut self, id: CacheId) {
        let number = id.number();
        match self.waiting.get_mut(&number) {
            Some(call) => {
                take_answer(&mut call.entry);
                self.past.set(call.place, &call.entry);
            }
            None => unreachable!(),
        }
    }

    fn go_on(&mut self, id: CacheId, advance: EngineStep) -> (Step, Option<Reply>) {
        if advance.is_replied() {
            self.end(id, advance)
        } else {
            self.wait(id, advance)
        }
    }

    fn give_up(&mut self, id: CacheId, left: Option<Notices>) -> Sequence<Notice> {
        let number = id.number();
        let Some(mut call) = self.waiting.remove(&number) else {
            unreachable!()
        };
        let left = write_given_up(&mut call.entry, left);
        self.past.set(call.place, &call.entry);
        drop(call);
        left
    }

    fn create(&mut self, id: CacheId, config: &CacheConfig) -> Result<(), OutOfMemory> {
        self.past.push_life(id, config);
        Ok(())
    }

    fn take_life(&mut self) {
        self.past.pop_life();
    }

    fn destroy(&mut self, id: CacheId) {
        let number = id.number();
        drop(self.waiting.remove(&number));
    }
}
