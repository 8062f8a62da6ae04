//! The manager's calls in two parts: whether they are refused, and the move of one cache. Both the plain manager
//! and the recorded one are made of these.
ghost use Rattle.std.specs.Prelude.{◌≡◌, ◌<◌, ℕ, None, true, false, IsOk, IfSome, IfOk, IfErr, OnOk, OnErr, option_map};
ghost use Rattle.jc_model.specs.declared.event.Event.TheVariants.{Begin, Answer as Answered, GiveUp};
ghost use Rattle.jc_model.specs.declared.call.Reply.TheVariants.{Found};
ghost use Rattle.jc_model.specs.declared.event.Outcome.TheVariants.{Refused};
ghost use Rattle.jc_engine.specs.declared.turn.EngineStep.TheVariants.{Replied};
ghost use Rattle.jc_model.specs.Runs.{answer_to};
ghost use Rattle.jc_model.specs.Run.{fits, for_tell};
ghost use Rattle.jc_model.specs.Places.{at_place};
ghost use Rattle.jc_engine.specs.Caches.{lives_of};
ghost use Rattle.jc_engine.specs.Heard.{IsAnswer, IsFreeAnswer, FreeIsAnswered, FindsValue, IsRefusal, LeadsTo};
ghost use Rattle.jc_engine.specs.Results.{of_found};
ghost use Rattle.jc_engine.specs.Managed.{is_step};
ghost use Rattle.jc_engine.specs.Advances.{outcome_of, of_start, of_abandon, FitsAt, LeavesAt, ClosedAt, ChangesOne, is_open_in};

use crate::engine::Engine;
use crate::turn::EngineStep;
use jc_model::call::{Answer, Call};
use jc_model::event::{CacheId, Cause};
use jc_ops::hit::Owned;
use jc_ops::notices::Notices;
use jc_ring::ring::Ring;
use jc_rows::rows::Rows;

impl<R: Rows, G: Ring> Engine<R, G> {
    /// Whether a call is open.
    pub fn is_open(&self, id: CacheId) -> bool
        ensures { result ≡ is_open_in (at_place self.now id) }
    {
        match self.find(id) {
            Some(cache) => cache.is_open(),
            None => false,
        }
    }

    /// The first cache whose call is open, if any is.
    pub fn open_call(&self) -> Option<CacheId>
        ensures none { result ≡ None → (id : ℕ) → is_open_in (at_place self.now id) ≡ false }
        ensures some { IfSome result (λ id. is_open_in (at_place self.now id) ≡ true) }
        ensures first { IfSome result (λ id.
            (earlier : ℕ) → earlier < id → is_open_in (at_place self.now earlier) ≡ false) }
    {
        let numbers = self.roster.numbers();
        for number in numbers {
            let id = CacheId::new(*number);
            if self.is_open(id) {
                return Some(id);
            }
        }
        None
    }

    /// Why a call can't begin now, where memory suffices.
    pub fn begin_refusal(&self, id: CacheId, call: &Call) -> Option<Cause>
        ensures { (now : ℕ) → IsRefusal self.now (Begin id now call.now) result }
    {
        match self.find(id) {
            Some(cache) => cache.begin_refusal(call),
            None => Some(Cause::NoSuchCache),
        }
    }

    /// Why an answer is refused now, where memory suffices.
    pub fn resume_refusal(&self, id: CacheId, answer: &Answer) -> Option<Cause>
        ensures { IsRefusal self.now (Answered id answer.now) result }
    {
        match self.find(id) {
            Some(cache) => cache.resume_refusal(answer),
            None => Some(Cause::NoSuchCache),
        }
    }

    /// Why a call does not begin for which memory was refused: what comes before that, or that.
    pub fn begin_refusal_without_memory(&self, id: CacheId, call: &Call) -> Cause
        ensures { (now : ℕ) → IsAnswer self.now (Begin id now call.now) (Refused result) }
    {
        match self.begin_refusal(id, call) {
            Some(cause) => cause,
            None => Cause::OutOfMemory,
        }
    }

    /// What a call answers at once, as a cache's own `get_at_once`; else nothing has changed.
    pub fn get_at_once<V: Owned>(&mut self, id: CacheId, now: u64, call: &Call) -> Option<Option<V>>
        ensures outcome { IfSome result (λ found.
            FindsValue self.old id now call.now (option_map V.value found)) }
        ensures lives { IfSome result (λ found. LeadsTo self.old
            (Begin id now call.now) (of_found (option_map V.value found)) self.new) }
        ensures one { IfSome result (λ found. ChangesOne self.old id self.new) }
        ensures fits { IfSome result (λ found.
            FitsAt (Replied (Found (option_map V.value found))) (at_place self.new id)) }
        ensures same { result ≡ None → self.new ≡ self.old }
    {
        if !matches!(call, Call::Get(_)) {
            return None;
        }
        self.visit.set_moment(now);
        match self.caches.get_mut(&id.number()) {
            Some(cache) => cache.get_at_once(&mut self.visit, call),
            None => None,
        }
    }

    /// Begins a call. Refused as the manager's `begin`, before any change.
    pub fn start(&mut self, id: CacheId, now: u64, call: &Call) -> Result<EngineStep, Cause>
        ensures outcome { IsAnswer self.old (Begin id now call.now) (of_start result) }
        ensures lives { LeadsTo self.old (Begin id now call.now) (of_start result) self.new }
        ensures one { OnOk result (ChangesOne self.old id self.new) }
        ensures fits { IfOk result (λ advance. FitsAt advance (at_place self.new id)) }
        ensures free { FreeIsAnswered self.old (Begin id now call.now) (of_start result) }
        ensures refused { OnErr result (self.new ≡ self.old) }
    {
        self.visit.set_moment(now);
        match self.caches.get_mut(&id.number()) {
            Some(cache) => cache.start(&mut self.visit, call),
            None => Err(Cause::NoSuchCache),
        }
    }

    /// Goes on with the open call. Only memory can refuse it, before any change.
    pub fn go_on(&mut self, id: CacheId, answer: Answer) -> Result<EngineStep, Answer>
        requires { is_step (answer_to (lives_of self.old) (Answered id answer) false) ≡ true }
        ensures outcome { IsAnswer self.old (Answered id answer) (outcome_of result) }
        ensures lives { LeadsTo self.old (Answered id answer) (outcome_of result) self.new }
        ensures one { ChangesOne self.old id self.new }
        ensures fits { IfOk result (λ advance. FitsAt advance (at_place self.new id)) }
        ensures back { IfErr result (λ back. back ≡ answer) }
        ensures told { fits for_tell answer ≡ true → IsOk result }
        ensures refused { OnErr result (self.new ≡ self.old) }
    {
        match self.caches.get_mut(&id.number()) {
            Some(cache) => cache.go_on(&mut self.visit, answer),
            None => unreachable!(),
        }
    }

    /// Ends the open call without a reply, and hands out the notices that no one was told, if any may be left.
    pub fn abandon(&mut self, id: CacheId) -> Result<Option<Notices>, Cause>
        ensures outcome { IsFreeAnswer self.old (GiveUp id) (of_abandon result) }
        ensures lives { LeadsTo self.old (GiveUp id) (of_abandon result) self.new }
        ensures one { OnOk result (ChangesOne self.old id self.new) }
        ensures closed { OnOk result (ClosedAt (at_place self.new id)) }
        ensures left { IfOk result (λ left. LeavesAt (at_place self.old id) left) }
        ensures refused { OnErr result (self.new ≡ self.old) }
    {
        let Some(cache) = self.caches.get_mut(&id.number()) else {
            return Err(Cause::NoSuchCache);
        };
        cache.abandon()
    }
}
