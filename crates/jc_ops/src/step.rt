//! One key's step as a machine: it ends with its reply, or waits for the answer to one request.
//!
//! A step changes nothing before its writer has agreed: while it waits, the cache has only lost the key's expired row.
mod change;
mod invoke;
mod line;
pub mod reply;
mod request;

ghost use Rattle.std.specs.Prelude.{◌≡◌, true, option_map};
ghost use Rattle.jc_model.specs.Run.{ended};
ghost use Rattle.jc_ops.specs.Kept.{FoundRow};
ghost use Rattle.jc_ops.specs.Visited.{SpendsAtMost, progress_in};
ghost use Rattle.jc_ops.specs.Given.{loaded_in, verdict_in};
ghost use Rattle.jc_ops.specs.Lines.{asks_no_one};
ghost use Rattle.jc_ops.specs.Supply.{CoversIn, CoversAnswerIn, HasPlacesFor, HasRoomFor};
ghost use Rattle.jc_ops.specs.Supply.{HasRoomAt, most_told_in};
ghost use Rattle.jc_ops.specs.Stepped.{StepsFrom, StaysAt, WaitsIn};
ghost use Rattle.jc_ops.specs.Stepped.{step_run, answer_run};

use crate::step::change::end;
use crate::step::invoke::answer_invoke;
use crate::step::line::{answer_line, begin};
use crate::step::request::first_request;
use crate::supply::Supply;
use crate::visit::Visit;
use jc_model::call::{Answer, KeyCall, Op, Reply, Request, Verdict};
use jc_model::owners::Owners;
use jc_model::value::Value;
use jc_ring::ring::Ring;
use jc_rows::rows::Rows;
use std::marker::Model;

/// A key's step that waits, with what it was given so far.
#[derive(Drop)]
pub struct KeyStep {
    now: u64,
    call: KeyCall,
    /// What the loader gave, where it was asked for a processor and has answered.
    loaded: Option<Option<Value>>,
    /// What the processor decided, where it has answered.
    verdict: Option<Verdict>,
}

impl Model for KeyStep {
    ghost use Rattle.std.specs.Prelude.{◌≡◌, false, []};
    ghost use Rattle.jc_model.specs.Suspended.{KeyWait};
    ghost use Rattle.jc_ops.specs.Given.{given_by};
    ghost use Rattle.jc_ops.specs.Lines.{is_invoke};

    ghost Value = { KeyWait };

    ghost view = { λ s.
        record { now = s.now; call = s.call; given = given_by s.loaded s.verdict } };

    ghost invariant = { λ s. is_invoke s.call.op ≡ false → given_by s.loaded s.verdict ≡ [] };
}

/// What a step or a call has come to: it has ended with its reply, or its next request is to be answered, and this
/// waits for the answer.
#[derive(Drop)]
pub enum Next<W, E = Owners<Reply>> {
    Ended(E),
    Waiting(Request, W),
}

impl KeyStep {
    /// The moment of its call.
    pub fn now(&self) -> u64
        ensures { result ≡ self.entry.now.now }
    {
        self.now
    }

    /// The key's call.
    pub fn call(&self) -> &KeyCall
        ensures { result.now ≡ self.entry.now.call }
    {
        &self.call
    }

    /// The value that the loader gave for a processor, if it was asked and gave one.
    pub fn loaded(&self) -> Option<&Value>
        ensures { option_map (λ v. v.now) result ≡ loaded_in self.entry.now.given }
    {
        match &self.loaded {
            Some(Some(value)) => Some(value),
            _ => None,
        }
    }

    /// What the processor decided, where it has answered.
    pub fn verdict(&self) -> Option<&Verdict>
        ensures { option_map (λ v. v.now) result ≡ verdict_in self.entry.now.given }
    {
        self.verdict.as_ref()
    }

    /// Begins a step. It takes no memory beside its supply, and so can't be refused.
    pub fn start<R: Rows, G: Ring>(
        visit: &mut Visit<R, G>,
        call: KeyCall,
        supply: Supply,
    ) -> Next<KeyStep>
        requires row { FoundRow call.key visit.old.cache supply.row }
        requires places { HasPlacesFor call visit.old }
        requires covered { CoversIn visit.old.cache.config.writer visit.old call supply.values }
        requires room { HasRoomFor call visit.old }
        ensures spends { SpendsAtMost 1 (most_told_in visit.old call) visit.old visit.new }
        ensures next { StepsFrom visit.old (step_run visit.old call) result visit.new }
        ensures call_stays { StaysAt visit.old.moment call result }
    {
        let mut supply = supply;
        let line = begin(visit, &call, &mut supply);
        let copy = supply.values.copy.take();
        let entry = supply.values.entry.take();
        match first_request(visit.config(), &call, line.asks, copy, entry) {
            Some(request) => {
                drop(supply);
                let step = KeyStep {
                    now: visit.moment(),
                    call,
                    loaded: None,
                    verdict: None,
                };
                Next::Waiting(request, step)
            }
            None => Next::Ended(end(visit, &call.key, line, supply)),
        }
    }

    /// The same of a step that asks no one, and so ends: its reply.
    pub fn end_at_once<R: Rows, G: Ring>(
        visit: &mut Visit<R, G>,
        call: KeyCall,
        supply: Supply,
    ) -> Owners<Reply>
        requires row { FoundRow call.key visit.old.cache supply.row }
        requires places { HasPlacesFor call visit.old }
        requires covered { CoversIn visit.old.cache.config.writer visit.old call supply.values }
        requires room { HasRoomFor call visit.old }
        requires unasked { asks_no_one visit.old.cache.config call.op ≡ true }
        ensures spends { SpendsAtMost 1 (most_told_in visit.old call) visit.old visit.new }
        ensures ended { step_run visit.old call ≡ ended (progress_in visit.new) result }
    {
        let mut supply = supply;
        let line = begin(visit, &call, &mut supply);
        end(visit, &call.key, line, supply)
    }

    /// Goes on with the answer to the request for which the step waits. It takes no memory beside its supply, and so
    /// can't be refused. No row number is kept while a step waits.
    pub fn answer<R: Rows, G: Ring>(
        self,
        visit: &mut Visit<R, G>,
        answer: Answer,
        supply: Supply,
    ) -> Next<KeyStep>
        requires row { FoundRow self.call.key visit.old.cache supply.row }
        requires places { HasPlacesFor self.call visit.old }
        requires waits { WaitsIn visit.old self }
        requires covered { CoversAnswerIn visit.old self answer supply.values }
        requires room { HasRoomAt self answer visit.old }
        ensures spends { SpendsAtMost 1 (most_told_in visit.old self.call) visit.old visit.new }
        ensures next { StepsFrom visit.old (answer_run visit.old self answer) result visit.new }
        ensures call_stays { StaysAt visit.old.moment self.call result }
    {
        match &self.call.op {
            Op::Invoke { processor, .. } => {
                let processor = *processor;
                answer_invoke(visit, self, processor, answer, supply)
            }
            _ => {
                let next = answer_line(visit, &self.call, &answer, supply);
                drop((self, answer));
                next
            }
        }
    }
}
