//! Many events one after the other, and what each cache sees of them.
ghost use Rattle.std.specs.Prelude.{◌≡◌, ℕ, Some, true, false, IfOk, IfErr, OnErr};
ghost use Rattle.jc_model.specs.declared.config.CacheConfig.{CacheConfig};
ghost use Rattle.jc_model.specs.Runs.{for_memory, IsRun, opened};
ghost use Rattle.jc_model.specs.Solo.{status_at_start, own_calls, seen_of, solo};
ghost use Rattle.jc_engine.specs.Caches.{lives_of};
ghost use Rattle.jc_engine.specs.Free.{takes_none, FreeAreHeard};
ghost use Rattle.jc_engine.specs.Heard.{IsAnswer, LeadsTo, RunLeadsTo};

use crate::engine::Engine;
use jc_model::event::{Event, Outcome};
use jc_ring::ring::Ring;
use jc_rows::rows::Rows;

impl<R: Rows, G: Ring> Engine<R, G> {
    /// The events one after the other, each with its outcome. What is seen of a cache that was not yet used at first,
    /// or that one of the events creates, is what its own calls alone give for its configuration, each in one stroke,
    /// up to its destruction if there is one, however other caches come, go and use the table.
    ///
    /// An event that takes no memory is not refused for want of it. The run is refused only for want of room for the
    /// outcomes, before the first event; the events are then handed back.
    pub fn run(&mut self, events: Vec<Event>) -> Result<Vec<Outcome>, Vec<Event>>
        ensures outcomes { IfOk result (λ outcomes.
            IsRun (lives_of self.old) events.items outcomes.items) }
        ensures lives { IfOk result (λ outcomes.
            RunLeadsTo self.old events.items outcomes.items self.new) }
        ensures alone { IfOk result (λ outcomes. (id : ℕ) (c : CacheConfig)
            → status_at_start id (lives_of self.old) events.items outcomes.items ≡ Some (opened c)
            → seen_of id (lives_of self.old) events.items outcomes.items (lives_of self.new)
            ≡ Some (solo c (own_calls id (lives_of self.old) events.items outcomes.items))) }
        ensures free { IfOk result (λ outcomes. FreeAreHeard events.items outcomes.items) }
        ensures back { IfErr result (λ back. back.items ≡ events.items) }
        ensures refused { OnErr result (self.new ≡ self.old) }
    {
        let mut outcomes = match Vec::with_capacity(self.alloc, events.len()) {
            Ok(outcomes) => outcomes,
            Err(_) => return Err(events),
        };
        let mut left = events.into_iter();
        while let Some(event) = left.next() {
            let outcome = self.take(event);
            outcomes.push_reserved(outcome);
        }
        Ok(outcomes)
    }

    /// One event.
    fn take(&mut self, event: Event) -> Outcome
        ensures outcome { IsAnswer self.old event result }
        ensures lives { LeadsTo self.old event result self.new }
        ensures free { takes_none event ≡ true → for_memory result ≡ false }
    {
        match event {
            Event::Begin(id, now, call) => match self.begin(id, now, call) {
                Ok(step) => Outcome::Step(step),
                Err((cause, call)) => {
                    drop(call);
                    Outcome::Refused(cause)
                }
            },
            Event::Answer(id, answer) => match self.resume(id, answer) {
                Ok(step) => Outcome::Step(step),
                Err((cause, answer)) => {
                    drop(answer);
                    Outcome::Refused(cause)
                }
            },
            Event::GiveUp(id) => match self.give_up(id) {
                Ok(notices) => Outcome::GivenUp(notices),
                Err(cause) => Outcome::Refused(cause),
            },
            Event::Create(config) => match self.create(config) {
                Ok(id) => Outcome::Created(id),
                Err((refusal, config)) => {
                    drop(config);
                    Outcome::CreateRefused(refusal)
                }
            },
            Event::Destroy(id) => match self.destroy(id) {
                Ok(()) => Outcome::Destroyed,
                Err(cause) => Outcome::Refused(cause),
            },
        }
    }
}
