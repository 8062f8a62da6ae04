//! An event that is made until it is not refused.

use crate::answering::answer_of;
use crate::manager::Manager;
use crate::trouble::Trouble;
use crate::twin::{Twin, share_event};
use jc_model::call::Request;
use jc_model::event::{CacheId, Event, Outcome, Step};
use jc_script::Line;
use std::alloc::Global;

/// An event of a session, and what it came to.
#[derive(Drop)]
pub struct Attempt {
    session: u32,
    /// The cache, where it is one of a call.
    id: CacheId,
    /// An equal second event.
    pub given: Event,
    /// The event, while it was not made.
    event: Option<Event>,
    outcome: Option<Outcome>,
}

/// A call that waits for an answer.
#[derive(Drop)]
pub struct Open {
    session: u32,
    id: CacheId,
    request: Request,
}

/// What a call asks, if it does.
fn request_in(outcome: Option<Outcome>) -> Option<Request> {
    match outcome {
        Some(Outcome::Step(Step::Need(request))) => Some(request),
        other => {
            drop(other);
            None
        }
    }
}

/// An event that was not made yet.
fn prepared(session: u32, id: CacheId, event: Event) -> Result<Attempt, Trouble> {
    match share_event(&event) {
        Ok(given) => Ok(Attempt {
            session,
            id,
            given,
            event: Some(event),
            outcome: None,
        }),
        Err(_) => {
            drop(event);
            Err(Trouble::Memory)
        }
    }
}

/// The answer to a call that waits.
pub fn answering(alloc: Global, open: Open) -> Result<Attempt, Trouble> {
    let (session, id) = (open.session, open.id);
    let answer = answer_of(alloc, &open.request);
    drop(open);
    prepared(session, id, Event::Answer(id, answer?))
}

impl Open {
    /// The end of a call that waits.
    pub fn giving_up(self) -> Result<Attempt, Trouble> {
        let (session, id) = (self.session, self.id);
        drop(self);
        prepared(session, id, Event::GiveUp(id))
    }
}

impl Attempt {
    /// What a line asks for.
    pub fn of_line(line: Line) -> Result<Attempt, Trouble> {
        match line {
            Line::Call(made) => {
                let (session, id, now) = (made.session, made.id, made.at);
                prepared(session, id, Event::Begin(id, now, made.call))
            }
            Line::Create { session, config } => {
                prepared(session, CacheId::new(u32::MAX), Event::Create(config))
            }
            Line::Destroy { session, id } => prepared(session, id, Event::Destroy(id)),
        }
    }

    /// Makes the event, unless memory is refused for it.
    pub fn succeeds<M: Manager>(&mut self, manager: &mut M) -> bool {
        let Some(event) = self.event.take() else {
            return false;
        };
        match manager.make(self.session, event) {
            Ok(outcome) => {
                drop(self.outcome.replace(outcome));
                true
            }
            Err(back) => {
                drop(self.event.replace(back));
                false
            }
        }
    }

    /// Whether the event was handed back as it was given.
    pub fn is_back(&self) -> bool {
        match &self.event {
            Some(event) => *event == self.given,
            None => false,
        }
    }

    /// Whether it came to what it comes to with a twin.
    pub fn comes_as(&self, twin: &mut Twin) -> Result<bool, Trouble> {
        match &self.outcome {
            Some(outcome) => twin.makes(self.session, &self.given, outcome),
            None => Ok(false),
        }
    }

    /// The call that it leaves open, if it does.
    pub fn into_open(self) -> Option<Open> {
        let Attempt {
            session,
            id,
            given,
            event,
            outcome,
        } = self;
        drop(given);
        drop(event);
        match request_in(outcome) {
            Some(request) => Some(Open {
                session,
                id,
                request,
            }),
            None => None,
        }
    }
}
