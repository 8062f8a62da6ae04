//! An open call: for what it waits, and what it has come to.
ghost use Rattle.std.specs.Prelude.{◌≡◌};
ghost use Rattle.jc_engine.specs.Managed.{is_replied, step_of};

use jc_bulk::waits::Suspended;
use jc_model::call::{Reply, Request};
use jc_model::event::Step;
use jc_model::owners::Owners;
use jc_ops::notices::Notices;
use std::marker::Model;

/// A call that waits for an answer, with its notices so far.
#[derive(Drop)]
pub(crate) struct WaitingCall {
    pub(crate) suspended: Suspended,
    pub(crate) notices: Notices,
}

impl Model for WaitingCall {
    ghost use Rattle.jc_engine.specs.Waiting.{WaitState};

    ghost Value = { WaitState };

    ghost view = { λ w. record { call = w.suspended; told = w.notices.told } };
}

/// Whether a call is open, and for what it waits.
#[derive(Drop)]
pub(crate) enum Turn {
    Idle,
    Waiting(WaitingCall),
    /// Its notices are being told; then this is its reply.
    Telling(Owners<Reply>),
}

/// What an open call has come to: its step, with the copies that a transcript needs.
#[derive(Drop)]
pub enum EngineStep {
    Replied(Owners<Reply>),
    Asked(Request),
    Told(Notices),
}

impl EngineStep {
    /// Whether the call has ended with its reply.
    pub fn is_replied(&self) -> bool
        ensures { result ≡ is_replied self.now }
    {
        matches!(self, EngineStep::Replied(_))
    }

    /// The step alone; the copies are let go.
    pub(crate) fn into_step(self) -> Step
        ensures { result ≡ step_of self }
    {
        match self {
            EngineStep::Replied(reply) => Step::Done(reply.into_first()),
            EngineStep::Asked(request) => Step::Need(request),
            EngineStep::Told(notices) => Step::Need(Request::Tell(notices.into_lists().0)),
        }
    }
}
