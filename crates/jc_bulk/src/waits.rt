//! A call that waits for the answer to one request.
ghost use Rattle.std.specs.Prelude.{◌≡◌, IfSome};
ghost use Rattle.jc_model.specs.Run.{awaited_by, fits};
ghost use Rattle.jc_bulk.specs.Ahead.{IsAheadOf, waits_of};
ghost use Rattle.jc_bulk.specs.Waits.{moment_of};

use crate::bulk::Ahead;
use crate::call::CallNext;
use jc_model::call::{Answer, Request};
use jc_ops::step::{KeyStep, Next};
use std::marker::Model;

/// What kind of answer a suspended call awaits.
#[derive(Drop)]
pub enum Awaits {
    Load,
    Write,
    Process,
    Tell,
}

/// A call that waits for the answer to one request: the step that waits, and those after it.
#[derive(Drop)]
pub struct Suspended {
    pub(crate) step: KeyStep,
    /// None where the call is on this one key: its reply is the step's own.
    pub(crate) ahead: Option<Ahead>,
    pub(crate) kind: Awaits,
}

impl Model for Suspended {
    ghost use Rattle.std.specs.Prelude.{IfSome};
    ghost use Rattle.jc_bulk.specs.Ahead.{IsAheadOf, waits_of};
    ghost use Rattle.jc_bulk.specs.Waits.{Waits, awaited};

    ghost Value = { Waits };

    ghost view = { λ s. waits_of (awaited s.kind) s.step s.ahead };

    ghost invariant = { λ s. IfSome s.ahead (IsAheadOf s.step.call.key) };
}

/// A call whose step waits with this request.
pub(crate) fn suspend(request: Request, step: KeyStep, ahead: Option<Ahead>) -> CallNext
    requires { IfSome ahead (IsAheadOf step.call.key) }
    ensures { result ≡ Next.Waiting request (waits_of (awaited_by request) step ahead) }
{
    let kind = match &request {
        Request::Load(_) => Awaits::Load,
        Request::Write(_, _) | Request::Delete(_) => Awaits::Write,
        Request::Process { .. } => Awaits::Process,
        Request::Tell(_) => Awaits::Tell,
    };
    Next::Waiting(request, Suspended { step, ahead, kind })
}

impl Suspended {
    /// Whether an answer is of the awaited kind.
    pub fn awaits(&self, answer: &Answer) -> bool
        ensures { result ≡ fits self.now.awaits answer.now }
    {
        match self.kind {
            Awaits::Load => matches!(answer, Answer::Loaded(_) | Answer::LoadFailed),
            Awaits::Write => matches!(answer, Answer::Written | Answer::WriteFailed),
            Awaits::Process => matches!(answer, Answer::Processed(_)),
            Awaits::Tell => matches!(answer, Answer::Told),
        }
    }

    /// The moment of its call.
    pub fn moment(&self) -> u64
        ensures { result ≡ moment_of self.now.wait }
    {
        self.step.now()
    }
}
