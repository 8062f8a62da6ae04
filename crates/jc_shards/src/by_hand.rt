//! Calls whose requests their callers answer, of caches in one manager or in several.
use crate::caches::Caches;
use crate::pair::Pair;
use crate::shard::Shard;
use crate::side::Side;
use jc_model::call::{Answer, Call, Notice, Request};
use jc_model::event::CacheId;
use jc_model::list::Sequence;
use jc_shared::{AnswerFault, CallFault, Name, PendingCall, Progress};
use std::sync::Wait;

/// Caches whose managers keep their open calls alone: a call may be taken step by step, each request handed out and its
/// answer handed in.
pub trait CallsByHand: Caches {
    ghost use Rattle.std.specs.Prelude.{◌≡◌, ℕ, List, Result};
    ghost use Rattle.jc_model.specs.declared.call.Answer.{Answer as Answered};
    ghost use Rattle.jc_model.specs.declared.call.Call.{Call as Called};
    ghost use Rattle.jc_model.specs.declared.call.Notice.{Notice as Told};
    ghost use Rattle.jc_model.specs.declared.call.Request.{Request as Requested};
    ghost use Rattle.jc_locked.specs.declared.fault.AnswerFault.{AnswerFault as NotAnswered};
    ghost use Rattle.jc_locked.specs.declared.fault.CallFault.{CallFault as NotCalled};
    ghost use Rattle.jc_shared.specs.declared.pending.Progress.{Progress as Brought};

    /// A call that waits for its answer. It is not `Drop`, so a program that loses one does not compile.
    type Pending;

    /// What such a call asks.
    ghost asks: { Self.Pending → Requested };

    /// Of a call that begins: the caller before and after, the cache, the moment, the call, and what it came to.
    ghost Begins: { Self → Self → Self.Id → ℕ → Called → Result (Brought Self.Pending) (NotCalled × Called) → Type 0 };

    /// Of a call that goes on: the caller before and after, the call, the answer, and what it came to.
    ghost Resumes: { Self → Self → Self.Pending → Answered → Result (Brought Self.Pending) (NotAnswered × Self.Pending × Answered) → Type 0 };

    /// Of a call that is given up: the caller before and after, the call, and the notices that are left.
    ghost GivesUp: { Self → Self → Self.Pending → Result (List Told) NotCalled → Type 0 };

    /// What a call waits for.
    fn request(pending: &Self::Pending) -> &Request
        ensures { result.now ≡ asks pending.now };

    /// Begins a call on a cache at a moment, as `Session::begin`.
    fn begin<R: Wait>(
        &mut self,
        rt: &R,
        id: Self::Id,
        now: u64,
        call: Call,
    ) -> Result<Progress<Self::Pending>, (CallFault, Call)>
        ensures { Begins self.old self.new id now call result };

    /// Hands a call the answer to its request, as `Session::resume`.
    fn resume<R: Wait>(
        &mut self,
        rt: &R,
        pending: Self::Pending,
        answer: Answer,
    ) -> Result<Progress<Self::Pending>, (AnswerFault, Self::Pending, Answer)>
        ensures { Resumes self.old self.new pending answer result };

    /// Ends a call without a reply, as `Session::give_up`. The result is the notices that no one was told.
    fn give_up<R: Wait>(
        &mut self,
        rt: &R,
        pending: Self::Pending,
    ) -> Result<Sequence<Notice>, CallFault>
        ensures { GivesUp self.old self.new pending result };
}

impl<'a, N: Name> CallsByHand for Shard<'a, N> {
    ghost use Rattle.jc_shards.specs.ByHand.{IsBegun, IsResumed, IsGivenUp};

    type Pending = PendingCall<N>;

    ghost asks = { λ pending. pending.request };

    ghost Begins = { λ old new id now call result. IsBegun N.configs old.session new.session id now call result };

    ghost Resumes = { λ old new pending answer result. IsResumed N.configs old.session new.session pending answer result };

    ghost GivesUp = { λ old new pending result. IsGivenUp N.configs old.session new.session pending result };

    fn request(pending: &PendingCall<N>) -> &Request {
        pending.request()
    }

    fn begin<R: Wait>(
        &mut self,
        rt: &R,
        id: CacheId,
        now: u64,
        call: Call,
    ) -> Result<Progress<PendingCall<N>>, (CallFault, Call)> {
        self.session.begin(rt, id, now, call)
    }

    fn resume<R: Wait>(
        &mut self,
        rt: &R,
        pending: PendingCall<N>,
        answer: Answer,
    ) -> Result<Progress<PendingCall<N>>, (AnswerFault, PendingCall<N>, Answer)> {
        self.session.resume(rt, pending, answer)
    }

    fn give_up<R: Wait>(
        &mut self,
        rt: &R,
        pending: PendingCall<N>,
    ) -> Result<Sequence<Notice>, CallFault> {
        self.session.give_up(rt, pending)
    }
}

impl<A: CallsByHand, B: CallsByHand> CallsByHand for Pair<A, B> {
    ghost use Rattle.jc_shards.specs.ByHand.{BeginsInHalf, ResumesInHalf, asked_in_half};
    ghost use Rattle.jc_shards.specs.Halves.{InHalf};

    type Pending = Side<A::Pending, B::Pending>;

    ghost asks = { asked_in_half A.asks B.asks };

    ghost Begins = { λ old new id now call result. BeginsInHalf (λ a b it come. A.Begins a b it now call come) (λ a b it come. B.Begins a b it now call come) old new id result };

    ghost Resumes = { λ old new pending answer result. ResumesInHalf (λ a b it come. A.Resumes a b it answer come) (λ a b it come. B.Resumes a b it answer come) old new pending result };

    ghost GivesUp = { λ old new pending result. InHalf (λ a b it. A.GivesUp a b it result) (λ a b it. B.GivesUp a b it result) old new pending };

    fn request(pending: &Side<A::Pending, B::Pending>) -> &Request {
        match pending {
            Side::Left(pending) => A::request(pending),
            Side::Right(pending) => B::request(pending),
        }
    }

    fn begin<R: Wait>(
        &mut self,
        rt: &R,
        id: Side<A::Id, B::Id>,
        now: u64,
        call: Call,
    ) -> Result<Progress<Side<A::Pending, B::Pending>>, (CallFault, Call)> {
        match id {
            Side::Left(id) => match self.left.begin(rt, id, now, call) {
                Ok(Progress::Replied(reply)) => Ok(Progress::Replied(reply)),
                Ok(Progress::Waits(pending)) => Ok(Progress::Waits(Side::Left(pending))),
                Err(refused) => Err(refused),
            },
            Side::Right(id) => match self.right.begin(rt, id, now, call) {
                Ok(Progress::Replied(reply)) => Ok(Progress::Replied(reply)),
                Ok(Progress::Waits(pending)) => Ok(Progress::Waits(Side::Right(pending))),
                Err(refused) => Err(refused),
            },
        }
    }

    fn resume<R: Wait>(
        &mut self,
        rt: &R,
        pending: Side<A::Pending, B::Pending>,
        answer: Answer,
    ) -> Result<
        Progress<Side<A::Pending, B::Pending>>,
        (AnswerFault, Side<A::Pending, B::Pending>, Answer),
    > {
        match pending {
            Side::Left(pending) => match self.left.resume(rt, pending, answer) {
                Ok(Progress::Replied(reply)) => Ok(Progress::Replied(reply)),
                Ok(Progress::Waits(next)) => Ok(Progress::Waits(Side::Left(next))),
                Err((fault, back, answer)) => Err((fault, Side::Left(back), answer)),
            },
            Side::Right(pending) => match self.right.resume(rt, pending, answer) {
                Ok(Progress::Replied(reply)) => Ok(Progress::Replied(reply)),
                Ok(Progress::Waits(next)) => Ok(Progress::Waits(Side::Right(next))),
                Err((fault, back, answer)) => Err((fault, Side::Right(back), answer)),
            },
        }
    }

    fn give_up<R: Wait>(
        &mut self,
        rt: &R,
        pending: Side<A::Pending, B::Pending>,
    ) -> Result<Sequence<Notice>, CallFault> {
        match pending {
            Side::Left(pending) => self.left.give_up(rt, pending),
            Side::Right(pending) => self.right.give_up(rt, pending),
        }
    }
}
