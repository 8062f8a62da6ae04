//! One cache under the manager: its configuration, its rows and counters, and its open call.
//!
//! What a call does takes the manager's visit, whose moment is the call's, and leaves it with the cache that it has between
//! two calls, and no notices.
ghost use Rattle.std.specs.Prelude.{◌≡◌, ℕ, None, [], is_some, true, option_map, IsOk, IfSome, IfErr};
ghost use Rattle.jc_model.specs.Runs.{begins, answers};
ghost use Rattle.jc_ops.specs.Tied.{SameElsewhere};
ghost use Rattle.jc_engine.specs.Sound.{IsAt};
ghost use Rattle.jc_engine.specs.Managed.{cache_in, turn_in, is_step, reply_to};
ghost use Rattle.jc_engine.specs.Managed.{IsReady, RestsAgain, IsPutBack, GivesBack, Moves, HasHeard, Settled};
ghost use Rattle.jc_engine.specs.Managed.{IsRefusalTo, IsRefusedFor, Abandons};
ghost use Rattle.jc_model.specs.declared.call.Reply.TheVariants.{Found};
ghost use Rattle.jc_model.specs.declared.config.CacheConfig.{CacheConfig};
ghost use Rattle.jc_model.specs.Run.{Run, ended, fits, for_tell};
ghost use Rattle.jc_model.specs.Whole.{is_free};
ghost use Rattle.jc_ops.specs.Visited.{IsKeptIn, progress_in};
ghost use Rattle.jc_bulk.specs.Calls.{ComesTo};
ghost use Rattle.jc_engine.specs.Advances.{of_start};
ghost use Rattle.jc_engine.specs.declared.turn.EngineStep.TheVariants.{Replied};
ghost use Rattle.jc_engine.specs.declared.turn.Turn.TheVariants.{Idle};

use crate::turn::{EngineStep, Turn, WaitingCall};
use jc_bulk::call::{CallNext, answer_call, end_at_once, start_call};
use jc_model::call::{Answer, Call, Reply};
use jc_model::event::Cause;
use jc_model::owners::Owners;
use jc_ops::hit::{Owned, get_at_once};
use jc_ops::notices::Notices;
use jc_ops::state::CacheState;
use jc_ops::step::Next;
use jc_ops::visit::Visit;
use jc_ring::ring::Ring;
use jc_rows::rows::Rows;
use std::marker::Model;
use std::mem;

/// One live cache: its state, and whether a call is open.
#[derive(Drop)]
pub(crate) struct Managed<G: Ring> {
    pub(crate) state: Box<CacheState<G>>,
    pub(crate) turn: Turn,
}

impl<G: Ring> Model for Managed<G> {
    ghost use Rattle.jc_engine.specs.Managed.{Slot};

    ghost Value = { Slot };

    ghost view = { λ m. record { state = m.state.value.kept; turn = m.turn } };
}

impl<G: Ring> Managed<G> {
    /// Whether a call is open.
    pub(crate) fn is_open(&self) -> bool
        ensures { result ≡ is_some (turn_in self.now.turn) }
    {
        !matches!(self.turn, Turn::Idle)
    }

    /// Why a call can't begin now, where memory suffices.
    pub(crate) fn begin_refusal(&self, call: &Call) -> Option<Cause>
        ensures { (now : ℕ) → IsRefusalTo (cache_in self.now) (begins now call.now) result }
    {
        match self.turn {
            Turn::Idle if self.state.config().has_processor(call) => None,
            Turn::Idle => Some(Cause::NoSuchProcessor),
            _ => Some(Cause::Busy),
        }
    }

    /// Why an answer is refused now, where memory suffices.
    pub(crate) fn resume_refusal(&self, answer: &Answer) -> Option<Cause>
        ensures { IsRefusalTo (cache_in self.now) (answers answer.now) result }
    {
        match &self.turn {
            Turn::Idle => Some(Cause::NoTurn),
            Turn::Waiting(call) if call.suspended.awaits(answer) => None,
            Turn::Telling(_) if matches!(answer, Answer::Told) => None,
            _ => Some(Cause::WrongAnswer),
        }
    }

    /// Comes to stand at this turn; the one before is let go.
    fn stand_at(&mut self, turn: Turn)
        ensures { self.new ≡ record self.old { turn = turn } }
    {
        drop(mem::replace(&mut self.turn, turn));
    }

    /// Takes all its rows out of the table.
    pub(crate) fn leave<R: Rows>(&mut self, visit: &mut Visit<R, G>)
        requires { IsReady self.old visit.old }
        ensures cleared { self.new
            ≡ record self.old { state = record self.old.state { cells = [] } } }
        ensures gone { IsAt visit.new.table self.old.state.id None }
        ensures elsewhere { SameElsewhere self.old.state.id visit.old.table visit.new.table }
        ensures rests { RestsAgain visit.old visit.new }
    {
        visit.exchange(&mut self.state);
        visit.clear();
        visit.exchange(&mut self.state);
    }

    /// Ends the open call without a reply, and hands out the notices that no one was told, if any may be left.
    pub(crate) fn abandon(&mut self) -> Result<Option<Notices>, Cause>
        ensures { Abandons self.old result self.new }
    {
        match mem::replace(&mut self.turn, Turn::Idle) {
            Turn::Idle => Err(Cause::NoTurn),
            Turn::Telling(reply) => {
                drop(reply);
                Ok(None)
            }
            Turn::Waiting(WaitingCall { suspended, notices }) => {
                drop(suspended);
                Ok(Some(notices))
            }
        }
    }

    /// Ends its call with this reply. All notices are told before it.
    fn end<R: Rows>(&mut self, visit: &mut Visit<R, G>, reply: Owners<Reply>) -> EngineStep
        requires idle { self.old.turn ≡ Idle }
        requires kept { IsKeptIn visit.old.table self.old.state }
        ensures back { GivesBack self.old.state visit.old self.new visit.new }
        ensures settled { (c : CacheConfig) (run : Run) →
            run ≡ ended (progress_in visit.old) reply → Settled c run self.new result }
    {
        visit.exchange(&mut self.state);
        if visit.is_untold() {
            return EngineStep::Replied(reply);
        }
        self.stand_at(Turn::Telling(reply));
        EngineStep::Told(visit.hand_out_notices())
    }

    /// Goes on from what its call has come to.
    fn settle<R: Rows>(&mut self, visit: &mut Visit<R, G>, next: CallNext) -> EngineStep
        requires idle { self.old.turn ≡ Idle }
        requires kept { IsKeptIn visit.old.table self.old.state }
        ensures back { GivesBack self.old.state visit.old self.new visit.new }
        ensures settled { (c : CacheConfig) (run : Run) →
            ComesTo c run next (progress_in visit.old) → Settled c run self.new result }
    {
        match next {
            Next::Ended(reply) => self.end(visit, reply),
            Next::Waiting(request, suspended) => {
                visit.exchange(&mut self.state);
                let notices = visit.hand_out_notices();
                self.stand_at(Turn::Waiting(WaitingCall { suspended, notices }));
                EngineStep::Asked(request)
            }
        }
    }

    /// What a get answers at once: the value of its key's live row, or none, where the key has no row and the cache no
    /// loader. Nothing for any other call, and where a call is open; then nothing has changed. So also where no copies of
    /// the value can be had.
    pub(crate) fn get_at_once<R: Rows, V: Owned>(
        &mut self,
        visit: &mut Visit<R, G>,
        call: &Call,
    ) -> Option<Option<V>>
        requires { IsReady self.old visit.old }
        ensures back { IsPutBack self.old visit.old self.new visit.new }
        ensures at_once { IfSome result (λ found. Moves (cache_in self.old)
            (begins visit.old.moment call.now) (cache_in self.new)
            (Replied (Found (option_map V.value found)))) }
        ensures same { result ≡ None → self.new ≡ self.old }
        ensures table { result ≡ None → visit.new.table ≡ visit.old.table }
    {
        let Call::Get(key) = call else {
            return None;
        };
        let None = self.begin_refusal(call) else {
            return None;
        };
        visit.exchange(&mut self.state);
        let found = get_at_once(visit, key);
        visit.exchange(&mut self.state);
        found
    }

    /// Begins a call that may begin, and may have to wait. Only memory can refuse it. It is never inlined: what does not
    /// wait is to have no share in what this needs.
    #[inline(never)]
    fn start_waiting<R: Rows>(
        &mut self,
        visit: &mut Visit<R, G>,
        call: &Call,
    ) -> Result<EngineStep, Cause>
        requires ready { IsReady self.old visit.old }
        requires allowed { is_step
            (reply_to (cache_in self.old) (begins visit.old.moment call.now)) ≡ true }
        ensures heard { HasHeard self.old visit.old (begins visit.old.moment call.now) result
            self.new visit.new }
        ensures err { IfErr result (λ cause. cause ≡ Cause.OutOfMemory) }
        ensures free { is_free call.now ≡ true → IsOk result }
    {
        visit.exchange(&mut self.state);
        match start_call(visit, call) {
            Ok(next) => Ok(self.settle(visit, next)),
            Err(_) => {
                visit.exchange(&mut self.state);
                Err(Cause::OutOfMemory)
            }
        }
    }

    /// Begins a call. Refused as `Busy`, `NoSuchProcessor`, `OutOfMemory`, in this order, before any change.
    pub(crate) fn start<R: Rows>(
        &mut self,
        visit: &mut Visit<R, G>,
        call: &Call,
    ) -> Result<EngineStep, Cause>
        requires { IsReady self.old visit.old }
        ensures heard { HasHeard self.old visit.old (begins visit.old.moment call.now) result
            self.new visit.new }
        ensures err { IfErr result (IsRefusedFor (cache_in self.old) (begins visit.old.moment call.now)) }
        ensures free { is_free call.now ≡ true →
            of_start result ≡ reply_to (cache_in self.old) (begins visit.old.moment call.now) }
    {
        if let Some(cause) = self.begin_refusal(call) {
            return Err(cause);
        }
        visit.exchange(&mut self.state);
        match end_at_once(visit, call) {
            Ok(Some(reply)) => Ok(self.end(visit, reply)),
            Ok(None) => {
                visit.exchange(&mut self.state);
                self.start_waiting(visit, call)
            }
            Err(_) => {
                visit.exchange(&mut self.state);
                Err(Cause::OutOfMemory)
            }
        }
    }

    /// Goes on with the open call. Only memory can refuse it, before any change.
    pub(crate) fn go_on<R: Rows>(
        &mut self,
        visit: &mut Visit<R, G>,
        answer: Answer,
    ) -> Result<EngineStep, Answer>
        requires ready { IsReady self.old visit.old }
        requires allowed { is_step (reply_to (cache_in self.old) (answers answer)) ≡ true }
        ensures heard { HasHeard self.old visit.old (answers answer) result self.new visit.new }
        ensures back { IfErr result (λ back. back ≡ answer) }
        ensures told { fits for_tell answer ≡ true → IsOk result }
    {
        match mem::replace(&mut self.turn, Turn::Idle) {
            Turn::Idle => unreachable!(),
            Turn::Telling(reply) => Ok(EngineStep::Replied(reply)),
            Turn::Waiting(call) => {
                let WaitingCall { suspended, notices } = call;
                visit.set_moment(suspended.moment());
                visit.take_notices(notices);
                visit.exchange(&mut self.state);
                match answer_call(visit, suspended, answer) {
                    Ok(next) => Ok(self.settle(visit, next)),
                    Err((suspended, answer)) => {
                        visit.exchange(&mut self.state);
                        let notices = visit.hand_out_notices();
                        self.stand_at(Turn::Waiting(WaitingCall { suspended, notices }));
                        Err(answer)
                    }
                }
            }
        }
    }
}
