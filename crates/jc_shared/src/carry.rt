//! Carrying an open call on: each request is answered outside the engine's lock, each answer goes in under it.
ghost use Rattle.std.specs.Prelude.{◌≡◌, ◌++◌, ◌∷◌, [], List, Some, false, IsTrue, IfOk, OnOk, OnErr, MatchResult, slice_get};
ghost use mathlib.Core.List.{IsPrefix};
ghost use Rattle.jc_model.specs.declared.call.Answer.{Answer as Given};
ghost use Rattle.jc_model.specs.declared.event.End.TheVariants.{Waiting};
ghost use Rattle.jc_model.specs.declared.event.Step.TheVariants.{Done, Need};
ghost use Rattle.jc_model.specs.Run.{is_answer_to};
ghost use Rattle.jc_model.specs.Legal.{with_answer};
ghost use Rattle.jc_model.specs.Asking.{AsksOf};
ghost use Rattle.jc_hooks.specs.Answering.{IsStatedAnswer};
ghost use Rattle.jc_shared.specs.Served.{TakesStated};
ghost use Rattle.jc_locked.specs.Calls.{IsSameCall, CallStands, CallEndsFaulty};
ghost use Rattle.jc_locked.specs.Counting.{CountsOn};
ghost use Rattle.jc_locked.specs.Serving.{ServesRequest, TellsListenersOn, TellsOnce, told_behind, TakesIn, WritesOn, StatesOn};
ghost use Rattle.jc_locked.specs.Stated.{AreOf, IsStatedBy, AreStated};

use crate::manager::Manager;
use jc_hooks::{FilteredListener, Loader, Processor, Writer, answer_request, tell_all};
use jc_locked::fault::{AnswerFault, CallFault};
use jc_locked::hooks::{LockedHooks, SharedHooks};
use jc_locked::journal_policy::JournalPolicy;
use jc_locked::name::Name;
use jc_locked::seat::Seat;
use jc_model::OutOfMemory;
use jc_model::call::{Answer, Reply, Request};
use jc_model::event::{Entry, Step};
use jc_model::share::Share;
use std::sync::Wait;

/// Adds an equal copy of the answer to the draft.
pub(crate) fn note_answer(draft: &mut Entry, answer: &Answer) -> Result<(), OutOfMemory>
    ensures ok { OnOk result (draft.new ≡ with_answer answer.now draft.old) }
    ensures err { OnErr result (draft.new ≡ draft.old) }
{
    let copy = answer.share()?;
    draft.answers.push(copy)
}

/// Takes the last answer back.
pub(crate) fn take_back(draft: &mut Entry) -> Option<Answer>
    ensures taken { (answers : List Given) (a : Given) → draft.old.answers ≡ answers ++ a ∷ [] →
        draft.new ≡ record draft.old { answers = answers } }
    ensures answer { (answers : List Given) (a : Given) → draft.old.answers ≡ answers ++ a ∷ [] →
        result ≡ Some a }
{
    draft.answers.pop()
}

/// Whether a request tells notices of a call that has told its notices.
pub(crate) fn tells_again(draft: &Entry, request: &Request) -> bool
    ensures { result ≡ false → TellsOnce request.now draft.now.told }
{
    match request {
        Request::Tell(_) => !draft.told.items().is_empty(),
        _ => false,
    }
}

/// Keeps the notices that a request tells.
fn keep_told(draft: &mut Entry, request: Request)
    ensures { draft.new ≡ record draft.old { told = told_behind request draft.old.told } }
{
    match request {
        Request::Tell(notices) => draft.told = notices,
        _ => {}
    }
}

impl<N: Name, L: Loader, W: Writer, P: Processor, K: FilteredListener, J: JournalPolicy> Manager<
    N,
    L,
    W,
    P,
    K,
    J,
> {
    /// The answer of a cache's callbacks to a request. One that is not there fails.
    fn answer(
        &self,
        asked: &SharedHooks<L, P>,
        hooks: &mut LockedHooks<W, K>,
        draft: &Entry,
        request: &Request,
    ) -> Result<Answer, OutOfMemory>
        requires asked { AreOf L.load_of P.verdict_of N.stated draft.now.id asked.now }
        requires asks { AsksOf draft.now.call request.now }
        ensures fits { IfOk result (λ a. IsTrue (is_answer_to request.now a)) }
        ensures exact { IfOk result (IsStatedAnswer L.load_of P.verdict_of
            asked.now.loader asked.now.processors.items request.now) }
        ensures stated { IfOk result (IsStatedBy (slice_get N.stated draft.now.id) draft.now.call) }
        ensures served { IfOk result (ServesRequest W.may K.state_after hooks.old hooks.new request.now) }
        ensures untold { OnErr result (hooks.new.listeners ≡ hooks.old.listeners) }
    {
        answer_request(
            self.alloc,
            &asked.loader,
            asked.processors.as_slice(),
            &mut hooks.writer,
            hooks.listeners.as_mut_slice(),
            request,
        )
    }

    /// Brings the draft's call on by the callbacks' answer to a request, which the draft then has. An answer that was
    /// not taken is not kept.
    fn advance<R: Wait>(
        &self,
        rt: &R,
        asked: &SharedHooks<L, P>,
        hooks: &mut LockedHooks<W, K>,
        draft: &mut Entry,
        request: Request,
        seat: &mut Seat<N>,
    ) -> Result<Step, CallFault>
        requires shared { AreOf L.load_of P.verdict_of N.stated draft.old.id asked.now }
        requires asked { CallStands N.configs N.stated (Need request) draft.old seat.old.pass }
        ensures same { IsSameCall draft.old draft.new }
        ensures served { OnOk result (TakesIn W.may K.state_after hooks.old hooks.new
            request draft.old.answers draft.new.answers) }
        ensures stated { OnOk result (TakesStated L.load_of P.verdict_of asked.now
            request draft.old.answers draft.new.answers) }
        ensures kept { OnErr result (draft.new.answers ≡ draft.old.answers) }
        ensures brought { MatchResult result
            (λ step. CallStands N.configs N.stated step draft.new seat.new.pass)
            (λ fault. CallEndsFaulty N.configs N.stated fault draft.new seat.new.pass) }
        ensures number { seat.new.number ≡ seat.old.number }
        ensures counted { CountsOn seat.old.accepted seat.new.accepted draft.old draft.new }
        ensures front { IsPrefix seat.old.pass.images seat.new.pass.images }
        ensures told { TellsListenersOn K.state_after hooks.old hooks.new draft.old.told draft.new.told }
    {
        if tells_again(draft, &request) {
            drop(request);
            return Err(CallFault::Overtaken);
        }
        let Ok(answer) = self.answer(asked, hooks, draft, &request) else {
            drop(request);
            return Err(self.give_up(rt, hooks, draft, seat));
        };
        keep_told(draft, request);
        if note_answer(draft, &answer).is_err() {
            drop(answer);
            return Err(self.give_up(rt, hooks, draft, seat));
        }
        let resumed = self.locked.lock(rt).resume(seat, draft, answer);
        match resumed {
            Ok(step) => Ok(step),
            Err(AnswerFault::OutOfMemory) => {
                drop(take_back(draft));
                Err(self.give_up(rt, hooks, draft, seat))
            }
            Err(_) => {
                drop(take_back(draft));
                Err(CallFault::Overtaken)
            }
        }
    }

    /// Carries the draft's call, which waits for the answer to this request, on to its end.
    pub(crate) fn carry_on<R: Wait>(
        &self,
        rt: &R,
        asked: &SharedHooks<L, P>,
        hooks: &mut LockedHooks<W, K>,
        draft: &mut Entry,
        request: Request,
        seat: &mut Seat<N>,
    ) -> Result<Reply, CallFault>
        requires shared { AreOf L.load_of P.verdict_of N.stated draft.old.id asked.now }
        requires asked { CallStands N.configs N.stated (Need request) draft.old seat.old.pass }
        ensures same { IsSameCall draft.old draft.new }
        ensures ends { MatchResult result
            (λ reply. CallStands N.configs N.stated (Done reply) draft.new seat.new.pass)
            (λ fault. CallEndsFaulty N.configs N.stated fault draft.new seat.new.pass) }
        ensures number { seat.new.number ≡ seat.old.number }
        ensures counted { CountsOn seat.old.accepted seat.new.accepted draft.old draft.new }
        ensures front { IsPrefix seat.old.pass.images seat.new.pass.images }
        ensures told { TellsListenersOn K.state_after hooks.old hooks.new draft.old.told draft.new.told }
        ensures wrote { MatchResult result
            (λ _. WritesOn W.may hooks.old hooks.new draft.old.answers draft.new.answers)
            (λ _. StatesOn W.may hooks.old draft.old.answers draft.new.answers) }
    {
        let mut step = Step::Need(request);
        for _ in rt.forever() {
            match step {
                Step::Done(reply) => return Ok(reply),
                Step::Need(request) => step = self.advance(rt, asked, hooks, draft, request, seat)?,
            }
        }
        unreachable!()
    }

    /// Gives the draft's call up, and tells the listeners what they were not told of it.
    fn give_up<R: Wait>(
        &self,
        rt: &R,
        hooks: &mut LockedHooks<W, K>,
        draft: &mut Entry,
        seat: &mut Seat<N>,
    ) -> CallFault
        requires waits { draft.old.end ≡ Waiting }
        requires answered { AreStated (slice_get N.stated draft.old.id)
            draft.old.call draft.old.answers }
        ensures same { IsSameCall draft.old draft.new }
        ensures kept { draft.new.answers ≡ draft.old.answers }
        ensures ends { CallEndsFaulty N.configs N.stated result draft.new seat.new.pass }
        ensures number { seat.new.number ≡ seat.old.number }
        ensures counted { CountsOn seat.old.accepted seat.new.accepted draft.old draft.new }
        ensures front { IsPrefix seat.old.pass.images seat.new.pass.images }
        ensures told { TellsListenersOn K.state_after hooks.old hooks.new draft.old.told draft.new.told }
    {
        let untold = draft.told.items().is_empty();
        let given_up = self.locked.lock(rt).give_up(seat, draft);
        if given_up.is_err() {
            return CallFault::Overtaken;
        }
        if untold {
            tell_all(hooks.listeners.as_mut_slice(), draft.told.items());
        }
        CallFault::OutOfMemory
    }
}
