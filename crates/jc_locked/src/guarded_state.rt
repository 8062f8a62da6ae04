//! What lies under the manager's lock: the recorded engine, and which sessions there are. Each tenure begins a call,
//! brings it on or gives it up, or creates or destroys a cache, and no callback runs in it.
ghost use Rattle.std.specs.Prelude.{◌≡◌, ◌⊎◌, ◌+◌, ℕ, Bool, true, false, Ok, None, List, [], ◌∷◌, ◌++◌, IsTrue, IfOk, IfErr, IfSome, OnOk, OnErr, Err, Some, is_some};
ghost use mathlib.Core.List.{IsPrefix};
ghost use Rattle.jc_model.specs.declared.call.Answer.{Answer as Given};
ghost use Rattle.jc_model.specs.declared.call.Call.{Call as Called};
ghost use Rattle.jc_model.specs.declared.event.Cause.TheVariants.{NoSuchCache};
ghost use Rattle.jc_model.specs.declared.event.End.TheVariants.{Waiting, GivenUp};
ghost use Rattle.jc_model.specs.declared.event.Event.TheVariants.{Begin, Answer as Answered};
ghost use Rattle.jc_model.specs.declared.event.Outcome.TheVariants.{Step as Stepped};
ghost use Rattle.jc_model.specs.Places.{at_place};
ghost use Rattle.jc_engine.specs.Recording.{blank};
ghost use Rattle.jc_engine.specs.Caches.{asks_no_one_in, lives_of};
ghost use Rattle.jc_engine.specs.RecordedSteps.{reply_in};
ghost use Rattle.jc_locked.specs.Admitting.{Admits};
ghost use Rattle.jc_locked.specs.Calls.{EntryIsLast, CallGoesOn, CallGoesOnTo, IsBeginFault};
ghost use Rattle.jc_locked.specs.Living.{TellsLiveRow, HasNoOpenCall, HasOpenCall, Refuses, has_live_row};
ghost use Rattle.jc_locked.specs.Lookups.{Agrees};
ghost use Rattle.jc_locked.specs.Pending.{IsRefusedAnswer};
ghost use Rattle.jc_locked.specs.Sessions.{BeginsWith, SeesEngine, SeesSome};
ghost use Rattle.jc_locked.specs.Finding.{fault_of, answer_fault_of, IsOpenIn, IsOvertakenIn, IsReplied};
ghost use Rattle.jc_locked.specs.Tenures.{IsTenure, IsRefusedCall, StopsDraft, GivesUpDraft};
ghost use Rattle.jc_locked.specs.Unasked.{HasNoCallbacks};

mod at_once;
mod closing;
mod draft;
mod living;

use crate::event_count::EventCount;
use crate::fault::{AnswerFault, CallFault, SessionRefusal};
use crate::guarded_state::draft::{end_by, end_with, is_of_call, keep_left};
use crate::journal_policy::JournalPolicy;
use crate::name::Name;
use crate::seat::Seat;
use crate::tables::{ShownTable, TablePass};
use jc_engine::recorded::Recorded;
use jc_model::OutOfMemory;
use jc_model::call::{Answer, Call, Reply};
use jc_model::event::{CacheId, Cause, End, Entry, Step};
use jc_model::key::Key;
use jc_ring::link_ring::LinkRing;
use std::marker::PhantomData;

/// A recorded engine, whose first caches are those that the name tells.
#[derive(Drop)]
pub struct GuardedState<N: Name, J: JournalPolicy> {
    pub(crate) recorded: Recorded<ShownTable<N>, LinkRing, J>,
    /// How many numbers were given out to sessions.
    pub(crate) given: u32,
    /// Whether its transcript has been handed out at the close.
    pub(crate) closed: bool,
    of: PhantomData<N>,
    ghost begins: { BeginsWith N.configs recorded.transcript },
    ghost closes: { closed ≡ true → J.closes ≡ true },
}

fn fault_of(cause: Cause) -> CallFault
    ensures { result ≡ fault_of cause }
{
    match cause {
        Cause::NoSuchCache => CallFault::NoSuchCache,
        Cause::NoSuchProcessor => CallFault::NoSuchProcessor,
        Cause::Busy => CallFault::Busy,
        Cause::NoTurn | Cause::WrongAnswer => CallFault::Overtaken,
        Cause::OutOfMemory => CallFault::OutOfMemory,
    }
}

fn answer_fault_of(cause: Cause) -> AnswerFault
    ensures { result ≡ answer_fault_of cause }
{
    match cause {
        Cause::OutOfMemory => AnswerFault::OutOfMemory,
        Cause::WrongAnswer => AnswerFault::WrongAnswer,
        _ => AnswerFault::Overtaken,
    }
}

impl<N: Name, J: JournalPolicy> GuardedState<N, J> {
    /// No session has its number yet.
    pub fn new(recorded: Recorded<ShownTable<N>, LinkRing, J>) -> GuardedState<N, J>
        requires { BeginsWith N.configs recorded.transcript }
        ensures { (result.recorded ≡ recorded) × (result.given ≡ 0) × (result.closed ≡ false) }
    {
        GuardedState {
            recorded,
            given: 0,
            closed: false,
            of: PhantomData,
        }
    }

    /// Whether the open call of the draft's cache is the draft's, which has been given these answers.
    fn is_open(&self, draft: &Entry, answers: &[Answer]) -> bool
        ensures open { IsTrue result → IsOpenIn self.now.recorded draft.now answers.now }
        ensures overtaken { result ≡ false →
            IsOvertakenIn self.now.recorded draft.now answers.now }
    {
        match self.recorded.open_entry(draft.id) {
            Some(entry) => is_of_call(entry, draft, answers),
            None => false,
        }
    }

    /// The pass sees the table as it is now, or memory for the meeting was refused.
    pub fn refresh(&mut self, pass: &mut TablePass<N>) -> Result<(), OutOfMemory>
        ensures same { self.new.recorded ≡ self.old.recorded }
        ensures kept { (self.new.given ≡ self.old.given) × (self.new.closed ≡ self.old.closed) }
        ensures front { IsPrefix pass.old.images pass.new.images }
        ensures shows { SeesEngine self.old.recorded pass.new }
        ensures sees { SeesSome N.configs pass.new }
        ensures met { OnOk result (pass.new.met ≡ true) }
        ensures refused { OnErr result (pass.new.met ≡ false) }
    {
        self.recorded.meet(pass)
    }

    /// The pass sees the table as it is now, where memory allows it.
    fn show(&mut self, pass: &mut TablePass<N>)
        ensures same { self.new.recorded ≡ self.old.recorded }
        ensures kept { (self.new.given ≡ self.old.given) × (self.new.closed ≡ self.old.closed) }
        ensures front { IsPrefix pass.old.images pass.new.images }
        ensures sees { SeesEngine self.old.recorded pass.new }
    {
        let _ = self.refresh(pass);
    }

    /// At a reply the pass sees the table as it is now, where memory allows it.
    fn show_reply(&mut self, step: &Step, pass: &mut TablePass<N>)
        ensures same { self.new.recorded ≡ self.old.recorded }
        ensures kept { (self.new.given ≡ self.old.given) × (self.new.closed ≡ self.old.closed) }
        ensures front { IsPrefix pass.old.images pass.new.images }
        ensures sees { IsReplied step.now → SeesEngine self.old.recorded pass.new }
        ensures unseen { IsReplied step.now ⊎ (pass.new ≡ pass.old) }
    {
        match step {
            Step::Need(_) => {}
            Step::Done(_) => self.show(pass),
        }
    }

    /// Begins a session's call. At the reply, of which the second part is a copy, its pass sees what it has changed.
    pub fn begin_call(
        &mut self,
        seat: &mut Seat<N>,
        id: CacheId,
        now: u64,
        call: Call,
    ) -> Result<(Step, Option<Reply>), CallFault>
        ensures ok { IfOk result (λ it. CallGoesOnTo N.configs
            (blank seat.old.number id now call) it.0 it.1 seat.new.pass) }
        ensures copy { IfOk result (λ it. it.1 ≡ reply_in it.0) }
        ensures unseen { IfOk result (λ it. IsReplied it.0 ⊎ (seat.new.pass ≡ seat.old.pass)) }
        ensures unasked { HasNoCallbacks N.configs id → IfOk result (λ it. IsReplied it.0) }
        ensures tenure { IfOk result (λ it. IsTenure self.old.recorded self.new.recorded
            seat.old.number (Begin id now call) (Stepped it.0)) }
        ensures front { IsPrefix seat.old.pass.images seat.new.pass.images }
        ensures err { IfErr result (IsBeginFault N.configs id now call) }
        ensures refused { IfErr result (IsRefusedCall
            (lives_of self.old.recorded.caches) (Begin id now call)) }
        ensures same { OnErr result
            ((self.new.recorded ≡ self.old.recorded) × (seat.new ≡ seat.old)) }
        ensures number { seat.new.number ≡ seat.old.number }
        ensures accepted { OnOk result (seat.new.accepted ≡ seat.old.accepted + 1) }
        ensures kept { (self.new.given ≡ self.old.given) × (self.new.closed ≡ self.old.closed) }
    {
        match self.recorded.begin(seat.number, id, now, call) {
            Ok(pair) => {
                seat.accept();
                self.show_reply(&pair.0, &mut seat.pass);
                Ok(pair)
            }
            Err((cause, call)) => {
                drop(call);
                Err(fault_of(cause))
            }
        }
    }

    /// Begins the draft's call. At the reply the draft ends with it.
    pub fn begin(
        &mut self,
        seat: &mut Seat<N>,
        draft: &mut Entry,
        call: Call,
    ) -> Result<Step, CallFault>
        requires { draft.old ≡ blank seat.old.number draft.old.id draft.old.at call }
        ensures ok { IfOk result (λ step. CallGoesOn N.configs draft.old step draft.new seat.new.pass) }
        ensures unseen { IfOk result (λ step. IsReplied step ⊎ (seat.new.pass ≡ seat.old.pass)) }
        ensures tenure { IfOk result (λ step. IsTenure self.old.recorded self.new.recorded
            draft.old.session (Begin draft.old.id draft.old.at call) (Stepped step)) }
        ensures front { IsPrefix seat.old.pass.images seat.new.pass.images }
        ensures err { IfErr result (IsBeginFault N.configs draft.old.id draft.old.at call) }
        ensures refused { IfErr result (IsRefusedCall
            (lives_of self.old.recorded.caches) (Begin draft.old.id draft.old.at call)) }
        ensures same { OnErr result ((self.new.recorded ≡ self.old.recorded)
            × (draft.new ≡ draft.old) × (seat.new ≡ seat.old)) }
        ensures number { seat.new.number ≡ seat.old.number }
        ensures accepted { OnOk result (seat.new.accepted ≡ seat.old.accepted + 1) }
        ensures kept { (self.new.given ≡ self.old.given) × (self.new.closed ≡ self.old.closed) }
    {
        let (id, now) = (draft.id, draft.at);
        match self.begin_call(seat, id, now, call) {
            Ok((step, copy)) => {
                end_by(draft, copy);
                Ok(step)
            }
            Err(fault) => Err(fault),
        }
    }

    /// Gives the draft's call its next answer, which the draft has already as its last. At the reply the draft ends with
    /// it, and the pass sees what the call has changed.
    pub fn resume(
        &mut self,
        seat: &mut Seat<N>,
        draft: &mut Entry,
        answer: Answer,
    ) -> Result<Step, AnswerFault>
        requires waits { draft.old.end ≡ Waiting }
        requires answered { (before : List Given) × (draft.old.answers ≡ before ++ answer ∷ []) }
        ensures ok { IfOk result (λ step. CallGoesOn N.configs draft.old step draft.new seat.new.pass) }
        ensures unseen { IfOk result (λ step. IsReplied step ⊎ (seat.new.pass ≡ seat.old.pass)) }
        ensures tenure { IfOk result (λ step. IsTenure self.old.recorded self.new.recorded
            draft.old.session (Answered draft.old.id answer) (Stepped step)) }
        ensures front { IsPrefix seat.old.pass.images seat.new.pass.images }
        ensures err { IfErr result (λ fault. (before : List Given) →
            draft.old.answers ≡ before ++ answer ∷ [] →
            StopsDraft self.old.recorded draft.old before answer fault) }
        ensures same { OnErr result ((self.new.recorded ≡ self.old.recorded)
            × (draft.new ≡ draft.old) × (seat.new ≡ seat.old)) }
        ensures refused { IfErr result (IsRefusedAnswer N.configs draft.old.id answer) }
        ensures number { seat.new.number ≡ seat.old.number }
        ensures accepted { OnOk result (seat.new.accepted ≡ seat.old.accepted + 1) }
        ensures kept { (self.new.given ≡ self.old.given) × (self.new.closed ≡ self.old.closed) }
    {
        let Some((_, before)) = draft.answers.items().split_last() else {
            unreachable!()
        };
        if !self.is_open(draft, before) {
            return Err(AnswerFault::Overtaken);
        }
        match self.recorded.resume(draft.id, answer) {
            Ok(pair) => {
                let (step, copy) = pair;
                seat.accept();
                end_by(draft, copy);
                self.show_reply(&step, &mut seat.pass);
                Ok(step)
            }
            Err((cause, answer)) => {
                drop(answer);
                Err(answer_fault_of(cause))
            }
        }
    }

    /// Ends the draft's call without a reply. The draft then has the notices that no one was told, and the pass sees
    /// what the call has changed.
    pub fn give_up(&mut self, seat: &mut Seat<N>, draft: &mut Entry) -> Result<(), CallFault>
        requires { draft.old.end ≡ Waiting }
        ensures ok { OnOk result
            ((draft.new ≡ record draft.old { told = draft.new.told; end = GivenUp })
            × EntryIsLast N.configs draft.new seat.new.pass) }
        ensures given_up { OnOk result
            (GivesUpDraft self.old.recorded self.new.recorded draft.old draft.new.told) }
        ensures front { IsPrefix seat.old.pass.images seat.new.pass.images }
        ensures err { IfErr result (λ fault. fault ≡ CallFault.Overtaken) }
        ensures overtaken { OnErr result
            (IsOvertakenIn self.old.recorded draft.old draft.old.answers) }
        ensures same { OnErr result ((self.new.recorded ≡ self.old.recorded)
            × (draft.new ≡ draft.old) × (seat.new ≡ seat.old)) }
        ensures told { (draft.old.told ≡ []) ⊎ (draft.new.told ≡ draft.old.told) }
        ensures number { seat.new.number ≡ seat.old.number }
        ensures accepted { OnOk result (seat.new.accepted ≡ seat.old.accepted + 1) }
        ensures kept { (self.new.given ≡ self.old.given) × (self.new.closed ≡ self.old.closed) }
    {
        if !self.is_open(draft, draft.answers.items()) {
            return Err(CallFault::Overtaken);
        }
        let Ok(left) = self.recorded.give_up(draft.id) else {
            return Err(CallFault::Overtaken);
        };
        seat.accept();
        keep_left(draft, left);
        end_with(draft, End::GivenUp);
        self.show(&mut seat.pass);
        Ok(())
    }

    /// The first cache whose call is open, if any is.
    pub fn open_call(&self) -> Option<CacheId>
        ensures none { result ≡ None → HasNoOpenCall N.configs }
        ensures some { IfSome result (λ id. HasOpenCall N.configs id) }
    {
        self.recorded.open_call()
    }

    /// Whether a cache has this id. Where none has, the engine refuses a call there for that.
    pub fn is_live(&self, id: CacheId) -> bool
        ensures exact { result ≡ is_some (at_place self.now.recorded.caches id) }
        ensures missing { result ≡ false →
            (at : ℕ) (call : Called) → Refuses N.configs (Begin id at call) NoSuchCache }
    {
        self.recorded.is_live(id)
    }

    /// Whether a cache has this id and no callbacks: then none of its calls makes a request.
    pub fn asks_no_one(&self, id: CacheId) -> bool
        ensures { result ≡ asks_no_one_in (at_place self.now.recorded.caches id) }
    {
        self.recorded.asks_no_one(id)
    }

    /// Whether a cache has a live row of this key. The pass sees the table as it is now, where memory allows it.
    pub fn has(&mut self, id: CacheId, key: &Key, now: u64, pass: &mut TablePass<N>) -> bool
        ensures same { self.new.recorded ≡ self.old.recorded }
        ensures kept { (self.new.given ≡ self.old.given) × (self.new.closed ≡ self.old.closed) }
        ensures front { IsPrefix pass.old.images pass.new.images }
        ensures exact { result ≡
            has_live_row now key.now (at_place (lives_of self.old.recorded.caches) id) }
        ensures held { TellsLiveRow N.configs id key.now now pass.new result }
        ensures agrees { Agrees pass.new id key.now now result }
    {
        self.show(pass);
        self.recorded.has(id, key, now)
    }

    /// Gives a session its number, where there is room for its list. Numbers go upward from 0.
    fn admit(&mut self, room: bool) -> Result<u32, SessionRefusal>
        ensures admits { Admits J.after self.old.closed self.old.given room result self.new.given }
        ensures kept { (self.new.recorded ≡ self.old.recorded)
            × (self.new.closed ≡ self.old.closed) }
    {
        if self.closed {
            return Err(SessionRefusal::Closed);
        }
        let Some(next) = J::next(self.given) else {
            return Err(SessionRefusal::TooManySessions);
        };
        if !room {
            return Err(SessionRefusal::OutOfMemory);
        }
        let number = self.given;
        self.given = next;
        Ok(number)
    }

    /// Gives a session its number and a pass, where there is room for its list. Nothing of it has been accepted.
    pub fn enter(&mut self, room: bool) -> Result<Seat<N>, SessionRefusal>
        ensures sees { IfOk result (λ s. SeesSome N.configs s.pass × (s.pass.met ≡ true)) }
        ensures shows { IfOk result (λ s. SeesEngine self.old.recorded s.pass) }
        ensures fresh { IfOk result (λ s. s.accepted ≡ 0) }
        ensures admits { IfOk result (λ s.
            Admits J.after self.old.closed self.old.given room (Ok s.number) self.new.given) }
        ensures refused { IfErr result (λ fault. (roomy : Bool)
            × Admits J.after self.old.closed self.old.given roomy (Err fault) self.new.given) }
        ensures kept { (self.new.recorded ≡ self.old.recorded)
            × (self.new.closed ≡ self.old.closed) }
    {
        let pass = self.recorded.watch();
        let number = self.admit(room && pass.is_ok())?;
        match pass {
            Ok(pass) => Ok(Seat {
                number,
                accepted: EventCount::new(),
                pass,
            }),
            Err(_) => Err(SessionRefusal::OutOfMemory),
        }
    }
}
