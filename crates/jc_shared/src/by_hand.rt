//! Calls whose answers their callers give: each request is handed out, and its answer handed in.
ghost use Rattle.std.specs.Prelude.{◌≡◌, ◌⊎◌, List, [], if◌then◌else◌, IfOk, IfErr, OnErr};
ghost use mathlib.Core.List.{IsPrefix};
ghost use Rattle.jc_model.specs.declared.call.Notice.{Notice as Told};
ghost use Rattle.jc_model.specs.declared.call.Request.{Request as Requested};
ghost use Rattle.jc_model.specs.declared.event.End.TheVariants.{Waiting};
ghost use Rattle.jc_engine.specs.Recording.{blank};
ghost use Rattle.jc_locked.specs.Pending.{AddsEntry, IsRefusedBegin, IsRefusedAnswer, answered_entry, given_up_entry, unless_telling};
ghost use Rattle.jc_shared.specs.Progress.{IsBroughtTo, ShowsAs};
ghost use Rattle.jc_locked.specs.Finding.{IsReplied};
ghost use Rattle.jc_locked.specs.Serving.{TellsOnce, told_behind};

use crate::carry::{note_answer, take_back, tells_again};
use crate::pending::{PendingCall, Progress};
use crate::session::{Session, copy_for};
use jc_engine::journal::blank;
use jc_engine::journal::open_calls::OpenCalls;
use jc_hooks::{FilteredListener, Loader, Processor, Writer};
use jc_locked::fault::{AnswerFault, CallFault};
use jc_locked::guarded_state::GuardedState;
use jc_locked::name::Name;
use jc_model::OutOfMemory;
use jc_model::call::{Answer, Call, Notice, Reply, Request};
use jc_model::event::{CacheId, Entry, Step};
use jc_model::list::Sequence;
use std::alloc::Global;
use std::mem;
use std::sync::{MutexGuard, Wait};

/// Puts the notices that a request tells into the draft. Another request is handed back.
fn hold_told(draft: &mut Entry, request: Request) -> Option<Request>
    ensures told { draft.new ≡ record draft.old { told = told_behind request draft.old.told } }
    ensures held { result ≡ unless_telling request }
{
    match request {
        Request::Tell(notices) => {
            draft.told = notices;
            None
        }
        other => Some(other),
    }
}

/// Takes the notices of such a request out again.
fn take_told(alloc: Global, draft: &mut Entry, held: Option<Request>) -> Request
    ensures { (q : Requested) (told : List Told) → held ≡ unless_telling q → TellsOnce q told →
        draft.old.told ≡ told_behind q told →
        (result ≡ q) × (draft.new ≡ record draft.old { told = told }) }
{
    match held {
        Some(request) => request,
        None => {
            let none = Sequence::new(Vec::new(alloc));
            Request::Tell(mem::replace(&mut draft.told, none))
        }
    }
}

/// The notices that a give-up has left, where none had been told before.
fn take_left(alloc: Global, draft: &mut Entry, untold: bool) -> Sequence<Notice>
    ensures { result ≡ (if untold then draft.old.told else []) }
{
    let none = Sequence::new(Vec::new(alloc));
    if untold {
        mem::replace(&mut draft.told, none)
    } else {
        none
    }
}

/// The call of a draft that has not begun.
fn call_of(draft: Entry) -> Call
    ensures { result ≡ draft.call }
{
    draft.call
}

impl<'a, N: Name, L: Loader, W: Writer, P: Processor, K: FilteredListener> Session<
    'a,
    N,
    L,
    W,
    P,
    K,
    OpenCalls,
> {
    /// Begins a call on a cache at a moment, whose requests the caller answers: by files, other services, whatever
    /// belongs to this call. No callback of the cache is asked, and no lock is held while the call waits; others meet
    /// `Busy` on the cache then.
    ///
    /// Refused as `NoSuchCache`, `NoSuchProcessor`, `Busy`, `OutOfMemory`: nothing has changed then, and the call is
    /// handed back.
    pub fn begin<R: Wait>(
        &mut self,
        rt: &R,
        id: CacheId,
        now: u64,
        call: Call,
    ) -> Result<Progress<PendingCall<N>>, (CallFault, Call)>
        ensures number { self.new.number ≡ self.old.number }
        ensures ok { IfOk result (λ progress.
            IsBroughtTo N.configs self.old self.new (blank self.old.number id now call) progress) }
        ensures err { IfErr result (λ e. IsRefusedBegin N.configs id now call e.0) }
        ensures back { IfErr result (λ e. e.1 ≡ call) }
        ensures refused { OnErr result (self.new ≡ self.old) }
        ensures front { IsPrefix self.old.pass.images self.new.pass.images }
    {
        if let Some(value) = self.get_at_once(rt, id, now, &call) {
            drop(call);
            return Ok(Progress::Replied(Reply::Found(value)));
        }
        let drafted = self.draft_of(id, now, &call);
        let Ok(draft) = drafted else {
            return Err((CallFault::OutOfMemory, call));
        };
        let manager = self.manager;
        self.begin_in(manager.locked.lock(rt), draft, call)
    }

    /// The entry of a call before it begins, with a copy of the call.
    pub(crate) fn draft_of(
        &mut self,
        id: CacheId,
        now: u64,
        call: &Call,
    ) -> Result<Entry, OutOfMemory>
        ensures draft { IfOk result (λ draft. draft ≡ blank self.old.number id now call.now) }
        ensures same { self.new ≡ self.old }
    {
        let copy = copy_for(&mut self.own, call)?;
        Ok(blank(self.manager.alloc, self.origin(id, now), copy))
    }

    /// Begins the draft's call in this tenure.
    pub(crate) fn begin_in(
        &mut self,
        mut locked: MutexGuard<'_, GuardedState<N, OpenCalls>>,
        mut draft: Entry,
        call: Call,
    ) -> Result<Progress<PendingCall<N>>, (CallFault, Call)>
        requires { draft ≡ blank self.old.number draft.id draft.at call }
        ensures number { self.new.number ≡ self.old.number }
        ensures ok { IfOk result (IsBroughtTo N.configs self.old self.new draft) }
        ensures err { IfErr result (λ e. IsRefusedBegin N.configs draft.id draft.at call e.0) }
        ensures back { IfErr result (λ e. e.1 ≡ call) }
        ensures refused { OnErr result (self.new ≡ self.old) }
        ensures front { IsPrefix self.old.pass.images self.new.pass.images }
    {
        let begun = locked.begin(&mut self.seat, &mut draft, call);
        drop(locked);
        match begun {
            Ok(step) => Ok(self.come_to(draft, step)),
            Err(fault) => Err((fault, call_of(draft))),
        }
    }

    /// Hands a call the answer to its request.
    ///
    /// `WrongAnswer`: it is of another kind than the request awaits. `OutOfMemory`: it may be handed in again.
    /// `Overtaken`: the manager has no such call, to which no use of a session should come. Nothing has changed then,
    /// and call and answer are handed back.
    pub fn resume<R: Wait>(
        &mut self,
        rt: &R,
        pending: PendingCall<N>,
        answer: Answer,
    ) -> Result<Progress<PendingCall<N>>, (AnswerFault, PendingCall<N>, Answer)>
        ensures number { self.new.number ≡ self.old.number }
        ensures ok { IfOk result (λ progress.
            IsBroughtTo N.configs self.old self.new (answered_entry pending answer) progress) }
        ensures err { IfErr result (λ e. IsRefusedAnswer N.configs pending.draft.id answer e.0) }
        ensures back { IfErr result (λ e. (e.1 ≡ pending) × (e.2 ≡ answer)) }
        ensures refused { OnErr result (self.new ≡ self.old) }
        ensures front { IsPrefix self.old.pass.images self.new.pass.images }
    {
        let (mut draft, request) = pending.into_parts();
        if tells_again(&draft, &request) {
            return Err((
                AnswerFault::Overtaken,
                PendingCall::new(draft, request),
                answer,
            ));
        }
        if note_answer(&mut draft, &answer).is_err() {
            return Err((
                AnswerFault::OutOfMemory,
                PendingCall::new(draft, request),
                answer,
            ));
        }
        let manager = self.manager;
        let held = hold_told(&mut draft, request);
        let resumed = manager
            .locked
            .lock(rt)
            .resume(&mut self.seat, &mut draft, answer);
        match resumed {
            Ok(step) => {
                drop(held);
                Ok(self.come_to(draft, step))
            }
            Err(fault) => {
                let Some(answer) = take_back(&mut draft) else {
                    unreachable!()
                };
                let request = take_told(manager.alloc, &mut draft, held);
                Err((fault, PendingCall::new(draft, request), answer))
            }
        }
    }

    /// Ends a call without a reply. What its finished steps did stands; the result is the notices that no one was told,
    /// those of its request apart.
    ///
    /// `Overtaken`: the manager has no such call, to which no use of a session should come. Nothing has changed then.
    pub fn give_up<R: Wait>(
        &mut self,
        rt: &R,
        pending: PendingCall<N>,
    ) -> Result<Sequence<Notice>, CallFault>
        ensures number { self.new.number ≡ self.old.number }
        ensures ok { IfOk result (λ left.
            AddsEntry N.configs self.old self.new (given_up_entry pending left)) }
        ensures err { IfErr result (λ fault. fault ≡ CallFault.Overtaken) }
        ensures refused { OnErr result (self.new ≡ self.old) }
        ensures front { IsPrefix self.old.pass.images self.new.pass.images }
    {
        let (mut draft, request) = pending.into_parts();
        if tells_again(&draft, &request) {
            drop((draft, request));
            return Err(CallFault::Overtaken);
        }
        let manager = self.manager;
        drop(hold_told(&mut draft, request));
        let untold = draft.told.items().is_empty();
        let given_up = manager.locked.lock(rt).give_up(&mut self.seat, &mut draft);
        if let Err(fault) = given_up {
            drop(draft);
            return Err(fault);
        }
        self.own.past.push(&draft);
        let left = take_left(manager.alloc, &mut draft, untold);
        drop(draft);
        Ok(left)
    }

    /// A call has come to this. Where it has its reply, its entry is added to the session's own.
    fn come_to(&mut self, draft: Entry, step: Step) -> Progress<PendingCall<N>>
        requires { IsReplied step ⊎ (draft.end ≡ Waiting) }
        ensures { ShowsAs self.old draft step self.new result }
    {
        match step {
            Step::Done(reply) => {
                self.own.past.push(&draft);
                drop(draft);
                Progress::Replied(reply)
            }
            Step::Need(request) => Progress::Waits(PendingCall::new(draft, request)),
        }
    }
}
