//! The manager that threads share.
ghost use Rattle.std.specs.Prelude.{◌≡◌, ◌≢◌, ◌⊎◌, ℕ, true, [], Ok, Err, Some, None, IsSome, IfSome, IfOk, IfErr, OnOk, is_some, map, option_map, slice_get};
ghost use Rattle.jc_model.specs.declared.call.Call.{Call as Called};
ghost use Rattle.jc_model.specs.declared.event.Cause.TheVariants.{NoSuchCache};
ghost use Rattle.jc_model.specs.declared.event.Event.TheVariants.{Begin};
ghost use Rattle.jc_model.specs.Legal.{IsLegal};
ghost use Rattle.jc_locked.specs.Accounts.{Accounts, IsCloseRefusal, own_log};
ghost use Rattle.jc_locked.specs.Admitting.{IsAdmission};
ghost use Rattle.jc_locked.specs.Living.{HasOpenCall, HasNoOpenCall, IsIdOfName, Refuses};
ghost use Rattle.jc_locked.specs.Sessions.{BeginsWith, SeesSome, log_of};
ghost use Rattle.jc_locked.specs.Stated.{stated_by, AreOf, AreCounted, processor_counts, wanted_counts, has_lock_at, lock_flags, wanted_locks};

use crate::brief_lock::BriefLock;
use crate::directory::{Directory, HooksLock};
use crate::session::Session;
use crate::unfound::Unfound;
use jc_engine::journal::all_calls::AllCalls;
use jc_engine::journal::open_calls::OpenCalls;
use jc_hooks::{FilteredListener, Loader, Processor, Writer};
use jc_locked::auditing::SessionLog;
use jc_locked::fault::{CallFault, CloseFault, SessionRefusal};
use jc_locked::guarded_state::GuardedState;
use jc_locked::hooks::{LockedHooks, OpeningLock, SharedHooks};
use jc_locked::journal_policy::{JournalPolicy, SessionJournal};
use jc_locked::name::Name;
use jc_model::Transcript;
use jc_model::event::CacheId;
use jc_model::key::Key;
use std::alloc::Global;
use std::sync::{Mutex, Wait};

/// Caches that many sessions share, and which they may create and destroy. It keeps all calls, with which its sessions
/// are compared when it closes, or over the journal `OpenCalls` those alone that wait: then calls may be made by hand.
///
/// One lock holds the recorded engine. The loaders and processors of the opening stand beside all locks. All other
/// callbacks stand under a lock for each cache that has any, which a call on the cache holds from its begin to its end.
/// The way from a created cache to that lock stands under a lock of its own.
#[derive(Drop)]
pub struct Manager<
    N: Name,
    L: Loader,
    W: Writer,
    P: Processor,
    K: FilteredListener,
    J: JournalPolicy = AllCalls,
> {
    pub(crate) alloc: Global,
    pub(crate) shared: Vec<SharedHooks<L, P>>,
    /// Of the caches of the opening.
    pub(crate) locks: Vec<OpeningLock<W, K>>,
    /// Of those that sessions have created.
    pub(crate) directory: Mutex<Directory<L, W, P, K>>,
    pub(crate) locked: BriefLock<GuardedState<N, J>>,
    ghost stated_are: { map (stated_by L.load_of P.verdict_of) shared.items ≡ N.stated },
    ghost counted: { processor_counts shared.items ≡ wanted_counts N.configs },
    ghost locked_are: { lock_flags locks.items ≡ wanted_locks N.configs },
}

impl<N: Name, L: Loader, W: Writer, P: Processor, K: FilteredListener, J: JournalPolicy> Manager<
    N,
    L,
    W,
    P,
    K,
    J,
> {
    /// The id of the live cache with this name.
    pub fn cache<R: Wait>(&self, rt: &R, name: &Key) -> Option<CacheId>
        ensures { IsIdOfName N.configs name.now result }
    {
        self.locked.lock(rt).cache(name)
    }

    /// A new session, which has made no call, and whose pass has seen the table as it is. Sessions have the numbers
    /// from 0 upward.
    ///
    /// Refused as `Closed`, `TooManySessions`, `OutOfMemory`, in this order. The first two are told by a manager that keeps
    /// all calls alone.
    pub fn session<R: Wait>(&self, rt: &R) -> Result<Session<'_, N, L, W, P, K, J>, SessionRefusal>
        ensures calls { IfOk result (λ s. s.calls ≡ []) }
        ensures fresh { IfOk result (λ s. s.accepted ≡ 0) }
        ensures sees { IfOk result (λ s. SeesSome N.configs s.pass × (s.pass.met ≡ true)) }
        ensures admitted { IfOk result (λ s. IsAdmission J.after J.closes (Ok s.number)) }
        ensures refused { IfErr result (λ refusal. IsAdmission J.after J.closes (Err refusal)) }
    {
        let own = J::Own::new(self.alloc);
        let seat = self.locked.lock(rt).enter(own.is_ok())?;
        match own {
            Ok(own) => Ok(Session::new(self, seat, own)),
            Err(_) => unreachable!(),
        }
    }

    /// Lets the manager go, with all that it keeps, and compares nothing. A crate that calls this need not know how its
    /// parts are let go.
    pub fn discard(self) {
        drop(self);
    }

    /// The loader and the processors of a cache of the opening, which stand beside all locks.
    pub(crate) fn opening_hooks(&self, id: CacheId) -> Option<&SharedHooks<L, P>>
        ensures stated { IfSome result (λ h. AreOf L.load_of P.verdict_of N.stated id h.now) }
        ensures counted { IfSome result (λ h. AreCounted N.configs id h.now) }
        ensures opened { IfSome result (λ h. IsSome (slice_get N.configs id)) }
        ensures created { result ≡ None → slice_get N.configs id ≡ None }
    {
        let shared = entry_at(self.shared.as_slice(), id)?;
        Some(shared)
    }

    /// The hooks lock of a cache of the opening. It is there exactly where the configuration names callbacks.
    pub(crate) fn opened_lock(&self, id: CacheId) -> Option<&Mutex<LockedHooks<W, K>>>
        ensures { is_some result ≡ has_lock_at (slice_get N.configs id) }
    {
        match entry_at(self.locks.as_slice(), id) {
            Some(lock) => held(lock),
            None => None,
        }
    }

    /// What a call is told whose processor is lacking: that its cache is not there, where it is not.
    pub(crate) fn lack_fault<R: Wait>(&self, rt: &R, id: CacheId, fault: CallFault) -> CallFault
        ensures { (result ≡ fault) ⊎ ((result ≡ CallFault.NoSuchCache)
            × ((at : ℕ) (call : Called) → Refuses N.configs (Begin id at call) NoSuchCache)) }
    {
        if self.locked.lock(rt).is_live(id) {
            fault
        } else {
            CallFault::NoSuchCache
        }
    }

    /// The hooks lock of a cache that a session has created.
    pub(crate) fn hooks_lock<R: Wait>(
        &self,
        rt: &R,
        id: CacheId,
    ) -> Result<HooksLock<L, W, P, K>, Unfound> {
        self.directory.lock(rt).find(id)
    }

    /// The loader and the processors of a cache: those beside all locks, where it is one of the opening, else its own.
    pub(crate) fn hooks_to_ask<'s>(
        &'s self,
        id: CacheId,
        own: &'s SharedHooks<L, P>,
    ) -> &'s SharedHooks<L, P>
        ensures stated { AreOf L.load_of P.verdict_of N.stated id result.now }
        ensures counted { AreCounted N.configs id result.now }
    {
        match entry_at(self.shared.as_slice(), id) {
            Some(shared) => shared,
            None => own,
        }
    }
}

impl<N: Name, L: Loader, W: Writer, P: Processor, K: FilteredListener> Manager<N, L, W, P, K> {
    /// Ends the manager, and hands the transcript out, in which every session's entries are its own calls, in their
    /// order, each once, and no others. The sessions are this manager's.
    ///
    /// `Missing` (closed already, or the numbers are not those given out, each once), `StillOpen`, `Differs`,
    /// `OutOfMemory`, in this order: nothing has changed then, and the sessions are handed back.
    pub fn close<'a, R: Wait>(
        &'a self,
        rt: &R,
        sessions: Vec<Session<'a, N, L, W, P, K>>,
    ) -> Result<Transcript, (CloseFault, Vec<Session<'a, N, L, W, P, K>>)>
        ensures legal { IfOk result (λ t. IsLegal t) }
        ensures begins { IfOk result (λ t. BeginsWith N.configs t) }
        ensures accounts { IfOk result (λ t.
            (given : ℕ) × Accounts given (map log_of sessions.entry.items) t.entries) }
        ensures refused { IfErr result (λ e.
            IsCloseRefusal N.configs (map log_of sessions.entry.items) e.0) }
        ensures back { IfErr result (λ e. e.1.items ≡ sessions.entry.items) }
    {
        let finished = self.locked.lock(rt).finish(sessions.as_slice());
        match finished {
            Ok(transcript) => Ok(transcript),
            Err(fault) => Err((fault, sessions)),
        }
    }

    /// Ends the manager as `close` does, by the logs of its sessions, which borrow it and so have ended before. The
    /// transcript itself is handed out, and no copy of it: no memory is wanted, and no lock is taken.
    ///
    /// `Missing` (closed already, or the numbers are not those given out, each once), `StillOpen`, `Differs`, in this
    /// order: the manager is handed back as it was.
    pub fn into_transcript(
        self,
        logs: &[SessionLog],
    ) -> Result<Transcript, (CloseFault, Manager<N, L, W, P, K>)>
        ensures legal { IfOk result (λ t. IsLegal t) }
        ensures begins { IfOk result (λ t. BeginsWith N.configs t) }
        ensures accounts { IfOk result (λ t.
            (given : ℕ) × Accounts given (map own_log logs.now) t.entries) }
        ensures refused { IfErr result (λ e.
            IsCloseRefusal N.configs (map own_log logs.now) e.0) }
        ensures memory { IfErr result (λ e. e.0 ≢ CloseFault.OutOfMemory) }
    {
        let Manager {
            alloc,
            shared,
            locks,
            directory,
            locked,
        } = self;
        match locked.into_inner().into_transcript(logs) {
            Ok(transcript) => Ok(transcript),
            Err((fault, locked)) => Err((
                fault,
                Manager {
                    alloc,
                    shared,
                    locks,
                    directory,
                    locked: BriefLock::new(locked),
                },
            )),
        }
    }
}

impl<N: Name, L: Loader, W: Writer, P: Processor, K: FilteredListener> Manager<
    N,
    L,
    W,
    P,
    K,
    OpenCalls,
> {
    /// The first cache whose call is open, if any is. No session borrows the manager now, so no lock is taken.
    pub fn open_call(&mut self) -> Option<CacheId>
        ensures none { result ≡ None → HasNoOpenCall N.configs }
        ensures some { IfSome result (HasOpenCall N.configs) }
    {
        self.locked.get_mut().open_call()
    }

    /// Ends the manager, where no call is open. Its sessions have ended before, since they borrow it.
    ///
    /// Else the first cache whose call is open is told, and the manager is handed back.
    pub fn end(mut self) -> Result<(), (CacheId, Manager<N, L, W, P, K, OpenCalls>)>
        ensures ended { OnOk result (HasNoOpenCall N.configs) }
        ensures open { IfErr result (λ e. HasOpenCall N.configs e.0) }
    {
        match self.open_call() {
            Some(id) => Err((id, self)),
            None => {
                drop(self);
                Ok(())
            }
        }
    }
}

/// What a list of the caches of the opening has of one of them.
fn entry_at<X>(entries: &[X], id: CacheId) -> Option<&X>
    ensures { option_map (λ x. x.now) result ≡ slice_get entries.now id }
{
    entries.get(id.number() as usize)
}

/// The lock, where there is one.
fn held<X>(lock: &Option<X>) -> Option<&X>
    ensures { is_some result ≡ is_some lock.now }
{
    match lock {
        Some(lock) => Some(lock),
        None => None,
    }
}
