//! Calls that wait for an answer of their caller.
ghost use Rattle.std.specs.Prelude.{◌≡◌};
ghost use Rattle.jc_model.specs.declared.event.End.TheVariants.{Waiting};

use jc_locked::name::Name;
use jc_model::call::{Reply, Request};
use jc_model::event::{CacheId, Entry};
use std::marker::{Model, PhantomData};

/// A call that waits for the answer to its request. Its cache takes no other call meanwhile.
///
/// It has to come to its end: `Session::resume` answers it, `Session::give_up` ends it, by any session of its manager.
/// It is not `Drop`, so a program that loses one does not compile.
pub struct PendingCall<N: Name> {
    draft: Entry,
    request: Request,
    of: PhantomData<N>,
}

impl<N: Name> Model for PendingCall<N> {
    ghost use Rattle.jc_locked.specs.Pending.{Pending, EndsWaiting};

    ghost Value = { Pending };

    ghost view = { λ p. record { draft = p.draft; request = p.request } };

    ghost invariant = { λ p. EndsWaiting p.draft };
}

impl<N: Name> PendingCall<N> {
    pub(crate) fn new(draft: Entry, request: Request) -> PendingCall<N>
        requires { draft.end ≡ Waiting }
        ensures { result ≡ record { draft = draft; request = request } }
    {
        PendingCall {
            draft,
            request,
            of: PhantomData,
        }
    }

    /// Its cache.
    pub fn cache(&self) -> CacheId
        ensures { result ≡ self.now.draft.id }
    {
        self.draft.id
    }

    /// What it waits for.
    pub fn request(&self) -> &Request
        ensures { result.now ≡ self.now.request }
    {
        &self.request
    }

    /// Its entry so far, and its request.
    pub(crate) fn into_parts(self) -> (Entry, Request)
        ensures draft { result.0 ≡ self.draft }
        ensures request { result.1 ≡ self.request }
        ensures waits { result.0.end ≡ Waiting }
    {
        let PendingCall {
            draft,
            request,
            of: _,
        } = self;
        (draft, request)
    }
}

/// What a call has come to: its reply, or what waits for an answer.
pub enum Progress<C> {
    Replied(Reply),
    Waits(C),
}
