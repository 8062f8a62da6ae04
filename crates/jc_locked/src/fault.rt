//! Why the calls of a shared manager are refused.
use jc_engine::open::OpenRefusal;
use jc_model::event::CreateRefusal;

/// Why a shared manager does not open.
#[derive(Debug, Drop, PartialEq, Eq)]
pub enum SharedRefusal {
    /// A manager does not open with these caches.
    Caches(OpenRefusal),
    /// The callbacks at this place, from 0, are not those that the configuration there names, or one of the two is
    /// missing.
    HooksDiffer { cache: u32 },
    OutOfMemory,
}

/// Why there is no further session.
#[derive(Clone, Copy, Debug, PartialEq, Eq)]
pub enum SessionRefusal {
    /// The manager keeps all calls, and is closed.
    Closed,
    /// It keeps all calls, and has had 64 sessions.
    TooManySessions,
    OutOfMemory,
}

/// Why a session's call has no reply.
#[derive(Clone, Copy, Debug, PartialEq, Eq)]
pub enum CallFault {
    NoSuchCache,
    NoSuchProcessor,
    /// A call on the cache is open.
    Busy,
    /// The entry under the lock is not that of this call.
    Overtaken,
    /// Memory was refused, before the call began, or in its midst: then it was given up.
    OutOfMemory,
}

/// Why a session creates no cache.
#[derive(Clone, Copy, Debug, PartialEq, Eq)]
pub enum CreateFault {
    /// The engine refuses it, but not for memory.
    Cache(CreateRefusal),
    /// The callbacks are not those that the configuration names.
    HooksDiffer,
    OutOfMemory,
}

/// Why a session does not destroy a cache.
#[derive(Clone, Copy, Debug, PartialEq, Eq)]
pub enum DestroyFault {
    NoSuchCache,
    /// A call on the cache is open.
    Busy,
    OutOfMemory,
}

/// Why an open call does not take an answer.
#[derive(Clone, Copy, Debug, PartialEq, Eq)]
pub enum AnswerFault {
    /// It is of another kind than the one that the call's request awaits.
    WrongAnswer,
    /// The entry under the lock is not that of this call.
    Overtaken,
    OutOfMemory,
}

/// Why a manager does not close, or an audit finds fault.
#[derive(Clone, Copy, Debug, PartialEq, Eq)]
pub enum CloseFault {
    /// The numbers are not those that were given out, each once, or the manager is closed already.
    Missing,
    /// A call is still open.
    StillOpen,
    /// `session` is the least whose entries in the transcript are not its own list; `place`, from 0, is the first at
    /// which the two part.
    Differs { session: u32, place: usize },
    OutOfMemory,
}
