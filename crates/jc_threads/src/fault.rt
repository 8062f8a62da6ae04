//! Why a run on threads comes to no transcript.
ghost use Rattle.std.specs.Prelude.{◌≡◌, Ok, Err, IfOk};
ghost use Rattle.jc_model.specs.declared.event.CreateRefusal.{CreateRefusal as Refused};
ghost use Rattle.jc_threads.specs.Faults.{session_work_fault, call_work_fault, destroy_work_fault, close_work_fault};
ghost use Rattle.jc_threads.specs.declared.fault.WorkFault.TheVariants.{OutOfMemory};

use jc_model::event::CreateRefusal;
use jc_shared::{CallFault, CloseFault, CreateFault, DestroyFault, SessionRefusal};
use std::alloc::{AllocError, AllocFailed};

/// The fault of a run on threads.
#[derive(Clone, Copy, Debug, PartialEq, Eq)]
pub enum WorkFault {
    /// A session was refused or did not get the next number; a call or a destruction was refused, or a creation for its
    /// callbacks; a line met another session than its own; or the sessions and the manager's transcript differ.
    Close,
    /// Memory was refused, to a callback too.
    OutOfMemory,
}

impl From<AllocError> for WorkFault {
    ghost from_gives = { λ _ e. e ≡ OutOfMemory };

    fn from(_e: AllocError) -> WorkFault {
        WorkFault::OutOfMemory
    }
}

impl<T: Drop> From<AllocFailed<T>> for WorkFault {
    ghost from_gives = { λ _ e. e ≡ OutOfMemory };

    fn from(_e: AllocFailed<T>) -> WorkFault {
        WorkFault::OutOfMemory
    }
}

impl From<SessionRefusal> for WorkFault {
    ghost from_gives = { λ refusal e. e ≡ session_work_fault refusal };

    fn from(refusal: SessionRefusal) -> WorkFault {
        match refusal {
            SessionRefusal::OutOfMemory => WorkFault::OutOfMemory,
            SessionRefusal::Closed | SessionRefusal::TooManySessions => WorkFault::Close,
        }
    }
}

impl From<CallFault> for WorkFault {
    ghost from_gives = { λ fault e. e ≡ call_work_fault fault };

    fn from(fault: CallFault) -> WorkFault {
        match fault {
            CallFault::OutOfMemory => WorkFault::OutOfMemory,
            _ => WorkFault::Close,
        }
    }
}

impl From<DestroyFault> for WorkFault {
    ghost from_gives = { λ fault e. e ≡ destroy_work_fault fault };

    fn from(fault: DestroyFault) -> WorkFault {
        match fault {
            DestroyFault::OutOfMemory => WorkFault::OutOfMemory,
            DestroyFault::NoSuchCache | DestroyFault::Busy => WorkFault::Close,
        }
    }
}

impl From<CloseFault> for WorkFault {
    ghost from_gives = { λ fault e. e ≡ close_work_fault fault };

    fn from(fault: CloseFault) -> WorkFault {
        match fault {
            CloseFault::OutOfMemory => WorkFault::OutOfMemory,
            _ => WorkFault::Close,
        }
    }
}

/// The engine's refusal. Other faults end the run.
pub(crate) fn of_create(fault: CreateFault) -> Result<CreateRefusal, WorkFault>
    ensures cache { (refusal : Refused) → fault ≡ CreateFault.Cache refusal → result ≡ Ok refusal }
    ensures refused { IfOk result (λ refusal. fault ≡ CreateFault.Cache refusal) }
    ensures memory { fault ≡ CreateFault.OutOfMemory → result ≡ Err WorkFault.OutOfMemory }
    ensures differ { fault ≡ CreateFault.HooksDiffer → result ≡ Err WorkFault.Close }
{
    match fault {
        CreateFault::Cache(refusal) => Ok(refusal),
        CreateFault::HooksDiffer => Err(WorkFault::Close),
        CreateFault::OutOfMemory => Err(WorkFault::OutOfMemory),
    }
}
