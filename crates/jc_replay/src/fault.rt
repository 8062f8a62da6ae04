//! Why a trace is refused.
ghost use Rattle.std.specs.Prelude.{◌≡◌};
ghost use Rattle.jc_replay.specs.declared.fault.ReplayFault.TheVariants.{OutOfMemory};

use std::alloc::{AllocError, AllocFailed};

/// The first fault of a trace. Lines are counted from 1.
#[derive(Clone, Copy, Debug, PartialEq, Eq)]
pub enum ReplayFault {
    /// More than 8,388,608 bytes.
    TooLong,
    /// A line that is not empty and no key.
    BadKey { line: usize },
    OutOfMemory,
}

impl From<AllocError> for ReplayFault {
    ghost from_gives = { λ _ e. e ≡ OutOfMemory };

    fn from(_e: AllocError) -> ReplayFault {
        ReplayFault::OutOfMemory
    }
}

impl<T: Drop> From<AllocFailed<T>> for ReplayFault {
    ghost from_gives = { λ _ e. e ≡ OutOfMemory };

    fn from(_e: AllocFailed<T>) -> ReplayFault {
        ReplayFault::OutOfMemory
    }
}
