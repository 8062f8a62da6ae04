//! Why a cache's hooks lock is not handed out.
ghost use Rattle.std.specs.Prelude.{◌≡◌};
ghost use Rattle.jc_shared.specs.Unfound.{call_fault_of, destroy_fault_of};

use jc_locked::fault::{CallFault, DestroyFault};

/// Why a cache's hooks lock is not handed out.
#[derive(Clone, Copy)]
pub(crate) enum Unfound {
    NoSuchCache,
    /// Memory was refused to sharing it.
    OutOfMemory,
}

impl From<Unfound> for CallFault {
    ghost from_gives = { λ why fault. fault ≡ call_fault_of why };

    fn from(why: Unfound) -> CallFault {
        match why {
            Unfound::NoSuchCache => CallFault::NoSuchCache,
            Unfound::OutOfMemory => CallFault::OutOfMemory,
        }
    }
}

impl From<Unfound> for DestroyFault {
    ghost from_gives = { λ why fault. fault ≡ destroy_fault_of why };

    fn from(why: Unfound) -> DestroyFault {
        match why {
            Unfound::NoSuchCache => DestroyFault::NoSuchCache,
            Unfound::OutOfMemory => DestroyFault::OutOfMemory,
        }
    }
}
