//! Why a row is not as it should be.

use jc_model::OutOfMemory;
use std::alloc::AllocFailed;

/// What a row comes to where it is not as it should be.
#[derive(Clone, Copy, Debug, PartialEq, Eq)]
pub enum Trouble {
    /// There was no memory where there should be.
    Memory,
    /// Not all memory could be taken.
    NotTaken,
    /// There is no memory left that could be let go.
    NoSpare,
    /// A configuration, a script or a key is not one.
    Unread,
    /// A manager does not open, for another reason than memory.
    NotOpened,
    /// What was refused is handed back as another.
    HandedBackAnother,
    /// A refusal changed something.
    Changed,
    /// A call came to something else than where nothing is refused.
    CameToAnother,
    /// What takes no memory was refused for want of it.
    TakesMemory,
    /// It was refused with all the memory that was let go.
    StillRefused,
    /// It was never refused, or less often than it takes memory.
    NotRefused,
}

impl From<OutOfMemory> for Trouble {
    fn from(_: OutOfMemory) -> Trouble {
        Trouble::Memory
    }
}

impl<T: Drop> From<AllocFailed<T>> for Trouble {
    fn from(_: AllocFailed<T>) -> Trouble {
        Trouble::Memory
    }
}
