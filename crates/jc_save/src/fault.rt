//! Why bytes are no saved cache.
ghost use Rattle.std.specs.Prelude.{◌≡◌};
ghost use Rattle.jc_save.specs.declared.fault.Stop.TheVariants.{Memory};
ghost use Rattle.jc_save.specs.Reading.{flaw_at};

use std::alloc::{AllocError, AllocFailed};

/// What is wrong with a field.
#[derive(Clone, Copy, Debug, PartialEq, Eq)]
pub enum Flaw {
    /// There are more than 268,435,456 bytes.
    TooLong,
    /// The bytes end before the field does.
    Cut,
    /// The bytes do not begin with `JCS`.
    NotSaved,
    /// The version is another than `1`.
    OtherVersion,
    /// The capacity is 0 or above 65,536.
    Capacity,
    /// The policy's number is above 4.
    Policy,
    /// A flag is neither 0 nor 1.
    Flag,
    /// There are more than 8 listeners.
    Listeners,
    /// There are more than 16 processors.
    Processors,
    /// There are more rows than the capacity.
    Rows,
    /// A row's mark is above 3.
    Mark,
    /// A key has no bytes, or more than 63.
    KeyLength,
    /// A key's bytes are not UTF-8.
    KeyText,
    /// A row has the key of an earlier one.
    DuplicateKey,
    /// Bytes follow the last row.
    Trailing,
}

/// Why bytes are not restored.
#[derive(Clone, Copy, Debug, PartialEq, Eq)]
pub enum SaveFault {
    /// The first flaw from the left, and how many bytes stand before the field that has it.
    Damaged { flaw: Flaw, place: usize },
    /// Memory was refused before a flaw was met.
    OutOfMemory,
}

/// Why a cache is not saved.
#[derive(Clone, Copy, Debug, PartialEq, Eq)]
pub enum SaveRefusal {
    /// Its bytes would be more than 268,435,456.
    TooLong,
    OutOfMemory,
}

/// A flaw, and how many bytes there are from its field on.
#[derive(Clone, Copy, Debug, PartialEq, Eq)]
pub struct Found {
    pub flaw: Flaw,
    pub left: usize,
}

/// Why reading stopped.
#[derive(Debug, Drop)]
pub enum Stop {
    Memory,
    Flawed(Found),
}

impl From<AllocError> for Stop {
    ghost from_gives = { λ _ e. e ≡ Memory };

    fn from(_e: AllocError) -> Stop {
        Stop::Memory
    }
}

impl<T: Drop> From<AllocFailed<T>> for Stop {
    ghost from_gives = { λ _ e. e ≡ Memory };

    fn from(_e: AllocFailed<T>) -> Stop {
        Stop::Memory
    }
}

/// What is wrong with the field that begins here.
pub fn flawed(flaw: Flaw, bytes: &[u8]) -> Stop
    ensures { result ≡ Stop.Flawed (flaw_at flaw bytes.now) }
{
    Stop::Flawed(Found {
        flaw,
        left: bytes.len(),
    })
}
