//! Why a configuration is refused.

ghost use Rattle.std.specs.Prelude.{◌≡◌};
ghost use Rattle.jc_config.specs.Faults.{config_member_name};
ghost use Rattle.jc_config.specs.declared.fault.ConfigFault.TheVariants.{OutOfMemory};

use std::alloc::{AllocError, AllocFailed};

/// A member of a cache's table. `Entry` is one of any other name, which no table may have.
#[derive(Clone, Copy, Debug, PartialEq, Eq)]
pub enum Member {
    Name,
    Capacity,
    Expiry,
    Duration,
    Loader,
    Writer,
    Processors,
    Listeners,
    Entry,
}

/// The first fault of a configuration. Caches are counted from 1.
#[derive(Clone, Copy, Debug, PartialEq, Eq)]
pub enum ConfigFault {
    /// More than 8,388,608 bytes.
    TooLong,
    /// Bytes that are no TOML document, or not UTF-8.
    NotToml,
    /// An entry other than `cache`, or a `cache` that is not a list of tables.
    UnknownEntry,
    /// A member that is missing, of another kind, out of its limits or unknown.
    Bad { cache: usize, member: Member },
    /// More than 1,024 caches.
    TooManyCaches,
    /// The first cache with the name of an earlier one.
    DuplicateName { cache: usize },
    /// More than 262,144 rows together.
    TotalCapacity,
    OutOfMemory,
}

impl Member {
    /// The member's name in a table; `entry` for one that no table has.
    pub fn name(self) -> &'static str
        ensures { result.now ≡ config_member_name self }
    {
        match self {
            Member::Name => "name",
            Member::Capacity => "capacity",
            Member::Expiry => "expiry",
            Member::Duration => "duration",
            Member::Loader => "loader",
            Member::Writer => "writer",
            Member::Processors => "processors",
            Member::Listeners => "listeners",
            Member::Entry => "entry",
        }
    }
}

impl From<AllocError> for ConfigFault {
    ghost from_gives = { λ _ e. e ≡ OutOfMemory };

    fn from(_e: AllocError) -> ConfigFault {
        ConfigFault::OutOfMemory
    }
}

impl<T: Drop> From<AllocFailed<T>> for ConfigFault {
    ghost from_gives = { λ _ e. e ≡ OutOfMemory };

    fn from(_e: AllocFailed<T>) -> ConfigFault {
        ConfigFault::OutOfMemory
    }
}
