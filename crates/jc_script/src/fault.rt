//! Why a script is refused.
ghost use Rattle.std.specs.Prelude.{◌≡◌, codes};
ghost use Rattle.jc_script.specs.Member.{member_name};
ghost use Rattle.jc_script.specs.declared.fault.ScriptFault.TheVariants.{OutOfMemory};

use std::alloc::{AllocError, AllocFailed};

/// A member of a script's line, in the order in which they are checked.
#[derive(Clone, Copy, Debug, PartialEq, Eq)]
pub enum Member {
    Session,
    Cache,
    At,
    Op,
    Capacity,
    Expiry,
    Duration,
    Key,
    Keys,
    Pairs,
    Expect,
    Value,
    Replace,
    Processor,
    Argument,
}

impl Member {
    /// Its name in a line, and in a fault's text.
    pub fn name(self) -> &'static str
        ensures { result.now ≡ member_name self }
    {
        match self {
            Member::Session => "s",
            Member::Cache => "c",
            Member::At => "at",
            Member::Op => "op",
            Member::Capacity => "capacity",
            Member::Expiry => "expiry",
            Member::Duration => "duration",
            Member::Key => "k",
            Member::Keys => "ks",
            Member::Pairs => "kvs",
            Member::Expect => "expect",
            Member::Value => "v",
            Member::Replace => "replace",
            Member::Processor => "p",
            Member::Argument => "arg",
        }
    }
}

/// The first fault of a script. Lines are counted from 1.
#[derive(Clone, Copy, Debug, PartialEq, Eq)]
pub enum ScriptFault {
    /// More than 8,388,608 bytes.
    TooLong,
    /// No JSON text, or bytes that are not UTF-8.
    NotJson { line: usize },
    /// JSON, and no object.
    NotObject { line: usize },
    /// A member that is needed and is missing, of another kind, out of its limits or unknown.
    Bad { line: usize, member: Member },
    OutOfMemory,
}

impl From<AllocError> for ScriptFault {
    ghost from_gives = { λ _ e. e ≡ OutOfMemory };

    fn from(_e: AllocError) -> ScriptFault {
        ScriptFault::OutOfMemory
    }
}

impl<T: Drop> From<AllocFailed<T>> for ScriptFault {
    ghost from_gives = { λ _ e. e ≡ OutOfMemory };

    fn from(_e: AllocFailed<T>) -> ScriptFault {
        ScriptFault::OutOfMemory
    }
}
