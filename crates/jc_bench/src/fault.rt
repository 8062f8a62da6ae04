//! Why a run has no figures.
use jc_model::OutOfMemory;
use jc_model::key::KeyFault;
use jc_model::keys::ListFault;
use jc_model::value::ValueFault;
use jc_shards::{HalfRefusal, QuarterRefusal};
use jc_shared::{CallFault, SessionRefusal, SharedRefusal};
use std::alloc::AllocFailed;
use std::io;
use std::io::Eprint;
use std::process::ExitCode;

/// What stopped a run.
#[derive(Drop)]
pub enum Fault {
    /// The words are refused.
    Words,
    /// Words that could not be read, or a line that could not be printed.
    Stream(io::Error),
    /// Want of memory, or what the manager or a session refused for it or for another cause.
    Refused,
}

impl Fault {
    /// Says what stopped the run, and with which status the program ends.
    pub fn tell<R: Eprint>(&self, rt: &R) -> ExitCode {
        match self {
            Fault::Words => {
                drop(eprintln!(rt; "error: src/main.rt says which words are taken"));
                return ExitCode::from(2);
            }
            Fault::Stream(error) => drop(eprintln!(rt; "error: {error}")),
            Fault::Refused => drop(eprintln!(rt; "error: the manager refused a step")),
        }
        ExitCode::FAILURE
    }
}

impl From<io::Error> for Fault {
    fn from(error: io::Error) -> Fault {
        Fault::Stream(error)
    }
}

impl From<OutOfMemory> for Fault {
    fn from(_: OutOfMemory) -> Fault {
        Fault::Refused
    }
}

impl<T: Drop> From<AllocFailed<T>> for Fault {
    fn from(_: AllocFailed<T>) -> Fault {
        Fault::Refused
    }
}

impl From<ListFault> for Fault {
    fn from(_: ListFault) -> Fault {
        Fault::Refused
    }
}

impl From<KeyFault> for Fault {
    fn from(_: KeyFault) -> Fault {
        Fault::Refused
    }
}

impl From<ValueFault> for Fault {
    fn from(_: ValueFault) -> Fault {
        Fault::Refused
    }
}

impl From<CallFault> for Fault {
    fn from(_: CallFault) -> Fault {
        Fault::Refused
    }
}

impl From<SessionRefusal> for Fault {
    fn from(_: SessionRefusal) -> Fault {
        Fault::Refused
    }
}

impl From<SharedRefusal> for Fault {
    fn from(_: SharedRefusal) -> Fault {
        Fault::Refused
    }
}

impl From<HalfRefusal> for Fault {
    fn from(_: HalfRefusal) -> Fault {
        Fault::Refused
    }
}

impl From<QuarterRefusal> for Fault {
    fn from(_: QuarterRefusal) -> Fault {
        Fault::Refused
    }
}
