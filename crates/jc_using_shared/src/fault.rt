//! What may go wrong.

use jc::{
    AnswerFault, CallFault, KeyFault, OutOfMemory, SessionRefusal, SharedRefusal, ValueFault,
};
use std::alloc::AllocFailed;
use std::io;

/// Why the program ends without its report.
#[derive(Debug, Drop)]
pub enum Fault {
    Key(KeyFault),
    Value(ValueFault),
    Open(SharedRefusal),
    Session(SessionRefusal),
    Call(CallFault),
    Answer(AnswerFault),
    /// A call by hand came to something else than was expected.
    Unexpected,
    Print(io::Error),
    OutOfMemory,
}

impl From<KeyFault> for Fault {
    fn from(fault: KeyFault) -> Fault {
        Fault::Key(fault)
    }
}

impl From<ValueFault> for Fault {
    fn from(fault: ValueFault) -> Fault {
        Fault::Value(fault)
    }
}

impl From<SharedRefusal> for Fault {
    fn from(fault: SharedRefusal) -> Fault {
        Fault::Open(fault)
    }
}

impl From<SessionRefusal> for Fault {
    fn from(fault: SessionRefusal) -> Fault {
        Fault::Session(fault)
    }
}

impl From<CallFault> for Fault {
    fn from(fault: CallFault) -> Fault {
        Fault::Call(fault)
    }
}

impl From<io::Error> for Fault {
    fn from(error: io::Error) -> Fault {
        Fault::Print(error)
    }
}

impl From<OutOfMemory> for Fault {
    fn from(_: OutOfMemory) -> Fault {
        Fault::OutOfMemory
    }
}

impl<T: Drop> From<AllocFailed<T>> for Fault {
    fn from(_: AllocFailed<T>) -> Fault {
        Fault::OutOfMemory
    }
}
