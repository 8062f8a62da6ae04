//! What a run comes to.

use jc_runner::{RunFault, WatchedWriter};
use jc_trials::Trouble;

/// The report, or the fault.
pub(crate) type Ran = Result<Vec<u8>, RunFault>;

/// What a run came to whose report this writer took.
pub(crate) fn ran_into(ran: Result<(), RunFault>, writer: WatchedWriter<Vec<u8>>) -> Ran {
    match ran {
        Ok(()) => Ok(writer.into_inner()),
        Err(fault) => Err(fault),
    }
}

/// The report of a run that a test builds on: it must have one.
pub(crate) fn report_of(ran: Ran) -> Result<Vec<u8>, Trouble> {
    match ran {
        Ok(report) => Ok(report),
        Err(_) => Err(Trouble::Unexpected),
    }
}
