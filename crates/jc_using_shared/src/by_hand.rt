//! A call whose answer is made where the call is, and not by what is lent to it.

use crate::directory::Directory;
use crate::fault::Fault;
use crate::users;
use jc::{Answer, Call, Key, Manager, Name, PendingCall, Progress, Session, Value, reply_text};
use std::alloc::Global;
use std::sync::Wait;

/// Begins to get a user whom the cache does not have. The call waits for its answer, and no lock is held meanwhile.
fn begin<N: Name, R: Wait>(
    rt: &R,
    session: &mut Session<'_, N>,
    name: Key,
) -> Result<PendingCall<N>, Fault> {
    match session.begin(rt, users(), 2, Call::Get(name)) {
        Ok(Progress::Waits(pending)) => Ok(pending),
        Ok(Progress::Replied(reply)) => {
            drop(reply);
            Err(Fault::Unexpected)
        }
        Err((fault, call)) => {
            drop(call);
            Err(Fault::Call(fault))
        }
    }
}

/// Gets eve, whom the directory does not know, and puts a note of one's own in the cache. A call that has begun comes to
/// its end: it is given up where the answer brings no reply.
pub fn get_by_hand<N: Name, R: Wait>(
    rt: &R,
    alloc: Global,
    manager: &Manager<N>,
    directory: &Directory,
    lines: &mut Vec<String>,
) -> Result<(), Fault> {
    let eve = Key::from_text("eve")?;
    let note = Value::from_text(alloc, "is not in the directory")?;
    let mut session = manager.session(rt)?;
    let pending = begin(rt, &mut session, eve)?;
    let answer = match directory.note(rt, &eve) {
        Ok(Some(known)) => {
            drop(note);
            Answer::Loaded(Some(known))
        }
        Ok(None) => Answer::Loaded(Some(note)),
        Err(_) => {
            drop(note);
            Answer::LoadFailed
        }
    };
    let reply = match session.resume(rt, pending, answer) {
        Ok(Progress::Replied(reply)) => reply,
        Ok(Progress::Waits(pending)) => {
            drop(session.give_up(rt, pending)?);
            return Err(Fault::Unexpected);
        }
        Err((fault, pending, answer)) => {
            drop(answer);
            drop(session.give_up(rt, pending)?);
            return Err(Fault::Answer(fault));
        }
    };
    drop(session);
    lines.push(format!(in alloc; "eve: {}", reply_text(alloc, &reply)?)?)?;
    Ok(())
}
