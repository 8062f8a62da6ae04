//! Visits of the cache, by several threads at once, and a write that the directory refuses.

use crate::directory::{Client, Directory};
use crate::fault::Fault;
use crate::users;
use jc::{Call, Key, Lookup, Manager, Name, Reply, Value, reply_text};
use std::alloc::Global;
use std::sync::Wait;

/// What one thread does, in a session of its own: it puts a note on a user of its own, which is written through to the
/// directory, and gets ann, whom the cache reads through from there.
pub fn visit<N: Name, R: Wait>(
    rt: &R,
    alloc: Global,
    manager: &Manager<N>,
    directory: &Directory,
    number: usize,
) -> Result<Reply, Fault> {
    let name = format!(in alloc; "user-{number}")?;
    let user = Key::from_text(name.as_str())?;
    let ann = Key::from_text("ann")?;
    let note = Value::from_text(alloc, "was here")?;
    let mut session = manager.session(rt)?;
    let mut client = Client { rt, directory };
    drop(session.call_by(rt, users(), 0, Call::Put(user, note), &mut client)?);
    Ok(session.call_by(rt, users(), 0, Call::Get(ann), &mut client)?)
}

/// A note that the directory refuses leaves the cache as it was. The last lookup takes no lock, so it waits for nobody.
pub fn refuse<N: Name, R: Wait>(
    rt: &R,
    alloc: Global,
    manager: &Manager<N>,
    directory: &Directory,
    lines: &mut Vec<String>,
) -> Result<(), Fault> {
    let bob = Key::from_text("bob")?;
    let third = Key::from_text("user-3")?;
    let note = Value::from_text(alloc, "")?;
    let mut session = manager.session(rt)?;
    let mut client = Client { rt, directory };
    let put = session.call_by(rt, users(), 1, Call::Put(bob, note), &mut client)?;
    let contains = session.call(rt, users(), 1, Call::Contains(bob))?;
    let known = session.contains_key(users(), &third, 2);
    drop(session);
    lines.push(format!(in alloc;
        "bob, without a note: {}, then {}",
        reply_text(alloc, &put)?,
        reply_text(alloc, &contains)?
    )?)?;
    lines.push(format!(in alloc; "user-3, beside the lock: {}", known == Lookup::Sure(true))?)?;
    Ok(())
}
