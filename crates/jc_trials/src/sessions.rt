//! Sessions of a shared manager.

use crate::trouble::Trouble;
use jc_hooks::{FilteredListener, Loader, Processor, Writer};
use jc_shared::{Manager, Name, Session};
use std::alloc::Global;
use std::sync::Wait;

/// So many sessions of a manager.
pub fn seated<'a, N: Name, L: Loader, W: Writer, P: Processor, K: FilteredListener, R: Wait>(
    rt: &R,
    alloc: Global,
    manager: &'a Manager<N, L, W, P, K>,
    count: u32,
) -> Result<Vec<Session<'a, N, L, W, P, K>>, Trouble> {
    let mut sessions = Vec::new(alloc);
    for _ in 0..count {
        sessions.push(manager.session(rt)?)?;
    }
    Ok(sessions)
}
