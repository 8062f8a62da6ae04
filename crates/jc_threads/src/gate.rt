//! What stands round each call of a run on threads.

/// A gate that the workers pass before and after each call. It may hold one back until another has passed.
pub trait Gate: Sync {
    /// Before a session makes the call of a line; `line` is which of the session's calls, from 0.
    fn before(&self, session: u32, line: usize);

    /// After that call, whether it has a reply or not.
    fn after(&self, session: u32, line: usize);
}

/// A gate that holds no one back.
#[derive(Drop)]
pub struct OpenGate;

impl Gate for OpenGate {
    fn before(&self, _session: u32, _line: usize) {}

    fn after(&self, _session: u32, _line: usize) {}
}
