//! What lies under the locks of a manager that threads share: the recorded engine, the callbacks of a cache, what a
//! session keeps of its own calls, and the comparison at the close.
#![tactic(auto)]

pub mod auditing;
pub mod event_count;
pub mod fault;
mod ghost_number;
pub mod guarded_state;
pub mod hooks;
pub mod journal_policy;
pub mod name;
pub mod seat;
pub mod tables;
