//! The state of one cache, its rows in the shared table, and the operations on them.
#![tactic(auto)]

pub mod clock;
pub mod hit;
pub mod notices;
mod places;
pub mod slots;
pub mod state;
pub mod step;
pub mod stored;
pub mod supply;
pub mod visit;
