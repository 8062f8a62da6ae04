//! When rows expire, and how the counters of a cache go on.
#![tactic(auto)]

pub mod counters;
pub mod expiry;
