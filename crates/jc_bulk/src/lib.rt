//! Every call on one cache: on one key, on many, and at once.
#![tactic(auto)]

mod bulk;
pub mod call;
mod call_sum;
mod entries;
mod lists;
mod provide;
mod steps;
pub mod waits;
