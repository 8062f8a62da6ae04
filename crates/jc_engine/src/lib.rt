//! The manager of many caches over one table of rows: which calls are open, and how they go on;
//! and the same with a journal of its calls, which tells of all of them, whatever it keeps of them in memory.
#![tactic(auto)]

mod cache;
pub mod engine;
pub mod journal;
pub mod laws;
mod lives;
mod looks;
mod moves;
pub mod open;
pub mod recorded;
pub mod restoring;
mod run;
mod saving;
pub mod turn;
