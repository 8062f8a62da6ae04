//! The table of rows as buckets of four slots, two buckets for each key, with a stash for what finds no slot.
#![tactic(auto)]

mod change;
mod counts;
pub mod cuckoo;
mod double;
pub mod held;
pub mod index;
mod lookup;
pub mod mirror;
mod path;
mod queue;
mod scan;
mod table;
mod watched;
