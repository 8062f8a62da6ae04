//! The shared index: images of the table of rows in shared words, and lookups that never wait (MemC3, section 3).
//!
//! Below it are sequence locks over striped words: one thread writes, many read with no lock and no wait. A stripe's
//! version is its sequence counter, odd while the writer is in it; a reader reads versions, words, and the versions
//! again. The `Board` is the shared table of words; a seat is the right to take steps on it, with what its owner knows
//! (`Desk`, the writer's; `Glance`, what one lookup has read); a front is the list of what is known to have been
//! committed; a `Roll` is a list that exists in proofs alone; a `Lineage` is the tables that followed one another by
//! growth.
#![tactic(auto)]

mod batch;
mod board;
mod change;
mod fill;
mod keeper;
mod layout;
mod lineage;
mod look;
pub mod lookup;
mod member;
pub mod naming;
pub mod pass;
mod placed;
mod reader;
mod roll;
mod slot;
mod sought;
mod stroke;
mod versions;
pub mod words;
mod writer;
