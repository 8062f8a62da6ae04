//! Caches as bytes: one spelling for each cache, written, and read back to the first fault.
#![tactic(auto)]

mod cache;
mod fault;
mod fields;
mod head;
pub mod laws;
mod limits;
mod piece;
mod restoring;
mod rows;
mod saving;

pub use cache::{Mark, SavedCache, SavedRow};
pub use fault::{Flaw, SaveFault, SaveRefusal};
pub use limits::SAVED_BYTES;
pub use restoring::restore;
pub use saving::{put_head, put_row, save, save_into};

#[cfg(test)]
mod tests;
