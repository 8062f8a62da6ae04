//! The ring by which a cache chooses what makes room (CLOCK; MemC3, section 4): linked, and as a plain reference body.
#![tactic(auto)]

pub mod link_ring;
pub mod list_ring;
pub mod ring;
