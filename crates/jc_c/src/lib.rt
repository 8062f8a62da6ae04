//! The manager as C calls it: `include/jcache.h` declares these functions and says what each does.
//! A handle is a place of the caller's, empty at null. Each call takes the manager out of its
//! handle and puts it back.
#![tactic(auto)]

mod bytes;
mod calls;
mod desk;
mod desks;
mod exports;
mod ffi_manager;
mod ffi_settings;
mod items;
pub mod laws;
mod looks;
mod names;
mod placer;
mod put;
mod reading;
mod saved;
mod status;
mod taken;
mod walk;
