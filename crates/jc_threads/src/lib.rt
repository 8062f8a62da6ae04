//! The lines of a script, made by sessions on worker threads.
#![tactic(auto)]

mod batches;
mod dealing;
mod fault;
mod gate;
mod managing;
mod rounds;
mod together;
mod worker;

pub use fault::WorkFault;
pub use gate::{Gate, OpenGate};
pub use together::{Transcription, transcribed};
