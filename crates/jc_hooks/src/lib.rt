//! The callbacks of a cache: loaders, writers, entry processors and listeners.
//!
//! Each trait states, as a ghost member, what its object answers, so that the code that asks it can say what it was
//! told. The traits are implemented for their own boxes: everything above is generic in the objects' types, and only a
//! program, a test or another caller names the boxed types.
#![tactic(auto)]

mod answer;
mod answering;
mod asking;
mod cache_hooks;
mod closure;
mod filter;
mod hook;
mod listener;
mod loader;
mod no_hooks;
mod processor;
pub mod program;
mod responder;
mod suiting;
mod tally;
mod telling;
mod telling_progress;
mod writer;

pub use answer::{load_answer, process_answer, write_answer};
pub use answering::answer_request;
pub use asking::{ask_loader, ask_processor, ask_to_delete, ask_to_write};
pub use cache_hooks::CacheHooks;
pub use closure::{
    ClosureFilter, ClosureLoader, ClosureProcessor, FilterClosure, LoadClosure, ProcessClosure,
};
pub use filter::{AdmitAll, Filter};
pub use hook::{FilteredListener, ListenerHook};
pub use listener::Listener;
pub use loader::{Loaded, Loader};
pub use no_hooks::{NoHooks, PlaceholderHooks, placeholder_hooks};
pub use processor::Processor;
pub use responder::Responder;
pub use suiting::{first_unsuited, suits};
pub use tally::{Tally, TallyListener};
pub use telling::tell_all;
pub use telling_progress::TellingProgress;
pub use writer::Writer;
