//! The program's configuration: a TOML document that lists caches and the kinds of their callbacks.
#![tactic(auto)]

mod cache;
mod document;
mod fault;
mod kinds;
mod members;
mod name;
mod processors;
mod read;
mod settings;
mod totals;

pub use cache::read_cache;
pub use document::{read_document, tables};
pub use fault::{ConfigFault, Member};
pub use kinds::{
    CacheSettings, Configuration, HookKinds, LoaderKind, ProcessorKind, WriterKind, capacity_in,
    plain_cache,
};
pub use members::ExpiryKind;
pub use name::name_in;
pub use read::read_config;
pub use settings::Settings;
