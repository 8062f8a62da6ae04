//! What tests share: callbacks that note what they are asked, places that a test picks, mirrors and tables that find no
//! memory when it says so, and why a test did not go on.
#![tactic(auto)]

mod fakes;
mod log;
mod placers;
mod refusing;
mod sessions;
mod trouble;

pub use fakes::{
    EVERY_KIND, EXPIRED_ALONE, KindFilter, NotedHook, NotedListener, NotedLoader, NotedProcessor,
    NotedWriter, OncePoor, noted_listeners,
};
pub use log::{Log, Text};
pub use placers::{ConstantPlacer, TablePlacer};
pub use refusing::{NotedMirror, RefusingMirror, RefusingRows};
pub use sessions::seated;
pub use trouble::{Trouble, done, is, key, no_hooks, plain_cache, value_of};
