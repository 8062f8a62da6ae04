//! Replaying a trace of keys: how many lookups find a value, by the capacity of the cache.
#![tactic(auto)]

mod fault;
mod lookup;
mod ratio;
mod replaying;
mod table;
mod table_json;
mod trace;

pub use fault::ReplayFault;
pub use ratio::HitRatio;
pub use replaying::{replay, replay_json, replay_table};
pub use table::table_text;
pub use table_json::json_table;
