//! What a person needs to mend a fault: lines that are told below the fault's own.
#![tactic(auto)]

mod config;
mod config_faults;
mod every;
mod found;
mod kept;
mod lines;
mod methods;
mod other;
mod place;
mod policy;
mod script;
mod shape;
mod spelling;
mod stranger;
mod stray;
mod together;
mod trace;
mod twice;
mod unread;
mod words;

pub use config::{explain_config, explain_no_caches};
pub use config_faults::all_config_faults;
pub use every::{all_faults, all_strays};
pub use kept::Kept;
pub use script::{explain_script, explain_too_long};
pub use spelling::nearest;
pub use stray::explain_stray;
pub use trace::explain_key;
pub use unread::{explain_path, explain_unread};
