//! What words ask for.

use crate::run::{Explain, Format, Run};

/// A check of a configuration and, where its path is there, of a script. Whether all faults are told; `strict` and
/// `explain` are a run's.
#[derive(Drop)]
pub struct Check {
    pub config: String,
    pub script: Option<String>,
    pub strict: bool,
    pub all: bool,
    pub explain: Explain,
}

/// A replay of a trace on a cache of each of these capacities, in their order, and the form of its table.
#[derive(Drop)]
pub struct Replay {
    pub trace: String,
    pub capacities: Vec<u32>,
    pub format: Format,
    pub explain: Explain,
}

/// What the program is to do.
#[derive(Drop)]
pub enum Asked {
    /// Run a script.
    Run(Run),
    /// Read the files and run nothing.
    Check(Check),
    /// Count the lookups of a trace that find a value.
    Replay(Replay),
}
