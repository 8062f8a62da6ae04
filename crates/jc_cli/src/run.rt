//! A run that words ask for.

/// In which form a run's report is told: as text for people, or as an object of JSON a line for programs.
#[derive(Clone, Copy, Debug, PartialEq, Eq)]
pub enum Format {
    Text,
    Json,
}

/// When a fault is explained: always, never, or where standard error is a terminal.
#[derive(Clone, Copy, Debug, PartialEq, Eq)]
pub enum Explain {
    Always,
    Never,
    Auto,
}

/// One run of the program: two paths, the number of workers, the table's seed, whether one thread makes all calls, the
/// report's form, whether members that an op does not need are refused, and when a fault is explained.
#[derive(Drop)]
pub struct Run {
    pub config: String,
    pub script: String,
    pub workers: u8,
    pub seed: u64,
    pub serial: bool,
    pub format: Format,
    pub strict: bool,
    pub explain: Explain,
}

/// The options of a run.
#[derive(Clone, Copy)]
pub struct Options {
    pub workers: u8,
    pub seed: u64,
    pub serial: bool,
    pub format: Format,
    pub strict: bool,
    pub explain: Explain,
}
