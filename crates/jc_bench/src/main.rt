//! Lookups and calls of a shared manager by many threads: how many, and how much time they took.
//!
//! `jc_bench KIND.. [--caches N] [--rows N] [--threads N] [--calls N] [--between N] [--sessions N] [--writers N]
//! [--apart] [--open] [--shards N] [--stashed] [--created] [--read-through] [--counts] [--delays]` prints a line for each
//! thread: what came of what it did, and in nanoseconds the time by the clock and of the processor, but for `--counts`; with
//! `--delays` how many calls took how long.
#![tactic(auto)]

mod asking;
mod caches;
mod delays;
mod fault;
mod jobs;
mod managers;
mod report;
mod timing;
mod words;

use std::process::ExitCode;

fn main(rt: HostRuntime) -> ExitCode {
    match report::run(&rt) {
        Ok(()) => ExitCode::SUCCESS,
        Err(fault) => fault.tell(&rt),
    }
}
