//! Plays those examples in the files that lie where the program runs which `jcache` itself can't play.
//!
//! `cases.txt` lists all. Of the example `NAME` that has no words behind it, the configuration `NAME.toml` and the script
//! `NAME.jsonl` are run over other tables than `jcache` has: the report is the same. `NAME events of FILE on CONFIG` is for
//! calls whose requests the file answers. All others are passed over: `jcache` plays them, beside the gate.
#![tactic(auto)]

mod answers;
mod events;
mod over;
mod texts;

use crate::events::play_events;
use crate::over::play_files;
use std::fs::Files;
use std::{fs, io};

/// Prints an example's name, and then what it comes to.
fn play<R: Files + Print + AllocGlobal>(rt: &R, line: &str) -> io::Result<()> {
    let words: Vec<&str> = line.split_whitespace().collect(rt.alloc())?;
    match words.as_slice() {
        [name] => {
            println!(rt; "# {name}")?;
            play_files(rt, name)
        }
        [name, first, _, events, _, config] if *first == "events" => {
            println!(rt; "# {name}")?;
            play_events(rt, config, events)
        }
        _ => Ok(()),
    }
}

fn main(rt: HostRuntime) -> io::Result<()> {
    let list = fs::read_to_string(&rt, "cases.txt")?;
    for line in list.lines() {
        if !line.starts_with("#") {
            play(&rt, line)?;
        }
    }
    Ok(())
}
