//! A run from its words to its lines.
use crate::fault::Fault;
use crate::jobs::Done;
use crate::managers::play;
use crate::words::read_words;
use std::alloc::AllocGlobal;
use std::env::Env;
use std::io::Print;
use std::sync::Wait;
use std::thread::Threads;
use std::time::{Clock, CpuClock};
use std::{env, io};

fn print_counts<R: Print>(rt: &R, done: &Done) -> io::Result<()> {
    let counts = done.came.counts;
    print!(rt;
        "{} yes={} no={} unsure={} refused={}",
        done.kind.word(),
        counts.yes,
        counts.no,
        counts.unsure,
        counts.refused
    )
}

fn print_times<R: Print>(rt: &R, done: &Done) -> io::Result<()> {
    print!(rt;
        " wall={} processor={}",
        done.took.wall, done.took.processor
    )
}

/// The lengths that calls had, each with how many had it, as four times a power of two and the quarters beyond it.
fn print_delays<R: Print>(rt: &R, done: &Done) -> io::Result<()> {
    print!(rt; " delays=")?;
    for (place, count) in done.came.delays.counts.iter().enumerate() {
        if *count > 0 {
            print!(rt; "{place}:{count},")?;
        }
    }
    Ok(())
}

/// Does what the words ask for, and prints a line for each thread.
pub fn run<R: Threads + Wait + Clock + CpuClock + Sync + Env + Print + AllocGlobal>(
    rt: &R,
) -> Result<(), Fault> {
    let alloc = rt.alloc();
    let words: Vec<String> = env::args(rt)?.skip(1).collect(alloc)?;
    let asked = read_words(alloc, words.as_slice())?;
    for kind in &asked.kinds {
        for done in &play(rt, alloc, *kind, asked.size, asked.managers)? {
            print_counts(rt, done)?;
            if !asked.counts {
                print_times(rt, done)?;
            }
            if asked.size.timed {
                print_delays(rt, done)?;
            }
            println!(rt)?;
        }
    }
    Ok(())
}
