//! Rows of calls whose allocations are refused, one after the other. The program takes all memory that the machine has,
//! and lets ever more of it go until a call is not refused. It prints what each row comes to, which is what it comes to
//! where nothing is refused; or what is not as it should be.
#![tactic(auto)]

mod answering;
mod attempt;
mod manager;
mod memory;
mod placer;
mod playing;
mod row;
mod scenes;
mod table;
mod trouble;
mod twin;

use crate::memory::Memory;
use crate::playing::report_of;
use crate::scenes::{SCENES, Scene};
use crate::table::{displaced, doubled};
use crate::trouble::Trouble;
use std::alloc::Global;
use std::{env, io};

/// Which row is meant.
#[derive(Clone, Copy)]
enum Which {
    Calls(&'static Scene),
    Displaced,
    Doubled,
}

/// What a row comes to.
fn text_of(alloc: Global, memory: &mut Memory, row: Which) -> Result<String, Trouble> {
    match row {
        Which::Calls(scene) => report_of(alloc, memory, scene),
        Which::Displaced => displaced(alloc, memory),
        Which::Doubled => doubled(alloc, memory),
    }
}

/// Prints what a row comes to. It is begun again where there may have been no memory for what stands around its calls.
fn tell(rt: &HostRuntime, memory: &mut Memory, name: &str, row: Which) -> io::Result<()> {
    let text = match text_of(rt.alloc(), memory, row) {
        Err(Trouble::Memory | Trouble::Unread | Trouble::NotOpened) => {
            text_of(rt.alloc(), memory, row)
        }
        text => text,
    };
    memory.give_back();
    match text {
        Ok(text) => print!(rt; "{name}: each refusal changed nothing\n{text}"),
        Err(trouble) => println!(rt; "{name}: {trouble:?}"),
    }
}

/// Prints what each row comes to.
fn tell_rows(rt: &HostRuntime, memory: &mut Memory) -> io::Result<()> {
    for scene in &SCENES {
        tell(rt, memory, scene.name, Which::Calls(scene))?;
    }
    tell(rt, memory, "a row moves another one", Which::Displaced)?;
    tell(rt, memory, "the buckets double", Which::Doubled)
}

/// Plays all rows where nothing is refused, so that the stack is as large as they need it: it can't grow where all memory
/// is taken.
fn rehearse(alloc: Global) {
    let mut memory = Memory::none(alloc);
    for scene in &SCENES {
        drop(report_of(alloc, &mut memory, scene));
    }
    drop(displaced(alloc, &mut memory));
    drop(doubled(alloc, &mut memory));
}

/// The memory that is held: none where the program is given a word, since others refuse allocations then.
fn held(rt: &HostRuntime) -> io::Result<Result<Memory, Trouble>> {
    let alloc = rt.alloc();
    if env::args(rt)?.count() > 1 {
        return Ok(Ok(Memory::none(alloc)));
    }
    rehearse(alloc);
    Ok(Memory::new(alloc))
}

fn main(rt: HostRuntime) -> io::Result<()> {
    let held = match held(&rt) {
        Err(_) => held(&rt)?,
        Ok(held) => held,
    };
    match held {
        Ok(mut memory) => tell_rows(&rt, &mut memory),
        Err(trouble) => println!(rt; "{trouble:?}"),
    }
}
