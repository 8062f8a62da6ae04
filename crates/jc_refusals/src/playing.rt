//! The rows on managers, with a journal and without one.

use crate::manager::{Journaled, Manager, Plain};
use crate::memory::Memory;
use crate::row::Row;
use crate::scenes::Scene;
use crate::trouble::Trouble;
use jc_config::{Settings, read_config};
use jc_report::report;
use jc_script::{Line, read_script};
use std::alloc::Global;

/// The caches and the lines of a scene.
fn read(alloc: Global, scene: &Scene) -> Result<(Settings, Vec<Line>), Trouble> {
    let Ok(configuration) = read_config(alloc, scene.caches.as_bytes()) else {
        return Err(Trouble::Unread);
    };
    let settings = configuration.settings;
    match read_script(alloc, scene.calls.as_bytes(), &settings) {
        Ok(lines) => Ok((settings, lines)),
        Err(_) => Err(Trouble::Unread),
    }
}

/// A row that has been played.
fn row<M: Manager>(
    alloc: Global,
    memory: &mut Memory,
    scene: &Scene,
) -> Result<(Row<M>, Result<(), Trouble>), Trouble> {
    let (settings, lines) = read(alloc, scene)?;
    let opened = Row::<M>::open(alloc, memory, settings.caches());
    drop(settings);
    match opened {
        Ok(mut row) => {
            let played = row.play(memory, lines, scene.ends);
            Ok((row, played))
        }
        Err(trouble) => {
            drop(lines);
            Err(trouble)
        }
    }
}

/// The manager that a scene leaves.
fn played<M: Manager>(alloc: Global, memory: &mut Memory, scene: &Scene) -> Result<M, Trouble> {
    memory.give_back();
    let (row, played) = row::<M>(alloc, memory, scene)?;
    memory.give_back();
    let seen = row.see_all(memory);
    let manager = row.into_manager();
    match played.and(seen) {
        Ok(()) => Ok(manager),
        Err(trouble) => {
            drop(manager);
            Err(trouble)
        }
    }
}

/// The report of a scene: what its calls come to with a journal. Without one they come to the same.
pub fn report_of(alloc: Global, memory: &mut Memory, scene: &Scene) -> Result<String, Trouble> {
    drop(played::<Plain>(alloc, memory, scene)?);
    let manager = played::<Journaled>(alloc, memory, scene)?;
    let text = report(alloc, manager.transcript(), &[]);
    drop(manager);
    Ok(text?)
}
