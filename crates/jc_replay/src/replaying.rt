//! Whole replays.
ghost use Rattle.std.specs.Prelude.{◌≡◌, ◌≤◌, ◌+◌, [], IfOk, length, map, string_bytes};
ghost use Rattle.std.specs.FinMap as finite;
ghost use Rattle.std.specs.List.{All};
ghost use Rattle.jc_model.specs.Limits.{most_rows, text_bytes};
ghost use Rattle.jc_cuckoo.specs.Cells.{rows_in};
ghost use Rattle.jc_engine.specs.Caches.{lives_of};
ghost use Rattle.jc_replay.specs.Hits.{replay_config, first_lives, hits_from, ratio_of, replay_ratios, IsCapacity};
ghost use Rattle.jc_replay.specs.Table.{replay_table};
ghost use Rattle.jc_replay.specs.TableJson.{replay_json};
ghost use Rattle.jc_replay.specs.Trace.{GivesReplay};

use crate::fault::ReplayFault;
use crate::lookup::meet;
use crate::ratio::HitRatio;
use crate::table::table_text;
use crate::table_json::json_table;
use crate::trace::read_trace;
use jc_cuckoo::cuckoo::{Cuckoo, TableRefusal};
use jc_cuckoo::mirror::NoMirror;
use jc_engine::engine::Engine;
use jc_engine::open::OpenRefusal;
use jc_model::OutOfMemory;
use jc_model::config::CacheConfig;
use jc_model::key::Key;
use jc_model::value::Value;
use jc_place::seeded::SeededPlacer;
use jc_ring::link_ring::LinkRing;
use jc_ring::ring::Ring;
use jc_rows::rows::Rows;
use std::alloc::{AllocError, Global};

/// How many buckets a table has at first.
const BUCKETS: u32 = 64;

/// A table without rows. The seed picks the places of its rows.
fn table(alloc: Global, seed: u64) -> Result<Cuckoo<SeededPlacer, NoMirror>, OutOfMemory>
    ensures { IfOk result (λ table. rows_in table.cells ≡ finite.empty) }
{
    match Cuckoo::new(alloc, SeededPlacer::new(seed), NoMirror, BUCKETS) {
        Ok(table) => Ok(table),
        Err(TableRefusal::OutOfMemory) => Err(AllocError),
        Err(TableRefusal::BadBuckets) => unreachable!(),
    }
}

/// The configuration of a replay's cache.
fn config_of(alloc: Global, capacity: u32) -> CacheConfig
    ensures { result ≡ replay_config capacity }
{
    match Key::from_text("replay") {
        Ok(name) => CacheConfig::new(alloc, name, capacity),
        Err(_) => unreachable!(),
    }
}

/// A manager of one cache of this capacity, over an empty table.
fn open_engine<R: Rows>(
    alloc: Global,
    rows: R,
    capacity: u32,
) -> Result<Engine<R, LinkRing>, OutOfMemory>
    requires empty { R.contents rows ≡ finite.empty }
    requires capacity { IsCapacity capacity }
    ensures { IfOk result (λ engine. lives_of engine ≡ first_lives capacity) }
{
    let mut configs = Vec::new(alloc);
    configs.push(config_of(alloc, capacity))?;
    match Engine::open(alloc, rows, configs) {
        Ok(engine) => Ok(engine),
        Err(OpenRefusal::OutOfMemory) => Err(AllocError),
        Err(_) => unreachable!(),
    }
}

/// How many lookups of the keys find a value, on a manager of one cache.
fn count_hits<R: Rows, G: Ring>(
    engine: &mut Engine<R, G>,
    keys: &[Key],
    empty: &Value,
) -> Result<u32, OutOfMemory>
    requires empty { empty.now ≡ [] }
    requires few { length keys.now ≤ text_bytes + 1 }
    ensures { IfOk result (λ hits. hits ≡ hits_from (lives_of engine.old) keys.now) }
{
    let mut hits = 0;
    for key in keys {
        hits += u32::from(meet(engine, *key, empty)?);
    }
    Ok(hits)
}

/// Replays keys on one cache.
fn replay_at(
    alloc: Global,
    keys: &[Key],
    empty: &Value,
    capacity: u32,
    seed: u64,
) -> Result<HitRatio, OutOfMemory>
    requires empty { empty.now ≡ [] }
    requires few { length keys.now ≤ text_bytes + 1 }
    requires capacity { IsCapacity capacity }
    ensures { IfOk result (λ ratio. ratio ≡ ratio_of keys.now capacity) }
{
    let mut engine = open_engine(alloc, table(alloc, seed)?, capacity)?;
    let hits = count_hits(&mut engine, keys, empty)?;
    Ok(HitRatio {
        capacity,
        lookups: keys.len() as u32,
        hits,
    })
}

fn empty_value(alloc: Global) -> Result<Value, OutOfMemory>
    ensures { IfOk result (λ value. value ≡ []) }
{
    match Value::new(alloc, Vec::new(alloc)) {
        Ok(value) => Ok(value),
        Err(_) => Err(AllocError),
    }
}

/// Replays keys on a cache of each capacity.
fn replay_all(
    alloc: Global,
    keys: &[Key],
    capacities: &[u32],
    seed: u64,
) -> Result<Vec<HitRatio>, OutOfMemory>
    requires few { length keys.now ≤ text_bytes + 1 }
    requires capacities { All IsCapacity capacities.now }
    ensures { IfOk result (λ ratios. ratios.items ≡ map (ratio_of keys.now) capacities.now) }
{
    let empty = empty_value(alloc)?;
    let mut ratios = Vec::new(alloc);
    for capacity in capacities {
        ratios.push(replay_at(alloc, keys, &empty, *capacity, seed)?)?;
    }
    Ok(ratios)
}

/// Replays a trace of keys, one a line, on a cache of each of these capacities: every key is looked up, and where that
/// finds no value an empty one is put under it, all at moment 0. No row expires, and there are no callbacks. An empty
/// line of the trace is passed over, and counted.
///
/// `TooLong`; `BadKey` with the first line that is no key; `OutOfMemory`, at any point. The seed picks the places in
/// the table, and changes nothing of the result.
pub fn replay(
    alloc: Global,
    trace: &[u8],
    capacities: &[u32],
    seed: u64,
) -> Result<Vec<HitRatio>, ReplayFault>
    requires { All IsCapacity capacities.now }
    ensures { GivesReplay (λ ratios. ratios.items) result (replay_ratios trace.now capacities.now) }
{
    let keys = read_trace(alloc, trace)?;
    let ratios = replay_all(alloc, keys.as_slice(), capacities, seed)?;
    Ok(ratios)
}

/// The table of such a replay.
pub fn replay_table(
    alloc: Global,
    trace: &[u8],
    capacities: &[u32],
    seed: u64,
) -> Result<String, ReplayFault>
    requires { All IsCapacity capacities.now }
    ensures { GivesReplay string_bytes result (replay_table trace.now capacities.now) }
{
    let ratios = replay(alloc, trace, capacities, seed)?;
    let text = table_text(alloc, ratios.as_slice())?;
    Ok(text)
}

/// The same table as JSON.
pub fn replay_json(
    alloc: Global,
    trace: &[u8],
    capacities: &[u32],
    seed: u64,
) -> Result<String, ReplayFault>
    requires { All IsCapacity capacities.now }
    ensures { GivesReplay string_bytes result (replay_json trace.now capacities.now) }
{
    let ratios = replay(alloc, trace, capacities, seed)?;
    let text = json_table(alloc, ratios.as_slice())?;
    Ok(text)
}
