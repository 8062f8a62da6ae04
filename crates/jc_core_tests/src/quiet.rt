//! What others are told of the table: which slots are emptied and filled; nothing, where nothing changes there.

use crate::shapes::{Places, holds_all, placer_of};
use jc_config::{Configuration, read_config};
use jc_cuckoo::cuckoo::Cuckoo;
use jc_engine::recorded::Recorded;
use jc_model::OutOfMemory;
use jc_model::config::CacheConfig;
use jc_ring::link_ring::LinkRing;
use jc_script::{Line, read_script};
use jc_trials::{ConstantPlacer, Log, NotedMirror, Trouble, done};
use std::alloc::Global;

type Counted = Recorded<Cuckoo<ConstantPlacer, NotedMirror>, LinkRing>;

const CACHES: &str = r#"
[[cache]]
name = "a"
capacity = 2

[[cache]]
name = "b"
capacity = 2
expiry = "accessed"
duration = 10
"#;

/// Lines, and how many images each tells.
static LINES: [(&str, u64); 24] = [
    (r#"{"s":0,"c":"a","at":0,"op":"put","k":"x","v":"1"}"#, 1),
    (r#"{"s":0,"c":"a","at":5,"op":"get","k":"x"}"#, 0),
    (r#"{"s":0,"c":"a","at":5,"op":"get","k":"y"}"#, 0),
    (r#"{"s":0,"c":"a","at":5,"op":"contains","k":"x"}"#, 0),
    (r#"{"s":0,"c":"a","at":5,"op":"put","k":"x","v":"2"}"#, 0),
    (
        r#"{"s":0,"c":"a","at":5,"op":"put_if_absent","k":"x","v":"3"}"#,
        0,
    ),
    (
        r#"{"s":0,"c":"a","at":5,"op":"replace","k":"x","v":"4"}"#,
        0,
    ),
    (
        r#"{"s":0,"c":"a","at":5,"op":"remove_if","k":"x","expect":"9"}"#,
        0,
    ),
    (r#"{"s":0,"c":"a","at":5,"op":"remove","k":"y"}"#, 0),
    (r#"{"s":0,"c":"a","at":5,"op":"get_all","ks":["x","y"]}"#, 0),
    (r#"{"s":0,"c":"a","at":5,"op":"entries"}"#, 0),
    (r#"{"s":0,"c":"a","at":5,"op":"stats"}"#, 0),
    (
        r#"{"s":0,"c":"a","at":5,"op":"put_all","kvs":[["y","1"],["z","1"]]}"#,
        3,
    ),
    (r#"{"s":0,"c":"a","at":5,"op":"remove","k":"z"}"#, 1),
    (r#"{"s":0,"c":"b","at":0,"op":"put","k":"x","v":"1"}"#, 1),
    (r#"{"s":0,"c":"b","at":5,"op":"get","k":"x"}"#, 1),
    (r#"{"s":0,"c":"b","at":5,"op":"get","k":"x"}"#, 0),
    (r#"{"s":0,"c":"b","at":5,"op":"contains","k":"x"}"#, 0),
    (r#"{"s":0,"c":"b","at":15,"op":"get","k":"x"}"#, 1),
    (r#"{"s":0,"c":"b","at":15,"op":"get","k":"x"}"#, 0),
    (r#"{"s":0,"c":"c","at":15,"op":"create","capacity":2}"#, 0),
    (r#"{"s":0,"c":"b","at":15,"op":"destroy"}"#, 0),
    (r#"{"s":0,"c":"a","at":15,"op":"put","k":"y","v":"1"}"#, 1),
    (r#"{"s":0,"c":"a","at":15,"op":"destroy"}"#, 2),
];

/// A manager of these caches, over a table that notes the images that it tells.
fn counted(alloc: Global, caches: Vec<CacheConfig>, told: &Log) -> Result<Counted, Trouble> {
    let log = told.share()?;
    let table = Cuckoo::new(alloc, ConstantPlacer, NotedMirror { log }, 16)?;
    Ok(Counted::open(alloc, table, caches)?)
}

/// Does what a line asks for.
fn obey(manager: &mut Counted, line: Line) -> Result<(), Trouble> {
    match line {
        Line::Call(made) => done(manager.begin(made.session, made.id, made.at, made.call)),
        Line::Create { config, .. } => done(manager.create(config)),
        Line::Destroy { id, .. } => done(manager.destroy(id)),
    }
}

/// The number of the first line that tells more or fewer images, if there is one.
fn first_other(
    manager: &mut Counted,
    lines: Vec<Line>,
    told: &Log,
) -> Result<Option<usize>, Trouble> {
    for (number, line) in lines.into_iter().enumerate() {
        let before = told.count();
        obey(manager, line)?;
        let images = told.count().wrapping_sub(before);
        if LINES.get(number).map(|wanted| wanted.1) != Some(images) {
            return Ok(Some(number));
        }
    }
    Ok(None)
}

/// The lines' texts, as one script.
fn script(alloc: Global) -> Result<String, OutOfMemory> {
    let mut script = String::new(alloc);
    for (text, _) in &LINES {
        script.push_str(text)?;
        script.push_str("\n")?;
    }
    Ok(script)
}

/// How many lines there are, and the first one that tells more or fewer images, if there is one.
fn played(alloc: Global) -> Result<(usize, Option<usize>), Trouble> {
    let told = Log::new(alloc, 0)?;
    let script = script(alloc)?;
    let Configuration { settings, .. } = read_config(alloc, CACHES.as_bytes())?;
    let lines = read_script(alloc, script.as_bytes(), &settings)?;
    let count = lines.len();
    let mut manager = counted(alloc, settings.into_caches(), &told)?;
    let other = first_other(&mut manager, lines, &told)?;
    Ok((count, other))
}

#[test]
fn what_changes_nothing_is_not_told(rt: HostRuntime) -> Result<(), Trouble> {
    assert_eq!(rt; played(rt.alloc())?, (LINES.len(), None));
    Ok(())
}

/// Nine rows are put, four into each of two buckets and one more that finds both full: the first row of the second bucket
/// moves to its other one, 14, and the ninth takes its slot. A bucket has four slots.
const MOVED: &[u8] = b"00a 01b 02c 03d 20e 21f 22g 23h 20-56e 20i ";

/// What is told of them.
fn told_of_nine(alloc: Global) -> Result<Vec<u8>, Trouble> {
    let told = Log::new(alloc, 16)?;
    let log = told.share()?;
    let placer = placer_of(Places::TwoFull);
    let mut table = Cuckoo::new(alloc, placer, NotedMirror { log }, 16)?;
    holds_all(&mut table, 9, 1)?;
    Ok(told.text(alloc)?)
}

#[test]
fn a_row_that_moves_is_told_with_its_slots(rt: HostRuntime) -> Result<(), Trouble> {
    assert_eq!(rt; told_of_nine(rt.alloc())?.as_slice(), MOVED);
    Ok(())
}
