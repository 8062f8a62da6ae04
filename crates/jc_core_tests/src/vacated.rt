//! What is left of caches that were destroyed: nothing in the table.
ghost use Rattle.std.specs.Prelude.{◌≡◌};
ghost use Rattle.std.specs.FinMap as finite;

use crate::shapes::{NAMES, fill};
use jc_cuckoo::cuckoo::Cuckoo;
use jc_cuckoo::mirror::NoMirror;
use jc_engine::engine::Engine;
use jc_model::config::CacheConfig;
use jc_model::event::CacheId;
use jc_ring::link_ring::LinkRing;
use jc_ring::list_ring::ListRing;
use jc_ring::ring::Ring;
use jc_rows::list_rows::ListRows;
use jc_rows::rows::Rows;
use jc_trials::{ConstantPlacer, Trouble, done, key, plain_cache};
use std::alloc::Global;

/// What changes in a manager.
enum Change {
    /// Forty rows are put into the cache with this id.
    Fill(u32),
    Destroy(u32),
    Create(&'static str),
}

/// Two caches `a` and `b`, what changes, and how many of forty rows the first three ids have then.
static CHANGES: [(Change, [usize; 3]); 7] = [
    (Change::Fill(0), [40, 0, 0]),
    (Change::Fill(1), [40, 40, 0]),
    (Change::Destroy(0), [0, 40, 0]),
    (Change::Create("a"), [0, 40, 0]),
    (Change::Fill(2), [0, 40, 40]),
    (Change::Destroy(1), [0, 0, 40]),
    (Change::Destroy(2), [0, 0, 0]),
];

/// Makes a change. It is not refused.
fn make<R: Rows, G: Ring>(
    alloc: Global,
    manager: &mut Engine<R, G>,
    change: &Change,
) -> Result<(), Trouble> {
    match change {
        Change::Fill(id) => fill(alloc, manager, CacheId::new(*id)),
        Change::Destroy(id) => done(manager.destroy(CacheId::new(*id))),
        Change::Create(name) => done(manager.create(plain_cache(alloc, name, 64)?)),
    }
}

/// How many of the forty rows a cache has, and the table has of it.
fn held<R: Rows, G: Ring>(manager: &Engine<R, G>, number: u32) -> Result<(usize, usize), Trouble> {
    let id = CacheId::new(number);
    let (mut own, mut in_table) = (0usize, 0usize);
    for name in &NAMES {
        let key = key(name)?;
        if manager.has(id, &key, 0) {
            own = own.saturating_add(1);
        }
        if manager.rows().find(id, &key).is_some() {
            in_table = in_table.saturating_add(1);
        }
    }
    Ok((own, in_table))
}

/// The number of the first change after which there are other rows, if there is one.
fn first_other_rows<R: Rows, G: Ring>(
    alloc: Global,
    manager: &mut Engine<R, G>,
) -> Result<Option<usize>, Trouble> {
    for (number, (what, counts)) in CHANGES.iter().enumerate() {
        make(alloc, manager, what)?;
        let (mut is_so, mut all) = (true, 0usize);
        for (id, count) in (0u32..).zip(counts) {
            is_so &= held(manager, id)? == (*count, *count);
            all = all.saturating_add(*count);
        }
        if !is_so || manager.rows().len() != all {
            return Ok(Some(number));
        }
    }
    Ok(None)
}

fn two_caches(alloc: Global) -> Result<Vec<CacheConfig>, Trouble> {
    let caches = [plain_cache(alloc, "a", 64)?, plain_cache(alloc, "b", 64)?];
    Ok(Vec::from_array(alloc, caches)?)
}

/// The same, of a manager over this table.
fn first_other_over<R: Rows, G: Ring>(alloc: Global, rows: R) -> Result<Option<usize>, Trouble>
    requires { R.contents rows ≡ finite.empty }
{
    let mut manager = Engine::<R, G>::open(alloc, rows, two_caches(alloc)?)?;
    first_other_rows(alloc, &mut manager)
}

#[test]
fn rows_go_with_their_cache_alone(rt: HostRuntime) -> Result<(), Trouble> {
    let alloc = rt.alloc();
    let plain = first_other_over::<_, ListRing>(alloc, ListRows::new(alloc))?;
    assert_eq!(rt; plain, None);
    let table = Cuckoo::new(alloc, ConstantPlacer, NoMirror, 16)?;
    assert_eq!(rt; first_other_over::<_, LinkRing>(alloc, table)?, None);
    Ok(())
}
