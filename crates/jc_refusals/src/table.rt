//! The memory of the table alone: room for rows, and twice the buckets, are refused in turn. What displaces rows, or
//! brings them into the stash, takes none.

use crate::memory::{MOST_LEFT, Memory, STEP};
use crate::placer::ByCase;
use crate::trouble::Trouble;
use jc_cuckoo::cuckoo::Cuckoo;
use jc_cuckoo::held::Shape;
use jc_cuckoo::mirror::NoMirror;
use jc_model::config::Expiry;
use jc_model::event::CacheId;
use jc_model::key::Key;
use jc_rows::rows::Rows;
use std::alloc::Global;

type Table = Cuckoo<ByCase, NoMirror>;

/// Keys that share two buckets.
static SHARING: [&str; 20] = [
    "a", "b", "c", "d", "e", "f", "g", "h", "i", "j", "k", "l", "m", "n", "o", "p", "q", "r", "s",
    "t",
];

/// Keys of which the first four fill the first bucket of the last, and the next four its second.
static DISPLACED: [&str; 9] = ["a", "b", "c", "d", "A", "B", "C", "D", "e"];

/// Doubling takes memory for tags, for cells, for the index of the stash and for the list of its rows.
const LEAST_REFUSALS: u32 = 4;

/// So many rows are looked up.
const MOST_ROWS: u32 = 40;

/// How many buckets a table has at first.
const BUCKETS: u32 = 16;

/// The first row, from 0, whose put finds rows for half of the slots, and doubles the buckets.
const DOUBLING: u32 = 32;

/// Keys whose rows are put one after the other, into each of so many caches in turn.
#[derive(Clone, Copy)]
struct Order {
    names: &'static [&'static str],
    caches: u32,
}

/// Rows that are put into a table.
#[derive(Drop)]
struct Filling {
    table: Table,
    order: Order,
    /// How often room for a row was refused.
    refusals: u32,
}

impl Order {
    /// The cache and the key of the row with this number.
    fn place_of(self, row: u32) -> Result<(CacheId, Key), Trouble> {
        let caches = self.caches.max(1);
        let name = self.names.get((row / caches) as usize).unwrap_or(&"none");
        match Key::from_text(name) {
            Ok(key) => Ok((CacheId::new(row % caches), key)),
            Err(_) => Err(Trouble::Unread),
        }
    }

    /// Whether of so many rows the first ones are found, up to this number, and no others.
    fn holds(self, table: &Table, rows: u32, count: u32) -> Result<bool, Trouble> {
        for row in 0..rows {
            let (id, key) = self.place_of(row)?;
            let held = if row < count { Some(row) } else { None };
            if table.find(id, &key) != held {
                return Ok(false);
            }
        }
        Ok(true)
    }
}

impl Filling {
    /// A table without rows, before all memory is taken.
    fn new(alloc: Global, memory: &mut Memory, order: Order) -> Result<Filling, Trouble> {
        let Ok(table) = Cuckoo::new(alloc, ByCase, NoMirror, BUCKETS) else {
            return Err(Trouble::Memory);
        };
        memory.take_all()?;
        Ok(Filling {
            table,
            order,
            refusals: 0,
        })
    }

    /// Sees that the table has this shape, and the first so many rows.
    fn see(&self, shape: Shape, count: u32) -> Result<(), Trouble> {
        if self.table.shape() == shape && self.order.holds(&self.table, MOST_ROWS, count)? {
            Ok(())
        } else {
            Err(Trouble::Changed)
        }
    }

    /// Makes room for one row more than these, with ever more memory until it is not refused.
    fn make_room(&mut self, memory: &mut Memory, row: u32) -> Result<(), Trouble> {
        let shape = self.table.shape();
        let all = self.table.len().saturating_add(1);
        for bytes in (0..MOST_LEFT).step_by(STEP) {
            memory.leave(bytes)?;
            if self.table.make_room(all).is_ok() {
                return Ok(());
            }
            self.refusals = self.refusals.saturating_add(1);
            self.see(shape, row)?;
        }
        Err(Trouble::StillRefused)
    }

    /// Puts a row, for which there is room.
    fn put(&mut self, row: u32) -> Result<(), Trouble> {
        let (id, key) = self.order.place_of(row)?;
        if self.table.find(id, &key).is_some() {
            return Err(Trouble::Changed);
        }
        let Some(all) = self.table.len().checked_add(1) else {
            return Err(Trouble::Memory);
        };
        if self.table.make_room(all).is_err() {
            return Err(Trouble::TakesMemory);
        }
        self.table.put(id, key, row, Expiry::Never);
        Ok(())
    }

    /// Puts a row for which there is room and no memory else.
    fn put_without_memory(&mut self, memory: &mut Memory, row: u32) -> Result<(), Trouble> {
        self.make_room(memory, row)?;
        memory.leave(0)?;
        self.put(row)
    }

    /// Puts the row at which the buckets double, with ever more memory until they do. Until then it is in the stash, and
    /// is taken out again.
    fn double(&mut self, memory: &mut Memory) -> Result<(), Trouble> {
        self.make_room(memory, DOUBLING)?;
        let (id, key) = self.order.place_of(DOUBLING)?;
        let before = self.table.shape();
        let mut stashed = before;
        stashed.in_stash = stashed.in_stash.saturating_add(1);
        let mut refusals = 0u32;
        for bytes in (0..MOST_LEFT).step_by(STEP) {
            memory.leave(bytes)?;
            self.put(DOUBLING)?;
            if self.table.shape().buckets > BUCKETS {
                memory.see_refused(refusals, LEAST_REFUSALS)?;
                return Ok(());
            }
            refusals = refusals.saturating_add(1);
            self.see(stashed, DOUBLING + 1)?;
            let _ = self.table.remove(id, &key);
            self.see(before, DOUBLING)?;
        }
        Err(Trouble::StillRefused)
    }

    /// The table. Room was refused for some row.
    fn close(self, memory: &Memory) -> Result<Table, Trouble> {
        memory.see_refused(self.refusals, 1)?;
        Ok(self.table)
    }
}

/// What a table comes to: its shape, how many rows its last put moved, and whether it holds all rows.
fn told(alloc: Global, table: &Table, order: Order) -> Result<String, Trouble> {
    let Shape {
        buckets,
        in_buckets,
        in_stash,
    } = table.shape();
    let moves = table.work().moves;
    let count = in_buckets.saturating_add(in_stash).min(MOST_ROWS as usize) as u32;
    let found = order.holds(table, MOST_ROWS, count)?;
    let text = format!(in alloc;
        "{buckets} buckets, {in_buckets} rows in them, {in_stash} in the stash; moved {moves}; found {found}\n"
    )?;
    Ok(text)
}

/// Nine rows, the last of which moves another one. Only room takes memory.
pub fn displaced(alloc: Global, memory: &mut Memory) -> Result<String, Trouble> {
    let order = Order {
        names: &DISPLACED,
        caches: 1,
    };
    let mut filling = Filling::new(alloc, memory, order)?;
    for row in 0..9 {
        filling.put_without_memory(memory, row)?;
    }
    memory.give_back();
    told(alloc, &filling.close(memory)?, order)
}

/// Forty rows of two caches, of which the 33rd doubles the buckets.
pub fn doubled(alloc: Global, memory: &mut Memory) -> Result<String, Trouble> {
    let order = Order {
        names: &SHARING,
        caches: 2,
    };
    let mut filling = Filling::new(alloc, memory, order)?;
    for row in 0..DOUBLING {
        filling.put_without_memory(memory, row)?;
    }
    filling.double(memory)?;
    for row in DOUBLING + 1..MOST_ROWS {
        filling.put_without_memory(memory, row)?;
    }
    memory.give_back();
    told(alloc, &filling.close(memory)?, order)
}
